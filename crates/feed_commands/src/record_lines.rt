//! A record that is read line by line, as often as it has to be.

ghost use Rattle.std.specs.Prelude.{◌≡◌, ℕ, List, Option, None, Some, IfErr, IfOk};
ghost use Rattle.feed_commands.specs.DeviceLines.{FailsToOpen};

use crate::device_lines::DeviceLines;
use feed_http::device::FeedRead;
use feed_records::{Front, Lines, Replayed, Unread};
use std::alloc::Global;

/// A record that can be opened at its beginning any number of times.
pub trait Recording {
    /// What it is read by.
    type Reader: FeedRead + Drop;

    // Its bytes, where they are known.
    ghost text: { Self → Option (List ℕ) } = { λ _. None };

    // It can't be opened.
    ghost shut: { Self → Type 0 };

    /// Opens it at its beginning.
    fn open(&self) -> Result<Self::Reader, Unread>
        ensures ok { (bytes : List ℕ) → text self.now ≡ Some bytes
            → IfOk result (λ reader. Self.Reader.remaining reader ≡ Some bytes) }
        ensures err { IfErr result (FailsToOpen (shut self.now)) };
}

/// The lines of a record.
#[derive(Drop)]
pub struct RecordLines<R: Recording> {
    source: R,
    lines: DeviceLines<R::Reader>,
}

impl<R: Recording + Drop> RecordLines<R> {
    ghost use Rattle.feed_commands.specs.RecordLines.{record_of};

    /// The lines of a record from its beginning, which is opened for that.
    pub fn open(alloc: Global, source: R) -> Result<RecordLines<R>, Unread>
        ensures source { IfOk result (λ lines. record_of lines ≡ source) }
        ensures err { IfErr result (FailsToOpen (R.shut source)) }
    {
        let input = source.open()?;
        Ok(RecordLines {
            source,
            lines: DeviceLines::new(alloc, input),
        })
    }
}

impl<R: Recording> Lines for RecordLines<R> {
    ghost use Rattle.feed_commands.specs.DeviceLines.{front_of, given_of, input_of, left_of, room_of, FailsToReplay};

    ghost left = { λ it. left_of R.Reader.remaining it.lines };

    ghost whole = { λ it. R.text it.source };

    ghost front = { λ it. front_of it.lines };

    ghost room = { λ it. room_of it.lines };

    ghost unread = { λ it why. FailsToReplay (R.shut it.source)
        (R.Reader.failures (input_of it.lines)) (given_of it.lines) why };

    fn look(&mut self) -> Result<Front, Unread> {
        self.lines.look()
    }

    fn front(&self) -> &[u8] {
        self.lines.front()
    }

    fn pass(&mut self) {
        self.lines.pass()
    }
}

impl<R: Recording> Replayed for RecordLines<R> {
    fn replay(&mut self) -> Result<(), Unread> {
        let input = self.source.open()?;
        self.lines.restart(input);
        Ok(())
    }
}
