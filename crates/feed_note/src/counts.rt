//! What the lines of a feed are, counted.

ghost use Rattle.std.specs.Prelude.{◌≡◌, ◌≢◌, ◌<◌, ◌+◌, ◌^◌, [], ◌∷◌, length, IfOk, IfErr};
ghost use Rattle.feed_note.specs.Counts.{Counted, StopsAt, counts_of};
ghost use Rattle.feed_note.specs.Notes.{changes_in};
ghost use Rattle.feed_note.specs.Steps.{HasRoom, with_note};

use crate::line::Line;
use crate::stop::{LineStop, read_first};
use feed_changes::Change;
use std::alloc::Global;
use thiserror::Error;

/// What the lines of a feed come to.
#[derive(Clone, Copy, Debug, PartialEq, Eq)]
pub struct Counts {
    /// The lines, each ended by a line feed.
    pub lines: u64,
    /// Those of white space alone.
    pub keepalives: u64,
    /// Those that are notifications.
    pub notes: u64,
    /// The changes of the notifications.
    pub changes: u64,
    /// The notifications with a token.
    pub tokens: u64,
    /// The bytes after the last line feed.
    pub rest: u64,
}

/// The first line of a feed that stops its reading, counted from 1, and why.
#[derive(Clone, Copy, Debug, PartialEq, Eq, Error)]
#[error("{stop}")]
pub struct SurveyFault {
    /// The number of the line. A rest that is too long is the line after the last; for want of
    /// memory the number says nothing.
    pub line: u64,
    pub stop: LineStop,
}

impl Counts {
    /// Nothing was counted.
    fn none() -> Counts
        ensures { result ≡ counts_of [] 0 }
    {
        Counts {
            lines: 0,
            keepalives: 0,
            notes: 0,
            changes: 0,
            tokens: 0,
            rest: 0,
        }
    }

    /// Counts one line more.
    fn add(&mut self, note: &Line)
        requires { HasRoom self.old note.now }
        ensures { self.new ≡ with_note self.old note.now }
    {
        self.lines += 1;
        match note {
            Line::KeepAlive => self.keepalives += 1,
            Line::Note { changes, token } => {
                self.notes += 1;
                self.changes += changes.as_slice().len() as u64;
                self.tokens += u64::from(token.is_some());
            }
        }
    }
}

/// The memory of a line's changes.
fn memory_of(alloc: Global, note: Line) -> Vec<Change> {
    match note {
        Line::KeepAlive => Vec::new(alloc),
        Line::Note { changes, token: _ } => changes.into_vec(),
    }
}

/// Counts what the lines of a feed are, or names the first that can't be read.
pub fn survey(alloc: Global, bytes: &[u8]) -> Result<Counts, SurveyFault>
    ensures ok { IfOk result (λ counts. Counted bytes.now counts) }
    ensures err { IfErr result (λ fault.
        fault.stop ≢ LineStop.Memory → StopsAt bytes.now fault.line fault.stop) }
{
    let mut counts = Counts::none();
    let mut spare = Vec::new(alloc);
    let mut rest = bytes;
    'lines: loop {
        match read_first(alloc, rest, &mut spare) {
            Ok(Some((note, behind))) => {
                counts.add(&note);
                spare = memory_of(alloc, note);
                rest = behind;
            }
            Ok(None) => {
                let rest = rest.len() as u64;
                return Ok(Counts { rest, ..counts });
            }
            Err(stop) => {
                let line = counts.lines + 1;
                return Err(SurveyFault { line, stop });
            }
        }
    }
}
