//! The lines of a snapshot, printed without a text of all of them.
ghost use Rattle.std.specs.Prelude.{◌≡◌, true, false, [], OnOk, OnErr, ◌++◌, flat_map, codes};
ghost use Rattle.std.specs.Io.KnownBytes.{Appends};
ghost use Rattle.feed_text.specs.Strings.{written_string, written_byte as byte_text};
ghost use Rattle.feed_http.specs.Device.{AppendsPrefix, HasFailed};
ghost use Rattle.feed_node.specs.Texts.{snapshot_text};
ghost use Rattle.feed_note.specs.Written.{written_members};
ghost use Rattle.feed_commands.specs.Openings.{beginning};
ghost use Rattle.feed_commands.specs.Printing.{WritesText, PrintsText, PrintsChange, end_before, end_with};

use crate::buffer::Buffer;
use crate::opening::Opening;
use feed_http::device::{Failed, FeedWrite, write_all};
use feed_tables::{Lister, Name, Tables};
use feed_text::{ObjectText, is_unescaped, written_byte};

/// The end of a text that is on its way to a device, or that the device failed. Nothing is written
/// after that.
#[derive(Drop)]
struct Waiting {
    bytes: Buffer,
    has_failed: bool,
}

impl Waiting {
    /// Writes what waits.
    fn flush<W: FeedWrite>(&mut self, device: &mut W)
        ensures written { WritesText (W.contents device.old) (W.contents device.new)
            (W.failures device.old) (W.failures device.new) self.old self.new [] }
        ensures none { self.new.bytes ≡ [] }
    {
        if !self.has_failed {
            self.has_failed = write_all(device, self.bytes.as_slice()).is_err();
        }
        self.bytes.clear();
    }

    /// Writes a text where nothing waits.
    fn send<W: FeedWrite>(&mut self, device: &mut W, text: &[u8])
        requires { self.old.bytes ≡ [] }
        ensures { WritesText (W.contents device.old) (W.contents device.new)
            (W.failures device.old) (W.failures device.new) self.old self.new text.now }
    {
        if !self.has_failed {
            self.has_failed = write_all(device, text).is_err();
        }
    }

    /// Has a text wait, and writes it where it is too long.
    #[inline(always)]
    fn put<W: FeedWrite>(&mut self, device: &mut W, text: &[u8])
        ensures { WritesText (W.contents device.old) (W.contents device.new)
            (W.failures device.old) (W.failures device.new) self.old self.new text.now }
    {
        if !self.bytes.append(text) {
            self.put_behind(device, text);
        }
    }

    /// Writes what waits, and then has a text wait, or writes it where it is too long. This is
    /// rare, and a call of its own, so that what puts texts stays short.
    #[cold]
    #[inline(never)]
    #[tactic(auto, using(crate::proofs::PrintingLemmas::tells_then))]
    fn put_behind<W: FeedWrite>(&mut self, device: &mut W, text: &[u8])
        ensures { WritesText (W.contents device.old) (W.contents device.new)
            (W.failures device.old) (W.failures device.new) self.old self.new text.now }
    {
        self.flush(device);
        if !self.bytes.append(text) {
            self.send(device, text);
        }
    }

    /// Whether all that was put is written or waits.
    fn outcome(&self) -> Result<(), Failed>
        ensures ok { OnOk result (self.now.has_failed ≡ false) }
        ensures err { OnErr result (self.now.has_failed ≡ true) }
    {
        if self.has_failed {
            return Err(Failed);
        }
        Ok(())
    }

    /// Puts what stands for bytes in a JSON string. Few names need it, so it is a call of its own.
    #[cold]
    #[inline(never)]
    fn put_escaped<W: FeedWrite>(&mut self, device: &mut W, text: &[u8])
        ensures { WritesText (W.contents device.old) (W.contents device.new)
            (W.failures device.old) (W.failures device.new) self.old self.new
            (flat_map byte_text text.now) }
    {
        'bytes: for byte in text {
            self.put(device, written_byte(*byte).as_slice());
        }
    }

    /// Puts what stands between the quotation marks of the JSON string of a text.
    #[inline(always)]
    fn put_string<W: FeedWrite>(&mut self, device: &mut W, text: &str)
        ensures { WritesText (W.contents device.old) (W.contents device.new)
            (W.failures device.old) (W.failures device.new) self.old self.new
            (flat_map byte_text text.now) }
    {
        if is_unescaped(text) {
            self.put(device, text.as_bytes());
        } else {
            self.put_escaped(device, text.as_bytes());
        }
    }
}

/// Prints the lines of changes to a device, but for the end of the last one: the token stands
/// there, and which line is the last shows only where no other comes.
struct Printer<'a, W> {
    device: &'a mut W,
    waiting: Waiting,
    // A line is begun that has no end yet.
    is_begun: bool,
    // What the lines of the type at hand begin with.
    opening: Option<Opening>,
}

// Written out: the device is left as the printer has it, and a caller's proof can name that.
impl<'a, W> Drop for Printer<'a, W> {
    fn drop(self)
        ensures { self.exit.0.now ≡ self.entry.device.now }
    {
        let Self {
            device: _,
            waiting: _,
            is_begun: _,
            opening: _,
        } = self;
    }
}

impl<'a, W: FeedWrite> Printer<'a, W> {
    /// Ends the line before, where there is one, and begins the next with its type.
    fn begin(&mut self, kind: &str)
        ensures begun { self.new.is_begun ≡ true }
        ensures prints { PrintsText W.contents W.failures self.old self.new
            (end_before self.old.is_begun ++ codes "{\"type\":\""
            ++ flat_map byte_text kind.now) }
    {
        if self.is_begun {
            self.waiting.put(self.device, b"}\n{\"type\":\"");
        } else {
            self.waiting.put(self.device, b"{\"type\":\"");
        }
        self.is_begun = true;
        self.waiting.put_string(self.device, kind);
    }

    /// Ends the line before, where there is one, and begins that of an object up to its id. The
    /// objects of a type follow one another, so what their lines begin with is made once.
    #[inline(always)]
    fn begin_object(&mut self, kind: &str)
        ensures begun { self.new.is_begun ≡ true }
        ensures prints { PrintsText W.contents W.failures self.old self.new
            (end_before self.old.is_begun ++ beginning kind.now) }
    {
        match &self.opening {
            Some(opening) if self.is_begun && opening.is_of(kind) => {
                self.waiting.put(self.device, opening.bytes());
            }
            _ => self.begin_first(kind),
        }
    }

    /// Does the same for the first object of a type, and keeps what the next ones begin with. It is
    /// a call of its own, so that `begin_object` stays short.
    #[inline(never)]
    fn begin_first(&mut self, kind: &str)
        ensures begun { self.new.is_begun ≡ true }
        ensures prints { PrintsText W.contents W.failures self.old self.new
            (end_before self.old.is_begun ++ beginning kind.now) }
    {
        self.begin(kind);
        self.waiting.put(self.device, b"\",\"id\":\"");
        self.opening = Opening::new(kind);
    }

    /// Ends the line before, where there is one, and prints that of an object but for its end.
    fn print_object(&mut self, kind: &str, id: &str, content: &[u8]) -> Result<(), Failed>
        ensures begun { self.new.is_begun ≡ true }
        ensures prints { PrintsText W.contents W.failures self.old self.new
            (end_before self.old.is_begun ++ written_members (written_string kind.now)
            (written_string id.now) content.now) }
        ensures ok { OnOk result (self.new.waiting.has_failed ≡ false) }
        ensures err { OnErr result (self.new.waiting.has_failed ≡ true) }
    {
        self.begin_object(kind);
        self.waiting.put_string(self.device, id);
        self.waiting.put(self.device, b"\",\"data\":");
        self.waiting.put(self.device, content);
        self.waiting.outcome()
    }

    /// Ends the line before, where there is one, and prints one without an id but for its end.
    fn print_without_id(&mut self, kind: &str, content: &[u8]) -> Result<(), Failed>
        ensures begun { self.new.is_begun ≡ true }
        ensures prints { PrintsText W.contents W.failures self.old self.new
            (end_before self.old.is_begun ++ written_members (written_string kind.now)
            (codes "null") content.now) }
        ensures ok { OnOk result (self.new.waiting.has_failed ≡ false) }
        ensures err { OnErr result (self.new.waiting.has_failed ≡ true) }
    {
        self.begin(kind);
        self.waiting.put(self.device, b"\",\"id\":null,\"data\":");
        self.waiting.put(self.device, content);
        self.waiting.outcome()
    }

    /// Ends the last line with the token on it, and writes what waits.
    fn end(&mut self, token: &str) -> Result<(), Failed>
        ensures prints { PrintsText W.contents W.failures self.old self.new (end_with token.now) }
        ensures none { self.new.waiting.bytes ≡ [] }
        ensures ok { OnOk result (self.new.waiting.has_failed ≡ false) }
        ensures err { OnErr result (self.new.waiting.has_failed ≡ true) }
    {
        self.waiting.put(self.device, b",\"token\":\"");
        self.waiting.put_string(self.device, token);
        self.waiting.put(self.device, b"\"}\n");
        self.waiting.flush(self.device);
        self.waiting.outcome()
    }
}

impl<'a, W: FeedWrite> Lister for Printer<'a, W> {
    type Error = Failed;

    ghost takes = { PrintsChange W.contents W.failures false };

    ghost fails = { PrintsChange W.contents W.failures true };

    fn set(&mut self, kind: &Name, id: &Name, object: &ObjectText) -> Result<(), Failed> {
        self.print_object(kind.text(), id.text(), object.bytes())
    }

    fn empty(&mut self, kind: &Name) -> Result<(), Failed> {
        self.print_without_id(kind.text(), b"[]")
    }

    fn single(&mut self, kind: &Name, object: &ObjectText) -> Result<(), Failed> {
        self.print_without_id(kind.text(), object.bytes())
    }

    fn clear(&mut self) -> Result<(), Failed> {
        self.print_without_id("contest", b"null")
    }
}

/// Prints the lines of a snapshot of tables, with the token on the last of them. It takes no
/// memory. Where a write fails, a prefix of them was printed.
pub(crate) fn print_lines<W: FeedWrite>(
    device: &mut W,
    tables: &Tables,
    token: &str,
) -> Result<(), Failed>
    ensures ok { OnOk result (Appends (W.contents device.old) (W.contents device.new)
        (snapshot_text tables.now.contents token.now)) }
    ensures quiet { OnOk result (W.failures device.new ≡ W.failures device.old) }
    ensures prefix { OnErr result (AppendsPrefix (W.contents device.old) (W.contents device.new)
        (snapshot_text tables.now.contents token.now)) }
    ensures failed { OnErr result (HasFailed (W.failures device.old) (W.failures device.new)) }
{
    let waiting = Waiting {
        bytes: Buffer::new(),
        has_failed: false,
    };
    let mut printer = Printer {
        device,
        waiting,
        is_begun: false,
        opening: None,
    };
    tables.list(&mut printer)?;
    printer.end(token)
}
