//! The lines of a record of several connections, one connection after the other.

ghost use Rattle.std.specs.Prelude.{◌≡◌, ◌≢◌, ◌≤◌, ◌<◌, ◌+◌, [], ◌∷◌, ◌++◌, ℕ, List, length, Some, true, false, IfOk, IfErr, IsTrue, OnOk};
ghost use Rattle.feed_text.specs.Ascii.{line_feed};
ghost use Rattle.feed_records.specs.Fronts.{IsFront, IsLeft};
ghost use Rattle.feed_records.specs.Parting.{is_at_blank, is_at_next, PassesLine};

use crate::connections::{Opened, is_empty_line, opens_connection, read_opening};
use crate::reading::{Front, Lines, Skipped, Unread};
use std::alloc::Global;

/// The lines of a record, of which those of one connection are read, and then those of the next.
#[derive(Drop)]
pub struct ScreenLines<L> {
    source: L,
    /// How many lines were passed since the connection began.
    lines: usize,
    /// The line at the front is not of this connection: another one begins there.
    is_over: bool,
}

/// A line without its line feed.
fn without_end(front: &[u8]) -> &[u8]
    ensures { (line : List ℕ) → front.now ≡ line ++ line_feed ∷ [] → result.now ≡ line }
{
    match front {
        [line @ .., _] => line,
        [] => front,
    }
}

/// Passes a line, however long it is, and answers whether there is one.
fn skip_line<L: Skipped>(text: &mut L) -> Result<bool, Unread>
    ensures passes { (bytes : List ℕ) → L.left text.old ≡ Some bytes
        → IfOk result (λ found. PassesLine found bytes (L.left text.new)) }
    ensures room { OnOk result (L.room text.new ≤ L.room text.old) }
    ensures shorter { IfOk result (λ found. found ≡ true → L.room text.new < L.room text.old) }
    ensures unread { IfErr result (λ why. L.unread text.new why) }
{
    'pieces: loop {
        match text.look()? {
            Front::Line => {
                text.skip();
                return Ok(true);
            }
            Front::Rest => return Ok(false),
            Front::Long => text.skip(),
        }
    }
}

/// Whether a connection begins on the line at the front of a text.
fn is_opening(found: Front, front: &[u8]) -> bool
    ensures at { (text : List ℕ) → IsFront found front.now text → result ≡ is_at_next text }
    ensures line { IsTrue result → found ≡ Front.Line }
{
    match found {
        Front::Line => opens_connection(without_end(front)),
        _ => false,
    }
}

/// Whether that line is empty, as the last of a head is.
fn is_blank(found: Front, front: &[u8]) -> bool
    ensures { (text : List ℕ) → IsFront found front.now text → result ≡ is_at_blank text }
{
    match found {
        Front::Line => is_empty_line(without_end(front)),
        _ => false,
    }
}

/// Looks whether an empty line is next.
fn look_for_blank<L: Lines>(text: &mut L) -> Result<bool, Unread>
    ensures left { (bytes : List ℕ) → L.left text.old ≡ Some bytes
        → OnOk result (L.left text.new ≡ Some bytes) }
    ensures blank { (bytes : List ℕ) → L.left text.old ≡ Some bytes
        → IfOk result (λ blank. blank ≡ is_at_blank bytes) }
    ensures room { OnOk result (L.room text.new ≤ L.room text.old) }
    ensures unread { IfErr result (λ why. L.unread text.new why) }
{
    let found = text.look()?;
    Ok(is_blank(found, text.front()))
}

impl<L: Lines> ScreenLines<L> {
    ghost use Rattle.feed_records.specs.ScreenLines.{lines_in, source_of};

    /// The connections of a record of which nothing was read.
    pub fn new(source: L) -> ScreenLines<L>
        ensures { source_of result ≡ source }
    {
        ScreenLines {
            source,
            lines: 0,
            is_over: false,
        }
    }

    /// A connection begins here.
    pub fn begin(&mut self)
        ensures source { source_of self.new ≡ source_of self.old }
        ensures lines { lines_in self.new ≡ 0 }
    {
        self.lines = 0;
        self.is_over = false;
    }

    /// How many lines were passed since the connection began.
    pub fn lines(&self) -> usize
        ensures { result ≡ lines_in self.now }
    {
        self.lines
    }

    /// Looks at the front of what is left of the record, and whether another connection begins
    /// there.
    fn look_ahead(&mut self) -> Result<Front, Unread>
        ensures left { (text : List ℕ) → L.left self.old.source ≡ Some text
            → OnOk result (L.left self.new.source ≡ Some text) }
        ensures front { (text : List ℕ) → L.left self.old.source ≡ Some text
            → IfOk result (λ found. IsFront found (L.front self.new.source) text) }
        ensures over { (text : List ℕ) → L.left self.old.source ≡ Some text
            → OnOk result (self.new.is_over ≡ is_at_next text) }
        ensures some { IfOk result (λ found. found ≢ Front.Rest
            → 0 < length (L.front self.new.source)) }
        ensures begun { OnOk result (self.new.is_over ≡ true
            → 0 < length (L.front self.new.source)) }
        ensures room { OnOk result (L.room self.new.source ≤ L.room self.old.source) }
        ensures lines { self.new.lines ≡ self.old.lines }
        ensures unread { IfErr result (λ why. L.unread self.new.source why) }
    {
        let found = self.source.look()?;
        self.is_over = is_opening(found, self.source.front());
        Ok(found)
    }
}

impl<L: Lines> Lines for ScreenLines<L> {
    ghost use Rattle.feed_records.specs.ScreenLines.{beyond_in, body_in, front_in};

    ghost left = { λ it. body_in L.left it };

    ghost beyond = { λ it. beyond_in L.left it };

    ghost front = { λ it. front_in L.front it };

    ghost room = { λ it. L.room it.source };

    ghost unread = { λ it why. L.unread it.source why };

    fn look(&mut self) -> Result<Front, Unread> {
        let found = self.look_ahead()?;
        if self.is_over {
            return Ok(Front::Rest);
        }
        Ok(found)
    }

    fn front(&self) -> &[u8] {
        if self.is_over {
            return &[];
        }
        self.source.front()
    }

    fn pass(&mut self) {
        if !self.is_over {
            self.source.pass();
            self.lines = self.lines.saturating_add(1);
        }
    }
}

impl<L: Skipped> ScreenLines<L> {
    ghost use Rattle.std.specs.Prelude.{◌≢◌};
    ghost use Rattle.feed_records.specs.ScreenLines.{beyond_in, lines_in, source_of};
    ghost use Rattle.feed_records.specs.Parting.{EndsIn, OpensNext, PassesBody, PassesHead};

    /// Passes what is left of the connection, and answers whether another one begins there.
    fn pass_body(&mut self) -> Result<bool, Unread>
        ensures passes { (end : ℕ × List ℕ) → beyond_in L.left self.old ≡ Some end
            → IfOk result (λ found. PassesBody found end (L.left self.new.source)
            (L.front self.new.source) self.new.lines) }
        ensures begun { IfOk result (λ found. found ≡ true
            → 0 < length (L.front self.new.source)) }
        ensures room { OnOk result (L.room self.new.source ≤ L.room self.old.source) }
        ensures unread { IfErr result (λ why. L.unread self.new.source why) }
    {
        'lines: loop {
            self.look_ahead()?;
            if self.is_over {
                return Ok(true);
            }
            if !skip_line(&mut self.source)? {
                return Ok(false);
            }
            self.lines = self.lines.saturating_add(1);
        }
    }

    /// Passes the lines of a head behind its first, up to the first empty one, and answers whether
    /// there is one.
    fn pass_head(&mut self) -> Result<bool, Unread>
        ensures passes { (text : List ℕ) → L.left self.old.source ≡ Some text
            → IfOk result (λ found. PassesHead found text (L.left self.new.source)
            self.old.lines self.new.lines) }
        ensures room { OnOk result (L.room self.new.source ≤ L.room self.old.source) }
        ensures unread { IfErr result (λ why. L.unread self.new.source why) }
    {
        'lines: loop {
            let is_last = look_for_blank(&mut self.source)?;
            if !skip_line(&mut self.source)? {
                return Ok(false);
            }
            self.lines = self.lines.saturating_add(1);
            if is_last {
                return Ok(true);
            }
        }
    }

    /// Passes what is left of the connection, and what begins the next one, and makes it how that
    /// was opened. Answers whether there is another one: it may have been cut off within its head.
    pub fn go_on(&mut self, alloc: Global, opened: &mut Opened) -> Result<bool, Unread>
        ensures next { (end : ℕ × List ℕ) → beyond_in L.left self.old ≡ Some end
            → IfOk result (λ found. found ≡ true → IsLeft (L.left (source_of self.new))
            (OpensNext end opened.old opened.new (lines_in self.new))) }
        ensures last { (end : ℕ × List ℕ) → beyond_in L.left self.old ≡ Some end
            → IfOk result (λ found. found ≡ false → EndsIn end.1) }
        ensures shorter { IfOk result (λ found. found ≡ true
            → L.room (source_of self.new) < L.room (source_of self.old)) }
        ensures unread { IfErr result (λ why. why ≢ Unread.Memory
            → L.unread (source_of self.new) why) }
    {
        if !self.pass_body()? {
            return Ok(false);
        }
        let is_direct = self.lines == 0;
        let line = without_end(self.source.front());
        let Ok(is_head) = read_opening(alloc, line, is_direct, opened) else {
            return Err(Unread::Memory);
        };
        self.source.pass();
        self.lines = self.lines.saturating_add(1);
        if is_head {
            return self.pass_head();
        }
        Ok(true)
    }
}
