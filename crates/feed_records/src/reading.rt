//! A text, line by line.

ghost use Rattle.std.specs.Prelude.{◌≡◌, ◌≢◌, ◌≤◌, ◌<◌, ◌+◌, ◌++◌, ℕ, List, length, Option, None, Some, IfOk, IfErr, OnOk};
ghost use Rattle.feed_records.specs.Fronts.{IsFront, IsLineBefore};

use thiserror::Error;

/// What stands at the front of what is left of a text.
#[derive(Clone, Copy, Debug, PartialEq, Eq)]
pub enum Front {
    /// A line, with its line feed.
    Line,
    /// What follows the last line feed. That may be nothing.
    Rest,
    /// The first bytes of a line, or of what follows the last line feed, and more of them than a
    /// line of a feed may have.
    Long,
}

/// Why a text can't be read on.
#[derive(Clone, Copy, Debug, PartialEq, Eq, Error)]
pub enum Unread {
    /// A read failed.
    #[error("read failed")]
    Failed,
    /// It has more bytes than may be read.
    #[error("input too long")]
    TooLong,
    #[error("out of memory")]
    Memory,
}

/// A text that is read line by line, from its beginning or from a place within it.
pub trait Lines {
    ghost use Rattle.feed_records.specs.declared.reading.Unread.{Unread as Reason};

    // The bytes that are left, where they are known.
    ghost left: { Self → Option (List ℕ) } = { λ _. None };

    // All of it, where that is known.
    ghost whole: { Self → Option (List ℕ) } = { λ _. None };

    // How many lines it has in all, and what stands behind it, where that is known.
    ghost beyond: { Self → Option (ℕ × List ℕ) } = { λ _. None };

    // The first of the bytes that are left, as far as they were looked at.
    ghost front: { Self → List ℕ };

    // How many bytes may be left at most.
    ghost room: { Self → ℕ };

    // It can't be read on, and this is why.
    ghost unread: { Self → Reason → Type 0 };

    /// Looks at the front of what is left.
    fn look(&mut self) -> Result<Front, Unread>
        ensures left { (text : List ℕ) → left self.old ≡ Some text
            → OnOk result (left self.new ≡ Some text) }
        ensures front { (text : List ℕ) → left self.old ≡ Some text
            → IfOk result (λ found. IsFront found (front self.new) text) }
        ensures some { IfOk result (λ found. found ≢ Front.Rest → 0 < length (front self.new)) }
        ensures room { OnOk result (room self.new ≤ room self.old) }
        ensures whole { whole self.new ≡ whole self.old }
        ensures beyond { (end : ℕ × List ℕ) → beyond self.old ≡ Some end
            → OnOk result (beyond self.new ≡ Some end) }
        ensures unread { IfErr result (λ why. unread self.new why) };

    /// The bytes at the front that were looked at.
    fn front(&self) -> &[u8]
        ensures { result.now ≡ front self.now };

    /// Passes them, where they are a line.
    fn pass(&mut self)
        ensures left { (behind : List ℕ) → IsLineBefore behind (front self.old) (left self.old)
            → left self.new ≡ Some behind }
        ensures room { room self.new + length (front self.old) ≡ room self.old }
        ensures whole { whole self.new ≡ whole self.old }
        ensures beyond { (behind : List ℕ) (end : ℕ × List ℕ)
            → IsLineBefore behind (front self.old) (left self.old)
            → beyond self.old ≡ Some end → beyond self.new ≡ Some end };
}

/// A text whose lines can be passed in parts, however long they are.
pub trait Skipped: Lines {
    /// Passes the bytes at the front that were looked at.
    fn skip(&mut self)
        ensures left { (behind : List ℕ)
            → Self.left self.old ≡ Some (Self.front self.old ++ behind)
            → Self.left self.new ≡ Some behind }
        ensures room { Self.room self.new + length (Self.front self.old)
            ≡ Self.room self.old };
}

/// A text that can be read again from its beginning.
pub trait Replayed: Lines {
    /// Goes back to the beginning.
    fn replay(&mut self) -> Result<(), Unread>
        ensures left { (text : List ℕ) → Self.whole self.old ≡ Some text
            → OnOk result (Self.left self.new ≡ Some text) }
        ensures whole { Self.whole self.new ≡ Self.whole self.old }
        ensures unread { IfErr result (λ why. Self.unread self.new why) };
}
