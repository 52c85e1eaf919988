//! The lines of a script, one after another, with their numbers.

ghost use Rattle.std.specs.Prelude.{◌≡◌, ◌+◌, ◌∷◌, [], IfSome, IfNone, length, nat_le};
ghost use Rattle.feed_note.specs.Lines.{lines, HasNoLineFeed};

use feed_note::split_line;
use std::marker::Model;

/// The lines of a script that are still to be read, and how many were read.
#[derive(Drop)]
pub struct Lines<'a> {
    rest: &'a [u8],
    number: u64,
}

impl<'a> Model for Lines<'a> {
    ghost use Rattle.std.specs.Prelude.{◌+◌, ◌<◌, ◌^◌, length};
    ghost use Rattle.feed_note.specs.Lines.{lines};
    ghost use Rattle.feed_play.specs.Lines.{LinesLeft};

    ghost Value = { LinesLeft };

    ghost view = { λ a. record { left = lines a.rest.now; read = a.number } };

    ghost invariant = { λ a. a.number + length a.rest.now < 2 ^ 64 };
}

impl<'a> Lines<'a> {
    /// The lines of this script.
    pub fn new(script: &'a [u8]) -> Lines<'a>
        ensures { result ≡ record { left = lines script.now; read = 0 } }
    {
        Lines {
            rest: script,
            number: 0,
        }
    }

    /// The number of the last line that was read, counted from 1.
    pub fn number(&self) -> u64
        ensures { result ≡ self.now.read }
    {
        self.number
    }

    /// The next line, without its line feed. An unfinished last line is none.
    pub fn next_line(&mut self) -> Option<&'a [u8]>
        ensures some { IfSome result (λ line. (self.old.left ≡ line.now ∷ self.new.left)
            × (self.new.read ≡ self.old.read + 1)) }
        ensures whole { IfSome result (λ line. HasNoLineFeed line.now) }
        ensures none { IfNone result ((self.old.left ≡ []) × (self.new ≡ self.old)) }
    {
        let (line, behind) = split_line(self.rest)?;
        self.rest = behind;
        self.number += 1;
        Some(line)
    }

    /// Whether there are so many lines.
    pub fn has(&self, count: usize) -> bool
        ensures { result ≡ nat_le count (length self.now.left) }
    {
        let mut rest = self.rest;
        'lines: for _line in 0..count {
            let Some((_, behind)) = split_line(rest) else {
                return false;
            };
            rest = behind;
        }
        true
    }
}
