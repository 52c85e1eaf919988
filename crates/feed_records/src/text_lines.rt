//! The lines of a text in memory.

ghost use Rattle.std.specs.Prelude.{◌≡◌, ◌≤◌, length};

use crate::reading::{Front, Lines, Replayed, Skipped, Unread};
use feed_note::{LINE_BYTES, split_line};

/// A text in memory, of which a part was read.
#[derive(Drop)]
pub struct TextLines<'a> {
    text: &'a [u8],
    rest: &'a [u8],
    looked: usize,
    ghost within: { looked ≤ length rest.now },
}

impl<'a> TextLines<'a> {
    ghost use Rattle.feed_records.specs.InMemory.{whole_text, text_left};

    /// Nothing of it was read.
    pub fn new(text: &'a [u8]) -> TextLines<'a>
        ensures left { text_left result ≡ text.now }
        ensures whole { whole_text result ≡ text.now }
    {
        TextLines {
            text,
            rest: text,
            looked: 0,
        }
    }
}

impl<'a> Lines for TextLines<'a> {
    ghost use Rattle.std.specs.Prelude.{Some, length, take};

    ghost left = { λ lines. Some lines.rest.now };

    ghost whole = { λ lines. Some lines.text.now };

    ghost front = { λ lines. take lines.looked lines.rest.now };

    ghost room = { λ lines. length lines.rest.now };

    ghost unread = { λ _ _. ⊥ };

    fn look(&mut self) -> Result<Front, Unread> {
        match split_line(self.rest) {
            Some((line, _)) => {
                let end = line.len();
                if end > LINE_BYTES {
                    self.looked = end;
                    return Ok(Front::Long);
                }
                self.looked = end + 1;
                Ok(Front::Line)
            }
            None => {
                self.looked = self.rest.len();
                if self.looked > LINE_BYTES {
                    return Ok(Front::Long);
                }
                Ok(Front::Rest)
            }
        }
    }

    fn front(&self) -> &[u8] {
        &self.rest[..self.looked]
    }

    fn pass(&mut self) {
        self.rest = &self.rest[self.looked..];
        self.looked = 0;
    }
}

impl<'a> Skipped for TextLines<'a> {
    fn skip(&mut self) {
        self.rest = &self.rest[self.looked..];
        self.looked = 0;
    }
}

impl<'a> Replayed for TextLines<'a> {
    fn replay(&mut self) -> Result<(), Unread> {
        self.rest = self.text;
        self.looked = 0;
        Ok(())
    }
}
