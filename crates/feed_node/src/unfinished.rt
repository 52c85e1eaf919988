//! The unfinished line of a connection.

ghost use Rattle.std.specs.Prelude.{◌≡◌, ◌≤◌, ◌++◌, ◌==◌, [], IfErr, OnOk, length};
ghost use Rattle.feed_text.specs.Limits.{line_bytes};
ghost use Rattle.feed_node.specs.Staging.{RefusesPart};

use crate::fault::FeedFault;
use feed_note::LINE_BYTES;
use std::alloc::Global;
use std::marker::Model;

/// What came of a line that has not ended: at most [`LINE_BYTES`] bytes.
#[derive(Drop)]
pub(crate) struct UnfinishedLine {
    bytes: Vec<u8>,
}

impl Model for UnfinishedLine {
    ghost use Rattle.std.specs.Prelude.{List, ℕ, ◌≤◌, length};
    ghost use Rattle.feed_text.specs.Limits.{line_bytes};

    ghost Value = { List ℕ };

    ghost view = { λ a. a.bytes.items };

    ghost invariant = { λ a. length a.bytes.items ≤ line_bytes };
}

impl UnfinishedLine {
    /// Nothing came yet.
    pub fn new(alloc: Global) -> UnfinishedLine
        ensures { result ≡ [] }
    {
        UnfinishedLine {
            bytes: Vec::new(alloc),
        }
    }

    pub fn is_empty(&self) -> bool
        ensures { result ≡ (length self.now == 0) }
    {
        self.bytes.is_empty()
    }

    pub fn bytes(&self) -> &[u8]
        ensures { result.now ≡ self.now }
    {
        self.bytes.as_slice()
    }

    /// Appends a part, where the line does not get too long.
    pub fn keep(&mut self, part: &[u8]) -> Result<(), FeedFault>
        ensures ok { OnOk result (self.new ≡ self.old ++ part.now) }
        ensures short { OnOk result (length self.new ≤ line_bytes) }
        ensures err { IfErr result (λ fault. RefusesPart (self.old ++ part.now) fault) }
    {
        if part.len() > LINE_BYTES - self.bytes.len() {
            return Err(FeedFault::LongLine);
        }
        self.bytes.extend_from_slice(part)?;
        Ok(())
    }

    pub fn clear(&mut self)
        ensures { self.new ≡ [] }
    {
        self.bytes.clear();
    }
}
