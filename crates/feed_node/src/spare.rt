//! Memory that is kept for changes.

ghost use Rattle.std.specs.Prelude.{◌≡◌, ◌≢◌, [], IfOk, IfErr};
ghost use Rattle.feed_note.specs.Lines.{HasNoLineFeed};
ghost use Rattle.feed_note.specs.Meaning.{Means, Reason};
ghost use Rattle.feed_note.specs.declared.line.LineFault.{LineFault};

use feed_note::{Line, LineFault, read_line_in};
use feed_tables::Change;
use std::alloc::Global;
use std::marker::Model;
use std::mem;

/// The most changes whose memory is kept for others: after a commit or a line of more, that memory
/// goes.
const MOST_SPARE: usize = 32;

/// The memory of changes that went, for others. It holds none, and is little.
#[derive(Drop)]
pub(crate) struct Spare {
    memory: Vec<Change>,
}

impl Model for Spare {
    ghost use Rattle.feed_node.specs.Spare.{IsSpare};

    ghost Value = { Unit {0} };

    ghost view = { λ _. tt };

    ghost invariant = { λ a. IsSpare a.memory };
}

impl Spare {
    /// No memory.
    pub fn new(alloc: Global) -> Spare {
        Spare {
            memory: Vec::new(alloc),
        }
    }

    /// Keeps the memory of changes, which go, where it is little, and more than there is.
    pub fn keep(&mut self, mut gone: Vec<Change>) {
        if gone.capacity() <= MOST_SPARE && gone.capacity() > self.memory.capacity() {
            gone.clear();
            self.memory = gone;
        }
    }

    /// The memory, which is not kept any more.
    pub fn take(&mut self, alloc: Global) -> Vec<Change>
        ensures { result.items ≡ [] }
    {
        mem::replace(&mut self.memory, Vec::new(alloc))
    }

    /// What a line means, without its line feed. A change that stands alone lies in this memory,
    /// where there is any.
    pub fn read_line(&mut self, alloc: Global, line: &[u8]) -> Result<Line, LineFault>
        requires { HasNoLineFeed line.now }
        ensures ok { IfOk result (λ meaning. Means line.now meaning) }
        ensures err { IfErr result (λ fault. fault ≢ LineFault.Memory → Reason line.now fault) }
    {
        read_line_in(alloc, line, &mut self.memory)
    }
}
