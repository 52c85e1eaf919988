//! Bytes that are gathered before they are written.
ghost use Rattle.std.specs.Prelude.{◌≡◌, ◌≤◌, ◌+◌, ◌↔◌, true, false, [], ◌++◌, IsTrue, length};

use std::marker::Model;

/// How many bytes wait at most.
const ROOM: usize = 262_144;

/// Bytes in an array, the first ones of which are in use. To clear it writes nothing, unlike an
/// `ArrayVec`, which writes over what it held.
#[derive(Drop)]
pub(crate) struct Buffer {
    bytes: [u8; ROOM],
    length: usize,
}

impl Model for Buffer {
    ghost use Rattle.std.specs.Prelude.{◌≤◌, List, ℕ, take};
    ghost use Rattle.feed_commands.specs.declared.buffer.TheConstants.{ROOM};

    ghost Value = { List ℕ };

    ghost view = { λ b. take b.length b.bytes };

    ghost invariant = { λ b. b.length ≤ ROOM };
}

impl Buffer {
    /// A buffer with nothing in it.
    pub(crate) fn new() -> Buffer
        ensures { result ≡ [] }
    {
        Buffer {
            bytes: [0; ROOM],
            length: 0,
        }
    }

    /// Appends a text where there is room for all of it, and answers whether there was.
    #[inline(always)]
    pub(crate) fn append(&mut self, text: &[u8]) -> bool
        ensures room { IsTrue result ↔ length self.old + length text.now ≤ ROOM }
        ensures all { result ≡ true → self.new ≡ self.old ++ text.now }
        ensures none { result ≡ false → self.new ≡ self.old }
    {
        let length = self.length;
        if ROOM - length < text.len() {
            return false;
        }
        self.bytes[length..length + text.len()].copy_from_slice(text);
        self.length = length + text.len();
        true
    }

    /// The bytes in use.
    #[inline(always)]
    pub(crate) fn as_slice(&self) -> &[u8]
        ensures { result.now ≡ self.now }
    {
        &self.bytes[..self.length]
    }

    /// Takes all bytes out of use.
    #[inline(always)]
    pub(crate) fn clear(&mut self)
        ensures { self.new ≡ [] }
    {
        self.length = 0;
    }
}
