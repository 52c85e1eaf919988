//! What stands between the object of one line and the id of the next.
ghost use Rattle.std.specs.Prelude.{◌≡◌, ◌↔◌, IsTrue, IfSome};
ghost use Rattle.feed_commands.specs.Openings.{opening};

use arrayvec::ArrayVec;
use feed_text::is_unescaped;
use std::marker::Model;

/// How many bytes an opening has at most. The types of the Contest API have up to 15, and what
/// stands around them 19.
const ROOM: usize = 64;

/// What stands between the object of one line and the id of the next, where that is of this type.
/// A snapshot has the objects of a type one after the other, and each line of them begins alike.
#[derive(Drop)]
pub(crate) struct Opening {
    kind: ArrayVec<u8, ROOM>,
    text: ArrayVec<u8, ROOM>,
}

impl Model for Opening {
    ghost use Rattle.std.specs.Prelude.{◌≡◌, List, ℕ};
    ghost use Rattle.feed_commands.specs.Openings.{opening};

    ghost Value = { List ℕ };

    ghost view = { λ o. o.kind.items };

    ghost invariant = { λ o. o.text.items ≡ opening o.kind.items };
}

impl Opening {
    /// The opening of lines of a type, where that needs no escapes and has up to 45 bytes.
    pub(crate) fn new(kind: &str) -> Option<Opening>
        ensures { IfSome result (λ made. made ≡ kind.now) }
    {
        if !is_unescaped(kind) {
            return None;
        }
        let mut text = ArrayVec::new();
        text.try_extend_from_slice(b"}\n{\"type\":\"").ok()?;
        text.try_extend_from_slice(kind.as_bytes()).ok()?;
        text.try_extend_from_slice(b"\",\"id\":\"").ok()?;
        let mut name = ArrayVec::new();
        name.try_extend_from_slice(kind.as_bytes()).ok()?;
        Some(Opening { kind: name, text })
    }

    /// Whether it is that of this type.
    #[inline(always)]
    pub(crate) fn is_of(&self, kind: &str) -> bool
        ensures { IsTrue result ↔ (self.now ≡ kind.now) }
    {
        self.kind.as_slice() == kind.as_bytes()
    }

    /// The bytes.
    #[inline(always)]
    pub(crate) fn bytes(&self) -> &[u8]
        ensures { result.now ≡ opening self.now }
    {
        self.text.as_slice()
    }
}
