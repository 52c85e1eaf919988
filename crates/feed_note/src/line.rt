//! What a line says, and why it may say nothing.

ghost use Rattle.std.specs.Prelude.{◌≡◌};
ghost use Rattle.feed_note.specs.declared.line.LineFault.TheVariants.{Memory};

use feed_changes::{Changes, Name};
use std::alloc::{AllocError, AllocFailed};
use thiserror::Error;

/// What a line of an event feed means.
#[derive(Drop)]
pub enum Line {
    /// Nothing: the connection is alive (CLICS Contest API 2023-06, event feed).
    KeepAlive,
    /// A notification: its changes in order, and the token of the state after them, if it has one.
    Note {
        changes: Changes,
        token: Option<Name>,
    },
}

/// Why a line means nothing: the first of these that holds.
#[derive(Clone, Copy, Debug, PartialEq, Eq, Error)]
pub enum LineFault {
    /// The line is not UTF-8.
    #[error("not UTF-8")]
    Utf8,
    /// Its brackets nest 103 deep or more, outside strings.
    #[error("nested too deep")]
    Deep,
    /// It is not one JSON object.
    #[error("not a JSON object")]
    Syntax,
    /// It has no member `type`.
    #[error("no type")]
    NoType,
    /// `type` is no string, or `id` or `token` neither a string nor null, or one of them has a lone
    /// surrogate.
    #[error("bad type, id or token")]
    BadMember,
    /// `data` is a string, a number, true or false.
    #[error("bad data")]
    BadData,
    /// `id` is a string and `data` an array.
    #[error("no meaning")]
    NoMeaning,
    /// An element of `data` is no object, or its `id` is absent, no string, or has a lone
    /// surrogate.
    #[error("bad element")]
    BadElement,
    /// A type, id, token or element's id is over 255 bytes long.
    #[error("name too long")]
    LongName,
    /// An object that would be kept is over 1,048,576 bytes long or nests over 100 deep.
    #[error("object too large")]
    BigObject,
    /// Memory ran out; this says nothing of the line.
    #[error("out of memory")]
    Memory,
}

impl From<AllocError> for LineFault {
    ghost from_gives = { λ _ fault. fault ≡ Memory };

    fn from(_error: AllocError) -> LineFault {
        LineFault::Memory
    }
}

impl<T: Drop> From<AllocFailed<T>> for LineFault {
    ghost from_gives = { λ _ fault. fault ≡ Memory };

    fn from(_error: AllocFailed<T>) -> LineFault {
        LineFault::Memory
    }
}
