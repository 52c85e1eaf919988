//! Why a script is not played to its end.

ghost use Rattle.std.specs.Prelude.{◌≡◌};
ghost use Rattle.feed_play.specs.Fault.{cause_of_line, cause_of_world, cause_of_shape, is_play_memory};
ghost use Rattle.feed_play.specs.declared.fault.PlayCause.TheVariants.{Memory};

use feed_node::CommitFault;
use feed_note::LineFault;
use feed_world::{ShapeFault, WorldFault};
use std::alloc::{AllocError, AllocFailed};
use thiserror::Error;

/// Why a script was not played to its end, and at which of its lines, counted from 1. That is the
/// line of what was to happen, or the feed line that can't be read.
#[derive(Clone, Copy, Debug, PartialEq, Eq, Error)]
#[error("line {line}: {cause}")]
pub struct PlayFault {
    pub line: u64,
    pub cause: PlayCause,
}

impl PlayFault {
    /// Whether memory ran out.
    pub fn is_want_of_memory(&self) -> bool
        ensures { result ≡ is_play_memory self.now.cause }
    {
        matches!(self.cause, PlayCause::Memory)
    }
}

/// Why a script was not played to its end.
#[derive(Clone, Copy, Debug, PartialEq, Eq, Error)]
pub enum PlayCause {
    /// The line has none of the forms that a line may have there, or more feed lines were announced
    /// than follow.
    #[error("bad script")]
    Script,
    /// The first line's limits are out of range.
    #[error("bad limits")]
    Limits,
    /// There is no node, or there are more than a world has at most; or a mirror is listed after
    /// itself or a later one.
    #[error("bad shape")]
    Shape,
    /// The feed line means nothing. Running out of memory is a fault of its own.
    #[error(transparent)]
    Line(LineFault),
    /// The world refused what was to happen. Running out of memory is a fault of its own.
    #[error(transparent)]
    World(WorldFault),
    /// Memory ran out.
    #[error("out of memory")]
    Memory,
}

impl From<LineFault> for PlayCause {
    ghost from_gives = { λ fault cause. cause ≡ cause_of_line fault };

    fn from(fault: LineFault) -> PlayCause {
        match fault {
            LineFault::Memory => PlayCause::Memory,
            reason => PlayCause::Line(reason),
        }
    }
}

impl From<WorldFault> for PlayCause {
    ghost from_gives = { λ fault cause. cause ≡ cause_of_world fault };

    fn from(fault: WorldFault) -> PlayCause {
        match fault {
            WorldFault::Memory | WorldFault::Commit(CommitFault::Memory) => PlayCause::Memory,
            reason => PlayCause::World(reason),
        }
    }
}

impl From<ShapeFault> for PlayCause {
    ghost from_gives = { λ fault cause. cause ≡ cause_of_shape fault };

    fn from(fault: ShapeFault) -> PlayCause {
        match fault {
            ShapeFault::BadShape => PlayCause::Shape,
            ShapeFault::Memory => PlayCause::Memory,
        }
    }
}

impl From<AllocError> for PlayCause {
    ghost from_gives = { λ _ cause. cause ≡ Memory };

    fn from(_error: AllocError) -> PlayCause {
        PlayCause::Memory
    }
}

impl<T: Drop> From<AllocFailed<T>> for PlayCause {
    ghost from_gives = { λ _ cause. cause ≡ Memory };

    fn from(_error: AllocFailed<T>) -> PlayCause {
        PlayCause::Memory
    }
}
