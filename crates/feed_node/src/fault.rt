//! Why a mirror stops feeding.

ghost use Rattle.std.specs.Prelude.{◌≡◌};
ghost use Rattle.feed_node.specs.Staging.{line_fault};
ghost use Rattle.feed_node.specs.declared.fault.FeedFault.TheVariants.{Memory};

use feed_note::LineFault;
use std::alloc::{AllocError, AllocFailed};
use thiserror::Error;

/// Why a mirror stopped feeding: the first of these that holds of a line. Running out of memory can
/// come before any of them but the first.
#[derive(Clone, Copy, Debug, PartialEq, Eq, Error)]
pub enum FeedFault {
    /// No connection has begun.
    #[error("not open")]
    NotOpen,
    /// A line, ended or not, has over 16,777,216 bytes.
    #[error("line too long")]
    LongLine,
    /// A line means nothing.
    #[error(transparent)]
    Line(LineFault),
    /// More changes wait for a token than the limits allow, or the tables that a line would publish
    /// are too large.
    #[error("stage full")]
    StageFull,
    /// Memory ran out; this says nothing of the lines.
    #[error("out of memory")]
    Memory,
}

impl From<LineFault> for FeedFault {
    ghost from_gives = { λ fault given. given ≡ line_fault fault };

    fn from(fault: LineFault) -> FeedFault {
        match fault {
            LineFault::Memory => FeedFault::Memory,
            reason => FeedFault::Line(reason),
        }
    }
}

impl From<AllocError> for FeedFault {
    ghost from_gives = { λ _ fault. fault ≡ Memory };

    fn from(_error: AllocError) -> FeedFault {
        FeedFault::Memory
    }
}

impl<T: Drop> From<AllocFailed<T>> for FeedFault {
    ghost from_gives = { λ _ fault. fault ≡ Memory };

    fn from(_error: AllocFailed<T>) -> FeedFault {
        FeedFault::Memory
    }
}
