//! Why an engine stopped, and what it served.
ghost use Rattle.std.specs.Prelude.{◌≡◌, false};
ghost use Rattle.feed_http.specs.declared.fault.EngineFault.TheVariants as engine_fault;

use feed_follow::FollowFault;
use feed_node::CommitFault;
use std::alloc::AllocError;
use thiserror::Error;

/// Why an engine stopped.
#[derive(Clone, Copy, Debug, PartialEq, Eq, Error)]
pub enum EngineFault {
    /// A read failed.
    #[error("read failed")]
    Read,
    /// A write failed.
    #[error("write failed")]
    Write,
    /// All reads that were allowed were made, and another was needed.
    #[error("too many turns")]
    TooManyReads,
    /// The primary refused a batch.
    #[error(transparent)]
    Commit(CommitFault),
    /// A response can't be followed.
    #[error(transparent)]
    Follow(FollowFault),
    /// Memory ran out.
    #[error("out of memory")]
    Memory,
}

impl From<AllocError> for EngineFault {
    ghost from_gives = { λ _ fault. fault ≡ engine_fault.Memory };

    fn from(_error: AllocError) -> EngineFault {
        EngineFault::Memory
    }
}

impl From<FollowFault> for EngineFault {
    ghost from_gives = { λ fault given. given ≡ engine_fault.Follow fault };

    fn from(fault: FollowFault) -> EngineFault {
        EngineFault::Follow(fault)
    }
}

impl From<CommitFault> for EngineFault {
    ghost from_gives = { λ why fault. fault ≡ engine_fault.Commit why };

    fn from(fault: CommitFault) -> EngineFault {
        EngineFault::Commit(fault)
    }
}

/// What an engine served: the status of its answer, how many commits it sent after what the
/// session opened with, and whether the node lost the session's token.
#[derive(Clone, Copy, Debug, PartialEq, Eq)]
pub struct Served {
    /// The status code of the answer.
    pub status: u16,
    /// How many commits were sent; the count stays at `u64::MAX`.
    pub commits: u64,
    /// Whether the node lost the session's token.
    pub gone: bool,
}

impl Served {
    /// An answer with this status that opened no session.
    pub(crate) fn nothing(status: u16) -> Served
        ensures { result ≡ record { status = status; commits = 0; gone = false } }
    {
        Served {
            status,
            commits: 0,
            gone: false,
        }
    }
}

/// How a response ended that was followed.
#[derive(Clone, Copy, Debug, PartialEq, Eq)]
pub enum Followed {
    /// The reader ended in the head.
    Early,
    /// The reader ended in the body.
    Ended,
    /// The body was whole.
    Done,
    /// The server does not hold the token that was asked with.
    TokenRefused,
}
