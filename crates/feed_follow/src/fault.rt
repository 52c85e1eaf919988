//! How far a response has come, and why it can't be followed.
ghost use Rattle.std.specs.Prelude.{◌≡◌};
ghost use Rattle.feed_follow.specs.declared.fault.FollowFault.TheVariants as follow_fault;

use feed_node::FeedFault;
use std::alloc::AllocError;
use thiserror::Error;

/// How far a response has come.
#[derive(Clone, Copy, Debug, PartialEq, Eq)]
pub enum Progress {
    /// The head is not yet whole.
    Head,
    /// The body goes on.
    Body,
    /// The body is whole; what follows is ignored.
    Done,
    /// The server does not hold the token that was asked with.
    TokenRefused,
}

/// Why a response can't be followed any further: the one whose byte comes first, and at one byte
/// the first of these.
#[derive(Clone, Copy, Debug, PartialEq, Eq, Error)]
pub enum FollowFault {
    /// A fault or a refused token was answered before.
    #[error("closed")]
    Closed,
    /// More than 8,192 bytes, 66 lines or 64 fields.
    #[error("head too long")]
    LongHead,
    /// No bytes can follow that make a head.
    #[error("bad head")]
    BadHead,
    /// Neither 200, nor 400 after a request with a token.
    #[error("status {0}")]
    Status(u16),
    /// Another content coding than `identity`, or another transfer coding than one `chunked`.
    #[error("bad coding")]
    BadCoding,
    /// Lengths that are no numbers of 1 to 18 digits, or not one number.
    #[error("bad length")]
    BadLength,
    /// A byte that can't stand where it does in a chunked body.
    #[error("bad chunk")]
    BadChunk,
    /// What the mirror finds wrong with the feed.
    #[error(transparent)]
    Feed(FeedFault),
    #[error("out of memory")]
    Memory,
}

impl From<AllocError> for FollowFault {
    ghost from_gives = { λ _ fault. fault ≡ follow_fault.Memory };

    fn from(_error: AllocError) -> FollowFault {
        FollowFault::Memory
    }
}

impl From<FeedFault> for FollowFault {
    ghost from_gives = { λ fault given. given ≡ follow_fault.Feed fault };

    fn from(fault: FeedFault) -> FollowFault {
        FollowFault::Feed(fault)
    }
}
