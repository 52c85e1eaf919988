//! Why a text can't be read on.

ghost use Rattle.std.specs.Prelude.{◌≡◌};

use feed_node::FeedFault;
use feed_records::Unread;
use std::alloc::AllocError;

/// Why lines can't be fed on to a mirror.
#[derive(Clone, Copy, Debug, PartialEq, Eq)]
pub enum Stop {
    /// The mirror can't be fed the next one.
    Feed(FeedFault),
    /// There is no knowing the next one.
    Unread(Unread),
}

impl From<FeedFault> for Stop {
    ghost use Rattle.feed_audit.specs.declared.stop.Stop.TheVariants.{Feed};

    ghost from_gives = { λ fault stop. stop ≡ Feed fault };

    fn from(fault: FeedFault) -> Stop {
        Stop::Feed(fault)
    }
}

impl From<Unread> for Stop {
    ghost use Rattle.feed_audit.specs.declared.stop.Stop.TheVariants as stopped;

    ghost from_gives = { λ why stop. stop ≡ stopped.Unread why };

    fn from(why: Unread) -> Stop {
        Stop::Unread(why)
    }
}

impl From<AllocError> for Stop {
    ghost use Rattle.feed_node.specs.declared.fault.FeedFault.TheVariants.{Memory};
    ghost use Rattle.feed_audit.specs.declared.stop.Stop.TheVariants.{Feed};

    ghost from_gives = { λ _ stop. stop ≡ Feed Memory };

    fn from(_error: AllocError) -> Stop {
        Stop::Feed(FeedFault::Memory)
    }
}
