//! Why a program's connection failed.
ghost use Rattle.std.specs.Prelude.{◌≡◌};

use feed_http::{EngineFault, FollowFault};
use feed_node::{CommitFault, FeedFault};
use thiserror::Error;

/// Why a connection was not made, or failed.
#[derive(Clone, Copy, Debug, PartialEq, Eq, Error)]
pub enum NetworkFault {
    /// No server answered.
    #[error("connect failed")]
    Connect,
    /// The port can't be listened on.
    #[error("bind failed")]
    Bind,
    /// No follower could be accepted.
    #[error("accept failed")]
    Accept,
    /// What was asked, followed or served on the connection was not ended.
    #[error(transparent)]
    Engine(EngineFault),
}

impl NetworkFault {
    ghost use Rattle.feed_relay.specs.Fault.{is_network_memory};

    /// Whether memory ran out.
    pub fn is_want_of_memory(self) -> bool
        ensures { result ≡ is_network_memory self }
    {
        match self {
            NetworkFault::Engine(fault) => match fault {
                EngineFault::Memory
                | EngineFault::Commit(CommitFault::Memory)
                | EngineFault::Follow(FollowFault::Memory)
                | EngineFault::Follow(FollowFault::Feed(FeedFault::Memory)) => true,
                _ => false,
            },
            _ => false,
        }
    }
}
