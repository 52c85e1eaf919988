//! What may happen in a world, and its replies.

ghost use Rattle.std.specs.Prelude.{◌≡◌};
ghost use Rattle.feed_world.specs.States.{node_asked};
ghost use Rattle.feed_world.specs.declared.event.WorldFault.TheVariants.{Commit as CommitRefused, Memory as WorldMemory};
ghost use Rattle.feed_world.specs.declared.event.ShapeFault.TheVariants.{Memory as ShapeMemory};

use feed_answer::Framing;
use feed_follow::FollowFault;
use feed_node::{CommitFault, Pulled};
use feed_tables::{Changes, Name};
use std::alloc::{AllocError, AllocFailed};
use thiserror::Error;

/// What may happen in a world. Nodes are numbered: 0 is the primary, and the others are mirrors.
#[derive(Drop)]
pub enum Event {
    /// The primary makes these changes.
    Commit(Changes),
    /// This mirror connects to this other node, which sends again so many commits before the
    /// mirror's token, as far as both nodes hold their tokens.
    Connect(usize, usize, usize),
    /// The node at the other end of this mirror's connection sends its next commit.
    Serve(usize),
    /// That node has no more to send for now: it sends a line feed.
    Idle(usize),
    /// This mirror's connection brings the next bytes, this many or all that remain.
    Deliver(usize, usize),
    /// This mirror's connection is cut.
    Cut(usize),
    /// What this mirror shows is saved, in place of what was saved of it before.
    Save(usize),
    /// This mirror is restored from the first bytes that were saved of it, this many or all; its
    /// connection is gone. Before anything was saved there are none.
    Restart(usize, usize),
}

/// What a mirror asks of another node.
#[derive(Clone, Copy)]
pub(crate) enum Asks {
    /// Of this node, with so many commits again, and so framed.
    ForConnection(usize, usize, Framing),
    /// Of the node at the other end of its connection.
    ForCommit,
}

impl Asks {
    /// The number of the node that is asked by a mirror that connected to this one last.
    pub fn of(self, upstream: usize) -> usize
        ensures { result ≡ node_asked self upstream }
    {
        match self {
            Asks::ForConnection(server, _, _) => server,
            Asks::ForCommit => upstream,
        }
    }
}

/// What a world replies to an event.
#[derive(Drop)]
pub enum Reply {
    /// The primary published the state of this token.
    Committed(Name),
    /// A connection was opened.
    Opened,
    /// The mirror's token is not held: its next connection is fresh.
    Refused,
    /// The node has published nothing.
    NotYet,
    /// What was sent.
    Sent(Pulled),
    /// A line feed was sent.
    Idled,
    /// How many times the mirror published.
    Delivered(usize),
    /// This mirror stopped following, and its connection is gone.
    Broke(usize, FollowFault),
    /// The connection is gone.
    Cut,
    /// How many bytes were saved.
    Saved(usize),
    /// Whether the mirror has published what was saved; else it has published nothing.
    Restarted(bool),
}

/// Why an event was refused: the first of these that holds. A refused event changes nothing.
#[derive(Clone, Copy, Debug, PartialEq, Eq, Error)]
pub enum WorldFault {
    /// No mirror has this number; or no node has that of the node to connect to, or it is the
    /// mirror itself.
    #[error("no such node")]
    NoNode,
    /// The mirror has no connection.
    #[error("no connection")]
    NoConnection,
    /// The primary refused the commit.
    #[error(transparent)]
    Commit(CommitFault),
    /// Memory ran out.
    #[error("out of memory")]
    Memory,
}

/// Why no world was made: the first of these that holds.
#[derive(Clone, Copy, Debug, PartialEq, Eq, Error)]
pub enum ShapeFault {
    /// There is no node, or there are more than a world has at most.
    #[error("bad shape")]
    BadShape,
    /// Memory ran out.
    #[error("out of memory")]
    Memory,
}

impl From<CommitFault> for WorldFault {
    ghost from_gives = { λ fault given. given ≡ CommitRefused fault };

    fn from(fault: CommitFault) -> WorldFault {
        WorldFault::Commit(fault)
    }
}

impl From<AllocError> for WorldFault {
    ghost from_gives = { λ _ fault. fault ≡ WorldMemory };

    fn from(_error: AllocError) -> WorldFault {
        WorldFault::Memory
    }
}

impl<T: Drop> From<AllocFailed<T>> for WorldFault {
    ghost from_gives = { λ _ fault. fault ≡ WorldMemory };

    fn from(_error: AllocFailed<T>) -> WorldFault {
        WorldFault::Memory
    }
}

impl From<AllocError> for ShapeFault {
    ghost from_gives = { λ _ fault. fault ≡ ShapeMemory };

    fn from(_error: AllocError) -> ShapeFault {
        ShapeFault::Memory
    }
}
