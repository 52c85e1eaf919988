//! Why a command fails: the texts that report it, and the statuses that it ends with.
ghost use Rattle.std.specs.Prelude.{◌≡◌};

use crate::placing::{Spot, spot_of};
use feed_arguments::AddressFault;
use feed_audit::AuditFault;
use feed_http::{EngineFault, PlaceFault};
use feed_node::{CommitFault, FeedFault};
use feed_note::{LineStop, SurveyFault};
use feed_play::PlayFault;
use feed_records::Unread;
use feed_relay::NetworkFault;
use std::alloc::{AllocError, AllocFailed, Global};
use thiserror::Error;

/// The status for words that are refused: the command line, an option's value, or a server's name.
pub const REFUSED: u8 = 1;

/// Why a feed can't be fed on to a mirror, and at which of its lines, where that was asked for.
/// Lines are counted from 1.
#[derive(Clone, Copy, Debug, PartialEq, Eq, Error)]
#[error("{fault}")]
pub struct FeedStop {
    pub fault: FeedFault,
    pub line: Option<u64>,
}

/// At which line a feed can't be read, and why; and where in that line, where that was asked for.
#[derive(Clone, Copy, Debug, PartialEq, Eq)]
pub struct SurveyStop {
    pub fault: SurveyFault,
    pub spot: Option<Spot>,
}

/// Why a command fails. Running out of memory in what a command calls is a fault of its own, but
/// for a script's, which says at which line.
#[derive(Clone, Copy, Debug, PartialEq, Eq, Error)]
pub enum Fault {
    /// Memory ran out.
    #[error("out of memory")]
    Memory,
    /// A read of the input failed.
    #[error("read failed")]
    Read,
    /// A write of the output failed.
    #[error("write failed")]
    Write,
    /// The input did not end in the reads that were allowed.
    #[error("too many turns")]
    TooManyReads,
    /// The input has more bytes than may be read whole.
    #[error("input too long")]
    TooLong,
    /// A line of the input can't be fed to a mirror.
    #[error("{0}")]
    Feed(FeedStop),
    /// A line of the input can't be read.
    #[error("line {}: {}", .0.fault.line, .0.fault.stop)]
    Survey(SurveyStop),
    /// A line of the input, whose batches are to be served, can't be read.
    #[error("{}", .0.stop)]
    Batches(SurveyFault),
    /// The input, a script, was not played to its end.
    #[error("{0}")]
    Play(PlayFault),
    /// One of two records can't be read, or a line of it.
    #[error("{0}")]
    Audit(AuditFault),
    /// A state of the screen's record is none of the primary's.
    #[error("the records differ")]
    Differs,
    /// The primary's record has no such state as the screen's, and may have ended before it.
    #[error("the primary's record ends too soon")]
    Ended,
    /// The input, or what was followed, has ended, and nothing was published.
    #[error("nothing published")]
    Unpublished,
    /// The input has ended, and none of its lines publishes a state at the token that is asked for.
    #[error("the feed has no such token")]
    NoToken,
    /// The server that is to be followed can't be named like this.
    #[error("{0}")]
    Place(PlaceFault),
    /// The further servers that are to be followed can't be addressed like this.
    #[error("{0}")]
    Address(AddressFault),
    /// A batch of the input was refused.
    #[error("{0}")]
    Commit(CommitFault),
    /// A connection was not made, or failed.
    #[error("{0}")]
    Network(NetworkFault),
}

impl Fault {
    ghost use Rattle.feed_commands.specs.Fault.{status_of, is_one_connections, fault_of_feed};
    ghost use Rattle.feed_commands.specs.Fault.{fault_of_batches, SaysMore};

    /// The status that a program with this fault ends with.
    pub fn status(self) -> u8
        ensures { result ≡ status_of self }
    {
        match self {
            Fault::Memory => 5,
            Fault::Read | Fault::Write | Fault::TooManyReads => 4,
            Fault::Play(fault) if fault.is_want_of_memory() => 5,
            Fault::TooLong | Fault::Feed(_) | Fault::Survey(_) | Fault::Batches(_) => 2,
            Fault::Audit(
                AuditFault::PrimaryUnread(Unread::Failed)
                | AuditFault::ScreenUnread(Unread::Failed),
            ) => 4,
            Fault::Play(_) | Fault::Audit(_) | Fault::Differs => 2,
            Fault::Ended | Fault::Unpublished | Fault::NoToken => 3,
            Fault::Place(_) | Fault::Address(_) => REFUSED,
            Fault::Commit(_) => 2,
            Fault::Network(NetworkFault::Engine(EngineFault::Commit(_) | EngineFault::Follow(_))) =>
                2,
            Fault::Network(_) => 4,
        }
    }

    /// Whether it is one connection's, after which a command goes on that serves several.
    pub fn is_of_a_connection(self) -> bool
        ensures { result ≡ is_one_connections self }
    {
        match self {
            Fault::Network(fault) => match fault {
                NetworkFault::Bind | NetworkFault::Accept => false,
                NetworkFault::Engine(EngineFault::Commit(_)) => false,
                _ => true,
            },
            _ => false,
        }
    }

    /// The fault of a command whose mirror stopped feeding, at this line where it is to be
    /// reported.
    pub fn of_feed(fault: FeedFault, line: Option<u64>) -> Fault
        ensures { result ≡ fault_of_feed fault line }
    {
        match fault {
            FeedFault::Memory => Fault::Memory,
            fault => Fault::Feed(FeedStop { fault, line }),
        }
    }

    /// The same fault, with its place in this line, where it is one of a line.
    pub(crate) fn in_line(self, alloc: Global, line: &[u8]) -> Fault
        ensures { SaysMore line.now self result }
    {
        match self {
            Fault::Survey(stop) => {
                let spot = spot_of(alloc, line, stop.fault.stop).unwrap_or(None);
                Fault::Survey(SurveyStop { spot, ..stop })
            }
            fault => fault,
        }
    }

    /// The fault of a command whose input's batches can't be read.
    pub fn of_batches(fault: SurveyFault) -> Fault
        ensures { result ≡ fault_of_batches fault }
    {
        match fault.stop {
            LineStop::Memory => Fault::Memory,
            _ => Fault::Batches(fault),
        }
    }
}

impl From<FeedFault> for Fault {
    ghost use Rattle.std.specs.Prelude.{None};
    ghost use Rattle.feed_commands.specs.Fault.{fault_of_feed};

    ghost from_gives = { λ why fault. fault ≡ fault_of_feed why None };

    fn from(fault: FeedFault) -> Fault {
        Fault::of_feed(fault, None)
    }
}

impl From<SurveyFault> for Fault {
    ghost use Rattle.feed_commands.specs.Fault.{fault_of_survey};

    ghost from_gives = { λ why fault. fault ≡ fault_of_survey why };

    fn from(fault: SurveyFault) -> Fault {
        match fault.stop {
            LineStop::Memory => Fault::Memory,
            _ => Fault::Survey(SurveyStop { fault, spot: None }),
        }
    }
}

impl From<AuditFault> for Fault {
    ghost use Rattle.feed_commands.specs.Fault.{fault_of_audit};

    ghost from_gives = { λ why fault. fault ≡ fault_of_audit why };

    fn from(fault: AuditFault) -> Fault {
        match fault {
            AuditFault::Memory => Fault::Memory,
            _ => Fault::Audit(fault),
        }
    }
}

impl From<PlaceFault> for Fault {
    ghost use Rattle.feed_commands.specs.Fault.{fault_of_place};

    ghost from_gives = { λ why fault. fault ≡ fault_of_place why };

    fn from(fault: PlaceFault) -> Fault {
        match fault {
            PlaceFault::Memory => Fault::Memory,
            _ => Fault::Place(fault),
        }
    }
}

impl From<AddressFault> for Fault {
    ghost use Rattle.feed_commands.specs.Fault.{fault_of_addresses};

    ghost from_gives = { λ why fault. fault ≡ fault_of_addresses why };

    fn from(fault: AddressFault) -> Fault {
        match fault {
            AddressFault::Memory => Fault::Memory,
            _ => Fault::Address(fault),
        }
    }
}

impl From<CommitFault> for Fault {
    ghost use Rattle.feed_commands.specs.Fault.{fault_of_commit};

    ghost from_gives = { λ why fault. fault ≡ fault_of_commit why };

    fn from(fault: CommitFault) -> Fault {
        match fault {
            CommitFault::Memory => Fault::Memory,
            _ => Fault::Commit(fault),
        }
    }
}

impl From<NetworkFault> for Fault {
    ghost use Rattle.feed_commands.specs.Fault.{fault_of_network};

    ghost from_gives = { λ why fault. fault ≡ fault_of_network why };

    fn from(fault: NetworkFault) -> Fault {
        if fault.is_want_of_memory() {
            Fault::Memory
        } else {
            Fault::Network(fault)
        }
    }
}

impl From<AllocError> for Fault {
    ghost use Rattle.feed_commands.specs.declared.fault.Fault.TheVariants.{Memory};

    ghost from_gives = { λ _ fault. fault ≡ Memory };

    fn from(_error: AllocError) -> Fault {
        Fault::Memory
    }
}

impl<T: Drop> From<AllocFailed<T>> for Fault {
    ghost use Rattle.feed_commands.specs.declared.fault.Fault.TheVariants.{Memory};

    ghost from_gives = { λ _ fault. fault ≡ Memory };

    fn from(_error: AllocFailed<T>) -> Fault {
        Fault::Memory
    }
}
