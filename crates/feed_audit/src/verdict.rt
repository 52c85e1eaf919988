//! What an audit answers.

ghost use Rattle.std.specs.Prelude.{◌≡◌};
ghost use Rattle.feed_audit.specs.Stops.{primary_fault, screen_fault};

use crate::difference::Difference;
use crate::stop::Stop;
use feed_node::FeedFault;
use feed_records::Unread;
use feed_tables::Name;
use std::alloc::AllocError;
use thiserror::Error;

/// What an audit found.
#[derive(Drop)]
pub enum Verdict {
    /// Each state of the screen's record is one of the primary's. There are this many, or
    /// `usize::MAX` where they are more.
    Agrees(usize),
    /// This is the first that is none of the primary's.
    Strays(Stray),
}

/// What a comparison of two records found.
#[derive(Drop)]
pub enum Comparison {
    /// The screen's record publishes nothing.
    Unpublished,
    /// Each state of the screen's record is one of the primary's. The screen's has this many, and
    /// the primary's has that many; `usize::MAX` where they are more.
    Agrees { states: usize, primary: usize },
    /// This is the first that is none of the primary's.
    Strays(Stray),
}

/// A state of the screen's record that the primary's doesn't have.
#[derive(Drop)]
pub struct Stray {
    pub token: Name,
    /// How many states the screen's record has before it.
    pub before: usize,
    /// The line that publishes it, counted from 1.
    pub line: usize,
    pub difference: Difference,
}

/// Why an audit has no answer: a record has a fault, at this line, counted from 1.
#[derive(Clone, Copy, Debug, PartialEq, Eq, Error)]
pub enum AuditFault {
    /// The state that was looked for stands nowhere before it.
    #[error("primary: line {0}: {1}")]
    Primary(usize, FeedFault),
    /// All states before it are the primary's.
    #[error("screen: line {0}: {1}")]
    Screen(usize, FeedFault),
    /// What a connection of the screen's record carried begins with a chunk's size.
    #[error("screen: line {0}: chunks of HTTP; record with curl, without --raw")]
    Chunked(usize),
    /// A connection of the screen's record goes on from another token than the last one so far.
    #[error("screen: line {0}: it goes on from another token than that of the last state")]
    OtherToken(usize),
    /// The primary's record can't be read to where that state would be.
    #[error("primary: {0}")]
    PrimaryUnread(Unread),
    /// The screen's record can't be read on. All states before that are the primary's.
    #[error("screen: {0}")]
    ScreenUnread(Unread),
    #[error("out of memory")]
    Memory,
}

impl From<AllocError> for AuditFault {
    ghost use Rattle.feed_audit.specs.declared.verdict.AuditFault.TheVariants.{Memory};

    ghost from_gives = { λ _ fault. fault ≡ Memory };

    fn from(_error: AllocError) -> AuditFault {
        AuditFault::Memory
    }
}

/// The fault of the primary's record behind so many lines.
pub(crate) fn of_primary(stop: Stop, lines: usize) -> AuditFault
    ensures { result ≡ primary_fault stop lines }
{
    match stop {
        Stop::Feed(FeedFault::Memory) | Stop::Unread(Unread::Memory) => AuditFault::Memory,
        Stop::Feed(fault) => AuditFault::Primary(lines.saturating_add(1), fault),
        Stop::Unread(why) => AuditFault::PrimaryUnread(why),
    }
}

/// The same of the screen's.
pub(crate) fn of_screen(stop: Stop, lines: usize) -> AuditFault
    ensures { result ≡ screen_fault stop lines }
{
    match stop {
        Stop::Feed(FeedFault::Memory) | Stop::Unread(Unread::Memory) => AuditFault::Memory,
        Stop::Feed(fault) => AuditFault::Screen(lines.saturating_add(1), fault),
        Stop::Unread(why) => AuditFault::ScreenUnread(why),
    }
}
