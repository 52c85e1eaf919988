//! How things stand with a server, and why one was left.

use feed_device::Why;
use feed_follow::FollowFault;
use std::fmt;

/// How things stand with the server that is followed.
#[derive(Clone, Copy, PartialEq, Eq)]
pub enum Following {
    /// A server answers with the feed.
    Answered,
    /// A server sends all that it has: nothing of it is shown until it has settled.
    Settling,
    /// A server is asked, and has not answered yet.
    Asked,
    /// No server is asked at the moment.
    Away,
    /// The feed comes on the input.
    Input,
    /// The input has ended, or can't be followed.
    Ended,
}

/// How many kinds of reasons are counted.
pub const KINDS: usize = 10;

/// Why an attempt to follow a server failed, as it is counted.
#[derive(Clone, Copy, PartialEq, Eq)]
pub enum Reason {
    /// It can't be connected to.
    Refuses,
    /// It did not take the connection in time.
    Late,
    /// It did not answer in time.
    NoAnswer,
    /// The connection broke off.
    Broke,
    /// The response ended.
    Ended,
    /// Nothing came for too long.
    Silent,
    /// It answered with a status other than 200.
    Status,
    /// It doesn't hold the token that it was asked with.
    Token,
    /// What came can't be followed.
    Feed,
    /// Memory ran out.
    Memory,
}

pub(crate) const REASONS: [Reason; KINDS] = [
    Reason::Refuses,
    Reason::Late,
    Reason::NoAnswer,
    Reason::Broke,
    Reason::Ended,
    Reason::Silent,
    Reason::Status,
    Reason::Token,
    Reason::Feed,
    Reason::Memory,
];

impl Reason {
    /// The word that a metric has for it.
    pub fn word(self) -> &'static str {
        match self {
            Reason::Refuses => "cannot_connect",
            Reason::Late => "connect_timeout",
            Reason::NoAnswer => "no_answer",
            Reason::Broke => "connection_lost",
            Reason::Ended => "end_of_feed",
            Reason::Silent => "silent",
            Reason::Status => "status",
            Reason::Token => "token_refused",
            Reason::Feed => "bad_feed",
            Reason::Memory => "out_of_memory",
        }
    }
}

/// How an attempt to follow a server failed.
#[derive(Clone, Copy)]
pub enum FollowFailure {
    /// The server was left.
    Left(Why),
    /// The server doesn't hold the token that it was asked with.
    TokenRefused,
    /// The server has another commit at that token, or none.
    OtherCommit,
}

impl FollowFailure {
    /// What it is counted as.
    pub fn reason(&self) -> Reason {
        match self {
            FollowFailure::TokenRefused | FollowFailure::OtherCommit => Reason::Token,
            FollowFailure::Left(Why::Late) => Reason::Late,
            FollowFailure::Left(Why::NoAnswer) => Reason::NoAnswer,
            FollowFailure::Left(Why::Broke) => Reason::Broke,
            FollowFailure::Left(Why::Ended) => Reason::Ended,
            FollowFailure::Left(Why::Silent) => Reason::Silent,
            FollowFailure::Left(Why::Memory) => Reason::Memory,
            FollowFailure::Left(Why::Fault(FollowFault::Status(_))) => Reason::Status,
            FollowFailure::Left(Why::Fault(_)) => Reason::Feed,
            FollowFailure::Left(_) => Reason::Refuses,
        }
    }

    /// The status that the server answered with, where it did with another one than 200.
    pub fn status(&self) -> Option<u16> {
        match self {
            FollowFailure::TokenRefused => Some(400),
            FollowFailure::Left(Why::Fault(FollowFault::Status(status))) => Some(*status),
            FollowFailure::OtherCommit | FollowFailure::Left(_) => None,
        }
    }
}

impl fmt::Display for FollowFailure {
    fn fmt<W: fmt::Write>(&self, f: &mut fmt::Formatter<W>) -> fmt::Result {
        match self {
            FollowFailure::Left(why) => write!(f, "{why}"),
            FollowFailure::TokenRefused => f.write_str("doesn't hold our token"),
            FollowFailure::OtherCommit => f.write_str("has another commit at our token"),
        }
    }
}
