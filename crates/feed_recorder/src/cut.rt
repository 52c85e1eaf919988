//! How a connection ends.

use feed_tape::TapeFault;
use std::io::ErrorKind;
use thiserror::Error;

/// Why a connection ended, or was left.
#[derive(Clone, Copy, Debug, PartialEq, Eq, Error)]
pub(crate) enum Cut {
    /// The name of the server is not known, or it can't be connected to.
    #[error("can't connect ({0})")]
    Unreached(ErrorKind),
    /// It broke.
    #[error("the connection broke ({0})")]
    Broke(ErrorKind),
    /// It ended in order.
    #[error("the connection ended")]
    Ended,
    /// Nothing came for too long.
    #[error("nothing came for 300 seconds")]
    Silent,
    /// The answer has another status than 200.
    #[error("status {0}")]
    Status(u16),
    /// The server no longer has the token that was asked with.
    #[error("it no longer has the token that was asked with")]
    Refused,
    /// The answer is no response, or its head is too long.
    #[error("bad head")]
    BadHead,
    /// Its body is coded in a way that isn't known, or its length is no number.
    #[error("bad coding")]
    BadCoding,
    /// A byte can't stand where it does in a chunked body.
    #[error("bad chunk")]
    BadChunk,
    /// A line is not recorded.
    #[error("{0}")]
    Line(TapeFault),
}

impl Cut {
    /// Whether the server has another log than the one that is recorded.
    pub(crate) fn is_other_log(self) -> bool {
        matches!(self, Cut::Refused | Cut::Line(TapeFault::OtherLog))
    }
}
