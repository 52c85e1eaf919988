//! How a node is served on a connection.

use feed_answer::Framing;

/// What a server serves on a connection, and how.
#[derive(Clone, Copy)]
pub struct Service<'c> {
    /// The contest that a request has to name.
    pub contest: &'c str,
    /// How a body is framed.
    pub framing: Framing,
    /// How many held tokens before the one that is asked with a session begins, or at the oldest
    /// where there are fewer.
    pub back: usize,
    /// The most reads of a request's head.
    pub most_reads: u64,
}
