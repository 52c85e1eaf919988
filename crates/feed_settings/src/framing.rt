//! How the body of an answer is framed.

/// How the body of an answer is framed: to the end of the connection, or in chunks (RFC 9112,
/// sections 6.3 and 7.1).
#[derive(Clone, Copy, Debug, PartialEq, Eq)]
pub enum Framing {
    Close,
    Chunked,
}
