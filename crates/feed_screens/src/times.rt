//! For how long screens are waited for: all times are in milliseconds.

/// How long a request's head may take, beside the time for which requests may have to wait until a
/// server was heard.
pub(crate) const REQUEST_TIME: u64 = 30_000;

/// For how long none is taken after that failed.
pub(crate) const ACCEPT_PAUSE: u64 = 1_000;

/// For how long a request for everything waits for room: then the answer is that there are too
/// many.
pub(crate) const ROOM_TIME: u64 = 30_000;

/// For how long what still comes is read after the last byte was sent. Closed with bytes unread, a
/// connection may lose the end of its answer.
pub(crate) const LINGER: u64 = 2_000;

/// For how long nothing more is said after a window was, where a socket has yet to take it.
pub(crate) const SAY_PAUSE: u64 = 50;

/// How long after a failure for lack of memory the same is tried again.
pub(crate) const MEMORY_PAUSE: u64 = 1_000;

/// After how long a screen is cut that took none of its own bytes.
pub(crate) const STALL: u64 = 60_000;

/// In how long a screen has to take the whole text of its answer where others want room for theirs.
pub(crate) const SHARE_TIME: u64 = 60_000;

/// For how long nobody is called slow.
pub(crate) const PATIENCE: u64 = 2_000;
