//! For how long a relay waits with its state files: all times are in milliseconds.

/// How long after a failure a file is begun again.
pub(crate) const RETRY: u64 = 30_000;
