//! A server that is followed.

use feed_http::{Identity, Place};

/// A server: where it is, what it is asked for, and as whom.
#[derive(Drop)]
pub struct Server<'i> {
    /// Its name or address.
    pub host: String,
    /// Its port.
    pub port: u16,
    /// The feed that it is asked for.
    pub place: Place,
    /// As whom it is asked.
    pub identity: &'i Identity,
}
