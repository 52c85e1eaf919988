//! What is known of each server.

use crate::reasons::FollowFailure;
use feed_device::Excerpt;
use std::alloc::Global;

/// What is known of one server. Times are in milliseconds.
#[derive(Clone, Copy)]
pub struct ServerFigures {
    /// How often it was asked since the start.
    pub asked: u64,
    /// How often it was lost, or refused our token, since the start.
    pub failures: u64,
    /// The status of its last answer; none where it has given none.
    pub status: Option<u16>,
    /// Why it was lost the last time, and when.
    pub failed: Option<(FollowFailure, u64)>,
    /// When its feed was left the last time; none where it was never followed.
    pub left: Option<u64>,
    /// The token that was shown then.
    pub token: Option<Excerpt>,
}

impl ServerFigures {
    /// Nothing is known.
    fn new() -> ServerFigures {
        ServerFigures {
            asked: 0,
            failures: 0,
            status: None,
            failed: None,
            left: None,
            token: None,
        }
    }
}

/// What is known of all servers, each at its number. A name with several addresses has a number for
/// each.
#[derive(Drop)]
pub struct Servers {
    rows: Vec<ServerFigures>,
}

impl Servers {
    /// None was asked.
    pub fn new(alloc: Global) -> Servers {
        Servers {
            rows: Vec::new(alloc),
        }
    }

    /// All that were asked, and those before them.
    pub fn rows(&self) -> &[ServerFigures] {
        self.rows.as_slice()
    }

    /// One of them, where there is memory for it.
    fn row(&mut self, server: usize) -> Option<&mut ServerFigures> {
        for _ in self.rows.len()..server.saturating_add(1) {
            self.rows.push(ServerFigures::new()).ok()?;
        }
        self.rows.get_mut(server)
    }

    /// A server is asked.
    pub fn ask(&mut self, server: usize) {
        if let Some(row) = self.row(server) {
            row.asked = row.asked.saturating_add(1);
        }
    }

    /// A server answers with the feed.
    pub fn answer(&mut self, server: usize) {
        if let Some(row) = self.row(server) {
            row.status = Some(200);
        }
    }

    /// A server was lost, or refused our token.
    pub fn fail(&mut self, server: usize, failure: FollowFailure, now: u64) {
        if let Some(row) = self.row(server) {
            row.failures = row.failures.saturating_add(1);
            row.failed = Some((failure, now));
            row.status = failure.status().or(row.status);
        }
    }

    /// The feed of a server is left, with this token shown.
    pub fn leave(&mut self, server: usize, token: Option<Excerpt>, now: u64) {
        if let Some(row) = self.row(server) {
            row.left = Some(now);
            row.token = token;
        }
    }
}
