//! What is counted of screens, for those who watch a relay.

use crate::conn::{Conn, Phase};
use crate::screens::Screens;
use std::alloc::{AllocError, Global};
use std::cmp::Reverse;
use std::net::SocketAddr;

/// The statuses that a request can be refused with.
const REFUSALS: usize = 5;

const STATUSES: [u16; REFUSALS] = [400, 404, 405, 431, 503];

/// What was counted of the screens since the start.
#[derive(Clone, Copy)]
pub struct ScreenTotals {
    /// The most at once.
    pub most: usize,
    /// How many connections were taken.
    pub opened: u64,
    /// How many were answered with a status other than 200.
    pub refused: u64,
    /// Each such status, and how many were answered with it.
    pub refused_by: [(u16, u64); REFUSALS],
    /// How many connections were cut.
    pub cut: u64,
    /// How many bytes they were handed.
    pub bytes: u64,
    /// How often what was shown was published afresh.
    pub resets: u64,
    /// How many bodies were ended for that.
    pub ended: u64,
}

impl ScreenTotals {
    pub(crate) fn none() -> ScreenTotals {
        ScreenTotals {
            most: 0,
            opened: 0,
            refused: 0,
            refused_by: STATUSES.map(|status| (status, 0)),
            cut: 0,
            bytes: 0,
            resets: 0,
            ended: 0,
        }
    }

    /// One came, and so many are there now.
    pub(crate) fn open(&mut self, now_open: usize) {
        self.opened = self.opened.saturating_add(1);
        self.most = self.most.max(now_open);
    }

    /// One was answered with this status.
    pub(crate) fn answer(&mut self, status: u16) {
        if status != 200 {
            self.refused = self.refused.saturating_add(1);
        }
        for refused in &mut self.refused_by {
            if refused.0 == status {
                refused.1 = refused.1.saturating_add(1);
            }
        }
    }

    pub(crate) fn cut(&mut self) {
        self.cut = self.cut.saturating_add(1);
    }

    pub(crate) fn hand(&mut self, bytes: usize) {
        self.bytes = self.bytes.saturating_add(bytes as u64);
    }

    /// So many bodies were ended, since something is published afresh. Where nothing was before,
    /// that is no news.
    pub(crate) fn reset(&mut self, was_said: bool, bodies: u64) {
        if was_said {
            self.resets = self.resets.saturating_add(1);
            self.ended = self.ended.saturating_add(bodies);
        }
    }
}

/// How many screens there are at the moment.
#[derive(Clone, Copy)]
pub struct ScreenFigures {
    /// All connections, also those that were refused and are not closed yet.
    pub open: usize,
    /// Those whose request has not come or not been answered yet.
    pub asking: usize,
    /// Those whose socket did not take all that there is for them.
    pub behind: usize,
    /// Those that wait for room: a request for everything, or one that needs a long commit.
    pub waiting: usize,
    /// Whether one more would be answered 503, since there are as many as there may be.
    pub are_full: bool,
    /// What was counted since the start.
    pub totals: ScreenTotals,
}

/// One screen's connection, as it is at a moment. Times are in milliseconds.
#[derive(Clone, Copy)]
pub struct ScreenRow {
    /// Who connected.
    pub peer: SocketAddr,
    /// When it was taken.
    pub since: u64,
    /// The status of its answer; none while its request comes.
    pub status: Option<u16>,
    /// Whether it is sent what is published.
    pub follows: bool,
    /// How many bytes there are for it that it has not taken.
    pub lacks: u64,
    /// How many bytes it took.
    pub bytes: u64,
}

impl ScreenFigures {
    /// One of them is at this.
    fn count(&mut self, conn: &Conn) {
        match conn.phase {
            Phase::Asks => self.asking = self.asking.saturating_add(1),
            _ if conn.is_blocked || conn.has_more => {
                self.behind = self.behind.saturating_add(1);
            }
            _ => {}
        }
        if conn.wait.is_some() {
            self.waiting = self.waiting.saturating_add(1);
        }
    }
}

impl Screens {
    /// How many there are, and what they are at.
    pub fn figures(&self) -> ScreenFigures {
        let mut figures = ScreenFigures {
            open: self.conns.len(),
            asking: 0,
            behind: 0,
            waiting: 0,
            are_full: self.seated() >= self.limits.most,
            totals: self.totals,
        };
        for at in 0..self.conns.capacity() {
            if let Some(conn) = self.conns.get(at) {
                figures.count(conn);
            }
        }
        figures
    }

    /// How many have a seat.
    fn seated(&self) -> usize {
        let mut seated: usize = 0;
        for at in 0..self.conns.capacity() {
            if self.conns.get(at).is_some_and(|conn| conn.key.is_some()) {
                seated = seated.saturating_add(1);
            }
        }
        seated
    }

    /// How many are sent what is published.
    pub(crate) fn following(&self) -> u64 {
        let mut following: u64 = 0;
        for at in 0..self.conns.capacity() {
            if self.conns.get(at).is_some_and(|conn| follows(conn)) {
                following = following.saturating_add(1);
            }
        }
        following
    }

    /// Whether something was published, and said.
    pub(crate) fn has_said(&self) -> bool {
        self.hub.broadcast().told().is_some()
    }

    fn row(&self, conn: &Conn) -> ScreenRow {
        let lacks = match conn.key {
            Some(key) => self.hub.prefix(key).len(),
            None => 0,
        };
        ScreenRow {
            peer: conn.peer,
            since: conn.since,
            status: match conn.status {
                0 => None,
                status => Some(status),
            },
            follows: follows(conn),
            lacks: lacks as u64,
            bytes: conn.bytes,
        }
    }

    /// At most so many of them: first who lacks most, then who came first.
    pub fn rows(&self, alloc: Global, most: usize) -> Result<Vec<ScreenRow>, AllocError> {
        let mut rows = Vec::new(alloc);
        for at in 0..self.conns.capacity() {
            if let Some(conn) = self.conns.get(at) {
                rows.push(self.row(conn))?;
            }
        }
        rows.sort_unstable_by_key(|row| (Reverse(row.lacks), row.since));
        rows.truncate(most);
        Ok(rows)
    }
}

/// Whether a screen is sent what is published.
fn follows(conn: &Conn) -> bool {
    conn.phase == Phase::Watches && conn.status == 200
}
