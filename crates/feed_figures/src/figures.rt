//! What is counted of the feed.

ghost use Rattle.std.specs.Prelude.{◌≡◌};

use crate::reasons::{FollowFailure, Following, KINDS, REASONS, Reason};
use feed_device::{Desk, Excerpt, Lack, Report, Why};

/// After so many milliseconds in which changes waited for a token, there may be none.
pub const LONG_WAIT: u64 = 10_000;

/// What was counted of the feed that is followed. Times are in milliseconds.
#[derive(Clone, Copy)]
pub struct FeedFigures {
    /// How things stand with the server.
    pub following: Following,
    /// The number of the server that is asked, or was asked last.
    pub server: usize,
    /// Its number among the servers that were named, from 0 for the first one; one with several
    /// addresses counts once, if it is the first.
    pub index: u64,
    /// Why another server is followed, or asked, in place of the first one, and since when.
    pub lack: Option<(Lack, u64)>,
    /// When `following` became what it is.
    pub changed: u64,
    /// When the last byte of a feed came.
    pub heard: u64,
    /// How many servers were lost since one answered.
    pub failures: u64,
    /// How many commits were published since the start.
    pub commits: u64,
    /// How many bytes came since the start, those of heads with them.
    pub bytes: u64,
    /// How many lines came on a connection of which nothing is shown until it has settled; zero
    /// where none is to settle.
    pub coming_lines: u64,
    /// How many bytes came on it; zero, too, where none is to settle.
    pub coming_bytes: u64,
    /// Since when everything is asked for, and nothing of it was shown.
    pub afresh: Option<u64>,
    /// Whether what comes is held back, since it is smaller than what is shown.
    pub is_held: bool,
    /// The token behind which all that is sent breaks each time, and the line there; that is empty
    /// if the connection ends there.
    pub stuck: Option<(Excerpt, Excerpt)>,
    /// Whether the server gave one token to two states on this connection.
    pub gives_twice: bool,
    /// When the last commit was published, where one was since the start.
    pub committed: Option<u64>,
    /// How the last attempt failed, and when.
    pub failed: Option<(FollowFailure, u64)>,
    /// How many attempts failed since the start, by their reasons.
    pub failed_by: [(Reason, u64); KINDS],
    /// How many lines with a change came since the last one with a token.
    pub waiting: u64,
    /// When the first of them came; no matter where there is none.
    pub waiting_since: u64,
    /// Whether it was reported of this connection that they wait for long.
    is_warned: bool,
}

impl FeedFigures {
    /// Nothing was counted, and things stand like this.
    pub fn new(following: Following, now: u64) -> FeedFigures {
        FeedFigures {
            following,
            server: 0,
            index: 0,
            lack: None,
            changed: now,
            heard: now,
            failures: 0,
            commits: 0,
            bytes: 0,
            coming_lines: 0,
            coming_bytes: 0,
            afresh: None,
            is_held: false,
            stuck: None,
            gives_twice: false,
            committed: None,
            failed: None,
            failed_by: REASONS.map(|reason| (reason, 0)),
            waiting: 0,
            waiting_since: now,
            is_warned: false,
        }
    }

    /// The same, with what came on a connection that is to settle.
    pub fn with_coming(self, coming_lines: u64, coming_bytes: u64) -> FeedFigures {
        FeedFigures {
            coming_lines,
            coming_bytes,
            ..self
        }
    }

    /// The same, with whether one token was given to two states.
    pub fn with_twice(self, gives_twice: bool) -> FeedFigures {
        FeedFigures {
            gives_twice,
            ..self
        }
    }

    /// The same, with the number of the server, and why the first one isn't followed.
    pub fn with_lack(self, index: u64, lack: Option<(Lack, u64)>) -> FeedFigures {
        FeedFigures {
            index,
            lack,
            ..self
        }
    }

    /// So many bytes came: of a feed, or before it is known whether they are.
    pub fn hear(&mut self, bytes: usize, is_feed: bool, now: u64) {
        if is_feed {
            self.heard = now;
        }
        self.bytes = self.bytes.saturating_add(bytes as u64);
    }

    /// A commit was published.
    pub fn publish(&mut self, now: u64) {
        self.commits = self.commits.saturating_add(1);
        self.committed = Some(now);
        self.waiting = 0;
    }

    /// So many changes wait for a token.
    pub fn stage(&mut self, waiting: u64, now: u64) {
        if waiting > 0 && self.waiting == 0 {
            self.waiting_since = now;
        }
        self.waiting = waiting;
    }

    /// Things stand like this with the server, since now where they stood otherwise.
    pub fn change(&mut self, following: Following, now: u64) {
        if self.following != following {
            self.is_held = false;
            self.following = following;
            self.changed = now;
        }
    }

    /// A server is asked, for everything or for what comes after our token.
    pub fn ask(&mut self, server: usize, is_afresh: bool, now: u64) {
        self.server = server;
        self.afresh = is_afresh.then_some(self.afresh.unwrap_or(now));
        self.waiting = 0;
        self.is_warned = false;
        self.change(Following::Asked, now);
    }

    /// The server answers, with what is shown at once or is to settle.
    pub fn find(&mut self, is_to_settle: bool, now: u64) {
        self.failures = 0;
        self.heard = now;
        let following = if is_to_settle {
            Following::Settling
        } else {
            self.stuck = None;
            Following::Answered
        };
        self.change(following, now);
    }

    /// What came afresh is shown. For how long everything was asked for.
    pub fn settle(&mut self, now: u64) -> u64 {
        let since = self.afresh.take().unwrap_or(now);
        self.stuck = None;
        self.change(Following::Answered, now);
        now.saturating_sub(since)
    }

    /// What comes is held back, or isn't any more.
    pub fn hold(&mut self, is_held: bool) {
        self.is_held = is_held;
    }

    /// The server is lost.
    pub fn lose(&mut self, why: Why, now: u64) {
        self.failures = self.failures.saturating_add(1);
        self.fail(FollowFailure::Left(why), now);
        self.change(Following::Away, now);
    }

    /// The feed of the server ended, and that did not fail: it is asked again.
    pub fn end(&mut self, why: Why, now: u64) {
        self.fail(FollowFailure::Left(why), now);
        self.change(Following::Away, now);
    }

    /// The server does not hold the token that it was asked with, or has another commit there.
    pub fn refuse_token(&mut self, failure: FollowFailure, now: u64) {
        self.fail(failure, now);
    }

    /// When it is reported that changes wait for a token for long.
    pub fn warns_at(&self) -> Option<u64> {
        if self.waiting == 0 || self.is_warned {
            return None;
        }
        Some(self.waiting_since.saturating_add(LONG_WAIT))
    }

    /// Reports that changes of a server wait for a token for long, once for each connection.
    pub fn warn(&mut self, desk: &mut Desk, server: usize)
        ensures { desk.new.time ≡ desk.old.time }
    {
        let Some(at) = self.warns_at() else {
            return;
        };
        if at > desk.time {
            return;
        }
        self.is_warned = true;
        desk.reports.add(Report::NoToken {
            server,
            changes: self.waiting,
            time: desk.time.saturating_sub(self.waiting_since),
        });
    }

    fn fail(&mut self, failure: FollowFailure, now: u64) {
        self.failed = Some((failure, now));
        let reason = failure.reason();
        for failed in &mut self.failed_by {
            if failed.0 == reason {
                failed.1 = failed.1.saturating_add(1);
            }
        }
        self.waiting = 0;
    }
}
