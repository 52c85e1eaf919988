//! A server that has nothing new for long may have lost its own way to the primary, or may be a
//! relay that follows this one. So it is left, and the others are asked one after another with our
//! token: whoever has something new is followed then. That costs screens nothing. Where nobody has,
//! the first one is followed for longer, until the next round.

ghost use Rattle.std.specs.Prelude.{◌≡◌, ◌+◌, ◌%◌, if◌then◌else◌, length, min, nat_eq, not, false, true};
ghost use Rattle.feed_live.specs.Leaving.{after_quiet, has_left_quiet, is_past, left_next, quiet_at, quiet_time};

use crate::source::{Reach, Source};
use crate::times::ROUND_TIME;
use feed_device::{Desk, Link, Report};
use feed_figures::Following;
use std::mem;

/// For how many times as long the first one is followed, once each was asked, until they are asked
/// again.
const ROUNDS_APART: u64 = 5;

/// When something was published last, and how many servers were left since then for having nothing
/// new.
#[derive(Clone, Copy)]
pub(crate) struct Returning {
    /// After so many milliseconds in which nothing was published another server is asked; never
    /// where it is zero.
    after: u64,
    /// Since when the server is followed, in milliseconds; also where it was asked again since its
    /// feed ended, or after a look at the first one.
    since: u64,
    /// When something was published last, or the relay began, in milliseconds.
    published: u64,
    /// How many servers were left since then for having nothing new, in this round of them.
    left_quiet: usize,
    /// Whether it was reported that one was left so.
    was_reported: bool,
}

impl Returning {
    pub(crate) fn new(after: u64, now: u64) -> Returning
        ensures { result ≡ record {
          after = after;
          since = now;
          published = now;
          left_quiet = 0;
          was_reported = false;
        } }
    {
        Returning {
            after,
            since: now,
            published: now,
            left_quiet: 0,
            was_reported: false,
        }
    }

    /// A server answers: another one, or the same again.
    pub(crate) fn find(&mut self, is_again: bool, now: u64)
        ensures { self.new ≡ record self.old {
          since = if is_again then self.old.since else now;
        } }
    {
        if !is_again {
            self.since = now;
        }
    }

    /// Something was published.
    pub(crate) fn publish(&mut self, now: u64)
        ensures { self.new ≡ record self.old { published = now; left_quiet = 0 } }
    {
        self.published = now;
        self.left_quiet = 0;
    }

    /// One of so many servers is left for having nothing new. Once each was, a round begins only
    /// when the first one is left again, which was followed for longer. Whether that is to be
    /// reported: not where it was, and none was lost since then. One that is followed again after
    /// that is followed anew.
    fn leave_quiet(&mut self, servers: usize, is_first: bool, now: u64) -> bool
        ensures reported { result ≡ not self.old.was_reported }
        ensures counts { self.new ≡ record self.old {
          since = now;
          was_reported = true;
          left_quiet = left_next self.old.left_quiet servers is_first;
        } }
    {
        self.since = now;
        if self.left_quiet < servers {
            self.left_quiet = self.left_quiet.saturating_add(1);
        } else if is_first {
            self.left_quiet = 1;
        }
        !mem::replace(&mut self.was_reported, true)
    }

    /// Whether a server is left that has nothing new.
    pub(crate) fn may_leave(&self) -> bool
        ensures { result ≡ not (nat_eq self.now.after 0) }
    {
        self.after != 0
    }

    /// Whether a server was left for having nothing new.
    pub(crate) fn has_left_quiet(&self) -> bool
        ensures { result ≡ has_left_quiet self.now }
    {
        self.left_quiet > 0
    }

    /// For how many milliseconds a server is followed that has nothing new: the first one, or
    /// another; and whether all were left for that since something was published.
    fn time(&self, is_first: bool, were_all_left: bool) -> u64
        ensures { result ≡ quiet_time self.now is_first were_all_left }
    {
        if were_all_left && is_first {
            self.after.saturating_mul(ROUNDS_APART)
        } else if self.has_left_quiet() && !were_all_left {
            ROUND_TIME.min(self.after)
        } else {
            self.after
        }
    }

    /// A server was lost that was followed: what becomes of the others is news again.
    pub(crate) fn lose(&mut self)
        ensures { self.new ≡ record self.old { left_quiet = 0; was_reported = false } }
    {
        self.left_quiet = 0;
        self.was_reported = false;
    }
}

impl Source {
    ghost use Rattle.feed_live.specs.Times.{HeedsTime};
    ghost use Rattle.feed_live.specs.Relaying.{WasLeft};

    /// When a server is left that has nothing new, where there are others. Once all were left for
    /// that since something was published, the first one stays for longer.
    pub(crate) fn returns_at(&self) -> Option<u64>
        ensures { result ≡ quiet_at self.now self.now.reach }
    {
        self.body_since?;
        let is_first = self.upstream.place() == 0;
        let were_all_left = self.returning.left_quiet >= self.places.len();
        if self.reach != Reach::Reads || !self.may_be_left() || self.is_only_other() {
            return None;
        }
        let time = self.returning.time(is_first, were_all_left);
        let since = self.returning.since.max(self.returning.published);
        Some(since.saturating_add(time))
    }

    /// Whether it is time for that.
    pub(crate) fn is_to_leave_quiet(&self, now: u64) -> bool
        ensures { result ≡ is_past (quiet_at self.now self.now.reach) now }
    {
        match self.returns_at() {
            Some(at) => at <= now,
            None => false,
        }
    }

    /// The server is left for having nothing new, and the next one is asked at once. It did not
    /// fail: the pauses stay as they are, and so does what is counted of failures.
    pub(crate) fn leave_quiet<L: Link>(&mut self, desk: &mut Desk, link: &mut L)
        ensures left { WasLeft self.old self.new (L.exchanges link.old) (L.exchanges link.new) }
        ensures calls { L.calls link.new ≡ L.calls link.old }
        ensures rests { self.new.has_more ≡ false }
        ensures next { self.new.upstream.place
            ≡ after_quiet self.old % self.old.upstream.places }
        ensures at_once { self.new.upstream.since ≡ desk.old.time }
        ensures pause { self.new.upstream.pause ≡ self.old.upstream.pause }
        ensures counts { (self.new.upstream.failed ≡ self.old.upstream.failed)
            × (self.new.upstream.refused ≡ self.old.upstream.refused) }
        // each of them was left once, until the first one is left again, which stays for longer
        ensures round { self.new.returning.left_quiet ≡ left_next self.old.returning.left_quiet
            (length self.old.places.items) (nat_eq self.old.upstream.place 0) }
        ensures heeds { HeedsTime self.old self.new desk.old.time desk.new.time }
    {
        let server = self.upstream.place();
        let is_reported = self
            .returning
            .leave_quiet(self.places.len(), server == 0, desk.time);
        desk.reports.add_if(
            is_reported,
            Report::Quiet {
                server,
                time: self.returning.after,
            },
        );
        let next = self.after_quiet();
        self.leave(link, desk.time);
        self.figures.change(Following::Away, desk.time);
        self.upstream
            .turn_to(next, self.answers.shown.change(), desk.time);
    }
}
