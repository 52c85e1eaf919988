//! The first server is looked at, while another one is followed in its place. It has to answer
//! soon, else the one that is followed is asked again at once. So screens wait for two seconds at
//! most, and ever more seldom.

ghost use Rattle.std.specs.Prelude.{◌≡◌, ◌%◌, None, false};
ghost use Rattle.feed_node.specs.Mirroring.{cut_off};
ghost use Rattle.feed_live.specs.Leaving.{LooksAtFirst, after_quiet, has_looks_alone, is_looked_at, is_only_other, is_passed_over, is_past, look_at, may_be_left};

use crate::source::{Reach, Source};
use crate::times::LOOK_TIME;
use feed_device::Link;
use feed_figures::Following;

impl Source {
    ghost use Rattle.feed_live.specs.Times.{HeedsTime};
    ghost use Rattle.feed_live.specs.Relaying.{GoesOnFrom, GoesOnTo, WasLeft};

    /// Whether the first server is looked at, while another one is followed in its place. Where
    /// each connection asks for everything it isn't: each look would have all of that settle again.
    fn is_looked_at(&self) -> bool
        ensures { result ≡ is_looked_at self.now }
    {
        self.leading.is_instead(self.upstream.place()) && !self.is_always_fresh()
    }

    /// Whether looks are enough, since it wasn't late. One that was late has its turn in each
    /// round, too, and all the time to answer then.
    fn has_looks_alone(&self) -> bool
        ensures { result ≡ has_looks_alone self.now }
    {
        self.is_looked_at() && !self.leading.was_late()
    }

    /// Whether that is the only other one: it isn't left for having nothing new.
    pub(crate) fn is_only_other(&self) -> bool
        ensures { result ≡ is_only_other self.now }
    {
        self.has_looks_alone() && self.leading.others() < 2
    }

    /// Whether a server whose answer is read may be left for another one: nothing that came waits,
    /// and nothing is to settle. The relay is set to leave one so, and the first one's log did not
    /// just take the place of ours. Nor is everything asked for each time: that would have to
    /// settle again.
    pub(crate) fn may_be_left(&self) -> bool
        ensures { result ≡ may_be_left self.now }
    {
        self.coming.is_none()
            && self.places.len() >= 2
            && !self.has_more
            && self.rest.is_empty()
            && self.returning.may_leave()
            && !self.leading.is_alone()
            && !self.is_always_fresh()
    }

    /// When the first server is looked at.
    pub(crate) fn look_at(&self) -> Option<u64>
        ensures { result ≡ look_at self.now self.now.reach }
    {
        if self.reach != Reach::Reads || !self.may_be_left() || !self.is_looked_at() {
            return None;
        }
        let since = self.body_since?;
        Some(self.leading.look_at().max(since.saturating_add(LOOK_TIME)))
    }

    /// Whether it is time for that.
    pub(crate) fn is_to_look(&self, now: u64) -> bool
        ensures { result ≡ is_past (look_at self.now self.now.reach) now }
    {
        match self.look_at() {
            Some(at) => at <= now,
            None => false,
        }
    }

    /// The first server is looked at.
    pub(crate) fn look<L: Link>(&mut self, link: &mut L, now: u64)
        ensures left { WasLeft self.old self.new (L.exchanges link.old) (L.exchanges link.new) }
        ensures calls { L.calls link.new ≡ L.calls link.old }
        ensures rests { self.new.has_more ≡ false }
        ensures looks { LooksAtFirst self.old self.new now }
        ensures heeds { HeedsTime self.old self.new now now }
    {
        let place = self.leading.look(self.upstream.place());
        self.leave(link, now);
        self.figures.change(Following::Away, now);
        self.upstream
            .turn_to(place, self.answers.shown.change(), now);
    }

    /// Which place is asked after one that has nothing new: not the first server's, where that is
    /// looked at.
    pub(crate) fn after_quiet(&self) -> usize
        ensures { result ≡ after_quiet self.now }
    {
        let next = self.upstream.place().saturating_add(1);
        if self.has_looks_alone() && next >= self.places.len() {
            self.leading.other()
        } else {
            next
        }
    }

    /// Whether no connection is to be begun to the server whose turn it is.
    pub(crate) fn is_passed_over(&self, now: u64) -> bool
        ensures { result ≡ is_passed_over self.now now }
    {
        self.leading.is_shut_out(self.upstream.place(), now)
    }

    /// The next one is asked, as if this one had failed.
    pub(crate) fn pass_over<L: Link>(&mut self, link: &mut L, now: u64)
        ensures left { WasLeft self.old self.new (L.exchanges link.old) (L.exchanges link.new) }
        ensures calls { L.calls link.new ≡ L.calls link.old }
        ensures next { GoesOnTo self.old self.new now }
        ensures rests { self.new.has_more ≡ false }
        ensures heard { self.new.is_heard ≡ self.old.is_heard }
        ensures refused { self.new.upstream.refused ≡ self.old.upstream.refused }
        ensures heeds { HeedsTime self.old self.new now now }
    {
        let back = self.leading.end_look();
        self.leave(link, now);
        self.ask_next(back, now);
    }

    /// The server was lost: the next one is asked; where the first one was only looked at, the one
    /// at this place, that is followed else.
    pub(crate) fn ask_next(&mut self, back: Option<usize>, now: u64)
        ensures next { GoesOnFrom back self.old.upstream self.new.upstream now }
        ensures follower { self.new.upstream.follower ≡ None }
        ensures began { self.new.upstream.began ≡ self.old.upstream.began }
        ensures refused { self.new.upstream.refused ≡ self.old.upstream.refused }
        ensures shown { self.new.answers.shown.mirror ≡ cut_off self.old.answers.shown.mirror }
        ensures rest { self.new ≡ record self.old {
          upstream = self.new.upstream;
          answers = self.new.answers;
        } }
        ensures blank { self.new.answers.blank ≡ self.old.answers.blank }
    {
        match back {
            Some(from) => self
                .upstream
                .turn_to(from, self.answers.shown.change(), now),
            None => self.upstream.lost(self.answers.shown.change(), now),
        }
    }
}
