//! The first server of the command line is right. Where it refuses our newest token twice, its log
//! is another one, as after a reset: it is asked for everything, whatever the others hold. Two
//! relays that follow each other would else keep for ever what it had. One that is only behind us
//! has a log that ours goes on from: then nothing of it is shown.
//!
//! While another server is followed in its place, that is told, with the reason, and the first one
//! is looked at now and then.

ghost use Rattle.std.specs.Prelude.{◌≡◌, ◌&&◌, ◌||◌, ◌*◌, not, if◌then◌else◌, true, false, None, Some, is_some, min};
ghost use Rattle.feed_live.specs.Leading.{SameLead, asks_all, has_lacked, is_first, is_back, is_instead, is_other_log, is_shut_out, look_time, looks_next, refused_since, stands_alone, was_behind};
ghost use Rattle.feed_live.specs.declared.source.leading.Coming.TheVariants.{News};

use crate::times::{
    ALL_APART, ALONE_TIME, FIRST_LOOK, LOOK_APART, LOOK_TIME, REFUSED_APART, RESPONSE_TIME,
};
use feed_answer::Place;
use feed_device::{Desk, Lack, Report};

/// What is yet to come of a server that answers.
#[derive(Clone, Copy, PartialEq, Eq)]
pub(crate) enum Coming {
    /// What comes after our token.
    News,
    /// The newest commit, again.
    Newest,
    /// Everything.
    All,
}

/// What is known of the first server. All times are in milliseconds.
#[derive(Clone, Copy)]
pub(crate) struct Leading {
    /// How many of the places are its own: one for each address of its name.
    places: usize,
    /// How many are of other servers.
    others: usize,
    /// Since when it refuses the newest token, where it held none since then.
    refused_at: Option<u64>,
    /// It is asked for everything, though something is shown that has a token.
    wants_all: bool,
    /// When its log was found to be behind ours.
    behind_at: Option<u64>,
    /// Its log took the place of ours, and it has published nothing more: the others may still have
    /// the old one, with the same tokens.
    is_alone: bool,
    /// Why it isn't followed, and since when; and whether it was late.
    lack: Option<(Lack, u64)>,
    was_late: bool,
    /// When it is looked at next, where another one is followed.
    look_at: u64,
    /// How long it is not looked at once that failed.
    pause: u64,
    /// How long it took to answer the last time.
    answer_time: u64,
    /// Which of its places is looked at next.
    next: usize,
    /// It is looked at, and the server of this place is followed else.
    looks_from: Option<usize>,
    /// Which server was reported to be followed in its place.
    said: Option<usize>,
}

/// How many places the first server has: those that follow one another with its host and base.
fn places_of_first(places: &[Place]) -> usize {
    let Some(first) = places.first() else {
        return 0;
    };
    let mut count: usize = 0;
    for place in places {
        if place.host() != first.host() || place.base() != first.base() {
            break;
        }
        count = count.saturating_add(1);
    }
    count
}

impl Leading {
    /// Nothing is known yet.
    pub(crate) fn new(places: &[Place]) -> Leading
        ensures none { (result.lack ≡ None) × (result.looks_from ≡ None)
            × (result.refused_at ≡ None) × (result.wants_all ≡ false)
            × (result.is_alone ≡ false) }
    {
        let own = places_of_first(places);
        Leading {
            places: own,
            others: places.len().saturating_sub(own),
            refused_at: None,
            wants_all: false,
            behind_at: None,
            is_alone: false,
            lack: None,
            was_late: false,
            look_at: 0,
            pause: FIRST_LOOK,
            answer_time: 0,
            next: 0,
            looks_from: None,
            said: None,
        }
    }

    /// Whether a place is one of the first server.
    pub(crate) fn is_first(&self, place: usize) -> bool
        ensures { result ≡ is_first self.now place }
    {
        place < self.places
    }

    /// How many places other servers have.
    pub(crate) fn others(&self) -> usize
        ensures { result ≡ self.now.others }
    {
        self.others
    }

    /// The number of the server of a place, from 0 for the first one, and where there is none.
    pub(crate) fn index(&self, place: usize) -> u64 {
        if place < self.places || self.places == 0 {
            return 0;
        }
        (place - self.places).saturating_add(1) as u64
    }

    // ---- its log

    /// The server of a place holds our token, or what it sent is shown.
    pub(crate) fn hold(&mut self, place: usize)
        ensures first { is_first self.old place ≡ true → self.new ≡ record self.old {
          refused_at = None;
          wants_all = false;
          behind_at = None;
        } }
        ensures other { is_first self.old place ≡ false → self.new ≡ self.old }
    {
        if self.is_first(place) {
            self.refused_at = None;
            self.wants_all = false;
            self.behind_at = None;
        }
    }

    /// The server of a place refuses our newest token. Whether it is the first one, refused it a
    /// second ago or longer, and so has another log: not where that was found to be behind ours not
    /// long ago, nor where there is no other server.
    pub(crate) fn refuse(&mut self, place: usize, now: u64) -> bool
        ensures other { result ≡ is_other_log self.old place now }
        ensures refused { self.new ≡ record self.old {
          refused_at = if is_first self.old place then refused_since self.old.refused_at now
              else self.old.refused_at;
        } }
    {
        if !self.is_first(place) {
            return false;
        }
        let Some(at) = self.refused_at else {
            self.refused_at = Some(now);
            return false;
        };
        at.saturating_add(REFUSED_APART) <= now && !self.was_behind(now) && self.others > 0
    }

    /// Whether its log was found to be behind ours less than a minute ago.
    fn was_behind(&self, now: u64) -> bool
        ensures { result ≡ was_behind self.now.behind_at now }
    {
        match self.behind_at {
            Some(at) => now.saturating_sub(at) < ALL_APART,
            None => false,
        }
    }

    /// It is asked for everything.
    pub(crate) fn want_all(&mut self)
        ensures { self.new ≡ record self.old { wants_all = true } }
    {
        self.wants_all = true;
    }

    /// Whether a connection to this place asks for everything, though our token is known: also one
    /// to another server, while that may have the log that the first one's took the place of.
    pub(crate) fn wants_all(&self, place: usize) -> bool
        ensures { result ≡ asks_all self.now place }
    {
        if self.is_first(place) {
            self.wants_all
        } else {
            self.is_alone
        }
    }

    /// The log of the server of a place was found to be behind ours. So another one has the log
    /// that the first one's is, and not the one before.
    pub(crate) fn find_behind(&mut self, place: usize, now: u64)
        ensures first { is_first self.old place ≡ true
            → self.new ≡ record self.old { wants_all = false; behind_at = Some now } }
        ensures other { is_first self.old place ≡ false
            → self.new ≡ record self.old { is_alone = false } }
    {
        if self.is_first(place) {
            self.wants_all = false;
            self.behind_at = Some(now);
        } else {
            self.is_alone = false;
        }
    }

    /// What came of the server of a place, that was asked for everything, is shown. Where that is
    /// the first one's other log, which doesn't go on from what was shown, it stands alone. What
    /// another one has is asked for with its own tokens from now on.
    pub(crate) fn take_all(&mut self, place: usize, goes_on: bool)
        ensures { self.new ≡ record self.old { is_alone = stands_alone self.old place goes_on } }
    {
        let is_another = self.wants_all && !goes_on;
        self.is_alone = self.is_first(place) && (self.is_alone || is_another);
    }

    /// Whether no connection is to be begun to the server of a place: the first one's log took the
    /// place of ours, and another one may have the old one, with the same tokens. Not for longer
    /// than the first one is waited for.
    pub(crate) fn is_shut_out(&self, place: usize, now: u64) -> bool
        ensures { result ≡ is_shut_out self.now place now }
    {
        self.is_alone && !self.is_first(place) && !self.has_lacked(now)
    }

    /// Whether it hasn't been followed for a minute.
    fn has_lacked(&self, now: u64) -> bool
        ensures { result ≡ has_lacked self.now.lack now }
    {
        match self.lack {
            Some((_, since)) => since.saturating_add(ALONE_TIME) <= now,
            None => false,
        }
    }

    /// Whether its log took the place of ours, and it has published nothing more.
    pub(crate) fn is_alone(&self) -> bool
        ensures { result ≡ self.now.is_alone }
    {
        self.is_alone
    }

    // ---- another one in its place

    /// Since when it isn't followed, and why, as it is told where this place is followed.
    pub(crate) fn lack(&self, place: usize, is_followed: bool) -> Option<(Lack, u64)> {
        if is_followed && self.is_first(place) {
            None
        } else {
            self.lack
        }
    }

    /// The server of a place is left for this. Where it is the first one, and there are others, it
    /// is not followed from now on.
    pub(crate) fn fail(&mut self, place: usize, lack: Lack, now: u64)
        ensures { SameLead self.old self.new }
    {
        if self.is_first(place) && self.others > 0 {
            self.lack_for(lack, now);
        }
    }

    /// It is not followed, for this. Another reason than before is news. One that was late is
    /// looked at seldom.
    fn lack_for(&mut self, lack: Lack, now: u64)
        ensures { SameLead self.old self.new }
    {
        let since = match &self.lack {
            Some((before, since)) => {
                if !before.is_like(&lack) {
                    self.said = None;
                }
                *since
            }
            None => now,
        };
        self.was_late = lack.is_late();
        if self.was_late {
            self.pause = LOOK_APART;
        }
        self.look_at = now.saturating_add(self.pause);
        self.lack = Some((lack, since));
    }

    /// Whether it was late when it failed last.
    pub(crate) fn was_late(&self) -> bool
        ensures { result ≡ self.now.was_late }
    {
        self.was_late
    }

    /// Whether the server of a place was reported to be followed in place of the first one.
    pub(crate) fn is_back(&self, place: usize) -> bool
        ensures { result ≡ is_back self.now place }
    {
        self.lack.is_some() && self.said == Some(place)
    }

    /// The server of a place answers with the feed, after so long: the first one, or another one in
    /// its place. A change is reported. Where the newest commit is yet to come again, or all of it,
    /// a look at the first one goes on, and it isn't followed again before that.
    pub(crate) fn find(&mut self, desk: &mut Desk, place: usize, time: u64, is: Coming)
        ensures time { desk.new.time ≡ desk.old.time }
        ensures over { is ≡ News → self.new.looks_from ≡ None }
    {
        let is_news = is == Coming::News;
        if is_news {
            self.looks_from = None;
        }
        if self.is_first(place) {
            self.answer_time = time;
            if is_news {
                self.follow(desk, place);
            }
        } else if let Some((lack, _)) = self.lack {
            self.say_instead(desk, place, lack);
        }
    }

    /// What came of the server of a place is shown: where that is the first one, it is followed
    /// again.
    pub(crate) fn show(&mut self, desk: &mut Desk, place: usize)
        ensures time { desk.new.time ≡ desk.old.time }
        ensures alone { self.new.is_alone ≡ self.old.is_alone }
    {
        self.hold(place);
        if self.is_first(place) {
            self.looks_from = None;
            self.follow(desk, place);
        }
    }

    /// The server of a place published something, and the commit before that is held or isn't. One
    /// that is not the first is followed in its place from now on, though that did not fail.
    pub(crate) fn publish(&mut self, desk: &mut Desk, place: usize, holds_former: bool)
        ensures time { desk.new.time ≡ desk.old.time }
        // where one stands alone, it does until it has published another commit
        ensures alone { holds_former ≡ false → self.new.is_alone ≡ self.old.is_alone }
    {
        self.show(desk, place);
        if self.is_first(place) {
            self.pause = FIRST_LOOK;
            self.is_alone = self.is_alone && !holds_former;
            return;
        }
        if self.others == 0 || self.lack.is_some() {
            return;
        }
        self.lack_for(Lack::Quiet, desk.time);
        self.say_instead(desk, place, Lack::Quiet);
    }

    /// It is followed again: that is reported where it was reported that another one is.
    fn follow(&mut self, desk: &mut Desk, place: usize)
        ensures time { desk.new.time ≡ desk.old.time }
        ensures from { self.new.looks_from ≡ self.old.looks_from }
        ensures alone { self.new.is_alone ≡ self.old.is_alone }
    {
        let Some((_, since)) = self.lack.take() else {
            return;
        };
        if self.said.take().is_some() {
            desk.reports.add(Report::Again {
                server: place,
                time: desk.time.saturating_sub(since),
            });
        }
    }

    /// Reports once that this server is followed in place of the first one.
    fn say_instead(&mut self, desk: &mut Desk, place: usize, lack: Lack)
        ensures time { desk.new.time ≡ desk.old.time }
        ensures from { self.new.looks_from ≡ self.old.looks_from }
        ensures alone { self.new.is_alone ≡ self.old.is_alone }
    {
        if self.said == Some(place) {
            return;
        }
        self.said = Some(place);
        desk.reports.add(Report::Instead {
            server: place,
            why: lack,
        });
    }

    // ---- looks

    /// Whether the server of a place is followed in place of the first one.
    pub(crate) fn is_instead(&self, place: usize) -> bool
        ensures { result ≡ is_instead self.now place }
    {
        self.lack.is_some() && !self.is_first(place)
    }

    /// When it is looked at.
    pub(crate) fn look_at(&self) -> u64
        ensures { result ≡ self.now.look_at }
    {
        self.look_at
    }

    /// How long it may take to answer while another one would be followed: twice as long as the
    /// last time, two seconds at least.
    pub(crate) fn look_time(&self) -> u64
        ensures { result ≡ look_time self.now }
    {
        self.answer_time
            .saturating_mul(2)
            .max(LOOK_TIME)
            .min(RESPONSE_TIME)
    }

    /// It is looked at; the server of this place is asked again where that fails. The place of it
    /// whose turn it is.
    pub(crate) fn look(&mut self, from: usize) -> usize
        ensures place { result ≡ self.old.next }
        ensures looks { self.new ≡ record self.old {
          looks_from = Some from;
          next = looks_next self.old;
          pause = min (min (self.old.pause * 2) u64.MAX) LOOK_APART;
        } }
    {
        let place = self.next;
        self.next = if place.saturating_add(1) < self.places {
            place.saturating_add(1)
        } else {
            0
        };
        self.looks_from = Some(from);
        self.pause = self.pause.saturating_mul(2).min(LOOK_APART);
        place
    }

    /// Whether it is looked at while another one would be followed.
    pub(crate) fn is_look(&self) -> bool
        ensures { result ≡ is_some self.now.looks_from }
    {
        self.looks_from.is_some()
    }

    /// The look at it is over: whose place is asked again.
    pub(crate) fn end_look(&mut self) -> Option<usize>
        ensures from { result ≡ self.old.looks_from }
        ensures over { self.new ≡ record self.old { looks_from = None } }
    {
        self.looks_from.take()
    }

    /// The place of the first of the others.
    pub(crate) fn other(&self) -> usize
        ensures { result ≡ self.now.places }
    {
        self.places
    }
}
