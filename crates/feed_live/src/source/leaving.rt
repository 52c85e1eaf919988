//! A server is left: for another one, or to be asked again.

ghost use Rattle.std.specs.Prelude.{◌≡◌, ◌≢◌, ◌%◌, ◌||◌, ◌&&◌, None, false, true, not, is_some};

use crate::source::{Reach, Source};
use crate::times::STOOD_LONG;
use feed_device::{Desk, Excerpt, Lack, Link, Report, Why};
use feed_figures::FollowFailure;
use feed_hub::FIRST_PAUSE;
use feed_screens::Screens;

impl Source {
    ghost use Rattle.feed_live.specs.Calling.{ReadsAsBefore};
    ghost use Rattle.feed_live.specs.Times.{HeedsTime, SameTimes};
    ghost use Rattle.feed_live.specs.Relaying.{StillFollows, SameSource, WasLeft, GoesOnTo, servers_of, within_turn};
    ghost use Rattle.feed_live.specs.Leaving.{AsksAgain, LooksAtFirst, after_loss, after_quiet, has_left_quiet, heard_time, is_asked_again, is_end, is_past, look_at, newest_time, quiet_at, stood_long, why_left, LeavesLate, IsToMove, IsToStay};
    ghost use Rattle.feed_live.specs.declared.source.Reach.TheVariants.{Away};
    ghost use Rattle.feed_screens.specs.declared.screens.Screens.{Screens};

    /// Leaves a server that is late or silent, or has nothing new for long.
    pub(crate) fn leave_due<L: Link>(&mut self, desk: &mut Desk, link: &mut L, idle: u64)
        ensures follows { (screens : Screens) → StillFollows
            (within_turn (L.exchanges link.old) self.old self.old.rest.items screens)
            (within_turn (L.exchanges link.new) self.new self.new.rest.items screens) }
        // none is left where there is none
        ensures away { self.old.reach ≡ Away → (self.new ≡ self.old)
            × (L.calls link.new ≡ L.calls link.old) × (desk.new.time ≡ desk.old.time) }
        // one that is late or silent is left, and the next one is asked; or the same one again, if
        // it had answered and is only silent
        ensures leaves { LeavesLate self.old self.new idle desk.old.time }
        // one that is neither, and not to be left for anything else, is followed on
        ensures stays { IsToStay self.old idle desk.old.time → self.new ≡ self.old }
        // one that is followed in place of the first one is left for a look at that
        ensures looks { self.old.reach ≢ Away → why_left self.old idle desk.old.time ≡ None
            → is_past (look_at self.old self.old.reach) desk.old.time ≡ true
            → (self.new.reach ≡ Away) × LooksAtFirst self.old self.new desk.old.time }
        // one that has nothing new for long is left, and the next one is asked at once
        ensures quiet { self.old.reach ≢ Away → why_left self.old idle desk.old.time ≡ None
            → is_past (look_at self.old self.old.reach) desk.old.time ≡ false
            → is_past (quiet_at self.old self.old.reach) desk.old.time ≡ true
            → (self.new.reach ≡ Away) × (self.new.upstream.since ≡ desk.old.time)
            × (self.new.upstream.place ≡ after_quiet self.old % self.old.upstream.places) }
        // one that was asked for the newest commit again, and sent nothing of it, is asked again
        ensures newest { self.old.reach ≢ Away → why_left self.old idle desk.old.time ≡ None
            → is_past (look_at self.old self.old.reach) desk.old.time ≡ false
            → is_past (quiet_at self.old self.old.reach) desk.old.time ≡ false
            → is_past (newest_time self.old) desk.old.time ≡ true
            → (self.new.reach ≡ Away) × (self.new.upstream.since ≡ desk.old.time) }
        ensures moves { IsToMove self.old idle desk.old.time
            → (self.new.reach ≡ Away) × (self.new.has_more ≡ false) }
        ensures calls { L.calls link.new ≡ L.calls link.old }
        ensures reads { ReadsAsBefore self.old self.new }
        ensures heeds { HeedsTime self.old self.new desk.old.time desk.new.time }
        ensures refused { self.new.upstream.refused ≡ self.old.upstream.refused }
    {
        if self.reach == Reach::Away {
            return;
        }
        match self.leaves(idle, desk.time) {
            Some(why) => self.leave_for(desk, link, why),
            None => {
                if self.is_to_look(desk.time) {
                    self.look(link, desk.time);
                } else if self.is_to_leave_quiet(desk.time) {
                    self.leave_quiet(desk, link);
                } else if self.is_to_ask_newest(desk.time) {
                    self.ask_newest(link, desk.time);
                }
            }
        }
    }

    /// A server that is late or silent is left. One that had answered, and is only silent, is asked
    /// again at once: it may send no line feeds while nothing happens.
    fn leave_for<L: Link>(&mut self, desk: &mut Desk, link: &mut L, why: Why)
        ensures left { WasLeft self.old self.new (L.exchanges link.old) (L.exchanges link.new) }
        ensures calls { L.calls link.new ≡ L.calls link.old }
        ensures again { is_asked_again self.old why ≡ true
            → AsksAgain self.old self.new desk.old.time }
        ensures next { is_asked_again self.old why ≡ false
            → GoesOnTo self.old self.new desk.old.time }
        ensures rests { self.new.has_more ≡ false }
        ensures heeds { HeedsTime self.old self.new desk.old.time desk.new.time }
        ensures refused { self.new.upstream.refused ≡ self.old.upstream.refused }
    {
        if self.is_asked_again(why) {
            self.end_well(desk, link, why);
        } else {
            self.lost(desk, link, why);
        }
    }

    /// Whether a server that is left for this is asked again at once: it is silent, but it had
    /// answered, with its newest commit where that was asked for, and nothing of it is yet to
    /// settle.
    fn is_asked_again(&self, why: Why) -> bool
        ensures { result ≡ is_asked_again self.now why }
    {
        let is_over = self.coming.is_none() || self.is_at_shown();
        let has_answered = self.body_since.is_some() && !self.rechecking.is_going();
        matches!(why, Why::Silent) && has_answered && is_over
    }

    /// The server is left, and the next one is asked: after a pause where each of them failed.
    pub(crate) fn lost<L: Link>(&mut self, desk: &mut Desk, link: &mut L, why: Why)
        ensures left { WasLeft self.old self.new (L.exchanges link.old) (L.exchanges link.new) }
        ensures calls { L.calls link.new ≡ L.calls link.old }
        ensures next { GoesOnTo self.old self.new desk.old.time }
        ensures rests { self.new.has_more ≡ false }
        ensures heeds { HeedsTime self.old self.new desk.old.time desk.new.time }
        // one that ended its answer sent all that it has, and counts as heard
        ensures heard { self.new.is_heard
            ≡ (self.old.is_heard || is_end why && is_some (heard_time self.old)) }
        ensures returning { self.new.returning ≡ after_loss self.old.body_since self.old.returning }
        ensures refused { self.new.upstream.refused ≡ self.old.upstream.refused }
    {
        let server = self.upstream.place();
        let back = self.leading.end_look();
        self.patience.lose(server, why, back.is_some());
        let is_reported = self.lose() && back.is_none();
        self.rechecking.lose();
        self.hear_end(why);
        self.report_unsettled(desk);
        let is_tls = is_reported && self.beginning.is_tls();
        self.leave(link, desk.time);
        self.leading.fail(server, Lack::Left(why), desk.time);
        self.figures.lose(why, desk.time);
        self.servers
            .fail(server, FollowFailure::Left(why), desk.time);
        self.ask_next(back, desk.time);
        let pause = self.upstream.due(0).saturating_sub(desk.time);
        forget_after(link, pause);
        desk.reports
            .add_if(is_reported, Report::Lost { server, why, pause });
        desk.reports.add_if(is_tls, Report::Tls { server });
    }

    /// The response ended, or the connection broke off. A server whose feed stood open for long did
    /// not fail: a proxy ends a feed in which nothing happens. It is asked again at once. Any other
    /// one is lost.
    pub(crate) fn end<L: Link>(&mut self, desk: &mut Desk, link: &mut L, why: Why)
        ensures left { WasLeft self.old self.new (L.exchanges link.old) (L.exchanges link.new) }
        ensures calls { L.calls link.new ≡ L.calls link.old }
        ensures again { stood_long self.old desk.old.time ≡ true
            → AsksAgain self.old self.new desk.old.time }
        ensures next { stood_long self.old desk.old.time ≡ false
            → GoesOnTo self.old self.new desk.old.time }
        ensures rests { self.new.has_more ≡ false }
        ensures heeds { HeedsTime self.old self.new desk.old.time desk.new.time }
        ensures heard { self.new.is_heard
            ≡ (self.old.is_heard || is_end why && is_some (heard_time self.old)) }
    {
        if self.stood_long(desk.time) {
            self.end_well(desk, link, why);
        } else {
            self.lost(desk, link, why);
        }
    }

    /// Whether the feed of the server stood open for long, and nothing of it is yet to settle, but
    /// for one that is at what is shown.
    fn stood_long(&self, now: u64) -> bool
        ensures { result ≡ stood_long self.now now }
    {
        let Some(since) = self.body_since else {
            return false;
        };
        let is_over = self.coming.is_none() || self.is_at_shown();
        since.saturating_add(STOOD_LONG) <= now && is_over
    }

    /// The server is left that did not fail, and is asked again at once.
    fn end_well<L: Link>(&mut self, desk: &mut Desk, link: &mut L, why: Why)
        ensures left { WasLeft self.old self.new (L.exchanges link.old) (L.exchanges link.new) }
        ensures calls { L.calls link.new ≡ L.calls link.old }
        ensures again { AsksAgain self.old self.new desk.old.time }
        ensures rests { self.new.has_more ≡ false }
        ensures heeds { HeedsTime self.old self.new desk.old.time desk.new.time }
        ensures heard { self.new.is_heard
            ≡ (self.old.is_heard || is_end why && is_some (heard_time self.old)) }
    {
        let server = self.upstream.place();
        self.rechecking.lose();
        self.hear_end(why);
        self.leave(link, desk.time);
        let is_reported = self.patience.ask_again(desk.time);
        self.figures.end(why, desk.time);
        self.servers
            .fail(server, FollowFailure::Left(why), desk.time);
        self.upstream.ended(self.answers.shown.change(), desk.time);
        let lost = Report::Lost {
            server,
            why,
            pause: 0,
        };
        desk.reports.add_if(is_reported, lost);
    }

    /// A server is lost. Whether that is to be reported: not where it was only asked since another
    /// one had nothing new, and did not answer.
    fn lose(&mut self) -> bool
        ensures same { SameSource self.old self.new }
        ensures upstream { self.new.upstream ≡ self.old.upstream }
        ensures reported { result
            ≡ (is_some self.old.body_since || not (has_left_quiet self.old.returning)) }
        ensures times { SameTimes self.old self.new }
        ensures exact { self.new ≡ record self.old {
          returning = after_loss self.old.body_since self.old.returning;
        } }
    {
        if self.body_since.is_some() {
            self.returning.lose();
        }
        !self.returning.has_left_quiet()
    }

    /// A server that ended its answer has sent all that comes after our token.
    fn hear_end(&mut self, why: Why)
        ensures same { SameSource self.old self.new }
        ensures heard { self.new.is_heard
            ≡ (self.old.is_heard || is_end why && is_some (heard_time self.old)) }
        ensures upstream { self.new.upstream ≡ self.old.upstream }
        ensures times { SameTimes self.old self.new }
        ensures returning { self.new.returning ≡ self.old.returning }
    {
        if matches!(why, Why::Ended) && self.heard_at().is_some() {
            self.is_heard = true;
        }
    }

    pub(crate) fn leave<L: Link>(&mut self, link: &mut L, now: u64)
        ensures exchanges { L.exchanges link.new ≡ L.exchanges link.old }
        ensures calls { L.calls link.new ≡ L.calls link.old }
        ensures servers { servers_of self.new ≡ servers_of self.old }
        ensures answers { self.new.answers ≡ self.old.answers }
        ensures upstream { self.new.upstream ≡ self.old.upstream }
        ensures away { self.new.reach ≡ Away }
        ensures rests { self.new.has_more ≡ false }
        ensures none { self.new.body_since ≡ None }
        ensures opened { self.new.opened ≡ self.old.opened }
        ensures heeds { HeedsTime self.old self.new now now }
        ensures heard { self.new.is_heard ≡ self.old.is_heard }
        ensures returning { self.new.returning ≡ self.old.returning }
        ensures leading { self.new.leading ≡ self.old.leading }
    {
        link.close();
        if self.body_since.is_some() {
            self.away_since = now;
            let token = self.answers.shown.node().token();
            let token = token.map(|token| Excerpt::of(token.text()));
            self.servers.leave(self.upstream.place(), token, now);
        }
        self.reach = Reach::Away;
        // What had not settled is dropped.
        self.coming = None;
        self.rechecking.leave();
        self.beginning.leave();
        self.body_since = None;
        self.has_more = false;
    }
}

/// Each server failed where the next one is asked after so long a pause: the addresses of names are
/// asked for again then.
fn forget_after<L: Link>(link: &mut L, pause: u64)
    ensures exchanges { L.exchanges link.new ≡ L.exchanges link.old }
    ensures calls { L.calls link.new ≡ L.calls link.old }
{
    if pause >= FIRST_PAUSE {
        link.forget_addresses();
    }
}
