//! What came afresh is shown, once it has settled.

ghost use Rattle.std.specs.Prelude.{◌≡◌, ◌≢◌, ◌⊎◌, ◌&&◌, ◌||◌, ℕ, List, length, None, Some, IfOk, OnOk, IfSome, false, true, not, is_some};
ghost use Rattle.feed_live.specs.Afresh.{goes_on_from, has_come, is_at_shown};
ghost use Rattle.feed_live.specs.Leading.{stands_alone};
ghost use Rattle.feed_node.specs.Saved.{restored_from};

use crate::source::{Reach, Source};
use feed_device::{CameSo, Desk, Link, Report, Why};
use feed_figures::Following;
use feed_node::Mirror;
use feed_screens::Screens;
use std::alloc::{AllocError, Global};

/// Why a server is left at which a feed settled.
#[derive(Clone, Copy)]
pub(crate) enum Leaves {
    /// What comes after the token that is shown is asked for.
    Again,
    /// Memory ran out.
    Memory,
    /// What came is behind what is shown: the next server is asked.
    Behind,
}

/// A mirror that shows the same, and holds its token alone.
pub(crate) fn alone(alloc: Global, mirror: &Mirror) -> Result<Mirror, AllocError>
    ensures { IfOk result (λ alone.
        alone ≡ restored_from mirror.now.limits mirror.now.node.published) }
{
    let text = mirror.save(alloc)?;
    match Mirror::restore(alloc, mirror.limits(), text.as_slice()) {
        Ok(alone) => Ok(alone),
        Err(_) => Err(AllocError),
    }
}

impl Source {
    ghost use Rattle.feed_live.specs.Calling.{LeavesOnlyFor, ReadsAsBefore};
    ghost use Rattle.feed_live.specs.Times.{HeedsTime, SameTimes};
    ghost use Rattle.feed_live.specs.Relaying.{StillFollows, StillShows, SameSource, WasLeft, IsNowShown, ShowsAlone, counted_within_turn, within_turn};
    ghost use Rattle.feed_live.specs.declared.source.Reach.TheVariants.{Reads as Read};
    ghost use Rattle.feed_live.specs.declared.source.settling.showing.Leaves.TheVariants.{Again as Asked};

    /// Shows what came afresh, where that has settled by now.
    pub(crate) fn settle_due<L: Link>(
        &mut self,
        desk: &mut Desk,
        link: &mut L,
        screens: &mut Screens,
    )
        ensures follows { StillFollows
            (within_turn (L.exchanges link.old) self.old self.old.rest.items screens.old)
            (within_turn (L.exchanges link.new) self.new self.new.rest.items screens.new) }
        // nothing settles where no response is read
        ensures stays { self.old.reach ≢ Read → self.new ≡ self.old }
        // a server is left only for what came afresh, and has published
        ensures leaves { LeavesOnlyFor (has_come self.old.coming ≡ true) self.old self.new }
        ensures more { ReadsAsBefore self.old self.new }
        ensures heeds { HeedsTime self.old self.new desk.old.time desk.new.time }
        ensures calls { L.calls link.new ≡ L.calls link.old }
    {
        if self.reach != Reach::Reads {
            return;
        }
        if !self.is_due_to_settle(desk.time) {
            self.report_coming(desk);
            self.note_at_shown(desk.time);
            return;
        }
        let unread = self.rest.len();
        let way = self.way_now(desk.time);
        match self.settle(desk, link, screens, unread, way) {
            Some(Leaves::Again) => self.ask_again(link, desk.time),
            Some(Leaves::Memory) => self.lost(desk, link, Why::Memory),
            Some(Leaves::Behind) => self.ask_other(link, desk.time),
            None => {}
        }
    }

    /// Why what comes is shown that is due.
    fn way_now(&self, now: u64) -> CameSo {
        if self.settling.shown_by() <= now {
            CameSo::Late
        } else if self.is_smaller() {
            CameSo::Small
        } else {
            CameSo::Quiet
        }
    }

    fn is_due_to_settle(&self, now: u64) -> bool
        ensures { has_come self.now.coming ≡ false ⊎ is_at_shown self.now ≡ true → result ≡ false }
    {
        match self.settles_at() {
            Some(at) => at <= now,
            None => false,
        }
    }

    /// What came afresh takes the place of what is shown, where it has published. Screens go on
    /// from what they have where it had the same state at that token, and has all since then. Else
    /// it is shown at its own token alone: it may hold tokens of states that were none. So many
    /// bytes that came are unread. Why the server is to be left then, if it is.
    pub(crate) fn settle<L: Link>(
        &mut self,
        desk: &mut Desk,
        link: &mut L,
        screens: &mut Screens,
        unread: usize,
        way: CameSo,
    ) -> Option<Leaves>
        ensures shows { StillShows
            (counted_within_turn (L.exchanges link.old) self.old unread screens.old)
            self.new (L.exchanges link.new) screens.new }
        ensures follows { result ≡ None → self.old.reach ≡ Read → (left : List ℕ)
            → length left ≡ unread → StillFollows
            (within_turn (L.exchanges link.old) self.old left screens.old)
            (within_turn (L.exchanges link.new) self.new left screens.new) }
        ensures rest { result ≡ None → self.new.rest.items ≡ self.old.rest.items }
        ensures more { result ≡ None → self.new.has_more ≡ self.old.has_more }
        // a first server's other log that is shown stands alone
        ensures alone { result ≡ Some Asked → self.new.leading.is_alone
            ≡ stands_alone self.old.leading self.old.upstream.place false }
        ensures heeds { HeedsTime self.old self.new desk.old.time desk.new.time }
        ensures calls { L.calls link.new ≡ L.calls link.old }
    {
        if !self.has_published() {
            return None;
        }
        if self.is_behind(desk) {
            return Some(Leaves::Behind);
        }
        self.report_settled(desk, way);
        if self.is_alone() {
            return Some(self.settle_alone(desk, link, screens, unread));
        }
        let goes_on = self.goes_on();
        self.keep_screens();
        link.show_all(unread);
        self.show();
        self.take_over(desk, goes_on);
        self.say(desk, screens);
        None
    }

    /// What came afresh is shown at its own token alone. What comes after that is asked for.
    fn settle_alone<L: Link>(
        &mut self,
        desk: &mut Desk,
        link: &mut L,
        screens: &mut Screens,
        unread: usize,
    ) -> Leaves
        ensures shows { StillShows
            (counted_within_turn (L.exchanges link.old) self.old unread screens.old)
            self.new (L.exchanges link.new) screens.new }
        // that a first server's other log stands alone is noted once it is shown
        ensures alone { result ≡ Asked → self.old.coming ≢ None → self.new.leading.is_alone
            ≡ stands_alone self.old.leading self.old.upstream.place false }
        ensures heeds { HeedsTime self.old self.new desk.old.time desk.new.time }
        ensures calls { L.calls link.new ≡ L.calls link.old }
    {
        link.show_once(unread);
        if self.show_alone(desk.alloc).is_err() {
            return Leaves::Memory;
        }
        self.take_over(desk, false);
        self.say(desk, screens);
        Leaves::Again
    }

    /// Screens go on, where they may: what comes is no fresh publication to them.
    fn keep_screens(&mut self)
        ensures same { SameSource self.old self.new }
        ensures times { SameTimes self.old self.new }
        ensures more { self.new.has_more ≡ self.old.has_more }
    {
        self.settling.was_alone = false;
        if self.goes_on() {
            self.is_fresh = false;
            self.is_heard = true;
        }
    }

    fn report_settled(&mut self, desk: &mut Desk, way: CameSo)
        ensures same { SameSource self.old self.new }
        ensures exact { self.new ≡ record self.old { figures = self.new.figures } }
        ensures heeds { HeedsTime self.old self.new desk.old.time desk.new.time }
        ensures more { self.new.has_more ≡ self.old.has_more }
    {
        let server = self.upstream.place();
        let time = self.figures.settle(desk.time);
        desk.reports.add(Report::Settled { server, time, way });
    }

    /// What came of a server that was asked for everything is shown now, and goes on from what was
    /// or doesn't: that is known of the first one.
    fn take_over(&mut self, desk: &mut Desk, goes_on: bool)
        ensures same { SameSource self.old self.new }
        ensures heeds { HeedsTime self.old self.new desk.old.time desk.new.time }
        ensures more { self.new.has_more ≡ self.old.has_more }
        ensures exact { self.new ≡ record self.old { leading = self.new.leading } }
        ensures alone { self.new.leading.is_alone
            ≡ stands_alone self.old.leading self.old.upstream.place goes_on }
    {
        let server = self.upstream.place();
        self.leading.take_all(server, goes_on);
        self.leading.show(desk, server);
    }

    /// Whether what came afresh is to be shown at its own token alone. Once in a row: a server that
    /// does not go on from that token sends all of it again then.
    fn is_alone(&self) -> bool
        ensures { result ≡ (not (self.now.settling.was_alone) && not (goes_on_from self.now)
            && (is_some self.now.answers.shown.mirror.since
            || not self.now.settling.is_always)) }
    {
        let is_over = self.answers.shown.mirror().since().is_some();
        let may_be = is_over || !self.settling.is_always;
        may_be && !self.settling.was_alone && !self.goes_on()
    }

    /// What came afresh is shown from here on, and goes on to follow.
    fn show(&mut self)
        ensures shows { IsNowShown self.old self.new }
        ensures times { SameTimes self.old self.new }
        ensures more { self.new.has_more ≡ self.old.has_more }
        // what came before its token is known
        ensures tokens { self.new.beginning.positions.shown ≡ self.old.beginning.positions.came }
    {
        if let Some(coming) = self.coming.take() {
            *self.answers.shown.change() = coming;
        }
        self.beginning.show();
    }

    /// What came afresh is shown at its own token alone, and nothing follows.
    fn show_alone(&mut self, alloc: Global) -> Result<(), AllocError>
        ensures shows { ShowsAlone self.old self.new }
        ensures restores { OnOk result (IfSome self.old.coming (λ coming.
            self.new.answers.shown.mirror
            ≡ restored_from coming.limits coming.node.published)) }
        ensures times { SameTimes self.old self.new }
        ensures leading { (self.new.leading ≡ self.old.leading)
            × (self.new.upstream.place ≡ self.old.upstream.place) }
        ensures tokens { OnOk result
            (self.new.beginning.positions.shown ≡ self.old.beginning.positions.came) }
    {
        if let Some(coming) = &self.coming {
            let alone = alone(alloc, coming)?;
            *self.answers.shown.change() = alone;
        }
        self.coming = None;
        self.settling.was_alone = true;
        self.beginning.show();
        Ok(())
    }

    /// What comes after the token that is shown is asked for, at the same server.
    pub(crate) fn ask_again<L: Link>(&mut self, link: &mut L, now: u64)
        ensures left { WasLeft self.old self.new (L.exchanges link.old) (L.exchanges link.new) }
        ensures rests { self.new.has_more ≡ false }
        ensures calls { L.calls link.new ≡ L.calls link.old }
        ensures at_once { self.new.upstream.since ≡ now }
        ensures heeds { HeedsTime self.old self.new now now }
        ensures refused { self.new.upstream.refused ≡ self.old.upstream.refused }
    {
        self.leave(link, now);
        self.figures.change(Following::Away, now);
        let place = self.upstream.place();
        self.upstream
            .turn_to(place, self.answers.shown.change(), now);
    }

    /// The server ignores the token that it was asked with, or its tokens are no positions in what
    /// it sends: it is asked for everything, and that is to settle. So is each server from here on.
    pub(crate) fn ignored<L: Link>(&mut self, desk: &mut Desk, link: &mut L)
        ensures left { WasLeft self.old self.new (L.exchanges link.old) (L.exchanges link.new) }
        ensures at_once { self.new.upstream.since ≡ desk.old.time }
        ensures heeds { HeedsTime self.old self.new desk.old.time desk.new.time }
        ensures calls { L.calls link.new ≡ L.calls link.old }
    {
        let server = self.upstream.place();
        desk.reports.add(match self.beginning.known_again() {
            Some(token) => Report::NoPositions { server, token },
            None => Report::Ignores { server },
        });
        self.settling.ask_all();
        self.ask_again(link, desk.time);
    }
}
