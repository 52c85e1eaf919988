//! The part of a turn that serves the screens.

ghost use Rattle.std.specs.Prelude.{◌≡◌, ◌⊎◌, Contains, false, true, not, string_bytes};
ghost use Rattle.slab.specs.Slab.{get};
ghost use Rattle.feed_device.specs.Calls.{CalledAtLeastOnce};
ghost use Rattle.feed_device.specs.Sockets.{AllSockets};
ghost use Rattle.feed_live.specs.Answering.{has_heard};

use crate::options::LiveLimits;
use crate::source::Source;
use crate::times::{SCREENS_REPORT, TICK};
use crate::turn::Live;
use feed_device::{Ready, Report, Sockets};
use feed_screens::Shown;

impl Live {
    ghost use Rattle.feed_live.specs.Relaying.{OnlyServes};
    ghost use Rattle.feed_live.specs.Ending.{SameBeside, SameSaved};
    ghost use Rattle.feed_screens.specs.Held.{Waits};
    ghost use Rattle.feed_screens.specs.Waiting.{TakesNobody};

    /// Once a second, looks for who is late; and says a line feed after silence.
    pub(super) fn tick<S: Sockets>(&mut self, sockets: &mut S)
        ensures serves { OnlyServes self.old self.new (S.socket sockets.old)
            (S.socket sockets.new) }
        ensures saved { SameBeside self.old self.new }
        ensures asks { S.asked sockets.new ≡ S.asked sockets.old }
    {
        if self.screens.are_none() {
            self.tidy();
            return;
        }
        self.keep_alive();
        if self.desk.time.saturating_sub(self.ticked) < TICK {
            return;
        }
        self.look_for_late(sockets);
        self.tidy();
        if !self.source.is_heard() {
            self.hold();
        }
    }

    /// Says a line feed after silence.
    fn keep_alive(&mut self)
        ensures serves { (sockets : AllSockets) → OnlyServes self.old self.new sockets sockets }
        ensures saved { SameBeside self.old self.new }
    {
        self.screens.idle(&self.desk);
    }

    /// Looks for who is late: requests that have waited for room for long enough are refused,
    /// others cut, and so are screens that take nothing.
    fn look_for_late<S: Sockets>(&mut self, sockets: &mut S)
        ensures serves { OnlyServes self.old self.new (S.socket sockets.old)
            (S.socket sockets.new) }
        ensures saved { SameBeside self.old self.new }
        ensures asks { S.asked sockets.new ≡ S.asked sockets.old }
    {
        self.ticked = self.desk.time;
        self.screens.refuse_overdue(&mut self.desk, sockets);
        self.screens.cut_for_room(&mut self.desk, sockets);
        self.screens.cut_late(self.desk.time);
        self.screens.sweep(&mut self.desk, sockets);
        self.screens.close_past(&mut self.desk, sockets);
    }

    /// Forgets the texts that no screen has any more.
    fn tidy(&mut self)
        ensures serves { (sockets : AllSockets) → OnlyServes self.old self.new sockets sockets }
        ensures saved { SameBeside self.old self.new }
    {
        self.source.tidy();
        self.screens.tidy();
    }

    /// Requests wait: those that waited for long enough are looked at again.
    fn hold(&mut self)
        ensures serves { (sockets : AllSockets) → OnlyServes self.old self.new sockets sockets }
        ensures saved { SameBeside self.old self.new }
    {
        self.screens.look_again();
        if self.desk.time >= self.limits.hold && !self.is_hold_reported {
            self.is_hold_reported = true;
            let is_settling = self.source.is_settling();
            self.desk.reports.add(Report::NotHeard { is_settling });
        }
    }

    /// Reads from and writes to the screens that became ready, and those that had more.
    pub(super) fn serve<S: Sockets>(&mut self, sockets: &mut S, events: &[Ready], had_more: bool)
        ensures serves { OnlyServes self.old self.new (S.socket sockets.old)
            (S.socket sockets.new) }
        ensures saved { SameBeside self.old self.new }
        ensures asks { S.asked sockets.new ≡ S.asked sockets.old }
    {
        self.serve_more(sockets, had_more);
        for event in events {
            self.serve_event(sockets, *event);
        }
    }

    /// Reads from and writes to the screen that became ready, where it is one.
    fn serve_event<S: Sockets>(&mut self, sockets: &mut S, event: Ready)
        ensures serves { OnlyServes self.old self.new (S.socket sockets.old)
            (S.socket sockets.new) }
        ensures saved { SameBeside self.old self.new }
        ensures asks { S.asked sockets.new ≡ S.asked sockets.old }
    {
        if let Ready::Screen { at, .. } = event {
            self.serve_one(sockets, at);
        }
    }

    /// Reads from and writes to those that had more, where there were some.
    fn serve_more<S: Sockets>(&mut self, sockets: &mut S, had_more: bool)
        ensures serves { OnlyServes self.old self.new (S.socket sockets.old)
            (S.socket sockets.new) }
        ensures saved { SameBeside self.old self.new }
        ensures asks { S.asked sockets.new ≡ S.asked sockets.old }
    {
        if !had_more {
            return;
        }
        let shown = shown_of(&self.source, &self.limits, &self.contest);
        let answers = &mut self.source.answers;
        self.screens
            .serve_more(&mut self.desk, sockets, answers, &shown);
    }

    /// Reads from and writes to the one at a place.
    fn serve_one<S: Sockets>(&mut self, sockets: &mut S, at: usize)
        // until a server was heard, or for so long, a request waits
        ensures waits { has_heard self.old.source ≡ false
            → Waits (get self.old.screens.conns at) true self.old.limits.hold self.old.desk.time
            → sockets.new ≡ sockets.old }
        ensures serves { OnlyServes self.old self.new (S.socket sockets.old)
            (S.socket sockets.new) }
        ensures saved { SameBeside self.old self.new }
        ensures asks { S.asked sockets.new ≡ S.asked sockets.old }
    {
        let shown = shown_of(&self.source, &self.limits, &self.contest);
        let answers = &mut self.source.answers;
        self.screens
            .serve(&mut self.desk, sockets, answers, &shown, at);
    }

    /// Takes who waits: an event says so, or there were more than one turn takes.
    pub(super) fn accept<S: Sockets>(&mut self, sockets: &mut S, events: &[Ready], now: u64)
        ensures serves { OnlyServes self.old self.new (S.socket sockets.old)
            (S.socket sockets.new) }
        ensures saved { SameBeside self.old self.new }
        // where an event says so, one is asked for at least, unless none is taken for now
        ensures asks { Contains events.now Ready.Listener
            → CalledAtLeastOnce (S.asked sockets.old) (S.asked sockets.new)
            ⊎ TakesNobody self.new.screens now }
    {
        if somebody_waits(events) {
            self.screens.wait_for_one();
        }
        self.screens.accept(&mut self.desk, sockets, now);
    }

    /// Reports how many screens there are, where that has changed.
    pub(super) fn report(&mut self, now: u64)
        ensures pauses { self.new.screens.accept_at ≡ self.old.screens.accept_at }
        ensures serves { (sockets : AllSockets) → OnlyServes self.old self.new sockets sockets }
        ensures saved { SameSaved self.old self.new }
        ensures reported { (self.new.reported ≡ self.old.reported) ⊎ (self.new.reported ≡ now) }
    {
        if now.saturating_sub(self.reported) < SCREENS_REPORT {
            return;
        }
        self.reported = now;
        if let Some(report) = self.screens.report() {
            self.desk.reports.add(report);
        }
    }
}

/// What is asked for, and whether that can be answered: not before a server was heard.
fn shown_of<'a>(source: &Source, limits: &LiveLimits, contest: &'a String) -> Shown<'a>
    ensures held { result.is_held ≡ not (has_heard source.now) }
    ensures hold { result.hold ≡ limits.now.hold }
    ensures contest { result.contest.now ≡ string_bytes contest.now }
{
    Shown {
        is_held: !source.is_heard(),
        hold: limits.hold,
        contest: contest.as_str(),
    }
}

/// Whether one of the events says that somebody waits to be taken.
fn somebody_waits(events: &[Ready]) -> bool
    ensures { Contains events.now Ready.Listener → result ≡ true }
{
    for event in events {
        if matches!(event, Ready::Listener) {
            return true;
        }
    }
    false
}
