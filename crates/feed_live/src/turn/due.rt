//! What comes after a turn: when the next one is due, whether the input may be read before that,
//! and whether there is one.

ghost use Rattle.std.specs.Prelude.{◌≡◌, ◌<◌, ◌≤◌, ◌+◌, ◌-◌, ◌^◌, ◌⊎◌, ◌↔◌, ◌&&◌, ◌≢◌, [], min, None, Some, IfSome, is_none, false, true};
ghost use Rattle.feed_device.specs.Sockets.{AllSockets};

use crate::times::{SCREENS_REPORT, TICK};
use crate::turn::{Live, Turn};

impl Live {
    ghost use Rattle.feed_live.specs.Relaying.{OnlyServes};
    ghost use Rattle.feed_live.specs.Ending.{SameSaved};
    ghost use Rattle.feed_live.specs.Running.{IsRelayOver};
    ghost use Rattle.feed_live.specs.Due.{IsDueInTime};
    ghost use Rattle.feed_live.specs.Leaving.{LooksInTime, silent_at};

    /// What comes next.
    pub(super) fn next(&mut self, now: u64) -> Turn
        ensures wakes { self.new.screens.has_more ≡ true → result.due ≤ now }
        ensures says { IfSome self.new.screens.saying.waits (λ at. now ≤ at → result.due ≤ at) }
        ensures awake { result.due ≤ min (self.new.reported + 60000) (2 ^ 64 - 1) }
        ensures reported { (self.new.reported ≡ self.old.reported) ⊎ (self.new.reported ≡ now) }
        ensures due { IsDueInTime self.new now result.due }
        ensures serves { (sockets : AllSockets) → OnlyServes self.old self.new sockets sockets }
        ensures saved { SameSaved self.old self.new }
        ensures takes { result.takes_input
            ≡ (is_none self.new.ends_at && is_none self.new.screens.saying.waits) }
        ensures over { (result.is_over ≡ true) ↔ IsRelayOver self.new now }
        ensures pauses { self.new.screens.accept_at ≡ self.old.screens.accept_at }
    {
        self.report(now);
        Turn {
            due: self.due(now),
            takes_input: self.takes_input(),
            is_over: self.is_over(now),
        }
    }

    fn takes_input(&self) -> bool
        ensures { result ≡ (is_none self.now.ends_at && is_none self.now.screens.saying.waits) }
    {
        self.ends_at.is_none() && self.screens.says_at().is_none()
    }

    fn is_over(&self, now: u64) -> bool
        ensures { (result ≡ true) ↔ IsRelayOver self.now now }
    {
        match self.ends_at {
            Some(at) => at <= now || self.screens.are_none() && self.is_saved(),
            None => false,
        }
    }

    /// Whether the state file has all that was published, as far as it can be written.
    fn is_saved(&self) -> bool
        ensures { (result ≡ true) ↔ IfSome self.now.saved (λ saved. saved.has_more ≡ false) }
    {
        match &self.saved {
            Some(saved) => !saved.has_more(),
            None => true,
        }
    }

    /// When the next turn is due at the latest.
    fn due(&self, now: u64) -> u64
        ensures wakes { self.now.screens.has_more ≡ true → result ≤ now }
        ensures says { IfSome self.now.screens.saying.waits (λ at. now ≤ at → result ≤ at) }
        ensures awake { result ≤ min (self.now.reported + 60000) (2 ^ 64 - 1) }
        ensures due { IsDueInTime self.now now result }
    {
        let mut due = self.reported.saturating_add(SCREENS_REPORT);
        if !self.screens.are_none() {
            due = due
                .min(self.ticked.saturating_add(TICK))
                .min(self.screens.idles_at());
        }
        due = due.min(self.screens.due(now));
        if let Some(saved) = &self.saved {
            due = due.min(saved.due(now));
        }
        if let Some(at) = self.ends_at {
            return due.min(at);
        }
        due.min(self.follows_at(now))
    }

    /// When the server that is followed is looked at, or the next one is asked, at the latest: at
    /// once where there is more of it to read; never where there is no server.
    fn follows_at(&self, now: u64) -> u64
        ensures connects { self.now.source.upstream.follower ≡ None
            → self.now.source.places.items ≢ [] → result ≤ self.now.source.upstream.since }
        ensures silent { self.now.source.upstream.follower ≢ None
            → self.now.source.places.items ≢ []
            → result ≤ silent_at self.now.source self.now.limits.screens.idle }
        ensures more { self.now.source.places.items ≢ [] → self.now.source.has_more ≡ true
            → self.now.screens.saying.waits ≡ None → result ≤ now }
        ensures looks { self.now.source.places.items ≢ [] → LooksInTime self.now.source result }
    {
        if !self.source.has_servers() {
            return u64::MAX;
        }
        let due = self.source.due(self.limits.screens.idle);
        if self.source.has_more() && self.screens.says_at().is_none() {
            due.min(now)
        } else {
            due
        }
    }
}
