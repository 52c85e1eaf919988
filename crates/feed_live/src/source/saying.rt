//! What was published is said to screens.

ghost use Rattle.std.specs.Prelude.{◌≡◌, ◌≢◌, ◌+◌, ◌-◌, ◌<◌, ◌^◌, min, IsSome, None, false, true};

use crate::source::Source;
use feed_device::{Desk, Excerpt, Report};
use feed_node::Mirror;
use feed_screens::Screens;

impl Source {
    ghost use Rattle.feed_live.specs.Leaving.{HasPublishedAt};
    ghost use Rattle.feed_node.specs.States.{former_token, published_token};
    ghost use Rattle.feed_live.specs.Times.{HeedsTime, SameTimes};
    ghost use Rattle.feed_live.specs.Relaying.{SameSource};
    ghost use Rattle.feed_live.specs.Relaying.{SameWaiting};
    ghost use Rattle.feed_screens.specs.Serving.{StillServes, StillStand, AllEnd, SaysAll};

    /// Says what was published, where it is to be shown now. Where a connection published afresh,
    /// no screen goes on from what it has.
    pub(crate) fn say(&mut self, desk: &mut Desk, screens: &mut Screens)
        ensures same { SameSource self.old self.new }
        ensures serves { StillServes self.old.answers.shown.mirror.node screens.old screens.new }
        // what was published afresh is counted, and each body ends that had something of before
        ensures afresh { self.old.coming ≡ None → self.old.is_fresh ≡ true
            → IsSome self.old.answers.shown.mirror.since
            → self.new.epoch ≡ min (self.old.epoch + 1) (2 ^ 64 - 1) }
        ensures ended { self.new.epoch ≢ self.old.epoch → AllEnd screens.new.hub }
        ensures stays { self.old.is_fresh ≡ false → self.new.epoch ≡ self.old.epoch }
        ensures says { self.old.coming ≡ None
            → SaysAll screens.new self.new.answers.shown.mirror.node desk.new.time }
        ensures heeds { HeedsTime self.old self.new desk.old.time desk.new.time }
        // where the feed goes on, what was published is news; where nothing was, nothing changes
        ensures news { self.old.coming ≡ None → self.old.is_fresh ≡ false
            → screens.old.hub.broadcast.told ≢ published_token self.old.answers.shown.mirror.node
            → HasPublishedAt self.new desk.old.time }
        ensures none { self.old.coming ≡ None → self.old.is_fresh ≡ false
            → screens.old.hub.broadcast.told ≡ published_token self.old.answers.shown.mirror.node
            → SameWaiting self.old self.new × (self.new.is_heard ≡ self.old.is_heard) }
        ensures more { self.new.has_more ≡ self.old.has_more }
        // one that stands alone does until another commit is published
        ensures alone { former_token self.old.answers.shown.mirror.node ≡ None
            → self.new.leading.is_alone ≡ self.old.leading.is_alone }
    {
        self.report_twice(desk);
        if self.coming.is_some() {
            self.compare(desk);
            return;
        }
        self.end_former(desk, screens);
        if screens.relay(desk, self.answers.shown.node()) {
            self.is_heard = true;
            self.figures.publish(desk.time);
            self.upstream.published();
            self.rechecking.trust();
            self.returning.publish(desk.time);
            let holds_former = self.answers.shown.node().former_token().is_some();
            self.leading
                .publish(desk, self.upstream.place(), holds_former);
        }
    }

    /// Where a connection published afresh, the bodies of all end that had something of before.
    fn end_former(&mut self, desk: &Desk, screens: &mut Screens)
        ensures same { SameSource self.old self.new }
        ensures serves { StillStand screens.old screens.new }
        ensures afresh { self.old.is_fresh ≡ true → IsSome self.old.answers.shown.mirror.since
            → self.new.epoch ≡ min (self.old.epoch + 1) (2 ^ 64 - 1) }
        ensures ended { self.new.epoch ≢ self.old.epoch → AllEnd screens.new.hub }
        // else nothing ends
        ensures stays { self.old.is_fresh ≡ false
            → (self.new ≡ self.old) × (screens.new ≡ screens.old) }
        ensures leading { self.new.leading ≡ self.old.leading }
        ensures times { SameTimes self.old self.new }
        ensures more { self.new.has_more ≡ self.old.has_more }
    {
        if self.is_fresh && self.answers.shown.mirror().since().is_some() {
            self.is_fresh = false;
            self.epoch = self.epoch.saturating_add(1);
            screens.end_feeds(desk);
        }
    }

    /// Reports the first time on a connection that it gives one token to two states.
    pub(crate) fn report_twice(&mut self, desk: &mut Desk)
        ensures same { SameSource self.old self.new }
        ensures epoch { self.new.epoch ≡ self.old.epoch }
        ensures fresh { self.new.is_fresh ≡ self.old.is_fresh }
        ensures waits { SameWaiting self.old self.new }
        ensures heard { self.new.is_heard ≡ self.old.is_heard }
        ensures heeds { HeedsTime self.old self.new desk.old.time desk.new.time }
        ensures more { self.new.has_more ≡ self.old.has_more }
    {
        if self.has_reported_twice {
            return;
        }
        let twice = match &self.coming {
            Some(coming) => given_twice(coming),
            None => given_twice(self.answers.shown.mirror()),
        };
        let Some(token) = twice else {
            return;
        };
        let server = if self.places.is_empty() {
            None
        } else {
            Some(self.upstream.place())
        };
        desk.reports.add(Report::GivenTwice { server, token });
        self.has_reported_twice = true;
    }

    /// Says what had to wait.
    pub(crate) fn say_more(&mut self, desk: &Desk, screens: &mut Screens)
        ensures same { SameSource self.old self.new }
        ensures waits { SameWaiting self.old self.new }
        ensures heard { self.new.is_heard ≡ self.old.is_heard }
        ensures epoch { self.new.epoch ≡ self.old.epoch }
        ensures serves { StillServes self.old.answers.shown.mirror.node screens.old screens.new }
        ensures more { self.new.has_more ≡ self.old.has_more }
        ensures says { SaysAll screens.new self.new.answers.shown.mirror.node desk.now.time }
    {
        screens.relay(desk, self.answers.shown.node());
    }
}

/// The token that a connection gave to two states, as it is reported.
pub(crate) fn given_twice(mirror: &Mirror) -> Option<Excerpt> {
    let token = mirror.given_twice()?;
    Some(Excerpt::of(token.text()))
}
