//! A server answers with the feed.

ghost use Rattle.std.specs.Prelude.{◌≡◌};

use crate::source::Source;
use crate::source::leading::Coming;
use feed_device::{Desk, Report};

impl Source {
    ghost use Rattle.feed_live.specs.Times.{HeedsTime, SameTimes};
    ghost use Rattle.feed_live.specs.Relaying.{SameSource};

    /// The server answers with the feed.
    pub(crate) fn found(&mut self, desk: &mut Desk)
        ensures same { SameSource self.old self.new }
        ensures heeds { HeedsTime self.old self.new desk.old.time desk.new.time }
    {
        if self.body_since.is_some() {
            return;
        }
        self.body_since = Some(desk.time);
        self.has_reported_twice = false;
        let server = self.upstream.place();
        if !self.is_fresh {
            self.find_held(server);
            self.settling.go_on();
        }
        self.figures.find(self.coming.is_some(), desk.time);
        self.servers.answer(server);
        let away = desk.time.saturating_sub(self.away_since);
        desk.reports
            .add_if(self.is_found_news(), Report::Found { server, away });
        let took = desk.time.saturating_sub(self.opened);
        let comes = self.what_comes();
        let is_again = self.patience.is_again() || self.leading.is_back(server);
        self.returning.find(is_again, desk.time);
        self.patience.answer(server, took);
        self.leading.find(desk, server, took, comes);
    }

    /// What is yet to come of the server.
    fn what_comes(&self) -> Coming {
        if self.coming.is_some() {
            Coming::All
        } else if self.rechecking.is_going() {
            Coming::Newest
        } else {
            Coming::News
        }
    }

    /// A server that goes on from our token holds it, unless its newest commit is yet to come
    /// again.
    fn find_held(&mut self, server: usize)
        ensures same { SameSource self.old self.new }
        ensures times { SameTimes self.old self.new }
        ensures since { self.new.body_since ≡ self.old.body_since }
    {
        if self.rechecking.is_going() {
            return;
        }
        if !self.rechecking.is_doubted() {
            self.upstream.held();
        }
        self.leading.hold(server);
    }

    /// Whether it is reported that a server answers: not where the one before was left that did not
    /// fail, nor where this one is followed on.
    fn is_found_news(&self) -> bool {
        let has_left = self.returning.has_left_quiet() || self.patience.is_again();
        !has_left && !self.leading.is_back(self.upstream.place())
    }
}
