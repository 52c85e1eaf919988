//! A server refuses our token, or has another commit there.

ghost use Rattle.std.specs.Prelude.{if◌then◌else◌, ◌≡◌, is_some, true};
ghost use Rattle.feed_live.specs.Leading.{is_other_log};
ghost use Rattle.feed_live.specs.Leaving.{asked_after_refusal, refused_after};

use crate::source::Source;
use feed_device::{Desk, Lack, Link, Report};
use feed_figures::{FollowFailure, Following};

impl Source {
    ghost use Rattle.feed_live.specs.Times.{HeedsTime};
    ghost use Rattle.feed_live.specs.Relaying.{WasLeft};

    /// The server does not hold the token: the others are asked with it before it is forgotten.
    /// Where that is the one before the newest, it is asked with the newest first.
    pub(crate) fn refused<L: Link>(&mut self, desk: &mut Desk, link: &mut L)
        ensures left { WasLeft self.old self.new (L.exchanges link.old) (L.exchanges link.new) }
        ensures next { self.new.upstream.since ≡ (if is_some self.old.rechecking.again
            then desk.old.time else asked_after_refusal self.old desk.old.time) }
        ensures counts { self.new.upstream.refused ≡ (if is_some self.old.rechecking.again
            then self.old.upstream.refused else refused_after self.old desk.old.time) }
        ensures heeds { HeedsTime self.old self.new desk.old.time desk.new.time }
        ensures calls { L.calls link.new ≡ L.calls link.old }
    {
        if self.rechecking.is_going() {
            self.ask_newest(link, desk.time);
            return;
        }
        let refused = Report::Refused {
            server: self.upstream.place(),
        };
        let is_news = !self.returning.has_left_quiet() && !self.leading.is_look();
        desk.reports.add_if(is_news, refused);
        self.without_token(desk, link, false);
    }

    /// The others are asked with the token, and after that the mirror forgets it. Where the first
    /// server refuses it a second time, it is asked for everything. It may answer with another
    /// commit instead.
    pub(crate) fn without_token<L: Link>(
        &mut self,
        desk: &mut Desk,
        link: &mut L,
        has_another: bool,
    )
        ensures left { WasLeft self.old self.new (L.exchanges link.old) (L.exchanges link.new) }
        ensures next { self.new.upstream.since ≡ asked_after_refusal self.old desk.old.time }
        // who refused the token counts, until each one has
        ensures counts { self.new.upstream.refused ≡ refused_after self.old desk.old.time }
        // a first server whose log is another one is asked for everything, at once
        ensures other { is_other_log self.old.leading self.old.upstream.place desk.old.time ≡ true
            → (self.new.upstream.place ≡ self.old.upstream.place)
            × (self.new.leading.wants_all ≡ true) }
        ensures heeds { HeedsTime self.old self.new desk.old.time desk.new.time }
        ensures calls { L.calls link.new ≡ L.calls link.old }
    {
        let now = desk.time;
        let server = self.upstream.place();
        self.patience
            .answer(server, now.saturating_sub(self.opened));
        let back = self.leading.end_look();
        let is_other_log = self.leading.refuse(server, now);
        let (failure, lack) = refusal(has_another);
        self.leave(link, now);
        self.figures.refuse_token(failure, now);
        self.servers.fail(server, failure, now);
        self.figures.change(Following::Away, now);
        self.leading.fail(server, lack, now);
        if is_other_log {
            self.leading.want_all();
            desk.reports.add(Report::OtherLog { server });
            self.upstream
                .turn_to(server, self.answers.shown.change(), now);
            return;
        }
        match back {
            Some(from) => self
                .upstream
                .turn_to(from, self.answers.shown.change(), now),
            None => self.upstream.refused(self.answers.shown.change(), now),
        }
    }
}

/// How a server refuses our token: by its status, or with another commit there.
fn refusal(has_another: bool) -> (FollowFailure, Lack) {
    if has_another {
        (FollowFailure::OtherCommit, Lack::OtherCommit)
    } else {
        (FollowFailure::TokenRefused, Lack::TokenRefused)
    }
}
