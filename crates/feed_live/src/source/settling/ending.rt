//! The connection ends over which something comes afresh: it may be all, or a part.

ghost use Rattle.std.specs.Prelude.{◌≡◌, ◌||◌, false, true};
ghost use Rattle.feed_live.specs.Afresh.{goes_on_from, is_broken, may_show_broken};

use crate::source::Source;
use feed_device::{CameSo, Desk, Excerpt, Link, Report};
use feed_screens::Screens;
use std::mem;

/// How a connection ends over which something came afresh.
#[derive(Clone, Copy)]
pub(crate) enum End<'a> {
    /// Its body is complete: its last chunk came, or all that its length says.
    Whole,
    /// It broke off before that. So does one whose end can't be told from that, since it has
    /// neither chunks nor a length.
    Cut,
    /// This line, or part of one, can't be followed.
    Bad(&'a [u8]),
}

impl End<'_> {
    /// Whether more was to come, or can't be followed.
    fn is_broken(&self) -> bool
        ensures { result ≡ is_broken self.now }
    {
        match self {
            End::Whole => false,
            End::Cut => true,
            End::Bad(_) => true,
        }
    }

    /// The line that can't be followed; empty if there is none.
    fn line(&self) -> Excerpt {
        match self {
            End::Bad(line) => Excerpt::of_line(line.trim_ascii_end()),
            _ => Excerpt::of(""),
        }
    }
}

impl Source {
    ghost use Rattle.feed_live.specs.Times.{HeedsTime, SameTimes};
    ghost use Rattle.feed_live.specs.Relaying.{StillShows, SameSource, counted_within_turn};

    /// The connection ended, or what comes on it can't be followed any more. What came afresh may
    /// be all, or the server was killed, or has a line that is none. So many bytes of it are
    /// unread. A complete body is shown where nothing is, or where it goes on from what is; else
    /// once it ended at one token twice. What broke is shown where it goes on from what is. It
    /// never takes the place of anything. Where nothing is shown, and such a feed is asked for, it
    /// is shown once it broke at one token twice.
    pub(crate) fn settle_ended<L: Link>(
        &mut self,
        desk: &mut Desk,
        link: &mut L,
        screens: &mut Screens,
        unread: usize,
        end: End<'_>,
    )
        ensures shows { StillShows
            (counted_within_turn (L.exchanges link.old) self.old unread screens.old)
            self.new (L.exchanges link.new) screens.new }
        // what is shown stays where the feed broke, and doesn't go on from that, unless nothing is
        // shown and such a feed is asked for
        ensures keeps { is_broken end.entry ≡ true → may_show_broken self.old ≡ false
            → goes_on_from self.old ≡ false
            → self.new.answers.shown.mirror ≡ self.old.answers.shown.mirror }
        ensures heeds { HeedsTime self.old self.new desk.old.time desk.new.time }
        ensures calls { L.calls link.new ≡ L.calls link.old }
    {
        let way = self.way_at_end(end);
        if self.is_to_show_end(desk, end) {
            self.settle(desk, link, screens, unread, way);
        }
    }

    /// Why what came is shown at its end, if it is.
    fn way_at_end(&self, end: End<'_>) -> CameSo {
        if !end.is_broken() {
            CameSo::Ended
        } else if self.goes_on() {
            CameSo::GoesOn
        } else {
            CameSo::Broken
        }
    }

    /// Whether what came afresh is to be shown though it has not settled, since the connection
    /// ends so. Where it broke at one token twice, and isn't to be, that is reported.
    fn is_to_show_end(&mut self, desk: &mut Desk, end: End<'_>) -> bool
        ensures same { SameSource self.old self.new }
        ensures heeds { HeedsTime self.old self.new desk.old.time desk.new.time }
        ensures broken { is_broken end.entry ≡ true → may_show_broken self.old ≡ false
            → goes_on_from self.old ≡ false → result ≡ false }
    {
        if self.coming.is_none() {
            return false;
        }
        let is_first = self.answers.shown.node().token().is_none();
        let goes_on = self.goes_on();
        let may_show_broken = self.may_show_broken();
        let was_whole = mem::replace(&mut self.ended_whole, !end.is_broken());
        let is_again = self.ends_again();
        if !end.is_broken() {
            return is_first || goes_on || is_again && was_whole;
        }
        let is_shown = goes_on || is_again && may_show_broken;
        if !is_shown {
            self.note_broken(desk, end, is_again);
        }
        is_shown
    }

    /// Whether what broke twice may be shown: nothing else is, and that is asked for.
    fn may_show_broken(&self) -> bool
        ensures { result ≡ may_show_broken self.now }
    {
        self.settling.serves_broken && self.answers.shown.node().token().is_none()
    }

    /// What came afresh broke. Where it did at the same token the last time, too, somebody has to
    /// mend what the server sends: that is told.
    fn note_broken(&mut self, desk: &mut Desk, end: End<'_>, is_again: bool)
        ensures exact { self.new ≡ record self.old { figures = self.new.figures } }
        ensures time { desk.new.time ≡ desk.old.time }
    {
        let token = match &self.ended {
            Some((_, token)) if is_again => Excerpt::of(token.text()),
            _ => {
                self.figures.stuck = None;
                return;
            }
        };
        let line = end.line();
        let is_news = self.figures.stuck.is_none();
        self.figures.stuck = Some((token, line));
        desk.reports.add_if(
            is_news,
            Report::Broken {
                server: self.upstream.place(),
                token,
                line,
            },
        );
    }

    /// Whether what came afresh ended where that of the same server did the last time; its last
    /// token is noted.
    fn ends_again(&mut self) -> bool
        ensures { self.new ≡ record self.old { ended = self.new.ended } }
    {
        let token = match &self.coming {
            Some(coming) => coming.node().token(),
            None => None,
        };
        let server = self.upstream.place();
        let again = match (token, &self.ended) {
            (Some(token), Some((its, ended))) => *its == server && token.text() == ended.text(),
            _ => false,
        };
        self.ended = match token {
            Some(token) => token.copy().ok().map(|token| (server, token)),
            None => None,
        };
        again
    }
}
