//! The input as the feed that is followed.

ghost use Rattle.std.specs.Prelude.{◌≡◌, ◌++◌, [], List, ℕ, OnOk, false, true, is_ok};

use crate::source::Source;
use crate::source::reading::line_or_part;
use feed_device::{Desk, Report};
use feed_figures::Following;
use feed_node::FeedFault;
use feed_screens::Screens;

impl Source {
    ghost use Rattle.feed_live.specs.Relaying.{SameSource, servers_of};
    ghost use Rattle.feed_live.specs.Taking.{BeginsInput, StillTakes, StillTakesMore};
    ghost use Rattle.feed_live.specs.Taking.{TakesOrStops, TakesMoreOrStops, StopsSomewhere};
    ghost use Rattle.feed_screens.specs.declared.screens.Screens.{Screens};
    ghost use Rattle.feed_screens.specs.Serving.{SaysAll};
    ghost use Rattle.feed_live.specs.Times.{SameTimes};

    /// The input is a feed from here on, where it feeds.
    pub(crate) fn begin_input(&mut self, feeds: bool, now: u64)
        ensures same { feeds ≡ false → SameSource self.old self.new }
        ensures begins { feeds ≡ true → BeginsInput self.old self.new }
        ensures node { self.new.answers.shown.mirror.node ≡ self.old.answers.shown.mirror.node }
        ensures upstream { self.new.upstream ≡ self.old.upstream }
        ensures settling { self.new.settling ≡ self.old.settling }
        ensures heard { self.new.is_heard ≡ self.old.is_heard }
        ensures times { SameTimes self.old self.new }
        ensures reach { self.new.reach ≡ self.old.reach }
    {
        if !feeds {
            return;
        }
        self.answers.shown.change().begin();
        self.figures.change(Following::Input, now);
    }

    /// What was kept of the input is followed, and then bytes that came. Whether it goes on.
    pub(crate) fn take_input(
        &mut self,
        desk: &mut Desk,
        screens: &mut Screens,
        piece: &[u8],
    ) -> bool
        ensures takes { StillTakesMore self.old self.new piece.now screens.old screens.new result }
        // it ends at its first fault, or where memory runs out, and nowhere else
        ensures stops { result ≡ false → StopsSomewhere self.old self.new piece.now }
        ensures servers { servers_of self.new ≡ servers_of self.old }
    {
        self.hear(piece, desk.time);
        match self.feed_all(desk, screens, piece) {
            Ok(()) => {
                self.report_twice(desk);
                true
            }
            Err(fault) => {
                let line = self.settling.lines();
                desk.reports.add(Report::BadInput { fault, line });
                self.end_input(desk.time);
                false
            }
        }
    }

    /// Bytes of the input came, or none.
    fn hear(&mut self, piece: &[u8], now: u64)
        ensures { SameSource self.old self.new }
    {
        if !piece.is_empty() {
            self.figures.hear(piece.len(), true, now);
        }
    }

    /// Follows what was kept, and then bytes that came.
    fn feed_all(
        &mut self,
        desk: &Desk,
        screens: &mut Screens,
        piece: &[u8],
    ) -> Result<(), FeedFault>
        ensures takes { StillTakesMore self.old self.new piece.now screens.old screens.new
            (is_ok result) }
        ensures stops { TakesMoreOrStops self.old self.new piece.now result }
        ensures servers { servers_of self.new ≡ servers_of self.old }
    {
        let kept = self.kept(desk.alloc);
        let bytes = kept.as_slice();
        self.feed(desk, screens, bytes)?;
        self.feed_behind(desk, screens, piece)
    }

    /// Follows bytes that came behind what is kept.
    fn feed_behind(
        &mut self,
        desk: &Desk,
        screens: &mut Screens,
        piece: &[u8],
    ) -> Result<(), FeedFault>
        ensures takes { StillTakes self.old self.new (self.old.rest.items ++ piece.now)
            self.new.rest.items screens.old screens.new result }
        ensures stops { TakesOrStops self.old self.new (self.old.rest.items ++ piece.now)
            self.new.rest.items result }
        ensures servers { servers_of self.new ≡ servers_of self.old }
    {
        if !self.rest.is_empty() {
            return self.keep_input(piece);
        }
        self.feed(desk, screens, piece)
    }

    /// Keeps bytes of the input. Where there is no memory for them, nothing more of it is followed.
    fn keep_input(&mut self, piece: &[u8]) -> Result<(), FeedFault>
        ensures takes { (screens : Screens) → StillTakes self.old self.new
            (self.old.rest.items ++ piece.now) self.new.rest.items screens screens result }
        ensures stops { TakesOrStops self.old self.new (self.old.rest.items ++ piece.now)
            self.new.rest.items result }
        ensures servers { servers_of self.new ≡ servers_of self.old }
    {
        if self.keep(piece).is_ok() {
            return Ok(());
        }
        self.answers.shown.change().cut();
        Err(FeedFault::Memory)
    }

    /// Follows bytes of the input, up to a commit after which nothing more can be said for now.
    /// What comes after that is kept.
    fn feed(&mut self, desk: &Desk, screens: &mut Screens, piece: &[u8]) -> Result<(), FeedFault>
        ensures takes { self.old.rest.items ≡ [] → StillTakes self.old self.new piece.now
            self.new.rest.items screens.old screens.new result }
        ensures stops { self.old.rest.items ≡ [] → TakesOrStops self.old self.new piece.now
            self.new.rest.items result }
        ensures servers { servers_of self.new ≡ servers_of self.old }
    {
        let mut rest = piece;
        for _ in 0..piece.len() {
            if rest.is_empty() || screens.says_at().is_some() {
                break;
            }
            let (line, next) = line_or_part(rest);
            rest = next;
            self.feed_line(desk, screens, line)?;
        }
        self.keep_input(rest)
    }

    /// Follows one line, or a part of one.
    fn feed_line(
        &mut self,
        desk: &Desk,
        screens: &mut Screens,
        line: &[u8],
    ) -> Result<(), FeedFault>
        ensures takes { (next : List ℕ) → StillTakes self.old self.new (line.now ++ next) next
            screens.old screens.new result }
        ensures stops { (next : List ℕ) → TakesOrStops self.old self.new (line.now ++ next) next
            result }
        ensures says { OnOk result
            (SaysAll screens.new self.new.answers.shown.mirror.node desk.now.time) }
        ensures servers { servers_of self.new ≡ servers_of self.old }
        ensures rest { self.new.rest.items ≡ self.old.rest.items }
    {
        self.settling.begin_line(line);
        self.answers.shown.change().feed(desk.alloc, line)?;
        let waiting = self.answers.shown.mirror().waiting() as u64;
        self.figures.stage(waiting, desk.time);
        if screens.relay(desk, self.answers.shown.node()) {
            self.figures.publish(desk.time);
        }
        Ok(())
    }

    /// Nothing more of the input is a feed.
    pub(crate) fn end_input(&mut self, now: u64)
        ensures { SameSource self.old self.new }
    {
        self.figures.change(Following::Ended, now);
    }
}
