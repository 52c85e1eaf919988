//! A first server that was asked for everything, since it refused our token, may only be behind us:
//! a relay that lost its way, say. Then our kept commits lead from its state to ours, and nothing
//! of it is shown. So it is with another one that was asked for everything while the first one
//! fails.

ghost use Rattle.std.specs.Prelude.{◌≡◌, ◌%◌, false, true};
ghost use Rattle.feed_live.specs.Answering.{wants_all};

use crate::source::Source;
use crate::source::settling::showing::alone;
use crate::source::settling::{are_at_one, have_one_state};
use feed_device::{Desk, Link, Report};
use feed_figures::Following;
use feed_node::{After, FeedFault, Mirror, Node};
use std::alloc::Global;

/// Whether a node shows what a mirror shows, with the commits that the node has after that token.
fn leads_to(alloc: Global, mirror: &Mirror, node: &Node) -> Result<bool, FeedFault> {
    let mut after = alone(alloc, mirror)?;
    after.begin();
    for _ in 0..node.kept() {
        let Some(token) = after.since() else {
            break;
        };
        let mut lines = Vec::new(alloc);
        match node.next_after(alloc, token, &mut lines)? {
            After::Commit(_) => {}
            _ => break,
        }
        after.feed(alloc, lines.as_slice())?;
    }
    Ok(are_at_one(after.node(), node) && have_one_state(after.node(), node))
}

/// Whether what came is behind what is shown: it is at an older token that is held, and the commits
/// since then lead from its state to the one that is shown. Where there is no memory to find that
/// out, it isn't.
fn is_behind(alloc: Global, coming: &Mirror, shown: &Node) -> bool {
    let (Some(token), Some(newest)) = (coming.node().token(), shown.token()) else {
        return false;
    };
    if token.text() == newest.text() || !shown.holds(token.text()) {
        return false;
    }
    leads_to(alloc, coming, shown).unwrap_or(false)
}

impl Source {
    ghost use Rattle.feed_live.specs.Times.{HeedsTime, SameTimes};
    ghost use Rattle.feed_live.specs.Relaying.{SameSource, WasLeft};

    /// Whether what came afresh of a server that was asked for everything, though our token is
    /// known, is only behind what is shown. That is reported, and noted.
    pub(crate) fn is_behind(&mut self, desk: &mut Desk) -> bool
        ensures same { SameSource self.old self.new }
        ensures times { SameTimes self.old self.new }
        ensures more { self.new.has_more ≡ self.old.has_more }
        ensures time { desk.new.time ≡ desk.old.time }
        ensures only { result ≡ true → wants_all self.old ≡ true }
        ensures keeps { result ≡ false → self.new ≡ self.old }
    {
        let server = self.upstream.place();
        if !self.leading.wants_all(server) {
            return false;
        }
        let is_behind = match &self.coming {
            Some(coming) => is_behind(desk.alloc, coming, self.answers.shown.node()),
            None => false,
        };
        if is_behind {
            self.leading.find_behind(server, desk.time);
            desk.reports.add(Report::Behind { server });
        }
        is_behind
    }

    /// The first server is left, and another one asked at once. It did not fail.
    pub(crate) fn ask_other<L: Link>(&mut self, link: &mut L, now: u64)
        ensures left { WasLeft self.old self.new (L.exchanges link.old) (L.exchanges link.new) }
        ensures rests { self.new.has_more ≡ false }
        ensures calls { L.calls link.new ≡ L.calls link.old }
        ensures at_once { self.new.upstream.since ≡ now }
        ensures heeds { HeedsTime self.old self.new now now }
        ensures refused { self.new.upstream.refused ≡ self.old.upstream.refused }
        // it is the first of the others
        ensures next { self.new.upstream.place
            ≡ self.old.leading.places % self.old.upstream.places }
    {
        let other = self.leading.other();
        self.leave(link, now);
        self.figures.change(Following::Away, now);
        self.upstream
            .turn_to(other, self.answers.shown.change(), now);
    }
}
