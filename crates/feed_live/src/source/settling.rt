//! What a server sends that was asked for everything: it is shown once it has settled. Servers that
//! have a token on each line send all that ever happened, or all that there is, line by line. No
//! state but the last one of that is to be shown.

ghost use Rattle.std.specs.Prelude.{◌≡◌, ◌↔◌, IsTrue, ◌<◌, ◌≤◌, ◌&&◌, None, Some, IfOk, IfSome, not, is_none, option_map, if◌then◌else◌, is_some, false, true};
ghost use Rattle.feed_hub.specs.Upstream.{later};
ghost use Rattle.feed_node.specs.States.{published_token};
ghost use Rattle.feed_live.specs.Afresh.{Compares, HaveOneState, goes_on_from, has_come, have_one_token, holds_it, is_at_shown};
ghost use Rattle.feed_device.specs.Links.{shown_so, all_from};
ghost use Rattle.feed_node.specs.Mirroring.{new_mirror};
ghost use Rattle.feed_live.specs.Relaying.{following_mirror};

mod behind;
mod ending;
mod holding;
pub(crate) mod showing;

use crate::source::Source;
use crate::source::rate::Rate;
use crate::times::{LONGEST_REPLAY, REPLAY_REPORT};
pub(crate) use ending::End;
use feed_audit::{Difference, difference_of};
use feed_device::{Desk, Excerpt, Link, Report};
use feed_figures::Following;
use feed_node::{Mirror, Node};
use std::alloc::{AllocError, Global};

/// A read of no more bytes may be a line feed in a chunk, which only keeps the connection alive.
const ALIVE: usize = 8;

/// For how many times the pause what comes is to be quiet where it is smaller than what is shown: a
/// server that is overloaded pauses, too.
const LONGER: u64 = 10;

/// What is known of what comes afresh: when it has settled, and what becomes of it then.
#[derive(Clone, Copy)]
pub(crate) struct Settling {
    /// How long "of late" is, in milliseconds.
    pause: u64,
    /// Whether each connection asks for everything.
    is_always: bool,
    /// Whether that is so of several servers: they have tokens of their own.
    is_strange: bool,
    /// When the first byte of the connection came, or it was begun, in milliseconds.
    began: u64,
    /// Whether a byte of it came.
    is_begun: bool,
    /// How much came of late.
    rate: Rate,
    /// How much came within a longer time.
    long_rate: Rate,
    /// How many bytes came on the connection.
    bytes: u64,
    /// How many lines came on it.
    lines: u64,
    /// Whether the last line that was begun has not ended yet.
    is_within: bool,
    /// When it was reported last how much has come, in milliseconds.
    reported: u64,
    /// Whether it was at the token that is shown.
    is_compared: bool,
    /// Whether it had the same state there.
    is_same: bool,
    /// Whether what settled last was shown at its own token alone.
    was_alone: bool,
    /// Whether what broke at one token twice is shown where nothing else is.
    serves_broken: bool,
}

impl Settling {
    pub(crate) fn new(
        pause: u64,
        is_always: bool,
        is_strange: bool,
        serves_broken: bool,
    ) -> Settling
        ensures set { (result.pause ≡ pause) × (result.is_always ≡ is_always)
            × (result.is_strange ≡ is_strange) × (result.serves_broken ≡ serves_broken) }
        ensures nothing { (result.is_begun ≡ false) × (result.bytes ≡ 0) × (result.lines ≡ 0)
            × (result.is_within ≡ false) × (result.is_compared ≡ false)
            × (result.is_same ≡ false) × (result.was_alone ≡ false) × (result.began ≡ 0) }
    {
        Settling {
            pause,
            is_always,
            is_strange,
            began: 0,
            is_begun: false,
            rate: Rate::new(pause),
            long_rate: Rate::new(pause.saturating_mul(LONGER)),
            bytes: 0,
            lines: 0,
            is_within: false,
            reported: 0,
            is_compared: false,
            is_same: false,
            was_alone: false,
            serves_broken,
        }
    }

    /// A connection begins.
    pub(crate) fn begin(&mut self, now: u64)
        ensures set { (self.new.pause ≡ self.old.pause) × (self.new.is_always ≡ self.old.is_always)
            × (self.new.is_strange ≡ self.old.is_strange)
            × (self.new.was_alone ≡ self.old.was_alone)
            × (self.new.serves_broken ≡ self.old.serves_broken) }
        ensures times { (self.new.began ≡ now) × (self.new.reported ≡ now) }
        ensures nothing { (self.new.is_begun ≡ false) × (self.new.bytes ≡ 0)
            × (self.new.lines ≡ 0) × (self.new.is_within ≡ false)
            × (self.new.is_compared ≡ false) × (self.new.is_same ≡ false) }
    {
        *self = Settling {
            began: now,
            reported: now,
            was_alone: self.was_alone,
            ..Settling::new(
                self.pause,
                self.is_always,
                self.is_strange,
                self.serves_broken,
            )
        };
    }

    /// So many bytes came.
    pub(crate) fn hear(&mut self, count: usize, now: u64)
        // the longest time is counted from the first byte on
        ensures { self.new ≡ record self.old {
          rate = self.new.rate;
          long_rate = self.new.long_rate;
          is_begun = true;
          began = if self.old.is_begun then self.old.began else now;
          bytes = later self.old.bytes count;
        } }
    {
        if !self.is_begun {
            self.is_begun = true;
            self.began = now;
        }
        self.bytes = self.bytes.saturating_add(count as u64);
        if count > ALIVE {
            self.rate.add(count as u64, now);
            self.long_rate.add(count as u64, now);
        }
    }

    /// A server goes on from the token that is shown.
    pub(crate) fn go_on(&mut self)
        ensures { self.new ≡ record self.old { was_alone = false } }
    {
        self.was_alone = false;
    }

    /// What comes does not go on from what is shown, whatever it has at that token.
    pub(crate) fn differ(&mut self)
        ensures { self.new ≡ record self.old { is_compared = true; is_same = false } }
    {
        self.is_compared = true;
        self.is_same = false;
    }

    /// Each connection asks for everything from here on.
    pub(crate) fn ask_all(&mut self)
        ensures { self.new ≡ record self.old { is_always = true } }
    {
        self.is_always = true;
    }

    /// A line came whole.
    pub(crate) fn count_line(&mut self)
        ensures { self.new ≡ record self.old { lines = later self.old.lines 1 } }
    {
        self.lines = self.lines.saturating_add(1);
    }

    /// A line of the input came, or a part of one.
    pub(crate) fn begin_line(&mut self, part: &[u8]) {
        if !self.is_within {
            self.count_line();
        }
        self.is_within = !part.ends_with(b"\n");
    }

    /// How many lines came.
    pub(crate) fn lines(&self) -> u64
        ensures { result ≡ self.now.lines }
    {
        self.lines
    }

    /// When all that came has settled, if nothing more comes.
    fn calm_at(&self) -> u64
        ensures { self.now.pause ≡ 0 → result ≡ 0 }
    {
        if self.pause == 0 {
            0
        } else {
            self.rate.calm_at(1)
        }
    }

    /// The same, where it is to be quiet for longer.
    fn long_calm_at(&self) -> u64
        ensures { self.now.pause ≡ 0 → result ≡ 0 }
    {
        if self.pause == 0 {
            0
        } else {
            self.rate.calm_at(1).max(self.long_rate.calm_at(LONGER))
        }
    }

    /// For how long that is, in milliseconds.
    fn longer(&self) -> u64 {
        self.pause.saturating_mul(LONGER)
    }

    /// When it is shown as far as it has come.
    fn shown_by(&self) -> u64
        ensures { result ≡ later self.now.began 600000 }
    {
        self.began.saturating_add(LONGEST_REPLAY)
    }
}

/// The mirror that a connection is to follow: one that begins afresh, or the one that is shown.
pub(crate) fn followed_of<'a>(coming: &'a Option<Mirror>, shown: &'a Mirror) -> &'a Mirror
    ensures { result.now ≡ following_mirror coming.now shown.now }
{
    match coming {
        Some(coming) => coming,
        None => shown,
    }
}

/// What comes to the mirror that is shown is shown from the first byte on.
pub(crate) fn begin_shown<L: Link>(link: &mut L, coming: &Option<Mirror>)
    ensures shown { L.exchanges link.new ≡ (if is_none coming.now
        then option_map (shown_so all_from 0) (L.exchanges link.old) else L.exchanges link.old) }
    ensures calls { L.calls link.new ≡ L.calls link.old }
{
    if coming.is_none() {
        link.show_all(0);
    }
}

/// Whether both publish at the same token.
pub(crate) fn are_at_one(one: &Node, other: &Node) -> bool
    ensures { result ≡ have_one_token one.now.shown other.now.shown }
{
    match (one.token(), other.token()) {
        (Some(one), Some(other)) => one.text() == other.text(),
        _ => false,
    }
}

/// Whether both show the same tables.
pub(crate) fn have_one_state(one: &Node, other: &Node) -> bool
    ensures { IsTrue result ↔ HaveOneState one.now.shown other.now.shown }
{
    match (one.published(), other.published()) {
        (Some(one), Some(other)) => one.same(other),
        _ => false,
    }
}

/// The first type, and id, at which the tables of two nodes differ; nothing where there is no
/// memory to find out.
fn differ_at(alloc: Global, one: &Node, other: &Node) -> (Excerpt, Excerpt) {
    let nowhere = (Excerpt::of(""), Excerpt::of(""));
    let (Some(tables), Some(others)) = (one.published(), other.published()) else {
        return nowhere;
    };
    match difference_of(alloc, tables, others) {
        Ok(Difference::At { kind, id, .. }) => {
            let id = match &id {
                Some(id) => Excerpt::of(id.text()),
                None => Excerpt::of(""),
            };
            (Excerpt::of(kind.text()), id)
        }
        _ => nowhere,
    }
}

impl Source {
    ghost use Rattle.feed_live.specs.Times.{HeedsTime, SameTimes};
    ghost use Rattle.feed_live.specs.Relaying.{SameSource};
    ghost use Rattle.feed_live.specs.Answering.{is_first_start, is_to_settle};

    /// A mirror that follows the next connection, where that asks for everything and is to settle.
    pub(crate) fn begin_afresh(&self, alloc: Global) -> Result<Option<Mirror>, AllocError>
        ensures mirror { IfOk result (λ made. IfSome made (λ mirror.
            mirror ≡ new_mirror self.now.answers.shown.mirror.limits)) }
        ensures made { IfOk result (λ made. is_some made ≡ is_to_settle self.now) }
    {
        let shown = self.answers.shown.mirror();
        let wants_all = self.leading.wants_all(self.upstream.place());
        let is_fresh = shown.since().is_none() && self.settling.pause != 0;
        if !is_fresh && !self.settling.is_always && !wants_all {
            return Ok(None);
        }
        Ok(Some(Mirror::new(alloc, shown.limits())?))
    }

    /// Compares what comes afresh with what is shown, once, where both are at one token.
    pub(crate) fn compare(&mut self, desk: &mut Desk)
        ensures same { SameSource self.old self.new }
        ensures epoch { self.new.epoch ≡ self.old.epoch }
        ensures heeds { HeedsTime self.old self.new desk.old.time desk.new.time }
        ensures compares { IfSome self.old.coming (Compares self.old self.new) }
        ensures leading { self.new.leading ≡ self.old.leading }
        ensures more { self.new.has_more ≡ self.old.has_more }
    {
        let Some(coming) = &self.coming else {
            return;
        };
        let shown = self.answers.shown.node();
        if self.settling.is_compared || !are_at_one(coming.node(), shown) {
            return;
        }
        self.settling.is_compared = true;
        self.settling.is_same = have_one_state(coming.node(), shown);
        if self.settling.is_same {
            self.is_heard = true;
            self.note_left_out(desk);
        } else {
            let (kind, id) = differ_at(desk.alloc, coming.node(), shown);
            desk.reports.add(Report::Differs {
                server: self.upstream.place(),
                kind,
                id,
            });
        }
    }

    /// A server that had another commit at our newest token, and sends that where it sends
    /// everything, leaves commits out which a later one supersedes. So everything is asked for from
    /// here on.
    fn note_left_out(&mut self, desk: &mut Desk)
        ensures same { SameSource self.old self.new }
        ensures epoch { self.new.epoch ≡ self.old.epoch }
        ensures heeds { HeedsTime self.old self.new desk.old.time desk.new.time }
        ensures more { self.new.has_more ≡ self.old.has_more }
        ensures exact { self.new ≡ record self.old {
          settling = record self.old.settling { is_always = self.new.settling.is_always };
        } }
    {
        let server = self.upstream.place();
        let Some(token) = self.answers.shown.node().token() else {
            return;
        };
        if self.settling.is_always || !self.rechecking.has_doubted(server) {
            return;
        }
        self.settling.ask_all();
        let token = Excerpt::of(token.text());
        desk.reports.add(Report::LeavesOut { server, token });
    }

    /// When what comes afresh has settled, if nothing more comes until then.
    pub(crate) fn settles_at(&self) -> Option<u64>
        // never where nothing comes afresh, or that has published nothing, or is what is shown; and
        // no later than in ten minutes
        ensures none { has_come self.now.coming ≡ false → result ≡ None }
        ensures shown { is_at_shown self.now ≡ true → result ≡ None }
        ensures late { IfSome result (λ at. at ≤ later self.now.settling.began 600000) }
    {
        // It has published.
        self.coming.as_ref()?.since()?;
        if self.is_at_shown() {
            return None;
        }
        let late = self.settling.shown_by();
        if self.has_more || !self.rest.is_empty() {
            return Some(late);
        }
        let calm = if self.is_smaller() {
            self.settling.long_calm_at()
        } else {
            self.settling.calm_at()
        };
        Some(late.min(calm))
    }

    /// When it is reported the next time how much has come.
    pub(crate) fn reports_at(&self) -> Option<u64>
        ensures { result ≡ (if is_some self.now.coming && not (is_at_shown self.now)
            then Some (later self.now.settling.reported 30000) else None) }
    {
        self.coming.as_ref()?;
        if self.is_at_shown() {
            return None;
        }
        Some(self.settling.reported.saturating_add(REPLAY_REPORT))
    }

    /// How many lines and bytes came of what has not settled yet.
    pub(crate) fn come(&self) -> (u64, u64)
        ensures { result ≡ (if is_some self.now.coming && not (is_at_shown self.now)
            then (self.now.settling.lines, self.now.settling.bytes) else (0, 0)) }
    {
        match self.coming {
            Some(_) if !self.is_at_shown() => (self.settling.lines, self.settling.bytes),
            _ => (0, 0),
        }
    }

    /// Whether nothing was shown yet, and what comes is to settle: requests wait for it.
    pub(crate) fn is_first(&self) -> bool
        ensures { result ≡ is_first_start self.now }
    {
        self.coming.is_some() && self.answers.shown.node().token().is_none()
    }

    /// Whether a server answers, and requests wait for what it sends to settle.
    pub(crate) fn is_settling(&self) -> bool {
        self.is_first() && self.body_since.is_some()
    }

    /// Reports how much has come, where it has not settled for long.
    fn report_coming(&mut self, desk: &mut Desk)
        ensures same { SameSource self.old self.new }
        ensures heeds { HeedsTime self.old self.new desk.old.time desk.new.time }
        ensures more { self.new.has_more ≡ self.old.has_more }
    {
        self.report_held(desk);
        let Some(at) = self.reports_at() else {
            return;
        };
        if at > desk.time {
            return;
        }
        self.settling.reported = desk.time;
        desk.reports.add(Report::Coming {
            server: self.upstream.place(),
            bytes: self.settling.bytes,
            time: desk.time.saturating_sub(self.settling.began),
            has_token: self.has_published(),
        });
    }

    /// Reports that the connection ends before what came on it has settled. A response without a
    /// good head, as an error, has no feed that could settle.
    pub(crate) fn report_unsettled(&self, desk: &mut Desk)
        ensures { desk.new.time ≡ desk.old.time }
    {
        if self.coming.is_some() && self.body_since.is_some() && self.settling.bytes > 0 {
            desk.reports.add(Report::Unsettled {
                server: self.upstream.place(),
                bytes: self.settling.bytes,
            });
        }
    }

    /// Whether a server with tokens of its own came to the state and the token that are shown, and
    /// has nothing newer. It holds a token before that one, which screens may have for another
    /// state. With the next commit it holds that no more, and takes the place of what is shown.
    pub(crate) fn is_at_shown(&self) -> bool
        ensures { result ≡ is_at_shown self.now }
    {
        match &self.coming {
            Some(coming) => {
                let shown = self.answers.shown.node();
                self.settling.is_strange && self.goes_on() && are_at_one(coming.node(), shown)
            }
            None => false,
        }
    }

    /// Such a server is followed: nothing is to settle.
    fn note_at_shown(&mut self, now: u64)
        ensures same { SameSource self.old self.new }
        ensures times { SameTimes self.old self.new }
        ensures more { self.new.has_more ≡ self.old.has_more }
    {
        if self.is_at_shown() {
            self.figures.change(Following::Answered, now);
        }
    }

    /// Whether each connection asks for everything.
    pub(crate) fn is_always_fresh(&self) -> bool
        ensures { result ≡ self.now.settling.is_always }
    {
        self.settling.is_always
    }

    /// Whether what comes afresh has published.
    fn has_published(&self) -> bool
        ensures { result ≡ has_come self.now.coming }
    {
        match &self.coming {
            Some(coming) => coming.since().is_some(),
            None => false,
        }
    }

    /// Whether screens may go on from what is shown with what came afresh.
    fn goes_on(&self) -> bool
        ensures { result ≡ goes_on_from self.now }
    {
        self.settling.is_same && self.holds_shown()
    }

    /// Whether what comes afresh holds the token that is shown.
    fn holds_shown(&self) -> bool
        ensures { result ≡ holds_it self.now.coming
            (published_token self.now.answers.shown.mirror.node) }
    {
        match (&self.coming, self.answers.shown.node().token()) {
            (Some(coming), Some(token)) => coming.node().holds(token.text()),
            _ => false,
        }
    }
}
