//! The server that is followed, and the mirror of what it sends.

ghost use Rattle.std.specs.Prelude.{◌≡◌, ◌≢◌, ◌↔◌, ℕ, ◌<◌, ◌≤◌, ◌⊎◌, [], IsTrue, None, Some, false, true, length, max};
ghost use Rattle.feed_hub.specs.Upstream.{later};
ghost use Rattle.feed_device.specs.declared.device.Stop.TheVariants.{Waits};
ghost use Rattle.feed_live.specs.Leaving.{LooksInTime, IsBy, heard_time};

mod asking;
mod beginning;
mod connecting;
mod finding;
mod input;
mod leading;
mod leaving;
mod looking;
mod patience;
mod positions;
mod rate;
mod reading;
mod rechecking;
mod refusing;
mod returning;
mod saying;
mod settling;
mod waiting;

use crate::options::LiveLimits;
use crate::source::beginning::Beginning;
use crate::source::leading::Leading;
use crate::source::patience::Patience;
use crate::source::rechecking::Rechecking;
use crate::source::returning::Returning;
use crate::source::settling::Settling;
use crate::times::QUIET;
use feed_answer::{Identity, Place};
use feed_device::{Desk, Stop};
use feed_figures::{FeedFigures, Following, ServerFigures, Servers};
use feed_hub::{Answering, Upstream};
use feed_node::{Mirror, Node};
use feed_screens::Answers;
use feed_tables::Name;

/// How far the connection has come.
#[derive(Clone, Copy, PartialEq, Eq)]
enum Reach {
    /// There is none.
    Away,
    /// It was begun at a time.
    Connects(u64),
    /// So many bytes of the request were written.
    Asks(usize),
    /// The response is read.
    Reads,
}

/// What a relay follows: servers, or its input, and the mirrors of that.
#[derive(Drop)]
pub(crate) struct Source {
    /// The servers, each at its number; none where the feed is the input.
    places: Vec<Place>,
    /// As whom they are asked.
    identity: Identity,
    /// Which of them is asked, when, and how far its response was read.
    upstream: Upstream,
    /// What screens are answered with: what is shown, or nothing.
    pub(crate) answers: Answers,
    /// What follows a connection that asked for everything, until that has settled: it is not
    /// shown.
    coming: Option<Mirror>,
    /// When that has settled.
    settling: Settling,
    /// The server, and the last token of what came afresh of it when the connection ended before it
    /// had settled.
    ended: Option<(usize, Name)>,
    /// Whether its body was complete then.
    ended_whole: bool,
    /// How the body that came afresh last began, and how this one does.
    beginning: Beginning,
    /// How far the connection has come.
    reach: Reach,
    /// The request that was made for it.
    request: Vec<u8>,
    /// When the connection was begun, in milliseconds.
    opened: u64,
    /// How long a server may take to answer.
    patience: Patience,
    /// Since when a response has a good head; none where it has none yet.
    body_since: Option<u64>,
    /// It was reported that this connection gives one token to two states.
    has_reported_twice: bool,
    /// When a server is left that has nothing new.
    returning: Returning,
    /// What is known of the first server.
    leading: Leading,
    /// Whether a server still has the newest commit.
    rechecking: Rechecking,
    /// A server was heard, or there is nothing that a server has to say first.
    is_heard: bool,
    /// Since when no server answers, in milliseconds.
    away_since: u64,
    /// The connection asked for everything, and has published nothing yet.
    is_fresh: bool,
    /// How often the feed was published afresh.
    epoch: u64,
    /// What came behind a commit after which nothing more could be said.
    rest: Vec<u8>,
    /// There may be more to read, for which no event comes.
    has_more: bool,
    /// What is counted of it.
    figures: FeedFigures,
    /// What is known of each server.
    servers: Servers,
}

/// Whether requests may be answered before a server was heard: nothing old is to be shown, since
/// nothing was restored or the feed is the input; or what is old may be.
fn answers_at_once(mirror: &Mirror, places: &[Place], serves_old: bool) -> bool
    ensures { mirror.now.node.published ≢ None → places.now ≢ [] → serves_old ≡ false
        → result ≡ false }
{
    serves_old || places.is_empty() || mirror.node().token().is_none()
}

/// The sooner one of a time and another one, if there is one.
fn sooner(due: u64, at: Option<u64>) -> u64
    ensures least { result ≤ due }
    ensures by { IsBy at result }
    ensures one { (result ≡ due) ⊎ (Some result ≡ at) }
{
    match at {
        Some(at) => due.min(at),
        None => due,
    }
}

/// Whether a device would have had to wait: an event comes when it is ready again.
pub(crate) fn has_to_wait(stop: Stop) -> bool
    ensures { IsTrue result ↔ (stop ≡ Waits) }
{
    match stop {
        Stop::Waits => true,
        Stop::Gone => false,
        Stop::Failed => false,
    }
}

impl Source {
    ghost use Rattle.feed_live.specs.Relaying.{SameSource, SameWaiting};
    ghost use Rattle.feed_live.specs.declared.source.Reach.TheVariants.{Away};
    ghost use Rattle.feed_live.specs.Answering.{has_heard};
    ghost use Rattle.feed_live.specs.Times.{AreBy, times_of};

    pub(crate) fn new(
        desk: &Desk,
        places: Vec<Place>,
        identity: Identity,
        mirror: Mirror,
        blank: Mirror,
        limits: LiveLimits,
    ) -> Source
        ensures shown { result.answers.shown.mirror ≡ mirror }
        ensures blank { result.answers.blank.mirror ≡ blank }
        ensures follower { result.upstream.follower ≡ None }
        ensures reach { result.reach ≡ Away }
        ensures places { result.places ≡ places }
        ensures identity { result.identity ≡ identity }
        ensures rest { result.rest.items ≡ [] }
        ensures settles { (result.settling.pause ≡ limits.settle)
            × (result.settling.is_always ≡ limits.is_fresh)
            × (result.settling.serves_broken ≡ limits.serves_broken) }
        ensures due { result.upstream.since ≡ desk.now.time }
        // no time that it keeps is one to come
        ensures times { (latest : ℕ) → desk.now.time ≤ latest → AreBy latest (times_of result) }
        ensures rests { result.has_more ≡ false }
        // each of them has its turn
        ensures round { result.upstream.places ≡ max (length places.items) 1 }
        // what was restored is not shown before a server was heard, unless it is to be at once
        ensures heard { mirror.node.published ≢ None → places.items ≢ []
            → limits.serves_old ≡ false → result.is_heard ≡ false }
    {
        let is_heard = answers_at_once(&mirror, &places, limits.serves_old);
        let leading = Leading::new(places.as_slice());
        Source {
            upstream: Upstream::new(places.len().max(1), desk.time),
            places,
            identity,
            answers: Answers {
                shown: Answering::new(mirror, limits.screens.framing),
                blank: Answering::new(blank, limits.screens.framing),
            },
            coming: None,
            settling: Settling::new(
                limits.settle,
                limits.is_fresh,
                limits.are_strange,
                limits.serves_broken,
            ),
            ended: None,
            ended_whole: false,
            beginning: Beginning::new(desk.alloc),
            reach: Reach::Away,
            request: Vec::new(desk.alloc),
            opened: desk.time,
            patience: Patience::new(),
            body_since: None,
            has_reported_twice: false,
            returning: Returning::new(limits.return_after, desk.time),
            leading,
            rechecking: Rechecking::new(limits.rechecks),
            is_heard,
            away_since: desk.time,
            is_fresh: false,
            epoch: 0,
            rest: Vec::new(desk.alloc),
            has_more: false,
            figures: FeedFigures::new(Following::Away, desk.time),
            servers: Servers::new(desk.alloc),
        }
    }

    pub(crate) fn node(&self) -> &Node
        ensures { result.now.shown ≡ self.now.answers.shown.mirror.node }
    {
        self.answers.shown.node()
    }

    /// Forgets the text of the snapshot, where no screen has any of it.
    pub(crate) fn tidy(&mut self)
        ensures same { SameSource self.old self.new }
        ensures waits { SameWaiting self.old self.new }
        ensures heard { self.new.is_heard ≡ self.old.is_heard }
        ensures epoch { self.new.epoch ≡ self.old.epoch }
        ensures more { self.new.has_more ≡ self.old.has_more }
    {
        self.answers.shown.tidy();
    }

    /// Whether requests may be answered: a server was heard, and what comes at a first start has
    /// settled.
    pub(crate) fn is_heard(&self) -> bool
        ensures { result ≡ has_heard self.now }
    {
        self.is_heard && !self.is_first()
    }

    /// How often the feed was published afresh.
    pub(crate) fn epoch(&self) -> u64
        ensures { result ≡ self.now.epoch }
    {
        self.epoch
    }

    pub(crate) fn has_more(&self) -> bool
        ensures { result ≡ self.now.has_more }
    {
        self.has_more
    }

    pub(crate) fn figures(&self) -> FeedFigures {
        let (coming_lines, coming_bytes) = self.come();
        let server = self.figures.server;
        let is_followed = self.figures.following == Following::Answered;
        let lack = self.leading.lack(server, is_followed);
        self.figures
            .with_coming(coming_lines, coming_bytes)
            .with_twice(self.has_reported_twice)
            .with_lack(self.leading.index(server), lack)
    }

    /// What is known of each server.
    pub(crate) fn servers(&self) -> &[ServerFigures] {
        self.servers.rows()
    }

    /// An event came for the connection.
    pub(crate) fn wake(&mut self)
        ensures more { self.old.reach ≢ Away → self.new.has_more ≡ true }
        ensures rests { self.old.reach ≡ Away → self.new.has_more ≡ false }
        ensures same { SameSource self.old self.new }
        ensures waits { SameWaiting self.old self.new }
        ensures heard { self.new.is_heard ≡ self.old.is_heard }
        ensures epoch { self.new.epoch ≡ self.old.epoch }
    {
        self.has_more = self.reach != Reach::Away;
    }

    /// When something is due for which no event comes.
    pub(crate) fn due(&self, idle: u64) -> u64
        ensures connects { self.now.upstream.follower ≡ None → result ≤ self.now.upstream.since }
        ensures silent { self.now.upstream.follower ≢ None
            → result ≤ later (later self.now.upstream.since idle) idle }
        ensures looks { LooksInTime self.now result }
    {
        self.upstream.due(idle).min(self.looks_at())
    }

    /// When the server is looked at, or something is reported; never where nothing is to come.
    fn looks_at(&self) -> u64
        ensures { LooksInTime self.now result }
    {
        let due = sooner(u64::MAX, self.late_at());
        let due = sooner(due, self.returns_at());
        let due = sooner(due, self.look_at());
        let due = sooner(due, self.heard_at());
        let due = sooner(due, self.newest_at());
        let due = sooner(due, self.settles_at());
        let due = sooner(due, self.reports_at());
        sooner(due, self.figures.warns_at())
    }

    /// When the server counts as heard though it publishes nothing: it answered with what comes
    /// after our token. One that was asked for everything counts only once it has published, and
    /// one that was asked for the newest commit again not before that came.
    fn heard_at(&self) -> Option<u64>
        ensures { result ≡ heard_time self.now }
    {
        if self.is_heard || self.is_fresh || self.rechecking.is_going() {
            return None;
        }
        let since = self.body_since?;
        Some(since.saturating_add(QUIET))
    }

    /// Whether there is a server to be asked.
    pub(crate) fn has_servers(&self) -> bool
        ensures none { self.now.places.items ≡ [] → result ≡ false }
        ensures some { self.now.places.items ≢ [] → result ≡ true }
    {
        !self.places.is_empty()
    }
}
