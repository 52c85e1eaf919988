//! The turn.

ghost use Rattle.std.specs.Prelude.{◌≡◌, ◌≢◌, ◌<◌, ◌≤◌, ◌+◌, ◌-◌, ◌^◌, ◌⊎◌, ◌↔◌, ◌&&◌, [], List, ℕ, length, max, min, None, Some, Contains, IfSome, is_none, is_some, false, true};
ghost use Rattle.feed_settings.specs.Limits.{Limits};
ghost use Rattle.feed_node.specs.States.{NodeState};
ghost use Rattle.feed_world.specs.Log.{Log};
ghost use Rattle.feed_laws.specs.Laws.{IsInLog};
ghost use Rattle.feed_device.specs.Calls.{HasBegun, CalledAtLeastOnce};
ghost use Rattle.feed_device.specs.Links.{Exchanges};
ghost use Rattle.feed_device.specs.Sockets.{AllSockets, IsUnused};
ghost use Rattle.feed_live.specs.Upstream.{Servers};
ghost use Rattle.feed_device.specs.Files.{IsKnown};
ghost use Rattle.feed_files.specs.Saved.{EndsAsRecorded, KeepsFiles, ArePartsOfRecords};

mod due;
mod following;
mod serving;

use crate::options::{LiveLimits, Start};
use crate::source::Source;
use feed_answer::Place;
use feed_device::{Desk, Devices, Link, Ready, Report, Sockets, Store};
use feed_files::{Good, Restored, Saved};
use feed_node::Node;
use feed_screens::Screens;
use std::alloc::Global;

/// What the input gave.
#[derive(Clone, Copy)]
pub enum Input<'a> {
    Nothing,
    Bytes(&'a [u8]),
    End,
}

/// What comes after a turn.
#[derive(Clone, Copy)]
pub struct Turn {
    /// When the next turn is due at the latest, where no device becomes ready before.
    pub due: u64,
    /// Whether the input may be read before that.
    pub takes_input: bool,
    /// Whether it was the last one.
    pub is_over: bool,
}

/// A relay.
#[derive(Drop)]
pub struct Live {
    /// The contest whose feed is served.
    contest: String,
    /// What it may do, and how long it waits.
    limits: LiveLimits,
    /// What it follows, and shows of that.
    pub(crate) source: Source,
    /// Whom it serves.
    pub(crate) screens: Screens,
    /// Its state files; none where nothing is kept.
    pub(crate) saved: Option<Saved>,
    /// What its parts have at hand.
    desk: Desk,
    /// When it looked last for who is late, in milliseconds.
    ticked: u64,
    /// When the number of screens was reported last, in milliseconds.
    reported: u64,
    /// How often the feed was published afresh when the state file was looked after last.
    epoch: u64,
    /// Whether the input is the feed and goes on.
    feeds: bool,
    /// When a relay that ends does so at the latest, in milliseconds; none where it goes on.
    ends_at: Option<u64>,
    /// It was reported that requests wait for a server.
    is_hold_reported: bool,
}

impl Live {
    ghost use Rattle.feed_live.specs.Relaying.{IsRelaying, IsToConnect, RestsAway, SameWaiting, StillRelaying, OnlyServes};
    ghost use Rattle.feed_live.specs.Calling.{HeedsLink, MarksMore};
    ghost use Rattle.feed_live.specs.Leaving.{BeginsOne, IsAtRest, IsToLeave, IsToMove, IsToStay, is_past, newest_time, why_left};
    ghost use Rattle.feed_live.specs.Times.{AreBy, HeedsTime, KeepsTimes, times_of};
    ghost use Rattle.feed_live.specs.declared.source.Reach.TheVariants.{Away};
    ghost use Rattle.feed_live.specs.Taking.{IsTakingInput, StillTaking, StopsTaking, bytes_in};
    ghost use Rattle.feed_live.specs.Ending.{SameBeside};
    ghost use Rattle.feed_screens.specs.Owed.{OwesWhatIsKept};
    ghost use Rattle.feed_live.specs.Running.{IsRelayOver, IsSameRelay};
    ghost use Rattle.feed_screens.specs.Waiting.{TakesNobody};
    ghost use Rattle.feed_live.specs.Ending.{EndsWithInput};
    ghost use Rattle.feed_live.specs.Due.{IsDueInTime};

    /// A relay that starts from what the state files had.
    pub fn new<D: Store>(
        alloc: Global,
        contest: String,
        limits: LiveLimits,
        start: Start,
        store: &mut D,
        now: u64,
    ) -> Live
        // where it follows servers, and the state files had a state of the log, or nothing
        ensures relaying { (limits : Limits) (log : Log) (servers : Servers)
            (exchanges : Exchanges) (sockets : AllSockets)
            → servers.places ≡ start.places.items → servers.identity ≡ start.identity
            → start.places.items ≢ []
            → start.restored.mirror.limits ≡ limits
            → IsInLog limits log start.restored.mirror.node → IsInLog limits log start.blank.node
            → ((at : ℕ) → IsUnused (sockets at))
            → IsRelaying limits log servers exchanges result sockets }

        // where its feed is the input, and the state files had a state of the log, or nothing
        ensures taking { (limits : Limits) (log : Log) (sockets : AllSockets)
            → start.places.items ≡ [] → start.restored.mirror.limits ≡ limits
            → IsInLog limits log start.restored.mirror.node → IsInLog limits log start.blank.node
            → ((at : ℕ) → IsUnused (sockets at))
            → IsTakingInput limits log start.restored.mirror [] result sockets }
        // what the state files have, where the good bytes of what was restored are a record's
        ensures kept { (nodes : List NodeState) (text : List ℕ)
            → (D.files store.old).written ≡ Some text → IsKnown (D.files store.old).next
            → IfSome start.restored.file (EndsAsRecorded nodes text start.restored.mirror.node)
            → KeepsFiles nodes (D.files store.new) result.saved }
        ensures had { (D.files store.new).had ≡ (D.files store.old).had }
        ensures contest { result.contest ≡ contest }
        ensures feeds { start.places.items ≡ [] → result.feeds ≡ true }
        // it shows what was restored, has room for as many screens as it may have, and no end
        ensures shown { result.source.answers.shown.mirror.node ≡ start.restored.mirror.node }
        ensures most { result.screens.hub.most ≡ limits.screens.most }
        ensures limits { result.limits ≡ limits }
        ensures goes_on { result.ends_at ≡ None }
        // it keeps state files if it has a store, and writes at once
        ensures stores { is_some result.saved ≡ limits.has_store }
        ensures at_once { IfSome result.saved (λ saved. saved.retry_at ≡ 0) }
        ensures reported { result.reported ≡ now }
        // what was restored answers nobody before a server was heard, unless it is to at once
        ensures heard { start.restored.mirror.node.published ≢ None → start.places.items ≢ []
            → limits.serves_old ≡ false → result.source.is_heard ≡ false }
        // no time that it keeps of its servers is one to come
        ensures times { (latest : ℕ) → now ≤ latest → AreBy latest (times_of result.source) }
        ensures rests { RestsAway result.source }
        ensures away { result.source.reach ≡ Away }
        // it may connect at once, to each server in turn, and shows what came afresh once that has
        // settled
        ensures connects { result.source.upstream.since ≡ now }
        ensures round { result.source.upstream.places ≡ max (length start.places.items) 1 }
        ensures settles { (result.source.settling.pause ≡ limits.settle)
            × (result.source.settling.is_always ≡ limits.is_fresh)
            × (result.source.settling.serves_broken ≡ limits.serves_broken) }
    {
        let Start {
            places,
            identity,
            restored,
            blank,
        } = start;
        let Restored { mirror, file } = restored;
        let saved = saved_of(store, mirror.node(), file, limits.has_store);
        let feeds = are_none(&places);
        let desk = Desk::new(alloc, now);
        let mut source = Source::new(&desk, places, identity, mirror, blank, limits);
        source.begin_input(feeds, now);
        // What is restored was said before: only what is published from here on is news.
        let mut screens = Screens::new(alloc, limits.screens);
        screens.relay(&desk, source.node());
        Live {
            contest,
            limits,
            source,
            screens,
            saved,
            desk,
            ticked: now,
            reported: now,
            epoch: 0,
            feeds,
            ends_at: None,
            is_hold_reported: false,
        }
    }

    /// What happened since this was cleared last.
    pub fn reports(&self) -> &[Report]
        ensures { result.now ≡ self.now.desk.reports.reports.items }
    {
        self.desk.reports.all()
    }

    /// How much more happened that there was no room for.
    pub fn missed(&self) -> u64
        ensures { result ≡ self.now.desk.reports.missed }
    {
        self.desk.reports.missed()
    }

    /// What was reported is forgotten.
    pub fn clear_reports(&mut self)
        // nothing changes of what is shown, kept, and handed to screens
        ensures relaying { (exchanges : Exchanges) (sockets : AllSockets)
            → StillRelaying self.old self.new exchanges exchanges sockets sockets }
        ensures taking { (sockets : AllSockets) → StillTaking self.old self.new []
            sockets sockets }
        ensures rest { IsSameRelay self.old self.new }
        ensures none { self.new.desk.reports.reports.items ≡ [] }
        ensures missed { self.new.desk.reports.missed ≡ 0 }
    {
        self.desk.reports.clear();
    }

    /// What the relay shows.
    pub fn node(&self) -> &Node
        ensures { result.now.shown ≡ self.now.source.answers.shown.mirror.node }
    {
        self.source.node()
    }

    /// Does what is to be done now, and waits for nothing.
    pub fn turn<S: Sockets, L: Link, D: Store>(
        &mut self,
        alloc: Global,
        devices: &mut Devices<S, L, D>,
        events: &[Ready],
        input: Input<'_>,
        now: u64,
    ) -> Turn
        // what it shows, and what each socket was handed, is still of the log
        ensures relaying { StillRelaying self.old self.new (L.exchanges devices.old.link)
            (L.exchanges devices.new.link) (S.socket devices.old.sockets)
            (S.socket devices.new.sockets) }

        // so it is where the input is the feed, and these bytes of it came
        ensures taking { StillTaking self.old self.new (bytes_in input.entry)
            (S.socket devices.old.sockets) (S.socket devices.new.sockets) }

        // where the input doesn't end, it goes on as the feed; or it stopped at its first fault, or
        // where memory ran out
        ensures stops { input.entry ≢ Input.End → StopsTaking self.old self.new
            (bytes_in input.entry) (S.socket devices.old.sockets) }

        // the state files have what a record wrote of nodes that were shown, one after another
        ensures kept { (nodes : List NodeState)
            → Contains nodes self.new.source.answers.shown.mirror.node
            → KeepsFiles nodes (D.files devices.old.store) self.old.saved
            → KeepsFiles nodes (D.files devices.new.store) self.new.saved }

        // all that they ever had is some of what records of such nodes wrote, from the first byte
        // on
        ensures parts { (nodes : List NodeState)
            → Contains nodes self.new.source.answers.shown.mirror.node
            → KeepsFiles nodes (D.files devices.old.store) self.old.saved
            → ArePartsOfRecords nodes (D.files devices.old.store).had
            → ArePartsOfRecords nodes (D.files devices.new.store).had }

        // where the feed was published afresh, they have nothing of what was shown before
        ensures anew { self.new.source.epoch ≢ self.old.epoch → (nodes : List NodeState)
            → Contains nodes self.new.source.answers.shown.mirror.node
            → IsKnown (D.files devices.old.store).next
            → KeepsFiles nodes (D.files devices.new.store) self.new.saved }

        // where some screen has more to read or to write, the next turn is due at once
        ensures wakes { self.new.screens.has_more ≡ true → result.due ≤ now }

        // where something waits to be said, it is due at that time
        ensures says { IfSome self.new.screens.saying.waits (λ at. now ≤ at → result.due ≤ at) }

        // a minute after the number of screens was reported last, at the latest
        ensures awake { result.due ≤ min (self.new.reported + 60000) (2 ^ 64 - 1) }
        ensures reported { (self.new.reported ≡ self.old.reported) ⊎ (self.new.reported ≡ now) }

        // where a state file, a server or the end is due, then
        ensures due { IsDueInTime self.new now result.due }

        // it has state files where it had them
        ensures stores { is_some self.new.saved ≡ is_some self.old.saved }

        // what counts as owed is what connections have yet to take, and nothing where there is none
        ensures owed { OwesWhatIsKept self.new.screens }

        // where somebody waits to be taken, one is asked for at least, unless none is taken for now
        ensures asks { Contains events.now Ready.Listener
            → CalledAtLeastOnce (S.asked devices.old.sockets) (S.asked devices.new.sockets)
            ⊎ TakesNobody self.new.screens now }

        // nothing but the end of its input sets an end to it
        ensures ends { EndsWithInput self.old self.new input.entry }

        // where a connection is due, it is begun, once; or memory ran out, and the next server is
        // asked after that
        ensures begins { self.old.feeds ≡ false → self.new.ends_at ≡ None
            → IsToConnect self.old.source now
            → BeginsOne (L.calls devices.old.link) (L.calls devices.new.link)
            self.old.source self.new.source now }

        // one that is late or silent is left; the next one may be connected to at once
        ensures leaves { self.old.feeds ≡ false → self.new.ends_at ≡ None
            → self.old.source.places.items ≢ []
            → IsToLeave self.old.source self.old.limits.screens.idle now
            → HasBegun (L.calls devices.old.link) (L.calls devices.new.link)
            ⊎ (self.new.source.reach ≡ Away) }

        // no time that it keeps of its servers comes to be later than now, but that of the next
        // connection: half a minute; and it is set to the same
        ensures keeps { self.old.feeds ≡ false
            → KeepsTimes self.old.source self.new.source now now }

        // where there is no connection, and none is due yet, none is begun, and that isn't put off
        ensures pauses { self.old.feeds ≡ false → self.old.source.reach ≡ Away
            → self.old.source.has_more ≡ false → now < self.old.source.upstream.since
            → SameWaiting self.old.source self.new.source
            × (L.calls devices.new.link ≡ L.calls devices.old.link) }

        // where there is no connection afterwards, nothing of one is left to be read
        ensures rests { self.old.feeds ≡ false
            → RestsAway self.old.source → RestsAway self.new.source }

        // as long as a response is read, there is more of it, or the last read found nothing
        ensures more { self.old.feeds ≡ false
            → MarksMore self.old.source (L.calls devices.old.link).read
            → MarksMore self.new.source (L.calls devices.new.link).read }

        // one that is not to be left is waited for from the same times on
        ensures holds { self.old.feeds ≡ false → self.new.ends_at ≡ None
            → self.old.source.places.items ≢ [] → self.old.source.reach ≢ Away
            → IsToStay self.old.source self.old.limits.screens.idle now
            → HeedsTime self.old.source self.new.source now now }

        // and it isn't left, before an event comes for it, or there is more to be read
        ensures stays { self.old.feeds ≡ false → self.new.ends_at ≡ None
            → self.old.source.reach ≢ Away → IsAtRest self.old.source
            → IsToStay self.old.source self.old.limits.screens.idle now
            → ¬ (Contains events.now Ready.Link)
            → SameWaiting self.old.source self.new.source
            × (L.calls devices.new.link ≡ L.calls devices.old.link) }

        // where no event comes for it, one that has nothing new for long, or is to be asked with
        // the newest token, is left; the next one may be connected to at once
        ensures moves { self.old.feeds ≡ false → self.new.ends_at ≡ None
            → self.old.source.places.items ≢ []
            → IsToMove self.old.source self.old.limits.screens.idle now
            → ¬ (Contains events.now Ready.Link)
            → HasBegun (L.calls devices.old.link) (L.calls devices.new.link)
            ⊎ (self.new.source.reach ≡ Away) }

        // the connection to a server is looked at, written to or read once an event comes for it,
        // unless the server is to be left, or something waits to be said
        ensures heeds { self.old.feeds ≡ false → self.new.ends_at ≡ None
            → self.old.source.places.items ≢ [] → self.old.source.reach ≢ Away
            → Contains events.now Ready.Link
            → why_left self.old.source self.old.limits.screens.idle now ≡ None
            → is_past (newest_time self.old.source) now ≡ false
            → self.old.screens.saying.waits ≡ None
            → HeedsLink self.old.source None (L.calls devices.old.link)
            (L.calls devices.new.link) }

        // input may be read, unless an end is set or something waits to be said
        ensures takes { result.takes_input
            ≡ (is_none self.new.ends_at && is_none self.new.screens.saying.waits) }

        // it is the last one exactly where the relay ends with its input, and that is over
        ensures over { (result.is_over ≡ true) ↔ IsRelayOver self.new now }
    {
        self.desk.begin(alloc, now);
        let held = self.held();
        let had_more = self.screens.begin_turn(held);
        self.note(events);
        self.say_more();
        self.take_input(input);
        self.follow(&mut devices.link);
        self.save(&mut devices.store);
        self.tick(&mut devices.sockets);
        let node = self.source.node();
        self.screens
            .drain_due(&mut self.desk, &mut devices.sockets, node);
        self.serve(&mut devices.sockets, events, had_more);
        self.accept(&mut devices.sockets, events, now);
        self.next(now)
    }

    /// For how long requests may have to wait until a server is heard, in milliseconds.
    fn held(&self) -> u64 {
        if self.source.is_heard() {
            0
        } else {
            self.limits.hold
        }
    }

    /// Marks what became ready.
    fn note(&mut self, events: &[Ready])
        ensures serves { (sockets : AllSockets) → OnlyServes self.old self.new sockets sockets }
        ensures desk { self.new.desk ≡ self.old.desk }
        ensures saved { SameBeside self.old self.new }
        // an event for the connection says that there may be more of it, where there is one
        ensures wakes { Contains events.now Ready.Link → self.old.source.reach ≢ Away
            → self.new.source.has_more ≡ true }
        ensures rests { self.old.source.reach ≡ Away → self.old.source.has_more ≡ false
            → self.new.source.has_more ≡ false }
        // else nothing of that changes
        ensures stays { ¬ (Contains events.now Ready.Link) → self.new.source ≡ self.old.source }
        ensures more { self.old.source.reach ≢ Away
            → (self.new.source.has_more ≡ self.old.source.has_more)
            ⊎ (self.new.source.has_more ≡ true) }
        ensures waits { self.new.screens.saying ≡ self.old.screens.saying }
    {
        for event in events {
            self.note_one(*event);
        }
        self.note_link(events);
    }

    /// Marks that the connection to a server became ready, where one of the events says so.
    fn note_link(&mut self, events: &[Ready])
        ensures serves { (sockets : AllSockets) → OnlyServes self.old self.new sockets sockets }
        ensures beside { (self.new.desk ≡ self.old.desk) × SameBeside self.old self.new
            × (self.new.screens ≡ self.old.screens) }
        ensures wakes { Contains events.now Ready.Link → self.old.source.reach ≢ Away
            → self.new.source.has_more ≡ true }
        ensures rests { self.old.source.reach ≡ Away → self.old.source.has_more ≡ false
            → self.new.source.has_more ≡ false }
        ensures stays { ¬ (Contains events.now Ready.Link) → self.new ≡ self.old }
        ensures more { self.old.source.reach ≢ Away
            → (self.new.source.has_more ≡ self.old.source.has_more)
            ⊎ (self.new.source.has_more ≡ true) }
    {
        if link_is_ready(events) {
            self.source.wake();
        }
    }

    /// Marks one of them, where it is a screen's.
    fn note_one(&mut self, event: Ready)
        ensures serves { (sockets : AllSockets) → OnlyServes self.old self.new sockets sockets }
        ensures desk { self.new.desk ≡ self.old.desk }
        ensures saved { SameBeside self.old self.new }
        ensures source { self.new.source ≡ self.old.source }
        ensures waits { self.new.screens.saying ≡ self.old.screens.saying }
    {
        match event {
            // Who waits is taken at the end of the turn.
            Ready::Listener => {}
            // `note_link` marks it.
            Ready::Link => {}
            Ready::Screen {
                at,
                is_readable,
                is_writable,
            } => self.screens.wake(at, is_readable, is_writable),
        }
    }
}

/// The state files, where there are some: they go on with what was restored, where that can be.
fn saved_of<D: Store>(
    store: &mut D,
    node: &Node,
    file: Option<Good>,
    has_store: bool,
) -> Option<Saved>
    ensures kept { (nodes : List NodeState) (text : List ℕ)
        → (D.files store.old).written ≡ Some text → IsKnown (D.files store.old).next
        → IfSome file (EndsAsRecorded nodes text node.now.shown)
        → KeepsFiles nodes (D.files store.new) result }
    ensures had { (D.files store.new).had ≡ (D.files store.old).had }
    ensures stores { is_some result ≡ has_store }
    ensures at_once { IfSome result (λ saved. saved.retry_at ≡ 0) }
{
    if has_store {
        Some(Saved::new(store, node, file))
    } else {
        None
    }
}

/// Whether one of the events says that the connection to a server became ready.
fn link_is_ready(events: &[Ready]) -> bool
    ensures some { Contains events.now Ready.Link → result ≡ true }
    ensures none { ¬ (Contains events.now Ready.Link) → result ≡ false }
{
    for event in events {
        if matches!(event, Ready::Link) {
            return true;
        }
    }
    false
}

/// Whether there is no server to be followed.
fn are_none(places: &[Place]) -> bool
    ensures some { places.now ≢ [] → result ≡ false }
    ensures none { places.now ≡ [] → result ≡ true }
{
    places.is_empty()
}
