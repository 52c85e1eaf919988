//! The part of a turn that follows: the input, or a server; and writes the state file.

ghost use Rattle.std.specs.Prelude.{◌≡◌, ◌≢◌, ◌<◌, ◌⊎◌, [], List, ℕ, ◌≤◌, Some, Contains, IfSome, is_some, false, true, None};
ghost use Rattle.feed_node.specs.States.{NodeState};
ghost use Rattle.feed_device.specs.Calls.{HasBegun, CalledAtLeastOnce};
ghost use Rattle.feed_device.specs.Files.{IsKnown};
ghost use Rattle.feed_device.specs.Links.{Exchanges};
ghost use Rattle.feed_device.specs.Sockets.{AllSockets};

use crate::times::END_TIME;
use crate::turn::{Input, Live};
use feed_device::{Link, Report, Store};

impl Live {
    ghost use Rattle.feed_live.specs.Relaying.{StillRelaying, OnlyServes, RestsAway, SameEnd, SameWaiting, IsToConnect};
    ghost use Rattle.feed_live.specs.Afresh.{has_come};
    ghost use Rattle.feed_live.specs.Calling.{HeedsLink, LeavesOnlyFor, MarksMore, HasCause, ReadsAsBefore};
    ghost use Rattle.feed_live.specs.Times.{HeedsTime, KeepsTimes};
    ghost use Rattle.feed_live.specs.Leaving.{BeginsOne, IsAtRest, IsToLeave, IsToMove, IsToStay};
    ghost use Rattle.feed_live.specs.declared.source.Reach.TheVariants.{Away};
    ghost use Rattle.feed_live.specs.Ending.{EndsWithInput};
    ghost use Rattle.feed_live.specs.Answering.{has_heard};
    ghost use Rattle.feed_screens.specs.Serving.{SaysAll, AllEnd};
    ghost use Rattle.feed_live.specs.Taking.{StillTaking, StopsTaking, bytes_in};
    ghost use Rattle.feed_files.specs.Saved.{ArePartsOfRecords, KeepsFiles};
    ghost use Rattle.feed_live.specs.Ending.{SameBeside};
    ghost use Rattle.feed_files.specs.Writing.{WaitsToRetry, IsToWrite, HasSaved};
    ghost use Rattle.feed_files.specs.declared.saved.Saved.{Saved};

    /// Says what had to wait.
    pub(super) fn say_more(&mut self)
        // once it has waited for so long
        ensures says { (at : ℕ) → self.old.screens.saying.waits ≡ Some at
            → at ≤ self.old.desk.time → SaysAll self.new.screens
            self.new.source.answers.shown.mirror.node self.old.desk.time }
        ensures serves { (sockets : AllSockets) → OnlyServes self.old self.new sockets sockets }
        ensures saved { SameBeside self.old self.new }
        ensures desk { self.new.desk ≡ self.old.desk }
        ensures nothing { self.old.screens.saying.waits ≡ None → self.new ≡ self.old }
        ensures more { self.new.source.has_more ≡ self.old.source.has_more }
    {
        if self.screens.says_now(self.desk.time) {
            self.source.say_more(&self.desk, &mut self.screens);
        }
    }

    /// Takes what the input gave: it is the feed, or only its end counts.
    pub(super) fn take_input(&mut self, input: Input<'_>)
        ensures relaying { (exchanges : Exchanges) (sockets : AllSockets)
            → StillRelaying self.old self.new exchanges exchanges sockets sockets }
        ensures taking { (sockets : AllSockets) → StillTaking self.old self.new
            (bytes_in input.entry) sockets sockets }
        ensures stops { input.entry ≢ Input.End → (sockets : AllSockets)
            → StopsTaking self.old self.new (bytes_in input.entry) sockets }
        ensures saved { SameBeside self.old self.new }
        ensures ends { EndsWithInput self.old self.new input.entry }
        // where it is no feed, only its end counts
        ensures apart { self.old.feeds ≡ false → (self.new.source ≡ self.old.source)
            × (self.new.desk.time ≡ self.old.desk.time) }
        ensures nothing { self.old.feeds ≡ false → self.new.ends_at ≡ None
            → self.new.screens ≡ self.old.screens }
    {
        match input {
            Input::Nothing => self.feed(&[]),
            Input::Bytes(piece) => self.feed(piece),
            Input::End => self.end(),
        }
    }

    /// Follows bytes of the input, where that is the feed.
    fn feed(&mut self, piece: &[u8])
        ensures relaying { (exchanges : Exchanges) (sockets : AllSockets)
            → StillRelaying self.old self.new exchanges exchanges sockets sockets }
        ensures taking { (sockets : AllSockets) → StillTaking self.old self.new piece.now
            sockets sockets }
        ensures stops { (sockets : AllSockets) → StopsTaking self.old self.new piece.now sockets }
        ensures saved { SameBeside self.old self.new }
        ensures ends { SameEnd self.old self.new }
        ensures apart { self.old.feeds ≡ false → self.new ≡ self.old }
    {
        if self.feeds {
            self.feeds = self
                .source
                .take_input(&mut self.desk, &mut self.screens, piece);
        }
    }

    /// The input has ended.
    fn end(&mut self)
        ensures relaying { (exchanges : Exchanges) (sockets : AllSockets)
            → StillRelaying self.old self.new exchanges exchanges sockets sockets }
        ensures taking { (sockets : AllSockets) → StillTaking self.old self.new []
            sockets sockets }
        ensures saved { SameBeside self.old self.new }
        ensures limits { self.new.limits ≡ self.old.limits }
        ensures ends { self.old.limits.ends_with_input ≡ false
            → self.new.ends_at ≡ self.old.ends_at }
        ensures sets { self.old.limits.ends_with_input ≡ true → self.new.ends_at ≢ None }
        // then the bodies of all who follow are ended
        ensures bodies { self.old.limits.ends_with_input ≡ true → self.old.ends_at ≡ None
            → AllEnd self.new.screens.hub }
        ensures apart { self.old.feeds ≡ false → (self.new.source ≡ self.old.source)
            × (self.new.desk.time ≡ self.old.desk.time) }
        ensures nothing { self.new.ends_at ≡ None → self.new.screens ≡ self.old.screens }
    {
        if self.feeds {
            self.desk.reports.add(Report::EndOfInput);
            self.source.end_input(self.desk.time);
        }
        self.feeds = false;
        if self.limits.ends_with_input && self.ends_at.is_none() {
            self.ends_at = Some(self.desk.time.saturating_add(END_TIME));
            self.screens.end_feeds(&self.desk);
        }
    }

    /// Goes on with the server that is followed, unless something is still to be said.
    pub(super) fn follow<L: Link>(&mut self, link: &mut L)
        ensures relaying { (sockets : AllSockets) → StillRelaying self.old self.new
            (L.exchanges link.old) (L.exchanges link.new) sockets sockets }
        // where there is no server
        ensures nothing { self.old.source.places.items ≡ [] → self.new ≡ self.old }
        // where a server is heard now, those who waited for one are looked at again
        ensures looks { has_heard self.old.source ≡ false → has_heard self.new.source ≡ true
            → self.new.screens.has_more ≡ true }
        ensures saved { SameBeside self.old self.new }
        ensures ends { SameEnd self.old self.new }
        // where a connection is due, it is begun, once; or memory ran out, and the next place is
        // asked after that
        ensures begins { self.old.ends_at ≡ None → IsToConnect self.old.source self.old.desk.time
            → BeginsOne (L.calls link.old) (L.calls link.new) self.old.source self.new.source
            self.old.desk.time }
        // where there is no connection, and none is due yet, none is begun, and that isn't put off
        ensures pauses { self.old.source.reach ≡ Away → self.old.source.has_more ≡ false
            → self.old.desk.time < self.old.source.upstream.since
            → SameWaiting self.old.source self.new.source × (L.calls link.new ≡ L.calls link.old) }
        // one that is late or silent is left; the next one may be connected to at once
        ensures leaves { self.old.ends_at ≡ None → self.old.source.places.items ≢ []
            → IsToLeave self.old.source self.old.limits.screens.idle self.old.desk.time
            → HasBegun (L.calls link.old) (L.calls link.new)
            ⊎ (self.new.source.reach ≡ Away) }
        // so is one that has nothing new for long, or is to be asked with the newest token
        ensures moves { self.old.ends_at ≡ None → self.old.source.places.items ≢ []
            → IsToMove self.old.source self.old.limits.screens.idle self.old.desk.time
            → HasBegun (L.calls link.old) (L.calls link.new)
            ⊎ (self.new.source.reach ≡ Away) }
        // no other one is left before it is read
        ensures stays { self.old.ends_at ≡ None → self.old.source.reach ≢ Away
            → IsAtRest self.old.source
            → IsToStay self.old.source self.old.limits.screens.idle self.old.desk.time
            → SameWaiting self.old.source self.new.source
            × (L.calls link.new ≡ L.calls link.old) }
        // no time that is kept of servers comes to be later than now
        ensures keeps { KeepsTimes self.old.source self.new.source self.old.desk.time
            self.new.desk.time }
        // where there is no connection afterwards, nothing of one is left to be read
        ensures rests { RestsAway self.old.source → RestsAway self.new.source }
        // one that is not to be left is waited for from the same times on
        ensures holds { self.old.ends_at ≡ None → self.old.source.places.items ≢ []
            → self.old.source.reach ≢ Away
            → IsToStay self.old.source self.old.limits.screens.idle self.old.desk.time
            → HeedsTime self.old.source self.new.source self.old.desk.time self.new.desk.time }
        // the connection is called, where there is more of it
        ensures heeds { self.old.ends_at ≡ None → self.old.source.places.items ≢ []
            → self.old.source.reach ≢ Away → self.old.source.has_more ≡ true
            → IsToStay self.old.source self.old.limits.screens.idle self.old.desk.time
            → self.old.screens.saying.waits ≡ None
            → HeedsLink self.old.source None (L.calls link.old) (L.calls link.new) }
        // as long as a response is read, there is more of it, or the last read found nothing
        ensures more { MarksMore self.old.source (L.calls link.old).read
            → MarksMore self.new.source (L.calls link.new).read }
    {
        if self.ends_at.is_some() || !self.source.has_servers() {
            return;
        }
        let was_held = !self.source.is_heard();
        self.source
            .tick(&mut self.desk, link, self.limits.screens.idle);
        self.go_on(link);
        self.settle(link);
        if was_held && self.source.is_heard() {
            self.screens.look_again();
        }
    }

    /// Goes on with the connection, where there may be more.
    fn go_on<L: Link>(&mut self, link: &mut L)
        ensures relaying { (sockets : AllSockets) → StillRelaying self.old self.new
            (L.exchanges link.old) (L.exchanges link.new) sockets sockets }
        ensures saved { SameBeside self.old self.new }
        ensures ends { SameEnd self.old self.new }
        ensures rests { IsAtRest self.old.source
            → (self.new.source ≡ self.old.source) × (L.calls link.new ≡ L.calls link.old) }
        ensures times { HeedsTime self.old.source self.new.source self.old.desk.time
            self.new.desk.time }
        ensures heeds { self.old.source.has_more ≡ true → self.old.screens.saying.waits ≡ None
            → HeedsLink self.old.source None (L.calls link.old) (L.calls link.new) }
        // a server is left only where it can't be asked, or for what came of its response
        ensures begun { (L.calls link.new).begun ≡ (L.calls link.old).begun }
        ensures leaves { LeavesOnlyFor
            (HasCause self.old.source (L.calls link.old) (L.calls link.new))
            self.old.source self.new.source }
        ensures more { MarksMore self.old.source (L.calls link.old).read
            → MarksMore self.new.source (L.calls link.new).read }
    {
        if self.source.has_more() && self.screens.says_at().is_none() {
            self.source.go_on(&mut self.desk, link, &mut self.screens);
        }
    }

    /// Shows what came afresh, where that has settled.
    fn settle<L: Link>(&mut self, link: &mut L)
        ensures relaying { (sockets : AllSockets) → StillRelaying self.old self.new
            (L.exchanges link.old) (L.exchanges link.new) sockets sockets }
        ensures saved { SameBeside self.old self.new }
        ensures ends { SameEnd self.old self.new }
        ensures rests { IsAtRest self.old.source → self.new.source ≡ self.old.source }
        ensures times { HeedsTime self.old.source self.new.source self.old.desk.time
            self.new.desk.time }
        ensures calls { L.calls link.new ≡ L.calls link.old }
        // a server is left only for what came afresh, and has published
        ensures leaves { LeavesOnlyFor (has_come self.old.source.coming ≡ true)
            self.old.source self.new.source }
        ensures more { ReadsAsBefore self.old.source self.new.source }
    {
        self.source
            .settle_due(&mut self.desk, link, &mut self.screens);
    }

    /// Writes a slice of the state file.
    pub(super) fn save<D: Store>(&mut self, store: &mut D)
        ensures serves { (sockets : AllSockets) → OnlyServes self.old self.new sockets sockets }
        ensures kept { (nodes : List NodeState)
            → Contains nodes self.old.source.answers.shown.mirror.node
            → KeepsFiles nodes (D.files store.old) self.old.saved
            → KeepsFiles nodes (D.files store.new) self.new.saved }
        ensures parts { (nodes : List NodeState)
            → Contains nodes self.old.source.answers.shown.mirror.node
            → KeepsFiles nodes (D.files store.old) self.old.saved
            → ArePartsOfRecords nodes (D.files store.old).had
            → ArePartsOfRecords nodes (D.files store.new).had }
        // where the feed was published afresh, they have nothing of what was shown before
        ensures anew { self.old.source.epoch ≢ self.old.epoch → (nodes : List NodeState)
            → Contains nodes self.old.source.answers.shown.mirror.node
            → IsKnown (D.files store.old).next
            → KeepsFiles nodes (D.files store.new) self.new.saved }
        // where a file lacks something and the time has come, something is to be appended; or that
        // failed, and is tried again later
        ensures asks { (saved : Saved) → self.old.saved ≡ Some saved
            → self.old.source.epoch ≡ self.old.epoch
            → IsToWrite self.old.source.answers.shown.mirror.node self.old.desk.time saved
            → CalledAtLeastOnce (D.appended store.old) (D.appended store.new)
            ⊎ IfSome self.new.saved (WaitsToRetry self.old.desk.time) }
        // there still are state files; nothing but a failure puts them off, and where there is no
        // more to write, they have all
        ensures stores { is_some self.new.saved ≡ is_some self.old.saved }
        ensures saved { IfSome self.old.saved (λ old. IfSome self.new.saved
            (HasSaved self.old.source.answers.shown.mirror.node self.old.desk.time old.retry_at)) }
        ensures reported { self.new.reported ≡ self.old.reported }
    {
        let Some(saved) = &mut self.saved else {
            return;
        };
        let epoch = self.source.epoch();
        saved.begin_where(epoch != self.epoch);
        self.epoch = epoch;
        saved.save(&mut self.desk, store, self.source.node());
    }
}
