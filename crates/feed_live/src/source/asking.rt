//! What an event for the connection to a server calls for: it is looked at, asked, or read.

ghost use Rattle.std.specs.Prelude.{◌≡◌, ◌≢◌, ◌<◌, ◌≤◌, ◌⊎◌, ◌+◌, ℕ, [], Bool, Result, None, Ok, Err, IsTrue, drop, false, true, length};
ghost use Rattle.feed_device.specs.Calls.{HasAnswered, HasLooked, HasWritten, AnsweredAtLeastOnce, AnsweredSince};
ghost use Rattle.feed_device.specs.declared.device.Stop.{Stop as Stops};

use crate::source::{Reach, Source, has_to_wait};
use feed_device::{Desk, Link, Why};
use feed_screens::Screens;

impl Source {
    ghost use Rattle.feed_live.specs.Calling.{AsLooked, AsWritten, AsksAll, FailsToConnect, HasBroken, HeedsLink, KeepsNothing, LeavesOnlyFor, MarksMore, HasCause, ReadsNothing};
    ghost use Rattle.feed_live.specs.Times.{HeedsTime};
    ghost use Rattle.feed_live.specs.Relaying.{StillFollows, within_turn};
    ghost use Rattle.feed_live.specs.declared.source.Reach.TheVariants.{Away, Connects as Connecting, Asks as Asked, Reads as Read};
    ghost use Rattle.feed_screens.specs.declared.screens.Screens.{Screens};

    /// Goes on with the connection: an event came for it, or there was more.
    pub(crate) fn go_on<L: Link>(&mut self, desk: &mut Desk, link: &mut L, screens: &mut Screens)
        ensures follows { StillFollows
            (within_turn (L.exchanges link.old) self.old self.old.rest.items screens.old)
            (within_turn (L.exchanges link.new) self.new self.new.rest.items screens.new) }
        ensures heeds { HeedsTime self.old self.new desk.old.time desk.new.time }
        // the device is called for it
        ensures calls { HeedsLink self.old screens.old.saying.waits (L.calls link.old)
            (L.calls link.new) }
        // one that isn't open yet is waited for
        ensures waits { (since : ℕ) → self.old.reach ≡ Connecting since
            → (answer : Result Bool Stops)
            × HasAnswered answer (L.calls link.old).looked (L.calls link.new).looked
            × (answer ≡ Ok false → self.new ≡ record self.old { has_more = false }) }
        // as long as a response is read, there is more, or all that came was read
        ensures more { MarksMore self.new (L.calls link.new).read }
        // What was kept of a response, and what comes of it, is taken. It is read on, until
        // something waits to be said.
        ensures keeps { self.old.reach ≡ Read → KeepsNothing self.new screens.new.saying.waits }
        ensures takes { self.old.reach ≡ Read → (self.new.reach ≡ Away)
            ⊎ (screens.new.saying.waits ≢ None)
            ⊎ AnsweredAtLeastOnce (L.calls link.old).read (L.calls link.new).read }
        // no other connection is begun
        ensures begun { (L.calls link.new).begun ≡ (L.calls link.old).begun }
        // it is left only where it can't be asked, or for what came of the response
        ensures leaves { LeavesOnlyFor (HasCause self.old (L.calls link.old) (L.calls link.new))
            self.old self.new }
    {
        self.has_more = false;
        if !self.is_open(desk, link) {
            return;
        }
        self.ask(desk, link);
        if self.reach == Reach::Reads {
            self.read_some(desk, link, screens);
        }
    }

    /// Looks at a connection that is being made. Whether it is open, and can be written to or read.
    fn is_open<L: Link>(&mut self, desk: &mut Desk, link: &mut L) -> bool
        ensures follows { (screens : Screens) → StillFollows
            (within_turn (L.exchanges link.old) self.old self.old.rest.items screens)
            (within_turn (L.exchanges link.new) self.new self.new.rest.items screens) }
        ensures heeds { HeedsTime self.old self.new desk.old.time desk.new.time }
        // one that is being made is looked at once
        ensures looks { (since : ℕ) → self.old.reach ≡ Connecting since
            → (answer : Result Bool Stops)
            × HasLooked answer (L.calls link.old) (L.calls link.new)
            × AsLooked answer result self.old self.new desk.old.time }
        ensures written { (L.calls link.new).written ≡ (L.calls link.old).written }
        ensures nothing_read { ReadsNothing self.old self.new (L.calls link.old) (L.calls link.new) }
        ensures leaves { LeavesOnlyFor
            (FailsToConnect (L.calls link.old).looked (L.calls link.new).looked) self.old self.new }
        // and one that is open is as it was
        ensures rests { ((since : ℕ) → self.old.reach ≢ Connecting since)
            → (result ≡ true) × (self.new ≡ self.old) × (link.new ≡ link.old) }
    {
        let Reach::Connects(_) = self.reach else {
            return true;
        };
        match link.is_open() {
            Ok(true) => {
                self.reach = Reach::Asks(0);
                true
            }
            Ok(false) => false,
            Err(_) => {
                self.lost(desk, link, Why::Refuses);
                false
            }
        }
    }

    /// Writes what it can of the request, where that isn't written yet.
    fn ask<L: Link>(&mut self, desk: &mut Desk, link: &mut L)
        ensures follows { (screens : Screens) → StillFollows
            (within_turn (L.exchanges link.old) self.old self.old.rest.items screens)
            (within_turn (L.exchanges link.new) self.new self.new.rest.items screens) }
        ensures heeds { HeedsTime self.old self.new desk.old.time desk.new.time }
        ensures looks { (L.calls link.new).looked ≡ (L.calls link.old).looked }
        ensures nothing_read { ReadsNothing self.old self.new (L.calls link.old) (L.calls link.new) }
        // the rest of it is offered, where there is some
        ensures asks { (count : ℕ) → self.old.reach ≡ Asked count
            → drop count self.old.request.items ≢ []
            → AnsweredAtLeastOnce (L.calls link.old).written (L.calls link.new).written }
        // and all of it, until the connection takes no more for now
        ensures more { AsksAll self.new (L.calls link.new).written }
        // it is left only where the connection broke
        ensures leaves { LeavesOnlyFor
            (HasBroken (L.calls link.old).written (L.calls link.new).written) self.old self.new }
        // else nothing is done
        ensures rests { ((count : ℕ) → self.old.reach ≢ Asked count)
            → (self.new ≡ self.old) × (link.new ≡ link.old) }
    {
        let Reach::Asks(count) = self.reach else {
            return;
        };
        if self.ask_once(desk, link, count) {
            self.ask_rest(desk, link);
        }
    }

    /// Writes the rest of the request, as long as the connection takes something.
    fn ask_rest<L: Link>(&mut self, desk: &mut Desk, link: &mut L)
        ensures follows { (screens : Screens) → StillFollows
            (within_turn (L.exchanges link.old) self.old self.old.rest.items screens)
            (within_turn (L.exchanges link.new) self.new self.new.rest.items screens) }
        ensures heeds { HeedsTime self.old self.new desk.old.time desk.new.time }
        ensures looks { (L.calls link.new).looked ≡ (L.calls link.old).looked }
        ensures nothing_read { ReadsNothing self.old self.new (L.calls link.old) (L.calls link.new) }
        ensures since { AnsweredSince (L.calls link.old).written (L.calls link.new).written }
        ensures more { AsksAll self.new (L.calls link.new).written }
        ensures leaves { LeavesOnlyFor
            (HasBroken (L.calls link.old).written (L.calls link.new).written) self.old self.new }
    {
        'writes: while let Reach::Asks(count) = self.reach {
            if !self.ask_once(desk, link, count) {
                return;
            }
        }
    }

    /// One write, where so many bytes of the request were written. Whether another may come now.
    fn ask_once<L: Link>(&mut self, desk: &mut Desk, link: &mut L, count: usize) -> bool
        ensures follows { self.old.reach ≡ Asked count → (screens : Screens)
            → StillFollows
            (within_turn (L.exchanges link.old) self.old self.old.rest.items screens)
            (within_turn (L.exchanges link.new) self.new self.new.rest.items screens) }
        ensures heeds { self.old.reach ≡ Asked count
            → HeedsTime self.old self.new desk.old.time desk.new.time }
        ensures looks { (L.calls link.new).looked ≡ (L.calls link.old).looked }
        ensures nothing_read { ReadsNothing self.old self.new (L.calls link.old) (L.calls link.new) }
        ensures since { AnsweredSince (L.calls link.old).written (L.calls link.new).written }
        // it is offered once, where there is some of it
        ensures some { drop count self.old.request.items ≢ [] → (answer : Result ℕ Stops)
            × HasWritten answer (L.calls link.old) (L.calls link.new)
            × AsWritten answer count result self.old self.new desk.old.time }
        ensures none { drop count self.old.request.items ≡ [] → (result ≡ false)
            × (link.new ≡ link.old) × (self.new ≡ record self.old { reach = Read }) }
        ensures on { IsTrue result → (more : ℕ) × (0 < more)
            × (more ≤ length (drop count self.old.request.items))
            × (self.new ≡ record self.old { reach = Asked (count + more) }) }
        ensures off { result ≡ false → self.old.reach ≡ Asked count
            → AsksAll self.new (L.calls link.new).written }
    {
        let rest = behind(&self.request, count);
        if rest.is_empty() {
            self.reach = Reach::Reads;
            return false;
        }
        match link.write(rest) {
            Ok(0) => {
                self.lost(desk, link, Why::Broke);
                false
            }
            Ok(more) => {
                self.reach = Reach::Asks(count + more);
                true
            }
            Err(stop) => {
                if !has_to_wait(stop) {
                    self.lost(desk, link, Why::Broke);
                }
                false
            }
        }
    }
}

/// What comes behind so many bytes; none where there are not more.
fn behind(bytes: &[u8], count: usize) -> &[u8]
    ensures { result.now ≡ drop count bytes.now }
{
    bytes.get(count..).unwrap_or(&[])
}
