//! The connection to a server is begun.

ghost use Rattle.std.specs.Prelude.{◌≡◌, ◌≢◌, ◌<◌, ◌⊎◌, ◌||◌, None, Some, Err, IfOk, IfSome, IsSome, false, true, length, is_none};
ghost use Rattle.feed_device.specs.Calls.{HasBegun};
ghost use Rattle.feed_node.specs.States.{published_token};

use crate::source::rechecking::token_for;
use crate::source::settling::{begin_shown, followed_of};
use crate::source::{Reach, Source};
use feed_answer::request_text_as;
use feed_device::{Desk, Link, Why};
use feed_node::Mirror;
use feed_screens::Screens;
use std::alloc::{AllocError, Global};

impl Source {
    ghost use Rattle.feed_live.specs.Calling.{ReadsAsBefore};
    ghost use Rattle.feed_live.specs.Times.{KeepsTimes};
    ghost use Rattle.feed_live.specs.Relaying.{StillFollows, SameSource, SameWaiting, GoesOnTo, IsToConnect, RestsAway, followed_by, servers_of, within_turn};
    ghost use Rattle.feed_live.specs.Upstream.{IsRequestOf, IsRequestWith, asked_with};
    ghost use Rattle.feed_live.specs.Leaving.{heard_time, is_passed_over, is_past, IsToLeave, IsToMove, IsToStay, IsAtRest, ConnectsTo};
    ghost use Rattle.feed_live.specs.declared.source.Reach.TheVariants.{Away, Connects as Connecting, Reads as Read};
    ghost use Rattle.feed_screens.specs.declared.screens.Screens.{Screens};

    /// Leaves a server that is late, silent or has nothing new for long, and begins to connect
    /// where that is due.
    pub(crate) fn tick<L: Link>(&mut self, desk: &mut Desk, link: &mut L, idle: u64)
        ensures follows { (screens : Screens) → StillFollows
            (within_turn (L.exchanges link.old) self.old self.old.rest.items screens)
            (within_turn (L.exchanges link.new) self.new self.new.rest.items screens) }
        // where there is no connection, and one is due, it is begun, once; or memory ran out, and
        // the next place is asked after that
        ensures begins { IsToConnect self.old desk.old.time
            → HasBegun (L.calls link.old) (L.calls link.new)
            ⊎ ((L.calls link.new ≡ L.calls link.old) × GoesOnTo self.old self.new desk.old.time) }
        // one that is late or silent is left; the next one may be connected to at once
        ensures leaves { IsToLeave self.old idle desk.old.time
            → HasBegun (L.calls link.old) (L.calls link.new) ⊎ (self.new.reach ≡ Away) }
        // one that is neither, and not to be left for anything else, is followed on
        ensures stays { self.old.reach ≢ Away → IsToStay self.old idle desk.old.time
            → SameSource self.old self.new × SameWaiting self.old self.new
            × (self.new.has_more ≡ self.old.has_more) × (L.calls link.new ≡ L.calls link.old) }
        // where there is no connection, and none is due yet, none is begun
        ensures pauses { self.old.reach ≡ Away → desk.old.time < self.old.upstream.since
            → SameSource self.old self.new × SameWaiting self.old self.new
            × (self.new.has_more ≡ self.old.has_more) × (L.calls link.new ≡ L.calls link.old) }
        // where one is due, or was left, there is nothing to read yet
        ensures rests { IsToConnect self.old desk.old.time ⊎ IsToLeave self.old idle desk.old.time
            ⊎ IsToMove self.old idle desk.old.time → IsAtRest self.new }
        // so is one that is to be left for another reason
        ensures moves { IsToMove self.old idle desk.old.time
            → HasBegun (L.calls link.old) (L.calls link.new) ⊎ (self.new.reach ≡ Away) }
        ensures keeps { KeepsTimes self.old self.new desk.old.time desk.new.time }
        // where there is no connection afterwards, nothing of one is left to be read
        ensures away { RestsAway self.old → RestsAway self.new }
        // and where a response is read, it is read on as before
        ensures reads { ReadsAsBefore self.old self.new }
        ensures calls { self.new.reach ≡ Read → L.calls link.new ≡ L.calls link.old }
        // who refused the token still counts
        ensures refused { self.new.upstream.refused ≡ self.old.upstream.refused }
    {
        self.leave_due(desk, link, idle);
        self.hear_quiet(desk);
        if self.reach == Reach::Away && self.upstream.is_due(desk.time) {
            self.connect(desk, link);
        }
    }

    /// A server that answers counts as heard after a while, though it publishes nothing. Where what
    /// it sends has no tokens, that is reported.
    fn hear_quiet(&mut self, desk: &mut Desk)
        ensures same { SameSource self.old self.new }
        ensures heard { self.new.is_heard
            ≡ (self.old.is_heard || is_past (heard_time self.old) desk.old.time) }
        ensures more { self.new.has_more ≡ self.old.has_more }
        ensures waits { SameWaiting self.old self.new }
        ensures upstream { self.new.upstream ≡ self.old.upstream }
        ensures time { desk.new.time ≡ desk.old.time }
    {
        self.figures.warn(desk, self.upstream.place());
        if let Some(at) = self.heard_at() {
            if at <= desk.time {
                self.is_heard = true;
            }
        }
    }

    /// Begins to connect. From here on the silence of the server counts.
    fn connect<L: Link>(&mut self, desk: &mut Desk, link: &mut L)
        ensures follows { (screens : Screens) → StillFollows
            (within_turn (L.exchanges link.old) self.old self.old.rest.items screens)
            (within_turn (L.exchanges link.new) self.new self.new.rest.items screens) }
        // A connection is begun, once; or memory ran out, and the next place is asked after that.
        ensures begins { self.old.upstream.place < length self.old.places.items
            → HasBegun (L.calls link.old) (L.calls link.new)
            ⊎ ((L.calls link.new ≡ L.calls link.old) × GoesOnTo self.old self.new desk.old.time) }
        ensures away { self.old.reach ≡ Away
            → HasBegun (L.calls link.old) (L.calls link.new) ⊎ (self.new.reach ≡ Away) }
        // there is nothing to read yet
        ensures rests { self.old.reach ≡ Away → self.old.has_more ≡ false → IsAtRest self.new }
        ensures waits { self.old.reach ≡ Away
            → self.old.upstream.place < length self.old.places.items → IsAtRest self.new }
        // none while the first server stands alone, and this is another one
        ensures alone { is_passed_over self.old desk.old.time ≡ true
            → L.calls link.new ≡ L.calls link.old }
        // it is one to the server whose turn it is
        ensures server { ConnectsTo self.old.upstream.place (L.exchanges link.old)
            (L.exchanges link.new) }
        // from now on it may be late, or silent
        ensures opened { self.old.reach ≡ Away → (self.new.reach ≡ Away)
            ⊎ ((self.new.reach ≡ Connecting desk.old.time) × (self.new.opened ≡ desk.old.time)
            × (self.new.upstream.since ≡ desk.old.time)) }
        // whether it asks for everything is noted: what it publishes then is no news of the former
        ensures fresh { self.old.reach ≡ Away → (self.new.reach ≡ Away)
            ⊎ (self.new.is_fresh ≡ is_none (followed_by self.new).since) }
        ensures keeps { KeepsTimes self.old self.new desk.old.time desk.new.time }
        ensures refused { self.new.upstream.refused ≡ self.old.upstream.refused }
        ensures heard { self.old.body_since ≡ None → self.new.is_heard ≡ self.old.is_heard }
    {
        if self.is_passed_over(desk.time) {
            self.pass_over(link, desk.time);
            return;
        }
        let coming = match self.begin_afresh(desk.alloc) {
            Ok(coming) => coming,
            Err(_) => {
                self.lost(desk, link, Why::Memory);
                return;
            }
        };
        let again = match self.begin_again(desk.alloc) {
            Ok(again) => again,
            Err(_) => {
                self.lost(desk, link, Why::Memory);
                return;
            }
        };
        let follows = match self.begin_beside(desk.alloc, coming.is_some()) {
            Ok(follows) => follows,
            Err(_) => {
                self.lost(desk, link, Why::Memory);
                return;
            }
        };
        let request = match self.request(
            desk.alloc,
            followed_of(&coming, self.answers.shown.mirror()),
            again.is_some(),
        ) {
            Ok(Some(request)) => request,
            Ok(None) => return,
            Err(_) => {
                self.lost(desk, link, Why::Memory);
                return;
            }
        };
        let begun = link.connect(self.upstream.place());
        if begun.is_err() {
            self.lost(desk, link, why_not(begun));
            return;
        }
        self.request = request;
        // What is unread of the last connection is forgotten.
        self.rest.clear();
        begin_shown(link, &coming);
        let followed = followed_of(&coming, self.answers.shown.mirror());
        self.is_fresh = followed.since().is_none();
        self.upstream.opened(followed, desk.time);
        self.coming = coming;
        self.rechecking.begin(again, self.is_fresh);
        self.settling.begin(desk.time);
        let is_afresh = self.coming.is_some();
        self.figures
            .ask(self.upstream.place(), is_afresh, desk.time);
        self.servers.ask(self.upstream.place());
        self.opened = desk.time;
        self.beginning.begin(follows);
        self.has_more = false;
        self.reach = Reach::Connects(desk.time);
    }

    /// The text that asks the next place for what a mirror lacks, and for its newest commit where
    /// that is to come again; none where there is no place.
    fn request(
        &self,
        alloc: Global,
        mirror: &Mirror,
        is_again: bool,
    ) -> Result<Option<Vec<u8>>, AllocError>
        ensures asks { IfOk result (λ made. IfSome made (λ text. IsRequestOf (servers_of self.now)
            self.now.upstream.place mirror.now text.items)) }
        ensures token { IfOk result (λ made. IfSome made (λ text. IsRequestWith
            (servers_of self.now) self.now.upstream.place (asked_with is_again mirror.now)
            text.items)) }
        ensures since { IfSome mirror.now.since (λ token.
            published_token mirror.now.node ≡ Some token) }
        ensures place { self.now.upstream.place < length self.now.places.items
            → IfOk result (λ made. IsSome made) }
    {
        // The token that is asked with is that of what the mirror shows, or one before it.
        let _ = mirror.since();
        let Some(place) = self.places.get(self.upstream.place()) else {
            return Ok(None);
        };
        let mut text = Vec::new(alloc);
        request_text_as(
            place,
            token_for(mirror, is_again),
            &self.identity,
            &mut text,
        )?;
        Ok(Some(text))
    }
}

/// Why no connection was begun, where none was.
fn why_not(begun: Result<(), Why>) -> Why
    ensures { (why : Why) → begun ≡ Err why → result ≡ why }
{
    match begun {
        Ok(()) => Why::Refuses,
        Err(why) => why,
    }
}
