//! What screens are sent: each is written to once in a turn.

ghost use Rattle.std.specs.Prelude.{◌≡◌, ◌≢◌, ◌⊎◌, ◌↔◌, [], ℕ, Bool, false, true, List, None, Some, Ok, Contains, IsTrue, IfSome, is_err, option_map};
ghost use Rattle.feed_node.specs.States.{NodeState};
ghost use Rattle.feed_hub.specs.Hub.{prefix_at};
ghost use Rattle.feed_hub.specs.Seats.{IsWatcher, seat_at};
ghost use Rattle.feed_hub.specs.Steps.{IsCatchingUp};
ghost use Rattle.feed_device.specs.Calls.{CalledOnce, NotCalled, OthersNotCalled};
ghost use Rattle.slab.specs.Slab.{get};
ghost use Rattle.feed_screens.specs.declared.conn.Phase.TheVariants.{Asks};
ghost use Rattle.feed_screens.specs.Held.{KeepsInput, IsAt};
ghost use Rattle.feed_screens.specs.Seating.{lingers_from};
ghost use Rattle.feed_screens.specs.Serving.{StillServing, StillServesFrom, StillServes, SameSeating};
ghost use Rattle.feed_screens.specs.Waiting.{HasMadeMost, HasMoreToWrite, HasRoom, IsAnotherNext, MarksWhatCame, StaysNoted, WantsCommit, handed, having_more, refilled, waiting_for, waiting_no_more};
ghost use Rattle.feed_screens.specs.Serving.{GetsNext, HasKey, HasPending, IsAlone, IsAtEnd, IsAtEndThen, ReachesEnd, TookAll, OtherConns, SameKeys, LeavesSeat, IsWritable, key_at, keyless};

use crate::conn::{Phase, Wanted};
use crate::hand::hand;
use crate::screens::{Keyed, Screens, TextId};
use feed_device::{Desk, How, Sockets, Stop};
use feed_hub::{Hub, Key, Refill};
use feed_node::Node;
use std::alloc::AllocError;

/// How many bytes of commits one turn makes for those who catch up, and one commit more: so each
/// turn is short, however many come back at once.
const MOST_MADE: usize = 16_777_216;

/// The seat at a key is given back, where there is one.
pub(crate) fn leave(hub: &mut Hub, key: Option<Key>)
    ensures { LeavesSeat key hub.old hub.new }
{
    if let Some(key) = key {
        hub.leave(key);
    }
}

impl Screens {
    /// The seat of the connection at a place, where that can be written to now.
    fn writable(&mut self, at: usize) -> Option<Key>
        ensures key { IfSome result (λ key. key_at self.old.conns at ≡ Some (Some key)) }
        ensures same { SameSeating self.old self.new }
        ensures places { OtherConns self.old.conns self.new.conns at }
        ensures asks { IsAt (get self.old.conns at) Asks → result ≡ None }
        ensures some { (key : Key) → IsWritable (get self.old.conns at) key → result ≡ Some key }
        ensures none { result ≡ None → (key : Key) → ¬ (IsWritable (get self.new.conns at) key) }
        ensures pauses { self.new.accept_at ≡ self.old.accept_at }
        ensures input { KeepsInput (get self.old.conns at) (get self.new.conns at) }
        ensures notes { StaysNoted self.old self.new }
    {
        let conn = self.conns.get_mut(at)?;
        conn.has_more = false;
        if conn.is_blocked || conn.phase != Phase::Watches {
            return None;
        }
        conn.key
    }

    /// Writes to the connection at a place, once: so one does not keep the others waiting.
    pub(crate) fn drain<S: Sockets>(
        &mut self,
        desk: &mut Desk,
        sockets: &mut S,
        node: &Node,
        at: usize,
    )
        ensures serving { StillServesFrom node.now.shown self.old self.new
            (S.socket sockets.old) (S.socket sockets.new) }
        ensures asks { IsAt (get self.old.conns at) Asks → sockets.new ≡ sockets.old }
        // what is pending at a place that may be written to is offered, once
        ensures offers { (key : Key) → IsWritable (get self.old.conns at) key
            → prefix_at self.old.hub key ≢ []
            → CalledOnce (S.offered sockets.old at) (S.offered sockets.new at) }
        ensures asked { S.asked sockets.new ≡ S.asked sockets.old }
        ensures places { OtherConns self.old.conns self.new.conns at }
        ensures seats { (key : Key) → key_at self.old.conns at ≢ Some (Some key)
            → seat_at self.new.hub.seats.slab key ≡ seat_at self.old.hub.seats.slab key }
        ensures log { self.new.hub.broadcast ≡ self.old.hub.broadcast }
        ensures rest { OthersNotCalled (S.offered sockets.old) (S.offered sockets.new) at }
        ensures tries { NotCalled (S.tried sockets.old) (S.tried sockets.new) }
        // only who was sent all, and the end of it, is shut
        ensures shuts { (key : Key) → key_at self.old.conns at ≡ Some (Some key)
            → key_at self.new.conns at ≡ Some None
            → ReachesEnd self.old.hub node.now.shown desk.old.time key }
        ensures pauses { self.new.accept_at ≡ self.old.accept_at }
        ensures input { KeepsInput (get self.old.conns at) (get self.new.conns at) }
        ensures time { desk.new.time ≡ desk.old.time }
        ensures notes { StaysNoted self.old self.new }
        // what it just got is offered, too
        ensures gets { (key : Key) → IsWritable (get self.old.conns at) key
            → CalledOnce (S.offered sockets.old at) (S.offered sockets.new at)
            ⊎ (key_at self.new.conns at ≡ Some (Some key) → prefix_at self.new.hub key ≡ []) }
        // who has something pending then is marked
        ensures more { HasPending self.new at → HasMoreToWrite (get self.new.conns at) }
    {
        let Some(key) = self.writable(at) else {
            return;
        };
        let keyed = Keyed { at, key };
        if self.fill(desk, sockets, node, keyed) {
            self.write(desk, sockets, node, keyed);
        }
    }

    /// Writes to the connection at a place what is pending there, and gets what comes next.
    fn write<S: Sockets>(&mut self, desk: &mut Desk, sockets: &mut S, node: &Node, keyed: Keyed)
        requires { prefix_at self.old.hub keyed.key ≢ [] }
        ensures serving { (nodes : List NodeState) (contest : List ℕ)
            → Contains nodes node.now.shown → HasKey self.old.conns keyed
            → StillServing nodes contest self.old self.new
            (S.socket sockets.old) (S.socket sockets.new) }
        ensures offers { CalledOnce (S.offered sockets.old keyed.at)
            (S.offered sockets.new keyed.at) }
        ensures asks { S.asked sockets.new ≡ S.asked sockets.old }
        ensures places { OtherConns self.old.conns self.new.conns keyed.at }
        ensures seats { HasKey self.old.conns keyed → (key : Key) → key ≢ keyed.key
            → seat_at self.new.hub.seats.slab key ≡ seat_at self.old.hub.seats.slab key }
        ensures log { self.new.hub.broadcast ≡ self.old.hub.broadcast }
        ensures rest { OthersNotCalled (S.offered sockets.old) (S.offered sockets.new) keyed.at }
        ensures tries { NotCalled (S.tried sockets.old) (S.tried sockets.new) }
        // only who took all that was pending, and is at its end then, is shut
        ensures shuts { HasKey self.old.conns keyed
            → key_at self.new.conns keyed.at ≡ Some None
            → IsAtEndThen self.old.hub node.now.shown desk.old.time keyed.key }
        ensures pauses { self.new.accept_at ≡ self.old.accept_at }
        ensures input { KeepsInput (get self.old.conns keyed.at) (get self.new.conns keyed.at) }
        ensures time { desk.new.time ≡ desk.old.time }
        ensures notes { StaysNoted self.old self.new }
        // who has something pending then is marked
        ensures more { HasKey self.old.conns keyed → HasPending self.new keyed.at
            → HasMoreToWrite (get self.new.conns keyed.at) }
    {
        match self.write_once(sockets, keyed, desk.time) {
            Ok(true) => {
                let has_more = self.fill(desk, sockets, node, keyed);
                self.has_more_to_write(keyed.at, has_more);
            }
            Ok(false) => {}
            Err(_) => self.end(desk, sockets, keyed.at, How::Left),
        }
    }

    pub(crate) fn has_more_to_write(&mut self, at: usize, has_more: bool)
        ensures same { SameSeating self.old self.new }
        ensures places { OtherConns self.old.conns self.new.conns at }
        ensures here { get self.new.conns at
            ≡ option_map (having_more has_more) (get self.old.conns at) }
        ensures pauses { self.new.accept_at ≡ self.old.accept_at }
        ensures input { KeepsInput (get self.old.conns at) (get self.new.conns at) }
        ensures notes { StaysNoted self.old self.new }
    {
        if let Some(conn) = self.conns.get_mut(at) {
            conn.has_more = conn.has_more || has_more;
        }
    }

    /// Whether those who catch up have to wait for the next turn.
    fn has_made_most(&self) -> bool
        ensures { IsTrue result ↔ HasMadeMost self.now }
    {
        self.made >= MOST_MADE
    }

    /// Whether there is something to write at a place, now that it has what comes next. Where
    /// nothing ever will be, it is shut.
    fn fill<S: Sockets>(
        &mut self,
        desk: &mut Desk,
        sockets: &mut S,
        node: &Node,
        keyed: Keyed,
    ) -> bool
        ensures serving { (nodes : List NodeState) (contest : List ℕ)
            → Contains nodes node.now.shown → HasKey self.old.conns keyed
            → StillServing nodes contest self.old self.new
            (S.socket sockets.old) (S.socket sockets.new) }
        ensures stays { IsTrue result
            → key_at self.new.conns keyed.at ≡ key_at self.old.conns keyed.at }
        ensures has { prefix_at self.old.hub keyed.key ≢ [] → IsTrue result }
        ensures some { IsTrue result → prefix_at self.new.hub keyed.key ≢ [] }
        // only who was sent all, and the end of it, is shut
        ensures shuts { HasKey self.old.conns keyed
            → key_at self.new.conns keyed.at ≡ Some None
            → IsAtEnd self.old.hub node.now.shown desk.old.time keyed.key }
        ensures offers { NotCalled (S.offered sockets.old) (S.offered sockets.new) }
        ensures asks { S.asked sockets.new ≡ S.asked sockets.old }
        ensures places { OtherConns self.old.conns self.new.conns keyed.at }
        ensures seats { HasKey self.old.conns keyed → (key : Key) → key ≢ keyed.key
            → seat_at self.new.hub.seats.slab key ≡ seat_at self.old.hub.seats.slab key }
        ensures log { self.new.hub.broadcast ≡ self.old.hub.broadcast }
        ensures tries { NotCalled (S.tried sockets.old) (S.tried sockets.new) }
        // what is pending stays; where nothing was, what is now came next
        ensures pending { prefix_at self.old.hub keyed.key ≢ [] → self.new ≡ self.old }
        ensures next { prefix_at self.old.hub keyed.key ≡ [] → IsTrue result → (has_room : Bool)
            × GetsNext self.old.hub node.now.shown has_room desk.old.time keyed.key
            (seat_at self.new.hub.seats.slab keyed.key) }
        ensures time { desk.new.time ≡ desk.old.time }
        ensures pauses { self.new.accept_at ≡ self.old.accept_at }
        ensures input { KeepsInput (get self.old.conns keyed.at) (get self.new.conns keyed.at) }
        ensures notes { StaysNoted self.old self.new }
        // who stays with nothing pending gets what comes next, waits for a commit, or is marked
        ensures gets { HasKey self.old.conns keyed → prefix_at self.old.hub keyed.key ≡ []
            → HasKey self.new.conns keyed → WantsCommit (get self.old.conns keyed.at)
            ⊎ ((HasMadeMost self.old × HasMoreToWrite (get self.new.conns keyed.at))
            ⊎ ((has_room : Bool)
            × GetsNext self.old.hub node.now.shown has_room desk.old.time keyed.key
            (seat_at self.new.hub.seats.slab keyed.key))) }
        // where there is nothing to write, nothing is pending for who stays
        ensures none { HasKey self.old.conns keyed → result ≡ false
            → (key : Key) → key_at self.new.conns keyed.at ≡ Some (Some key)
            → prefix_at self.new.hub key ≡ [] }
    {
        if !self.hub.prefix(keyed.key).is_empty() {
            return true;
        }
        self.pay(keyed.at);
        if self.stays_waiting(keyed) {
            return false;
        }
        if self.has_made_most() {
            self.has_more_to_write(keyed.at, true);
            return false;
        }
        if self.refill(desk, node, keyed).is_err() {
            self.end(desk, sockets, keyed.at, How::Memory);
            return false;
        }
        if !self.hub.prefix(keyed.key).is_empty() {
            return true;
        }
        if self.hub.is_over(keyed.key) {
            self.finish(sockets, keyed, desk.time);
        }
        false
    }

    /// Gets what comes next for a screen. A long commit that no screen has yet waits for room.
    fn refill(&mut self, desk: &Desk, node: &Node, keyed: Keyed) -> Result<(), AllocError>
        ensures serving { StillServes node.now.shown self.old self.new }
        ensures keys { SameKeys self.old.conns self.new.conns }
        ensures places { OtherConns self.old.conns self.new.conns keyed.at }
        ensures seats { (key : Key) → key ≢ keyed.key
            → seat_at self.new.hub.seats.slab key ≡ seat_at self.old.hub.seats.slab key }
        ensures log { self.new.hub.broadcast ≡ self.old.hub.broadcast }
        // it has what comes next; or it waits, where there is no room or another one is next
        ensures next { is_err result ≡ false → (has_room : Bool)
            × (has_room ≡ false → HasRoom self.old → IsAnotherNext self.old.conns keyed.at)
            × GetsNext self.old.hub node.now.shown has_room desk.now.time keyed.key
            (seat_at self.new.hub.seats.slab keyed.key) }
        // and its connection is marked so
        ensures marks { is_err result ≡ false
            → MarksWhatCame self.old self.new node.now.shown desk.now.time keyed }
        // where there is no room, no long text is made
        ensures room { is_err result ≡ false → ¬ (HasRoom self.old)
            → GetsNext self.old.hub node.now.shown false desk.now.time keyed.key
            (seat_at self.new.hub.seats.slab keyed.key) }
        ensures pauses { self.new.accept_at ≡ self.old.accept_at }
        ensures input { KeepsInput (get self.old.conns keyed.at) (get self.new.conns keyed.at) }
        ensures notes { StaysNoted self.old self.new }
    {
        let has_room = self.may_take_room(keyed.at);
        let got = self
            .hub
            .refill(desk.alloc, node, keyed.key, has_room, desk.time)?;
        match got {
            Refill::Goes(number) => self.is_refilled(keyed, number, desk.time),
            Refill::Waits(length) => {
                self.wait_for_commit(keyed, length, desk.time);
                Ok(())
            }
        }
    }

    /// The screen at a place has what came next: a text with a number counts as pending.
    fn is_refilled(&mut self, keyed: Keyed, number: Option<u64>, now: u64) -> Result<(), AllocError>
        ensures same { SameSeating self.old self.new }
        ensures places { OtherConns self.old.conns self.new.conns keyed.at }
        ensures here { get self.new.conns keyed.at
            ≡ option_map (refilled number (prefix_at self.old.hub keyed.key) now)
            (get self.old.conns keyed.at) }
        ensures pauses { self.new.accept_at ≡ self.old.accept_at }
        ensures input { KeepsInput (get self.old.conns keyed.at) (get self.new.conns keyed.at) }
        ensures notes { StaysNoted self.old self.new }
    {
        let length = self.hub.prefix(keyed.key).len();
        self.made = self.made.saturating_add(length);
        self.end_wait(keyed.at);
        match number {
            Some(number) => self.owe(keyed.at, length, TextId::Commit(number), now),
            None => Ok(()),
        }
    }

    /// The screen at a place waits for a commit of so many bytes, which were made in vain; unless
    /// it follows the log by now.
    fn wait_for_commit(&mut self, keyed: Keyed, length: usize, now: u64)
        ensures same { SameSeating self.old self.new }
        ensures places { OtherConns self.old.conns self.new.conns keyed.at }
        ensures waits { IsWatcher (λ s. IsCatchingUp s.way)
            (seat_at self.old.hub.seats.slab keyed.key) → get self.new.conns keyed.at
            ≡ option_map (waiting_for (Wanted.Commit length self.old.hub.frames.next) now)
            (get self.old.conns keyed.at) }
        ensures ends { ¬ (IsWatcher (λ s. IsCatchingUp s.way)
            (seat_at self.old.hub.seats.slab keyed.key)) → get self.new.conns keyed.at
            ≡ option_map waiting_no_more (get self.old.conns keyed.at) }
        ensures pauses { self.new.accept_at ≡ self.old.accept_at }
        ensures input { KeepsInput (get self.old.conns keyed.at) (get self.new.conns keyed.at) }
        ensures notes { StaysNoted self.old self.new }
    {
        self.made = self.made.saturating_add(length);
        if !self.hub.catches_up(keyed.key) {
            self.end_wait(keyed.at);
            return;
        }
        let made = self.hub.commits_made();
        self.wait_for(keyed.at, Wanted::Commit { length, made }, now);
    }

    /// All was sent: what still comes is read for a while.
    fn finish<S: Sockets>(&mut self, sockets: &mut S, keyed: Keyed, now: u64)
        ensures serving { (nodes : List NodeState) (contest : List ℕ)
            → HasKey self.old.conns keyed
            → StillServing nodes contest self.old self.new
            (S.socket sockets.old) (S.socket sockets.new) }
        ensures offers { NotCalled (S.offered sockets.old) (S.offered sockets.new) }
        ensures asks { S.asked sockets.new ≡ S.asked sockets.old }
        ensures places { OtherConns self.old.conns self.new.conns keyed.at }
        ensures seats { (key : Key) → key ≢ keyed.key
            → seat_at self.new.hub.seats.slab key ≡ seat_at self.old.hub.seats.slab key }
        ensures log { self.new.hub.broadcast ≡ self.old.hub.broadcast }
        ensures tries { NotCalled (S.tried sockets.old) (S.tried sockets.new) }
        ensures stays { HasKey self.old.conns keyed → key_at self.new.conns keyed.at ≡ Some None }
        ensures lingers { IfSome (get self.new.conns keyed.at)
            (λ conn. conn.phase ≡ lingers_from now) }
        ensures pauses { self.new.accept_at ≡ self.old.accept_at }
        ensures input { KeepsInput (get self.old.conns keyed.at) (get self.new.conns keyed.at) }
        ensures notes { StaysNoted self.old self.new }
    {
        self.hub.leave(keyed.key);
        sockets.shut(keyed.at);
        self.linger(keyed.at, now);
    }

    /// The connection at a place has no key from here on.
    pub(crate) fn linger(&mut self, at: usize, now: u64)
        ensures key { key_at self.new.conns at ≡ keyless (key_at self.old.conns at) }
        ensures others { (other : ℕ) → other ≢ at
            → key_at self.new.conns other ≡ key_at self.old.conns other }
        ensures places { (other : ℕ) → other ≢ at
            → get self.new.conns other ≡ get self.old.conns other }
        ensures hub { self.new.hub ≡ self.old.hub }
        ensures lingers { IfSome (get self.new.conns at) (λ conn. conn.phase ≡ lingers_from now) }
        ensures pauses { self.new.accept_at ≡ self.old.accept_at }
        ensures input { KeepsInput (get self.old.conns at) (get self.new.conns at) }
        ensures notes { StaysNoted self.old self.new }
    {
        if let Some(conn) = self.conns.get_mut(at) {
            conn.linger(now);
        }
    }

    /// One write of what is pending. Whether the socket took all of it.
    fn write_once<S: Sockets>(
        &mut self,
        sockets: &mut S,
        keyed: Keyed,
        now: u64,
    ) -> Result<bool, Stop>
        requires { prefix_at self.old.hub keyed.key ≢ [] }
        ensures serving { (nodes : List NodeState) (contest : List ℕ)
            → HasKey self.old.conns keyed
            → StillServing nodes contest self.old self.new
            (S.socket sockets.old) (S.socket sockets.new) }
        ensures keys { key_at self.new.conns keyed.at ≡ key_at self.old.conns keyed.at }
        ensures offers { CalledOnce (S.offered sockets.old keyed.at)
            (S.offered sockets.new keyed.at) }
        ensures asks { S.asked sockets.new ≡ S.asked sockets.old }
        ensures places { OtherConns self.old.conns self.new.conns keyed.at }
        ensures seats { (key : Key) → key ≢ keyed.key
            → seat_at self.new.hub.seats.slab key ≡ seat_at self.old.hub.seats.slab key }
        ensures log { self.new.hub.broadcast ≡ self.old.hub.broadcast }
        ensures rest { OthersNotCalled (S.offered sockets.old) (S.offered sockets.new) keyed.at }
        ensures tries { NotCalled (S.tried sockets.old) (S.tried sockets.new) }
        ensures took { result ≡ Ok true → TookAll self.old.hub self.new.hub now keyed.key }
        // a connection that took less is blocked
        ensures blocked { result ≡ Ok false
            → IfSome (get self.new.conns keyed.at) (λ conn. conn.is_blocked ≡ true) }
        // and no other one
        ensures ready { result ≡ Ok true
            → IfSome (get self.new.conns keyed.at) (λ conn. conn.is_blocked ≡ false) }
        ensures pauses { self.new.accept_at ≡ self.old.accept_at }
        ensures input { KeepsInput (get self.old.conns keyed.at) (get self.new.conns keyed.at) }
        ensures notes { StaysNoted self.old self.new }
    {
        let length = self.hub.prefix(keyed.key).len();
        let count = match hand(&mut self.hub, sockets, keyed.at, keyed.key, now) {
            Ok(0) => return Err(Stop::Failed),
            Ok(count) => count,
            Err(Stop::Waits) => 0,
            Err(stop) => return Err(stop),
        };
        self.is_handed(keyed.at, count, count < length);
        Ok(count == length)
    }

    /// The connection at a place took so many bytes, and is blocked or not.
    fn is_handed(&mut self, at: usize, count: usize, is_blocked: bool)
        ensures same { SameSeating self.old self.new }
        ensures places { OtherConns self.old.conns self.new.conns at }
        ensures here { get self.new.conns at
            ≡ option_map (handed count is_blocked) (get self.old.conns at) }
        ensures pauses { self.new.accept_at ≡ self.old.accept_at }
        ensures input { KeepsInput (get self.old.conns at) (get self.new.conns at) }
        ensures notes { StaysNoted self.old self.new }
    {
        if let Some(conn) = self.conns.get_mut(at) {
            conn.is_blocked = is_blocked;
            conn.take(count);
        }
        self.totals.hand(count);
    }

    /// Writes to all, after something was said.
    pub(crate) fn drain_all<S: Sockets>(&mut self, desk: &mut Desk, sockets: &mut S, node: &Node)
        ensures serving { StillServesFrom node.now.shown self.old self.new
            (S.socket sockets.old) (S.socket sockets.new) }
        // what is pending at each place that may be written to is offered, once
        ensures offers { (at : ℕ) (key : Key) → IsWritable (get self.old.conns at) key
            → prefix_at self.old.hub key ≢ [] → IsAlone self.old.conns key at
            → CalledOnce (S.offered sockets.old at) (S.offered sockets.new at) }
        ensures asks { S.asked sockets.new ≡ S.asked sockets.old }
        ensures tries { NotCalled (S.tried sockets.old) (S.tried sockets.new) }
        ensures pauses { self.new.accept_at ≡ self.old.accept_at }
        ensures notes { StaysNoted self.old self.new }
        // whoever is marked is looked at in the next turn
        ensures more { (at : ℕ) → HasMoreToWrite (get self.new.conns at)
            → self.new.has_more ≡ true }
        // and so is who has something pending
        ensures pending { (at : ℕ) (key : Key) → IsAlone self.old.conns key at
            → IsWritable (get self.new.conns at) key → prefix_at self.new.hub key ≢ []
            → self.new.has_more ≡ true }
    {
        for at in 0..self.conns.capacity() {
            self.drain(desk, sockets, node, at);
            if self.conns.get(at).is_some_and(|conn| conn.has_more) {
                self.has_more = true;
            }
        }
    }
}
