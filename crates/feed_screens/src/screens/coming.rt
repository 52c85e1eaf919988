//! Who comes: each gets a seat, or is refused.

ghost use Rattle.std.specs.Prelude.{◌≡◌, ◌≢◌, ◌<◌, ◌≤◌, ◌+◌, ◌-◌, ◌^◌, ◌⊎◌, [], ℕ, List, None, Some, Err, min, false, true, IsTrue, IfSome, IsSome, IsOk};
ghost use Rattle.slab.specs.Slab.{get};
ghost use Rattle.feed_node.specs.States.{NodeState};
ghost use Rattle.feed_hub.specs.Hub.{IsNew};
ghost use Rattle.feed_hub.specs.Seats.{seat_at, IsAskingSeat};
ghost use Rattle.feed_device.specs.Calls.{CalledOnce, CalledAtLeastOnce, NotCalled};
ghost use Rattle.feed_device.specs.Sockets.{opened, former_of, IsSocket, OtherSockets};
ghost use Rattle.feed_screens.specs.Serving.{StillServesAll, StillServingWith, StillStand, SameSeating, IsSent};
ghost use Rattle.feed_screens.specs.Serving.{IsGreeted, HasNoSeat, key_at};
ghost use Rattle.feed_screens.specs.Held.{AllKeepInput, KeepsInput};
ghost use Rattle.feed_screens.specs.Waiting.{IsAskingAt, IsSlow, HoldsUp, RefusesAt, StaysNoted};
ghost use Rattle.feed_screens.specs.Seating.{comes_until, HasFreeSeat, HasNewKey, HasSentEnd, IsLingering};

use crate::conn::{Conn, Phase};
use crate::screens::{FULL, Lack, PIECE, Screens};
use crate::times::{ACCEPT_PAUSE, REQUEST_TIME};
use feed_device::{Desk, How, Report, Sockets, Stop};
use feed_hub::Key;
use std::net::SocketAddr;

/// How many connections are taken in one turn: so screens are served, however many come.
const ACCEPTS: usize = 64;

/// How many connections there may be beside those that have a seat: refused, and lingering. With a
/// thousand screens all stay below the 1,024 descriptors that a process mostly may have.
const FURTHER: usize = 8;

impl Screens {
    /// Takes who waits.
    pub fn accept<S: Sockets>(&mut self, desk: &mut Desk, sockets: &mut S, now: u64)
        ensures serving { StillServesAll self.old self.new
            (S.socket sockets.old) (S.socket sockets.new) }
        // where somebody waits and the time has come, one is asked for at least; or memory ran out,
        // and it pauses
        ensures asks { self.old.is_waited_for ≡ true → self.old.accept_at ≤ now
            → CalledAtLeastOnce (S.asked sockets.old) (S.asked sockets.new)
            ⊎ (self.new.accept_at ≡ min (now + 1000) (2 ^ 64 - 1)) }
        // before that time nothing is done
        ensures pauses { now < self.old.accept_at → self.new ≡ self.old }
        ensures notes { (self.old.has_more ≡ true → self.new.has_more ≡ true)
            × (self.old.is_waited ≡ true → self.new.is_waited ≡ true) }
    {
        if !self.is_waited_for || now < self.accept_at {
            return;
        }
        self.sweep(desk, sockets);
        for _ in 0..ACCEPTS {
            if !self.accept_next(desk, sockets, now) {
                return;
            }
        }
    }

    /// Takes one. Whether there may be more.
    fn accept_next<S: Sockets>(&mut self, desk: &mut Desk, sockets: &mut S, now: u64) -> bool
        ensures serving { StillServesAll self.old self.new
            (S.socket sockets.old) (S.socket sockets.new) }
        ensures asks { result ≡ true → CalledOnce (S.asked sockets.old) (S.asked sockets.new) }
        ensures stops { result ≡ false → CalledOnce (S.asked sockets.old) (S.asked sockets.new)
            ⊎ (self.new.accept_at ≡ min (now + 1000) (2 ^ 64 - 1)) }
        ensures notes { (self.old.has_more ≡ true → self.new.has_more ≡ true)
            × (self.old.is_waited ≡ true → self.new.is_waited ≡ true) }
    {
        self.make_place(desk, sockets);
        match self.accept_one(desk, sockets) {
            Ok(()) => true,
            Err(Stop::Gone) => true,
            Err(Stop::Waits) => {
                self.is_waited_for = false;
                false
            }
            Err(Stop::Failed) => {
                self.stick(desk, now);
                false
            }
        }
    }

    /// Whether there are as many connections as there may be.
    fn has_no_place(&self) -> bool {
        self.conns.len() >= self.limits.most.saturating_add(FURTHER)
    }

    /// Makes place for a connection, where there is none: those that lost their seats are closed,
    /// and the one that has lingered for longest.
    fn make_place<S: Sockets>(&mut self, desk: &mut Desk, sockets: &mut S)
        ensures serving { StillServesAll self.old self.new
            (S.socket sockets.old) (S.socket sockets.new) }
        ensures asks { S.asked sockets.new ≡ S.asked sockets.old }
        ensures tries { NotCalled (S.tried sockets.old) (S.tried sockets.new) }
        // whoever has a seat, and does not linger, stays
        ensures stays { (at : ℕ) → ¬ (HasNoSeat self.old.hub (get self.old.conns at))
            → ¬ (IsLingering (get self.old.conns at))
            → get self.new.conns at ≡ get self.old.conns at }
        ensures time { desk.new.time ≡ desk.old.time }
        ensures notes { StaysNoted self.old self.new }
    {
        if !self.has_no_place() {
            return;
        }
        self.sweep(desk, sockets);
        if let Some(at) = self.longest_lingering() {
            self.end(desk, sockets, at, How::Done);
        }
    }

    /// The place of the connection that has lingered for longest.
    fn longest_lingering(&self) -> Option<usize>
        ensures { IfSome result (λ at. IsLingering (get self.now.conns at)) }
    {
        let mut longest: Option<(u64, usize)> = None;
        for at in 0..self.conns.capacity() {
            if let Some(conn) = self.conns.get(at) {
                longest = conn.lingers_longer(longest, at);
            }
        }
        Some(longest?.1)
    }

    /// No connection is taken for a while.
    fn stick(&mut self, desk: &mut Desk, now: u64)
        ensures same { SameSeating self.old self.new }
        ensures pause { self.new.accept_at ≡ min (now + 1000) (2 ^ 64 - 1) }
        ensures notes { (self.old.has_more ≡ true → self.new.has_more ≡ true)
            × (self.old.is_waited ≡ true → self.new.is_waited ≡ true) }
    {
        self.accept_at = now.saturating_add(ACCEPT_PAUSE);
        if !self.is_stuck {
            desk.reports.add(Report::NoAccept);
        }
        self.is_stuck = true;
    }

    fn accept_one<S: Sockets>(&mut self, desk: &mut Desk, sockets: &mut S) -> Result<(), Stop>
        ensures serving { StillServesAll self.old self.new
            (S.socket sockets.old) (S.socket sockets.new) }
        // one is asked for, unless memory for it ran out
        ensures asks { result ≢ Err Stop.Failed
            → CalledOnce (S.asked sockets.old) (S.asked sockets.new) }
        // where a seat is free, who came has it
        ensures seated { IsOk result → HasFreeSeat self.old.hub
            → HasNewKey self.old.conns self.new.conns }
        ensures time { desk.new.time ≡ desk.old.time }
        ensures notes { StaysNoted self.old self.new }
    {
        if self.conns.reserve(1).is_err() {
            return Err(Stop::Failed);
        }
        let at = self.conns.vacant_key();
        let peer = sockets.accept(at)?;
        self.make_seat();
        let conn = self.greet(desk, sockets, at, peer);
        let _at = self.conns.insert_reserved(conn);
        self.totals.open(self.conns.len());
        self.dismiss(desk, sockets, at);
        Ok(())
    }

    /// Where there are as many screens as there may be, the one that sent its end first gives its
    /// seat to who comes: mostly it went away. Its socket is closed by the next `sweep`.
    fn make_seat(&mut self)
        ensures serving { StillStand self.old self.new }
        ensures stays { HasFreeSeat self.old.hub → self.new.hub ≡ self.old.hub }
        // whoever has not sent its end keeps its seat
        ensures seats { (key : Key) → ¬ (HasSentEnd self.old.conns key)
            → seat_at self.new.hub.seats.slab key ≡ seat_at self.old.hub.seats.slab key }
        ensures conns { self.new.conns ≡ self.old.conns }
        ensures notes { StaysNoted self.old self.new }
    {
        if !self.hub.is_full() {
            return;
        }
        if let Some(key) = self.first_ended() {
            self.hub.leave(key);
        }
    }

    /// The key of the screen that sent its end first, of those that have a seat.
    fn first_ended(&self) -> Option<Key>
        ensures { IfSome result (HasSentEnd self.now.conns) }
    {
        let mut first: Option<(u64, Key)> = None;
        for at in 0..self.conns.capacity() {
            if let Some(conn) = self.conns.get(at) {
                let is_seated = conn.key.is_some_and(|key| self.hub.has(key));
                if is_seated {
                    first = conn.ended_before(first);
                }
            }
        }
        Some(first?.1)
    }

    /// A connection that came just now gets a seat, or is refused.
    fn greet<S: Sockets>(
        &mut self,
        desk: &mut Desk,
        sockets: &mut S,
        at: usize,
        peer: SocketAddr,
    ) -> Conn
        ensures asks { S.asked sockets.new ≡ S.asked sockets.old }
        ensures tries { NotCalled (S.tried sockets.old) (S.tried sockets.new) }
        ensures greeted { (nodes : List NodeState) (contest : List ℕ)
            → IsSocket (S.socket sockets.old at) (opened [] [])
            → IsGreeted nodes contest self.old.hub self.new.hub result.key
            (S.socket sockets.new at) }
        ensures former { former_of (S.socket sockets.new at) ≡ former_of (S.socket sockets.old at) }
        ensures conns { self.new.conns ≡ self.old.conns }
        ensures seated { HasFreeSeat self.old.hub → IsSome result.key }
        // its request has time to come
        ensures until { IfSome result.key (IsNew self.old.hub self.new.hub
            (comes_until self.old desk.old.time)) }
        ensures others { OtherSockets (S.socket sockets.old) (S.socket sockets.new) at }
        ensures time { desk.new.time ≡ desk.old.time }
        ensures notes { StaysNoted self.old self.new }
    {
        self.counts.came = self.counts.came.saturating_add(1);
        let mut conn = Conn::new(peer, desk.time);
        let until = desk
            .time
            .saturating_add(REQUEST_TIME)
            .saturating_add(self.held);
        match self.hub.open(desk.alloc, until) {
            Ok(key) => conn.key = Some(key),
            Err(_) => {
                self.refuse(desk, sockets, at, Lack::Seat);
                conn.status = 503;
                conn.linger(desk.time);
            }
        }
        conn
    }

    /// One more than there may be is answered so.
    fn refuse<S: Sockets>(&mut self, desk: &mut Desk, sockets: &mut S, at: usize, lack: Lack)
        ensures asks { S.asked sockets.new ≡ S.asked sockets.old }
        ensures tries { NotCalled (S.tried sockets.old) (S.tried sockets.new) }
        ensures sent { (nodes : List NodeState) (contest came : List ℕ)
            → IsSocket (S.socket sockets.old at) (opened came [])
            → IsSent nodes contest (S.socket sockets.new at) }
        ensures former { former_of (S.socket sockets.new at) ≡ former_of (S.socket sockets.old at) }
        ensures others { OtherSockets (S.socket sockets.old) (S.socket sockets.new) at }
        ensures hub { self.new.hub ≡ self.old.hub }
        ensures conns { self.new.conns ≡ self.old.conns }
        ensures time { desk.new.time ≡ desk.old.time }
        ensures pauses { self.new.accept_at ≡ self.old.accept_at }
        ensures notes { StaysNoted self.old self.new }
    {
        let _ = sockets.write(at, FULL);
        sockets.shut(at);
        self.totals.answer(503);
        self.report_lack(desk, lack);
    }

    /// Reports what one more lacks, once in a minute.
    pub(crate) fn report_lack(&mut self, desk: &mut Desk, lack: Lack)
        ensures exact { self.new ≡ record self.old {
          is_full = self.new.is_full;
          is_crowded = self.new.is_crowded;
        } }
        ensures time { desk.new.time ≡ desk.old.time }
    {
        match lack {
            Lack::Seat if !self.is_full => {
                self.is_full = true;
                desk.reports.add(Report::Full);
            }
            Lack::Room if !self.is_crowded => {
                self.is_crowded = true;
                desk.reports.add(Report::NoRoom);
            }
            _ => {}
        }
    }

    /// A request for which there is no room is answered that there are too many. Those who take
    /// their texts too slowly are cut, so that who comes next finds room.
    pub(crate) fn turn_away<S: Sockets>(&mut self, desk: &mut Desk, sockets: &mut S, at: usize)
        ensures serving { (nodes : List NodeState) (contest unheard : List ℕ)
            → StillServingWith nodes contest at unheard self.old self.new
            (S.socket sockets.old) (S.socket sockets.new) }
        ensures asks { S.asked sockets.new ≡ S.asked sockets.old }
        ensures tries { NotCalled (S.tried sockets.old) (S.tried sockets.new) }
        ensures pauses { self.new.accept_at ≡ self.old.accept_at }
        ensures input { AllKeepInput self.old.conns self.new.conns }
        ensures time { desk.new.time ≡ desk.old.time }
        ensures notes { StaysNoted self.old self.new }
    {
        self.refuse_at(desk, sockets, at);
        self.cut_slow(desk, sockets);
    }

    /// The connection at a place, whose request comes, is answered that there are too many.
    pub(crate) fn refuse_at<S: Sockets>(&mut self, desk: &mut Desk, sockets: &mut S, at: usize)
        ensures serving { (nodes : List NodeState) (contest unheard : List ℕ)
            → StillServingWith nodes contest at unheard self.old self.new
            (S.socket sockets.old) (S.socket sockets.new) }
        // nobody else is
        ensures refuses { RefusesAt self.old self.new at }
        // its request comes no more, and no other one begins
        ensures goes { ¬ (IsAskingAt self.new at) }
        ensures asking { (key : Key) → IsAskingSeat (seat_at self.new.hub.seats.slab key)
            → IsAskingSeat (seat_at self.old.hub.seats.slab key) }
        ensures time { desk.new.time ≡ desk.old.time }
        ensures asks { S.asked sockets.new ≡ S.asked sockets.old }
        ensures tries { NotCalled (S.tried sockets.old) (S.tried sockets.new) }
        ensures pauses { self.new.accept_at ≡ self.old.accept_at }
        ensures input { KeepsInput (get self.old.conns at) (get self.new.conns at) }
        ensures notes { StaysNoted self.old self.new }
    {
        let Some(key) = self.asking(at) else {
            return;
        };
        self.hub.leave(key);
        self.refuse(desk, sockets, at, Lack::Room);
        self.linger(at, desk.time);
    }

    /// Cuts those who take their texts too slowly.
    pub(crate) fn cut_slow<S: Sockets>(&mut self, desk: &mut Desk, sockets: &mut S)
        ensures serving { StillServesAll self.old self.new
            (S.socket sockets.old) (S.socket sockets.new) }
        // whoever doesn't stays
        ensures stays { (at : ℕ) → ¬ (IsSlow (get self.old.conns at) desk.old.time)
            → get self.new.conns at ≡ get self.old.conns at }
        // and of those who do nobody
        ensures goes { (at : ℕ) → ¬ (HoldsUp self.new at desk.old.time) }
        ensures time { desk.new.time ≡ desk.old.time }
        ensures asks { S.asked sockets.new ≡ S.asked sockets.old }
        ensures tries { NotCalled (S.tried sockets.old) (S.tried sockets.new) }
        ensures pauses { self.new.accept_at ≡ self.old.accept_at }
        ensures places { (at : ℕ) → (get self.new.conns at ≡ get self.old.conns at)
            ⊎ (get self.new.conns at ≡ None) }
        ensures notes { StaysNoted self.old self.new }
    {
        for at in 0..self.conns.capacity() {
            if self.is_slow(at, desk.time) {
                self.end(desk, sockets, at, How::Cut);
            }
        }
    }

    /// Closes a connection that was refused just now, where its request has come whole: nothing
    /// more comes then, so that it loses nothing of its answer. Else it lingers.
    fn dismiss<S: Sockets>(&mut self, desk: &mut Desk, sockets: &mut S, at: usize)
        ensures serving { StillServesAll self.old self.new
            (S.socket sockets.old) (S.socket sockets.new) }
        ensures asks { S.asked sockets.new ≡ S.asked sockets.old }
        // who has a key stays
        ensures stays { (key : Key) → key_at self.old.conns at ≡ Some (Some key)
            → self.new ≡ self.old }
        ensures time { desk.new.time ≡ desk.old.time }
        ensures notes { StaysNoted self.old self.new }
    {
        if !self.lingers(at) {
            return;
        }
        let mut buf = [0u8; PIECE];
        let read = sockets.read(at, &mut buf);
        if has_come(&buf, read) {
            self.end(desk, sockets, at, How::Done);
        }
    }

    /// Whether nothing more is sent to the connection at a place.
    fn lingers(&self, at: usize) -> bool
        ensures { IsTrue result → key_at self.now.conns at ≡ Some None }
    {
        match self.conns.get(at) {
            Some(conn) => conn.key.is_none() && matches!(conn.phase, Phase::Lingers { .. }),
            None => false,
        }
    }
}

/// Whether what was read of a connection ends as a head does, or nothing more comes of it.
fn has_come(buf: &[u8], read: Result<usize, Stop>) -> bool {
    match read {
        Ok(0) => true,
        Ok(count) => buf.get(..count).unwrap_or(&[]).ends_with(b"\r\n\r\n"),
        Err(Stop::Waits) => false,
        Err(_) => true,
    }
}
