//! The screens: each has a socket, a connection at the same place, and a seat in the hub.

ghost use Rattle.std.specs.Prelude.{◌≡◌, ◌⊎◌, ◌==◌, ◌↔◌, true, ◌≢◌, ◌+◌, ◌-◌, ℕ, List, None, Some, min, false, IsTrue};
ghost use Rattle.slab.specs.Slab.{get, slab_len};
ghost use Rattle.feed_node.specs.States.{NodeState};
ghost use Rattle.feed_hub.specs.Seats.{seat_at};
ghost use Rattle.feed_device.specs.Calls.{NotCalled};
ghost use Rattle.feed_device.specs.Sockets.{AllSockets, IsSocket, IsUnused, closed};
ghost use Rattle.feed_screens.specs.Pending.{AreConnected, owed_text_at};

mod asking;
mod coming;
mod pending;
mod sending;
mod waiting;

use crate::conn::Conn;
use crate::counts::Counts;
use crate::figures::ScreenTotals;
use crate::limits::ScreenLimits;
use crate::saying::Saying;
use crate::screens::pending::Pending;
pub(crate) use crate::screens::pending::TextId;
use crate::screens::sending::leave;
use feed_device::{Desk, How, Report, Sockets};
use feed_hub::{Answering, Hub, Key};
use slab::Slab;
use std::alloc::Global;
use std::mem;
use std::net::SocketAddr;

/// How many bytes one read takes.
pub(crate) const PIECE: usize = 4096;

/// What is sent where there are as many screens as there may be.
pub(crate) const FULL: &[u8] = b"HTTP/1.1 503 Service Unavailable\r\n\
Content-Type: application/json\r\nContent-Length: 41\r\nConnection: close\r\n\r\n\
{\"code\":503,\"message\":\"too many screens\"}";

/// What one more lacks.
#[derive(Clone, Copy)]
pub(crate) enum Lack {
    /// There are as many screens as there may be.
    Seat,
    /// Screens have yet to take as many bytes of long texts as they may.
    Room,
}

/// A connection that has a key: its place, and its key in the hub.
#[derive(Clone, Copy)]
pub(crate) struct Keyed {
    /// Its place, which is its socket's number, too.
    pub(crate) at: usize,
    /// What its seat in the hub has.
    pub(crate) key: Key,
}

/// What came of bytes of a request.
#[derive(Clone, Copy)]
pub(crate) enum Hearing {
    /// They were heard, or wait for room.
    Goes,
    /// There is no room for the text that it asks for, and it can't wait.
    TooMuch,
    /// They are none of a request, and the connection has lingered for long enough.
    Done,
}

/// What requests are answered with, and what those who were answered are sent.
#[derive(Drop)]
pub struct Answers {
    /// What the relay shows.
    pub shown: Answering,
    /// A mirror that has published nothing.
    pub blank: Answering,
}

/// What is asked for, and whether that can be answered.
#[derive(Clone, Copy)]
pub struct Shown<'a> {
    /// Whether requests wait, since no server was heard yet.
    pub is_held: bool,
    /// For how many milliseconds they do so at most.
    pub hold: u64,
    /// The contest whose feed is served.
    pub contest: &'a str,
}

impl Shown<'_> {
    ghost use Rattle.feed_screens.specs.Held.{is_over};

    /// Whether a request is answered that came at a time.
    fn is_answering(&self, since: u64, now: u64) -> bool
        ensures { result ≡ is_over self.now.is_held (min (since + self.now.hold) u64.MAX) now }
    {
        !self.is_held || since.saturating_add(self.hold) <= now
    }
}

/// The screens of a relay.
#[derive(Drop)]
pub struct Screens {
    /// What each of them is sent next.
    pub(crate) hub: Hub,
    /// Each connection at its place.
    pub(crate) conns: Slab<Conn>,
    /// What the screens may take.
    pub(crate) limits: ScreenLimits,
    /// What was said to all, and what is still to be said.
    pub(crate) saying: Saying,
    /// What came and went since that was reported last.
    pub(crate) counts: Counts,
    /// What was counted since the start.
    pub(crate) totals: ScreenTotals,
    /// The long texts that screens have yet to take.
    pub(crate) pending: Pending,
    /// How many bytes were made in this turn for those who catch up.
    pub(crate) made: usize,
    /// Some connection has more to read or to write, for which no event comes.
    pub(crate) has_more: bool,
    /// Somebody may wait for room: where not, nobody does.
    pub(crate) is_waited: bool,
    /// For how long requests may have to wait until a server is heard, in milliseconds.
    pub(crate) held: u64,
    /// Somebody waits to be taken.
    pub(crate) is_waited_for: bool,
    /// Before this time nobody is taken, in milliseconds; zero where that did not fail.
    pub(crate) accept_at: u64,
    /// It was reported in this minute that there are as many as there may be.
    pub(crate) is_full: bool,
    /// It was reported in this minute that there is no room for a text.
    pub(crate) is_crowded: bool,
    /// It was reported in this minute that nobody can be taken.
    pub(crate) is_stuck: bool,
    // where there is no connection, nothing is pending
    ghost connected: { AreConnected pending.places.items conns },
}

impl Screens {
    ghost use Rattle.feed_screens.specs.Serving.{ServesScreens, StillServesAll, StillStand, SameSeating};
    ghost use Rattle.feed_screens.specs.Held.{IsPast};
    ghost use Rattle.feed_screens.specs.Waiting.{StaysNoted};
    ghost use Rattle.feed_screens.specs.Serving.{HasNoSeat, key_at};

    pub fn new(alloc: Global, limits: ScreenLimits) -> Screens
        ensures serving { (nodes : List NodeState) (contest : List ℕ) (sockets : AllSockets)
            → ((at : ℕ) → IsUnused (sockets at))
            → ServesScreens nodes contest result.hub result.conns sockets }
        ensures most { result.hub.most ≡ limits.most }
        ensures window { result.hub.window ≡ limits.window }
        ensures limits { result.limits ≡ limits }
        ensures accepts { result.accept_at ≡ 0 }
    {
        Screens {
            hub: Hub::new(alloc, limits.framing, limits.window, limits.most),
            conns: Slab::new(alloc),
            limits,
            saying: Saying::new(),
            counts: Counts::none(),
            totals: ScreenTotals::none(),
            pending: Pending::new(alloc),
            made: 0,
            has_more: false,
            is_waited: false,
            held: 0,
            is_waited_for: false,
            accept_at: 0,
            is_full: false,
            is_crowded: false,
            is_stuck: false,
        }
    }

    /// How many there are.
    pub fn open(&self) -> usize
        ensures { result ≡ slab_len self.now.conns }
    {
        self.conns.len()
    }

    /// Whether there is none.
    pub fn are_none(&self) -> bool
        ensures { result ≡ (slab_len self.now.conns == 0) }
    {
        self.conns.is_empty()
    }

    /// Those who may have more to read or to write are looked at in the next turn.
    pub fn look_again(&mut self)
        ensures exact { self.new ≡ record self.old { has_more = true } }
        ensures serving { StillStand self.old self.new }
    {
        self.has_more = true;
    }

    /// Somebody waits to be taken.
    pub fn wait_for_one(&mut self)
        ensures exact { self.new ≡ record self.old { is_waited_for = true } }
        ensures serving { StillStand self.old self.new }
    {
        self.is_waited_for = true;
    }

    /// The connection at a place is over: its seat, its socket and its place are given back.
    pub(crate) fn end<S: Sockets>(&mut self, desk: &mut Desk, sockets: &mut S, at: usize, how: How)
        ensures serving { StillServesAll self.old self.new
            (S.socket sockets.old) (S.socket sockets.new) }
        // its number is free then, and its socket closed
        ensures free { key_at self.new.conns at ≡ None }
        ensures closed { IsSocket (S.socket sockets.new at) closed }
        ensures offers { NotCalled (S.offered sockets.old) (S.offered sockets.new) }
        ensures asks { S.asked sockets.new ≡ S.asked sockets.old }
        ensures tries { NotCalled (S.tried sockets.old) (S.tried sockets.new) }
        // its seat is free, and the others stay
        ensures seat { (key : Key) → key_at self.old.conns at ≡ Some (Some key)
            → seat_at self.new.hub.seats.slab key ≡ None }
        ensures seats { (key : Key) → key_at self.old.conns at ≢ Some (Some key)
            → seat_at self.new.hub.seats.slab key ≡ seat_at self.old.hub.seats.slab key }
        ensures others { (other : ℕ) → other ≢ at
            → get self.new.conns other ≡ get self.old.conns other }
        ensures owed { (other : ℕ) → other ≢ at
            → owed_text_at self.new.pending.places.items other
            ≡ owed_text_at self.old.pending.places.items other }
        ensures log { self.new.hub.broadcast ≡ self.old.hub.broadcast }
        ensures time { desk.new.time ≡ desk.old.time }
        ensures pauses { self.new.accept_at ≡ self.old.accept_at }
        ensures notes { StaysNoted self.old self.new }
    {
        sockets.close(at);
        self.pay(at);
        let Some(conn) = self.conns.try_remove(at) else {
            return;
        };
        leave(&mut self.hub, conn.key);
        self.count(how);
        if self.limits.is_verbose {
            desk.reports.add(Report::Screen {
                peer: conn.peer,
                how,
                status: conn.status,
                bytes: conn.bytes,
                time: desk.time.saturating_sub(conn.since),
            });
        }
    }

    fn count(&mut self, how: How)
        ensures same { SameSeating self.old self.new }
        ensures conns { self.new.conns ≡ self.old.conns }
        ensures pending { self.new.pending ≡ self.old.pending }
        ensures pauses { self.new.accept_at ≡ self.old.accept_at }
        ensures notes { StaysNoted self.old self.new }
    {
        match how {
            How::Cut => {
                self.counts.cut = self.counts.cut.saturating_add(1);
                self.totals.cut();
            }
            _ => self.counts.ended = self.counts.ended.saturating_add(1),
        }
    }

    /// Whether the hub cut the connection at a place.
    fn is_cut(&self, at: usize) -> bool
        ensures { IsTrue result ↔ HasNoSeat self.now.hub (get self.now.conns at) }
    {
        match self.conns.get(at) {
            Some(conn) => match conn.key {
                Some(key) => !self.hub.has(key),
                None => false,
            },
            None => false,
        }
    }

    /// How a connection ended that has lost its seat: one that had sent its end left before.
    fn how_cut(&self, at: usize) -> How {
        match self.conns.get(at) {
            Some(conn) if conn.ended.is_some() => How::Left,
            _ => How::Cut,
        }
    }

    /// Closes the sockets of those that the hub cut. To be called before a seat is given again.
    pub fn sweep<S: Sockets>(&mut self, desk: &mut Desk, sockets: &mut S)
        ensures serving { StillServesAll self.old self.new
            (S.socket sockets.old) (S.socket sockets.new) }
        ensures asks { S.asked sockets.new ≡ S.asked sockets.old }
        ensures tries { NotCalled (S.tried sockets.old) (S.tried sockets.new) }
        // whom the hub didn't cut stays
        ensures stays { (at : ℕ) → ¬ (HasNoSeat self.old.hub (get self.old.conns at))
            → get self.new.conns at ≡ get self.old.conns at }
        // and of those whom it cut nobody
        ensures goes { (at : ℕ) → ¬ (HasNoSeat self.new.hub (get self.new.conns at)) }
        // who stays has its seat, and nothing is written
        ensures places { (at : ℕ) → (get self.new.conns at ≡ get self.old.conns at)
            ⊎ (get self.new.conns at ≡ None) }
        ensures seats { (key : Key)
            → seat_at self.new.hub.seats.slab key ≡ seat_at self.old.hub.seats.slab key }
        ensures log { self.new.hub.broadcast ≡ self.old.hub.broadcast }
        ensures offers { NotCalled (S.offered sockets.old) (S.offered sockets.new) }
        ensures time { desk.new.time ≡ desk.old.time }
        ensures pauses { self.new.accept_at ≡ self.old.accept_at }
        ensures notes { StaysNoted self.old self.new }
    {
        for at in 0..self.conns.capacity() {
            if self.is_cut(at) {
                let how = self.how_cut(at);
                self.end(desk, sockets, at, how);
            }
        }
    }

    fn is_past(&self, at: usize, now: u64) -> bool
        ensures { IsTrue result ↔ IsPast (get self.now.conns at) now }
    {
        match self.conns.get(at) {
            Some(conn) => conn.is_past(now),
            None => false,
        }
    }

    /// Closes who has lingered for long enough.
    pub fn close_past<S: Sockets>(&mut self, desk: &mut Desk, sockets: &mut S)
        ensures serving { StillServesAll self.old self.new
            (S.socket sockets.old) (S.socket sockets.new) }
        // whoever has not stays
        ensures stays { (at : ℕ) → ¬ (IsPast (get self.old.conns at) desk.old.time)
            → get self.new.conns at ≡ get self.old.conns at }
        // and of those who have nobody
        ensures goes { (at : ℕ) → ¬ (IsPast (get self.new.conns at) desk.old.time) }
        ensures asks { S.asked sockets.new ≡ S.asked sockets.old }
        ensures tries { NotCalled (S.tried sockets.old) (S.tried sockets.new) }
        ensures pauses { self.new.accept_at ≡ self.old.accept_at }
        ensures notes { StaysNoted self.old self.new }
    {
        for at in 0..self.conns.capacity() {
            if self.is_past(at, desk.time) {
                self.end(desk, sockets, at, How::Done);
            }
        }
    }
}
