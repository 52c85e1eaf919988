//! One screen's connection, as the turn keeps it beside its socket.

ghost use Rattle.std.specs.Prelude.{◌≡◌, ◌⊎◌, ◌↔◌, ◌+◌, ◌-◌, ◌^◌, ℕ, min, None, Some, IsTrue, IfSome};
ghost use Rattle.feed_screens.specs.Held.{HasLingered, KeepsInput, woken};
ghost use Rattle.feed_screens.specs.Seating.{connected, input_ended, SentEndWithKey, Lingers, lingers_from, lingers_less, HasReadAll};
ghost use Rattle.feed_screens.specs.Waiting.{HasWaited, TakesSlowly, WantsAnswer, WaitsSince, IsFoundBy, waiting_for, wanted_commit};

use crate::times::{LINGER, PATIENCE, ROOM_TIME, SHARE_TIME};
use feed_hub::Key;
use std::net::SocketAddr;

/// How much of what still comes is read after the last byte was sent, in bytes.
const LINGER_BYTES: usize = 65_536;

/// How far a connection has come.
#[derive(Clone, Copy, PartialEq, Eq)]
pub(crate) enum Phase {
    /// Its request comes.
    Asks,
    /// It is sent its answer, and what follows.
    Watches,
    /// All was sent: until then, and for so many bytes, what comes is read and forgotten.
    Lingers { until: u64, left: usize },
}

/// What a connection wants for which there was no room.
#[derive(Clone, Copy, PartialEq, Eq)]
pub(crate) enum Wanted {
    /// The answer to its request, which came whole.
    Answer,
    /// A commit of so many bytes: so many long ones had been made until then.
    Commit { length: usize, made: u64 },
}

/// That a connection waits for room: since when, and for what.
#[derive(Clone, Copy)]
pub(crate) struct Wait {
    /// When it began to wait, in milliseconds.
    pub(crate) since: u64,
    /// What it has no room for.
    pub(crate) wanted: Wanted,
}

/// A connection. Its socket is at the same place.
#[derive(Clone, Copy)]
pub(crate) struct Conn {
    /// Its key in the hub; none where it has no seat there, or no longer.
    pub(crate) key: Option<Key>,
    /// How far it has come.
    pub(crate) phase: Phase,
    /// The last write would have waited, or took a part alone.
    pub(crate) is_blocked: bool,
    /// There may be more to read, for which no event comes.
    pub(crate) has_input: bool,
    /// There may be more to write, for which no event comes.
    pub(crate) has_more: bool,
    /// How many bytes the text has that it has yet to take; zero where there is none.
    pub(crate) owes: usize,
    /// Since when it has that text to take, in milliseconds.
    pub(crate) owed_since: u64,
    /// How many bytes it took since then.
    pub(crate) took: u64,
    /// What it waits for; none where there is room for it.
    pub(crate) wait: Option<Wait>,
    /// When a screen sent its end, in milliseconds: mostly it went away.
    pub(crate) ended: Option<u64>,
    /// Who connected.
    pub(crate) peer: SocketAddr,
    /// When it was taken, in milliseconds.
    pub(crate) since: u64,
    /// The status of its answer; zero until it has one.
    pub(crate) status: u16,
    /// How many bytes it took in all.
    pub(crate) bytes: u64,
}

impl Conn {
    /// A connection that came just now.
    pub(crate) fn new(peer: SocketAddr, now: u64) -> Conn
        ensures { result ≡ connected peer now }
    {
        Conn {
            key: None,
            phase: Phase::Asks,
            is_blocked: false,
            has_input: false,
            has_more: false,
            owes: 0,
            owed_since: 0,
            took: 0,
            wait: None,
            ended: None,
            peer,
            since: now,
            status: 0,
            bytes: 0,
        }
    }

    /// Its socket became ready.
    pub(crate) fn wake(&mut self, is_readable: bool, is_writable: bool)
        ensures { self.new ≡ woken is_readable is_writable self.old }
    {
        if is_readable {
            self.has_input = true;
        }
        if is_writable {
            self.is_blocked = false;
        }
    }

    /// Whether it takes the text that it has yet to take so slowly that it would need more than
    /// `SHARE_TIME` for all of it.
    pub(crate) fn is_slow(&self, now: u64) -> bool
        ensures { IsTrue result ↔ TakesSlowly self.now now }
    {
        let time = now.saturating_sub(self.owed_since);
        let share = (self.owes as u64).saturating_mul(time);
        time >= PATIENCE && self.took.saturating_mul(SHARE_TIME) < share
    }

    /// It has yet to take a text of so many bytes, from now on.
    pub(crate) fn owe(&mut self, length: usize, now: u64)
        ensures { self.new ≡ record self.old { owes = length; owed_since = now; took = 0 } }
    {
        self.owes = length;
        self.owed_since = now;
        self.took = 0;
    }

    /// It took all of its text.
    pub(crate) fn pay(&mut self)
        ensures { self.new ≡ record self.old { owes = 0 } }
    {
        self.owes = 0;
    }

    /// It took so many bytes.
    pub(crate) fn take(&mut self, count: usize)
        ensures { self.new ≡ record self.old {
          bytes = min (self.old.bytes + count) u64.MAX;
          took = min (self.old.took + count) u64.MAX;
        } }
    {
        self.bytes = self.bytes.saturating_add(count as u64);
        self.took = self.took.saturating_add(count as u64);
    }

    /// It waits for this from now on, or for as long as it has waited.
    pub(crate) fn wait_for(&mut self, wanted: Wanted, now: u64)
        ensures { self.new ≡ waiting_for wanted now self.old }
    {
        let since = match self.wait {
            Some(wait) => wait.since,
            None => now,
        };
        self.wait = Some(Wait { since, wanted });
    }

    /// Whether its request waits for room.
    pub(crate) fn wants_answer(&self) -> bool
        ensures { IsTrue result ↔ WantsAnswer self.now.wait }
    {
        matches!(
            self.wait,
            Some(Wait {
                wanted: Wanted::Answer,
                ..
            })
        )
    }

    /// For a commit of how many bytes it waits, and how many had been made until then.
    pub(crate) fn wants_commit(&self) -> Option<(usize, u64)>
        ensures { result ≡ wanted_commit self.now.wait }
    {
        match self.wait?.wanted {
            Wanted::Commit { length, made } => Some((length, made)),
            Wanted::Answer => None,
        }
    }

    /// Whether its request has waited for room for long enough.
    pub(crate) fn is_overdue(&self, now: u64) -> bool
        ensures { IsTrue result ↔ HasWaited self.now.wait now }
    {
        match self.wait {
            Some(wait) => {
                wait.wanted == Wanted::Answer && wait.since.saturating_add(ROOM_TIME) <= now
            }
            None => false,
        }
    }

    /// The one of two connections that has waited for longer for room, and since when: that at
    /// another place, and this one, unless its socket takes nothing now.
    pub(crate) fn waits_longer(
        &self,
        other: Option<(u64, usize)>,
        at: usize,
    ) -> Option<(u64, usize)>
        ensures one { (result ≡ other)
            ⊎ IfSome result (λ found. (found.1 ≡ at) × WaitsSince (Some self.now) found.0) }
        ensures here { (since : ℕ) → WaitsSince (Some self.now) since → IsFoundBy result since }
        ensures there { (since : ℕ) → IsFoundBy other since → IsFoundBy result since }
    {
        let Some(wait) = self.wait else {
            return other;
        };
        match other {
            Some((earlier, _)) if earlier <= wait.since => other,
            _ if self.is_blocked => other,
            _ => Some((wait.since, at)),
        }
    }

    /// The peer sends no more.
    pub(crate) fn end_input(&mut self, now: u64)
        ensures key { self.new.key ≡ self.old.key }
        ensures phase { self.new.phase ≡ self.old.phase }
        ensures exact { self.new ≡ input_ended now self.old }
    {
        if self.phase == Phase::Watches || self.wait.is_some() {
            self.ended = Some(now);
        }
    }

    /// All was sent; one that had no answer was refused.
    pub(crate) fn linger(&mut self, now: u64)
        ensures key { self.new.key ≡ None }
        ensures phase { self.new.phase ≡ lingers_from now }
        ensures input { KeepsInput (Some self.old) (Some self.new) }
    {
        self.key = None;
        self.has_more = false;
        self.wait = None;
        if self.status == 0 {
            self.status = 503;
        }
        self.phase = Phase::Lingers {
            until: now.saturating_add(LINGER),
            left: LINGER_BYTES,
        };
    }

    /// So many bytes were read and forgotten. Whether the connection is to be closed.
    pub(crate) fn forget(&mut self, count: usize) -> bool
        ensures key { self.new.key ≡ self.old.key }
        ensures phase { self.new.phase ≡ lingers_less count self.old.phase }
        ensures enough { IsTrue result ↔ HasReadAll count self.old.phase }
        ensures input { KeepsInput (Some self.old) (Some self.new) }
    {
        let Phase::Lingers { until, left } = self.phase else {
            return false;
        };
        self.phase = Phase::Lingers {
            until,
            left: left.saturating_sub(count),
        };
        left <= count
    }

    /// Whether it has lingered for long enough.
    pub(crate) fn is_past(&self, now: u64) -> bool
        ensures { IsTrue result ↔ HasLingered self.now.phase now }
    {
        match self.phase {
            Phase::Lingers { until, .. } => until <= now,
            Phase::Asks => false,
            Phase::Watches => false,
        }
    }

    /// The one of two places at which a connection has lingered for longer, and until when: that of
    /// another one, and its own.
    pub(crate) fn lingers_longer(
        &self,
        other: Option<(u64, usize)>,
        at: usize,
    ) -> Option<(u64, usize)>
        ensures { (result ≡ other)
            ⊎ IfSome result (λ found. (found.1 ≡ at) × Lingers self.now.phase) }
    {
        let Phase::Lingers { until, .. } = self.phase else {
            return other;
        };
        match other {
            Some((earlier, _)) if earlier <= until => other,
            _ => Some((until, at)),
        }
    }

    /// The one of two screens that sent its end first, and when: another one, and this one.
    pub(crate) fn ended_before(&self, other: Option<(u64, Key)>) -> Option<(u64, Key)>
        ensures { (result ≡ other)
            ⊎ IfSome result (λ found. SentEndWithKey (Some self.now) found.1) }
    {
        let (Some(ended), Some(key)) = (self.ended, self.key) else {
            return other;
        };
        match other {
            Some((earlier, _)) if earlier <= ended => other,
            _ => Some((ended, key)),
        }
    }
}
