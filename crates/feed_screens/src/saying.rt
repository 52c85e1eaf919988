//! What the node has more is said to all screens.

ghost use Rattle.std.specs.Prelude.{◌≡◌, ℕ, [], false, ◌≢◌, ◌⊎◌, ◌↔◌, ◌<◌, ◌≤◌, ◌-◌, ◌^◌, min, None, IfSome, IsTrue, true, if◌then◌else◌};
ghost use Rattle.slab.specs.Slab.{get, slab_len};
ghost use Rattle.feed_node.specs.States.{published_token};
ghost use Rattle.feed_hub.specs.Backlog.{end_of, oldest_in};
ghost use Rattle.feed_hub.specs.Broadcast.{SaysCommit};
ghost use Rattle.feed_hub.specs.Hub.{may_lack, prefix_at};
ghost use Rattle.feed_hub.specs.Seats.{KeepsThose, IsOnTime, IsSeatNotBehind};
ghost use Rattle.feed_device.specs.Calls.{CalledOnce, NotCalled};
ghost use Rattle.feed_screens.specs.Serving.{StillServesFrom, StillServes, StillStand, SameSeating};
ghost use Rattle.feed_screens.specs.Serving.{AllEnd, HasToWait, IsAlone, IsWritable, MakesDue, SaysAll, WaitsBriefly, idles_at};
ghost use Rattle.feed_screens.specs.Waiting.{SameToDo, StaysNoted, AreReady, MaySay};
ghost use Rattle.feed_screens.specs.Counting.{none_counted, IsReportOf};

use crate::counts::Counts;
use crate::screens::Screens;
use crate::times::{MEMORY_PAUSE, SAY_PAUSE, STALL};
use feed_device::{Desk, Report, Sockets};
use feed_hub::{Key, Said};
use feed_node::{Node, Pulled};

/// What was said, and what is still to be done for it.
#[derive(Clone, Copy)]
pub(crate) struct Saying {
    /// The log was trimmed in this turn.
    is_trimmed: bool,
    /// Something was said, or all were ended, and nobody was written to since. An end adds nothing
    /// to the log.
    is_due: bool,
    /// There is more to say, at this time.
    waits: Option<u64>,
    /// It waits since memory ran out, and not for sockets.
    is_short: bool,
    /// Something was said last.
    spoke: u64,
}

impl Saying {
    pub(crate) fn new() -> Saying {
        Saying {
            is_trimmed: false,
            is_due: false,
            waits: None,
            is_short: false,
            spoke: 0,
        }
    }
}

impl Screens {
    /// A turn begins. Whether somebody had more to read or to write in the last one.
    pub fn begin_turn(&mut self, held: u64) -> bool
        ensures more { result ≡ self.old.has_more }
        ensures seating { SameSeating self.old self.new }
        ensures exact { self.new ≡ record self.old {
          held = held;
          saying = record self.old.saying { is_trimmed = false };
          made = 0;
          has_more = false;
        } }
    {
        self.held = held;
        self.saying.is_trimmed = false;
        self.made = 0;
        let had_more = self.has_more;
        self.has_more = false;
        had_more
    }

    /// Whether what had to wait can be said now: the time has come, or all took what was said.
    /// After memory ran out only the time counts, or the same would be tried again and again.
    pub fn says_now(&self, now: u64) -> bool
        ensures now { IfSome self.now.saying.waits (λ at. at ≤ now → result ≡ true) }
        // and not before, unless all took what was said
        ensures waits { result ≡ true → MaySay self.now now }
    {
        match self.saying.waits {
            Some(at) => at <= now || (!self.saying.is_short && !self.is_any_blocked()),
            None => false,
        }
    }

    fn is_any_blocked(&self) -> bool
        ensures { result ≡ false → AreReady self.now.conns }
    {
        for at in 0..self.conns.capacity() {
            if self.conns.get(at).is_some_and(|conn| conn.is_blocked) {
                return true;
            }
        }
        false
    }

    /// When there is something to do for which no event comes.
    pub fn due(&self, now: u64) -> u64
        ensures more { self.now.has_more ≡ true → result ≡ now }
        ensures says { IfSome self.now.saying.waits (λ at. now ≤ at → result ≤ at) }
        // with neither, only whoever waits to be taken wakes it
        ensures rest { self.now.has_more ≡ false → self.now.saying.waits ≡ None
            → result ≡ (if self.now.is_waited_for then min (2 ^ 64 - 1) self.now.accept_at
            else 2 ^ 64 - 1) }
    {
        if self.has_more || self.says_now(now) {
            return now;
        }
        let says = self.says_by();
        if self.is_waited_for {
            says.min(self.accept_at)
        } else {
            says
        }
    }

    /// When there is more to say, or never.
    fn says_by(&self) -> u64
        ensures some { IfSome self.now.saying.waits (λ at. result ≡ at) }
        ensures none { self.now.saying.waits ≡ None → result ≡ 2 ^ 64 - 1 }
    {
        match self.saying.waits {
            Some(at) => at,
            None => u64::MAX,
        }
    }

    /// How many screens there are, where some came or went since that was reported.
    pub fn report(&mut self) -> Option<Report>
        ensures same { SameSeating self.old self.new }
        ensures pauses { self.new.accept_at ≡ self.old.accept_at }
        // what was counted is reported, once
        ensures counts { self.new.counts ≡ none_counted }
        ensures none { result ≡ None ↔ (self.old.counts ≡ none_counted) }
        ensures some { IfSome result (IsReportOf self.old) }
        ensures notes { StaysNoted self.old self.new }
    {
        self.is_full = false;
        self.is_crowded = false;
        self.is_stuck = false;
        let counts = self.counts;
        if counts.is_none() {
            return None;
        }
        self.counts = Counts::none();
        Some(Report::Screens {
            now: self.conns.len(),
            came: counts.came,
            ended: counts.ended,
            cut: counts.cut,
        })
    }

    /// When there is more to say that has to wait.
    pub fn says_at(&self) -> Option<u64>
        ensures { result ≡ self.now.saying.waits }
    {
        self.saying.waits
    }

    /// Whether what is said is as far as the node.
    fn is_at(&self, node: &Node) -> bool
        ensures { IsTrue result
            ↔ (self.now.hub.broadcast.told ≡ published_token node.now.shown) }
    {
        match (self.hub.broadcast().told(), node.token()) {
            (Some(told), Some(token)) => told.text() == token.text(),
            (None, None) => true,
            (Some(_), None) => false,
            (None, Some(_)) => false,
        }
    }

    /// Cuts who is too far behind, once a turn and only where there is something to say: so each
    /// has the time from one commit to the next, however long they are.
    fn trim(&mut self)
        ensures serving { StillStand self.old self.new }
        ensures ended { AllEnd self.old.hub → AllEnd self.new.hub }
        ensures once { self.old.saying.is_trimmed ≡ true → self.new ≡ self.old }
        ensures most { self.new.hub.most ≡ self.old.hub.most }
        ensures waits { self.new.saying.waits ≡ self.old.saying.waits }
        ensures to_do { SameToDo self.old self.new }
        ensures due { self.new.saying.is_due ≡ self.old.saying.is_due }
        ensures told { self.new.hub.broadcast.told ≡ self.old.hub.broadcast.told }
        // once a turn it is done: who is too far behind is cut, and a window more may be said
        ensures trimmed { self.new.saying.is_trimmed ≡ true }
        ensures cuts { self.old.saying.is_trimmed ≡ false → KeepsThose
            (IsSeatNotBehind (oldest_in (may_lack self.old.hub) self.old.hub.broadcast.log))
            self.old.hub.seats.slab self.new.hub.seats.slab }
        ensures turn { self.old.saying.is_trimmed ≡ false
            → self.new.hub.turn.end ≡ end_of self.old.hub.broadcast.log }
    {
        if !self.saying.is_trimmed {
            self.hub.trim();
            self.saying.is_trimmed = true;
        }
    }

    /// Says what the node has more. Whether it published since that was called last.
    pub fn relay(&mut self, desk: &Desk, node: &Node) -> bool
        ensures serving { StillServes node.now.shown self.old self.new }
        ensures ended { AllEnd self.old.hub → AllEnd self.new.hub }
        ensures says { SaysAll self.new node.now.shown desk.now.time }
        ensures most { self.new.hub.most ≡ self.old.hub.most }
        // it published where it is at another token than what was said
        ensures news { (result ≡ false)
            ↔ (self.old.hub.broadcast.told ≡ published_token node.now.shown) }
        ensures to_do { SameToDo self.old self.new }
        // where somebody is there, and something was said, all are to be written to
        ensures due { slab_len self.old.conns ≢ 0 → MakesDue self.old self.new }
        // where there is something to say, the log was trimmed in this turn
        ensures trims { self.old.hub.broadcast.told ≢ published_token node.now.shown
            → self.new.saying.is_trimmed ≡ true }
    {
        self.saying.waits = None;
        if self.is_at(node) {
            return false;
        }
        self.trim();
        self.skip_unheard(desk);
        self.say_all(desk, node);
        self.wait_for_rest(node, desk.time);
        true
    }

    /// Where nobody is there to hear a commit the log is at no token, so it begins at the newest
    /// one, and no text of those between is made.
    fn skip_unheard(&mut self, desk: &Desk)
        ensures serving { StillStand self.old self.new }
        ensures ended { AllEnd self.old.hub → AllEnd self.new.hub }
        ensures most { self.new.hub.most ≡ self.old.hub.most }
        ensures waits { self.new.saying.waits ≡ self.old.saying.waits }
        // where somebody is there nothing is done
        ensures stays { slab_len self.old.conns ≢ 0 → self.new ≡ self.old }
        ensures to_do { SameToDo self.old self.new }
        ensures trimmed { self.new.saying.is_trimmed ≡ self.old.saying.is_trimmed }
        ensures due { self.new.saying.is_due ≡ self.old.saying.is_due }
    {
        if !self.conns.is_empty() {
            return;
        }
        let _ = self.hub.end_all(desk.alloc, desk.time);
    }

    /// Says one commit after another, as many as can be said now.
    fn say_all(&mut self, desk: &Desk, node: &Node)
        ensures serving { StillServes node.now.shown self.old self.new }
        ensures ended { AllEnd self.old.hub → AllEnd self.new.hub }
        ensures most { self.new.hub.most ≡ self.old.hub.most }
        ensures soon { self.old.saying.waits ≡ None
            → WaitsBriefly self.new.saying.waits desk.now.time }
        ensures to_do { SameToDo self.old self.new }
        ensures due { MakesDue self.old self.new }
        ensures trimmed { self.new.saying.is_trimmed ≡ self.old.saying.is_trimmed }
    {
        for _ in 0..node.kept().saturating_add(2) {
            if !self.say_one(desk, node) {
                return;
            }
        }
    }

    /// What isn't said yet is said in the next turn, unless it waits for longer.
    fn wait_for_rest(&mut self, node: &Node, now: u64)
        ensures same { SameSeating self.old self.new }
        ensures says { WaitsBriefly self.old.saying.waits now
            → SaysAll self.new node.now.shown now }
        ensures most { self.new.hub.most ≡ self.old.hub.most }
        ensures to_do { SameToDo self.old self.new }
        ensures due { self.new.saying.is_due ≡ self.old.saying.is_due }
        ensures trimmed { self.new.saying.is_trimmed ≡ self.old.saying.is_trimmed }
    {
        if self.saying.waits.is_none() && !self.is_at(node) {
            self.saying.waits = Some(now);
        }
    }

    /// Says the next commit. Whether there may be more that can be said now.
    fn say_one(&mut self, desk: &Desk, node: &Node) -> bool
        ensures serving { StillServes node.now.shown self.old self.new }
        ensures ended { AllEnd self.old.hub → AllEnd self.new.hub }
        ensures most { self.new.hub.most ≡ self.old.hub.most }
        ensures soon { self.old.saying.waits ≡ None
            → WaitsBriefly self.new.saying.waits desk.now.time }
        ensures goes_on { result ≡ true → self.new.saying.waits ≡ self.old.saying.waits }
        ensures to_do { SameToDo self.old self.new }
        ensures due { MakesDue self.old self.new }
        ensures trimmed { self.new.saying.is_trimmed ≡ self.old.saying.is_trimmed }
        // a commit was said, or the log is at no token
        ensures moves { result ≡ true → (self.new.hub.broadcast.told ≡ None)
            ⊎ SaysCommit node.now.shown self.old.hub.broadcast self.new.hub.broadcast }
        // else all was, or what is left has to wait
        ensures why { result ≡ false
            → (self.new.hub.broadcast.told ≡ published_token node.now.shown)
            ⊎ HasToWait self.new }
    {
        self.saying.is_short = false;
        match self.hub.say_next(desk.alloc, node) {
            Ok(Said::Looked(Pulled::More)) => {
                self.spoke(desk.time);
                true
            }
            Ok(Said::Looked(Pulled::UpToDate)) => false,
            Ok(Said::Looked(Pulled::Gone)) => {
                self.end_feeds(desk);
                true
            }
            Ok(Said::Waits) => {
                self.saying.waits = Some(desk.time.saturating_add(SAY_PAUSE));
                false
            }
            Err(_) => {
                self.saying.is_short = true;
                self.saying.waits = Some(desk.time.saturating_add(MEMORY_PAUSE));
                false
            }
        }
    }

    fn spoke(&mut self, now: u64)
        ensures same { SameSeating self.old self.new }
        ensures spoke { self.new.saying.spoke ≡ now }
        // all are to be written to
        ensures due { self.new.saying.is_due ≡ true }
        ensures waits { self.new.saying.waits ≡ self.old.saying.waits }
        ensures to_do { SameToDo self.old self.new }
        ensures trimmed { self.new.saying.is_trimmed ≡ self.old.saying.is_trimmed }
    {
        self.saying.is_due = true;
        self.saying.spoke = now;
    }

    /// Ends the bodies of all who follow the log.
    pub fn end_feeds(&mut self, desk: &Desk)
        ensures serving { StillStand self.old self.new }
        ensures ended { AllEnd self.new.hub }
        ensures told { self.new.hub.broadcast.told ≡ None }
        ensures most { self.new.hub.most ≡ self.old.hub.most }
        ensures waits { self.new.saying.waits ≡ self.old.saying.waits }
        ensures to_do { SameToDo self.old self.new }
        ensures trimmed { self.new.saying.is_trimmed ≡ self.old.saying.is_trimmed }
        // all are to be written to
        ensures due { self.new.saying.is_due ≡ true }
    {
        let (was_said, bodies) = (self.has_said(), self.following());
        // Who there was no memory for is cut.
        let _ = self.hub.end_all(desk.alloc, desk.time);
        self.totals.reset(was_said, bodies);
        self.spoke(desk.time);
    }

    /// Writes to all, where something was said.
    pub fn drain_due<S: Sockets>(&mut self, desk: &mut Desk, sockets: &mut S, node: &Node)
        ensures serving { StillServesFrom node.now.shown self.old self.new
            (S.socket sockets.old) (S.socket sockets.new) }
        // then what is pending at each place that may be written to is offered, once
        ensures offers { self.old.saying.is_due ≡ true
            → (at : ℕ) (key : Key) → IsWritable (get self.old.conns at) key
            → prefix_at self.old.hub key ≢ [] → IsAlone self.old.conns key at
            → CalledOnce (S.offered sockets.old at) (S.offered sockets.new at) }
        ensures asks { S.asked sockets.new ≡ S.asked sockets.old }
        ensures tries { NotCalled (S.tried sockets.old) (S.tried sockets.new) }
        ensures pauses { self.new.accept_at ≡ self.old.accept_at }
        ensures notes { StaysNoted self.old self.new }
        // and who has something pending then is looked at in the next turn
        ensures pending { self.old.saying.is_due ≡ true
            → (at : ℕ) (key : Key) → IsAlone self.old.conns key at
            → IsWritable (get self.new.conns at) key → prefix_at self.new.hub key ≢ []
            → self.new.has_more ≡ true }
    {
        if !self.saying.is_due {
            return;
        }
        self.saying.is_due = false;
        self.sweep(desk, sockets);
        self.drain_all(desk, sockets, node);
    }

    /// When a line feed is due after silence.
    pub fn idles_at(&self) -> u64
        ensures { result ≡ idles_at self.now }
    {
        self.saying.spoke.saturating_add(self.limits.idle)
    }

    /// Says a line feed to all, after silence.
    pub fn idle(&mut self, desk: &Desk)
        ensures serving { StillStand self.old self.new }
        // once that is due, silence begins again
        ensures speaks { idles_at self.old ≤ desk.now.time → self.new.saying.spoke ≡ desk.now.time }
        ensures waits { desk.now.time < idles_at self.old → self.new ≡ self.old }
        // and all are to be written to
        ensures due { idles_at self.old ≤ desk.now.time → self.new.saying.is_due ≡ true }
        ensures pauses { self.new.accept_at ≡ self.old.accept_at }
        ensures notes { StaysNoted self.old self.new }
    {
        if desk.time < self.idles_at() {
            return;
        }
        let _ = self.hub.say_idle(desk.alloc);
        for at in 0..self.conns.capacity() {
            self.idle_at(desk, at);
        }
        self.spoke(desk.time);
    }

    /// Keeps the connection at a place alive, where that has a key.
    fn idle_at(&mut self, desk: &Desk, at: usize)
        ensures serving { StillStand self.old self.new }
        ensures pauses { self.new.accept_at ≡ self.old.accept_at }
        ensures notes { StaysNoted self.old self.new }
    {
        let Some(conn) = self.conns.get(at) else {
            return;
        };
        if let Some(key) = conn.key {
            let _ = self.hub.idle(desk.alloc, key, desk.time);
        }
    }

    /// Sends a line feed to a screen that has nothing pending, where one is at this place: one that
    /// is gone altogether refuses it, and so leaves as soon as it has.
    pub(crate) fn probe_at(&mut self, desk: &Desk, at: usize)
        ensures serving { StillStand self.old self.new }
        ensures conns { self.new.conns ≡ self.old.conns }
        ensures pauses { self.new.accept_at ≡ self.old.accept_at }
        ensures notes { StaysNoted self.old self.new }
    {
        let Some(conn) = self.conns.get(at) else {
            return;
        };
        if let Some(key) = conn.key {
            let _ = self.hub.probe(desk.alloc, key, desk.time);
        }
    }

    /// Cuts requests that are late, and screens that took nothing for too long.
    pub fn cut_late(&mut self, now: u64)
        ensures serving { StillStand self.old self.new }
        ensures cuts { KeepsThose (IsOnTime now 60000 self.new.hub.turn.mark.place)
            self.old.hub.seats.slab self.new.hub.seats.slab }
        ensures to_do { SameToDo self.old self.new }
    {
        self.hub.cut_late(now, STALL);
    }
}
