//! Who waits for room: long texts that screens have yet to take have a limit together.

ghost use Rattle.std.specs.Prelude.{◌≡◌, ◌≢◌, ◌<◌, ◌≤◌, ◌↔◌, ◌^◌, ◌-◌, [], ℕ, List, None, Some, ◌+◌, min, true, false, Ok, IsTrue, IfOk, IfSome, OnOk, option_map};
ghost use Rattle.feed_node.specs.States.{NodeState};
ghost use Rattle.feed_hub.specs.Steps.{IsCatchingUp};
ghost use Rattle.feed_hub.specs.Seats.{seat_at, IsAskingSeat, IsWatcher};
ghost use Rattle.feed_device.specs.Calls.{NotCalled};
ghost use Rattle.feed_device.specs.Sockets.{AllSockets};
ghost use Rattle.slab.specs.Slab.{get};
ghost use Rattle.feed_screens.specs.Pending.{Pays, owed_text_at};
ghost use Rattle.feed_screens.specs.Serving.{StillServesAll, StillAnswers, StillStand, SameSeating};
ghost use Rattle.feed_screens.specs.Serving.{ServesBut, HasKey, HearsAll, OtherConns, SameKeys};
ghost use Rattle.feed_screens.specs.Held.{AllKeepInput, KeepsInput, SameMirrors};
ghost use Rattle.feed_screens.specs.Waiting.{HasNotWaited, IsOverdue, IsSlow, HoldsUp, RefusesOne};
ghost use Rattle.feed_screens.specs.Waiting.{AnswerWaits, HasRoom, IsAnotherNext, IsNext, IsFollowed, IsOverdueAt, IsTurnOf, IsWaiting, LacksRoom, MayShare, StaysNoted, WaitsSince, owing, owing_nothing, WantsCommit, waiting_for, waiting_no_more};

use crate::conn::Wanted;
use crate::screens::{Answers, Hearing, Keyed, Lack, Screens, Shown, TextId};
use crate::times::ROOM_TIME;
use feed_device::{Desk, Sockets};
use feed_hub::{Answering, Key, LONG};
use std::alloc::{AllocError, Global};

/// How many of those who wait are served in one turn.
const ANSWERS: usize = 64;

impl Screens {
    /// Whether a long text may be made: those that screens have yet to take have fewer bytes than
    /// they may. So one may be made whatever its length, where there is no other.
    pub(crate) fn has_room(&self) -> bool
        ensures { IsTrue result ↔ HasRoom self.now }
    {
        self.pending.total() < self.limits.pending
    }

    /// Forgets the long texts that no screen has any more.
    pub fn tidy(&mut self)
        ensures serving { StillStand self.old self.new }
        ensures pauses { self.new.accept_at ≡ self.old.accept_at }
        ensures notes { StaysNoted self.old self.new }
    {
        self.hub.tidy();
    }

    /// The connection at a place has yet to take a text of so many bytes. A long one counts as
    /// pending, once for all who share it; without memory for that the connection has to end.
    pub(crate) fn owe(
        &mut self,
        at: usize,
        length: usize,
        id: TextId,
        now: u64,
    ) -> Result<(), AllocError>
        ensures same { SameSeating self.old self.new }
        ensures places { OtherConns self.old.conns self.new.conns at }
        ensures counts { OnOk result (65536 ≤ length → get self.old.conns at ≢ None
            → owed_text_at self.new.pending.places.items at ≡ Some id) }
        ensures here { get self.new.conns at
            ≡ option_map (owing length now) (get self.old.conns at) }
        ensures pauses { self.new.accept_at ≡ self.old.accept_at }
        ensures notes { StaysNoted self.old self.new }
    {
        self.pay(at);
        let Some(conn) = self.conns.get_mut(at) else {
            return Ok(());
        };
        conn.owe(length, now);
        if length < LONG {
            return Ok(());
        }
        self.pending.add(at, id, length)
    }

    /// The connection at a place took all of its text, or is over. Who waits for room may have it
    /// then.
    pub(crate) fn pay(&mut self, at: usize)
        ensures same { SameSeating self.old self.new }
        ensures paid { Pays (owed_text_at self.old.pending.places.items at)
            self.old.pending.texts.list.items self.new.pending.texts.list.items }
        ensures once { owed_text_at self.new.pending.places.items at ≡ None }
        ensures others { (other : ℕ) → other ≢ at
            → get self.new.conns other ≡ get self.old.conns other }
        ensures owed { (other : ℕ) → other ≢ at
            → owed_text_at self.new.pending.places.items other
            ≡ owed_text_at self.old.pending.places.items other }
        ensures here { get self.new.conns at ≡ option_map owing_nothing (get self.old.conns at) }
        ensures pauses { self.new.accept_at ≡ self.old.accept_at }
        ensures notes { StaysNoted self.old self.new }
        ensures made { self.new.made ≡ self.old.made }
    {
        if let Some(conn) = self.conns.get_mut(at) {
            conn.pay();
        }
        if self.pending.remove(at) {
            self.has_more |= self.is_waited;
        }
    }

    /// Whether the connection at a place has yet to take a text that counts as pending, and takes
    /// it too slowly.
    pub(crate) fn is_slow(&self, at: usize, now: u64) -> bool
        ensures { IsTrue result ↔ HoldsUp self.now at now }
    {
        match self.conns.get(at) {
            Some(conn) => self.pending.has(at) && conn.is_slow(now),
            None => false,
        }
    }

    /// The connection at a place waits for room no more.
    pub(crate) fn end_wait(&mut self, at: usize)
        ensures same { SameSeating self.old self.new }
        ensures places { OtherConns self.old.conns self.new.conns at }
        ensures here { get self.new.conns at
            ≡ option_map waiting_no_more (get self.old.conns at) }
        ensures pauses { self.new.accept_at ≡ self.old.accept_at }
        ensures input { KeepsInput (get self.old.conns at) (get self.new.conns at) }
        ensures notes { StaysNoted self.old self.new }
    {
        if let Some(conn) = self.conns.get_mut(at) {
            conn.wait = None;
        }
    }

    /// The connection at a place waits for this from now on, or for as long as it has waited.
    pub(crate) fn wait_for(&mut self, at: usize, wanted: Wanted, now: u64)
        ensures same { SameSeating self.old self.new }
        ensures places { OtherConns self.old.conns self.new.conns at }
        ensures waited { self.new.is_waited ≡ true }
        ensures here { get self.new.conns at
            ≡ option_map (waiting_for wanted now) (get self.old.conns at) }
        ensures pauses { self.new.accept_at ≡ self.old.accept_at }
        ensures notes { StaysNoted self.old self.new }
    {
        self.is_waited = true;
        if let Some(conn) = self.conns.get_mut(at) {
            conn.wait_for(wanted, now);
        }
    }

    /// Whether a long text may be made for the connection at a place: there is room, and nobody
    /// else has waited for that for longer.
    pub(crate) fn may_take_room(&self, at: usize) -> bool
        ensures room { IsTrue result → HasRoom self.now }
        // nobody goes before it
        ensures turn { IsTrue result → self.now.is_waited ≡ true → IsTurnOf self.now.conns at }
        // where there is room and it may not, another one goes before it
        ensures others { result ≡ false → HasRoom self.now → IsAnotherNext self.now.conns at }
    {
        if !self.has_room() {
            return false;
        }
        match self.longest_waiting() {
            Some(first) => first == at,
            None => true,
        }
    }

    /// The place of the connection that has waited for longest for room, where somebody waits.
    fn longest_waiting(&self) -> Option<usize>
        ensures some { IfSome result (IsNext self.now.conns) }
        ensures none { result ≡ None → self.now.is_waited ≡ true
            → (at since : ℕ) → ¬ (WaitsSince (get self.now.conns at) since) }
    {
        if !self.is_waited {
            return None;
        }
        let mut longest: Option<(u64, usize)> = None;
        for at in 0..self.conns.capacity() {
            if let Some(conn) = self.conns.get(at) {
                longest = conn.waits_longer(longest, at);
            }
        }
        Some(longest?.1)
    }

    /// Whether a screen waits for a commit still. One that follows the log by now, or whose body
    /// ends, waits for none.
    pub(crate) fn stays_waiting(&self, keyed: Keyed) -> bool
        ensures waits { IsTrue result → IsWatcher (λ s. IsCatchingUp s.way)
            (seat_at self.now.hub.seats.slab keyed.key)
            × ¬ (MayShare self.now.hub (get self.now.conns keyed.at)) }
        ensures commit { IsTrue result → WantsCommit (get self.now.conns keyed.at) }
        // it waits on only where there is no room, or another one is next
        ensures room { IsTrue result → HasRoom self.now → IsAnotherNext self.now.conns keyed.at }
        // one that catches up, and can't share its commit, goes on only where it may take room
        ensures goes { result ≡ false → WantsCommit (get self.now.conns keyed.at)
            → IsWatcher (λ s. IsCatchingUp s.way) (seat_at self.now.hub.seats.slab keyed.key)
            → ¬ (MayShare self.now.hub (get self.now.conns keyed.at))
            → HasRoom self.now
            × (self.now.is_waited ≡ true → IsTurnOf self.now.conns keyed.at) }
    {
        self.wants_commit(keyed.at)
            && self.hub.catches_up(keyed.key)
            && !self.may_take_room(keyed.at)
            && !self.may_share(keyed.at)
    }

    fn wants_commit(&self, at: usize) -> bool
        ensures { IsTrue result ↔ WantsCommit (get self.now.conns at) }
    {
        match self.conns.get(at) {
            Some(conn) => conn.wants_commit().is_some(),
            None => false,
        }
    }

    /// Whether the screen at a place waits for a commit that perhaps another one has by now, and
    /// its socket may take that.
    pub(crate) fn may_share(&self, at: usize) -> bool
        ensures { IsTrue result ↔ MayShare self.now.hub (get self.now.conns at) }
    {
        let Some(conn) = self.conns.get(at) else {
            return false;
        };
        match conn.wants_commit() {
            Some((length, made)) => !conn.is_blocked && self.hub.has_made(made, length),
            None => false,
        }
    }

    /// Whether these bytes end a request for which there is no room: a text has to be made for it.
    /// Where memory runs out for that look, the hub hears them all the same, and may run out of it.
    #[tactic(auto, unfolding(crate::specs::Waiting::LacksRoom))]
    pub(crate) fn has_no_room(
        &self,
        alloc: Global,
        answering: &Answering,
        contest: &str,
        keyed: Keyed,
        piece: &[u8],
    ) -> bool
        ensures { IsTrue result
            → LacksRoom self.now answering.now contest.now keyed piece.now }
    {
        if self.may_take_room(keyed.at) {
            return false;
        }
        let makes = self
            .hub
            .makes_text(alloc, answering, contest, keyed.key, piece);
        makes.unwrap_or(false)
    }

    /// A request waits for room, which these bytes end. One that something comes behind can't wait.
    pub(crate) fn wait_for_room(
        &mut self,
        keyed: Keyed,
        piece: &[u8],
        now: u64,
    ) -> Result<Hearing, AllocError>
        ensures serving { (nodes : List NodeState) (contest : List ℕ) (sockets : AllSockets)
            → HasKey self.old.conns keyed
            → ServesBut nodes contest self.old.hub self.old.conns sockets keyed.at piece.now
            → HearsAll nodes contest self.new sockets keyed.at result }
        // it waits, unless something comes behind the request
        ensures goes { result ≡ Ok Hearing.Goes → (self.new.is_waited ≡ true)
            × (get self.new.conns keyed.at
            ≡ option_map (waiting_for Wanted.Answer now) (get self.old.conns keyed.at)) }
        ensures others { IfOk result (λ heard. heard ≢ Hearing.Goes
            → IsFollowed (min (now + 60000) (2 ^ 64 - 1)) piece.now
            (seat_at self.old.hub.seats.slab keyed.key)
            (seat_at self.new.hub.seats.slab keyed.key)) }
        // who doesn't wait didn't begin to
        ensures rest { result ≢ Ok Hearing.Goes → self.new.conns ≡ self.old.conns }
        ensures pauses { self.new.accept_at ≡ self.old.accept_at }
        ensures places { OtherConns self.old.conns self.new.conns keyed.at }
        ensures input { KeepsInput (get self.old.conns keyed.at) (get self.new.conns keyed.at) }
        ensures notes { StaysNoted self.old self.new }
        ensures keys { SameKeys self.old.conns self.new.conns }
    {
        let until = now.saturating_add(2 * ROOM_TIME);
        let taken = self.hub.hold(keyed.key, piece, until)?;
        if taken < piece.len() {
            return Ok(Hearing::TooMuch);
        }
        self.wait_for(keyed.at, Wanted::Answer, now);
        Ok(Hearing::Goes)
    }

    /// Serves those who wait for room, as long as there is some: first who has waited for longest.
    /// And answers those who can share the text of the snapshot by now.
    #[tactic(auto, using(crate::proofs::InputLemmas::keeps_then, crate::proofs::InputLemmas::keeps_same))]
    pub(crate) fn serve_waiting<S: Sockets>(
        &mut self,
        desk: &mut Desk,
        sockets: &mut S,
        answers: &mut Answers,
        shown: &Shown<'_>,
    )
        ensures serving { StillAnswers shown.now.is_held answers.old shown.now.contest.now self.old
            self.new (S.socket sockets.old) (S.socket sockets.new) }
        ensures mirrors { SameMirrors answers.old answers.new }
        ensures asks { S.asked sockets.new ≡ S.asked sockets.old }
        ensures tries { NotCalled (S.tried sockets.old) (S.tried sockets.new) }
        ensures pauses { self.new.accept_at ≡ self.old.accept_at }
        ensures input { AllKeepInput self.old.conns self.new.conns }
        ensures time { desk.new.time ≡ desk.old.time }
        ensures notes { StaysNoted self.old self.new }
    {
        self.serve_first(desk, sockets, answers, shown);
        if answers.shown.has_text() {
            self.answer_sharing(desk, sockets, answers, shown);
        }
    }

    /// Serves those who wait for room, one after another, as long as there is some.
    #[tactic(auto, using(crate::proofs::InputLemmas::keeps_then, crate::proofs::InputLemmas::keeps_same))]
    fn serve_first<S: Sockets>(
        &mut self,
        desk: &mut Desk,
        sockets: &mut S,
        answers: &mut Answers,
        shown: &Shown<'_>,
    )
        ensures serving { StillAnswers shown.now.is_held answers.old shown.now.contest.now self.old
            self.new (S.socket sockets.old) (S.socket sockets.new) }
        ensures mirrors { SameMirrors answers.old answers.new }
        ensures asks { S.asked sockets.new ≡ S.asked sockets.old }
        ensures tries { NotCalled (S.tried sockets.old) (S.tried sockets.new) }
        ensures pauses { self.new.accept_at ≡ self.old.accept_at }
        ensures input { AllKeepInput self.old.conns self.new.conns }
        ensures time { desk.new.time ≡ desk.old.time }
        ensures notes { StaysNoted self.old self.new }
    {
        for _ in 0..ANSWERS {
            let Some(at) = self.longest_waiting() else {
                return;
            };
            self.serve_at(desk, sockets, answers, shown, at);
            if self.waits(at) {
                return;
            }
        }
        self.has_more = true;
    }

    /// Answers those whose requests wait for room, where they can share the text of the snapshot.
    #[tactic(auto, using(crate::proofs::InputLemmas::keeps_then, crate::proofs::InputLemmas::keeps_same))]
    fn answer_sharing<S: Sockets>(
        &mut self,
        desk: &mut Desk,
        sockets: &mut S,
        answers: &mut Answers,
        shown: &Shown<'_>,
    )
        ensures serving { StillAnswers shown.now.is_held answers.old shown.now.contest.now self.old
            self.new (S.socket sockets.old) (S.socket sockets.new) }
        ensures mirrors { SameMirrors answers.old answers.new }
        ensures asks { S.asked sockets.new ≡ S.asked sockets.old }
        ensures tries { NotCalled (S.tried sockets.old) (S.tried sockets.new) }
        ensures pauses { self.new.accept_at ≡ self.old.accept_at }
        ensures input { AllKeepInput self.old.conns self.new.conns }
        ensures time { desk.new.time ≡ desk.old.time }
        ensures notes { StaysNoted self.old self.new }
    {
        for at in 0..self.conns.capacity() {
            self.share_at(desk, sockets, answers, shown, at);
        }
    }

    /// Answers the request at a place, where it waits for room.
    fn share_at<S: Sockets>(
        &mut self,
        desk: &mut Desk,
        sockets: &mut S,
        answers: &mut Answers,
        shown: &Shown<'_>,
        at: usize,
    )
        ensures serving { StillAnswers shown.now.is_held answers.old shown.now.contest.now self.old
            self.new (S.socket sockets.old) (S.socket sockets.new) }
        ensures mirrors { SameMirrors answers.old answers.new }
        ensures asks { S.asked sockets.new ≡ S.asked sockets.old }
        ensures tries { NotCalled (S.tried sockets.old) (S.tried sockets.new) }
        ensures pauses { self.new.accept_at ≡ self.old.accept_at }
        ensures input { AllKeepInput self.old.conns self.new.conns }
        ensures time { desk.new.time ≡ desk.old.time }
        ensures notes { StaysNoted self.old self.new }
    {
        if self.wants_answer(at) {
            self.serve_at(desk, sockets, answers, shown, at);
        }
    }

    /// Whether the connection at a place waits for room.
    fn waits(&self, at: usize) -> bool
        ensures { IsTrue result ↔ IsWaiting (get self.now.conns at) }
    {
        self.conns.get(at).is_some_and(|conn| conn.wait.is_some())
    }

    /// Whether the request of the connection at a place waits for room.
    pub(crate) fn wants_answer(&self, at: usize) -> bool
        ensures { IsTrue result ↔ AnswerWaits (get self.now.conns at) }
    {
        self.conns.get(at).is_some_and(|conn| conn.wants_answer())
    }

    /// Gives the connection at a place what it waits for, where there is room for that or it can be
    /// shared: its request is answered, or the screen has its commit. Then it is written to.
    fn serve_at<S: Sockets>(
        &mut self,
        desk: &mut Desk,
        sockets: &mut S,
        answers: &mut Answers,
        shown: &Shown<'_>,
        at: usize,
    )
        ensures serving { StillAnswers shown.now.is_held answers.old shown.now.contest.now self.old
            self.new (S.socket sockets.old) (S.socket sockets.new) }
        ensures mirrors { SameMirrors answers.old answers.new }
        ensures asks { S.asked sockets.new ≡ S.asked sockets.old }
        ensures tries { NotCalled (S.tried sockets.old) (S.tried sockets.new) }
        ensures pauses { self.new.accept_at ≡ self.old.accept_at }
        ensures input { AllKeepInput self.old.conns self.new.conns }
        ensures time { desk.new.time ≡ desk.old.time }
        ensures notes { StaysNoted self.old self.new }
    {
        self.answer_at(desk, sockets, answers, shown, at);
        self.drain(desk, sockets, answers.shown.node(), at);
    }

    /// Answers the request that comes at a place, where it has come whole and there is room for
    /// that.
    fn answer_at<S: Sockets>(
        &mut self,
        desk: &mut Desk,
        sockets: &mut S,
        answers: &mut Answers,
        shown: &Shown<'_>,
        at: usize,
    )
        ensures serving { StillAnswers shown.now.is_held answers.old shown.now.contest.now self.old
            self.new (S.socket sockets.old) (S.socket sockets.new) }
        ensures mirrors { SameMirrors answers.old answers.new }
        ensures asks { S.asked sockets.new ≡ S.asked sockets.old }
        ensures tries { NotCalled (S.tried sockets.old) (S.tried sockets.new) }
        ensures pauses { self.new.accept_at ≡ self.old.accept_at }
        ensures input { AllKeepInput self.old.conns self.new.conns }
        ensures time { desk.new.time ≡ desk.old.time }
        ensures notes { StaysNoted self.old self.new }
    {
        let Some(key) = self.asking(at) else {
            return;
        };
        let heard = self.hear_of(desk, answers, shown, Keyed { at, key }, &[]);
        self.heed(desk, sockets, at, heard);
    }

    /// Answers those that there are too many whose requests have waited for long enough.
    pub fn refuse_overdue<S: Sockets>(&mut self, desk: &mut Desk, sockets: &mut S)
        ensures serving { StillServesAll self.old self.new
            (S.socket sockets.old) (S.socket sockets.new) }
        // whoever has not waited for so long stays, with its seat
        ensures stays { (at : ℕ) → ¬ (IsOverdue (get self.old.conns at) desk.old.time)
            → get self.new.conns at ≡ get self.old.conns at }
        ensures seats { (key : Key) → HasNotWaited self.old.conns key desk.old.time
            → seat_at self.new.hub.seats.slab key ≡ seat_at self.old.hub.seats.slab key }
        // and of those who have nobody asks any more
        ensures goes { self.old.is_waited ≡ true
            → (at : ℕ) → ¬ (IsOverdueAt self.new at desk.old.time) }
        ensures notes { (self.old.has_more ≡ true → self.new.has_more ≡ true)
            × (self.old.is_waited_for ≡ true → self.new.is_waited_for ≡ true) }
        // nobody who waits is forgotten
        ensures waits { self.old.is_waited ≡ true → self.new.is_waited ≡ false
            → (at : ℕ) → ¬ (IsWaiting (get self.new.conns at)) }
        ensures time { desk.new.time ≡ desk.old.time }
        ensures asks { S.asked sockets.new ≡ S.asked sockets.old }
        ensures tries { NotCalled (S.tried sockets.old) (S.tried sockets.new) }
        ensures pauses { self.new.accept_at ≡ self.old.accept_at }
    {
        if !self.is_waited {
            return;
        }
        for at in 0..self.conns.capacity() {
            self.refuse_waiting(desk, sockets, at);
        }
        self.is_waited = self.somebody_waits();
    }

    /// Answers the connection at a place that there are too many, where its request has waited for
    /// long enough.
    fn refuse_waiting<S: Sockets>(&mut self, desk: &mut Desk, sockets: &mut S, at: usize)
        ensures serving { StillServesAll self.old self.new
            (S.socket sockets.old) (S.socket sockets.new) }
        ensures refuses { RefusesOne self.old self.new at desk.old.time }
        // one that has waited for so long asks no more
        ensures goes { ¬ (IsOverdueAt self.new at desk.old.time) }
        ensures asking { (key : Key) → IsAskingSeat (seat_at self.new.hub.seats.slab key)
            → IsAskingSeat (seat_at self.old.hub.seats.slab key) }
        ensures time { desk.new.time ≡ desk.old.time }
        ensures asks { S.asked sockets.new ≡ S.asked sockets.old }
        ensures tries { NotCalled (S.tried sockets.old) (S.tried sockets.new) }
        ensures pauses { self.new.accept_at ≡ self.old.accept_at }
        ensures notes { StaysNoted self.old self.new }
    {
        if self.is_overdue(at, desk.time) {
            self.refuse_at(desk, sockets, at);
        }
    }

    /// Cuts those who take their texts too slowly while somebody waits for room, and reports that
    /// there is none.
    pub fn cut_for_room<S: Sockets>(&mut self, desk: &mut Desk, sockets: &mut S)
        ensures serving { StillServesAll self.old self.new
            (S.socket sockets.old) (S.socket sockets.new) }
        // whoever isn't slow stays
        ensures stays { (at : ℕ) → ¬ (IsSlow (get self.old.conns at) desk.old.time)
            → get self.new.conns at ≡ get self.old.conns at }
        // and nobody is who holds up those that wait
        ensures goes { self.old.is_waited ≡ true
            → (at : ℕ) → ¬ (HoldsUp self.new at desk.old.time) }
        ensures time { desk.new.time ≡ desk.old.time }
        ensures asks { S.asked sockets.new ≡ S.asked sockets.old }
        ensures tries { NotCalled (S.tried sockets.old) (S.tried sockets.new) }
        ensures pauses { self.new.accept_at ≡ self.old.accept_at }
        ensures notes { StaysNoted self.old self.new }
    {
        if self.is_waited {
            self.has_more = true;
            self.report_lack(desk, Lack::Room);
            self.cut_slow(desk, sockets);
        }
    }

    /// Whether somebody waits for room.
    fn somebody_waits(&self) -> bool
        ensures none { result ≡ false → (at : ℕ) → ¬ (IsWaiting (get self.now.conns at)) }
        ensures some { result ≡ true → (at : ℕ) × IsWaiting (get self.now.conns at) }
    {
        for at in 0..self.conns.capacity() {
            if self.waits(at) {
                return true;
            }
        }
        false
    }

    fn is_overdue(&self, at: usize, now: u64) -> bool
        ensures { IsTrue result ↔ IsOverdue (get self.now.conns at) now }
    {
        match self.conns.get(at) {
            Some(conn) => conn.is_overdue(now),
            None => false,
        }
    }
}
