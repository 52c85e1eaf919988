//! What they ask: requests are read, heard and answered.

ghost use Rattle.std.specs.Prelude.{◌≡◌, ◌≢◌, ◌⊎◌, ◌↔◌, ◌≤◌, ◌-◌, ℕ, List, None, Some, Ok, Contains, length, option_map, true, false, IfOk, IfSome, IsTrue};
ghost use Rattle.slab.specs.Slab.{get};
ghost use Rattle.feed_node.specs.States.{NodeState};
ghost use Rattle.feed_hub.specs.Seats.{seat_at, IsAskingSeat};
ghost use Rattle.feed_device.specs.Calls.{CalledOnce, NotCalled, OthersNotCalled};
ghost use Rattle.feed_device.specs.Sockets.{AllSockets};
ghost use Rattle.feed_screens.specs.Serving.{ServesScreens, StillServing, StillServesAll, StillAnswers};
ghost use Rattle.feed_screens.specs.Serving.{ServesBut, HasKey, HasPending, HearsSome, HearsAll, OtherConns, SameSeating, SameKeys, key_at};
ghost use Rattle.feed_screens.specs.declared.conn.Phase.TheVariants.{Watches};
ghost use Rattle.feed_screens.specs.Held.{AllKeepInput, KeepsInput, answerer, read_whole, woken, IsAt, IsToBeRead, SameMirrors, SameBesideConns, Waits};
ghost use Rattle.feed_screens.specs.Seating.{input_ended};
ghost use Rattle.feed_screens.specs.Waiting.{AnswerWaits, HasMoreAt, HasRoom, IsAnotherNext, StaysNoted, answered};

use crate::conn::Phase;
use crate::screens::{Answers, Hearing, Keyed, PIECE, Screens, Shown, TextId};
use feed_device::{Desk, How, Sockets, Stop};
use feed_hub::{Answering, Key, ServedAt};
use std::alloc::AllocError;

impl Screens {
    /// An event came for the connection at a place.
    pub fn wake(&mut self, at: usize, is_readable: bool, is_writable: bool)
        ensures same { SameSeating self.old self.new }
        // where there may be more to read or to write is marked
        ensures wakes { get self.new.conns at
            ≡ option_map (woken is_readable is_writable) (get self.old.conns at) }
        // and nothing else changes
        ensures others { (other : ℕ) → other ≢ at
            → get self.new.conns other ≡ get self.old.conns other }
        ensures rest { SameBesideConns self.old self.new }
    {
        if let Some(conn) = self.conns.get_mut(at) {
            conn.wake(is_readable, is_writable);
        }
    }

    /// Reads from the connection at a place once, and writes to it once.
    pub fn serve<S: Sockets>(
        &mut self,
        desk: &mut Desk,
        sockets: &mut S,
        answers: &mut Answers,
        shown: &Shown<'_>,
        at: usize,
    )
        ensures serving { StillAnswers shown.now.is_held answers.old shown.now.contest.now self.old
            self.new (S.socket sockets.old) (S.socket sockets.new) }
        // nothing is read of a request that waits, and nothing is written
        ensures waits { Waits (get self.old.conns at) shown.now.is_held shown.now.hold desk.old.time
            → sockets.new ≡ sockets.old }
        ensures mirrors { SameMirrors answers.old answers.new }
        ensures asks { S.asked sockets.new ≡ S.asked sockets.old }
        // where there is something to be read, a read is tried, once, and nowhere else
        ensures tries { IsToBeRead (get self.old.conns at) shown.now.is_held shown.now.hold
            desk.old.time → CalledOnce (S.tried sockets.old at) (S.tried sockets.new at) }
        ensures untried { OthersNotCalled (S.tried sockets.old) (S.tried sockets.new) at }
        ensures pauses { self.new.accept_at ≡ self.old.accept_at }
        ensures others { (other : ℕ) → other ≢ at
            → KeepsInput (get self.old.conns other) (get self.new.conns other) }
        ensures gone { get self.old.conns at ≡ None → get self.new.conns at ≡ None }
        ensures time { desk.new.time ≡ desk.old.time }
        ensures notes { StaysNoted self.old self.new }
        // who has more to read or to write then is looked at in the next turn
        ensures more { HasMoreAt self.new shown.now.is_held shown.now.hold desk.old.time at
            → self.new.has_more ≡ true }
        ensures pending { HasPending self.new at → self.new.has_more ≡ true }
    {
        self.read(desk, sockets, answers, shown, at);
        self.drain(desk, sockets, answers.shown.node(), at);
        if self.has_more_at(shown, at, desk.time) {
            self.has_more = true;
        }
    }

    /// Whether there may be something to read at a place that is to be read now.
    fn may_read(&self, shown: &Shown<'_>, at: usize, now: u64) -> bool
        ensures waits { Waits (get self.now.conns at) shown.now.is_held shown.now.hold now
            → result ≡ false }
        ensures exact { IsTrue result
            ↔ IsToBeRead (get self.now.conns at) shown.now.is_held shown.now.hold now }
    {
        let Some(conn) = self.conns.get(at) else {
            return false;
        };
        if conn.phase == Phase::Asks && !shown.is_answering(conn.since, now) {
            return false;
        }
        conn.has_input
    }

    /// Whether the connection at a place has more to read or to write.
    fn has_more_at(&self, shown: &Shown<'_>, at: usize, now: u64) -> bool
        ensures { IsTrue result ↔ HasMoreAt self.now shown.now.is_held shown.now.hold now at }
    {
        self.may_read(shown, at, now)
            || self.may_share(at)
            || self.conns.get(at).is_some_and(|conn| conn.has_more)
    }

    /// Reads once, where there may be something to read that is to be read now. Of a request that
    /// waits nothing is read, and so it is answered by nothing.
    fn read<S: Sockets>(
        &mut self,
        desk: &mut Desk,
        sockets: &mut S,
        answers: &mut Answers,
        shown: &Shown<'_>,
        at: usize,
    )
        ensures serving { (nodes : List NodeState)
            → Contains nodes (answerer shown.now.is_held answers.old.shown.mirror.node
            answers.old.blank.mirror.node)
            → StillServing nodes shown.now.contest.now self.old self.new
            (S.socket sockets.old) (S.socket sockets.new) }
        ensures waits { Waits (get self.old.conns at) shown.now.is_held shown.now.hold desk.old.time
            → (self.new ≡ self.old) × (sockets.new ≡ sockets.old) × (answers.new ≡ answers.old) }
        ensures mirrors { SameMirrors answers.old answers.new }
        ensures asks { S.asked sockets.new ≡ S.asked sockets.old }
        // where there is something to be read, a read is tried, once, and nowhere else
        ensures tries { IsToBeRead (get self.old.conns at) shown.now.is_held shown.now.hold
            desk.old.time → CalledOnce (S.tried sockets.old at) (S.tried sockets.new at) }
        ensures untried { OthersNotCalled (S.tried sockets.old) (S.tried sockets.new) at }
        // where there is nothing, nothing is done
        ensures nothing { ¬ (IsToBeRead (get self.old.conns at) shown.now.is_held shown.now.hold
            desk.old.time)
            → (self.new ≡ self.old) × (sockets.new ≡ sockets.old) × (answers.new ≡ answers.old) }
        // only where nothing came is it marked that there is nothing more to read
        ensures marks { KeepsInput (get self.old.conns at) (get self.new.conns at)
            ⊎ (S.socket sockets.new at ≡ S.socket sockets.old at) }
        ensures pauses { self.new.accept_at ≡ self.old.accept_at }
        ensures others { (other : ℕ) → other ≢ at
            → KeepsInput (get self.old.conns other) (get self.new.conns other) }
        ensures gone { get self.old.conns at ≡ None → get self.new.conns at ≡ None }
        ensures time { desk.new.time ≡ desk.old.time }
        ensures notes { StaysNoted self.old self.new }
        // who has a seat is refused only where there is no room, or another one is next
        ensures turns { key_at self.new.conns at ≡ Some None → HasRoom self.old
            → (key_at self.old.conns at ≡ Some None) ⊎ IsAnotherNext self.old.conns at }
    {
        if !self.may_read(shown, at, desk.time) {
            return;
        }
        let mut buf = [0u8; PIECE];
        match sockets.read(at, &mut buf) {
            Ok(0) => self.end_of_input(desk, sockets, at),
            Ok(count) => {
                let heard = self.take(desk, answers, shown, at, &buf[..count]);
                self.heed(desk, sockets, at, heard);
            }
            Err(Stop::Waits) => self.is_read(at),
            Err(_) => self.end(desk, sockets, at, How::Left),
        }
    }

    /// There is nothing more to read for now.
    fn is_read(&mut self, at: usize)
        ensures same { SameSeating self.old self.new }
        ensures pauses { self.new.accept_at ≡ self.old.accept_at }
        ensures places { OtherConns self.old.conns self.new.conns at }
        ensures here { get self.new.conns at ≡ option_map read_whole (get self.old.conns at) }
        ensures notes { StaysNoted self.old self.new }
    {
        if let Some(conn) = self.conns.get_mut(at) {
            conn.has_input = false;
        }
    }

    /// The peer sends no more; it may still read.
    fn end_of_input<S: Sockets>(&mut self, desk: &mut Desk, sockets: &mut S, at: usize)
        ensures serving { StillServesAll self.old self.new
            (S.socket sockets.old) (S.socket sockets.new) }
        ensures asks { S.asked sockets.new ≡ S.asked sockets.old }
        ensures tries { NotCalled (S.tried sockets.old) (S.tried sockets.new) }
        // who is sent something is sent all of it
        ensures stays { IsAt (get self.old.conns at) Watches
            → key_at self.new.conns at ≡ key_at self.old.conns at }
        // nothing is written
        ensures still { (key_at self.new.conns at ≡ None) ⊎ (sockets.new ≡ sockets.old) }
        ensures pauses { self.new.accept_at ≡ self.old.accept_at }
        ensures time { desk.new.time ≡ desk.old.time }
        ensures places { OtherConns self.old.conns self.new.conns at }
        ensures notes { StaysNoted self.old self.new }
        ensures keys { (key_at self.new.conns at ≡ None)
            ⊎ (key_at self.new.conns at ≡ key_at self.old.conns at) }
    {
        self.has_ended(at, desk.time);
        if self.wants_answer(at) {
            return;
        }
        match self.phase(at) {
            Some(Phase::Asks) => self.end(desk, sockets, at, How::Left),
            Some(Phase::Lingers { .. }) => self.end(desk, sockets, at, How::Done),
            _ => self.probe_at(desk, at),
        }
    }

    /// The peer of the connection at a place sends no more.
    fn has_ended(&mut self, at: usize, now: u64)
        ensures same { SameSeating self.old self.new }
        ensures phase { (phase : Phase) → IsAt (get self.old.conns at) phase
            → IsAt (get self.new.conns at) phase }
        ensures here { get self.new.conns at
            ≡ option_map (λ conn. input_ended now (read_whole conn)) (get self.old.conns at) }
        ensures pauses { self.new.accept_at ≡ self.old.accept_at }
        ensures places { OtherConns self.old.conns self.new.conns at }
        ensures notes { StaysNoted self.old self.new }
    {
        if let Some(conn) = self.conns.get_mut(at) {
            conn.has_input = false;
            conn.end_input(now);
        }
    }

    fn phase(&self, at: usize) -> Option<Phase>
        ensures { (phase : Phase) → IsAt (get self.now.conns at) phase → result ≡ Some phase }
    {
        match self.conns.get(at) {
            Some(conn) => Some(conn.phase),
            None => None,
        }
    }

    /// Bytes came: those of a request are heard, others are forgotten.
    fn take(
        &mut self,
        desk: &Desk,
        answers: &mut Answers,
        shown: &Shown<'_>,
        at: usize,
        piece: &[u8],
    ) -> Result<Hearing, AllocError>
        ensures serving { (nodes : List NodeState) (sockets : AllSockets)
            → Contains nodes (answerer shown.now.is_held answers.old.shown.mirror.node
            answers.old.blank.mirror.node)
            → ServesBut nodes shown.now.contest.now self.old.hub self.old.conns sockets at piece.now
            → HearsAll nodes shown.now.contest.now self.new sockets at result }
        ensures mirrors { SameMirrors answers.old answers.new }
        // who can't wait is turned away only where there is no room, or another one is next
        ensures turns { result ≡ Ok Hearing.TooMuch → HasRoom self.old
            → IsAnotherNext self.old.conns at }
        ensures pauses { self.new.accept_at ≡ self.old.accept_at }
        ensures places { OtherConns self.old.conns self.new.conns at }
        ensures input { KeepsInput (get self.old.conns at) (get self.new.conns at) }
        ensures notes { StaysNoted self.old self.new }
        ensures keys { SameKeys self.old.conns self.new.conns }
    {
        let Some(key) = self.asking(at) else {
            if self.forget(at, piece.len()) {
                return Ok(Hearing::Done);
            }
            return Ok(Hearing::Goes);
        };
        self.hear_of(desk, answers, shown, Keyed { at, key }, piece)
    }

    /// Goes on with the connection at a place as what was heard of it wants.
    pub(crate) fn heed<S: Sockets>(
        &mut self,
        desk: &mut Desk,
        sockets: &mut S,
        at: usize,
        heard: Result<Hearing, AllocError>,
    )
        ensures serving { (nodes : List NodeState) (contest : List ℕ)
            → HearsAll nodes contest self.old (S.socket sockets.old) at heard
            → ServesScreens nodes contest self.new.hub self.new.conns (S.socket sockets.new) }
        // of who goes on nothing is ended
        ensures goes { heard ≡ Ok Hearing.Goes
            → (self.new ≡ self.old) × (sockets.new ≡ sockets.old) }
        ensures asks { S.asked sockets.new ≡ S.asked sockets.old }
        ensures tries { NotCalled (S.tried sockets.old) (S.tried sockets.new) }
        ensures pauses { self.new.accept_at ≡ self.old.accept_at }
        ensures input { AllKeepInput self.old.conns self.new.conns }
        ensures time { desk.new.time ≡ desk.old.time }
        ensures notes { StaysNoted self.old self.new }
        // only who can't wait is refused
        ensures turns { key_at self.new.conns at ≡ Some None
            → (key_at self.old.conns at ≡ Some None) ⊎ (heard ≡ Ok Hearing.TooMuch) }
    {
        match heard {
            Ok(Hearing::Goes) => {}
            Ok(Hearing::TooMuch) => self.turn_away(desk, sockets, at),
            Ok(Hearing::Done) => self.end(desk, sockets, at, How::Done),
            Err(_) => self.end(desk, sockets, at, How::Memory),
        }
    }

    /// Hands bytes of a request to the hub, which answers it as one does that shows nothing where
    /// requests are held.
    pub(crate) fn hear_of(
        &mut self,
        desk: &Desk,
        answers: &mut Answers,
        shown: &Shown<'_>,
        keyed: Keyed,
        piece: &[u8],
    ) -> Result<Hearing, AllocError>
        ensures serving { (nodes : List NodeState) (sockets : AllSockets)
            → Contains nodes (answerer shown.now.is_held answers.old.shown.mirror.node
            answers.old.blank.mirror.node)
            → HasKey self.old.conns keyed
            → ServesBut nodes shown.now.contest.now self.old.hub self.old.conns sockets keyed.at
            piece.now
            → HearsAll nodes shown.now.contest.now self.new sockets keyed.at result }
        ensures mirrors { SameMirrors answers.old answers.new }
        // who can't wait is turned away only where there is no room, or another one is next
        ensures turns { result ≡ Ok Hearing.TooMuch → HasRoom self.old
            → IsAnotherNext self.old.conns keyed.at }
        ensures waits { AnswerWaits (get self.new.conns keyed.at) → HasRoom self.old
            → AnswerWaits (get self.old.conns keyed.at) ⊎ IsAnotherNext self.old.conns keyed.at }
        ensures pauses { self.new.accept_at ≡ self.old.accept_at }
        ensures places { OtherConns self.old.conns self.new.conns keyed.at }
        ensures input { KeepsInput (get self.old.conns keyed.at) (get self.new.conns keyed.at) }
        ensures notes { StaysNoted self.old self.new }
        ensures keys { SameKeys self.old.conns self.new.conns }
    {
        let contest = shown.contest;
        if shown.is_held {
            return self.hear(desk, &mut answers.blank, contest, keyed, piece);
        }
        self.hear(desk, &mut answers.shown, contest, keyed, piece)
    }

    /// The key of the connection at a place whose request comes.
    pub(crate) fn asking(&self, at: usize) -> Option<Key>
        ensures some { IfSome result (λ key. (key_at self.now.conns at ≡ Some (Some key))
            × IsAskingSeat (seat_at self.now.hub.seats.slab key)) }
        ensures none { result ≡ None → (key : Key) → key_at self.now.conns at ≡ Some (Some key)
            → ¬ (IsAskingSeat (seat_at self.now.hub.seats.slab key)) }
    {
        let conn = self.conns.get(at)?;
        let key = conn.key?;
        if self.hub.is_asking(key) {
            Some(key)
        } else {
            None
        }
    }

    /// So many bytes that came are forgotten. Whether the connection is to be closed.
    fn forget(&mut self, at: usize, count: usize) -> bool
        ensures same { SameSeating self.old self.new }
        ensures pauses { self.new.accept_at ≡ self.old.accept_at }
        ensures places { OtherConns self.old.conns self.new.conns at }
        ensures input { KeepsInput (get self.old.conns at) (get self.new.conns at) }
        ensures notes { StaysNoted self.old self.new }
    {
        match self.conns.get_mut(at) {
            Some(conn) => conn.forget(count),
            None => false,
        }
    }

    /// Hands bytes of a request to the hub; of no bytes, it is answered where it has come whole.
    fn hear(
        &mut self,
        desk: &Desk,
        answering: &mut Answering,
        contest: &str,
        keyed: Keyed,
        piece: &[u8],
    ) -> Result<Hearing, AllocError>
        ensures serving { (nodes : List NodeState) (sockets : AllSockets)
            → Contains nodes answering.old.mirror.node
            → HasKey self.old.conns keyed
            → ServesBut nodes contest.now self.old.hub self.old.conns sockets keyed.at piece.now
            → HearsAll nodes contest.now self.new sockets keyed.at result }
        ensures mirror { answering.new.mirror ≡ answering.old.mirror }
        // who can't wait is turned away only where there is no room, or another one is next
        ensures turns { result ≡ Ok Hearing.TooMuch → HasRoom self.old
            → IsAnotherNext self.old.conns keyed.at }
        // and only then one begins to wait
        ensures waits { AnswerWaits (get self.new.conns keyed.at) → HasRoom self.old
            → AnswerWaits (get self.old.conns keyed.at) ⊎ IsAnotherNext self.old.conns keyed.at }
        ensures pauses { self.new.accept_at ≡ self.old.accept_at }
        ensures places { OtherConns self.old.conns self.new.conns keyed.at }
        ensures input { KeepsInput (get self.old.conns keyed.at) (get self.new.conns keyed.at) }
        ensures notes { StaysNoted self.old self.new }
        ensures keys { SameKeys self.old.conns self.new.conns }
    {
        let mut rest = piece;
        'parts: loop {
            if self.has_no_room(desk.alloc, answering, contest, keyed, rest) {
                return self.wait_for_room(keyed, rest, desk.time);
            }
            match self.hear_once(desk, answering, contest, keyed, rest)? {
                0 => return Ok(Hearing::Goes),
                taken => rest = &rest[taken..],
            }
        }
    }

    /// Hands some bytes of a request to the hub. How many it took, and none where it takes no more.
    fn hear_once(
        &mut self,
        desk: &Desk,
        answering: &mut Answering,
        contest: &str,
        keyed: Keyed,
        piece: &[u8],
    ) -> Result<usize, AllocError>
        ensures serving { (nodes : List NodeState) (sockets : AllSockets)
            → Contains nodes answering.old.mirror.node
            → HasKey self.old.conns keyed
            → ServesBut nodes contest.now self.old.hub self.old.conns sockets keyed.at piece.now
            → HearsSome nodes contest.now self.new sockets keyed.at piece.now result }
        ensures bound { IfOk result (λ taken. taken ≤ length piece.now) }
        ensures keys { SameKeys self.old.conns self.new.conns }
        ensures mirror { answering.new.mirror ≡ answering.old.mirror }
        // while its request comes, nothing else changes
        ensures comes { IfOk result (λ taken. taken ≢ 0
            → self.new ≡ record self.old { hub = self.new.hub }) }
        // whoever didn't wait does not begin to
        ensures waits { AnswerWaits (get self.new.conns keyed.at)
            → AnswerWaits (get self.old.conns keyed.at) }
        ensures pauses { self.new.accept_at ≡ self.old.accept_at }
        ensures places { OtherConns self.old.conns self.new.conns keyed.at }
        ensures input { KeepsInput (get self.old.conns keyed.at) (get self.new.conns keyed.at) }
        ensures notes { StaysNoted self.old self.new }
    {
        let served = ServedAt {
            contest,
            time: desk.time,
        };
        let heard = self
            .hub
            .hear(desk.alloc, answering, &served, keyed.key, piece)?;
        let Some(status) = heard.status else {
            return Ok(heard.taken);
        };
        self.is_answered(keyed.at, status);
        let id = if heard.is_shared {
            TextId::Opening(answering.made())
        } else {
            TextId::Own(keyed.at)
        };
        let length = self.hub.prefix(keyed.key).len();
        self.owe(keyed.at, length, id, desk.time)?;
        Ok(0)
    }

    fn is_answered(&mut self, at: usize, status: u16)
        ensures same { SameSeating self.old self.new }
        ensures places { OtherConns self.old.conns self.new.conns at }
        ensures here { get self.new.conns at
            ≡ option_map (answered status) (get self.old.conns at) }
        ensures pauses { self.new.accept_at ≡ self.old.accept_at }
        ensures notes { StaysNoted self.old self.new }
    {
        self.totals.answer(status);
        if let Some(conn) = self.conns.get_mut(at) {
            conn.phase = Phase::Watches;
            conn.wait = None;
            conn.status = status;
        }
    }

    /// Serves those who have more to read or to write.
    pub fn serve_more<S: Sockets>(
        &mut self,
        desk: &mut Desk,
        sockets: &mut S,
        answers: &mut Answers,
        shown: &Shown<'_>,
    )
        ensures serving { StillAnswers shown.now.is_held answers.old shown.now.contest.now self.old
            self.new (S.socket sockets.old) (S.socket sockets.new) }
        ensures mirrors { SameMirrors answers.old answers.new }
        ensures asks { S.asked sockets.new ≡ S.asked sockets.old }
        ensures pauses { self.new.accept_at ≡ self.old.accept_at }
        // each that is to be read is, unless it is over by then
        ensures tries { (at : ℕ)
            → IsToBeRead (get self.old.conns at) shown.now.is_held shown.now.hold desk.old.time
            → CalledOnce (S.tried sockets.old at) (S.tried sockets.new at)
            ⊎ (get self.new.conns at ≡ None) }
        ensures notes { StaysNoted self.old self.new }
    {
        let places = self.conns.capacity();
        self.serve_waiting(desk, sockets, answers, shown);
        for at in 0..places {
            self.go_on_at(desk, sockets, answers, shown, at);
        }
    }

    /// Serves the one at a place, where it has more to read or to write.
    fn go_on_at<S: Sockets>(
        &mut self,
        desk: &mut Desk,
        sockets: &mut S,
        answers: &mut Answers,
        shown: &Shown<'_>,
        at: usize,
    )
        ensures serving { StillAnswers shown.now.is_held answers.old shown.now.contest.now self.old
            self.new (S.socket sockets.old) (S.socket sockets.new) }
        ensures mirrors { SameMirrors answers.old answers.new }
        ensures asks { S.asked sockets.new ≡ S.asked sockets.old }
        // where there is something to be read, a read is tried, once, and nowhere else
        ensures tries { IsToBeRead (get self.old.conns at) shown.now.is_held shown.now.hold
            desk.old.time → CalledOnce (S.tried sockets.old at) (S.tried sockets.new at) }
        ensures untried { OthersNotCalled (S.tried sockets.old) (S.tried sockets.new) at }
        ensures pauses { self.new.accept_at ≡ self.old.accept_at }
        ensures others { (other : ℕ) → other ≢ at
            → KeepsInput (get self.old.conns other) (get self.new.conns other) }
        ensures gone { get self.old.conns at ≡ None → get self.new.conns at ≡ None }
        ensures time { desk.new.time ≡ desk.old.time }
        ensures notes { StaysNoted self.old self.new }
    {
        if self.has_more_at(shown, at, desk.time) {
            self.serve(desk, sockets, answers, shown, at);
        }
    }
}
