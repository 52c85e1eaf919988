//! What comes on connections, and goes to them.

ghost use Rattle.std.specs.Prelude.{◌≡◌, ◌⊎◌, ◌+◌, ◌-◌, ◌<◌, ◌≤◌, ◌↔◌, ◌^◌, ◌++◌, [], List, ℕ, None, Some, IsTrue, IsSome, IsOk, IfOk, OnOk, OnErr, Contains, length, take};
ghost use Rattle.std.specs.List.{list_any};
ghost use Rattle.slab.specs.Slab.{slab_len, HasRoomFor};
ghost use Rattle.feed_node.specs.States.{NodeState};
ghost use Rattle.feed_answer.specs.Answered.{AnswerParts};
ghost use Rattle.feed_hub.specs.Steps.{idled, taken, HasNext, IsCatchingUp, IsWaiting, IsQuiet, Probes};
ghost use Rattle.feed_hub.specs.Answering.{NumbersText};
ghost use Rattle.feed_hub.specs.Asking.{IsSeatFull};
ghost use Rattle.feed_hub.specs.Seats.{seat_at, Others, SameSeats, KeepsThose, IsOnTime, Watched, IsWatcher, IsAskingSeat, IsOverSeat};
ghost use Rattle.feed_hub.specs.Backlog.{end_of};
ghost use Rattle.feed_hub.specs.Frames.{is_since};
ghost use Rattle.feed_hub.specs.Turn.{marked};
ghost use Rattle.feed_hub.specs.Hub.{IsSeated, IsStillSeated, IsAnsweredBy, prefix_at, SameLimits, ChangesOnly, IsNew, TakesOfHead, IsAnswered, SharesTheText, HearsOf, HearsAt, HoldsAt, TellsTextAt, Refills};

use crate::answering::Answering;
use crate::asking::Asking;
use crate::backlog::Full;
use crate::broadcast::Broadcast;
use crate::hub::{Heard, Hub, ServedAt};
use crate::screen::{Refill, Screen, bytes_of};
use crate::seats::{Key, Seat};
use feed_answer::{Framing, Reply, reply_to};
use feed_node::Node;
use std::alloc::{AllocError, Global};

/// The status of an answer that opens with a snapshot.
const OK: u16 = 200;

/// Answers a head of which so many bytes were taken now. A fresh request shares the text that the
/// mirror has for those.
fn answer(
    alloc: Global,
    framing: Framing,
    head: &[u8],
    answering: &mut Answering,
    served: &ServedAt<'_>,
    taken: usize,
) -> Result<(Screen, Heard), AllocError>
    ensures answers { IfOk result (λ heard. IsAnswered head.now served.now.contest.now
        answering.old.mirror.node framing served.now.time heard.0 heard.1.status) }
    ensures taken { IfOk result (λ heard. heard.1.taken ≡ taken) }
    ensures shared { IfOk result (λ heard.
        SharesTheText answering.new.opening heard.1.is_shared (Some (Seat.Watches heard.0))) }
    ensures made { NumbersText answering.old.opening answering.new.opening answering.old.made
        answering.new.made }
    ensures mirror { answering.new.mirror ≡ answering.old.mirror }
    ensures framing { answering.new.framing ≡ answering.old.framing }
{
    match reply_to(alloc, head, answering.node(), served.contest, framing, 0)? {
        Reply::Whole(answered) => {
            let screen = Screen::open(
                answered.framing,
                bytes_of(answered.bytes)?,
                answered.session,
                served.time,
            )?;
            let heard = Heard {
                taken,
                status: Some(answered.status),
                is_shared: false,
            };
            Ok((screen, heard))
        }
        Reply::Snapshot(framing, session) => {
            let (text, is_shared) = answering.open(alloc, framing)?;
            let screen = Screen::open(framing, text, Some(session), served.time)?;
            let heard = Heard {
                taken,
                status: Some(OK),
                is_shared,
            };
            Ok((screen, heard))
        }
    }
}

/// Takes more of a request's head, and answers it where that is enough.
fn hear_more(
    alloc: Global,
    framing: Framing,
    asking: Asking,
    answering: &mut Answering,
    served: &ServedAt<'_>,
    piece: &[u8],
) -> Result<(Seat, Heard), AllocError>
    ensures takes { IfOk result (λ heard.
        TakesOfHead asking.head.items piece.now heard.1.taken) }
    ensures heard { (b : Broadcast) → b.framing ≡ framing → IfOk result (λ heard. HearsOf b
        served.now.contest.now answering.old.mirror.node served.now.time asking
        (asking.head.items ++ take heard.1.taken piece.now) heard.1.status heard.0) }
    ensures moves { IfOk result (λ heard. IsAskingSeat (Some heard.0) → heard.1.taken ≡ 0
        → piece.now ≡ []) }
    ensures shared { IfOk result (λ heard.
        SharesTheText answering.new.opening heard.1.is_shared (Some heard.0)) }
    ensures made { NumbersText answering.old.opening answering.new.opening answering.old.made
        answering.new.made }
    ensures mirror { answering.new.mirror ≡ answering.old.mirror }
    ensures framing { answering.new.framing ≡ answering.old.framing }
{
    let mut asking = asking;
    let (taken, is_enough) = asking.hear(piece)?;
    if !is_enough {
        let heard = Heard {
            taken,
            status: None,
            is_shared: false,
        };
        return Ok((Seat::Asks(asking), heard));
    }
    let (screen, heard) = answer(alloc, framing, asking.head(), answering, served, taken)?;
    Ok((Seat::Watches(screen), heard))
}

impl Hub {
    /// A connection came: its request is to have come by a time. It fails where as many are there
    /// as there may be, where memory runs out, and where 2^64 - 1 keys were given.
    pub fn open(&mut self, alloc: Global, until: u64) -> Result<Key, Full>
        ensures ok { IfOk result (IsNew self.old self.new until) }
        ensures vacant { IfOk result (λ key. seat_at self.old.seats.slab key ≡ None) }
        ensures others { IfOk result
            (Others self.old.seats.slab self.new.seats.slab) }
        ensures room { OnOk result (slab_len self.old.seats.slab < self.old.most) }
        ensures ample { slab_len self.old.seats.slab < self.old.most
            → HasRoomFor self.old.seats.slab 1 → self.old.seats.next < 2 ^ 64 - 1 → IsOk result }
        ensures err { OnErr result ((self.new.seats.next ≡ self.old.seats.next)
            × SameSeats self.old.seats.slab self.new.seats.slab) }
        ensures broadcast { self.new.broadcast ≡ self.old.broadcast }
        ensures limits { SameLimits self.old self.new }
        ensures turn { self.new.turn ≡ self.old.turn }
    {
        if self.seats.len() >= self.most {
            return Err(Full);
        }
        self.seats.open(Seat::Asks(Asking::new(alloc, until)))
    }

    /// Bytes came on a connection: those of its request count, up to its head's end, and those
    /// after it are ignored. A request takes no more than it needs at once. One that asks for
    /// everything shares the text of the snapshot with others, which is made at once where there
    /// is none. Where memory runs out the connection is cut.
    pub fn hear(
        &mut self,
        alloc: Global,
        answering: &mut Answering,
        served: &ServedAt<'_>,
        key: Key,
        piece: &[u8],
    ) -> Result<Heard, AllocError>
        ensures heard { IfOk result (λ heard. HearsAt self.old.broadcast served.now.contest.now
            answering.old.mirror.node served.now.time piece.now heard
            (seat_at self.old.seats.slab key) (seat_at self.new.seats.slab key)) }
        ensures served { (nodes : List NodeState) (asking : Asking) (s : Screen)
            → seat_at self.old.seats.slab key ≡ Some (Seat.Asks asking)
            → seat_at self.new.seats.slab key ≡ Some (Seat.Watches s)
            → IfOk result (λ heard. IsAnsweredBy answering.old.mirror.node served.now.contest.now
            self.old.broadcast.framing (asking.head.items ++ take heard.taken piece.now)
            (λ answer. IsSeated nodes self.new key answer [])) }
        // while a request comes, some of the bytes are taken, where there are some
        ensures moves { IfOk result (λ heard. IsAskingSeat (seat_at self.new.seats.slab key)
            → heard.taken ≡ 0 → piece.now ≡ []) }
        ensures shared { IfOk result (λ heard. SharesTheText answering.new.opening heard.is_shared
            (seat_at self.new.seats.slab key)) }
        ensures made { NumbersText answering.old.opening answering.new.opening
            answering.old.made answering.new.made }
        ensures mirror { answering.new.mirror ≡ answering.old.mirror }
        ensures framing { answering.new.framing ≡ answering.old.framing }
        ensures err { OnErr result (IsAskingSeat (seat_at self.old.seats.slab key)
            × (seat_at self.new.seats.slab key ≡ None)) }
        ensures rest { ChangesOnly self.old self.new key }
    {
        let Some(asking) = self.seats.take_asking(key) else {
            return Ok(Heard {
                taken: 0,
                status: None,
                is_shared: false,
            });
        };
        let framing = self.broadcast.framing();
        let (seat, heard) = hear_more(alloc, framing, asking, answering, served, piece)?;
        self.seats.put_back(key, seat);
        Ok(heard)
    }

    /// Bytes came on a connection whose request is to wait: they are taken as `hear` does, and
    /// nothing is answered. There is time until then; `hear` answers it, of no further bytes. How
    /// many it took: none where no request comes. Where memory runs out the connection is cut.
    pub fn hold(&mut self, key: Key, piece: &[u8], until: u64) -> Result<usize, AllocError>
        ensures held { IfOk result (λ taken. HoldsAt until piece.now taken
            (seat_at self.old.seats.slab key) (seat_at self.new.seats.slab key)) }
        ensures err { OnErr result (IsAskingSeat (seat_at self.old.seats.slab key)
            × (seat_at self.new.seats.slab key ≡ None)) }
        ensures full { OnErr result
            (IsSeatFull piece.now (seat_at self.old.seats.slab key)) }
        ensures rest { ChangesOnly self.old self.new key }
    {
        let Some(asking) = self.seats.take_asking(key) else {
            return Ok(0);
        };
        let mut asking = asking;
        let (taken, _) = asking.hear(piece)?;
        asking.wait_until(until);
        self.seats.put_back(key, Seat::Asks(asking));
        Ok(taken)
    }

    /// Whether the next bytes of a connection end a request for which a text of the snapshot has to
    /// be made, since there is none that it can share.
    pub fn makes_text(
        &self,
        alloc: Global,
        answering: &Answering,
        contest: &str,
        key: Key,
        piece: &[u8],
    ) -> Result<bool, AllocError>
        ensures { IfOk result (TellsTextAt self.now.broadcast contest.now
            answering.now.mirror.node answering.now.framing answering.now.opening piece.now
            (seat_at self.now.seats.slab key)) }
    {
        let Some(Seat::Asks(asking)) = self.seats.get(key) else {
            return Ok(false);
        };
        let head = asking.with(alloc, piece)?;
        answering.makes_text(alloc, head.as_slice(), contest, self.broadcast.framing())
    }

    /// Gets what comes next for a screen that has been handed all of its own; one that is as far as
    /// the log follows that from then on. A long text that no screen has yet needs room. Where
    /// memory runs out the connection is cut.
    pub fn refill(
        &mut self,
        alloc: Global,
        node: &Node,
        key: Key,
        has_room: bool,
        now: u64,
    ) -> Result<Refill, AllocError>
        ensures ok { IfOk result (λ got. Watched
            (Refills self.old.broadcast node.now.shown has_room now got)
            (seat_at self.old.seats.slab key) (seat_at self.new.seats.slab key)) }
        ensures served { (nodes : List NodeState) → Contains nodes node.now.shown
            → OnOk result (IsStillSeated nodes self.old self.new key) }
        ensures err { OnErr result ((seat_at self.new.seats.slab key ≡ None)
            × IsWatcher (HasNext node.now.shown) (seat_at self.old.seats.slab key)) }
        ensures rest { ChangesOnly self.old self.new key }
    {
        let Some(screen) = self.seats.take_screen(key) else {
            return Ok(Refill::Goes(None));
        };
        let mut screen = screen;
        let got = screen.refill(alloc, node, &mut self.frames, has_room, now)?;
        screen.join(
            self.broadcast.log(),
            self.broadcast.told(),
            self.broadcast.framing(),
        );
        self.seats.put_back(key, Seat::Watches(screen));
        Ok(got)
    }

    /// Forgets the long texts that no screen has any more.
    pub fn tidy(&mut self)
        ensures seats { self.new.seats ≡ self.old.seats }
        ensures broadcast { self.new.broadcast ≡ self.old.broadcast }
        ensures limits { SameLimits self.old self.new }
        ensures turn { self.new.turn ≡ self.old.turn }
    {
        self.frames.tidy();
    }

    /// How many long commits were made for those who catch up.
    pub fn commits_made(&self) -> u64
        ensures { result ≡ self.now.frames.next }
    {
        self.frames.made()
    }

    /// Whether one of so many bytes was made after so many others, and some screen has yet to take
    /// it, or had it lately.
    pub fn has_made(&self, made: u64, length: usize) -> bool
        ensures { result ≡ list_any (is_since made length) self.now.frames.kept.items }
    {
        self.frames.has_since(made, length)
    }

    /// Whether a screen sits at a key that takes what comes next from the commits that the node
    /// keeps.
    pub fn catches_up(&self, key: Key) -> bool
        ensures { IsTrue result ↔ IsWatcher (λ s. IsCatchingUp s.way)
            (seat_at self.now.seats.slab key) }
    {
        match self.seats.get(key) {
            Some(Seat::Watches(screen)) => screen.catches_up(),
            Some(Seat::Asks(_)) => false,
            None => false,
        }
    }

    /// Keeps a screen alive that catches up and has nothing of its own: it gets a line feed. To be
    /// called for each connection beside `say_idle`. Where memory runs out the connection is cut.
    pub fn idle(&mut self, alloc: Global, key: Key, now: u64) -> Result<(), AllocError>
        ensures ok { OnOk result (Watched (λ s t. t ≡ idled now s)
            (seat_at self.old.seats.slab key) (seat_at self.new.seats.slab key)) }
        ensures served { (nodes : List NodeState)
            → OnOk result (IsStillSeated nodes self.old self.new key) }
        ensures err { OnErr result ((seat_at self.new.seats.slab key ≡ None)
            × IsWatcher IsWaiting (seat_at self.old.seats.slab key)) }
        ensures rest { ChangesOnly self.old self.new key }
    {
        if let Some(screen) = self.seats.take_screen(key) {
            let mut screen = screen;
            screen.idle(alloc, now)?;
            self.seats.put_back(key, Seat::Watches(screen));
        }
        Ok(())
    }

    /// Sends a line feed to the screen at a key, where its body goes on and nothing is pending: so
    /// it is soon seen whether that is still there. Where memory runs out the connection is cut.
    pub fn probe(&mut self, alloc: Global, key: Key, now: u64) -> Result<(), AllocError>
        ensures ok { OnOk result (Watched (Probes self.old.broadcast.log now)
            (seat_at self.old.seats.slab key) (seat_at self.new.seats.slab key)) }
        ensures served { (nodes : List NodeState)
            → OnOk result (IsStillSeated nodes self.old self.new key) }
        ensures err { OnErr result ((seat_at self.new.seats.slab key ≡ None)
            × IsWatcher (IsQuiet self.old.broadcast.log) (seat_at self.old.seats.slab key)) }
        ensures rest { ChangesOnly self.old self.new key }
    {
        if let Some(screen) = self.seats.take_screen(key) {
            let mut screen = screen;
            screen.probe(alloc, self.broadcast.log(), now)?;
            self.seats.put_back(key, Seat::Watches(screen));
        }
        Ok(())
    }

    /// Whether there are as many connections as there may be.
    pub fn is_full(&self) -> bool
        ensures { IsTrue result ↔ (self.now.most ≤ slab_len self.now.seats.slab) }
    {
        self.seats.len() >= self.most
    }

    /// Whether there is a connection at a key: one that is not was cut.
    pub fn has(&self, key: Key) -> bool
        ensures { IsTrue result ↔ IsSome (seat_at self.now.seats.slab key) }
    {
        self.seats.get(key).is_some()
    }

    /// Whether the request of a connection is still coming.
    pub fn is_asking(&self, key: Key) -> bool
        ensures { IsTrue result ↔ IsAskingSeat (seat_at self.now.seats.slab key) }
    {
        match self.seats.get(key) {
            Some(Seat::Asks(_)) => true,
            Some(Seat::Watches(_)) => false,
            None => false,
        }
    }

    /// Whether all was handed over, and nothing more will come: the connection is to be shut down
    /// for writing, and read to its end, for a time (RFC 9112, section 9.6).
    pub fn is_over(&self, key: Key) -> bool
        ensures { IsTrue result ↔ IsOverSeat (seat_at self.now.seats.slab key) }
    {
        match self.seats.get(key) {
            Some(Seat::Watches(screen)) => screen.is_over(),
            Some(Seat::Asks(_)) => false,
            None => false,
        }
    }

    /// What the next write to a connection may take.
    pub fn prefix(&self, key: Key) -> &[u8]
        ensures { result.now ≡ prefix_at self.now key }
    {
        match self.seats.get(key) {
            Some(Seat::Watches(screen)) => screen.prefix(self.broadcast.log()),
            Some(Seat::Asks(_)) => &[],
            None => &[],
        }
    }

    /// So many bytes of that were handed over.
    pub fn sent(&mut self, key: Key, count: usize, now: u64)
        requires { count ≤ length (prefix_at self.old key) }
        ensures exact { Watched (λ s t. t ≡ taken count now s)
            (seat_at self.old.seats.slab key) (seat_at self.new.seats.slab key) }
        ensures served { (nodes : List NodeState) (answer : AnswerParts) (handed : List ℕ)
            → IsSeated nodes self.old key answer handed
            → IsSeated nodes self.new key answer (handed ++ take count (prefix_at self.old key)) }
        ensures rest { ChangesOnly self.old self.new key }
    {
        if let Some(screen) = self.seats.take_screen(key) {
            let mut screen = screen;
            screen.sent(self.broadcast.log(), count, now);
            self.seats.put_back(key, Seat::Watches(screen));
        }
    }

    /// A connection is gone.
    pub fn leave(&mut self, key: Key)
        ensures seat { seat_at self.new.seats.slab key ≡ None }
        ensures rest { ChangesOnly self.old self.new key }
    {
        self.seats.leave(key);
    }

    /// Cuts each connection whose request is late, and each screen that took nothing for a time
    /// though it has bytes of its own, or lacks some that all were sent as long ago.
    pub fn cut_late(&mut self, now: u64, stall: u64)
        ensures cuts { KeepsThose (IsOnTime now stall self.new.turn.mark.place)
            self.old.seats.slab self.new.seats.slab }
        ensures broadcast { self.new.broadcast ≡ self.old.broadcast }
        ensures next { self.new.seats.next ≡ self.old.seats.next }
        ensures turn { self.new.turn ≡ record self.old.turn {
          mark = marked self.old.turn.mark now stall (end_of self.old.broadcast.log);
        } }
        ensures limits { SameLimits self.old self.new }
    {
        let end = self.broadcast.log().end();
        let mark = self.turn.mark.at(now, stall, end);
        self.turn.mark = mark;
        self.seats.cut_late(now, stall, mark.place);
    }
}
