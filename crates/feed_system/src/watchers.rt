//! The status port: those who watch the relay ask it over HTTP, each with one connection. They are
//! answered with what the relay is at that moment, and change nothing of it. Where all places are
//! taken, who is not being answered gives way to who waits.

ghost use Rattle.std.specs.Prelude.{◌≡◌, IsTrue};
ghost use Rattle.feed_system.specs.Guard.{may_connect};

use crate::guard::Guard;
use crate::sockets::{read_once, write_once};
use feed_answer::{HEAD_BYTES, HeadRead, look_at_request};
use feed_arguments::Origin;
use feed_device::Stop;
use feed_status::{Watch, answer};
use mio::net::{TcpListener, TcpStream};
use mio::{Interest, Registry, Token};
use slab::Slab;
use std::alloc::{AllocError, Global};
use std::io;
use std::net::Shutdown;

/// The token of the listener.
pub(crate) const WATCHERS: Token = Token(4);

/// The token of the first connection, and how many there may be at once.
pub(crate) const FIRST_WATCHER: usize = 8;

pub(crate) const MOST_WATCHERS: usize = 8;

/// For how long a connection is kept, in milliseconds.
const TIME: u64 = 5_000;

/// How many bytes one read takes.
const PIECE: usize = 2_048;

/// How many reads and writes one turn makes for each connection.
const STEPS: usize = 8;

/// How many connections one turn takes.
const ACCEPTS: usize = 64;

/// One connection: what came of its request, and what is left of its answer.
#[derive(Drop)]
struct Watcher {
    stream: TcpStream,
    head: Vec<u8>,
    answer: Vec<u8>,
    sent: usize,
    until: u64,
    is_ready: bool,
    // How many came before it.
    number: u64,
}

/// How soon a connection gives way to one that waits.
#[derive(Clone, Copy, PartialEq, Eq)]
enum Claim {
    /// It sent nothing: before all others.
    Silent,
    /// It was sent all of its answer, and is only to be closed.
    Answered,
    /// Its request has not come whole.
    Asks,
    /// It is being answered: not at all.
    Reads,
}

/// What comes after a step.
#[derive(Clone, Copy, PartialEq, Eq)]
enum Step {
    Again,
    Waits,
    Over,
}

impl Watcher {
    /// A connection that came now, after so many others.
    fn new(alloc: Global, stream: TcpStream, now: u64, number: u64) -> Watcher {
        Watcher {
            stream,
            head: Vec::new(alloc),
            answer: Vec::new(alloc),
            sent: 0,
            until: now.saturating_add(TIME),
            is_ready: true,
            number,
        }
    }

    /// Reads more of the request, and makes the answer once the head is whole or can't become so.
    fn read<W: Watch>(&mut self, alloc: Global, relay: &W) -> Step {
        let mut piece = [0u8; PIECE];
        let count = match read_once(&mut self.stream, &mut piece) {
            Ok(0) => return Step::Over,
            Ok(count) => count,
            Err(Stop::Waits) => return Step::Waits,
            Err(_) => return Step::Over,
        };
        match self.take(alloc, &piece[..count], relay) {
            Ok(()) => Step::Again,
            Err(_) => Step::Over,
        }
    }

    fn take<W: Watch>(&mut self, alloc: Global, piece: &[u8], relay: &W) -> Result<(), AllocError> {
        if self.head.len() <= HEAD_BYTES {
            self.head.extend_from_slice(piece)?;
        }
        if self.answer.is_empty() && look_at_request(self.head.as_slice()) != HeadRead::More {
            self.answer = answer(alloc, self.head.as_slice(), relay)?;
        }
        Ok(())
    }

    /// Writes more of the answer. What still comes after it is read and forgotten, since a
    /// connection that is closed with bytes unread may lose its end.
    fn write(&mut self) -> Step {
        let rest = self.answer.get(self.sent..).unwrap_or(&[]);
        match write_once(&mut self.stream, rest) {
            Ok(count) => {
                self.sent = self.sent.saturating_add(count);
                if self.sent >= self.answer.len() {
                    let _ = self.stream.shutdown(Shutdown::Write);
                }
                Step::Again
            }
            Err(Stop::Waits) => Step::Waits,
            Err(_) => Step::Over,
        }
    }

    fn claim(&self) -> Claim {
        if self.head.is_empty() {
            Claim::Silent
        } else if self.answer.is_empty() {
            Claim::Asks
        } else if self.sent >= self.answer.len() {
            Claim::Answered
        } else {
            Claim::Reads
        }
    }

    fn step<W: Watch>(&mut self, alloc: Global, relay: &W) -> Step {
        if self.sent < self.answer.len() {
            self.write()
        } else {
            self.read(alloc, relay)
        }
    }

    /// Goes on as far as it can now. Whether the connection stays.
    fn go_on<W: Watch>(&mut self, alloc: Global, relay: &W) -> bool {
        for _ in 0..STEPS {
            match self.step(alloc, relay) {
                Step::Again => {}
                Step::Waits => {
                    self.is_ready = false;
                    return true;
                }
                Step::Over => return false,
            }
        }
        true
    }
}

/// The status port, where there is one. Nobody who connects to it is ever waited for.
#[derive(Drop)]
pub(crate) struct Watchers {
    registry: Registry,
    listener: Option<TcpListener>,
    guard: Guard,
    is_waited_for: bool,
    watchers: Slab<Watcher>,
    // How many connections came.
    came: u64,
}

impl Watchers {
    pub(crate) fn new(
        alloc: Global,
        registry: Registry,
        listener: Option<TcpListener>,
        guard: Guard,
    ) -> Watchers
        ensures guard { result.guard ≡ guard }
    {
        Watchers {
            registry,
            listener,
            guard,
            is_waited_for: false,
            watchers: Slab::new(alloc),
            came: 0,
        }
    }

    /// How many may not connect, and were closed.
    pub(crate) fn refused(&self) -> u64 {
        self.guard.refused()
    }

    /// An event came for the port.
    pub(crate) fn wake(&mut self) {
        self.is_waited_for = true;
    }

    /// An event came for the connection at a place.
    pub(crate) fn wake_one(&mut self, at: usize) {
        if let Some(watcher) = self.watchers.get_mut(at) {
            watcher.is_ready = true;
        }
    }

    /// When there is something to do for them: at once, or when the next connection has been kept
    /// for long enough.
    pub(crate) fn due(&self) -> u64 {
        if self.is_any_ready() || (self.is_waited_for && self.has_room()) {
            return 0;
        }
        let mut due = u64::MAX;
        for at in 0..MOST_WATCHERS {
            if let Some(watcher) = self.watchers.get(at) {
                due = due.min(watcher.until);
            }
        }
        due
    }

    /// Whether there is something to do for them.
    pub(crate) fn has_work(&self, now: u64) -> bool {
        self.due() <= now
    }

    /// Whether a place is free, or somebody may give way.
    fn has_room(&self) -> bool {
        self.watchers.len() < MOST_WATCHERS || self.weakest().is_some()
    }

    /// The place of the oldest connection with a claim.
    fn oldest(&self, claim: Claim) -> Option<usize> {
        let mut oldest: Option<(u64, usize)> = None;
        for at in 0..MOST_WATCHERS {
            if let Some(watcher) = self.watchers.get(at) {
                let is_older = oldest.is_none_or(|(number, _)| watcher.number < number);
                if watcher.claim() == claim && is_older {
                    oldest = Some((watcher.number, at));
                }
            }
        }
        Some(oldest?.1)
    }

    /// The place of the connection that gives way first.
    fn weakest(&self) -> Option<usize> {
        self.oldest(Claim::Silent)
            .or_else(|| self.oldest(Claim::Answered))
            .or_else(|| self.oldest(Claim::Asks))
    }

    fn is_any_ready(&self) -> bool {
        for at in 0..MOST_WATCHERS {
            if self
                .watchers
                .get(at)
                .is_some_and(|watcher| watcher.is_ready)
            {
                return true;
            }
        }
        false
    }

    /// Goes on with those that are ready, closes those that are late, and takes new ones.
    pub(crate) fn serve<W: Watch>(&mut self, alloc: Global, relay: &W, now: u64) {
        for at in 0..MOST_WATCHERS {
            let stays = match self.watchers.get_mut(at) {
                None => true,
                Some(watcher) => {
                    watcher.until > now && (!watcher.is_ready || watcher.go_on(alloc, relay))
                }
            };
            if !stays {
                let _ = self.watchers.try_remove(at);
            }
        }
        self.accept(alloc, relay, now);
    }

    /// Takes who waits, as many as a turn may. Where nobody gives way, they wait until a place is
    /// free.
    fn accept<W: Watch>(&mut self, alloc: Global, relay: &W, now: u64) {
        for _ in 0..ACCEPTS {
            if !self.is_waited_for || !self.has_room() {
                return;
            }
            if self.accept_one(alloc, relay, now).is_none() {
                self.is_waited_for = false;
            }
        }
    }

    /// Takes one, and closes it where it may not connect; none where nobody waits, or it can't be
    /// taken.
    fn accept_one<W: Watch>(&mut self, alloc: Global, relay: &W, now: u64) -> Option<()> {
        let (stream, peer) = self.listener.as_ref()?.accept().ok()?;
        let origin = Origin::of(peer.ip());
        if !self.guard.lets_in(origin, true) {
            return Some(());
        }
        self.make_room();
        self.seat(alloc, origin, stream, relay, now)
    }

    /// Closes who gives way, where no place is free.
    fn make_room(&mut self)
        ensures guard { self.new.guard ≡ self.old.guard }
    {
        if self.watchers.len() < MOST_WATCHERS {
            return;
        }
        if let Some(at) = self.weakest() {
            let _ = self.watchers.try_remove(at);
        }
    }

    /// Registers for events a connection that is to be at the next place.
    fn register(&self, stream: &mut TcpStream) -> io::Result<()> {
        let at = self.watchers.vacant_key();
        let token = Token(FIRST_WATCHER.saturating_add(at));
        let interests = Interest::READABLE | Interest::WRITABLE;
        self.registry.register(stream, token, interests)
    }

    /// Gives the connection of somebody who may connect a place, and reads what it has sent: who
    /// sent a request doesn't give way as one that sent nothing.
    fn seat<W: Watch>(
        &mut self,
        alloc: Global,
        origin: Origin,
        stream: TcpStream,
        relay: &W,
        now: u64,
    ) -> Option<()>
        requires within { IsTrue (may_connect self.old.guard.networks origin) }
    {
        let _origin = origin;
        let mut watcher = Watcher::new(alloc, stream, now, self.came);
        self.came = self.came.saturating_add(1);
        self.register(&mut watcher.stream).ok()?;
        if watcher.go_on(alloc, relay) {
            self.watchers.insert(watcher).ok()?;
        }
        Some(())
    }
}
