//! The screens' sockets.

ghost use Rattle.std.specs.Prelude.{◌≡◌, ◌≤◌, ◌↔◌, length, IfOk, IsTrue};
ghost use Rattle.feed_system.specs.Guard.{may_connect};
ghost use Rattle.feed_system.specs.Room.{LeavesOthers, MayHaveOneMore};

use crate::guard::Guard;
use crate::tally::{Owner, Tally};
use feed_arguments::Origin;
use feed_device::{Sockets, Stop};
use mio::net::{TcpListener, TcpStream};
use mio::{Interest, Registry, Token};
use std::alloc::{AllocError, Global};
use std::io;
use std::io::{ErrorKind, Read, Write};
use std::net::{Shutdown, SocketAddr};

/// The token of the first screen's socket; those before it are other devices'.
pub(crate) const FIRST_SCREEN: usize = 16;

/// A port that screens connect to, who may connect, and their sockets, each at its number.
#[derive(Drop)]
pub struct Port {
    /// Where listener and sockets are registered for their events.
    registry: Registry,
    /// What takes connections; none if nobody is served.
    listener: Option<TcpListener>,
    /// Who may connect.
    guard: Guard,
    /// Whose the sockets are, if an address may have only so many.
    tally: Option<Tally>,
    /// The socket of each number; none if that is free.
    streams: Vec<Option<TcpStream>>,
}

/// How often a call that a signal broke off is made.
const TRIES: usize = 8;

/// What a failed call of a socket came to.
fn stop_of(error: &io::Error) -> Stop {
    match error.kind() {
        ErrorKind::WouldBlock => Stop::Waits,
        ErrorKind::ConnectionAborted => Stop::Gone,
        ErrorKind::Interrupted => Stop::Gone,
        _ => Stop::Failed,
    }
}

/// Reads once; again where a signal broke that off.
pub(crate) fn read_once(stream: &mut TcpStream, buf: &mut [u8]) -> Result<usize, Stop>
    ensures same { length buf.new ≡ length buf.old }
    ensures bound { IfOk result (λ n. n ≤ length buf.new) }
{
    for _ in 0..TRIES {
        match stream.read(buf) {
            Ok(count) => return Ok(count),
            Err(error) if error.kind() == ErrorKind::Interrupted => {}
            Err(error) => return Err(stop_of(&error)),
        }
    }
    Err(Stop::Failed)
}

/// Writes once; again where a signal broke that off.
pub(crate) fn write_once(stream: &mut TcpStream, bytes: &[u8]) -> Result<usize, Stop>
    ensures bound { IfOk result (λ n. n ≤ length bytes.now) }
{
    for _ in 0..TRIES {
        match stream.write(bytes) {
            Ok(count) => return Ok(count),
            Err(error) if error.kind() == ErrorKind::Interrupted => {}
            Err(error) => return Err(stop_of(&error)),
        }
    }
    Err(Stop::Failed)
}

/// There are as many places as there have to be for this one.
fn reach(streams: &mut Vec<Option<TcpStream>>, at: usize) -> Result<(), AllocError> {
    for _ in streams.len()..=at {
        streams.push(None)?;
    }
    Ok(())
}

/// Ends what comes and what goes over the socket of a number, if that has one.
fn take_leave(streams: &mut Vec<Option<TcpStream>>, at: usize) {
    if let Some(Some(stream)) = streams.get_mut(at) {
        let _ = stream.shutdown(Shutdown::Both);
    }
}

impl Port {
    /// No screens yet. Without a listener none comes. An address may have so many, where that is
    /// limited.
    pub(crate) fn new(
        alloc: Global,
        registry: Registry,
        listener: Option<TcpListener>,
        guard: Guard,
        per_address: Option<u64>,
    ) -> Port
        ensures guard { result.guard ≡ guard }
    {
        let tally = match per_address {
            Some(most) => Some(Tally::new(alloc, most)),
            None => None,
        };
        Port {
            registry,
            listener,
            guard,
            tally,
            streams: Vec::new(alloc),
        }
    }

    /// How many may not connect, and were closed.
    pub(crate) fn refused(&self) -> u64 {
        self.guard.refused()
    }

    fn stream(&mut self, at: usize) -> Option<&mut TcpStream> {
        self.streams.get_mut(at)?.as_mut()
    }

    /// Whether somebody may have one more connection.
    fn has_room(&self, owner: Owner) -> bool
        ensures { IsTrue result ↔ MayHaveOneMore self.now.tally owner }
    {
        match &self.tally {
            Some(tally) => tally.has_room(owner),
            None => true,
        }
    }

    /// Takes leave of a connection of somebody, if there is one that sends no more. That it went
    /// away would only be found when it is written to for the second time.
    fn make_room(&mut self, owner: Owner)
        ensures guard { self.new.guard ≡ self.old.guard }
        ensures others { LeavesOthers self.old.tally self.new.tally owner }
    {
        let Some(tally) = &mut self.tally else {
            return;
        };
        let Some(at) = tally.ended(owner) else {
            return;
        };
        tally.remove(at);
        take_leave(&mut self.streams, at);
    }

    /// Whether who connects stays.
    fn lets_in(&mut self, origin: Origin, owner: Owner) -> bool
        ensures room { IsTrue result → MayHaveOneMore self.new.tally owner }
        ensures within { IsTrue result
            → IsTrue (may_connect self.old.guard.networks origin) }
        ensures stays { MayHaveOneMore self.old.tally owner
            → IsTrue (may_connect self.old.guard.networks origin) → IsTrue result }
        ensures networks { self.new.guard.networks ≡ self.old.guard.networks }
    {
        if !self.has_room(owner) {
            self.make_room(owner);
        }
        let has_room = self.has_room(owner);
        self.guard.lets_in(origin, has_room)
    }

    /// The connection at a number counts as somebody's, where they are counted.
    fn count(&mut self, at: usize, owner: Owner) -> Result<(), AllocError>
        requires { MayHaveOneMore self.old.tally owner }
    {
        match &mut self.tally {
            Some(tally) => tally.add(at, owner),
            None => Ok(()),
        }
    }

    /// The connection at a number sends no more. Where there is no memory to note that, it makes
    /// room for no other one.
    fn end(&mut self, at: usize) {
        if let Some(tally) = &mut self.tally {
            let _ = tally.end(at);
        }
    }

    /// Keeps at its number the socket of somebody who may connect, and has events of it told.
    fn keep(
        &mut self,
        at: usize,
        origin: Origin,
        owner: Owner,
        mut stream: TcpStream,
    ) -> io::Result<()>
        requires room { MayHaveOneMore self.old.tally owner }
        requires within { IsTrue (may_connect self.old.guard.networks origin) }
    {
        let _origin = origin;
        let _ = stream.set_nodelay(true);
        let interests = Interest::READABLE | Interest::WRITABLE;
        let token = Token(FIRST_SCREEN.saturating_add(at));
        reach(&mut self.streams, at)?;
        self.registry.register(&mut stream, token, interests)?;
        self.count(at, owner)?;
        if let Some(place) = self.streams.get_mut(at) {
            *place = Some(stream);
        }
        Ok(())
    }
}

impl Sockets for Port {
    fn accept(&mut self, at: usize) -> Result<SocketAddr, Stop> {
        let Some(listener) = &self.listener else {
            return Err(Stop::Waits);
        };
        let (stream, peer) = listener.accept().map_err(|error| stop_of(&error))?;
        let origin = Origin::of(peer.ip());
        let owner = Owner::of(origin);
        // Who may not connect is closed here, with its socket.
        if !self.lets_in(origin, owner) {
            return Err(Stop::Gone);
        }
        self.keep(at, origin, owner, stream)
            .map_err(|_| Stop::Failed)?;
        Ok(peer)
    }

    fn read(&mut self, at: usize, buf: &mut [u8]) -> Result<usize, Stop> {
        let Some(stream) = self.stream(at) else {
            return Err(Stop::Failed);
        };
        let count = read_once(stream, buf)?;
        if count == 0 {
            self.end(at);
        }
        Ok(count)
    }

    fn write(&mut self, at: usize, bytes: &[u8]) -> Result<usize, Stop> {
        match self.stream(at) {
            Some(stream) => write_once(stream, bytes),
            None => Err(Stop::Failed),
        }
    }

    fn shut(&mut self, at: usize) {
        if let Some(stream) = self.stream(at) {
            let _ = stream.shutdown(Shutdown::Write);
        }
    }

    fn close(&mut self, at: usize) {
        if let Some(tally) = &mut self.tally {
            tally.remove(at);
        }
        if let Some(place) = self.streams.get_mut(at) {
            *place = None;
        }
    }
}
