//! Sockets of which is known what went over each connection.

ghost use Rattle.std.specs.Prelude.{◌≡◌, [], Some};
ghost use Rattle.feed_ledger.specs.Seen.{socket_in, asked_in, count_at, is_read, is_write};

use crate::ledger::{Call, Ledger};
use feed_device::{Sockets, Stop};
use std::net::SocketAddr;

/// Sockets, and what their calls answered so far.
#[derive(Drop)]
pub struct NotedSockets<S> {
    sockets: S,
    ledger: Ledger,
}

impl<S> NotedSockets<S> {
    /// Nothing went over any of these yet.
    pub fn new(sockets: S) -> NotedSockets<S>
        ensures sockets { result.sockets ≡ sockets }
        ensures none { result.ledger.entries ≡ [] }
    {
        NotedSockets {
            sockets,
            ledger: Ledger::new(),
        }
    }

    /// The sockets themselves.
    pub fn sockets(&self) -> &S
        ensures { result.now ≡ self.now.sockets }
    {
        &self.sockets
    }
}

impl<S: Sockets> Sockets for NotedSockets<S> {
    ghost socket = { λ noted at. Some (socket_in at noted.ledger.entries) };

    ghost asked = { λ noted. Some (asked_in noted.ledger.entries) };

    ghost offered = { λ noted at. Some (count_at is_write at noted.ledger.entries) };

    ghost tried = { λ noted at. Some (count_at is_read at noted.ledger.entries) };

    fn accept(&mut self, at: usize) -> Result<SocketAddr, Stop> {
        let answer = self.sockets.accept(at);
        self.ledger = self.ledger.after(&Call::Accept(at, answer.is_ok()));
        answer
    }

    fn read(&mut self, at: usize, buf: &mut [u8]) -> Result<usize, Stop> {
        let answer = self.sockets.read(at, buf);
        self.ledger = self.ledger.after(&Call::Read(at, answer, buf));
        answer
    }

    fn write(&mut self, at: usize, bytes: &[u8]) -> Result<usize, Stop> {
        let answer = self.sockets.write(at, bytes);
        self.ledger = self.ledger.after(&Call::Write(at, answer, bytes));
        answer
    }

    fn shut(&mut self, at: usize) {
        self.sockets.shut(at);
    }

    fn close(&mut self, at: usize) {
        self.sockets.close(at);
        self.ledger = self.ledger.after(&Call::Close(at));
    }
}
