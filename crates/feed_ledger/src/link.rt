//! A connection to servers of which is known what went over it.

ghost use Rattle.std.specs.Prelude.{◌≡◌, [], Some};
ghost use Rattle.feed_ledger.specs.Seen.{exchanges_in, link_calls_in};

use crate::ledger::{Call, Ledger};
use feed_device::{Link, Stop, Why};

/// A connection, and what its calls answered so far.
#[derive(Drop)]
pub struct NotedLink<L> {
    link: L,
    ledger: Ledger,
}

impl<L> NotedLink<L> {
    /// Nothing went over it yet.
    pub fn new(link: L) -> NotedLink<L>
        ensures link { result.link ≡ link }
        ensures none { result.ledger.entries ≡ [] }
    {
        NotedLink {
            link,
            ledger: Ledger::new(),
        }
    }

    /// The connection itself.
    pub fn link(&self) -> &L
        ensures { result.now ≡ self.now.link }
    {
        &self.link
    }
}

impl<L: Link> Link for NotedLink<L> {
    ghost exchanges = { λ noted. Some (exchanges_in noted.ledger.entries) };

    ghost calls = { λ noted. link_calls_in noted.ledger.entries };

    fn connect(&mut self, server: usize) -> Result<(), Why> {
        let answer = self.link.connect(server);
        self.ledger = self.ledger.after(&Call::Connect(server, answer.is_ok()));
        answer
    }

    fn forget_addresses(&mut self) {
        self.link.forget_addresses();
    }

    fn is_open(&mut self) -> Result<bool, Stop> {
        let answer = self.link.is_open();
        self.ledger = self.ledger.after(&Call::Look(answer));
        answer
    }

    fn read(&mut self, buf: &mut [u8]) -> Result<usize, Stop> {
        let answer = self.link.read(buf);
        self.ledger = self.ledger.after(&Call::Read(0, answer, buf));
        answer
    }

    fn write(&mut self, bytes: &[u8]) -> Result<usize, Stop> {
        let answer = self.link.write(bytes);
        self.ledger = self.ledger.after(&Call::Write(0, answer, bytes));
        answer
    }

    fn close(&mut self) {
        self.link.close();
    }

    fn show_once(&mut self, unread: usize) {
        self.link.show_once(unread);
        self.ledger = self.ledger.after(&Call::ShowOnce(unread));
    }

    fn show_all(&mut self, unread: usize) {
        self.link.show_all(unread);
        self.ledger = self.ledger.after(&Call::ShowAll(unread));
    }
}
