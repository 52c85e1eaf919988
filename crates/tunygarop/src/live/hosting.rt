//! What a relay is given for its turns, and what it is called for: the clock, the input, and what
//! is reported. It is noted, in proofs alone, what the input gave and how often all that was done.

ghost use Rattle.std.specs.Prelude.{◌≡◌, [], None, Some};
ghost use Rattle.feed_live.specs.Running.{came_on, InputSoFar};
ghost use Rattle.tunygarop.specs.Hosted.{failures_in, host_calls_in, input_given, input_in};

use crate::live::{Engine, RelayDevices};
use feed_ledger::{Call, Ledger, NotedLink, NotedSockets};
use feed_live::{Given, Host, Input, Live, Restored, Turn};
use feed_state::StateStore;
use feed_system::{Port, Servers};
use std::io;

/// What came of a wait.
#[derive(Clone, Copy)]
pub(super) struct Waited {
    /// The time, in milliseconds since the start.
    pub(super) now: u64,
    /// The same when the wait had ended, in microseconds.
    pub(super) began: u64,
    /// How much was read of the input; nothing where it was not read.
    pub(super) read: Option<usize>,
    /// How many commits were published until then.
    pub(super) commits: u64,
}

/// What a relay runs on, and what came of its calls.
#[derive(Drop)]
pub(super) struct Hosting<'r> {
    engine: Engine<'r>,
    /// What came of the last wait.
    waited: Waited,
    ledger: Ledger,
}

/// What the input has, of which so many bytes were read; nothing where it was not read.
fn input_of(piece: &[u8], read: Option<usize>) -> Input<'_>
    ensures { (so_far : InputSoFar) → came_on result so_far ≡ input_given read piece.now so_far }
{
    match read {
        None => Input::Nothing,
        Some(0) => Input::End,
        Some(count) => Input::Bytes(piece.get(..count).unwrap_or(piece)),
    }
}

impl<'r> Hosting<'r> {
    /// It was not called yet.
    pub(super) fn new(engine: Engine<'r>) -> Hosting<'r>
        ensures none { result.ledger.entries ≡ [] }
        ensures read { result.waited.read ≡ None }
    {
        Hosting {
            engine,
            waited: Waited {
                now: 0,
                began: 0,
                read: None,
                commits: 0,
            },
            ledger: Ledger::new(),
        }
    }

    /// What the input gave last was given.
    fn note_given(&mut self)
        ensures input { input_in self.new.ledger.entries
            ≡ input_given self.old.waited.read self.old.engine.system.piece.items
            (input_in self.old.ledger.entries) }
        ensures calls { host_calls_in self.new.ledger.entries
            ≡ host_calls_in self.old.ledger.entries }
        ensures failed { failures_in self.new.ledger.entries
            ≡ failures_in self.old.ledger.entries }
        ensures waited { self.new.waited ≡ record self.old.waited { read = None } }
    {
        match input_of(self.engine.system.piece.as_slice(), self.waited.read) {
            Input::Nothing => {}
            Input::Bytes(bytes) => self.ledger = self.ledger.after(&Call::Came(bytes)),
            Input::End => self.ledger = self.ledger.after(&Call::CameToEnd),
        }
        self.waited.read = None;
    }
}

impl<'r> Host<NotedSockets<Port>, NotedLink<Servers<'r>>, StateStore<&'r HostRuntime>>
    for Hosting<'r> {
    type Error = io::Error;

    ghost input = { λ hosting. Some (input_given hosting.waited.read
        hosting.engine.system.piece.items (input_in hosting.ledger.entries)) };

    ghost input_before = { λ hosting. Some (input_in hosting.ledger.entries) };

    ghost time = { λ hosting. Some hosting.waited.now };

    ghost calls = { λ hosting. host_calls_in hosting.ledger.entries };

    ghost failed = { λ hosting. Some (failures_in hosting.ledger.entries) };

    fn begin(&mut self, restored: &Restored) -> io::Result<()> {
        self.note_given();
        let begun = self.engine.begin(restored);
        if begun.is_err() {
            self.ledger = self.ledger.after(&Call::Fail);
        }
        begun
    }

    fn wait(&mut self, live: &Live, turn: Turn) -> io::Result<()> {
        self.note_given();
        match self.engine.wait(live, turn) {
            Ok(waited) => {
                let wait = Call::Wait(turn.due, turn.takes_input, turn.is_over);
                self.ledger = self.ledger.after(&wait);
                self.waited = waited;
                Ok(())
            }
            Err(error) => {
                self.ledger = self.ledger.after(&Call::Fail);
                Err(error)
            }
        }
    }

    fn given(&self) -> Given<'_> {
        Given {
            events: &self.engine.system.ready,
            input: input_of(self.engine.system.piece.as_slice(), self.waited.read),
            now: self.waited.now,
        }
    }

    fn report(&mut self, live: &Live, devices: &RelayDevices<'r>) -> io::Result<()> {
        self.note_given();
        self.ledger = self.ledger.after(&Call::Report);
        let reported = self.engine.report(live, devices, &self.waited);
        if reported.is_err() {
            self.ledger = self.ledger.after(&Call::Fail);
        }
        reported
    }
}
