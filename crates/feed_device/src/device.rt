//! What a turn reads from and writes to, by what a contract can say of it.

ghost use Rattle.std.specs.Prelude.{◌≡◌, ◌≢◌, ◌<◌, ◌≤◌, ℕ, List, [], Option, None, Some, length, take, option_map, IfOk, OnOk};
ghost use Rattle.std.specs.Io.KnownBytes.{WriteAppends};
ghost use Rattle.feed_device.specs.Calls.{CalledOnce, AllCalls, NotCalled, OthersNotCalled};
ghost use Rattle.feed_device.specs.Calls.{LinkCalls, uncounted, HasBegun, HasLooked, HasRead, HasWritten};
ghost use Rattle.feed_device.specs.Files.{StateFiles, unknown_files, file_text, IsKnown, OtherFilesStay, HasAppended, IsLeftOf, gone_on_from};
ghost use Rattle.feed_device.specs.declared.device.FileSlot.TheVariants.{Next};
ghost use Rattle.feed_device.specs.declared.device.Stop.TheVariants.{Failed};
ghost use Rattle.feed_device.specs.Links.{Exchange, BeginsLink, WritesSome, Receives, shown_so, once_at, all_from};
ghost use Rattle.feed_device.specs.Sockets.{Socket, IsAccept, GivesBytes, IsWrite, closed, goes_on_with, SameSockets, OtherSockets};

use crate::report::Why;
use std::alloc::AllocError;
use std::net::SocketAddr;

/// Why a device did nothing.
#[derive(Clone, Copy)]
pub enum Stop {
    /// It would have to wait: an event comes when it is ready again.
    Waits,
    /// It is this one that failed, and the next may not: a connection that broke off before it was
    /// taken.
    Gone,
    /// It failed.
    Failed,
}

impl From<AllocError> for Stop {
    ghost from_gives = { λ _ stop. stop ≡ Failed };

    fn from(_error: AllocError) -> Stop {
        Stop::Failed
    }
}

/// The sockets of screens, each at a number that is given to it.
pub trait Sockets {
    // What went over the connections at a number, where it is known.
    ghost socket: { Self → ℕ → Option Socket } = { λ _ _. None };

    // How often a connection was asked for, and at each number a write was offered and a read was
    // tried, where that is counted.
    ghost asked: { Self → Option ℕ } = { λ _. None };

    ghost offered: { Self → AllCalls } = { λ _ _. None };

    ghost tried: { Self → AllCalls } = { λ _ _. None };

    /// Takes the connection that has waited longest, and answers who it is. It never waits.
    fn accept(&mut self, at: usize) -> Result<SocketAddr, Stop>
        ensures connection { IsAccept (socket self.old at) (socket self.new at) result }
        ensures others { OtherSockets (socket self.old) (socket self.new) at }
        ensures asks { CalledOnce (asked self.old) (asked self.new) }
        ensures offers { NotCalled (offered self.old) (offered self.new) }
        ensures tries { NotCalled (tried self.old) (tried self.new) };

    /// Reads some bytes to the start of `buf`, and answers how many: none where no more come.
    fn read(&mut self, at: usize, buf: &mut [u8]) -> Result<usize, Stop>
        requires { 0 < length buf.old }
        ensures same { length buf.new ≡ length buf.old }
        ensures bound { IfOk result (λ n. n ≤ length buf.new) }
        ensures bytes { GivesBytes (socket self.old at) (socket self.new at) result buf.new }
        ensures others { OtherSockets (socket self.old) (socket self.new) at }
        ensures asks { asked self.new ≡ asked self.old }
        ensures offers { NotCalled (offered self.old) (offered self.new) }
        ensures tries { CalledOnce (tried self.old at) (tried self.new at) }
        ensures untried { OthersNotCalled (tried self.old) (tried self.new) at };

    /// Writes some of the bytes, from the first on, and answers how many.
    fn write(&mut self, at: usize, bytes: &[u8]) -> Result<usize, Stop>
        requires { bytes.now ≢ [] }
        ensures bound { IfOk result (λ n. n ≤ length bytes.now) }
        ensures bytes { IsWrite (socket self.old at) (socket self.new at) result bytes.now }
        ensures others { OtherSockets (socket self.old) (socket self.new) at }
        ensures asks { asked self.new ≡ asked self.old }
        ensures offers { CalledOnce (offered self.old at) (offered self.new at) }
        ensures rest { OthersNotCalled (offered self.old) (offered self.new) at }
        ensures tries { NotCalled (tried self.old) (tried self.new) };

    /// Ends what is sent; what comes may still be read.
    fn shut(&mut self, at: usize)
        ensures sockets { SameSockets (socket self.old) (socket self.new) }
        ensures asks { asked self.new ≡ asked self.old }
        ensures offers { NotCalled (offered self.old) (offered self.new) }
        ensures tries { NotCalled (tried self.old) (tried self.new) };

    /// Closes the connection, where there is one. What went over it stays known.
    fn close(&mut self, at: usize)
        ensures closed { socket self.new at ≡ goes_on_with closed (socket self.old at) }
        ensures others { OtherSockets (socket self.old) (socket self.new) at }
        ensures asks { asked self.new ≡ asked self.old }
        ensures offers { NotCalled (offered self.old) (offered self.new) }
        ensures tries { NotCalled (tried self.old) (tried self.new) };
}

/// The connection to one server of several. A server is what may answer at one address: a name that
/// has several counts as several.
pub trait Link {
    // What went over each connection so far, the latest first, where that is known.
    ghost exchanges: { Self → Option (List Exchange) } = { λ _. None };

    // How often a connection was begun, also where that failed, and what each other call answered,
    // where that is known.
    ghost calls: { Self → LinkCalls } = { λ _. uncounted };

    /// Begins to connect to the server of this number. One that was open is closed. An error says
    /// why nothing was begun.
    fn connect(&mut self, server: usize) -> Result<(), Why>
        ensures begins { BeginsLink (exchanges self.old) (exchanges self.new) result server }
        ensures calls { HasBegun (calls self.old) (calls self.new) };

    /// Each server failed: the addresses of names are asked for again before the next connection.
    fn forget_addresses(&mut self)
        ensures unchanged { exchanges self.new ≡ exchanges self.old }
        ensures calls { calls self.new ≡ calls self.old };

    /// Whether the connection that was begun is open. It is asked again after each event until it
    /// is, or fails.
    fn is_open(&mut self) -> Result<bool, Stop>
        ensures unchanged { exchanges self.new ≡ exchanges self.old }
        ensures calls { HasLooked result (calls self.old) (calls self.new) };

    /// Reads some bytes to the start of `buf`, and answers how many: none where no more come.
    fn read(&mut self, buf: &mut [u8]) -> Result<usize, Stop>
        requires { 0 < length buf.old }
        ensures same { length buf.new ≡ length buf.old }
        ensures bound { IfOk result (λ n. n ≤ length buf.new) }
        ensures bytes { Receives (exchanges self.old) (exchanges self.new) result buf.new }
        ensures calls { HasRead result (calls self.old) (calls self.new) };

    /// Writes some of the bytes, from the first on, and answers how many.
    fn write(&mut self, bytes: &[u8]) -> Result<usize, Stop>
        requires { bytes.now ≢ [] }
        ensures bound { IfOk result (λ n. n ≤ length bytes.now) }
        ensures bytes { WritesSome (exchanges self.old) (exchanges self.new) result bytes.now }
        ensures calls { HasWritten result (calls self.old) (calls self.new) };

    /// Closes the connection, where there is one.
    fn close(&mut self)
        ensures unchanged { exchanges self.new ≡ exchanges self.old }
        ensures calls { calls self.new ≡ calls self.old };

    /// Screens are shown what came of this response, all but so many bytes, as it is now. No more
    /// of the response will be shown. A device need do nothing.
    fn show_once(&mut self, unread: usize)
        ensures shown { exchanges self.new
            ≡ option_map (shown_so once_at unread) (exchanges self.old) }
        ensures calls { calls self.new ≡ calls self.old };

    /// Screens are shown what came of this response, all but so many bytes, and each state that it
    /// publishes from there on. A device need do nothing.
    fn show_all(&mut self, unread: usize)
        ensures shown { exchanges self.new
            ≡ option_map (shown_so all_from unread) (exchanges self.old) }
        ensures calls { calls self.new ≡ calls self.old };
}

/// What becomes of the file that is kept beside the state file, when that is begun again.
#[derive(Clone, Copy)]
pub enum Before {
    /// The former state file takes its place.
    Replaced,
    /// It stays.
    Stays,
    /// It goes: it is of another feed.
    Goes,
}

/// Which of the two files is written.
#[derive(Clone, Copy)]
pub enum FileSlot {
    /// The state file.
    Current,
    /// The one that takes its place once it is whole.
    Next,
}

/// The file of the state, the one that takes its place once it is whole, and the one before.
pub trait Store {
    // What they have, where that is known.
    ghost files: { Self → StateFiles } = { λ _. unknown_files };

    // How often something was to be appended to them, where that is counted.
    ghost appended: { Self → Option ℕ } = { λ _. None };

    /// What the file had when the relay began, once: so far as it is a state.
    fn read(&mut self) -> Result<Vec<u8>, Stop>
        ensures left { (texts : List (List ℕ)) → (files self.old).had ≡ Some texts
            → IfOk result (λ text. IsLeftOf texts text.items) }
        ensures file { (text : List ℕ) → (files self.old).written ≡ Some text
            → IfOk result (λ found. found.items ≡ text) }
        ensures same { files self.new ≡ files self.old }
        ensures calls { appended self.new ≡ appended self.old };

    /// What the file before had then, once, where the file goes on from it.
    fn read_former(&mut self) -> Result<Vec<u8>, Stop>
        ensures left { (texts : List (List ℕ)) → (files self.old).had ≡ Some texts
            → IfOk result (λ text. IsLeftOf texts text.items) }
        ensures same { files self.new ≡ files self.old }
        ensures calls { appended self.new ≡ appended self.old };

    /// Goes on with the file, of which only so many bytes count.
    fn resume(&mut self, length: u64) -> Result<(), Stop>
        ensures file { (text : List ℕ) → (files self.old).written ≡ Some text
            → OnOk result ((files self.new).written ≡ Some (take length text)) }
        ensures next { (files self.new).next ≡ (files self.old).next }
        ensures former { (files self.new).former ≡ None }
        ensures had { (files self.new).had ≡ (files self.old).had }
        ensures calls { appended self.new ≡ appended self.old };

    /// Appends some of the bytes to a file, from the first on, and answers how many.
    fn append(&mut self, slot: FileSlot, bytes: &[u8]) -> Result<usize, Stop>
        ensures bound { IfOk result (λ n. n ≤ length bytes.now) }
        ensures bytes { WriteAppends (file_text slot (files self.old))
            (file_text slot (files self.new)) result bytes.now }
        ensures rest { OtherFilesStay slot (files self.old) (files self.new) }
        ensures had { (text : List ℕ) → file_text slot (files self.old) ≡ Some text
            → HasAppended (files self.old).had (files self.new).had text bytes.now
            result }
        ensures calls { CalledOnce (appended self.old) (appended self.new) };

    /// Begins the file that is to take its place.
    fn begin(&mut self) -> Result<(), Stop>
        ensures begun { (text : List ℕ) → (files self.old).next ≡ Some text
            → OnOk result ((files self.new).next ≡ Some []) }
        ensures known { IsKnown (files self.old).next → IsKnown (files self.new).next }
        ensures rest { OtherFilesStay Next (files self.old) (files self.new) }
        ensures had { (files self.new).had ≡ (files self.old).had }
        ensures calls { appended self.new ≡ appended self.old };

    /// It takes the place of the file. What becomes of the one before is said, too.
    fn replace(&mut self, before: Before) -> Result<(), Stop>
        ensures file { (text : List ℕ) → (files self.old).next ≡ Some text
            → OnOk result ((files self.new).written ≡ Some text) }
        ensures former { OnOk result
            ((files self.new).former ≡ gone_on_from before (files self.old).written) }
        ensures known { IsKnown (files self.old).next → IsKnown (files self.new).next }
        ensures had { (files self.new).had ≡ (files self.old).had }
        ensures calls { appended self.new ≡ appended self.old };
}

/// All that a turn reads from and writes to.
#[derive(Drop)]
pub struct Devices<S, L, D> {
    /// Those of the screens.
    pub sockets: S,
    /// The connection to the server that is asked.
    pub link: L,
    /// The state files.
    pub store: D,
}

/// What became ready.
#[derive(Clone, Copy)]
pub enum Ready {
    /// A connection waits to be taken.
    Listener,
    /// The connection to a server.
    Link,
    /// The socket of a screen.
    Screen {
        at: usize,
        is_readable: bool,
        is_writable: bool,
    },
}
