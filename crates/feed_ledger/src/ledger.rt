//! The ledger.

ghost use Rattle.std.specs.Prelude.{◌≡◌, List, [], ◌∷◌};
ghost use base.Fml.{ftrue};
ghost use Rattle.feed_ledger.specs.Entries.{Entry};
ghost use Rattle.feed_ledger.specs.Codes.{entries_code};

use feed_device::Stop;
use std::marker::Model;

/// What devices were called for and answered so far. It takes no memory, and its functions do
/// nothing when the program runs.
#[derive(Drop)]
pub struct Ledger {
    // the latest first
    pub ghost entries: { List Entry } by { entries_code },
}

impl Model for Ledger {
    ghost also_owns = { λ _. ftrue };
}

/// A call of a device, and its answer.
#[derive(Drop)]
pub enum Call<'a> {
    /// A connection was asked for, for a number, and one was taken or not.
    Accept(usize, bool),
    /// A read at a number, what it answered, and what the buffer has then.
    Read(usize, Result<usize, Stop>, &'a [u8]),
    /// A write at a number, what it answered, and what it was offered.
    Write(usize, Result<usize, Stop>, &'a [u8]),
    /// The connection at a number is closed.
    Close(usize),
    /// A connection to a server was to be begun, and was or wasn't.
    Connect(usize, bool),
    /// Whether the connection that was begun is open.
    Look(Result<bool, Stop>),
    /// Screens are shown what came but so many bytes, once.
    ShowOnce(usize),
    /// And all from there on.
    ShowAll(usize),
    /// The input gave these bytes.
    Came(&'a [u8]),
    /// It ended.
    CameToEnd,
    /// It was waited for a turn: when that is due, whether it takes the input, and whether the one
    /// before it was the last.
    Wait(u64, bool, bool),
    /// What a turn did was reported.
    Report,
    /// What a relay runs on failed.
    Fail,
}

impl Ledger {
    ghost use Rattle.feed_ledger.specs.Noted.{entry_of};

    /// Nothing was called.
    pub fn new() -> Ledger
        ensures { result.entries ≡ [] }
    {
        Ledger {}
    }

    /// This was called behind that.
    #[inline(always)]
    pub fn after(&self, _call: &Call<'_>) -> Ledger
        ensures { result.entries ≡ entry_of _call.now ∷ self.now.entries }
    {
        Ledger {}
    }
}
