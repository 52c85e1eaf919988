//! What a relay runs on, beside the devices of its turns: it waits, reads the clock and the input,
//! and reports what happened.

ghost use Rattle.std.specs.Prelude.{◌≡◌, ℕ, Option, None, IfSome, OnOk, OnErr};
ghost use Rattle.feed_device.specs.Calls.{CalledOnce};
ghost use Rattle.feed_live.specs.Running.{InputSoFar, came_more, HostCalls, nothing_counted, waited_for, reported_once};

use crate::turn::{Input, Live, Turn};
use feed_device::{Devices, Ready};
use feed_files::Restored;

/// What a turn is given beside its devices.
#[derive(Clone, Copy)]
pub struct Given<'a> {
    /// What became ready.
    pub events: &'a [Ready],
    /// What came of the input.
    pub input: Input<'a>,
    /// The time, in milliseconds since the start.
    pub now: u64,
}

/// What a relay runs on whose devices are of these types.
pub trait Host<S, L, D> {
    /// Why it can't go on.
    type Error;

    // What the input gave, where that is known; and the same but for what it gave last.
    ghost input: { Self → Option InputSoFar } = { λ _. None };

    ghost input_before: { Self → Option InputSoFar } = { λ _. None };

    // The time when it waited last, where that is known.
    ghost time: { Self → Option ℕ } = { λ _. None };

    // How it was called, and how often it failed, where that is counted.
    ghost calls: { Self → HostCalls } = { λ _. nothing_counted };

    ghost failed: { Self → Option ℕ } = { λ _. None };

    /// Reports what the relay begins with, before it does.
    fn begin(&mut self, restored: &Restored) -> Result<(), Self::Error>
        ensures input { input self.new ≡ input self.old }
        ensures calls { calls self.new ≡ calls self.old }
        ensures ok { OnOk result (failed self.new ≡ failed self.old) }
        ensures err { OnErr result (CalledOnce (failed self.old) (failed self.new)) };

    /// Waits until a device is ready, or the time has come that is due. Then it takes what the
    /// input has, where that may be read, and waits for none.
    fn wait(&mut self, live: &Live, turn: Turn) -> Result<(), Self::Error>
        ensures input { OnOk result (input_before self.new ≡ input self.old) }
        ensures calls { OnOk result (calls self.new ≡ waited_for turn (calls self.old)) }
        ensures ok { OnOk result (failed self.new ≡ failed self.old) }
        ensures err { OnErr result ((input self.new ≡ input self.old)
            × (calls self.new ≡ calls self.old)
            × CalledOnce (failed self.old) (failed self.new)) };

    /// What became ready while it waited last, what the input gave then, and the time.
    fn given(&self) -> Given<'_>
        ensures input { input self.now ≡ came_more result.input (input_before self.now) }
        ensures time { IfSome (time self.now) (λ time. result.now ≡ time) };

    /// Reports what a turn did, and answers those who watch the relay.
    fn report(&mut self, live: &Live, devices: &Devices<S, L, D>) -> Result<(), Self::Error>
        ensures input { input self.new ≡ input self.old }
        ensures time { time self.new ≡ time self.old }
        ensures calls { calls self.new ≡ reported_once (calls self.old) }
        ensures ok { OnOk result (failed self.new ≡ failed self.old) }
        ensures err { OnErr result (CalledOnce (failed self.old) (failed self.new)) };
}
