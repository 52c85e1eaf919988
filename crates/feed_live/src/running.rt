//! A run: turn after turn, until the relay is over.

ghost use Rattle.std.specs.Prelude.{◌≡◌, ◌⊎◌, ◌≤◌, ℕ, Option, IfOk, OnErr, MatchResult};
ghost use Rattle.feed_device.specs.Calls.{CalledOnce};
ghost use Rattle.feed_live.specs.Running.{surroundings, moment_of, at_once, IsTurn, HasRun, Ran, IsNotBegun, RunsFrom, CountsHostFault};
ghost use Rattle.feed_live.specs.declared.running.RunFault.TheVariants.{Memory};

use crate::host::{Given, Host};
use crate::options::Setup;
use crate::starting::begin;
use crate::turn::{Live, Turn};
use feed_device::{Devices, Link, Sockets, Store};
use std::alloc::{AllocError, Global};

/// Why a run ended before the relay was over.
#[derive(Drop)]
pub enum RunFault<E> {
    /// Memory ran out before it began.
    Memory,
    /// The host failed.
    Host(E),
}

impl<E> From<AllocError> for RunFault<E> {
    ghost from_gives = { λ _ fault. fault ≡ Memory };

    fn from(_error: AllocError) -> RunFault<E> {
        RunFault::Memory
    }
}

/// The first turn is due at once.
fn first() -> Turn
    ensures { result ≡ at_once }
{
    Turn {
        due: 0,
        takes_input: true,
        is_over: false,
    }
}

/// One turn, with what the host gives to it.
fn turn<S: Sockets, L: Link, D: Store, H: Host<S, L, D>>(
    alloc: Global,
    host: &H,
    devices: &mut Devices<S, L, D>,
    live: &mut Live,
) -> Turn
    ensures { (before : Turn) (time : Option ℕ) → IsTurn
        (moment_of live.old before time (surroundings (L.exchanges devices.old.link)
        (S.socket devices.old.sockets) (D.files devices.old.store) (H.input_before host.now)))
        (moment_of live.new result (H.time host.now) (surroundings (L.exchanges devices.new.link)
        (S.socket devices.new.sockets) (D.files devices.new.store) (H.input host.now))) }
{
    let Given { events, input, now } = host.given();
    live.turn(alloc, devices, events, input, now)
}

/// Waits, has one turn, and reports what that did.
fn step<S: Sockets, L: Link, D: Store, H: Host<S, L, D>>(
    alloc: Global,
    host: &mut H,
    devices: &mut Devices<S, L, D>,
    live: &mut Live,
    before: Turn,
) -> Result<Turn, H::Error>
    ensures turn { IfOk result (λ next. HasRun
        (moment_of live.old before (H.time host.old) (surroundings (L.exchanges devices.old.link)
        (S.socket devices.old.sockets) (D.files devices.old.store) (H.input host.old)))
        (moment_of live.new next (H.time host.new) (surroundings (L.exchanges devices.new.link)
        (S.socket devices.new.sockets) (D.files devices.new.store) (H.input host.new)))
        (H.calls host.old) (H.calls host.new) 1) }
    // where the host failed, that was before the turn, or behind it
    ensures err { OnErr result ((count : ℕ) × (count ≤ 1) × (next : Turn) × (time : Option ℕ)
        × HasRun
        (moment_of live.old before (H.time host.old) (surroundings (L.exchanges devices.old.link)
        (S.socket devices.old.sockets) (D.files devices.old.store) (H.input host.old)))
        (moment_of live.new next time (surroundings (L.exchanges devices.new.link)
        (S.socket devices.new.sockets) (D.files devices.new.store) (H.input host.new)))
        (H.calls host.old) (H.calls host.new) count) }
    ensures failed { MatchResult result (λ _. H.failed host.new ≡ H.failed host.old)
        (λ _. CalledOnce (H.failed host.old) (H.failed host.new)) }
{
    host.wait(live, before)?;
    let next = turn(alloc, host, devices, live);
    host.report(live, devices)?;
    live.clear_reports();
    Ok(next)
}

/// Turn after turn, until the relay is over, or the host fails.
fn run_turns<S: Sockets, L: Link, D: Store, H: Host<S, L, D>>(
    alloc: Global,
    host: &mut H,
    devices: &mut Devices<S, L, D>,
    live: &mut Live,
) -> Result<(), H::Error>
    ensures run { (next : Turn) × (time : Option ℕ) × Ran
        (moment_of live.old at_once (H.time host.old) (surroundings (L.exchanges devices.old.link)
        (S.socket devices.old.sockets) (D.files devices.old.store) (H.input host.old)))
        (moment_of live.new next time (surroundings (L.exchanges devices.new.link)
        (S.socket devices.new.sockets) (D.files devices.new.store) (H.input host.new)))
        (H.calls host.old) (H.calls host.new) result }
    ensures failed { MatchResult result (λ _. H.failed host.new ≡ H.failed host.old)
        (λ _. CalledOnce (H.failed host.old) (H.failed host.new)) }
{
    let mut next = first();
    for _ in 0..u64::MAX {
        next = step(alloc, host, devices, live, next)?;
        if next.is_over {
            return Ok(());
        }
    }
    Ok(())
}

/// A whole run of a relay, from the files that it finds to its end: it begins with what its state
/// files have, and has turn after turn, until it is over, or the host fails.
pub fn run<S: Sockets, L: Link, D: Store, H: Host<S, L, D>>(
    alloc: Global,
    setup: Setup,
    host: &mut H,
    devices: &mut Devices<S, L, D>,
) -> Result<(), RunFault<H::Error>>
    // it keeps to the log, from its first byte to its end; or nothing was begun
    ensures run { RunsFrom setup
        (surroundings (L.exchanges devices.old.link) (S.socket devices.old.sockets)
        (D.files devices.old.store) (H.input host.old))
        (surroundings (L.exchanges devices.new.link) (S.socket devices.new.sockets)
        (D.files devices.new.store) (H.input host.new))
        (H.calls host.old) (H.calls host.new) result
        ⊎ IsNotBegun
        (surroundings (L.exchanges devices.old.link) (S.socket devices.old.sockets)
        (D.files devices.old.store) (H.input host.old))
        (surroundings (L.exchanges devices.new.link) (S.socket devices.new.sockets)
        (D.files devices.new.store) (H.input host.new))
        (H.calls host.old) (H.calls host.new) result }
    // it fails where the host did, or where memory ran out before it began, and then only
    ensures failed { MatchResult result (λ _. H.failed host.new ≡ H.failed host.old)
        (λ fault. CountsHostFault fault (H.failed host.old) (H.failed host.new)) }
{
    let mut live = begin(alloc, setup, host, &mut devices.store)?;
    let ended = run_turns(alloc, host, devices, &mut live);
    drop(live);
    match ended {
        Ok(()) => Ok(()),
        Err(error) => Err(RunFault::Host(error)),
    }
}
