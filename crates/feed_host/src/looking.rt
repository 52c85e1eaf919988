//! A short look at a server: whether it can be reached, and what it answers first.

use crate::ending::Failure;
use crate::sockets::Dialer;
use feed_commands::{AttemptEnd, Fault, NetworkFault, Server, follow_first};
use feed_http::{EngineFault, FollowFault, Followed};
use feed_node::{Limits, Mirror};
use std::alloc::Global;
use std::time::Duration;
use std::{io, slice};

/// For how long a server may be silent before it answers, as `live` waits, and for how long then,
/// in seconds.
const SILENCE: u64 = 20;

const PAUSE: u64 = 2;

/// In how many reads at most its answer is looked at.
const READS: u64 = 64;

/// How many changes of it are taken.
const CHANGES: usize = 100_000;

/// What came of a connection to a server, beside what it said.
#[derive(Clone, Copy)]
pub(crate) struct Passed {
    /// Why there was none, as the system says it.
    pub(crate) reason: Option<io::ErrorKind>,
    /// The status of the answer; 0 where none came.
    pub(crate) status: u16,
}

impl Passed {
    /// Nothing did.
    pub(crate) fn nothing() -> Passed {
        Passed {
            reason: None,
            status: 0,
        }
    }
}

/// Whether something was read of a feed.
fn has_something(mirror: &Mirror) -> bool {
    mirror.node().token().is_some() || mirror.waiting() > 0
}

/// What was found where no fault of the answer was.
fn found(mirror: &Mirror, passed: Passed) -> Result<&'static str, Failure> {
    if mirror.node().token().is_some() {
        Ok("status 200; its lines are notifications, with tokens")
    } else if has_something(mirror) {
        Ok("status 200; its lines are notifications; no token came so far")
    } else if passed.status == 200 {
        Ok("status 200; no line came so far")
    } else {
        let fault = Fault::from(NetworkFault::Engine(EngineFault::Read));
        Err(Failure::reported_as(fault, "no answer within 20 seconds"))
    }
}

/// There was no connection, for this reason, where the system says one.
fn unreached(alloc: Global, reason: Option<io::ErrorKind>) -> Failure {
    let fault = Fault::from(NetworkFault::Connect);
    match reason {
        Some(reason) => Failure::told(fault, format!(in alloc; "can't connect ({reason})")),
        None => Failure::reported_as(fault, "its name has no address"),
    }
}

/// Its answer can't be followed.
fn refused(alloc: Global, fault: FollowFault) -> Failure {
    let advice = advice_on(fault);
    let why = Fault::from(NetworkFault::Engine(EngineFault::Follow(fault)));
    Failure::told(why, format!(in alloc; "{fault}{advice}"))
}

/// What to do about a server whose answer can't be followed.
fn advice_on(fault: FollowFault) -> &'static str {
    match fault {
        FollowFault::Status(401 | 403) => ": it wants a password (see --user-file)",
        FollowFault::Status(404) => ": it has no such contest, or another base",
        FollowFault::Status(400) => " (a port that speaks TLS answers so, too)",
        FollowFault::Status(300..=399) => ": the feed is elsewhere",
        FollowFault::Feed(_) => ": a line of its answer is no notification",
        _ => "",
    }
}

/// What an attempt found.
fn outcome_of(
    alloc: Global,
    attempt: AttemptEnd,
    mirror: &Mirror,
    passed: Passed,
) -> Result<&'static str, Failure> {
    match attempt {
        AttemptEnd::NoLink => Err(unreached(alloc, passed.reason)),
        AttemptEnd::Failed(EngineFault::Memory | EngineFault::Follow(FollowFault::Memory)) => {
            Err(Failure::from(Fault::Memory))
        }
        AttemptEnd::Failed(EngineFault::Follow(fault)) => Err(refused(alloc, fault)),
        AttemptEnd::Followed(Followed::Early) => Err(refused(alloc, FollowFault::BadHead)),
        AttemptEnd::Failed(_) | AttemptEnd::Followed(_) => found(mirror, passed),
    }
}

/// A mirror of nothing, that takes what a short look brings.
fn mirror_for_a_look(alloc: Global) -> Result<Mirror, Fault> {
    let Ok(limits) = Limits::new(1, CHANGES) else {
        return Err(Fault::Memory);
    };
    Mirror::new(alloc, limits).map_err(|_| Fault::Memory)
}

/// Asks a server for everything, and reads some of its answer: until it was silent for two
/// seconds, or 64 reads were made. What was found, or why it can't be followed.
pub fn look_at(rt: &HostRuntime, server: &Server<'_>) -> Result<&'static str, Failure> {
    let alloc = rt.alloc();
    let servers = slice::from_ref(server);
    let (silence, pause) = (Duration::from_secs(SILENCE), Duration::from_secs(PAUSE));
    let mut mirror = mirror_for_a_look(alloc)?;
    let mut dialer = Dialer::looking(rt, servers, silence, pause);
    let Ok(attempts) = follow_first(alloc, &mut dialer, servers, &mut mirror, READS) else {
        return Err(Failure::from(Fault::Memory));
    };
    match attempts.first() {
        Some(attempt) => outcome_of(alloc, attempt.outcome, &mirror, dialer.passed()),
        None => Err(Failure::from(Fault::Memory)),
    }
}
