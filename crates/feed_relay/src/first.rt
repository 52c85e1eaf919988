//! Following the first of several servers that serves.
ghost use Rattle.std.specs.Prelude.{◌≡◌, ◌≢◌, ◌+◌, ◌≤◌, ◌++◌, List, length, None, IfOk, OnErr};
ghost use Rattle.std.specs.Vec.{vec_capacity};
ghost use Rattle.feed_relay.specs.declared.first.Attempt.{Attempt as Tried};
ghost use Rattle.feed_relay.specs.Dialing.{dialer_of};
ghost use Rattle.feed_relay.specs.First.{dialing, is_last, is_want_of_memory, ran_out};
ghost use Rattle.feed_relay.specs.First.{Attempts, AsksServer, FollowsFirst};

use crate::dial::Dial;
use crate::fault::NetworkFault;
use crate::pulling::pull_once;
use crate::server::Server;
use feed_http::{EngineFault, Followed};
use feed_node::Mirror;
use std::alloc::{AllocError, Global};

/// What one attempt came to.
#[derive(Clone, Copy, Debug, PartialEq, Eq)]
pub enum AttemptEnd {
    /// No connection was opened.
    NoLink,
    /// A response was followed.
    Followed(Followed),
    /// Asking or following failed.
    Failed(EngineFault),
}

/// One attempt to follow a server.
#[derive(Clone, Copy, Debug, PartialEq, Eq)]
pub struct Attempt {
    /// The number of the server, counted from 0.
    pub server: usize,
    /// What came of it.
    pub outcome: AttemptEnd,
}

impl AttemptEnd {
    /// Whether memory ran out.
    fn is_want_of_memory(self) -> bool
        ensures { result ≡ is_want_of_memory self }
    {
        match self {
            AttemptEnd::Failed(fault) => NetworkFault::Engine(fault).is_want_of_memory(),
            _ => false,
        }
    }

    /// Whether no further server is asked then: a feed was followed to its end, or memory ran out.
    pub fn is_last(self) -> bool
        ensures { result ≡ is_last self }
    {
        match self {
            AttemptEnd::Followed(Followed::Ended | Followed::Done) => true,
            other => other.is_want_of_memory(),
        }
    }
}

/// Whether memory ran out at the last of these attempts.
pub fn has_run_out(attempts: &[Attempt]) -> bool
    ensures { result ≡ ran_out attempts.now }
{
    match attempts.last() {
        Some(attempt) => attempt.outcome.is_want_of_memory(),
        None => false,
    }
}

/// One server of several.
#[derive(Drop)]
struct Numbered<'s> {
    /// Its number, counted from 0.
    number: usize,
    server: &'s Server<'s>,
}

/// One attempt at a server: a connection to it is opened, asked and followed on, and given back.
fn try_server<D: Dial>(
    alloc: Global,
    dial: &mut D,
    asked: &Numbered<'_>,
    mirror: &mut Mirror,
    most_reads: u64,
) -> AttemptEnd
    ensures tried { let dialer = dialer_of D.Dial D.Reader.FeedRead D.Writer.FeedWrite in
        Attempts dialer asked.now.number asked.now.server.now most_reads
        (dialing mirror.old dial.old) result (dialing mirror.new dial.new) }
    ensures cut { mirror.old.connection ≡ None → mirror.new.connection ≡ None }
{
    let Some((mut reader, mut writer)) = dial.dial(asked.number) else {
        return AttemptEnd::NoLink;
    };
    let pulled = pull_once(
        alloc,
        asked.server,
        mirror,
        most_reads,
        &mut reader,
        &mut writer,
    );
    dial.close(reader, writer);
    match pulled {
        Ok(followed) => AttemptEnd::Followed(followed),
        Err(fault) => AttemptEnd::Failed(fault),
    }
}

/// All attempts at a server, behind the earlier ones: one, or, where the token was refused, another
/// one. Answers what the last one came to.
fn ask_server<D: Dial>(
    alloc: Global,
    dial: &mut D,
    asked: &Numbered<'_>,
    mirror: &mut Mirror,
    most_reads: u64,
    attempts: &mut Vec<Attempt>,
) -> AttemptEnd
    requires { length attempts.old.items + 2 ≤ vec_capacity attempts.old }
    ensures asked { let dialer = dialer_of D.Dial D.Reader.FeedRead D.Writer.FeedWrite in
        (tried : List Tried) × (attempts.new.items ≡ attempts.old.items ++ tried)
        × (length tried ≤ 2)
        × AsksServer dialer asked.now.number asked.now.server.now most_reads
        (dialing mirror.old dial.old) tried result (dialing mirror.new dial.new) }
    ensures known { result ≢ AttemptEnd.Followed Followed.TokenRefused }
    ensures capacity { vec_capacity attempts.new ≡ vec_capacity attempts.old }
    ensures cut { mirror.old.connection ≡ None → mirror.new.connection ≡ None }
{
    let outcome = try_server(alloc, dial, asked, mirror, most_reads);
    attempts.push_reserved(Attempt {
        server: asked.number,
        outcome,
    });
    if outcome != AttemptEnd::Followed(Followed::TokenRefused) {
        return outcome;
    }
    let again = try_server(alloc, dial, asked, mirror, most_reads);
    attempts.push_reserved(Attempt {
        server: asked.number,
        outcome: again,
    });
    again
}

/// Asks these servers, in their order, for what a mirror lacks, and follows the response, each on a
/// connection that is dialed by the server's number and in at most so many reads (`most_reads`): up
/// to the first whose feed was followed to its end, or at which memory ran out, or all. Where a
/// server refuses the mirror's token, it is asked once more, for everything. Answers each attempt,
/// in order. The room for two attempts at each server is taken first; where there is none, nobody
/// is asked.
pub fn follow_first<D: Dial>(
    alloc: Global,
    dial: &mut D,
    servers: &[Server<'_>],
    mirror: &mut Mirror,
    most_reads: u64,
) -> Result<Vec<Attempt>, AllocError>
    ensures followed { let dialer = dialer_of D.Dial D.Reader.FeedRead D.Writer.FeedWrite in
        IfOk result (λ attempts. FollowsFirst dialer servers.now most_reads
        (dialing mirror.old dial.old) attempts.items (dialing mirror.new dial.new)) }
    ensures cut { mirror.old.connection ≡ None → mirror.new.connection ≡ None }
    ensures memory { OnErr result ((mirror.new ≡ mirror.old) × (dial.new ≡ dial.old)) }
{
    let room = servers.len().checked_mul(2).ok_or(AllocError)?;
    let mut attempts = Vec::with_capacity(alloc, room)?;
    'servers: for (number, server) in servers.iter().enumerate() {
        let asked = Numbered { number, server };
        let outcome = ask_server(alloc, dial, &asked, mirror, most_reads, &mut attempts);
        if outcome.is_last() {
            return Ok(attempts);
        }
    }
    Ok(attempts)
}
