//! Connections of a world: what a node sent to a mirror, and how much of it came.

ghost use Rattle.std.specs.Prelude.{◌≡◌, ◌<◌, ◌≤◌, ◌^◌, ℕ, List, false, length, Option, IfOk, IfErr, OnOk, OnErr, IsTrue, ◌↔◌, ◌⊎◌, true, Some, None, IfSome, IfNone};
ghost use Rattle.feed_settings.specs.Limits.{Limits as Bounds};
ghost use Rattle.feed_node.specs.Log.{token_after};
ghost use Rattle.feed_node.specs.Mirroring.{MirrorState};
ghost use Rattle.feed_node.specs.States.{published_token, holds_token};
ghost use Rattle.feed_node.specs.declared.session.Pulled.TheVariants.{More};
ghost use Rattle.feed_follow.specs.Follower.{FollowsAt};
ghost use Rattle.feed_follow.specs.Following.{Fails};
ghost use Rattle.feed_follow.specs.Standing.{Standing};
ghost use Rattle.feed_world.specs.Connection.{Connection as Sending};
ghost use Rattle.feed_world.specs.Log.{Log, IsLog};
ghost use Rattle.feed_world.specs.Position.{Position, IsPlaceOfLog, node_where};
ghost use Rattle.feed_world.specs.States.{IsConnection, sending, delivered_after, next_bytes, IsDelivered};
ghost use Rattle.feed_world.specs.Step.{serves, idles, IsForMemory};

use crate::event::Reply;
use feed_answer::{Framing, frame};
use feed_follow::{FollowFault, Follower as Reader};
use feed_node::{Mirror, Next, Node, Pulled, Session};
use feed_tables::Name;
use std::alloc::{AllocError, Global};
use std::marker::Model;

/// The number that a primary's token says.
pub(crate) fn number_of(token: &str) -> u64
    ensures { (k : ℕ) → k < 2 ^ 64 → token.now ≡ token_after k → result ≡ k }
{
    match token.parse::<u64>() {
        Ok(number) => number,
        Err(_) => 0,
    }
}

/// A session, and the connection that carries the response with what it sends.
#[derive(Drop)]
pub(crate) struct Connection {
    session: Session,
    framing: Framing,
    // The mirror's end: it reads the bytes that come.
    reader: Reader,
    // The bytes of the response that were sent.
    bytes: Vec<u8>,
    delivered: usize,
    // The number of the token that the session began at.
    start: u64,
    // The server sends no more.
    is_over: bool,
}

impl Model for Connection {
    ghost use Rattle.feed_world.specs.States.{ConnectionState, sending};
    ghost use Rattle.feed_world.specs.Codes.{connection_code};

    ghost Value = { ConnectionState };

    ghost coded = { connection_code };

    ghost use Rattle.std.specs.Prelude.{◌≤◌, length};

    ghost view = { λ a. sending a.session a.framing a.reader a.bytes.items a.delivered a.start
        a.is_over };

    ghost invariant = { λ a. a.delivered ≤ length a.bytes.items };
}

impl Connection {
    /// A connection on which this was sent when the session was opened.
    pub fn new(session: Session, framing: Framing, reader: Reader, bytes: Vec<u8>) -> Connection
        ensures { (k : ℕ) → k < 2 ^ 64 → session ≡ token_after k
            → result ≡ sending session framing reader bytes.items 0 k false }
    {
        let start = number_of(session.token().text());
        Connection {
            session,
            framing,
            reader,
            bytes,
            delivered: 0,
            start,
            is_over: false,
        }
    }

    /// The server sends its next commit. Where it no longer holds the session's token, it sends no
    /// more, and the body is not ended, either.
    pub fn serve(&mut self, alloc: Global, server: &Node) -> Result<Pulled, AllocError>
        ensures ok { (limits : Bounds) (log : Log) (c : Sending) (place : Option Position)
            → IsLog limits log → IsPlaceOfLog limits log place
            → server.now.shown ≡ node_where log place → c.last ≤ length log.commits
            → IsConnection log c self.old
            → IfOk result (λ pulled. (pulled ≡ (serves c place).0)
            × IsConnection log (serves c place).1 self.new) }
        ensures err { (limits : Bounds) (log : Log) (c : Sending) (place : Option Position)
            → IsLog limits log → IsPlaceOfLog limits log place
            → server.now.shown ≡ node_where log place → c.last ≤ length log.commits
            → IsConnection log c self.old
            → OnErr result ((serves c place).0 ≡ More) }
        ensures reader { self.new.reader ≡ self.old.reader }
        ensures unchanged { OnErr result (self.new ≡ self.old) }
    {
        if self.is_over {
            return Ok(Pulled::Gone);
        }
        let mut lines = Vec::new(alloc);
        match self.session.next(alloc, server, &mut lines)? {
            Next::More(session) => {
                frame(alloc, self.framing, lines.as_slice(), &mut self.bytes)?;
                // Only now, as the frame may be refused its memory.
                self.session = session;
                Ok(Pulled::More)
            }
            Next::UpToDate => Ok(Pulled::UpToDate),
            Next::Gone => {
                self.is_over = true;
                Ok(Pulled::Gone)
            }
        }
    }

    /// The server has no more to send for now.
    pub fn idle(&mut self, alloc: Global) -> Result<Reply, AllocError>
        ensures ok { (log : Log) (c : Sending) → IsConnection log c self.old
            → IfOk result (λ reply. (reply ≡ (idles c).0) × IsConnection log (idles c).1 self.new) }
        ensures err { OnErr result (self.old.over ≡ false) }
        ensures reader { self.new.reader ≡ self.old.reader }
        ensures unchanged { OnErr result (self.new ≡ self.old) }
    {
        if self.is_over {
            return Ok(Reply::Sent(Pulled::Gone));
        }
        frame(alloc, self.framing, b"\n", &mut self.bytes)?;
        Ok(Reply::Idled)
    }

    /// How many bytes are delivered after the next ones, this many or all that remain.
    fn end(&self, bytes: usize) -> usize
        ensures { result ≡ delivered_after self.now bytes }
    {
        self.delivered.saturating_add(bytes).min(self.bytes.len())
    }

    /// Brings the mirror the next bytes, this many or all that remain. It runs out of memory only
    /// where there are some.
    pub fn bring(
        &mut self,
        alloc: Global,
        mirror: &mut Mirror,
        bytes: usize,
    ) -> Result<(), FollowFault>
        ensures ok { OnOk result (IsDelivered self.old bytes mirror.old self.new mirror.new) }
        ensures err { (start : MirrorState) (before : List ℕ) (standing : Standing)
            → FollowsAt start before standing self.old.reader mirror.old
            → IfErr result (Fails start self.old.reader.had_token before
            (next_bytes self.old bytes) mirror.new) }
        ensures some { IfErr result (λ fault. IsForMemory fault
            → self.old.delivered < delivered_after self.old bytes) }
        ensures limits { mirror.new.limits ≡ mirror.old.limits }
        ensures fits { length self.old.bytes < 2 ^ 64 }
    {
        let end = self.end(bytes);
        let piece = &self.bytes[self.delivered..end];
        match self.reader.push(alloc, mirror, piece) {
            Ok(_) => {
                self.delivered = end;
                Ok(())
            }
            Err(fault) => Err(fault),
        }
    }

    /// How many bytes were sent.
    pub fn sent(&self) -> usize
        ensures { result ≡ length self.now.bytes }
    {
        self.bytes.len()
    }

    /// How many of them were delivered.
    pub fn delivered(&self) -> usize
        ensures { result ≡ self.now.delivered }
    {
        self.delivered
    }

    /// The number of the token that the session began at.
    pub fn start(&self) -> u64
        ensures { result ≡ self.now.start }
    {
        self.start
    }

    /// The token up to which was sent.
    pub fn last(&self) -> &Name
        ensures { result.now ≡ self.now.token }
    {
        self.session.token()
    }
}
