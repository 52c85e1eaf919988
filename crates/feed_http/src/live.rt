//! What a primary that takes batches sends on one connection.
ghost use Rattle.std.specs.Prelude.{◌≤◌, OnOk, IfErr, IfSome};
ghost use Rattle.feed_answer.specs.Answered.{parts_of};
ghost use Rattle.feed_http.specs.Exchange.{devices_of, exchange, wrote_by};
ghost use Rattle.feed_http.specs.Live.{intake_of, TakesTurn, RefusesInTurn};
ghost use Rattle.feed_http.specs.Live.{WroteLive, WroteRefused, ServesLive};
ghost use Rattle.feed_http.specs.Sending.{WroteTurns, WroteCutShort, WroteToRefusal, WroteAllLive};
ghost use Rattle.feed_http.specs.Taking.{IsHeld};
ghost use Rattle.feed_http.specs.Writing.{WritesBy};

use crate::device::{FeedRead, FeedWrite};
use crate::fault::{EngineFault, Served};
use crate::head_reading::read_head;
use crate::service::Service;
use crate::serving::{send_commits, send_farewell, write_bytes};
use feed_answer::{Answered, Framing, answer};
use feed_node::{CommitFault, Primary, Session};
use feed_tables::Change;
use std::alloc::Global;
use std::collections::VecDeque;

/// How a session is served while batches are taken: so many of them each time that nothing is new,
/// and framed so.
#[derive(Clone, Copy)]
struct Terms {
    turn: usize,
    framing: Framing,
}

/// Commits so many batches from the start of the input, or all that remain. A refused batch is
/// taken, too, and ends the turn.
fn take_turn(
    alloc: Global,
    primary: &mut Primary,
    input: &mut VecDeque<Vec<Change>>,
    turn: usize,
) -> Result<(), CommitFault>
    ensures ok { OnOk result (TakesTurn turn (intake_of primary.old input.old.items)
        (intake_of primary.new input.new.items)) }
    ensures err { IfErr result (λ fault. RefusesInTurn turn
        (intake_of primary.old input.old.items) fault (intake_of primary.new input.new.items)) }
{
    let mut made = 0;
    'batches: while made < turn {
        let Some(batch) = input.pop_front() else {
            return Ok(());
        };
        primary.commit(alloc, batch)?;
        made += 1;
    }
    Ok(())
}

/// Sends a session all that it lacks, and, each time that nothing is new, has the primary take a
/// turn of its input, until none is left. Answers how many commits were sent, and whether the
/// token is lost.
fn send_live<W: FeedWrite>(
    alloc: Global,
    writer: &mut W,
    primary: &mut Primary,
    input: &mut VecDeque<Vec<Change>>,
    terms: Terms,
    session: &mut Session,
) -> Result<(u64, bool), EngineFault>
    requires some { 1 ≤ terms.turn }
    requires held { IsHeld primary.old.node session.old }
    ensures { let wrote = wrote_by W.contents W.failures writer.old writer.new in
        let start = intake_of primary.old input.old.items in
        let now = intake_of primary.new input.new.items in
        WritesBy wrote
        (λ told. WroteTurns terms.turn start session.old terms.framing wrote now session.new
        told.0 told.1)
        (WroteCutShort terms.turn start session.old terms.framing now wrote)
        (WroteToRefusal terms.turn start session.old terms.framing now wrote) result }
{
    let mut count: u64 = 0;
    'turns: loop {
        let (sent, gone) = send_commits(alloc, writer, primary.node(), session, terms.framing)?;
        count = count.saturating_add(sent);
        if gone {
            return Ok((count, true));
        }
        if input.is_empty() {
            return Ok((count, false));
        }
        take_turn(alloc, primary, input, terms.turn)?;
    }
}

/// Writes an answer, sends the session that it opens all that it lacks while batches are taken, and
/// ends it.
fn send_live_answer<W: FeedWrite>(
    alloc: Global,
    writer: &mut W,
    primary: &mut Primary,
    input: &mut VecDeque<Vec<Change>>,
    turn: usize,
    answered: Answered,
) -> Result<Served, EngineFault>
    requires some { 1 ≤ turn }
    requires held { IfSome answered.session (λ token. IsHeld primary.old.node token) }
    ensures { let wrote = wrote_by W.contents W.failures writer.old writer.new in
        let answer = parts_of answered.status answered.framing answered.bytes.items
        answered.session in
        let start = intake_of primary.old input.old.items in
        let now = intake_of primary.new input.new.items in
        WritesBy wrote (WroteAllLive turn start answer now wrote)
        (WroteLive turn start answer now wrote.old wrote.new)
        (λ why. WroteRefused turn start answer why now wrote.old wrote.new) result }
{
    let Answered {
        status,
        framing,
        bytes,
        session,
    } = answered;
    write_bytes(writer, bytes.as_slice())?;
    let Some(mut session) = session else {
        return Ok(Served::nothing(status));
    };
    let terms = Terms { turn, framing };
    let (commits, gone) = send_live(alloc, writer, primary, input, terms, &mut session)?;
    send_farewell(alloc, writer, &session, framing, gone)?;
    Ok(Served {
        status,
        commits,
        gone,
    })
}

/// Serves a connection as [`serve_node`](crate::serve_node) does, from a primary that takes
/// batches meanwhile: each time that the session is up to date and `input` isn't empty, `turn`
/// batches from its start, or all that remain, are committed, one after another, and sending goes
/// on. Without a 200 none is taken. Where a turn has more batches than the primary keeps commits,
/// and so many wait, the session's token is lost: its frames aren't sent, and the body ends without
/// a line feed. Else it is lost only where some turn has two batches or more, whose objects have
/// more bytes together than the primary keeps. A refused batch is taken from `input` and ends the
/// call. What was written, what is published and what is left of `input` always belong together.
pub fn serve_live<R: FeedRead, W: FeedWrite>(
    alloc: Global,
    reader: &mut R,
    writer: &mut W,
    primary: &mut Primary,
    input: &mut VecDeque<Vec<Change>>,
    turn: usize,
    service: &Service<'_>,
) -> Result<Served, EngineFault>
    requires { 1 ≤ turn }
    ensures { let devices = devices_of R.remaining R.reads R.failures W.contents W.failures in
        ServesLive turn service.now
        (exchange devices reader.old reader.new writer.old writer.new)
        (intake_of primary.old input.old.items) result
        (intake_of primary.new input.new.items) }
{
    let Service {
        contest,
        framing,
        back,
        most_reads,
    } = *service;
    let mut head = Vec::new(alloc);
    read_head(reader, &mut head, most_reads)?;
    let node = primary.node();
    let answered = answer(alloc, head.as_slice(), node, contest, framing, back)?;
    send_live_answer(alloc, writer, primary, input, turn, answered)
}
