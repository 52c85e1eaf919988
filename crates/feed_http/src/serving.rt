//! What a server sends on one connection.
ghost use Rattle.std.specs.Prelude.{◌≡◌, ◌++◌, IfOk, IfSome};
ghost use Rattle.feed_node.specs.States.{IsConsistent};
ghost use Rattle.feed_wire.specs.Framed as framed;
ghost use Rattle.feed_answer.specs.Served.{farewell};
ghost use Rattle.feed_answer.specs.Answered.{parts_of};
ghost use Rattle.feed_http.specs.Exchange.{devices_of, exchange, wrote_by};
ghost use Rattle.feed_http.specs.Serving.{ServesOnce};
ghost use Rattle.feed_http.specs.Sending.{WroteCommits, WroteSome, WroteAnswer};
ghost use Rattle.feed_http.specs.Sending.{WroteFrames, WroteSession, WroteAll};
ghost use Rattle.feed_http.specs.Writing.{Writes, WritesAll};

use crate::device::{FeedRead, FeedWrite, write_all};
use crate::fault::{EngineFault, Served};
use crate::head_reading::read_head;
use crate::service::Service;
use crate::sessions::pull_next;
use feed_answer::{Answered, Framing, answer, frame, frame_end};
use feed_node::{Node, Pulled, Session};
use std::alloc::{AllocError, Global};

/// Writes bytes.
pub(crate) fn write_bytes<W: FeedWrite>(writer: &mut W, bytes: &[u8]) -> Result<(), EngineFault>
    ensures { Writes (wrote_by W.contents W.failures writer.old writer.new) bytes.now result }
{
    write_all(writer, bytes).map_err(|_| EngineFault::Write)
}

/// Frames a text, and writes it. What ends with the connection is framed as it is.
fn write_framed<W: FeedWrite>(
    alloc: Global,
    writer: &mut W,
    framing: Framing,
    text: &[u8],
) -> Result<(), EngineFault>
    ensures { Writes (wrote_by W.contents W.failures writer.old writer.new)
        (framed.frame framing text.now) result }
{
    match framing {
        Framing::Close => write_bytes(writer, text),
        Framing::Chunked => {
            let mut out = Vec::new(alloc);
            frame(alloc, framing, text, &mut out)?;
            write_bytes(writer, out.as_slice())
        }
    }
}

/// Sends the commits after a session's token, and answers how many there were, and whether the
/// token is then lost.
pub(crate) fn send_commits<W: FeedWrite>(
    alloc: Global,
    writer: &mut W,
    node: &Node,
    session: &mut Session,
    framing: Framing,
) -> Result<(u64, bool), EngineFault>
    ensures sent { let wrote = wrote_by W.contents W.failures writer.old writer.new in
        let node = node.now.shown in
        WritesAll wrote
        (λ told. WroteFrames node session.old session.new framing wrote told.0 told.1)
        (WroteCommits node session.old framing wrote.old wrote.new) result }
    ensures consistent { IsConsistent node.now.shown }
{
    let mut count: u64 = 0;
    'commits: loop {
        let mut text = Vec::new(alloc);
        match pull_next(alloc, session, node, &mut text)? {
            Pulled::More => {
                write_framed(alloc, writer, framing, text.as_slice())?;
                count = count.saturating_add(1);
            }
            Pulled::UpToDate => return Ok((count, false)),
            Pulled::Gone => return Ok((count, true)),
        }
    }
}

/// Ends a session: with a line feed, unless its token is lost.
pub(crate) fn send_farewell<W: FeedWrite>(
    alloc: Global,
    writer: &mut W,
    session: &Session,
    framing: Framing,
    gone: bool,
) -> Result<(), EngineFault>
    ensures { Writes (wrote_by W.contents W.failures writer.old writer.new)
        (farewell framing gone ++ framed.frame_end framing) result }
{
    let end = farewell_text(alloc, session, framing, gone)?;
    write_bytes(writer, end.as_slice())
}

/// What a session ends with.
fn farewell_text(
    alloc: Global,
    session: &Session,
    framing: Framing,
    gone: bool,
) -> Result<Vec<u8>, AllocError>
    ensures { IfOk result
        (λ text. text.items ≡ farewell framing gone ++ framed.frame_end framing) }
{
    let mut text = Vec::new(alloc);
    if !gone {
        let mut line = Vec::new(alloc);
        session.idle(&mut line)?;
        frame(alloc, framing, line.as_slice(), &mut text)?;
    }
    frame_end(framing, &mut text)?;
    Ok(text)
}

/// Sends a session all that it lacks, and ends it.
fn send_session<W: FeedWrite>(
    alloc: Global,
    writer: &mut W,
    node: &Node,
    mut session: Session,
    framing: Framing,
) -> Result<(u64, bool), EngineFault>
    ensures { let wrote = wrote_by W.contents W.failures writer.old writer.new in
        let node = node.now.shown in
        WritesAll wrote (λ told. WroteSession node session framing wrote told.0 told.1)
        (WroteSome node session framing wrote.old wrote.new) result }
{
    let (commits, gone) = send_commits(alloc, writer, node, &mut session, framing)?;
    send_farewell(alloc, writer, &session, framing, gone)?;
    Ok((commits, gone))
}

/// Writes an answer, and sends the session that it opens all that it lacks.
fn send_answer<W: FeedWrite>(
    alloc: Global,
    writer: &mut W,
    node: &Node,
    answered: Answered,
) -> Result<Served, EngineFault>
    requires { IfSome answered.session (λ _. IsConsistent node.now.shown) }
    ensures { let wrote = wrote_by W.contents W.failures writer.old writer.new in
        let answer = parts_of answered.status answered.framing answered.bytes.items
        answered.session in
        WritesAll wrote (WroteAll node.now.shown answer wrote)
        (WroteAnswer node.now.shown answer wrote.old wrote.new) result }
{
    let Answered {
        status,
        framing,
        bytes,
        session,
    } = answered;
    write_bytes(writer, bytes.as_slice())?;
    let Some(session) = session else {
        return Ok(Served::nothing(status));
    };
    let (commits, gone) = send_session(alloc, writer, node, session, framing)?;
    Ok(Served {
        status,
        commits,
        gone,
    })
}

/// Reads a request, answers it from a node as the service says, and sends what the node has: at
/// status 200 a frame for each commit after the session's token, a line feed in a frame unless the
/// node lost the token, and the end of the body. It reads no further than the head takes. Where a
/// read fails or is one too many, the head was still needed and nothing was written; where a write
/// fails, a prefix of the text was.
pub fn serve_node<R: FeedRead, W: FeedWrite>(
    alloc: Global,
    reader: &mut R,
    writer: &mut W,
    node: &Node,
    service: &Service<'_>,
) -> Result<Served, EngineFault>
    ensures { let devices = devices_of R.remaining R.reads R.failures W.contents W.failures in
        ServesOnce service.now node.now.shown
        (exchange devices reader.old reader.new writer.old writer.new) result }
{
    let Service {
        contest,
        framing,
        back,
        most_reads,
    } = *service;
    let mut head = Vec::new(alloc);
    read_head(reader, &mut head, most_reads)?;
    let answered = answer(alloc, head.as_slice(), node, contest, framing, back)?;
    send_answer(alloc, writer, node, answered)
}
