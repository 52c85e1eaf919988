//! The head of a response.
ghost use Rattle.std.specs.Prelude.{◌≡◌, IfOk, IfErr, IfSome, IfNone, None, map};
ghost use Rattle.httparse.specs.Grammar.{NeverHasResponse};
ghost use Rattle.httparse.specs.Borrowed.{header_parts, HoldsSomeResponse};
ghost use Rattle.feed_wire.specs.ResponseHeads.{HasNoWholeResponse};
ghost use Rattle.feed_follow.specs.Standing.{verdict_of};
ghost use Rattle.feed_follow.specs.HeadRead.{IsHeadRead, IsHeadFault, IsUnfinished, IsNoHead};

use crate::FollowFault;
use crate::coding::{BodyFraming, body_framing};
use feed_wire::{HEAD_FIELDS, is_head_size, is_past_limits};
use httparse::{EMPTY_HEADER, Error, Header, Response, Status};

/// What a whole head says of its response, where it can be followed.
#[derive(Clone, Copy)]
pub(crate) enum Verdict {
    Body(BodyFraming),
    Refusal,
}

/// A whole head: its length, and what it says.
#[derive(Clone, Copy)]
pub(crate) struct WholeHead {
    pub len: usize,
    pub says: Verdict,
}

/// What a head of this status and with these fields says.
fn judge(had_token: bool, status: u16, fields: &[Header]) -> Result<Verdict, FollowFault>
    ensures says { result ≡ verdict_of had_token status (map header_parts fields.now) }
    ensures faults { IfErr result IsHeadFault }
{
    match status {
        200 => Ok(Verdict::Body(body_framing(fields)?)),
        400 if had_token => Ok(Verdict::Refusal),
        _ => Err(FollowFault::Status(status)),
    }
}

/// Looks at the bytes of a head, as many as have come: whether a whole head is there.
pub(crate) fn look_at_head(had_token: bool, bytes: &[u8]) -> Result<Option<WholeHead>, FollowFault>
    ensures whole { IfOk result (λ found. IfSome found (IsHeadRead had_token bytes.now)) }
    ensures unfinished { IfOk result (λ found. IfNone found (IsUnfinished bytes.now)) }
    ensures err { IfErr result (IsNoHead had_token bytes.now) }
{
    let mut headers = [EMPTY_HEADER; HEAD_FIELDS];
    let mut response = Response::new(&mut headers);
    match response.parse(bytes) {
        Ok(Status::Complete(len)) => parsed(had_token, bytes, len, &response),
        Ok(Status::Partial) => unfinished(had_token, bytes),
        Err(Error::TooManyHeaders) => unfinished(had_token, bytes),
        Err(_) => never(had_token, bytes),
    }
}

/// A head of so many bytes that was parsed is whole, if it is short enough.
fn parsed(
    had_token: bool,
    bytes: &[u8],
    len: usize,
    head: &Response,
) -> Result<Option<WholeHead>, FollowFault>
    requires { HoldsSomeResponse bytes.now head.now len }
    ensures whole { IfOk result (λ found. IfSome found (IsHeadRead had_token bytes.now)) }
    ensures unfinished { IfOk result (λ found. IfNone found (IsUnfinished bytes.now)) }
    ensures err { IfErr result (IsNoHead had_token bytes.now) }
{
    if !is_head_size(&bytes[..len], head.headers.len()) {
        return unfinished(had_token, bytes);
    }
    let says = judge(had_token, head.code.unwrap_or(0), head.headers)?;
    Ok(Some(WholeHead { len, says }))
}

/// Bytes with no whole head may go on within the limits.
fn unfinished(had_token: bool, bytes: &[u8]) -> Result<Option<WholeHead>, FollowFault>
    requires { HasNoWholeResponse bytes.now }
    ensures ok { IfOk result (λ found. found ≡ None) }
    ensures unfinished { IfOk result (λ _. IsUnfinished bytes.now) }
    ensures err { IfErr result (IsNoHead had_token bytes.now) }
{
    if is_past_limits(bytes) {
        Err(FollowFault::LongHead)
    } else {
        Ok(None)
    }
}

/// Bytes that no bytes can follow to make a head.
fn never(had_token: bool, bytes: &[u8]) -> Result<Option<WholeHead>, FollowFault>
    requires { NeverHasResponse bytes.now }
    ensures never { IfOk result (λ _. ⊥) }
    ensures err { IfErr result (IsNoHead had_token bytes.now) }
{
    if is_past_limits(bytes) {
        Err(FollowFault::LongHead)
    } else {
        Err(FollowFault::BadHead)
    }
}
