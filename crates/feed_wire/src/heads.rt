//! The head at the start of bytes that came over a connection.
ghost use Rattle.std.specs.Prelude.{◌≡◌, ◌≢◌, ℕ, ◌<◌, ◌≤◌, ◌↔◌, length, drop, IsTrue, IfOk, OnErr, IfSome, IfNone, MatchOption, count_by, ◌==◌};
ghost use Rattle.httparse.specs.Grammar.{RequestHead, NeverHasRequest, print_request};
ghost use Rattle.httparse.specs.Spans.{IsRequestAt};
ghost use Rattle.feed_wire.specs.HeadSizes.{head_bytes, head_fields, head_lines, line_count, IsHeadSize, IsPastLimits};
ghost use Rattle.feed_wire.specs.Heads.{BeginsWithRequest, HasNoWholeRequest};
ghost use Rattle.feed_wire.specs.HeadRead.{RequestStands};

use crate::head_sizes::{HEAD_FIELDS, is_head_size, is_past_limits};
use httparse::spans::{EMPTY_HEADER_SPAN, HeaderSpan, RequestSpans, parse_request};
use httparse::{Error, Status};

/// How far the head has come.
#[derive(Clone, Copy, PartialEq, Eq)]
pub enum HeadRead {
    /// It is whole, and has so many bytes.
    Whole(usize),
    /// It is over the limits.
    TooLarge,
    /// No bytes can follow that make a head.
    Never,
    /// It is not whole yet, and may become so within the limits.
    More,
}

/// Whether a text is short enough for a head. Its fields have room for no more than a head may
/// have.
fn is_short(text: &[u8]) -> bool
    ensures { IsTrue result ↔ ((length text.now ≤ head_bytes)
        × (line_count text.now ≤ head_lines)) }
{
    is_head_size(text, 0)
}

/// The whole head at the start, if there is one within the limits; an error where no bytes can
/// follow that make a head.
pub(crate) fn find_head(
    bytes: &[u8],
    headers: &mut [HeaderSpan],
) -> Result<Option<RequestSpans>, Error>
    requires { length headers.old ≡ head_fields }
    ensures found { IfOk result (λ found. IfSome found (λ spans. (head : RequestHead)
        × IsRequestAt bytes.now headers.new spans head
        × IsHeadSize (print_request head) (length head.fields))) }
    ensures within { IfOk result (λ found. IfSome found (λ spans.
        spans.len ≤ length bytes.now)) }
    ensures method { IfOk result (λ found. IfSome found (λ spans.
        (spans.method.start ≤ spans.method.end) × (spans.method.end ≤ length bytes.now))) }
    ensures path { IfOk result (λ found. IfSome found (λ spans.
        (spans.path.start ≤ spans.path.end) × (spans.path.end ≤ length bytes.now))) }
    ensures none { IfOk result (λ found. IfNone found (HasNoWholeRequest bytes.now)) }
    ensures never { OnErr result (NeverHasRequest bytes.now × HasNoWholeRequest bytes.now) }
{
    match parse_request(bytes, headers) {
        Ok(Status::Complete(head)) => {
            if is_short(&bytes[..head.len]) {
                Ok(Some(head))
            } else {
                Ok(None)
            }
        }
        Ok(Status::Partial) => Ok(None),
        Err(Error::TooManyHeaders) => Ok(None),
        Err(error) => Err(error),
    }
}

/// Looks at the bytes of a request's head, as many as have come.
pub fn look_at_request(bytes: &[u8]) -> HeadRead
    ensures { RequestStands bytes.now result }
{
    let mut headers = [EMPTY_HEADER_SPAN; HEAD_FIELDS];
    match find_head(bytes, &mut headers) {
        Ok(Some(head)) => HeadRead::Whole(head.len),
        Ok(None) => unfinished(bytes),
        Err(_) => never(bytes),
    }
}

/// Bytes with no whole head may go on within the limits.
fn unfinished(bytes: &[u8]) -> HeadRead
    requires { HasNoWholeRequest bytes.now }
    ensures { RequestStands bytes.now result }
{
    if is_past_limits(bytes) {
        HeadRead::TooLarge
    } else {
        HeadRead::More
    }
}

/// Bytes that no bytes can follow to make a head.
fn never(bytes: &[u8]) -> HeadRead
    requires never { NeverHasRequest bytes.now }
    requires none { HasNoWholeRequest bytes.now }
    ensures { RequestStands bytes.now result }
{
    if is_past_limits(bytes) {
        HeadRead::TooLarge
    } else {
        HeadRead::Never
    }
}
