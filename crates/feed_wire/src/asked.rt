//! What a request asks for.
ghost use Rattle.std.specs.Prelude.{◌≡◌, ◌≢◌, ℕ, List, [], ◌++◌, ◌≤◌, ◌↔◌, length, drop, IsTrue, IsSome, IfOk, IfSome, IfNone, option_map, option_copied, string_bytes, codes, slice_index};
ghost use Rattle.httparse.specs.Grammar.{RequestHead, print_request};
ghost use Rattle.httparse.specs.Spans.{IsRequestAt};
ghost use Rattle.feed_wire.specs.HeadSizes.{head_fields, IsHeadSize};
ghost use Rattle.feed_wire.specs.Heads.{BeginsWithRequest, HasNoWholeRequest};
ghost use Rattle.feed_wire.specs.RequestText.{feed_path};
ghost use Rattle.feed_wire.specs.Asked.{Asks, since_token};
ghost use Rattle.feed_wire.specs.AskedFor.{asked_of, AsksBy};

use crate::head_sizes::{HEAD_FIELDS, is_past_limits};
use crate::heads::find_head;
use crate::refusal::Refusal;
use crate::request_target::{asked_since, is_path};
use http_uri::{Uri, UriError};
use httparse::spans::{EMPTY_HEADER_SPAN, HeaderSpan, RequestSpans};
use std::alloc::{AllocError, Global};

/// What a client asks for: nothing that can be had, or the feed, with its version of HTTP/1 and its
/// token.
#[derive(Drop)]
pub enum AskedFor {
    Refused(Refusal),
    Feed(u8, Option<String>),
}

/// The whole head at the start, if there is one.
fn whole_request(bytes: &[u8], headers: &mut [HeaderSpan]) -> Option<RequestSpans>
    requires { length headers.old ≡ head_fields }
    ensures found { IfSome result (λ spans. (head : RequestHead)
        × IsRequestAt bytes.now headers.new spans head
        × IsHeadSize (print_request head) (length head.fields)) }
    ensures within { IfSome result (λ spans. spans.len ≤ length bytes.now) }
    ensures method { IfSome result (λ spans. (spans.method.start ≤ spans.method.end) ×
        (spans.method.end ≤ length bytes.now)) }
    ensures path { IfSome result (λ spans. (spans.path.start ≤ spans.path.end) ×
        (spans.path.end ≤ length bytes.now)) }
    ensures none { IfNone result (HasNoWholeRequest bytes.now) }
{
    match find_head(bytes, headers) {
        Ok(found) => found,
        Err(_) => None,
    }
}

fn begins_with_slash(text: &[u8]) -> bool
    ensures { IsTrue result ↔ (slice_index text.now 0 ≡ 47) }
{
    !text.is_empty() && text[0] == b'/'
}

fn is_get(method: &[u8]) -> bool
    ensures { IsTrue result ↔ (method.now ≡ codes "GET") }
{
    method == b"GET".as_slice()
}

/// Reads a request for the feed of a contest.
pub fn read_request(alloc: Global, bytes: &[u8], contest: &str) -> Result<AskedFor, AllocError>
    ensures { IfOk result (λ asked. Asks bytes.now contest.now (asked_of asked)) }
{
    let mut headers = [EMPTY_HEADER_SPAN; HEAD_FIELDS];
    let Some(head) = whole_request(bytes, &mut headers) else {
        if is_past_limits(bytes) {
            return Ok(AskedFor::Refused(Refusal::LargeHead));
        }
        return Ok(AskedFor::Refused(Refusal::Unreadable));
    };
    let target = head.path.of(bytes);
    if !begins_with_slash(target) {
        return Ok(AskedFor::Refused(Refusal::Unreadable));
    }
    let method = head.method.of(bytes);
    match Uri::from_bytes(alloc, target) {
        Ok(uri) => asked_by(alloc, method, &uri, head.version, contest),
        Err(UriError::Invalid(_)) => Ok(AskedFor::Refused(Refusal::Unreadable)),
        Err(UriError::OutOfMemory) => Err(AllocError),
    }
}

/// What a request with this method and this target asks for, in this version of HTTP/1.
fn asked_by(
    alloc: Global,
    method: &[u8],
    target: &Uri,
    minor: u8,
    contest: &str,
) -> Result<AskedFor, AllocError>
    ensures { IfOk result (λ asked. AsksBy method.now target.now minor contest.now
        (asked_of asked)) }
{
    if !is_get(method) {
        return Ok(AskedFor::Refused(Refusal::NotGet));
    }
    if !is_path(target.path(), contest) {
        return Ok(AskedFor::Refused(Refusal::OtherPath));
    }
    let since = asked_since(alloc, target.query())?;
    Ok(AskedFor::Feed(minor, since))
}
