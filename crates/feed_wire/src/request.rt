//! The request for a feed.
ghost use Rattle.std.specs.Prelude.{◌≡◌, ◌++◌, OnOk, OnErr, codes};
ghost use Rattle.std.specs.Option.{option_copied};
ghost use Rattle.httparse.specs.Ascii.{crlf_bytes};
ghost use Rattle.form_urlencoded.specs.Form as form;
ghost use Rattle.feed_text.specs.Beginnings.{Begins};
ghost use Rattle.feed_wire.specs.Identity.{anonymous};
ghost use Rattle.feed_wire.specs.RequestText as texts;

use crate::identity::Identity;
use feed_settings::Place;
use form_urlencoded::byte_serialize;
use std::alloc::AllocError;

/// Appends the request to a place for what came after a token, or for all. Out of memory,
/// nothing is appended.
pub fn request_text(place: &Place, since: Option<&str>, out: &mut Vec<u8>) -> Result<(), AllocError>
    ensures ok { OnOk result (out.new.items ≡ out.old.items ++ texts.request_text place.now
        (option_copied since.entry)) }
    ensures err { OnErr result (out.new.items ≡ out.old.items) }
{
    let start = out.len();
    let appended = append_request(place, since, place.host(), None, out);
    if appended.is_err() {
        out.truncate(start);
    }
    appended
}

/// Appends the same request with what an identity says: the host by its name for it, and a line
/// with the credentials of who asks. For nobody in particular it is the request of `request_text`.
/// Out of memory, nothing is appended.
pub fn request_text_as(
    place: &Place,
    since: Option<&str>,
    identity: &Identity,
    out: &mut Vec<u8>,
) -> Result<(), AllocError>
    ensures ok { OnOk result (out.new.items ≡ out.old.items ++ texts.request_text_as place.now
        (option_copied since.entry) identity.now) }
    ensures err { OnErr result (out.new.items ≡ out.old.items) }
    ensures anonymous { identity.now ≡ anonymous → OnOk result (out.new.items
        ≡ out.old.items ++ texts.request_text place.now (option_copied since.entry)) }
{
    let start = out.len();
    let appended = append_request(
        place,
        since,
        host_of(place, identity),
        identity.credentials(),
        out,
    );
    if appended.is_err() {
        out.truncate(start);
    }
    appended
}

// Each of the functions below leaves a part of its text where memory runs out.

fn append_request(
    place: &Place,
    since: Option<&str>,
    host: &str,
    credentials: Option<&str>,
    out: &mut Vec<u8>,
) -> Result<(), AllocError>
    ensures ok { OnOk result (out.new.items ≡ out.old.items ++ texts.request_with place.now
        (option_copied since.entry) host.now (option_copied credentials.entry)) }
    ensures kept { Begins out.old.items out.new.items }
{
    append_request_line(place, since, out)?;
    append_host(host, out)?;
    out.extend_from_slice(b"Accept: application/x-ndjson\r\nConnection: close\r\n")?;
    append_credentials(credentials, out)?;
    out.extend_from_slice(b"\r\n")?;
    Ok(())
}

/// The line that says who asks, if that is said.
fn append_credentials(credentials: Option<&str>, out: &mut Vec<u8>) -> Result<(), AllocError>
    ensures ok { OnOk result (out.new.items ≡ out.old.items ++ texts.lines_text
        (texts.credentials_lines (option_copied credentials.entry))) }
    ensures kept { Begins out.old.items out.new.items }
{
    let Some(credentials) = credentials else {
        return Ok(());
    };
    out.extend_from_slice(b"Authorization: ")?;
    out.extend_from_slice(credentials.as_bytes())?;
    out.extend_from_slice(b"\r\n")
}

/// The host that a request names.
fn host_of<'a>(place: &'a Place, identity: &'a Identity) -> &'a str
    ensures { result.now ≡ texts.named_host identity.now.host place.now.host }
{
    match identity.host() {
        Some(host) => host,
        None => place.host(),
    }
}

fn append_request_line(
    place: &Place,
    since: Option<&str>,
    out: &mut Vec<u8>,
) -> Result<(), AllocError>
    ensures ok { OnOk result (out.new.items ≡ out.old.items ++
        (texts.request_line place.now (option_copied since.entry) ++ crlf_bytes)) }
    ensures kept { Begins out.old.items out.new.items }
{
    out.extend_from_slice(b"GET ")?;
    append_path(place, out)?;
    append_since(since, out)?;
    out.extend_from_slice(b" HTTP/1.1\r\n")?;
    Ok(())
}

fn append_path(place: &Place, out: &mut Vec<u8>) -> Result<(), AllocError>
    ensures ok { OnOk result (out.new.items
        ≡ out.old.items ++ texts.feed_path place.now.base place.now.contest) }
    ensures kept { Begins out.old.items out.new.items }
{
    out.extend_from_slice(place.base().as_bytes())?;
    out.extend_from_slice(b"/contests/")?;
    out.extend_from_slice(place.contest().as_bytes())?;
    out.extend_from_slice(b"/event-feed")?;
    Ok(())
}

fn append_since(since: Option<&str>, out: &mut Vec<u8>) -> Result<(), AllocError>
    ensures ok { OnOk result (out.new.items ≡ out.old.items ++ texts.since_query
        (option_copied since.entry)) }
    ensures kept { Begins out.old.items out.new.items }
{
    let Some(token) = since else {
        return Ok(());
    };
    out.extend_from_slice(b"?since_token=")?;
    append_value(token, out)
}

fn append_value(token: &str, out: &mut Vec<u8>) -> Result<(), AllocError>
    ensures ok { OnOk result (out.new.items ≡ out.old.items ++ form.byte_serialize token.now) }
    ensures kept { Begins out.old.items out.new.items }
{
    for part in byte_serialize(token.as_bytes()) {
        out.extend_from_slice(part.as_bytes())?;
    }
    Ok(())
}

fn append_host(host: &str, out: &mut Vec<u8>) -> Result<(), AllocError>
    ensures ok { OnOk result (out.new.items ≡ out.old.items ++
        (codes "Host: " ++ host.now ++ crlf_bytes)) }
    ensures kept { Begins out.old.items out.new.items }
{
    out.extend_from_slice(b"Host: ")?;
    out.extend_from_slice(host.as_bytes())?;
    out.extend_from_slice(b"\r\n")
}
