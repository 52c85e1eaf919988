//! Where the connections of a record begin.

ghost use Rattle.std.specs.Prelude.{◌≡◌, ◌<◌, ◌≤◌, ◌||◌, ◌==◌, true, None, Some, IfOk, IfSome, IfNone};
ghost use Rattle.std.specs.List.{list_any};
ghost use Rattle.feed_records.specs.Connections.{is_since, is_status_line, is_success, is_blank_line, is_chunked, since_in, status_in, OpensNone};
ghost use Rattle.feed_records.specs.Parting.{IsOpening, SaysOpening, opens_connection, since_of, token_bytes};

use feed_note::LINE_BYTES;
use std::alloc::{AllocError, Global};

/// What begins a connection on a line.
#[derive(Clone, Copy)]
pub(crate) enum Opening<'a> {
    /// A line that says so.
    Marked,
    /// A line that says so, and the token that the connection was asked for with.
    Named(&'a [u8]),
    /// The status line of a head, and whether the status is 200.
    Head(bool),
}

/// How a connection was opened.
#[derive(Drop)]
pub struct Opened {
    /// Whether what it carries is a feed.
    pub is_feed: bool,
    /// The token that it was asked for with, if one is said.
    pub since: Option<Vec<u8>>,
}

impl Opened {
    /// One that carries a feed.
    pub fn feed(since: Option<Vec<u8>>) -> Opened
        ensures feed { result.is_feed ≡ true }
        ensures since { since_of result ≡ token_bytes since }
    {
        Opened {
            is_feed: true,
            since,
        }
    }
}

/// Whether neither a quotation mark nor a slash is among the bytes.
fn has_mark(bytes: &[u8]) -> bool
    ensures { result ≡ (list_any (λ b. b == 34) bytes.now || list_any (λ b. b == 47) bytes.now) }
{
    bytes.contains(&b'/') || bytes.contains(&b'"')
}

/// Whether the bytes end like a status line.
fn ends_head_line(bytes: &[u8]) -> bool
    ensures { result ≡ is_status_line bytes.now }
{
    bytes.starts_with(b"HTTP/") && !has_mark(&bytes[5..])
}

/// Whether the bytes end like a line that says the token of a connection.
fn says_token(bytes: &[u8]) -> bool
    ensures { result ≡ is_since bytes.now }
{
    bytes.starts_with(b"# connection since ") && !bytes[19..].contains(&b'"')
}

/// The bytes behind the last quotation mark of the line. What begins a connection stands there: so
/// of a line of a feed no more than its last bytes are looked at.
fn behind_strings(line: &[u8]) -> &[u8]
    ensures token { since_in result.now ≡ since_in line.now }
    ensures status { status_in result.now ≡ status_in line.now }
{
    let mut from = line.len();
    'bytes: while from > 0 {
        if line[from - 1] == b'"' {
            return &line[from..];
        }
        from -= 1;
    }
    line
}

/// The token of a line that says that of a connection.
fn find_token(line: &[u8]) -> Option<&[u8]>
    ensures some { IfSome result (λ token. since_in line.now ≡ Some token.now) }
    ensures none { IfNone result (since_in line.now ≡ None) }
{
    let mut rest = line;
    'bytes: while !rest.is_empty() {
        if says_token(rest) {
            return Some(&rest[19..]);
        }
        rest = &rest[1..];
    }
    None
}

/// The version and the status of a line that ends like a status line.
fn find_status(line: &[u8]) -> Option<&[u8]>
    ensures some { IfSome result (λ status. status_in line.now ≡ Some status.now) }
    ensures none { IfNone result (status_in line.now ≡ None) }
{
    let mut rest = line;
    'bytes: while !rest.is_empty() {
        if ends_head_line(rest) {
            return Some(&rest[5..]);
        }
        rest = &rest[1..];
    }
    None
}

/// Whether 200 stands behind the version.
fn succeeds(status: &[u8]) -> bool
    ensures { result ≡ is_success status.now }
{
    let mut rest = status;
    'bytes: while !rest.is_empty() {
        if rest[0] == b' ' {
            return rest[1..].starts_with(b"200");
        }
        rest = &rest[1..];
    }
    false
}

/// What begins on the line. On one that is longer than one of a feed may be nothing does.
fn opening_of<'a>(line: &'a [u8]) -> Option<Opening<'a>>
    ensures some { IfSome result (λ opening. IsOpening line.now opening) }
    ensures none { IfNone result (OpensNone line.now) }
{
    if line.len() > LINE_BYTES {
        return None;
    }
    if line.ends_with(b"# connection") {
        return Some(Opening::Marked);
    }
    let end = behind_strings(line);
    if let Some(token) = find_token(end) {
        return Some(Opening::Named(token));
    }
    let status = find_status(end)?;
    Some(Opening::Head(succeeds(status)))
}

/// Whether a connection begins on the line.
pub(crate) fn opens_connection(line: &[u8]) -> bool
    ensures { result ≡ opens_connection line.now }
{
    opening_of(line).is_some()
}

/// Makes it how the connection on the line was opened that begins there, and answers whether that
/// is a head. A head directly behind the beginning of a connection was asked for with its token.
pub(crate) fn read_opening(
    alloc: Global,
    line: &[u8],
    is_direct: bool,
    opened: &mut Opened,
) -> Result<bool, AllocError>
    ensures { opens_connection line.now ≡ true → IfOk result (λ is_head.
        SaysOpening is_head line.now is_direct opened.old opened.new) }
{
    match opening_of(line) {
        None => Ok(false),
        Some(Opening::Marked) => {
            *opened = Opened::feed(None);
            Ok(false)
        }
        Some(Opening::Named(token)) => {
            *opened = Opened::feed(Some(token.to_vec(alloc)?));
            Ok(false)
        }
        Some(Opening::Head(is_feed)) => {
            opened.is_feed = is_feed;
            if !is_direct {
                opened.since = None;
            }
            Ok(true)
        }
    }
}

/// Whether the line is empty, as the last of a head is.
pub(crate) fn is_empty_line(line: &[u8]) -> bool
    ensures { result ≡ is_blank_line line.now }
{
    line.len() == 0 || (line.len() == 1 && line[0] == b'\r')
}

/// Whether what a connection carried begins with the digits of a chunk's size.
pub fn begins_in_chunks(body: &[u8]) -> bool
    ensures { result ≡ is_chunked body.now }
{
    match body {
        [first, ..] => first.is_ascii_hexdigit(),
        [] => false,
    }
}
