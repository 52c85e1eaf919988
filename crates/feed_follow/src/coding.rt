//! How the body of a response is coded and framed.
ghost use Rattle.std.specs.Prelude.{◌≡◌, ℕ, Option, Some, None, map, codes, if◌then◌else◌, IfErr};
ghost use Rattle.std.specs.Str.Parse.{digits_value};
ghost use Rattle.httparse.specs.Borrowed.{header_parts};
ghost use Rattle.feed_follow.specs.Coding as coding;
ghost use Rattle.feed_follow.specs.Fields as fields;
ghost use Rattle.feed_follow.specs.HeadRead.{IsHeadFault};

use crate::FollowFault;
use httparse::Header;

/// How a body is framed: up to the end of the connection, by its length, or in chunks.
#[derive(Clone, Copy)]
pub(crate) enum BodyFraming {
    ToEnd,
    Sized(u64),
    InChunks,
}

const LONGEST_LENGTH: usize = 18;

fn is_word(word: &[u8], text: &[u8]) -> bool
    ensures { result ≡ coding.is_word word.now text.now }
{
    text.eq_ignore_ascii_case(word)
}

/// The number that 1 to 18 decimal digits give.
fn length_in(text: &[u8]) -> Option<u64>
    ensures { result
        ≡ (if coding.is_length text.now then Some (digits_value 10 text.now) else None) }
{
    if text.is_empty() || text.len() > LONGEST_LENGTH {
        return None;
    }
    let mut length = 0u64;
    'digits: for byte in text {
        if !byte.is_ascii_digit() {
            return None;
        }
        length = length * 10 + u64::from(*byte - b'0');
    }
    Some(length)
}

/// The framing by one more length, which must be the number of those before it.
fn with_length(framing: BodyFraming, text: &[u8]) -> Result<BodyFraming, FollowFault>
    ensures value { result ≡ fields.by_length framing text.now }
    ensures faults { IfErr result IsHeadFault }
{
    let Some(length) = length_in(text) else {
        return Err(FollowFault::BadLength);
    };
    match framing {
        BodyFraming::ToEnd => Ok(BodyFraming::Sized(length)),
        BodyFraming::Sized(first) if first == length => Ok(framing),
        _ => Err(FollowFault::BadLength),
    }
}

/// The framing by the lengths that the fields give, which must be one number.
fn framing_by_length(fields: &[Header]) -> Result<BodyFraming, FollowFault>
    ensures faults { IfErr result IsHeadFault }
    ensures value { result ≡ coding.framing_by_length
        (coding.values_of (codes "content-length") (map header_parts fields.now)) }
{
    let mut framing = BodyFraming::ToEnd;
    'fields: for field in fields {
        if is_word(b"content-length", field.name.as_bytes()) {
            framing = with_length(framing, field.value)?;
        }
    }
    Ok(framing)
}

/// Whether the body is chunked by one more field.
fn with_coding(is_chunked: bool, name: &[u8], value: &[u8]) -> Result<bool, FollowFault>
    ensures value { result ≡ fields.by_coding is_chunked (name.now, value.now) }
    ensures faults { IfErr result IsHeadFault }
{
    if is_word(b"content-encoding", name) && !is_word(b"identity", value) {
        return Err(FollowFault::BadCoding);
    }
    if !is_word(b"transfer-encoding", name) {
        return Ok(is_chunked);
    }
    if is_chunked || !is_word(b"chunked", value) {
        return Err(FollowFault::BadCoding);
    }
    Ok(true)
}

/// How the fields of a head say that the body is framed.
pub(crate) fn body_framing(fields: &[Header]) -> Result<BodyFraming, FollowFault>
    ensures value { result ≡ coding.body_framing (map header_parts fields.now) }
    ensures faults { IfErr result IsHeadFault }
{
    let mut is_chunked = false;
    'fields: for field in fields {
        is_chunked = with_coding(is_chunked, field.name.as_bytes(), field.value)?;
    }
    if is_chunked {
        Ok(BodyFraming::InChunks)
    } else {
        framing_by_length(fields)
    }
}
