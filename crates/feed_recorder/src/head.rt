//! The head of a response: its status, and how its body is framed (RFC 9112, sections 4 and 6).

use crate::cut::Cut;
use feed_tape::BodyFraming;
use feed_wire::{HEAD_BYTES, HEAD_FIELDS};
use httparse::{EMPTY_HEADER, Error, Header, Response, Status};

/// The most digits of a length.
const LENGTH_DIGITS: usize = 18;

/// A whole head: how many bytes it has, and what it says.
#[derive(Clone, Copy)]
pub(crate) struct Head {
    pub(crate) len: usize,
    pub(crate) status: u16,
    pub(crate) framing: BodyFraming,
}

fn is_word(word: &[u8], text: &[u8]) -> bool {
    text.eq_ignore_ascii_case(word)
}

/// The number that 1 to 18 digits give.
fn length_of(text: &[u8]) -> Option<u64> {
    if text.is_empty() || text.len() > LENGTH_DIGITS {
        return None;
    }
    std::str::from_utf8(text).ok()?.parse::<u64>().ok()
}

/// What a field says of the framing, behind those before it.
fn framed_by(framing: BodyFraming, field: &Header) -> Result<BodyFraming, Cut> {
    let (name, value) = (field.name.as_bytes(), field.value);
    if is_word(b"content-encoding", name) && !is_word(b"identity", value) {
        return Err(Cut::BadCoding);
    }
    if is_word(b"transfer-encoding", name) {
        if !is_word(b"chunked", value) {
            return Err(Cut::BadCoding);
        }
        return Ok(BodyFraming::InChunks);
    }
    if !is_word(b"content-length", name) || matches!(framing, BodyFraming::InChunks) {
        return Ok(framing);
    }
    match length_of(value) {
        Some(length) => Ok(BodyFraming::Sized(length)),
        None => Err(Cut::BadCoding),
    }
}

/// How the fields of a head say that the body is framed.
fn framing_of(fields: &[Header]) -> Result<BodyFraming, Cut> {
    let mut framing = BodyFraming::ToEnd;
    for field in fields {
        framing = framed_by(framing, field)?;
    }
    Ok(framing)
}

/// The head at the start of these bytes; nothing where it isn't whole.
pub(crate) fn find_head(bytes: &[u8]) -> Result<Option<Head>, Cut> {
    let mut headers = [EMPTY_HEADER; HEAD_FIELDS];
    let mut response = Response::new(&mut headers);
    match response.parse(bytes) {
        Ok(Status::Complete(len)) => {
            let status = response.code.unwrap_or(0);
            let framing = if status == 200 {
                framing_of(response.headers)?
            } else {
                BodyFraming::ToEnd
            };
            Ok(Some(Head {
                len,
                status,
                framing,
            }))
        }
        Ok(Status::Partial) if bytes.len() <= HEAD_BYTES => Ok(None),
        Ok(Status::Partial) | Err(_) => Err(Cut::BadHead),
    }
}
