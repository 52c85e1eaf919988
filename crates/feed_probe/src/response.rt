//! A response as it comes, piece by piece: what its head says, whatever that is, and its payload.

use httparse::spans::{EMPTY_HEADER_SPAN, HeaderSpan, parse_response};
use httparse::{Status, parse_chunk_size};
use std::alloc::{AllocError, Global};
use std::str::from_utf8;

/// How many bytes and fields a head has at most.
const HEAD_BYTES: usize = 16_384;

const HEAD_FIELDS: usize = 64;

/// How many of the first bytes are kept, to be told.
const BEGINS: usize = 256;

/// The most bytes of a chunk's size line.
const SIZE_BYTES: usize = 1_024;

/// How a body ends.
#[derive(Clone, Copy, Debug, PartialEq, Eq)]
pub enum Framing {
    /// With the connection.
    ToEnd,
    /// After so many bytes.
    Sized(u64),
    /// With its last chunk.
    InChunks,
    /// In a transfer coding that isn't read.
    Strange,
}

/// What a head says.
#[derive(Drop)]
pub struct Head {
    /// The status.
    pub status: u16,
    /// How the body ends.
    pub framing: Framing,
    /// Where it redirects to; empty where it doesn't say.
    pub location: String,
    /// What the body is; empty where it doesn't say.
    pub media: String,
    /// How the body is coded; empty where it doesn't say.
    pub coding: String,
}

/// Where a chunked body stands.
#[derive(Clone, Copy)]
enum Place {
    Size,
    Data(u64),
    End,
}

/// A response, as far as it came.
#[derive(Drop)]
pub struct Response {
    head: Option<Head>,
    // Its first bytes, and those that were not read yet.
    begins: Vec<u8>,
    left: Vec<u8>,
    place: Place,
    // How many bytes of the payload came.
    count: u64,
    is_whole: bool,
    is_broken: bool,
}

/// The value of a field, as text.
fn value_of(alloc: Global, text: &[u8], header: &HeaderSpan) -> Result<String, AllocError> {
    let bytes = text
        .get(header.value.start..header.value.end)
        .unwrap_or(&[]);
    String::from_str(alloc, from_utf8(bytes).unwrap_or("?"))
}

/// The framing that one more field leaves.
fn with_field(framing: Framing, name: &[u8], value: &[u8]) -> Framing {
    if name.eq_ignore_ascii_case(b"transfer-encoding") {
        return if value.eq_ignore_ascii_case(b"chunked") {
            Framing::InChunks
        } else {
            Framing::Strange
        };
    }
    if framing != Framing::ToEnd || !name.eq_ignore_ascii_case(b"content-length") {
        return framing;
    }
    let length = match from_utf8(value) {
        Ok(text) => text.parse::<u64>().ok(),
        Err(_) => None,
    };
    match length {
        Some(length) => Framing::Sized(length),
        None => Framing::Strange,
    }
}

/// What a head of this status says, with these fields of a text.
fn head_of(
    alloc: Global,
    status: u16,
    text: &[u8],
    headers: &[HeaderSpan],
) -> Result<Head, AllocError> {
    let mut head = Head {
        status,
        framing: Framing::ToEnd,
        location: String::new(alloc),
        media: String::new(alloc),
        coding: String::new(alloc),
    };
    for header in headers {
        let name = text.get(header.name.start..header.name.end).unwrap_or(&[]);
        let value = value_of(alloc, text, header)?;
        head.framing = with_field(head.framing, name, value.as_bytes());
        if name.eq_ignore_ascii_case(b"location") {
            head.location = value;
        } else if name.eq_ignore_ascii_case(b"content-type") {
            head.media = value;
        } else if name.eq_ignore_ascii_case(b"content-encoding") {
            head.coding = value;
        }
    }
    Ok(head)
}

impl Response {
    /// Nothing came yet.
    pub fn new(alloc: Global) -> Response {
        Response {
            head: None,
            begins: Vec::new(alloc),
            left: Vec::new(alloc),
            place: Place::Size,
            count: 0,
            is_whole: false,
            is_broken: false,
        }
    }

    /// What its head says, where that came.
    pub fn head(&self) -> Option<&Head> {
        self.head.as_ref()
    }

    /// The status; 0 where none came.
    pub fn status(&self) -> u16 {
        match &self.head {
            Some(head) => head.status,
            None => 0,
        }
    }

    /// Its first bytes, at most 256.
    pub fn begins(&self) -> &[u8] {
        self.begins.as_slice()
    }

    /// Whether all of it came.
    pub fn is_whole(&self) -> bool {
        self.is_whole
    }

    /// Whether it is none, or its body breaks the rules.
    pub fn is_broken(&self) -> bool {
        self.is_broken
    }

    /// Takes one more piece, and appends what it has of the payload.
    pub fn take(
        &mut self,
        alloc: Global,
        piece: &[u8],
        out: &mut Vec<u8>,
    ) -> Result<(), AllocError> {
        let room = BEGINS.saturating_sub(self.begins.len());
        let first = piece.get(..room).unwrap_or(piece);
        self.begins.extend_from_slice(first)?;
        self.left.extend_from_slice(piece)?;
        if self.head.is_none() {
            self.read_head(alloc)?;
        }
        self.read_body(alloc, out)
    }

    /// Reads the head, where it is whole by now.
    fn read_head(&mut self, alloc: Global) -> Result<(), AllocError> {
        let mut headers = [EMPTY_HEADER_SPAN; HEAD_FIELDS];
        match parse_response(self.left.as_slice(), &mut headers) {
            Ok(Status::Complete(found)) => {
                let fields = headers.get(..found.headers).unwrap_or(&[]);
                let head = head_of(alloc, found.code, self.left.as_slice(), fields)?;
                self.head = Some(head);
                self.pass(alloc, found.len)
            }
            Ok(Status::Partial) if self.left.len() <= HEAD_BYTES => Ok(()),
            _ => {
                self.is_broken = true;
                Ok(())
            }
        }
    }

    /// So many of the bytes were read.
    fn pass(&mut self, alloc: Global, count: usize) -> Result<(), AllocError> {
        let rest = self.left.get(count..).unwrap_or(&[]);
        let left = Vec::from_slice(alloc, rest)?;
        self.left = left;
        Ok(())
    }

    /// Reads of the body what there is. What comes after all of it is ignored.
    fn read_body(&mut self, alloc: Global, out: &mut Vec<u8>) -> Result<(), AllocError> {
        if self.is_whole {
            self.left.clear();
        }
        let Some(head) = &self.head else {
            return Ok(());
        };
        match head.framing {
            Framing::InChunks => self.read_chunks(alloc, out),
            Framing::Sized(length) => self.read_sized(length, out),
            Framing::ToEnd | Framing::Strange => {
                out.extend_from_slice(self.left.as_slice())?;
                self.left.clear();
                Ok(())
            }
        }
    }

    /// The same of one that has so many bytes.
    fn read_sized(&mut self, length: u64, out: &mut Vec<u8>) -> Result<(), AllocError> {
        out.extend_from_slice(self.left.as_slice())?;
        self.count = self.count.saturating_add(self.left.len() as u64);
        self.left.clear();
        self.is_whole = self.count >= length;
        Ok(())
    }

    /// The same of one in chunks.
    fn read_chunks(&mut self, alloc: Global, out: &mut Vec<u8>) -> Result<(), AllocError> {
        let mut at = 0;
        for _ in 0..u64::MAX {
            let rest = self.left.get(at..).unwrap_or(&[]);
            let (count, place) = step(self.place, rest);
            if let Place::Data(_) = self.place {
                out.extend_from_slice(rest.get(..count).unwrap_or(&[]))?;
            }
            match place {
                Next::At(place) => self.place = place,
                Next::Whole => self.is_whole = true,
                Next::Broken => self.is_broken = true,
                Next::Waits => {}
            }
            at = at.saturating_add(count);
            if count == 0 || self.is_whole {
                break;
            }
        }
        self.pass(alloc, at)
    }
}

/// Where a chunked body stands next.
#[derive(Clone, Copy)]
enum Next {
    At(Place),
    Whole,
    Broken,
    /// More has to come.
    Waits,
}

/// Reads one part of a chunked body: of how many bytes, and where it stands then.
fn step(place: Place, rest: &[u8]) -> (usize, Next) {
    match place {
        Place::Size => read_size(rest),
        Place::Data(left) => read_data(left, rest),
        Place::End => match rest {
            [b'\r', b'\n', ..] => (2, Next::At(Place::Size)),
            [] | [b'\r'] => (0, Next::Waits),
            _ => (0, Next::Broken),
        },
    }
}

/// Reads the line with the size of a chunk.
fn read_size(rest: &[u8]) -> (usize, Next) {
    match parse_chunk_size(rest) {
        Ok(Status::Complete((count, 0))) => (count, Next::Whole),
        Ok(Status::Complete((count, size))) => (count, Next::At(Place::Data(size))),
        Ok(Status::Partial) if rest.len() <= SIZE_BYTES => (0, Next::Waits),
        _ => (0, Next::Broken),
    }
}

/// Reads what there is of a chunk of which so many bytes are to come.
fn read_data(left: u64, rest: &[u8]) -> (usize, Next) {
    let count = rest.len();
    if (count as u64) < left {
        return (count, Next::At(Place::Data(left - count as u64)));
    }
    (left as usize, Next::At(Place::End))
}
