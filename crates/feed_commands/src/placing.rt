//! Where in a line of a feed its fault is: the byte, and the member that this byte stands in.
//! It is found by reading the line once more, and said to who reads: nothing rests on it.
ghost use Rattle.std.specs.Prelude.{◌≡◌, None, IfOk};
ghost use Rattle.feed_commands.specs.Fault.{StandsInLine};

mod scanner;

use feed_note::{LINE_BYTES, LineFault, LineStop};
use feed_tables::NAME_BYTES;
use feed_text::{LINE_LEVELS, decode_string, nests_to};
use scanner::{Expected, Scanner};
use std::alloc::{AllocError, Global};
use std::str;

/// A member of a line that counts.
#[derive(Clone, Copy, Debug, PartialEq, Eq)]
pub enum Counting {
    Type,
    Id,
    Data,
    Token,
}

/// Where in a line its fault is.
#[derive(Clone, Copy, Debug, PartialEq, Eq)]
pub struct Spot {
    /// The byte, counted from 1: one more than the line has, if that ends too early.
    pub byte: u64,
    /// The member of the line that this byte stands in, if it is one that counts.
    pub member: Option<Counting>,
}

/// The places of a value's first byte, and of what is behind its last, counted from 0.
#[derive(Clone, Copy)]
struct Value {
    start: usize,
    end: usize,
}

/// The last values of the members that count.
#[derive(Clone, Copy)]
struct Values {
    kind: Option<Value>,
    id: Option<Value>,
    content: Option<Value>,
    token: Option<Value>,
}

/// How far a line is the beginning of an object, and what of it was found.
#[derive(Clone, Copy)]
struct Walk {
    scanner: Scanner,
    /// How many bytes were read.
    read: usize,
    /// Where the line's object begins, and its last key.
    opened: usize,
    key: usize,
    /// The member whose value comes, or is read.
    member: Option<Counting>,
    /// Where that value begins, and where the last byte of it was.
    value: Value,
    values: Values,
}

/// The text of a JSON string; none where it is none, or says nothing.
fn text_of(alloc: Global, string: &[u8]) -> Result<Option<String>, AllocError> {
    match str::from_utf8(string) {
        Ok(_) => decode_string(alloc, string),
        Err(_) => Ok(None),
    }
}

impl Counting {
    /// The member that a key names.
    fn of_key(alloc: Global, key: &[u8]) -> Result<Option<Counting>, AllocError> {
        let Some(name) = text_of(alloc, key)? else {
            return Ok(None);
        };
        Ok(match name.as_str() {
            "type" => Some(Counting::Type),
            "id" => Some(Counting::Id),
            "data" => Some(Counting::Data),
            "token" => Some(Counting::Token),
            _ => None,
        })
    }

    /// Its name.
    pub fn name(self) -> &'static str {
        match self {
            Counting::Type => "type",
            Counting::Id => "id",
            Counting::Data => "data",
            Counting::Token => "token",
        }
    }
}

impl Values {
    fn put(&mut self, member: Counting, value: Value) {
        let place = match member {
            Counting::Type => &mut self.kind,
            Counting::Id => &mut self.id,
            Counting::Data => &mut self.content,
            Counting::Token => &mut self.token,
        };
        *place = Some(value);
    }
}

impl Walk {
    fn new() -> Walk {
        Walk {
            scanner: Scanner::new(),
            read: 0,
            opened: 0,
            key: 0,
            member: None,
            value: Value { start: 0, end: 0 },
            values: Values {
                kind: None,
                id: None,
                content: None,
                token: None,
            },
        }
    }

    /// Reads the line as far as it is the beginning of an object.
    fn of(alloc: Global, line: &[u8]) -> Result<Walk, AllocError> {
        let mut walk = Walk::new();
        for byte in line {
            if !walk.step(alloc, line, *byte)? {
                break;
            }
        }
        Ok(walk)
    }

    /// Reads one byte more. Whether the line may go on with it.
    fn step(&mut self, alloc: Global, line: &[u8], byte: u8) -> Result<bool, AllocError> {
        let (next, depth) = (self.scanner.next(), self.scanner.depth);
        if !self.scanner.read(byte) {
            return Ok(false);
        }
        if next == Expected::Object {
            self.opened = self.read;
        }
        if depth == 1 {
            self.note(alloc, line, next)?;
        }
        self.read = self.read.saturating_add(1);
        Ok(true)
    }

    /// Notes a byte between the braces of the line's object, in front of which this came next.
    fn note(&mut self, alloc: Global, line: &[u8], next: Expected) -> Result<(), AllocError> {
        let here = self.read;
        match (next, self.scanner.next()) {
            (Expected::FirstKey | Expected::Key, Expected::Text { is_key: true }) => self.key =
                here,
            (Expected::Text { is_key: true }, Expected::Colon) => {
                let key = line.get(self.key..=here).unwrap_or(&[]);
                self.member = Counting::of_key(alloc, key)?;
            }
            (Expected::Value, now) if now != Expected::Value => self.value.start = here,
            (Expected::Comma | Expected::Number(_), Expected::Key | Expected::End) =>
                self.end_value(here),
            _ => {}
        }
        Ok(())
    }

    /// The value ends before this place, with white space behind it or none.
    fn end_value(&mut self, here: usize) {
        self.value.end = here;
        if let Some(member) = self.member {
            self.values.put(member, self.value);
        }
        self.member = None;
    }
}

/// The first place of a line before which it is no UTF-8.
fn broken(line: &[u8]) -> usize {
    match str::from_utf8(line) {
        Ok(_) => line.len(),
        Err(error) => error.valid_up_to(),
    }
}

/// The place of the bracket at which a line nests too deep.
fn deep(line: &[u8]) -> usize {
    let (mut low, mut high) = (0usize, line.len());
    for _ in 0..64 {
        let middle = low.saturating_add(high.saturating_sub(low) / 2);
        if low >= high {
            break;
        }
        if nests_to(line.get(..middle).unwrap_or(&[]), LINE_LEVELS + 1) {
            high = middle;
        } else {
            low = middle.saturating_add(1);
        }
    }
    low.saturating_sub(1)
}

/// Where a value begins, and the member that it is of.
fn at(value: Option<Value>, member: Counting) -> Option<(usize, Option<Counting>)> {
    value.map(|value| (value.start, Some(member)))
}

/// Whether a value is a string that says a text of at most so many bytes, or null where it may be.
fn is_text(
    alloc: Global,
    line: &[u8],
    value: Value,
    may_be_null: bool,
    most: usize,
) -> Result<bool, AllocError> {
    let text = line.get(value.start..value.end).unwrap_or(&[]);
    let text = text.trim_ascii_end();
    if text == b"null".as_slice() {
        return Ok(may_be_null);
    }
    Ok(match text_of(alloc, text)? {
        Some(text) => text.len() <= most,
        None => false,
    })
}

/// The first of type, id and token that is no text of so many bytes, nor null where it may be.
fn bad_text(
    alloc: Global,
    line: &[u8],
    values: &Values,
    most: usize,
) -> Result<Option<(usize, Option<Counting>)>, AllocError> {
    let three = [
        (values.kind, Counting::Type),
        (values.id, Counting::Id),
        (values.token, Counting::Token),
    ];
    for (value, member) in three {
        if let Some(text) = value {
            if !is_text(alloc, line, text, member != Counting::Type, most)? {
                return Ok(at(value, member));
            }
        }
    }
    Ok(None)
}

/// Where the fault of a line is, and in which member.
fn place_of(
    alloc: Global,
    line: &[u8],
    fault: LineFault,
) -> Result<Option<(usize, Option<Counting>)>, AllocError> {
    let end = match fault {
        LineFault::Memory => return Ok(None),
        LineFault::Utf8 => broken(line),
        LineFault::Deep => deep(line),
        _ => line.len(),
    };
    let walk = Walk::of(alloc, line.get(..end).unwrap_or(line))?;
    let data = at(walk.values.content, Counting::Data);
    Ok(match fault {
        LineFault::Utf8 | LineFault::Deep => Some((end, walk.member)),
        LineFault::Syntax => Some((walk.read, walk.member)),
        LineFault::NoType => Some((walk.opened, None)),
        LineFault::BadMember => bad_text(alloc, line, &walk.values, usize::MAX)?,
        LineFault::LongName => bad_text(alloc, line, &walk.values, NAME_BYTES)?.or(data),
        _ => data,
    })
}

/// A place in a line, or behind its last byte, as it is reported.
fn spot_at(line: &[u8], place: usize, member: Option<Counting>) -> Option<Spot>
    ensures { StandsInLine line.now result }
{
    if place > line.len() {
        return None;
    }
    let byte = place as u64 + 1;
    Some(Spot { byte, member })
}

/// Where the fault of a line is that stops the reading of a feed. That is the first byte with which
/// the line is too long, is no UTF-8, nests too deep, or is not the beginning of an object. Of all
/// other faults it is the first byte of the value of the member that has it, or of the object where
/// a member is wanting.
pub fn spot_of(alloc: Global, line: &[u8], stop: LineStop) -> Result<Option<Spot>, AllocError>
    ensures within { IfOk result (λ spot. StandsInLine line.now spot) }
    ensures memory { stop ≡ LineStop.Memory → IfOk result (λ spot. spot ≡ None) }
{
    let place = match stop {
        LineStop::Memory => return Ok(None),
        LineStop::LongLine => {
            let walk = Walk::of(alloc, line.get(..LINE_BYTES).unwrap_or(line))?;
            Some((LINE_BYTES, walk.member))
        }
        LineStop::Line(fault) => place_of(alloc, line, fault)?,
    };
    Ok(match place {
        Some((place, member)) => spot_at(line, place, member),
        None => None,
    })
}
