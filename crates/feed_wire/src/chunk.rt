//! The chunked body of a response, byte by byte.
ghost use Rattle.std.specs.Prelude.{◌≡◌, ◌<◌, ◌≤◌, ◌+◌, ◌^◌, ◌==◌, if◌then◌else◌, Some, None};
ghost use Rattle.httparse.specs.Ascii.{carriage_return};
ghost use Rattle.feed_wire.specs.ChunkReading as reading;
ghost use Rattle.feed_wire.specs.declared.chunk.Chunking.{Chunking as Place};

/// Where a chunked body stands: how many bytes of a line came, the number that it says, how many
/// bytes of a chunk are still to come, or how many bytes the trailer lines have.
#[derive(Clone, Copy)]
pub enum Chunking {
    LineStart,
    InDigits(usize, u64),
    InPad(usize, u64),
    InExtension(usize, u64),
    LineCr(u64),
    InBytes(u64),
    BytesEnd,
    BytesCr,
    TrailerStart(usize),
    InTrailer(usize),
    TrailerCr(usize),
    EndCr,
    Whole,
}

/// What a digit of a size is worth.
fn hex_value(byte: u8) -> Option<u64>
    ensures { result ≡ reading.hex_value byte }
{
    match byte {
        b'0'..=b'9' => Some(u64::from(byte - b'0')),
        b'A'..=b'F' => Some(u64::from(byte - b'A') + 10),
        b'a'..=b'f' => Some(u64::from(byte - b'a') + 10),
        _ => None,
    }
}

/// A size line at its first digit.
fn line_start(byte: u8) -> Option<Chunking>
    ensures { result ≡ reading.next Place.LineStart byte }
{
    Some(Chunking::InDigits(1, hex_value(byte)?))
}

/// A size line in its digits, of which there are at most sixteen.
fn in_digits(length: usize, size: u64, byte: u8) -> Option<Chunking>
    requires { size < 16 ^ length }
    ensures { result ≡ reading.next (Place.InDigits length size) byte }
{
    match hex_value(byte) {
        Some(digit) if length < 16 => Some(Chunking::InDigits(length + 1, size * 16 + digit)),
        Some(_) => None,
        None => after_size(length, size, byte),
    }
}

/// A size line after its digits.
fn after_size(length: usize, size: u64, byte: u8) -> Option<Chunking>
    ensures { result ≡ reading.after_size length size byte }
{
    match byte {
        b'\r' => Some(Chunking::LineCr(size)),
        _ if length >= 1024 => None,
        b' ' | b'\t' => Some(Chunking::InPad(length + 1, size)),
        b';' => Some(Chunking::InExtension(length + 1, size)),
        _ => None,
    }
}

/// A size line in its extension.
fn in_extension(length: usize, size: u64, byte: u8) -> Option<Chunking>
    ensures { result ≡ reading.next (Place.InExtension length size) byte }
{
    match byte {
        b'\r' => Some(Chunking::LineCr(size)),
        b'\n' => None,
        _ if length < 1024 => Some(Chunking::InExtension(length + 1, size)),
        _ => None,
    }
}

/// What follows a size line: the bytes of its chunk, or the trailer lines behind the last one.
fn after_line(size: u64) -> Chunking
    ensures { result ≡ reading.after_line size }
{
    if size == 0 {
        Chunking::TrailerStart(0)
    } else {
        Chunking::InBytes(size)
    }
}

/// A chunk of whose bytes so many were still to come, behind one of them.
fn after_one(left: u64) -> Chunking
    requires { 0 < left }
    ensures { Some result ≡ reading.next (Place.InBytes left) 0 }
{
    if left == 1 {
        Chunking::BytesEnd
    } else {
        Chunking::InBytes(left - 1)
    }
}

/// A trailer line, which goes on or ends in a CR that leads to this place.
fn in_trailer(length: usize, byte: u8, cr: Chunking) -> Option<Chunking>
    ensures { result
        ≡ (if byte == carriage_return then Some cr else reading.in_trailer length byte) }
{
    if byte == b'\r' {
        Some(cr)
    } else if byte != b'\n' && length < 8190 {
        Some(Chunking::InTrailer(length + 1))
    } else {
        None
    }
}

/// The place that the byte leads to where no other byte can stand.
fn only(wanted: u8, byte: u8, to: Chunking) -> Option<Chunking>
    ensures { result ≡ (if byte == wanted then Some to else None) }
{
    if byte == wanted { Some(to) } else { None }
}

/// Where the body stands after one more byte; nowhere, if the byte can't stand there.
pub fn after_byte(at: Chunking, byte: u8) -> Option<Chunking>
    requires { reading.IsChunkPlace at }
    ensures { result ≡ reading.next at byte }
{
    match at {
        Chunking::LineStart => line_start(byte),
        Chunking::InDigits(length, size) => in_digits(length, size, byte),
        Chunking::InPad(length, size) => after_size(length, size, byte),
        Chunking::InExtension(length, size) => in_extension(length, size, byte),
        Chunking::LineCr(size) => only(b'\n', byte, after_line(size)),
        Chunking::InBytes(left) => Some(after_one(left)),
        Chunking::BytesEnd => only(b'\r', byte, Chunking::BytesCr),
        Chunking::BytesCr => only(b'\n', byte, Chunking::LineStart),
        Chunking::TrailerStart(length) => in_trailer(length, byte, Chunking::EndCr),
        Chunking::InTrailer(length) => in_trailer(length, byte, Chunking::TrailerCr(length)),
        Chunking::TrailerCr(length) => only(b'\n', byte, Chunking::TrailerStart(length + 2)),
        Chunking::EndCr => only(b'\n', byte, Chunking::Whole),
        Chunking::Whole => None,
    }
}
