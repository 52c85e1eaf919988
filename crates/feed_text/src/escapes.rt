//! Strings with escapes (RFC 8259, section 7).

ghost use Rattle.std.specs.Prelude.{◌≡◌, ◌<◌, ◌++◌, true, IfSome, IfOk, OnOk, option_map, option_and_then};
ghost use Rattle.json.specs.Text.{is_high_surrogate as high_test, is_low_surrogate as low_test, short_escape, code_unit, content, plain};
ghost use Rattle.std.specs.Char.{digit_value, encode_utf8};
ghost use Rattle.feed_text.specs.Escapes.{unit_at, low_half_at, character_of, escaped_at, ClosesBefore};

use crate::run::skip_unescaped;
use crate::scalar::after_byte;
use crate::value::prefix;
use std::alloc::{AllocError, Global};

fn is_high_surrogate(unit: u32) -> bool
    ensures { result ≡ high_test unit }
{
    0xD800 <= unit && unit < 0xDC00
}

fn is_low_surrogate(unit: u32) -> bool
    ensures { result ≡ low_test unit }
{
    0xDC00 <= unit && unit < 0xE000
}

/// The byte that a backslash and this byte stand for.
fn short_meaning(byte: u8) -> Option<u8>
    ensures meaning { result ≡ short_escape byte }
    ensures ascii { IfSome result (λ c. c < 128) }
{
    match byte {
        b'"' | b'\\' | b'/' => Some(byte),
        b'b' => Some(8),
        b'f' => Some(12),
        b'n' => Some(b'\n'),
        b'r' => Some(b'\r'),
        b't' => Some(b'\t'),
        _ => None,
    }
}

/// The value of a hexadecimal digit, and 16 or more of any other byte.
fn hexadecimal(byte: u8) -> u32
    ensures { result ≡ digit_value byte }
{
    match byte {
        b'0'..=b'9' => u32::from(byte - b'0'),
        b'A'..=b'Z' => u32::from(byte - b'A') + 10,
        b'a'..=b'z' => u32::from(byte - b'a') + 10,
        _ => 36,
    }
}

/// The code unit that four hexadecimal digits spell.
fn unit_of(a: u8, b: u8, c: u8, d: u8) -> Option<u32>
    ensures unit { result ≡ code_unit a b c d }
    ensures small { IfSome result (λ unit. unit < 65536) }
{
    let (a, b, c, d) = (
        hexadecimal(a),
        hexadecimal(b),
        hexadecimal(c),
        hexadecimal(d),
    );
    if (a < 16) & (b < 16) & (c < 16) & (d < 16) {
        Some(a * 4096 + b * 256 + c * 16 + d)
    } else {
        None
    }
}

/// The code unit at the start, and what comes after it.
#[tactic(auto, using(crate::proofs::Escaping::unit_short), unfolding(crate::specs::Escapes::unit_at))]
fn next_unit(text: &[u8]) -> Option<(u32, &[u8])>
    ensures unit { option_map (λ r. (r.0, r.1.now)) result ≡ unit_at text.now }
    ensures small { IfSome result (λ r. r.0 < 65536) }
{
    match text {
        [a, b, c, d, rest @ ..] => Some((unit_of(*a, *b, *c, *d)?, rest)),
        _ => None,
    }
}

/// The character of a surrogate pair whose first half was read, and what comes after it.
#[tactic(auto, unfolding(crate::specs::Escapes::low_half_at))]
fn after_low_half(high: u32, text: &[u8]) -> Option<(char, &[u8])>
    requires { high_test high ≡ true }
    ensures { option_map (λ r. (r.0, r.1.now)) result ≡ low_half_at high text.now }
{
    let [b'\\', b'u', digits @ ..] = text else {
        return None;
    };
    let (low, rest) = next_unit(digits)?;
    if !is_low_surrogate(low) {
        return None;
    }
    let character = char::from_u32(0x10000 + (high - 0xD800) * 1024 + (low - 0xDC00))?;
    Some((character, rest))
}

/// The character of an escape whose backslash and `u` were read, and what comes after it.
fn after_unit(text: &[u8]) -> Option<(char, &[u8])>
    ensures { option_map (λ r. (r.0, r.1.now)) result
        ≡ option_and_then character_of (unit_at text.now) }
{
    let (unit, rest) = next_unit(text)?;
    if is_high_surrogate(unit) {
        return after_low_half(unit, rest);
    }
    let character = char::from_u32(unit)?;
    Some((character, rest))
}

/// The character of an escape whose backslash was read, and what comes after it.
#[tactic(auto, using(crate::proofs::Escaping::escaped_short), unfolding(crate::specs::Escapes::escaped_at))]
fn escaped(text: &[u8]) -> Option<(char, &[u8])>
    ensures { option_map (λ r. (r.0, r.1.now)) result ≡ escaped_at text.now }
{
    if let Some(digits) = after_byte(text, b'u') {
        return after_unit(digits);
    }
    match text {
        [byte, rest @ ..] => Some((char::from(short_meaning(*byte)?), rest)),
        _ => None,
    }
}

/// The text of a JSON string whose opening quotation mark was read, and what comes after the
/// closing one. None where there is none, where an escape is no escape, and where one is a
/// surrogate without its other half.
pub fn unescape(alloc: Global, inside: &[u8]) -> Result<Option<(Vec<u8>, &[u8])>, AllocError>
    ensures text { IfOk result (λ found.
        option_map (λ r. r.0.items) found ≡ content plain inside.now) }
    ensures rest { IfOk result (λ found. IfSome found (λ r. ClosesBefore inside.now r.1.now)) }
{
    let mut text = Vec::with_capacity(alloc, inside.len())?;
    let mut rest = inside;
    loop {
        let stop = skip_unescaped(rest);
        text.extend_from_slice(prefix(rest, stop))?;
        if let Some(behind) = after_byte(stop, b'"') {
            return Ok(Some((text, behind)));
        }
        let Some(escape) = after_byte(stop, b'\\') else {
            return Ok(None);
        };
        let Some((character, behind)) = escaped(escape) else {
            return Ok(None);
        };
        append_character(character, &mut text)?;
        rest = behind;
    }
}

/// Appends a character.
fn append_character(character: char, text: &mut Vec<u8>) -> Result<(), AllocError>
    ensures { OnOk result (text.new.items ≡ text.old.items ++ encode_utf8 character) }
{
    let mut buffer = [0; 4];
    text.extend_from_slice(character.encode_utf8(&mut buffer).as_bytes())
}
