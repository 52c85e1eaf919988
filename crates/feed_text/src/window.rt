//! Strings without escapes, passed over by a mask that is made once for many bytes ahead.
//!
//! An object has many short strings. Each of them would be looked at on its own, and most bytes
//! more than once. Here the bytes ahead are looked at once, and the mask that is made of them is
//! shifted from string to string. Where it is used up, it is made anew. Where it does not tell
//! where a string ends, or the string has an escape, the caller goes another way.

ghost use Rattle.std.specs.Prelude.{◌≡◌, ◌≤◌, ◌<◌, ◌-◌, IfSome, Some, option_map, length, drop, map};
ghost use Rattle.std.specs.Simd.Lanes.{mask_l};
ghost use Rattle.feed_text.specs.Ascii.{quotation_mark, space};
ghost use Rattle.feed_text.specs.Json.{is_white_space};
ghost use Rattle.feed_text.specs.Reading.{is_unescaped, is_stop, Foresees, rest_while, behind_first, bytes_of, rest_of, or_nothing as rest_or_nothing, string_at};

use crate::run::{LANES, behind, stops};
use crate::scalar::{after_byte, or_nothing, skip_white_space};
use std::simd::prelude::*;

/// How many bytes a mask is made for, where the text has so many.
const WIDE: usize = 64;

/// A text, and a mask of some of its first bytes, be they none: a bit for each that does not stand
/// for itself in a string.
#[derive(Clone, Copy)]
pub struct Seen<'a> {
    pub text: &'a [u8],
    pub stops: u64,
}

/// A text with the mask of no bytes.
#[inline(always)]
pub fn unseen(text: &[u8]) -> Seen<'_>
    ensures text { result.text.now ≡ text.now }
    ensures mask { Foresees result.stops result.text.now }
{
    Seen { text, stops: 0 }
}

/// A bit for each byte that does not stand for itself, as in `stops`.
#[inline(always)]
fn stops_wide(block: u8x64) -> u64
    ensures { result ≡ mask_l (map is_stop block) }
{
    (block.simd_eq(u8x64::splat(b'\\'))
        | (block ^ u8x64::splat(2)).simd_le(u8x64::splat(b' '))).to_bitmask()
}

/// The mask of the first bytes.
#[inline(always)]
fn look_ahead(text: &[u8]) -> u64
    ensures { Foresees result text.now }
{
    if text.len() >= WIDE {
        return stops_wide(u8x64::from_slice(text));
    }
    if text.len() >= LANES {
        return stops(u8x16::from_slice(text));
    }
    0
}

/// The same text, with a mask that is made anew where the one at hand is used up.
#[inline(always)]
fn seen_ahead(seen: Seen<'_>) -> Seen<'_>
    requires { Foresees seen.stops seen.text.now }
    ensures text { result.text.now ≡ seen.entry.text.now }
    ensures mask { Foresees result.stops result.text.now }
{
    if seen.stops != 0 {
        return seen;
    }
    let text = seen.text;
    let stops = look_ahead(text);
    Seen { text, stops }
}

/// What comes after the closing quotation mark, where the mask tells where it stands and the bytes
/// before it stand for themselves.
#[inline(always)]
fn pass_stop(seen: Seen<'_>) -> Option<Seen<'_>>
    requires { Foresees seen.stops seen.text.now }
    ensures text { IfSome result (λ r. Some r.text.now
        ≡ behind_first quotation_mark (rest_while is_unescaped seen.entry.text.now)) }
    ensures mask { IfSome result (λ r. Foresees r.stops r.text.now) }
{
    if seen.stops == 0 {
        return None;
    }
    let count = seen.stops.trailing_zeros() as usize;
    if seen.text[count] != b'"' {
        return None;
    }
    let text = behind(seen.text, count + 1);
    let stops = (seen.stops >> count) >> 1;
    Some(Seen { text, stops })
}

/// What comes after this byte, where the text begins with it.
#[inline(always)]
fn pass_byte(seen: Seen<'_>, byte: u8) -> Option<Seen<'_>>
    requires byte { 0 < byte }
    requires mask { Foresees seen.stops seen.text.now }
    ensures text { option_map (λ r. r.text.now) result ≡ behind_first byte seen.entry.text.now }
    ensures mask { IfSome result (λ r. Foresees r.stops r.text.now) }
{
    match after_byte(seen.text, byte) {
        Some(text) => {
            let stops = seen.stops >> 1;
            Some(Seen { text, stops })
        }
        None => None,
    }
}

/// What comes after this byte, where the text begins with it or with white space and then with it.
#[inline(always)]
pub fn pass_mark(seen: Seen<'_>, byte: u8) -> Option<Seen<'_>>
    requires byte { space < byte }
    requires mask { Foresees seen.stops seen.text.now }
    ensures text { option_map (λ r. r.text.now) result
        ≡ behind_first byte (rest_while is_white_space seen.entry.text.now) }
    ensures mask { IfSome result (λ r. Foresees r.stops r.text.now) }
{
    match pass_byte(seen, byte) {
        Some(more) => Some(more),
        None => pass_byte(unseen(skip_white_space(seen.text)), byte),
    }
}

/// What comes after a string, where its end is near and all its bytes stand for themselves.
#[inline(always)]
fn pass_string(seen: Seen<'_>) -> Option<Seen<'_>>
    requires { Foresees seen.stops seen.text.now }
    ensures text { IfSome result
        (λ r. Some r.text.now ≡ rest_of (string_at seen.entry.text.now)) }
    ensures mask { IfSome result (λ r. Foresees r.stops r.text.now) }
{
    let inside = pass_byte(seen, b'"')?;
    pass_stop(seen_ahead(inside))
}

/// What comes after such a string and this byte.
#[inline(always)]
fn pass_string_and(seen: Seen<'_>, byte: u8) -> Option<Seen<'_>>
    requires byte { 0 < byte }
    requires mask { Foresees seen.stops seen.text.now }
    ensures text { IfSome result (λ r. Some r.text.now
        ≡ behind_first byte (rest_or_nothing (rest_of (string_at seen.entry.text.now)))) }
    ensures mask { IfSome result (λ r. Foresees r.stops r.text.now) }
{
    pass_byte(pass_string(seen)?, byte)
}

/// The same, where a space may stand before the string.
#[inline(always)]
pub fn pass_spaced_and(seen: Seen<'_>, byte: u8) -> Option<Seen<'_>>
    requires byte { 0 < byte }
    requires mask { Foresees seen.stops seen.text.now }
    ensures text { IfSome result (λ r. Some r.text.now ≡ behind_first byte
        (rest_or_nothing (rest_of (string_at (rest_while is_white_space seen.entry.text.now))))) }
    ensures mask { IfSome result (λ r. Foresees r.stops r.text.now) }
{
    match pass_string_and(seen, byte) {
        Some(more) => Some(more),
        None => pass_string_and(pass_byte(seen, b' ')?, byte),
    }
}

/// The same text without a space that it begins with. Other white space stays, and what more there
/// is of it.
#[inline(always)]
pub fn pass_space(seen: Seen<'_>) -> Seen<'_>
    requires { Foresees seen.stops seen.text.now }
    ensures text { rest_while is_white_space result.text.now
        ≡ rest_while is_white_space seen.entry.text.now }
    ensures mask { Foresees result.stops result.text.now }
{
    match pass_byte(seen, b' ') {
        Some(more) => more,
        None => seen,
    }
}

/// The rest that a reader left, or nothing, with what is left of the mask.
#[inline(always)]
pub fn pass_to<'a>(seen: Seen<'a>, rest: Option<&'a [u8]>) -> Seen<'a>
    requires mask { Foresees seen.stops seen.text.now }
    requires rest { IfSome rest (λ r. (length r.now ≤ length seen.text.now)
        × (r.now ≡ drop (length seen.text.now - length r.now) seen.text.now)) }
    ensures text { result.text.now ≡ rest_or_nothing (bytes_of rest.entry) }
    ensures mask { Foresees result.stops result.text.now }
{
    let Some(text) = rest else {
        return unseen(&[]);
    };
    let count = seen.text.len() - text.len();
    if count >= WIDE {
        return unseen(text);
    }
    let stops = seen.stops >> count;
    Seen { text, stops }
}
