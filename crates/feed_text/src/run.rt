//! Runs of bytes that stand for themselves in a string, passed over sixteen at a time.

ghost use Rattle.std.specs.Prelude.{◌≡◌, ◌≤◌, length, drop, map};
ghost use Rattle.std.specs.Simd.Lanes.{mask_l};
ghost use Rattle.feed_text.specs.Reading.{is_unescaped, is_stop, rest_while};

use std::simd::prelude::*;

/// How many bytes a step looks at.
pub const LANES: usize = 16;

/// A bit for each byte that does not stand for itself. With its second bit turned, the quotation
/// mark is no more than a space, as the control characters are, and each other byte is more.
#[inline(always)]
pub fn stops(block: u8x16) -> u64
    ensures { result ≡ mask_l (map is_stop block) }
{
    (block.simd_eq(u8x16::splat(b'\\'))
        | (block ^ u8x16::splat(2)).simd_le(u8x16::splat(b' '))).to_bitmask()
}

/// The text after so many bytes.
#[inline(always)]
pub fn behind(text: &[u8], count: usize) -> &[u8]
    requires { count ≤ length text.now }
    ensures { result.now ≡ drop count text.now }
{
    &text[count..]
}

/// What comes after the bytes that stand for themselves in a string.
#[inline(always)]
#[tactic(auto, using(crate::proofs::Runs::runs))]
pub fn skip_unescaped(text: &[u8]) -> &[u8]
    ensures { result.now ≡ rest_while is_unescaped text.now }
{
    let mut rest = text;
    while rest.len() >= LANES {
        let found = stops(u8x16::from_slice(rest));
        if found != 0 {
            return behind(rest, found.trailing_zeros() as usize);
        }
        rest = behind(rest, LANES);
    }
    skip_slowly(rest)
}

/// The same, a byte at a time.
fn skip_slowly(text: &[u8]) -> &[u8]
    ensures { result.now ≡ rest_while is_unescaped text.now }
{
    let mut rest = text;
    while let [b' ' | b'!' | b'#'..=b'[' | b']'..=255, after @ ..] = rest {
        rest = after;
    }
    rest
}
