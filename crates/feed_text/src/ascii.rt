//! Texts whose bytes are all ASCII, passed over 32 at a time.

ghost use Rattle.std.specs.Prelude.{◌≤◌, ◌+◌, ◌↔◌, length, take, drop, IsTrue, IsUtf8};
ghost use Rattle.std.specs.Str.{IsAscii};

use simdutf8::is_utf8;
use std::simd::prelude::*;

/// How many bytes a step looks at.
const WIDE: usize = 32;

#[inline(always)]
fn is_ascii_block(block: u8x32) -> bool
    ensures { IsTrue result → IsAscii block }
{
    block.simd_ge(u8x32::splat(0x80)).to_bitmask() == 0
}

/// Whether the bytes from here on, as many as a step looks at, are ASCII.
#[inline(always)]
fn is_ascii_at(text: &[u8], at: usize) -> bool
    requires { at + 32 ≤ length text.now }
    ensures { IsTrue result → IsAscii (take 32 (drop at text.now)) }
{
    is_ascii_block(u8x32::from_slice(&text[at..]))
}

/// Whether a text is ASCII alone, as lines mostly are. A text of fewer than 32 bytes is not looked
/// at, and the last step looks at bytes that the one before it saw.
#[inline(always)]
fn is_ascii(text: &[u8]) -> bool
    ensures { IsTrue result → IsAscii text.now }
{
    if text.len() < WIDE {
        return false;
    }
    let last = text.len() - WIDE;
    let mut at = 0;
    while at < last {
        if !is_ascii_at(text, at) {
            return false;
        }
        at += WIDE;
    }
    is_ascii_at(text, last)
}

/// Whether a text is UTF-8.
#[inline(always)]
pub fn is_text(text: &[u8]) -> bool
    ensures { IsTrue result ↔ IsUtf8 text.now }
{
    is_ascii(text) || is_utf8(text)
}
