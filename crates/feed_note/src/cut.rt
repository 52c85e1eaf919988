//! The first line of a text (NDJSON: each line ends in a line feed).

ghost use Rattle.std.specs.Prelude.{◌≡◌, ◌≤◌, ◌-◌, ◌+◌, ◌∷◌, ◌++◌, IfSome, IfNone, position, length, take, drop};
ghost use Rattle.feed_text.specs.Ascii.{line_feed};
ghost use Rattle.feed_note.specs.Lines.{HasNoLineFeed, is_line_feed};
ghost use Rattle.feed_note.specs.Splitting.{EndsAt};

use memchr::memchr;

/// The greatest number of bytes of a line, without its line feed.
pub const LINE_BYTES: usize = 16_777_216;

fn line_feed_in(text: &[u8]) -> Option<usize>
    ensures { result ≡ position is_line_feed text.now }
{
    memchr(b'\n', text)
}

/// Where the first line ends, in a text whose first bytes are known to have no line feed.
pub fn line_end(text: &[u8], searched: usize) -> Option<usize>
    requires within { searched ≤ length text.now }
    requires unbroken { HasNoLineFeed (take searched text.now) }
    ensures some { IfSome result (λ end. EndsAt text.now end) }
    ensures none { IfNone result (HasNoLineFeed text.now) }
{
    let end = line_feed_in(&text[searched..])?;
    Some(searched + end)
}

/// The first line and the text after its line feed; none where there is no line feed.
pub fn split_line(text: &[u8]) -> Option<(&[u8], &[u8])>
    ensures some { IfSome result (λ parts. HasNoLineFeed parts.0.now
        × (text.now ≡ parts.0.now ++ line_feed ∷ parts.1.now)) }
    ensures none { IfNone result (HasNoLineFeed text.now) }
{
    let end = line_end(text, 0)?;
    Some((&text[..end], &text[end + 1..]))
}
