//! How large the head of a message may be.
ghost use Rattle.std.specs.Prelude.{◌≡◌, IsTrue};
ghost use Rattle.feed_wire.specs.HeadSizes.{line_count, IsHeadSize, IsPastLimits};

/// The most bytes of a head, with the empty lines before.
pub const HEAD_BYTES: usize = 8192;

/// The most lines of a head: a start line, the fields, and the empty line.
pub const HEAD_LINES: usize = 66;

/// The most fields of a head.
pub const HEAD_FIELDS: usize = 64;

fn count_lines(bytes: &[u8]) -> usize
    ensures { result ≡ line_count bytes.now }
{
    bytes.iter().filter(|b| **b == b'\n').count()
}

/// Whether no head that is not whole yet can end within the limits.
pub fn is_past_limits(bytes: &[u8]) -> bool
    ensures past { IsTrue result → IsPastLimits bytes.now }
    ensures within { ¬ (IsTrue result) → ¬ (IsPastLimits bytes.now) }
{
    bytes.len() > HEAD_BYTES || count_lines(bytes) >= HEAD_LINES
}

/// Whether a head of this text and so many fields is short enough.
pub fn is_head_size(text: &[u8], fields: usize) -> bool
    ensures size { IsTrue result → IsHeadSize text.now fields }
    ensures other { ¬ (IsTrue result) → ¬ (IsHeadSize text.now fields) }
{
    text.len() <= HEAD_BYTES && count_lines(text) <= HEAD_LINES && fields <= HEAD_FIELDS
}
