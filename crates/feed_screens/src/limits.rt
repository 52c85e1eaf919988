//! How many screens there may be, and how far back and how silent.

use feed_answer::Framing;

/// How many screens, and how far back and how silent they may be.
#[derive(Clone, Copy)]
pub struct ScreenLimits {
    /// How many screens there may be at once.
    pub most: usize,
    /// How many bytes a screen may be behind.
    pub window: u64,
    /// How many bytes of long texts there may be that screens have yet to take, before no further
    /// one is made: whoever needs one waits. A text for many counts once.
    pub pending: usize,
    /// After how many milliseconds of silence a line feed is sent.
    pub idle: u64,
    /// How the bodies of answers are framed.
    pub framing: Framing,
    /// Whether each screen is reported.
    pub is_verbose: bool,
}
