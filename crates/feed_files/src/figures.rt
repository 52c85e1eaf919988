//! What is counted of the state file, for those who watch a relay.

/// What was counted of the state file.
#[derive(Clone, Copy)]
pub struct FileFigures {
    /// How many bytes of the feed it has; zero where it is not written to.
    pub bytes: u64,
    /// When it was written to last, in milliseconds since the start; zero where it was not.
    pub written: u64,
    /// Whether it could not be written the last time.
    pub is_failing: bool,
    /// How often that was so since the start.
    pub failures: u64,
}
