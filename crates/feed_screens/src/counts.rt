//! What came and went since that was reported last.

ghost use Rattle.std.specs.Prelude.{◌≡◌, ◌↔◌, IsTrue};
ghost use Rattle.feed_screens.specs.Counting.{none_counted};

/// What came and went since that was reported last.
#[derive(Clone, Copy)]
pub(crate) struct Counts {
    /// How many connections were taken.
    pub(crate) came: u64,
    /// How many ended that were not cut.
    pub(crate) ended: u64,
    /// How many were cut.
    pub(crate) cut: u64,
}

impl Counts {
    pub(crate) fn none() -> Counts
        ensures { result ≡ none_counted }
    {
        Counts {
            came: 0,
            ended: 0,
            cut: 0,
        }
    }

    pub(crate) fn is_none(&self) -> bool
        ensures { IsTrue result ↔ (self.now ≡ none_counted) }
    {
        self.came == 0 && self.ended == 0 && self.cut == 0
    }
}
