//! How far back a screen may be.

ghost use Rattle.std.specs.Prelude.{◌≡◌};
ghost use Rattle.feed_hub.specs.Turn.{marked, spared_after, spared_at};

/// How many bytes of long commits together are spared at most, or those of one that is longer.
const MOST_SPARED: u64 = 67_108_864;

/// Commits that are longer than the window, each soon after the one before: a screen may lack as
/// many bytes beside the window.
#[derive(Clone, Copy)]
pub(crate) struct Spared {
    bytes: u64,
    // Where the last of them ends in the log.
    end: u64,
}

/// A place of the log, so that what lies before it was said a while ago.
#[derive(Clone, Copy)]
pub(crate) struct Mark {
    pub(crate) place: u64,
    // The next such place: where the log ended at a time.
    next: u64,
    since: u64,
}

/// What is known from turn to turn of how far back a screen may be.
#[derive(Clone, Copy)]
pub(crate) struct Turn {
    /// The log's end when it was trimmed last.
    pub(crate) end: u64,
    pub(crate) spared: Spared,
    pub(crate) mark: Mark,
}

impl Turn {
    pub(crate) fn new() -> Turn
        ensures { result ≡ record {
          end = 0;
          spared = record { bytes = 0; end = 0 };
          mark = record { place = 0; next = 0; since = 0 };
        } }
    {
        Turn {
            end: 0,
            spared: Spared { bytes: 0, end: 0 },
            mark: Mark {
                place: 0,
                next: 0,
                since: 0,
            },
        }
    }
}

impl Spared {
    /// How many bytes are spared where the log ends at a place: none once more than the window was
    /// said after the last of these commits.
    pub(crate) fn at(self, end: u64, window: u64) -> u64
        ensures { result ≡ spared_at self end window }
    {
        if end.saturating_sub(self.end) <= window {
            self.bytes
        } else {
            0
        }
    }

    /// What is spared once the log goes on from one place to another.
    pub(crate) fn after(self, from: u64, to: u64, window: u64) -> Spared
        ensures { result ≡ spared_after self from to window }
    {
        let length = to.saturating_sub(from);
        if length <= window {
            return self;
        }
        let bytes = self.at(from, window).saturating_add(length);
        Spared {
            bytes: if bytes > MOST_SPARED { length } else { bytes },
            end: to,
        }
    }
}

impl Mark {
    /// The mark at a time, where the log ends at a place: once it is so old, the next one.
    pub(crate) fn at(self, now: u64, stall: u64, end: u64) -> Mark
        ensures { result ≡ marked self now stall end }
    {
        if now.saturating_sub(self.since) < stall {
            return self;
        }
        Mark {
            place: self.next,
            next: end,
            since: now,
        }
    }
}
