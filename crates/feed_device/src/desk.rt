//! What each part of a turn has at hand.

ghost use Rattle.std.specs.Prelude.{◌≡◌, []};

use crate::reports::Reports;
use std::alloc::Global;

/// What each part of a turn has at hand. The relay owns it: of a part that was borrowed, each
/// clause would have to say that it is still the same one.
#[derive(Drop)]
pub struct Desk {
    /// Where memory is taken.
    pub alloc: Global,
    /// What is reported.
    pub reports: Reports,
    /// When the turn is, in milliseconds.
    pub time: u64,
}

impl Desk {
    /// At a time, with nothing reported.
    pub fn new(alloc: Global, now: u64) -> Desk
        ensures time { result.time ≡ now }
        ensures none { result.reports.reports.items ≡ [] }
    {
        Desk {
            alloc,
            reports: Reports::new(alloc),
            time: now,
        }
    }

    /// A turn begins at a time. What was reported stays.
    pub fn begin(&mut self, alloc: Global, now: u64)
        ensures { self.new ≡ record self.old { alloc = alloc; time = now } }
    {
        self.alloc = alloc;
        self.time = now;
    }
}
