//! What a turn reports.

ghost use Rattle.std.specs.Prelude.{◌≡◌, ◌⊎◌, [], true, false};
ghost use Rattle.feed_device.specs.Reports.{IsKept, IsMissed};

use crate::report::Report;
use std::alloc::Global;

/// How many things are kept that nobody has taken yet.
const MOST_REPORTS: usize = 256;

/// What was reported and not yet taken.
#[derive(Drop)]
pub struct Reports {
    // The earliest first, 256 at most.
    reports: Vec<Report>,
    // How many there was no room for.
    missed: u64,
}

impl Reports {
    /// Nothing was reported.
    pub fn new(alloc: Global) -> Reports
        ensures none { result.reports.items ≡ [] }
        ensures missed { result.missed ≡ 0 }
    {
        Reports {
            reports: Vec::new(alloc),
            missed: 0,
        }
    }

    /// One thing more is reported. Where too much is kept, or memory runs out, it is only counted.
    pub fn add(&mut self, report: Report)
        ensures { IsKept self.old self.new report ⊎ IsMissed self.old self.new }
    {
        if self.reports.len() >= MOST_REPORTS || self.reports.push(report).is_err() {
            self.missed = self.missed.saturating_add(1);
        }
    }

    /// It is reported where that is wanted.
    pub fn add_if(&mut self, is_wanted: bool, report: Report)
        ensures wanted { is_wanted ≡ true
            → IsKept self.old self.new report ⊎ IsMissed self.old self.new }
        ensures not { is_wanted ≡ false → self.new ≡ self.old }
    {
        if is_wanted {
            self.add(report);
        }
    }

    /// Those that are kept, the earliest first.
    pub fn all(&self) -> &[Report]
        ensures { result.now ≡ self.now.reports.items }
    {
        &self.reports
    }

    /// How many were only counted.
    pub fn missed(&self) -> u64
        ensures { result ≡ self.now.missed }
    {
        self.missed
    }

    /// All are forgotten.
    pub fn clear(&mut self)
        ensures none { self.new.reports.items ≡ [] }
        ensures missed { self.new.missed ≡ 0 }
    {
        self.reports.clear();
        self.missed = 0;
    }
}
