//! What comes afresh and is smaller than what is shown: another contest, or the first part of what
//! a server sends that is overloaded and pauses. It has to be quiet for ten times as long.

ghost use Rattle.std.specs.Prelude.{◌≡◌};

use crate::source::Source;
use feed_device::{Desk, Report};

/// One part in so many of all objects may be deleted, and what comes is not smaller for that: a
/// contest grows.
const DELETED: usize = 16;

impl Source {
    /// Whether what comes afresh has fewer objects than are shown, by more than one in sixteen, or
    /// fewer types, and does not go on from there.
    pub(super) fn is_smaller(&self) -> bool {
        let Some(coming) = &self.coming else {
            return false;
        };
        let shown = self.answers.shown.node().published();
        let (Some(come), Some(shown)) = (coming.node().published(), shown) else {
            return false;
        };
        let least = shown.size().saturating_sub(shown.size() / DELETED);
        let is_smaller = come.size() < least || come.count_types() < shown.count_types();
        is_smaller && !self.goes_on()
    }

    /// Reports that what comes is held back though it was quiet. It isn't any more once it has
    /// grown.
    pub(super) fn report_held(&mut self, desk: &mut Desk)
        ensures exact { self.new ≡ record self.old { figures = self.new.figures } }
        ensures time { desk.new.time ≡ desk.old.time }
    {
        let is_smaller = self.has_published() && self.is_smaller();
        if !is_smaller {
            self.figures.hold(false);
            return;
        }
        if self.figures.is_held || self.settling.calm_at() > desk.time {
            return;
        }
        self.figures.hold(true);
        desk.reports.add(Report::Held {
            server: self.upstream.place(),
            time: self.settling.longer(),
        });
    }
}
