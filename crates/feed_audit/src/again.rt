//! The primary's record, from its beginning.

ghost use Rattle.std.specs.Prelude.{◌≡◌, ℕ, List, IfOk, IfErr, Some};
ghost use Rattle.feed_audit.specs.Answers.{StartsReading};
ghost use Rattle.feed_audit.specs.Stops.{IsUnread, IsUnreadPrimary};

use crate::stop::Stop;
use crate::verdict::{AuditFault, of_primary};
use feed_node::{Limits, Mirror};
use feed_records::Replayed;
use std::alloc::Global;

/// Goes back to the beginning of the primary's record, and makes a mirror that reads it as a fresh
/// connection.
pub(crate) fn read_again<P: Replayed>(
    alloc: Global,
    limits: Limits,
    primary: &mut P,
) -> Result<Mirror, AuditFault>
    ensures ok { (text : List ℕ) → P.whole primary.old ≡ Some text
        → IfOk result (StartsReading limits text (P.left primary.new)) }
    ensures err { IfErr result IsUnreadPrimary }
    ensures whole { P.whole primary.new ≡ P.whole primary.old }
    ensures unread { IfErr result (IsUnread (P.unread primary.new) (λ _. ⊥)) }
{
    let mut mirror = Mirror::new(alloc, limits)?;
    mirror.begin();
    match primary.replay() {
        Ok(()) => Ok(mirror),
        Err(why) => Err(of_primary(Stop::Unread(why), 0)),
    }
}
