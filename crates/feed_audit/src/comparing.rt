//! Two records, compared.

ghost use Rattle.std.specs.Prelude.{◌≡◌, ℕ, List, IfOk, IfErr, Some};
ghost use Rattle.feed_audit.specs.Records.{IsComparison, FailsToCompare};
ghost use Rattle.feed_audit.specs.Stops.{IsUnread};
ghost use Rattle.feed_records.specs.ScreenLines.{source_of};

use crate::auditing::Sides;
use crate::counting::count_states;
use crate::record::audit_record;
use crate::verdict::{AuditFault, Comparison, Verdict};
use feed_node::Limits;
use feed_records::{Replayed, ScreenLines, Skipped};
use std::alloc::Global;

/// Whether each state that the screen's record publishes is one that the primary's publishes under
/// the same token, and where the screen's publishes anything and all are, how many states the
/// primary's has. The screen's may have several connections, one after the other, with heads or
/// lines `# connection` before them. Each is read as a fresh one, and so is the primary's record;
/// but behind a line `# connection since TOKEN` it goes on where those before it ended, whose last
/// state's token that has to be. What is left of the screen's record is read once. The primary's is
/// read once, too, and from its beginning again for a state that comes before the one found last.
pub fn compare<P: Replayed, L: Skipped>(
    alloc: Global,
    limits: Limits,
    primary: &mut P,
    screen: &mut ScreenLines<L>,
) -> Result<Comparison, AuditFault>
    ensures ok { (text record_ : List ℕ) → P.whole primary.old ≡ Some text
        → L.left (source_of screen.old) ≡ Some record_
        → IfOk result (IsComparison limits text record_) }
    ensures err { (text record_ : List ℕ) → P.whole primary.old ≡ Some text
        → L.left (source_of screen.old) ≡ Some record_
        → IfErr result (FailsToCompare limits text record_) }
    ensures whole { P.whole primary.new ≡ P.whole primary.old }
    ensures unread { IfErr result
        (IsUnread (P.unread primary.new) (L.unread (source_of screen.new))) }
{
    let mut sides = Sides::begin(alloc, limits, primary)?;
    match audit_record(alloc, limits, primary, screen, &mut sides)? {
        Verdict::Agrees(0) => Ok(Comparison::Unpublished),
        Verdict::Agrees(states) => {
            let primary = count_states(alloc, limits, primary, &mut sides.ours)?;
            Ok(Comparison::Agrees { states, primary })
        }
        Verdict::Strays(stray) => Ok(Comparison::Strays(stray)),
    }
}
