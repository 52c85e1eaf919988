//! How many states a primary's record has.

ghost use Rattle.std.specs.Prelude.{◌≡◌, ℕ, List, IfOk, IfErr};
ghost use Rattle.feed_audit.specs.Answers.{HasReadLines, HasStates, FailsToCount};
ghost use Rattle.feed_audit.specs.Stops.{IsUnread};

use crate::ours::Ours;
use crate::verdict::{AuditFault, of_primary};
use crate::walk::next_state;
use feed_node::Limits;
use feed_note::line_laws;
use feed_records::Lines;
use std::alloc::Global;

/// How many states the primary's record publishes, read as a fresh connection from its beginning to
/// its end, or `usize::MAX` where they are more. It is read on from where it was left. A fault is
/// that of its first bad line.
pub(crate) fn count_states<P: Lines>(
    alloc: Global,
    limits: Limits,
    primary: &mut P,
    ours: &mut Ours,
) -> Result<usize, AuditFault>
    ensures ok { (text : List ℕ)
        → HasReadLines limits text (P.left primary.old) ours.old.lines ours.old.states
        ours.old.mirror
        → IfOk result (HasStates limits text) }
    ensures err { (text : List ℕ)
        → HasReadLines limits text (P.left primary.old) ours.old.lines ours.old.states
        ours.old.mirror
        → IfErr result (FailsToCount limits text) }
    ensures whole { P.whole primary.new ≡ P.whole primary.old }
    ensures unread { IfErr result (IsUnread (P.unread primary.new) (λ _. ⊥)) }
{
    // What `ok` rests on.
    line_laws();
    let _limits = limits;
    'states: loop {
        match next_state(alloc, &mut ours.mirror, primary, &mut ours.lines) {
            Err(stop) => return Err(of_primary(stop, ours.lines)),
            Ok(false) => return Ok(ours.states),
            Ok(true) => ours.states = ours.states.saturating_add(1),
        }
    }
}
