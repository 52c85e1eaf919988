//! Why a state is none of the primary's.

ghost use Rattle.std.specs.Prelude.{◌≡◌, ℕ, List, IfOk, IfErr, IsTrue, Some};
ghost use Rattle.feed_node.specs.Publishing.{Published};
ghost use Rattle.feed_node.specs.States.{published_token};
ghost use Rattle.feed_audit.specs.Answers.{FailsToLocate, IsStrange};
ghost use Rattle.feed_audit.specs.Differences.{Explains, TellsDifference, TellsEnd};
ghost use Rattle.feed_audit.specs.Stops.{IsUnread};

use crate::again::read_again;
use crate::difference::{Difference, difference_of};
use crate::verdict::{AuditFault, of_primary};
use crate::walk::next_state;
use feed_node::{Limits, Node};
use feed_note::line_laws;
use feed_records::Replayed;
use feed_tables::Name;
use std::alloc::{AllocError, Global};

/// Whether two nodes publish the same token.
fn has_token(node: &Node, wanted: &Node) -> bool
    ensures same { (shown state : Published) → node.now.shown.published ≡ Some shown
        → wanted.now.shown.published ≡ Some state → IsTrue result → shown.token ≡ state.token }
    ensures other { (shown state : Published) → node.now.shown.published ≡ Some shown
        → wanted.now.shown.published ≡ Some state → shown.token ≡ state.token → IsTrue result }
{
    let Some(token) = node.token() else {
        return false;
    };
    let Some(other) = wanted.token() else {
        return false;
    };
    token.text() == other.text()
}

/// Where the tables that two nodes publish differ.
fn difference_between(alloc: Global, node: &Node, wanted: &Node) -> Result<Difference, AllocError>
    ensures { IfOk result (λ difference. (shown state : Published)
        → node.now.shown.published ≡ Some shown → wanted.now.shown.published ≡ Some state
        → TellsDifference shown.tables state.tables difference) }
{
    let Some(tables) = node.published() else {
        return Ok(Difference::Same);
    };
    let Some(others) = wanted.published() else {
        return Ok(Difference::Same);
    };
    difference_of(alloc, tables, others)
}

/// Why a state is none of the primary's whose token that doesn't have, where the primary's record
/// ends with what a node shows: before the state the screen showed one with this token.
fn without_token(node: &Node, before: &Option<Name>) -> Result<Difference, AllocError>
    ensures { IfOk result (λ told. TellsEnd before.now (published_token node.now.shown) told) }
{
    let Some(last) = node.token() else {
        return Ok(Difference::Ended(None));
    };
    match before {
        Some(before) if before.text() == last.text() => Ok(Difference::Ended(Some(last.copy()?))),
        _ => Ok(Difference::NoToken),
    }
}

/// Why a state that a node shows is none of the primary's: that has none under its token, or the
/// first one differs. Before it the screen showed one with this token.
pub(crate) fn explain<P: Replayed>(
    alloc: Global,
    limits: Limits,
    primary: &mut P,
    before: &Option<Name>,
    wanted: &Node,
) -> Result<Difference, AuditFault>
    ensures ok { (text : List ℕ) → P.whole primary.old ≡ Some text
        → IsStrange limits text wanted.now.shown → IfOk result (λ difference. (state : Published)
        → wanted.now.shown.published ≡ Some state
        → Explains limits text before.now state difference) }
    ensures err { (text : List ℕ) → P.whole primary.old ≡ Some text
        → IfErr result (FailsToLocate limits text wanted.now.shown) }
    ensures whole { P.whole primary.new ≡ P.whole primary.old }
    ensures unread { IfErr result (IsUnread (P.unread primary.new) (λ _. ⊥)) }
{
    // What `ok` rests on.
    line_laws();
    let mut mirror = read_again(alloc, limits, primary)?;
    let mut lines = 0;
    'states: loop {
        match next_state(alloc, &mut mirror, primary, &mut lines) {
            Err(stop) => return Err(of_primary(stop, lines)),
            Ok(false) => return Ok(without_token(mirror.node(), before)?),
            Ok(true) => {
                if has_token(mirror.node(), wanted) {
                    return Ok(difference_between(alloc, mirror.node(), wanted)?);
                }
            }
        }
    }
}
