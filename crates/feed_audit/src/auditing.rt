//! Whether each state of a screen's record is a state of the primary's.

ghost use Rattle.std.specs.Prelude.{◌≡◌, ◌≤◌, ℕ, List, IfOk, IfErr, OnOk, Some, true, false};
ghost use Rattle.feed_node.specs.States.{published_token};
ghost use Rattle.feed_node.specs.Mirroring.{new_mirror};
ghost use Rattle.feed_audit.specs.Answers.{IsVerdict, IsVerdictOn, IfAgrees, IsBeside, Finds, begun_by, FailsFrom, FailsToAudit, FailsToLocate, HasReadLines, IsStrange};
ghost use Rattle.feed_audit.specs.States.{afresh};
ghost use Rattle.feed_audit.specs.Walks.{Counts};
ghost use Rattle.feed_audit.specs.Along.{IsAlong};
ghost use Rattle.feed_settings.specs.Limits.{Limits as Most};
ghost use Rattle.feed_audit.specs.Stops.{IsUnread, IsUnreadPrimary};
ghost use Rattle.feed_audit.specs.declared.verdict.AuditFault.TheVariants as failed;

use crate::explaining::explain;
use crate::ours::Ours;
use crate::stop::Stop;
use crate::verdict::{AuditFault, Stray, Verdict, of_primary, of_screen};
use crate::walk::{find, next_state};
use feed_node::{Limits, Mirror, Node};
use feed_note::line_laws;
use feed_records::{Lines, Replayed, TextLines};
use feed_tables::Name;
use std::alloc::{AllocError, Global};

/// The token that a node publishes, where it publishes one.
fn shown_by(node: &Node) -> Result<Option<Name>, AllocError>
    ensures { IfOk result (λ token. token ≡ published_token node.now.shown) }
{
    match node.token() {
        Some(token) => Ok(Some(token.copy()?)),
        None => Ok(None),
    }
}

// The token that a node publishes.
fn token_of(node: &Node) -> Result<Name, AuditFault>
    ensures ok { IfOk result (λ token. Some token ≡ published_token node.now.shown) }
    ensures err { IfErr result (λ fault. fault ≡ failed.Memory) }
{
    let Some(token) = node.token() else {
        return Err(AuditFault::Memory);
    };
    Ok(token.copy()?)
}

/// Both records, as far as they were read.
#[derive(Drop)]
pub(crate) struct Sides {
    /// The primary's.
    pub ours: Ours,
    /// What the lines of the screen's are fed to.
    pub theirs: Mirror,
}

impl Sides {
    /// Goes back to the beginning of the primary's record. Nothing was read of either.
    pub fn begin<P: Replayed>(
        alloc: Global,
        limits: Limits,
        primary: &mut P,
    ) -> Result<Sides, AuditFault>
        ensures beside { (text : List ℕ) → P.whole primary.old ≡ Some text
            → IfOk result (λ sides.
            IsBeside limits text (P.left primary.new) sides.ours sides.theirs) }
        ensures theirs { IfOk result (λ sides. sides.theirs ≡ new_mirror limits) }
        ensures err { IfErr result IsUnreadPrimary }
        ensures whole { P.whole primary.new ≡ P.whole primary.old }
        ensures unread { IfErr result (IsUnread (P.unread primary.new) (λ _. ⊥)) }
    {
        let theirs = Mirror::new(alloc, limits)?;
        let ours = Ours::begin(alloc, limits, primary)?;
        Ok(Sides { ours, theirs })
    }
}

/// Looks for what a node shows among the primary's states behind those that were read. It is not
/// there where a line on the way can't be fed.
fn find_behind<P: Lines>(
    alloc: Global,
    primary: &mut P,
    ours: &mut Ours,
    wanted: &Node,
) -> Result<bool, AuditFault>
    ensures some { (limits : Most) (all behind : List ℕ) → P.left primary.old ≡ Some behind
        → Counts (afresh limits) all behind ours.old.lines ours.old.states ours.old.mirror
        → IsAlong limits all ours.old.since ours.old.past ours.old.mirror.node wanted.now.shown
        → IfOk result (λ found. found ≡ true
        → Finds limits all (P.left primary.new) ours.new wanted.now.shown) }
    ensures err { IfErr result IsUnreadPrimary }
    ensures whole { P.whole primary.new ≡ P.whole primary.old }
    ensures unread { IfErr result (IsUnread (P.unread primary.new) (λ _. ⊥)) }
{
    match find(alloc, ours, primary, wanted) {
        Ok(found) => Ok(found),
        Err(Stop::Feed(_)) => Ok(false),
        Err(Stop::Unread(why)) => Err(of_primary(Stop::Unread(why), ours.lines)),
    }
}

/// Looks for what a node shows among the primary's states: those that are kept, those behind what
/// was read, and else all of them, which are kept from then on. Answers whether there is such a
/// state.
fn locate<P: Replayed>(
    alloc: Global,
    limits: Limits,
    primary: &mut P,
    ours: &mut Ours,
    wanted: &Node,
) -> Result<bool, AuditFault>
    ensures some { (text : List ℕ) → P.whole primary.old ≡ Some text
        → HasReadLines limits text (P.left primary.old) ours.old.lines ours.old.states
        ours.old.mirror
        → IsAlong limits text ours.old.since ours.old.past ours.old.mirror.node wanted.now.shown
        → IfOk result (λ found. found ≡ true
        → Finds limits text (P.left primary.new) ours.new wanted.now.shown) }
    ensures none { (text : List ℕ) → P.whole primary.old ≡ Some text
        → IfOk result (λ found. found ≡ false → IsStrange limits text wanted.now.shown) }
    ensures err { (text : List ℕ) → P.whole primary.old ≡ Some text
        → IfErr result (FailsToLocate limits text wanted.now.shown) }
    ensures whole { P.whole primary.new ≡ P.whole primary.old }
    ensures unread { IfErr result (IsUnread (P.unread primary.new) (λ _. ⊥)) }
{
    // What `none` rests on.
    line_laws();
    if ours.keeps(alloc, wanted)? {
        return Ok(true);
    }
    if find_behind(alloc, primary, ours, wanted)? {
        return Ok(true);
    }
    *ours = Ours::begin(alloc, limits, primary)?;
    ours.goes_back = true;
    match find(alloc, ours, primary, wanted) {
        Ok(found) => Ok(found),
        Err(stop) => Err(of_primary(stop, ours.lines)),
    }
}

/// Whether each state that a connection of the screen publishes is one that the primary's record
/// publishes under the same token. The connection begins now on the mirror of the screen's side,
/// and carries what is left of the screen's text. The primary's record is read on from where it was
/// left.
pub(crate) fn audit_on<P: Replayed, L: Lines>(
    alloc: Global,
    limits: Limits,
    primary: &mut P,
    screen: &mut L,
    sides: &mut Sides,
) -> Result<Verdict, AuditFault>
    requires { sides.old.theirs.limits ≡ limits }
    ensures ok { (text body : List ℕ) → P.whole primary.old ≡ Some text
        → L.left screen.old ≡ Some body
        → IsBeside limits text (P.left primary.old) sides.old.ours sides.old.theirs
        → IfOk result (λ verdict.
        IsVerdictOn (begun_by limits sides.old.theirs) text body verdict sides.new.theirs) }
    ensures err { (text body : List ℕ) → P.whole primary.old ≡ Some text
        → L.left screen.old ≡ Some body
        → IsBeside limits text (P.left primary.old) sides.old.ours sides.old.theirs
        → IfErr result (λ fault. FailsFrom (begun_by limits sides.old.theirs) text body fault) }
    ensures beside { (text body : List ℕ) → P.whole primary.old ≡ Some text
        → L.left screen.old ≡ Some body
        → IsBeside limits text (P.left primary.old) sides.old.ours sides.old.theirs
        → IfOk result (λ verdict. IfAgrees verdict
        (IsBeside limits text (P.left primary.new) sides.new.ours sides.new.theirs)) }
    ensures limits { sides.new.theirs.limits ≡ limits }
    ensures whole { P.whole primary.new ≡ P.whole primary.old }
    ensures beyond { (text body : List ℕ) → P.whole primary.old ≡ Some text
        → L.left screen.old ≡ Some body
        → IsBeside limits text (P.left primary.old) sides.old.ours sides.old.theirs
        → (end : ℕ × List ℕ) → L.beyond screen.old ≡ Some end
        → OnOk result (L.beyond screen.new ≡ Some end) }
    ensures room { OnOk result (L.room screen.new ≤ L.room screen.old) }
    ensures unread { IfErr result (IsUnread (P.unread primary.new) (L.unread screen.new)) }
{
    // What `ok` rests on.
    line_laws();
    sides.theirs.begin();
    let mut lines = 0;
    let mut states: usize = 0;
    'states: loop {
        let before = shown_by(sides.theirs.node())?;
        match next_state(alloc, &mut sides.theirs, screen, &mut lines) {
            Err(stop) => return Err(of_screen(stop, lines)),
            Ok(false) => return Ok(Verdict::Agrees(states)),
            Ok(true) => {
                let wanted = sides.theirs.node();
                sides.ours.note_theirs(wanted)?;
                if !locate(alloc, limits, primary, &mut sides.ours, wanted)? {
                    let difference = explain(alloc, limits, primary, &before, wanted)?;
                    return Ok(Verdict::Strays(Stray {
                        token: token_of(wanted)?,
                        before: states,
                        line: lines,
                        difference,
                    }));
                }
                // By a call: one that goes out of scope is a case for each kind of token.
                drop(before);
                states = states.saturating_add(1);
            }
        }
    }
}

/// Whether each state that the screen's record publishes is one that the primary's publishes under
/// the same token, each read as a fresh connection.
pub fn audit(
    alloc: Global,
    limits: Limits,
    primary: &[u8],
    screen: &[u8],
) -> Result<Verdict, AuditFault>
    ensures ok { IfOk result (λ verdict. IsVerdict limits primary.now screen.now verdict) }
    ensures err { IfErr result (λ fault. FailsToAudit limits primary.now screen.now fault) }
{
    let mut lines = TextLines::new(primary);
    let mut sides = Sides::begin(alloc, limits, &mut lines)?;
    let mut text = TextLines::new(screen);
    audit_on(alloc, limits, &mut lines, &mut text, &mut sides)
}
