//! An audit of a record of several connections.

ghost use Rattle.std.specs.Prelude.{◌≡◌, ◌≢◌, ◌+◌, ◌≤◌, ℕ, List, Option, true, false, min, IfOk, IfErr, OnOk, IsTrue, Some};
ghost use Rattle.feed_node.specs.Mirroring.{new_mirror, present_opening};
ghost use Rattle.feed_records.specs.Connections.{is_chunked};
ghost use Rattle.feed_audit.specs.Reaching.{IsPartVerdict, FailsInBody, faults_behind, recorded_of};
ghost use Rattle.feed_records.specs.Parting.{most, since_of};
ghost use Rattle.feed_audit.specs.Answers.{IfAgrees, IsBeside};
ghost use Rattle.feed_audit.specs.Records.{IsRecordVerdict, FailsToAuditRecord, MayGoOn, opening_of};
ghost use Rattle.feed_records.specs.ScreenLines.{source_of};
ghost use Rattle.feed_audit.specs.Stops.{IsUnread, IsUnreadScreen};

use crate::auditing::{Sides, audit_on};
use crate::stop::Stop;
use crate::verdict::{AuditFault, Stray, Verdict, of_screen};
use feed_node::{Limits, Mirror};
use feed_records::{Lines, Opened, Replayed, ScreenLines, Skipped, begins_in_chunks};
use std::alloc::Global;

/// Whether a mirror would ask with this token.
fn asks_with(mirror: &Mirror, token: &[u8]) -> bool
    ensures yes { IsTrue result → mirror.now.since ≡ Some token.now }
    ensures no { result ≡ false → ¬ (mirror.now.since ≡ Some token.now) }
{
    match mirror.since() {
        Some(since) => since.as_bytes() == token,
        None => false,
    }
}

/// The mirror of a connection is a new one, or where a token is said the one that read those
/// before.
fn choose(
    alloc: Global,
    limits: Limits,
    opened: &Opened,
    sides: &mut Sides,
) -> Result<(), AuditFault>
    requires { sides.old.theirs.limits ≡ limits }
    ensures beside { (text : List ℕ) (left : Option (List ℕ))
        → IsBeside limits text left sides.old.ours sides.old.theirs
        → OnOk result (IsBeside limits text left sides.new.ours sides.new.theirs) }
    ensures may { OnOk result (MayGoOn sides.old.theirs (since_of opened.now)) }
    ensures opening { OnOk result
        (present_opening sides.new.theirs ≡ opening_of sides.old.theirs (since_of opened.now)) }
    ensures limits { OnOk result (sides.new.theirs.limits ≡ limits) }
    ensures err { IfErr result (λ fault. fault ≢ AuditFault.Memory
        → (fault ≡ AuditFault.OtherToken 1) × ¬ (MayGoOn sides.old.theirs (since_of opened.now))) }
{
    match &opened.since {
        None => {
            sides.theirs = Mirror::new(alloc, limits)?;
            sides.ours.part();
            Ok(())
        }
        Some(token) => {
            if asks_with(&sides.theirs, token.as_slice()) {
                Ok(())
            } else {
                Err(AuditFault::OtherToken(1))
            }
        }
    }
}

/// Looks whether what is left of the screen's text begins with the digits of a chunk's size.
fn look_for_chunks<L: Lines>(screen: &mut L) -> Result<bool, AuditFault>
    ensures left { (bytes : List ℕ) → L.left screen.old ≡ Some bytes
        → OnOk result (L.left screen.new ≡ Some bytes) }
    ensures chunked { (bytes : List ℕ) → L.left screen.old ≡ Some bytes
        → IfOk result (λ chunked. chunked ≡ is_chunked bytes) }
    ensures beyond { (end : ℕ × List ℕ) → L.beyond screen.old ≡ Some end
        → OnOk result (L.beyond screen.new ≡ Some end) }
    ensures room { OnOk result (L.room screen.new ≤ L.room screen.old) }
    ensures err { IfErr result IsUnreadScreen }
    ensures unread { IfErr result (IsUnread (λ _. ⊥) (L.unread screen.new)) }
{
    match screen.look() {
        Ok(_) => Ok(begins_in_chunks(screen.front())),
        Err(why) => Err(of_screen(Stop::Unread(why), 0)),
    }
}

/// Whether each state that a connection carried is one of the primary's; what is no feed has none,
/// and is not read.
fn audit_connection<P: Replayed, L: Lines>(
    alloc: Global,
    limits: Limits,
    primary: &mut P,
    screen: &mut L,
    opened: &Opened,
    sides: &mut Sides,
) -> Result<Verdict, AuditFault>
    requires { sides.old.theirs.limits ≡ limits }
    ensures ok { (text body : List ℕ) → P.whole primary.old ≡ Some text
        → L.left screen.old ≡ Some body
        → IsBeside limits text (P.left primary.old) sides.old.ours sides.old.theirs
        → (before : ℕ)
        → IfOk result (λ verdict. IsPartVerdict limits text opened.now.is_feed sides.old.theirs
        (recorded_of before opened.now body) verdict sides.new.theirs) }
    ensures err { (text body : List ℕ) → P.whole primary.old ≡ Some text
        → L.left screen.old ≡ Some body
        → IsBeside limits text (P.left primary.old) sides.old.ours sides.old.theirs
        → (before : ℕ)
        → IfErr result (λ fault.
        FailsInBody limits text sides.old.theirs (recorded_of before opened.now body) fault) }
    ensures beside { (text body : List ℕ) → P.whole primary.old ≡ Some text
        → L.left screen.old ≡ Some body
        → IsBeside limits text (P.left primary.old) sides.old.ours sides.old.theirs
        → IfOk result (λ verdict. IfAgrees verdict
        (IsBeside limits text (P.left primary.new) sides.new.ours sides.new.theirs)) }
    ensures feed { IfErr result (λ _. opened.now.is_feed ≡ true) }
    ensures limits { OnOk result (sides.new.theirs.limits ≡ limits) }
    ensures whole { P.whole primary.new ≡ P.whole primary.old }
    ensures beyond { (text body : List ℕ) → P.whole primary.old ≡ Some text
        → L.left screen.old ≡ Some body
        → IsBeside limits text (P.left primary.old) sides.old.ours sides.old.theirs
        → (end : ℕ × List ℕ) → L.beyond screen.old ≡ Some end
        → OnOk result (L.beyond screen.new ≡ Some end) }
    ensures room { OnOk result (L.room screen.new ≤ L.room screen.old) }
    ensures unread { IfErr result (IsUnread (P.unread primary.new) (L.unread screen.new)) }
{
    if !opened.is_feed {
        return Ok(Verdict::Agrees(0));
    }
    if look_for_chunks(screen)? {
        return Err(AuditFault::Chunked(1));
    }
    choose(alloc, limits, opened, sides)?;
    audit_on(alloc, limits, primary, screen, sides)
}

/// A fault of a connection, by its line in the record.
fn fault_behind(fault: AuditFault, before: usize) -> AuditFault
    ensures { result ≡ faults_behind fault before }
{
    match fault {
        AuditFault::Screen(line, why) => AuditFault::Screen(before.saturating_add(line), why),
        AuditFault::Chunked(line) => AuditFault::Chunked(before.saturating_add(line)),
        AuditFault::OtherToken(line) => AuditFault::OtherToken(before.saturating_add(line)),
        AuditFault::Primary(line, why) => AuditFault::Primary(line, why),
        AuditFault::PrimaryUnread(why) => AuditFault::PrimaryUnread(why),
        AuditFault::ScreenUnread(why) => AuditFault::ScreenUnread(why),
        AuditFault::Memory => AuditFault::Memory,
    }
}

/// A state of a connection, by its place in the record.
fn stray_behind(stray: Stray, before: usize, states: usize) -> Stray
    ensures token { result.token ≡ stray.token }
    ensures difference { result.difference ≡ stray.difference }
    ensures before { result.before ≡ min (states + stray.before) most }
    ensures line { result.line ≡ min (before + stray.line) most }
{
    let Stray {
        token,
        before: earlier,
        line,
        difference,
    } = stray;
    Stray {
        token,
        before: states.saturating_add(earlier),
        line: before.saturating_add(line),
        difference,
    }
}

/// Whether each state that the screen's record publishes is one that the primary's publishes under
/// the same token. The screen's may have several connections, one after the other, with heads or
/// lines `# connection` before them. Each is read as a fresh one, and so is the primary's record;
/// but behind a line `# connection since TOKEN` it goes on where those before it ended, whose last
/// state's token that has to be. What is left of the screen's record is read once.
pub(crate) fn audit_record<P: Replayed, L: Skipped>(
    alloc: Global,
    limits: Limits,
    primary: &mut P,
    screen: &mut ScreenLines<L>,
    sides: &mut Sides,
) -> Result<Verdict, AuditFault>
    requires { sides.old.theirs ≡ new_mirror limits }
    ensures ok { (text record_ : List ℕ) → P.whole primary.old ≡ Some text
        → L.left (source_of screen.old) ≡ Some record_
        → IsBeside limits text (P.left primary.old) sides.old.ours sides.old.theirs
        → IfOk result (IsRecordVerdict limits text record_) }
    ensures err { (text record_ : List ℕ) → P.whole primary.old ≡ Some text
        → L.left (source_of screen.old) ≡ Some record_
        → IsBeside limits text (P.left primary.old) sides.old.ours sides.old.theirs
        → IfErr result (FailsToAuditRecord limits text record_) }
    ensures beside { (text record_ : List ℕ) → P.whole primary.old ≡ Some text
        → L.left (source_of screen.old) ≡ Some record_
        → IsBeside limits text (P.left primary.old) sides.old.ours sides.old.theirs
        → IfOk result (λ verdict. IfAgrees verdict
        (IsBeside limits text (P.left primary.new) sides.new.ours sides.new.theirs)) }
    ensures whole { P.whole primary.new ≡ P.whole primary.old }
    ensures unread { IfErr result
        (IsUnread (P.unread primary.new) (L.unread (source_of screen.new))) }
{
    let mut opened = Opened::feed(None);
    let mut before: usize = 0;
    let mut states: usize = 0;
    'connections: loop {
        screen.begin();
        match audit_connection(alloc, limits, primary, screen, &opened, sides) {
            Err(fault) => return Err(fault_behind(fault, before)),
            Ok(Verdict::Strays(stray)) => {
                return Ok(Verdict::Strays(stray_behind(stray, before, states)));
            }
            Ok(Verdict::Agrees(more)) => states = states.saturating_add(more),
        }
        match screen.go_on(alloc, &mut opened) {
            Err(why) => return Err(of_screen(Stop::Unread(why), 0)),
            Ok(false) => return Ok(Verdict::Agrees(states)),
            Ok(true) => before = before.saturating_add(screen.lines()),
        }
    }
}
