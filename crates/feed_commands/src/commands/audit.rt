//! Two records, compared.
ghost use Rattle.std.specs.Prelude.{◌≡◌, ℕ, List, IfOk, IfErr, OnOk, OnErr, IsErrOf, Some};
ghost use Rattle.std.specs.Io.KnownBytes.{Appends};
ghost use Rattle.feed_commands.specs.Audit.{record_bytes, agreement_printed, stray_printed, stray_fault, PrintsAgreement, AuditFails, IsUnreadRecord};
ghost use Rattle.feed_records.specs.ScreenLines.{source_of};
ghost use Rattle.feed_commands.specs.Check.{IsWholeWithin, FailsWithin};
ghost use Rattle.feed_http.specs.Device.{AppendsPrefix, HasFailed};

use crate::fault::Fault;
use crate::input::read_within;
use feed_arguments::AuditOptions;
use feed_audit::{Comparison, Difference, Stray, compare};
use feed_http::device::{FeedRead, FeedWrite, write_all};
use feed_records::{Replayed, ScreenLines, Skipped};
use feed_verdicts::{print_agreement, print_agreement_json, print_stray, print_stray_json};
use std::alloc::{AllocError, Global};

/// The most bytes of a record.
pub const RECORD_BYTES: usize = 536_870_912;

/// Reads a record to its end, at most 536,870,912 bytes.
pub fn read_record<R: FeedRead>(alloc: Global, input: &mut R) -> Result<Vec<u8>, Fault>
    ensures ok { IfOk result (λ bytes. IsWholeWithin record_bytes
        (R.remaining input.old) (R.remaining input.new) bytes.items) }
    ensures err { IfErr result (λ why. FailsWithin record_bytes why
        (R.remaining input.old) (R.remaining input.new)) }
    ensures read { IsErrOf result Fault.Read
        → HasFailed (R.failures input.old) (R.failures input.new) }
    ensures quiet { ¬ (IsErrOf result Fault.Read)
        → R.failures input.new ≡ R.failures input.old }
{
    read_within(alloc, RECORD_BYTES, input)
}

/// What is printed of records that agree.
fn agreement(
    alloc: Global,
    json: bool,
    states: usize,
    primary: usize,
) -> Result<Vec<u8>, AllocError>
    ensures { IfOk result (λ text. text.items ≡ agreement_printed json states primary) }
{
    let mut text = Vec::new(alloc);
    if json {
        print_agreement_json(alloc, states, primary, &mut text)?;
        return Ok(text);
    }
    print_agreement(alloc, states, primary, &mut text)?;
    Ok(text)
}

/// What is printed of the first state that is none of the primary's.
fn strayed(alloc: Global, json: bool, verbose: bool, stray: &Stray) -> Result<Vec<u8>, AllocError>
    ensures { IfOk result (λ text. text.items ≡ stray_printed json verbose stray.now) }
{
    let mut text = Vec::new(alloc);
    if json {
        print_stray_json(alloc, stray, &mut text)?;
        return Ok(text);
    }
    print_stray(alloc, stray, verbose, &mut text)?;
    Ok(text)
}

/// How the command fails after a state that is none of the primary's.
fn fault_of(difference: &Difference) -> Fault
    ensures { result ≡ stray_fault difference.now }
{
    match difference {
        Difference::Ended(_) => Fault::Ended,
        _ => Fault::Differs,
    }
}

/// Prints a text.
fn print_text<W: FeedWrite>(text: &[u8], out: &mut W) -> Result<(), Fault>
    ensures ok { OnOk result (Appends (W.contents out.old) (W.contents out.new) text.now) }
    ensures err { OnErr result (AppendsPrefix (W.contents out.old) (W.contents out.new) text.now) }
    ensures write { IfErr result (λ why. why ≡ Fault.Write) }
    ensures failed { OnErr result (HasFailed (W.failures out.old) (W.failures out.new)) }
    ensures quiet { OnOk result (W.failures out.new ≡ W.failures out.old) }
{
    match write_all(out, text) {
        Ok(()) => Ok(()),
        Err(_) => Err(Fault::Write),
    }
}

/// Prints whether each state that the screen's record publishes is one that the primary's publishes
/// under the same token. The screen's may have several connections, each read as a fresh one, and
/// what is left of it is read once. Where a state is not the primary's, the fault is `Differs`,
/// behind what is printed of the first such state; or `Ended` where the primary's record ends too
/// soon to tell. Where the screen's publishes nothing, and where a line of a record can't be read,
/// nothing is printed.
pub fn print_verdict<P: Replayed, L: Skipped, W: FeedWrite>(
    alloc: Global,
    options: &AuditOptions<'_>,
    primary: &mut P,
    screen: &mut ScreenLines<L>,
    out: &mut W,
) -> Result<(), Fault>
    ensures ok { (text record_ : List ℕ) → P.whole primary.old ≡ Some text
        → L.left (source_of screen.old) ≡ Some record_
        → OnOk result (PrintsAgreement options.now text record_
        (W.contents out.old) (W.contents out.new)) }
    ensures err { (text record_ : List ℕ) → P.whole primary.old ≡ Some text
        → L.left (source_of screen.old) ≡ Some record_
        → IfErr result (λ why. AuditFails options.now text record_ why
        (W.contents out.old) (W.contents out.new)) }
    ensures unread { IfErr result
        (IsUnreadRecord (P.unread primary.new) (L.unread (source_of screen.new))) }
    ensures write { IsErrOf result Fault.Write
        → HasFailed (W.failures out.old) (W.failures out.new) }
    ensures quiet { ¬ (IsErrOf result Fault.Write)
        → W.failures out.new ≡ W.failures out.old }
{
    match compare(alloc, options.limits, primary, screen)? {
        Comparison::Unpublished => Err(Fault::Unpublished),
        Comparison::Agrees {
            states,
            primary: all,
        } => {
            let text = agreement(alloc, options.json, states, all)?;
            print_text(text.as_slice(), out)
        }
        Comparison::Strays(stray) => {
            let text = strayed(alloc, options.json, options.verbose, &stray)?;
            print_text(text.as_slice(), out)?;
            Err(fault_of(&stray.difference))
        }
    }
}
