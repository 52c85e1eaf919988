//! What the lines of a record are, up to the first that can't be read.
ghost use Rattle.std.specs.Prelude.{◌≡◌, ◌≢◌, ◌≤◌, ℕ, List, length, IfOk, IfErr, IfSome};
ghost use Rattle.feed_note.specs.Counts.{Counted, StopsAt};
ghost use Rattle.feed_commands.specs.Findings.{AreFound};
ghost use Rattle.feed_probe.specs.Surveyed.{IsSurveyed, StartsLine};

use feed_commands::{Findings, find_all};
use feed_note::{Counts, LineStop, SurveyFault, split_line, survey};
use std::alloc::{AllocError, Global};

/// What the lines of a record are.
#[derive(Clone, Copy)]
pub struct Surveyed {
    /// How many bytes of it have lines that can be read, from the first on.
    pub good: usize,
    /// What these lines are, counted.
    pub counts: Counts,
    /// What servers of the field get wrong on them.
    pub findings: Findings,
    /// The first line that can't be read, and why; none where each can.
    pub fault: Option<SurveyFault>,
}

/// Where the line of this number begins, counted from 1; none where there are too few.
fn start_of(text: &[u8], number: u64) -> Option<usize>
    requires { 1 ≤ number }
    ensures within { IfSome result (λ place. place ≤ length text.now) }
    ensures starts { IfSome result (StartsLine text.now number) }
{
    let mut rest = text;
    let mut at: u64 = 1;
    'lines: while at < number {
        let Some((_, behind)) = split_line(rest) else {
            return None;
        };
        rest = behind;
        at += 1;
    }
    Some(text.len() - rest.len())
}

/// What the lines of a text are, or the first that can't be read.
fn read_lines(alloc: Global, text: &[u8]) -> Result<(Counts, Findings), SurveyFault>
    ensures counted { IfOk result (λ lines. Counted text.now lines.0) }
    ensures found { IfOk result (λ lines. AreFound text.now lines.1) }
    ensures err { IfErr result (λ why.
        why.stop ≢ LineStop.Memory → StopsAt text.now why.line why.stop) }
{
    let counts = survey(alloc, text)?;
    let findings = find_all(alloc, text)?;
    Ok((counts, findings))
}

/// What the lines of a record are before the one that can't be read.
fn survey_before(alloc: Global, text: &[u8], fault: SurveyFault) -> Result<Surveyed, AllocError>
    requires { StopsAt text.now fault.line fault.stop }
    ensures { IfOk result (λ surveyed. IsSurveyed text.now surveyed) }
{
    // The fault names the line, so it is there; and those before it were read.
    let Some(good) = start_of(text, fault.line) else {
        return Err(AllocError);
    };
    let Ok((counts, findings)) = read_lines(alloc, &text[..good]) else {
        return Err(AllocError);
    };
    Ok(Surveyed {
        good,
        counts,
        findings,
        fault: Some(fault),
    })
}

/// What the lines of a record are, up to the first that can't be read. Takes memory by the length
/// of the tokens.
pub fn survey_of(alloc: Global, text: &[u8]) -> Result<Surveyed, AllocError>
    ensures { IfOk result (λ surveyed. IsSurveyed text.now surveyed) }
{
    match read_lines(alloc, text) {
        Ok((counts, findings)) => Ok(Surveyed {
            good: text.len(),
            counts,
            findings,
            fault: None,
        }),
        Err(fault) if fault.stop == LineStop::Memory => Err(AllocError),
        Err(fault) => survey_before(alloc, text, fault),
    }
}
