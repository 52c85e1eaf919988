//! What servers of the field get wrong on the lines of a feed.
ghost use Rattle.std.specs.Prelude.{◌≡◌, ◌≢◌, ◌+◌, ◌<◌, ◌^◌, ◌≤◌, ◌||◌, true, false, List, ℕ, cond, bytes_eq, is_some, string_bytes, IfOk, IfErr, OnOk};
ghost use Rattle.std.specs.BTreeSet.{contains_text};
ghost use Rattle.feed_note.specs.Counts.{Stops, StopsAt};
ghost use Rattle.feed_note.specs.Lines.{HasNoLineFeed};
ghost use Rattle.feed_commands.specs.Findings.{OwnsId, HasMember, IsMisnamedBy, IsSaid, TakesSaid, ReadsOneLine, AreFound, finding_text, findings_text, is_in, is_with, first_line_found, TellsNothing};

use feed_note::{LINE_BYTES, Line, LineFault, LineStop, SurveyFault, read_line, split_line};
use feed_tables::{Change, Name};
use feed_text::{ObjectText, decode_string, last_member, scan};
use std::alloc::{AllocError, Global};
use std::collections::BTreeSet;

/// On how many lines of a feed something is so.
#[derive(Clone, Copy)]
pub struct Finding {
    /// How many lines these are.
    pub count: u64,
    /// The first of them, counted from 1.
    pub first: Option<u64>,
}

impl Finding {
    /// Nothing was found yet.
    fn none() -> Finding
        ensures { TellsNothing result }
    {
        Finding {
            count: 0,
            first: None,
        }
    }

    /// One line more, of this number, on which it is so or not.
    fn take(&mut self, is_so: bool, line: u64)
        requires { self.old.count < line }
        ensures count { self.new.count ≡ self.old.count + cond is_so 1 0 }
        ensures first { self.new.first ≡ first_line_found self.old.first is_so line }
    {
        if is_so {
            self.count += 1;
            if self.first.is_none() {
                self.first = Some(line);
            }
        }
    }
}

/// What is found on the lines of a feed.
#[derive(Clone, Copy)]
pub struct Findings {
    /// The line has a token that stood on a line before.
    pub repeats: Finding,
    /// No line up to this notification has a token.
    pub tokenless: Finding,
    /// The notification has a member `op`, as in the format of 2020-03.
    pub older: Finding,
    /// The notification puts an object under an id that isn't the object's own.
    pub misnamed: Finding,
}

/// What a line says, as far as it is looked at.
#[derive(Drop)]
struct Said {
    token: Option<Name>,
    is_note: bool,
    is_older: bool,
    is_misnamed: bool,
}

/// Whether a member of a line that holds an object has this name.
fn has_member(alloc: Global, line: &[u8], name: &str) -> Result<bool, AllocError>
    ensures { IfOk result (λ has. HasMember name.now line.now has) }
{
    match scan(alloc, line) {
        Ok(members) => Ok(members.last(alloc, name)?.is_some()),
        // The line was read before, so it is memory that is wanting.
        Err(_) => Err(AllocError),
    }
}

/// Whether the member `id` of an object says this id.
fn owns_id(alloc: Global, object: &ObjectText, id: &Name) -> Result<bool, AllocError>
    ensures { IfOk result (λ owns. OwnsId object.now id.now owns) }
{
    let Some(member) = last_member(alloc, object.bytes(), "id")? else {
        return Ok(false);
    };
    match decode_string(alloc, member.value)? {
        Some(text) => Ok(text.as_str() == id.text()),
        None => Ok(false),
    }
}

/// Whether changes are one that puts an object under an id that isn't the object's own.
fn are_misnamed(alloc: Global, changes: &[Change]) -> Result<bool, AllocError>
    ensures { IfOk result (λ misnamed. IsMisnamedBy changes.now misnamed) }
{
    match changes {
        [Change::Set(_, id, object)] => Ok(!owns_id(alloc, object, id)?),
        _ => Ok(false),
    }
}

/// What a line says, or why it can't be read.
fn read_said(alloc: Global, line: &[u8]) -> Result<Said, LineStop>
    requires { HasNoLineFeed line.now }
    ensures ok { IfOk result (λ said. IsSaid line.now said) }
    ensures err { IfErr result (λ stop. stop ≢ LineStop.Memory → Stops line.now stop) }
{
    if line.len() > LINE_BYTES {
        return Err(LineStop::LongLine);
    }
    match read_line(alloc, line) {
        Ok(Line::KeepAlive) => Ok(Said {
            token: None,
            is_note: false,
            is_older: false,
            is_misnamed: false,
        }),
        Ok(Line::Note { changes, token }) => {
            let is_older = has_member(alloc, line, "op")?;
            let is_misnamed = are_misnamed(alloc, changes.as_slice())?;
            Ok(Said {
                token,
                is_note: true,
                is_older,
                is_misnamed,
            })
        }
        Err(LineFault::Memory) => Err(LineStop::Memory),
        Err(fault) => Err(LineStop::Line(fault)),
    }
}

/// What was found on the lines that were read, and their tokens.
#[derive(Drop)]
pub(super) struct Reader {
    seen: BTreeSet<String>,
    has_token: bool,
    lines: u64,
    findings: Findings,
}

impl Reader {
    /// Nothing was read.
    pub(super) fn new(alloc: Global) -> Reader
        ensures lines { result.lines ≡ 0 }
        ensures seen { (other : List ℕ) → contains_text result.seen other ≡ false }
        ensures has_token { result.has_token ≡ false }
        ensures repeats { TellsNothing result.findings.repeats }
        ensures tokenless { TellsNothing result.findings.tokenless }
        ensures older { TellsNothing result.findings.older }
        ensures misnamed { TellsNothing result.findings.misnamed }
    {
        Reader {
            seen: BTreeSet::new(alloc),
            has_token: false,
            lines: 0,
            findings: Findings {
                repeats: Finding::none(),
                tokenless: Finding::none(),
                older: Finding::none(),
                misnamed: Finding::none(),
            },
        }
    }

    /// What was found.
    pub(super) fn findings(&self) -> Findings
        ensures { result ≡ self.now.findings }
    {
        self.findings
    }

    /// Notes one token more, and answers whether it was there.
    fn note(&mut self, alloc: Global, token: &Name) -> Result<bool, AllocError>
        ensures again { IfOk result (λ again. again ≡ contains_text self.old.seen token.now) }
        ensures kept { OnOk result ((other : List ℕ) → contains_text self.new.seen other
            ≡ cond (bytes_eq token.now other) true (contains_text self.old.seen other)) }
        ensures has_token { self.new.has_token ≡ self.old.has_token }
        ensures lines { self.new.lines ≡ self.old.lines }
        ensures findings { self.new.findings ≡ self.old.findings }
    {
        let text = String::from_str(alloc, token.text())?;
        let is_new = self.seen.insert(text)?;
        Ok(!is_new)
    }

    /// Notes the token of one line more, where there is one, and answers whether it was there.
    fn note_token(&mut self, alloc: Global, token: &Option<Name>) -> Result<bool, AllocError>
        ensures again { IfOk result
            (λ again. again ≡ is_in (contains_text self.old.seen) token.now) }
        ensures kept { OnOk result ((other : List ℕ) → contains_text self.new.seen other
            ≡ is_with token.now other (contains_text self.old.seen other)) }
        ensures has_token { OnOk result
            (self.new.has_token ≡ (self.old.has_token || is_some token.now)) }
        ensures lines { self.new.lines ≡ self.old.lines }
        ensures findings { self.new.findings ≡ self.old.findings }
    {
        let Some(token) = token else {
            return Ok(false);
        };
        let again = self.note(alloc, token)?;
        self.has_token = true;
        Ok(again)
    }

    /// Takes what one line more says.
    fn take(&mut self, alloc: Global, said: &Said) -> Result<(), AllocError>
        requires lines { self.old.lines + 1 < 2 ^ 64 }
        requires repeats { self.old.findings.repeats.count ≤ self.old.lines }
        requires tokenless { self.old.findings.tokenless.count ≤ self.old.lines }
        requires older { self.old.findings.older.count ≤ self.old.lines }
        requires misnamed { self.old.findings.misnamed.count ≤ self.old.lines }
        ensures { OnOk result (TakesSaid said.now self.old self.new) }
    {
        let again = self.note_token(alloc, &said.token)?;
        self.lines += 1;
        let is_tokenless = said.is_note && !self.has_token;
        self.findings.repeats.take(again, self.lines);
        self.findings.tokenless.take(is_tokenless, self.lines);
        self.findings.older.take(said.is_older, self.lines);
        self.findings.misnamed.take(said.is_misnamed, self.lines);
        Ok(())
    }

    /// Reads one line more, and takes what it says.
    pub(super) fn read(&mut self, alloc: Global, line: &[u8]) -> Result<(), LineStop>
        requires unbroken { HasNoLineFeed line.now }
        requires lines { self.old.lines + 1 < 2 ^ 64 }
        requires repeats { self.old.findings.repeats.count ≤ self.old.lines }
        requires tokenless { self.old.findings.tokenless.count ≤ self.old.lines }
        requires older { self.old.findings.older.count ≤ self.old.lines }
        requires misnamed { self.old.findings.misnamed.count ≤ self.old.lines }
        ensures ok { OnOk result (ReadsOneLine line.now self.old self.new) }
        ensures err { IfErr result (λ stop. stop ≢ LineStop.Memory → Stops line.now stop) }
    {
        let said = read_said(alloc, line)?;
        self.take(alloc, &said)?;
        Ok(())
    }
}

/// Finds what servers of the field get wrong on the lines of a feed, or names the first line that
/// can't be read. Takes memory by the length of the tokens.
pub fn find_all(alloc: Global, bytes: &[u8]) -> Result<Findings, SurveyFault>
    ensures ok { IfOk result (λ findings. AreFound bytes.now findings) }
    ensures err { IfErr result (λ fault.
        fault.stop ≢ LineStop.Memory → StopsAt bytes.now fault.line fault.stop) }
{
    let mut reader = Reader::new(alloc);
    let mut rest = bytes;
    'lines: while let Some((line, behind)) = split_line(rest) {
        let number = reader.lines + 1;
        match reader.read(alloc, line) {
            Ok(()) => rest = behind,
            Err(stop) => return Err(SurveyFault { line: number, stop }),
        }
    }
    Ok(reader.findings)
}

/// The line that tells what was found of one kind.
fn finding_line(alloc: Global, name: &str, finding: Finding) -> Result<String, AllocError>
    ensures { IfOk result (λ text. string_bytes text ≡ finding_text name.now finding) }
{
    let Finding { count, first } = finding;
    match first {
        None => format!(in alloc; "{name} 0\n"),
        Some(line) => format!(in alloc; "{name} {count}, first at line {line}\n"),
    }
}

/// The lines that tell what was found.
pub(super) fn findings_lines(alloc: Global, findings: Findings) -> Result<String, AllocError>
    ensures { IfOk result (λ text. string_bytes text ≡ findings_text findings) }
{
    let Findings {
        repeats,
        tokenless,
        older,
        misnamed,
    } = findings;
    let mut text = finding_line(alloc, "repeated tokens", repeats)?;
    let line = finding_line(alloc, "lines before the first token", tokenless)?;
    text.push_str(line.as_str())?;
    let line = finding_line(alloc, "lines in the format of 2020-03", older)?;
    text.push_str(line.as_str())?;
    let line = finding_line(alloc, "ids that are not the object's", misnamed)?;
    text.push_str(line.as_str())?;
    Ok(text)
}
