//! What was found of a server: a line for each finding, and how they are printed.

use feed_probe::{Needs, put_quoted};
use feed_text::encode_string;
use std::alloc::{AllocError, Global};

/// The statuses that a probe ends with.
pub(super) const FITS: u8 = 0;

pub(super) const FITS_SO: u8 = 1;

pub(super) const UNFIT: u8 = 2;

pub(super) const UNSEEN: u8 = 3;

pub(super) const UNREACHED: u8 = 4;

/// How a finding counts.
#[derive(Clone, Copy, PartialEq, Eq)]
pub(super) enum Level {
    /// All is well.
    Fine,
    /// It is worth knowing, or mended by an option.
    Note,
    /// No option mends it.
    Problem,
}

impl Level {
    fn word(self) -> &'static str {
        match self {
            Level::Fine => "OK",
            Level::Note => "NOTE",
            Level::Problem => "PROBLEM",
        }
    }

    fn name(self) -> &'static str {
        match self {
            Level::Fine => "ok",
            Level::Note => "note",
            Level::Problem => "problem",
        }
    }
}

/// One finding: what it is about, what was found, and what that means.
#[derive(Drop)]
struct Line {
    level: Level,
    topic: &'static str,
    text: String,
    means: &'static str,
}

/// What was found.
#[derive(Drop)]
pub(super) struct Report {
    alloc: Global,
    lines: Vec<Line>,
    // The status of the worst finding.
    worst: u8,
    pub(super) needs: Needs,
}

/// How much a status says: that there was no connection more than that it doesn't fit, and that
/// more than that something was not seen.
fn weight_of(status: u8) -> u8 {
    match status {
        FITS => 0,
        FITS_SO => 1,
        UNSEEN => 2,
        UNFIT => 3,
        _ => 4,
    }
}

impl Report {
    /// Nothing was found yet.
    pub(super) fn new(alloc: Global) -> Report {
        Report {
            alloc,
            lines: Vec::new(alloc),
            worst: FITS,
            needs: Needs {
                settle: None,
                is_fresh: false,
            },
        }
    }

    pub(super) fn alloc(&self) -> Global {
        self.alloc
    }

    fn add(
        &mut self,
        level: Level,
        topic: &'static str,
        text: String,
        means: &'static str,
    ) -> Result<(), AllocError> {
        self.lines.push(Line {
            level,
            topic,
            text,
            means,
        })?;
        Ok(())
    }

    /// All is well.
    pub(super) fn fine(&mut self, topic: &'static str, text: String) -> Result<(), AllocError> {
        self.add(Level::Fine, topic, text, "")
    }

    /// Something is worth knowing.
    pub(super) fn note(
        &mut self,
        topic: &'static str,
        text: String,
        means: &'static str,
    ) -> Result<(), AllocError> {
        self.add(Level::Note, topic, text, means)
    }

    /// Something was not seen.
    pub(super) fn unseen(
        &mut self,
        topic: &'static str,
        text: String,
        means: &'static str,
    ) -> Result<(), AllocError> {
        self.worsen(UNSEEN);
        self.add(Level::Note, topic, text, means)
    }

    /// No option mends something, for which the status is this one.
    pub(super) fn problem(
        &mut self,
        topic: &'static str,
        text: String,
        means: &'static str,
        status: u8,
    ) -> Result<(), AllocError> {
        self.worsen(status);
        self.add(Level::Problem, topic, text, means)
    }

    fn worsen(&mut self, status: u8) {
        if weight_of(status) > weight_of(self.worst) {
            self.worst = status;
        }
    }

    /// The status of all findings.
    pub(super) fn status(&self) -> u8 {
        if self.worst == FITS && !self.needs.is_nothing() {
            FITS_SO
        } else {
            self.worst
        }
    }

    /// Whether a relay can be called.
    pub(super) fn is_fit(&self) -> bool {
        self.worst == FITS
    }

    /// What is said at the end.
    fn end(&self) -> &'static str {
        match self.status() {
            FITS => "It fits:",
            FITS_SO => "It fits, with these options:",
            UNSEEN => "Whether it fits can't be said: see what was not looked at.",
            UNREACHED => "It could not be reached.",
            _ => "It doesn't fit as it is: mend what is marked PROBLEM, and probe again.",
        }
    }

    /// Appends the report as lines, with the call at its end where there is one.
    pub(super) fn put_lines(&self, call: &[String], out: &mut String) -> Result<(), AllocError> {
        for line in &self.lines {
            put_line(line, out)?;
        }
        out.push_str(self.end())?;
        out.push('\n')?;
        if call.is_empty() {
            return Ok(());
        }
        out.push_str("   ")?;
        for word in call {
            out.push(' ')?;
            put_quoted(word.as_str(), out)?;
        }
        out.push('\n')
    }

    /// Appends the report as a line of JSON.
    pub(super) fn put_json(
        &self,
        url: &str,
        call: &[String],
        out: &mut Vec<u8>,
    ) -> Result<(), AllocError> {
        out.extend_from_slice(b"{\"url\":")?;
        encode_string(self.alloc, url, out)?;
        let status = format!(in self.alloc; ",\"status\":{}", self.status())?;
        out.extend_from_slice(status.as_bytes())?;
        out.extend_from_slice(b",\"live\":")?;
        self.put_call(call, out)?;
        out.extend_from_slice(b",\"findings\":[")?;
        for (number, line) in self.lines.iter().enumerate() {
            if number > 0 {
                out.push(b',')?;
            }
            self.put_finding(line, out)?;
        }
        out.extend_from_slice(b"]}\n")
    }

    /// Appends the words of the call, or `null` where there is none.
    fn put_call(&self, call: &[String], out: &mut Vec<u8>) -> Result<(), AllocError> {
        if call.is_empty() {
            return out.extend_from_slice(b"null");
        }
        out.push(b'[')?;
        for (number, word) in call.iter().enumerate() {
            if number > 0 {
                out.push(b',')?;
            }
            encode_string(self.alloc, word.as_str(), out)?;
        }
        out.push(b']')?;
        Ok(())
    }

    fn put_finding(&self, line: &Line, out: &mut Vec<u8>) -> Result<(), AllocError> {
        let members = [
            ("{\"level\":", line.level.name()),
            (",\"topic\":", line.topic),
            (",\"text\":", line.text.as_str()),
            (",\"means\":", line.means),
        ];
        for (name, value) in members {
            out.extend_from_slice(name.as_bytes())?;
            encode_string(self.alloc, value, out)?;
        }
        out.push(b'}')?;
        Ok(())
    }
}

/// Appends a finding, and what it means on a line of its own.
fn put_line(line: &Line, out: &mut String) -> Result<(), AllocError> {
    out.push_str(line.level.word())?;
    out.push(' ')?;
    out.push_str(line.topic)?;
    out.push_str(": ")?;
    out.push_str(line.text.as_str())?;
    out.push('\n')?;
    if line.means.is_empty() {
        return Ok(());
    }
    out.push_str("    ")?;
    out.push_str(line.means)?;
    out.push('\n')
}

/// The begin of a text, with `?` for what can't be printed.
pub(super) fn printable(alloc: Global, text: &[u8], most: usize) -> Result<String, AllocError> {
    let mut shown = String::new(alloc);
    for byte in text.iter().take(most) {
        let letter = if (b' '..=b'~').contains(byte) {
            *byte
        } else {
            b'?'
        };
        shown.push(char::from(letter))?;
    }
    if text.len() > most {
        shown.push_str("..")?;
    }
    Ok(shown)
}

/// Milliseconds as seconds, to the tenth.
pub(super) fn seconds(alloc: Global, time: u64) -> Result<String, AllocError> {
    let (whole, tenths) = (time / 1_000, time % 1_000 / 100);
    format!(in alloc; "{whole}.{tenths} s")
}
