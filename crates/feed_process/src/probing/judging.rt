//! What is found of a feed that came: its format, its tokens, when a relay shows it, and how the
//! connection stays.

use super::passage::{End, Passage};
use super::report::{Report, UNFIT, UNSEEN, printable, seconds};
use feed_node::{Limits, MOST_CHANGES, MOST_COMMITS, Mirror};
use feed_probe::{Finding, Needs, Surveyed, USUAL_PAUSE, longest_pause, pause_for, shown_after};
use feed_tables::Tables;
use std::alloc::{AllocError, Global};

/// How many bytes of a line are told.
const TOLD: usize = 110;

/// How long proxies let a connection be silent by default, in milliseconds.
const SILENCE: u64 = 60_000;

/// The types that screens need.
const NEEDED: [&str; 4] = ["teams", "problems", "submissions", "judgements"];

const UNREAD: &str = "live follows it no further than that, and asks again; what it has not shown \
                      by then it drops";

const OLDER: &str = "that format has no tokens, so screens get 503 for ever: switch the server to \
                     2023-06";

const MISNAMED: &str = "screens are sent the line as it is: those that look at the object's own id \
                        may miss it";

const NO_TOKEN: &str = "nothing of it can be shown: screens get 503 for ever";

const NO_LINE: &str = "the contest may not be set up yet: probe again once it has teams";

const TWO_STATES: &str = "a token names one state: a relay drops what comes with it again, SO \
                          SCREENS LACK IT, with --fresh, too. A token belongs on the last line of \
                          a commit alone";

const SAME_AGAIN: &str = "what comes with it again says the same, so screens lack nothing";

const LONGER: &str = "with the usual pause screens would be shown a part of it";

const SHORTER: &str =
    "it never pauses for 2 s, so with the usual pause screens would get 503 until \
                       it does, for 10 minutes at most";

const NO_REST: &str = "screens get 503 until it comes to rest, for 10 minutes at most: probe for \
                       longer, with --seconds 130";

const IS_CUT: &str =
    "something cuts quiet connections, or ends them after a time: raise that limit \
                      (nginx: proxy_read_timeout; PHP: max_execution_time; a load balancer). A feed \
                      that isn't whole by then is never shown";

const HAS_ENDED: &str = "a feed doesn't end: live asks again, with pauses of up to 30 s";

const LOOK_LONGER: &str = "a longer silence was not looked at: whether a proxy cuts after a minute \
                           is seen with --seconds 130";

const LACKS: &str = "is it the right account, and the right contest?";

/// What one connection brought, and what it is.
#[derive(Clone, Copy)]
pub(super) struct Feed<'p> {
    pub(super) passage: &'p Passage,
    pub(super) surveyed: Surveyed,
}

impl<'p> Feed<'p> {
    /// The lines that can be read.
    pub(super) fn text(&self) -> &'p [u8] {
        let text = self.passage.record.text();
        text.get(..self.surveyed.good).unwrap_or(&[])
    }
}

/// The line that begins at a place.
fn line_at(text: &[u8], place: usize) -> &[u8] {
    let rest = text.get(place..).unwrap_or(&[]);
    let end = rest.iter().position(|byte| *byte == b'\n');
    rest.get(..end.unwrap_or(rest.len())).unwrap_or(rest)
}

/// How many lines something is so of, and the first of them.
fn many(alloc: Global, finding: Finding, what: &str) -> Result<String, AllocError> {
    let count = finding.count;
    let first = finding.first.unwrap_or(0);
    format!(in alloc; "{count} {what}, first at line {first}")
}

/// Looks at the format, the first line that isn't a notification, and ids.
pub(super) fn see_format(report: &mut Report, feed: Feed<'_>) -> Result<(), AllocError> {
    let alloc = report.alloc();
    let Surveyed {
        good,
        counts,
        findings,
        fault,
    } = feed.surveyed;
    if let Some(fault) = fault {
        let line = printable(alloc, line_at(feed.passage.record.text(), good), TOLD)?;
        let (number, stop) = (fault.line, fault.stop);
        let text = format!(in alloc; "line {number} is no notification: {stop}: {line}")?;
        report.problem("format", text, UNREAD, UNFIT)?;
    }
    let (notes, alive) = (counts.notes, counts.keepalives);
    if findings.older.count > notes / 2 {
        let text = many(alloc, findings.older, "lines are in the format of 2020-03")?;
        return report.problem("format", text, OLDER, UNFIT);
    }
    if notes > 0 && fault.is_none() {
        let text = format!(in alloc;
            "2023-06: {notes} notifications, {alive} lines of keep-alives, {good} bytes"
        )?;
        report.fine("format", text)?;
    }
    if findings.misnamed.count > 0 {
        let text = many(
            alloc,
            findings.misnamed,
            "lines under another id than the object's",
        )?;
        return report.note("ids", text, MISNAMED);
    }
    if notes > 0 {
        let text = String::from_str(alloc, "each object is under its own id")?;
        report.fine("ids", text)?;
    }
    Ok(())
}

/// The limits of a mirror that is to take all that a relay may.
pub(super) fn limits_of_all() -> Result<Limits, AllocError> {
    Limits::new(MOST_COMMITS, MOST_CHANGES).map_err(|_| AllocError)
}

/// What a mirror makes of a feed: it, and whether a token came for two states.
pub(super) fn mirrored(alloc: Global, text: &[u8]) -> Result<(Mirror, bool), AllocError> {
    let mut mirror = Mirror::new(alloc, limits_of_all()?)?;
    mirror.begin();
    let mut is_twice = false;
    for line in text.split_inclusive(|byte| *byte == b'\n') {
        if mirror.feed(alloc, line).is_err() {
            break;
        }
        is_twice = is_twice || mirror.given_twice().is_some();
    }
    Ok((mirror, is_twice))
}

/// Looks whether there are tokens, and whether each names one state.
pub(super) fn see_tokens(
    report: &mut Report,
    feed: Feed<'_>,
    is_twice: bool,
) -> Result<bool, AllocError> {
    let alloc = report.alloc();
    let (counts, findings) = (feed.surveyed.counts, feed.surveyed.findings);
    if counts.notes == 0 {
        if feed.surveyed.fault.is_none() {
            let text = String::from_str(alloc, "no line came")?;
            report.problem("tokens", text, NO_LINE, UNSEEN)?;
        }
        return Ok(false);
    }
    if counts.tokens == 0 {
        let text = String::from_str(alloc, "no line has one")?;
        report.problem("tokens", text, NO_TOKEN, UNFIT)?;
        return Ok(false);
    }
    let (tokens, notes, before) = (counts.tokens, counts.notes, findings.tokenless.count);
    let text = format!(in alloc;
        "on {tokens} of {notes} notifications, first after {before} without one"
    )?;
    if findings.repeats.count == 0 {
        report.fine("tokens", text)?;
        return Ok(true);
    }
    let again = many(alloc, findings.repeats, "came again")?;
    let text = format!(in alloc; "{text}; {again}")?;
    if is_twice {
        report.problem("tokens", text, TWO_STATES, UNFIT)?;
    } else {
        report.note("tokens", text, SAME_AGAIN)?;
    }
    Ok(!is_twice)
}

/// Looks at what comes first.
pub(super) fn see_start(
    report: &mut Report,
    feed: Feed<'_>,
    tables: &Tables,
) -> Result<(), AllocError> {
    let (counts, objects) = (feed.surveyed.counts, tables.size() as u64);
    let what = if counts.tokens == 1 && counts.notes > 1 {
        "the present state, with one token, as a relay sends it"
    } else if counts.changes > objects {
        "a replay of all that happened"
    } else {
        "each object once: the present objects, or a contest before its start"
    };
    let changes = counts.changes;
    let text = format!(in report.alloc(); "{what}: {changes} changes, {objects} objects")?;
    report.fine("start", text)
}

/// When arrivals are counted from: the first of them.
fn from_first(times: &[u64], number: usize) -> u64 {
    let at = times.get(number).copied().unwrap_or(0);
    at.saturating_sub(times.first().copied().unwrap_or(0))
}

/// What is found of a feed that a relay shows if it waits for this pause.
fn settled(report: &mut Report, feed: Feed<'_>, pause: u64) -> Result<(), AllocError> {
    let alloc = report.alloc();
    let record = &feed.passage.record;
    let (times, totals) = (record.times(), record.totals());
    let shown = shown_after(times, totals, feed.passage.ended, pause).unwrap_or(0);
    let (at, longest) = (
        seconds(alloc, from_first(times, shown))?,
        seconds(alloc, longest_pause(times, shown.saturating_add(1)))?,
    );
    let text = format!(in alloc;
        "{at} after its first line hardly anything comes any more; longest pause until then {longest}"
    )?;
    if pause == USUAL_PAUSE {
        return report.fine("settle", text);
    }
    report.needs.settle = Needs::pausing(pause, false).settle;
    let text = format!(in alloc; "{text}: give --settle {pause}")?;
    report.note(
        "settle",
        text,
        if pause < USUAL_PAUSE { SHORTER } else { LONGER },
    )
}

/// Looks when a relay shows what came.
pub(super) fn see_settle(report: &mut Report, feed: Feed<'_>) -> Result<(), AllocError> {
    let alloc = report.alloc();
    let record = &feed.passage.record;
    let (times, totals) = (record.times(), record.totals());
    if feed.passage.end == End::Whole {
        let text = String::from_str(alloc, "it ended in order, so a relay shows it at once")?;
        return report.fine("settle", text);
    }
    match pause_for(times, totals, feed.passage.ended) {
        Some(pause) => settled(report, feed, pause),
        None => {
            let text = String::from_str(alloc, "not looked at: it has not come to rest")?;
            report.unseen("settle", text, NO_REST)
        }
    }
}

/// How often something came that says nothing.
fn pulse_text(alloc: Global, passage: &Passage) -> Result<String, AllocError> {
    let pulse = passage.record.pulse();
    let count = pulse.count;
    match pulse.interval() {
        None if count == 0 => String::from_str(alloc, "no keep-alive"),
        None => format!(in alloc; "{count} keep-alive"),
        Some(interval) => {
            let each = seconds(alloc, interval)?;
            format!(in alloc; "{count} keep-alives, one each {each}")
        }
    }
}

/// Looks whether a quiet connection stays open, and how often something comes on it.
pub(super) fn see_quiet(report: &mut Report, passage: &Passage) -> Result<(), AllocError> {
    let alloc = report.alloc();
    let from = passage.answered.unwrap_or(0);
    let read = seconds(alloc, passage.ended.saturating_sub(from))?;
    let still = passage.ended.saturating_sub(passage.heard);
    let silence = seconds(alloc, still)?;
    let how = match passage.end {
        End::Left => {
            let pulse = pulse_text(alloc, passage)?;
            let text = format!(in alloc;
                "it stayed open for {read}, with {pulse}; silent for {silence} at the end"
            )?;
            return if still >= SILENCE || passage.record.pulse().count > 0 {
                report.fine("quiet", text)
            } else {
                report.note("quiet", text, LOOK_LONGER)
            };
        }
        End::Whole => {
            let text = format!(in alloc; "the body ended in order after {read}")?;
            return report.note("quiet", text, HAS_ENDED);
        }
        End::Closed => "ended",
        End::Reset => "was reset",
    };
    let text = format!(in alloc;
        "the connection {how} after {read}, the last {silence} of which were quiet"
    )?;
    report.note("quiet", text, IS_CUT)
}

/// Looks at how large it is, and whether it has what screens need.
pub(super) fn see_size(
    report: &mut Report,
    feed: Feed<'_>,
    tables: &Tables,
) -> Result<(), AllocError> {
    let alloc = report.alloc();
    let (lines, bytes) = (feed.surveyed.counts.lines, feed.surveyed.good);
    let (objects, types) = (tables.size(), tables.count_types());
    let text = format!(in alloc;
        "{lines} lines, {bytes} bytes, {objects} objects of {types} types"
    )?;
    report.fine("size", text)?;
    let mut lacking = String::new(alloc);
    for kind in NEEDED {
        if !tables.has_collection(kind) {
            lacking.push_str(" ")?;
            lacking.push_str(kind)?;
        }
    }
    if lacking.is_empty() {
        return Ok(());
    }
    let text = format!(in alloc; "there are none of:{lacking}")?;
    report.note("size", text, LACKS)
}
