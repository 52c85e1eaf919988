//! The table of the page.

use crate::cells::Cell;
use crate::status::Status;
use std::alloc::{AllocError, Global};
use std::fmt::Display;

/// One row of the table.
#[derive(Drop)]
pub(crate) struct Row {
    pub(crate) label: &'static str,
    pub(crate) text: String,
}

/// The rows on the feed that is followed.
static FEED: [&str; 9] = [
    "Contest",
    "Upstream",
    "State",
    "Not shown yet",
    "Waiting",
    "Last heard",
    "Last failure",
    "Failures in a row",
    "Failures",
];

fn of_feed<'a>(status: &'a Status<'a>) -> [Cell<'a>; 9] {
    let upstream = &status.upstream;
    [
        Cell::Text(status.contest),
        Cell::Text(upstream.name),
        Cell::State(upstream.state, upstream.since_ms),
        Cell::Coming(upstream),
        Cell::Waiting(upstream),
        Cell::Ago(Some(upstream.silent_ms)),
        Cell::LastFailure(upstream.last_failure),
        Cell::Number(upstream.failures),
        Cell::Failures(upstream),
    ]
}

/// The rows on what is shown.
static SHOWN: [&str; 2] = ["Token", "Last commit"];

fn of_shown<'a>(status: &'a Status<'a>) -> [Cell<'a>; 2] {
    [
        Cell::Text(status.token.unwrap_or("none")),
        Cell::Ago(status.commit_age_ms),
    ]
}

/// The rows on how much came.
static CAME: [&str; 4] = ["Commits", "Types", "Objects", "Bytes in"];

fn of_came(status: &Status<'_>) -> [u64; 4] {
    [status.commits, status.types, status.objects, status.bytes]
}

/// The rows on the screens that stand before the one on refusals.
static SCREENS: [&str; 6] = [
    "Screens",
    "Not answered yet",
    "Behind",
    "Waiting for room",
    "Most at once",
    "Opened",
];

fn of_screens(status: &Status<'_>) -> [u64; 6] {
    let screens = &status.screens;
    [
        screens.open,
        screens.asking,
        screens.behind,
        screens.waiting,
        screens.most,
        screens.opened,
    ]
}

/// Those that stand behind it.
static ENDS: [&str; 5] = [
    "Refused by address",
    "Cut as slow",
    "Published afresh",
    "Bodies ended for that",
    "Bytes out",
];

fn of_ends(status: &Status<'_>) -> [u64; 5] {
    let screens = &status.screens;
    [
        status.refused_by_address,
        screens.cut,
        screens.resets,
        screens.ended,
        screens.bytes,
    ]
}

/// The rows on the relay itself.
static RELAY: [&str; 3] = ["State file", "Up for", "Version"];

fn of_relay<'a>(status: &'a Status<'a>) -> [Cell<'a>; 3] {
    [
        Cell::StateFile(status.state_file),
        Cell::Time(status.uptime_ms),
        Cell::Text(status.version),
    ]
}

/// Appends a row for each label, with the value that stands at the same place.
fn push_all<T: Display>(
    alloc: Global,
    labels: &[&'static str],
    values: &[T],
    rows: &mut Vec<Row>,
) -> Result<(), AllocError> {
    for (label, value) in labels.iter().zip(values.iter()) {
        let text = format!(in alloc; "{value}")?;
        rows.push(Row { label, text })?;
    }
    Ok(())
}

/// Appends the rows on the feed, and on what is shown of it.
fn push_feed(alloc: Global, status: &Status<'_>, rows: &mut Vec<Row>) -> Result<(), AllocError> {
    push_all(alloc, &FEED, &of_feed(status), rows)?;
    push_all(alloc, &SHOWN, &of_shown(status), rows)?;
    push_all(alloc, &CAME, &of_came(status), rows)
}

/// Appends the rows on the screens.
fn push_screens(alloc: Global, status: &Status<'_>, rows: &mut Vec<Row>) -> Result<(), AllocError> {
    push_all(alloc, &SCREENS, &of_screens(status), rows)?;
    push_all(
        alloc,
        &["Refused"],
        &[Cell::Refusals(&status.screens)],
        rows,
    )?;
    push_all(alloc, &ENDS, &of_ends(status), rows)
}

/// All rows.
pub(crate) fn rows_of(alloc: Global, status: &Status<'_>) -> Result<Vec<Row>, AllocError> {
    let mut rows = Vec::new(alloc);
    push_feed(alloc, status, &mut rows)?;
    push_screens(alloc, status, &mut rows)?;
    push_all(alloc, &RELAY, &of_relay(status), &mut rows)?;
    Ok(rows)
}
