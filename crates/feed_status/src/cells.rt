//! What stands in the cells of the page's tables.

use crate::health::Coming;
use crate::status::{
    FailureCount, FileStatus, LastFailure, ScreensStatus, UpstreamState, UpstreamStatus,
};
use crate::warnings::Waiting;
use std::fmt;

/// A time as people read it: with its two greatest units.
#[derive(Clone, Copy)]
pub(crate) struct Time(pub(crate) u64);

impl fmt::Display for Time {
    fn fmt<W: fmt::Write>(&self, f: &mut fmt::Formatter<W>) -> fmt::Result {
        let seconds = self.0 / 1_000;
        let (minutes, hours) = (seconds / 60, seconds / 3_600);
        if hours > 0 {
            write!(f, "{hours} h {} min", minutes % 60)
        } else if minutes > 0 {
            write!(f, "{minutes} min {} s", seconds % 60)
        } else {
            write!(f, "{seconds} s")
        }
    }
}

fn word(state: UpstreamState) -> &'static str {
    match state {
        UpstreamState::Following => "following",
        UpstreamState::Settling => "settling",
        UpstreamState::Asking => "asking",
        UpstreamState::Pausing => "waiting to ask again",
        UpstreamState::Input => "following",
        UpstreamState::Ended => "ended",
    }
}

/// What a cell says.
#[derive(Clone, Copy)]
pub(crate) enum Cell<'a> {
    Text(&'a str),
    Number(u64),
    /// How long something took.
    Time(u64),
    /// How long ago something was; none if it never was.
    Ago(Option<u64>),
    /// How things stand with the server, and for how long.
    State(UpstreamState, u64),
    /// The same of any server: of one that isn't asked, for how long it hasn't been followed.
    Server(Option<UpstreamState>, Option<u64>),
    /// What came and has not settled.
    Coming(&'a UpstreamStatus<'a>),
    /// What came and waits for a token.
    Waiting(&'a UpstreamStatus<'a>),
    /// Why the last attempt failed, and when.
    LastFailure(Option<LastFailure<'a>>),
    /// How many attempts failed, and how many of them for which reason.
    Failures(&'a UpstreamStatus<'a>),
    /// How many requests were refused, and how many of them with which status.
    Refusals(&'a ScreensStatus),
    StateFile(Option<FileStatus<'a>>),
    /// The status that a screen was answered with; none while its request comes.
    Answer(Option<u16>),
    /// The status of a server's last answer; none where it has given none.
    Known(Option<u16>),
    /// The token of what a screen was sent, if that is all, and how many bytes it lacks.
    Place(Option<&'a str>, u64),
}

impl fmt::Display for Cell<'_> {
    fn fmt<W: fmt::Write>(&self, f: &mut fmt::Formatter<W>) -> fmt::Result {
        match *self {
            Cell::Text(text) => f.write_str(text),
            Cell::Number(number) => put(&number, f),
            Cell::Time(time) => put(&Time(time), f),
            Cell::Ago(age) => put_ago(age, f),
            Cell::State(state, time) => put_state(state, time, f),
            Cell::Server(state, time) => put_server(state, time, f),
            Cell::Coming(upstream) => put_coming(upstream, f),
            Cell::Waiting(upstream) => put_waiting(upstream, f),
            Cell::LastFailure(failure) => put_last_failure(failure, f),
            Cell::Failures(upstream) => put_failures(upstream, f),
            Cell::Refusals(screens) => put_refusals(screens, f),
            Cell::StateFile(file) => put_state_file(file, f),
            Cell::Answer(status) => put_answer(status, f),
            Cell::Known(status) => put_known(status, f),
            Cell::Place(token, behind) => put_place(token, behind, f),
        }
    }
}

fn put<T: fmt::Display, W: fmt::Write>(value: &T, f: &mut fmt::Formatter<W>) -> fmt::Result {
    write!(f, "{value}")
}

fn put_ago<W: fmt::Write>(age: Option<u64>, f: &mut fmt::Formatter<W>) -> fmt::Result {
    match age {
        Some(age) => write!(f, "{} ago", Time(age)),
        None => f.write_str("none since the start"),
    }
}

fn put_state<W: fmt::Write>(
    state: UpstreamState,
    time: u64,
    f: &mut fmt::Formatter<W>,
) -> fmt::Result {
    write!(f, "{}, for {}", word(state), Time(time))
}

fn put_server<W: fmt::Write>(
    state: Option<UpstreamState>,
    time: Option<u64>,
    f: &mut fmt::Formatter<W>,
) -> fmt::Result {
    match (state, time) {
        (Some(state), Some(time)) => put_state(state, time, f),
        (Some(state), None) => f.write_str(word(state)),
        (None, Some(time)) => write!(f, "not followed, for {}", Time(time)),
        (None, None) => f.write_str("never followed"),
    }
}

fn put_known<W: fmt::Write>(status: Option<u16>, f: &mut fmt::Formatter<W>) -> fmt::Result {
    match status {
        Some(status) => write!(f, "{status}"),
        None => f.write_str("none"),
    }
}

fn put_coming<W: fmt::Write>(
    upstream: &UpstreamStatus<'_>,
    f: &mut fmt::Formatter<W>,
) -> fmt::Result {
    match upstream.state {
        UpstreamState::Settling => write!(f, "{}", Coming(upstream)),
        _ => f.write_str("nothing"),
    }
}

fn put_waiting<W: fmt::Write>(
    upstream: &UpstreamStatus<'_>,
    f: &mut fmt::Formatter<W>,
) -> fmt::Result {
    match upstream.waiting {
        0 => f.write_str("nothing"),
        _ => write!(f, "{}", Waiting(upstream)),
    }
}

fn put_last_failure<W: fmt::Write>(
    failure: Option<LastFailure<'_>>,
    f: &mut fmt::Formatter<W>,
) -> fmt::Result {
    match failure {
        Some(failure) => write!(f, "{}, {} ago", failure.text, Time(failure.age_ms)),
        None => put_ago(None, f),
    }
}

fn total(failed_by: &[FailureCount<'_>]) -> u64 {
    let mut total: u64 = 0;
    for failed in failed_by {
        total = total.saturating_add(failed.count);
    }
    total
}

fn put_failures<W: fmt::Write>(
    upstream: &UpstreamStatus<'_>,
    f: &mut fmt::Formatter<W>,
) -> fmt::Result {
    put(&total(&upstream.failed_by), f)?;
    for failed in &upstream.failed_by {
        put_part(&failed.reason, failed.count, f)?;
    }
    Ok(())
}

fn put_refusals<W: fmt::Write>(screens: &ScreensStatus, f: &mut fmt::Formatter<W>) -> fmt::Result {
    put(&screens.refused, f)?;
    for refused in &screens.refused_by {
        put_part(&refused.status, refused.count, f)?;
    }
    Ok(())
}

/// How many of them there are for one reason, where there are any.
fn put_part<T: fmt::Display, W: fmt::Write>(
    reason: &T,
    count: u64,
    f: &mut fmt::Formatter<W>,
) -> fmt::Result {
    match count {
        0 => Ok(()),
        _ => write!(f, ", {reason}: {count}"),
    }
}

fn put_state_file<W: fmt::Write>(
    file: Option<FileStatus<'_>>,
    f: &mut fmt::Formatter<W>,
) -> fmt::Result {
    let Some(file) = file else {
        return f.write_str("none");
    };
    match file.fault {
        Some(fault) => write!(f, "can't be written ({} times): {fault}", file.failures),
        None if file.bytes == 0 => f.write_str("nothing written yet"),
        None => write!(f, "{} bytes, written {} ago", file.bytes, Time(file.age_ms)),
    }
}

fn put_answer<W: fmt::Write>(status: Option<u16>, f: &mut fmt::Formatter<W>) -> fmt::Result {
    match status {
        Some(status) => write!(f, "{status}"),
        None => f.write_str("asks"),
    }
}

fn put_place<W: fmt::Write>(
    token: Option<&str>,
    behind: u64,
    f: &mut fmt::Formatter<W>,
) -> fmt::Result {
    match token {
        Some(token) => f.write_str(token),
        None if behind == 0 => f.write_str("none"),
        None => write!(f, "{behind} bytes behind"),
    }
}
