//! What the status port tells, made of what the relay counts.

use feed_commands::LiveOptions;
use feed_figures::{FeedFigures, Following, LONG_WAIT, Reason, ServerFigures};
use feed_files::FileFigures;
use feed_screens::{ScreenFigures, ScreenRow};
use feed_status::{
    FailureCount, FileStatus, InPlaceOf, LastFailure, Latency, Plots, Refused, ScreensStatus,
    UpstreamState, UpstreamStatus, WatchedScreen, WatchedServer,
};
use feed_system::since_1970;
use std::alloc::{AllocError, Global};

/// What is told beside what the relay counts itself.
#[derive(Drop)]
pub struct Watched {
    /// The contest whose feed is served.
    pub contest: String,
    /// After how many milliseconds without a byte a server is silent.
    pub silence: u64,
    /// When the relay began, in milliseconds after 1970.
    pub began: u64,
    /// How long turns take that publish something.
    pub latency: Latency,
    /// What was counted in each second and minute.
    pub plots: Plots,
}

impl Watched {
    /// What is told of a relay that begins now.
    pub fn new(rt: &HostRuntime, options: &LiveOptions<'_>) -> Result<Watched, AllocError> {
        Ok(Watched {
            contest: String::from_str(rt.alloc(), options.contest)?,
            silence: options.idle.saturating_mul(2_000),
            began: since_1970(rt),
            latency: Latency::none(),
            plots: Plots::new(rt.alloc())?,
        })
    }

    /// A turn that published so many commits took so many microseconds.
    pub fn add(&mut self, commits: u64, time: u64) {
        self.latency.add(commits, time);
        self.plots.add(commits, time);
    }

    /// It is this second after the start, and there were so many screens up to now.
    pub fn advance(&mut self, second: u64, screens: usize) {
        self.plots.advance(second, screens as u64);
    }
}

/// What is told of a relay in words.
#[derive(Drop)]
pub struct Words {
    /// The name of the server that it follows.
    pub name: String,
    /// The names of all servers, in the order of their numbers.
    pub servers: Vec<String>,
    /// Why the last attempt to follow one failed.
    pub failure: String,
    /// Where all that it sends breaks each time; empty if it doesn't.
    pub stuck: String,
    /// The name of the first server.
    pub first: String,
    /// Why that is not followed.
    pub lack: String,
    /// Why the state file can't be written.
    pub fault: String,
}

fn state_of(following: Following) -> UpstreamState {
    match following {
        Following::Answered => UpstreamState::Following,
        Following::Settling => UpstreamState::Settling,
        Following::Asked => UpstreamState::Asking,
        Following::Away => UpstreamState::Pausing,
        Following::Input => UpstreamState::Input,
        Following::Ended => UpstreamState::Ended,
    }
}

/// How often following failed for a reason.
fn failed<'a>(words: &'a Words, reason: Reason, count: u64) -> FailureCount<'a> {
    let _words = words;
    FailureCount {
        reason: reason.word(),
        count,
    }
}

/// Why following failed last, so long ago.
fn last_failure<'a>(words: &'a Words, age_ms: u64) -> LastFailure<'a> {
    LastFailure {
        text: words.failure.as_str(),
        age_ms,
    }
}

/// What is told of the first server, which has not been followed for so long.
fn in_place_of<'a>(words: &'a Words, for_ms: u64) -> InPlaceOf<'a> {
    InPlaceOf {
        name: words.first.as_str(),
        why: words.lack.as_str(),
        for_ms,
    }
}

/// What is told of the server that is followed.
pub fn upstream_of<'a>(feed: &FeedFigures, words: &'a Words, now: u64) -> UpstreamStatus<'a> {
    let waiting_ms = match feed.waiting {
        0 => 0,
        _ => now.saturating_sub(feed.waiting_since),
    };
    let last_failure = match feed.failed {
        Some((_, at)) => Some(last_failure(words, now.saturating_sub(at))),
        None => None,
    };
    let in_place_of = match feed.lack {
        Some((_, since)) => Some(in_place_of(words, now.saturating_sub(since))),
        None => None,
    };
    let failed_by = feed
        .failed_by
        .map(|(reason, count)| failed(words, reason, count));
    UpstreamStatus {
        name: words.name.as_str(),
        index: feed.index,
        in_place_of,
        state: state_of(feed.following),
        since_ms: now.saturating_sub(feed.changed),
        silent_ms: now.saturating_sub(feed.heard),
        failures: feed.failures,
        last_failure,
        failed_by,
        coming_lines: feed.coming_lines,
        coming_bytes: feed.coming_bytes,
        held: feed.is_held,
        stuck: feed.stuck.map(|_| words.stuck.as_str()),
        gives_twice: feed.gives_twice,
        waiting: feed.waiting,
        waiting_ms,
        lacks_tokens: waiting_ms >= LONG_WAIT,
    }
}

/// A copy of a text that may be missing.
fn copy_of(alloc: Global, text: Option<&str>) -> Result<Option<String>, AllocError> {
    match text {
        Some(text) => Ok(Some(String::from_str(alloc, text)?)),
        None => Ok(None),
    }
}

/// How the feed stands at a time, in milliseconds, with this token shown.
#[derive(Clone, Copy)]
pub struct Standing<'f, 't> {
    pub feed: &'f FeedFigures,
    pub token: Option<&'t str>,
    pub now: u64,
}

/// What is told of a server of this number and name.
pub fn server_of(
    alloc: Global,
    number: usize,
    name: &str,
    server: &ServerFigures,
    standing: Standing<'_, '_>,
) -> Result<WatchedServer, AllocError> {
    let Standing { feed, token, now } = standing;
    let is_asked = feed.server == number && feed.following != Following::Away;
    let is_followed = is_asked && feed.following == Following::Answered;
    let token = if is_followed {
        copy_of(alloc, token)?
    } else {
        copy_of(alloc, server.token.as_ref().map(|token| token.text()))?
    };
    let since = if is_asked {
        Some(feed.changed)
    } else {
        server.left
    };
    let (failure, failed) = match server.failed {
        Some((failure, at)) => (format!(in alloc; "{failure}")?, Some(at)),
        None => (String::new(alloc), None),
    };
    Ok(WatchedServer {
        name: String::from_str(alloc, name)?,
        state: is_asked.then_some(state_of(feed.following)),
        for_ms: since.map(|at| now.saturating_sub(at)),
        asked: server.asked,
        status: server.status,
        failures: server.failures,
        failure,
        failure_age_ms: failed.map(|at| now.saturating_sub(at)),
        token,
    })
}

/// What is told of the state file, where there is one.
pub fn file_of<'a>(
    file: Option<FileFigures>,
    words: &'a Words,
    now: u64,
) -> Option<FileStatus<'a>> {
    let file = file?;
    Some(FileStatus {
        bytes: file.bytes,
        age_ms: now.saturating_sub(file.written),
        fault: file.is_failing.then_some(words.fault.as_str()),
        failures: file.failures,
    })
}

/// What is told of one screen.
pub fn screen_of(alloc: Global, row: &ScreenRow, now: u64) -> Result<WatchedScreen, AllocError> {
    let peer = row.peer;
    Ok(WatchedScreen {
        address: format!(in alloc; "{peer}")?,
        for_ms: now.saturating_sub(row.since),
        status: row.status,
        follows: row.follows,
        behind_bytes: row.lacks,
        bytes: row.bytes,
    })
}

/// What is told of all screens.
pub fn screens_of(screens: &ScreenFigures) -> ScreensStatus {
    let totals = screens.totals;
    ScreensStatus {
        open: screens.open as u64,
        asking: screens.asking as u64,
        behind: screens.behind as u64,
        waiting: screens.waiting as u64,
        most: totals.most as u64,
        opened: totals.opened,
        refused: totals.refused,
        refused_by: totals
            .refused_by
            .map(|(status, count)| Refused { status, count }),
        cut: totals.cut,
        bytes: totals.bytes,
        full: screens.are_full,
        resets: totals.resets,
        ended: totals.ended,
    }
}
