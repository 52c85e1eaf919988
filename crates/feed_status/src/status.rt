//! What a relay is at one moment. Times are in milliseconds.

use crate::plots::Latest;

/// How many buckets a latency has.
const BUCKETS: usize = 12;

/// Their upper bounds, in microseconds.
pub const BOUNDS: [u64; BUCKETS] = [
    100, 250, 500, 1_000, 2_500, 5_000, 10_000, 25_000, 50_000, 100_000, 250_000, 1_000_000,
];

/// How things stand with the server that is followed.
#[derive(Clone, Copy)]
pub enum UpstreamState {
    /// Its answer is followed.
    Following,
    /// It sends all that it has. Nothing of it is shown until it has settled.
    Settling,
    /// It is asked, and has not answered yet.
    Asking,
    /// It is asked after a pause.
    Pausing,
    /// There is no server: the feed comes on standard input.
    Input,
    /// Standard input has ended, or can't be followed.
    Ended,
}

impl UpstreamState {
    /// The word that JSON and metrics have for it.
    pub(crate) fn word(self) -> &'static str {
        match self {
            UpstreamState::Following => "following",
            UpstreamState::Settling => "settling",
            UpstreamState::Asking => "asking",
            UpstreamState::Pausing => "pausing",
            UpstreamState::Input => "input",
            UpstreamState::Ended => "ended",
        }
    }
}

/// How many reasons there are for which a server can be left.
const REASONS: usize = 10;

/// How many attempts to follow a server failed for a reason.
#[derive(Clone, Copy)]
pub struct FailureCount<'a> {
    /// One word.
    pub reason: &'a str,
    /// How many failed for it since the start.
    pub count: u64,
}

/// The last attempt to follow a server that failed.
#[derive(Clone, Copy)]
pub struct LastFailure<'a> {
    /// Why it did.
    pub text: &'a str,
    /// How long ago.
    pub age_ms: u64,
}

/// The first server, where another one is followed in its place.
#[derive(Clone, Copy)]
pub struct InPlaceOf<'a> {
    /// Its host and port.
    pub name: &'a str,
    /// Why it is not followed.
    pub why: &'a str,
    /// For how long it has not been.
    pub for_ms: u64,
}

/// The server that is followed.
#[derive(Clone, Copy)]
pub struct UpstreamStatus<'a> {
    /// Its host and port, or `standard input`.
    pub name: &'a str,
    /// Its number among those that were named, from 0 for the first one.
    pub index: u64,
    /// The first one, where that is not followed.
    pub in_place_of: Option<InPlaceOf<'a>>,
    /// How things stand with it.
    pub state: UpstreamState,
    /// For how long that is its state.
    pub since_ms: u64,
    /// For how long nothing came.
    pub silent_ms: u64,
    /// How many attempts failed since the last one that was answered.
    pub failures: u64,
    /// Of all servers since the start.
    pub last_failure: Option<LastFailure<'a>>,
    /// How many attempts failed since the start, reason by reason.
    pub failed_by: [FailureCount<'a>; REASONS],
    /// How many lines came on its connection that are not shown yet; 0 unless it settles.
    pub coming_lines: u64,
    /// How many bytes came on its connection that are not shown yet; 0 unless it settles.
    pub coming_bytes: u64,
    /// Whether that is held back, since it is smaller than what is shown.
    pub held: bool,
    /// Where all that it sends breaks each time, if it does: what is shown stays until somebody
    /// mends that.
    pub stuck: Option<&'a str>,
    /// Whether it gave one token to two states on its connection.
    pub gives_twice: bool,
    /// How many changes came since the last token on its connection.
    pub waiting: u64,
    /// For how long the first of them has waited for a token.
    pub waiting_ms: u64,
    /// Whether that is so long that there may be no tokens: an older format of the feed has none.
    pub lacks_tokens: bool,
}

/// How many statuses a request can be refused with.
const REFUSALS: usize = 5;

/// How many requests were answered with a status.
#[derive(Clone, Copy)]
pub struct Refused {
    /// The status, such as 503.
    pub status: u16,
    /// How many requests since the start.
    pub count: u64,
}

/// The connections on the feed's port.
#[derive(Clone, Copy)]
pub struct ScreensStatus {
    /// How many are open.
    pub open: u64,
    /// Of those open: whose request is not whole or not answered yet.
    pub asking: u64,
    /// Of those open: who lacks bytes of what was published.
    pub behind: u64,
    /// Of those open: who waits until screens have taken some of their long texts.
    pub waiting: u64,
    /// The most that were open at once.
    pub most: u64,
    /// How many were opened since the start.
    pub opened: u64,
    /// How many were answered with a status other than 200.
    pub refused: u64,
    /// The same, status by status.
    pub refused_by: [Refused; REFUSALS],
    /// How many were cut, since they were too slow.
    pub cut: u64,
    /// How many bytes they were handed since the start.
    pub bytes: u64,
    /// Whether one more would be answered 503, since there are as many as there may be.
    pub full: bool,
    /// How often what was shown was published afresh.
    pub resets: u64,
    /// How many bodies were ended for that.
    pub ended: u64,
}

/// The state file.
#[derive(Clone, Copy)]
pub struct FileStatus<'a> {
    /// How many bytes it has.
    pub bytes: u64,
    /// How long ago it was written to.
    pub age_ms: u64,
    /// Why it could not be written the last time, where it could not.
    pub fault: Option<&'a str>,
    /// How often it could not be written.
    pub failures: u64,
}

/// How long it took from the read that had the end of a commit until it was written to each screen
/// that was up to date and took it.
#[derive(Clone, Copy)]
pub struct Latency {
    /// How many commits took at most the time of each of the bounds.
    pub at_most: [u64; BUCKETS],
    /// How many commits were measured.
    pub commits: u64,
    /// The sum of their times, in microseconds.
    pub sum_us: u64,
}

impl Latency {
    /// No commit was measured.
    pub fn none() -> Latency {
        Latency {
            at_most: [0; BUCKETS],
            commits: 0,
            sum_us: 0,
        }
    }

    /// So many commits took so long each, in microseconds.
    pub fn add(&mut self, commits: u64, time: u64) {
        self.commits = self.commits.saturating_add(commits);
        self.sum_us = self.sum_us.saturating_add(time.saturating_mul(commits));
        for (at, bound) in BOUNDS.iter().enumerate() {
            if time <= *bound {
                self.at_most[at] = self.at_most[at].saturating_add(commits);
            }
        }
    }
}

/// All that is told of a relay.
#[derive(Clone, Copy)]
pub struct Status<'a> {
    /// The version of the program.
    pub version: &'a str,
    /// The id of the contest.
    pub contest: &'a str,
    /// For how long the relay has run, in milliseconds.
    pub uptime_ms: u64,
    /// After how long without a byte a server is silent, in milliseconds.
    pub silence_ms: u64,
    /// Whether a request for everything is answered with it: not before a server was heard.
    pub answering: bool,
    /// The server that is followed.
    pub upstream: UpstreamStatus<'a>,
    /// The token that is published; none if nothing is.
    pub token: Option<&'a str>,
    /// How many commits were published since the start.
    pub commits: u64,
    /// How long ago the last one was.
    pub commit_age_ms: Option<u64>,
    /// How many types are published. One with one object and no collection counts here alone.
    pub types: u64,
    /// How many objects their collections have.
    pub objects: u64,
    /// How many bytes came from upstream.
    pub bytes: u64,
    /// How many connections were closed at once, since their address may not connect, or not once
    /// more.
    pub refused_by_address: u64,
    /// The connections on the feed's port.
    pub screens: ScreensStatus,
    /// The state file; none if nothing is kept.
    pub state_file: Option<FileStatus<'a>>,
    /// How long commits took.
    pub latency: Latency,
    /// The last second of the plots.
    pub plot: Latest,
}
