//! The metrics, in the text format of Prometheus (version 0.0.4). Those that have one value and no
//! labels stand in tables, each with its numbers in the same order. The others are written as they
//! stand.

use crate::families::{Escaped, Family, Unit, Value, put_all, put_metric};
use crate::servers::{WatchedServer, put_statuses};
use crate::status::{
    BOUNDS, FailureCount, FileStatus, Latency, Refused, ScreensStatus, Status, UpstreamState,
    UpstreamStatus,
};
use crate::watch::Process;
use std::fmt;

/// How long the relay has run, and what came.
static RELAY: [Family; 3] = [
    Family {
        name: "tunygarop_uptime_seconds",
        kind: "gauge",
        unit: Unit::Milliseconds,
        help: "How long the relay has run.",
    },
    Family {
        name: "tunygarop_commits_total",
        kind: "counter",
        unit: Unit::Things,
        help: "Commits that were published.",
    },
    Family {
        name: "tunygarop_upstream_bytes_total",
        kind: "counter",
        unit: Unit::Things,
        help: "Bytes that came.",
    },
];

fn of_relay(status: &Status<'_>) -> [u64; 3] {
    [status.uptime_ms, status.commits, status.bytes]
}

static COMMIT: Family = Family {
    name: "tunygarop_last_commit_age_seconds",
    kind: "gauge",
    unit: Unit::Milliseconds,
    help: "Time since a commit.",
};

/// How much is shown.
static SHOWN: [Family; 2] = [
    Family {
        name: "tunygarop_types",
        kind: "gauge",
        unit: Unit::Things,
        help: "Types that are published.",
    },
    Family {
        name: "tunygarop_objects",
        kind: "gauge",
        unit: Unit::Things,
        help: "Objects of their collections.",
    },
];

/// The server, and what comes of it.
static UPSTREAM: [Family; 9] = [
    Family {
        name: "tunygarop_upstream_state_seconds",
        kind: "gauge",
        unit: Unit::Milliseconds,
        help: "Time in this state.",
    },
    Family {
        name: "tunygarop_healthy",
        kind: "gauge",
        unit: Unit::Things,
        help: "1 where /health answers 200.",
    },
    Family {
        name: "tunygarop_following",
        kind: "gauge",
        unit: Unit::Things,
        help: "1 while what comes is shown.",
    },
    Family {
        name: "tunygarop_upstream_silent_seconds",
        kind: "gauge",
        unit: Unit::Milliseconds,
        help: "Time without a byte.",
    },
    Family {
        name: "tunygarop_upstream_failures",
        kind: "gauge",
        unit: Unit::Things,
        help: "Attempts failed in a row.",
    },
    Family {
        name: "tunygarop_upstream_coming_lines",
        kind: "gauge",
        unit: Unit::Things,
        help: "Lines not shown until they settle.",
    },
    Family {
        name: "tunygarop_upstream_coming_bytes",
        kind: "gauge",
        unit: Unit::Things,
        help: "Bytes not shown until they settle.",
    },
    Family {
        name: "tunygarop_upstream_index",
        kind: "gauge",
        unit: Unit::Things,
        help: "0 where the first server is asked.",
    },
    Family {
        name: "tunygarop_upstream_in_place_seconds",
        kind: "gauge",
        unit: Unit::Milliseconds,
        help: "Time without the first server.",
    },
];

fn of_upstream(status: &Status<'_>) -> [u64; 9] {
    let upstream = &status.upstream;
    let follows = matches!(
        upstream.state,
        UpstreamState::Following | UpstreamState::Input
    );
    [
        upstream.since_ms,
        u64::from(status.is_healthy()),
        u64::from(follows),
        upstream.silent_ms,
        upstream.failures,
        upstream.coming_lines,
        upstream.coming_bytes,
        upstream.index,
        upstream.in_place_of.map(|first| first.for_ms).unwrap_or(0),
    ]
}

/// What waits for a token.
static WAITING: [Family; 2] = [
    Family {
        name: "tunygarop_upstream_waiting_changes",
        kind: "gauge",
        unit: Unit::Things,
        help: "Changes that wait for a token.",
    },
    Family {
        name: "tunygarop_upstream_waiting_seconds",
        kind: "gauge",
        unit: Unit::Milliseconds,
        help: "How long the first of them waits.",
    },
];

/// The connections on the feed's port.
static SCREENS: [Family; 8] = [
    Family {
        name: "tunygarop_screens",
        kind: "gauge",
        unit: Unit::Things,
        help: "Open connections.",
    },
    Family {
        name: "tunygarop_screens_asking",
        kind: "gauge",
        unit: Unit::Things,
        help: "Those not answered yet.",
    },
    Family {
        name: "tunygarop_screens_behind",
        kind: "gauge",
        unit: Unit::Things,
        help: "Those that lack bytes.",
    },
    Family {
        name: "tunygarop_screens_waiting",
        kind: "gauge",
        unit: Unit::Things,
        help: "Who wait for room.",
    },
    Family {
        name: "tunygarop_screens_most",
        kind: "gauge",
        unit: Unit::Things,
        help: "The most at once.",
    },
    Family {
        name: "tunygarop_screens_opened_total",
        kind: "counter",
        unit: Unit::Things,
        help: "Connections taken.",
    },
    Family {
        name: "tunygarop_screens_cut_total",
        kind: "counter",
        unit: Unit::Things,
        help: "Slow screens cut.",
    },
    Family {
        name: "tunygarop_screens_bytes_total",
        kind: "counter",
        unit: Unit::Things,
        help: "Bytes sent to screens.",
    },
];

fn of_screens(screens: &ScreensStatus) -> [u64; 8] {
    [
        screens.open,
        screens.asking,
        screens.behind,
        screens.waiting,
        screens.most,
        screens.opened,
        screens.cut,
        screens.bytes,
    ]
}

/// What was closed, and what was published afresh.
static ENDS: [Family; 3] = [
    Family {
        name: "tunygarop_refused_by_address_total",
        kind: "counter",
        unit: Unit::Things,
        help: "Connections closed for their address.",
    },
    Family {
        name: "tunygarop_resets_total",
        kind: "counter",
        unit: Unit::Things,
        help: "Publications afresh.",
    },
    Family {
        name: "tunygarop_bodies_ended_total",
        kind: "counter",
        unit: Unit::Things,
        help: "Bodies that those ended.",
    },
];

fn of_ends(status: &Status<'_>) -> [u64; 3] {
    [
        status.refused_by_address,
        status.screens.resets,
        status.screens.ended,
    ]
}

/// The state file.
static FILE: [Family; 4] = [
    Family {
        name: "tunygarop_state_file_failing",
        kind: "gauge",
        unit: Unit::Things,
        help: "1 where it can't be written.",
    },
    Family {
        name: "tunygarop_state_file_failures_total",
        kind: "counter",
        unit: Unit::Things,
        help: "Failed writes.",
    },
    Family {
        name: "tunygarop_state_file_bytes",
        kind: "gauge",
        unit: Unit::Things,
        help: "Bytes of the state file.",
    },
    Family {
        name: "tunygarop_state_file_age_seconds",
        kind: "gauge",
        unit: Unit::Milliseconds,
        help: "Time since it was written.",
    },
];

fn of_file(file: &FileStatus<'_>) -> [u64; 4] {
    [
        u64::from(file.fault.is_some()),
        file.failures,
        file.bytes,
        file.age_ms,
    ]
}

/// What the system counts of the process, by the names that Prometheus has for it.
static PROCESS: [Family; 4] = [
    Family {
        name: "process_start_time_seconds",
        kind: "gauge",
        unit: Unit::Milliseconds,
        help: "When it began, after 1970.",
    },
    Family {
        name: "process_cpu_seconds_total",
        kind: "counter",
        unit: Unit::Milliseconds,
        help: "Time that it had a processor.",
    },
    Family {
        name: "process_resident_memory_bytes",
        kind: "gauge",
        unit: Unit::Things,
        help: "Memory that it has.",
    },
    Family {
        name: "process_open_fds",
        kind: "gauge",
        unit: Unit::Things,
        help: "Files and sockets that it has open.",
    },
];

fn of_process(process: &Process) -> [u64; 4] {
    [
        process.began_ms,
        process.processor_ms,
        process.resident_bytes,
        process.open_files,
    ]
}

/// Appends the program and its contest.
fn put_info<W: fmt::Write>(status: &Status<'_>, f: &mut fmt::Formatter<W>) -> fmt::Result {
    let (version, contest) = (Escaped(status.version), Escaped(status.contest));
    write!(
        f,
        "# HELP tunygarop_build_info The version of the program.\n\
         # TYPE tunygarop_build_info gauge\n\
         tunygarop_build_info{{version=\"{version}\"}} 1\n\
         # HELP tunygarop_info The version and the contest.\n\
         # TYPE tunygarop_info gauge\n\
         tunygarop_info{{version=\"{version}\",contest=\"{contest}\"}} 1\n"
    )
}

/// Appends when the last commit came, where one did.
fn put_commit<W: fmt::Write>(age: Option<u64>, f: &mut fmt::Formatter<W>) -> fmt::Result {
    match age {
        Some(age) => put_metric(&COMMIT, age, f),
        None => Ok(()),
    }
}

/// Appends the server, and its state.
fn put_server<W: fmt::Write>(
    upstream: &UpstreamStatus<'_>,
    f: &mut fmt::Formatter<W>,
) -> fmt::Result {
    let (name, state) = (Escaped(upstream.name), upstream.state.word());
    write!(
        f,
        "# HELP tunygarop_upstream_info The server, and its state.\n\
         # TYPE tunygarop_upstream_info gauge\n\
         tunygarop_upstream_info{{name=\"{name}\",state=\"{state}\"}} 1\n"
    )
}

/// Appends why attempts to follow a server failed.
fn put_failures<W: fmt::Write>(
    failed_by: &[FailureCount<'_>],
    f: &mut fmt::Formatter<W>,
) -> fmt::Result {
    f.write_str(
        "# HELP tunygarop_upstream_failures_total Attempts to follow that failed, by reason.\n\
         # TYPE tunygarop_upstream_failures_total counter\n",
    )?;
    for failed in failed_by {
        let (reason, count) = (Escaped(failed.reason), failed.count);
        write!(
            f,
            "tunygarop_upstream_failures_total{{reason=\"{reason}\"}} {count}\n"
        )?;
    }
    Ok(())
}

/// Appends how much is shown, the server that it is from, and what else comes of it.
fn put_upstream<W: fmt::Write>(status: &Status<'_>, f: &mut fmt::Formatter<W>) -> fmt::Result {
    let upstream = &status.upstream;
    put_all(&SHOWN, &[status.types, status.objects], f)?;
    put_server(upstream, f)?;
    put_all(&UPSTREAM, &of_upstream(status), f)?;
    put_failures(&upstream.failed_by, f)?;
    put_all(&WAITING, &[upstream.waiting, upstream.waiting_ms], f)
}

/// Appends with which statuses requests were refused.
fn put_refusals<W: fmt::Write>(refused_by: &[Refused], f: &mut fmt::Formatter<W>) -> fmt::Result {
    f.write_str(
        "# HELP tunygarop_screens_refused_total Requests refused, by the status of the answer.\n\
         # TYPE tunygarop_screens_refused_total counter\n",
    )?;
    for Refused { status, count } in refused_by {
        write!(
            f,
            "tunygarop_screens_refused_total{{status=\"{status}\"}} {count}\n"
        )?;
    }
    Ok(())
}

/// Appends the connections on the feed's port, and what was closed.
fn put_screens<W: fmt::Write>(status: &Status<'_>, f: &mut fmt::Formatter<W>) -> fmt::Result {
    put_all(&SCREENS, &of_screens(&status.screens), f)?;
    put_refusals(&status.screens.refused_by, f)?;
    put_all(&ENDS, &of_ends(status), f)
}

/// Appends what is known of the state file, where there is one.
fn put_file<W: fmt::Write>(
    file: &Option<FileStatus<'_>>,
    f: &mut fmt::Formatter<W>,
) -> fmt::Result {
    match file {
        Some(file) => put_all(&FILE, &of_file(file), f),
        None => Ok(()),
    }
}

/// Appends what is known of the process, where something is.
fn put_process<W: fmt::Write>(process: &Option<Process>, f: &mut fmt::Formatter<W>) -> fmt::Result {
    match process {
        Some(process) => put_all(&PROCESS, &of_process(process), f),
        None => Ok(()),
    }
}

/// Appends how many commits took at most the time of each of the bounds.
fn put_buckets<W: fmt::Write>(latency: &Latency, f: &mut fmt::Formatter<W>) -> fmt::Result {
    for (at, bound) in BOUNDS.iter().enumerate() {
        let (time, count) = (Value(*bound, Unit::Microseconds), latency.at_most[at]);
        write!(
            f,
            "tunygarop_latency_seconds_bucket{{le=\"{time}\"}} {count}\n"
        )?;
    }
    Ok(())
}

/// Appends how long commits took.
fn put_latency<W: fmt::Write>(latency: &Latency, f: &mut fmt::Formatter<W>) -> fmt::Result {
    f.write_str(
        "# HELP tunygarop_latency_seconds From a commit's end to its last write.\n\
         # TYPE tunygarop_latency_seconds histogram\n",
    )?;
    put_buckets(latency, f)?;
    let (sum, commits) = (Value(latency.sum_us, Unit::Microseconds), latency.commits);
    write!(
        f,
        "tunygarop_latency_seconds_bucket{{le=\"+Inf\"}} {commits}\n\
         tunygarop_latency_seconds_sum {sum}\n\
         tunygarop_latency_seconds_count {commits}\n"
    )
}

/// All metrics of a relay, of its servers, and of its process where something is known of that.
#[derive(Clone, Copy)]
pub(crate) struct Metrics<'a, 's>(
    pub(crate) &'a Status<'a>,
    pub(crate) &'s [WatchedServer],
    pub(crate) Option<Process>,
);

impl fmt::Display for Metrics<'_, '_> {
    fn fmt<W: fmt::Write>(&self, f: &mut fmt::Formatter<W>) -> fmt::Result {
        let status = self.0;
        put_info(status, f)?;
        put_all(&RELAY, &of_relay(status), f)?;
        put_commit(status.commit_age_ms, f)?;
        put_upstream(status, f)?;
        put_statuses(self.1, f)?;
        put_screens(status, f)?;
        put_file(&status.state_file, f)?;
        put_process(&self.2, f)?;
        put_latency(&status.latency, f)
    }
}
