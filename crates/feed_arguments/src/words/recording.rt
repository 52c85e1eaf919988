//! The commands `record` and `replay`, as the command line declares them.
ghost use Rattle.std.specs.Prelude.{◌≡◌, IfOk};
ghost use Rattle.clap.specs.Words.{app_of};
ghost use Rattle.feed_arguments.specs.Recording as recording;

use super::declaring::{Declared, PLAIN, Value};
use super::line::command;
use super::options::{BASE, CONTEST, HOST_HEADER, MOST_PORT, TIMES, USER_FILE, VERBOSE};
use clap::Command;
use std::alloc::{AllocError, Global};

/// How many times as fast as it happened a record may be replayed.
pub(super) const MOST_SPEED: u64 = 1_000_000;

/// `--file FILE`; what it has differs by command.
const FILE: Declared = Declared {
    name: "file",
    value: Value::Text("FILE"),
    required: true,
    ..PLAIN
};

/// The options of `record`.
static RECORD: [Declared; 10] = [
    // What is followed, and as whom.
    Declared {
        name: "url",
        value: Value::Text("URL"),
        help: "The feed that is recorded, as http://10.0.0.5/api/contests/finals: in place of --host, \
               --port, --base and --contest",
        ..PLAIN
    },
    Declared {
        name: "host",
        value: Value::Text("H"),
        help: "The address or name of the server that is recorded",
        ..PLAIN
    },
    Declared {
        name: "port",
        value: Value::Number("P", 1, MOST_PORT),
        help: "The port of the server that is recorded",
        ..PLAIN
    },
    BASE,
    Declared {
        required: false,
        ..CONTEST
    },
    HOST_HEADER,
    USER_FILE,
    // Where that is kept, and how.
    Declared {
        help: "The file that is written; FILE.times has the time at which each token came, and a new log \
               of the server begins FILE.2",
        ..FILE
    },
    Declared {
        name: "no-recheck",
        help: "Ask for what comes after the newest commit, and not for that again to see whether the \
               server still has it",
        ..PLAIN
    },
    Declared {
        help: "Report each connection, too",
        ..VERBOSE
    },
];

/// `record`.
pub(super) fn record<'a>(alloc: Global) -> Result<Command<'a>, AllocError>
    ensures { IfOk result (λ c. app_of c ≡ recording.record_command) }
{
    let about =
        "Keeps what a server's event feed has in a file, as one connection, however often it is cut";
    command(alloc, "record", about, &RECORD)
}

/// The options of `replay`.
static REPLAY: [Declared; 7] = [
    // What is served, and when.
    Declared {
        help: "The file with the feed, as `record` writes it",
        ..FILE
    },
    Declared {
        help: "The file that `record` wrote beside it, as primary.ndjson.times; without it commits are due \
               at the times that their objects name",
        ..TIMES
    },
    Declared {
        name: "speed",
        value: Value::Number("N", 1, MOST_SPEED),
        help: "How many times as fast as it happened, 1 to 1000000",
        default: Some("1"),
        ..PLAIN
    },
    Declared {
        name: "from",
        value: Value::Text("TIME"),
        help: "Serve at once what happened before this time, as 2026-12-01T15:03:00Z; without it the \
               first commit alone",
        ..PLAIN
    },
    // Where.
    CONTEST,
    Declared {
        name: "listen",
        value: Value::Text("Q"),
        help: "The port that screens come to, with an address before it or without one, as 8001 or \
               0.0.0.0:8001",
        required: true,
        ..PLAIN
    },
    Declared {
        help: "Report each screen, too",
        ..VERBOSE
    },
];

/// `replay`.
pub(super) fn replay<'a>(alloc: Global) -> Result<Command<'a>, AllocError>
    ensures { IfOk result (λ c. app_of c ≡ recording.replay_command) }
{
    let about =
        "Serves a recorded event feed to many screens as it happened, or faster: for rehearsals";
    command(alloc, "replay", about, &REPLAY)
}
