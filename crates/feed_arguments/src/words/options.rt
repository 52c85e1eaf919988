//! The options that several commands have.
use super::declaring::{Declared, PLAIN, Value};
use feed_settings::{MOST_CHANGES, MOST_COMMITS, MOST_MEMORY};

/// The greatest number of a port.
pub(crate) const MOST_PORT: u64 = 65_535;

/// The greatest number of connections, rounds, reads and batches that may be asked for, and of
/// seconds that servers are compared for.
pub(crate) const MOST_ROUNDS: u64 = 1_000_000;

/// The most seconds of silence that may be asked for.
pub(crate) const MOST_SILENCE: u64 = 3_600;

/// `--history N`.
pub(super) const HISTORY: Declared = Declared {
    name: "history",
    value: Value::Number("N", 1, MOST_COMMITS as u64),
    help: "How many commits are kept, 1 to 65536",
    default: Some("1000"),
    ..PLAIN
};

/// `--staged N`.
pub(super) const STAGED: Declared = Declared {
    name: "staged",
    value: Value::Number("N", 1, MOST_CHANGES as u64),
    help: "How many changes may wait for a token, and the greatest size of the tables, 1 to 1000000",
    default: Some("1000000"),
    ..PLAIN
};

/// `--memory BYTES`.
pub(super) const MEMORY: Declared = Declared {
    name: "memory",
    value: Value::Number("BYTES", 1, MOST_MEMORY as u64),
    help: "How many bytes the objects may have that wait for a token, and those of the tables, \
        1 to 1000000000000",
    ..PLAIN
};

/// `--verbose`; what it does differs by command.
pub(super) const VERBOSE: Declared = Declared {
    name: "verbose",
    ..PLAIN
};

/// `--port P`; what it is the port of differs by command.
pub(super) const PORT: Declared = Declared {
    name: "port",
    value: Value::Number("P", 1, MOST_PORT),
    required: true,
    ..PLAIN
};

/// `--contest C`.
pub(super) const CONTEST: Declared = Declared {
    name: "contest",
    value: Value::Text("C"),
    help: "The id of the contest, as the path of its feed has it",
    required: true,
    ..PLAIN
};

/// `--count N`.
pub(super) const COUNT: Declared = Declared {
    name: "count",
    value: Value::Number("N", 1, MOST_ROUNDS),
    help: "How many connections are served, 1 to 1000000",
    required: true,
    ..PLAIN
};

/// `--chunked`.
pub(super) const CHUNKED: Declared = Declared {
    name: "chunked",
    help: "Send chunks, to readers of HTTP/1.1",
    ..PLAIN
};

/// `--from LIST`.
pub(super) const FROM: Declared = Declared {
    name: "from",
    value: Value::Text("LIST"),
    help: "Further servers of the same log with the same tokens, as host:port,host:port, of which \
        each is asked where those before fail; never a shadow with event ids of its own",
    ..PLAIN
};

/// `--base B`.
pub(super) const BASE: Declared = Declared {
    name: "base",
    value: Value::Text("B"),
    help: "What stands before /contests in the path of the feed, as /api",
    default: Some(""),
    ..PLAIN
};

/// `--host-header NAME`.
pub(super) const HOST_HEADER: Declared = Declared {
    name: "host-header",
    value: Value::Text("NAME"),
    help: "What requests call the server, for one that is reached through a proxy; \
        without it that is its host",
    ..PLAIN
};

/// `--user-file FILE`.
pub(super) const USER_FILE: Declared = Declared {
    name: "user-file",
    value: Value::Text("FILE"),
    help: "A file with a line NAME:PASSWORD for the server, which nobody else may read",
    ..PLAIN
};

/// `--at-time TIME`.
pub(super) const AT_TIME: Declared = Declared {
    name: "at-time",
    value: Value::Text("TIME"),
    help: "Print the tables at the last token that came by then, as 2026-12-01T15:03:00Z, by the file of \
           --times",
    ..PLAIN
};

/// `--times FILE`; whose times these are differs by command.
pub(super) const TIMES: Declared = Declared {
    name: "times",
    value: Value::Text("FILE"),
    ..PLAIN
};
