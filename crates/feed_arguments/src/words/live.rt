//! The command `live`, as the command line declares it.
ghost use Rattle.std.specs.Prelude.{◌≡◌, ◌++◌, [], Some, map, option_map, slice_get, IfOk};
ghost use Rattle.clap.specs.Words.{app_of};
ghost use Rattle.feed_arguments.specs.Declaring.{needs_by, rule_by};
ghost use Rattle.feed_arguments.specs.Live as live;

use super::declaring::{Declared, PLAIN, Tie, Value, add_section};
use super::line::command;
use super::options::{
    BASE, CHUNKED, CONTEST, FROM, HISTORY, HOST_HEADER, MEMORY, MOST_PORT, STAGED, USER_FILE,
};
use clap::Command;
use std::alloc::{AllocError, Global};

/// How many bytes the commits that are kept have at most where `--memory` is not given.
pub(super) const KEPT_BYTES: usize = 268_435_456;

/// The most screens that may be served at once.
pub(super) const MOST_SCREENS: u64 = 10_000;

/// The most seconds of silence that may be asked for.
pub(super) const MOST_IDLE: u64 = 3_600;

/// The most bytes that a screen may be late.
pub(super) const MOST_WINDOW: u64 = 1_073_741_824;

/// The most bytes of long texts that screens may have yet to take.
pub(super) const MOST_PENDING: u64 = 1_099_511_627_776;

/// The most milliseconds that a feed which was asked for from the start may be quiet before it is
/// shown.
pub(super) const MOST_SETTLE: u64 = 60_000;

/// The most seconds without a publication after which another server is asked.
pub(super) const MOST_RETURN: u64 = 3_600;

/// The most seconds that a request may wait for a server to be heard.
pub(super) const MOST_HOLD: u64 = 3_600;

/// The options that say what is followed.
static UPSTREAM: [Declared; 14] = [
    // What, and as whom.
    Declared {
        required: false,
        tie: Tie::Unless("url"),
        ..CONTEST
    },
    Declared {
        name: "url",
        value: Value::Text("URL"),
        help: "The feed that is followed, as http://10.0.0.5/api/contests/finals: in place of --host, \
              --port, --base and --contest",
        tie: Tie::Replaces("host", &["port", "base", "contest"]),
        ..PLAIN
    },
    Declared {
        name: "host",
        value: Value::Text("H"),
        help: "The address or name of the server that is followed first; \
              without it the feed is read from standard input",
        tie: Tie::Needs("port"),
        ..PLAIN
    },
    Declared {
        name: "port",
        value: Value::Number("P", 1, MOST_PORT),
        help: "The port of the server that is followed first",
        tie: Tie::Needs("host"),
        ..PLAIN
    },
    Declared {
        tie: Tie::Needs("host"),
        ..BASE
    },
    Declared {
        help: "Further servers of the same log with the same tokens, as host:port,host:port, or by URLs \
              as that of --url, of which each is asked where those before fail; never a shadow with \
              event ids of its own",
        ..FROM
    },
    HOST_HEADER,
    USER_FILE,
    // How it is asked for, when it is shown, and until when it is followed.
    Declared {
        name: "settle",
        value: Value::Number("MS", 0, MOST_SETTLE),
        help: "In how many milliseconds no more than 1/64 of a feed that was asked for from the start \
              came before it is shown, 0 to 60000; 0 shows each of its states as it comes",
        default: Some("2000"),
        ..PLAIN
    },
    Declared {
        name: "fresh",
        help: "Ask for everything on each connection, never with since_token: for servers that don't have \
              the same tokens",
        ..PLAIN
    },
    Declared {
        name: "serve-broken",
        help: "Where nothing is shown yet, and what a server sends breaks at one place twice, serve what \
              came up to there: it may be a state that the server never had",
        ..PLAIN
    },
    Declared {
        name: "no-recheck",
        help: "Ask for what comes after the newest commit, and not for that again to see whether the \
              server still has it",
        ..PLAIN
    },
    Declared {
        name: "return",
        value: Value::Number("SECONDS", 0, MOST_RETURN),
        help: "After how many seconds without a commit the other servers are asked in turn, those before \
              it first, 0 to 3600; 0 stays at a server for as long as it answers",
        default: Some("30"),
        ..PLAIN
    },
    Declared {
        name: "until-eof",
        help: "End where standard input ends",
        ..PLAIN
    },
];

/// The options that say to whom it is served.
static SCREENS: [Declared; 9] = [
    // To whom.
    Declared {
        name: "listen",
        value: Value::Text("Q"),
        help: "The port that screens come to, with an address before it or without one, as 8001, \
              0.0.0.0:8001 or [::]:8001; without it there has to be --state",
        tie: Tie::Unless("state"),
        ..PLAIN
    },
    Declared {
        name: "address",
        value: Value::Text("A"),
        help: "The address of this machine that screens come to, as 0.0.0.0 or ::; \
              without it that of --listen, or 127.0.0.1",
        tie: Tie::Needs("listen"),
        ..PLAIN
    },
    Declared {
        name: "screens",
        value: Value::Number("N", 1, MOST_SCREENS),
        help: "How many screens are served at once, 1 to 10000",
        default: Some("1000"),
        ..PLAIN
    },
    Declared {
        name: "allow",
        value: Value::Text("LIST"),
        help: "Who may connect, as addresses and networks, 10.1.0.0/16,2001:db8::/32; \
              without it everybody may",
        ..PLAIN
    },
    Declared {
        name: "per-address",
        value: Value::Number("K", 1, MOST_SCREENS),
        help: "How many screens one address may have at once, 1 to 10000; \
              without it as many as --screens",
        ..PLAIN
    },
    // How.
    Declared {
        name: "idle",
        value: Value::Number("SECONDS", 1, MOST_IDLE),
        help: "After how many seconds without a commit a screen is sent a line feed, 1 to 3600; \
              a server that is silent for twice as long is left",
        default: Some("120"),
        ..PLAIN
    },
    Declared {
        name: "window",
        value: Value::Number("BYTES", 1, MOST_WINDOW),
        help: "How many bytes a screen may be late before it is cut off, 1 to 1073741824",
        default: Some("1048576"),
        ..PLAIN
    },
    Declared {
        name: "pending",
        value: Value::Number("BYTES", 1, MOST_PENDING),
        help: "How many bytes of long texts may wait to be taken by screens before whoever needs \
              another one waits, 1 to 1099511627776",
        default: Some("67108864"),
        ..PLAIN
    },
    CHUNKED,
];

/// The same; the first of them, `--listen Q`, needs no other option.
fn screens() -> &'static [Declared]
    ensures rules { map rule_by result.now ≡ live.listener ++ live.pace }
    ensures alone { option_map (λ d. needs_by d.tie) (slice_get result.now 0) ≡ Some [] }
{
    &SCREENS
}

/// The options that say what is kept.
static STATE: [Declared; 7] = [
    // What, and when that is served.
    Declared {
        name: "state",
        value: Value::Text("FILE"),
        help: "The file that keeps what was published, for the next start",
        ..PLAIN
    },
    Declared {
        name: "new",
        help: "Begin without what FILE has, which is moved to FILE.old",
        tie: Tie::Needs("state"),
        ..PLAIN
    },
    Declared {
        name: "hold",
        value: Value::Number("SECONDS", 0, MOST_HOLD),
        help: "How many seconds a request waits for a server to be heard, after a start with a state, \
              before it is answered 503, 0 to 3600",
        default: Some("10"),
        ..PLAIN
    },
    Declared {
        name: "serve-old",
        help: "Serve the state of the file at once, however old it is, and not only once a server was heard",
        tie: Tie::Needs("state"),
        ..PLAIN
    },
    // The limits of the node that is served.
    Declared {
        default: Some("65536"),
        ..HISTORY
    },
    STAGED,
    MEMORY,
];

/// The options that say where it is watched, and what it reports.
static WATCHING: [Declared; 5] = [
    Declared {
        name: "status",
        value: Value::Text("PORT"),
        help: "A further port, with a page, JSON and metrics on the relay; with an address before it or \
              without one, as that of --listen",
        ..PLAIN
    },
    Declared {
        name: "status-address",
        value: Value::Text("A"),
        help: "The address that port is at; without it that of --address",
        tie: Tie::Needs("status"),
        ..PLAIN
    },
    Declared {
        name: "check",
        help: "Look whether a relay of these options could start: at each server, the files and the ports; \
              print a line for each, and end",
        ..PLAIN
    },
    Declared {
        name: "verbose",
        help: "Report each screen, too",
        tie: Tie::Excludes("quiet"),
        ..PLAIN
    },
    Declared {
        name: "quiet",
        help: "Report nothing but why the command ends",
        ..PLAIN
    },
];

/// `live`.
pub(super) fn live<'a>(alloc: Global) -> Result<Command<'a>, AllocError>
    ensures { IfOk result (λ c. app_of c ≡ live.live) }
{
    let about = "Follows an event feed for ever and serves it to many screens at once";
    let live = command(alloc, "live", about, &[]);
    let live = add_section(alloc, live, "Upstream", &UPSTREAM);
    let live = add_section(alloc, live, "Screens", screens());
    let live = add_section(alloc, live, "State", &STATE);
    add_section(alloc, live, "Watching", &WATCHING)
}
