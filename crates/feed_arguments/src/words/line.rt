//! The commands, as the command line declares them.
ghost use Rattle.std.specs.Prelude.{◌≡◌, List, map, true, IfOk};
ghost use Rattle.clap.specs.Words.{App, Rule, app_of, new_app, with_subcommand};
ghost use Rattle.feed_arguments.specs.Declaring.{rule_by};
ghost use Rattle.feed_arguments.specs.Options.{with_rules};
ghost use Rattle.feed_arguments.specs.Words as words;

use super::declaring::{Declared, PLAIN, Value, add_options};
use super::live::live;
use super::options::{
    AT_TIME, BASE, CHUNKED, CONTEST, COUNT, FROM, HISTORY, HOST_HEADER, MEMORY, MOST_PORT,
    MOST_ROUNDS, MOST_SILENCE, PORT, STAGED, TIMES, USER_FILE, VERBOSE,
};
use super::probe::probe;
use super::recording::{record, replay};
use super::{PROGRAM, VERSION};
use clap::Command;
use feed_settings::MOST_COMMITS;
use std::alloc::{AllocError, Global};

/// How the program is mostly called.
pub(super) const USUAL_CALLS: &str = "\
Usual calls:
  tunygarop live --contest finals --host 10.0.0.5 --port 80 \\
      --listen 8001 --address 0.0.0.0 --state finals.state
        relays a server's feed to screens on any machine, and keeps it in a file
  tunygarop live --contest finals --host 10.0.0.6 --port 8001 --state screen.state
        is a screen: keeps a file up to date, which the next call reads
  tunygarop tables < screen.state
        prints the tables of such a file, or of a feed";

/// `--verbose` of a command that opens connections.
const CONNECTIONS: Declared = Declared {
    help: "Report each connection, too",
    ..VERBOSE
};

/// A command of this name, with these options.
pub(super) fn command<'a>(
    alloc: Global,
    name: &'a str,
    about: &'a str,
    options: &[Declared],
) -> Result<Command<'a>, AllocError>
    ensures { (rules : List Rule) → map rule_by options.now ≡ rules
        → IfOk result (λ c. app_of c ≡ with_rules (new_app name.entry.now) rules) }
{
    add_options(alloc, Ok(Command::new(alloc, name).about(about)), options)
}

/// The options of `tables`.
static TABLES: [Declared; 7] = [
    HISTORY,
    STAGED,
    MEMORY,
    Declared {
        name: "at",
        value: Value::Text("TOKEN"),
        help: "Print the tables at the first line that publishes under this token",
        ..PLAIN
    },
    AT_TIME,
    Declared {
        help: "The file that `record` wrote beside the feed, as primary.ndjson.times: it goes with --at-time",
        ..TIMES
    },
    Declared {
        help: "Tell the number of the faulty line, too",
        ..VERBOSE
    },
];

/// `tables`.
fn tables<'a>(alloc: Global) -> Result<Command<'a>, AllocError>
    ensures { IfOk result (λ c. app_of c ≡ words.tables) }
{
    let about = "Prints the tables that the event feed on standard input has published";
    command(alloc, "tables", about, &TABLES)
}

/// The options of `check`.
static CHECK: [Declared; 2] = [
    Declared {
        name: "stream",
        help: "Read piece by piece, so that the feed may have any length",
        ..PLAIN
    },
    Declared {
        help: "Count what servers get wrong, too: tokens that come again, and more",
        ..VERBOSE
    },
];

/// `check`.
fn check<'a>(alloc: Global) -> Result<Command<'a>, AllocError>
    ensures { IfOk result (λ c. app_of c ≡ words.check) }
{
    let about =
        "Counts the lines of the event feed on standard input, or names the first that can't be read";
    command(alloc, "check", about, &CHECK)
}

/// The options of `audit`.
static AUDIT: [Declared; 11] = [
    // Which records are compared.
    Declared {
        name: "primary",
        value: Value::Text("FILE"),
        help: "The file with the primary's record: its feed, as one connection carried it; \
             - for standard input",
        ..PLAIN
    },
    Declared {
        name: "screen",
        value: Value::Text("FILE"),
        help: "The file with the screen's record; without it, and with -, that is on standard input",
        ..PLAIN
    },
    // Which servers are compared.
    Declared {
        name: "of",
        value: Value::Text("HOST:PORT"),
        help: "In place of records: the server that is compared with another one",
        ..PLAIN
    },
    Declared {
        name: "against",
        value: Value::Text("HOST:PORT"),
        help: "The server that it is compared with",
        ..PLAIN
    },
    Declared {
        name: "contest",
        value: Value::Text("C"),
        help: "The id of the contest, as the path of its feeds has it",
        ..PLAIN
    },
    Declared {
        name: "for",
        value: Value::Number("SECONDS", 1, MOST_ROUNDS),
        help: "After how many seconds the comparison ends, 1 to 1000000; without it there is no such time",
        ..PLAIN
    },
    // What is printed.
    Declared {
        name: "json",
        help: "Print one line of JSON",
        ..PLAIN
    },
    Declared {
        help: "Print objects that differ whole, however long they are",
        ..VERBOSE
    },
    // The limits.
    HISTORY,
    STAGED,
    MEMORY,
];

/// `audit`.
fn audit<'a>(alloc: Global) -> Result<Command<'a>, AllocError>
    ensures { IfOk result (λ c. app_of c ≡ words.audit) }
{
    let about =
        "Tells whether each state of a screen's record is one of the primary's, or compares two \
        servers";
    command(alloc, "audit", about, &AUDIT)
}

/// The options of `serve`.
static SERVE: [Declared; 10] = [
    Declared {
        help: "The port of 127.0.0.1 that the feed is served at",
        ..PORT
    },
    CONTEST,
    COUNT,
    Declared {
        name: "turn",
        value: Value::Number("K", 1, MOST_ROUNDS),
        help: "How many batches are committed each time that a reader is up to date, 1 to 1000000; \
              without it all are committed first",
        ..PLAIN
    },
    CHUNKED,
    Declared {
        name: "back",
        value: Value::Number("B", 0, MOST_COMMITS as u64),
        help: "How many commits before a reader's token its feed begins, 0 to 65536",
        default: Some("0"),
        ..PLAIN
    },
    CONNECTIONS,
    HISTORY,
    STAGED,
    MEMORY,
];

/// `serve`.
fn serve<'a>(alloc: Global) -> Result<Command<'a>, AllocError>
    ensures { IfOk result (λ c. app_of c ≡ words.serve) }
{
    let about = "Serves the event feed on standard input at a port of 127.0.0.1, as a primary";
    command(alloc, "serve", about, &SERVE)
}

/// The options of `pull`, which `relay` has, too.
static PULL: [Declared; 14] = [
    // What is followed.
    Declared {
        name: "host",
        value: Value::Text("H"),
        help: "The address or name of the server that is followed",
        required: true,
        ..PLAIN
    },
    Declared {
        help: "The port of the server that is followed",
        ..PORT
    },
    FROM,
    CONTEST,
    // As whom, and how far.
    BASE,
    HOST_HEADER,
    USER_FILE,
    Declared {
        name: "turns",
        value: Value::Number("T", 1, MOST_ROUNDS),
        help: "The most reads of one connection, 1 to 1000000",
        default: Some("1000000"),
        ..PLAIN
    },
    Declared {
        name: "silence",
        value: Value::Number("SECONDS", 1, MOST_SILENCE),
        help: "After how many seconds without a connection or a byte a server is left, 1 to 3600; \
              without it there is no such time",
        ..PLAIN
    },
    // From where, and what is told.
    Declared {
        name: "resume",
        help: "Begin from the tables on standard input, as this command prints them",
        ..PLAIN
    },
    CONNECTIONS,
    // The limits.
    HISTORY,
    STAGED,
    MEMORY,
];

/// `pull`.
fn pull<'a>(alloc: Global) -> Result<Command<'a>, AllocError>
    ensures { IfOk result (λ c. app_of c ≡ words.pull) }
{
    let about =
        "Follows a server's event feed on one connection, and prints the tables that it has published";
    command(alloc, "pull", about, &PULL)
}

/// The further options of `relay`.
static RELAY: [Declared; 3] = [
    Declared {
        name: "listen",
        value: Value::Number("Q", 1, MOST_PORT),
        help: "The port of 127.0.0.1 that the feed is served at",
        required: true,
        ..PLAIN
    },
    COUNT,
    CHUNKED,
];

/// `relay`.
fn relay<'a>(alloc: Global) -> Result<Command<'a>, AllocError>
    ensures { IfOk result (λ c. app_of c ≡ words.relay) }
{
    let about =
        "Follows a server's event feed and serves it at a port of 127.0.0.1, in turns, and prints \
        the tables at the end";
    add_options(alloc, command(alloc, "relay", about, &PULL), &RELAY)
}

/// A command with one more command below it; none where there was none of the two.
fn with_command<'a>(
    above: Result<Command<'a>, AllocError>,
    below: Result<Command<'a>, AllocError>,
) -> Result<Command<'a>, AllocError>
    ensures { (app : App) → (sub : App) → IfOk above.entry (λ c. app_of c ≡ app)
        → IfOk below.entry (λ c. app_of c ≡ sub) → sub.top.is_plain ≡ true
        → IfOk result (λ c. app_of c ≡ with_subcommand app sub.top) }
{
    // The one that is left is dropped by a call, for the same reason as in `parse`.
    let Ok(below) = below else {
        drop(above);
        return Err(AllocError);
    };
    let Ok(above) = above else {
        drop(below);
        return Err(AllocError);
    };
    above.subcommand(below)
}

/// The program, without its commands.
fn program<'a>(alloc: Global) -> Command<'a>
    ensures { app_of result ≡ words.program }
{
    Command::new(alloc, PROGRAM)
        .about("Mirrors the event feed of a programming contest (CLICS Contest API 2023-06)")
        .version(VERSION)
        .after_help(USUAL_CALLS)
        .subcommand_required(true)
}

/// The program, with the commands that open no connection.
fn local_program<'a>(alloc: Global) -> Result<Command<'a>, AllocError>
    ensures { IfOk result (λ c. app_of c ≡ words.local_program) }
{
    let play =
        "Plays the script of events on standard input in a world of nodes, and prints what is replied";
    let program = with_command(Ok(program(alloc)), tables(alloc));
    let program = with_command(program, check(alloc));
    let program = with_command(program, audit(alloc));
    with_command(program, command(alloc, "play", play, &[]))
}

/// The program, with those and the commands for trying.
fn program_for_trying<'a>(alloc: Global) -> Result<Command<'a>, AllocError>
    ensures { IfOk result (λ c. app_of c ≡ words.program_for_trying) }
{
    let program = with_command(local_program(alloc), serve(alloc));
    let program = with_command(program, pull(alloc));
    with_command(program, relay(alloc))
}

/// The program, with the command that looks at a server.
fn program_for_looking<'a>(alloc: Global) -> Result<Command<'a>, AllocError>
    ensures { IfOk result (λ c. app_of c ≡ words.program_for_looking) }
{
    with_command(program_for_trying(alloc), probe(alloc))
}

/// The program, with those and the commands for records.
fn program_for_records<'a>(alloc: Global) -> Result<Command<'a>, AllocError>
    ensures { IfOk result (λ c. app_of c ≡ words.program_for_records) }
{
    let program = with_command(program_for_looking(alloc), record(alloc));
    with_command(program, replay(alloc))
}

/// The command line.
pub(super) fn command_line<'a>(alloc: Global) -> Result<Command<'a>, AllocError>
    ensures { IfOk result (λ c. app_of c ≡ words.command_line) }
{
    with_command(program_for_records(alloc), live(alloc))
}
