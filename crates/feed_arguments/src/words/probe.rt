//! The command `probe`: its options, and what they ask for.
ghost use Rattle.std.specs.Prelude.{◌≡◌, None, codes, option_map, IfOk, IfSome};
ghost use Rattle.clap.specs.Matches.{found_of};
ghost use Rattle.clap.specs.Words.{app_of, rows_of};
ghost use Rattle.feed_arguments.specs.Probe.{AsksProbe, probe as probe_app};
ghost use Rattle.feed_arguments.specs.declared.request.ProbeOptions.{ProbeOptions as Probe};

use super::asked::{identity, is_given, number, text};
use super::declaring::{Declared, PLAIN, Value};
use super::line::command;
use super::options::{HOST_HEADER, USER_FILE, VERBOSE};
use crate::request::ProbeOptions;
use clap::{ArgMatches, Command};
use std::alloc::{AllocError, Global};

/// The most seconds that a feed is read for.
const MOST_SECONDS: u64 = 600;

/// The options.
static PROBE: [Declared; 7] = [
    Declared {
        name: "url",
        value: Value::Alone("URL"),
        help: "The feed, as http://10.0.0.5/api/contests/finals",
        required: true,
        ..PLAIN
    },
    Declared {
        name: "against",
        value: Value::Text("URL"),
        help: "A second server: whether both may be named in one relay",
        ..PLAIN
    },
    USER_FILE,
    HOST_HEADER,
    Declared {
        name: "seconds",
        value: Value::Number("N", 1, MOST_SECONDS),
        help: "For how many seconds the feed is read, 1 to 600; 130 finds a proxy that cuts after a \
              minute of silence",
        default: Some("45"),
        ..PLAIN
    },
    Declared {
        name: "json",
        help: "Print one line of JSON",
        ..PLAIN
    },
    Declared {
        help: "Report each connection, too",
        ..VERBOSE
    },
];

/// `probe`.
pub(super) fn probe<'a>(alloc: Global) -> Result<Command<'a>, AllocError>
    ensures { IfOk result (λ c. app_of c ≡ probe_app) }
{
    let about = "Tells whether a contest server fits, and which call of live it takes";
    command(alloc, "probe", about, &PROBE)
}

/// What the options of `probe` ask for.
pub(super) fn probe_options<'a>(matches: &ArgMatches<'a>) -> Option<ProbeOptions<'a>>
    ensures some { IfSome result (λ options. AsksProbe (rows_of (found_of matches.now)) options) }
    ensures none { result ≡ None → (options : Probe)
        → ¬ (AsksProbe (rows_of (found_of matches.now)) options) }
{
    let url = text(matches, "url")?;
    let seconds = number(matches, "seconds", MOST_SECONDS)?;
    let (host_header, user_file) = identity(matches);
    Some(ProbeOptions {
        url,
        against: text(matches, "against"),
        user_file,
        host_header,
        seconds,
        json: is_given(matches, "json"),
        verbose: is_given(matches, "verbose"),
    })
}
