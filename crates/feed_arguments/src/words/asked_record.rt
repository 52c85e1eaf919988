//! What the options of `record` and `replay` ask for.
ghost use Rattle.std.specs.Prelude.{◌≡◌, ℕ, List, Option, None, IfSome, codes};
ghost use Rattle.clap.specs.Matches.{found_of};
ghost use Rattle.clap.specs.Words.{rows_of};
ghost use Rattle.feed_arguments.specs.Recording.{AsksRecord, AsksReplay, IsServedAt};
ghost use Rattle.feed_arguments.specs.declared.request.RecordOptions.{RecordOptions as Record};
ghost use Rattle.feed_arguments.specs.declared.request.ReplayOptions.{ReplayOptions as Replay};

use super::asked::{is_given, number, text};
use super::followed::{Followed, LOOPBACK, feed_followed, port_asked};
use super::recording::MOST_SPEED;
use crate::request::{RecordOptions, ReplayOptions};
use clap::ArgMatches;

/// What the options of `record` ask for.
pub(super) fn record_options<'a>(matches: &ArgMatches<'a>) -> Option<RecordOptions<'a>>
    ensures some { IfSome result (λ options. AsksRecord (rows_of (found_of matches.now)) options) }
    ensures none { result ≡ None → (options : Record)
        → ¬ (AsksRecord (rows_of (found_of matches.now)) options) }
{
    let Followed { contest, upstream } = feed_followed(matches)?;
    let upstream = upstream?;
    let file = text(matches, "file")?;
    Some(RecordOptions {
        upstream,
        contest,
        file,
        no_recheck: is_given(matches, "no-recheck"),
        verbose: is_given(matches, "verbose"),
    })
}

/// Where screens come to: the port, and the address of this machine.
fn served_at<'a>(matches: &ArgMatches<'a>) -> Option<(u16, &'a str)>
    ensures some { IfSome result
        (λ at. IsServedAt (rows_of (found_of matches.now)) at.0 at.1.now) }
    ensures none { result ≡ None → (port : ℕ) (address : List ℕ)
        → ¬ (IsServedAt (rows_of (found_of matches.now)) port address) }
{
    let asked = port_asked(matches, "listen")?;
    let port = asked.port?;
    match asked.address {
        Some(address) => Some((port, address)),
        None => Some((port, LOOPBACK)),
    }
}

/// What the options of `replay` ask for.
pub(super) fn replay_options<'a>(matches: &ArgMatches<'a>) -> Option<ReplayOptions<'a>>
    ensures some { IfSome result (λ options. AsksReplay (rows_of (found_of matches.now)) options) }
    ensures none { result ≡ None → (options : Replay)
        → ¬ (AsksReplay (rows_of (found_of matches.now)) options) }
{
    let file = text(matches, "file")?;
    let speed = number(matches, "speed", MOST_SPEED)?;
    let contest = text(matches, "contest")?;
    let (listen, address) = served_at(matches)?;
    Some(ReplayOptions {
        file,
        times: text(matches, "times"),
        speed,
        from: text(matches, "from"),
        contest,
        listen,
        address,
        verbose: is_given(matches, "verbose"),
    })
}
