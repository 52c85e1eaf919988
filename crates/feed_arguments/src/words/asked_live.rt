//! What the options of `live` ask for.
ghost use Rattle.std.specs.Prelude.{◌≡◌, ℕ, Option, None, IfSome, codes};
ghost use Rattle.clap.specs.Matches.{found_of};
ghost use Rattle.clap.specs.Words.{rows_of};
ghost use Rattle.feed_arguments.specs.Addresses.{most_port};
ghost use Rattle.feed_arguments.specs.Live.{is_verbose as verbose_of, is_quiet as quiet_of};
ghost use Rattle.feed_arguments.specs.Live.{AreBothGiven, MayClash, AsksLive};
ghost use Rattle.feed_arguments.specs.Options.{IsNumberIfGiven, IsGiven};
ghost use Rattle.feed_arguments.specs.declared.request.LiveOptions.{LiveOptions as Live};
ghost use Rattle.feed_arguments.specs.declared.request.UpstreamOptions.{UpstreamOptions as Upstream};

use super::asked::{framing, is_given, live_limits, number, number_if_given, number_up_to, text};
use super::followed::{Followed, Listener, feed_followed, listener_asked};
use super::live::{
    MOST_HOLD, MOST_IDLE, MOST_PENDING, MOST_RETURN, MOST_SCREENS, MOST_SETTLE, MOST_WINDOW,
};
use crate::request::{LiveOptions, Verbosity};
use clap::ArgMatches;

/// How much is reported.
fn verbosity(matches: &ArgMatches<'_>) -> Option<Verbosity>
    ensures verbose { IfSome result
        (λ much. IsGiven (codes "verbose") (rows_of (found_of matches.now)) (verbose_of much)) }
    ensures quiet { IfSome result
        (λ much. IsGiven (codes "quiet") (rows_of (found_of matches.now)) (quiet_of much)) }
    ensures none { result ≡ None → AreBothGiven (rows_of (found_of matches.now)) }
{
    match (is_given(matches, "verbose"), is_given(matches, "quiet")) {
        (false, false) => Some(Verbosity::Normal),
        (true, false) => Some(Verbosity::Verbose),
        (false, true) => Some(Verbosity::Quiet),
        (true, true) => None,
    }
}

/// What the options of `live` ask for.
pub(super) fn live_options<'a>(matches: &ArgMatches<'a>) -> Option<LiveOptions<'a>>
    ensures some { IfSome result (λ options. AsksLive (rows_of (found_of matches.now)) options) }
    ensures none { result ≡ None → (options : Live)
        → AsksLive (rows_of (found_of matches.now)) options
        → MayClash (rows_of (found_of matches.now)) }
{
    let Followed { contest, upstream } = feed_followed(matches)?;
    let listener = listener_asked(matches)?;
    let state = text(matches, "state");
    if listener.listen.is_none() && state.is_none() {
        return None;
    }
    let per_address = number_if_given(matches, "per-address", MOST_SCREENS)?;
    let screens = number(matches, "screens", MOST_SCREENS)?;
    let idle = number(matches, "idle", MOST_IDLE)?;
    let window = number(matches, "window", MOST_WINDOW)?;
    let pending = number(matches, "pending", MOST_PENDING)?;
    let settle = number_up_to(matches, "settle", MOST_SETTLE)?;
    let return_after = number_up_to(matches, "return", MOST_RETURN)?;
    let hold = number_up_to(matches, "hold", MOST_HOLD)?;
    let verbosity = verbosity(matches)?;
    let limits = live_limits(matches)?;
    Some(LiveOptions {
        contest,
        upstream,
        listen: listener.listen,
        address: listener.address,
        allow: text(matches, "allow"),
        per_address,
        status: listener.status,
        status_address: listener.status_address,
        screens: screens as usize,
        idle,
        window,
        pending: pending as usize,
        framing: framing(matches),
        state,
        is_new: is_given(matches, "new"),
        settle,
        fresh: is_given(matches, "fresh"),
        no_recheck: is_given(matches, "no-recheck"),
        return_after,
        hold,
        serve_old: is_given(matches, "serve-old"),
        serve_broken: is_given(matches, "serve-broken"),
        until_eof: is_given(matches, "until-eof"),
        check: is_given(matches, "check"),
        verbosity,
        limits,
    })
}
