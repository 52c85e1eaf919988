//! The commands for records that stand on others: `tables` at a time, and `replay`.

use crate::live::serve_live;
use feed_commands::stream::Stream;
use feed_commands::{AtTimeOptions, Fault, Local, ReplayOptions, TablesOptions, perform};
use feed_host::{Failure, input_ahead};
use feed_recorder::{open_replay, relay_of, token_at};

/// Why a time is refused.
const NO_TIME: &str = "--at-time is a time, as 2026-12-01T15:03:00Z";

/// Prints the tables that the feed on standard input had published at a time: those at the last
/// token that came by then.
pub(crate) fn print_tables_at(
    rt: &HostRuntime,
    options: &AtTimeOptions<'_>,
) -> Result<(), Failure> {
    let token = match token_at(rt, options.times, options.time) {
        Ok(Some(Some(token))) => token,
        Ok(Some(None)) => return Err(Failure::from(Fault::NoToken)),
        Ok(None) => return Err(Failure::refused(NO_TIME)),
        Err(fault) => {
            return Err(Failure::about(fault, String::from_str(rt.alloc(), options.times)));
        }
    };
    print_at(rt, options, token.as_str())
}

/// The same at a token.
fn print_at(rt: &HostRuntime, options: &AtTimeOptions<'_>, token: &str) -> Result<(), Failure> {
    let Ok(input) = input_ahead(rt) else {
        return Err(Failure::from(Fault::Memory));
    };
    let request = Local::Tables(TablesOptions {
        at: Some(token),
        limits: options.limits,
        verbose: options.verbose,
    });
    let mut input = Stream::new(input);
    let mut out = Stream::new(rt.stdout());
    Ok(perform(rt.alloc(), &request, &mut input, &mut out)?)
}

/// Serves a record to screens as it happened, or faster, until it is ended.
pub(crate) fn replay_feed(rt: &HostRuntime, options: &ReplayOptions<'_>) -> Result<(), Failure> {
    let replay = open_replay(rt, options)?;
    match relay_of(options) {
        Some(relay) => serve_live(rt, &relay, Some(replay)),
        None => Err(Failure::from(Fault::Memory)),
    }
}
