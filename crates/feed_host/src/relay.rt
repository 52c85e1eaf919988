//! The command `relay`, over the standard streams and sockets.

use crate::ending::Failure;
use crate::errors::{Errors, Reporter};
use crate::hosts::Hosts;
use crate::identity::identity_for;
use crate::sockets::{Dialer, Listener};
use feed_commands::stream::Stream;
use feed_commands::{
    Network, PullOptions, Relay, RelayOptions, print_relayed, servers_of, start_mirror,
};
use std::mem;

/// Follows the feed of the first server that serves, and serves it, in turns, and prints the tables
/// at the end.
pub fn relay_feed(rt: &HostRuntime, options: &RelayOptions<'_>) -> Result<(), Failure> {
    let hosts = Hosts::new(rt.alloc(), &options.pull.upstream)?;
    relay_from(rt, options, &hosts)
}

/// The same, of servers with these names.
fn relay_from(rt: &HostRuntime, options: &RelayOptions<'_>, hosts: &Hosts) -> Result<(), Failure> {
    let pull = PullOptions {
        upstream: hosts.named(&options.pull.upstream),
        ..options.pull
    };
    relay_named(rt, &RelayOptions { pull, ..*options })
}

/// The same, of servers whose names are as a request has them.
fn relay_named(rt: &HostRuntime, options: &RelayOptions<'_>) -> Result<(), Failure> {
    let pull = &options.pull;
    let identity = identity_for(rt, &pull.upstream, pull.contest)?;
    let servers = servers_of(rt.alloc(), &pull.upstream, pull.contest, &identity)?;
    let mut mirror = match start_mirror(rt.alloc(), &options.pull, &mut Stream::new(rt.stdin())) {
        Ok(mirror) => mirror,
        Err(fault) => return Err(Failure::of_saved_tables(fault)),
    };
    let reporter = Reporter::new(rt, "relay", options.pull.verbose);
    let listener = match Listener::bind(rt, reporter, options.listen) {
        Ok(listener) => listener,
        Err(fault) => return Err(Failure::at_port(rt, fault, options.listen)),
    };
    let mut network = Network {
        dial: Dialer::new(rt, reporter, &options.pull, &servers),
        listener,
    };
    let relayed = print_relayed(
        rt.alloc(),
        &Relay {
            options,
            servers: &servers,
        },
        &mut mirror,
        &mut network,
        &mut Stream::new(rt.stdout()),
        &mut Errors::new(rt),
    );
    // The program ends here: freeing each object would take time alone.
    mem::forget(mirror);
    Ok(relayed?)
}
