//! The command `pull`, over the standard streams and sockets.

use crate::ending::Failure;
use crate::errors::{Errors, Reporter};
use crate::hosts::Hosts;
use crate::identity::identity_for;
use crate::sockets::Dialer;
use feed_commands::stream::Stream;
use feed_commands::{Pull, PullOptions, print_pulled, servers_of, start_mirror};
use std::mem;

/// Follows the feed of the first server that serves to the end of a connection, and prints the
/// tables.
pub fn pull_feed(rt: &HostRuntime, options: &PullOptions<'_>) -> Result<(), Failure> {
    let hosts = Hosts::new(rt.alloc(), &options.upstream)?;
    pull_from(rt, options, &hosts)
}

/// The same, of servers with these names.
fn pull_from(rt: &HostRuntime, options: &PullOptions<'_>, hosts: &Hosts) -> Result<(), Failure> {
    let named = PullOptions {
        upstream: hosts.named(&options.upstream),
        ..*options
    };
    pull_named(rt, &named)
}

/// The same, of servers whose names are as a request has them.
fn pull_named(rt: &HostRuntime, options: &PullOptions<'_>) -> Result<(), Failure> {
    let identity = identity_for(rt, &options.upstream, options.contest)?;
    let servers = servers_of(rt.alloc(), &options.upstream, options.contest, &identity)?;
    let mut mirror = match start_mirror(rt.alloc(), options, &mut Stream::new(rt.stdin())) {
        Ok(mirror) => mirror,
        Err(fault) => return Err(Failure::of_saved_tables(fault)),
    };
    let reporter = Reporter::new(rt, "pull", options.verbose);
    let mut dialer = Dialer::new(rt, reporter, options, &servers);
    let pulled = print_pulled(
        rt.alloc(),
        &Pull {
            options,
            servers: &servers,
        },
        &mut mirror,
        &mut dialer,
        &mut Stream::new(rt.stdout()),
        &mut Errors::new(rt),
    );
    // The program ends here: freeing each object would take time alone.
    mem::forget(mirror);
    pulled.map_err(|fault| Failure::of_servers(rt, fault, &servers))
}
