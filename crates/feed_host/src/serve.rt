//! The command `serve`, over the standard streams and sockets.

use crate::ahead::input_ahead;
use crate::ending::Failure;
use crate::errors::{Errors, Reporter};
use crate::sockets::Listener;
use feed_answer::{Framing, answer};
use feed_commands::stream::Stream;
use feed_commands::{Fault, FedPrimary, ServeOptions, serve_all, start_primary};
use feed_node::{Limits, Mirror};
use std::alloc::Global;
use std::mem;

/// What a node answers to a request for its feed while it has published nothing.
const NOTHING_PUBLISHED: u16 = 503;

/// Whether a request can name the contest: a node is asked for it as it is spelled.
fn can_be_named(alloc: Global, contest: &str, limits: Limits) -> Result<bool, Fault> {
    let asked = Mirror::new(alloc, limits)?;
    let head = format!(in alloc; "GET /contests/{contest}/event-feed HTTP/1.1\r\n\r\n")?;
    let node = asked.node();
    let answered = answer(alloc, head.as_bytes(), node, contest, Framing::Close, 0)?;
    Ok(answered.status == NOTHING_PUBLISHED)
}

/// Serves the feed of a source at a port that is open.
fn serve_at(
    rt: &HostRuntime,
    options: &ServeOptions<'_>,
    reporter: Reporter<'_>,
    source: &mut FedPrimary,
    port: &mut Listener<'_>,
) -> Result<(), Failure> {
    let alloc = rt.alloc();
    if !can_be_named(alloc, options.contest, options.limits)? {
        reporter.line("no request can name this contest");
    }
    serve_all(alloc, options, source, port, &mut Errors::new(rt))?;
    Ok(())
}

/// Opens the port, and serves the feed of a source there.
fn serve_source(
    rt: &HostRuntime,
    options: &ServeOptions<'_>,
    source: &mut FedPrimary,
) -> Result<(), Failure> {
    let reporter = Reporter::new(rt, "serve", options.verbose);
    let mut port = match Listener::bind(rt, reporter, options.port) {
        Ok(port) => port,
        Err(fault) => return Err(Failure::at_port(rt, fault, options.port)),
    };
    serve_at(rt, options, reporter, source, &mut port)
}

/// Serves the feed on standard input.
pub fn serve_feed(rt: &HostRuntime, options: &ServeOptions<'_>) -> Result<(), Failure> {
    let Ok(input) = input_ahead(rt) else {
        return Err(Failure::from(Fault::Memory));
    };
    let mut source = start_primary(rt.alloc(), options, &mut Stream::new(input))?;
    let served = serve_source(rt, options, &mut source);
    // The program ends here: freeing each object would take time alone.
    mem::forget(source);
    served
}
