//! What the feed of the first of several servers publishes, printed.
ghost use Rattle.std.specs.Prelude.{◌≡◌, ◌⊎◌, ◌++◌, ◌∷◌, [], false, true, map, is_some, string_bytes, codes, decimal, IfOk, IfErr, OnOk, Ok, IsErrOf};
ghost use Rattle.feed_settings.specs.Place.{Place as Named};
ghost use Rattle.feed_commands.specs.Pull.{place_asked as place_of, RefusesServer, AreFurther, RefusesFurther};
ghost use Rattle.feed_commands.specs.Pull.{asked_at, server_asked, AreServers, RefusesOneOf, HasNoServers, StartsFrom, FailsToStart};
ghost use Rattle.feed_commands.specs.Pull.{outcome_of_attempt, outcome_of_pull, PrintedPulled, PullFails};
ghost use Rattle.feed_http.specs.Device.{HasFailed};
ghost use Rattle.feed_http.specs.Exchange.{wrote_by};
ghost use Rattle.feed_relay.specs.Dialing.{dialer_of};
ghost use Rattle.feed_relay.specs.First.{dialing};

use crate::fault::Fault;
use crate::input::read_input;
use crate::reporting::FaultReporter;
use crate::snapshot::{outcome, print_snapshot};
use feed_arguments::{PullOptions, UpstreamOptions, addresses};
use feed_http::device::{FeedRead, FeedWrite};
use feed_http::{EngineFault, FollowFault, Followed, Identity, Place};
use feed_node::Mirror;
use feed_relay::{Attempt, AttemptEnd, Dial, NetworkFault, Server, follow_first};
use std::alloc::{AllocError, Global};

/// Where a server is.
#[derive(Clone, Copy)]
struct Address<'a> {
    host: &'a str,
    port: u16,
}

/// A server's host, with its port.
fn host_and_port(alloc: Global, address: &Address<'_>) -> Result<String, AllocError>
    ensures { IfOk result (λ text. string_bytes text
        ≡ address.now.host.now ++ codes ":" ++ decimal address.now.port) }
{
    format!(in alloc; "{}:{}", address.host, address.port)
}

/// The place that is asked for the feed at this address.
fn place_at(
    alloc: Global,
    upstream: &UpstreamOptions<'_>,
    contest: &str,
    address: &Address<'_>,
) -> Result<Place, Fault>
    ensures ok { IfOk result (λ place.
        place_of upstream.now contest.now (address.now.host.now, address.now.port) ≡ Ok place) }
    ensures err { IfErr result (λ why.
        RefusesServer upstream.now contest.now (address.now.host.now, address.now.port) why) }
{
    let host = host_and_port(alloc, address)?;
    Ok(Place::new(alloc, host.as_str(), upstream.base, contest)?)
}

/// Appends the server at this address.
fn push_server<'i>(
    alloc: Global,
    upstream: &UpstreamOptions<'_>,
    contest: &str,
    identity: &'i Identity,
    address: &Address<'_>,
    servers: &mut Vec<Server<'i>>,
) -> Result<(), Fault>
    ensures ok { OnOk result (map server_asked servers.new.items
        ≡ map server_asked servers.old.items
        ++ asked_at upstream.now contest.now identity.now
        (address.now.host.now, address.now.port) ∷ []) }
    ensures made { OnOk result ((place : Named)
        × (place_of upstream.now contest.now (address.now.host.now, address.now.port) ≡ Ok place)) }
    ensures err { IfErr result (λ why.
        RefusesServer upstream.now contest.now (address.now.host.now, address.now.port) why) }
{
    let host = address.host;
    let server = Server {
        place: place_at(alloc, upstream, contest, address)?,
        host: format!(in alloc; "{host}")?,
        port: address.port,
        identity,
    };
    servers.push(server)?;
    Ok(())
}

/// The addresses after the first one.
fn further_addresses(
    alloc: Global,
    upstream: &UpstreamOptions<'_>,
) -> Result<Vec<(String, u16)>, Fault>
    ensures ok { IfOk result (λ further. AreFurther upstream.now.from
        (map (λ a. (string_bytes a.0, a.1)) further.items)) }
    ensures err { IfErr result (λ why. RefusesFurther upstream.now.from why) }
{
    match upstream.from {
        Some(text) => Ok(addresses(alloc, text)?),
        None => Ok(Vec::new(alloc)),
    }
}

/// Appends the servers at these addresses.
fn push_servers<'i>(
    alloc: Global,
    upstream: &UpstreamOptions<'_>,
    contest: &str,
    identity: &'i Identity,
    addresses: &[(String, u16)],
    servers: &mut Vec<Server<'i>>,
) -> Result<(), Fault>
    ensures ok { let asked = map (λ a. (string_bytes a.0, a.1)) addresses.now in
        OnOk result (map server_asked servers.new.items ≡ map server_asked servers.old.items
        ++ map (asked_at upstream.now contest.now identity.now) asked) }
    ensures err { let asked = map (λ a. (string_bytes a.0, a.1)) addresses.now in
        IfErr result (λ why. RefusesOneOf upstream.now contest.now asked why) }
{
    'addresses: for (host, port) in addresses {
        let address = Address {
            host: host.as_str(),
            port: *port,
        };
        push_server(alloc, upstream, contest, identity, &address, servers)?;
    }
    Ok(())
}

/// The servers that are asked for the feed of a contest: the one after `--host` and `--port`, and
/// those after `--from`; each as this identity.
pub fn servers_of<'i>(
    alloc: Global,
    upstream: &UpstreamOptions<'_>,
    contest: &str,
    identity: &'i Identity,
) -> Result<Vec<Server<'i>>, Fault>
    ensures ok { IfOk result (λ servers.
        AreServers upstream.now contest.now identity.now servers.items) }
    ensures err { IfErr result (λ why. HasNoServers upstream.now contest.now why) }
{
    let mut servers = Vec::new(alloc);
    let first = Address {
        host: upstream.host,
        port: upstream.port,
    };
    push_server(alloc, upstream, contest, identity, &first, &mut servers)?;
    let further = further_addresses(alloc, upstream)?;
    push_servers(alloc, upstream, contest, identity, &further, &mut servers)?;
    Ok(servers)
}

/// A mirror with nothing published; or, where it is to resume, the one that the input, at most
/// 67,108,864 bytes, restores.
pub fn start_mirror<R: FeedRead>(
    alloc: Global,
    options: &PullOptions<'_>,
    input: &mut R,
) -> Result<Mirror, Fault>
    ensures ok { IfOk result (λ mirror. StartsFrom options.now.resume options.now.limits
        (R.remaining input.old) (R.remaining input.new) mirror) }
    ensures unread { options.now.resume ≡ false → input.new ≡ input.old }
    ensures err { IfErr result (λ why. FailsToStart options.now.limits why
        (R.remaining input.old) (R.remaining input.new)) }
    ensures read { IsErrOf result Fault.Read
        → HasFailed (R.failures input.old) (R.failures input.new) }
    ensures quiet { ¬ (IsErrOf result Fault.Read)
        → R.failures input.new ≡ R.failures input.old }
{
    if !options.resume {
        return Ok(Mirror::new(alloc, options.limits)?);
    }
    let saved = read_input(alloc, input)?;
    Ok(Mirror::restore(alloc, options.limits, saved.as_slice())?)
}

/// The fault that an attempt came to: that there was no connection, and a response that ended in
/// its head, are faults, too.
pub(crate) fn attempt_outcome(outcome: AttemptEnd) -> Result<(), Fault>
    ensures { result ≡ outcome_of_attempt outcome }
{
    match outcome {
        AttemptEnd::NoLink => Err(Fault::from(NetworkFault::Connect)),
        AttemptEnd::Followed(Followed::Early) => {
            let fault = EngineFault::Follow(FollowFault::BadHead);
            Err(Fault::from(NetworkFault::Engine(fault)))
        }
        AttemptEnd::Followed(_) => Ok(()),
        AttemptEnd::Failed(fault) => Err(Fault::from(NetworkFault::Engine(fault))),
    }
}

/// The fault that a pull came to, which is that of its last attempt.
pub fn pull_outcome(attempts: &[Attempt]) -> Result<(), Fault>
    ensures { result ≡ outcome_of_pull attempts.now }
{
    match attempts.last() {
        Some(attempt) => attempt_outcome(attempt.outcome),
        None => Ok(()),
    }
}

/// What `pull` is asked for.
#[derive(Drop)]
pub struct Pull<'p> {
    /// The options of its command line.
    pub options: &'p PullOptions<'p>,
    /// The servers that these name, in the order in which they are asked.
    pub servers: &'p [Server<'p>],
}

/// Follows the first of the servers that serves, reports why those before it failed, and prints the
/// snapshot of what the mirror shows then, also where the last one failed. That is reported, too,
/// where the snapshot can't be printed. Out of memory, nothing is printed.
pub fn print_pulled<D: Dial, W: FeedWrite, E: FeedWrite>(
    alloc: Global,
    asked: &Pull<'_>,
    mirror: &mut Mirror,
    dial: &mut D,
    out: &mut W,
    err: &mut E,
) -> Result<(), Fault>
    ensures ok { let dialer = dialer_of D.Dial D.Reader.FeedRead D.Writer.FeedWrite in
        let most_reads = asked.now.options.now.most_reads in
        OnOk result (PrintedPulled dialer asked.now.servers.now most_reads
        (dialing mirror.old dial.old) (Ok tt) (dialing mirror.new dial.new)
        (wrote_by W.contents W.failures out.old out.new)) }
    ensures some { OnOk result (is_some mirror.new.node.published ≡ true) }
    ensures reported { OnOk result (E.failures err.new ≡ E.failures err.old) }
    ensures err { let dialer = dialer_of D.Dial D.Reader.FeedRead D.Writer.FeedWrite in
        let most_reads = asked.now.options.now.most_reads in
        IfErr result (λ why. PullFails dialer asked.now.servers.now most_reads why
        (dialing mirror.old dial.old) (dialing mirror.new dial.new)
        (wrote_by W.contents W.failures out.old out.new) (E.failures err.old)
        (E.failures err.new)) }
{
    let servers = asked.servers;
    let attempts = follow_first(alloc, dial, servers, mirror, asked.options.most_reads)?;
    let mut reporter = FaultReporter::new("pull");
    reporter.report_earlier(servers, &attempts, err);
    let pulled = pull_outcome(&attempts);
    if pulled == Err(Fault::Memory) {
        return pulled;
    }
    if let Err(failed) = print_snapshot(mirror, out) {
        reporter.report_last(servers, &attempts, err);
        return Err(failed);
    }
    outcome(pulled, mirror.node().token().is_some())?;
    reporter.outcome()
}
