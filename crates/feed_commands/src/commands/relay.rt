//! A server's feed, followed and served in turns.
ghost use Rattle.std.specs.Prelude.{◌≡◌, Result, IfErr, OnOk};
ghost use Rattle.feed_http.specs.Exchange.{wrote_by};
ghost use Rattle.feed_relay.specs.Dialing.{dialer_of, links_of};
ghost use Rattle.feed_relay.specs.First.{dialing};
ghost use Rattle.feed_http.specs.declared.fault.Served.{Served as Done};
ghost use Rattle.feed_relay.specs.declared.fault.NetworkFault.{NetworkFault as Failing};
ghost use Rattle.feed_commands.specs.Relay.{relay_service, relaying, MakesRoundOn, EndsRounds, Relayed, RelayFails};
ghost use Rattle.feed_commands.specs.Reporting.{HasReported};

use crate::fault::Fault;
use crate::reporting::FaultReporter;
use crate::snapshot::print_snapshot;
use feed_arguments::RelayOptions;
use feed_http::Service;
use feed_http::device::FeedWrite;
use feed_node::Mirror;
use feed_relay::{Accept, Dial, MOST_READS, Server, follow_first, has_run_out, serve_next};
use std::alloc::Global;

/// What `relay` is asked for.
#[derive(Drop)]
pub struct Relay<'r> {
    /// The options of its command line.
    pub options: &'r RelayOptions<'r>,
    /// The servers that these name, in the order in which they are asked.
    pub servers: &'r [Server<'r>],
}

/// What a relay connects to.
#[derive(Drop)]
pub struct Network<D, A> {
    /// Opens connections to the servers.
    pub dial: D,
    /// Accepts the connections of followers.
    pub listener: A,
}

/// How each round serves.
fn service_of<'a>(options: &RelayOptions<'a>) -> Service<'a>
    ensures { result ≡ relay_service options.now }
{
    Service {
        contest: options.pull.contest,
        framing: options.framing,
        back: 0,
        most_reads: MOST_READS,
    }
}

/// Makes one round. After an attempt that ran out of memory nobody is accepted.
fn make_round<D: Dial, A: Accept, E: FeedWrite>(
    alloc: Global,
    asked: &Relay<'_>,
    mirror: &mut Mirror,
    network: &mut Network<D, A>,
    reporter: &mut FaultReporter,
    err: &mut E,
) -> Result<(), Fault>
    ensures ok { let dialer = dialer_of D.Dial D.Reader.FeedRead D.Writer.FeedWrite in
        let links = links_of A.Accept A.Reader.FeedRead A.Writer.FeedWrite in
        let options = asked.now.options.now in
        let start = relaying (dialing mirror.old network.old.dial) network.old.listener in
        let end = relaying (dialing mirror.new network.new.dial) network.new.listener in
        OnOk result ((served : Result Done Failing) × MakesRoundOn dialer links
        asked.now.servers.now options.pull.most_reads (relay_service options) start served end) }
    ensures err { let dialer = dialer_of D.Dial D.Reader.FeedRead D.Writer.FeedWrite in
        let links = links_of A.Accept A.Reader.FeedRead A.Writer.FeedWrite in
        let options = asked.now.options.now in
        let start = relaying (dialing mirror.old network.old.dial) network.old.listener in
        let end = relaying (dialing mirror.new network.new.dial) network.new.listener in
        IfErr result (λ why. EndsRounds dialer links
        asked.now.servers.now options.pull.most_reads (relay_service options) start why end) }
    ensures reported { HasReported (E.failures err.old) (E.failures err.new)
        reporter.old.has_failed reporter.new.has_failed }
{
    let servers = asked.servers;
    let most_reads = asked.options.pull.most_reads;
    let attempts = follow_first(alloc, &mut network.dial, servers, mirror, most_reads)?;
    if has_run_out(&attempts) {
        reporter.report_earlier(servers, &attempts, err);
        return Err(Fault::Memory);
    }
    reporter.report_attempts(servers, &attempts, err);
    let service = service_of(asked.options);
    let served = serve_next(alloc, &mut network.listener, mirror.node(), &service);
    reporter.end_connection(served, err)
}

/// Makes one round after another, each of which follows the first of the servers that serves, and
/// then serves one connection. Failed attempts and a connection's fault are reported, and then the
/// rounds go on. At the end the snapshot of what the mirror shows is printed.
pub fn print_relayed<D: Dial, A: Accept, W: FeedWrite, E: FeedWrite>(
    alloc: Global,
    asked: &Relay<'_>,
    mirror: &mut Mirror,
    network: &mut Network<D, A>,
    out: &mut W,
    err: &mut E,
) -> Result<(), Fault>
    ensures ok { let dialer = dialer_of D.Dial D.Reader.FeedRead D.Writer.FeedWrite in
        let links = links_of A.Accept A.Reader.FeedRead A.Writer.FeedWrite in
        let options = asked.now.options.now in
        let start = relaying (dialing mirror.old network.old.dial) network.old.listener in
        let end = relaying (dialing mirror.new network.new.dial) network.new.listener in
        OnOk result (Relayed dialer links asked.now.servers.now options.pull.most_reads
        (relay_service options) options.count start end
        (wrote_by W.contents W.failures out.old out.new)) }
    ensures err { let dialer = dialer_of D.Dial D.Reader.FeedRead D.Writer.FeedWrite in
        let links = links_of A.Accept A.Reader.FeedRead A.Writer.FeedWrite in
        let options = asked.now.options.now in
        let start = relaying (dialing mirror.old network.old.dial) network.old.listener in
        let end = relaying (dialing mirror.new network.new.dial) network.new.listener in
        IfErr result (λ why. RelayFails dialer links asked.now.servers.now options.pull.most_reads
        (relay_service options) options.count why start end
        (wrote_by W.contents W.failures out.old out.new) (E.failures err.old)
        (E.failures err.new)) }
    ensures reported { OnOk result (E.failures err.new ≡ E.failures err.old) }
{
    let mut reporter = FaultReporter::new("relay");
    'rounds: for _made in 0..asked.options.count {
        make_round(alloc, asked, mirror, network, &mut reporter, err)?;
    }
    print_snapshot(mirror, out)?;
    reporter.outcome()
}
