//! Serving the next follower.
ghost use Rattle.std.specs.Prelude.{◌≡◌, ◌≤◌};
ghost use Rattle.feed_http.specs.Live.{intake_of};
ghost use Rattle.feed_http.specs.Serving.{ServesOnce};
ghost use Rattle.feed_relay.specs.Dialing.{links_of};
ghost use Rattle.feed_relay.specs.Serving.{over_network, ServesNext, ServesLiveNext};

use crate::dial::Accept;
use crate::fault::NetworkFault;
use feed_http::{EngineFault, Served, Service, serve_live, serve_node};
use feed_node::{Node, Primary};
use feed_tables::Change;
use std::alloc::Global;
use std::collections::VecDeque;

/// The most reads of the head of a request, and of an input.
pub const MOST_READS: u64 = 1_000_000;

/// Serves a node on the next connection, as [`serve_node`] does, and gives the connection back.
pub fn serve_next<A: Accept>(
    alloc: Global,
    listener: &mut A,
    node: &Node,
    service: &Service<'_>,
) -> Result<Served, NetworkFault>
    ensures { let links = links_of A.Accept A.Reader.FeedRead A.Writer.FeedWrite in
        ServesNext links (λ spoken came. ServesOnce service.now node.now.shown spoken came)
        listener.old result listener.new }
{
    let Some((mut reader, mut writer)) = listener.accept() else {
        return Err(NetworkFault::Accept);
    };
    let served = serve_node(alloc, &mut reader, &mut writer, node, service);
    listener.close(reader, writer);
    of_engine(served)
}

/// Serves a primary that takes batches on the next connection, as [`serve_live`] does, and gives
/// the connection back.
pub fn serve_live_next<A: Accept>(
    alloc: Global,
    listener: &mut A,
    primary: &mut Primary,
    input: &mut VecDeque<Vec<Change>>,
    turn: usize,
    service: &Service<'_>,
) -> Result<Served, NetworkFault>
    requires { 1 ≤ turn }
    ensures { let links = links_of A.Accept A.Reader.FeedRead A.Writer.FeedWrite in
        ServesLiveNext links turn service.now (intake_of primary.old input.old.items)
        listener.old result (intake_of primary.new input.new.items) listener.new }
{
    let Some((mut reader, mut writer)) = listener.accept() else {
        return Err(NetworkFault::Accept);
    };
    let served = serve_live(
        alloc,
        &mut reader,
        &mut writer,
        primary,
        input,
        turn,
        service,
    );
    listener.close(reader, writer);
    of_engine(served)
}

/// What a connection came to, as a program sees it.
fn of_engine(served: Result<Served, EngineFault>) -> Result<Served, NetworkFault>
    ensures { result ≡ over_network served }
{
    served.map_err(NetworkFault::Engine)
}
