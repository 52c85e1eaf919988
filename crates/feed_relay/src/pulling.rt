//! Asking for what a mirror lacks, and following the response.
ghost use Rattle.std.specs.Prelude.{◌≡◌, None};
ghost use Rattle.feed_http.specs.Exchange.{devices_of, exchange};
ghost use Rattle.feed_relay.specs.Pulling.{PullsOnce};

use crate::server::Server;
use feed_http::{EngineFault, FeedRead, FeedWrite, Followed, ask, follow};
use feed_node::Mirror;
use std::alloc::Global;

/// Asks a server for what a mirror lacks, and follows the response, in at most so many reads
/// (`most_reads`). Where asking fails, a prefix of the request was written, nothing was read, and
/// the mirror is what it was.
pub fn pull_once<R: FeedRead, W: FeedWrite>(
    alloc: Global,
    server: &Server<'_>,
    mirror: &mut Mirror,
    most_reads: u64,
    reader: &mut R,
    writer: &mut W,
) -> Result<Followed, EngineFault>
    ensures pulled { let devices =
        devices_of R.remaining R.reads R.failures W.contents W.failures in
        PullsOnce server.now most_reads
        (exchange devices reader.old reader.new writer.old writer.new)
        mirror.old result mirror.new }
    ensures cut { mirror.old.connection ≡ None → mirror.new.connection ≡ None }
{
    ask(alloc, writer, &server.place, server.identity, mirror)?;
    follow(alloc, reader, mirror, most_reads)
}
