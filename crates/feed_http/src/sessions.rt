//! What comes next in a node's session, as what serves it sees it: one value.
ghost use Rattle.std.specs.Prelude.{IfOk};
ghost use Rattle.feed_node.specs.States.{IsConsistent};
ghost use Rattle.feed_http.specs.Sessions.{next, Pulls};

use feed_node::{Node, Pulled, Session};
use std::alloc::{AllocError, Global};

/// Pulls what comes next in a session of a node.
pub(crate) fn pull_next(
    alloc: Global,
    session: &mut Session,
    node: &Node,
    out: &mut Vec<u8>,
) -> Result<Pulled, AllocError>
    ensures ok { IfOk result (Pulls (next node.now.shown session.old) session.old session.new
        out.old.items out.new.items) }
    ensures consistent { IsConsistent node.now.shown }
{
    session.pull(alloc, node, out)
}
