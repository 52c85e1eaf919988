//! How a node's session opens, as what answers a request sees it: one value.
ghost use Rattle.std.specs.Prelude.{◌≡◌, Ok, Err, IfOk};
ghost use Rattle.std.specs.Option.{option_copied};
ghost use Rattle.feed_node.specs.States.{IsConsistent};
ghost use Rattle.feed_node.specs.declared.session.OpenFault.{OpenFault as Fault};
ghost use Rattle.feed_answer.specs.Opening.{opens};

use feed_node::{Node, OpenFault, Session};
use std::alloc::Global;

/// Opens a session of a node, as `Node::open` does.
pub(crate) fn open_session(
    alloc: Global,
    node: &Node,
    since: Option<&str>,
    back: usize,
) -> Result<(Session, Vec<u8>), OpenFault>
    ensures ok { IfOk result (λ opened. opens node.now.shown back (option_copied since.entry)
        ≡ Ok (record { token = opened.0; text = opened.1.items })) }
    ensures not_yet { result ≡ Err Fault.NotYet
        → opens node.now.shown back (option_copied since.entry) ≡ Err Fault.NotYet }
    ensures not_held { result ≡ Err Fault.NotHeld
        → opens node.now.shown back (option_copied since.entry) ≡ Err Fault.NotHeld }
    ensures consistent { IsConsistent node.now.shown }
{
    node.open(alloc, since, back)
}
