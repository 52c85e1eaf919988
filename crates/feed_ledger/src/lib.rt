//! Devices whose bytes are known: of whatever device, what its calls answered is noted, in proofs
//! alone.
#![tactic(auto)]

mod ledger;
mod link;
mod sockets;

pub use ledger::{Call, Ledger};
pub use link::NotedLink;
pub use sockets::NotedSockets;
