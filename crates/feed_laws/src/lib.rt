//! What screens and state files hold of a primary's log: laws of the definitions, with no code.
//!
//! What the hub sends to a screen, or gives a record to write, is what a connection of a world is
//! sent. So is what a node, or a primary that takes batches meanwhile, writes on a connection. The
//! laws say what a mirror that reads any prefix of it shows.
#![tactic(auto)]

mod connections;
mod laws;

pub use connections::connection_laws;
pub use laws::hub_laws;
