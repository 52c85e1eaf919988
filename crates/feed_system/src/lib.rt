//! The system that a relay runs on: sockets that never wait, the files of its state, standard
//! streams, those who watch it, and the clock. It knows nothing of what the relay does with them.
#![tactic(auto)]

mod descriptors;
mod guard;
mod hosts;
mod link;
mod opening;
mod pair;
mod procfs;
mod reporting;
mod sockets;
mod standard;
mod system;
mod tally;
mod watchers;

pub use descriptors::{Placeholders, hold_standard};
pub use hosts::ServerName;
pub use link::Servers;
pub use opening::{FreePorts, Resources, StartFault, open, try_ports};
pub use pair::Pair;
pub use procfs::{process, since_1970};
pub use reporting::restored_text;
pub use sockets::Port;
pub use system::System;
