//! Nodes and the connections between them under any schedule of events.
#![tactic(auto)]

mod asking;
mod connection;
mod event;
mod follower;
mod laws;
mod moves;
mod world;

pub use event::{Event, Reply, ShapeFault, WorldFault};
pub use feed_answer::Framing;
pub use laws::{following_laws, sending_laws, telling_laws, world_laws};
pub use world::{Link, MOST_NODES, World};
