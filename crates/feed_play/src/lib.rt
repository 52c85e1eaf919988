//! Scripts of what happens in a world of nodes, played.
#![tactic(auto)]

mod fault;
mod feed_lines;
mod first;
mod lines;
mod player;
mod printed;
mod script;

pub use fault::{PlayCause, PlayFault};
pub use player::play;
