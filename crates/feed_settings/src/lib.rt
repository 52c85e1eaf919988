//! What a node and a command are set to: how much a node keeps, where a feed is asked for, and how
//! answers are framed.
#![tactic(auto)]

mod framing;
mod limits;
mod place;

pub use framing::Framing;
pub use limits::{BadLimits, Limits, MOST_CHANGES, MOST_COMMITS, MOST_MEMORY};
pub use place::{Place, PlaceFault, is_host};
