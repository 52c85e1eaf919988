//! The reading side of HTTP: a response in any pieces, and the feed that it carries.
#![tactic(auto)]

mod body;
mod coding;
mod fault;
mod follower;
mod heads;
mod laws;

pub use fault::{FollowFault, Progress};
pub use follower::Follower;
pub use laws::{carry_laws, follow_laws};
