//! The commands that open connections one after another, over TCP and the standard streams; and
//! what every command of the network has in common: how servers are named, as whom they are asked,
//! and what is reported of a failure.
#![tactic(auto)]

mod ahead;
mod audit;
mod connection;
mod ending;
mod errors;
mod hosts;
mod identity;
mod itself;
mod looking;
mod pull;
mod relay;
mod room;
mod serve;
mod sockets;
mod writable;

pub use ahead::input_ahead;
pub use audit::audit_records;
pub use ending::{Failure, ended};
pub use errors::Errors;
pub use hosts::Hosts;
pub use identity::identity_of;
pub use itself::is_itself;
pub use looking::look_at;
pub use pull::pull_feed;
pub use relay::relay_feed;
pub use room::lack_of_files;
pub use serve::serve_feed;
pub use writable::may_write;
