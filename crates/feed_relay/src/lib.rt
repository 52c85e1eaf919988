//! What a primary, a follower and a relay do on one connection.
#![tactic(auto)]

mod commits;
mod dial;
mod fault;
mod first;
mod pulling;
mod server;
mod serving;

pub use commits::{commit_all, feed_batches};
pub use dial::{Accept, Dial};
pub use fault::NetworkFault;
pub use first::{Attempt, AttemptEnd, follow_first, has_run_out};
pub use pulling::pull_once;
pub use server::Server;
pub use serving::{MOST_READS, serve_live_next, serve_next};
