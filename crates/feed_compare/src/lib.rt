//! Whether two servers show the same state at each token that both have.
#![tactic(auto)]

mod servers;
mod tail;
mod verdict;

pub use servers::compare_servers;
