//! Whether each state of a screen's record is a state of the primary's.
#![tactic(auto)]

mod again;
mod auditing;
mod comparing;
mod counting;
mod difference;
mod explaining;
mod laws;
mod ours;
mod past;
mod record;
mod since;
mod stop;
mod undoing;
mod verdict;
mod walk;

pub use auditing::audit;
pub use comparing::compare;
pub use difference::{Difference, Side, difference_of};
pub use laws::state_laws;
pub use verdict::{AuditFault, Comparison, Stray, Verdict};
