//! The state files of a relay: what is written to them as it is published, and what a relay that
//! starts makes of what is left of them.
//!
//! A file is what a record of the hub has to write (`Record`): a snapshot, and then each commit. It
//! is a feed again, as a mirror reads it from the first byte on. The files are those of a `Store`,
//! which is given.
#![tactic(auto)]

mod audited;
mod figures;
mod laws;
mod restoring;
mod saved;
mod sheet;
mod times;

pub use audited::audited_laws;
pub use figures::FileFigures;
pub use laws::file_laws;
pub use restoring::{Good, Restored, restore};
pub use saved::Saved;
