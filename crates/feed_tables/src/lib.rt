//! Tables of contest objects, and what changes make of them.
#![tactic(auto)]

mod by_type;
mod ids;
mod laws;
mod map;
mod numbers;
mod patch;
mod placed;
mod scale;
mod table;
mod tables;
mod tree;

pub use feed_changes::{Change, Changes, Lister, NAME_BYTES, Name, NameFault};
pub use laws::{table_laws, touched_law};
pub use numbers::{Numbers, Slot};
pub use patch::Patch;
pub use placed::Placed;
pub use tables::Tables;
