//! Names, and what notifications do: changes of contest objects, and what takes these one by one.
#![tactic(auto)]

mod change;
mod lister;
mod name;

pub use change::{Change, Changes};
pub use lister::Lister;
pub use name::{Key, NAME_BYTES, Name, NameFault};
