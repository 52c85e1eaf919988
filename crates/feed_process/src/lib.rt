//! The process around the turn of `live`: what it is made of before it begins, and what it tells
//! those who start and watch it.
#![tactic(auto)]

mod checking;
mod making;
mod probing;
mod restoring;
mod servers;
mod watching;

pub use checking::check;
pub use making::{Made, fault_of_system, make};
pub use probing::probe;
pub use restoring::report_of;
pub use watching::{
    Standing, Watched, Words, file_of, screen_of, screens_of, server_of, upstream_of,
};
