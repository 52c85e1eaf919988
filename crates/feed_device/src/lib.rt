//! What stands around the turn of a relay: the devices that it reads from and writes to, by what a
//! contract can say of them, what it reports, and the lines of its state files. Nothing here is a
//! device of a system.
#![tactic(auto)]

mod desk;
mod device;
mod lines;
mod report;
mod reports;

pub use desk::Desk;
pub use device::{Before, Devices, FileSlot, Link, Ready, Sockets, Stop, Store};
pub use lines::whole_line;
pub use report::{CameSo, Excerpt, How, Lack, Report, Why};
pub use reports::Reports;
