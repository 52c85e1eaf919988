//! The screens of a relay: each has a socket, a connection at the same place, and a seat in the
//! hub. What came on a socket is heard, what the hub has for it is written, and nothing waits.
//!
//! Nothing here has a handle: the sockets are given (`Sockets`), and so is the time. Whoever runs a
//! relay says when: `relay` says to all what a node has next, `serve` reads from and writes to one
//! screen, `accept` takes who waits.
#![tactic(auto)]

mod conn;
mod counts;
mod figures;
mod hand;
mod limits;
mod saying;
mod screens;
mod times;

pub use figures::{ScreenFigures, ScreenRow, ScreenTotals};
pub use limits::ScreenLimits;
pub use screens::{Answers, Screens, Shown};
