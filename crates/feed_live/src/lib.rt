//! One turn of a relay that follows a server for ever and serves many screens: what came on its
//! sockets is read, said and sent on, and nothing waits.
//!
//! The turn has no handle. What it reads from and writes to is given (`Devices`), and so is the
//! time, in milliseconds. Whoever runs it waits until a device is ready, or the time has come that
//! the turn named, and runs the next one: so does `run`, on a `Host`. What happened is reported
//! as values (`Report`).
//!
//! A turn goes from upstream to the screens: what upstream sent is followed and said first, then
//! whoever is gone is closed, then screens are written to and read from, and new ones come last. So
//! nobody is answered with what is old already, and a place is given again only once the socket
//! that had it is closed.
#![tactic(auto)]

mod figures;
mod host;
mod laws;
mod options;
mod running;
mod source;
mod starting;
mod times;
mod turn;

pub use feed_device::{Before, Devices, How, Link, Ready, Report, Sockets, Stop, Store, Why};
pub use feed_figures::{FeedFigures, FollowFailure, Following, LONG_WAIT, Reason, ServerFigures};
pub use feed_files::{FileFigures, Restored, restore};
pub use feed_screens::{ScreenFigures, ScreenLimits, ScreenRow, ScreenTotals};
pub use host::{Given, Host};
pub use laws::{foreign_laws, live_laws, network_laws, screen_laws};
pub use options::{LiveLimits, Setup, Start};
pub use running::{RunFault, run};
pub use starting::restore_from;
pub use turn::{Input, Live, Turn};
