//! What a relay tells those who watch it: one value, as a page, as JSON, as metrics, and as its
//! health. It reads nothing of the relay but that value, and opens no socket.
#![tactic(auto)]

mod answering;
mod cells;
mod escape;
mod families;
mod health;
mod json;
mod metrics;
mod page;
mod plots;
mod rows;
mod screens;
mod servers;
mod status;
mod warnings;
mod watch;

pub use answering::answer;
pub use escape::put_text;
pub use health::Level;
pub use plots::{Latest, Plots, Point};
pub use screens::WatchedScreen;
pub use servers::WatchedServer;
pub use status::{
    BOUNDS, FailureCount, FileStatus, InPlaceOf, LastFailure, Latency, Refused, ScreensStatus,
    Status, UpstreamState, UpstreamStatus,
};
pub use watch::{Process, Watch};
