//! Records of what came over connections, line by line and connection by connection.
#![tactic(auto)]

mod connections;
mod reading;
mod screen_lines;
mod text_lines;

pub use connections::{Opened, begins_in_chunks};
pub use reading::{Front, Lines, Replayed, Skipped, Unread};
pub use screen_lines::ScreenLines;
pub use text_lines::TextLines;
