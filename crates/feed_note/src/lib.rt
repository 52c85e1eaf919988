//! The lines of a contest's event feed: what they mean, and how they are written.
#![tactic(auto)]

mod batch;
mod content;
mod counts;
mod cut;
mod fields;
mod laws;
mod line;
mod naming;
mod pieces;
mod read;
mod set_line;
mod splitter;
mod stop;
mod told;
mod write;

pub use batch::batches;
pub use counts::{Counts, SurveyFault, survey};
pub use cut::{LINE_BYTES, split_line};
pub use laws::{line_laws, written_lines_law};
pub use line::{Line, LineFault};
pub use pieces::lines_of_pieces;
pub use read::{read_line, read_line_in};
pub use splitter::{SplitFault, Splitter};
pub use stop::LineStop;
pub use write::{append_members, append_token, write_batch, write_line};
