//! The commands for records: `record`, which keeps a feed over cut connections, `replay`, which
//! serves it again, and which token came by a time.
#![tactic(auto)]

mod cut;
mod files;
mod head;
mod link;
mod moments;
mod parts;
mod record;
mod replaying;
mod response;
mod times;

pub use record::record_feed;
pub use replaying::{Replay, open_replay, relay_of};
pub use times::token_at;
