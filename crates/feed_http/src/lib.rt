//! HTTP messages that carry a feed, and the devices that they are read from and written to.
#![tactic(auto)]

mod asking;
pub mod device;
mod fault;
mod following;
pub mod head_reading;
mod laws;
mod live;
pub mod memory;
mod service;
mod serving;
mod sessions;
pub mod stream;

pub use asking::ask;
pub use device::{FeedRead, FeedWrite};
pub use fault::{EngineFault, Followed, Served};
pub use feed_answer::{
    Answered, Framing, HEAD_BYTES, HEAD_FIELDS, HEAD_LINES, Identity, IdentityFault, Place,
    PlaceFault, answer, answer_laws, frame, frame_end, request_text, request_text_as,
};
pub use feed_follow::{FollowFault, Follower, Progress};
pub use following::follow;
pub use laws::http_laws;
pub use live::serve_live;
pub use memory::{MemReader, MemWriter};
pub use service::Service;
pub use serving::serve_node;
