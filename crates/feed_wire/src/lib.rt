//! HTTP/1.1's own texts: chunks, heads, requests, frames.
#![tactic(auto)]

mod asked;
mod brackets;
mod chunk;
mod framing;
mod head_sizes;
mod heads;
mod identity;
mod laws;
mod refusal;
mod request;
mod request_target;

pub use asked::{AskedFor, read_request};
pub use brackets::without_brackets;
pub use chunk::{Chunking, after_byte};
pub use framing::{frame, frame_behind, frame_end};
pub use head_sizes::{HEAD_BYTES, HEAD_FIELDS, HEAD_LINES, is_head_size, is_past_limits};
pub use heads::{HeadRead, look_at_request};
pub use identity::{Identity, IdentityFault};
pub use laws::chunk_laws;
pub use refusal::Refusal;
pub use request::{request_text, request_text_as};
