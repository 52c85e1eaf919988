mod answering;
mod laws;
mod opening;

pub use answering::{Answered, Reply, answer, reply_to, snapshot_opening};
pub use feed_settings::{Framing, Place, PlaceFault};
pub use feed_wire::{
    HEAD_BYTES, HEAD_FIELDS, HEAD_LINES, HeadRead, Identity, IdentityFault, Refusal, frame,
    frame_end, look_at_request, request_text, request_text_as, without_brackets,
};
pub use laws::{answer_laws, followed_laws};
