//! What came of a contest server's feed, and what that means for a relay that is to follow it.
#![tactic(auto)]

mod behaviour;
mod call;
mod needs;
mod record;
mod response;
mod settling;
mod surveyed;
mod tokens;

pub use behaviour::{Behaviour, behaviour_of};
pub use call::{Call, CallFault, call_of, put_quoted};
pub use feed_commands::{Finding, Findings};
pub use feed_note::{Counts, LineStop, SurveyFault};
pub use needs::{Answer, Asked, Needs, USUAL_PAUSE, wants_fresh};
pub use record::{Pulse, Record};
pub use response::{Framing, Head, Response};
pub use settling::{PAUSES, burst_after, longest_pause, pause_for, shown_after};
pub use surveyed::{Surveyed, survey_of};
pub use tokens::{TokenEnd, put_notes, token_end, unheld_token};
