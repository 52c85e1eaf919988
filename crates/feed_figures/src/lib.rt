//! What a relay counts of the feed that it follows, for those who watch it.
#![tactic(auto)]

mod figures;
mod reasons;
mod servers;

pub use figures::{FeedFigures, LONG_WAIT};
pub use reasons::{FollowFailure, Following, KINDS, Reason};
pub use servers::{ServerFigures, Servers};
