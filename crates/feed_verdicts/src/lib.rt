//! What is printed of the verdict of an audit: lines, or a line of JSON.
#![tactic(auto)]

mod json;
mod lines;

pub use json::{print_agreement_json, print_stray_json};
pub use lines::{print_agreement, print_stray};
