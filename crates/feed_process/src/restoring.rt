//! What is reported of the state file at the start.

use feed_commands::LiveOptions;
use feed_files::Restored;
use feed_state::About;
use feed_system::restored_text;
use std::alloc::{AllocError, Global};

/// Why a relay begins with nothing, where its files had nothing that counts.
fn reason(options: &LiveOptions<'_>, about: About) -> &'static str {
    if options.upstream.is_none() {
        "standard input begins again"
    } else if options.is_new {
        "--new was given"
    } else if about.length == 0 {
        "there is no FILE"
    } else if about.feed == 0 {
        "FILE has no whole snapshot"
    } else {
        "FILE's snapshot is more than --staged or --memory let in"
    }
}

/// What is reported of a state file at the start; nothing where there is none.
pub fn report_of(
    alloc: Global,
    options: &LiveOptions<'_>,
    about: Option<About>,
    restored: &Restored,
) -> Result<Option<String>, AllocError> {
    let Some(about) = about else {
        return Ok(None);
    };
    let text = match restored.mirror.node().token() {
        Some(token) => restored_text(
            alloc,
            about.written,
            token.text(),
            about.left(restored.length()),
        )?,
        None => {
            let why = reason(options, about);
            format!(in alloc; "state: nothing restored: {why}")?
        }
    };
    Ok(Some(text))
}
