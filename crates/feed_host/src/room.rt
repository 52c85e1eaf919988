//! Whether the system lets a relay open as many files as its screens take.

use feed_commands::LiveOptions;
use libc::types::rlimit;
use libc::{RLIMIT_NOFILE, getrlimit};
use std::alloc::{AllocError, Global};

/// How many files a relay opens beside one for each screen: ports and their events, a server, those
/// who watch, state files, and standard streams.
const OTHERS: u64 = 24;

/// How many files may be open at once; none where the system doesn't say.
fn most_files() -> Option<u64> {
    let mut limit = rlimit {
        rlim_cur: 0,
        rlim_max: 0,
    };
    if getrlimit(RLIMIT_NOFILE, &mut limit) != 0 {
        return None;
    }
    Some(limit.rlim_cur)
}

/// What is reported of a limit that leaves no room for all screens; none where all have room.
fn report_of(alloc: Global, screens: usize, most: u64) -> Result<Option<String>, AllocError> {
    let needed = (screens as u64).saturating_add(OTHERS);
    if needed <= most {
        return Ok(None);
    }
    let text = format!(in alloc;
        "screens: {screens} of them take {needed} open files, and only {most} are allowed: call \
         ulimit -n {needed} before, or give fewer --screens"
    )?;
    Ok(Some(text))
}

/// What is reported at the start of a relay whose screens may not all be let in, for want of open
/// files; nothing of one that serves nobody.
pub fn lack_of_files(
    alloc: Global,
    options: &LiveOptions<'_>,
) -> Result<Option<String>, AllocError> {
    match most_files() {
        Some(most) if options.listen.is_some() => report_of(alloc, options.screens, most),
        _ => Ok(None),
    }
}
