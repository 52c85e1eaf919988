//! Whether a second server is one of the same log: whether both have the same state at a token that
//! both have.

use super::judging::{limits_of_all, mirrored};
use super::report::{Report, UNFIT};
use feed_node::Mirror;
use std::alloc::{AllocError, Global};

const ANOTHER_LOG: &str =
    "with --fresh one relay may name both: each connection asks for everything \
                           then, and screens go on if the state is the same";

const ANOTHER_CONTEST: &str = "a relay serves one contest, so the call below doesn't name it";

const NOTHING_CAME: &str = "one relay can't name both: probe it by itself";

/// What two feeds have in common.
enum Common {
    /// The same state at this token.
    Same(String),
    /// Two states at this token.
    Other(String),
    /// No token.
    Nothing,
}

/// Whether the state at a token, to which a feed is read, is what a mirror shows under it.
fn at_token(alloc: Global, text: &[u8], shown: &Mirror) -> Result<Common, AllocError> {
    let (Some(token), Some(tables)) = (shown.node().token(), shown.node().published()) else {
        return Ok(Common::Nothing);
    };
    let mut mirror = Mirror::new(alloc, limits_of_all()?)?;
    mirror.begin();
    for line in text.split_inclusive(|byte| *byte == b'\n') {
        if mirror.feed(alloc, line).is_err() {
            break;
        }
        if mirror
            .node()
            .token()
            .is_none_or(|now| now.text() != token.text())
        {
            continue;
        }
        let token = String::from_str(alloc, token.text())?;
        return Ok(match mirror.node().published() {
            Some(others) if others.same(tables) => Common::Same(token),
            _ => Common::Other(token),
        });
    }
    Ok(Common::Nothing)
}

/// What two feeds have in common: at the newest token of the second one, and else of the first.
fn common_of(alloc: Global, first: &[u8], second: &[u8]) -> Result<Common, AllocError> {
    let (newest, _) = mirrored(alloc, second)?;
    match at_token(alloc, first, &newest)? {
        Common::Nothing => {}
        found => return Ok(found),
    }
    let (newest, _) = mirrored(alloc, first)?;
    at_token(alloc, second, &newest)
}

/// Tells that nothing came of the second server.
pub(super) fn tell_nothing(report: &mut Report) -> Result<(), AllocError> {
    let text = String::from_str(report.alloc(), "the second server sent no feed")?;
    report.problem("against", text, NOTHING_CAME, UNFIT)
}

/// Looks whether two feeds are of one log. Whether one relay may name both.
pub(super) fn see_against(
    report: &mut Report,
    first: &[u8],
    second: &[u8],
    is_same_contest: bool,
) -> Result<bool, AllocError> {
    let alloc = report.alloc();
    if !is_same_contest {
        let text = String::from_str(alloc, "the second server has another contest")?;
        report.note("against", text, ANOTHER_CONTEST)?;
        return Ok(false);
    }
    let text = match common_of(alloc, first, second)? {
        Common::Same(token) => {
            let token = token.as_str();
            let text = format!(in alloc; "both have the same state at token {token:?}")?;
            report.fine("against", text)?;
            return Ok(true);
        }
        Common::Other(token) => {
            let token = token.as_str();
            format!(in alloc; "they have two states at token {token:?}")?
        }
        Common::Nothing => String::from_str(alloc, "no token of one is a token of the other")?,
    };
    report.needs.is_fresh = true;
    report.note("against", text, ANOTHER_LOG)?;
    Ok(true)
}
