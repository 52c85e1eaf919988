//! Whether a server is reached, and how it speaks.

use super::passage::{ANSWERS, End, Passage};
use super::report::{Report, UNFIT, UNREACHED, UNSEEN, printable, seconds};
use feed_commands::Server;
use feed_probe::{Framing, Head};
use std::alloc::{AllocError, Global};
use std::io::ErrorKind;

/// How many bytes of what came are told.
const TOLD: usize = 60;

const UNREACHABLE: &str = "nothing listens there, its name is unknown, or a firewall is between: \
                           look at the host and the port";

const BY_PROXY: &str = "live speaks plain HTTP: put a web server before that port, as SETUP says, \
                        and name the web server";

const REDIRECTS: &str = "live follows no redirect: probe that URL, and name it to live";

const SLOW: &str = "live leaves a server that has not answered within 20 seconds: mend the server";

const WANTS_USER: &str = "write NAME:PASSWORD into a file that only you can read (chmod 600), and \
                          give --user-file";

const BAD_USER: &str = "the name or the password of --user-file is refused";

const NO_CONTEST: &str = "no such contest, or another base: look at what stands before /contests \
                          (a relay has nothing there), and at the contest's id";

const NOTHING_YET: &str = "it has nothing to show yet, or is overloaded: live waits for it. Probe \
                           again later";

const FAILS: &str = "the server fails, or a proxy before it: look at their logs";

const CODED: &str =
    "live leaves it (bad coding): switch compression off for this path, in proxies, \
                     too";

const STRANGE: &str = "live reads no other framing than chunks, one length, or the end of the \
                       connection";

const BREAKS: &str = "the server, or a proxy before it, breaks the rules of HTTP: look there";

const A_PAGE: &str = "a page to log in, or a wrong path: look at the base, and give --user-file if \
                      a password is needed";

const A_FILE: &str = "that is a file, and no feed that goes on: live asks for it again and again";

/// Where a server was asked, and for what.
fn asked(alloc: Global, server: &Server<'_>) -> Result<String, AllocError> {
    let place = &server.place;
    let (host, base, contest) = (place.host(), place.base(), place.contest());
    format!(in alloc; "{host}, asked for {base}/contests/{contest}/event-feed")
}

/// Whether a text stands in another one.
fn has(text: &[u8], part: &[u8]) -> bool {
    text.windows(part.len().max(1)).any(|window| window == part)
}

/// There was no connection.
fn unreached(
    report: &mut Report,
    server: &Server<'_>,
    passage: &Passage,
) -> Result<bool, AllocError> {
    let Some(reason) = passage.reason else {
        return Ok(false);
    };
    let where_to = asked(report.alloc(), server)?;
    let text = match reason {
        ErrorKind::NotFound => format!(in report.alloc(); "{where_to}: its name has no address")?,
        _ => format!(in report.alloc(); "{where_to}: {reason}")?,
    };
    report.problem("reached", text, UNREACHABLE, UNREACHED)?;
    Ok(true)
}

/// There was a connection, and no head.
fn unanswered(
    report: &mut Report,
    server: &Server<'_>,
    passage: &Passage,
) -> Result<(), AllocError> {
    let alloc = report.alloc();
    let where_to = asked(alloc, server)?;
    let begins = passage.response.begins();
    if begins.starts_with(b"\x15\x03") {
        let text = format!(in alloc; "{where_to}: that port speaks TLS, and no plain HTTP")?;
        return report.problem("reached", text, BY_PROXY, UNFIT);
    }
    if passage.response.is_broken() {
        let begin = printable(alloc, begins, TOLD)?;
        let text = format!(in alloc; "{where_to}: what answers speaks no HTTP: {begin}")?;
        return report.problem("reached", text, "look at the port", UNFIT);
    }
    let after = seconds(alloc, passage.ended)?;
    let how = if passage.end == End::Left {
        "nothing came"
    } else {
        "the connection ended"
    };
    let text = format!(in alloc; "{where_to}: {how} within {after}, and no answer")?;
    report.problem("reached", text, SLOW, UNFIT)
}

/// What a status other than 200 means, and the status of the probe for that.
fn meaning_of(status: u16, has_user: bool, body: &[u8]) -> (&'static str, u8) {
    match status {
        _ if status == 426 || has(body, b"HTTPS port") => (BY_PROXY, UNFIT),
        300..=399 => (REDIRECTS, UNFIT),
        401 | 403 if has_user => (BAD_USER, UNFIT),
        401 | 403 => (WANTS_USER, UNFIT),
        404 => (NO_CONTEST, UNFIT),
        503 => (NOTHING_YET, UNSEEN),
        _ => (FAILS, UNFIT),
    }
}

/// Another status than 200 came.
fn refused(
    report: &mut Report,
    passage: &Passage,
    head: &Head,
    has_user: bool,
    text: &str,
) -> Result<(), AllocError> {
    let alloc = report.alloc();
    let (means, status) = meaning_of(head.status, has_user, passage.record.text());
    let text = if head.location.is_empty() {
        String::from_str(alloc, text)?
    } else {
        let there = printable(alloc, head.location.as_bytes(), 200)?;
        format!(in alloc; "{text}: it redirects to {there}")?
    };
    report.problem("reached", text, means, status)
}

/// Looks whether there is a response with status 200.
pub(super) fn see_reached(
    report: &mut Report,
    server: &Server<'_>,
    passage: &Passage,
    has_user: bool,
) -> Result<bool, AllocError> {
    if unreached(report, server, passage)? {
        return Ok(false);
    }
    let (Some(head), Some(answered)) = (passage.response.head(), passage.answered) else {
        unanswered(report, server, passage)?;
        return Ok(false);
    };
    let alloc = report.alloc();
    let (where_to, after) = (asked(alloc, server)?, seconds(alloc, answered)?);
    let (opened, status) = (passage.opened, head.status);
    let text = format!(in alloc;
        "{where_to}: open after {opened} ms, status {status} after {after}"
    )?;
    if status != 200 {
        refused(report, passage, head, has_user, text.as_str())?;
        return Ok(false);
    }
    if answered > ANSWERS {
        report.problem("reached", text, SLOW, UNFIT)?;
        return Ok(false);
    }
    report.fine("reached", text)?;
    Ok(true)
}

/// Whether a body is a page.
fn is_page(head: &Head, body: &[u8]) -> bool {
    let begin = body.iter().find(|byte| !byte.is_ascii_whitespace());
    has(head.media.as_bytes(), b"html") || begin == Some(&b'<')
}

/// Why a body is no feed, where it is none.
fn fault_of(head: &Head, passage: &Passage) -> Option<(&'static str, &'static str)> {
    if !head.coding.is_empty() && head.coding.as_str() != "identity" {
        Some(("the body is coded, which was not asked for", CODED))
    } else if head.framing == Framing::Strange {
        Some(("a transfer coding, or a length, that isn't read", STRANGE))
    } else if passage.response.is_broken() {
        Some(("its chunks can't be read", BREAKS))
    } else if is_page(head, passage.record.text()) {
        Some(("a page came, and no feed", A_PAGE))
    } else {
        None
    }
}

/// Looks whether the body is plain lines, and how that is framed.
pub(super) fn see_http(report: &mut Report, passage: &Passage) -> Result<bool, AllocError> {
    let alloc = report.alloc();
    let Some(head) = passage.response.head() else {
        return Ok(false);
    };
    let media = printable(alloc, head.media.as_bytes(), TOLD)?;
    if let Some((what, means)) = fault_of(head, passage) {
        let coding = printable(alloc, head.coding.as_bytes(), TOLD)?;
        let text = format!(in alloc; "{what} ({media}{coding})")?;
        report.problem("http", text, means, UNFIT)?;
        return Ok(false);
    }
    let how = match head.framing {
        Framing::InChunks => "in chunks",
        Framing::Sized(_) => "with its length",
        _ => "to the end of the connection",
    };
    let text = format!(in alloc; "{how}, {media}")?;
    match head.framing {
        Framing::Sized(_) => report.note("http", text, A_FILE)?,
        _ => report.fine("http", text)?,
    }
    Ok(true)
}
