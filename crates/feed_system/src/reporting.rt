//! What is reported on standard error: a line for each thing that happened, with the time in UTC.

use crate::link::Servers;
use feed_arguments::Verbosity;
use feed_device::{CameSo, Excerpt, Lack, Report, Why};
use feed_follow::FollowFault;
use jiff::Timestamp;
use std::alloc::{AllocError, Global};
use std::io;
use std::time::{SystemTime, UNIX_EPOCH};

/// The time, to the second.
pub(crate) fn stamp(rt: &HostRuntime) -> Timestamp {
    let seconds = match SystemTime::now(rt) {
        Ok(now) => match now.duration_since(UNIX_EPOCH) {
            Ok(since) => since.as_secs(),
            Err(_) => 0,
        },
        Err(_) => 0,
    };
    match Timestamp::from_second(seconds.min(200_000_000_000) as i64) {
        Ok(time) => time,
        Err(_) => Timestamp::UNIX_EPOCH,
    }
}

/// What is reported where a state file was written last at a time, in seconds since 1970, this
/// token was restored, and so many bytes were left out.
pub fn restored_text(
    alloc: Global,
    written: i64,
    token: &str,
    left: u64,
) -> Result<String, AllocError> {
    let token = Excerpt::of(token);
    let (token, time) = (token.text(), time_of(written));
    format!(in alloc; "state: restored token {token:?}, written at {time}, {left} bytes left out")
}

/// A time in seconds since 1970.
fn time_of(seconds: i64) -> Timestamp {
    Timestamp::from_second(seconds).unwrap_or(Timestamp::UNIX_EPOCH)
}

/// Whether a thing is reported at all.
pub(crate) fn is_reported(report: &Report, verbosity: Verbosity) -> bool {
    match verbosity {
        Verbosity::Verbose => true,
        Verbosity::Normal => !matches!(report, Report::Screen { .. }),
        Verbosity::Quiet => false,
    }
}

/// The server that a report is of, where it is of one.
fn server_of(report: &Report) -> Option<usize> {
    match *report {
        Report::Found { server, .. }
        | Report::Lost { server, .. }
        | Report::Quiet { server, .. }
        | Report::Instead { server, .. }
        | Report::Again { server, .. }
        | Report::Moved { server, .. }
        | Report::NotFound { server, .. }
        | Report::Tls { server }
        | Report::Faulty { server, .. }
        | Report::Refused { server }
        | Report::OtherLog { server }
        | Report::Behind { server }
        | Report::Ignores { server }
        | Report::NoPositions { server, .. }
        | Report::LeavesOut { server, .. }
        | Report::Differs { server, .. }
        | Report::Forgot { server, .. }
        | Report::Settled { server, .. }
        | Report::Held { server, .. }
        | Report::Broken { server, .. }
        | Report::Coming { server, .. }
        | Report::NoToken { server, .. }
        | Report::Unsettled { server, .. } => Some(server),
        _ => None,
    }
}

/// The text of a report, without the time.
pub(crate) fn text_of(
    alloc: Global,
    report: &Report,
    servers: &Servers<'_>,
) -> Result<String, AllocError> {
    if let Report::Instead { server, why } = *report {
        let (name, first) = (servers.name(alloc, server)?, servers.name(alloc, 0)?);
        let advice = match why {
            Lack::Left(why) => advice_on(why),
            _ => "",
        };
        return format!(in alloc; "upstream {name}: followed in place of {first} ({why}){advice}");
    }
    if let Some(server) = server_of(report) {
        let name = servers.name(alloc, server)?;
        if let Report::Lost { why, pause, .. } = *report {
            return text_of_lost(alloc, name.as_str(), why, pause, servers.reason(server));
        }
        return text_of_server(alloc, report, name.as_str());
    }
    match *report {
        Report::GivenTwice { server, token } => {
            let name = feed_of(alloc, servers, server)?;
            let token = token.text();
            format!(in alloc;
                "{name}: gave the token {token} to two states; what came with it again is left out"
            )
        }
        _ => text_of_rest(alloc, report),
    }
}

/// The text of a report of the server of this name.
fn text_of_server(alloc: Global, report: &Report, name: &str) -> Result<String, AllocError> {
    match *report {
        Report::Found { away, .. } => {
            format!(in alloc; "upstream {name}: answers, after {away} ms")
        }
        Report::Quiet { time, .. } => {
            let seconds = time / 1_000;
            format!(in alloc; "upstream {name}: nothing new for {seconds} s; another one is asked")
        }
        Report::Again { time, .. } => {
            let seconds = time / 1_000;
            format!(in alloc; "upstream {name}: followed again, after {seconds} s")
        }
        Report::Moved { location, .. } => {
            let location = location.text();
            format!(in alloc; "upstream {name}: the feed is at {location}: name that server")
        }
        Report::NotFound { line, .. } => {
            let line = line.text();
            format!(in alloc; "upstream {name}: was asked: {line}: see --base and --contest")
        }
        Report::Tls { .. } => {
            format!(in alloc;
                "upstream {name}: speaks TLS: name a proxy that speaks it to the server"
            )
        }
        Report::Faulty { line, .. } => {
            let line = line.text();
            format!(in alloc; "upstream {name}: can't follow from this line on: {line}")
        }
        Report::Settled { time, way, .. } => text_of_settled(alloc, name, time, way),
        _ => text_of_token(alloc, report, name),
    }
}

/// The text of a report that what came is shown, so long after the first attempt.
fn text_of_settled(
    alloc: Global,
    name: &str,
    time: u64,
    way: CameSo,
) -> Result<String, AllocError> {
    let why = match way {
        CameSo::Quiet => "it has settled",
        CameSo::Small => "it has settled for long, and is smaller than what was shown",
        CameSo::Ended => "it ended in order",
        CameSo::GoesOn => "it goes on from what was shown",
        CameSo::Late => "it never was quiet",
        CameSo::Broken => "it broke there twice (--serve-broken)",
    };
    match way {
        CameSo::Late | CameSo::Broken => {
            format!(in alloc; "upstream {name}: shown as far as it came, after {time} ms: {why}")
        }
        _ => format!(in alloc; "upstream {name}: all of it came, in {time} ms: {why}"),
    }
}

/// The text of a server that is left; with the reason that the system gave, where it can't be
/// connected to.
fn text_of_lost(
    alloc: Global,
    name: &str,
    why: Why,
    pause: u64,
    reason: Option<io::ErrorKind>,
) -> Result<String, AllocError> {
    match (why, reason) {
        (Why::Refuses, Some(reason)) => {
            format!(in alloc; "upstream {name}: {why} ({reason}); next in {pause} ms")
        }
        _ => {
            let advice = advice_on(why);
            format!(in alloc; "upstream {name}: {why}{advice}; next in {pause} ms")
        }
    }
}

/// What to do about a server that is left, where its status says that.
fn advice_on(why: Why) -> &'static str {
    match why {
        Why::Fault(FollowFault::Status(401 | 403)) => " (see --user-file)",
        Why::Fault(FollowFault::Status(400)) => " (a port that speaks TLS answers so, too)",
        _ => "",
    }
}

/// The text of a report of our token and a server.
fn text_of_token(alloc: Global, report: &Report, name: &str) -> Result<String, AllocError> {
    match *report {
        Report::Refused { .. } => format!(in alloc; "upstream {name}: doesn't hold our token"),
        Report::OtherLog { .. } => {
            format!(in alloc;
                "upstream {name}: doesn't hold our token, again: it is asked for everything"
            )
        }
        Report::Behind { .. } => {
            format!(in alloc; "upstream {name}: is behind what is shown: nothing of it is shown")
        }
        Report::Ignores { .. } => {
            format!(in alloc; "upstream {name}: ignores since_token; from here on as with --fresh")
        }
        Report::Differs { kind, id, .. } => {
            let (kind, id) = (kind.text(), id.text());
            format!(in alloc;
                "upstream {name}: has another state at our token, first at {kind} {id}"
            )
        }
        Report::Forgot { token, .. } => {
            let token = token.text();
            format!(in alloc;
                "upstream {name}: has another commit at the token {token}, or none; \
                 if no other server has ours, everything is asked for"
            )
        }
        Report::NoPositions { token, .. } => {
            let token = token.text();
            format!(in alloc;
                "upstream {name}: its tokens are no positions in what it sends, as {token} shows; \
                 from here on as with --fresh"
            )
        }
        Report::LeavesOut { token, .. } => {
            let token = token.text();
            format!(in alloc;
                "upstream {name}: left out the commit at the token {token}; \
                 from here on as with --fresh"
            )
        }
        _ => text_of_coming(alloc, report, name),
    }
}

/// The text of a report of a feed that has not settled.
fn text_of_coming(alloc: Global, report: &Report, name: &str) -> Result<String, AllocError> {
    match *report {
        Report::Coming {
            bytes,
            time,
            has_token,
            ..
        } => {
            let seconds = time / 1_000;
            let state = if has_token {
                "it has not settled yet"
            } else {
                "no line has a token yet"
            };
            format!(in alloc; "upstream {name}: {bytes} bytes came in {seconds} s, {state}")
        }
        Report::NoToken { changes, time, .. } => {
            let seconds = time / 1_000;
            format!(in alloc;
                "upstream {name}: no token so far; {changes} changes wait for one for {seconds} s"
            )
        }
        Report::Unsettled { bytes, .. } => {
            format!(in alloc;
                "upstream {name}: {bytes} bytes came, and had not settled: none is shown (see --settle)"
            )
        }
        Report::Held { time, .. } => format!(in alloc;
            "upstream {name}: it was quiet, and is smaller than what is shown: held back until it \
             was quiet for {time} ms"
        ),
        Report::Broken { token, line, .. } => text_of_broken(alloc, name, &token, &line),
        _ => text_of_rest(alloc, report),
    }
}

/// The text of a report that what comes breaks behind a token each time, at this line if it isn't
/// empty.
fn text_of_broken(
    alloc: Global,
    name: &str,
    token: &Excerpt,
    line: &Excerpt,
) -> Result<String, AllocError> {
    let (token, line) = (token.text(), line.text());
    if line.is_empty() {
        return format!(in alloc;
            "upstream {name}: all that it sends ended behind the token {token} again: none is shown"
        );
    }
    format!(in alloc;
        "upstream {name}: all that it sends can't be followed behind the token {token} again: none \
         is shown; mend this line: {line}"
    )
}

/// The text of a report of no server.
fn text_of_rest(alloc: Global, report: &Report) -> Result<String, AllocError> {
    match *report {
        Report::BadInput { fault, line } => {
            format!(in alloc; "input: line {line}: {fault}; nothing more of it is read")
        }
        Report::Saved { bytes } => {
            format!(in alloc; "state: begun again, with a snapshot of {bytes} bytes")
        }
        Report::NotSaved { pause } => {
            format!(in alloc; "state: can't be written; tried again in {pause} ms")
        }
        _ => text_of_screens(alloc, report),
    }
}

fn text_of_screens(alloc: Global, report: &Report) -> Result<String, AllocError> {
    match *report {
        Report::Screens {
            now,
            came,
            ended,
            cut,
        } => format!(in alloc; "screens: {now}; {came} came, {ended} ended, {cut} cut"),
        Report::Screen {
            peer,
            how,
            status,
            bytes,
            time,
        } => format!(in alloc; "screen {peer}: {how}; {status}, {bytes} bytes, {time} ms"),
        _ => String::from_str(alloc, fixed_text(report)),
    }
}

/// The text of a report that has nothing to be filled in.
fn fixed_text(report: &Report) -> &'static str {
    match *report {
        Report::EndOfInput => "end of the input",
        Report::Full => "screens: too many, one more is answered 503",
        Report::NoRoom => {
            "screens: no room, slow ones have yet to take --pending bytes; one more waits, and is \
             answered 503 after 30 s"
        }
        Report::NoAccept => "screens: none can be taken (too many open files?), for 1 s",
        Report::NotHeard { is_settling: false } => "screens: answered 503, no upstream was heard",
        Report::NotHeard { is_settling: true } => {
            "screens: answered 503, what came has not settled (see --settle)"
        }
        _ => "",
    }
}

/// A server, or the input where it is none.
fn feed_of(
    alloc: Global,
    servers: &Servers<'_>,
    server: Option<usize>,
) -> Result<String, AllocError> {
    match server {
        Some(server) => {
            let name = servers.name(alloc, server)?;
            format!(in alloc; "upstream {name}")
        }
        None => String::from_str(alloc, "input"),
    }
}
