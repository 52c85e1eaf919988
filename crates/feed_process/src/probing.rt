//! The command `probe`: what a contest server is, what that means for screens, and which call of
//! `live` it takes.

mod asking;
mod comparing;
mod judging;
mod passage;
mod reaching;
mod report;

use asking::see_answers;
use comparing::{see_against, tell_nothing};
use feed_answer::Identity;
use feed_arguments::{FeedUrl, ProbeOptions, UpstreamOptions, UrlFault, feed_url};
use feed_commands::{Fault, Server, servers_of};
use feed_host::{Errors, Failure, ended, identity_of};
use feed_probe::{Call, CallFault, call_of, survey_of};
use judging::{Feed, mirrored, see_format, see_quiet, see_settle, see_size, see_start, see_tokens};
use passage::{Passage, Patience, ask, tell_passage};
use reaching::{see_http, see_reached};
use report::Report;
use std::alloc::{AllocError, Global};
use std::io::Write;

/// Why a server is refused.
const BAD_URL: &str = "the URL names no feed";

/// What is printed, and the status.
#[derive(Drop)]
struct Outcome {
    text: Vec<u8>,
    status: u8,
}

fn needs_memory<T: Drop>(outcome: Result<T, AllocError>) -> Result<T, Failure> {
    match outcome {
        Ok(value) => Ok(value),
        Err(_) => Err(Failure::from(Fault::Memory)),
    }
}

/// A URL that names no feed.
fn of_url(alloc: Global, option: &str, fault: UrlFault) -> Failure {
    Failure::refused_for(format!(in alloc; "{option}: {fault}"), BAD_URL)
}

/// The feed that a URL names.
fn named<'a>(alloc: Global, option: &str, url: &'a str) -> Result<FeedUrl<'a>, Failure> {
    match feed_url(url) {
        Ok(url) => Ok(url),
        Err(fault) => Err(of_url(alloc, option, fault)),
    }
}

/// The server of a URL, asked as this identity.
fn server_of<'i>(
    alloc: Global,
    url: FeedUrl<'_>,
    identity: &'i Identity,
) -> Result<Server<'i>, Failure> {
    let upstream = UpstreamOptions {
        host: url.host,
        port: url.port,
        from: None,
        base: url.base,
        host_header: None,
        user_file: None,
    };
    let mut servers = servers_of(alloc, &upstream, url.contest, identity)?;
    match servers.pop() {
        Some(server) => Ok(server),
        None => Err(Failure::from(Fault::Memory)),
    }
}

/// For how long the feed is read.
fn patience_of(options: &ProbeOptions<'_>) -> Patience {
    let whole = options.seconds.saturating_mul(1_000);
    Patience {
        whole,
        first: whole,
        next: whole,
    }
}

/// Finds what there is to find of a feed, as far as one thing doesn't hinder the next.
fn judge(
    rt: &HostRuntime,
    options: &ProbeOptions<'_>,
    report: &mut Report,
    server: &Server<'_>,
    passage: &Passage,
) -> Result<(), AllocError> {
    let surveyed = survey_of(rt.alloc(), passage.record.text())?;
    let feed = Feed { passage, surveyed };
    see_format(report, feed)?;
    let (mirror, is_twice) = mirrored(rt.alloc(), feed.text())?;
    if !see_tokens(report, feed, is_twice)? {
        return Ok(());
    }
    let Some(tables) = mirror.node().published() else {
        return Ok(());
    };
    see_start(report, feed, tables)?;
    see_settle(report, feed)?;
    see_answers(rt, report, server, feed, options.verbose)?;
    see_quiet(report, passage)?;
    see_size(report, feed, tables)
}

/// What came of asking a server for everything, where that is a feed, and else why not.
fn look_once(
    rt: &HostRuntime,
    options: &ProbeOptions<'_>,
    server: &Server<'_>,
    report: &mut Report,
) -> Result<Option<Passage>, AllocError> {
    let passage = ask(rt, server, None, patience_of(options))?;
    if options.verbose {
        tell_passage(rt, "everything", &passage);
    }
    let has_user = options.user_file.is_some();
    let is_feed = see_reached(report, server, &passage, has_user)? && see_http(report, &passage)?;
    Ok(if is_feed { Some(passage) } else { None })
}

/// The servers that are looked at.
#[derive(Drop)]
struct Servers<'i> {
    first: Server<'i>,
    second: Option<Server<'i>>,
    // Whether the second one has the same contest.
    is_same_contest: bool,
}

/// Looks at the second server, where there is one. Whether one relay may name both.
fn look_at_second(
    rt: &HostRuntime,
    options: &ProbeOptions<'_>,
    servers: &Servers<'_>,
    first: &Passage,
    report: &mut Report,
) -> Result<bool, AllocError> {
    let Some(server) = &servers.second else {
        return Ok(false);
    };
    let mut apart = Report::new(rt.alloc());
    match look_once(rt, options, server, &mut apart)? {
        Some(second) => {
            let (first, second) = (first.record.text(), second.record.text());
            see_against(report, first, second, servers.is_same_contest)
        }
        None => {
            tell_nothing(report)?;
            Ok(false)
        }
    }
}

/// Looks at the servers. What was found, and whether one relay may name both.
fn look(
    rt: &HostRuntime,
    options: &ProbeOptions<'_>,
    servers: &Servers<'_>,
) -> Result<(Report, bool), AllocError> {
    let mut report = Report::new(rt.alloc());
    let Some(passage) = look_once(rt, options, &servers.first, &mut report)? else {
        return Ok((report, false));
    };
    judge(rt, options, &mut report, &servers.first, &passage)?;
    let both = look_at_second(rt, options, servers, &passage, &mut report)?;
    Ok((report, both))
}

/// The words of the call, where a relay can be called.
fn call_for(
    alloc: Global,
    options: &ProbeOptions<'_>,
    contest: &str,
    report: &Report,
    both: bool,
) -> Result<Vec<String>, AllocError> {
    if !report.is_fit() {
        return Ok(Vec::new(alloc));
    }
    let state = format!(in alloc; "{contest}.state")?;
    let call = Call {
        url: options.url,
        further: if both { options.against } else { None },
        host_header: options.host_header,
        user_file: options.user_file,
        state: state.as_str(),
        needs: report.needs,
    };
    match call_of(alloc, &call) {
        Ok(words) => Ok(words),
        Err(CallFault::Otherwise) => Ok(Vec::new(alloc)),
        Err(CallFault::Memory) => Err(AllocError),
    }
}

/// What is printed of a report.
fn printed(
    alloc: Global,
    options: &ProbeOptions<'_>,
    contest: &str,
    report: &Report,
    both: bool,
) -> Result<Outcome, AllocError> {
    let call = call_for(alloc, options, contest, report, both)?;
    let mut text = Vec::new(alloc);
    if options.json {
        report.put_json(options.url, call.as_slice(), &mut text)?;
    } else {
        let mut lines = String::new(alloc);
        report.put_lines(call.as_slice(), &mut lines)?;
        text.extend_from_slice(lines.as_bytes())?;
    }
    Ok(Outcome {
        text,
        status: report.status(),
    })
}

/// The servers of the URLs, asked as this identity.
fn servers_named<'i>(
    alloc: Global,
    options: &ProbeOptions<'_>,
    url: FeedUrl<'_>,
    identity: &'i Identity,
) -> Result<Servers<'i>, Failure> {
    let first = server_of(alloc, url, identity)?;
    let Some(against) = options.against else {
        return Ok(Servers {
            first,
            second: None,
            is_same_contest: false,
        });
    };
    let other = named(alloc, "--against", against)?;
    Ok(Servers {
        first,
        second: Some(server_of(alloc, other, identity)?),
        is_same_contest: url.contest == other.contest,
    })
}

/// Looks at the server of a URL.
fn probed(rt: &HostRuntime, options: &ProbeOptions<'_>) -> Result<Outcome, Failure> {
    let alloc = rt.alloc();
    let url = named(alloc, "URL", options.url)?;
    let identity = identity_of(rt, options.host_header, options.user_file)?;
    let servers = servers_named(alloc, options, url, &identity)?;
    let (report, both) = needs_memory(look(rt, options, &servers))?;
    needs_memory(printed(alloc, options, url.contest, &report, both))
}

/// Looks at a server for as long as is asked for, prints a line for each finding, and the call of
/// `live` that it takes. Answers 0 where it fits as it is, 1 where it does with the options of the
/// call, 2 where it doesn't, 3 where something was not seen, and 4 where there is no connection.
pub fn probe(rt: &HostRuntime, options: &ProbeOptions<'_>) -> u8 {
    let outcome = match probed(rt, options) {
        Ok(outcome) => outcome,
        Err(failure) => return ended("probe", Err(failure), &mut Errors::new(rt)),
    };
    match rt.stdout().write_all(outcome.text.as_slice()) {
        Ok(()) => outcome.status,
        Err(_) => {
            let failure = Failure::from(Fault::Write);
            ended("probe", Err(failure), &mut Errors::new(rt))
        }
    }
}
