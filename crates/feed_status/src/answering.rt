//! The answers to requests on the status port.

use crate::health::Headline;
use crate::json::StatusJson;
use crate::metrics::Metrics;
use crate::page::put_page;
use crate::plots::PlotsJson;
use crate::rows::rows_of;
use crate::screens::{MOST_SCREENS, report};
use crate::servers::report_servers;
use crate::status::Status;
use crate::watch::Watch;
use http::StatusCode;
use httparse::Status as Parsed;
use httparse::spans::{EMPTY_HEADER_SPAN, parse_request};
use std::alloc::{AllocError, Global};

/// The most fields of a request's head.
const MOST_FIELDS: usize = 64;

/// What is asked for.
#[derive(Clone, Copy)]
enum Wanted {
    Page,
    Json,
    Screens,
    Plots,
    Metrics,
    Health,
}

impl Wanted {
    fn at(path: &str) -> Option<Wanted> {
        match path {
            "/" => Some(Wanted::Page),
            "/status.json" => Some(Wanted::Json),
            "/screens.json" => Some(Wanted::Screens),
            "/plots.json" => Some(Wanted::Plots),
            "/metrics" => Some(Wanted::Metrics),
            "/health" => Some(Wanted::Health),
            _ => None,
        }
    }

    /// The type of what is answered.
    fn content_type(self) -> &'static str {
        match self {
            Wanted::Page => "text/html; charset=utf-8",
            Wanted::Json | Wanted::Screens | Wanted::Plots => "application/json",
            Wanted::Metrics => "text/plain; version=0.0.4; charset=utf-8",
            Wanted::Health => "text/plain; charset=utf-8",
        }
    }
}

/// A request that can be answered.
#[derive(Clone, Copy)]
struct Asked {
    wanted: Wanted,
    has_body: bool,
}

/// What a request asks for, or the status that it is refused with: 400 where there is no whole
/// head, 405 where the method is neither GET nor HEAD, 404 for another path.
fn read_request(head: &[u8]) -> Result<Asked, StatusCode> {
    let mut headers = [EMPTY_HEADER_SPAN; MOST_FIELDS];
    let Ok(Parsed::Complete(spans)) = parse_request(head, &mut headers) else {
        return Err(StatusCode::BAD_REQUEST);
    };
    let method = &head[spans.method.start..spans.method.end];
    let has_body = method == b"GET".as_slice();
    if !has_body && method != b"HEAD".as_slice() {
        return Err(StatusCode::METHOD_NOT_ALLOWED);
    }
    let Ok(target) = std::str::from_utf8(&head[spans.path.start..spans.path.end]) else {
        return Err(StatusCode::NOT_FOUND);
    };
    let path = match target.split_once('?') {
        Some((path, _)) => path,
        None => target,
    };
    match Wanted::at(path) {
        Some(wanted) => Ok(Asked { wanted, has_body }),
        None => Err(StatusCode::NOT_FOUND),
    }
}

/// The status as JSON, with its level, its headline, the rows of the page's table, and the servers.
fn json<W: Watch>(alloc: Global, relay: &W, status: &Status<'_>) -> Result<Vec<u8>, AllocError> {
    let headline = format!(in alloc; "{}", Headline(status))?;
    let rows = rows_of(alloc, status)?;
    let watched = relay.servers(alloc)?;
    let servers = report_servers(alloc, watched.as_slice())?;
    let told = StatusJson {
        level: status.level(),
        headline: headline.as_str(),
        rows: rows.as_slice(),
        servers: servers.as_slice(),
        status,
    };
    serde_json::to_vec(alloc, &told).map_err(|_| AllocError)
}

/// The screens as JSON, the slowest first.
fn screens<W: Watch>(alloc: Global, relay: &W, status: &Status<'_>) -> Result<Vec<u8>, AllocError> {
    let rows = relay.screens(alloc, MOST_SCREENS)?;
    let told = report(alloc, rows.as_slice(), status.screens.open, status.token)?;
    serde_json::to_vec(alloc, &told).map_err(|_| AllocError)
}

/// The last ten minutes as JSON.
fn plots<W: Watch>(alloc: Global, relay: &W) -> Result<Vec<u8>, AllocError> {
    let told = PlotsJson::of(alloc, relay.plots())?;
    serde_json::to_vec(alloc, &told).map_err(|_| AllocError)
}

/// The page, with the tables of the servers and of the screens.
fn page<W: Watch>(alloc: Global, relay: &W, status: &Status<'_>) -> Result<Vec<u8>, AllocError> {
    let screens = relay.screens(alloc, MOST_SCREENS)?;
    let mut out = Vec::new(alloc);
    let servers = relay.servers(alloc)?;
    put_page(
        alloc,
        status,
        servers.as_slice(),
        screens.as_slice(),
        &mut out,
    )?;
    Ok(out)
}

/// The metrics, with those of the servers and of the process.
fn metrics<W: Watch>(alloc: Global, relay: &W, status: &Status<'_>) -> Result<Vec<u8>, AllocError> {
    let servers = relay.servers(alloc)?;
    let metrics = Metrics(status, servers.as_slice(), relay.process());
    let text = format!(in alloc; "{metrics}")?;
    Ok(text.into_bytes())
}

/// The line on how the relay is.
fn health(alloc: Global, status: &Status<'_>) -> Result<Vec<u8>, AllocError> {
    let text = format!(in alloc; "{}\n", Headline(status))?;
    Ok(text.into_bytes())
}

/// The body of an answer.
fn body<W: Watch>(
    alloc: Global,
    wanted: Wanted,
    relay: &W,
    status: &Status<'_>,
) -> Result<Vec<u8>, AllocError> {
    match wanted {
        Wanted::Page => page(alloc, relay, status),
        Wanted::Json => json(alloc, relay, status),
        Wanted::Screens => screens(alloc, relay, status),
        Wanted::Plots => plots(alloc, relay),
        Wanted::Metrics => metrics(alloc, relay, status),
        Wanted::Health => health(alloc, status),
    }
}

/// The status code of an answer.
fn code_of(wanted: Wanted, status: &Status<'_>) -> StatusCode {
    match wanted {
        Wanted::Health if !status.is_healthy() => StatusCode::SERVICE_UNAVAILABLE,
        _ => StatusCode::OK,
    }
}

/// The head of an answer. The page may run its own script and ask its own server, and nothing else.
fn head_of(
    alloc: Global,
    code: StatusCode,
    kind: &str,
    length: usize,
) -> Result<Vec<u8>, AllocError> {
    let number = code.as_u16();
    let reason = code.canonical_reason().unwrap_or("");
    let allow = match code {
        StatusCode::METHOD_NOT_ALLOWED => "Allow: GET, HEAD\r\n",
        _ => "",
    };
    let text = format!(in alloc;
        "HTTP/1.1 {number} {reason}\r\nContent-Type: {kind}\r\nContent-Length: {length}\r\n\
         {allow}Cache-Control: no-store\r\nX-Content-Type-Options: nosniff\r\n\
         Content-Security-Policy: default-src 'none'; script-src 'unsafe-inline'; \
         style-src 'unsafe-inline'; connect-src 'self'\r\nConnection: close\r\n\r\n"
    )?;
    Ok(text.into_bytes())
}

/// The answer to a request.
fn answered<W: Watch>(alloc: Global, asked: Asked, relay: &W) -> Result<Vec<u8>, AllocError> {
    let Asked { wanted, has_body } = asked;
    let status = &relay.status();
    let body = body(alloc, wanted, relay, status)?;
    let code = code_of(wanted, status);
    let mut text = head_of(alloc, code, wanted.content_type(), body.len())?;
    if has_body {
        text.extend_from_slice(body.as_slice())?;
    }
    Ok(text)
}

/// The whole answer to a request of which this is the head: `/` is the page, `/status.json` the
/// status, `/screens.json` the 200 slowest screens, `/plots.json` the last ten minutes, `/metrics`
/// the metrics for Prometheus, `/health` one line, with status 503 where upstream is silent for too
/// long, or a request for everything is not answered with it. For HEAD it has no body. The
/// connection is closed after it.
pub fn answer<W: Watch>(alloc: Global, head: &[u8], relay: &W) -> Result<Vec<u8>, AllocError> {
    match read_request(head) {
        Ok(asked) => answered(alloc, asked, relay),
        Err(code) => head_of(alloc, code, "text/plain; charset=utf-8", 0),
    }
}
