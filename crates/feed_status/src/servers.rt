//! The table of the servers.

use crate::cells::Cell;
use crate::escape::put_element;
use crate::families::Escaped;
use crate::status::{LastFailure, UpstreamState};
use std::alloc::{AllocError, Global};
use std::fmt;

/// How many cells each has.
const CELLS: usize = 5;

/// What stands above them.
pub(crate) const SERVER_HEADERS: [&str; CELLS] = [
    "Server",
    "State",
    "Last status",
    "Last failure",
    "Token",
];

/// One server that was named; one with several addresses is there for each.
#[derive(Drop)]
pub struct WatchedServer {
    /// Its host and port.
    pub name: String,
    /// How things stand with it, where it is the one that is asked; none where another one is.
    pub state: Option<UpstreamState>,
    /// For how long that has been so; none where it was never followed.
    pub for_ms: Option<u64>,
    /// How often it was asked.
    pub asked: u64,
    /// The status of its last answer; none where it has given none.
    pub status: Option<u16>,
    /// How often it was lost, or refused the relay's token.
    pub failures: u64,
    /// Why, the last time; no matter where it never was.
    pub failure: String,
    /// How long ago that was; none where it never was.
    pub failure_age_ms: Option<u64>,
    /// The token that was shown when its feed was left, or that is shown now, where it is followed.
    pub token: Option<String>,
}

impl WatchedServer {
    fn last_failure<'a>(&'a self) -> Option<LastFailure<'a>> {
        let age_ms = self.failure_age_ms?;
        Some(LastFailure {
            text: self.failure.as_str(),
            age_ms,
        })
    }

    /// The word that JSON has for how things stand with it.
    fn word(&self) -> &'static str {
        match self.state {
            Some(state) => state.word(),
            None => "waiting",
        }
    }

    /// Its cells in the page's table.
    fn cells<'a>(&'a self) -> [Cell<'a>; CELLS] {
        let token = self.token.as_ref().map(|token| token.as_str());
        [
            Cell::Text(self.name.as_str()),
            Cell::Server(self.state, self.for_ms),
            Cell::Known(self.status),
            Cell::LastFailure(self.last_failure()),
            Cell::Text(token.unwrap_or("none")),
        ]
    }

    /// The texts of its cells.
    fn texts(&self, alloc: Global) -> Result<Vec<String>, AllocError> {
        let mut texts = Vec::new(alloc);
        for cell in &self.cells() {
            texts.push(format!(in alloc; "{cell}")?)?;
        }
        Ok(texts)
    }
}

/// What is told of a server as JSON.
#[derive(Drop)]
pub(crate) struct ServerJson<'a> {
    pub(crate) server: &'a WatchedServer,
    pub(crate) state: &'a str,
    pub(crate) last_failure: Option<LastFailure<'a>>,
    pub(crate) cells: Vec<String>,
}

/// What is told of these servers.
pub(crate) fn report_servers<'a>(
    alloc: Global,
    servers: &'a [WatchedServer],
) -> Result<Vec<ServerJson<'a>>, AllocError> {
    let mut told = Vec::new(alloc);
    for server in servers {
        told.push(ServerJson {
            server,
            state: server.word(),
            last_failure: server.last_failure(),
            cells: server.texts(alloc)?,
        })?;
    }
    Ok(told)
}

fn put_cells(cells: &[String], out: &mut Vec<u8>) -> Result<(), AllocError> {
    out.extend_from_slice(b"<tr>")?;
    for cell in cells {
        put_element("<td>", cell.as_str(), "</td>", out)?;
    }
    out.extend_from_slice(b"</tr>\n")
}

/// Appends the rows of the page's table.
pub(crate) fn put_servers(
    alloc: Global,
    servers: &[WatchedServer],
    out: &mut Vec<u8>,
) -> Result<(), AllocError> {
    for server in servers {
        put_cells(server.texts(alloc)?.as_slice(), out)?;
    }
    Ok(())
}

/// Appends the status of the last answer of each server as a metric: 0 where it has given none.
pub(crate) fn put_statuses<W: fmt::Write>(
    servers: &[WatchedServer],
    f: &mut fmt::Formatter<W>,
) -> fmt::Result {
    if servers.is_empty() {
        return Ok(());
    }
    f.write_str(
        "# HELP tunygarop_upstream_last_status Status of the last answer, by server.\n\
         # TYPE tunygarop_upstream_last_status gauge\n",
    )?;
    for (number, server) in servers.iter().enumerate() {
        let (name, status) = (Escaped(server.name.as_str()), server.status.unwrap_or(0));
        write!(
            f,
            "tunygarop_upstream_last_status{{server=\"{name}\",number=\"{number}\"}} {status}\n"
        )?;
    }
    Ok(())
}
