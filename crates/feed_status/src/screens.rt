//! The table of the screens.

use crate::cells::Cell;
use crate::escape::put_element;
use std::alloc::{AllocError, Global};

/// How many screens are told of.
pub(crate) const MOST_SCREENS: usize = 200;

/// How many cells each has.
const CELLS: usize = 5;

/// What stands above them.
pub(crate) const HEADERS: [&str; CELLS] = ["Address", "For", "Status", "Token", "Bytes"];

/// One screen's connection.
#[derive(Drop)]
pub struct WatchedScreen {
    /// Its address and port.
    pub address: String,
    /// For how long it is connected.
    pub for_ms: u64,
    /// The status of its answer; none while its request comes.
    pub status: Option<u16>,
    /// Whether it is sent what is published.
    pub follows: bool,
    /// How many bytes there are for it that it has not taken.
    pub behind_bytes: u64,
    /// How many bytes it took.
    pub bytes: u64,
}

impl WatchedScreen {
    /// The token of what it was sent, where that is all.
    fn token<'a>(&self, token: Option<&'a str>) -> Option<&'a str> {
        if self.follows && self.behind_bytes == 0 {
            token
        } else {
            None
        }
    }

    /// Its cells in the page's table.
    fn cells<'a>(&'a self, token: Option<&'a str>) -> [Cell<'a>; CELLS] {
        [
            Cell::Text(self.address.as_str()),
            Cell::Time(self.for_ms),
            Cell::Answer(self.status),
            Cell::Place(self.token(token), self.behind_bytes),
            Cell::Number(self.bytes),
        ]
    }

    /// The texts of its cells.
    fn texts(&self, alloc: Global, token: Option<&str>) -> Result<Vec<String>, AllocError> {
        let mut texts = Vec::new(alloc);
        for cell in &self.cells(token) {
            texts.push(format!(in alloc; "{cell}")?)?;
        }
        Ok(texts)
    }
}

/// What is told of a screen as JSON.
#[derive(Drop)]
pub(crate) struct ScreenJson<'a> {
    pub(crate) address: &'a str,
    pub(crate) for_ms: u64,
    pub(crate) status: Option<u16>,
    pub(crate) token: Option<&'a str>,
    pub(crate) behind_bytes: u64,
    pub(crate) bytes: u64,
    pub(crate) cells: Vec<String>,
}

/// What is told of screens as JSON.
#[derive(Drop)]
pub(crate) struct ScreensJson<'a> {
    /// How many there are in all.
    pub(crate) open: u64,
    pub(crate) screens: Vec<ScreenJson<'a>>,
}

/// What is told of these screens, of so many, where this token is published.
pub(crate) fn report<'a>(
    alloc: Global,
    screens: &'a [WatchedScreen],
    open: u64,
    token: Option<&'a str>,
) -> Result<ScreensJson<'a>, AllocError> {
    let mut told = Vec::new(alloc);
    for screen in screens {
        told.push(ScreenJson {
            address: screen.address.as_str(),
            for_ms: screen.for_ms,
            status: screen.status,
            token: screen.token(token),
            behind_bytes: screen.behind_bytes,
            bytes: screen.bytes,
            cells: screen.texts(alloc, token)?,
        })?;
    }
    Ok(ScreensJson {
        open,
        screens: told,
    })
}

fn put_cells(cells: &[String], out: &mut Vec<u8>) -> Result<(), AllocError> {
    out.extend_from_slice(b"<tr>")?;
    for cell in cells {
        put_element("<td>", cell.as_str(), "</td>", out)?;
    }
    out.extend_from_slice(b"</tr>\n")
}

/// Appends the rows of the page's table.
pub(crate) fn put_screens(
    alloc: Global,
    screens: &[WatchedScreen],
    token: Option<&str>,
    out: &mut Vec<u8>,
) -> Result<(), AllocError> {
    for screen in screens {
        put_cells(screen.texts(alloc, token)?.as_slice(), out)?;
    }
    Ok(())
}
