//! Standard error, which never makes a command wait: a line that it can't take at once is left
//! away.
ghost use Rattle.std.specs.Prelude.{◌≡◌};

use feed_commands::device::{Failed, FeedWrite};
use libc::STDERR_FILENO;
use libc::net::{POLLOUT, poll};
use libc::types::pollfd;
use std::io::Write;

/// Whether standard error takes a line without a wait, or fails without one. A file always does; a
/// pipe or a terminal does where it has room.
fn is_ready() -> bool {
    let mut asked = [pollfd {
        fd: STDERR_FILENO,
        events: POLLOUT,
        revents: 0,
    }];
    poll(&mut asked, 0) != 0
}

/// Writes a line, which is shorter than what a ready pipe takes. Whether it was written.
fn write_line(rt: &HostRuntime, line: &[u8]) -> bool {
    is_ready() && rt.stderr().write_all(line).is_ok()
}

/// Standard error as a device, which takes whole lines, and never waits: a line that it can't take
/// at once has failed.
#[derive(Drop)]
pub struct Errors<'r> {
    rt: &'r HostRuntime,
    // The line that has not ended yet.
    line: Vec<u8>,
    failures: u64,
}

impl<'r> Errors<'r> {
    /// Nothing was written yet.
    pub fn new(rt: &'r HostRuntime) -> Errors<'r> {
        Errors {
            rt,
            line: Vec::new(rt.alloc()),
            failures: 0,
        }
    }

    /// Takes a piece, and writes the line that it ends. Whether all was taken.
    fn take(&mut self, piece: &[u8]) -> bool
        ensures { self.new.failures ≡ self.old.failures }
    {
        if self.line.extend_from_slice(piece).is_err() {
            return false;
        }
        if !piece.ends_with(b"\n") {
            return true;
        }
        let is_written = write_line(self.rt, self.line.as_slice());
        self.line.clear();
        is_written
    }
}

impl FeedWrite for Errors<'_> {
    ghost failures = { λ e. e.failures };

    fn write_some(&mut self, bytes: &[u8]) -> Result<usize, Failed> {
        if self.take(bytes) {
            return Ok(bytes.len());
        }
        self.failures = self.failures.saturating_add(1);
        Err(Failed)
    }
}

/// What a command reports with `--verbose`.
#[derive(Clone, Copy)]
pub(crate) struct Reporter<'r> {
    rt: &'r HostRuntime,
    name: &'static str,
    is_verbose: bool,
}

impl<'r> Reporter<'r> {
    /// The command of this name reports, where that was asked for.
    pub(crate) fn new(rt: &'r HostRuntime, name: &'static str, is_verbose: bool) -> Reporter<'r> {
        Reporter {
            rt,
            name,
            is_verbose,
        }
    }

    /// Reports a line. Whether it was written.
    pub(crate) fn line(&self, text: &str) -> bool {
        let name = self.name;
        match format!(in self.rt.alloc(); "{name}: {text}\n") {
            Ok(line) => write_line(self.rt, line.as_bytes()),
            Err(_) => false,
        }
    }

    /// Reports that a port is listened at, where that was asked for.
    pub(crate) fn listening(&self, port: u16) {
        if !self.is_verbose {
            return;
        }
        if let Ok(text) = format!(in self.rt.alloc(); "listening at 127.0.0.1, port {port}") {
            self.line(text.as_str());
        }
    }

    /// Reports what came of a connection to this peer, where that was asked for.
    pub(crate) fn connection(&self, peer: &str, came: &str) {
        if !self.is_verbose {
            return;
        }
        if let Ok(text) = format!(in self.rt.alloc(); "{peer}: {came}") {
            self.line(text.as_str());
        }
    }
}
