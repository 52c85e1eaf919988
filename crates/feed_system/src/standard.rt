//! Standard input and standard error, which never make the relay wait.

use mio::unix::SourceFd;
use mio::{Interest, Registry, Token};
use std::io::{Read, Write};

/// The tokens of the two.
pub(crate) const INPUT: Token = Token(2);

pub(crate) const ERRORS: Token = Token(3);

const INPUT_FD: i32 = 0;

const ERRORS_FD: i32 = 2;

/// How many bytes of lines are kept that can't be written yet.
const MOST_KEPT: usize = 65_536;

/// How many bytes one write takes: a pipe that is ready takes so many without a wait.
const SLICE: usize = 4_096;

/// Whether events tell when a stream is ready: they do of pipes, terminals and sockets. A file is
/// always ready.
fn is_told_of(registry: &Registry, fd: &i32, token: Token, interests: Interest) -> bool {
    registry
        .register(&mut SourceFd(fd), token, interests)
        .is_ok()
}

/// Standard input.
#[derive(Drop)]
pub(crate) struct InputStream {
    is_told_of: bool,
    is_ready: bool,
    has_ended: bool,
}

impl InputStream {
    pub(crate) fn new(registry: &Registry) -> InputStream {
        let is_told_of = is_told_of(registry, &INPUT_FD, INPUT, Interest::READABLE);
        InputStream {
            is_told_of,
            is_ready: !is_told_of,
            has_ended: false,
        }
    }

    /// Whether its end was read.
    pub(crate) fn has_ended(&self) -> bool {
        self.has_ended
    }

    /// An event came for it.
    pub(crate) fn wake(&mut self) {
        self.is_ready = true;
    }

    pub(crate) fn is_ready(&self) -> bool {
        self.is_ready
    }

    /// Reads once what is there, and answers how much: none at the end, and where it can't be read.
    /// The next event tells whether there is more.
    pub(crate) fn read(&mut self, rt: &HostRuntime, registry: &Registry, buf: &mut [u8]) -> usize {
        let count = rt.reader().read(buf).unwrap_or(0);
        self.has_ended = count == 0;
        if self.is_told_of {
            let source = &mut SourceFd(&INPUT_FD);
            self.is_ready = registry
                .reregister(source, INPUT, Interest::READABLE)
                .is_err();
        }
        count
    }
}

/// Standard error, and what is to be written to it.
#[derive(Drop)]
pub(crate) struct ErrorStream {
    kept: Vec<u8>,
    missed: u64,
    is_told_of: bool,
    is_ready: bool,
}

impl ErrorStream {
    pub(crate) fn new(registry: &Registry, kept: Vec<u8>) -> ErrorStream {
        let is_told_of = is_told_of(registry, &ERRORS_FD, ERRORS, Interest::WRITABLE);
        ErrorStream {
            kept,
            missed: 0,
            is_told_of,
            is_ready: !is_told_of,
        }
    }

    /// An event came for it.
    pub(crate) fn wake(&mut self) {
        self.is_ready = true;
    }

    /// Keeps a line to be written. Where nobody reads those before it, it is only counted.
    pub(crate) fn line(&mut self, line: &str) {
        let room = MOST_KEPT.saturating_sub(self.kept.len());
        if line.len() >= room || self.kept.extend_from_slice(line.as_bytes()).is_err() {
            self.missed = self.missed.saturating_add(1);
        }
    }

    /// So many lines more are left out.
    pub(crate) fn miss(&mut self, count: u64) {
        self.missed = self.missed.saturating_add(count);
    }

    /// How many lines were not kept since this was asked last.
    pub(crate) fn missed(&mut self) -> u64 {
        let missed = self.missed;
        self.missed = 0;
        missed
    }

    /// Whether there is room again for what was not kept.
    pub(crate) fn has_missed(&self) -> bool {
        self.missed > 0 && self.kept.is_empty()
    }

    /// Writes some of what is kept, where that does not wait. An event tells when more can be.
    pub(crate) fn write(&mut self, rt: &HostRuntime, registry: &Registry) {
        if !self.is_ready || self.kept.is_empty() {
            return;
        }
        let piece = self.kept.get(..SLICE).unwrap_or(self.kept.as_slice());
        let count = match rt.stderr().write(piece) {
            Ok(count) => count,
            // Nobody reads: nothing is kept for them.
            Err(_) => self.kept.len(),
        };
        self.forget(count);
        if self.is_told_of {
            self.is_ready = false;
            let _ = registry.reregister(&mut SourceFd(&ERRORS_FD), ERRORS, Interest::WRITABLE);
        }
    }

    fn forget(&mut self, count: usize) {
        let left = self.kept.len().saturating_sub(count);
        self.kept.copy_within(self.kept.len() - left.., 0);
        self.kept.truncate(left);
    }
}
