//! Standard input and files, read ahead of the pieces that commands ask for: a call of the system
//! gives many of them.

use std::fs::File;
use std::io;
use std::io::{BufReader, Read, Stdin, Take};

/// The most bytes that are read ahead.
const AHEAD_BYTES: usize = 65_536;

/// Standard input, read ahead. A read gives what has come, and waits for no more.
pub fn input_ahead(rt: &HostRuntime) -> io::Result<BufReader<Stdin>> {
    BufReader::with_capacity(rt.alloc(), AHEAD_BYTES, rt.stdin())
}

/// A file, read ahead.
pub(crate) fn file_ahead(rt: &HostRuntime, path: &str) -> io::Result<BufReader<File>> {
    let file = File::open(rt, path)?;
    BufReader::with_capacity(rt.alloc(), AHEAD_BYTES, file)
}

/// The first bytes of a file, so many at most, read ahead.
pub(crate) fn file_part_ahead(
    rt: &HostRuntime,
    path: &str,
    bytes: u64,
) -> io::Result<BufReader<Take<File>>> {
    let file = File::open(rt, path)?;
    BufReader::with_capacity(rt.alloc(), AHEAD_BYTES, file.take(bytes))
}
