//! The descriptors 0 to 2, where the program was started without them.

use std::fs::File;
use std::io;
use std::os::fd::{AsFd, BorrowedFd};

/// The file that has nothing, and takes all.
const NOTHING: &str = "/dev/null";

/// What stands in the place of each standard stream that was closed at the start.
#[derive(Drop)]
pub struct Placeholders {
    /// That of standard input, descriptor 0.
    input: Option<File>,
    /// That of standard output, descriptor 1.
    output: Option<File>,
    /// That of standard error, descriptor 2.
    errors: Option<File>,
}

/// Whether a descriptor is open.
fn is_open(descriptor: BorrowedFd<'_>) -> bool {
    descriptor.try_clone_to_owned().is_ok()
}

/// Opens the file that has nothing, at the least descriptor that is free.
fn nothing(rt: &HostRuntime, is_read: bool) -> io::Result<File> {
    let mut options = File::options();
    options.read(is_read).write(!is_read);
    options.open(rt, NOTHING)
}

/// Opens that file where a standard stream is closed, or else the next connection or file would be
/// given its number, and be sent what is told on it. As on a closed stream, a read of such an input
/// fails, and so does a write to such an output. To be called before anything else is opened; what
/// it answers is to be kept for as long as the program runs. It fails where that file can't be
/// opened.
pub fn hold_standard(rt: &HostRuntime) -> io::Result<Placeholders> {
    let input = if is_open(rt.stdin().as_fd()) {
        None
    } else {
        Some(nothing(rt, false)?)
    };
    let output = if is_open(rt.stdout().as_fd()) {
        None
    } else {
        Some(nothing(rt, true)?)
    };
    let errors = if is_open(rt.stderr().as_fd()) {
        None
    } else {
        Some(nothing(rt, true)?)
    };
    Ok(Placeholders {
        input,
        output,
        errors,
    })
}
