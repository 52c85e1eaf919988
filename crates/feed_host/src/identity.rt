//! As whom the program asks servers: the name that a request calls the server by, and the file with
//! a user's name and password.

use crate::ending::Failure;
use feed_answer::{Identity, IdentityFault, PlaceFault};
use feed_commands::{Fault, UpstreamOptions, servers_of};
use libc::geteuid;
use std::fs::{File, Metadata};
use std::io;
use std::io::{ErrorKind, Read};
use std::os::unix::fs::MetadataExt;

/// The most bytes that are read of the file: more than any user has.
const MOST: u64 = 4_096;

/// The bits of a file's mode that let its group, and all others, read, write or run it.
const GROUP: u32 = 0o070;

const OTHERS: u32 = 0o007;

/// What some editors put before UTF-8.
const BYTE_ORDER_MARK: &[u8] = b"\xef\xbb\xbf";

const OPEN_FILE: &str = "the user file is open to others: chmod 600 it";

const FOLDER: &str = "the user file is a folder";

const BAD_FILE: &str = "the user file is not one line NAME:PASSWORD";

const MARKED_FILE: &str =
    "the user file begins with a byte order mark: write it as UTF-8 without one";

const DOS_FILE: &str = "the user file's line ends in CR LF: end it in LF alone";

const NO_FILE: &str = "the user file isn't there";

const SHUT_FILE: &str = "the user file can't be read: this user may not";

const UNREAD_FILE: &str = "the user file can't be read";

const BAD_HEADER: &str = "--host-header is no host";

/// Whether others than the file's owner may do something with it. A file that somebody else gave to
/// a group of ours may be read by that group.
fn is_open_to_others(file: &Metadata) -> bool {
    let mode = file.mode();
    mode & OTHERS != 0 || mode & GROUP != 0 && file.uid() == geteuid()
}

/// Why a file is not read, by what it is; none where it may be.
fn refusal_of(file: &Metadata) -> Option<&'static str> {
    if file.is_dir() {
        Some(FOLDER)
    } else if is_open_to_others(file) {
        Some(OPEN_FILE)
    } else {
        None
    }
}

/// The text of the file, or why it is not read.
fn read_file(rt: &HostRuntime, path: &str) -> io::Result<Result<Vec<u8>, &'static str>> {
    let file = File::open(rt, path)?;
    if let Some(refusal) = refusal_of(&file.metadata()?) {
        return Ok(Err(refusal));
    }
    let mut text = Vec::new(rt.alloc());
    file.take(MOST).read_to_end(&mut text)?;
    Ok(Ok(text))
}

/// Why the file can't be read.
fn unread_by(error: &io::Error) -> Failure {
    let text = match error.kind() {
        ErrorKind::OutOfMemory => return Failure::from(Fault::Memory),
        ErrorKind::NotFound => NO_FILE,
        ErrorKind::PermissionDenied => SHUT_FILE,
        _ => UNREAD_FILE,
    };
    Failure::with_more(Fault::Read, text)
}

/// What the file has, or why it can't be taken.
fn text_of(rt: &HostRuntime, path: &str) -> Result<Vec<u8>, Failure> {
    match read_file(rt, path) {
        Ok(Ok(text)) => Ok(text),
        Ok(Err(refusal)) => Err(Failure::refused(refusal)),
        Err(error) => Err(unread_by(&error)),
    }
}

/// The line of the file, without its end, or why it has none.
fn line_of(text: &[u8]) -> Result<&str, &'static str> {
    if text.starts_with(BYTE_ORDER_MARK) {
        return Err(MARKED_FILE);
    }
    if text.ends_with(b"\r\n") {
        return Err(DOS_FILE);
    }
    let line = text.strip_suffix(b"\n".as_slice()).unwrap_or(text);
    std::str::from_utf8(line).map_err(|_| BAD_FILE)
}

fn failure_of(fault: IdentityFault) -> Failure {
    match fault {
        IdentityFault::BadHost => {
            Failure::with_more(Fault::from(PlaceFault::BadHost), BAD_HEADER)
        }
        IdentityFault::BadUser => Failure::refused(BAD_FILE),
        IdentityFault::Memory => Failure::from(Fault::Memory),
    }
}

/// As whom servers are asked: the name that they are called by, and the file with the user, where
/// there are such. No failure says what the file has.
pub fn identity_of(
    rt: &HostRuntime,
    host_header: Option<&str>,
    user_file: Option<&str>,
) -> Result<Identity, Failure> {
    let alloc = rt.alloc();
    let Some(path) = user_file else {
        return Identity::new(alloc, host_header, None).map_err(failure_of);
    };
    let text = text_of(rt, path)?;
    let line = line_of(text.as_slice()).map_err(|refusal| Failure::refused(refusal))?;
    Identity::new(alloc, host_header, Some(line)).map_err(failure_of)
}

/// As whom the servers of these options are asked. What is wrong with the servers is found first:
/// they are made once for nobody in particular, since each borrows the identity.
pub(crate) fn identity_for(
    rt: &HostRuntime,
    upstream: &UpstreamOptions<'_>,
    contest: &str,
) -> Result<Identity, Failure> {
    let nobody = Identity::anonymous();
    servers_of(rt.alloc(), upstream, contest, &nobody)?;
    identity_of(rt, upstream.host_header, upstream.user_file)
}
