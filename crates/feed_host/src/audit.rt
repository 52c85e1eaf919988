//! The command `audit`, over files and the standard streams.

ghost use Rattle.feed_commands.specs.DeviceLines.{FailsToOpen};

use crate::ahead::{file_ahead, file_part_ahead, input_ahead};
use crate::ending::Failure;
use feed_commands::stream::Stream;
use feed_commands::{
    AuditFault, AuditOptions, DeviceLines, Fault, RecordLines, Recording, Replayed, ScreenLines,
    Skipped, TextLines, Unread, print_verdict, read_record,
};
use std::fs::File;
use std::io::{BufReader, ErrorKind, Take};
use std::{fs, io};

/// The name that stands for standard input.
const INPUT: &str = "-";

/// What a second line says of a record that can't be read, and of one that is too long.
#[derive(Clone, Copy)]
struct Texts {
    unread: &'static str,
    long: &'static str,
}

const PRIMARY_FILE: Texts = Texts {
    unread: "the primary's record can't be read",
    long: "the primary's record has over 512 MiB",
};

/// The same of a file that is read line by line.
const PRIMARY_LINES: Texts = Texts {
    unread: "the primary's record can't be read",
    long: "the primary's record has over 1 TiB",
};

const PRIMARY_INPUT: Texts = Texts {
    unread: "the primary's record, on standard input, can't be read",
    long: "the primary's record, on standard input, has over 512 MiB",
};

const SCREEN_FILE: Texts = Texts {
    unread: "the screen's record can't be read",
    long: "the screen's record has over 1 TiB",
};

const SCREEN_INPUT: Texts = Texts {
    unread: "the screen's record, on standard input, can't be read",
    long: "the screen's record, on standard input, has over 1 TiB",
};

impl Texts {
    /// A fault of reading the record; a second line says which.
    fn failure(self, fault: Fault) -> Failure {
        match fault {
            Fault::Read => Failure::with_more(fault, self.unread),
            Fault::TooLong => Failure::with_more(fault, self.long),
            _ => Failure::from(fault),
        }
    }
}

/// Why a file can't be opened. Its length says nothing then.
fn unread_by(error: &io::Error) -> Unread
    ensures { FailsToOpen (Unit {0}) result }
{
    match error.kind() {
        ErrorKind::OutOfMemory => Unread::Memory,
        _ => Unread::Failed,
    }
}

/// The fault of a record that can't be read.
fn fault_of(why: Unread) -> Fault {
    match why {
        Unread::Failed => Fault::Read,
        Unread::TooLong => Fault::TooLong,
        Unread::Memory => Fault::Memory,
    }
}

/// A file that is read from its beginning as often as it has to be, up to where it ended at first.
#[derive(Drop)]
struct RecordFile<'a> {
    rt: &'a HostRuntime,
    name: &'a str,
    bytes: u64,
}

impl<'a> Recording for RecordFile<'a> {
    type Reader = Stream<BufReader<Take<File>>>;

    ghost shut = { λ _. Unit {0} };

    fn open(&self) -> Result<Stream<BufReader<Take<File>>>, Unread> {
        match file_part_ahead(self.rt, self.name, self.bytes) {
            Ok(file) => Ok(Stream::new(file)),
            Err(error) => Err(unread_by(&error)),
        }
    }
}

/// The file of this name, where it is one that can be read again.
fn record_file<'a>(rt: &'a HostRuntime, name: &'a str) -> Option<RecordFile<'a>> {
    if name == INPUT {
        return None;
    }
    let attributes = fs::metadata(rt, name).ok()?;
    if !attributes.is_file() {
        return None;
    }
    Some(RecordFile {
        rt,
        name,
        bytes: attributes.len(),
    })
}

/// What the file of this name has.
fn read_file(rt: &HostRuntime, name: &str) -> Result<Vec<u8>, Failure> {
    match file_ahead(rt, name) {
        Ok(file) => read_record(rt.alloc(), &mut Stream::new(file)).map_err(
            |fault| PRIMARY_FILE.failure(fault),
        ),
        Err(error) => Err(PRIMARY_FILE.failure(fault_of(unread_by(&error)))),
    }
}

/// What standard input has.
fn read_input(rt: &HostRuntime) -> Result<Vec<u8>, Failure> {
    let Ok(input) = input_ahead(rt) else {
        return Err(Failure::from(Fault::Memory));
    };
    read_record(rt.alloc(), &mut Stream::new(input)).map_err(|fault| PRIMARY_INPUT.failure(fault))
}

/// The primary's record, which can be read once alone.
fn read_primary(rt: &HostRuntime, name: &str) -> Result<Vec<u8>, Failure> {
    if name == INPUT {
        read_input(rt)
    } else {
        read_file(rt, name)
    }
}

/// Prints whether each state of this record of the screen's is one of the primary's.
fn audit_lines<P: Replayed, L: Skipped + Drop>(
    rt: &HostRuntime,
    options: &AuditOptions<'_>,
    primary: &mut P,
    screen: L,
    texts: Texts,
) -> Result<(), Failure> {
    let mut screen = ScreenLines::new(screen);
    let mut out = Stream::new(rt.stdout());
    match print_verdict(rt.alloc(), options, primary, &mut screen, &mut out) {
        Ok(()) => Ok(()),
        Err(Fault::Audit(AuditFault::PrimaryUnread(why))) => {
            Err(PRIMARY_LINES.failure(fault_of(why)))
        }
        Err(Fault::Audit(AuditFault::ScreenUnread(why))) => Err(texts.failure(fault_of(why))),
        Err(fault) => Err(Failure::from(fault)),
    }
}

/// The same of the file of this name.
fn audit_file<P: Replayed>(
    rt: &HostRuntime,
    options: &AuditOptions<'_>,
    primary: &mut P,
    name: &str,
) -> Result<(), Failure> {
    match file_ahead(rt, name) {
        Ok(file) => {
            let screen = DeviceLines::new(rt.alloc(), Stream::new(file));
            audit_lines(rt, options, primary, screen, SCREEN_FILE)
        }
        Err(error) => Err(SCREEN_FILE.failure(fault_of(unread_by(&error)))),
    }
}

/// The same of standard input.
fn audit_input<P: Replayed>(
    rt: &HostRuntime,
    options: &AuditOptions<'_>,
    primary: &mut P,
) -> Result<(), Failure> {
    let Ok(input) = input_ahead(rt) else {
        return Err(Failure::from(Fault::Memory));
    };
    let screen = DeviceLines::new(rt.alloc(), Stream::new(input));
    audit_lines(rt, options, primary, screen, SCREEN_INPUT)
}

/// The same of the record that is asked for: standard input, where no file is named.
fn audit_with<P: Replayed>(
    rt: &HostRuntime,
    options: &AuditOptions<'_>,
    primary: &mut P,
) -> Result<(), Failure> {
    match options.screen {
        Some(name) if name != INPUT => audit_file(rt, options, primary, name),
        _ => audit_input(rt, options, primary),
    }
}

/// Prints whether each state of the screen's record is one of the primary's. One of both records at
/// most is on standard input. The screen's is read line by line, once. That of the primary is read
/// line by line, too, where it is a file that can be read again, and else whole.
pub fn audit_records(rt: &HostRuntime, options: &AuditOptions<'_>) -> Result<(), Failure> {
    let Some(file) = record_file(rt, options.primary) else {
        let primary = read_primary(rt, options.primary)?;
        return audit_with(rt, options, &mut TextLines::new(primary.as_slice()));
    };
    match RecordLines::open(rt.alloc(), file) {
        Ok(mut primary) => audit_with(rt, options, &mut primary),
        Err(why) => Err(PRIMARY_LINES.failure(fault_of(why))),
    }
}
