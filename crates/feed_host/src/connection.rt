//! A connection over TCP: what is read from it and written to it, and how it ends.

ghost use Rattle.std.specs.Prelude.{◌≡◌};

use feed_commands::device::{Failed, FeedRead, FeedWrite};
use feed_http::head_reading::READ_BYTES;
use std::alloc::{AllocError, Global};
use std::io::{Read, Write};
use std::net::{Shutdown, TcpStream};
use std::time::{Duration, Instant};
use std::{io, str};

/// How many seconds and how far a server reads on after its answer.
const LINGER_SECONDS: u64 = 2;

const LINGER_BYTES: usize = 65_536;

/// The bytes of an answer's first line up to the end of its status, `HTTP/1.1 200`, and where the
/// status begins.
const STATUS_END: usize = 12;

const STATUS: usize = 9;

/// What went one way: how many bytes, and the first of them.
#[derive(Drop)]
struct Passed {
    bytes: u64,
    first: [u8; STATUS_END],
}

impl Passed {
    fn new() -> Passed {
        Passed {
            bytes: 0,
            first: [b' '; STATUS_END],
        }
    }

    /// Counts these bytes, and keeps those that belong to the first.
    fn count(&mut self, bytes: &[u8]) {
        let mut at = self.bytes;
        for byte in bytes.iter().take(STATUS_END) {
            if at >= STATUS_END as u64 {
                break;
            }
            if let Some(place) = self.first.get_mut(at as usize) {
                *place = *byte;
            }
            at = at.saturating_add(1);
        }
        self.bytes = self.bytes.saturating_add(bytes.len() as u64);
    }

    /// The status of the answer that went this way; 0 where there was none.
    fn status(&self) -> u16 {
        let digits = self.first.get(STATUS..).unwrap_or(&[]);
        match str::from_utf8(digits) {
            Ok(text) => text.parse::<u16>().unwrap_or(0),
            Err(_) => 0,
        }
    }
}

/// What is read from a connection.
#[derive(Drop)]
pub(crate) struct Incoming {
    stream: TcpStream,
    passed: Passed,
    // How long it may be silent once something came, where that is another time than before.
    pause: Option<Duration>,
    reads: u64,
    failures: u64,
}

/// What is written to a connection.
#[derive(Drop)]
pub(crate) struct Outgoing {
    stream: TcpStream,
    passed: Passed,
    failures: u64,
    began: Option<Instant>,
}

/// Both ends of a connection. What is written goes out at once, where the system allows that.
pub(crate) fn both_ways(rt: &HostRuntime, stream: TcpStream) -> Option<(Incoming, Outgoing)> {
    let reader = stream.try_clone().ok()?;
    let _ = stream.set_nodelay(true);
    let incoming = Incoming {
        stream: reader,
        passed: Passed::new(),
        pause: None,
        reads: 0,
        failures: 0,
    };
    let outgoing = Outgoing {
        stream,
        passed: Passed::new(),
        failures: 0,
        began: Instant::now(rt).ok(),
    };
    Some((incoming, outgoing))
}

impl Incoming {
    /// It may be silent for so long once something came.
    pub(crate) fn pauses(&mut self, pause: Option<Duration>) {
        self.pause = pause;
    }

    /// Something came.
    fn hear(&mut self, bytes: &[u8])
        ensures reads { self.new.reads ≡ self.old.reads }
        ensures failures { self.new.failures ≡ self.old.failures }
    {
        self.passed.count(bytes);
        if let Some(pause) = self.pause.take() {
            let _ = self.stream.set_read_timeout(Some(pause));
        }
    }

    /// The status of the answer that came; 0 where there was none.
    pub(crate) fn status(&self) -> u16 {
        self.passed.status()
    }
}

impl FeedRead for Incoming {
    ghost reads = { λ r. r.reads };

    ghost failures = { λ r. r.failures };

    fn read_some(&mut self, buf: &mut [u8]) -> Result<usize, Failed> {
        self.reads = self.reads.saturating_add(1);
        match self.stream.read(buf) {
            Ok(count) => {
                self.hear(buf.get(..count).unwrap_or(&[]));
                Ok(count)
            }
            Err(_) => {
                self.failures = self.failures.saturating_add(1);
                Err(Failed)
            }
        }
    }
}

impl FeedWrite for Outgoing {
    ghost failures = { λ w. w.failures };

    fn write_some(&mut self, bytes: &[u8]) -> Result<usize, Failed> {
        match self.stream.write(bytes) {
            Ok(count) if count > 0 => {
                self.passed.count(bytes.get(..count).unwrap_or(&[]));
                Ok(count)
            }
            _ => {
                self.failures = self.failures.saturating_add(1);
                Err(Failed)
            }
        }
    }
}

/// What came of a connection: the status of the answer that went this way, its bytes, and the
/// seconds since it was opened.
fn text_of(
    rt: &HostRuntime,
    passed: &Passed,
    began: Option<Instant>,
) -> Result<String, AllocError> {
    let status = passed.status();
    let bytes = passed.bytes;
    let time = since(rt, began);
    let seconds = time.as_secs();
    let thousandths = time.subsec_millis();
    format!(in rt.alloc(); "{status}, {bytes} bytes, {seconds}.{thousandths:03} s")
}

fn since(rt: &HostRuntime, began: Option<Instant>) -> Duration {
    match began {
        Some(began) => began.elapsed(rt).unwrap_or(Duration::ZERO),
        None => Duration::ZERO,
    }
}

/// What came of a connection that was opened to a server: the answer was read.
pub(crate) fn text_of_asked(
    rt: &HostRuntime,
    incoming: &Incoming,
    outgoing: &Outgoing,
) -> Result<String, AllocError> {
    text_of(rt, &incoming.passed, outgoing.began)
}

/// What came of a connection that was accepted: the answer was written.
pub(crate) fn text_of_served(rt: &HostRuntime, outgoing: &Outgoing) -> Result<String, AllocError> {
    text_of(rt, &outgoing.passed, outgoing.began)
}

/// Ends what is written, and reads on until the other end is done, or for some time and length.
/// Where bytes are left unread, closing resets the connection, and the other end may lose the
/// answer.
pub(crate) fn linger(rt: &HostRuntime, incoming: Incoming, outgoing: &Outgoing) {
    let _ = outgoing.stream.shutdown(Shutdown::Write);
    let _ = read_on(rt, incoming.stream);
}

fn read_on(rt: &HostRuntime, mut stream: TcpStream) -> io::Result<()> {
    let mut piece = [0u8; READ_BYTES];
    let start = Instant::now(rt)?;
    let most = Duration::from_secs(LINGER_SECONDS);
    let mut rest = LINGER_BYTES;
    for _ in 0..LINGER_BYTES {
        let left = most.saturating_sub(start.elapsed(rt)?);
        if rest == 0 || left.is_zero() {
            return Ok(());
        }
        stream.set_read_timeout(Some(left))?;
        let count = stream.read(&mut piece)?;
        if count == 0 {
            return Ok(());
        }
        rest = rest.saturating_sub(count);
    }
    Ok(())
}
