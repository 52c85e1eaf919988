//! One connection to a server: what came of it, and when. Times are in milliseconds from when it
//! was asked for.

use feed_answer::{request_text_as, without_brackets};
use feed_commands::Server;
use feed_probe::{Record, Response};
use std::alloc::{AllocError, Global};
use std::io;
use std::io::{ErrorKind, Read, Write};
use std::net::{SocketAddr, TcpStream, ToSocketAddrs};
use std::time::{Duration, Instant};

/// For how long a connection may open, and a server be silent before its answer, as `live` waits.
pub(super) const OPENS: u64 = 10_000;

pub(super) const ANSWERS: u64 = 20_000;

/// For how long a server that is late is waited for beyond that.
const LATE: u64 = 5_000;

/// For how long one read waits.
const READ: u64 = 50;

/// How many bytes are read at once.
const PIECE: usize = 65_536;

/// How a connection ended.
#[derive(Clone, Copy, PartialEq, Eq)]
pub(super) enum End {
    /// It was left.
    Left,
    /// The server closed it.
    Closed,
    /// It broke off.
    Reset,
    /// All of the response came.
    Whole,
}

/// For how long a response is read.
#[derive(Clone, Copy)]
pub(super) struct Patience {
    /// For how long once its head came.
    pub(super) whole: u64,
    /// For how long without a line, and without a further one; as long as the whole, where all of
    /// it is to be read.
    pub(super) first: u64,
    pub(super) next: u64,
}

/// What came of a connection.
#[derive(Drop)]
pub(super) struct Passage {
    /// Why there was none, as the system says it; none where there was one.
    pub(super) reason: Option<ErrorKind>,
    pub(super) response: Response,
    pub(super) record: Record,
    /// When the connection was open, and when the head had come.
    pub(super) opened: u64,
    pub(super) answered: Option<u64>,
    /// When something came last, and when it ended.
    pub(super) heard: u64,
    pub(super) ended: u64,
    pub(super) end: End,
    // Where a piece of the payload is taken to.
    payload: Vec<u8>,
}

/// Connects to the first address of a host that accepts that in time. A host without an address
/// isn't found.
fn connect(rt: &HostRuntime, host: &str, port: u16) -> io::Result<TcpStream> {
    let start = Instant::now(rt)?;
    let most = Duration::from_millis(OPENS);
    let mut last = ErrorKind::NotFound;
    let Ok(addresses) = (host, port).to_socket_addrs(rt) else {
        return Err(last.into());
    };
    for address in addresses {
        let left = most.saturating_sub(start.elapsed(rt)?);
        if left.is_zero() {
            break;
        }
        match open(rt, &address, left) {
            Ok(stream) => return Ok(stream),
            Err(error) => last = error.kind(),
        }
    }
    Err(last.into())
}

/// Connects to an address within a time.
fn open(rt: &HostRuntime, address: &SocketAddr, within: Duration) -> io::Result<TcpStream> {
    let stream = TcpStream::connect_timeout(rt, address, within)?;
    stream.set_read_timeout(Some(Duration::from_millis(READ)))?;
    Ok(stream)
}

/// The milliseconds since a start.
fn since(rt: &HostRuntime, start: Instant) -> u64 {
    match start.elapsed(rt) {
        Ok(time) => u64::try_from(time.as_millis()).unwrap_or(u64::MAX),
        Err(_) => u64::MAX,
    }
}

impl Passage {
    /// Nothing came yet.
    fn new(alloc: Global) -> Passage {
        Passage {
            reason: None,
            response: Response::new(alloc),
            record: Record::new(alloc),
            opened: 0,
            answered: None,
            heard: 0,
            ended: 0,
            end: End::Left,
            payload: Vec::new(alloc),
        }
    }

    /// Takes one more piece.
    fn take(&mut self, alloc: Global, piece: &[u8], now: u64) -> Result<(), AllocError> {
        self.payload.clear();
        self.response.take(alloc, piece, &mut self.payload)?;
        self.heard = now;
        if self.answered.is_none() && self.response.head().is_some() {
            self.answered = Some(now);
        }
        if !self.payload.is_empty() {
            self.record.add(now, self.payload.as_slice())?;
        }
        Ok(())
    }

    /// Whether there is nothing more to wait for.
    fn is_over(&self, patience: Patience, now: u64) -> bool {
        let Some(answered) = self.answered else {
            return self.response.is_broken() || now >= ANSWERS.saturating_add(LATE);
        };
        let passed = now.saturating_sub(answered);
        let still = now.saturating_sub(self.heard);
        let has_lines = !self.record.times().is_empty();
        let pause = if has_lines {
            patience.next
        } else {
            patience.first
        };
        self.response.is_broken()
            || self.record.is_full()
            || passed >= patience.whole
            || still >= pause
            || self.response.status() != 200 && still >= patience.next.min(1_000)
    }

    /// Reads once. Whether more may come.
    fn read_once(
        &mut self,
        rt: &HostRuntime,
        stream: &mut TcpStream,
        piece: &mut [u8],
        start: Instant,
    ) -> Result<bool, AllocError> {
        let end = match stream.read(piece) {
            Ok(0) => End::Closed,
            Ok(count) => {
                let came = piece.get(..count).unwrap_or(&[]);
                self.take(rt.alloc(), came, since(rt, start))?;
                if !self.response.is_whole() {
                    return Ok(true);
                }
                End::Whole
            }
            Err(error) => match error.kind() {
                ErrorKind::WouldBlock | ErrorKind::TimedOut | ErrorKind::Interrupted => {
                    return Ok(true);
                }
                _ => End::Reset,
            },
        };
        self.end = end;
        Ok(false)
    }

    /// Reads what comes, for as long as there is something to wait for.
    fn read(
        &mut self,
        rt: &HostRuntime,
        stream: &mut TcpStream,
        patience: Patience,
        start: Instant,
    ) -> Result<(), AllocError> {
        let mut piece = Vec::from_elem(rt.alloc(), 0u8, PIECE)?;
        for _ in 0..u64::MAX {
            if self.is_over(patience, since(rt, start)) {
                break;
            }
            if !self.read_once(rt, stream, piece.as_mut_slice(), start)? {
                break;
            }
        }
        self.ended = since(rt, start);
        Ok(())
    }
}

/// The request to a server, with a token or for everything.
fn request_to(
    alloc: Global,
    server: &Server<'_>,
    since: Option<&str>,
) -> Result<Vec<u8>, AllocError> {
    let mut request = Vec::new(alloc);
    request_text_as(&server.place, since, server.identity, &mut request)?;
    Ok(request)
}

/// Opens a connection, and sends a request.
fn begin(rt: &HostRuntime, server: &Server<'_>, request: &[u8]) -> io::Result<TcpStream> {
    let host = without_brackets(server.host.as_str());
    let mut stream = connect(rt, host, server.port)?;
    stream.write_all(request)?;
    Ok(stream)
}

/// Asks a server, for what came after a token or for everything, and reads what it answers.
pub(super) fn ask(
    rt: &HostRuntime,
    server: &Server<'_>,
    since_token: Option<&str>,
    patience: Patience,
) -> Result<Passage, AllocError> {
    let mut passage = Passage::new(rt.alloc());
    let request = request_to(rt.alloc(), server, since_token)?;
    let Ok(start) = Instant::now(rt) else {
        passage.reason = Some(ErrorKind::Other);
        return Ok(passage);
    };
    match begin(rt, server, request.as_slice()) {
        Ok(mut stream) => {
            passage.opened = since(rt, start);
            passage.heard = passage.opened;
            passage.read(rt, &mut stream, patience, start)?;
        }
        Err(error) => {
            passage.reason = Some(error.kind());
            passage.ended = since(rt, start);
        }
    }
    Ok(passage)
}

/// Reports a connection, on standard error.
pub(super) fn tell_passage(rt: &HostRuntime, asked: &str, passage: &Passage) {
    let (status, time) = (passage.response.status(), passage.ended);
    let bytes = passage.record.text().len();
    let _ = eprintln!(rt;
        "probe: asked for {asked}: status {status}, {bytes} bytes of its body, {time} ms"
    );
}
