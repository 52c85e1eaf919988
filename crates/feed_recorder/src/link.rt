//! A connection to the server that is recorded.

use crate::cut::Cut;
use feed_answer::{request_text_as, without_brackets};
use feed_commands::{Fault, Server};
use std::io::{ErrorKind, Read, Write};
use std::net::{TcpStream, ToSocketAddrs};
use std::time::Duration;

/// For how long a connection may take to be made, and may be silent, in seconds. Servers break
/// silence after two minutes at most.
const OPENS: u64 = 10;

const SILENCE: u64 = 300;

/// Connects to the first address of a host that accepts that in time.
fn connect(rt: &HostRuntime, server: &Server<'_>) -> Result<TcpStream, Cut> {
    let host = without_brackets(server.host.as_str());
    let addresses = match (host, server.port).to_socket_addrs(rt) {
        Ok(addresses) => addresses,
        Err(error) => return Err(Cut::Unreached(error.kind())),
    };
    let mut last = ErrorKind::NotFound;
    for address in addresses {
        match TcpStream::connect_timeout(rt, &address, Duration::from_secs(OPENS)) {
            Ok(stream) => return Ok(stream),
            Err(error) => last = error.kind(),
        }
    }
    Err(Cut::Unreached(last))
}

/// Connects, and asks for what came after a token, or for all.
pub(crate) fn ask(
    rt: &HostRuntime,
    server: &Server<'_>,
    since: Option<&str>,
) -> Result<Result<TcpStream, Cut>, Fault> {
    let mut request = Vec::new(rt.alloc());
    request_text_as(&server.place, since, server.identity, &mut request)?;
    let mut stream = match connect(rt, server) {
        Ok(stream) => stream,
        Err(cut) => return Ok(Err(cut)),
    };
    let sent = match stream.set_read_timeout(Some(Duration::from_secs(SILENCE))) {
        Ok(()) => stream.write_all(request.as_slice()),
        Err(error) => Err(error),
    };
    match sent {
        Ok(()) => Ok(Ok(stream)),
        Err(error) => Ok(Err(Cut::Broke(error.kind()))),
    }
}

/// Reads once, again where a signal broke that off: how many bytes came.
pub(crate) fn read(stream: &mut TcpStream, piece: &mut [u8]) -> Result<usize, Cut> {
    for _ in 0..u64::MAX {
        match stream.read(piece) {
            Ok(0) => return Err(Cut::Ended),
            Ok(count) => return Ok(count),
            Err(error) => match error.kind() {
                ErrorKind::Interrupted => {}
                ErrorKind::WouldBlock | ErrorKind::TimedOut => return Err(Cut::Silent),
                kind => return Err(Cut::Broke(kind)),
            },
        }
    }
    Err(Cut::Ended)
}
