//! Servers that are connected to, and a port that followers connect to.
ghost use Rattle.std.specs.Prelude.{◌≡◌};

use crate::connection::{Incoming, Outgoing, both_ways, linger, text_of_asked, text_of_served};
use crate::errors::Reporter;
use crate::looking::Passed;
use feed_answer::without_brackets;
use feed_commands::{Accept, Dial, Fault, NetworkFault, PullOptions, Server};
use std::io;
use std::net::{Ipv4Addr, SocketAddr, TcpListener, TcpStream, ToSocketAddrs};
use std::time::{Duration, Instant};

/// Servers that are connected to by their addresses or names.
#[derive(Drop)]
pub(crate) struct Dialer<'r, 's> {
    rt: &'r HostRuntime,
    reporter: Reporter<'r>,
    servers: &'s [Server<'s>],
    // How long each may be silent, and how long once it answers, where that is another time.
    silence: Option<Duration>,
    pause: Option<Duration>,
    // The server of the connection that is open.
    server: usize,
    // What came of the last connection.
    passed: Passed,
    misses: u64,
}

/// Connects to the first address of a host that accepts that in time.
fn connect_within(
    rt: &HostRuntime,
    host: &str,
    port: u16,
    silence: Duration,
) -> io::Result<TcpStream> {
    let start = Instant::now(rt)?;
    let mut last = io::ErrorKind::TimedOut;
    for address in (host, port).to_socket_addrs(rt)? {
        let left = silence.saturating_sub(start.elapsed(rt)?);
        if left.is_zero() {
            break;
        }
        match TcpStream::connect_timeout(rt, &address, left) {
            Ok(stream) => {
                stream.set_read_timeout(Some(silence))?;
                return Ok(stream);
            }
            Err(error) => last = error.kind(),
        }
    }
    Err(last.into())
}

impl<'r, 's> Dialer<'r, 's> {
    /// No connection was asked for yet. An address of IPv6 may stand in brackets.
    pub(crate) fn new(
        rt: &'r HostRuntime,
        reporter: Reporter<'r>,
        options: &PullOptions<'_>,
        servers: &'s [Server<'s>],
    ) -> Dialer<'r, 's> {
        Dialer {
            rt,
            reporter,
            servers,
            silence: options.silence.map(Duration::from_secs),
            pause: None,
            server: 0,
            passed: Passed::nothing(),
            misses: 0,
        }
    }

    /// The same, where servers are looked at, and nothing is reported of that.
    pub(crate) fn looking(
        rt: &'r HostRuntime,
        servers: &'s [Server<'s>],
        silence: Duration,
        pause: Duration,
    ) -> Dialer<'r, 's> {
        Dialer {
            rt,
            reporter: Reporter::new(rt, "live", false),
            servers,
            silence: Some(silence),
            pause: Some(pause),
            server: 0,
            passed: Passed::nothing(),
            misses: 0,
        }
    }

    /// What came of the last connection.
    pub(crate) fn passed(&self) -> Passed {
        self.passed
    }

    /// Connects to the server with this number.
    fn open(&mut self, number: usize) -> Option<(Incoming, Outgoing)>
        ensures { self.new.misses ≡ self.old.misses }
    {
        let server = self.servers.get(number)?;
        let host = without_brackets(server.host.as_str());
        let connected = match self.silence {
            Some(silence) => connect_within(self.rt, host, server.port, silence),
            None => TcpStream::connect(self.rt, (host, server.port)),
        };
        match connected {
            Ok(stream) => {
                let (mut incoming, outgoing) = both_ways(self.rt, stream)?;
                incoming.pauses(self.pause);
                Some((incoming, outgoing))
            }
            Err(error) => {
                self.passed.reason = Some(error.kind());
                None
            }
        }
    }

    /// Reports what came of asking the server with this number.
    fn report(&self, number: usize, came: &str) {
        let Some(server) = self.servers.get(number) else {
            return;
        };
        let host = server.host.as_str();
        let port = server.port;
        if let Ok(peer) = format!(in self.rt.alloc(); "server {host}:{port}") {
            self.reporter.connection(peer.as_str(), came);
        }
    }
}

impl Dial for Dialer<'_, '_> {
    type Reader = Incoming;

    type Writer = Outgoing;

    ghost misses = { λ s. s.misses };

    ghost dials = { λ _ _ _ _. Unit {0} };

    ghost closes = { λ _ _ _ _. Unit {0} };

    fn dial(&mut self, place: usize) -> Option<(Incoming, Outgoing)> {
        self.passed = Passed::nothing();
        let opened = self.open(place);
        self.server = place;
        if opened.is_none() {
            self.report(place, "no connection");
            self.misses = self.misses.saturating_add(1);
        }
        opened
    }

    fn close(&mut self, reader: Incoming, writer: Outgoing) {
        self.passed.status = reader.status();
        if let Ok(came) = text_of_asked(self.rt, &reader, &writer) {
            self.report(self.server, came.as_str());
        }
    }
}

/// A port of 127.0.0.1 that followers connect to.
#[derive(Drop)]
pub(crate) struct Listener<'r> {
    rt: &'r HostRuntime,
    reporter: Reporter<'r>,
    listener: TcpListener,
    // Where the connection comes from that is open.
    peer: Option<SocketAddr>,
    misses: u64,
}

impl<'r> Listener<'r> {
    /// Listens at the port of this number.
    pub(crate) fn bind(
        rt: &'r HostRuntime,
        reporter: Reporter<'r>,
        number: u16,
    ) -> Result<Listener<'r>, Fault> {
        match TcpListener::bind(rt, (Ipv4Addr::LOCALHOST, number)) {
            Ok(listener) => {
                reporter.listening(number);
                Ok(Listener {
                    rt,
                    reporter,
                    listener,
                    peer: None,
                    misses: 0,
                })
            }
            Err(_) => Err(Fault::from(NetworkFault::Bind)),
        }
    }

    /// Accepts a connection, and keeps where it comes from.
    fn accept_next(&mut self) -> Option<(Incoming, Outgoing)>
        ensures { self.new.misses ≡ self.old.misses }
    {
        let (stream, peer) = self.listener.accept().ok()?;
        self.peer = Some(peer);
        both_ways(self.rt, stream)
    }

    /// Reports what came of the connection.
    fn report(&self, writer: &Outgoing) {
        let (Some(peer), Ok(came)) = (self.peer, text_of_served(self.rt, writer)) else {
            return;
        };
        if let Ok(peer) = format!(in self.rt.alloc(); "reader {peer}") {
            self.reporter.connection(peer.as_str(), came.as_str());
        }
    }
}

impl Accept for Listener<'_> {
    type Reader = Incoming;

    type Writer = Outgoing;

    ghost misses = { λ p. p.misses };

    ghost accepts = { λ _ _ _. Unit {0} };

    ghost closes = { λ _ _ _ _. Unit {0} };

    fn accept(&mut self) -> Option<(Incoming, Outgoing)> {
        let accepted = self.accept_next();
        if accepted.is_none() {
            self.misses = self.misses.saturating_add(1);
        }
        accepted
    }

    fn close(&mut self, reader: Incoming, writer: Outgoing) {
        self.report(&writer);
        linger(self.rt, reader, &writer);
    }
}
