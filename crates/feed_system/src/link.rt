//! The connection to one of the servers.

use crate::hosts::ServerName;
use crate::sockets::{read_once, write_once};
use feed_device::{Link, Stop, Why};
use mio::net::TcpStream;
use mio::{Interest, Registry, Token};
use std::alloc::{AllocError, Global};
use std::io;
use std::net::SocketAddr;

/// The token of the connection.
pub(crate) const LINK: Token = Token(1);

/// Where a server is: which of the hosts it is of, and which one of that host's.
#[derive(Clone, Copy)]
struct Server {
    host: usize,
    number: usize,
    /// The address at which it was asked last.
    address: Option<SocketAddr>,
    /// Why it could not be connected to then, as the system says it.
    reason: Option<io::ErrorKind>,
}

/// The servers, and the connection to one of them.
#[derive(Drop)]
pub struct Servers<'r> {
    /// What opens connections, and asks for addresses.
    rt: &'r HostRuntime,
    /// Where the connection is registered for its events.
    registry: Registry,
    /// The token that its events have.
    token: Token,
    /// The hosts, in the order in which they were given.
    hosts: Vec<ServerName>,
    /// The servers of all hosts, host by host.
    servers: Vec<Server>,
    /// The connection; none if it is closed.
    stream: Option<TcpStream>,
    /// The number of the server that it is one to.
    asked: usize,
}

/// The servers of some hosts, in order.
fn servers_of(alloc: Global, hosts: &[ServerName]) -> Result<Vec<Server>, AllocError> {
    let mut servers = Vec::new(alloc);
    for (host, its) in hosts.iter().enumerate() {
        for number in 0..its.servers() {
            servers.push(Server {
                host,
                number,
                address: None,
                reason: None,
            })?;
        }
    }
    Ok(servers)
}

/// A connection to an address, which is only begun, and whose events have this token.
fn connection(
    rt: &HostRuntime,
    registry: &Registry,
    token: Token,
    address: SocketAddr,
) -> io::Result<TcpStream> {
    let mut stream = TcpStream::connect(rt, address)?;
    let interests = Interest::READABLE | Interest::WRITABLE;
    registry.register(&mut stream, token, interests)?;
    Ok(stream)
}

impl<'r> Servers<'r> {
    /// There is no connection yet. Events of one have this token.
    pub(crate) fn new(
        rt: &'r HostRuntime,
        registry: Registry,
        token: Token,
        hosts: Vec<ServerName>,
    ) -> Result<Servers<'r>, AllocError> {
        Ok(Servers {
            rt,
            registry,
            token,
            servers: servers_of(rt.alloc(), &hosts)?,
            hosts,
            stream: None,
            asked: 0,
        })
    }

    /// What the server of a number is called, with the address at which it was asked last.
    pub fn name(&self, alloc: Global, server: usize) -> Result<String, AllocError> {
        let Some(server) = self.servers.get(server) else {
            return String::from_str(alloc, "?");
        };
        match self.hosts.get(server.host) {
            Some(host) => host.text(alloc, server.address),
            None => String::from_str(alloc, "?"),
        }
    }

    /// The address of the server of a number, which is asked now.
    fn address(&mut self, number: usize) -> Option<SocketAddr> {
        let server = self.servers.get_mut(number)?;
        let host = self.hosts.get_mut(server.host)?;
        server.address = host.address(self.rt, server.number);
        server.address
    }

    /// Why the server of a number could not be connected to when it was asked last, as the system
    /// says it.
    pub(crate) fn reason(&self, server: usize) -> Option<io::ErrorKind> {
        self.servers.get(server)?.reason
    }

    /// Begins to connect to an address.
    fn connect_to(&mut self, address: SocketAddr) -> Result<(), Why> {
        match connection(self.rt, &self.registry, self.token, address) {
            Ok(stream) => {
                self.stream = Some(stream);
                Ok(())
            }
            Err(error) => {
                self.note(Some(error.kind()));
                Err(Why::Refuses)
            }
        }
    }

    /// Notes why the server that is asked can't be connected to.
    fn note(&mut self, reason: Option<io::ErrorKind>) {
        if let Some(server) = self.servers.get_mut(self.asked) {
            server.reason = reason;
        }
    }

    /// What the system says of the connection; it tells an error once.
    fn error(&self) -> Option<io::ErrorKind> {
        match self.stream.as_ref()?.take_error() {
            Ok(None) => None,
            Ok(Some(error)) | Err(error) => Some(error.kind()),
        }
    }
}

impl Link for Servers<'_> {
    fn connect(&mut self, server: usize) -> Result<(), Why> {
        self.stream = None;
        self.asked = server;
        self.note(None);
        match self.address(server) {
            Some(address) => self.connect_to(address),
            None => Err(Why::Unknown),
        }
    }

    fn forget_addresses(&mut self) {
        for host in &mut self.hosts {
            host.forget();
        }
    }

    fn is_open(&mut self) -> Result<bool, Stop> {
        if let Some(error) = self.error() {
            self.note(Some(error));
            return Err(Stop::Failed);
        }
        let Some(stream) = &self.stream else {
            return Err(Stop::Failed);
        };
        if stream.peer_addr().is_err() {
            return Ok(false);
        }
        let _ = stream.set_nodelay(true);
        Ok(true)
    }

    fn read(&mut self, buf: &mut [u8]) -> Result<usize, Stop> {
        match &mut self.stream {
            Some(stream) => read_once(stream, buf),
            None => Err(Stop::Failed),
        }
    }

    fn write(&mut self, bytes: &[u8]) -> Result<usize, Stop> {
        match &mut self.stream {
            Some(stream) => write_once(stream, bytes),
            None => Err(Stop::Failed),
        }
    }

    fn close(&mut self) {
        self.stream = None;
    }

    fn show_once(&mut self, _unread: usize) {}

    fn show_all(&mut self, _unread: usize) {}
}
