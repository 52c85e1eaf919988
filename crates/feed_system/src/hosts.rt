//! The servers that a relay may connect to: their names, and the addresses that these have.

use feed_answer::without_brackets;
use std::alloc::{AllocError, Global};
use std::net::{IpAddr, SocketAddr, ToSocketAddrs};
use std::time::Instant;

/// How many addresses of a name are asked.
const MOST_ADDRESSES: usize = 8;

/// The system waits while it asks for addresses, and the relay with it. So after that they are not
/// asked for again for so many times as long as it took.
const REST: u32 = 10;

/// The addresses that a host has, in the system's order: none where its name is not known.
fn addresses_of(rt: &HostRuntime, host: &str, port: u16) -> Result<Vec<SocketAddr>, AllocError> {
    let mut addresses = Vec::new(rt.alloc());
    if let Ok(all) = (without_brackets(host), port).to_socket_addrs(rt) {
        for address in all.take(MOST_ADDRESSES) {
            addresses.push(address)?;
        }
    }
    Ok(addresses)
}

/// One of the names that servers have. Each of its addresses is a server; where it has none at the
/// start, it counts as one.
#[derive(Drop)]
pub struct ServerName {
    /// The name, or an address; one of IPv6 may stand in brackets.
    name: String,
    /// The port of each of its servers, 1 to 65,535.
    port: u16,
    /// The addresses that the name had when it was looked up last, at most 8.
    addresses: Vec<SocketAddr>,
    /// How many servers it stands for.
    servers: usize,
    /// Whether it is an address itself.
    is_address: bool,
    /// Whether its addresses are to be asked for again.
    is_stale: bool,
    /// Not before this time; none if they may be asked for at once.
    rests_until: Option<Instant>,
    /// How many servers were asked in rounds that failed: where there are more addresses than
    /// servers, the others have their turn.
    passed: usize,
}

impl ServerName {
    /// The host of this name, and what addresses it has now.
    pub fn new(rt: &HostRuntime, name: String, port: u16) -> Result<ServerName, AllocError> {
        let is_address = without_brackets(name.as_str()).parse::<IpAddr>().is_ok();
        let mut host = ServerName {
            name,
            port,
            addresses: Vec::new(rt.alloc()),
            servers: 1,
            is_address,
            is_stale: true,
            rests_until: None,
            passed: 0,
        };
        host.look_up(rt)?;
        host.servers = host.addresses.len().max(1);
        Ok(host)
    }

    /// How many servers it stands for.
    pub fn servers(&self) -> usize {
        self.servers
    }

    /// Its addresses are asked for again before its first server is.
    pub(crate) fn forget(&mut self) {
        self.is_stale = !self.is_address;
    }

    /// Asks for its addresses, where that is to be done now. Those that it had stay where there are
    /// none.
    fn look_up(&mut self, rt: &HostRuntime) -> Result<(), AllocError> {
        let Ok(began) = Instant::now(rt) else {
            return Ok(());
        };
        if self.rests_until.is_some_and(|until| began < until) {
            return Ok(());
        }
        let addresses = addresses_of(rt, self.name.as_str(), self.port)?;
        if !addresses.is_empty() {
            self.addresses = addresses;
            self.is_stale = false;
        }
        self.rest(rt, began);
        Ok(())
    }

    /// A look-up that began at a time is over.
    fn rest(&mut self, rt: &HostRuntime, began: Instant) {
        let Ok(time) = began.elapsed(rt) else {
            return;
        };
        self.rests_until = match time.checked_mul(REST) {
            Some(rest) => began.checked_add(rest),
            None => None,
        };
    }

    /// The address of one of its servers, which is asked now; none where it has none.
    pub(crate) fn address(&mut self, rt: &HostRuntime, server: usize) -> Option<SocketAddr> {
        if server == 0 && self.is_stale {
            self.passed = self.passed.wrapping_add(self.servers);
            // Where there is no memory for them, those that it had stay.
            let _ = self.look_up(rt);
        }
        let at = server
            .saturating_add(self.passed)
            .checked_rem(self.addresses.len())?;
        self.addresses.get(at).copied()
    }

    /// What it is called where it is asked at an address: as that alone where it has no name.
    pub(crate) fn text(
        &self,
        alloc: Global,
        address: Option<SocketAddr>,
    ) -> Result<String, AllocError> {
        let (name, port) = (self.name.as_str(), self.port);
        match address {
            Some(address) if self.is_address => format!(in alloc; "{address}"),
            Some(address) => format!(in alloc; "{name}:{port} ({})", address.ip()),
            None => format!(in alloc; "{name}:{port}"),
        }
    }
}
