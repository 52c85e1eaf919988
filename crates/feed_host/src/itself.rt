//! Whether a server that is to be followed is the relay itself.

use feed_answer::without_brackets;
use feed_commands::LiveOptions;
use std::net::{IpAddr, SocketAddr, UdpSocket};

/// The address that a text writes, with or without brackets.
fn address_of(text: &str) -> Option<IpAddr> {
    match without_brackets(text).parse::<IpAddr>() {
        Ok(address) => Some(address.to_canonical()),
        Err(_) => None,
    }
}

/// Whether this machine has an address: then a socket can be bound to it.
fn is_of_this_machine(rt: &HostRuntime, address: IpAddr) -> bool {
    UdpSocket::bind(rt, SocketAddr::new(address, 0)).is_ok()
}

/// Whether who connects to an address reaches a port that is listened at on another one.
fn reaches(rt: &HostRuntime, address: IpAddr, listening: IpAddr) -> bool {
    if listening.is_unspecified() {
        return is_of_this_machine(rt, address);
    }
    address == listening || address.is_unspecified() && listening.is_loopback()
}

/// Whether a host and a port are those that the relay listens at. Of names `localhost` alone
/// counts: what another one stands for is known once it was looked up.
pub fn is_itself(rt: &HostRuntime, options: &LiveOptions<'_>, host: &str, port: u16) -> bool {
    if options.listen != Some(port) {
        return false;
    }
    let Some(listening) = address_of(options.address) else {
        return false;
    };
    match address_of(host) {
        Some(address) => reaches(rt, address, listening),
        None => {
            let reaches = listening.is_loopback() || listening.is_unspecified();
            reaches && host.eq_ignore_ascii_case("localhost")
        }
    }
}
