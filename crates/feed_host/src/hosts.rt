//! How servers are named: an address of IPv6 stands in brackets in a request, and in none where it
//! is connected to.

use feed_commands::{Fault, UpstreamOptions};
use feed_http::PlaceFault;
use std::alloc::{AllocError, Global};
use std::net::Ipv6Addr;

/// The servers' names, as a request has them.
#[derive(Drop)]
pub struct Hosts {
    host: String,
    from: Option<String>,
}

/// Whether brackets are missing.
fn lacks_brackets(host: &str) -> bool {
    host.parse::<Ipv6Addr>().is_ok()
}

/// Appends a host, with the brackets that it lacks.
fn push_host(text: &mut String, host: &str) -> Result<(), AllocError> {
    if !lacks_brackets(host) {
        return text.push_str(host);
    }
    text.push('[')?;
    text.push_str(host)?;
    text.push(']')
}

/// Appends one part of a list of addresses.
fn push_part(text: &mut String, part: &str) -> Result<(), AllocError> {
    let Some((host, port)) = part.rsplit_once(':') else {
        return text.push_str(part);
    };
    push_host(text, host)?;
    text.push(':')?;
    text.push_str(port)
}

/// A list of addresses, with the brackets that they lack.
fn list_with_brackets(alloc: Global, list: &str) -> Result<String, AllocError> {
    let mut text = String::new(alloc);
    for (number, part) in list.split(',').enumerate() {
        if number > 0 {
            text.push(',')?;
        }
        push_part(&mut text, part)?;
    }
    Ok(text)
}

impl Hosts {
    /// The servers that these options name. The first one has a name.
    pub fn new(alloc: Global, upstream: &UpstreamOptions<'_>) -> Result<Hosts, Fault> {
        if upstream.host.is_empty() {
            return Err(Fault::from(PlaceFault::BadHost));
        }
        let mut host = String::new(alloc);
        push_host(&mut host, upstream.host)?;
        let from = match upstream.from {
            Some(list) => Some(list_with_brackets(alloc, list)?),
            None => None,
        };
        Ok(Hosts { host, from })
    }

    /// The same options, with these names.
    pub fn named<'a>(&'a self, upstream: &UpstreamOptions<'a>) -> UpstreamOptions<'a> {
        UpstreamOptions {
            host: self.host.as_str(),
            from: match &self.from {
                Some(list) => Some(list.as_str()),
                None => None,
            },
            ..*upstream
        }
    }
}
