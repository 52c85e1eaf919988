//! The servers that a relay may ask: of each its host and port, and the place of its feed there.

use feed_answer::{Identity, Place};
use feed_commands::{
    AddressFault, Fault, Listed, ListedFault, LiveOptions, MOST_ADDRESSES, Server, UpstreamOptions,
    server_listed, servers_of,
};
use feed_host::{Failure, Hosts, identity_of, is_itself};
use feed_system::ServerName;
use std::alloc::{AllocError, Global};

/// Why a server is refused that is the relay itself.
const ITSELF: &str = "a relay can't follow itself";

/// Why a server is refused whose URL names another contest.
const OTHER_CONTEST: &str = "--from names another contest, and a relay serves one";

/// Why a server is refused whose URL is none.
const BAD_URL: &str = "--from has a URL that names no feed";

/// The servers: the hosts that they are of, and what each is asked for.
#[derive(Drop)]
pub(crate) struct Asked {
    /// The hosts.
    pub(crate) hosts: Vec<ServerName>,
    /// The place of the feed at each server, in order.
    pub(crate) places: Vec<Place>,
}

impl Asked {
    /// One more host, of which each server is asked for the same.
    fn push(
        &mut self,
        rt: &HostRuntime,
        name: String,
        port: u16,
        place: &Place,
    ) -> Result<(), Fault> {
        let host = needs_memory(ServerName::new(rt, name, port))?;
        for _ in 0..host.servers() {
            let (name, base, contest) = (place.host(), place.base(), place.contest());
            push(
                &mut self.places,
                Place::new(rt.alloc(), name, base, contest)?,
            )?;
        }
        push(&mut self.hosts, host)
    }
}

/// The relay can't follow itself, as a list of servers that is the same for all relays has it.
fn refuse_itself(
    rt: &HostRuntime,
    options: &LiveOptions<'_>,
    host: &str,
    port: u16,
) -> Result<(), Failure> {
    if !is_itself(rt, options, host, port) {
        return Ok(());
    }
    let text = format!(in rt.alloc(); "a relay can't follow itself: it listens at {host}:{port}");
    Err(Failure::refused_for(text, ITSELF))
}

fn push<T: Drop>(list: &mut Vec<T>, item: T) -> Result<(), Fault> {
    match list.push(item) {
        Ok(()) => Ok(()),
        Err(_) => Err(Fault::Memory),
    }
}

pub(crate) fn needs_memory<T: Drop>(outcome: Result<T, AllocError>) -> Result<T, Fault> {
    match outcome {
        Ok(value) => Ok(value),
        Err(_) => Err(Fault::Memory),
    }
}

/// The value of an option is no list of addresses or networks.
pub(crate) fn of_list(alloc: Global, option: &str, fault: AddressFault) -> Failure {
    match fault {
        AddressFault::Memory => Failure::from(Fault::Memory),
        AddressFault::TooMany => {
            Failure::about(
                Fault::from(fault),
                format!(in alloc; "{option} has too many"),
            )
        }
        AddressFault::BadAddress(number) => {
            let part = number.saturating_add(1);
            Failure::about(
                Fault::from(fault),
                format!(in alloc; "{option}, part {part}"),
            )
        }
    }
}

/// A part of the list, counted from 0, names no server.
fn of_part(alloc: Global, number: usize, fault: ListedFault) -> Failure {
    match fault {
        ListedFault::BadAddress => {
            of_list(alloc, "--from", AddressFault::BadAddress(number as u64))
        }
        ListedFault::BadUrl(fault) => {
            let part = number.saturating_add(1);
            let text = format!(in alloc; "--from, part {part}: {fault}");
            Failure::refused_for(text, BAD_URL)
        }
    }
}

/// The servers that a list names.
fn further(alloc: Global, list: &str) -> Result<Vec<Listed<'_>>, Failure> {
    let mut servers = Vec::new(alloc);
    for (number, part) in list.split(',').enumerate() {
        match server_listed(part) {
            Ok(server) => push(&mut servers, server)?,
            Err(fault) => return Err(of_part(alloc, number, fault)),
        }
    }
    if servers.len() > MOST_ADDRESSES {
        return Err(of_list(alloc, "--from", AddressFault::TooMany));
    }
    Ok(servers)
}

/// A URL of the list has to name the contest that is served: else screens would be shown another
/// one where the servers before it fail.
fn refuse_other(alloc: Global, number: usize, named: &str, contest: &str) -> Result<(), Failure> {
    if named == contest {
        return Ok(());
    }
    let part = number.saturating_add(1);
    let text = format!(in alloc;
        "--from, part {part}: it names contest {named}, and this relay serves {contest}"
    );
    Err(Failure::refused_for(text, OTHER_CONTEST))
}

/// The options of one server of the list, as if it were the only one. One that is named by its
/// address has the base of the first one.
fn options_of<'a>(
    alloc: Global,
    first: &UpstreamOptions<'a>,
    contest: &str,
    number: usize,
    server: Listed<'a>,
) -> Result<UpstreamOptions<'a>, Failure> {
    let (host, port, base) = match server {
        Listed::Address(host, port) => (host, port, first.base),
        Listed::Url(url) => {
            refuse_other(alloc, number, url.contest, contest)?;
            (url.host, url.port, url.base)
        }
    };
    Ok(UpstreamOptions {
        host,
        port,
        from: None,
        base,
        ..*first
    })
}

/// Appends the server of these options, which name one.
fn push_server<'i>(
    alloc: Global,
    upstream: &UpstreamOptions<'_>,
    contest: &str,
    identity: &'i Identity,
    servers: &mut Vec<Server<'i>>,
) -> Result<(), Failure> {
    for server in servers_of(alloc, upstream, contest, identity)? {
        push(servers, server)?;
    }
    Ok(())
}

/// The servers of these options, in the order in which they are asked.
fn listed<'i>(
    alloc: Global,
    upstream: &UpstreamOptions<'_>,
    contest: &str,
    identity: &'i Identity,
) -> Result<Vec<Server<'i>>, Failure> {
    let mut servers = Vec::new(alloc);
    let first = UpstreamOptions {
        from: None,
        ..*upstream
    };
    push_server(alloc, &first, contest, identity, &mut servers)?;
    let Some(list) = upstream.from else {
        return Ok(servers);
    };
    for (number, server) in further(alloc, list)?.iter().enumerate() {
        let one = options_of(alloc, upstream, contest, number, *server)?;
        push_server(alloc, &one, contest, identity, &mut servers)?;
    }
    Ok(servers)
}

/// The servers that a relay of these options may ask, none of which is the relay itself.
pub(crate) fn listed_servers<'i>(
    rt: &HostRuntime,
    options: &LiveOptions<'_>,
    upstream: &UpstreamOptions<'_>,
    identity: &'i Identity,
) -> Result<Vec<Server<'i>>, Failure> {
    let servers = listed(rt.alloc(), upstream, options.contest, identity)?;
    for server in &servers {
        refuse_itself(rt, options, server.host.as_str(), server.port)?;
    }
    Ok(servers)
}

/// The servers that are asked: none where the feed is the input.
pub(crate) fn servers(
    rt: &HostRuntime,
    options: &LiveOptions<'_>,
    identity: &Identity,
) -> Result<Asked, Failure> {
    let mut asked = Asked {
        hosts: Vec::new(rt.alloc()),
        places: Vec::new(rt.alloc()),
    };
    let Some(upstream) = &options.upstream else {
        return Ok(asked);
    };
    let hosts = Hosts::new(rt.alloc(), upstream)?;
    let named = hosts.named(upstream);
    for server in listed_servers(rt, options, &named, identity)? {
        let Server {
            host,
            port,
            place,
            ..
        } = server;
        asked.push(rt, host, port, &place)?;
    }
    Ok(asked)
}

/// Looks whether the servers are named rightly: they are listed once for nobody in particular,
/// since each borrows the identity.
pub(crate) fn look_at_servers(rt: &HostRuntime, options: &LiveOptions<'_>) -> Result<(), Failure> {
    let Some(upstream) = &options.upstream else {
        return Ok(());
    };
    let hosts = Hosts::new(rt.alloc(), upstream)?;
    let named = hosts.named(upstream);
    let nobody = Identity::anonymous();
    listed(rt.alloc(), &named, options.contest, &nobody)?;
    Ok(())
}

/// As whom servers are asked: as nobody in particular where the feed is the input. What is wrong
/// with the servers is found first.
pub(crate) fn identity(rt: &HostRuntime, options: &LiveOptions<'_>) -> Result<Identity, Failure> {
    look_at_servers(rt, options)?;
    match &options.upstream {
        Some(upstream) => identity_of(rt, upstream.host_header, upstream.user_file),
        None => Ok(Identity::anonymous()),
    }
}
