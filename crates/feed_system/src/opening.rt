//! Ports are listened at, before a relay's first turn.

ghost use Rattle.std.specs.Prelude.{◌≡◌, IfOk, option_map};
ghost use Rattle.feed_system.specs.Guard.{AreListed};

use crate::guard::Guard;
use crate::hosts::ServerName;
use crate::link::{LINK, Servers};
use crate::sockets::Port;
use crate::standard::{ErrorStream, InputStream};
use crate::system::System;
use crate::watchers::{WATCHERS, Watchers};
use feed_answer::without_brackets;
use feed_arguments::{AddressFault, LiveOptions, Network, networks};
use feed_device::{Devices, Ready};
use feed_state::{Kept, StateStore};
use mio::net::TcpListener;
use mio::{Events, Interest, Poll, Token};
use std::alloc::{AllocError, Global};
use std::fs::File;
use std::io;
use std::io::ErrorKind;
use std::net::{IpAddr, SocketAddr};
use std::time::Instant;

/// The token of the port that screens come to.
pub(crate) const LISTENER: Token = Token(0);

/// How many events one wait gives.
const EVENTS: usize = 1_024;

/// How many bytes of the input one turn takes.
const INPUT_PIECE: usize = 65_536;

/// Why a relay has nothing to run on.
#[derive(Clone, Copy)]
pub enum StartFault {
    /// Memory ran out.
    Memory,
    /// A call of the system failed.
    System,
    /// The value of this option is no address.
    Address(&'static str),
    /// That of this one is no list of networks.
    List(&'static str, AddressFault),
    /// This address can't be listened at, for what the system says.
    Bind(SocketAddr, ErrorKind),
}

impl From<AllocError> for StartFault {
    fn from(_error: AllocError) -> StartFault {
        StartFault::Memory
    }
}

impl From<io::Error> for StartFault {
    fn from(error: io::Error) -> StartFault {
        match error.kind() {
            ErrorKind::OutOfMemory => StartFault::Memory,
            _ => StartFault::System,
        }
    }
}

/// An address of this machine that an option says, with a port.
fn local_address(option: &'static str, address: &str, port: u16) -> Result<SocketAddr, StartFault> {
    match without_brackets(address).parse::<IpAddr>() {
        Ok(address) => Ok(SocketAddr::new(address, port)),
        Err(_) => Err(StartFault::Address(option)),
    }
}

/// Listens at an address.
fn bound(rt: &HostRuntime, address: SocketAddr) -> Result<TcpListener, StartFault> {
    match TcpListener::bind(rt, address) {
        Ok(listener) => Ok(listener),
        Err(error) => Err(StartFault::Bind(address, error.kind())),
    }
}

/// Listens at an address, where there is one.
fn listener_of(
    rt: &HostRuntime,
    poll: &Poll,
    address: Option<SocketAddr>,
    token: Token,
) -> Result<Option<TcpListener>, StartFault> {
    let Some(address) = address else {
        return Ok(None);
    };
    let mut listener = bound(rt, address)?;
    poll.registry()
        .register(&mut listener, token, Interest::READABLE)?;
    Ok(Some(listener))
}

/// The networks that may connect, where they are listed.
fn allowed(alloc: Global, options: &LiveOptions<'_>) -> Result<Option<Vec<Network>>, StartFault>
    ensures { IfOk result (λ networks.
        AreListed (option_map (λ list. list.now) options.now.allow) networks) }
{
    let Some(list) = options.allow else {
        return Ok(None);
    };
    match networks(alloc, list) {
        Ok(networks) => Ok(Some(networks)),
        Err(fault) => Err(StartFault::List("--allow", fault)),
    }
}

/// Where screens come to.
fn screens_address(options: &LiveOptions<'_>) -> Result<Option<SocketAddr>, StartFault> {
    match options.listen {
        Some(port) => Ok(Some(local_address("--address", options.address, port)?)),
        None => Ok(None),
    }
}

/// Where those come to who watch the relay.
fn status_address(options: &LiveOptions<'_>) -> Result<Option<SocketAddr>, StartFault> {
    let Some(port) = options.status else {
        return Ok(None);
    };
    let (option, address) = match options.status_address {
        Some(address) => ("--status-address", address),
        None => ("--address", options.address),
    };
    Ok(Some(local_address(option, address, port)?))
}

/// The port that screens come to, and who may.
fn port(rt: &HostRuntime, poll: &Poll, options: &LiveOptions<'_>) -> Result<Port, StartFault>
    ensures { IfOk result (λ port.
        AreListed (option_map (λ list. list.now) options.now.allow) port.guard.networks) }
{
    let guard = Guard::new(allowed(rt.alloc(), options)?);
    let listener = listener_of(rt, poll, screens_address(options)?, LISTENER)?;
    let registry = poll.registry().try_clone()?;
    Ok(Port::new(rt.alloc(), registry, listener, guard, options.per_address))
}

/// Who watches the relay, and the port that they come to.
fn watchers(
    rt: &HostRuntime,
    poll: &Poll,
    options: &LiveOptions<'_>,
) -> Result<Watchers, StartFault>
    ensures { IfOk result (λ watchers.
        AreListed (option_map (λ list. list.now) options.now.allow) watchers.guard.networks) }
{
    let guard = Guard::new(allowed(rt.alloc(), options)?);
    let listener = listener_of(rt, poll, status_address(options)?, WATCHERS)?;
    let registry = poll.registry().try_clone()?;
    Ok(Watchers::new(rt.alloc(), registry, listener, guard))
}

/// What one turn is given is kept in these.
#[derive(Drop)]
struct Buffers {
    events: Events,
    ready: Vec<Ready>,
    piece: Vec<u8>,
}

fn make_buffers(alloc: Global) -> Result<Buffers, AllocError> {
    Ok(Buffers {
        events: Events::with_capacity(alloc, EVENTS)?,
        ready: Vec::with_capacity(alloc, EVENTS)?,
        piece: Vec::from_elem(alloc, 0u8, INPUT_PIECE)?,
    })
}

/// All ends of connections, by their events.
#[derive(Drop)]
struct Ends<'r> {
    poll: Poll,
    watchers: Watchers,
    port: Port,
    link: Servers<'r>,
}

/// Listens at the ports that are asked for. None of these hosts' servers is connected to yet.
fn open_ends<'r>(
    rt: &'r HostRuntime,
    options: &LiveOptions<'_>,
    hosts: Vec<ServerName>,
) -> Result<Ends<'r>, StartFault>
    ensures screens { IfOk result (λ ends.
        AreListed (option_map (λ list. list.now) options.now.allow) ends.port.guard.networks) }
    ensures watchers { IfOk result (λ ends.
        AreListed (option_map (λ list. list.now) options.now.allow)
        ends.watchers.guard.networks) }
{
    let poll = Poll::new(rt)?;
    let watchers = watchers(rt, &poll, options)?;
    let port = port(rt, &poll, options)?;
    let link = connection(rt, &poll, hosts)?;
    Ok(Ends {
        poll,
        watchers,
        port,
        link,
    })
}

/// The connection to a server of these hosts, of which there is none yet.
fn connection<'r>(
    rt: &'r HostRuntime,
    poll: &Poll,
    hosts: Vec<ServerName>,
) -> Result<Servers<'r>, StartFault> {
    let registry = poll.registry().try_clone()?;
    Ok(Servers::new(rt, registry, LINK, hosts)?)
}

/// The ports that could be listened at.
#[derive(Clone, Copy)]
pub struct FreePorts {
    /// Where screens come to, where they are served.
    pub screens: Option<SocketAddr>,
    /// Where those come to who watch the relay, where they may.
    pub watchers: Option<SocketAddr>,
}

/// Listens at the ports that are asked for, as `open` does, and lets them go.
pub fn try_ports(rt: &HostRuntime, options: &LiveOptions<'_>) -> Result<FreePorts, StartFault> {
    drop(allowed(rt.alloc(), options)?);
    let watchers = status_address(options)?;
    let screens = screens_address(options)?;
    let poll = Poll::new(rt)?;
    let watched = listener_of(rt, &poll, watchers, WATCHERS)?;
    let listened = listener_of(rt, &poll, screens, LISTENER)?;
    drop(watched);
    drop(listened);
    Ok(FreePorts { screens, watchers })
}

/// The files that the state is kept in, where it is kept.
fn store_of(rt: &HostRuntime, kept: Option<Kept<File>>) -> StateStore<&HostRuntime> {
    match kept {
        Some(kept) => StateStore::new(rt, kept),
        None => StateStore::none(rt),
    }
}

/// All that a relay runs on.
#[derive(Drop)]
pub struct Resources<'r> {
    /// What waits, reads standard input, and writes reports.
    pub system: System<'r>,
    /// What its turns read from and write to.
    pub devices: Devices<Port, Servers<'r>, StateStore<&'r HostRuntime>>,
}

/// Makes all that a relay runs on, and listens. Its time begins at the start. The servers that it
/// may connect to are those of these hosts, and its state is kept in these files.
pub fn open<'r>(
    rt: &'r HostRuntime,
    options: &LiveOptions<'_>,
    kept: Option<Kept<File>>,
    hosts: Vec<ServerName>,
    start: Instant,
) -> Result<Resources<'r>, StartFault>
    // whoever comes to a port has to be in one of the networks that are listed, if some are
    ensures screens { IfOk result (λ opened.
        AreListed (option_map (λ list. list.now) options.now.allow)
        opened.devices.sockets.guard.networks) }
    ensures watchers { IfOk result (λ opened.
        AreListed (option_map (λ list. list.now) options.now.allow)
        opened.system.watchers.guard.networks) }
{
    let buffers = make_buffers(rt.alloc())?;
    let Ends {
        poll,
        watchers,
        port,
        link,
    } = open_ends(rt, options, hosts)?;
    Ok(Resources {
        system: joined(rt, poll, watchers, buffers, start),
        devices: Devices {
            sockets: port,
            link,
            store: store_of(rt, kept),
        },
    })
}

fn joined<'r>(
    rt: &'r HostRuntime,
    poll: Poll,
    watchers: Watchers,
    buffers: Buffers,
    start: Instant,
) -> System<'r>
    ensures { result.watchers ≡ watchers }
{
    let Buffers {
        events,
        ready,
        piece,
    } = buffers;
    System {
        rt,
        input: InputStream::new(poll.registry()),
        errors: ErrorStream::new(poll.registry(), Vec::new(rt.alloc())),
        events,
        ready,
        piece,
        watchers,
        poll,
        start,
    }
}
