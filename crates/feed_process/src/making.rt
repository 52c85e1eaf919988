//! What a relay is made of, before it begins: state files are taken, and ports opened.

use crate::servers::{Asked, identity, needs_memory, of_list, servers};
use crate::watching::Watched;
use feed_answer::{Identity, Place};
use feed_commands::{AddressFault, Fault, LiveOptions, NetworkFault, VERSION};
use feed_host::Failure;
use feed_node::Limits;
use feed_state::{About, FileTexts, Kept, StateFault, take_state};
use feed_system::{Resources, ServerName, StartFault, open};
use std::alloc::{AllocError, Global};
use std::fs::File;
use std::io;
use std::io::ErrorKind;
use std::net::SocketAddr;
use std::time::Instant;

/// Why a state file is refused whose name is empty.
pub(crate) const NO_NAME: &str = "--state names no file";

/// Why an address can't be listened at that this machine doesn't have.
const NOT_OURS: &str = "no address of this machine";

/// A call of the system failed.
pub fn fault_of_system(error: io::Error) -> Fault {
    match error.kind() {
        ErrorKind::OutOfMemory => Fault::Memory,
        _ => Fault::Read,
    }
}

fn of_system<T: Drop>(outcome: io::Result<T>) -> Result<T, Fault> {
    match outcome {
        Ok(value) => Ok(value),
        Err(error) => Err(fault_of_system(error)),
    }
}

/// Whether several servers have tokens of their own. All addresses of a name are servers of one
/// log.
fn are_strange(options: &LiveOptions<'_>) -> bool {
    match &options.upstream {
        Some(upstream) => options.fresh && upstream.from.is_some(),
        None => false,
    }
}

/// The limits of what the relay shows. Where several servers have tokens of their own, older tokens
/// may stand for states of another one: then one commit is kept, with the token before it.
fn kept_limits(options: &LiveOptions<'_>) -> Limits {
    let limits = options.limits;
    if !are_strange(options) {
        return limits;
    }
    let Ok(kept) = Limits::new(1, limits.staged()) else {
        return limits;
    };
    match limits.memory() {
        Some(bytes) => kept.with_memory(bytes).unwrap_or(kept),
        None => kept,
    }
}

/// An address can't be listened at, for this reason.
fn of_port(alloc: Global, address: SocketAddr, reason: ErrorKind) -> Failure {
    let text = match reason {
        ErrorKind::OutOfMemory => return Failure::from(Fault::Memory),
        ErrorKind::AddrNotAvailable => format!(in alloc; "{address} ({NOT_OURS})"),
        _ => format!(in alloc; "{address} ({reason})"),
    };
    Failure::about(Fault::from(NetworkFault::Bind), text)
}

/// Why there is nothing to run on.
pub(crate) fn failure_of(alloc: Global, fault: StartFault) -> Failure {
    match fault {
        StartFault::Memory => Failure::from(Fault::Memory),
        StartFault::System => Failure::from(Fault::Read),
        StartFault::Address(option) => {
            let fault = Fault::from(AddressFault::BadAddress(0));
            Failure::about(fault, String::from_str(alloc, option))
        }
        StartFault::List(option, fault) => of_list(alloc, option, fault),
        StartFault::Bind(address, reason) => of_port(alloc, address, reason),
    }
}

/// What a relay is set to, before anything is opened.
#[derive(Drop)]
struct Plan {
    contest: String,
    identity: Identity,
    places: Vec<Place>,
    hosts: Vec<ServerName>,
    kept: Option<Kept<File>>,
}

/// Why a state file is not taken.
pub(crate) fn of_state(alloc: Global, path: &str, fault: &StateFault) -> Failure {
    match fault {
        StateFault::Memory => Failure::from(Fault::Memory),
        _ => Failure::refused_for(fault.report(alloc, path), fault.text()),
    }
}

/// What the files had is let go where the feed is the input, which begins again.
fn to_be_read(rt: &HostRuntime, options: &LiveOptions<'_>, kept: Kept<File>) -> Kept<File> {
    if options.upstream.is_some() {
        return kept;
    }
    let Kept {
        state,
        texts,
        about,
    } = kept;
    drop(texts);
    Kept {
        state,
        texts: FileTexts {
            before: Vec::new(rt.alloc()),
            file: Vec::new(rt.alloc()),
        },
        about,
    }
}

/// Takes the state file, where there is to be one.
fn kept(rt: &HostRuntime, options: &LiveOptions<'_>) -> Result<Option<Kept<File>>, Failure> {
    let Some(path) = options.state else {
        return Ok(None);
    };
    if path.is_empty() {
        return Err(Failure::refused(NO_NAME));
    }
    match take_state(rt, path, options.contest, VERSION, options.is_new) {
        Ok(kept) => Ok(Some(to_be_read(rt, options, kept))),
        Err(fault) => Err(of_state(rt.alloc(), path, &fault)),
    }
}

/// Takes the state files.
fn make_plan(rt: &HostRuntime, options: &LiveOptions<'_>) -> Result<Plan, Failure> {
    let contest = needs_memory(String::from_str(rt.alloc(), options.contest))?;
    let identity = identity(rt, options)?;
    let Asked { hosts, places } = servers(rt, options, &identity)?;
    let kept = kept(rt, options)?;
    Ok(Plan {
        contest,
        identity,
        places,
        hosts,
        kept,
    })
}

/// Listens, and makes what the relay runs on.
fn system_of<'r>(
    rt: &'r HostRuntime,
    options: &LiveOptions<'_>,
    kept: Option<Kept<File>>,
    hosts: Vec<ServerName>,
    start: Instant,
) -> Result<Resources<'r>, Failure> {
    match open(rt, options, kept, hosts, start) {
        Ok(opened) => Ok(opened),
        Err(fault) => Err(failure_of(rt.alloc(), fault)),
    }
}

/// What a relay is set to, and all that it runs on.
#[derive(Drop)]
pub struct Made<'r> {
    /// The contest whose feed is served.
    pub contest: String,
    /// How much is kept of the feed.
    pub limits: Limits,
    /// Whether several servers are asked that have tokens of their own.
    pub are_strange: bool,
    /// The servers that are asked, in the order of their addresses; none where the feed is the
    /// input.
    pub places: Vec<Place>,
    /// As whom they are asked.
    pub identity: Identity,
    /// What is told of the state file, where there is one.
    pub about: Option<About>,
    /// What is told to those who watch, beside what the relay counts itself.
    pub watched: Watched,
    /// The sockets, the clock, and the devices of its turns.
    pub opened: Resources<'r>,
}

/// Makes all that a relay runs on: takes its state files, and listens. Else says why there is
/// nothing to run on; what was opened is closed then.
pub fn make<'r>(rt: &'r HostRuntime, options: &LiveOptions<'_>) -> Result<Made<'r>, Failure> {
    let start = of_system(Instant::now(rt))?;
    let watched = needs_memory(Watched::new(rt, options))?;
    let Plan {
        contest,
        identity,
        places,
        hosts,
        kept,
    } = make_plan(rt, options)?;
    let about = kept.as_ref().map(|kept| kept.about);
    let opened = system_of(rt, options, kept, hosts, start)?;
    Ok(Made {
        contest,
        limits: kept_limits(options),
        are_strange: are_strange(options),
        places,
        identity,
        about,
        watched,
        opened,
    })
}
