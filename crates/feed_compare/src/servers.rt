//! The command `audit` over two servers: whether both have the same state at each token that both
//! have.

use crate::tail::Tail;
use crate::verdict::{print_agreement, print_difference};
use feed_answer::{Place, without_brackets};
use feed_audit::difference_of;
use feed_commands::{AddressFault, CompareOptions, Fault, addresses};
use feed_host::Failure;
use feed_node::{Limits, Node};
use feed_system::{Pair, ServerName};
use feed_tables::Change;
use std::alloc::{AllocError, Global};
use std::io;
use std::io::{ErrorKind, Write};

/// For how long both may be left alone, in milliseconds.
const PAUSE: u64 = 1_000;

/// Two servers, each with what it shows.
#[derive(Drop)]
struct Comparison<'r> {
    rt: &'r HostRuntime,
    pair: Pair<'r>,
    of: Tail,
    against: Tail,
    options: Options,
    // Whether more may have come, and whether they had a token in common.
    has_more: bool,
    has_agreed: bool,
}

/// How what was found is printed.
#[derive(Clone, Copy)]
struct Options {
    json: bool,
    verbose: bool,
}

/// A server that is asked, and what it shows.
#[derive(Drop)]
struct Asked {
    host: ServerName,
    tail: Tail,
}

/// There was no memory, or a call of the system failed.
fn fault_of_system(error: &io::Error) -> Fault {
    match error.kind() {
        ErrorKind::OutOfMemory => Fault::Memory,
        _ => Fault::Read,
    }
}

fn of_system<T: Drop>(outcome: io::Result<T>) -> Result<T, Fault> {
    match outcome {
        Ok(value) => Ok(value),
        Err(error) => Err(fault_of_system(&error)),
    }
}

fn needs_memory<T: Drop>(outcome: Result<T, AllocError>) -> Result<T, Fault> {
    match outcome {
        Ok(value) => Ok(value),
        Err(_) => Err(Fault::Memory),
    }
}

/// The host and the port of a list that has one.
fn only_address(alloc: Global, text: &str) -> Result<(String, u16), AddressFault> {
    let mut all = addresses(alloc, text)?;
    let last = all.pop();
    if !all.is_empty() {
        return Err(AddressFault::TooMany);
    }
    match last {
        Some(address) => Ok(address),
        None => Err(AddressFault::TooMany),
    }
}

/// The host and the port that an option names.
fn address_of(rt: &HostRuntime, option: &str, text: &str) -> Result<(String, u16), Failure> {
    let fault = match only_address(rt.alloc(), text) {
        Ok(address) => return Ok(address),
        Err(fault) => fault,
    };
    match fault {
        AddressFault::Memory => Err(Failure::from(Fault::Memory)),
        _ => Err(Failure::about(Fault::from(fault), String::from_str(rt.alloc(), option))),
    }
}

/// What the server of this name shows of a contest: nothing yet.
fn tail_of(rt: &HostRuntime, name: &str, contest: &str, limits: Limits) -> Result<Tail, Failure> {
    match Place::new(rt.alloc(), name, "", contest) {
        Ok(place) => Ok(needs_memory(Tail::new(rt.alloc(), place, limits))?),
        Err(fault) => Err(Failure::from(Fault::from(fault))),
    }
}

/// The host of this name, whose address may stand in brackets.
fn host_of(rt: &HostRuntime, name: &str, port: u16) -> Result<ServerName, Fault> {
    let bare = needs_memory(String::from_str(rt.alloc(), without_brackets(name)))?;
    needs_memory(ServerName::new(rt, bare, port))
}

/// The server of this name, and what it shows of a contest: nothing yet.
fn asked_of(
    rt: &HostRuntime,
    name: &str,
    port: u16,
    contest: &str,
    limits: Limits,
) -> Result<Asked, Failure> {
    let tail = tail_of(rt, name, contest, limits)?;
    match host_of(rt, name, port) {
        Ok(host) => Ok(Asked { host, tail }),
        Err(fault) => Err(Failure::from(fault)),
    }
}

/// The server that an option names.
fn server_of(
    rt: &HostRuntime,
    option: &str,
    text: &str,
    contest: &str,
    limits: Limits,
) -> Result<Asked, Failure> {
    match address_of(rt, option, text) {
        Ok((name, port)) => asked_of(rt, name.as_str(), port, contest, limits),
        Err(failure) => Err(failure),
    }
}

/// Tells that the server of an option was lost, once for each loss.
fn report_loss(rt: &HostRuntime, tail: &mut Tail, option: &str) {
    if tail.take_loss() {
        let _ = eprintln!(rt; "audit: no feed from the server of {option}: it is asked again");
    }
}

impl<'r> Comparison<'r> {
    fn new(rt: &'r HostRuntime, options: &CompareOptions<'_>) -> Result<Comparison<'r>, Failure> {
        let (contest, limits) = (options.contest, options.limits);
        let of = server_of(rt, "--of", options.of, contest, limits)?;
        let against = server_of(rt, "--against", options.against, contest, limits)?;
        let (json, verbose) = (options.json, options.verbose);
        Ok(Comparison::between(rt, of, against, Options { json, verbose })?)
    }

    /// Nothing was asked yet.
    fn between(
        rt: &'r HostRuntime,
        of: Asked,
        against: Asked,
        options: Options,
    ) -> Result<Comparison<'r>, Fault> {
        match Pair::new(rt, of.host, against.host) {
            Ok(pair) => Ok(Comparison {
                rt,
                pair,
                of: of.tail,
                against: against.tail,
                options,
                has_more: true,
                has_agreed: false,
            }),
            Err(error) => Err(fault_of_system(&error)),
        }
    }

    /// Takes what both sent.
    fn take(&mut self, now: u64) -> Result<(), AllocError> {
        let alloc = self.rt.alloc();
        let ours = self.of.step(alloc, &mut self.pair.first, now)?;
        let theirs = self.against.step(alloc, &mut self.pair.second, now)?;
        self.has_more = ours || theirs;
        Ok(())
    }

    /// Takes what both sent, and compares them at each token that both have.
    fn step(&mut self, now: u64) -> Result<(), Fault> {
        needs_memory(self.take(now))?;
        report_loss(self.rt, &mut self.of, "--of");
        report_loss(self.rt, &mut self.against, "--against");
        for _ in 0..u64::MAX {
            let Some((ours, theirs)) = self.of.common(&self.against) else {
                break;
            };
            let are_next = self.of.is_next(ours) && self.against.is_next(theirs);
            needs_memory(self.advance(ours, theirs))?;
            self.compare(are_next)?;
        }
        Ok(())
    }

    /// Goes on to these states of both.
    fn advance(&mut self, ours: usize, theirs: usize) -> Result<(), AllocError> {
        let alloc = self.rt.alloc();
        self.of.advance(alloc, ours)?;
        self.against.advance(alloc, theirs)
    }

    /// Compares what both show, and prints what was found. With `are_next` both made one commit
    /// since they agreed.
    fn compare(&mut self, are_next: bool) -> Result<(), Fault> {
        let is_same = self.is_same(are_next);
        let mut text = Vec::new(self.rt.alloc());
        needs_memory(self.put_verdict(is_same, &mut text))?;
        if self.rt.stdout().write_all(text.as_slice()).is_err() {
            return Err(Fault::Write);
        }
        if !is_same {
            return Err(Fault::Differs);
        }
        self.has_agreed = true;
        self.of.agree();
        self.against.agree();
        Ok(())
    }

    /// Whether both show the same.
    fn is_same(&self, are_next: bool) -> bool {
        let (node, other) = (self.of.node(), self.against.node());
        (are_next && commits_agree(node, other)) || shows_same(node, other)
    }

    /// Appends what is printed of what both show.
    fn put_verdict(&self, is_same: bool, text: &mut Vec<u8>) -> Result<(), AllocError> {
        let token = match self.of.node().token() {
            Some(token) => token.text(),
            None => "",
        };
        if is_same {
            return print_agreement(self.rt.alloc(), self.options.json, token, text);
        }
        self.put_difference(token, text)
    }

    /// Appends where they differ at a token, where both show something.
    fn put_difference(&self, token: &str, text: &mut Vec<u8>) -> Result<(), AllocError> {
        let alloc = self.rt.alloc();
        let shown = (self.of.node().published(), self.against.node().published());
        let (Some(tables), Some(others)) = shown else {
            return Ok(());
        };
        let Options { json, verbose } = self.options;
        let difference = difference_of(alloc, tables, others)?;
        print_difference(alloc, json, verbose, token, &difference, text)
    }

    /// Goes on until a time, in milliseconds since the start, or until they differ.
    fn run(&mut self, until: u64) -> Result<(), Fault> {
        for _ in 0..u64::MAX {
            let now = of_system(self.pair.now())?;
            if now >= until {
                break;
            }
            let pause = if self.has_more { 0 } else { PAUSE };
            of_system(self.pair.wait(pause.min(until.saturating_sub(now))))?;
            let now = of_system(self.pair.now())?;
            self.step(now)?;
        }
        Ok(())
    }

    /// Why nothing was compared, where nothing was.
    fn end(&self) -> Result<(), Failure> {
        if self.has_agreed {
            return Ok(());
        }
        let why = if !self.of.has_shown() {
            "the server of --of gave nothing"
        } else if !self.against.has_shown() {
            "the server of --against gave nothing"
        } else {
            "there is no token that both have"
        };
        Err(Failure::about(Fault::Unpublished, String::from_str(self.rt.alloc(), why)))
    }
}

/// Whether two nodes that agreed before their last commits publish the same wherever these may have
/// made a difference.
fn commits_agree(node: &Node, other: &Node) -> bool {
    let (Some(ours), Some(theirs)) = (node.newest_commit(), other.newest_commit()) else {
        return false;
    };
    agree_at(node, other, ours.changes.as_slice())
        && agree_at(node, other, theirs.changes.as_slice())
}

/// Whether two nodes publish the same wherever these changes may have made a difference.
fn agree_at(node: &Node, other: &Node, changes: &[Change]) -> bool {
    match (node.published(), other.published()) {
        (Some(tables), Some(others)) => {
            changes.iter().all(|change| tables.agree_at(others, change))
        }
        _ => false,
    }
}

/// Whether two nodes publish the same tables.
fn shows_same(node: &Node, other: &Node) -> bool {
    match (node.published(), other.published()) {
        (Some(tables), Some(others)) => tables.same(others),
        _ => false,
    }
}

/// Follows two servers, and prints at each token that both have whether they agree, until they
/// don't or for as long as is asked for.
pub fn compare_servers(rt: &HostRuntime, options: &CompareOptions<'_>) -> Result<(), Failure> {
    let mut comparison = Comparison::new(rt, options)?;
    let until = match options.seconds {
        Some(seconds) => seconds.saturating_mul(1_000),
        None => u64::MAX,
    };
    let ended = match comparison.run(until) {
        Ok(()) => comparison.end(),
        Err(Fault::Differs) => Err(Failure::reported_as(Fault::Differs, "the servers differ")),
        Err(fault) => Err(Failure::from(fault)),
    };
    drop(comparison);
    ended
}
