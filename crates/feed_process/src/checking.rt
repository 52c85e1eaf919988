//! What `live --check` looks at: whether a relay of these options could start here. A line is
//! printed for each thing, and nothing on disk is changed.

mod state;

use crate::making::failure_of;
use crate::servers::{identity, listed_servers, look_at_servers};
use feed_answer::Identity;
use feed_commands::stream::Stream;
use feed_commands::{Fault, LiveOptions, NetworkFault, Server};
use feed_host::{Failure, Hosts, ended, lack_of_files, look_at};
use feed_system::{FreePorts, try_ports};
use state::look_at_state;
use std::alloc::{AllocError, Global};
use std::net::SocketAddr;

/// What was found so far.
#[derive(Drop)]
struct Findings<'r> {
    rt: &'r HostRuntime,
    /// The status of the first trouble; 0 where there was none.
    status: u8,
}

impl Findings<'_> {
    /// Prints a line, and answers the status 4 where it can't be printed.
    fn print(&self, what: &str, text: &str) -> u8 {
        match println!(self.rt; "ok {what}: {text}") {
            Ok(()) => 0,
            Err(_) => Fault::Write.status(),
        }
    }

    /// Prints what came of looking at something: that all is well, or the trouble with it.
    fn note(&mut self, what: &str, outcome: Result<String, Failure>) {
        let status = match outcome {
            Ok(text) => self.print(what, text.as_str()),
            Err(failure) => self.trouble(what, failure),
        };
        if self.status == 0 {
            self.status = status;
        }
    }

    /// Prints a trouble, and answers its status.
    fn trouble(&self, what: &str, failure: Failure) -> u8 {
        let mut out = Stream::new(self.rt.stdout());
        match format!(in self.rt.alloc(); "problem {what}") {
            Ok(name) => ended(name.as_str(), Err(failure), &mut out),
            Err(_) => ended("problem", Err(failure), &mut out),
        }
    }
}

/// A text that is told.
fn said(alloc: Global, text: &str) -> Result<String, Failure> {
    or_memory(String::from_str(alloc, text))
}

fn or_memory(text: Result<String, AllocError>) -> Result<String, Failure> {
    match text {
        Ok(text) => Ok(text),
        Err(_) => Err(Failure::from(Fault::Memory)),
    }
}

/// The user file: as whom servers are asked.
fn look_at_user(
    rt: &HostRuntime,
    options: &LiveOptions<'_>,
    findings: &mut Findings<'_>,
) -> Identity {
    let named = match &options.upstream {
        Some(upstream) => upstream.user_file.is_some(),
        None => false,
    };
    match identity(rt, options) {
        Ok(identity) => {
            if named {
                findings.note("user", said(rt.alloc(), "it is one name and one password"));
            }
            identity
        }
        Err(failure) => {
            findings.note("user", Err(failure));
            Identity::anonymous()
        }
    }
}

/// What a server is called here: its address, and the path of the contest there.
fn name_of(alloc: Global, server: &Server<'_>) -> Result<String, AllocError> {
    let place = &server.place;
    let (host, base, contest) = (place.host(), place.base(), place.contest());
    format!(in alloc; "server http://{host}{base}/contests/{contest}")
}

/// Looks at one server.
fn look_at_one(rt: &HostRuntime, server: &Server<'_>, findings: &mut Findings<'_>) {
    let outcome = match look_at(rt, server) {
        Ok(text) => said(rt.alloc(), text),
        Err(failure) => Err(failure),
    };
    match name_of(rt.alloc(), server) {
        Ok(name) => findings.note(name.as_str(), outcome),
        Err(_) => findings.note("server", outcome),
    }
}

/// Looks at each server, in turn.
fn look_at_each(
    rt: &HostRuntime,
    options: &LiveOptions<'_>,
    findings: &mut Findings<'_>,
) -> Result<(), Failure> {
    look_at_servers(rt, options)?;
    let identity = look_at_user(rt, options, findings);
    let Some(upstream) = &options.upstream else {
        return Ok(());
    };
    let hosts = Hosts::new(rt.alloc(), upstream)?;
    let named = hosts.named(upstream);
    let servers = listed_servers(rt, options, &named, &identity)?;
    for server in &servers {
        look_at_one(rt, server, findings);
    }
    Ok(())
}

/// Looks at what is followed.
fn look_upstream(rt: &HostRuntime, options: &LiveOptions<'_>, findings: &mut Findings<'_>) {
    if options.upstream.is_none() {
        findings.note("input", said(rt.alloc(), "it isn't read now"));
        return;
    }
    if let Err(failure) = look_at_each(rt, options, findings) {
        findings.note("servers", Err(failure));
    }
}

/// What is told of a port that could be listened at.
fn note_port(alloc: Global, what: &str, address: Option<SocketAddr>, findings: &mut Findings<'_>) {
    if let Some(address) = address {
        let text = format!(in alloc; "{address} can be listened at");
        findings.note(what, or_memory(text));
    }
}

/// Looks at the ports.
fn look_at_ports(rt: &HostRuntime, options: &LiveOptions<'_>, findings: &mut Findings<'_>) {
    let alloc = rt.alloc();
    match try_ports(rt, options) {
        Ok(FreePorts { screens, watchers }) => {
            note_port(alloc, "port", screens, findings);
            note_port(alloc, "status port", watchers, findings);
        }
        Err(fault) => findings.note("ports", Err(failure_of(alloc, fault))),
    }
}

/// Looks whether enough files may be open.
fn look_at_files(rt: &HostRuntime, options: &LiveOptions<'_>, findings: &mut Findings<'_>) {
    let alloc = rt.alloc();
    let outcome = match lack_of_files(alloc, options) {
        Ok(None) => said(alloc, "enough may be open"),
        Ok(Some(text)) => Err(Failure::told(Fault::from(NetworkFault::Accept), Ok(text))),
        Err(_) => Err(Failure::from(Fault::Memory)),
    };
    findings.note("open files", outcome);
}

/// Looks at all that a relay of these options needs, and prints a line for each: `ok` and what was
/// found, or `problem` and what is wrong. Answers 0, or the status of the first trouble.
pub fn check(rt: &HostRuntime, options: &LiveOptions<'_>) -> u8 {
    let mut findings = Findings { rt, status: 0 };
    look_upstream(rt, options, &mut findings);
    if let Some(path) = options.state {
        findings.note("state", look_at_state(rt, options, path));
    }
    look_at_ports(rt, options, &mut findings);
    if options.listen.is_some() {
        look_at_files(rt, options, &mut findings);
    }
    findings.status
}
