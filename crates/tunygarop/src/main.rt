//! The program: its arguments, standard streams and sockets, for the commands of `feed_commands`.
#![tactic(auto)]

mod live;
mod records;

use feed_commands::stream::Stream;
use feed_commands::{Fault, NoCommand, PROGRAM, Request, parse_words, report, run};
use feed_compare::compare_servers;
use feed_host::{
    Errors, Failure, audit_records, ended, input_ahead, pull_feed, relay_feed, serve_feed,
};
use feed_process::{check, probe};
use feed_recorder::record_feed;
use feed_system::hold_standard;
use live::live_feed;
use records::{print_tables_at, replay_feed};
use std::io::ErrorKind;
use std::process::ExitCode;
use std::{env, io};

/// The status for a refused command line.
const REFUSED: u8 = 1;

/// The status where a device failed.
const DEVICE_FAILED: u8 = 4;

/// The status for want of memory.
const WANT_OF_MEMORY: u8 = 5;

/// Runs the command of this name that these words ask for, over the standard streams.
fn run_words<'a>(rt: &HostRuntime, name: &str, words: &'a [&'a str]) -> u8 {
    let Ok(input) = input_ahead(rt) else {
        return report(name, Fault::Memory, &mut Stream::new(rt.stderr()));
    };
    run(
        rt.alloc(),
        words,
        &mut Stream::new(input),
        &mut Stream::new(rt.stdout()),
        &mut Stream::new(rt.stderr()),
    )
}

/// Reports why a command of the network failed, if it did, and answers its status.
fn end(rt: &HostRuntime, name: &str, outcome: Result<(), Failure>) -> u8 {
    ended(name, outcome, &mut Errors::new(rt))
}

/// Runs the command that is asked for. What `run` does is proved of the words, which it reads once
/// more.
fn run_request<'a>(rt: &HostRuntime, request: &Request<'_>, words: &'a [&'a str]) -> u8 {
    match request {
        Request::Local(request) => run_words(rt, request.name(), words),
        Request::Audit(options) => end(rt, "audit", audit_records(rt, options)),
        Request::Compare(options) => end(rt, "audit", compare_servers(rt, options)),
        Request::Probe(options) => probe(rt, options),
        Request::Serve(options) => end(rt, "serve", serve_feed(rt, options)),
        Request::Pull(options) => end(rt, "pull", pull_feed(rt, options)),
        Request::Relay(options) => end(rt, "relay", relay_feed(rt, options)),
        Request::AtTime(options) => end(rt, "tables", print_tables_at(rt, options)),
        Request::Record(options) => end(rt, "record", record_feed(rt, options)),
        Request::Replay(options) => end(rt, "replay", replay_feed(rt, options)),
        Request::Live(options) if options.check => check(rt, options),
        Request::Live(options) => end(rt, "live", live_feed(rt, options)),
    }
}

/// Runs the command that these words ask for.
fn status_of<'a>(rt: &HostRuntime, words: &'a [&'a str]) -> u8 {
    match parse_words(rt.alloc(), words) {
        Ok(request) => run_request(rt, &request, words),
        Err(reply) => reply_to(rt, &reply, words),
    }
}

/// Replies to words that ask for no command, as `run` does.
fn reply_to<'a>(rt: &HostRuntime, reply: &NoCommand, words: &'a [&'a str]) -> u8 {
    let _reply = reply;
    run_words(rt, PROGRAM, words)
}

/// Runs the command that the program's arguments ask for.
fn status(rt: &HostRuntime) -> io::Result<u8> {
    let alloc = rt.alloc();
    let arguments: Vec<String> = env::args(rt)?.collect(alloc)?;
    let words: Vec<&str> = arguments.iter().map(|word| word.as_str()).collect(alloc)?;
    Ok(status_of(rt, &words))
}

fn main(rt: HostRuntime) -> ExitCode {
    let Ok(_placeholders) = hold_standard(&rt) else {
        return ExitCode::from(DEVICE_FAILED);
    };
    match status(&rt) {
        Ok(status) => ExitCode::from(status),
        Err(error) if error.kind() == ErrorKind::OutOfMemory => ExitCode::from(WANT_OF_MEMORY),
        Err(_) => {
            let _ = eprintln!(rt; "error: an argument is not UTF-8");
            ExitCode::from(REFUSED)
        }
    }
}
