//! The commands, as a command line asks for them.
ghost use Rattle.std.specs.Prelude.{◌≡◌, ◌≢◌, ◌≤◌, None, false, map, IfErr, IfSome, IsErrOf, OnOk};
ghost use Rattle.feed_commands.specs.Commands.{CheckPrinted, CheckNotPrinted, CommandSucceeds, CommandFails, IsDeviceFault, EndsWithStatus, RepliesToWords, ReportsRefusal};
ghost use Rattle.feed_commands.specs.Commands.{is_local, standard, RunsBy};
ghost use Rattle.feed_arguments.specs.declared.request.Request.TheVariants as asked;
ghost use Rattle.feed_commands.specs.Streams.{streams_of};
ghost use Rattle.feed_http.specs.Device.{HasFailed};
ghost use Rattle.feed_http.specs.Exchange.{wrote_by};

pub mod audit;
mod check;
pub mod findings;
mod play;
pub mod pull;
pub mod relay;
pub mod serve;
mod state_at;
mod streamed;
mod tables;

use crate::fault::{Fault, REFUSED};
use crate::reporting::report;
use check::print_counts;
use feed_arguments::{CheckOptions, Local, NoCommand, PROGRAM, Request, parse_words};
use feed_http::device::{Failed, FeedRead, FeedWrite, write_all};
use play::print_played;
use state_at::print_state_at;
use std::alloc::Global;
use streamed::print_stream;
use tables::print_tables;

/// Prints what is replied to words that ask for no command: help and the version to `out`, why they
/// are refused to `err`. The status is 0 where all of that text was printed, 1 for words that are
/// refused, 4 where `out` failed, and 5 where memory had run out.
fn answer_words<W: FeedWrite, E: FeedWrite>(reply: &NoCommand, out: &mut W, err: &mut E) -> u8
    ensures out { let wrote = wrote_by W.contents W.failures out.old out.new in
        RepliesToWords reply.now result wrote }
    ensures err { let wrote = wrote_by E.contents E.failures err.old err.new in
        ReportsRefusal reply.now wrote }
{
    match reply {
        NoCommand::Memory => report(PROGRAM, Fault::Memory, err),
        NoCommand::Shown(text) => match write_all(out, text.as_bytes()) {
            Ok(()) => 0,
            Err(Failed) => report(PROGRAM, Fault::Write, err),
        },
        NoCommand::Refused(text) => {
            let _ = write_all(err, text.as_bytes());
            REFUSED
        }
    }
}

/// Prints what the lines of the input are, which is read whole or as a stream.
fn print_check<R: FeedRead, W: FeedWrite>(
    alloc: Global,
    options: CheckOptions,
    input: &mut R,
    out: &mut W,
) -> Result<(), Fault>
    ensures ok { let streams = streams_of R.remaining R.failures W.contents W.failures
        input.old input.new out.old out.new in
        OnOk result (CheckPrinted options.stream options streams) }
    ensures err { let streams = streams_of R.remaining R.failures W.contents W.failures
        input.old input.new out.old out.new in
        IfErr result (λ why. CheckNotPrinted options.stream options why streams) }

    ensures read { IsErrOf result Fault.Read
        → HasFailed (R.failures input.old) (R.failures input.new) }
    ensures write { IsErrOf result Fault.Write
        → HasFailed (W.failures out.old) (W.failures out.new) }
    ensures memory { IsErrOf result Fault.Memory
        → (R.failures input.new ≡ R.failures input.old)
        × (W.failures out.new ≡ W.failures out.old) }
{
    if options.stream {
        print_stream(alloc, options, input, out)
    } else {
        print_counts(alloc, options, input, out)
    }
}

/// Does what a command is asked for that opens no connection. Where a device failed, its count of
/// failures tells so.
pub fn perform<R: FeedRead, W: FeedWrite>(
    alloc: Global,
    request: &Local<'_>,
    input: &mut R,
    out: &mut W,
) -> Result<(), Fault>
    ensures ok { let streams = streams_of R.remaining R.failures W.contents W.failures
        input.old input.new out.old out.new in
        OnOk result (CommandSucceeds request.now streams) }
    ensures err { let streams = streams_of R.remaining R.failures W.contents W.failures
        input.old input.new out.old out.new in
        IfErr result (λ why. CommandFails request.now why streams) }

    ensures device { let streams = streams_of R.remaining R.failures W.contents W.failures
        input.old input.new out.old out.new in
        IfErr result (λ why. IsDeviceFault why streams) }
{
    match request {
        Local::Tables(options) => match options.at {
            Some(token) => print_state_at(alloc, options, token, input, out),
            None => print_tables(alloc, options, input, out),
        },
        Local::Check(options) => print_check(alloc, *options, input, out),
        Local::Play => print_played(alloc, input, out),
    }
}

/// Does that, reports its fault, and answers the status for it.
fn run_local<R: FeedRead, W: FeedWrite, E: FeedWrite>(
    alloc: Global,
    request: &Local<'_>,
    input: &mut R,
    out: &mut W,
    err: &mut E,
) -> u8
    ensures ok { let streams = streams_of R.remaining R.failures W.contents W.failures
        input.old input.new out.old out.new in
        result ≡ 0 → CommandSucceeds request.now streams }
    ensures err { let streams = streams_of R.remaining R.failures W.contents W.failures
        input.old input.new out.old out.new in
        let reported = wrote_by E.contents E.failures err.old err.new in
        result ≢ 0 → EndsWithStatus request.now result streams reported }
    ensures unreported { result ≡ 0 → err.new ≡ err.old }
    ensures statuses { (result ≢ 1) × (result ≤ 5) }
{
    match perform(alloc, request, input, out) {
        Ok(()) => 0,
        Err(fault) => report(request.name(), fault, err),
    }
}

/// The command that opens no connection, where one is asked for.
fn local_of<'r, 'a>(request: &'r Request<'a>) -> Option<&'r Local<'a>>
    ensures some { IfSome result (λ local. request.now ≡ asked.Local local.now) }
    ensures none { result ≡ None → is_local request.now ≡ false }
{
    match request {
        Request::Local(local) => Some(local),
        _ => None,
    }
}

/// Runs the command that these words ask for, the first of which is the program's name, and answers
/// the status that the program ends with. Of a command that opens no connection that is 0, or the
/// first of these that applies: 5 when out of memory, 4 for a device that failed or an input that
/// did not end, 2 for a faulty input, 3 where nothing was published. Where the words ask for
/// another command, nothing is read or written, and the status is 1. Where they ask for none, it is
/// that of what is replied to them.
pub fn run<'a, R: FeedRead, W: FeedWrite, E: FeedWrite>(
    alloc: Global,
    words: &'a [&'a str],
    input: &mut R,
    out: &mut W,
    err: &mut E,
) -> u8
    ensures { let streams = streams_of R.remaining R.failures W.contents W.failures
        input.old input.new out.old out.new in
        let reported = wrote_by E.contents E.failures err.old err.new in
        RunsBy (map (λ word. word.now) words.entry.now) result streams reported
        (standard input.old out.old err.old) (standard input.new out.new err.new) }
{
    match parse_words(alloc, words) {
        Ok(request) => match local_of(&request) {
            Some(local) => run_local(alloc, local, input, out, err),
            None => REFUSED,
        },
        Err(reply) => answer_words(&reply, out, err),
    }
}
