//! The words of a command line, and what they ask for.
ghost use Rattle.std.specs.Prelude.{◌≡◌, List, map, IfOk, IfErr};
ghost use Rattle.clap.specs.Words.{Text, app_of, kind_of};
ghost use Rattle.clap.specs.declared.error.kind.ErrorKind.TheVariants as kind;
ghost use Rattle.feed_arguments.specs.Words.{Asks, AsksNothing, RefusesBy, RepliesBy, command_line};

mod asked;
mod asked_live;
mod asked_record;
mod declaring;
mod followed;
mod line;
mod live;
mod options;
mod probe;
mod recording;
mod refusing;

use crate::request::{NoCommand, Request};
use asked::request_entered;
use clap::error::ErrorKind;
use clap::{ArgMatches, Command};
use line::{USUAL_CALLS, command_line};
use refusing::refusal;
use std::alloc::{AllocError, Global};

/// The name of the program.
pub const PROGRAM: &str = "tunygarop";

/// The version of the program.
pub const VERSION: &str = "0.2.0";

/// What clap replies to words that ask for no command.
fn reply(alloc: Global, error: &clap::Error) -> NoCommand
    ensures { RepliesBy (kind_of error.now) result }
{
    if error.kind() == ErrorKind::OutOfMemory {
        return NoCommand::Memory;
    }
    let Ok(text) = format!(in alloc; "{error}") else {
        return NoCommand::Memory;
    };
    if error.use_stderr() {
        NoCommand::Refused(text)
    } else {
        NoCommand::Shown(text)
    }
}

/// Why what was entered asks for nothing.
fn told(
    alloc: Global,
    program: &mut Command<'_>,
    matches: &ArgMatches<'_>,
) -> Result<clap::Error, AllocError>
    ensures { IfOk result (λ error. kind_of error ≡ kind.ValueValidation) }
{
    let text = refusal(alloc, matches)?;
    program.error(ErrorKind::ValueValidation, text.as_str())
}

/// What the words ask of the program, or what clap replies to them.
fn asked_of<'a>(
    alloc: Global,
    program: &mut Command<'a>,
    words: &'a [&'a str],
) -> Result<Request<'a>, clap::Error>
    ensures ok { app_of program.old ≡ command_line → IfOk result (λ request.
        Asks (map (λ word. word.now) words.entry.now) request) }
    ensures err { app_of program.old ≡ command_line → IfErr result (λ error.
        RefusesBy (map (λ word. word.now) words.entry.now) (kind_of error)) }
{
    let matches = program.try_get_matches_from_mut(words)?;
    match request_entered(&matches) {
        Some(request) => Ok(request),
        None => {
            let error = told(alloc, program, &matches)?;
            Err(error)
        }
    }
}

/// What the words ask for, or what clap replies to them.
fn parse<'a>(alloc: Global, words: &'a [&'a str]) -> Result<Request<'a>, clap::Error>
    ensures ok { IfOk result (λ request. Asks (map (λ word. word.now) words.entry.now) request) }
    ensures err { IfErr result (λ error.
        RefusesBy (map (λ word. word.now) words.entry.now) (kind_of error)) }
{
    let mut program = command_line(alloc)?;
    let asked = asked_of(alloc, &mut program, words);
    // By a call: where a command goes out of scope, the drops of all its fields are proved.
    drop(program);
    asked
}

/// A refusal with this text below it.
fn with_more(reply: NoCommand, more: &str) -> NoCommand
    ensures { (words : List Text) → AsksNothing words reply → AsksNothing words result }
{
    let NoCommand::Refused(mut text) = reply else {
        return reply;
    };
    for piece in ["\n", more, "\n"] {
        if text.push_str(piece).is_err() {
            return NoCommand::Memory;
        }
    }
    NoCommand::Refused(text)
}

/// How a command is given a file, where its words name one that clap doesn't expect.
fn call_with_file(command: &str) -> Option<&'static str> {
    match command {
        "tables" => Some("tables reads standard input: tunygarop tables < FILE"),
        "check" => Some("check reads standard input: tunygarop check < FILE"),
        "play" => Some("play reads standard input: tunygarop play < FILE"),
        "serve" => Some("serve reads standard input: tunygarop serve .. < FILE"),
        "record" => Some("record writes a file: tunygarop record --url URL --file FILE"),
        "replay" => Some("replay reads a file: tunygarop replay --file FILE --speed N .."),
        "audit" => Some("audit reads files: tunygarop audit --primary FILE --screen FILE"),
        _ => None,
    }
}

/// Whether a refusal is about a word that is no option, as the name of a file.
fn is_about_a_name(refusal: &str) -> bool {
    match refusal.strip_prefix("error: unexpected argument '") {
        Some(rest) => !rest.starts_with('-'),
        None => false,
    }
}

/// What stands below a reply to these words: the usual calls, where nothing stands behind the
/// program's name, or how a command is given a file.
fn more_on(words: &[&str], reply: &NoCommand) -> Option<&'static str> {
    let Some(command) = words.get(1) else {
        return Some(USUAL_CALLS);
    };
    match reply {
        NoCommand::Refused(text) if is_about_a_name(text.as_str()) => call_with_file(command),
        _ => None,
    }
}

/// What is replied to words that clap refuses.
fn reply_to(alloc: Global, words: &[&str], error: &clap::Error) -> NoCommand
    ensures { (words : List Text) → RefusesBy words (kind_of error.now) → AsksNothing words result }
{
    let reply = reply(alloc, error);
    match more_on(words, &reply) {
        Some(more) => with_more(reply, more),
        None => reply,
    }
}

/// What the words ask for; the first of them is the program's name.
pub fn parse_words<'a>(alloc: Global, words: &'a [&'a str]) -> Result<Request<'a>, NoCommand>
    ensures ok { IfOk result (λ request. Asks (map (λ word. word.now) words.entry.now) request) }
    ensures err { IfErr result (λ reply.
        AsksNothing (map (λ word. word.now) words.entry.now) reply) }
{
    match parse(alloc, words) {
        Ok(request) => Ok(request),
        Err(error) => Err(reply_to(alloc, words, &error)),
    }
}
