//! The call of `live` that a server takes.
ghost use Rattle.std.specs.Prelude.{◌≡◌, ◌++◌, ◌∷◌, [], true, map, option_map, string_bytes, IfOk, OnOk};
ghost use Rattle.feed_probe.specs.Call.{IsAsked, IsAt, IsCalled, IsNamed, IsUsual, call_words, option_words, needs_words};

use crate::Needs;
use crate::needs::USUAL_PAUSE;
use feed_arguments::{
    FeedUrl, LiveOptions, NoCommand, PROGRAM, Request, UpstreamOptions, feed_url, parse_words,
};
use std::alloc::{AllocError, Global};
use thiserror::Error;

/// What a relay is to be called with.
#[derive(Clone, Copy)]
pub struct Call<'a> {
    /// The URL of the feed that it follows.
    pub url: &'a str,
    /// The servers that it asks where that fails, as a list.
    pub further: Option<&'a str>,
    /// What requests call the server.
    pub host_header: Option<&'a str>,
    /// The name of the file with the user.
    pub user_file: Option<&'a str>,
    /// The name of its state file.
    pub state: &'a str,
    /// Which options the server needs.
    pub needs: Needs,
}

/// Why there is no such call.
#[derive(Clone, Copy, Debug, PartialEq, Eq, Error)]
pub enum CallFault {
    /// These words would ask for something else, as where a file's name begins with a dash.
    #[error("no call of live asks for this")]
    Otherwise,
    /// Memory ran out.
    #[error("out of memory")]
    Memory,
}

impl From<AllocError> for CallFault {
    ghost from_gives = { λ _ _. Unit {0} };

    fn from(_error: AllocError) -> CallFault {
        CallFault::Memory
    }
}

/// Appends a word.
fn push_word(alloc: Global, words: &mut Vec<String>, word: &str) -> Result<(), AllocError>
    ensures { OnOk result
        (map string_bytes words.new.items ≡ map string_bytes words.old.items ++ word.now ∷ []) }
{
    let word = String::from_str(alloc, word)?;
    words.push(word)?;
    Ok(())
}

/// Appends an option and its value, where it has one.
fn push_option(
    alloc: Global,
    words: &mut Vec<String>,
    name: &str,
    value: Option<&str>,
) -> Result<(), AllocError>
    ensures { OnOk result (map string_bytes words.new.items
        ≡ map string_bytes words.old.items
        ++ option_words name.now (option_map (λ text. text.now) value.entry)) }
{
    if let Some(value) = value {
        push_word(alloc, words, name)?;
        push_word(alloc, words, value)?;
    }
    Ok(())
}

/// Appends the options that a server needs.
fn push_needs(alloc: Global, words: &mut Vec<String>, needs: Needs) -> Result<(), AllocError>
    ensures { OnOk result (map string_bytes words.new.items
        ≡ map string_bytes words.old.items ++ needs_words needs) }
{
    if let Some(pause) = needs.settle {
        let pause = format!(in alloc; "{pause}")?;
        push_option(alloc, words, "--settle", Some(pause.as_str()))?;
    }
    if needs.is_fresh {
        push_word(alloc, words, "--fresh")?;
    }
    Ok(())
}

/// The words of a call.
fn words_of(alloc: Global, call: &Call<'_>) -> Result<Vec<String>, AllocError>
    ensures { IfOk result (λ words. map string_bytes words.items ≡ call_words call.now) }
{
    let mut words = Vec::new(alloc);
    push_word(alloc, &mut words, PROGRAM)?;
    push_word(alloc, &mut words, "live")?;
    push_option(alloc, &mut words, "--url", Some(call.url))?;
    push_option(alloc, &mut words, "--from", call.further)?;
    push_option(alloc, &mut words, "--host-header", call.host_header)?;
    push_option(alloc, &mut words, "--user-file", call.user_file)?;
    push_needs(alloc, &mut words, call.needs)?;
    push_option(alloc, &mut words, "--listen", Some("0.0.0.0:8001"))?;
    push_option(alloc, &mut words, "--status", Some("9001"))?;
    push_option(alloc, &mut words, "--state", Some(call.state))?;
    Ok(words)
}

/// Whether two texts are the same, or both are lacking.
fn are_same(text: Option<&str>, other: Option<&str>) -> bool
    ensures { result ≡ true → option_map (λ text. text.now) text.entry
        ≡ option_map (λ text. text.now) other.entry }
{
    match (text, other) {
        (Some(text), Some(other)) => text == other,
        (None, None) => true,
        _ => false,
    }
}

/// Whether the feed that a URL names is what is followed of a contest.
fn is_at(url: &FeedUrl<'_>, contest: &str, upstream: &UpstreamOptions<'_>) -> bool
    ensures { result ≡ true → IsAt url.now contest.now upstream.now }
{
    url.contest == contest
        && url.host == upstream.host
        && url.port == upstream.port
        && url.base == upstream.base
}

/// The same of a text, which is the URL.
fn is_named(url: &str, contest: &str, upstream: &UpstreamOptions<'_>) -> bool
    ensures { result ≡ true → IsNamed url.now contest.now upstream.now }
{
    match feed_url(url) {
        Ok(url) => is_at(&url, contest, upstream),
        Err(_) => false,
    }
}

/// Whether these options are just those of a call.
fn is_called(options: &LiveOptions<'_>, call: &Call<'_>) -> bool
    ensures { result ≡ true → IsCalled call.now options.now }
{
    let Some(upstream) = &options.upstream else {
        return false;
    };
    is_named(call.url, options.contest, upstream)
        && are_same(upstream.from, call.further)
        && are_same(upstream.host_header, call.host_header)
        && are_same(upstream.user_file, call.user_file)
        && are_same(options.state, Some(call.state))
        && options.settle == call.needs.settle.unwrap_or(USUAL_PAUSE)
        && options.fresh == call.needs.is_fresh
        && is_usual(options)
}

/// Whether no option is given that takes from what a relay promises, or by which it would not run.
fn is_usual(options: &LiveOptions<'_>) -> bool
    ensures { result ≡ true → IsUsual options.now }
{
    !options.no_recheck
        && !options.serve_old
        && !options.serve_broken
        && !options.is_new
        && !options.until_eof
        && !options.check
}

/// Whether these words ask for just a call.
fn ask<'a>(alloc: Global, words: &'a [&'a str], call: &Call<'_>) -> Result<bool, AllocError>
    ensures { IfOk result (λ asks. asks ≡ true
        → IsAsked call.now (map (λ word. word.now) words.entry.now)) }
{
    match parse_words(alloc, words) {
        Ok(Request::Live(options)) => Ok(is_called(&options, call)),
        Err(NoCommand::Memory) => Err(AllocError),
        _ => Ok(false),
    }
}

/// The texts of words.
fn texts_of<'a>(alloc: Global, words: &'a [String]) -> Result<Vec<&'a str>, AllocError>
    ensures { IfOk result (λ texts.
        map (λ text. text.now) texts.items ≡ map string_bytes words.entry.now) }
{
    let mut texts = Vec::new(alloc);
    for word in words {
        texts.push(word.as_str())?;
    }
    Ok(texts)
}

/// Whether a list of words asks for just a call.
fn asks(alloc: Global, words: &[String], call: &Call<'_>) -> Result<bool, AllocError>
    ensures { IfOk result (λ asks. asks ≡ true
        → IsAsked call.now (map string_bytes words.now)) }
{
    let texts = texts_of(alloc, words)?;
    ask(alloc, texts.as_slice(), call)
}

/// The words of a call of `live`: read again, they ask for just that.
pub fn call_of(alloc: Global, call: &Call<'_>) -> Result<Vec<String>, CallFault>
    ensures words { IfOk result (λ words.
        map string_bytes words.items ≡ call_words call.now) }
    ensures asked { IfOk result (λ words.
        IsAsked call.now (map string_bytes words.items)) }
{
    let words = words_of(alloc, call)?;
    if asks(alloc, words.as_slice(), call)? {
        Ok(words)
    } else {
        Err(CallFault::Otherwise)
    }
}

/// Whether a shell takes a letter as it is.
fn is_plain(letter: u8) -> bool {
    letter.is_ascii_alphanumeric() || b"-_./:=,@%+".contains(&letter)
}

/// Appends a word as a shell reads it: in quotes where it has to be.
pub fn put_quoted(word: &str, out: &mut String) -> Result<(), AllocError> {
    if !word.is_empty() && word.as_bytes().iter().all(|letter| is_plain(*letter)) {
        return out.push_str(word);
    }
    out.push('\'')?;
    for (number, part) in word.split('\'').enumerate() {
        if number > 0 {
            out.push_str("'\\''")?;
        }
        out.push_str(part)?;
    }
    out.push('\'')
}
