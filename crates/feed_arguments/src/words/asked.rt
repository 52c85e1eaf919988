//! What the options of a command ask for.
ghost use Rattle.std.specs.Prelude.{◌≡◌, ℕ, true, false, Option, None, Some, codes, option_map, IfSome};
ghost use Rattle.clap.specs.Matches.{found_of};
ghost use Rattle.clap.specs.Words.{rows_of, subcommand_rows_of};
ghost use Rattle.feed_settings.specs.Limits.{Limits as LimitsOf, most_changes, most_commits};
ghost use Rattle.feed_arguments.specs.Addresses.{most_port};
ghost use Rattle.feed_arguments.specs.Live.{MayClash, kept_bytes};
ghost use Rattle.feed_arguments.specs.Options.{most_rounds, most_silence};
ghost use Rattle.feed_arguments.specs.Options.{text_at, SaysNumber, IsNumberUpTo, IsNumberIfGiven};
ghost use Rattle.feed_arguments.specs.Options.{IsGiven, IsFramed, AsksLimits, AsksLimitsOr};
ghost use Rattle.feed_arguments.specs.Recording.{AsksNoTime, AsksAtTime};
ghost use Rattle.feed_arguments.specs.Upstream.{AsksUpstream};
ghost use Rattle.feed_arguments.specs.declared.request.AtTimeOptions.{AtTimeOptions as AtTime};
ghost use Rattle.feed_arguments.specs.Words.{AsksTables, AsksCheck, AreOnInput, AsksAudit, AsksCompare, ComparesNone, AsksServe, AsksPull, AsksRelay, AsksBy, AsksAt};
ghost use Rattle.feed_arguments.specs.declared.request.AuditOptions.{AuditOptions as Audit};
ghost use Rattle.feed_arguments.specs.declared.request.CompareOptions.{CompareOptions as Compare};
ghost use Rattle.feed_arguments.specs.declared.request.PullOptions.{PullOptions as Pull};
ghost use Rattle.feed_arguments.specs.declared.request.RelayOptions.{RelayOptions as Relay};
ghost use Rattle.feed_arguments.specs.declared.request.Request.{Request as Asked};
ghost use Rattle.feed_arguments.specs.declared.request.ServeOptions.{ServeOptions as Serve};
ghost use Rattle.feed_arguments.specs.declared.request.TablesOptions.{TablesOptions as Tables};
ghost use Rattle.feed_arguments.specs.declared.request.UpstreamOptions.{UpstreamOptions as Upstream};

use super::asked_live::live_options;
use super::asked_record::{record_options, replay_options};
use super::live::KEPT_BYTES;
use super::options::{MOST_PORT, MOST_ROUNDS, MOST_SILENCE};
use super::probe::probe_options;
use crate::request::{
    AtTimeOptions, AuditOptions, CheckOptions, CompareOptions, Local, PullOptions, RelayOptions,
    Request, ServeOptions, TablesOptions, UpstreamOptions,
};
use clap::ArgMatches;
use feed_settings::{Framing, Limits, MOST_CHANGES, MOST_COMMITS, MOST_MEMORY};

/// The number that an option's value says; none where it is out of its range, which its parser has
/// refused.
pub(super) fn number_up_to(matches: &ArgMatches<'_>, name: &str, most: u64) -> Option<u64>
    ensures some { IfSome result
        (λ n. IsNumberUpTo name.now most (rows_of (found_of matches.now)) n) }
    ensures none { result ≡ None → (n : ℕ)
        → ¬ (IsNumberUpTo name.now most (rows_of (found_of matches.now)) n) }
{
    let number = matches.get_one::<u64>(name)?;
    if number <= most { Some(number) } else { None }
}

/// The same of an option whose value is 1 at least.
pub(super) fn number(matches: &ArgMatches<'_>, name: &str, most: u64) -> Option<u64>
    ensures some { IfSome result
        (λ n. SaysNumber name.now most (rows_of (found_of matches.now)) n) }
    ensures none { result ≡ None → (n : ℕ)
        → ¬ (SaysNumber name.now most (rows_of (found_of matches.now)) n) }
{
    let number = number_up_to(matches, name, most)?;
    if 1 <= number { Some(number) } else { None }
}

/// The same of an option that may be left out.
#[tactic(auto, using(crate::proofs::WordsLemmas::says))]
pub(super) fn number_if_given(
    matches: &ArgMatches<'_>,
    name: &str,
    most: u64,
) -> Option<Option<u64>>
    ensures some { IfSome result
        (λ n. IsNumberIfGiven name.now most (rows_of (found_of matches.now)) n) }
    ensures none { result ≡ None → (n : Option ℕ)
        → ¬ (IsNumberIfGiven name.now most (rows_of (found_of matches.now)) n) }
{
    if text(matches, name).is_none() {
        return Some(None);
    }
    match number(matches, name, most) {
        Some(number) => Some(Some(number)),
        None => None,
    }
}

/// A port.
fn port(matches: &ArgMatches<'_>, name: &str) -> Option<u16>
    ensures some { IfSome result
        (λ n. SaysNumber name.now most_port (rows_of (found_of matches.now)) n) }
    ensures none { result ≡ None → (n : ℕ)
        → ¬ (SaysNumber name.now most_port (rows_of (found_of matches.now)) n) }
{
    Some(number(matches, name, MOST_PORT)? as u16)
}

/// The text of an option's value; none where it has none.
pub(super) fn text<'a>(matches: &ArgMatches<'a>, name: &str) -> Option<&'a str>
    ensures { text_at name.now (rows_of (found_of matches.now)) ≡ option_map (λ t. t.now) result }
{
    matches.get_str(name)
}

/// Whether an option without a value is given.
pub(super) fn is_given(matches: &ArgMatches<'_>, name: &str) -> bool
    ensures { IsGiven name.now (rows_of (found_of matches.now)) result }
{
    matches.get_flag(name)
}

/// How answers are framed.
pub(super) fn framing(matches: &ArgMatches<'_>) -> Framing
    ensures { IsFramed (rows_of (found_of matches.now)) result }
{
    if is_given(matches, "chunked") {
        Framing::Chunked
    } else {
        Framing::Close
    }
}

/// The limits of a node.
pub(super) fn limits(matches: &ArgMatches<'_>) -> Option<Limits>
    ensures some { IfSome result (λ limits. AsksLimits (rows_of (found_of matches.now)) limits) }
    ensures none { result ≡ None → (limits : LimitsOf)
        → ¬ (AsksLimits (rows_of (found_of matches.now)) limits) }
{
    let limits = limits_of_counts(matches)?;
    match number_if_given(matches, "memory", MOST_MEMORY as u64)? {
        None => Some(limits),
        Some(bytes) => limits.with_memory(bytes as usize).ok(),
    }
}

/// The limits of the node of `live`: the commits that it keeps have so many bytes, too, where
/// memory is not limited.
pub(super) fn live_limits(matches: &ArgMatches<'_>) -> Option<Limits>
    ensures some { IfSome result
        (λ limits. AsksLimitsOr (Some kept_bytes) (rows_of (found_of matches.now)) limits) }
    ensures none { result ≡ None → (limits : LimitsOf)
        → ¬ (AsksLimitsOr (Some kept_bytes) (rows_of (found_of matches.now)) limits) }
{
    let limits = limits_of_counts(matches)?;
    match number_if_given(matches, "memory", MOST_MEMORY as u64)? {
        None => limits.with_history_bytes(KEPT_BYTES).ok(),
        Some(bytes) => limits.with_memory(bytes as usize).ok(),
    }
}

/// The same without a limit in bytes.
fn limits_of_counts(matches: &ArgMatches<'_>) -> Option<Limits>
    ensures history { IfSome result (λ limits. SaysNumber (codes "history") most_commits
        (rows_of (found_of matches.now)) limits.history.commits) }
    ensures bytes { IfSome result (λ limits. limits.history.bytes ≡ None) }
    ensures staged { IfSome result (λ limits.
        SaysNumber (codes "staged") most_changes (rows_of (found_of matches.now)) limits.staged) }
    ensures memory { IfSome result (λ limits. limits.memory ≡ None) }
    ensures none { result ≡ None → (bytes : Option ℕ) (limits : LimitsOf)
        → ¬ (AsksLimitsOr bytes (rows_of (found_of matches.now)) limits) }
{
    let history = number(matches, "history", MOST_COMMITS as u64)?;
    let staged = number(matches, "staged", MOST_CHANGES as u64)?;
    let limits = Limits::new(history as usize, staged as usize).ok()?;
    Some(limits)
}

/// Whether neither a time nor a file of times is given.
fn asks_no_time(matches: &ArgMatches<'_>) -> bool
    ensures yes { result ≡ true → AsksNoTime (rows_of (found_of matches.now)) }
    ensures no { result ≡ false → ¬ (AsksNoTime (rows_of (found_of matches.now))) }
{
    text(matches, "at-time").is_none() && text(matches, "times").is_none()
}

/// What the options of `tables` ask for at a token, or at the end.
fn tables_options<'a>(matches: &ArgMatches<'a>) -> Option<TablesOptions<'a>>
    ensures some { IfSome result (λ options. AsksTables (rows_of (found_of matches.now)) options) }
    ensures none { result ≡ None → (options : Tables)
        → ¬ (AsksTables (rows_of (found_of matches.now)) options) }
{
    if !asks_no_time(matches) {
        return None;
    }
    let limits = limits(matches)?;
    Some(TablesOptions {
        at: text(matches, "at"),
        limits,
        verbose: is_given(matches, "verbose"),
    })
}

/// What the options of `tables` ask for at a time.
fn at_time_options<'a>(matches: &ArgMatches<'a>) -> Option<AtTimeOptions<'a>>
    ensures some { IfSome result (λ options. AsksAtTime (rows_of (found_of matches.now)) options) }
    ensures none { result ≡ None → (options : AtTime)
        → ¬ (AsksAtTime (rows_of (found_of matches.now)) options) }
{
    if text(matches, "at").is_some() {
        return None;
    }
    let time = text(matches, "at-time")?;
    let times = text(matches, "times")?;
    let limits = limits(matches)?;
    Some(AtTimeOptions {
        time,
        times,
        limits,
        verbose: is_given(matches, "verbose"),
    })
}

/// What the options of `tables` ask for.
fn tables_asked<'a>(matches: &ArgMatches<'a>) -> Option<Request<'a>>
    ensures some { IfSome result
        (λ request. AsksBy (codes "tables") (rows_of (found_of matches.now)) request) }
    ensures none { result ≡ None → (request : Asked)
        → ¬ (AsksBy (codes "tables") (rows_of (found_of matches.now)) request) }
{
    match tables_options(matches) {
        Some(options) => Some(Request::Local(Local::Tables(options))),
        None => match at_time_options(matches) {
            Some(options) => Some(Request::AtTime(options)),
            None => None,
        },
    }
}

/// What the options of `check` ask for.
fn check_options(matches: &ArgMatches<'_>) -> CheckOptions
    ensures { AsksCheck (rows_of (found_of matches.now)) result }
{
    CheckOptions {
        stream: is_given(matches, "stream"),
        verbose: is_given(matches, "verbose"),
    }
}

/// Whether no option says which servers are compared.
pub(super) fn compares_none(matches: &ArgMatches<'_>) -> bool
    ensures yes { result ≡ true → ComparesNone (rows_of (found_of matches.now)) }
    ensures no { result ≡ false → ¬ (ComparesNone (rows_of (found_of matches.now))) }
{
    text(matches, "of").is_none()
        && text(matches, "against").is_none()
        && text(matches, "contest").is_none()
        && text(matches, "for").is_none()
}

/// Whether both records are on standard input.
fn are_on_input(primary: &str, screen: Option<&str>) -> bool
    ensures yes { result ≡ true
        → AreOnInput (Some primary.now) (option_map (λ name. name.now) screen.entry) }
    ensures no { result ≡ false
        → ¬ (AreOnInput (Some primary.now) (option_map (λ name. name.now) screen.entry)) }
{
    match screen {
        Some(screen) => primary == "-" && screen == "-",
        None => primary == "-",
    }
}

/// Whether options of `audit` name standard input for both records.
pub(super) fn reads_input_twice(matches: &ArgMatches<'_>) -> bool {
    match text(matches, "primary") {
        Some(primary) => are_on_input(primary, text(matches, "screen")),
        None => false,
    }
}

/// What the options of `audit` ask for that compares records.
fn audit_options<'a>(matches: &ArgMatches<'a>) -> Option<AuditOptions<'a>>
    ensures some { IfSome result (λ options. AsksAudit (rows_of (found_of matches.now)) options) }
    ensures none { result ≡ None → (options : Audit)
        → ¬ (AsksAudit (rows_of (found_of matches.now)) options) }
{
    if !compares_none(matches) {
        return None;
    }
    let primary = text(matches, "primary")?;
    let screen = text(matches, "screen");
    if are_on_input(primary, screen) {
        return None;
    }
    let limits = limits(matches)?;
    Some(AuditOptions {
        primary,
        screen,
        json: is_given(matches, "json"),
        verbose: is_given(matches, "verbose"),
        limits,
    })
}

/// What the options of `audit` ask for that compares two servers.
fn compare_options<'a>(matches: &ArgMatches<'a>) -> Option<CompareOptions<'a>>
    ensures some { IfSome result (λ options. AsksCompare (rows_of (found_of matches.now)) options) }
    ensures none { result ≡ None → (options : Compare)
        → ¬ (AsksCompare (rows_of (found_of matches.now)) options) }
{
    if text(matches, "primary").is_some() || text(matches, "screen").is_some() {
        return None;
    }
    let of = text(matches, "of")?;
    let against = text(matches, "against")?;
    let contest = text(matches, "contest")?;
    let seconds = number_if_given(matches, "for", MOST_ROUNDS)?;
    let limits = limits(matches)?;
    Some(CompareOptions {
        of,
        against,
        contest,
        seconds,
        json: is_given(matches, "json"),
        verbose: is_given(matches, "verbose"),
        limits,
    })
}

/// What the options of `audit` ask for.
fn audit_asked<'a>(matches: &ArgMatches<'a>) -> Option<Request<'a>>
    ensures some { IfSome result
        (λ request. AsksBy (codes "audit") (rows_of (found_of matches.now)) request) }
    ensures none { result ≡ None → (request : Asked)
        → ¬ (AsksBy (codes "audit") (rows_of (found_of matches.now)) request) }
{
    match audit_options(matches) {
        Some(options) => Some(Request::Audit(options)),
        None => match compare_options(matches) {
            Some(options) => Some(Request::Compare(options)),
            None => None,
        },
    }
}

/// What the options of `serve` ask for.
fn serve_options<'a>(matches: &ArgMatches<'a>) -> Option<ServeOptions<'a>>
    ensures some { IfSome result (λ options. AsksServe (rows_of (found_of matches.now)) options) }
    ensures none { result ≡ None → (options : Serve)
        → ¬ (AsksServe (rows_of (found_of matches.now)) options) }
{
    let port = port(matches, "port")?;
    let contest = text(matches, "contest")?;
    let count = number(matches, "count", MOST_ROUNDS)?;
    let turn = number_if_given(matches, "turn", MOST_ROUNDS)?;
    let back = number_up_to(matches, "back", MOST_COMMITS as u64)?;
    let limits = limits(matches)?;
    Some(ServeOptions {
        port,
        contest,
        count,
        turn: turn.map(|turn| turn as usize),
        framing: framing(matches),
        back: back as usize,
        verbose: is_given(matches, "verbose"),
        limits,
    })
}

/// The most reads of a connection, and the most seconds of silence.
fn patience(matches: &ArgMatches<'_>) -> Option<(u64, Option<u64>)>
    ensures reads { IfSome result
        (λ p. SaysNumber (codes "turns") most_rounds (rows_of (found_of matches.now)) p.0) }
    ensures silence { IfSome result
        (λ p. IsNumberIfGiven (codes "silence") most_silence (rows_of (found_of matches.now)) p.1) }
    ensures none { result ≡ None → (reads : ℕ) → (most : Option ℕ)
        → SaysNumber (codes "turns") most_rounds (rows_of (found_of matches.now)) reads
        → ¬ (IsNumberIfGiven (codes "silence") most_silence (rows_of (found_of matches.now)) most) }
{
    let most_reads = number(matches, "turns", MOST_ROUNDS)?;
    let silence = number_if_given(matches, "silence", MOST_SILENCE)?;
    Some((most_reads, silence))
}

/// What a server is told of who asks: its name, and the file with the user.
pub(super) fn identity<'a>(matches: &ArgMatches<'a>) -> (Option<&'a str>, Option<&'a str>)
    ensures host_header { text_at (codes "host-header") (rows_of (found_of matches.now))
        ≡ option_map (λ t. t.now) result.0 }
    ensures user_file { text_at (codes "user-file") (rows_of (found_of matches.now))
        ≡ option_map (λ t. t.now) result.1 }
{
    (text(matches, "host-header"), text(matches, "user-file"))
}

/// The server that is followed first, and those that are asked where it fails.
pub(super) fn upstream_at<'a>(matches: &ArgMatches<'a>) -> Option<UpstreamOptions<'a>>
    ensures some { IfSome result
        (λ upstream. AsksUpstream (rows_of (found_of matches.now)) upstream) }
    ensures none { result ≡ None → (upstream : Upstream)
        → ¬ (AsksUpstream (rows_of (found_of matches.now)) upstream) }
{
    let host = text(matches, "host")?;
    let port = port(matches, "port")?;
    let base = text(matches, "base")?;
    let (host_header, user_file) = identity(matches);
    Some(UpstreamOptions {
        host,
        port,
        from: text(matches, "from"),
        base,
        host_header,
        user_file,
    })
}

/// What the options of `pull` ask for, and those of `relay` that it has, too.
fn pull_options<'a>(matches: &ArgMatches<'a>) -> Option<PullOptions<'a>>
    ensures some { IfSome result (λ options. AsksPull (rows_of (found_of matches.now)) options) }
    ensures none { result ≡ None → (options : Pull)
        → ¬ (AsksPull (rows_of (found_of matches.now)) options) }
{
    let upstream = upstream_at(matches)?;
    let contest = text(matches, "contest")?;
    let (most_reads, silence) = patience(matches)?;
    let limits = limits(matches)?;
    Some(PullOptions {
        upstream,
        contest,
        most_reads,
        silence,
        resume: is_given(matches, "resume"),
        verbose: is_given(matches, "verbose"),
        limits,
    })
}

/// What the options of `relay` ask for.
fn relay_options<'a>(matches: &ArgMatches<'a>) -> Option<RelayOptions<'a>>
    ensures some { IfSome result (λ options. AsksRelay (rows_of (found_of matches.now)) options) }
    ensures none { result ≡ None → (options : Relay)
        → ¬ (AsksRelay (rows_of (found_of matches.now)) options) }
{
    let Some(pull) = pull_options(matches) else {
        return None;
    };
    let listen = port(matches, "listen")?;
    let count = number(matches, "count", MOST_ROUNDS)?;
    Some(RelayOptions {
        pull,
        listen,
        count,
        framing: framing(matches),
    })
}

/// What the command of this name asks for.
fn request_named<'a>(name: &str, matches: &ArgMatches<'a>) -> Option<Request<'a>>
    ensures some { IfSome result
        (λ request. AsksBy name.now (rows_of (found_of matches.now)) request) }
    ensures none { result ≡ None → (request : Asked)
        → AsksBy name.now (rows_of (found_of matches.now)) request
        → (name.now ≡ codes "live") × MayClash (rows_of (found_of matches.now)) }
{
    match name {
        "tables" => tables_asked(matches),
        "check" => Some(Request::Local(Local::Check(check_options(matches)))),
        "play" => Some(Request::Local(Local::Play)),
        "audit" => audit_asked(matches),
        "probe" => match probe_options(matches) {
            Some(options) => Some(Request::Probe(options)),
            None => None,
        },
        "serve" => match serve_options(matches) {
            Some(options) => Some(Request::Serve(options)),
            None => None,
        },
        "pull" => match pull_options(matches) {
            Some(options) => Some(Request::Pull(options)),
            None => None,
        },
        "relay" => match relay_options(matches) {
            Some(options) => Some(Request::Relay(options)),
            None => None,
        },
        "record" => match record_options(matches) {
            Some(options) => Some(Request::Record(options)),
            None => None,
        },
        "replay" => match replay_options(matches) {
            Some(options) => Some(Request::Replay(options)),
            None => None,
        },
        "live" => match live_options(matches) {
            Some(options) => Some(Request::Live(options)),
            None => None,
        },
        _ => None,
    }
}

/// What the command asks for that was entered.
pub(super) fn request_entered<'a>(matches: &ArgMatches<'a>) -> Option<Request<'a>>
    ensures some { IfSome result (λ request. AsksAt (subcommand_rows_of matches.now) request) }
    ensures none { result ≡ None → (request : Asked)
        → AsksAt (subcommand_rows_of matches.now) request
        → option_map (λ p. p.0) (subcommand_rows_of matches.now) ≡ Some (codes "live") }
{
    let (name, options) = matches.subcommand()?;
    request_named(name, options)
}
