//! The URL of a feed: the server, the base and the contest that it names.
ghost use Rattle.std.specs.Prelude.{◌≡◌, ◌≢◌, ◌⊎◌, [], ◌∷◌, ℕ, List, None, true, false, codes, IfOk, IfErr, IfSome};
ghost use Rattle.feed_arguments.specs.FeedUrl.{is_bracketed as bracketed, is_url_host as url_host, slash, event_feed, IsWithout};
ghost use Rattle.feed_arguments.specs.FeedUrl.{Has, Lacks, IsBehind, IsPlain, IsCut, IsServer, IsFeedPath, IsSegment, IsFeedUrl, IsCutUrl, RefusesUrl, IsListed, RefusesListed};
ghost use Rattle.feed_arguments.specs.declared.url.UrlFault.TheVariants as url_fault;

use crate::address::address_of;
use feed_settings::is_host;
use thiserror::Error;

/// The port of a URL that names none.
const PLAIN_PORT: u16 = 80;

/// Why a text is no URL of a feed: the first of these that holds.
#[derive(Clone, Copy, Debug, PartialEq, Eq, Error)]
pub enum UrlFault {
    /// It begins with `https://`.
    #[error("https isn't spoken: put a proxy before that server, and name the proxy, as \
             http://127.0.0.1:8003/api/contests/finals")]
    Tls,
    /// It doesn't begin with `http://`.
    #[error("a URL begins with http://, as http://10.0.0.5/api/contests/finals")]
    NotHttp,
    /// A query or a fragment stands in it.
    #[error("nothing may follow the contest: leave out what begins with ? or #")]
    Rest,
    /// It ends with the server.
    #[error("it names no contest: it ends in /contests/ and the contest's id, as \
             http://10.0.0.5/api/contests/finals")]
    NoPath,
    /// It has a user.
    #[error("others can see a name and a password in a URL: leave them out, and give --user-file")]
    User,
    /// Its host or its port is none.
    #[error("its server is no host, and no host with a port")]
    BadServer,
    /// Its path doesn't end in `/contests/` and the id of a contest.
    #[error("it names no contest: it ends in /contests/ and the contest's id, as \
             http://10.0.0.5/api/contests/finals")]
    NoContest,
}

/// What the URL of a feed names.
#[derive(Clone, Copy)]
pub struct FeedUrl<'a> {
    /// The server's address or name.
    pub host: &'a str,
    /// The server's port, 1 to 65,535; 80 where the URL names none.
    pub port: u16,
    /// What stands before `/contests` in the path. That it is a base isn't looked at.
    pub base: &'a str,
    /// The contest's id, which isn't empty and has no slash. What else it has isn't looked at.
    pub contest: &'a str,
}

/// Whether a host stands in brackets.
fn is_bracketed(host: &[u8]) -> bool
    ensures { host.now ≢ [] → result ≡ bracketed host.now }
{
    match host {
        [] => false,
        [first, ..] => *first == b'[' && host[host.len() - 1] == b']',
    }
}

/// Whether a text is a host as a URL has it: in brackets where it has colons.
fn is_url_host(host: &str) -> bool
    ensures { result ≡ url_host host.now }
{
    let bytes = host.as_bytes();
    is_host(host) && (is_bracketed(bytes) || !bytes.contains(&b':'))
}

/// The host and the port of a server.
fn server_of(text: &str) -> Option<(&str, u16)>
    ensures some { IfSome result (λ s. IsServer text.now s.0.now s.1) }
    ensures none { result ≡ None → (host : List ℕ) (port : ℕ) → ¬ (IsServer text.now host port) }
{
    if is_url_host(text) {
        return Some((text, PLAIN_PORT));
    }
    let (host, port) = address_of(text)?;
    if is_url_host(host) {
        Some((host, port))
    } else {
        None
    }
}

/// A path without the slash that it may end in.
fn without_end(path: &str) -> &str
    ensures { IsWithout (slash ∷ []) path.now result.now }
{
    match path.strip_suffix('/') {
        Some(path) => path,
        None => path,
    }
}

/// A path without the feed that it may end in.
fn without_feed(path: &str) -> &str
    ensures { IsWithout (slash ∷ event_feed) path.now result.now }
{
    let Some((before, last)) = path.rsplit_once('/') else {
        return path;
    };
    if last == "event-feed" { before } else { path }
}

/// The base and the contest that a path names.
fn place_of(path: &str) -> Option<(&str, &str)>
    ensures some { IfSome result (λ p. IsFeedPath path.now p.0.now p.1.now) }
    ensures none { result ≡ None → (base : List ℕ) (contest : List ℕ)
        → ¬ (IsFeedPath path.now base contest) }
{
    let left = without_feed(without_end(path));
    let (before, contest) = left.rsplit_once('/')?;
    if contest.is_empty() {
        return None;
    }
    if contest == "event-feed" {
        return None;
    }
    let (base, collection) = before.rsplit_once('/')?;
    if collection == "contests" {
        Some((base, contest))
    } else {
        None
    }
}

/// What stands behind a scheme, given in small letters.
fn behind<'a>(scheme: &str, text: &'a str) -> Option<&'a str>
    ensures some { IfSome result (λ rest. IsBehind scheme.now text.now rest.now) }
    ensures none { result ≡ None → (rest : List ℕ) → ¬ (IsBehind scheme.now text.now rest) }
{
    let (written, slashes) = text.split_once(':')?;
    if !written.eq_ignore_ascii_case(scheme) {
        return None;
    }
    let slashed = slashes.strip_prefix('/')?;
    let rest = slashed.strip_prefix('/')?;
    Some(rest)
}

/// Whether a text begins with `https://`.
fn is_https(text: &str) -> bool
    ensures yes { result ≡ true → (rest : List ℕ) × IsBehind (codes "https") text.now rest }
    ensures no { result ≡ false → (rest : List ℕ) → ¬ (IsBehind (codes "https") text.now rest) }
{
    match behind("https", text) {
        Some(_) => true,
        None => false,
    }
}

/// What stands behind `http://`.
fn behind_http(text: &str) -> Result<&str, UrlFault>
    ensures ok { IfOk result (λ rest. IsBehind (codes "http") text.now rest.now) }
    ensures err { IfErr result (λ fault. RefusesUrl text.now fault) }
{
    match behind("http", text) {
        Some(rest) => Ok(rest),
        None if is_https(text) => Err(UrlFault::Tls),
        None => Err(UrlFault::NotHttp),
    }
}

/// The server, and the path behind it, which begins with a slash.
fn cut(rest: &str) -> Option<(&str, &str)>
    ensures some { IfSome result (λ c. IsCut rest.now c.0.now c.1.now) }
    ensures none { result ≡ None → Lacks slash rest.now }
{
    let at = rest.find('/')?;
    Some(rest.split_at(at))
}

/// Whether no query stands in it, and no fragment.
fn is_plain(rest: &str) -> bool
    ensures yes { result ≡ true → IsPlain rest.now }
    ensures no { result ≡ false → Has 63 rest.now ⊎ Has 35 rest.now }
{
    if rest.contains('?') {
        return false;
    }
    if rest.contains('#') {
        return false;
    }
    true
}

/// The server and the path of a URL.
fn parts_of(text: &str) -> Result<(&str, &str), UrlFault>
    ensures ok { IfOk result (λ c. IsCutUrl text.now c.0.now c.1.now) }
    ensures err { IfErr result (λ fault. RefusesUrl text.now fault) }
{
    let rest = behind_http(text)?;
    if !is_plain(rest) {
        return Err(UrlFault::Rest);
    }
    let Some((server, path)) = cut(rest) else {
        return Err(UrlFault::NoPath);
    };
    Ok((server, path))
}

/// Why a text is no server.
fn fault_of_server(server: &str) -> UrlFault
    ensures { ((result ≡ UrlFault.User) × Has 64 server.now)
        ⊎ ((result ≡ UrlFault.BadServer) × Lacks 64 server.now) }
{
    if server.contains('@') {
        UrlFault::User
    } else {
        UrlFault::BadServer
    }
}

/// What the URL of a feed names: `http://`, a host with a port or without, a base, `/contests/` and
/// the id of a contest; `/event-feed` may follow, and a slash.
pub fn feed_url(text: &str) -> Result<FeedUrl<'_>, UrlFault>
    ensures ok { IfOk result (λ url. IsFeedUrl text.now url) }
    ensures err { IfErr result (λ fault. RefusesUrl text.now fault) }
{
    let (server, path) = parts_of(text)?;
    let Some((host, port)) = server_of(server) else {
        return Err(fault_of_server(server));
    };
    match place_of(path) {
        Some((base, contest)) => Ok(FeedUrl {
            host,
            port,
            base,
            contest,
        }),
        None => Err(UrlFault::NoContest),
    }
}

/// One of several servers.
#[derive(Clone, Copy)]
pub enum Listed<'a> {
    /// The one at this host and this port.
    Address(&'a str, u16),
    /// That of a URL.
    Url(FeedUrl<'a>),
}

/// Why a text is none of several servers.
#[derive(Clone, Copy, Debug, PartialEq, Eq)]
pub enum ListedFault {
    /// It is no host, a colon and a port.
    BadAddress,
    /// It has `://`, and is no URL of a feed.
    BadUrl(UrlFault),
}

/// The server that a part of a list names: as `host:port`, or by the URL of its feed.
pub fn server_listed(part: &str) -> Result<Listed<'_>, ListedFault>
    ensures ok { IfOk result (λ server. IsListed part.now server) }
    ensures err { IfErr result (λ fault. RefusesListed part.now fault) }
{
    if let Some((host, port)) = address_of(part) {
        return Ok(Listed::Address(host, port));
    }
    if !part.contains("://") {
        return Err(ListedFault::BadAddress);
    }
    match feed_url(part) {
        Ok(url) => Ok(Listed::Url(url)),
        Err(fault) => Err(ListedFault::BadUrl(fault)),
    }
}
