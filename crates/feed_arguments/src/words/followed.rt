//! What the options of `live` say of the feed that is followed, and of the ports that are listened
//! at.
ghost use Rattle.std.specs.Prelude.{◌≡◌, ℕ, List, Option, codes, false, None, option_map, true, IfSome};
ghost use Rattle.clap.specs.Matches.{found_of};
ghost use Rattle.clap.specs.Words.{rows_of};
ghost use Rattle.feed_arguments.specs.Addresses.{most_port};
ghost use Rattle.feed_arguments.specs.Live.{AsksNobody, IsUpstream, IsAtUrl, IsOfUrl, IsFollowed, IsPortAsked, IsAddressAsked, IsStatusAddress, AsksListener, IsTextGiven, MayClash};
ghost use Rattle.feed_arguments.specs.Options.{IsNumberIfGiven};
ghost use Rattle.feed_arguments.specs.declared.request.UpstreamOptions.{UpstreamOptions as Upstream};

use super::asked::{identity, number_if_given, text, upstream_at};
use super::options::MOST_PORT;
use crate::listening::port_with_address;
use crate::request::UpstreamOptions;
use crate::url::{FeedUrl, feed_url};
use clap::ArgMatches;

/// The address of this machine that is listened at where none is named.
pub(super) const LOOPBACK: &str = "127.0.0.1";

/// A contest, and the servers that are asked for its feed; none where it is read from standard
/// input.
#[derive(Clone, Copy)]
pub(super) struct Followed<'a> {
    pub(super) contest: &'a str,
    pub(super) upstream: Option<UpstreamOptions<'a>>,
}

/// A port, and the address that stands before it, where they are given.
#[derive(Clone, Copy)]
pub(super) struct PortAsked<'a> {
    pub(super) port: Option<u16>,
    pub(super) address: Option<&'a str>,
}

/// Where screens come to, and those who watch.
#[derive(Clone, Copy)]
pub(super) struct Listener<'a> {
    pub(super) listen: Option<u16>,
    pub(super) address: &'a str,
    pub(super) status: Option<u16>,
    pub(super) status_address: Option<&'a str>,
}

/// A port that may be left out.
fn port_if_given(matches: &ArgMatches<'_>, name: &str) -> Option<Option<u16>>
    ensures some { IfSome result
        (λ n. IsNumberIfGiven name.now most_port (rows_of (found_of matches.now)) n) }
    ensures none { result ≡ None → (n : Option ℕ)
        → ¬ (IsNumberIfGiven name.now most_port (rows_of (found_of matches.now)) n) }
{
    let port = number_if_given(matches, name, MOST_PORT)?;
    Some(port.map(|port| port as u16))
}

/// The port that an option says, with the address of this machine that stands before it.
pub(super) fn port_asked<'a>(matches: &ArgMatches<'a>, name: &str) -> Option<PortAsked<'a>>
    ensures some { IfSome result (λ asked. IsPortAsked name.now (rows_of (found_of matches.now))
        asked.port (option_map (λ a. a.now) asked.address)) }
    ensures none { result ≡ None → (port : Option ℕ) (address : Option (List ℕ))
        → ¬ (IsPortAsked name.now (rows_of (found_of matches.now)) port address) }
{
    if let Some(port) = port_if_given(matches, name) {
        return Some(PortAsked {
            port,
            address: None,
        });
    }
    let text = text(matches, name)?;
    let (address, port) = port_with_address(text)?;
    Some(PortAsked {
        port: Some(port),
        address: Some(address),
    })
}

/// The address that screens come to, where this one stands before the port; none where it is said
/// twice.
pub(super) fn address_asked<'a>(
    matches: &ArgMatches<'a>,
    before: Option<&'a str>,
) -> Option<&'a str>
    ensures some { IfSome result (λ address. IsAddressAsked (rows_of (found_of matches.now))
        (option_map (λ a. a.now) before.entry) address.now) }
    ensures none { result ≡ None → (address : List ℕ) → ¬ (IsAddressAsked
        (rows_of (found_of matches.now)) (option_map (λ a. a.now) before.entry) address) }
    ensures given { result ≡ None → IsTextGiven (codes "address") (rows_of (found_of matches.now)) }
{
    match (before, text(matches, "address")) {
        (Some(_), Some(_)) => None,
        (Some(address), None) | (None, Some(address)) => Some(address),
        (None, None) => Some(LOOPBACK),
    }
}

/// The address that those come to who watch, where this one stands before the port; none where it
/// is said twice.
pub(super) fn status_address<'a>(
    matches: &ArgMatches<'a>,
    before: Option<&'a str>,
) -> Option<Option<&'a str>>
    ensures some { IfSome result (λ address. IsStatusAddress (rows_of (found_of matches.now))
        (option_map (λ a. a.now) before.entry) (option_map (λ a. a.now) address)) }
    ensures none { result ≡ None → (address : Option (List ℕ)) → ¬ (IsStatusAddress
        (rows_of (found_of matches.now)) (option_map (λ a. a.now) before.entry) address) }
    ensures given { result ≡ None
        → IsTextGiven (codes "status-address") (rows_of (found_of matches.now)) }
{
    match (before, text(matches, "status-address")) {
        (Some(_), Some(_)) => None,
        (Some(address), None) => Some(Some(address)),
        (None, address) => Some(address),
    }
}

/// Where screens come to, and those who watch.
pub(super) fn listener_asked<'a>(matches: &ArgMatches<'a>) -> Option<Listener<'a>>
    ensures some { IfSome result (λ l. AsksListener (rows_of (found_of matches.now)) l.listen
        l.address.now l.status (option_map (λ a. a.now) l.status_address)) }
    ensures none { result ≡ None → (listen : Option ℕ) (address : List ℕ) (status : Option ℕ)
        (status_address : Option (List ℕ))
        → AsksListener (rows_of (found_of matches.now)) listen address status status_address
        → MayClash (rows_of (found_of matches.now)) }
{
    let screens = port_asked(matches, "listen")?;
    let address = address_asked(matches, screens.address)?;
    let watching = port_asked(matches, "status")?;
    let status_address = status_address(matches, watching.address)?;
    Some(Listener {
        listen: screens.port,
        address,
        status: watching.port,
        status_address,
    })
}

/// Whether no option says how a server is asked.
pub(super) fn asks_nobody(matches: &ArgMatches<'_>) -> bool
    ensures yes { result ≡ true → AsksNobody (rows_of (found_of matches.now)) }
    ensures no { result ≡ false → ¬ (AsksNobody (rows_of (found_of matches.now))) }
{
    text(matches, "from").is_none()
        && text(matches, "host-header").is_none()
        && text(matches, "user-file").is_none()
}

/// What is followed where no URL is given: standard input where no server is given.
fn upstream<'a>(matches: &ArgMatches<'a>) -> Option<Option<UpstreamOptions<'a>>>
    ensures some { IfSome result
        (λ upstream. IsUpstream (rows_of (found_of matches.now)) upstream) }
    ensures none { result ≡ None → (upstream : Option Upstream)
        → ¬ (IsUpstream (rows_of (found_of matches.now)) upstream) }
{
    if text(matches, "host").is_none() {
        return if asks_nobody(matches) {
            Some(None)
        } else {
            None
        };
    }
    match upstream_at(matches) {
        Some(upstream) => Some(Some(upstream)),
        None => None,
    }
}

/// The servers of which the first one is that of a URL.
fn upstream_of<'a>(matches: &ArgMatches<'a>, url: &FeedUrl<'a>) -> UpstreamOptions<'a>
    ensures { IsAtUrl (rows_of (found_of matches.now)) url.now result }
{
    let (host_header, user_file) = identity(matches);
    UpstreamOptions {
        host: url.host,
        port: url.port,
        from: text(matches, "from"),
        base: url.base,
        host_header,
        user_file,
    }
}

/// What is followed where this URL is given.
fn followed_by_url<'a>(matches: &ArgMatches<'a>, url: &'a str) -> Option<Followed<'a>>
    ensures some { IfSome result (λ f.
        IsOfUrl (rows_of (found_of matches.now)) url.entry.now f.contest.now f.upstream) }
    ensures none { result ≡ None → (contest : List ℕ) (upstream : Option Upstream)
        → ¬ (IsOfUrl (rows_of (found_of matches.now)) url.entry.now contest upstream) }
{
    let Ok(url) = feed_url(url) else {
        return None;
    };
    Some(Followed {
        contest: url.contest,
        upstream: Some(upstream_of(matches, &url)),
    })
}

/// What is followed.
pub(super) fn feed_followed<'a>(matches: &ArgMatches<'a>) -> Option<Followed<'a>>
    ensures some { IfSome result (λ f.
        IsFollowed (rows_of (found_of matches.now)) f.contest.now f.upstream) }
    ensures none { result ≡ None → (contest : List ℕ) (upstream : Option Upstream)
        → ¬ (IsFollowed (rows_of (found_of matches.now)) contest upstream) }
{
    if let Some(url) = text(matches, "url") {
        return followed_by_url(matches, url);
    }
    let contest = text(matches, "contest")?;
    let Some(upstream) = upstream(matches) else {
        return None;
    };
    Some(Followed { contest, upstream })
}
