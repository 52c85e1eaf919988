//! Where a feed is asked for.
ghost use Rattle.std.specs.Prelude.{◌≡◌, IfOk, IfErr};
ghost use Rattle.std.specs.List.{list_all};
ghost use Rattle.feed_settings.specs.Place.{is_host as host_of, is_base as base_of, is_contest as contest_of, is_rooted as rooted, is_text_of as text_of, is_alphanumeric_or as alphanumeric_or, place_of, RefusesPlace};
ghost use Rattle.feed_settings.specs.declared.place.PlaceFault.TheVariants as place_fault;

use std::alloc::{AllocError, Global};
use std::marker::Model;
use thiserror::Error;

/// Why three texts are no place of a feed: the first of these that holds.
#[derive(Clone, Copy, Debug, PartialEq, Eq, Error)]
pub enum PlaceFault {
    /// The host is not 1 to 255 letters, digits and characters of `.-:[]`.
    #[error("bad host")]
    BadHost,
    /// The base is not empty, nor is it at most 255 letters, digits and characters of `._-~/` that
    /// begin with a slash and do not end in one.
    #[error("bad base")]
    BadBase,
    /// The contest is not 1 to 64 letters, digits and characters of `._-`.
    #[error("bad contest")]
    BadContest,
    /// Memory ran out.
    #[error("out of memory")]
    Memory,
}

impl From<AllocError> for PlaceFault {
    ghost from_gives = { λ _ fault. fault ≡ place_fault.Memory };

    fn from(_error: AllocError) -> PlaceFault {
        PlaceFault::Memory
    }
}

/// Where a feed is asked for: the server's host, the base path of its API, and the id of the
/// contest.
#[derive(Drop)]
pub struct Place {
    host: String,
    base: String,
    contest: String,
}

impl Model for Place {
    ghost use Rattle.std.specs.Prelude.{string_bytes};
    ghost use Rattle.feed_settings.specs.Place as places;

    ghost Value = { places.Place };

    ghost view = { λ p. places.make_place (string_bytes p.host) (string_bytes p.base)
        (string_bytes p.contest) };

    ghost invariant = { λ p. places.IsPlace (places.make_place (string_bytes p.host)
        (string_bytes p.base) (string_bytes p.contest)) };
}

impl Place {
    /// The place that the three texts make. Letters are those of ASCII; a host may have a port.
    pub fn new(alloc: Global, host: &str, base: &str, contest: &str) -> Result<Place, PlaceFault>
        ensures ok { IfOk result (λ place. place_of host.now base.now contest.now ≡ Ok place) }
        ensures err { IfErr result (λ fault. RefusesPlace host.now base.now contest.now fault) }
    {
        if !is_host(host) {
            return Err(PlaceFault::BadHost);
        }
        if !is_base(base) {
            return Err(PlaceFault::BadBase);
        }
        if !is_contest(contest) {
            return Err(PlaceFault::BadContest);
        }
        Ok(Place {
            host: String::from_str(alloc, host)?,
            base: String::from_str(alloc, base)?,
            contest: String::from_str(alloc, contest)?,
        })
    }

    /// The server's host, and its port where it has one.
    pub fn host(&self) -> &str
        ensures { result.now ≡ self.now.host }
    {
        self.host.as_str()
    }

    /// What stands before `/contests` in the path of the feed.
    pub fn base(&self) -> &str
        ensures { result.now ≡ self.now.base }
    {
        self.base.as_str()
    }

    /// The contest's id.
    pub fn contest(&self) -> &str
        ensures { result.now ≡ self.now.contest }
    {
        self.contest.as_str()
    }
}

fn is_alphanumeric_or(marks: &[u8], byte: u8) -> bool
    ensures { result ≡ alphanumeric_or marks.now byte }
{
    byte.is_ascii_alphanumeric() || marks.contains(&byte)
}

fn has_only(marks: &[u8], text: &[u8]) -> bool
    ensures { result ≡ list_all (alphanumeric_or marks.now) text.now }
{
    text.iter().all(|b| is_alphanumeric_or(marks, *b))
}

fn is_text_of(most: usize, marks: &[u8], text: &str) -> bool
    ensures { result ≡ text_of most marks.now text.now }
{
    text.len() <= most && has_only(marks, text.as_bytes())
}

/// Whether the text is empty, or begins with a slash and does not end in one.
fn is_rooted(text: &[u8]) -> bool
    ensures { result ≡ rooted text.now }
{
    match text {
        [] => true,
        [first, ..] => *first == b'/' && text[text.len() - 1] != b'/',
    }
}

/// Whether the text is 1 to 255 letters, digits and characters of `.-:[]`.
pub fn is_host(text: &str) -> bool
    ensures { result ≡ host_of text.now }
{
    !text.is_empty() && is_text_of(255, b".-:[]", text)
}

fn is_base(text: &str) -> bool
    ensures { result ≡ base_of text.now }
{
    is_text_of(255, b"._-~/", text) && is_rooted(text.as_bytes())
}

fn is_contest(text: &str) -> bool
    ensures { result ≡ contest_of text.now }
{
    !text.is_empty() && is_text_of(64, b"._-", text)
}
