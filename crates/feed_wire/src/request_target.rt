//! The path and the query of a request's target.
ghost use Rattle.std.specs.Prelude.{◌≡◌, ◌≢◌, ◌↔◌, ◌++◌, List, ℕ, [], IsTrue, IfOk, MatchOption, option_map, string_bytes, codes};
ghost use Rattle.std.specs.Option.{option_copied};
ghost use Rattle.feed_wire.specs.RequestText.{feed_path};
ghost use Rattle.feed_wire.specs.Asked.{since_token, parameter};

use std::alloc::{AllocError, Global};

/// What follows the prefix, where the text begins with it.
fn behind<'a>(text: &'a [u8], prefix: &[u8]) -> Option<&'a [u8]>
    ensures { MatchOption result ((rest : List ℕ) → text.now ≢ prefix.now ++ rest)
        (λ rest. text.now ≡ prefix.now ++ rest.now) }
{
    text.strip_prefix(prefix)
}

/// Whether this is the path of a contest's feed.
pub(crate) fn is_path(path: &str, contest: &str) -> bool
    ensures { IsTrue result ↔ (path.now ≡ feed_path [] contest.now) }
{
    let Some(rest) = behind(path.as_bytes(), b"/contests/") else {
        return false;
    };
    let Some(rest) = behind(rest, contest.as_bytes()) else {
        return false;
    };
    rest == b"/event-feed".as_slice()
}

/// The token that the first parameter of that name has.
fn first_since(alloc: Global, query: &str) -> Result<Option<String>, AllocError>
    ensures { IfOk result (λ since. option_map string_bytes since ≡ parameter
        (codes "since_token") query.now) }
{
    for pair in form_urlencoded::parse(alloc, query.as_bytes()) {
        let (name, value) = pair?;
        if name.as_str() == "since_token" {
            return Ok(Some(value.into_owned(alloc)?));
        }
    }
    Ok(None)
}

/// The token that a query asks with.
pub(crate) fn asked_since(alloc: Global, query: Option<&str>) -> Result<Option<String>, AllocError>
    ensures { IfOk result (λ since. option_map string_bytes since ≡ since_token
        (option_copied query.entry)) }
{
    match query {
        Some(query) => first_since(alloc, query),
        None => Ok(None),
    }
}
