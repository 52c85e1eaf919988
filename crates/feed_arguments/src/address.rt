//! Addresses of servers.
ghost use Rattle.std.specs.Prelude.{◌≡◌, ◌≤◌, ◌++◌, ◌∷◌, [], ℕ, List, None, true, false, map, length, string_bytes, IfOk, IfErr, IfSome, OnOk, MatchOption};
ghost use Rattle.feed_arguments.specs.Addresses.{parts, most_addresses, IsPort, IsAddress, IsSomeAddress, IsNoAddress, IsFirstBad};
ghost use Rattle.feed_arguments.specs.Addresses.{AreGood, AreAddresses, IsListOf, RefusesList};
ghost use Rattle.feed_arguments.specs.declared.address.AddressFault.TheVariants as address_fault;

use feed_settings::is_host;
use std::alloc::{AllocError, Global};
use thiserror::Error;

/// The most addresses of a list.
pub const MOST_ADDRESSES: usize = 16;

/// Why a text is no list of addresses: the first of these that holds.
#[derive(Clone, Copy, Debug, PartialEq, Eq, Error)]
pub enum AddressFault {
    /// The part of this number, counted from 0, is no host, a colon and a port.
    #[error("bad address")]
    BadAddress(u64),
    /// There are more than 16 addresses.
    #[error("bad address")]
    TooMany,
    /// Memory ran out.
    #[error("out of memory")]
    Memory,
}

impl From<AllocError> for AddressFault {
    ghost from_gives = { λ _ fault. fault ≡ address_fault.Memory };

    fn from(_error: AllocError) -> AddressFault {
        AddressFault::Memory
    }
}

/// The port that 1 to 5 decimal digits say.
fn port_of(text: &str) -> Option<u16>
    ensures some { IfSome result (λ port. IsPort text.now port) }
    ensures none { result ≡ None → (port : ℕ) → ¬ (IsPort text.now port) }
{
    if text.len() > 5 || text.starts_with('+') {
        return None;
    }
    match text.parse::<u16>() {
        Ok(port) if port > 0 => Some(port),
        _ => None,
    }
}

/// The host and the port of one address.
pub(crate) fn address_of(text: &str) -> Option<(&str, u16)>
    ensures some { IfSome result (λ a. IsAddress text.now (a.0.now, a.1)) }
    ensures none { result ≡ None → IsNoAddress text.now }
{
    let (host, digits) = text.rsplit_once(':')?;
    if !is_host(host) {
        return None;
    }
    let port = port_of(digits)?;
    Some((host, port))
}

/// Whether a part is an address.
fn is_address(part: &str) -> bool
    ensures good { result ≡ true → IsSomeAddress part.now }
    ensures bad { result ≡ false → IsNoAddress part.now }
{
    match address_of(part) {
        Some(_) => true,
        None => false,
    }
}

/// The number of the first part that is no address.
fn first_bad(text: &str) -> Option<usize>
    ensures { MatchOption result (AreGood (parts text.now)) (IsFirstBad (parts text.now)) }
{
    text.split(',').position(|part| !is_address(part))
}

/// How many parts there are.
pub(crate) fn count_parts(text: &str) -> usize
    ensures { result ≡ length (parts text.now) }
{
    text.split(',').count()
}

/// The parts.
pub(crate) fn parts_of(alloc: Global, text: &str) -> Result<Vec<&str>, AllocError>
    ensures { IfOk result (λ all. map (λ part. part.now) all.items ≡ parts text.now) }
{
    text.split(',').collect(alloc)
}

/// Appends the address that a part is.
fn push_address(
    alloc: Global,
    part: &str,
    addresses: &mut Vec<(String, u16)>,
) -> Result<(), AllocError>
    requires { IsSomeAddress part.now }
    ensures { OnOk result ((address : List ℕ × ℕ) × IsAddress part.now address
        × (map (λ a. (string_bytes a.0, a.1)) addresses.new.items
        ≡ map (λ a. (string_bytes a.0, a.1)) addresses.old.items ++ address ∷ [])) }
{
    let Some((host, port)) = address_of(part) else {
        return Err(AllocError);
    };
    addresses.push((String::from_str(alloc, host)?, port))?;
    Ok(())
}

/// The addresses of which each part is one.
fn owned(alloc: Global, all: &[&str]) -> Result<Vec<(String, u16)>, AllocError>
    requires { AreGood (map (λ part. part.now) all.now) }
    ensures { IfOk result (λ addresses. AreAddresses (map (λ part. part.now) all.now)
        (map (λ a. (string_bytes a.0, a.1)) addresses.items)) }
{
    let mut addresses = Vec::new(alloc);
    'parts: for part in all {
        push_address(alloc, part, &mut addresses)?;
    }
    Ok(addresses)
}

/// The addresses that a text lists, where each of its parts is one.
fn listed(alloc: Global, text: &str) -> Result<Vec<(String, u16)>, AllocError>
    requires { AreGood (parts text.now) }
    ensures { IfOk result (λ all. AreAddresses (parts text.now)
        (map (λ a. (string_bytes a.0, a.1)) all.items)) }
{
    let all = parts_of(alloc, text)?;
    owned(alloc, &all)
}

/// Why a text is no list of addresses; none where it is one.
fn refusal(text: &str) -> Option<AddressFault>
    ensures { MatchOption result
        (AreGood (parts text.now) × (length (parts text.now) ≤ most_addresses))
        (RefusesList text.now) }
{
    match first_bad(text) {
        Some(number) => Some(AddressFault::BadAddress(number as u64)),
        None if count_parts(text) > MOST_ADDRESSES => Some(AddressFault::TooMany),
        None => None,
    }
}

/// The addresses that the text lists: of each, in order, the host and the port.
pub fn addresses(alloc: Global, text: &str) -> Result<Vec<(String, u16)>, AddressFault>
    ensures ok { IfOk result (λ all. IsListOf text.now
        (map (λ a. (string_bytes a.0, a.1)) all.items)) }
    ensures err { IfErr result (λ fault. RefusesList text.now fault) }
{
    match refusal(text) {
        Some(fault) => Err(fault),
        None => Ok(listed(alloc, text)?),
    }
}
