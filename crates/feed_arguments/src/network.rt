//! Networks of addresses: who may connect.
ghost use Rattle.std.specs.Prelude.{◌≡◌, ◌==◌, ◌⊎◌, ◌≤◌, ◌/◌, ◌%◌, ◌^◌, ◌++◌, ◌∷◌, [], true, false, None, length, map, IfOk, IfErr, IfSome, OnOk, MatchOption};
ghost use Rattle.std.specs.List.{list_any};
ghost use Rattle.std.specs.Net.Grammar.{IsIpText};
ghost use Rattle.feed_arguments.specs.Addresses.{parts};
ghost use Rattle.feed_arguments.specs.Networks.{origin_of, origin_bits as bits_of_origin, number_of as number_of_origin, written_bits as written_bits_of, is_within, most_networks};
ghost use Rattle.feed_arguments.specs.Networks.{IsNoIp, IsBits, SaysNoBits, IsNetworkOf, HasNoNetwork, IsSlashed, HasNoSlash, IsBadlySlashed, IsNetwork, IsNoNetwork};
ghost use Rattle.feed_arguments.specs.Networks.{AreNetworks, RefusesNetworks};
ghost use Rattle.feed_arguments.specs.Networks.{IsGoodNetwork, IsFirstNoNetwork, AreGoodNetworks};
ghost use Rattle.feed_arguments.specs.declared.network.Network.{Network as Range};

use crate::address::{AddressFault, count_parts, parts_of};
use std::alloc::{AllocError, Global};
use std::net::IpAddr;

/// The most networks of a list.
const MOST_NETWORKS: usize = 64;

/// Who an address is, as a number. An address of IPv6 that stands for one of IPv4 is that one.
#[derive(Clone, Copy)]
pub enum Origin {
    V4(u32),
    V6(u128),
}

impl Origin {
    /// Who the address is.
    pub fn of(address: IpAddr) -> Origin
        ensures { result ≡ origin_of address }
    {
        match address.to_canonical() {
            IpAddr::V4(address) => Origin::V4(address.to_bits()),
            IpAddr::V6(address) => Origin::V6(address.to_bits()),
        }
    }

    /// How many bits the number has.
    fn bits(self) -> u32
        ensures { result ≡ bits_of_origin self }
    {
        match self {
            Origin::V4(_) => 32,
            Origin::V6(_) => 128,
        }
    }

    fn number(self) -> u128
        ensures { result ≡ number_of_origin self }
    {
        match self {
            Origin::V4(number) => u128::from(number),
            Origin::V6(number) => number,
        }
    }
}

/// A network: an address, and how many of its bits all addresses in it begin with.
#[derive(Clone, Copy)]
pub struct Network {
    pub(crate) base: Origin,
    pub(crate) bits: u32,
}

/// How many bits an address has, as it is written.
fn written_bits(address: IpAddr) -> u32
    ensures { result ≡ written_bits_of address }
{
    match address {
        IpAddr::V4(_) => 32,
        IpAddr::V6(_) => 128,
    }
}

/// A number without its last bits, so many.
fn without_last(number: u128, bits: u32) -> u128
    ensures { result ≡ number / 2 ^ bits }
{
    number.unbounded_shr(bits)
}

/// Whether the last bits of a number, so many, are 0.
fn ends_in_zeros(number: u128, bits: u32) -> bool
    ensures { result ≡ (number % 2 ^ bits == 0) }
{
    match 2u128.checked_pow(bits) {
        Some(unit) => number % unit == 0,
        None => number == 0,
    }
}

impl Network {
    /// Whether who connects is in the network.
    pub fn contains(&self, origin: Origin) -> bool
        ensures { result ≡ is_within self.now origin }
    {
        match (self.base, origin) {
            (Origin::V4(base), Origin::V4(number)) => {
                let last = 32u32.saturating_sub(self.bits);
                without_last(u128::from(base), last) == without_last(u128::from(number), last)
            }
            (Origin::V6(base), Origin::V6(number)) => {
                let last = 128u32.saturating_sub(self.bits);
                without_last(base, last) == without_last(number, last)
            }
            _ => false,
        }
    }

    /// The network of one address.
    fn of_one(address: IpAddr) -> Network
        ensures { IsNetworkOf address (written_bits_of address) result }
    {
        let base = Origin::of(address);
        Network {
            base,
            bits: base.bits(),
        }
    }

    /// The network of the first bits of an address, so many as it is written.
    fn of_first(address: IpAddr, written: u32) -> Option<Network>
        requires { written ≤ 128 }
        ensures some { IfSome result (λ network. IsNetworkOf address written network) }
        ensures none { result ≡ None → HasNoNetwork address written }
    {
        let base = Origin::of(address);
        let bits = (written + base.bits()).checked_sub(written_bits(address))?;
        let last = base.bits().checked_sub(bits)?;
        if ends_in_zeros(base.number(), last) {
            Some(Network { base, bits })
        } else {
            None
        }
    }
}

/// Whether who connects is in one of the networks.
pub fn is_in_any(networks: &[Network], origin: Origin) -> bool
    ensures { result ≡ list_any (λ network. is_within network origin) networks.now }
{
    networks.iter().any(|network| network.contains(origin))
}

/// How many bits 1 to 3 decimal digits say.
fn bits_said(digits: &str) -> Option<u32>
    ensures some { IfSome result (λ bits. IsBits digits.now bits) }
    ensures none { result ≡ None → SaysNoBits digits.now }
{
    if digits.len() > 3 || digits.starts_with('+') {
        return None;
    }
    match digits.parse::<u8>() {
        Ok(bits) if bits <= 128 => Some(u32::from(bits)),
        _ => None,
    }
}

/// The address that a text writes.
fn address_of(text: &str) -> Option<IpAddr>
    ensures some { IfSome result (λ address. IsIpText text.now address) }
    ensures none { result ≡ None → IsNoIp text.now }
{
    match text.parse::<IpAddr>() {
        Ok(address) => Some(address),
        Err(_) => None,
    }
}

/// The network that an address, a slash and a number of bits make.
fn slashed(text: &str) -> Option<Network>
    ensures some { IfSome result (λ network. IsSlashed text.now network) }
    ensures none { result ≡ None → HasNoSlash text.now ⊎ IsBadlySlashed text.now }
{
    let (written, digits) = text.rsplit_once('/')?;
    let bits = bits_said(digits)?;
    let address = address_of(written)?;
    Network::of_first(address, bits)
}

/// The network that a part is.
fn network_of(text: &str) -> Option<Network>
    ensures some { IfSome result (λ network. IsNetwork text.now network) }
    ensures none { result ≡ None → IsNoNetwork text.now }
{
    match address_of(text) {
        Some(address) => Some(Network::of_one(address)),
        None => slashed(text),
    }
}

/// Whether a part is a network.
fn is_network(part: &str) -> bool
    ensures good { result ≡ true → IsGoodNetwork part.now }
    ensures bad { result ≡ false → IsNoNetwork part.now }
{
    match network_of(part) {
        Some(_) => true,
        None => false,
    }
}

/// The number of the first part that is no network.
fn first_bad(text: &str) -> Option<usize>
    ensures { MatchOption result (AreGoodNetworks (parts text.now))
        (IsFirstNoNetwork (parts text.now)) }
{
    text.split(',').position(|part| !is_network(part))
}

/// Appends the network that a part is.
fn push_network(part: &str, networks: &mut Vec<Network>) -> Result<(), AllocError>
    requires { IsGoodNetwork part.now }
    ensures { OnOk result ((network : Range) × IsNetwork part.now network
        × (networks.new.items ≡ networks.old.items ++ network ∷ [])) }
{
    let Some(network) = network_of(part) else {
        return Err(AllocError);
    };
    networks.push(network)?;
    Ok(())
}

/// The networks of which each part is one.
fn owned(alloc: Global, all: &[&str]) -> Result<Vec<Network>, AllocError>
    requires { AreGoodNetworks (map (λ part. part.now) all.now) }
    ensures { IfOk result (λ networks.
        AreNetworks (map (λ part. part.now) all.now) networks.items) }
{
    let mut networks = Vec::new(alloc);
    'parts: for part in all {
        push_network(part, &mut networks)?;
    }
    Ok(networks)
}

/// The networks that a text lists, where each of its parts is one.
fn listed(alloc: Global, text: &str) -> Result<Vec<Network>, AllocError>
    requires { AreGoodNetworks (parts text.now) }
    ensures { IfOk result (λ networks. AreNetworks (parts text.now) networks.items) }
{
    let all = parts_of(alloc, text)?;
    owned(alloc, &all)
}

/// Why a text is no list of networks; none where it is one.
fn refusal(text: &str) -> Option<AddressFault>
    ensures { MatchOption result
        (AreGoodNetworks (parts text.now) × (length (parts text.now) ≤ most_networks))
        (RefusesNetworks (parts text.now)) }
{
    match first_bad(text) {
        Some(number) => Some(AddressFault::BadAddress(number as u64)),
        None if count_parts(text) > MOST_NETWORKS => Some(AddressFault::TooMany),
        None => None,
    }
}

/// The networks that a text lists, each an address, or an address, a slash, and how many of its
/// bits count; the bits after them are 0. There are at most 64.
pub fn networks(alloc: Global, text: &str) -> Result<Vec<Network>, AddressFault>
    ensures ok { IfOk result (λ networks. AreNetworks (parts text.now) networks.items) }
    ensures few { IfOk result (λ networks. length networks.items ≤ most_networks) }
    ensures err { IfErr result (λ fault. RefusesNetworks (parts text.now) fault) }
{
    match refusal(text) {
        Some(fault) => Err(fault),
        None => Ok(listed(alloc, text)?),
    }
}
