//! A port that is listened at, with an address of this machine before it.
ghost use Rattle.std.specs.Prelude.{◌≡◌, ℕ, List, true, false, None, IfSome};
ghost use Rattle.feed_arguments.specs.Listening.{IsV4, IsV6, IsInBrackets, IsWritten, IsPortAt};

use crate::address::address_of;
use std::net::{Ipv4Addr, Ipv6Addr};

/// Whether a text is an address of IPv4.
fn is_v4(text: &str) -> bool
    ensures yes { result ≡ true → IsV4 text.now }
    ensures no { result ≡ false → ¬ (IsV4 text.now) }
{
    match text.parse::<Ipv4Addr>() {
        Ok(_) => true,
        Err(_) => false,
    }
}

/// Whether a text is an address of IPv6.
fn is_v6(text: &str) -> bool
    ensures yes { result ≡ true → IsV6 text.now }
    ensures no { result ≡ false → ¬ (IsV6 text.now) }
{
    match text.parse::<Ipv6Addr>() {
        Ok(_) => true,
        Err(_) => false,
    }
}

/// An address of IPv6 that stands in brackets.
fn in_brackets(written: &str) -> Option<&str>
    ensures some { IfSome result (λ address. IsInBrackets written.now address.now) }
    ensures none { result ≡ None → (address : List ℕ) → ¬ (IsInBrackets written.now address) }
{
    let opened = written.strip_prefix('[')?;
    let address = opened.strip_suffix(']')?;
    if is_v6(address) { Some(address) } else { None }
}

/// The address that stands before a port.
fn address_written(written: &str) -> Option<&str>
    ensures some { IfSome result (λ address. IsWritten written.now address.now) }
    ensures none { result ≡ None → (address : List ℕ) → ¬ (IsWritten written.now address) }
{
    if is_v4(written) {
        return Some(written);
    }
    let address = in_brackets(written)?;
    Some(address)
}

/// The address and the port that a text says.
pub(crate) fn port_with_address(text: &str) -> Option<(&str, u16)>
    ensures some { IfSome result (λ at. IsPortAt text.now at.0.now at.1) }
    ensures none { result ≡ None → (address : List ℕ) (port : ℕ)
        → ¬ (IsPortAt text.now address port) }
{
    let (written, port) = address_of(text)?;
    let address = address_written(written)?;
    Some((address, port))
}
