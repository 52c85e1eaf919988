//! As whom a client asks, and by which name it calls the server.
ghost use Rattle.std.specs.Prelude.{◌≡◌, ◌==◌, Ok, IfOk, IfErr, codes, option_map, string_bytes};
ghost use Rattle.std.specs.List.{list_all, list_any};
ghost use Rattle.std.specs.Option.{option_copied};
ghost use Rattle.feed_settings.specs.Place.{is_host as host_of};
ghost use Rattle.feed_wire.specs.Identity.{anonymous as nobody, basic as basic_of, identity_of, is_printed as printed, is_user_pass as user_pass_of, passes, RefusesIdentity};
ghost use Rattle.feed_wire.specs.declared.identity.IdentityFault.TheVariants as identity_fault;

use base64::engine::general_purpose::STANDARD;
use feed_settings::is_host;
use std::alloc::{AllocError, Global};
use std::marker::Model;
use thiserror::Error;

/// Why texts make no identity: the first of these that holds.
#[derive(Clone, Copy, Debug, PartialEq, Eq, Error)]
pub enum IdentityFault {
    /// The host is not 1 to 255 letters, digits and characters of `.-:[]`.
    #[error("bad host")]
    BadHost,
    /// There is no colon, there is a control character, or there are more than 1,024 bytes.
    #[error("bad user")]
    BadUser,
    /// Memory ran out.
    #[error("out of memory")]
    Memory,
}

impl From<AllocError> for IdentityFault {
    ghost from_gives = { λ _ fault. fault ≡ identity_fault.Memory };

    fn from(_error: AllocError) -> IdentityFault {
        IdentityFault::Memory
    }
}

/// What a request says beside its place: by which name it calls the server, where that is not the
/// place's host, and the credentials of who asks. No text shows it, so that no password is printed.
#[derive(Drop)]
pub struct Identity {
    host: Option<String>,
    credentials: Option<String>,
}

impl Model for Identity {
    ghost use Rattle.std.specs.Prelude.{option_map, string_bytes};
    ghost use Rattle.feed_wire.specs.Identity as identities;

    ghost Value = { identities.Identity };

    ghost view = { λ i. record {
      host = option_map string_bytes i.host;
      credentials = option_map string_bytes i.credentials;
    } };

    ghost invariant = { λ i. identities.IsIdentity (record {
      host = option_map string_bytes i.host;
      credentials = option_map string_bytes i.credentials;
    }) };
}

impl Identity {
    /// Nobody in particular, who calls the server by the place's host.
    pub fn anonymous() -> Identity
        ensures { result ≡ nobody }
    {
        Identity {
            host: None,
            credentials: None,
        }
    }

    /// The identity that the texts make. A user is a name, a colon and a password, as in RFC 7617,
    /// so that the name has no colon, and the password may.
    pub fn new(
        alloc: Global,
        host: Option<&str>,
        user: Option<&str>,
    ) -> Result<Identity, IdentityFault>
        ensures ok { IfOk result (λ identity.
            identity_of (option_copied host.entry) (option_copied user.entry) ≡ Ok identity) }
        ensures err { IfErr result (λ fault.
            RefusesIdentity (option_copied host.entry) (option_copied user.entry) fault) }
    {
        if !may_be_host(host) {
            return Err(IdentityFault::BadHost);
        }
        if !may_be_user(user) {
            return Err(IdentityFault::BadUser);
        }
        Ok(Identity {
            host: owned(alloc, host)?,
            credentials: credentials(alloc, user)?,
        })
    }

    pub(crate) fn host(&self) -> Option<&str>
        ensures { option_copied result ≡ self.now.host }
    {
        match &self.host {
            Some(host) => Some(host.as_str()),
            None => None,
        }
    }

    pub(crate) fn credentials(&self) -> Option<&str>
        ensures { option_copied result ≡ self.now.credentials }
    {
        match &self.credentials {
            Some(credentials) => Some(credentials.as_str()),
            None => None,
        }
    }
}

fn is_printed(byte: u8) -> bool
    ensures { result ≡ printed byte }
{
    !byte.is_ascii_control()
}

fn is_all_printed(text: &[u8]) -> bool
    ensures { result ≡ list_all printed text.now }
{
    text.iter().all(|b| is_printed(*b))
}

fn has_colon(text: &[u8]) -> bool
    ensures { result ≡ list_any (λ b. b == 58) text.now }
{
    text.contains(&b':')
}

fn is_user_pass(text: &str) -> bool
    ensures { result ≡ user_pass_of text.now }
{
    let bytes = text.as_bytes();
    bytes.len() <= 1024 && is_all_printed(bytes) && has_colon(bytes)
}

fn may_be_host(host: Option<&str>) -> bool
    ensures { result ≡ passes host_of (option_copied host.entry) }
{
    match host {
        Some(host) => is_host(host),
        None => true,
    }
}

fn may_be_user(user: Option<&str>) -> bool
    ensures { result ≡ passes user_pass_of (option_copied user.entry) }
{
    match user {
        Some(user) => is_user_pass(user),
        None => true,
    }
}

fn owned(alloc: Global, text: Option<&str>) -> Result<Option<String>, AllocError>
    ensures { IfOk result (λ copy. option_map string_bytes copy ≡ option_copied text.entry) }
{
    match text {
        Some(text) => Ok(Some(String::from_str(alloc, text)?)),
        None => Ok(None),
    }
}

fn credentials(alloc: Global, user: Option<&str>) -> Result<Option<String>, AllocError>
    ensures { IfOk result (λ value. option_map string_bytes value
        ≡ option_map basic_of (option_copied user.entry)) }
{
    match user {
        Some(user) => Ok(Some(basic(alloc, user)?)),
        None => Ok(None),
    }
}

fn basic(alloc: Global, user: &str) -> Result<String, AllocError>
    ensures { IfOk result (λ value. string_bytes value ≡ basic_of user.now) }
{
    let mut value = String::from_str(alloc, "Basic ")?;
    STANDARD.encode_string(user.as_bytes(), &mut value)?;
    Ok(value)
}
