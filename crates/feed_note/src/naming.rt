//! What strings name.

ghost use Rattle.std.specs.Prelude.{◌≡◌, IfOk, Some, IsUtf8, option_map};
ghost use Rattle.feed_text.specs.Members.{item_view, IsSpelling};
ghost use Rattle.feed_text.specs.Json.{IsString};
ghost use Rattle.feed_text.specs.Strings.{decoded};
ghost use Rattle.feed_note.specs.Naming.{naming_of, spelled_text, spelled_or_null, IsSpeltValue};

use feed_changes::{Name, NameFault};
use feed_text::{Item, Kind, decode_string, plain_text, text_laws};
use std::alloc::{AllocError, Global};

/// What a value that is to be a string names.
#[derive(Drop)]
pub enum Naming {
    /// This name.
    Is(Name),
    /// A text of over 255 bytes.
    Long,
    /// Nothing: it is no string, or has a lone surrogate.
    Unreadable,
}

/// What the value names.
#[inline(always)]
pub fn read_naming(alloc: Global, value: &Item<'_>) -> Result<Naming, AllocError>
    requires { IsSpelling (item_view value.now) }
    ensures { IfOk result (λ naming. naming ≡ naming_of (spelled_text (item_view value.now))) }
{
    text_laws();
    if !matches!(value.kind(), Kind::Str) {
        return Ok(Naming::Unreadable);
    }
    read_string(alloc, value.text)
}

/// What a JSON string names. One without a backslash is taken as it stands.
#[inline(always)]
fn read_string(alloc: Global, string: &[u8]) -> Result<Naming, AllocError>
    requires string { IsString string.now }
    requires utf8 { IsUtf8 string.now }
    ensures { IfOk result (λ naming. naming ≡ naming_of (decoded string.now)) }
{
    if let Some(text) = plain_text(string) {
        return named(alloc, text);
    }
    match decode_string(alloc, string)? {
        Some(text) => named(alloc, text.as_str()),
        None => Ok(Naming::Unreadable),
    }
}

/// The text as a name.
#[inline(always)]
fn named(alloc: Global, text: &str) -> Result<Naming, AllocError>
    ensures { IfOk result (λ naming. naming ≡ naming_of (Some text.now)) }
{
    match Name::new(alloc, text) {
        Ok(name) => Ok(Naming::Is(name)),
        Err(NameFault::LongName) => Ok(Naming::Long),
        Err(NameFault::Memory) => Err(AllocError),
    }
}

/// What a member names that may be absent or null.
#[inline(always)]
pub fn read_member_naming(
    alloc: Global,
    value: Option<Item<'_>>,
) -> Result<Option<Naming>, AllocError>
    requires { IsSpeltValue value }
    ensures { IfOk result (λ naming. naming ≡ spelled_or_null (option_map item_view value.entry)) }
{
    match value {
        None => Ok(None),
        Some(item) => {
            if item.kind() == Kind::Null {
                return Ok(None);
            }
            let naming = read_naming(alloc, &item)?;
            Ok(Some(naming))
        }
    }
}
