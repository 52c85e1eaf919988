//! The members of a notification that count, and what they name.

ghost use Rattle.std.specs.Prelude.{◌≡◌, ◌||◌, IfOk, IfSome, MatchResult, option_map, Bool};
ghost use Rattle.feed_text.specs.Members.{item_view, AreSpeltValues};
ghost use Rattle.feed_note.specs.Meaning.{Notification};
ghost use Rattle.feed_note.specs.Naming.{IsSpeltValue};
ghost use Rattle.feed_note.specs.Reading.{last_value_spelt, named_fields, HasFields, AreSpelt, Spell, AreNamesOf, IsFirstFault};
ghost use Rattle.feed_note.specs.Naming.{is_unreadable as unreadable_test, is_unreadable_or_null};

use crate::line::LineFault;
use crate::naming::{Naming, read_member_naming, read_naming};
use feed_text::{Item, Members, NamedMembers};
use std::alloc::{AllocError, Global};

/// The values of the members that count: the last one of each name, where there is one.
#[derive(Clone, Copy)]
pub struct Fields<'a> {
    pub kind: Option<Item<'a>>,
    pub id: Option<Item<'a>>,
    pub content: Option<Item<'a>>,
    pub token: Option<Item<'a>>,
}

/// What `type`, `id` and `token` name; an absent or null `id` or `token` names nothing.
#[derive(Drop)]
pub struct Names {
    pub kind: Naming,
    pub id: Option<Naming>,
    pub token: Option<Naming>,
}

/// The value of the last member of this name.
fn last_value<'a>(
    alloc: Global,
    members: &Members<'a>,
    key: &str,
) -> Result<Option<Item<'a>>, AllocError>
    ensures value { IfOk result (λ found.
        option_map item_view found ≡ last_value_spelt key.now members.now) }
    ensures spelt { IfOk result (λ found. IsSpeltValue found) }
{
    match members.last(alloc, key)? {
        Some(member) => Ok(Some(member.item())),
        None => Ok(None),
    }
}

impl<'a> Fields<'a> {
    /// Those that were found in one pass.
    #[inline(always)]
    pub fn of(found: &NamedMembers<'a>) -> Fields<'a>
        requires { AreSpeltValues found.now }
        ensures fields { result ≡ named_fields found.now }
        ensures spelt { AreSpelt result }
    {
        Fields {
            kind: found.kind,
            id: found.id,
            content: found.content,
            token: found.token,
        }
    }
}

/// The values of the members that count.
pub fn read_fields<'a>(alloc: Global, members: &Members<'a>) -> Result<Fields<'a>, AllocError>
    ensures values { IfOk result (λ fields. HasFields members.now fields) }
    ensures spelt { IfOk result (λ fields. AreSpelt fields) }
{
    let kind = last_value(alloc, members, "type")?;
    let id = last_value(alloc, members, "id")?;
    let content = last_value(alloc, members, "data")?;
    let token = last_value(alloc, members, "token")?;
    Ok(Fields {
        kind,
        id,
        content,
        token,
    })
}

/// What the members name. A fault is that of an absent type, or of a type, an id or a token that is
/// no text.
#[inline(always)]
pub fn read_names(alloc: Global, fields: &Fields<'_>) -> Result<Names, LineFault>
    requires { AreSpelt fields.now }
    ensures { (n : Notification) → Spell fields.now n →
        MatchResult result (λ names. AreNamesOf names n) (IsFirstFault n) }
{
    let Some(kind) = fields.kind else {
        return Err(LineFault::NoType);
    };
    let kind = read_naming(alloc, &kind)?;
    let id = read_member_naming(alloc, fields.id)?;
    let token = read_member_naming(alloc, fields.token)?;
    if is_any_unreadable(&kind, &id, &token) {
        return Err(LineFault::BadMember);
    }
    Ok(Names { kind, id, token })
}

#[inline(always)]
fn is_any_unreadable(kind: &Naming, id: &Option<Naming>, token: &Option<Naming>) -> bool
    ensures { result ≡ (unreadable_test kind.now
        || is_unreadable_or_null id.now || is_unreadable_or_null token.now) }
{
    is_unreadable(kind) || is_unreadable_member(id) || is_unreadable_member(token)
}

#[inline(always)]
fn is_unreadable(naming: &Naming) -> bool
    ensures { result ≡ unreadable_test naming.now }
{
    matches!(naming, Naming::Unreadable)
}

#[inline(always)]
fn is_unreadable_member(naming: &Option<Naming>) -> bool
    ensures { result ≡ is_unreadable_or_null naming.now }
{
    match naming {
        Some(naming) => is_unreadable(naming),
        None => false,
    }
}
