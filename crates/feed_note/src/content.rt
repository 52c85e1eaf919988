//! What a notification's `data` holds, as far as it is kept.

ghost use Rattle.std.specs.Prelude.{◌≡◌, ◌≢◌, ◌||◌, List, IfOk, IfSome, MatchResult, IsTrue, option_map, is_some, Some, true, false, IsUtf8, length};
ghost use Rattle.feed_text.specs.Json.{Value, items_of};
ghost use Rattle.feed_text.specs.Limits.{value_depth};
ghost use Rattle.feed_text.specs.Members.{item_view, spelling_of};
ghost use Rattle.feed_text.specs.declared.Kind.TheVariants.{Object, Array};
ghost use Rattle.feed_note.specs.Meaning.{Notification, element_id};
ghost use Rattle.feed_note.specs.Naming.{naming_of};
ghost use Rattle.feed_note.specs.Reading.{HoldsReadable, IsReadable, OfEach, Spell, IsContentOf, IsFirstFault, IsNamed, Collects, is_too_large as too_large, kept, element_of, gathered};

use crate::fields::Fields;
use crate::line::LineFault;
use crate::naming::{Naming, read_naming};
use feed_text::{
    Item, Kind, OBJECT_BYTES, OBJECT_LEVELS, ObjectText, elements, last_member, nests_to, openings,
    text_laws,
};
use std::alloc::{AllocError, Global};

/// An element of a collection: what its id names, and its object, or nothing where that is too
/// large.
#[derive(Drop)]
pub struct Element {
    pub id: Naming,
    pub object: Option<ObjectText>,
}

/// What stands in `data`.
#[derive(Drop)]
pub enum Content {
    /// Null, or no such member.
    Nothing,
    /// An object, or nothing where it is too large.
    Object(Option<ObjectText>),
    /// The elements of an array.
    Array(Vec<Element>),
}

/// The first nesting that is too deep in an object's text.
const TOO_DEEP: usize = OBJECT_LEVELS + 1;

/// The text of an object, unless it is too large.
#[inline(always)]
pub fn kept_object(alloc: Global, text: &[u8]) -> Result<Option<ObjectText>, AllocError>
    requires { HoldsReadable value_depth (text.now, Object) }
    ensures { OfEach Object text.now (λ v. IfOk result (λ object. object ≡ kept v)) }
{
    text_laws();
    if is_too_large(text) {
        return Ok(None);
    }
    let object = ObjectText::from_object(alloc, text)?;
    Ok(Some(object))
}

/// Whether an object's text is too long or nests too deep. A text of fewer than two bytes or one
/// opening bracket for each level doesn't.
fn is_too_large(text: &[u8]) -> bool
    requires { HoldsReadable value_depth (text.now, Object) }
    ensures { OfEach Object text.now (λ v. result ≡ too_large v) }
{
    text_laws();
    if text.len() > OBJECT_BYTES {
        return true;
    }
    if text.len() < 2 * TOO_DEEP {
        return false;
    }
    if openings(text) < TOO_DEEP {
        return false;
    }
    nests_to(text, TOO_DEEP)
}

/// What the id of an element names.
fn element_naming(alloc: Global, object: &[u8]) -> Result<Naming, AllocError>
    requires { HoldsReadable value_depth (object.now, Object) }
    ensures { OfEach Object object.now (λ v.
        IfOk result (λ naming. naming ≡ naming_of (element_id v))) }
{
    text_laws();
    match last_member(alloc, object, "id")? {
        Some(id) => read_naming(alloc, &id.item()),
        None => Ok(Naming::Unreadable),
    }
}

/// What is kept of an element; nothing where it is no object or its id no text.
fn read_element(alloc: Global, item: &Item<'_>) -> Result<Option<Element>, AllocError>
    requires { HoldsReadable value_depth (item_view item.now) }
    ensures { (v : Value) → IsReadable value_depth v → item_view item.now ≡ spelling_of v →
        IfOk result (λ found. found ≡ element_of v) }
{
    if !matches!(item.kind(), Kind::Object) {
        return Ok(None);
    }
    let id = element_naming(alloc, item.text)?;
    if matches!(id, Naming::Unreadable) {
        return Ok(None);
    }
    let object = kept_object(alloc, item.text)?;
    Ok(Some(Element { id, object }))
}

/// The elements of an array; nothing where one of them is no object or its id no text.
fn gather(alloc: Global, array: &[u8]) -> Result<Option<Vec<Element>>, AllocError>
    requires { HoldsReadable value_depth (array.now, Array) }
    ensures { OfEach Array array.now (λ v.
        IfOk result (λ found. option_map (λ es. es.items) found ≡ gathered (items_of v))) }
{
    text_laws();
    let mut gathered = Vec::new(alloc);
    let mut items = elements(array);
    while let Some(item) = items.next() {
        match read_element(alloc, &item)? {
            Some(element) => gathered.push(element)?,
            None => return Ok(None),
        }
    }
    Ok(Some(gathered))
}

/// What `data` holds. A fault is that of a scalar, of an array beside an id, or of an element.
#[inline(always)]
pub fn read_content(alloc: Global, fields: &Fields<'_>, has_id: bool) -> Result<Content, LineFault>
    requires { IfSome fields.now.content (λ item. HoldsReadable value_depth (item_view item)) }
    ensures { (n : Notification) → Spell fields.now n → IsNamed n has_id →
        IfSome n.content (IsReadable value_depth) →
        MatchResult result (λ found. IsContentOf found n) (IsFirstFault n) }
{
    let Some(item) = fields.content else {
        return Ok(Content::Nothing);
    };
    match item.kind() {
        Kind::Object => {
            let object = kept_object(alloc, item.text)?;
            Ok(Content::Object(object))
        }
        Kind::Array => collection(alloc, item.text, has_id),
        Kind::Null => Ok(Content::Nothing),
        Kind::Str | Kind::Num | Kind::True | Kind::False => Err(LineFault::BadData),
    }
}

/// The elements of a collection, which has no id beside it.
fn collection(alloc: Global, array: &[u8], has_id: bool) -> Result<Content, LineFault>
    requires { HoldsReadable value_depth (array.now, Array) }
    ensures { OfEach Array array.now (λ v. Collects has_id (gathered (items_of v)) result) }
{
    if has_id {
        return Err(LineFault::NoMeaning);
    }
    match gather(alloc, array)? {
        Some(elements) => Ok(Content::Array(elements)),
        None => Err(LineFault::BadElement),
    }
}
