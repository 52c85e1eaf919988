//! Where tables differ.

ghost use Rattle.std.specs.Prelude.{◌≡◌, ◌↔◌, IfOk, IfSome, IfNone, IsTrue, flat_map};
ghost use Rattle.std.specs.Option.{option_cmp, option_copied};
ghost use Rattle.std.specs.FinMap.{entries};
ghost use Rattle.feed_tables.specs.Bytes.{byte_order};
ghost use Rattle.feed_tables.specs.Tables.{Contents, listed, listing};
ghost use Rattle.feed_audit.specs.Differences.{side_at, DifferFirst, TellsDifference};
ghost use Rattle.feed_audit.specs.Places.{place_changed as place, put_by, place_order, PartAt};

use feed_tables::{Change, Name, Tables, table_laws};
use feed_text::ObjectText;
use std::alloc::{AllocError, Global};
use std::cmp::Ordering;

/// What stands at a type, or at an id in its collection.
#[derive(Drop)]
pub enum Side {
    Nothing,
    Object(ObjectText),
    /// Of a type alone: a collection, with objects or without.
    Collection,
}

/// Why a state is none of the primary's.
#[derive(Drop)]
pub enum Difference {
    /// The primary has no state under its token.
    NoToken,
    /// The same, and the primary's record may end too soon to tell: its last state is the one that
    /// the screen showed before, with this token, or it has none.
    Ended(Option<Name>),
    /// The first of the primary's states under its token differs from it here: at a type, or at an
    /// id in its collection. In byte order it is the first such place.
    At {
        kind: Name,
        id: Option<Name>,
        primary: Side,
        screen: Side,
    },
    /// The tables are the same. An audit never answers so.
    Same,
}

/// A type, or an id in its collection.
#[derive(Drop)]
struct Place {
    kind: Name,
    id: Option<Name>,
}

/// The id of a change of a snapshot.
fn id_of(change: &Change) -> Option<&Name>
    ensures { option_copied result ≡ (place change.now).1 }
{
    match change {
        Change::Set(_, id, _) => Some(id),
        Change::Remove(_, id) => Some(id),
        _ => None,
    }
}

/// Which of two ids comes first; none comes before each.
fn order_ids(id: Option<&Name>, other: Option<&Name>) -> Ordering
    ensures { result ≡ option_cmp byte_order (option_copied id.entry) (option_copied other.entry) }
{
    match (id, other) {
        (None, None) => Ordering::Equal,
        (None, Some(_)) => Ordering::Less,
        (Some(_), None) => Ordering::Greater,
        (Some(id), Some(other)) => id.text().cmp(other.text()),
    }
}

/// Which of two changes comes first by its place.
fn order(change: &Change, other: &Change) -> Ordering
    ensures { result ≡ place_order (place change.now) (place other.now) }
{
    match change.kind().text().cmp(other.kind().text()) {
        Ordering::Equal => order_ids(id_of(change), id_of(other)),
        kinds => kinds,
    }
}

/// Whether both put the same at their place.
fn puts_same(change: &Change, other: &Change) -> bool
    ensures { IsTrue result ↔ (put_by change.now ≡ put_by other.now) }
{
    match (change, other) {
        (
            Change::Set(_, _, object) | Change::Single(_, object),
            Change::Set(_, _, another) | Change::Single(_, another),
        ) => object.bytes() == another.bytes(),
        (Change::Empty(_), Change::Empty(_)) => true,
        (Change::Remove(_, _) | Change::Clear(_), Change::Remove(_, _) | Change::Clear(_)) => true,
        _ => false,
    }
}

fn place_of(change: &Change) -> Result<Place, AllocError>
    ensures { IfOk result (λ found. (found.kind, found.id) ≡ place change.now) }
{
    let id = match id_of(change) {
        Some(id) => Some(id.copy()?),
        None => None,
    };
    Ok(Place {
        kind: change.kind().copy()?,
        id,
    })
}

/// The changes of a snapshot that put something in. The `Clear` of empty tables puts nothing in.
fn puts(changes: &[Change]) -> &[Change]
    ensures { (contents : Contents) → changes.now ≡ listing contents
        → result.now ≡ flat_map listed (entries contents) }
{
    match changes.first() {
        Some(Change::Clear(_)) => &[],
        _ => changes,
    }
}

/// The change that comes first by its place where two lists part, each in the order of its places.
fn first_apart<'a>(ours: &'a [Change], theirs: &'a [Change]) -> Option<&'a Change>
    ensures some { IfSome result (λ change. PartAt ours.now theirs.now change.now) }
    ensures none { IfNone result (ours.now ≡ theirs.now) }
{
    let mut i: usize = 0;
    'changes: while i < ours.len() {
        let change = &ours[i];
        if i == theirs.len() {
            return Some(change);
        }
        let other = &theirs[i];
        match order(change, other) {
            Ordering::Less => return Some(change),
            Ordering::Greater => return Some(other),
            Ordering::Equal => {
                if !puts_same(change, other) {
                    return Some(change);
                }
            }
        }
        i += 1;
    }
    if i < theirs.len() {
        return Some(&theirs[i]);
    }
    None
}

/// The first place, in byte order, at which tables differ.
fn first_place(
    alloc: Global,
    primary: &Tables,
    screen: &Tables,
) -> Result<Option<Place>, AllocError>
    ensures some { IfOk result (λ found. IfSome found (λ place.
        DifferFirst primary.now.contents screen.now.contents (place.kind, place.id))) }
    ensures none { IfOk result (λ found.
        IfNone found (primary.now.contents ≡ screen.now.contents)) }
{
    // What `none` rests on.
    table_laws();
    let ours = primary.snapshot(alloc)?;
    let theirs = screen.snapshot(alloc)?;
    match first_apart(puts(ours.as_slice()), puts(theirs.as_slice())) {
        Some(change) => Ok(Some(place_of(change)?)),
        None => Ok(None),
    }
}

/// What stands at a place of tables.
fn side_of(tables: &Tables, kind: &Name, id: &Option<Name>) -> Result<Side, AllocError>
    ensures { IfOk result (λ side. side ≡ side_at tables.now.contents kind.now id.now) }
{
    match id {
        Some(id) => match tables.get(kind.text(), id.text()) {
            Some(object) => Ok(Side::Object(object.copy()?)),
            None => Ok(Side::Nothing),
        },
        None => match tables.single(kind.text()) {
            Some(object) => Ok(Side::Object(object.copy()?)),
            None => {
                if tables.has_collection(kind.text()) {
                    return Ok(Side::Collection);
                }
                Ok(Side::Nothing)
            }
        },
    }
}

/// Where tables differ: the first place in byte order, and what stands there on both sides. Takes
/// time in proportion to both.
pub fn difference_of(
    alloc: Global,
    primary: &Tables,
    screen: &Tables,
) -> Result<Difference, AllocError>
    ensures { IfOk result (λ found.
        TellsDifference primary.now.contents screen.now.contents found) }
{
    let Some(place) = first_place(alloc, primary, screen)? else {
        return Ok(Difference::Same);
    };
    let Place { kind, id } = place;
    let ours = side_of(primary, &kind, &id)?;
    let theirs = side_of(screen, &kind, &id)?;
    Ok(Difference::At {
        kind,
        id,
        primary: ours,
        screen: theirs,
    })
}
