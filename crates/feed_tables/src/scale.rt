//! How much items weigh under their names.

ghost use Rattle.std.specs.Prelude.{◌≡◌, ℕ, List, min};
ghost use Rattle.feed_tables.specs.Amounts.{in_type, by_bytes, by_lost, by_come, by_bytes_after};
ghost use Rattle.feed_tables.specs.ChangedIds.{after_ids};
ghost use Rattle.feed_tables.specs.Walks.{each_one, by_objects};

use crate::by_type::IdsByType;
use crate::table::Table;
use feed_changes::Key;
use feed_text::ObjectText;

/// Says how much an item weighs.
pub trait Scale<V> {
    // How much an item weighs under its name.
    ghost weight: { Self → List ℕ → V → ℕ };

    /// How much an item weighs under its name, or `usize::MAX` where it is more.
    fn weigh(&self, name: &Key<'_>, item: &V) -> usize
        ensures { result ≡ min (weight self.now name.now item.now) usize.MAX };
}

/// How much went where items were put in, and how much came; each `usize::MAX` where it is more.
#[derive(Drop)]
pub struct Shift {
    pub lost: usize,
    pub come: usize,
}

/// What came of objects that changed under a type: how many a collection had before and has after,
/// each `usize::MAX` where they are more, and the bytes that went and came.
#[derive(Drop)]
pub struct Merged {
    pub before: usize,
    pub after: usize,
    pub bytes: Shift,
}

impl Merged {
    /// No object changed.
    pub fn nothing() -> Merged {
        Merged {
            before: 0,
            after: 0,
            bytes: Shift { lost: 0, come: 0 },
        }
    }
}

/// Each object counts as one.
#[derive(Drop)]
pub struct EachOne;

impl Scale<ObjectText> for EachOne {
    ghost weight = { λ _. each_one };

    fn weigh(&self, _name: &Key<'_>, _object: &ObjectText) -> usize {
        1
    }
}

/// A type counts as one, and each object of a collection does.
#[derive(Drop)]
pub struct ByObjects;

impl Scale<Table> for ByObjects {
    ghost weight = { λ _. by_objects };

    fn weigh(&self, _kind: &Key<'_>, table: &Table) -> usize {
        table.weight()
    }
}

/// An object of a collection has the bytes of its id, of its text and of the name of its type.
#[derive(Drop)]
pub struct InType {
    /// How many bytes the name of the type has.
    pub kind: usize,
}

impl Scale<ObjectText> for InType {
    ghost weight = { λ s. in_type s.kind };

    fn weigh(&self, id: &Key<'_>, object: &ObjectText) -> usize {
        let names = self.kind.saturating_add(id.len());
        names.saturating_add(object.bytes().len())
    }
}

/// A type has the bytes of its objects.
#[derive(Drop)]
pub struct ByBytes;

impl Scale<Table> for ByBytes {
    ghost weight = { λ _. by_bytes };

    fn weigh(&self, kind: &Key<'_>, table: &Table) -> usize {
        table.bytes(kind)
    }
}

/// Types and objects after these objects of collections change.
#[derive(Drop)]
pub struct AfterIds<'a> {
    pub changed: &'a IdsByType,
}

impl<'a> Scale<Table> for AfterIds<'a> {
    ghost weight = { λ s. after_ids s.changed.now };

    fn weigh(&self, kind: &Key<'_>, table: &Table) -> usize {
        match self.changed.get(kind) {
            Some(ids) => table.count_over(ids).saturating_add(1),
            None => table.weight(),
        }
    }
}

/// How many bytes of a type's objects go where these objects of collections change.
#[derive(Drop)]
pub struct BytesLost<'a> {
    pub changed: &'a IdsByType,
}

impl<'a> Scale<Table> for BytesLost<'a> {
    ghost weight = { λ s. by_lost s.changed.now };

    fn weigh(&self, kind: &Key<'_>, table: &Table) -> usize {
        match self.changed.get(kind) {
            Some(ids) => table.bytes_lost(kind, ids),
            None => 0,
        }
    }
}

/// How many come then.
#[derive(Drop)]
pub struct BytesCome<'a> {
    pub changed: &'a IdsByType,
}

impl<'a> Scale<Table> for BytesCome<'a> {
    ghost weight = { λ s. by_come s.changed.now };

    fn weigh(&self, kind: &Key<'_>, table: &Table) -> usize {
        match self.changed.get(kind) {
            Some(ids) => table.bytes_come(kind, ids),
            None => 0,
        }
    }
}

/// How many bytes the objects of a type have after these objects of collections change.
#[derive(Drop)]
pub struct BytesAfter<'a> {
    pub changed: &'a IdsByType,
}

impl<'a> Scale<Table> for BytesAfter<'a> {
    ghost weight = { λ s. by_bytes_after s.changed.now };

    fn weigh(&self, kind: &Key<'_>, table: &Table) -> usize {
        match self.changed.get(kind) {
            Some(ids) => table.bytes_over(kind, ids),
            None => table.bytes(kind),
        }
    }
}
