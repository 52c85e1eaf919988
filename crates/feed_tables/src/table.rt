//! What is held under one type.

ghost use Rattle.std.specs.Prelude.{◌≡◌, ◌+◌, min, Some, OnOk, OnErr, IsTrue};
ghost use Rattle.std.specs.List.{FoldsTo};
ghost use Rattle.std.specs.Option.{option_copied};
ghost use Rattle.feed_tables.specs.Listers.{FailsIn};
ghost use Rattle.feed_tables.specs.Tables.{object_of};

use crate::ids::Ids;
use crate::map::{Held, Map, are_same};
use crate::scale::{InType, Merged, Shift};
use feed_changes::{Key, Lister, Name};
use feed_text::ObjectText;
use std::alloc::{AllocError, Global};

// What is held under a type: one object, or a collection of objects by id.
#[derive(Drop)]
pub(crate) enum Table {
    One(ObjectText),
    Many(Map<ObjectText>),
}

impl Table {
    ghost use Rattle.feed_tables.specs.Amounts.{by_bytes, bytes_lost, bytes_come, Merges};
    ghost use Rattle.feed_tables.specs.ChangedIds.{merged};
    ghost use Rattle.feed_tables.specs.Tables.{object_count, listed, IsTable};
    ghost use Rattle.feed_tables.specs.Touched.{AgreeIn};

    // How many objects of a collection there are, or `usize::MAX` where they are more.
    pub(crate) fn count(&self) -> usize
        ensures { result ≡ min (object_count self.now) usize.MAX }
    {
        match self {
            Table::One(_) => 0,
            Table::Many(objects) => objects.count(),
        }
    }

    // One for the type, and one for each object of a collection, or `usize::MAX` where they are
    // more.
    pub(crate) fn weight(&self) -> usize
        ensures { result ≡ min (object_count self.now + 1) usize.MAX }
    {
        self.count().saturating_add(1)
    }

    // How many bytes the objects have, each with the name of the type, or `usize::MAX` where they
    // are more. It walks through a collection.
    pub(crate) fn bytes(&self, kind: &Key<'_>) -> usize
        ensures { result ≡ min (by_bytes kind.now self.now) usize.MAX }
    {
        match self {
            Table::One(object) => kind.len().saturating_add(object.bytes().len()),
            Table::Many(objects) => objects.weigh(&InType { kind: kind.len() }),
        }
    }

    // How many bytes go where these objects change, or `usize::MAX` where they are more.
    pub(crate) fn bytes_lost(&self, kind: &Key<'_>, ids: &Ids) -> usize
        ensures { result ≡ min (bytes_lost kind.now ids.now self.now) usize.MAX }
    {
        match self {
            Table::One(_) => 0,
            Table::Many(objects) => ids.bytes_lost(objects, &InType { kind: kind.len() }),
        }
    }

    // How many come then.
    pub(crate) fn bytes_come(&self, kind: &Key<'_>, ids: &Ids) -> usize
        ensures { result ≡ min (bytes_come kind.now ids.now self.now) usize.MAX }
    {
        match self {
            Table::One(_) => 0,
            Table::Many(_) => ids.bytes_come(&InType { kind: kind.len() }),
        }
    }

    // How many there are after these objects change, or `usize::MAX` where they are more. It walks
    // through a collection.
    pub(crate) fn bytes_over(&self, kind: &Key<'_>, ids: &Ids) -> usize
        ensures { result ≡ min (by_bytes kind.now (merged self.now ids.now)) usize.MAX }
    {
        match self {
            Table::One(object) => kind.len().saturating_add(object.bytes().len()),
            Table::Many(objects) => ids.bytes_over(objects, &InType { kind: kind.len() }),
        }
    }

    // The object of an id in a collection.
    pub(crate) fn get(&self, id: &Key<'_>) -> Option<&ObjectText>
        ensures { option_copied result ≡ object_of id.now self.now }
    {
        match self {
            Table::Many(objects) => objects.get(id),
            Table::One(_) => None,
        }
    }

    // Whether both are the same, but that of a collection one object alone is looked at.
    pub(crate) fn agrees_in(&self, other: &Table, id: &Key<'_>) -> bool
        ensures { IsTrue result → AgreeIn id.now (Some self.now) (Some other.now) }
    {
        match self {
            Table::One(_) => self.is_same(other),
            Table::Many(objects) => match other {
                Table::One(_) => false,
                Table::Many(others) => are_same(objects.get(id), others.get(id)),
            },
        }
    }

    // Lists the changes that make the table.
    pub(crate) fn list<L: Lister>(&self, kind: &Name, lister: &mut L) -> Result<(), L::Error>
        ensures list { OnOk result
            (FoldsTo L.takes lister.old (listed (kind.now, self.now)) lister.new) }
        ensures fails { OnErr result
            (FailsIn L.takes L.fails lister.old (listed (kind.now, self.now)) lister.new) }
        ensures within { OnOk result (IsTable self.now) }
    {
        match self {
            Table::One(object) => {
                // What is listed is within the limits.
                let _text = object.bytes();
                lister.single(kind, object)
            }
            Table::Many(objects) => {
                lister.empty(kind)?;
                objects.list(kind, lister)
            }
        }
    }

    // How many objects of a collection there are after these change, or `usize::MAX` where they are
    // more.
    pub(crate) fn count_over(&self, ids: &Ids) -> usize
        ensures { result ≡ min (object_count (merged self.now ids.now)) usize.MAX }
    {
        match self {
            Table::One(_) => 0,
            Table::Many(objects) => ids.count_over(objects),
        }
    }

    // Changes objects of a collection, and answers what came of that. It takes no memory.
    pub(crate) fn merge(&mut self, kind: &Key<'_>, ids: Ids) -> Merged
        ensures { Merges kind.now ids self.old self.new result }
    {
        let before = self.count();
        let bytes = self.merge_objects(kind, ids);
        let after = self.count();
        Merged {
            before,
            after,
            bytes,
        }
    }

    // The same, and answers how many bytes went and came.
    fn merge_objects(&mut self, kind: &Key<'_>, ids: Ids) -> Shift
        ensures put { self.new ≡ merged self.old ids }
        ensures lost { result.lost ≡ min (bytes_lost kind.now ids self.old) usize.MAX }
        ensures come { result.come ≡ min (bytes_come kind.now ids self.old) usize.MAX }
    {
        match self {
            Table::One(_) => Shift { lost: 0, come: 0 },
            Table::Many(objects) => ids.put_into(objects, &InType { kind: kind.len() }),
        }
    }
}

impl Held for Table {
    fn again(&self, alloc: Global) -> Result<Table, AllocError> {
        match self {
            Table::One(object) => Ok(Table::One(object.copy()?)),
            Table::Many(objects) => Ok(Table::Many(objects.copy(alloc)?)),
        }
    }

    fn is_same(&self, other: &Table) -> bool {
        match self {
            Table::One(object) => match other {
                Table::One(other) => object.is_same(other),
                Table::Many(_) => false,
            },
            Table::Many(objects) => match other {
                Table::One(_) => false,
                Table::Many(others) => objects.same(others),
            },
        }
    }
}
