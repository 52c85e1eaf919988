//! What becomes of the objects of a collection.

ghost use Rattle.std.specs.Prelude.{◌≡◌, min, OnOk, OnErr};
ghost use Rattle.std.specs.FinMap as map;
ghost use Rattle.feed_tables.specs.Amounts.{in_type, lost_in};
ghost use Rattle.feed_tables.specs.ChangedIds.{over_ids};
ghost use Rattle.feed_tables.specs.Tables.{Objects};
ghost use Rattle.feed_tables.specs.Walks.{weighed};

use crate::map::{Map, weigh_lost, weigh_names, weigh_over};
use crate::scale::{EachOne, InType, Shift};
use crate::tree::Fork;
use feed_changes::Name;
use feed_text::ObjectText;
use std::alloc::{AllocError, Global};

/// Objects of a collection that are gone, and then those that are put in. Each brings the memory
/// that it needs in the collection.
pub struct Ids {
    gone: Map<()>,
    // These are put in after the others are taken away.
    sets: Map<ObjectText>,
}

// Written out: a caller's proof has one call where a value is dropped.
impl Drop for Ids {
    fn drop(self) {
        let Ids { gone, sets } = self;
        drop(gone);
        drop(sets);
    }
}

impl Ids {
    /// Nothing becomes of any object.
    pub fn new() -> Ids
        ensures { (objects : Objects) → over_ids objects result ≡ objects }
    {
        Ids {
            gone: Map::new(),
            sets: Map::new(),
        }
    }

    /// Puts a node's object under its id.
    pub fn set(&mut self, node: Box<Fork<ObjectText>>)
        ensures { (objects : Objects) → over_ids objects self.new
            ≡ map.insert (over_ids objects self.old) node.value.id node.value.item }
    {
        self.sets.insert(node);
    }

    /// Takes the object of an id away. Out of memory, nothing changes.
    pub fn take(
        &mut self,
        alloc: Global,
        objects: &Map<ObjectText>,
        id: &Name,
    ) -> Result<(), AllocError>
        ensures ok { OnOk result (over_ids objects.now self.new
            ≡ map.remove (over_ids objects.now self.old) id.now) }
        ensures err { OnErr result (self.new ≡ self.old) }
    {
        if objects.get(&id.key()).is_none() {
            self.sets.remove(&id.key());
            return Ok(());
        }
        let node = Fork::of(alloc, id, ())?;
        self.gone.insert(node);
        self.sets.remove(&id.key());
        Ok(())
    }

    /// How many objects are put in, or `usize::MAX` where they are more.
    pub fn count_sets(&self) -> usize
        ensures { result ≡ min (map.len self.now.sets) usize.MAX }
    {
        self.sets.count()
    }

    /// How many objects there are over these, or `usize::MAX` where they are more. It takes time by
    /// what becomes of objects.
    pub fn count_over(&self, objects: &Map<ObjectText>) -> usize
        ensures { result ≡ min (map.len (over_ids objects.now self.now)) usize.MAX }
    {
        weigh_over(objects.count(), objects, &self.gone, &self.sets, &EachOne)
    }

    /// How many bytes of a collection's objects go, or `usize::MAX` where they are more.
    pub fn bytes_lost(&self, objects: &Map<ObjectText>, scale: &InType) -> usize
        ensures { result ≡ min (lost_in (in_type scale.now.kind) self.now.gone self.now.sets
            objects.now) usize.MAX }
    {
        weigh_lost(objects, &self.gone, &self.sets, scale)
    }

    /// How many bytes come with the objects that are put in, or `usize::MAX` where they are more.
    pub fn bytes_come(&self, scale: &InType) -> usize
        ensures { result ≡ min (weighed (in_type scale.now.kind) (map.entries self.now.sets))
            usize.MAX }
    {
        self.sets.weigh(scale)
    }

    /// How many bytes the objects over these have, or `usize::MAX` where they are more. It walks
    /// through all of them.
    pub fn bytes_over(&self, objects: &Map<ObjectText>, scale: &InType) -> usize
        ensures { result ≡ min (weighed (in_type scale.now.kind)
            (map.entries (over_ids objects.now self.now))) usize.MAX }
    {
        let kept = objects.weigh_besides(&self.gone, &self.sets, scale);
        kept.saturating_add(self.sets.weigh(scale))
    }

    /// Makes the objects those over them, and answers how many bytes went and came. It takes no
    /// memory.
    pub fn put_into(self, objects: &mut Map<ObjectText>, scale: &InType) -> Shift
        ensures put { objects.new ≡ over_ids objects.old self }
        ensures lost { result.lost ≡ min (lost_in (in_type scale.now.kind) self.gone self.sets
            objects.old) usize.MAX }
        ensures come { result.come
            ≡ min (weighed (in_type scale.now.kind) (map.entries self.sets)) usize.MAX }
    {
        let Ids { gone, sets } = self;
        let left = weigh_names(&gone, objects, scale);
        gone.take_from(objects);
        let shift = sets.put_into(objects, scale);
        Shift {
            lost: left.saturating_add(shift.lost),
            come: shift.come,
        }
    }
}
