//! Changes that are staged on tables.

ghost use Rattle.std.specs.Prelude.{◌≡◌, OnOk, OnErr, min, nat_lt, None};
ghost use Rattle.std.specs.Option.{option_copied};
ghost use Rattle.std.specs.FinMap as map;
ghost use Rattle.feed_tables.specs.Amounts.{bytes};
ghost use Rattle.feed_tables.specs.Map.{map_over, map_less};
ghost use Rattle.feed_tables.specs.ChangedIds.{with_all_ids};
ghost use Rattle.feed_tables.specs.Patches.{below, over, adds};
ghost use Rattle.feed_tables.specs.Tables.{Contents, after, with_object, without_id, size, collection_of};

use crate::by_type::IdsByType;
use crate::ids::Ids;
use crate::map::{Map, held_in};
use crate::scale::{AfterIds, ByObjects, BytesAfter, BytesCome, BytesLost};
use crate::table::Table;
use crate::tables::Tables;
use crate::tree::Fork;
use feed_changes::{Change, Key, Name};
use feed_text::ObjectText;
use std::alloc::{AllocError, Global};

/// What becomes of some types of tables. It has what changes are to make of them, and not the
/// others: its types are taken away, or have a table of its own; and then objects change in the
/// collections that are held. Each brings the memory that it needs among the tables.
pub struct Patch {
    gone: Map<()>,
    // These are put in after the others are taken away.
    tables: Map<Table>,
    // These change then.
    ids: IdsByType,
}

// Written out: a caller's proof has one call where a value is dropped.
impl Drop for Patch {
    fn drop(self) {
        let Patch { gone, tables, ids } = self;
        drop(gone);
        drop(tables);
        drop(ids);
    }
}

impl Patch {
    /// Nothing becomes of any type.
    pub fn new() -> Patch
        ensures { (base : Contents) → over base result ≡ base }
    {
        Patch {
            gone: Map::new(),
            tables: Map::new(),
            ids: IdsByType::new(),
        }
    }

    /// Makes a change of what the tables hold after the patch. Out of memory, nothing changes.
    #[tactic(auto, unfolding(crate::specs::Tables::after))]
    pub fn apply(&mut self, alloc: Global, base: &Tables, change: &Change) -> Result<(), AllocError>
        ensures ok { OnOk result (over base.now.contents self.new
            ≡ after (over base.now.contents self.old) change.now) }
        ensures err { OnErr result (self.new ≡ self.old) }
    {
        match change {
            Change::Set(kind, id, object) => self.set(alloc, base, kind, id, object),
            Change::Remove(kind, id) => self.take(alloc, base, kind, id),
            Change::Empty(kind) => self.replace(alloc, base, kind, Table::Many(Map::new())),
            Change::Single(kind, object) => {
                self.replace(alloc, base, kind, Table::One(object.copy()?))
            }
            Change::Clear(kind) => self.clear(alloc, base, kind),
        }
    }

    // Puts a table under a type.
    fn replace(
        &mut self,
        alloc: Global,
        base: &Tables,
        kind: &Name,
        table: Table,
    ) -> Result<(), AllocError>
        ensures ok { OnOk result (over base.now.contents self.new
            ≡ map.insert (over base.now.contents self.old) kind.now table) }
        ensures err { OnErr result (self.new ≡ self.old) }
    {
        let node = Fork::of(alloc, kind, table)?;
        self.tables.insert(node);
        self.ids.remove(&kind.key());
        Ok(())
    }

    // Takes a type away.
    fn clear(&mut self, alloc: Global, base: &Tables, kind: &Name) -> Result<(), AllocError>
        ensures ok { OnOk result (over base.now.contents self.new
            ≡ map.remove (over base.now.contents self.old) kind.now) }
        ensures err { OnErr result (self.new ≡ self.old) }
    {
        if base.table(&kind.key()).is_none() {
            self.tables.remove(&kind.key());
            return Ok(());
        }
        let node = Fork::of(alloc, kind, ())?;
        self.gone.insert(node);
        self.tables.remove(&kind.key());
        Ok(())
    }

    // Puts an object under its id in the collection of a type.
    fn set(
        &mut self,
        alloc: Global,
        base: &Tables,
        kind: &Name,
        id: &Name,
        object: &ObjectText,
    ) -> Result<(), AllocError>
        ensures ok { OnOk result (over base.now.contents self.new
            ≡ with_object (over base.now.contents self.old) kind.now id.now object.now) }
        ensures err { OnErr result (self.new ≡ self.old) }
    {
        let node = Fork::of(alloc, id, object.copy()?)?;
        if objects_of(&self.tables, &self.gone, base, &kind.key()).is_none() {
            return self.begin(alloc, base, kind, node);
        }
        let Some(node) = self.ids.set_in(&kind.key(), node) else {
            return Ok(());
        };
        let mut ids = Ids::new();
        ids.set(node);
        self.ids.insert(alloc, kind, ids)?;
        Ok(())
    }

    // Puts a collection of this node's object under a type.
    fn begin(
        &mut self,
        alloc: Global,
        base: &Tables,
        kind: &Name,
        node: Box<Fork<ObjectText>>,
    ) -> Result<(), AllocError>
        requires { collection_of (map.get (below base.now.contents self.old) kind.now) ≡ None }
        ensures ok { OnOk result (over base.now.contents self.new
            ≡ with_object (over base.now.contents self.old)
            kind.now node.value.id node.value.item) }
        ensures err { OnErr result (self.new ≡ self.old) }
    {
        let mut ids = Ids::new();
        ids.set(node);
        let table = Fork::of(alloc, kind, Table::Many(Map::new()))?;
        self.ids.insert(alloc, kind, ids)?;
        self.tables.insert(table);
        Ok(())
    }

    // Takes an object out of the collection of a type, where there is one.
    fn take(
        &mut self,
        alloc: Global,
        base: &Tables,
        kind: &Name,
        id: &Name,
    ) -> Result<(), AllocError>
        ensures ok { OnOk result (over base.now.contents self.new
            ≡ without_id (over base.now.contents self.old) kind.now id.now
            (map.get (over base.now.contents self.old) kind.now)) }
        ensures err { OnErr result (self.new ≡ self.old) }
    {
        let Some(objects) = objects_of(&self.tables, &self.gone, base, &kind.key()) else {
            return Ok(());
        };
        let mut ids = Ids::new();
        if self.ids.swap(&kind.key(), &mut ids) {
            let done = ids.take(alloc, objects, id);
            let _there = self.ids.swap(&kind.key(), &mut ids);
            return done;
        }
        ids.take(alloc, objects, id)?;
        self.ids.insert(alloc, kind, ids)?;
        Ok(())
    }

    /// Types and objects of collections after the patch, or `usize::MAX` where they are more. It
    /// takes time by what the patch changes.
    pub fn size_over(&self, base: &Tables) -> usize
        ensures { result ≡ min (size (over base.now.contents self.now)) usize.MAX }
    {
        let below = base.size_with(&self.gone, &self.tables);
        let after = AfterIds { changed: &self.ids };
        if below >= usize::MAX {
            let kept = base.types().weigh_besides(&self.gone, &self.tables, &after);
            return kept.saturating_add(self.tables.weigh(&after));
        }
        let (tables, gone) = (&self.tables, &self.gone);
        let left = self.ids.weigh_in(tables, gone, base.types(), &ByObjects);
        let come = self.ids.weigh_in(tables, gone, base.types(), &after);
        below.saturating_sub(left).saturating_add(come)
    }

    /// The bytes of all objects after the patch, as `Tables::bytes`, or `usize::MAX` where they are
    /// more. It takes time by what the patch changes, and by the collections that it takes away.
    pub fn bytes_over(&self, base: &Tables) -> usize
        ensures { result ≡ min (bytes (over base.now.contents self.now)) usize.MAX }
    {
        let below = base.bytes_with(&self.gone, &self.tables);
        let changed = &self.ids;
        if below >= usize::MAX {
            let after = BytesAfter { changed };
            let kept = base.types().weigh_besides(&self.gone, &self.tables, &after);
            return kept.saturating_add(self.tables.weigh(&after));
        }
        let (tables, gone) = (&self.tables, &self.gone);
        let left = changed.weigh_in(tables, gone, base.types(), &BytesLost { changed });
        let come = changed.weigh_in(tables, gone, base.types(), &BytesCome { changed });
        below.saturating_sub(left).saturating_add(come)
    }

    /// Whether there are more types and objects after the patch than this many. Where the tables
    /// are far from that, no object is looked for among them.
    pub fn exceeds(&self, base: &Tables, most: usize) -> bool
        ensures { result ≡ nat_lt most (min (size (over base.now.contents self.now)) usize.MAX) }
    {
        let come = self
            .tables
            .weigh(&ByObjects)
            .saturating_add(self.ids.count_sets());
        if base.size().saturating_add(come) <= most {
            return false;
        }
        self.size_over(base) > most
    }

    /// How many types there are after the patch that weren't there, or `usize::MAX` where they are
    /// more.
    pub fn adds(&self, base: &Tables) -> usize
        ensures { result ≡ min (adds base.now.contents self.now) usize.MAX }
    {
        self.tables.count_besides(base.types())
    }

    /// Makes the tables what they are after the patch. It takes no memory, and time by what the
    /// patch changes.
    pub fn put(self, tables: &mut Tables)
        ensures { tables.new.contents ≡ over tables.old.contents self }
    {
        let Patch {
            gone,
            tables: own,
            ids,
        } = self;
        tables.merge(gone, own);
        ids.put(tables);
    }
}

// The collection of a type whose objects may change.
fn objects_of<'a>(
    tables: &'a Map<Table>,
    gone: &Map<()>,
    base: &'a Tables,
    kind: &Key<'_>,
) -> Option<&'a Map<ObjectText>>
    ensures { option_copied result ≡ collection_of
        (map.get (map_over tables.now (map_less gone.now base.now.contents)) kind.now) }
{
    match held_in(tables, gone, base.types(), kind) {
        Some(Table::Many(objects)) => Some(objects),
        _ => None,
    }
}
