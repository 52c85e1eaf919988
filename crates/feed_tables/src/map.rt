//! Items by name, seen as a finite map.

ghost use Rattle.std.specs.Prelude.{◌≡◌, ℕ, ◌+◌, ◌≤◌, ◌↔◌, min, length, flat_map, IfOk, OnOk, OnErr, IsTrue};
ghost use Rattle.std.specs.List.{FoldsTo};
ghost use Rattle.std.specs.Option.{option_copied};
ghost use Rattle.std.specs.FinMap as map;
ghost use Rattle.feed_tables.specs.Amounts.{lost_in, MergesIn};
ghost use Rattle.feed_changes.specs.Changes.{sets};
ghost use Rattle.feed_tables.specs.Listers.{FailsIn};
ghost use Rattle.feed_tables.specs.Map.{TakesThePlace, map_over, map_less, TakesFirst};
ghost use Rattle.feed_tables.specs.Objects.{AreObjects};
ghost use Rattle.feed_tables.specs.ChangedIds.{sets_in, SetsIn};
ghost use Rattle.feed_tables.specs.Tables.{listed, AreTypes};
ghost use Rattle.feed_tables.specs.Tree.{handed, named};
ghost use Rattle.feed_tables.specs.Walks.{weight, weighed, weighed_in};

use crate::ids::Ids;
use crate::scale::{Merged, Scale, Shift};
use crate::table::Table;
use crate::tree::union::let_go;
use crate::tree::{Fork, Tree, count_node, weigh_node};
use feed_changes::{Key, Lister, Name};
use feed_text::ObjectText;
use std::alloc::{AllocError, Global};
use std::marker::Model;

/// Items by name. What takes a node takes no memory.
pub struct Map<V> {
    tree: Tree<V>,
    // How many items there are, or `usize::MAX` where they are more. It is kept here alone: a count
    // in each node would make nodes larger, and would change in all that stand above a new one.
    count: usize,
}

// Written out: a caller's proof has one call where a value is dropped.
impl<V: Drop> Drop for Map<V> {
    fn drop(self) {
        let Map { tree, count: _ } = self;
        drop(tree);
    }
}

impl<V> Model for Map<V> {
    ghost use Rattle.std.specs.Prelude.{◌≡◌, List, ℕ};
    ghost use Rattle.std.specs.Coded.{coded_ℕ, coded_list};
    ghost use Rattle.std.specs.FinMap as map;
    ghost use Rattle.feed_tables.specs.Bytes.{byte_order, IsInOrder};
    ghost use Rattle.feed_tables.specs.Tree.{count_of};

    ghost Value = { map.FinMap byte_order V };

    ghost coded = { map.code (coded_list coded_ℕ) V.code };

    ghost view = { λ a. map.from_sorted a.tree };

    ghost invariant = { λ a. IsInOrder a.tree × (a.count ≡ count_of a.tree) };
}

impl<V: Drop> Map<V> {
    pub fn new() -> Map<V>
        ensures { result ≡ map.empty }
    {
        Map {
            tree: Tree::new(),
            count: 0,
        }
    }

    /// How many items there are, or `usize::MAX` where they are more.
    pub fn count(&self) -> usize
        ensures { result ≡ min (map.len self.now) usize.MAX }
    {
        self.count
    }

    /// The item of a name.
    pub fn get(&self, id: &Key<'_>) -> Option<&V>
        ensures { option_copied result ≡ map.get self.now id.now }
    {
        self.tree.get(id)
    }

    /// Exchanges the item of a name with this one, and answers whether there is one.
    pub fn swap(&mut self, id: &Key<'_>, item: &mut V) -> bool
        ensures { TakesThePlace id.now self.old self.new item.old item.new result }
    {
        self.tree.swap(id, item)
    }

    /// Puts a node's item under its name, in the place of the one that is there.
    pub fn insert(&mut self, node: Box<Fork<V>>)
        ensures { self.new ≡ map.insert self.old node.value.id node.value.item }
    {
        let mut back = None;
        let added = self.tree.insert(node, &mut back);
        self.count = self.count.saturating_add(added);
    }

    /// Takes the item of this name away, where there is one.
    pub fn remove(&mut self, id: &Key<'_>)
        ensures { self.new ≡ map.remove self.old id.now }
    {
        let _gone = self.take(id);
    }

    /// Takes the node of this name out, where there is one.
    pub fn take(&mut self, id: &Key<'_>) -> Option<Box<Fork<V>>>
        ensures left { self.new ≡ map.remove self.old id.now }
        ensures gone { handed result ≡ named id.now (map.get self.old id.now) }
    {
        let gone = self.tree.take(id);
        self.count = count_left(&self.tree, self.count, count_node(&gone));
        gone
    }

    /// Takes the first node out.
    pub fn take_first(&mut self) -> Option<Box<Fork<V>>>
        ensures { TakesFirst self.old self.new result }
    {
        let first = self.tree.take_first()?;
        self.count = count_left(&self.tree, self.count, 1);
        Some(first)
    }

    /// Puts all items into another map, and answers how much went and came.
    pub fn put_into<S: Scale<V>>(self, other: &mut Map<V>, scale: &S) -> Shift
        ensures put { other.new ≡ map_over self other.old }
        ensures lost { result.lost ≡ min (weighed_in (S.weight scale.now) other.old
            (map.entries self)) usize.MAX }
        ensures come { result.come ≡ min (weighed (S.weight scale.now) (map.entries self))
            usize.MAX }
    {
        if self.tree.has_at_most_one() {
            return other.put_one(self, scale);
        }
        let come = self.tree.weigh(scale);
        let Map { tree, count } = self;
        let count = other.count.saturating_add(count);
        let mut spare = Tree::new();
        other.tree.absorb(tree, &mut spare);
        let spent = let_go(spare, scale);
        other.count = count_left(&other.tree, count, spent.count);
        Shift {
            lost: spent.weight,
            come,
        }
    }

    // Puts the one item of another map in, where there is one, and answers how much went and came.
    fn put_one<S: Scale<V>>(&mut self, other: Map<V>, scale: &S) -> Shift
        requires { map.len other ≤ 1 }
        ensures put { self.new ≡ map_over other self.old }
        ensures lost { result.lost ≡ min (weighed_in (S.weight scale.now) self.old
            (map.entries other)) usize.MAX }
        ensures come { result.come ≡ min (weighed (S.weight scale.now) (map.entries other))
            usize.MAX }
    {
        let mut back = None;
        let Map { tree, count: _ } = other;
        match tree.into_node() {
            Some(node) => {
                let come = node.weigh(scale);
                let added = self.tree.insert(node, &mut back);
                self.count = self.count.saturating_add(added);
                Shift {
                    lost: weigh_node(&back, scale),
                    come,
                }
            }
            None => Shift { lost: 0, come: 0 },
        }
    }

    /// Takes the items of these names out of another map.
    pub fn take_from<W: Drop>(self, other: &mut Map<W>)
        ensures { other.new ≡ map_less self other.old }
    {
        let Map { tree, count: _ } = self;
        tree.take_from(other);
    }

    /// How many of these names are none of the others, or `usize::MAX` where they are more.
    pub fn count_besides<W: Drop>(&self, others: &Map<W>) -> usize
        ensures { result ≡ min (map.len (map_less others.now self.now)) usize.MAX }
    {
        self.tree.count_besides(others)
    }

    /// How much the items weigh whose names are in neither, or `usize::MAX` where it is more.
    pub fn weigh_besides<W: Drop, X: Drop, S: Scale<V>>(
        &self,
        gone: &Map<W>,
        others: &Map<X>,
        scale: &S,
    ) -> usize
        ensures { result ≡ min (weighed (S.weight scale.now)
            (map.entries (map_less others.now (map_less gone.now self.now)))) usize.MAX }
    {
        self.tree.weigh_besides(gone, others, scale)
    }

    /// How much these names weigh by what is held under them, where some items are taken away and
    /// then some put in; or `usize::MAX` where it is more.
    pub fn weigh_in<W: Drop, S: Scale<W>>(
        &self,
        items: &Map<W>,
        gone: &Map<()>,
        held: &Map<W>,
        scale: &S,
    ) -> usize
        ensures { result ≡ min (weighed_in (S.weight scale.now)
            (map_over items.now (map_less gone.now held.now)) (map.entries self.now)) usize.MAX }
    {
        self.tree.weigh_in(items, gone, held, scale)
    }

    /// How much all items weigh, or `usize::MAX` where it is more.
    pub fn weigh<S: Scale<V>>(&self, scale: &S) -> usize
        ensures { result ≡ min (weighed (S.weight scale.now) (map.entries self.now)) usize.MAX }
    {
        self.tree.weigh(scale)
    }
}

// How many items are left after some went, by how many there were; or `usize::MAX` where they are
// more. Only where they were that many or more does it walk through them.
fn count_left<V: Drop>(left: &Tree<V>, before: usize, gone: usize) -> usize
    requires { before ≡ min (length left.now + gone) usize.MAX }
    ensures { result ≡ min (length left.now) usize.MAX }
{
    if before < usize::MAX {
        return before - gone;
    }
    left.count()
}

/// The item of a name, where some items are taken away and then some put in.
pub fn held_in<'a, V: Drop>(
    items: &'a Map<V>,
    gone: &Map<()>,
    held: &'a Map<V>,
    name: &Key<'_>,
) -> Option<&'a V>
    ensures { option_copied result
        ≡ map.get (map_over items.now (map_less gone.now held.now)) name.now }
{
    match items.get(name) {
        Some(item) => return Some(item),
        None => {}
    }
    if gone.get(name).is_some() {
        return None;
    }
    held.get(name)
}

/// How much items weigh after some are taken away and then some put in, or `usize::MAX` where it is
/// more. It takes time by these alone.
pub fn weigh_over<V: Drop, S: Scale<V>>(
    total: usize,
    held: &Map<V>,
    gone: &Map<()>,
    items: &Map<V>,
    scale: &S,
) -> usize
    requires { total ≡ min (weighed (S.weight scale.now) (map.entries held.now)) usize.MAX }
    ensures { result ≡ min (weighed (S.weight scale.now)
        (map.entries (map_over items.now (map_less gone.now held.now)))) usize.MAX }
{
    let come = items.weigh(scale);
    if total >= usize::MAX {
        return held.weigh_besides(gone, items, scale).saturating_add(come);
    }
    let lost = weigh_lost(held, gone, items, scale);
    total.saturating_sub(lost).saturating_add(come)
}

/// How much of what items weigh goes where some are taken away and then some put in, or
/// `usize::MAX` where it is more.
pub fn weigh_lost<V: Drop, S: Scale<V>>(
    held: &Map<V>,
    gone: &Map<()>,
    items: &Map<V>,
    scale: &S,
) -> usize
    ensures { result ≡ min (lost_in (S.weight scale.now) gone.now items.now held.now) usize.MAX }
{
    let none = Map::new();
    let nothing = Map::new();
    let left = gone.weigh_in(&none, &nothing, held, scale);
    let replaced = items.weigh_in(&none, gone, held, scale);
    left.saturating_add(replaced)
}

/// How much is held under these names, or `usize::MAX` where it is more.
pub fn weigh_names<V: Drop, S: Scale<V>>(names: &Map<()>, held: &Map<V>, scale: &S) -> usize
    ensures { result ≡ min (weighed_in (S.weight scale.now) held.now (map.entries names.now))
        usize.MAX }
{
    if names.count() == 0 {
        return 0;
    }
    let none = Map::new();
    let nothing = Map::new();
    names.weigh_in(&none, &nothing, held, scale)
}

/// What maps hold.
pub trait Held: Drop {
    /// The same item again.
    fn again(&self, alloc: Global) -> Result<Self, AllocError>
        ensures { IfOk result (λ item. item ≡ self.now) };

    /// Whether both are the same.
    fn is_same(&self, other: &Self) -> bool
        ensures { IsTrue result ↔ (self.now ≡ other.now) };
}

impl Held for ObjectText {
    fn again(&self, alloc: Global) -> Result<ObjectText, AllocError> {
        let _alloc = alloc;
        self.copy()
    }

    fn is_same(&self, other: &ObjectText) -> bool {
        self.bytes() == other.bytes()
    }
}

/// Whether both are the same, or both are none.
pub fn are_same<V: Held>(item: Option<&V>, other: Option<&V>) -> bool
    ensures { IsTrue result ↔ (option_copied item.entry ≡ option_copied other.entry) }
{
    match item {
        Some(item) => match other {
            Some(other) => item.is_same(other),
            None => false,
        },
        None => other.is_none(),
    }
}

impl<V: Held> Map<V> {
    /// The same items again.
    pub fn copy(&self, alloc: Global) -> Result<Map<V>, AllocError>
        ensures { IfOk result (λ m. m ≡ self.now) }
    {
        let tree = self.tree.copy(alloc)?;
        Ok(Map {
            tree,
            count: self.count,
        })
    }

    /// Whether both have the same items under the same names.
    pub fn same(&self, other: &Map<V>) -> bool
        ensures { IsTrue result ↔ (self.now ≡ other.now) }
    {
        if !self.tree.is_in(other) {
            return false;
        }
        other.tree.is_in(self)
    }
}

impl Map<Table> {
    /// Lists the changes that make the tables, type by type.
    pub fn list<L: Lister>(&self, lister: &mut L) -> Result<(), L::Error>
        ensures list { OnOk result
            (FoldsTo L.takes lister.old (flat_map listed (map.entries self.now)) lister.new) }
        ensures fails { OnErr result
            (FailsIn L.takes L.fails lister.old (flat_map listed (map.entries self.now))
            lister.new) }
        ensures within { OnOk result (AreTypes (map.entries self.now)) }
    {
        self.tree.list(lister)
    }

    /// Changes objects in the collection of a type, and answers whether there is the type. Then
    /// `merged` is what came of that, and the changes are used up. It takes no memory.
    pub fn merge_in(&mut self, kind: &Key<'_>, ids: &mut Ids, merged: &mut Merged) -> bool
        ensures merged { MergesIn kind.now self.old self.new ids.old merged.new result }
    {
        self.tree.merge_in(kind, ids, merged)
    }
}

impl Map<Ids> {
    /// Puts a node's object under its id among those of a type. Where nothing becomes of the type's
    /// objects, the node comes back.
    pub fn set_in(
        &mut self,
        kind: &Key<'_>,
        node: Box<Fork<ObjectText>>,
    ) -> Option<Box<Fork<ObjectText>>>
        ensures set { SetsIn kind.now self.old self.new node.value.id node.value.item result }
    {
        self.tree.set_in(kind, node)
    }

    /// How many objects are put in, or `usize::MAX` where they are more.
    pub fn count_sets(&self) -> usize
        ensures { result ≡ min (sets_in (map.entries self.now)) usize.MAX }
    {
        self.tree.count_sets()
    }
}

impl Map<ObjectText> {
    /// Lists a change for each object, in byte order of the ids.
    pub fn list<L: Lister>(&self, kind: &Name, lister: &mut L) -> Result<(), L::Error>
        ensures list { OnOk result
            (FoldsTo L.takes lister.old (sets kind.now (map.entries self.now)) lister.new) }
        ensures fails { OnErr result
            (FailsIn L.takes L.fails lister.old (sets kind.now (map.entries self.now)) lister.new) }
        ensures within { OnOk result (AreObjects (map.entries self.now)) }
    {
        self.tree.list(kind, lister)
    }
}
