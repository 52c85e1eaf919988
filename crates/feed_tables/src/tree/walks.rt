//! Walks through items by name.

ghost use Rattle.std.specs.Prelude.{◌≡◌, ◌∷◌, [], ◌↔◌, Some, min, length, flat_map, IfOk, OnOk, OnErr, IsTrue};
ghost use Rattle.std.specs.List.{FoldsTo};
ghost use Rattle.std.specs.Option.{option_copied};
ghost use Rattle.std.specs.FinMap as map;
ghost use Rattle.feed_tables.specs.Amounts.{MergesAmong};
ghost use Rattle.feed_tables.specs.Bytes.{IsInOrder};
ghost use Rattle.feed_changes.specs.Changes.{sets};
ghost use Rattle.feed_tables.specs.Listers.{FailsIn};
ghost use Rattle.feed_tables.specs.Map.{map_over, map_less};
ghost use Rattle.feed_tables.specs.Objects.{AreObjects};
ghost use Rattle.feed_tables.specs.ChangedIds.{sets_in, SetsAmong};
ghost use Rattle.feed_tables.specs.Tables.{listed, AreTypes};
ghost use Rattle.feed_tables.specs.Walks.{weight, weighed, weighed_in, besides, AreIn};

use crate::ids::Ids;
use crate::map::{Held, Map, held_in};
use crate::scale::{InType, Merged, Scale};
use crate::table::Table;
use crate::tree::{Fork, Node, Tree};
use feed_changes::{Key, Lister, Name};
use feed_text::ObjectText;
use std::alloc::{AllocError, Global};
use std::cmp::Ordering;
use std::mem;

/// The height of the trees that are read through before they are listed: of up to 31 nodes.
const NEAR: usize = 5;

impl<V: Held> Tree<V> {
    /// The same items again.
    pub fn copy(&self, alloc: Global) -> Result<Tree<V>, AllocError>
        ensures { IfOk result (λ t. t ≡ self.now) }
    {
        match &self.node {
            Node::Leaf => Ok(Tree::new()),
            Node::Fork(fork) => {
                let fork = Fork {
                    left: fork.left.copy(alloc)?,
                    id: fork.id.copy()?,
                    item: fork.item.again(alloc)?,
                    height: fork.height,
                    right: fork.right.copy(alloc)?,
                };
                let node = Box::new(alloc, fork)?;
                Ok(Tree {
                    node: Node::Fork(node),
                })
            }
        }
    }

    /// Whether the items are all held under their names.
    pub fn is_in(&self, other: &Map<V>) -> bool
        ensures { IsTrue result ↔ AreIn other.now self.now }
    {
        match &self.node {
            Node::Leaf => true,
            Node::Fork(fork) => {
                if !holds(other, &fork.id, &fork.item) {
                    return false;
                }
                if !fork.left.is_in(other) {
                    return false;
                }
                fork.right.is_in(other)
            }
        }
    }
}

// Whether a map has this very item under a name.
fn holds<V: Held>(items: &Map<V>, name: &Name, item: &V) -> bool
    ensures { IsTrue result ↔ (map.get items.now name.now ≡ Some item.now) }
{
    match items.get(&name.key()) {
        Some(held) => held.is_same(item),
        None => false,
    }
}

impl<V: Drop> Tree<V> {
    /// How many items there are, or `usize::MAX` where they are more. It walks through all of them.
    pub fn count(&self) -> usize
        ensures { result ≡ min (length self.now) usize.MAX }
    {
        match &self.node {
            Node::Leaf => 0,
            Node::Fork(fork) => fork
                .left
                .count()
                .saturating_add(1)
                .saturating_add(fork.right.count()),
        }
    }

    /// How much all items weigh, or `usize::MAX` where it is more.
    pub fn weigh<S: Scale<V>>(&self, scale: &S) -> usize
        ensures { result ≡ min (weighed (S.weight scale.now) self.now) usize.MAX }
    {
        match &self.node {
            Node::Leaf => 0,
            Node::Fork(fork) => fork
                .left
                .weigh(scale)
                .saturating_add(fork.weigh(scale))
                .saturating_add(fork.right.weigh(scale)),
        }
    }

    /// How much the items weigh whose names are in neither, or `usize::MAX` where it is more.
    pub fn weigh_besides<W: Drop, X: Drop, S: Scale<V>>(
        &self,
        gone: &Map<W>,
        others: &Map<X>,
        scale: &S,
    ) -> usize
        ensures { result ≡ min (weighed (S.weight scale.now)
            (besides others.now (besides gone.now self.now))) usize.MAX }
    {
        match &self.node {
            Node::Leaf => 0,
            Node::Fork(fork) => {
                let weight = weight_besides(gone, others, &fork.id.key(), &fork.item, scale);
                fork.left
                    .weigh_besides(gone, others, scale)
                    .saturating_add(weight)
                    .saturating_add(fork.right.weigh_besides(gone, others, scale))
            }
        }
    }

    /// How much these names weigh by what is held under them, where some items are taken away and
    /// then some put in; or `usize::MAX` where it is more.
    pub fn weigh_in<W: Drop, S: Scale<W>>(
        &self,
        items: &Map<W>,
        gone: &Map<()>,
        held: &Map<W>,
        scale: &S,
    ) -> usize
        ensures { result ≡ min (weighed_in (S.weight scale.now)
            (map_over items.now (map_less gone.now held.now)) self.now) usize.MAX }
    {
        match &self.node {
            Node::Leaf => 0,
            Node::Fork(fork) => {
                let weight = weight_in(items, gone, held, &fork.id.key(), scale);
                fork.left
                    .weigh_in(items, gone, held, scale)
                    .saturating_add(weight)
                    .saturating_add(fork.right.weigh_in(items, gone, held, scale))
            }
        }
    }

    /// How many of these names are none of the others, or `usize::MAX` where they are more.
    pub fn count_besides<W: Drop>(&self, others: &Map<W>) -> usize
        ensures { result ≡ min (length (besides others.now self.now)) usize.MAX }
    {
        match &self.node {
            Node::Leaf => 0,
            Node::Fork(fork) => {
                let here: usize = if others.get(&fork.id.key()).is_some() {
                    0
                } else {
                    1
                };
                fork.left
                    .count_besides(others)
                    .saturating_add(here)
                    .saturating_add(fork.right.count_besides(others))
            }
        }
    }
}

// How much a name weighs by what is held under it.
pub fn weight_in<W: Drop, S: Scale<W>>(
    items: &Map<W>,
    gone: &Map<()>,
    held: &Map<W>,
    name: &Key<'_>,
    scale: &S,
) -> usize
    ensures { result ≡ min (weight (S.weight scale.now) name.now
        (map.get (map_over items.now (map_less gone.now held.now)) name.now)) usize.MAX }
{
    match held_in(items, gone, held, name) {
        Some(item) => scale.weigh(name, item),
        None => 0,
    }
}

// How much an item weighs, where its name is in neither.
fn weight_besides<V: Drop, W: Drop, X: Drop, S: Scale<V>>(
    gone: &Map<W>,
    others: &Map<X>,
    name: &Key<'_>,
    item: &V,
    scale: &S,
) -> usize
    ensures { result ≡ min (weighed (S.weight scale.now)
        (besides others.now (besides gone.now ((name.now, item.now) ∷ [])))) usize.MAX }
{
    if gone.get(name).is_some() {
        return 0;
    }
    if others.get(name).is_some() {
        return 0;
    }
    scale.weigh(name, item)
}

impl Tree<Table> {
    /// Lists the changes that make the tables, type by type.
    pub fn list<L: Lister>(&self, lister: &mut L) -> Result<(), L::Error>
        ensures list { OnOk result
            (FoldsTo L.takes lister.old (flat_map listed self.now) lister.new) }
        ensures fails { OnErr result
            (FailsIn L.takes L.fails lister.old (flat_map listed self.now) lister.new) }
        ensures within { OnOk result (AreTypes self.now) }
    {
        match &self.node {
            Node::Leaf => Ok(()),
            Node::Fork(fork) => {
                fork.left.list(lister)?;
                // What is listed is within the limits.
                let _kind = fork.id.text();
                fork.item.list(&fork.id, lister)?;
                fork.right.list(lister)
            }
        }
    }

    /// Changes objects in the collection of a type, and answers whether there is the type. Then
    /// `merged` is what came of that, and the changes are used up. It takes no memory.
    pub fn merge_in(&mut self, kind: &Key<'_>, ids: &mut Ids, merged: &mut Merged) -> bool
        requires { IsInOrder self.old }
        ensures merged { MergesAmong kind.now self.old self.new ids.old merged.new result }
    {
        match &mut self.node {
            Node::Leaf => false,
            Node::Fork(fork) => match kind.compare(&fork.id) {
                Ordering::Less => fork.left.merge_in(kind, ids, merged),
                Ordering::Equal => {
                    *merged = fork.item.merge(kind, mem::replace(ids, Ids::new()));
                    true
                }
                Ordering::Greater => fork.right.merge_in(kind, ids, merged),
            },
        }
    }
}

impl Tree<Ids> {
    /// Puts a node's object under its id among those of a type. Where nothing becomes of the type's
    /// objects, the node comes back.
    pub fn set_in(
        &mut self,
        kind: &Key<'_>,
        node: Box<Fork<ObjectText>>,
    ) -> Option<Box<Fork<ObjectText>>>
        requires { IsInOrder self.old }
        ensures set { SetsAmong kind.now self.old self.new node.value.id node.value.item result }
    {
        match &mut self.node {
            Node::Leaf => Some(node),
            Node::Fork(fork) => match kind.compare(&fork.id) {
                Ordering::Less => fork.left.set_in(kind, node),
                Ordering::Equal => {
                    fork.item.set(node);
                    None
                }
                Ordering::Greater => fork.right.set_in(kind, node),
            },
        }
    }

    /// How many objects are put in, or `usize::MAX` where they are more.
    pub fn count_sets(&self) -> usize
        ensures { result ≡ min (sets_in self.now) usize.MAX }
    {
        match &self.node {
            Node::Leaf => 0,
            Node::Fork(fork) => fork
                .left
                .count_sets()
                .saturating_add(fork.item.count_sets())
                .saturating_add(fork.right.count_sets()),
        }
    }
}

impl Tree<ObjectText> {
    // Reads each node and object of a tree of that height, for speed alone: they lie apart in
    // memory, and reads that nothing waits for go on at the same time.
    #[inline(always)]
    fn read_ahead(&self) {
        if self.height() == NEAR {
            let _bytes = self.weigh(&InType { kind: 0 });
        }
    }

    /// Lists a change for each object, in the order of their ids.
    pub fn list<L: Lister>(&self, kind: &Name, lister: &mut L) -> Result<(), L::Error>
        ensures list { OnOk result
            (FoldsTo L.takes lister.old (sets kind.now self.now) lister.new) }
        ensures fails { OnErr result
            (FailsIn L.takes L.fails lister.old (sets kind.now self.now) lister.new) }
        ensures within { OnOk result (AreObjects self.now) }
    {
        self.read_ahead();
        match &self.node {
            Node::Leaf => Ok(()),
            Node::Fork(fork) => {
                fork.left.list(kind, lister)?;
                // What is listed is within the limits.
                let (_id, _object) = (fork.id.text(), fork.item.bytes());
                lister.set(kind, &fork.id, &fork.item)?;
                fork.right.list(kind, lister)
            }
        }
    }
}
