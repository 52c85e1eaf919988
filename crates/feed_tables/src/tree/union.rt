//! Items that are put into a tree all at once. Those that stand next to each other go down in one
//! walk, and are parted only where an item of the tree stands between them.

ghost use Rattle.std.specs.Prelude.{◌≡◌, ◌+◌, ◌≤◌, ◌∷◌, ◌++◌, ◌↔◌, IsTrue, length, min};
ghost use Rattle.feed_tables.specs.Bytes.{IsInOrder};
ghost use Rattle.feed_tables.specs.Tree.{with_item};
ghost use Rattle.feed_tables.specs.Unions.{put_each, entry_in, item_or, AreBefore, AreAfter, AreAt, Stand, Parts};
ghost use Rattle.feed_tables.specs.Walks.{Scale as ScaleOf, weighed};

use crate::scale::Scale;
use crate::tree::{Fork, Node, Tree};
use feed_changes::Name;
use std::cmp::Ordering;
use std::mem;

/// Items of a tree by where they stand to a name.
#[derive(Drop)]
struct Parted<V> {
    before: Tree<V>,
    // The one of this very name.
    same: Option<Box<Fork<V>>>,
    after: Tree<V>,
}

/// How many nodes were let go, and how much their items weighed; each `usize::MAX` where it is
/// more.
#[derive(Drop)]
pub struct Spent {
    pub count: usize,
    pub weight: usize,
}

impl<V: Drop> Tree<V> {
    /// Puts the items of another tree in, each under its name. Where one takes the place of an
    /// item, its node comes to the spare ones, with the item that went. It takes no memory.
    pub fn absorb(&mut self, items: Tree<V>, spare: &mut Tree<V>)
        requires order { IsInOrder self.old }
        requires items { IsInOrder items }
        ensures put { self.new ≡ put_each items self.old }
        ensures kept { (scale : ScaleOf V) → weighed scale self.new + weighed scale spare.new
            ≡ weighed scale self.old + weighed scale items + weighed scale spare.old }
    {
        if items.has_at_most_one() {
            self.put_one(items, spare);
            return;
        }
        match &mut self.node {
            Node::Leaf => *self = items,
            Node::Fork(fork) => match items.side(&fork.id) {
                Ordering::Less => {
                    fork.left.absorb(items, spare);
                    self.even_left();
                }
                Ordering::Greater => {
                    fork.right.absorb(items, spare);
                    self.even_right();
                }
                Ordering::Equal => {
                    let Parted {
                        before,
                        same,
                        after,
                    } = items.part(&fork.id);
                    fork.left.absorb(before, spare);
                    fork.take_item(same, spare);
                    fork.right.absorb(after, spare);
                    self.even();
                }
            },
        }
    }

    // Puts the one item in, where there is one.
    fn put_one(&mut self, items: Tree<V>, spare: &mut Tree<V>)
        requires order { IsInOrder self.old }
        requires one { length items ≤ 1 }
        ensures put { self.new ≡ put_each items self.old }
        ensures kept { (scale : ScaleOf V) → weighed scale self.new + weighed scale spare.new
            ≡ weighed scale self.old + weighed scale items + weighed scale spare.old }
    {
        let Node::Fork(node) = items.node else {
            return;
        };
        let mut back = None;
        let _added = self.insert(node, &mut back);
        set_aside(back, spare);
    }

    // Whether there is one item, or none.
    #[inline(always)]
    pub fn has_at_most_one(&self) -> bool
        ensures { IsTrue result ↔ (length self.now ≤ 1) }
    {
        match &self.node {
            Node::Leaf => true,
            Node::Fork(fork) => fork.left.is_empty() && fork.right.is_empty(),
        }
    }

    // Whether there are no items.
    #[inline(always)]
    fn is_empty(&self) -> bool
        ensures { IsTrue result ↔ (length self.now ≡ 0) }
    {
        matches!(self.node, Node::Leaf)
    }

    // Which side of a name all items stand on, the left one where there are none; `Equal` where
    // they stand on both, or one has it.
    #[inline(always)]
    fn side(&self, id: &Name) -> Ordering
        requires { IsInOrder self.now }
        ensures { Stand result id.now self.now }
    {
        let Node::Fork(fork) = &self.node else {
            return Ordering::Less;
        };
        match fork.id.compare(id) {
            Ordering::Less => {
                if fork.right.is_before(id) {
                    return Ordering::Less;
                }
            }
            Ordering::Equal => {}
            Ordering::Greater => {
                if fork.left.is_after(id) {
                    return Ordering::Greater;
                }
            }
        }
        Ordering::Equal
    }

    // Whether all items come before a name.
    fn is_before(&self, id: &Name) -> bool
        requires { IsInOrder self.now }
        ensures { IsTrue result → AreBefore id.now self.now }
    {
        match &self.node {
            Node::Leaf => true,
            Node::Fork(fork) => match fork.id.compare(id) {
                Ordering::Less => fork.right.is_before(id),
                Ordering::Equal | Ordering::Greater => false,
            },
        }
    }

    // Whether all items come after a name.
    fn is_after(&self, id: &Name) -> bool
        requires { IsInOrder self.now }
        ensures { IsTrue result → AreAfter id.now self.now }
    {
        match &self.node {
            Node::Leaf => true,
            Node::Fork(fork) => match fork.id.compare(id) {
                Ordering::Greater => fork.left.is_after(id),
                Ordering::Equal | Ordering::Less => false,
            },
        }
    }

    // Parts the items by where they stand to a name.
    fn part(self, id: &Name) -> Parted<V>
        requires { IsInOrder self }
        ensures { Parts id.now self result.before (entry_in result.same) result.after }
    {
        match self.node {
            Node::Leaf => Parted {
                before: Tree::new(),
                same: None,
                after: Tree::new(),
            },
            Node::Fork(mut fork) => {
                let left = mem::replace(&mut fork.left, Tree::new());
                let right = mem::replace(&mut fork.right, Tree::new());
                match fork.id.compare(id) {
                    Ordering::Less => {
                        let Parted {
                            before,
                            same,
                            after,
                        } = right.part(id);
                        Parted {
                            before: between(left, fork, before),
                            same,
                            after,
                        }
                    }
                    Ordering::Equal => Parted {
                        before: left,
                        same: Some(fork),
                        after: right,
                    },
                    Ordering::Greater => {
                        let Parted {
                            before,
                            same,
                            after,
                        } = left.part(id);
                        Parted {
                            before,
                            same,
                            after: between(after, fork, right),
                        }
                    }
                }
            }
        }
    }
}

impl<V: Drop> Fork<V> {
    // Has the item of a node of its name, where there is one, in place of its own. The node comes
    // to the spare ones then, with the item that went.
    fn take_item(&mut self, same: Option<Box<Fork<V>>>, spare: &mut Tree<V>)
        requires { AreAt self.old.id (entry_in same) }
        ensures item { self.new ≡ with_item self.old (item_or same self.old.item) }
        ensures kept { (scale : ScaleOf V)
            → scale self.old.id (item_or same self.old.item) + weighed scale spare.new
            ≡ scale self.old.id self.old.item + weighed scale (entry_in same)
            + weighed scale spare.old }
    {
        if let Some(node) = same {
            let back = self.exchange(node);
            set_aside(Some(back), spare);
        }
    }
}

// The items of both, with a node's item between them.
fn between<V: Drop>(left: Tree<V>, mut node: Box<Fork<V>>, right: Tree<V>) -> Tree<V>
    ensures { result ≡ left ++ (node.value.id, node.value.item) ∷ right }
{
    node.left = left;
    node.right = right;
    let mut tree = Tree {
        node: Node::Fork(node),
    };
    tree.even();
    tree
}

// Puts a node, where there is one, before those that are spare.
fn set_aside<V: Drop>(node: Option<Box<Fork<V>>>, spare: &mut Tree<V>)
    ensures { spare.new ≡ entry_in node ++ spare.old }
{
    if let Some(node) = node {
        let rest = mem::replace(spare, Tree::new());
        *spare = beside(node, rest);
    }
}

// A node's item before the others. Its side isn't evened: these nodes are only let go, one after
// the other from the first.
fn beside<V: Drop>(mut node: Box<Fork<V>>, rest: Tree<V>) -> Tree<V>
    ensures { result ≡ (node.value.id, node.value.item) ∷ rest }
{
    node.left = Tree::new();
    node.right = rest;
    Tree {
        node: Node::Fork(node),
    }
}

/// Lets spare nodes go, one after the other: they may stand in a row, so that to drop the tree
/// would take a call for each within that of the one before.
pub fn let_go<V: Drop, S: Scale<V>>(mut spare: Tree<V>, scale: &S) -> Spent
    ensures count { result.count ≡ min (length spare) usize.MAX }
    ensures weight { result.weight ≡ min (weighed (S.weight scale.now) spare) usize.MAX }
{
    let mut spent = Spent {
        count: 0,
        weight: 0,
    };
    'nodes: while let Some(node) = spare.take_first() {
        spent.count = spent.count.saturating_add(1);
        spent.weight = spent.weight.saturating_add(node.weigh(scale));
    }
    spent
}
