//! Items by name: a search tree whose nodes have one owner. Only a new node takes memory; putting a
//! node or all of another tree in, and taking one away, take none.

ghost use Rattle.std.specs.Prelude.{◌≡◌, ℕ, ◌+◌, ◌≤◌, ◌∷◌, ◌++◌, [], true, false, fold, length, min, IfOk, IfSome, IsNone, Some, None, IsTrue, ◌↔◌};
ghost use Rattle.std.specs.Option.{option_copied};
ghost use Rattle.std.specs.FinMap.{put, find};
ghost use Rattle.feed_tables.specs.Bytes.{byte_order, IsInOrder, without};
ghost use Rattle.feed_tables.specs.Tree.{parts, came, with_id, with_item, Swaps, FirstTaken, handed, named, without_all};
ghost use Rattle.feed_tables.specs.Unions.{entry_in};
ghost use Rattle.feed_tables.specs.Walks.{weighed};

use crate::map::Map;
use crate::scale::Scale;
use crate::tree::balance::{Growth, grow_left, grow_right, settle, settle_left, settle_right};
use feed_changes::{Key, Name};
use std::alloc::{AllocError, Global};
use std::cmp::Ordering;
use std::marker::Model;
use std::mem;

mod balance;
pub mod union;
pub mod walks;

#[cycle(owned_tree)]
#[derive(Drop)]
pub struct Tree<V> {
    node: Node<V>,
}

#[cycle(owned_tree)]
#[derive(Drop)]
enum Node<V> {
    Leaf,
    Fork(Box<Fork<V>>),
}

/// A name with its item, and what comes before and after it.
#[cycle(owned_tree)]
#[derive(Drop)]
pub struct Fork<V> {
    // What a search reads on its way stands first.
    left: Tree<V>,
    right: Tree<V>,
    // How many nodes stand above each other at most. Nothing but the balance rests on it.
    height: usize,
    id: Name,
    item: V,
}

impl<V> Model for Tree<V> {
    ghost use Rattle.std.specs.Prelude.{List, ℕ, length};
    ghost use Rattle.std.specs.Coded.{coded_ℕ, coded_list, coded×};

    ghost Value = { List (List ℕ × V) };

    ghost coded = { coded_list (coded× (coded_list coded_ℕ) V.code) };

    ghost use Rattle.feed_tables.specs.Tree.{entries_of};

    ghost view = { λ a. entries_of a.node };

    ghost size = { length };

    ghost use Rattle.feed_tables.specs.TreeFalls.{depth_le-length};

    ghost size_decreases = { λ a h. depth_le-length a.node };
}

impl<V: Drop> Tree<V> {
    pub fn new() -> Tree<V>
        ensures { result ≡ [] }
    {
        Tree { node: Node::Leaf }
    }

    /// The item of a name.
    pub fn get(&self, id: &Key<'_>) -> Option<&V>
        requires { IsInOrder self.now }
        ensures { option_copied result ≡ find byte_order id.now self.now }
    {
        let mut tree = self;
        'nodes: while let Node::Fork(fork) = &tree.node {
            match id.compare(&fork.id) {
                Ordering::Less => tree = &fork.left,
                Ordering::Equal => return Some(&fork.item),
                Ordering::Greater => tree = &fork.right,
            }
        }
        None
    }

    /// Exchanges the item of a name with this one, and answers whether there is one.
    pub fn swap(&mut self, id: &Key<'_>, item: &mut V) -> bool
        requires { IsInOrder self.old }
        ensures swapped { Swaps id.now self.old self.new item.old item.new result }
    {
        let Node::Fork(fork) = &mut self.node else {
            return false;
        };
        match id.compare(&fork.id) {
            Ordering::Less => return fork.left.swap(id, item),
            Ordering::Greater => return fork.right.swap(id, item),
            Ordering::Equal => {}
        }
        mem::swap(&mut fork.item, item);
        true
    }

    /// Puts a node's item under its name, in the place of the one that is there, and answers how
    /// many items more there are: one, or none. Where it took a place, the node comes back with the
    /// item that went. It takes no memory, and what stands before and after the node is let go.
    pub fn insert(&mut self, node: Box<Fork<V>>, back: &mut Option<Box<Fork<V>>>) -> usize
        requires order { IsInOrder self.old }
        requires none { back.old ≡ None }
        ensures put { self.new ≡ put byte_order node.value.id node.value.item self.old }
        ensures added { length self.new ≡ length self.old + result }
        ensures back { handed back.new
            ≡ named node.value.id (find byte_order node.value.id self.old) }
    {
        self.grow(node, back).added()
    }

    // The same, and answers what came of it.
    fn grow(&mut self, node: Box<Fork<V>>, back: &mut Option<Box<Fork<V>>>) -> Growth
        requires order { IsInOrder self.old }
        requires none { back.old ≡ None }
        ensures put { self.new ≡ put byte_order node.value.id node.value.item self.old }
        ensures added { length self.new ≡ length self.old + came result }
        ensures back { handed back.new
            ≡ named node.value.id (find byte_order node.value.id self.old) }
    {
        match &mut self.node {
            Node::Leaf => {
                *self = single(node);
                Growth::Higher
            }
            Node::Fork(fork) => match node.id.compare(&fork.id) {
                Ordering::Less => {
                    let growth = fork.left.grow(node, back);
                    grow_left(fork, growth)
                }
                Ordering::Equal => {
                    *back = Some(fork.exchange(node));
                    Growth::Same
                }
                Ordering::Greater => {
                    let growth = fork.right.grow(node, back);
                    grow_right(fork, growth)
                }
            },
        }
    }

    /// Takes the node of this name out, where there is one. It stands alone then.
    pub fn take(&mut self, id: &Key<'_>) -> Option<Box<Fork<V>>>
        requires { IsInOrder self.old }
        ensures left { self.new ≡ without id.now self.old }
        ensures gone { handed result ≡ named id.now (find byte_order id.now self.old) }
        ensures count { length self.old ≡ length self.new + length (entry_in result) }
    {
        match &mut self.node {
            Node::Leaf => None,
            Node::Fork(fork) => match id.compare(&fork.id) {
                Ordering::Less => {
                    let height = fork.left.height();
                    let gone = fork.left.take(id);
                    settle_left(fork, height);
                    gone
                }
                Ordering::Equal => {
                    let left = mem::replace(&mut fork.left, Tree::new());
                    let right = mem::replace(&mut fork.right, Tree::new());
                    let root = mem::replace(self, joined(left, right));
                    root.into_node()
                }
                Ordering::Greater => {
                    let height = fork.right.height();
                    let gone = fork.right.take(id);
                    settle_right(fork, height);
                    gone
                }
            },
        }
    }

    /// The one node, where there is one.
    #[inline(always)]
    pub fn into_node(self) -> Option<Box<Fork<V>>>
        requires { length self ≤ 1 }
        ensures { entry_in result ≡ self }
    {
        match self.node {
            Node::Leaf => None,
            Node::Fork(node) => Some(node),
        }
    }

    /// Takes the first node out.
    pub fn take_first(&mut self) -> Option<Box<Fork<V>>>
        ensures { FirstTaken self.old self.new result }
    {
        match mem::replace(&mut self.node, Node::Leaf) {
            Node::Leaf => None,
            Node::Fork(mut fork) => {
                let height = fork.left.height();
                match fork.left.take_first() {
                    None => {
                        *self = mem::replace(&mut fork.right, Tree::new());
                        Some(fork)
                    }
                    Some(first) => {
                        settle_left(&mut fork, height);
                        self.node = Node::Fork(fork);
                        Some(first)
                    }
                }
            }
        }
    }

    /// Takes the items of these names out of a map.
    pub fn take_from<W: Drop>(self, other: &mut Map<W>)
        ensures { other.new ≡ without_all self other.old }
    {
        match self.node {
            Node::Leaf => {}
            Node::Fork(mut fork) => {
                let left = mem::replace(&mut fork.left, Tree::new());
                let right = mem::replace(&mut fork.right, Tree::new());
                left.take_from(other);
                other.remove(&fork.id.key());
                right.take_from(other);
            }
        }
    }
}

impl<V: Drop> Fork<V> {
    /// A node of its own.
    pub fn new(alloc: Global, id: Name, item: V) -> Result<Box<Fork<V>>, AllocError>
        ensures { IfOk result (λ node. (node.value.id ≡ id) × (node.value.item ≡ item)) }
    {
        let node = Box::new(
            alloc,
            Fork {
                left: Tree::new(),
                id,
                item,
                height: 1,
                right: Tree::new(),
            },
        )?;
        Ok(node)
    }

    /// A node of its own, of a copy of this name.
    pub fn of(alloc: Global, id: &Name, item: V) -> Result<Box<Fork<V>>, AllocError>
        ensures { IfOk result (λ node. (node.value.id ≡ id.now) × (node.value.item ≡ item)) }
    {
        let id = id.copy()?;
        Fork::new(alloc, id, item)
    }

    /// Its name.
    pub fn name(&self) -> &str
        ensures { result.now ≡ self.now.id }
    {
        self.id.text()
    }

    /// Its name and its item.
    pub fn into_parts(self: Box<Fork<V>>) -> (Name, V)
        ensures { result ≡ (self.value.id, self.value.item) }
    {
        let Fork { id, item, .. } = Box::into_inner(self);
        (id, item)
    }

    /// Has this name in place of its own.
    pub fn set_id(&mut self, id: Name)
        ensures { self.new ≡ with_id self.old id }
    {
        self.id = id;
    }

    /// Has this item in place of its own.
    pub fn set_item(&mut self, item: V)
        ensures { self.new ≡ with_item self.old item }
    {
        self.item = item;
    }

    // Has the item of another node in place of its own, and the node has its own then.
    fn exchange(&mut self, mut node: Box<Fork<V>>) -> Box<Fork<V>>
        ensures item { self.new ≡ with_item self.old node.value.item }
        ensures name { result.value.id ≡ node.value.id }
        ensures back { result.value.item ≡ self.old.item }
    {
        mem::swap(&mut self.item, &mut node.item);
        node
    }

    /// How much its item weighs under its name, or `usize::MAX` where it is more.
    pub fn weigh<S: Scale<V>>(&self, scale: &S) -> usize
        ensures { result ≡ min (S.weight scale.now self.now.id self.now.item) usize.MAX }
    {
        scale.weigh(&self.id.key(), &self.item)
    }
}

/// How many nodes these are: one, or none.
#[inline(always)]
pub fn count_node<V: Drop>(node: &Option<Box<Fork<V>>>) -> usize
    ensures { result ≡ length (entry_in node.now) }
{
    match node {
        Some(_) => 1,
        None => 0,
    }
}

/// How much the item of a node weighs, where there is one, or `usize::MAX` where it is more.
#[inline(always)]
pub fn weigh_node<V: Drop, S: Scale<V>>(node: &Option<Box<Fork<V>>>, scale: &S) -> usize
    ensures { result ≡ min (weighed (S.weight scale.now) (entry_in node.now)) usize.MAX }
{
    match node {
        Some(node) => node.weigh(scale),
        None => 0,
    }
}

// The tree of this node alone.
fn single<V: Drop>(mut node: Box<Fork<V>>) -> Tree<V>
    ensures { result ≡ (node.value.id, node.value.item) ∷ [] }
{
    node.left = Tree::new();
    node.right = Tree::new();
    node.height = 1;
    Tree {
        node: Node::Fork(node),
    }
}

// The items of both, the left ones first.
fn joined<V: Drop>(left: Tree<V>, mut right: Tree<V>) -> Tree<V>
    ensures { result ≡ left ++ right }
{
    match right.take_first() {
        None => left,
        Some(mut node) => {
            node.left = left;
            node.right = right;
            settle(&mut node);
            Tree {
                node: Node::Fork(node),
            }
        }
    }
}
