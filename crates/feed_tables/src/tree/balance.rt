//! Trees whose sides are about alike high (Adelson-Velsky and Landis).

ghost use Rattle.std.specs.Prelude.{◌≡◌};
ghost use Rattle.feed_tables.specs.Tree.{parts, came};

use crate::tree::{Fork, Node, Tree};
use std::mem;

/// What came of a node that was put into a tree.
#[derive(Clone, Copy)]
pub(super) enum Growth {
    /// Its item took the place of another.
    Same,
    /// There is one item more, and the tree is as high as before.
    Wider,
    /// There is one item more, and the tree is higher.
    Higher,
}

impl Growth {
    // How many items more there are.
    #[inline(always)]
    pub(super) fn added(self) -> usize
        ensures { result ≡ came self }
    {
        match self {
            Growth::Same => 0,
            Growth::Wider | Growth::Higher => 1,
        }
    }
}

impl<V: Drop> Tree<V> {
    // Evens the sides after the left one became higher, by however much. Where that is still lower
    // than the root was, the other one isn't looked at.
    #[inline(always)]
    pub(super) fn even_left(&mut self)
        ensures { self.new ≡ self.old }
    {
        if let Node::Fork(fork) = &self.node
            && fork.left.height() >= fork.height
        {
            self.even();
        }
    }

    // The same after the right one did.
    #[inline(always)]
    pub(super) fn even_right(&mut self)
        ensures { self.new ≡ self.old }
    {
        if let Node::Fork(fork) = &self.node
            && fork.right.height() >= fork.height
        {
            self.even();
        }
    }

    // Evens the sides, however much higher one of them is. Where it is by more than two, its root
    // comes to the top, and the old root goes down on the lower side, less uneven than before.
    pub(super) fn even(&mut self)
        ensures { self.new ≡ self.old }
    {
        let Node::Fork(fork) = &mut self.node else {
            return;
        };
        let (left, right) = (fork.left.height(), fork.right.height());
        if left.abs_diff(right) <= 1 {
            fork.rise();
            return;
        }
        if left > right.saturating_add(2) {
            turn_right(fork);
            fork.right.even();
        } else if right > left.saturating_add(2) {
            turn_left(fork);
            fork.left.even();
        }
        settle(fork);
    }

    // Turns the root to the left.
    fn turn_left(&mut self)
        ensures { self.new ≡ self.old }
    {
        if let Node::Fork(fork) = &mut self.node {
            turn_left(fork);
        }
    }

    // Turns the root to the right.
    fn turn_right(&mut self)
        ensures { self.new ≡ self.old }
    {
        if let Node::Fork(fork) = &mut self.node {
            turn_right(fork);
        }
    }

    // How many nodes stand above each other at most.
    #[inline(always)]
    pub(super) fn height(&self) -> usize {
        match &self.node {
            Node::Leaf => 0,
            Node::Fork(fork) => fork.height,
        }
    }

    // Whether the right side is the higher one, so that it would be too high next to what a turn
    // puts beside it.
    fn leans_right(&self) -> bool {
        match &self.node {
            Node::Leaf => false,
            Node::Fork(fork) => fork.right.height() > fork.left.height(),
        }
    }

    // Whether the left side is.
    fn leans_left(&self) -> bool {
        match &self.node {
            Node::Leaf => false,
            Node::Fork(fork) => fork.left.height() > fork.right.height(),
        }
    }
}

impl<V: Drop> Fork<V> {
    // Measures the height.
    #[inline(always)]
    fn rise(&mut self)
        ensures { parts self.new ≡ parts self.old }
    {
        let (left, right) = (self.left.height(), self.right.height());
        let high = if left < right { right } else { left };
        self.height = high.saturating_add(1);
    }
}

// Measures the height, and evens the sides.
pub(super) fn settle<V: Drop>(fork: &mut Box<Fork<V>>)
    ensures { parts fork.new.value ≡ parts fork.old.value }
{
    fork.rise();
    lower_left(fork);
    lower_right(fork);
}

// Evens the sides where the left one is lower now than this height, which it had.
#[inline(always)]
pub(super) fn settle_left<V: Drop>(fork: &mut Box<Fork<V>>, height: usize)
    ensures { parts fork.new.value ≡ parts fork.old.value }
{
    if fork.left.height() < height {
        settle(fork);
    }
}

// The same of the right side.
#[inline(always)]
pub(super) fn settle_right<V: Drop>(fork: &mut Box<Fork<V>>, height: usize)
    ensures { parts fork.new.value ≡ parts fork.old.value }
{
    if fork.right.height() < height {
        settle(fork);
    }
}

// Evens the sides where the left one became higher, and answers what came of it for the fork.
#[inline(always)]
pub(super) fn grow_left<V: Drop>(fork: &mut Box<Fork<V>>, growth: Growth) -> Growth
    ensures items { parts fork.new.value ≡ parts fork.old.value }
    ensures came { came result ≡ came growth }
{
    if let Growth::Higher = growth {
        return rise_left(fork);
    }
    growth
}

// The same of the right side.
#[inline(always)]
pub(super) fn grow_right<V: Drop>(fork: &mut Box<Fork<V>>, growth: Growth) -> Growth
    ensures items { parts fork.new.value ≡ parts fork.old.value }
    ensures came { came result ≡ came growth }
{
    if let Growth::Higher = growth {
        return rise_right(fork);
    }
    growth
}

// Evens the sides after the left one became higher. Where that is still lower than the fork was,
// the other one isn't looked at.
fn rise_left<V: Drop>(fork: &mut Box<Fork<V>>) -> Growth
    ensures items { parts fork.new.value ≡ parts fork.old.value }
    ensures came { came result ≡ 1 }
{
    let height = fork.height;
    if fork.left.height() < height {
        return Growth::Wider;
    }
    fork.rise();
    lower_left(fork);
    risen(height, fork.height)
}

// The same after the right one did.
fn rise_right<V: Drop>(fork: &mut Box<Fork<V>>) -> Growth
    ensures items { parts fork.new.value ≡ parts fork.old.value }
    ensures came { came result ≡ 1 }
{
    let height = fork.height;
    if fork.right.height() < height {
        return Growth::Wider;
    }
    fork.rise();
    lower_right(fork);
    risen(height, fork.height)
}

// What came of an item more, by the heights before and after.
#[inline(always)]
fn risen(before: usize, after: usize) -> Growth
    ensures { came result ≡ 1 }
{
    if before < after {
        return Growth::Higher;
    }
    Growth::Wider
}

// Moves items to the right side where the left one is too high.
fn lower_left<V: Drop>(fork: &mut Box<Fork<V>>)
    ensures { parts fork.new.value ≡ parts fork.old.value }
{
    if is_too_high(fork.left.height(), fork.right.height()) {
        if fork.left.leans_right() {
            fork.left.turn_left();
        }
        turn_right(fork);
    }
}

// Moves items to the left side where the right one is too high.
fn lower_right<V: Drop>(fork: &mut Box<Fork<V>>)
    ensures { parts fork.new.value ≡ parts fork.old.value }
{
    if is_too_high(fork.right.height(), fork.left.height()) {
        if fork.right.leans_left() {
            fork.right.turn_right();
        }
        turn_left(fork);
    }
}

// The root of the left side comes to the top.
fn turn_right<V: Drop>(top: &mut Box<Fork<V>>)
    ensures { parts top.new.value ≡ parts top.old.value }
{
    let Node::Fork(mut low) = mem::replace(&mut top.left.node, Node::Leaf) else {
        return;
    };
    mem::swap(&mut top.left, &mut low.right);
    top.rise();
    mem::swap(top, &mut low);
    top.right.node = Node::Fork(low);
    top.rise();
}

// The root of the right side comes to the top.
fn turn_left<V: Drop>(top: &mut Box<Fork<V>>)
    ensures { parts top.new.value ≡ parts top.old.value }
{
    let Node::Fork(mut low) = mem::replace(&mut top.right.node, Node::Leaf) else {
        return;
    };
    mem::swap(&mut top.right, &mut low.left);
    top.rise();
    mem::swap(top, &mut low);
    top.left.node = Node::Fork(low);
    top.rise();
}

// Whether a side stands out over the other by more than one.
#[inline(always)]
fn is_too_high(side: usize, other: usize) -> bool {
    side > other.saturating_add(1)
}
