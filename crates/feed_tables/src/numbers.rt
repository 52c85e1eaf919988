//! Numbers by name.

ghost use Rattle.std.specs.Prelude.{◌≡◌, ◌<◌, IfOk, option_map};
ghost use Rattle.std.specs.FinMap as map;
ghost use Rattle.feed_tables.specs.Numbers.{decimal as decimal_in, mixed as mixed_in, stirred as stirred_in, part_of as part_by};

use crate::map::Map;
use crate::tree::Fork;
use feed_changes::{Key, Name};
use std::alloc::{AllocError, Global};
use std::marker::Model;

/// For how many names there is a part each, at most.
const MOST_PARTS: usize = 1 << 40;

/// Mixes bits upwards: an odd number whose bits stand in no pattern.
const MIXER: u64 = 0x9E37_79B9_7F4A_7C15;

/// A number for each of some names. One is found in time by the logarithm of how many they are,
/// whatever the names. Once they are made, only a slot takes memory.
#[derive(Drop)]
pub struct Numbers {
    // At least one. Which of them has a name is seen from its bytes. Names that are counted up, as
    // tokens mostly are, come into all parts, and each of them is looked for in a low tree.
    parts: Vec<Map<usize>>,
}

/// The memory that a name takes among numbers.
#[derive(Drop)]
pub struct Slot {
    node: Box<Fork<usize>>,
}

impl Model for Numbers {
    ghost use Rattle.std.specs.Prelude.{ℕ};
    ghost use Rattle.std.specs.Coded.{coded_ℕ, coded_list};
    ghost use Rattle.std.specs.FinMap as map;
    ghost use Rattle.feed_tables.specs.Bytes.{byte_order};
    ghost use Rattle.feed_tables.specs.Numbers.{joined, AreParts};

    ghost Value = { map.FinMap byte_order ℕ };

    ghost coded = { map.code (coded_list coded_ℕ) coded_ℕ };

    ghost view = { λ a. joined a.parts.items };

    ghost invariant = { λ a. AreParts a.parts.items };
}

impl Model for Slot {
    ghost use Rattle.std.specs.Prelude.{List, ℕ};

    ghost Value = { List ℕ };

    ghost view = { λ a. a.node.value.id };
}

/// The part of a name among so many, by its last eight bytes and those before them. Nothing is
/// divided for it: where the parts are a power of two, names come to all of them.
fn part_of(name: &str, parts: usize) -> usize
    requires some { 0 < parts }
    ensures part { result ≡ part_by parts name.now }
    ensures bound { result < parts }
{
    let bytes = name.as_bytes();
    let (start, end) = bytes.split_at(bytes.len().saturating_sub(8));
    decimal(end).wrapping_add(mixed(start) as usize) & (parts - 1)
}

/// A number with eight bytes more mixed in.
#[inline(always)]
fn stirred(number: u64, word: &[u8; 8]) -> u64
    ensures { result ≡ stirred_in number word.now }
{
    let mixed = (number ^ u64::from_be_bytes(*word)).wrapping_mul(MIXER);
    mixed ^ (mixed >> 32)
}

/// The bytes of a text as a number, eight at a time. What is left of fewer doesn't count.
fn mixed(text: &[u8]) -> u64
    ensures { result ≡ mixed_in 0 text.now }
{
    let mut number: u64 = 0;
    let mut rest = text;
    'words: while let Some((word, more)) = rest.split_first_chunk::<8>() {
        number = stirred(number, word);
        rest = more;
    }
    number
}

/// Bytes as the digits of a decimal number.
fn decimal(bytes: &[u8]) -> usize
    ensures { result ≡ decimal_in 0 bytes.now }
{
    let mut number: usize = 0;
    for byte in bytes {
        number = number.wrapping_mul(10).wrapping_add(*byte as usize);
    }
    number
}

/// How many parts there are for so many names: a power of two.
fn parts_for(names: usize) -> usize
    ensures { 0 < result }
{
    names.max(1).min(MOST_PARTS).next_power_of_two()
}

impl Slot {
    /// The memory for this name.
    pub fn new(alloc: Global, name: Name) -> Result<Slot, AllocError>
        ensures { IfOk result (λ slot. slot ≡ name) }
    {
        let node = Fork::new(alloc, name, 0)?;
        Ok(Slot { node })
    }

    /// The same memory, for this name.
    pub fn again(self, name: Name) -> Slot
        ensures { result ≡ name }
    {
        let mut node = self.node;
        node.set_id(name);
        Slot { node }
    }
}

// The slot of a node, where there is one.
fn slot_of(node: Option<Box<Fork<usize>>>) -> Option<Slot>
    ensures { result ≡ option_map (λ node. node.value.id) node }
{
    match node {
        Some(node) => Some(Slot { node }),
        None => None,
    }
}

impl Numbers {
    /// No name has a number. About so many are expected to have one at once: of more, each is found
    /// in more time.
    pub fn new(alloc: Global, names: usize) -> Result<Numbers, AllocError>
        ensures { IfOk result (λ numbers. numbers ≡ map.empty) }
    {
        let mut parts = Vec::new(alloc);
        parts.resize_with(
            parts_for(names),
            || -> Map<usize>
                ensures { result ≡ map.empty }
            { Map::new() },
        )?;
        Ok(Numbers { parts })
    }

    /// No name has a number any more.
    pub fn clear(&mut self)
        ensures { self.new ≡ map.empty }
    {
        self.parts.as_mut_slice().fill_with(
            || -> Map<usize>
                ensures { result ≡ map.empty }
            { Map::new() },
        );
    }

    /// The number of a name.
    pub fn number_of(&self, name: &Name) -> Option<usize>
        ensures { result ≡ map.get self.now name.now }
    {
        let part = part_of(name.text(), self.parts.len());
        self.parts[part].get(&name.key()).copied()
    }

    /// The number of the name of this text.
    pub fn get(&self, name: &str) -> Option<usize>
        ensures { result ≡ map.get self.now name.now }
    {
        let part = part_of(name, self.parts.len());
        self.parts[part].get(&Key::of(name)).copied()
    }

    /// Gives the slot's name this number, in the place of the one that it has.
    pub fn insert(&mut self, slot: Slot, number: usize)
        ensures { self.new ≡ map.insert self.old slot number }
    {
        let mut node = slot.node;
        node.set_item(number);
        let part = part_of(node.name(), self.parts.len());
        self.parts[part].insert(node);
    }

    /// Takes the number of this name away, where it has one, and answers the slot that it had.
    pub fn remove(&mut self, name: &str) -> Option<Slot>
        ensures numbers { self.new ≡ map.remove self.old name.now }
        ensures slot { result ≡ option_map (λ _. name.now) (map.get self.old name.now) }
    {
        let part = part_of(name, self.parts.len());
        slot_of(self.parts[part].take(&Key::of(name)))
    }

    /// The same of a name.
    pub fn take(&mut self, name: &Name) -> Option<Slot>
        ensures numbers { self.new ≡ map.remove self.old name.now }
        ensures slot { result ≡ option_map (λ _. name.now) (map.get self.old name.now) }
    {
        let part = part_of(name.text(), self.parts.len());
        slot_of(self.parts[part].take(&name.key()))
    }
}
