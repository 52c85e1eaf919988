//! What becomes of the objects of collections, by their types.

ghost use Rattle.std.specs.Prelude.{◌≡◌, ◌↔◌, IsTrue, min, OnOk, OnErr, IfOk};
ghost use Rattle.std.specs.Option.{option_copied};
ghost use Rattle.std.specs.FinMap as map;
ghost use Rattle.feed_tables.specs.Map.{TakesThePlace, map_over, map_less};
ghost use Rattle.feed_tables.specs.ChangedIds.{sets_in, SetsIn, with_all_ids};
ghost use Rattle.feed_tables.specs.Walks.{weighed_in};

use crate::ids::Ids;
use crate::map::Map;
use crate::scale::Scale;
use crate::table::Table;
use crate::tables::Tables;
use crate::tree::Fork;
use crate::tree::walks::weight_in;
use feed_changes::{Key, Name};
use feed_text::ObjectText;
use std::alloc::{AllocError, Global};
use std::cmp::Ordering;
use std::marker::Model;
use std::mem;

/// What becomes of the objects of collections, by their types. It is mostly that of one type, as
/// where a feed has a token on each line: the first type takes no memory.
#[derive(Drop)]
pub struct IdsByType {
    types: Types,
}

#[derive(Drop)]
enum Types {
    Alone(Name, Ids),
    Several(Map<Ids>),
}

impl Model for IdsByType {
    ghost use Rattle.std.specs.FinMap as map;
    ghost use Rattle.feed_tables.specs.Bytes.{byte_order};
    ghost use Rattle.feed_tables.specs.ChangedIds.{ids_by_type};
    ghost use Rattle.feed_tables.specs.IdsCode.{ids_code};
    ghost use Rattle.feed_tables.specs.declared.ids.Ids.{Ids};

    ghost Value = { map.FinMap byte_order Ids };

    ghost coded = { ids_code };

    ghost view = { λ a. ids_by_type a.types };
}

impl IdsByType {
    /// Nothing becomes of any object.
    pub fn new() -> IdsByType
        ensures { result ≡ map.empty }
    {
        IdsByType {
            types: Types::Several(Map::new()),
        }
    }

    /// What becomes of the objects of a type.
    pub fn get(&self, kind: &Key<'_>) -> Option<&Ids>
        ensures { option_copied result ≡ map.get self.now kind.now }
    {
        match &self.types {
            Types::Alone(first, ids) => match kind.compare(first) {
                Ordering::Equal => Some(ids),
                Ordering::Less | Ordering::Greater => None,
            },
            Types::Several(types) => types.get(kind),
        }
    }

    /// Exchanges what becomes of a type's objects, and answers whether anything does.
    pub fn swap(&mut self, kind: &Key<'_>, ids: &mut Ids) -> bool
        ensures { TakesThePlace kind.now self.old self.new ids.old ids.new result }
    {
        match &mut self.types {
            Types::Alone(first, held) => match kind.compare(first) {
                Ordering::Equal => {
                    mem::swap(held, ids);
                    true
                }
                Ordering::Less | Ordering::Greater => false,
            },
            Types::Several(types) => types.swap(kind, ids),
        }
    }

    /// Nothing becomes of the objects of a type any more.
    pub fn remove(&mut self, kind: &Key<'_>)
        ensures { self.new ≡ map.remove self.old kind.now }
    {
        match &mut self.types {
            Types::Alone(first, _) => {
                if let Ordering::Equal = kind.compare(first) {
                    *self = IdsByType::new();
                }
            }
            Types::Several(types) => types.remove(kind),
        }
    }

    /// Puts a node's object under its id among those of a type. Where nothing becomes of the type's
    /// objects, the node comes back.
    pub fn set_in(
        &mut self,
        kind: &Key<'_>,
        node: Box<Fork<ObjectText>>,
    ) -> Option<Box<Fork<ObjectText>>>
        ensures set { SetsIn kind.now self.old self.new node.value.id node.value.item result }
    {
        match &mut self.types {
            Types::Alone(first, ids) => match kind.compare(first) {
                Ordering::Equal => {
                    ids.set(node);
                    None
                }
                Ordering::Less | Ordering::Greater => Some(node),
            },
            Types::Several(types) => types.set_in(kind, node),
        }
    }

    /// Has this become of the objects of a type. Out of memory, nothing changes.
    pub fn insert(&mut self, alloc: Global, kind: &Name, ids: Ids) -> Result<(), AllocError>
        ensures ok { OnOk result (self.new ≡ map.insert self.old kind.now ids) }
        ensures err { OnErr result (self.new ≡ self.old) }
    {
        match &mut self.types {
            Types::Alone(first, held) => {
                let types = both(alloc, first, held, kind, ids)?;
                self.types = Types::Several(types);
            }
            Types::Several(types) => {
                if types.count() == 0 {
                    self.types = Types::Alone(kind.copy()?, ids);
                } else {
                    types.insert(Fork::of(alloc, kind, ids)?);
                }
            }
        }
        Ok(())
    }

    /// How much the types weigh by what is held under them, where some tables are taken away and
    /// then some put in; or `usize::MAX` where it is more.
    pub fn weigh_in<S: Scale<Table>>(
        &self,
        tables: &Map<Table>,
        gone: &Map<()>,
        held: &Map<Table>,
        scale: &S,
    ) -> usize
        ensures { result ≡ min (weighed_in (S.weight scale.now)
            (map_over tables.now (map_less gone.now held.now)) (map.entries self.now)) usize.MAX }
    {
        match &self.types {
            Types::Alone(kind, _) => weight_in(tables, gone, held, &kind.key(), scale),
            Types::Several(types) => types.weigh_in(tables, gone, held, scale),
        }
    }

    /// How many objects are put in, or `usize::MAX` where they are more.
    pub fn count_sets(&self) -> usize
        ensures { result ≡ min (sets_in (map.entries self.now)) usize.MAX }
    {
        match &self.types {
            Types::Alone(_, ids) => ids.count_sets(),
            Types::Several(types) => types.count_sets(),
        }
    }

    /// Changes the objects of collections.
    pub fn put(self, tables: &mut Tables)
        ensures { tables.new.contents ≡ with_all_ids self tables.old.contents }
    {
        match self.types {
            Types::Alone(kind, ids) => tables.change(&kind.key(), ids),
            Types::Several(types) => change_all(types, tables),
        }
    }
}

// What becomes of the objects of two types. That of the first is taken, but out of memory it stays.
fn both(
    alloc: Global,
    first: &Name,
    held: &mut Ids,
    kind: &Name,
    ids: Ids,
) -> Result<Map<Ids>, AllocError>
    ensures ok { IfOk result
        (λ types. types ≡ map.insert (map.insert map.empty first.now held.old) kind.now ids) }
    ensures err { OnErr result (held.new ≡ held.old) }
{
    let last = Fork::of(alloc, kind, ids)?;
    let mut node = Fork::of(alloc, first, Ids::new())?;
    node.set_item(mem::replace(held, Ids::new()));
    let mut types = Map::new();
    types.insert(node);
    types.insert(last);
    Ok(types)
}

// Changes the objects of collections, one type after the other.
fn change_all(mut types: Map<Ids>, tables: &mut Tables)
    ensures { tables.new.contents ≡ with_all_ids types tables.old.contents }
{
    'types: while let Some(node) = types.take_first() {
        let (kind, ids) = node.into_parts();
        tables.change(&kind.key(), ids);
    }
}
