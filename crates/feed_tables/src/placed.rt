//! An object that is about to be put in a collection.

ghost use Rattle.std.specs.Prelude.{◌≡◌, IfOk, IfSome, Some};
ghost use Rattle.feed_changes.specs.Changes.{type_of};
ghost use Rattle.feed_tables.specs.Placing.{PutsObject};
ghost use Rattle.feed_changes.specs.declared.change.Change.TheVariants.{Set};

use crate::tree::Fork;
use feed_changes::{Change, Name};
use feed_text::ObjectText;
use std::alloc::{AllocError, Global};
use std::marker::Model;

/// A change that puts an object under its id in a collection, with the memory that the object takes
/// there.
pub struct Placed {
    kind: Name,
    node: Box<Fork<ObjectText>>,
}

// Written out: a caller's proof has one call where a value is dropped.
impl Drop for Placed {
    fn drop(self) {
        let Placed { kind, node } = self;
        drop(kind);
        drop(node);
    }
}

impl Model for Placed {
    ghost use Rattle.feed_tables.specs.Codes.{change_code};
    ghost use Rattle.feed_changes.specs.declared.change.Change.{Change};
    ghost use Rattle.feed_changes.specs.declared.change.Change.TheVariants.{Set};

    ghost Value = { Change };

    ghost coded = { change_code };

    ghost view = { λ a. Set a.kind a.node.value.id a.node.value.item };
}

impl Placed {
    /// The same change, where it puts an object in a collection.
    pub fn new(alloc: Global, change: &Change) -> Result<Option<Placed>, AllocError>
        ensures { IfOk result (λ placed. IfSome placed (λ p. p ≡ change.now)) }
    {
        let Change::Set(kind, id, object) = change else {
            return Ok(None);
        };
        let node = Fork::of(alloc, id, object.copy()?)?;
        let kind = kind.copy()?;
        Ok(Some(Placed { kind, node }))
    }

    // The type.
    pub(crate) fn kind(&self) -> &Name
        ensures kind { result.now ≡ type_of self.now }
        ensures puts { PutsObject self.now }
    {
        &self.kind
    }

    // The type, and the node of the object.
    pub(crate) fn into_parts(self) -> (Name, Box<Fork<ObjectText>>)
        ensures { self ≡ Set result.0 result.1.value.id result.1.value.item }
    {
        let Placed { kind, node } = self;
        (kind, node)
    }
}
