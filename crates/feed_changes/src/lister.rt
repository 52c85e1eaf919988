//! What takes the changes that make tables.

ghost use Rattle.std.specs.Prelude.{◌≡◌, codes, OnOk, OnErr};
ghost use Rattle.feed_changes.specs.declared.change.Change.{Change};
ghost use Rattle.feed_changes.specs.declared.change.Change.TheVariants.{Set, Empty, Single, Clear};
ghost use Rattle.feed_changes.specs.Changes.{with_change};

use crate::change::{Change, Changes};
use crate::name::Name;
use feed_text::ObjectText;
use std::alloc::AllocError;

/// Takes the changes that make tables, one after the other.
pub trait Lister {
    /// Why a change can't be taken.
    type Error;

    // The change was taken, and led from the first to the second.
    ghost takes: { Self → Change → Self → Type 0 };

    // The lister failed at the change, and was left as the second.
    ghost fails: { Self → Change → Self → Type 0 };

    /// This object stands under its id in the collection.
    fn set(&mut self, kind: &Name, id: &Name, object: &ObjectText) -> Result<(), Self::Error>
        ensures takes { OnOk result
            (takes self.old (Set kind.now id.now object.now) self.new) }
        ensures fails { OnErr result
            (fails self.old (Set kind.now id.now object.now) self.new) };

    /// The type has a collection of no objects.
    fn empty(&mut self, kind: &Name) -> Result<(), Self::Error>
        ensures takes { OnOk result (takes self.old (Empty kind.now) self.new) }
        ensures fails { OnErr result (fails self.old (Empty kind.now) self.new) };

    /// The type has this one object.
    fn single(&mut self, kind: &Name, object: &ObjectText) -> Result<(), Self::Error>
        ensures takes { OnOk result (takes self.old (Single kind.now object.now) self.new) }
        ensures fails { OnErr result (fails self.old (Single kind.now object.now) self.new) };

    /// There is no type: a change that clears `contest` stands for that.
    fn clear(&mut self) -> Result<(), Self::Error>
        ensures takes { OnOk result (takes self.old (Clear (codes "contest")) self.new) }
        ensures fails { OnErr result (fails self.old (Clear (codes "contest")) self.new) };
}

/// Keeps copies of the changes. The texts of objects are shared, and those of longer names. What it
/// is after an error isn't said.
impl Lister for Changes {
    type Error = AllocError;

    ghost takes = { λ changes change after. after ≡ with_change changes change };

    ghost fails = { λ _ _ _. Unit {0} };

    fn set(&mut self, kind: &Name, id: &Name, object: &ObjectText) -> Result<(), AllocError> {
        self.push(Change::Set(kind.copy()?, id.copy()?, object.copy()?))
    }

    fn empty(&mut self, kind: &Name) -> Result<(), AllocError> {
        self.push(Change::Empty(kind.copy()?))
    }

    fn single(&mut self, kind: &Name, object: &ObjectText) -> Result<(), AllocError> {
        self.push(Change::Single(kind.copy()?, object.copy()?))
    }

    fn clear(&mut self) -> Result<(), AllocError> {
        let kind = Name::new(self.allocator(), "contest").map_err(|_| AllocError)?;
        self.push(Change::Clear(kind))
    }
}
