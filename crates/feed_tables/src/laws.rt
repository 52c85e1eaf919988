//! Laws of the definitions.

ghost use Rattle.feed_tables.specs.Listings.{ListingRestores, ListingHasSize, ListingHasBytes, ListingIsWithin, ChangesAddBytes};
ghost use Rattle.feed_tables.specs.Touched.{AgreeWhereTouched};

/// What changes made of tables is what others made of them, if the same is held wherever one of
/// all these could have made a difference.
pub fn touched_law()
    ensures { AgreeWhereTouched }
{}

/// A listing, taken from empty tables, restores its tables. It has one change for each type and
/// each object of a collection, or one where there is no type, and as many bytes as the tables. It
/// is within the limits where the changes that made the tables are. Changes add no more bytes to
/// tables than they put in.
pub fn table_laws()
    ensures restores { ListingRestores }
    ensures sized { ListingHasSize }
    ensures weighed { ListingHasBytes }
    ensures within { ListingIsWithin }
    ensures adds { ChangesAddBytes }
{}
