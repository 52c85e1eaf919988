//! Laws of the definitions.

ghost use Rattle.feed_audit.specs.States.{StatesArePublished};

/// The states of a text are what its first bytes publish on a fresh connection.
pub fn state_laws()
    ensures { StatesArePublished }
{}
