//! Who may connect.

ghost use Rattle.std.specs.Prelude.{◌≡◌, ◌↔◌, IsTrue};
ghost use Rattle.feed_system.specs.Guard.{may_connect};

use feed_arguments::{Network, Origin, is_in_any};

/// The networks that may connect.
#[derive(Drop)]
pub(crate) struct Guard {
    networks: Option<Vec<Network>>,
    refused: u64,
}

impl Guard {
    /// Without networks everybody may connect.
    pub(crate) fn new(networks: Option<Vec<Network>>) -> Guard
        ensures { result.networks ≡ networks }
    {
        Guard {
            networks,
            refused: 0,
        }
    }

    fn is_within(&self, origin: Origin) -> bool
        ensures { result ≡ may_connect self.now.networks origin }
    {
        match &self.networks {
            Some(networks) => is_in_any(networks.as_slice(), origin),
            None => true,
        }
    }

    /// Whether who comes from an address stays, where there is room for one more of it; the others
    /// are counted.
    pub(crate) fn lets_in(&mut self, origin: Origin, has_room: bool) -> bool
        ensures stays { IsTrue result ↔ (IsTrue has_room
            × IsTrue (may_connect self.old.networks origin)) }
        ensures networks { self.new.networks ≡ self.old.networks }
    {
        let stays = has_room && self.is_within(origin);
        if !stays {
            self.refused = self.refused.saturating_add(1);
        }
        stays
    }

    /// How many did not stay.
    pub(crate) fn refused(&self) -> u64 {
        self.refused
    }
}
