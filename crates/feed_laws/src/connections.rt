//! What a mirror makes of what was written for its request on one connection.

ghost use Rattle.feed_laws.specs.Connections.{NodesAreFollowed, PrimariesAreFollowed, BrokenOffIsFollowed, PrimariesMeetTheirLog};

use crate::laws::hub_laws;
use feed_answer::followed_laws;
use feed_world::following_laws;

/// What a node, or a primary that takes batches meanwhile, writes on a connection is followed in
/// any pieces: after each byte the mirror shows a state that the log has at its token, and after
/// all of them it is as far as the server. The first holds of what a primary wrote until it broke
/// off, too. A primary that began with nothing has a log, which is of what it accepts, and each
/// state that a session meets is in it.
pub fn connection_laws()
    ensures nodes { NodesAreFollowed }
    ensures primaries { PrimariesAreFollowed }
    ensures broken { BrokenOffIsFollowed }
    ensures meets { PrimariesMeetTheirLog }
{
    hub_laws();
    following_laws();
    followed_laws();
}
