//! Laws of the definitions.

ghost use Rattle.feed_laws.specs.Laws.{ScreensAreConnections, ScreensShowStates, ScreensReach, ScreensAreFollowed, DueIsResponse, ServedGrows};
ghost use Rattle.feed_laws.specs.Files.{FilesRestore, FilesReach, FilesBegin, FilesBreakOff, FilesFollow, FilesFollowOn};
ghost use Rattle.feed_laws.specs.Follows.{ScreensFollow, ScreensArrive};

use feed_answer::followed_laws;
use feed_node::{node_laws, reading_laws};
use feed_note::line_laws;
use feed_tables::table_laws;
use feed_world::{following_laws, sending_laws, world_laws};

/// What screens are sent is what connections of a world are sent: so, whatever prefix of it came,
/// what a mirror that reads it shows is a state of the primary's log. With all of it, the mirror is
/// as far as the session. So it is with any prefix of a file that was written, and with all of it;
/// the mirror publishes only where a snapshot or a commit of the file ends.
pub fn hub_laws()
    ensures connections { ScreensAreConnections }
    ensures states { ScreensShowStates }
    ensures reach { ScreensReach }
    ensures followed { ScreensAreFollowed }
    ensures due { DueIsResponse }
    ensures grows { ServedGrows }
    ensures files { FilesRestore }
    ensures files_reach { FilesReach }
    ensures files_begin { FilesBegin }
    ensures files_break_off { FilesBreakOff }
    ensures files_follow { FilesFollow }
    ensures files_follow_on { FilesFollowOn }
    ensures live_follows { ScreensFollow }
    ensures live_arrives { ScreensArrive }
{
    table_laws();
    line_laws();
    node_laws();
    reading_laws();
    world_laws();
    sending_laws();
    following_laws();
    followed_laws();
}
