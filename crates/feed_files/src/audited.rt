//! Laws of what an audit of a state file finds.

ghost use Rattle.feed_files.specs.Audited.{FilesAreOfLog, FilesAgree};

use feed_audit::state_laws;
use feed_laws::hub_laws;
use feed_node::reading_laws;

/// Each state of a relay's state file, and of any beginning of it, is one of the log that the relay
/// followed. So the file agrees with each record of the server that has the states of that log.
pub fn audited_laws()
    ensures states { FilesAreOfLog }
    ensures agree { FilesAgree }
{
    reading_laws();
    hub_laws();
    state_laws();
}
