//! Laws of the definitions.

ghost use Rattle.feed_files.specs.Laws.{FilesAreHonest, FilesGoOnHonestly};

use feed_laws::hub_laws;

/// What is left of a state file, up to any byte, is an honest input to a mirror that has published
/// nothing; and one that goes on from a former file to a mirror that was fed any prefix of that.
pub fn file_laws()
    ensures files { FilesAreHonest }
    ensures files_go_on { FilesGoOnHonestly }
{
    hub_laws();
}
