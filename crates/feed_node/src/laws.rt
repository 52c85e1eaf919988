//! Laws of the definitions.

ghost use Rattle.feed_node.specs.Saved.{SavedTextsRestore};
ghost use Rattle.feed_node.specs.Sent.{TextsGoOn, BatchesPublishAtEnd, SnapshotsPublishAtEnd};
ghost use Rattle.feed_node.specs.Serving.{HeldTokensStand};
ghost use Rattle.feed_node.specs.States.{BytesLeaveFewer};
ghost use Rattle.feed_node.specs.Steps.{StepsRead, StepsCount, TakenAreGood, ReadingIsOne, BatchesAreOfFeed};

use feed_note::{line_laws, written_lines_law};
use feed_tables::table_laws;

/// What stands on an open connection after lines is what one line after the other leaves, they
/// publish as often as one after the other does, and lines that are taken one after the other are
/// good. A held token stands at its own place. What a limit in bytes leaves of a history is what a
/// smaller count would leave.
pub fn node_laws()
    ensures read { StepsRead }
    ensures counted { StepsCount }
    ensures good { TakenAreGood }
    ensures held { HeldTokensStand }
    ensures fewer { BytesLeaveFewer }
{}

/// Where nothing is bad, a text has one reading, and no fault stands. A text after whole lines is
/// taken from where these lead. The lines of a batch publish once, at their end, and nothing
/// before; so do those of a snapshot on a fresh connection. A text that was saved restores what was
/// published, and a proper prefix of it nothing; neither fails but when out of memory. The batches
/// of a connection are those of a feed.
pub fn reading_laws()
    ensures one { ReadingIsOne }
    ensures goes_on { TextsGoOn }
    ensures batches { BatchesPublishAtEnd }
    ensures snapshots { SnapshotsPublishAtEnd }
    ensures saved { SavedTextsRestore }
    ensures of_feed { BatchesAreOfFeed }
{
    line_laws();
    written_lines_law();
    table_laws();
    node_laws();
}
