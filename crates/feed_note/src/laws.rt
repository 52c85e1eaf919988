//! Laws of the definitions.

ghost use Rattle.feed_note.specs.Lines.{LinesCut, LinesAreTheOnlyCut};
ghost use Rattle.feed_note.specs.Meaning.{OnlyOne, MeaningOrReason, NotesHaveChanges};
ghost use Rattle.feed_note.specs.Splitting.{LongNextStays};
ghost use Rattle.feed_note.specs.Written.{WrittenLineMeans};

use feed_text::text_laws;

/// A written line means its change and its token, is within the limit of a line, and has no line
/// feed.
pub fn written_lines_law()
    ensures { WrittenLineMeans }
{
    text_laws();
}

/// A text is cut into its lines and its rest in one way; a line has one meaning or one reason, and
/// not both; a notification makes a change; a next line that is too long stays so, whatever
/// follows.
pub fn line_laws()
    ensures cut { LinesCut }
    ensures only_cut { LinesAreTheOnlyCut }
    ensures one_meaning { OnlyOne }
    ensures decided { MeaningOrReason }
    ensures changes { NotesHaveChanges }
    ensures long_stays { LongNextStays }
{
    text_laws();
}
