//! Why the reading of a feed stops at a line.

ghost use Rattle.std.specs.Prelude.{◌≡◌, ◌≢◌, ◌∷◌, ◌++◌, IfOk, IfErr, IfSome, IfNone};
ghost use Rattle.feed_note.specs.Steps.{TakesNote, IsUnfinished, StopsNext, stop_at};
ghost use Rattle.feed_note.specs.declared.stop.LineStop.TheVariants.{Memory};

use crate::cut::{LINE_BYTES, split_line};
use crate::line::{Line, LineFault};
use crate::read::read_line_in;
use feed_changes::Change;
use std::alloc::{AllocError, Global};
use thiserror::Error;

/// Why the reading of a feed stops at a line.
#[derive(Clone, Copy, Debug, PartialEq, Eq, Error)]
pub enum LineStop {
    /// The line, ended or not, has more than 16,777,216 bytes before its line feed.
    #[error("line too long")]
    LongLine,
    /// The line means nothing.
    #[error("{0}")]
    Line(LineFault),
    /// Memory ran out; this says nothing of the line.
    #[error("out of memory")]
    Memory,
}

impl From<AllocError> for LineStop {
    ghost from_gives = { λ _ stop. stop ≡ Memory };

    fn from(_error: AllocError) -> LineStop {
        LineStop::Memory
    }
}

impl LineStop {
    /// The stop at a line with this fault.
    fn at_fault(fault: LineFault) -> LineStop
        ensures { result ≡ stop_at fault }
    {
        match fault {
            LineFault::Memory => LineStop::Memory,
            reason => LineStop::Line(reason),
        }
    }
}

/// What the first line of a text means, and the text after its line feed; none where no line is
/// left. A change that stands alone lies in the memory of these, which go, where there is room.
pub fn read_first<'a>(
    alloc: Global,
    text: &'a [u8],
    spare: &mut Vec<Change>,
) -> Result<Option<(Line, &'a [u8])>, LineStop>
    ensures some { IfOk result (λ first.
        IfSome first (λ parts. TakesNote text.now parts.0 parts.1.now)) }
    ensures none { IfOk result (λ first. IfNone first (IsUnfinished text.now)) }
    ensures err { IfErr result (λ stop. stop ≢ Memory → StopsNext text.now stop) }
{
    let Some((line, behind)) = split_line(text) else {
        return if text.len() > LINE_BYTES {
            Err(LineStop::LongLine)
        } else {
            Ok(None)
        };
    };
    if line.len() > LINE_BYTES {
        return Err(LineStop::LongLine);
    }
    match read_line_in(alloc, line, spare) {
        Ok(note) => Ok(Some((note, behind))),
        Err(fault) => Err(LineStop::at_fault(fault)),
    }
}
