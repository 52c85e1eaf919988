//! A text that comes in pieces, as its lines.

ghost use Rattle.std.specs.Prelude.{◌≡◌, ◌≢◌, OnOk, IfOk, IfErr, IsErrOf};
ghost use Rattle.feed_note.specs.Lines.{lines};
ghost use Rattle.feed_note.specs.Pieces.{joined, texts_of, HasShortLines, HasLongLine, TakesLines};
ghost use Rattle.feed_note.specs.Splitting.{IsLongNext};

use crate::splitter::{SplitFault, Splitter};
use std::alloc::Global;

/// The lines of the text that the pieces are one after the other, however it was cut into them. The
/// fault is that of a line, ended or not, that is too long; where no line is, it can only be want
/// of memory.
pub fn lines_of_pieces(alloc: Global, pieces: &[Vec<u8>]) -> Result<Vec<Vec<u8>>, SplitFault>
    ensures lines { IfOk result (λ all. texts_of all.items ≡ lines (joined pieces.now)) }
    ensures short { OnOk result (HasShortLines (joined pieces.now)) }
    ensures long { IsErrOf result SplitFault.LongLine → HasLongLine (joined pieces.now) }
{
    let mut splitter = Splitter::new(alloc);
    let mut all = Vec::new(alloc);
    for piece in pieces {
        if splitter.push(piece.as_slice()).is_err() {
            return Err(SplitFault::Memory);
        }
        take_lines(alloc, &mut splitter, &mut all)?;
    }
    Ok(all)
}

/// Appends the lines that have come whole.
fn take_lines(
    alloc: Global,
    splitter: &mut Splitter,
    all: &mut Vec<Vec<u8>>,
) -> Result<(), SplitFault>
    ensures ok { OnOk result (TakesLines
        splitter.old (texts_of all.old.items) (texts_of all.new.items) splitter.new) }
    ensures long { IsErrOf result SplitFault.LongLine → HasLongLine splitter.old }
{
    'lines: loop {
        match splitter.next_line(alloc) {
            Ok(Some(line)) => {
                if all.push(line).is_err() {
                    return Err(SplitFault::Memory);
                }
            }
            Ok(None) => return Ok(()),
            Err(fault) => return Err(fault),
        }
    }
}
