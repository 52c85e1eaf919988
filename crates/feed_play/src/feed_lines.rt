//! The feed lines that a commit of a script announces.

ghost use Rattle.std.specs.Prelude.{◌≡◌, ◌≢◌, ◌≤◌, ◌+◌, ◌++◌, length, IfOk, IfErr, OnOk};
ghost use Rattle.feed_note.specs.Counts.{IsRead};
ghost use Rattle.feed_note.specs.Lines.{HasNoLineFeed};
ghost use Rattle.feed_note.specs.Notes.{changes_in};
ghost use Rattle.feed_note.specs.declared.line.Line.{Line as Note};
ghost use Rattle.feed_play.specs.FeedLines.{StopsFeed, TakesFeed, StopsCommit};
ghost use Rattle.feed_play.specs.Lines.{all_lines, IsLineFrom};
ghost use Rattle.feed_play.specs.declared.fault.PlayCause.TheVariants.{Memory};

use crate::fault::{PlayCause, PlayFault};
use crate::lines::Lines;
use feed_note::{LINE_BYTES, Line, read_line};
use feed_tables::{Change, Changes};
use std::alloc::Global;

/// Adds the changes of a feed line. Its token says nothing here. A line over the line limit is none
/// of a feed, so it is none of a script either.
fn read_feed_line(alloc: Global, line: &[u8], changes: &mut Vec<Change>) -> Result<(), PlayCause>
    requires { HasNoLineFeed line.now }
    ensures ok { OnOk result ((note : Note) × IsRead line.now note
        × (changes.new.items ≡ changes.old.items ++ changes_in note)) }
    ensures err { IfErr result (λ cause. cause ≢ Memory → StopsFeed line.now cause) }
{
    if line.len() > LINE_BYTES {
        return Err(PlayCause::Script);
    }
    if let Line::Note { changes: more, .. } = read_line(alloc, line)? {
        changes.append(&mut more.into_vec())?;
    }
    Ok(())
}

/// The changes of the next feed lines, this many.
pub fn read_changes(
    alloc: Global,
    lines: &mut Lines<'_>,
    count: usize,
) -> Result<Changes, PlayFault>
    ensures ok { IfOk result (λ changes. TakesFeed lines.old lines.new count changes) }
    ensures err { IfErr result (λ fault. fault.cause ≢ Memory → StopsCommit lines.old count fault) }

    ensures all { all_lines lines.new ≡ all_lines lines.old }
    ensures later { lines.old.read ≤ lines.new.read }
    ensures fewer { length lines.new.left ≤ length lines.old.left }
    ensures line { IfErr result (λ fault.
        IsLineFrom lines.old.read (lines.old.read + count) fault.line) }
    ensures within { IfErr result (λ fault. fault.line ≤ all_lines lines.old) }
{
    if !lines.has(count) {
        let line = lines.number();
        return Err(PlayFault {
            line,
            cause: PlayCause::Script,
        });
    }
    let mut changes = Vec::new(alloc);
    'lines: for _line in 0..count {
        let Some(line) = lines.next_line() else {
            // There are as many lines, as was seen.
            let line = lines.number();
            return Err(PlayFault {
                line,
                cause: PlayCause::Script,
            });
        };
        if let Err(cause) = read_feed_line(alloc, line, &mut changes) {
            let line = lines.number();
            return Err(PlayFault { line, cause });
        }
    }
    Ok(Changes::of(changes))
}
