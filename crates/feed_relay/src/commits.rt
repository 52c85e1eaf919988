//! The batches of a feed, and a primary that commits them.
ghost use Rattle.std.specs.Prelude.{◌≡◌, ◌≢◌, List, [], length, map, IfOk, IfErr, OnOk};
ghost use Rattle.feed_note.specs.Batches.{batch_changes};
ghost use Rattle.feed_note.specs.Counts.{AreRead, StopsAt};
ghost use Rattle.feed_note.specs.declared.line.Line.{Line as Note};
ghost use Rattle.feed_http.specs.Live.{Accepts, RefusesInTurn, intake_of};

use feed_node::{CommitFault, Primary};
use feed_note::{LineStop, SurveyFault, batches, survey};
use feed_tables::{Change, Changes};
use std::alloc::{AllocError, Global};
use std::collections::VecDeque;

/// The batches of a feed, each as its changes, the first one first. The lines after the last token
/// belong to no batch. The fault is that of the first line that can't be read, with its number.
pub fn feed_batches(alloc: Global, bytes: &[u8]) -> Result<VecDeque<Vec<Change>>, SurveyFault>
    ensures ok { IfOk result (λ all. (notes : List Note) × AreRead bytes.now notes
        × (map (λ batch. batch.items) all.items ≡ batch_changes notes)) }
    ensures err { IfErr result (λ fault.
        fault.stop ≢ LineStop.Memory → StopsAt bytes.now fault.line fault.stop) }
{
    match batches(alloc, bytes) {
        Ok(all) => queue_of(alloc, all).map_err(|_| OUT_OF_MEMORY),
        Err(stop) => Err(located(alloc, bytes, stop)),
    }
}

/// Memory ran out, which is no line's fault.
const OUT_OF_MEMORY: SurveyFault = SurveyFault {
    line: 0,
    stop: LineStop::Memory,
};

/// The same stop, with the number of its line, which takes a second reading.
fn located(alloc: Global, bytes: &[u8], stop: LineStop) -> SurveyFault
    ensures { result.stop ≢ LineStop.Memory → StopsAt bytes.now result.line result.stop }
{
    if stop == LineStop::Memory {
        return OUT_OF_MEMORY;
    }
    match survey(alloc, bytes) {
        Err(fault) => fault,
        // Where one reading stopped, the other does, too.
        Ok(_) => OUT_OF_MEMORY,
    }
}

/// These batches, the first one before.
fn queue_of(alloc: Global, all: Vec<Changes>) -> Result<VecDeque<Vec<Change>>, AllocError>
    ensures { IfOk result (λ queue. map (λ batch. batch.items) queue.items ≡ all.items) }
{
    let mut queue = VecDeque::new(alloc);
    let mut rest = all;
    'rest: while let Some(batch) = rest.pop() {
        queue.push_front(batch.into_vec())?;
    }
    Ok(queue)
}

/// Commits all that waits, from the start on. The first refused batch is taken, too, and ends it:
/// the primary has then accepted those before, and those after still wait.
pub fn commit_all(
    alloc: Global,
    primary: &mut Primary,
    input: &mut VecDeque<Vec<Change>>,
) -> Result<(), CommitFault>
    ensures accepted { OnOk result (Accepts primary.old
        (map (λ batch. batch.items) input.old.items) primary.new) }
    ensures all { OnOk result (input.new.items ≡ []) }
    ensures err { IfErr result (λ fault. RefusesInTurn (length input.old.items)
        (intake_of primary.old input.old.items) fault
        (intake_of primary.new input.new.items)) }
{
    'batches: while let Some(batch) = input.pop_front() {
        primary.commit(alloc, batch)?;
    }
    Ok(())
}
