//! A relay begins with what its state files had.

ghost use Rattle.std.specs.Prelude.{◌≡◌, List, ℕ, Some, [], true, IfOk, IfSome, OnErr, MatchResult};
ghost use Rattle.feed_node.specs.Mirroring.{new_mirror};
ghost use Rattle.feed_node.specs.States.{NodeState};
ghost use Rattle.feed_world.specs.Log.{Log, IsLog};
ghost use Rattle.feed_laws.specs.Laws.{IsInLog, AreInLog};
ghost use Rattle.feed_live.specs.Running.{BeginsInLog, AreFilesOfLog, BeginsAsSetUp, CountsHostFault};
ghost use Rattle.feed_files.specs.Saved.{ArePartsOfRecords, EndsAsRecorded, OrNothing};

use crate::host::Host;
use crate::options::{Setup, Start};
use crate::running::RunFault;
use crate::turn::Live;
use feed_device::{Stop, Store};
use feed_files::{Restored, restore};
use feed_node::{Limits, Mirror};
use std::alloc::{AllocError, Global};

/// What was read; nothing where nothing could be.
fn or_nothing(alloc: Global, read: Result<Vec<u8>, Stop>) -> Vec<u8>
    ensures { OrNothing read result.items }
{
    match read {
        Ok(bytes) => bytes,
        Err(_) => Vec::new(alloc),
    }
}

/// What the state files had when the relay began: a state of the feed that they were written from,
/// or nothing; nothing, too, where they can't be read, and when it is asked for again.
pub fn restore_from<D: Store>(
    alloc: Global,
    limits: Limits,
    store: &mut D,
) -> Result<Restored, AllocError>
    ensures limits { IfOk result (λ restored. restored.mirror.limits ≡ limits) }
    // where all that the files ever had was some of what records of nodes of a log wrote
    ensures in_log { (log : Log) (nodes : List NodeState) → IsLog limits log → AreInLog log nodes
        → ArePartsOfRecords nodes (D.files store.old).had
        → IfOk result (λ restored. IsInLog limits log restored.mirror.node) }
    // then the state file goes on behind what it has of such a record
    ensures goes_on { (log : Log) (nodes : List NodeState) (text : List ℕ) → IsLog limits log
        → AreInLog log nodes → ArePartsOfRecords nodes (D.files store.old).had
        → (D.files store.old).written ≡ Some text
        → IfOk result (λ restored. IfSome restored.file
        (EndsAsRecorded nodes text restored.mirror.node)) }
    ensures same { D.files store.new ≡ D.files store.old }
{
    let former = or_nothing(alloc, store.read_former());
    match store.read() {
        Ok(file) => restore(alloc, limits, former.as_slice(), file.as_slice()),
        Err(_) => {
            let restored = restore(alloc, limits, former.as_slice(), &[])?;
            Ok(Restored {
                mirror: restored.mirror,
                file: None,
            })
        }
    }
}

/// What a relay of this setup begins with.
fn restored_for<D: Store>(
    alloc: Global,
    setup: &Setup,
    store: &mut D,
) -> Result<Restored, AllocError>
    ensures limits { IfOk result (λ restored. restored.mirror.limits ≡ setup.now.kept) }
    ensures in_log { (log : Log) → BeginsInLog setup.now log (D.files store.old)
        → IfOk result (λ restored. IsInLog setup.now.kept log restored.mirror.node) }
    ensures goes_on { (log : Log) (nodes : List NodeState) (text : List ℕ)
        → AreFilesOfLog setup.now.kept log nodes (D.files store.old)
        → (D.files store.old).written ≡ Some text
        → IfOk result (λ restored. IfSome restored.file
        (EndsAsRecorded nodes text restored.mirror.node)) }
    ensures input { setup.now.places.items ≡ []
        → IfOk result (λ restored. restored.mirror ≡ new_mirror setup.now.kept) }
    ensures same { D.files store.new ≡ D.files store.old }
{
    if setup.reads_files() {
        return restore_from(alloc, setup.kept, store);
    }
    Ok(Restored {
        mirror: Mirror::new(alloc, setup.kept)?,
        file: None,
    })
}

/// A relay of this setup, which begins with what its state files had. The host reports what that is
/// before.
pub(crate) fn begin<S, L, D: Store, H: Host<S, L, D>>(
    alloc: Global,
    setup: Setup,
    host: &mut H,
    store: &mut D,
) -> Result<Live, RunFault<H::Error>>
    ensures begins { IfOk result (BeginsAsSetUp setup (D.files store.old) (D.files store.new)) }
    ensures err { OnErr result (D.files store.new ≡ D.files store.old) }
    ensures input { H.input host.new ≡ H.input host.old }
    ensures calls { H.calls host.new ≡ H.calls host.old }
    ensures failed { MatchResult result (λ _. H.failed host.new ≡ H.failed host.old)
        (λ fault. CountsHostFault fault (H.failed host.old) (H.failed host.new)) }
{
    let blank = Mirror::new(alloc, setup.kept)?;
    let restored = restored_for(alloc, &setup, store)?;
    if let Err(error) = host.begin(&restored) {
        return Err(RunFault::Host(error));
    }
    let Setup {
        contest,
        limits,
        places,
        identity,
        ..
    } = setup;
    let start = Start {
        places,
        identity,
        restored,
        blank,
    };
    let live = Live::new(alloc, contest, limits, start, store, 0);
    Ok(live)
}
