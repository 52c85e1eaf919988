//! A feed, served by a primary.
ghost use Rattle.std.specs.Prelude.{◌≡◌, ◌≢◌, ◌≤◌, List, map, IfOk, IfErr, OnOk, Result, IsErrOf};
ghost use Rattle.feed_commands.specs.Fault.{fault_of_batches};
ghost use Rattle.feed_commands.specs.Serve.{StartsServing, StartFails, TakesBatches, EndsTaking, turn_of, serve_service};
ghost use Rattle.feed_commands.specs.Serve.{serving, ServesOn, EndsServing, ServesAll, ServingFails};
ghost use Rattle.feed_commands.specs.Reporting.{HasReported};
ghost use Rattle.feed_http.specs.Device.{HasFailed};
ghost use Rattle.feed_http.specs.Live.{intake_of};
ghost use Rattle.feed_http.specs.declared.fault.Served.{Served as Done};
ghost use Rattle.feed_note.specs.Batches.{batch_changes};
ghost use Rattle.feed_note.specs.Counts.{AreRead, StopsAt};
ghost use Rattle.feed_note.specs.declared.counts.SurveyFault.{SurveyFault as Stopped};
ghost use Rattle.feed_note.specs.declared.line.Line.{Line as Note};
ghost use Rattle.feed_note.specs.declared.stop.LineStop.TheVariants as stop;
ghost use Rattle.feed_relay.specs.Dialing.{links_of};
ghost use Rattle.feed_relay.specs.declared.fault.NetworkFault.{NetworkFault as Failing};

use crate::fault::Fault;
use crate::input::read_input;
use crate::reporting::FaultReporter;
use feed_arguments::ServeOptions;
use feed_http::Service;
use feed_http::device::{FeedRead, FeedWrite};
use feed_node::Primary;
use feed_relay::{Accept, MOST_READS, commit_all, feed_batches, serve_live_next};
use feed_tables::Change;
use std::alloc::Global;
use std::collections::VecDeque;

/// A primary, and the batches that it is to commit while it serves.
#[derive(Drop)]
pub struct FedPrimary {
    primary: Primary,
    waiting: VecDeque<Vec<Change>>,
}

/// The batches of a feed. The fault is that of the first line that can't be read.
fn read_batches(alloc: Global, feed: &[u8]) -> Result<VecDeque<Vec<Change>>, Fault>
    ensures ok { IfOk result (λ all. (notes : List Note) × AreRead feed.now notes
        × (map (λ batch. batch.items) all.items ≡ batch_changes notes)) }
    ensures err { IfErr result (λ why. (fault : Stopped) × (why ≡ fault_of_batches fault)
        × (fault.stop ≢ stop.Memory → StopsAt feed.now fault.line fault.stop)) }
{
    match feed_batches(alloc, feed) {
        Ok(all) => Ok(all),
        Err(fault) => Err(Fault::of_batches(fault)),
    }
}

/// A primary for the batches of the input, at most 67,108,864 bytes: all of them are committed,
/// unless they are to be committed in turns.
pub fn start_primary<R: FeedRead>(
    alloc: Global,
    options: &ServeOptions<'_>,
    input: &mut R,
) -> Result<FedPrimary, Fault>
    ensures ok { IfOk result (λ source. StartsServing options.now.turn options.now.limits
        (R.remaining input.old) (R.remaining input.new)
        (intake_of source.primary source.waiting.items)) }
    ensures err { IfErr result (λ why. StartFails options.now.turn options.now.limits why
        (R.remaining input.old) (R.remaining input.new)) }
    ensures read { IsErrOf result Fault.Read
        → HasFailed (R.failures input.old) (R.failures input.new) }
    ensures quiet { ¬ (IsErrOf result Fault.Read)
        → R.failures input.new ≡ R.failures input.old }
{
    let feed = read_input(alloc, input)?;
    let mut waiting = read_batches(alloc, feed.as_slice())?;
    let mut primary = Primary::new(alloc, options.limits)?;
    if options.turn.is_none() {
        commit_all(alloc, &mut primary, &mut waiting)?;
    }
    Ok(FedPrimary { primary, waiting })
}

/// How many batches a primary takes each time that its session is up to date.
fn turn_of(options: &ServeOptions<'_>) -> usize
    ensures turn { result ≡ turn_of options.now.turn }
    ensures some { 1 ≤ result }
{
    options.turn.unwrap_or(1).max(1)
}

/// How each connection is served.
fn service_of<'a>(options: &ServeOptions<'a>) -> Service<'a>
    ensures { result ≡ serve_service options.now }
{
    Service {
        contest: options.contest,
        framing: options.framing,
        back: options.back,
        most_reads: MOST_READS,
    }
}

/// Serves one connection, and reports its fault. A fault that is more than a connection's ends the
/// serving.
fn serve_one<A: Accept, E: FeedWrite>(
    alloc: Global,
    options: &ServeOptions<'_>,
    source: &mut FedPrimary,
    listener: &mut A,
    reporter: &mut FaultReporter,
    err: &mut E,
) -> Result<(), Fault>
    ensures ok { let links = links_of A.Accept A.Reader.FeedRead A.Writer.FeedWrite in
        OnOk result ((served : Result Done Failing) × ServesOn links (turn_of options.now.turn)
        (serve_service options.now)
        (serving (intake_of source.old.primary source.old.waiting.items) listener.old) served
        (serving (intake_of source.new.primary source.new.waiting.items) listener.new)) }
    ensures err { let links = links_of A.Accept A.Reader.FeedRead A.Writer.FeedWrite in
        IfErr result (λ why. EndsServing links (turn_of options.now.turn)
        (serve_service options.now)
        (serving (intake_of source.old.primary source.old.waiting.items) listener.old) why
        (serving (intake_of source.new.primary source.new.waiting.items) listener.new)) }
    ensures reported { HasReported (E.failures err.old) (E.failures err.new)
        reporter.old.has_failed reporter.new.has_failed }
{
    let served = serve_live_next(
        alloc,
        listener,
        &mut source.primary,
        &mut source.waiting,
        turn_of(options),
        &service_of(options),
    );
    reporter.end_connection(served, err)
}

/// Serves one connection after another. A connection's fault is reported, and serving goes on. What
/// was taken of the batches, in order and each once, is what the primary committed.
pub fn serve_all<A: Accept, E: FeedWrite>(
    alloc: Global,
    options: &ServeOptions<'_>,
    source: &mut FedPrimary,
    listener: &mut A,
    err: &mut E,
) -> Result<(), Fault>
    ensures served { let links = links_of A.Accept A.Reader.FeedRead A.Writer.FeedWrite in
        OnOk result (ServesAll links (turn_of options.now.turn)
        (serve_service options.now) options.now.count
        (serving (intake_of source.old.primary source.old.waiting.items) listener.old)
        (serving (intake_of source.new.primary source.new.waiting.items) listener.new)) }
    ensures reported { OnOk result (E.failures err.new ≡ E.failures err.old) }
    ensures failed { let links = links_of A.Accept A.Reader.FeedRead A.Writer.FeedWrite in
        IfErr result (λ why. ServingFails links (turn_of options.now.turn)
        (serve_service options.now) options.now.count why
        (serving (intake_of source.old.primary source.old.waiting.items) listener.old)
        (serving (intake_of source.new.primary source.new.waiting.items) listener.new)
        (E.failures err.old) (E.failures err.new)) }

    // what that says of the batches
    ensures ok { OnOk result (TakesBatches (intake_of source.old.primary source.old.waiting.items)
        (intake_of source.new.primary source.new.waiting.items)) }
    ensures err { IfErr result (λ why. EndsTaking why
        (intake_of source.old.primary source.old.waiting.items)
        (intake_of source.new.primary source.new.waiting.items)) }
{
    let mut reporter = FaultReporter::new("serve");
    'connections: for _made in 0..options.count {
        serve_one(alloc, options, source, listener, &mut reporter, err)?;
    }
    reporter.outcome()
}
