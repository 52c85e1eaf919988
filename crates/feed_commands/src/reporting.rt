//! What is reported of faults.
ghost use Rattle.std.specs.Prelude.{◌≡◌, true, false, IfErr, IfOk, OnOk, OnErr, max};
ghost use Rattle.feed_http.specs.Device.{failures_after};
ghost use Rattle.feed_http.specs.Exchange.{wrote_by};
ghost use Rattle.feed_commands.specs.Fault.{goes_on, status_of};
ghost use Rattle.feed_commands.specs.declared.fault.Fault.TheVariants as why;
ghost use Rattle.feed_commands.specs.Reporting.{EndsInLineFeed, ReportsLines, IsReported, IsReportedStatus, HasReported, FailsAs};

use crate::commands::pull::attempt_outcome;
use crate::fault::Fault;
use crate::placing::Spot;
use arrayvec::ArrayString;
use feed_http::device::{Failed, FeedWrite, write_all};
use feed_http::{PlaceFault, Served};
use feed_relay::{Attempt, AttemptEnd, NetworkFault, Server};
use std::fmt;
use std::fmt::Write;

/// The most bytes of what is reported of one fault. The longest text names a server, of at most 255
/// bytes, and has far fewer.
const ROOM: usize = 512;

/// The most bytes of it before its last line feed.
const WORDS: usize = ROOM - 1;

/// What a list of servers has to be.
const LIST_FORM: &str = "servers are listed as host:port,host:port, 16 at most";

/// A host and a port.
type Address<'h> = (&'h str, u16);

/// Appends where in a line a fault is.
fn add_spot(words: &mut ArrayString<WORDS>, spot: Spot) -> fmt::Result {
    write!(words, "\n  at byte {}", spot.byte)?;
    match spot.member {
        Some(member) => write!(words, ", in member \"{}\"", member.name()),
        None => Ok(()),
    }
}

/// What the part of a place has to be that can't be named so.
fn form_of(fault: PlaceFault) -> &'static str {
    match fault {
        PlaceFault::BadHost => {
            "a host is a name or an address, as 10.0.0.5, with no scheme before it and no path behind"
        }
        PlaceFault::BadBase => {
            "a base begins with a slash, and ends in none, as /api: it stands before /contests"
        }
        PlaceFault::BadContest => {
            "a contest is its id alone, of at most 64 letters, digits and characters of ._-"
        }
        PlaceFault::Memory => "",
    }
}

/// Appends what more is known of a fault, as a second line: the address that it is about, where in
/// the input it is, or what an option has to be.
fn add_more(
    words: &mut ArrayString<WORDS>,
    name: &str,
    fault: Fault,
    address: Option<Address<'_>>,
) {
    let _ = match (fault, address) {
        (_, Some((host, port))) => write!(words, "\n{name}: {host}:{port}"),
        (Fault::Feed(stop), None) => match stop.line {
            Some(line) => write!(words, "\n{name}: line {line}"),
            None => Ok(()),
        },
        (Fault::Survey(stop), None) => match stop.spot {
            Some(spot) => add_spot(words, spot),
            None => Ok(()),
        },
        (Fault::Batches(stop), None) => {
            write!(words, "\n{name}: line {} of standard input", stop.line)
        }
        (Fault::Place(fault), None) => write!(words, "\n{name}: {}", form_of(fault)),
        (Fault::Address(_), None) => write!(words, "\n{name}: {LIST_FORM}"),
        _ => Ok(()),
    };
}

/// What is reported of a fault: a line with its text alone, and a second one where more is known.
fn text_of(name: &str, fault: Fault, address: Option<Address<'_>>) -> ArrayString<ROOM>
    ensures { EndsInLineFeed result.bytes }
{
    let mut words: ArrayString<WORDS> = ArrayString::new();
    let _ = write!(words, "{name}: {fault}");
    add_more(&mut words, name, fault, address);
    let mut text = ArrayString::new();
    text.push_str(words.as_str());
    text.push_str("\n");
    text
}

/// Prints a fault of the command of this name.
fn print_fault<E: FeedWrite>(
    name: &str,
    fault: Fault,
    address: Option<Address<'_>>,
    err: &mut E,
) -> Result<(), Failed>
    ensures lines { OnOk result (ReportsLines (E.contents err.old) (E.contents err.new)) }
    ensures failures { E.failures err.new ≡ failures_after (E.failures err.old) result }
{
    let text = text_of(name, fault, address);
    write_all(err, text.as_bytes())
}

/// Prints a line of the command of this name: these texts, one after the other.
fn print_line<E: FeedWrite>(name: &str, kind: &str, text: &str, err: &mut E) -> Result<(), Failed>
    ensures lines { OnOk result (ReportsLines (E.contents err.old) (E.contents err.new)) }
    ensures failures { E.failures err.new ≡ failures_after (E.failures err.old) result }
{
    write_all(err, name.as_bytes())?;
    write_all(err, b": ")?;
    write_all(err, kind.as_bytes())?;
    write_all(err, text.as_bytes())?;
    write_all(err, b"\n")
}

/// Prints a fault of the command of this name, and a line that says more.
fn print_more<E: FeedWrite>(name: &str, fault: Fault, more: &str, err: &mut E) -> Result<(), Failed>
    ensures lines { OnOk result (ReportsLines (E.contents err.old) (E.contents err.new)) }
    ensures failures { E.failures err.new ≡ failures_after (E.failures err.old) result }
{
    print_fault(name, fault, None, err)?;
    print_line(name, "", more, err)
}

/// The status, where all was reported; else the greater of that and the one of a device that
/// failed.
fn status_after(reported: Result<(), Failed>, status: u8) -> u8
    ensures ok { IfOk reported (λ _. result ≡ status) }
    ensures err { IfErr reported (λ _. result ≡ max status (status_of why.Write)) }
{
    match reported {
        Ok(()) => status,
        Err(Failed) => status.max(Fault::Write.status()),
    }
}

/// Reports a fault of the command of this name, and answers the status of the program. Where it
/// can't be reported, a device has failed too.
pub fn report<E: FeedWrite>(name: &str, fault: Fault, err: &mut E) -> u8
    ensures { IsReportedStatus fault (wrote_by E.contents E.failures err.old err.new) result }
{
    report_about(name, fault, None, err)
}

/// The same of a fault that is about an address, a host and a port, which a second line says.
pub fn report_about<E: FeedWrite>(
    name: &str,
    fault: Fault,
    address: Option<(&str, u16)>,
    err: &mut E,
) -> u8
    ensures { IsReportedStatus fault (wrote_by E.contents E.failures err.old err.new) result }
{
    status_after(print_fault(name, fault, address, err), fault.status())
}

/// The same of a fault that a second line says more of.
pub fn report_more<E: FeedWrite>(name: &str, fault: Fault, more: &str, err: &mut E) -> u8
    ensures { IsReportedStatus fault (wrote_by E.contents E.failures err.old err.new) result }
{
    status_after(print_more(name, fault, more, err), fault.status())
}

/// The same of a fault with what it is about, on one line.
pub fn report_with<E: FeedWrite>(name: &str, fault: Fault, what: &str, err: &mut E) -> u8
    ensures { IsReportedStatus fault (wrote_by E.contents E.failures err.old err.new) result }
{
    let mut kind: ArrayString<WORDS> = ArrayString::new();
    let _ = write!(kind, "{fault}: ");
    status_after(print_line(name, kind.as_str(), what, err), fault.status())
}

/// The same of a text, and of what ends with this status.
pub fn report_text<E: FeedWrite>(name: &str, text: &str, status: u8, err: &mut E) -> u8
    ensures { IsReported status (wrote_by E.contents E.failures err.old err.new) result }
{
    status_after(print_line(name, "", text, err), status)
}

/// The address of the server that an attempt did not reach.
fn address_of<'s>(servers: &'s [Server<'_>], attempt: &Attempt) -> Option<Address<'s>> {
    match attempt.outcome {
        AttemptEnd::NoLink => servers
            .get(attempt.server)
            .map(|it| (it.host.as_str(), it.port)),
        _ => None,
    }
}

/// What reports the faults that don't end a command.
#[derive(Drop)]
pub(crate) struct FaultReporter {
    name: &'static str,
    has_failed: bool,
}

impl FaultReporter {
    /// Nothing was reported yet by the command of this name.
    pub(crate) fn new(name: &'static str) -> FaultReporter
        ensures { result.has_failed ≡ false }
    {
        FaultReporter {
            name,
            has_failed: false,
        }
    }

    /// Reports a fault, and on a second line the address that it is about where there is one. Where
    /// it can't be reported, the command goes on all the same.
    fn report<E: FeedWrite>(&mut self, fault: Fault, address: Option<Address<'_>>, err: &mut E)
        ensures reported { HasReported (E.failures err.old) (E.failures err.new)
            self.old.has_failed self.new.has_failed }
        ensures lines { self.new.has_failed ≡ false
            → ReportsLines (E.contents err.old) (E.contents err.new) }
    {
        if print_fault(self.name, fault, address, err).is_err() {
            self.has_failed = true;
        }
    }

    /// Reports why an attempt at one of these servers failed, where it did.
    fn report_attempt<E: FeedWrite>(
        &mut self,
        servers: &[Server<'_>],
        attempt: &Attempt,
        err: &mut E,
    )
        ensures { HasReported (E.failures err.old) (E.failures err.new)
            self.old.has_failed self.new.has_failed }
    {
        if let Err(fault) = attempt_outcome(attempt.outcome) {
            self.report(fault, address_of(servers, attempt), err);
        }
    }

    /// Reports why these attempts failed.
    pub(crate) fn report_attempts<E: FeedWrite>(
        &mut self,
        servers: &[Server<'_>],
        attempts: &[Attempt],
        err: &mut E,
    )
        ensures { HasReported (E.failures err.old) (E.failures err.new)
            self.old.has_failed self.new.has_failed }
    {
        'attempts: for attempt in attempts {
            self.report_attempt(servers, attempt, err);
        }
    }

    /// The same of all but the last one.
    pub(crate) fn report_earlier<E: FeedWrite>(
        &mut self,
        servers: &[Server<'_>],
        attempts: &[Attempt],
        err: &mut E,
    )
        ensures { HasReported (E.failures err.old) (E.failures err.new)
            self.old.has_failed self.new.has_failed }
    {
        if let Some((_, earlier)) = attempts.split_last() {
            self.report_attempts(servers, earlier, err);
        }
    }

    /// The same of the last one alone.
    pub(crate) fn report_last<E: FeedWrite>(
        &mut self,
        servers: &[Server<'_>],
        attempts: &[Attempt],
        err: &mut E,
    )
        ensures { HasReported (E.failures err.old) (E.failures err.new)
            self.old.has_failed self.new.has_failed }
    {
        if let Some(attempt) = attempts.last() {
            self.report_attempt(servers, attempt, err);
        }
    }

    /// What a connection came to: its fault is reported where others can be served after it, and is
    /// the command's else.
    pub(crate) fn end_connection<E: FeedWrite>(
        &mut self,
        served: Result<Served, NetworkFault>,
        err: &mut E,
    ) -> Result<(), Fault>
        ensures on { OnOk result (goes_on served ≡ true) }
        ensures ends { IfErr result (λ why. (goes_on served ≡ false) × FailsAs served why) }
        ensures reported { HasReported (E.failures err.old) (E.failures err.new)
            self.old.has_failed self.new.has_failed }
    {
        let Err(fault) = served else {
            return Ok(());
        };
        let fault = Fault::from(fault);
        if !fault.is_of_a_connection() {
            return Err(fault);
        }
        self.report(fault, None, err);
        Ok(())
    }

    /// What the command comes to that has gone on to its end: a device's fault where something
    /// could not be reported.
    pub(crate) fn outcome(&self) -> Result<(), Fault>
        ensures ok { OnOk result (self.now.has_failed ≡ false) }
        ensures err { IfErr result
            (λ why. (why ≡ Fault.Write) × (self.now.has_failed ≡ true)) }
    {
        if self.has_failed {
            Err(Fault::Write)
        } else {
            Ok(())
        }
    }
}
