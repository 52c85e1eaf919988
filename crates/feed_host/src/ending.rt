//! How a command ends.

ghost use Rattle.std.specs.Prelude.{◌≡◌, IfOk, IfErr};
ghost use Rattle.feed_commands.specs.Fault.{status_of};
ghost use Rattle.feed_commands.specs.Reporting.{IsReported};
ghost use Rattle.feed_http.specs.Exchange.{wrote_by};
ghost use Rattle.feed_host.specs.Ending.{status_for};

use feed_commands::device::FeedWrite;
use feed_commands::{
    Fault, NetworkFault, REFUSED, Server, report, report_about, report_more, report_text,
    report_with,
};
use std::alloc::AllocError;
use std::net::Ipv4Addr;

/// What a second line says of tables that can't be resumed.
const SAVED_TABLES: &str = "standard input has no tables to resume from";

/// Why a command failed.
#[derive(Drop)]
enum Why {
    /// For a fault; a second line may say more.
    Fault(Fault, Option<&'static str>),
    /// For a fault at this host and port.
    At(Fault, String, u16),
    /// For a fault, with what it is about.
    About(Fault, String),
    /// For a fault, which this text tells.
    ReportedAs(Fault, &'static str),
    /// The same, where the text names what it is about.
    Told(Fault, String),
    /// Its options can't be taken: this text says which.
    Refused(&'static str),
    /// The same, where the text names what is in the way.
    RefusedFor(String),
}

/// Why a command failed, and what is reported of that.
#[derive(Drop)]
pub struct Failure {
    why: Why,
}

impl From<Fault> for Failure {
    ghost from_gives = { λ fault failure. status_for failure.why ≡ status_of fault };

    fn from(fault: Fault) -> Failure {
        Failure {
            why: Why::Fault(fault, None),
        }
    }
}

impl Failure {
    /// A fault, of which a second line says more.
    pub(crate) fn with_more(fault: Fault, more: &'static str) -> Failure
        ensures { status_for result.why ≡ status_of fault }
    {
        Failure {
            why: Why::Fault(fault, Some(more)),
        }
    }

    /// A fault at a host and a port; where there is no memory to name them, the fault alone.
    fn at(fault: Fault, host: Result<String, AllocError>, port: u16) -> Failure
        ensures { status_for result.why ≡ status_of fault }
    {
        match host {
            Ok(host) => Failure {
                why: Why::At(fault, host, port),
            },
            Err(_) => Failure::from(fault),
        }
    }

    /// A fault, with what it is about; where there is no memory to say that, the fault alone.
    pub fn about(fault: Fault, what: Result<String, AllocError>) -> Failure
        ensures { status_for result.why ≡ status_of fault }
    {
        match what {
            Ok(what) => Failure {
                why: Why::About(fault, what),
            },
            Err(_) => Failure::from(fault),
        }
    }

    /// A fault that this text tells, in place of its own.
    pub fn reported_as(fault: Fault, text: &'static str) -> Failure
        ensures { status_for result.why ≡ status_of fault }
    {
        Failure {
            why: Why::ReportedAs(fault, text),
        }
    }

    /// The same, where the text names what it is about; where there is no memory for it, the fault
    /// alone.
    pub fn told(fault: Fault, text: Result<String, AllocError>) -> Failure
        ensures { status_for result.why ≡ status_of fault }
    {
        match text {
            Ok(text) => Failure {
                why: Why::Told(fault, text),
            },
            Err(_) => Failure::from(fault),
        }
    }

    /// This port of 127.0.0.1 can't be listened at.
    pub(crate) fn at_port(rt: &HostRuntime, fault: Fault, port: u16) -> Failure
        ensures { status_for result.why ≡ status_of fault }
    {
        let host = format!(in rt.alloc(); "{}", Ipv4Addr::LOCALHOST);
        Failure::at(fault, host, port)
    }

    /// A fault of following these servers. Where there was no connection, that is about the last
    /// one: each before it was asked in vain.
    pub(crate) fn of_servers(rt: &HostRuntime, fault: Fault, servers: &[Server<'_>]) -> Failure
        ensures { status_for result.why ≡ status_of fault }
    {
        match (fault, servers.last()) {
            (Fault::Network(NetworkFault::Connect), Some(server)) => {
                let host = String::from_str(rt.alloc(), server.host.as_str());
                Failure::at(fault, host, server.port)
            }
            _ => Failure::from(fault),
        }
    }

    /// Options that can't be taken, as this text says.
    pub fn refused(text: &'static str) -> Failure
        ensures { status_for result.why ≡ 1 }
    {
        Failure {
            why: Why::Refused(text),
        }
    }

    /// The same, where the text names what is in the way; where there is no memory for it, this
    /// one.
    pub fn refused_for(text: Result<String, AllocError>, short: &'static str) -> Failure
        ensures { status_for result.why ≡ 1 }
    {
        match text {
            Ok(text) => Failure {
                why: Why::RefusedFor(text),
            },
            Err(_) => Failure::refused(short),
        }
    }

    /// A mirror was not restored from standard input: a second line names that, where a line of
    /// it is the fault.
    pub(crate) fn of_saved_tables(fault: Fault) -> Failure
        ensures { status_for result.why ≡ status_of fault }
    {
        match fault {
            Fault::Feed(_) => Failure::with_more(fault, SAVED_TABLES),
            _ => Failure::from(fault),
        }
    }
}

/// Reports why the command of this name failed, if it did, and answers the status: that of what it
/// failed for, or the greater of that and 4 if the device failed.
pub fn ended<E: FeedWrite>(name: &str, outcome: Result<(), Failure>, err: &mut E) -> u8
    ensures ok { IfOk outcome (λ _. result ≡ 0) }
    ensures quiet { IfOk outcome (λ _. err.new ≡ err.old) }
    ensures err { IfErr outcome (λ failure. IsReported (status_for failure.why)
        (wrote_by E.contents E.failures err.old err.new) result) }
{
    let Err(failure) = outcome else {
        return 0;
    };
    match failure.why {
        Why::Fault(fault, None) => report(name, fault, err),
        Why::Fault(fault, Some(more)) => report_more(name, fault, more, err),
        Why::At(fault, host, port) => report_about(name, fault, Some((host.as_str(), port)), err),
        Why::About(fault, what) => report_with(name, fault, what.as_str(), err),
        Why::ReportedAs(fault, text) => report_text(name, text, fault.status(), err),
        Why::Told(fault, text) => report_text(name, text.as_str(), fault.status(), err),
        Why::Refused(text) => report_text(name, text, REFUSED, err),
        Why::RefusedFor(text) => report_text(name, text.as_str(), REFUSED, err),
    }
}
