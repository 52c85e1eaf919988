//! The command `live`: one relay, in one process and one thread, over sockets that never wait.

mod hosting;
mod making;
mod watching;

use feed_commands::{Fault, LiveOptions, Verbosity};
use feed_device::Devices;
use feed_host::{Failure, lack_of_files};
use feed_ledger::{NotedLink, NotedSockets};
use feed_live::{Following, Live, Restored, RunFault, Turn, run};
use feed_process::{Watched, Words, fault_of_system, report_of};
use feed_recorder::Replay;
use feed_state::{About, StateStore};
use feed_system::{Port, Servers, System};
use hosting::Waited;
use making::{Prepared, prepare};
use std::alloc::AllocError;
use std::io;
use watching::View;

/// What is reported at the start with --no-recheck.
const NO_RECHECK: &str = "--no-recheck: a server that was set back, or that leaves commits out, is \
                          not noticed: for such a server give --fresh";

/// What a relay runs on, beside the devices of its turns.
#[derive(Drop)]
struct Engine<'r> {
    rt: &'r HostRuntime,
    options: &'r LiveOptions<'r>,
    system: System<'r>,
    watched: Watched,
    /// What is told of the state file, where there is one.
    about: Option<About>,
    /// The record that is the input, where it is one.
    replay: Option<Replay>,
    /// Whether there may be more of the input, where that is read at all.
    goes_on: bool,
}

/// The devices of a relay: what goes over its connections is noted, in proofs alone.
type RelayDevices<'r> = Devices<
    NotedSockets<Port>,
    NotedLink<Servers<'r>>,
    StateStore<&'r HostRuntime>,
>;

/// How many commits were published since the start.
fn commits_of(live: &Live) -> u64 {
    live.feed_figures().commits
}

impl<'r> Engine<'r> {
    /// Whether the input has something by now.
    fn has_input(&self, now: u64) -> bool {
        match &self.replay {
            Some(replay) => replay.is_ready(now),
            None => self.system.has_input(),
        }
    }

    /// When the input has something, where that is known before.
    fn input_due(&self) -> u64 {
        match &self.replay {
            Some(replay) => replay.next_due(),
            None => u64::MAX,
        }
    }

    /// Reads what the input has, where that is to be read: how much, none at its end.
    fn read_input(&mut self, takes_input: bool, now: u64) -> Option<usize> {
        if !takes_input || !self.has_input(now) {
            return None;
        }
        match &mut self.replay {
            Some(replay) => replay.give(now, &mut self.system.piece),
            None => Some(self.system.read_input()),
        }
    }

    /// Waits, and reads the clock, and the input where that may be read.
    fn wait_so(&mut self, live: &Live, due: u64, takes_input: bool) -> io::Result<Waited> {
        let has_input = takes_input && self.has_input(self.system.now()?);
        let due = due.min(self.input_due());
        self.system.wait(if has_input { 0 } else { due })?;
        let began = self.system.microseconds()?;
        self.watched.advance(began / 1_000_000, live.screens_open());
        let now = self.system.now()?;
        let read = self.read_input(takes_input, now);
        Ok(Waited {
            now,
            began,
            read,
            commits: commits_of(live),
        })
    }

    /// Waits for a turn, and takes of the input what that may take.
    fn wait(&mut self, live: &Live, turn: Turn) -> io::Result<Waited> {
        let takes_input = self.goes_on && turn.takes_input;
        let waited = self.wait_so(live, turn.due, takes_input)?;
        self.goes_on = self.goes_on && !self.system.has_no_more_input();
        Ok(waited)
    }

    /// A turn is measured where it published something.
    fn measure(&mut self, live: &Live, waited: &Waited) -> io::Result<()> {
        let commits = commits_of(live).saturating_sub(waited.commits);
        if commits > 0 {
            let time = self.system.microseconds()?.saturating_sub(waited.began);
            self.watched.add(commits, time);
        }
        Ok(())
    }

    /// The name of what is followed.
    fn followed(&self, live: &Live, servers: &Servers<'r>) -> Result<String, AllocError> {
        let alloc = self.rt.alloc();
        let feed = live.feed_figures();
        match feed.following {
            Following::Input | Following::Ended => String::from_str(alloc, "standard input"),
            _ => servers.name(alloc, feed.server),
        }
    }

    /// The names of the servers, in the order of their numbers.
    fn servers(&self, live: &Live, servers: &Servers<'r>) -> Result<Vec<String>, AllocError> {
        let alloc = self.rt.alloc();
        let mut names = Vec::new(alloc);
        for number in 0..live.server_figures().len() {
            names.push(servers.name(alloc, number)?)?;
        }
        Ok(names)
    }

    /// Why the last attempt to follow a server failed; nothing where none did.
    fn failure(&self, live: &Live) -> Result<String, AllocError> {
        let alloc = self.rt.alloc();
        match live.feed_figures().failed {
            Some((failure, _)) => format!(in alloc; "{failure}"),
            None => Ok(String::new(alloc)),
        }
    }

    /// Where all that a server sends breaks each time; nothing if it doesn't.
    fn stuck(&self, live: &Live) -> Result<String, AllocError> {
        let alloc = self.rt.alloc();
        let Some((token, line)) = live.feed_figures().stuck else {
            return Ok(String::new(alloc));
        };
        let (token, line) = (token.text(), line.text());
        if line.is_empty() {
            return format!(in alloc; "all that it sends ends behind the token {token} each time");
        }
        format!(in alloc;
            "all that it sends can't be followed behind the token {token}, at this line: {line}"
        )
    }

    /// Why the first server is not followed; nothing where another one is in its place.
    fn lack(&self, live: &Live) -> Result<String, AllocError> {
        let alloc = self.rt.alloc();
        match live.feed_figures().lack {
            Some((lack, _)) => format!(in alloc; "{lack}"),
            None => Ok(String::new(alloc)),
        }
    }

    /// What is told of the relay in words.
    fn words(&self, live: &Live, devices: &RelayDevices<'r>) -> Result<Words, AllocError> {
        let servers = devices.link.link();
        Ok(Words {
            name: self.followed(live, servers)?,
            servers: self.servers(live, servers)?,
            failure: self.failure(live)?,
            stuck: self.stuck(live)?,
            first: servers.name(self.rt.alloc(), 0)?,
            lack: self.lack(live)?,
            fault: self.system.file_fault(&devices.store)?,
        })
    }

    /// Answers those who watch the relay.
    fn watch(&mut self, live: &Live, devices: &RelayDevices<'r>) -> io::Result<()> {
        let now = self.system.now()?;
        if !self.system.is_watched(now) {
            return Ok(());
        }
        let words = self.words(live, devices)?;
        let view = View {
            rt: self.rt,
            live,
            watched: &self.watched,
            words: &words,
            refused: self.system.refused(devices.sockets.sockets()),
            now,
        };
        self.system.show(&view, now);
        Ok(())
    }

    /// Tells a line, unless little is told.
    fn line(&mut self, text: &str) {
        if self.options.verbosity != Verbosity::Quiet {
            self.system.line(text);
        }
    }

    /// Warns of an option that lets false states pass.
    fn warn_of_options(&mut self) {
        if self.options.no_recheck {
            self.line(NO_RECHECK);
        }
    }

    /// Says so where not all screens can be let in.
    fn report_room(&mut self) -> Result<(), AllocError> {
        if let Some(text) = lack_of_files(self.rt.alloc(), self.options)? {
            self.line(text.as_str());
        }
        Ok(())
    }

    /// Says where screens are listened to, where they are.
    fn report_port(&mut self) -> Result<(), AllocError> {
        if let Some(port) = self.options.listen {
            let address = self.options.address;
            let text = format!(in self.rt.alloc(); "listening at {address}, port {port}")?;
            self.line(text.as_str());
        }
        Ok(())
    }

    /// Reports what the relay begins with.
    fn begin(&mut self, restored: &Restored) -> io::Result<()> {
        if let Some(text) = report_of(self.rt.alloc(), self.options, self.about, restored)? {
            self.line(text.as_str());
        }
        self.report_port()?;
        self.report_room()?;
        self.warn_of_options();
        Ok(())
    }

    /// Reports what a turn did, and answers those who watch the relay.
    fn report(
        &mut self,
        live: &Live,
        devices: &RelayDevices<'r>,
        waited: &Waited,
    ) -> io::Result<()> {
        self.measure(live, waited)?;
        self.watch(live, devices)?;
        let (reports, missed) = (live.reports(), live.missed());
        self.system.report(reports, missed, devices.link.link(), self.options.verbosity);
        Ok(())
    }
}

/// Follows a server, or standard input, and serves what that publishes.
pub(crate) fn live_feed<'r>(
    rt: &'r HostRuntime,
    options: &'r LiveOptions<'r>,
) -> Result<(), Failure> {
    serve_live(rt, options, None)
}

/// The same, where a record may be the input.
pub(crate) fn serve_live<'r>(
    rt: &'r HostRuntime,
    options: &'r LiveOptions<'r>,
    replay: Option<Replay>,
) -> Result<(), Failure> {
    let Prepared {
        setup,
        mut hosting,
        mut devices,
    } = prepare(rt, options, replay)?;
    let ended = run(rt.alloc(), setup, &mut hosting, &mut devices);
    drop(devices);
    drop(hosting);
    match ended {
        Ok(()) => Ok(()),
        Err(RunFault::Memory) => Err(Failure::from(Fault::Memory)),
        Err(RunFault::Host(error)) => Err(Failure::from(fault_of_system(error))),
    }
}
