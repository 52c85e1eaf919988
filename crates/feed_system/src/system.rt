//! All that a relay runs on beside the devices of its turns, as one value: it waits, reads the
//! input, and writes what happened.

use crate::link::{LINK, Servers};
use crate::opening::LISTENER;
use crate::reporting::{is_reported, stamp, text_of};
use crate::sockets::{FIRST_SCREEN, Port};
use crate::standard::{ERRORS, ErrorStream, INPUT, InputStream};
use crate::watchers::{FIRST_WATCHER, WATCHERS, Watchers};
use feed_arguments::Verbosity;
use feed_device::{Ready, Report};
use feed_state::StateStore;
use feed_status::Watch;
use mio::event::Event;
use mio::{Events, Poll, Token};
use std::alloc::AllocError;
use std::io;
use std::time::{Duration, Instant};

/// What waits for sockets, standard streams and the clock.
pub struct System<'r> {
    /// What waits, reads, writes, and tells the time.
    pub(crate) rt: &'r HostRuntime,
    /// What tells which devices are ready.
    pub(crate) poll: Poll,
    /// The events of the last wait.
    pub(crate) events: Events,
    /// What became ready while it waited last.
    pub ready: Vec<Ready>,
    /// What the input gave is read into this.
    pub piece: Vec<u8>,
    /// Standard input.
    pub(crate) input: InputStream,
    /// Standard error, which reports are written to.
    pub(crate) errors: ErrorStream,
    /// The status port, with its connections.
    pub(crate) watchers: Watchers,
    /// When the relay began; times are milliseconds from then on.
    pub(crate) start: Instant,
}

impl Drop for System<'_> {
    fn drop(self) {
        let System {
            rt: _,
            poll,
            events,
            ready,
            piece,
            input,
            errors,
            watchers,
            start: _,
        } = self;
        drop(poll);
        drop(events);
        drop(ready);
        drop(piece);
        drop(input);
        drop(errors);
        drop(watchers);
    }
}

impl System<'_> {
    /// The time since the start, in milliseconds.
    pub fn now(&self) -> io::Result<u64> {
        let elapsed = self.start.elapsed(self.rt)?.as_millis();
        Ok(u64::try_from(elapsed).unwrap_or(u64::MAX))
    }

    /// The time since the start, in microseconds.
    pub fn microseconds(&self) -> io::Result<u64> {
        let elapsed = self.start.elapsed(self.rt)?.as_micros();
        Ok(u64::try_from(elapsed).unwrap_or(u64::MAX))
    }

    /// Waits until something is ready, or a time has come, in milliseconds since the start. Who
    /// watches the relay may be late before.
    pub fn wait(&mut self, due: u64) -> io::Result<()> {
        let due = due.min(self.watchers.due());
        let pause = due.saturating_sub(self.now()?);
        self.poll
            .poll(&mut self.events, Some(Duration::from_millis(pause)))?;
        self.take_events()?;
        Ok(())
    }

    /// Keeps what became ready for a turn while it waited last, and wakes the other devices.
    fn take_events(&mut self) -> Result<(), AllocError> {
        self.ready.clear();
        for event in &self.events {
            match ready_of(event) {
                Some(ready) => self.ready.push(ready)?,
                None => wake(
                    event.token(),
                    &mut self.input,
                    &mut self.errors,
                    &mut self.watchers,
                ),
            }
        }
        Ok(())
    }

    /// Whether the input has something to be read.
    pub fn has_input(&self) -> bool {
        self.input.is_ready()
    }

    /// Whether the input's end was read.
    pub fn has_no_more_input(&self) -> bool {
        self.input.has_ended()
    }

    /// Reads what the input has to `piece`: how much, none at its end. It never waits where there
    /// is something.
    pub fn read_input(&mut self) -> usize {
        let registry = self.poll.registry();
        self.input.read(self.rt, registry, &mut self.piece)
    }

    /// Why the state file could not be written, where it could not.
    pub fn file_fault(&self, store: &StateStore<&HostRuntime>) -> Result<String, AllocError> {
        let alloc = self.rt.alloc();
        match store.fault() {
            Some(fault) => format!(in alloc; "{fault}"),
            None => String::from_str(alloc, "it takes nothing"),
        }
    }

    /// How many connections were refused by their address, of screens and of those who watch.
    pub fn refused(&self, port: &Port) -> u64 {
        port.refused().saturating_add(self.watchers.refused())
    }

    /// Whether somebody who watches the relay has to be answered.
    pub fn is_watched(&self, now: u64) -> bool {
        self.watchers.has_work(now)
    }

    /// Answers those who watch the relay.
    pub fn show<W: Watch>(&mut self, relay: &W, now: u64) {
        self.watchers.serve(self.rt.alloc(), relay, now);
    }

    /// Keeps a line to be written to standard error, with the time.
    pub fn line(&mut self, text: &str) {
        let time = stamp(self.rt);
        if let Ok(line) = format!(in self.rt.alloc(); "{time} live: {text}\n") {
            self.errors.line(line.as_str());
        }
    }

    /// Reports what happened with these servers, as much as is asked for; so many things more
    /// happened that nobody kept. What can be written without a wait is.
    pub fn report(
        &mut self,
        reports: &[Report],
        missed: u64,
        servers: &Servers<'_>,
        verbosity: Verbosity,
    ) {
        for report in reports {
            self.report_one(report, servers, verbosity);
        }
        self.errors.miss(missed);
        self.report_missed();
        self.errors.write(self.rt, self.poll.registry());
    }

    fn report_one(&mut self, report: &Report, servers: &Servers<'_>, verbosity: Verbosity) {
        if !is_reported(report, verbosity) {
            return;
        }
        if let Ok(text) = text_of(self.rt.alloc(), report, servers) {
            self.line(text.as_str());
        }
    }

    fn report_missed(&mut self) {
        if !self.errors.has_missed() {
            return;
        }
        let missed = self.errors.missed();
        if let Ok(text) = format!(in self.rt.alloc(); "{missed} lines are left out") {
            self.line(text.as_str());
        }
    }
}

/// Which device of a turn became ready; none where the event is of another one.
fn ready_of(event: &Event) -> Option<Ready> {
    match event.token() {
        LISTENER => Some(Ready::Listener),
        LINK => Some(Ready::Link),
        Token(number) => Some(screen_of(number.checked_sub(FIRST_SCREEN)?, event)),
    }
}

/// The socket of a screen became ready.
fn screen_of(at: usize, event: &Event) -> Ready {
    Ready::Screen {
        at,
        is_readable: event.is_readable(),
        is_writable: event.is_writable(),
    }
}

/// An event came for a device that is of no turn.
fn wake(token: Token, input: &mut InputStream, errors: &mut ErrorStream, watchers: &mut Watchers) {
    match token {
        INPUT => input.wake(),
        ERRORS => errors.wake(),
        WATCHERS => watchers.wake(),
        Token(number) => watchers.wake_one(number.saturating_sub(FIRST_WATCHER)),
    }
}
