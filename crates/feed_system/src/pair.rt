//! Two servers at once, each with a connection that never waits.

use crate::hosts::ServerName;
use crate::link::{LINK, Servers};
use mio::{Events, Poll, Token};
use std::io;
use std::time::{Duration, Instant};

/// The token of the connection to the second server.
const SECOND: Token = Token(2);

/// How many events are taken at once.
const EVENTS: usize = 16;

/// Two servers, and a clock.
#[derive(Drop)]
pub struct Pair<'r> {
    /// What waits, and reads the clock.
    rt: &'r HostRuntime,
    /// What tells which connections are ready.
    poll: Poll,
    /// The events of the last wait, at most 16.
    events: Events,
    /// The first server, with its connection.
    pub first: Servers<'r>,
    /// The second server, with its connection.
    pub second: Servers<'r>,
    /// When its time began.
    start: Instant,
}

/// A server alone, of whose connection events have this token.
fn server<'r>(
    rt: &'r HostRuntime,
    poll: &Poll,
    token: Token,
    name: ServerName,
) -> io::Result<Servers<'r>> {
    let registry = poll.registry().try_clone()?;
    let mut names = Vec::new(rt.alloc());
    names.push(name)?;
    Ok(Servers::new(rt, registry, token, names)?)
}

impl<'r> Pair<'r> {
    /// No connection is open yet. Its time begins now.
    pub fn new(rt: &'r HostRuntime, first: ServerName, second: ServerName) -> io::Result<Pair<'r>> {
        let poll = Poll::new(rt)?;
        let first = server(rt, &poll, LINK, first)?;
        let second = server(rt, &poll, SECOND, second)?;
        Ok(Pair {
            rt,
            events: Events::with_capacity(rt.alloc(), EVENTS)?,
            first,
            second,
            poll,
            start: Instant::now(rt)?,
        })
    }

    /// The time since the start, in milliseconds.
    pub fn now(&self) -> io::Result<u64> {
        let elapsed = self.start.elapsed(self.rt)?.as_millis();
        Ok(u64::try_from(elapsed).unwrap_or(u64::MAX))
    }

    /// Waits until a connection is ready, or for so many milliseconds.
    pub fn wait(&mut self, pause: u64) -> io::Result<()> {
        self.poll
            .poll(&mut self.events, Some(Duration::from_millis(pause)))
    }
}
