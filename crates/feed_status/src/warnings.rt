//! What is wrong with a relay beside how it follows upstream.

use crate::cells::Time;
use crate::status::{Status, UpstreamStatus};
use std::fmt;

/// How many changes wait for a token, and for how long the first of them has.
#[derive(Clone, Copy)]
pub(crate) struct Waiting<'a>(pub(crate) &'a UpstreamStatus<'a>);

impl fmt::Display for Waiting<'_> {
    fn fmt<W: fmt::Write>(&self, f: &mut fmt::Formatter<W>) -> fmt::Result {
        let (changes, time) = (self.0.waiting, Time(self.0.waiting_ms));
        let wait = if changes == 1 {
            "change waits"
        } else {
            "changes wait"
        };
        write!(f, "{changes} {wait} for a token, for {time}")
    }
}

/// That there is no token so far, where that is wrong.
#[derive(Clone, Copy)]
struct NoToken<'a>(&'a UpstreamStatus<'a>);

impl fmt::Display for NoToken<'_> {
    fn fmt<W: fmt::Write>(&self, f: &mut fmt::Formatter<W>) -> fmt::Result {
        if self.0.lacks_tokens {
            write!(f, "; no token so far: {}", Waiting(self.0))
        } else {
            Ok(())
        }
    }
}

/// Why the state file can't be written, where that is so.
#[derive(Clone, Copy)]
struct NotSaved<'a>(Option<&'a str>);

impl fmt::Display for NotSaved<'_> {
    fn fmt<W: fmt::Write>(&self, f: &mut fmt::Formatter<W>) -> fmt::Result {
        match self.0 {
            Some(fault) => write!(f, "; the state file can't be written: {fault}"),
            None => Ok(()),
        }
    }
}

/// Each thing that is wrong, behind a semicolon.
#[derive(Clone, Copy)]
pub(crate) struct Warnings<'a>(pub(crate) &'a Status<'a>);

impl Warnings<'_> {
    fn on_requests(&self) -> &'static str {
        if self.0.token.is_some() && !self.0.answering {
            "; requests wait, since no server was heard yet"
        } else {
            ""
        }
    }

    fn on_hold(&self) -> &'static str {
        if self.0.upstream.held {
            "; what came is smaller than what is shown, and is held back"
        } else {
            ""
        }
    }

    fn on_tokens(&self) -> &'static str {
        if self.0.upstream.gives_twice {
            "; one token came with two states: screens lack what came with it again"
        } else {
            ""
        }
    }

    fn on_room(&self) -> &'static str {
        if self.0.screens.full {
            "; no room for one screen more"
        } else {
            ""
        }
    }
}

/// Where all that upstream sends breaks each time, if it does.
#[derive(Clone, Copy)]
struct Stuck<'a>(Option<&'a str>);

impl fmt::Display for Stuck<'_> {
    fn fmt<W: fmt::Write>(&self, f: &mut fmt::Formatter<W>) -> fmt::Result {
        match self.0 {
            Some(text) => write!(f, "; {text}"),
            None => Ok(()),
        }
    }
}

impl fmt::Display for Warnings<'_> {
    fn fmt<W: fmt::Write>(&self, f: &mut fmt::Formatter<W>) -> fmt::Result {
        let token = NoToken(&self.0.upstream);
        let saved = NotSaved(self.0.state_file.and_then(|file| file.fault));
        let stuck = Stuck(self.0.upstream.stuck);
        let (hold, tokens) = (self.on_hold(), self.on_tokens());
        let (requests, room) = (self.on_requests(), self.on_room());
        write!(f, "{stuck}{hold}{tokens}{token}{saved}{requests}{room}")
    }
}
