//! Whether a relay is well.

use crate::cells::Time;
use crate::status::{Status, UpstreamState, UpstreamStatus};
use crate::warnings::Warnings;
use std::fmt;

/// For how long a server may be asked again whose feed ended, in milliseconds.
const MOMENT: u64 = 2_000;

/// How well a relay follows.
#[derive(Clone, Copy)]
pub enum Level {
    /// It follows, and has something to show.
    Good,
    /// It shows nothing, or nothing new at the moment, and heard upstream not long ago; or
    /// something else is wrong that somebody should look at.
    Doubtful,
    /// Nothing was heard of upstream for longer than it may be silent; or nothing is shown, and all
    /// that it sends breaks at one place.
    Bad,
}

impl Level {
    /// The word that JSON and a page have for it.
    pub(crate) fn word(self) -> &'static str {
        match self {
            Level::Good => "good",
            Level::Doubtful => "doubtful",
            Level::Bad => "bad",
        }
    }
}

impl Status<'_> {
    /// Whether upstream was heard not longer ago than it may be silent, or the feed is standard
    /// input, which may be silent for ever.
    fn is_heard(&self) -> bool {
        match self.upstream.state {
            UpstreamState::Input => true,
            UpstreamState::Ended => false,
            _ => self.upstream.silent_ms <= self.silence_ms,
        }
    }

    /// Whether screens may be sent to this relay: it hears upstream, and one that asks for
    /// everything is answered with it.
    pub fn is_healthy(&self) -> bool {
        self.is_heard() && self.token.is_some() && self.answering && !self.screens.full
    }

    /// Whether something is wrong beside how upstream is followed.
    fn has_trouble(&self) -> bool {
        let fails_to_save = self.state_file.is_some_and(|file| file.fault.is_some());
        let lacks_first = self.upstream.in_place_of.is_some();
        let lacks = lacks_first || self.upstream.lacks_tokens;
        let misleads = self.upstream.gives_twice || self.upstream.held || self.is_stuck();
        fails_to_save || lacks || misleads || !self.answering || self.screens.full
    }

    /// Whether all that upstream sends breaks at one place.
    fn is_stuck(&self) -> bool {
        self.upstream.stuck.is_some()
    }

    /// Whether a server is asked again whose feed ended a moment ago, and that did not fail.
    fn is_asked_again(&self) -> bool {
        self.commits > 0 && self.upstream.failures == 0 && self.upstream.since_ms < MOMENT
    }

    /// How well it follows.
    pub fn level(&self) -> Level {
        let follows = match self.upstream.state {
            UpstreamState::Following => true,
            UpstreamState::Input => true,
            UpstreamState::Asking | UpstreamState::Pausing => self.is_asked_again(),
            _ => false,
        };
        let lacks_all = self.token.is_none() && self.is_stuck();
        if !self.is_heard() || lacks_all {
            Level::Bad
        } else if follows && self.token.is_some() && !self.has_trouble() {
            Level::Good
        } else {
            Level::Doubtful
        }
    }
}

/// What came and has not settled.
#[derive(Clone, Copy)]
pub(crate) struct Coming<'a>(pub(crate) &'a UpstreamStatus<'a>);

impl fmt::Display for Coming<'_> {
    fn fmt<W: fmt::Write>(&self, f: &mut fmt::Formatter<W>) -> fmt::Result {
        let (lines, bytes) = (self.0.coming_lines, self.0.coming_bytes);
        let word = if lines == 1 { "line" } else { "lines" };
        write!(f, "{lines} {word}, {bytes} bytes")
    }
}

/// Why the last attempt failed, where one did since a server answered.
#[derive(Clone, Copy)]
struct Because<'a>(&'a UpstreamStatus<'a>);

impl fmt::Display for Because<'_> {
    fn fmt<W: fmt::Write>(&self, f: &mut fmt::Formatter<W>) -> fmt::Result {
        match self.0.last_failure {
            Some(failure) if self.0.failures > 0 => {
                let text = failure.text;
                write!(f, " ({text})")
            }
            _ => Ok(()),
        }
    }
}

/// Which server is not followed, where another one is in its place.
#[derive(Clone, Copy)]
struct Instead<'a>(&'a UpstreamStatus<'a>);

impl fmt::Display for Instead<'_> {
    fn fmt<W: fmt::Write>(&self, f: &mut fmt::Formatter<W>) -> fmt::Result {
        match self.0.in_place_of {
            Some(first) => {
                let (name, why, time) = (first.name, first.why, Time(first.for_ms));
                write!(f, " in place of {name} ({why}), for {time}")
            }
            None => Ok(()),
        }
    }
}

/// When the last commit came.
#[derive(Clone, Copy)]
struct LastCommit(Option<u64>);

impl fmt::Display for LastCommit {
    fn fmt<W: fmt::Write>(&self, f: &mut fmt::Formatter<W>) -> fmt::Result {
        match self.0 {
            Some(age) => write!(f, ", last commit {} ago", Time(age)),
            None => f.write_str(", no commit since the start"),
        }
    }
}

/// How the server is.
#[derive(Clone, Copy)]
struct Followed<'a>(&'a Status<'a>);

impl fmt::Display for Followed<'_> {
    fn fmt<W: fmt::Write>(&self, f: &mut fmt::Formatter<W>) -> fmt::Result {
        let upstream = &self.0.upstream;
        let name = upstream.name;
        let silent = upstream.silent_ms / 1_000;
        let since = upstream.since_ms / 1_000;
        match upstream.state {
            UpstreamState::Following | UpstreamState::Settling if !self.0.is_heard() => {
                write!(f, "{name} is silent for {silent} s")
            }
            UpstreamState::Following | UpstreamState::Input => {
                let instead = Instead(upstream);
                write!(f, "following {name}{instead}")
            }
            UpstreamState::Settling => {
                let coming = Coming(upstream);
                write!(
                    f,
                    "settling {name} for {since} s: {coming} so far; nothing of it is shown yet"
                )
            }
            UpstreamState::Asking | UpstreamState::Pausing if self.0.is_asked_again() => {
                write!(f, "asking {name} again")
            }
            UpstreamState::Asking => {
                let because = Because(upstream);
                write!(f, "asking {name}{because}, nothing heard for {silent} s")
            }
            UpstreamState::Pausing => {
                let because = Because(upstream);
                write!(f, "{name} is lost{because}, nothing heard for {silent} s")
            }
            UpstreamState::Ended => write!(f, "the end of {name}"),
        }
    }
}

/// What is shown.
#[derive(Clone, Copy)]
struct Shown<'a>(&'a Status<'a>);

impl fmt::Display for Shown<'_> {
    fn fmt<W: fmt::Write>(&self, f: &mut fmt::Formatter<W>) -> fmt::Result {
        let settles = matches!(self.0.upstream.state, UpstreamState::Settling);
        let age = LastCommit(self.0.commit_age_ms);
        match self.0.token {
            Some(token) if settles => write!(f, ", still at token {token}{age}"),
            Some(token) => write!(f, ", token {token}{age}"),
            None if settles => Ok(()),
            None => f.write_str(", nothing published yet"),
        }
    }
}

/// How many screens there are, and how many of them are behind.
#[derive(Clone, Copy)]
struct Connected(u64, u64);

impl fmt::Display for Connected {
    fn fmt<W: fmt::Write>(&self, f: &mut fmt::Formatter<W>) -> fmt::Result {
        let Connected(open, behind) = *self;
        let screens = if open == 1 { "screen" } else { "screens" };
        match behind {
            0 => write!(f, ", {open} {screens}, none behind"),
            _ => write!(f, ", {open} {screens}, {behind} behind"),
        }
    }
}

/// One line on how a relay is.
#[derive(Clone, Copy)]
pub(crate) struct Headline<'a>(pub(crate) &'a Status<'a>);

impl fmt::Display for Headline<'_> {
    fn fmt<W: fmt::Write>(&self, f: &mut fmt::Formatter<W>) -> fmt::Result {
        let status = self.0;
        let screens = Connected(status.screens.open, status.screens.behind);
        write!(
            f,
            "{}{}{screens}{}",
            Followed(status),
            Shown(status),
            Warnings(status)
        )
    }
}
