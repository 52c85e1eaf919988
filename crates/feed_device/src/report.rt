//! What happened in a turn, as values.

use feed_follow::FollowFault;
use feed_node::FeedFault;
use std::net::SocketAddr;
use std::{fmt, str};

/// Why a server is left.
#[derive(Clone, Copy, PartialEq, Eq)]
pub enum Why {
    /// Its name has no address, or that can't be asked for.
    Unknown,
    /// It can't be connected to.
    Refuses,
    /// It did not take the connection within ten seconds.
    Late,
    /// It took the connection, and did not answer in time: within twenty seconds, or twice as long
    /// each time that none did, up to two minutes.
    NoAnswer,
    /// The connection broke off.
    Broke,
    /// The response ended.
    Ended,
    /// Nothing came for twice the idle time.
    Silent,
    /// What came can't be followed.
    Fault(FollowFault),
    /// Memory ran out.
    Memory,
}

impl fmt::Display for Why {
    fn fmt<W: fmt::Write>(&self, f: &mut fmt::Formatter<W>) -> fmt::Result {
        match self {
            Why::Unknown => f.write_str("its name has no address"),
            Why::Refuses => f.write_str("can't connect"),
            Why::Late => f.write_str("no connection in time"),
            Why::NoAnswer => f.write_str("no answer in time"),
            Why::Broke => f.write_str("connection lost"),
            Why::Ended => f.write_str("end of the feed"),
            Why::Silent => f.write_str("silent"),
            Why::Fault(fault) => write!(f, "{fault}"),
            Why::Memory => f.write_str("out of memory"),
        }
    }
}

/// Why the first server isn't followed, where another one is.
#[derive(Clone, Copy)]
pub enum Lack {
    /// The first one was left.
    Left(Why),
    /// It doesn't hold our token.
    TokenRefused,
    /// It has another commit at our token.
    OtherCommit,
    /// It had nothing new, and another one has.
    Quiet,
}

impl Lack {
    /// Whether both are of one kind.
    pub fn is_like(&self, other: &Lack) -> bool {
        match (self, other) {
            (Lack::Left(one), Lack::Left(other)) => one == other,
            (Lack::TokenRefused, Lack::TokenRefused) => true,
            (Lack::OtherCommit, Lack::OtherCommit) => true,
            (Lack::Quiet, Lack::Quiet) => true,
            _ => false,
        }
    }

    /// Whether the first one was late, or silent.
    pub fn is_late(&self) -> bool {
        matches!(self, Lack::Left(Why::Late | Why::NoAnswer | Why::Silent))
    }
}

impl fmt::Display for Lack {
    fn fmt<W: fmt::Write>(&self, f: &mut fmt::Formatter<W>) -> fmt::Result {
        match self {
            Lack::Left(why) => write!(f, "{why}"),
            Lack::TokenRefused => f.write_str("doesn't hold our token"),
            Lack::OtherCommit => f.write_str("has another commit at our token"),
            Lack::Quiet => f.write_str("nothing new"),
        }
    }
}

/// How a screen's connection ended.
#[derive(Clone, Copy)]
pub enum How {
    /// Its answer, or its feed, was sent whole.
    Done,
    /// It closed, or its connection broke off.
    Left,
    /// It was too far behind, its request was late, or it took nothing for too long.
    Cut,
    /// Memory ran out.
    Memory,
}

impl fmt::Display for How {
    fn fmt<W: fmt::Write>(&self, f: &mut fmt::Formatter<W>) -> fmt::Result {
        f.write_str(match self {
            How::Done => "done",
            How::Left => "left",
            How::Cut => "cut",
            How::Memory => "out of memory",
        })
    }
}

/// How many bytes of a text are reported.
const LONGEST_EXCERPT: usize = 120;

/// The first bytes of a text: at most 120, and whole characters.
#[derive(Clone, Copy)]
pub struct Excerpt {
    // The text, and then zeros, or more of the text that it was taken from.
    bytes: [u8; LONGEST_EXCERPT],
    // How many of those are the text: it is UTF-8.
    length: usize,
}

impl Excerpt {
    pub fn of(text: &str) -> Excerpt {
        let mut length: usize = 0;
        for c in text.chars() {
            let end = length.saturating_add(c.len_utf8());
            if end > LONGEST_EXCERPT {
                break;
            }
            length = end;
        }
        let mut bytes = [0; LONGEST_EXCERPT];
        for (place, byte) in bytes.iter_mut().zip(text.as_bytes()) {
            *place = *byte;
        }
        Excerpt { bytes, length }
    }

    /// The first bytes of a line that somebody else wrote. A byte that is no printable character of
    /// ASCII is reported as `?`.
    pub fn of_line(line: &[u8]) -> Excerpt {
        let mut bytes = [0; LONGEST_EXCERPT];
        for (place, byte) in bytes.iter_mut().zip(line) {
            *place = printable(*byte);
        }
        Excerpt {
            bytes,
            length: line.len().min(LONGEST_EXCERPT),
        }
    }

    pub fn text(&self) -> &str {
        let bytes = self.bytes.get(..self.length).unwrap_or(&[]);
        str::from_utf8(bytes).unwrap_or("?")
    }
}

/// A byte as it is reported.
fn printable(byte: u8) -> u8 {
    if byte == b' ' || byte.is_ascii_graphic() {
        byte
    } else {
        b'?'
    }
}

/// Why what a server sent that was asked for everything is shown.
#[derive(Clone, Copy, PartialEq, Eq)]
pub enum CameSo {
    /// It was quiet.
    Quiet,
    /// It was quiet for long, and is smaller than what was shown.
    Small,
    /// Its body ended, complete.
    Ended,
    /// It came for so long without being quiet.
    Late,
    /// It broke, and goes on from what was shown.
    GoesOn,
    /// It broke at one place twice, and such a feed is asked for.
    Broken,
}

/// What happened, as it is reported. Times are in milliseconds, and servers have their numbers.
#[derive(Clone, Copy)]
pub enum Report {
    /// A server answers, after so long without one.
    Found {
        server: usize,
        away: u64,
    },
    /// A server is left, and the next is asked after so long.
    Lost {
        server: usize,
        why: Why,
        pause: u64,
    },
    /// A server had nothing new for so long: another one is asked.
    Quiet {
        server: usize,
        time: u64,
    },
    /// A server is followed in place of the first one, since that is not, for this reason.
    Instead {
        server: usize,
        why: Lack,
    },
    /// The first server is followed again, after so long.
    Again {
        server: usize,
        time: u64,
    },
    /// A server says that the feed is somewhere else.
    Moved {
        server: usize,
        location: Excerpt,
    },
    /// A server has nothing at the path that it was asked for, by this line.
    NotFound {
        server: usize,
        line: Excerpt,
    },
    /// A server answers in TLS, which this relay does not speak.
    Tls {
        server: usize,
    },
    /// What a server sent can't be followed from this line on.
    Faulty {
        server: usize,
        line: Excerpt,
    },
    /// A server doesn't hold the token that it was asked with.
    Refused {
        server: usize,
    },
    /// The first server refused our newest token twice: its log is another one, and it is asked for
    /// everything.
    OtherLog {
        server: usize,
    },
    /// What the first server has is behind what is shown: nothing of it is shown.
    Behind {
        server: usize,
    },
    /// A server sends all that it has though it was asked for what comes after our token.
    Ignores {
        server: usize,
    },
    /// The tokens of a server are no positions in what it sends, as those of a dump whose lines
    /// have the tokens of their events: this one came behind a later one, or again after one that
    /// it was sent before. Everything is asked for each time.
    NoPositions {
        server: usize,
        token: Excerpt,
    },
    /// A server left out the commit of this token when it was asked with the one before, and has it
    /// where it sends everything. Everything is asked for each time.
    LeavesOut {
        server: usize,
        token: Excerpt,
    },
    /// A server that was asked for everything has another state at the token that is shown: first
    /// at this type, and at this id in its collection. They are empty where it was not found out.
    Differs {
        server: usize,
        kind: Excerpt,
        id: Excerpt,
    },
    /// A feed gives one token to two states: what came with it again is dropped. The input is no
    /// server.
    GivenTwice {
        server: Option<usize>,
        token: Excerpt,
    },
    /// A server has another commit where the newest one is that is shown, or has that at another
    /// state. The token is that of this one.
    Forgot {
        server: usize,
        token: Excerpt,
    },
    /// What a server sent when it was asked for everything is shown now, so long after the first
    /// attempt, and why.
    Settled {
        server: usize,
        time: u64,
        way: CameSo,
    },
    /// What a server sent was quiet, and is smaller than what is shown: it has to be quiet for so
    /// long.
    Held {
        server: usize,
        time: u64,
    },
    /// What a server sends that is asked for everything broke behind this token twice, the last
    /// time at this line; it is empty if the connection ended there. It isn't shown.
    Broken {
        server: usize,
        token: Excerpt,
        line: Excerpt,
    },
    /// So much came of a server that was asked for everything, in so long, and has not settled yet;
    /// and whether a line had a token.
    Coming {
        server: usize,
        bytes: u64,
        time: u64,
        has_token: bool,
    },
    /// So many changes came of a server and wait for a token, the first of them for so long.
    NoToken {
        server: usize,
        changes: u64,
        time: u64,
    },
    /// A connection over which so much came ended before that had settled: nothing of it is shown.
    Unsettled {
        server: usize,
        bytes: u64,
    },
    /// The input can't be followed from the line of this number on, counted from 1: nothing more of
    /// it is read.
    BadInput {
        fault: FeedFault,
        line: u64,
    },
    /// The input has ended.
    EndOfInput,
    /// So many screens are there, and so many came, ended and were cut in the last minute.
    Screens {
        now: usize,
        came: u64,
        ended: u64,
        cut: u64,
    },
    /// There are as many screens as there may be: one more was answered 503.
    Full,
    /// Screens have yet to take as many bytes of long texts as they may: one more waits for room,
    /// or was answered 503.
    NoRoom,
    /// No connection can be taken for a second.
    NoAccept,
    /// A screen's connection ended: it was answered with a status (0: not at all) and sent so many
    /// bytes.
    Screen {
        peer: SocketAddr,
        how: How,
        status: u16,
        bytes: u64,
        time: u64,
    },
    /// Requests are answered 503, since no server was heard yet; or since what one sends has not
    /// settled.
    NotHeard {
        is_settling: bool,
    },
    /// The state file was begun again with a snapshot of so many bytes.
    Saved {
        bytes: u64,
    },
    /// The state file can't be written; that is tried again after so long.
    NotSaved {
        pause: u64,
    },
}
