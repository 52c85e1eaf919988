//! What a command line can ask for.

use feed_settings::{Framing, Limits};

/// How `tables` feeds its mirror, and what it tells.
#[derive(Clone, Copy)]
pub struct TablesOptions<'a> {
    /// The token whose state is printed; without it what is published last is. Any text will do.
    pub at: Option<&'a str>,
    /// The mirror's limits.
    pub limits: Limits,
    /// Whether a fault of the feed is told with the number of its line.
    pub verbose: bool,
}

/// Which state `tables` prints where a time is given, and how it feeds its mirror.
#[derive(Clone, Copy)]
pub struct AtTimeOptions<'a> {
    /// The time, as RFC 3339 has it. Any text will do.
    pub time: &'a str,
    /// The name of the file with the times at which tokens came. Any text will do.
    pub times: &'a str,
    /// The mirror's limits.
    pub limits: Limits,
    /// Whether a fault of the feed is told with the number of its line.
    pub verbose: bool,
}

/// How `check` reads a feed, and what it tells.
#[derive(Clone, Copy)]
pub struct CheckOptions {
    /// Whether the feed is read piece by piece, however long it is.
    pub stream: bool,
    /// Whether what servers of the field get wrong is told, too.
    pub verbose: bool,
}

/// What `audit` compares the record of a screen with, and how it prints what it found.
#[derive(Clone, Copy)]
pub struct AuditOptions<'a> {
    /// The name of the file with the primary's record, or `-` for standard input. Any text will do.
    pub primary: &'a str,
    /// The same of the screen's, which without it is on standard input. One of both is not.
    pub screen: Option<&'a str>,
    /// Whether what was found is printed as JSON.
    pub json: bool,
    /// Whether objects that differ are printed whole, however long they are.
    pub verbose: bool,
    /// The limits that both records are read with.
    pub limits: Limits,
}

/// Which two servers `audit` compares, for how long, and how it prints what it found.
#[derive(Clone, Copy)]
pub struct CompareOptions<'a> {
    /// The address of the server that is audited, as `host:port`. Any text will do.
    pub of: &'a str,
    /// The address of the server that it is compared with, as `host:port`. Any text will do.
    pub against: &'a str,
    /// The contest whose feeds are compared. Any text will do.
    pub contest: &'a str,
    /// After how many seconds the comparison ends, 1 to 1,000,000; without it there is no such
    /// time.
    pub seconds: Option<u64>,
    /// Whether what was found is printed as JSON.
    pub json: bool,
    /// Whether objects that differ are printed whole, however long they are.
    pub verbose: bool,
    /// The limits that both feeds are followed with.
    pub limits: Limits,
}

/// Which server `probe` looks at, for how long, and how it prints what it found.
#[derive(Clone, Copy)]
pub struct ProbeOptions<'a> {
    /// The URL of the feed. Any text will do.
    pub url: &'a str,
    /// The URL of a second server, which is compared with the first. Any text will do.
    pub against: Option<&'a str>,
    /// The name of the file with the user's name and password. Any text will do.
    pub user_file: Option<&'a str>,
    /// What requests call the server, where that is not its host. Any text will do.
    pub host_header: Option<&'a str>,
    /// For how many seconds the feed is read, 1 to 600.
    pub seconds: u64,
    /// Whether what was found is printed as JSON.
    pub json: bool,
    /// Whether each connection is reported.
    pub verbose: bool,
}

/// What `serve` serves, where, and to how many.
#[derive(Clone, Copy)]
pub struct ServeOptions<'a> {
    /// The port of 127.0.0.1 that connections come to, 1 to 65,535.
    pub port: u16,
    /// The contest whose feed is served. Any text will do.
    pub contest: &'a str,
    /// How many connections are served, 1 to 1,000,000.
    pub count: u64,
    /// How many batches are committed each time that a reader is up to date, 1 to 1,000,000;
    /// without it all are committed before the first connection.
    pub turn: Option<usize>,
    /// How the answers are framed.
    pub framing: Framing,
    /// How many commits before the token of a reader its feed begins, 0 to 65,536.
    pub back: usize,
    /// Whether each connection is reported.
    pub verbose: bool,
    /// The primary's limits.
    pub limits: Limits,
}

/// A server that is followed first, and those that are asked where it fails.
#[derive(Clone, Copy)]
pub struct UpstreamOptions<'a> {
    /// The server's address or name.
    pub host: &'a str,
    /// The server's port, 1 to 65,535.
    pub port: u16,
    /// The addresses of further servers, which are asked where those before fail. Any text will do.
    pub from: Option<&'a str>,
    /// What stands before `/contests` in the path of the feed.
    pub base: &'a str,
    /// What requests call the server, where that is not its host. Any text will do.
    pub host_header: Option<&'a str>,
    /// The name of the file with the user's name and password. Any text will do.
    pub user_file: Option<&'a str>,
}

/// What `pull` follows, and how far.
#[derive(Clone, Copy)]
pub struct PullOptions<'a> {
    /// The servers that are asked.
    pub upstream: UpstreamOptions<'a>,
    /// The contest whose feed is followed.
    pub contest: &'a str,
    /// The most reads of one connection, 1 to 1,000,000.
    pub most_reads: u64,
    /// After how many seconds without a connection or a byte a server is left, 1 to 3,600; without
    /// it there is no such time.
    pub silence: Option<u64>,
    /// Whether the mirror is first restored from standard input.
    pub resume: bool,
    /// Whether each connection is reported.
    pub verbose: bool,
    /// The mirror's limits.
    pub limits: Limits,
}

/// What `relay` follows, and to how many it serves that.
#[derive(Clone, Copy)]
pub struct RelayOptions<'a> {
    /// What is followed in each round.
    pub pull: PullOptions<'a>,
    /// The port of 127.0.0.1 that connections come to, 1 to 65,535.
    pub listen: u16,
    /// How many rounds are made, with a connection each, 1 to 1,000,000.
    pub count: u64,
    /// How the answers are framed.
    pub framing: Framing,
}

/// What `record` follows, and where it keeps that.
#[derive(Clone, Copy)]
pub struct RecordOptions<'a> {
    /// The server that is asked.
    pub upstream: UpstreamOptions<'a>,
    /// The contest whose feed is recorded.
    pub contest: &'a str,
    /// The name of the file that is written. Any text will do.
    pub file: &'a str,
    /// Whether a connection asks for what comes after the newest token, and not for the newest
    /// commit again.
    pub no_recheck: bool,
    /// Whether each connection is reported.
    pub verbose: bool,
}

/// What `replay` serves, how fast, and where.
#[derive(Clone, Copy)]
pub struct ReplayOptions<'a> {
    /// The name of the file with the feed. Any text will do.
    pub file: &'a str,
    /// The name of the file with the times at which its tokens came; without it the times count
    /// that its objects name. Any text will do.
    pub times: Option<&'a str>,
    /// How many times as fast as it happened, 1 to 1,000,000.
    pub speed: u64,
    /// What happened before this time, as RFC 3339 has it, is served at once; without it only the
    /// first commit is. Any text will do.
    pub from: Option<&'a str>,
    /// The contest whose feed is served. Any text will do.
    pub contest: &'a str,
    /// The port that screens come to, 1 to 65,535.
    pub listen: u16,
    /// The address of this machine that they come to. Any text will do.
    pub address: &'a str,
    /// Whether each screen is reported, too.
    pub verbose: bool,
}

/// How much `live` reports on standard error.
#[derive(Clone, Copy, PartialEq, Eq)]
pub enum Verbosity {
    /// Why it ends, and nothing else.
    Quiet,
    /// What changes.
    Normal,
    /// What changes, and each screen.
    Verbose,
}

/// What `live` follows, to whom it serves that, and what it keeps. It has a port to serve at, or a
/// file to keep, or both.
#[derive(Clone, Copy)]
pub struct LiveOptions<'a> {
    /// The contest whose feed is followed and served. Any text will do.
    pub contest: &'a str,
    /// What is followed; without it the feed is read from standard input.
    pub upstream: Option<UpstreamOptions<'a>>,
    /// The port that screens come to, 1 to 65,535; without it nobody is served.
    pub listen: Option<u16>,
    /// The address of this machine that they come to. Any text will do.
    pub address: &'a str,
    /// Which addresses may connect, as a list of networks; without it each may. Any text will do.
    pub allow: Option<&'a str>,
    /// How many screens one address may have at once, 1 to 10,000; without it as many as there may
    /// be.
    pub per_address: Option<u64>,
    /// A further port, 1 to 65,535, that those who watch the relay come to.
    pub status: Option<u16>,
    /// The address of this machine that they come to; without it that of the screens. Any text will
    /// do.
    pub status_address: Option<&'a str>,
    /// How many screens are served at once, 1 to 10,000.
    pub screens: usize,
    /// After how many seconds without a commit a screen is sent a line feed, 1 to 3,600.
    pub idle: u64,
    /// How many bytes a screen may be late before it is cut off, 1 to 1,073,741,824.
    pub window: u64,
    /// How many bytes of long texts screens may have yet to take before no further one is made, 1
    /// to 1,099,511,627,776.
    pub pending: usize,
    /// How the answers are framed.
    pub framing: Framing,
    /// The name of the file that keeps what was published. Any text will do.
    pub state: Option<&'a str>,
    /// Whether it begins without what that file has.
    pub is_new: bool,
    /// A feed that was asked for from the start is shown once no more than 1/64 of it came in so
    /// many milliseconds, 0 to 60,000. Zero: each of its states is shown as it comes.
    pub settle: u64,
    /// Whether each connection asks for everything.
    pub fresh: bool,
    /// Whether a connection asks for what comes after the newest token, and not for the newest
    /// commit again.
    pub no_recheck: bool,
    /// After how many seconds without a commit the other servers are asked in turn, 0 to 3,600.
    /// Zero: they are asked only where the one that is followed fails.
    pub return_after: u64,
    /// How many seconds a request waits for a server to be heard, after a start with a state, 0 to
    /// 3,600.
    pub hold: u64,
    /// Whether the state of the file is served before a server was heard.
    pub serve_old: bool,
    /// Whether a feed that breaks at one place twice is served up to there, where nothing is shown.
    pub serve_broken: bool,
    /// Whether the command ends where standard input does.
    pub until_eof: bool,
    /// Whether it is only looked at whether a relay of these options could start.
    pub check: bool,
    /// How much is reported.
    pub verbosity: Verbosity,
    /// The limits of the node that is served.
    pub limits: Limits,
}

/// A command that reads standard input alone.
#[derive(Clone, Copy)]
pub enum Local<'a> {
    /// The snapshot of what the feed on standard input publishes to a mirror, at its end or at a
    /// token.
    Tables(TablesOptions<'a>),
    /// What the lines of the feed on standard input are, counted.
    Check(CheckOptions),
    /// What happens in a world by the script on standard input.
    Play,
}

impl Local<'_> {
    /// The name of the command.
    pub fn name(&self) -> &'static str {
        match self {
            Local::Tables(_) => "tables",
            Local::Check(_) => "check",
            Local::Play => "play",
        }
    }
}

/// What a command line asks for.
#[derive(Clone, Copy)]
pub enum Request<'a> {
    /// A command that reads standard input alone.
    Local(Local<'a>),
    /// Whether each state of a screen's record is one of the primary's.
    Audit(AuditOptions<'a>),
    /// Whether two servers have the same state at each token that both have.
    Compare(CompareOptions<'a>),
    /// What a server is, what that means for screens, and which call of `live` it takes.
    Probe(ProbeOptions<'a>),
    /// The feed on standard input, served by a primary.
    Serve(ServeOptions<'a>),
    /// The snapshot of what a server's feed publishes to a mirror.
    Pull(PullOptions<'a>),
    /// A server's feed, followed by a mirror and served by it.
    Relay(RelayOptions<'a>),
    /// The snapshot of what the feed on standard input had published at a time.
    AtTime(AtTimeOptions<'a>),
    /// A server's feed, recorded in a file over cut connections.
    Record(RecordOptions<'a>),
    /// A recorded feed, served as it happened.
    Replay(ReplayOptions<'a>),
    /// A feed, followed for ever, and served to many screens at once.
    Live(LiveOptions<'a>),
}

/// What is replied to words that ask for no command.
#[derive(Drop)]
pub enum NoCommand {
    /// Memory ran out.
    Memory,
    /// They ask for help or for the version: this text.
    Shown(String),
    /// They are refused: this text says why.
    Refused(String),
}
