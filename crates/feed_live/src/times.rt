//! For how long a relay waits, and how often it looks: all times are in milliseconds.

// ---- servers

/// How long a server may take to take a connection.
pub(crate) const CONNECT_TIME: u64 = 10_000;

/// How long a server may take until the head of its answer has come whole.
pub(crate) const RESPONSE_TIME: u64 = 20_000;

/// The same where that was doubled each time that none came: at most.
pub(crate) const LONGEST_RESPONSE: u64 = 120_000;

/// A server whose feed stood open for so long, and ends then, did not fail: it is asked again at
/// once.
pub(crate) const STOOD_LONG: u64 = 5_000;

/// How often that is reported.
pub(crate) const ENDED_REPORT: u64 = 600_000;

/// After so long without a publication behind a good head, a server has nothing newer.
pub(crate) const QUIET: u64 = 1_000;

/// After so long what comes afresh is shown as far as it has come, also where more comes all the
/// time.
pub(crate) const LONGEST_REPLAY: u64 = 600_000;

/// How often it is reported that it has not settled yet.
pub(crate) const REPLAY_REPORT: u64 = 30_000;

/// How long after it failed the first server is looked at, while another one is followed in its
/// place: twice as long after each look that fails.
pub(crate) const FIRST_LOOK: u64 = 2_000;

/// How long at most, and where it was late.
pub(crate) const LOOK_APART: u64 = 25_000;

/// How long it may take to answer then.
pub(crate) const LOOK_TIME: u64 = 2_000;

/// How long after it refused our token the first server has to refuse it again, if its log is to
/// count as another one.
pub(crate) const REFUSED_APART: u64 = 1_000;

/// For how long a first server that was found to be behind us isn't asked for everything again.
pub(crate) const ALL_APART: u64 = 60_000;

/// How long a first server is waited for whose log just took the place of ours, where it fails:
/// after that the others are asked for all that they have.
pub(crate) const ALONE_TIME: u64 = 60_000;

/// How long each server of a round is followed, or as long as the one before them where that is
/// less.
pub(crate) const ROUND_TIME: u64 = 10_000;

// ---- turns

/// How often late requests and screens that take nothing are looked for.
pub(crate) const TICK: u64 = 1_000;

/// How often the number of screens is reported, where it has changed.
pub(crate) const SCREENS_REPORT: u64 = 60_000;

/// For how long a relay that ends sends on what is left.
pub(crate) const END_TIME: u64 = 2_000;
