//! What a relay is asked to be.

ghost use Rattle.std.specs.Prelude.{◌≡◌, ◌≢◌, [], true, false};

use feed_answer::{Identity, Place};
use feed_files::Restored;
use feed_node::{Limits, Mirror};
use feed_screens::ScreenLimits;

/// What a relay may do, and how long it waits.
#[derive(Clone, Copy)]
pub struct LiveLimits {
    /// Those of its screens. A server that is silent for twice as long as a screen is left.
    pub screens: ScreenLimits,
    /// A feed that was asked for from the start is shown once no more than 1/64 of it came in so
    /// many milliseconds. Zero: each of its states is shown as it comes.
    pub settle: u64,
    /// Whether each connection asks for everything.
    pub is_fresh: bool,
    /// Whether that is so of several servers, which have tokens of their own.
    pub are_strange: bool,
    /// After how many milliseconds without a publication the other servers are asked, one after
    /// another. Zero: only where the one that is followed fails.
    pub return_after: u64,
    /// Whether each connection asks for the newest commit again, to see whether the server still
    /// has that.
    pub rechecks: bool,
    /// How many milliseconds a request waits for a server to be heard.
    pub hold: u64,
    /// Whether what was restored is served before a server was heard.
    pub serves_old: bool,
    /// Whether a feed that breaks at one token twice is shown up to there, where nothing is shown.
    pub serves_broken: bool,
    /// Whether there is a file that the state is kept in.
    pub has_store: bool,
    /// Whether the relay ends with the input.
    pub ends_with_input: bool,
}

/// What a run of a relay is set to.
#[derive(Drop)]
pub struct Setup {
    /// The contest whose feed is served.
    pub contest: String,
    /// What the relay may do, and how long it waits.
    pub limits: LiveLimits,
    /// How much is kept of the feed.
    pub kept: Limits,
    /// The servers that are asked, as `Start` has them; none where the feed is the input.
    pub places: Vec<Place>,
    /// As whom they are asked.
    pub identity: Identity,
}

impl Setup {
    /// Whether the relay begins with what its state files have: where its feed is the input, it
    /// begins again.
    pub(crate) fn reads_files(&self) -> bool
        ensures stored { result ≡ true → self.now.limits.has_store ≡ true }
        ensures input { self.now.places.items ≡ [] → result ≡ false }
        ensures servers { self.now.limits.has_store ≡ true → self.now.places.items ≢ []
            → result ≡ true }
    {
        self.limits.has_store && !self.places.is_empty()
    }
}

/// What a relay starts from.
#[derive(Drop)]
pub struct Start {
    /// The servers that are asked; none where the feed is the input. One that has a name of several
    /// addresses is there as often as it has addresses.
    pub places: Vec<Place>,
    /// As whom they are asked.
    pub identity: Identity,
    /// What the state files had.
    pub restored: Restored,
    /// A mirror that has published nothing.
    pub blank: Mirror,
}
