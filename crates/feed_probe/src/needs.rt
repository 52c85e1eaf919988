//! Which options of `live` a server needs.
ghost use Rattle.std.specs.Prelude.{◌≡◌};
ghost use Rattle.feed_probe.specs.Needs.{wants_fresh as wants, settle_of};

use crate::Behaviour;

/// The pause after which a relay shows what came, where it isn't told another one, in milliseconds.
pub const USUAL_PAUSE: u64 = 2_000;

/// Which token a server was asked with.
#[derive(Clone, Copy, Debug, PartialEq, Eq)]
pub enum Asked {
    /// One of the middle of its feed.
    Middle,
    /// The one before its newest.
    Before,
    /// Its newest.
    Newest,
    /// One that it can't have given yet.
    Unheld,
}

/// What came of a request with a token.
#[derive(Clone, Copy, Debug, PartialEq, Eq)]
pub enum Answer {
    /// No answer, or one of this status; 0 where there was none.
    Failed(u16),
    /// Status 400: the token isn't known.
    Refused,
    /// Lines.
    Sent(Behaviour),
}

/// Which options a server needs.
#[derive(Clone, Copy, Debug, PartialEq, Eq)]
pub struct Needs {
    /// The pause of `--settle`, in milliseconds; none for the usual one.
    pub settle: Option<u64>,
    /// Whether each connection has to ask for everything, as with `--fresh`.
    pub is_fresh: bool,
}

/// Whether a server that answers so has to be asked for everything on each connection.
pub fn wants_fresh(asked: Asked, answer: Answer) -> bool
    ensures { result ≡ wants asked answer }
{
    match (asked, answer) {
        (Asked::Unheld, _) | (_, Answer::Failed(_)) => false,
        (asked, Answer::Refused) => asked == Asked::Newest,
        (asked, Answer::Sent(Behaviour::Nothing)) => asked != Asked::Newest,
        (_, Answer::Sent(Behaviour::GoesOn | Behaviour::SendsAgain)) => false,
        (_, Answer::Sent(_)) => true,
    }
}

impl Needs {
    /// What a server needs for which this pause is enough.
    pub fn pausing(pause: u64, is_fresh: bool) -> Needs
        ensures settle { result.settle ≡ settle_of pause }
        ensures fresh { result.is_fresh ≡ is_fresh }
    {
        Needs {
            settle: if pause == USUAL_PAUSE {
                None
            } else {
                Some(pause)
            },
            is_fresh,
        }
    }

    /// Whether it needs none.
    pub fn is_nothing(&self) -> bool {
        self.settle.is_none() && !self.is_fresh
    }
}
