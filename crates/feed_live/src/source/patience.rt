//! How long a server may take to answer.

ghost use Rattle.std.specs.Prelude.{◌≡◌, ◌&&◌, not, true, false, None, Some, min, if◌then◌else◌};
ghost use Rattle.feed_live.specs.Patience.{after_answer, after_loss_of, is_to_say};

use crate::times::{ENDED_REPORT, LONGEST_RESPONSE, RESPONSE_TIME};
use feed_device::Why;

/// How long a server may take to answer, and whether one is asked again since its feed ended.
#[derive(Clone, Copy)]
pub(crate) struct Patience {
    /// How long the next one may take, in milliseconds: twice as long each time that none
    /// answered.
    time: u64,
    /// The place of the one that did not answer last.
    slow: usize,
    /// The server is asked again, since its feed ended and it did not fail.
    is_again: bool,
    /// When it was reported last that one is.
    said: Option<u64>,
}

impl Patience {
    pub(crate) fn new() -> Patience
        ensures { result ≡ record {
          time = RESPONSE_TIME;
          slow = 0;
          is_again = false;
          said = None;
        } }
    {
        Patience {
            time: RESPONSE_TIME,
            slow: 0,
            is_again: false,
            said: None,
        }
    }

    pub(crate) fn time(&self) -> u64
        ensures { result ≡ self.now.time }
    {
        self.time
    }

    /// Whether the server is asked again since its feed ended, and it did not fail.
    pub(crate) fn is_again(&self) -> bool
        ensures { result ≡ self.now.is_again }
    {
        self.is_again
    }

    /// The server is asked again since its feed ended. Whether that is to be reported: once in ten
    /// minutes, since a proxy may end a quiet feed each minute.
    pub(crate) fn ask_again(&mut self, now: u64) -> bool
        ensures reported { result ≡ is_to_say self.old.said now }
        ensures again { self.new ≡ record self.old {
          is_again = true;
          said = if is_to_say self.old.said now then Some now else self.old.said;
        } }
    {
        self.is_again = true;
        let is_reported = match self.said {
            Some(said) => said.saturating_add(ENDED_REPORT) <= now,
            None => true,
        };
        if is_reported {
            self.said = Some(now);
        }
        is_reported
    }

    /// The server of a place answered, after so long. If it was quick, and is the one that did not
    /// answer last, it sets the time back: another one doesn't, or a slow first server would never
    /// have the time that it needs.
    pub(crate) fn answer(&mut self, place: usize, took: u64)
        ensures { self.new ≡ after_answer place took self.old }
    {
        if self.slow == place && took <= RESPONSE_TIME {
            self.time = RESPONSE_TIME;
        }
        self.is_again = false;
    }

    /// The server of a place was lost. Where it did not answer in time, the next one may take twice
    /// as long, unless this one had less time.
    pub(crate) fn lose(&mut self, place: usize, why: Why, is_look: bool)
        ensures { self.new ≡ after_loss_of place why is_look self.old }
    {
        if why == Why::NoAnswer && !is_look && !self.is_again {
            self.time = self.time.saturating_mul(2).min(LONGEST_RESPONSE);
            self.slow = place;
        }
        self.is_again = false;
    }
}
