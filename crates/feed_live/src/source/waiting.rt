//! For how long a server is waited for that takes no connection, does not answer, or is silent.

ghost use Rattle.std.specs.Prelude.{◌≡◌};

use crate::source::{Reach, Source};
use crate::times::CONNECT_TIME;
use feed_device::Why;

impl Source {
    ghost use Rattle.feed_live.specs.Leaving.{connect_time, has_answered, late_time, response_time, why_late, why_left};

    /// When a server is late: it does not take the connection, or does not answer.
    pub(crate) fn late_at(&self) -> Option<u64>
        ensures { result ≡ late_time self.now }
    {
        match self.reach {
            Reach::Away => None,
            Reach::Connects(since) => Some(since.saturating_add(self.connect_time())),
            _ => {
                if self.has_answered() {
                    None
                } else {
                    Some(self.opened.saturating_add(self.response_time()))
                }
            }
        }
    }

    /// Whether the server has answered: the head came. Of a first one that is only looked at the
    /// newest commit came again, too, where that was asked for; of one that was asked for
    /// everything, a line.
    fn has_answered(&self) -> bool
        ensures { result ≡ has_answered self.now }
    {
        let awaits_newest = self.leading.is_look() && self.rechecking.is_going();
        let lacks_all = self.leading.wants_all(self.upstream.place()) && self.settling.lines() == 0;
        self.body_since.is_some() && !awaits_newest && !lacks_all
    }

    /// How long a server may take to answer: not long where it is the first one, and is only looked
    /// at, or asked again since its feed ended.
    fn response_time(&self) -> u64
        ensures { result ≡ response_time self.now }
    {
        let is_first = self.leading.is_first(self.upstream.place());
        if self.leading.is_look() || self.patience.is_again() && is_first {
            self.leading.look_time()
        } else {
            self.patience.time()
        }
    }

    /// Why a server is late.
    fn why_late(&self) -> Why
        ensures { result ≡ why_late self.now.reach }
    {
        match self.reach {
            Reach::Connects(_) => Why::Late,
            _ => Why::NoAnswer,
        }
    }

    /// How long a server may take to take a connection: not long where another one was left for it
    /// that did not fail, or is followed else, or where it is asked again since its feed ended: its
    /// machine may be gone.
    fn connect_time(&self) -> u64
        ensures { result ≡ connect_time self.now }
    {
        let has_left = self.returning.has_left_quiet();
        if has_left || self.patience.is_again() || self.leading.is_look() {
            CONNECT_TIME / 5
        } else {
            CONNECT_TIME
        }
    }

    /// Why a server is to be left now, if it is.
    pub(crate) fn leaves(&self, idle: u64, now: u64) -> Option<Why>
        ensures { result ≡ why_left self.now idle now }
    {
        if self.upstream.is_silent(idle, now) {
            return Some(Why::Silent);
        }
        if self.late_at()? <= now {
            Some(self.why_late())
        } else {
            None
        }
    }
}
