//! Whether the tokens of a server are positions in what it sends. Those of a dump need not be: its
//! lines may have the tokens of their events, and come in another order. Then what a server sends
//! after the last of them is over: states that it had long ago.

ghost use Rattle.std.specs.Prelude.{◌≡◌};

use feed_device::Excerpt;
use std::alloc::Global;
use std::mem;

/// Of how many tokens it is known that they came: of the last ones.
const LONGEST: usize = 65_536;

/// How many digits of a token are compared at most.
const DIGITS: usize = 18;

/// The tokens that came of a server that was asked for everything.
#[derive(Drop)]
pub(crate) struct Positions {
    /// What the last one has before its number.
    prefix: Vec<u8>,
    /// Its number; none where it has none, or none came.
    number: Option<u64>,
    /// The sum of the last one.
    last: Option<u64>,
    /// The sums of those that came on this connection, and where the next one is put.
    came: Vec<u64>,
    next: usize,
    /// The sums of those that came of what was shown last.
    shown: Vec<u64>,
    /// One that came again after a token that came later.
    against: Option<Excerpt>,
}

/// A sum of a token, by which it is known again: FNV-1a, in 64 bits.
fn sum_of(token: &str) -> u64 {
    let mut sum: u64 = 0xcbf2_9ce4_8422_2325;
    for byte in token.as_bytes() {
        sum = (sum ^ u64::from(*byte)).wrapping_mul(0x0100_0000_01b3);
    }
    sum
}

/// A token as what it begins with, and the number that it ends with; none where it ends with none,
/// or with one of more than 18 digits.
fn numbered(token: &str) -> Option<(&[u8], u64)> {
    let bytes = token.as_bytes();
    let mut number: u64 = 0;
    let mut unit: u64 = 1;
    let mut count: usize = 0;
    for byte in bytes.iter().rev() {
        if !byte.is_ascii_digit() || count > DIGITS {
            break;
        }
        number = number.saturating_add(unit.saturating_mul(u64::from(*byte - b'0')));
        unit = unit.saturating_mul(10);
        count = count.saturating_add(1);
    }
    if count == 0 || count > DIGITS {
        return None;
    }
    let prefix = bytes.get(..bytes.len().saturating_sub(count))?;
    Some((prefix, number))
}

impl Positions {
    pub(crate) fn new(alloc: Global) -> Positions {
        Positions {
            prefix: Vec::new(alloc),
            number: None,
            last: None,
            came: Vec::new(alloc),
            next: 0,
            shown: Vec::new(alloc),
            against: None,
        }
    }

    /// A connection begins.
    pub(crate) fn begin(&mut self) {
        self.number = None;
        self.last = None;
        self.came.clear();
        self.next = 0;
        self.against = None;
    }

    /// Whether this token isn't the one that came last.
    pub(crate) fn is_news(&mut self, token: &str) -> bool {
        let sum = Some(sum_of(token));
        let is_news = self.last != sum;
        self.last = sum;
        is_news
    }

    /// The token of what comes afresh. Whether it comes behind one that has the same beginning,
    /// and a higher number: so those are no positions.
    pub(crate) fn goes_back(&mut self, token: &str) -> bool {
        if !self.is_news(token) {
            return false;
        }
        self.keep(sum_of(token));
        let Some((prefix, number)) = numbered(token) else {
            self.number = None;
            return false;
        };
        let goes_back = match self.number {
            Some(last) => number < last && self.prefix.as_slice() == prefix,
            None => false,
        };
        self.prefix.clear();
        let is_kept = self.prefix.extend_from_slice(prefix).is_ok();
        self.number = is_kept.then_some(number);
        goes_back
    }

    /// One more came. The oldest one is forgotten for it where there are many.
    fn keep(&mut self, sum: u64) {
        if let Some(place) = self.came.get_mut(self.next) {
            *place = sum;
        } else if self.came.push(sum).is_err() {
            return;
        }
        self.next = if self.next.saturating_add(1) < LONGEST {
            self.next.saturating_add(1)
        } else {
            0
        };
    }

    /// What came afresh is shown at its last token.
    pub(crate) fn show(&mut self)
        ensures { self.new.shown ≡ self.old.came }
    {
        mem::swap(&mut self.shown, &mut self.came);
        self.came.clear();
        self.next = 0;
    }

    /// A token that isn't held, of what comes after one that is shown. Whether it is over: it came
    /// before that, or comes behind another one that did.
    pub(crate) fn is_over(&mut self, token: &str, is_behind: bool) -> bool {
        let sum = sum_of(token);
        let is_over = is_behind || self.shown.iter().any(|shown| *shown == sum);
        if is_over {
            self.against = Some(Excerpt::of(token));
        }
        is_over
    }

    /// Whether something that came afresh was shown at its last token.
    pub(crate) fn has_shown(&self) -> bool {
        !self.shown.is_empty()
    }

    /// The token that came before the one that what comes was asked for with.
    pub(crate) fn against(&self) -> Option<Excerpt> {
        self.against
    }
}
