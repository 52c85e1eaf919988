//! How much came over a connection of late, as a part of all that came.

ghost use Rattle.std.specs.Prelude.{◌<◌};

/// What comes has settled once no more than one part in so many of all bytes came of late.
const SHARE: u64 = 64;

/// Into how many slices of time "of late" is cut.
const SLICES: u64 = 16;

/// How many bytes came in all, and in each slice of the time that is past.
#[derive(Clone, Copy)]
pub(crate) struct Rate {
    /// How long a slice is, in milliseconds: all but the current one last as long as the pause.
    length: u64,
    /// The bytes of the latest slices, each at its number modulo how many there are.
    slices: [u64; SLICES as usize],
    /// The number of the latest slice in which something came.
    latest: u64,
    /// How many bytes came in all.
    total: u64,
    ghost some: { 0 < length },
}

impl Rate {
    pub(crate) fn new(pause: u64) -> Rate {
        Rate {
            length: pause / (SLICES - 1) + 1,
            slices: [0; SLICES as usize],
            latest: 0,
            total: 0,
        }
    }

    /// So many bytes come.
    pub(crate) fn add(&mut self, count: u64, now: u64) {
        let slice = now / self.length;
        for passed in 0..slice.saturating_sub(self.latest).min(SLICES) {
            self.slices[((slice - passed) % SLICES) as usize] = 0;
        }
        self.latest = slice.max(self.latest);
        let here = &mut self.slices[(self.latest % SLICES) as usize];
        *here = here.saturating_add(count);
        self.total = self.total.saturating_add(count);
    }

    /// From when on no more than so many shares of all came of late, if nothing more comes.
    pub(crate) fn calm_at(&self, shares: u64) -> u64 {
        let share = (self.total / SHARE).saturating_mul(shares);
        let mut recent = self
            .slices
            .iter()
            .fold(0u64, |sum, count| sum.saturating_add(*count));
        let mut at = 0;
        for age in (0..SLICES).rev() {
            if recent <= share {
                break;
            }
            let Some(slice) = self.latest.checked_sub(age) else {
                continue;
            };
            let gone = self.slices[(slice % SLICES) as usize];
            recent = recent.saturating_sub(gone);
            at = slice.saturating_add(SLICES).saturating_mul(self.length);
        }
        at
    }
}
