//! When a relay shows what came of a feed: once hardly anything comes any more; and whether that
//! was all. What came is two lists, of which the first has the times, in milliseconds, and the
//! second how much had come in all by each of them; and the time until which the feed was read.
ghost use Rattle.std.specs.Prelude.{◌≡◌, ◌+◌, ◌-◌, ◌/◌, ◌<◌, ◌≤◌, ℕ, slice_index, true, false, length};
ghost use Rattle.feed_probe.specs.First.{IsFirst};
ghost use Rattle.feed_probe.specs.Settling as settling;

/// At most one part in so many of all that came is hardly anything.
const SHARE: u64 = 64;

/// A second is a busy one if it brings over one part in so many of what the busiest one before did.
const BUSY: u64 = 8;

/// A second, in milliseconds.
const SECOND: u64 = 1_000;

/// The pauses that a relay can be told to wait for, in milliseconds: the usual one, longer ones,
/// and then, for a feed that never pauses for so long, shorter ones.
pub static PAUSES: [u64; 12] = [
    2_000, 3_000, 4_000, 5_000, 8_000, 10_000, 15_000, 20_000, 30_000, 60_000, 1_000, 500,
];

/// How much had come before the arrival of this number.
fn total_before(totals: &[u64], number: usize) -> u64
    ensures { result ≡ settling.total_before totals.now number }
{
    match number.checked_sub(1) {
        Some(last) => totals.get(last).copied().unwrap_or(0),
        None => 0,
    }
}

/// How much had come by so long after a time.
fn came_within(times: &[u64], totals: &[u64], at: u64, pause: u64) -> u64
    ensures { result ≡ settling.came_within times.now totals.now at pause }
{
    let count = times
        .iter()
        .filter(|time| time.saturating_sub(at) <= pause)
        .count();
    total_before(totals, count)
}

/// Whether hardly anything came for so long behind the arrival of this number, of a feed that was
/// read until then.
fn is_calm(times: &[u64], totals: &[u64], until: u64, pause: u64, number: usize) -> bool
    requires { number < length times.now }
    ensures { result ≡ settling.is_calm times.now totals.now until pause number }
{
    let at = times[number];
    let came = came_within(times, totals, at, pause);
    pause <= until.saturating_sub(at)
        && came.saturating_sub(total_before(totals, number + 1)) <= came / SHARE
}

/// The number of the arrival behind which a relay that waits for this pause shows what came; none
/// where it doesn't until then.
pub fn shown_after(times: &[u64], totals: &[u64], until: u64, pause: u64) -> Option<usize>
    ensures { IsFirst (settling.is_calm times.now totals.now until pause)
        (length times.now) result }
{
    for number in 0..times.len() {
        if is_calm(times, totals, until, pause, number) {
            return Some(number);
        }
    }
    None
}

/// How much the second brings that begins with the arrival of this number.
fn second_from(times: &[u64], totals: &[u64], number: usize) -> u64
    requires { number < length times.now }
    ensures { result ≡ settling.second_from times.now totals.now number }
{
    let came = came_within(times, totals, times[number], SECOND);
    came.saturating_sub(total_before(totals, number))
}

/// The most that a second brings which begins with one of the first so many arrivals.
fn busiest(times: &[u64], totals: &[u64], count: usize) -> u64
    requires { count ≤ length times.now }
    ensures { result ≡ settling.busiest times.now totals.now count }
{
    let mut most = 0;
    for number in 0..count {
        most = second_from(times, totals, number).max(most);
    }
    most
}

/// Whether more of the same begins with the arrival of this number, where its second has to bring
/// over a share of all, and over a part of the most so far.
fn begins_burst(
    times: &[u64],
    totals: &[u64],
    shown: usize,
    share: u64,
    part: u64,
    number: usize,
) -> bool
    requires within { number < length times.now }
    requires share { share ≡ settling.total_before totals.now (shown + 1) / 64 }
    requires part { part ≡ settling.busiest times.now totals.now (shown + 1) / 8 }
    ensures { result ≡ settling.is_burst times.now totals.now shown number }
{
    let brought = second_from(times, totals, number);
    shown < number && share < brought && part < brought
}

/// The number of the arrival behind the shown one with which more of the same begins: a second that
/// brings as much as those before it did. None where there is none.
pub fn burst_after(times: &[u64], totals: &[u64], shown: usize) -> Option<usize>
    requires { shown < length times.now }
    ensures { IsFirst (settling.is_burst times.now totals.now shown) (length times.now) result }
{
    let share = total_before(totals, shown + 1) / SHARE;
    let part = busiest(times, totals, shown + 1) / BUSY;
    for number in 0..times.len() {
        if begins_burst(times, totals, shown, share, part, number) {
            return Some(number);
        }
    }
    None
}

/// Whether a relay that waits for this pause shows what came, and nothing more of the same comes
/// then.
fn is_enough(times: &[u64], totals: &[u64], until: u64, pause: u64) -> bool
    ensures yes { result ≡ true → settling.IsEnough times.now totals.now until pause }
    ensures no { result ≡ false → settling.IsWrong times.now totals.now until pause }
{
    match shown_after(times, totals, until, pause) {
        Some(shown) => match burst_after(times, totals, shown) {
            Some(_number) => false,
            None => true,
        },
        None => false,
    }
}

/// The first of the pauses with which a relay shows what came, and nothing more of the same comes
/// then; none where there is none.
pub fn pause_for(times: &[u64], totals: &[u64], until: u64) -> Option<u64>
    ensures { settling.IsPauseFor times.now totals.now until result }
{
    for pause in &PAUSES {
        if is_enough(times, totals, until, *pause) {
            return Some(*pause);
        }
    }
    None
}

/// The longest pause between two arrivals of the first so many, in milliseconds.
pub fn longest_pause(times: &[u64], count: usize) -> u64
    ensures bounds { (number : ℕ) → number + 1 < length times.now → number + 1 < count
        → slice_index times.now (number + 1) - slice_index times.now number ≤ result }
{
    let mut longest = 0;
    for number in 1..times.len().min(count) {
        longest = times[number].saturating_sub(times[number - 1]).max(longest);
    }
    longest
}
