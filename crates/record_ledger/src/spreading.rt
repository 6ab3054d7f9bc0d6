//! Spreading: places brought into ranges of time, by swaps, before they are sorted.
//!
//! Each range is then sorted by itself, and a last sort of all that were spread finds them in order. That it does isn't proved
//! here, and nothing rests on it but time: what is promised is a permutation.

ghost use Rattle.std.specs.Prelude.{◌≡◌, ◌<◌, ◌≤◌, length, IsPermutation};

use crate::place::Place;

/// Ranges of 2^`shift` milliseconds each, from a first time on.
#[derive(Clone, Copy, Debug)]
struct Ranges {
    first: u64,
    shift: u32,
}

/// Brings places into at most `N` ranges of their last times, a power of two, and tells where in the list each range
/// begins.
pub fn spread<const N: usize>(order: &mut [Place], starts: &mut [usize; N])
    requires { 0 < N }
    ensures permutation { IsPermutation order.old order.new }
    ensures many { length order.new ≡ length order.old }
{
    let ranges = ranges_of(order, N);
    count_places(order, ranges, starts);
    add_up(starts);
    let mut next = *starts;
    bring(order, ranges, starts, &mut next);
}

/// At most so many ranges over all last times of some places.
fn ranges_of(order: &[Place], count: usize) -> Ranges {
    let mut first = u64::MAX;
    let mut last = 0;
    for place in order {
        first = first.min(place.last);
        last = last.max(place.last);
    }
    let width = u64::BITS.saturating_sub(last.saturating_sub(first).leading_zeros());
    let shift = width.saturating_sub(count.trailing_zeros());
    Ranges { first, shift }
}

/// The number of the range of a place, of so many.
#[inline]
fn range_of(place: &Place, ranges: Ranges, count: usize) -> usize
    requires { 0 < count }
    ensures { result < count }
{
    let number = place.last.saturating_sub(ranges.first) >> ranges.shift.min(63);
    (number as usize).min(count - 1)
}

/// Counts the places of each range.
fn count_places<const N: usize>(order: &[Place], ranges: Ranges, counts: &mut [usize; N])
    requires { 0 < N }
{
    for place in order {
        let range = range_of(place, ranges, N);
        counts[range] = counts[range].saturating_add(1);
    }
}

/// Makes of each count the sum of those before it.
fn add_up<const N: usize>(counts: &mut [usize; N]) {
    let mut before = 0usize;
    for range in 0..N {
        let count = counts[range];
        counts[range] = before;
        before = before.saturating_add(count);
    }
}

/// Brings each place into its range. `next` is where in each range the next one goes.
fn bring<const N: usize>(
    order: &mut [Place],
    ranges: Ranges,
    starts: &[usize; N],
    next: &mut [usize; N],
)
    requires { 0 < N }
    ensures permutation { IsPermutation order.old order.new }
    ensures many { length order.new ≡ length order.old }
{
    let mut range = 0;
    for _ in 0..order.len().saturating_add(N) {
        if range >= N {
            return;
        }
        let end = end_of(range, starts, order.len());
        let at = next[range];
        if at < end {
            bring_one(order, ranges, at, next);
        } else {
            range += 1;
        }
    }
}

/// Where a range ends in a list of so many places.
fn end_of<const N: usize>(range: usize, starts: &[usize; N], count: usize) -> usize
    requires { range < N }
    ensures { result ≤ count }
{
    match starts.get(range + 1) {
        Some(start) => count.min(*start),
        None => count,
    }
}

/// Swaps a place to where the next one of its range goes, which may be where it is.
fn bring_one<const N: usize>(order: &mut [Place], ranges: Ranges, at: usize, next: &mut [usize; N])
    requires some { 0 < N }
    requires at { at < length order.old }
    ensures permutation { IsPermutation order.old order.new }
    ensures many { length order.new ≡ length order.old }
{
    let range = range_of(&order[at], ranges, N);
    let to = next[range];
    if to < order.len() {
        order.swap(at, to);
    }
    next[range] = to.saturating_add(1);
}
