//! Sorting places by several threads.

ghost use Rattle.std.specs.Prelude.{◌≡◌, ◌<◌, ◌≤◌, length, IsPermutation, IsSorted};
ghost use Rattle.std.specs.List.{AllZip};
ghost use Rattle.std.specs.declared.vec.Vec.{Vec};
ghost use Rattle.std.specs.declared.alloc.Global.{Global};
ghost use Rattle.record_ledger.specs.declared.place.Place.{Place};
ghost use Rattle.record_ledger.specs.Buckets.{place_order};

use crate::orders::by_place;
use crate::place::Place;
use crate::spreading::spread;
use crate::store::Store;
use side_by_side::for_each_mut;
use std::thread::Threads;

/// Fewer places than these are sorted as they lie, by one thread.
const FEW: usize = 8192;

/// The most ranges of a share, a power of two. Where the next place of each goes stays in the nearest cache of a
/// processor.
const RANGES: usize = 1024;

/// The most shorter ranges of such a range, a power of two.
const SHORT_RANGES: usize = 64;

/// Sorts the places of each share into the written order of their records, by at most `threads` threads.
///
/// A thread brings those of its share into ranges of time, those of a long range into shorter ones, and sorts these one by
/// one; a last sort of the share then finds them in order.
pub fn sort_places<R: Threads + Sync>(
    rt: &R,
    store: &Store,
    order: &mut [Vec<Place>],
    threads: usize,
)
    requires { 0 < threads }
    ensures { AllZip (λ (before after : Vec Place Global). IsPermutation before.items after.items
        × IsSorted (place_order store.now) after.items) order.old order.new }
{
    for_each_mut(
        rt,
        order,
        threads,
        &|_, places: &mut Vec<Place>|
            ensures permutation { IsPermutation places.old.items places.new.items }
            ensures order { IsSorted (place_order store.entry.now) places.new.items }
        { sort_share(store, places) },
    );
}

/// Sorts the places of one share: where they are many, range by range first.
fn sort_share(store: &Store, order: &mut [Place])
    ensures permutation { IsPermutation order.old order.new }
    ensures many { length order.new ≡ length order.old }
    ensures order { IsSorted (place_order store.now) order.new }
{
    if order.len() >= FEW {
        let mut starts = [0; RANGES];
        spread(order, &mut starts);
        sort_in_turn(store, order, &starts, true);
    }
    order.sort_unstable_by(|one, other| by_place(store, one, other));
}

/// Sorts places range by range. Where `again` is set, those of a range with many are brought into shorter ranges first.
#[cycle(ranges)]
fn sort_in_turn(store: &Store, order: &mut [Place], starts: &[usize], again: bool)
    ensures permutation { IsPermutation order.old order.new }
    ensures many { length order.new ≡ length order.old }
{
    if starts.len() < 2 {
        sort_range(store, order, again);
    } else {
        let (first, second) = starts.split_at(starts.len() / 2);
        let before = second[0].saturating_sub(first[0]).min(order.len());
        let (low, high) = order.split_at_mut(before);
        sort_in_turn(store, low, first, again);
        sort_in_turn(store, high, second, again);
    }
}

/// Sorts the places of one range, those of shorter ranges by themselves where `again` is set and there are many.
#[cycle(ranges)]
fn sort_range(store: &Store, order: &mut [Place], again: bool)
    ensures permutation { IsPermutation order.old order.new }
    ensures many { length order.new ≡ length order.old }
{
    if again && order.len() >= SHORT_RANGES {
        let mut starts = [0; SHORT_RANGES];
        spread(order, &mut starts);
        sort_in_turn(store, order, &starts, false);
    } else {
        order.sort_unstable_by(|one, other| by_place(store, one, other));
    }
}
