//! Records in the written order, held where they lie.

ghost use Rattle.std.specs.Prelude.{◌≡◌, ◌≢◌, ◌<◌, ◌≤◌, ◌-◌, ◌^◌, ◌++◌, ℕ, List, length, take, drop, slice_index_or};
ghost use Rattle.std.specs.Prelude.{All, IsPermutation, IsSorted, IfOk, Some, option_map};
ghost use Rattle.std.specs.List.{AllZip};
ghost use Rattle.flow_key.specs.declared.key.FlowKey.{FlowKey};
ghost use Rattle.record_ledger.specs.declared.record.FlowRecord.{FlowRecord};
ghost use Rattle.record_ledger.specs.declared.place.Place.{Place};
ghost use Rattle.record_ledger.specs.Buckets.{records_of, AreShared, EndInTurn, IsPlace, IsPlaceOf, places_of, record_at};
ghost use Rattle.record_ledger.specs.Lawful.{of_key};
ghost use Rattle.record_ledger.specs.Order.{written_order};
ghost use Rattle.record_ledger.specs.Steps.{Rises};

use crate::place::{Place, no_place};
use crate::placing::add_all_places;
use crate::record::FlowRecord;
use crate::run::{RUN, Run};
use crate::sharing::Shares;
use crate::sorting::sort_places;
use crate::store::Store;
use no_memory::NoMemory;
use std::alloc::Global;
use std::marker::Model;
use std::thread::Threads;

/// Records in the written order: by last time, then by key. Contracts see it as the list.
///
/// The records stay where they were gathered; beside them lies their order, 32 bytes for each.
#[derive(Drop)]
pub struct RecordList {
    store: Store,
    /// The places of the records, in lists that follow one another.
    order: Vec<Vec<Place>>,
    /// How many records there are.
    count: usize,
}

impl Model for RecordList {
    ghost use Rattle.std.specs.Prelude.{◌≡◌, List, All, length};
    ghost use Rattle.record_ledger.specs.declared.record.FlowRecord as declared;
    ghost use Rattle.record_ledger.specs.Buckets.{records_at, IsPlace, places_of};

    ghost Value = { List declared.FlowRecord };

    ghost view = { λ s. records_at s.store (places_of s.order.items) };

    ghost invariant = { λ s. All (IsPlace s.store) (places_of s.order.items)
        × (s.count ≡ length (places_of s.order.items)) };
}

impl RecordList {
    /// The records of a store, put into the written order by at most `threads` threads. `alone` has the places of those
    /// in its pieces, a list for each share of time, and no two of these have one key.
    pub(crate) fn in_order<R: Threads + Sync>(
        rt: &R,
        store: Store,
        alone: Vec<Vec<Place>>,
        shares: &Shares,
        threads: usize,
    ) -> Result<RecordList, NoMemory>
        requires threads { 0 < threads }
        requires places { (first : List FlowRecord) × AllZip (IsPlaceOf store) first (places_of alone.items)
            × Rises (λ (r s : FlowRecord). r.part.key ≢ s.part.key) first }
        requires below { All (λ (place : Place). place.bucket < length store.pieces.items) (places_of alone.items) }
        requires shared { AreShared shares.now alone.items }
        ensures permutation { IfOk result (λ records. (first : List FlowRecord)
            → AllZip (IsPlaceOf store) first (places_of alone.items)
            → IsPermutation (first ++ records_of store.buckets.items) records) }
        ensures order { IfOk result (λ records. IsSorted written_order records) }
        ensures by_key { IfOk result (λ records. (first : List FlowRecord)
            → AllZip (IsPlaceOf store) first (places_of alone.items)
            → EndInTurn (first ++ records_of store.buckets.items)
            → (key : FlowKey) → of_key key (first ++ records_of store.buckets.items) ≡ of_key key records) }
    {
        let mut order = alone;
        add_all_places(&store, shares, &mut order)?;
        sort_places(rt, &store, &mut order, threads);
        let count = count_of(*order.allocator(), &order)?;
        Ok(RecordList {
            store,
            order,
            count,
        })
    }

    /// How many records there are.
    pub fn len(&self) -> usize
        ensures { result ≡ length self.now }
    {
        self.count
    }

    /// The record at a place of the list, from 0.
    pub fn get(&self, place: usize) -> FlowRecord
        requires { place < length self.now }
        ensures { result ≡ slice_index_or self.now place result }
    {
        let place = place_at(&self.order, place);
        let part = *self.store.part_at(&place);
        FlowRecord {
            part,
            reason: self.store.reason_at(&place, &part),
        }
    }

    /// Copies the records from a place of the list on, at most 16 of them, into `run`. They lie far apart in memory,
    /// and are fetched together.
    pub fn copy_run(&self, place: usize, run: &mut Run)
        ensures { run.new ≡ take 16 (drop place self.now) }
    {
        let count = self.len().saturating_sub(place).min(RUN);
        let mut places = [no_place(); RUN];
        let places = &mut places[..count];
        copy_places(&self.order, place, places);
        copy_parts(&self.store, places, &mut run.records[..count]);
        give_reasons(&self.store, places, &mut run.records[..count]);
        run.count = count;
    }
}

/// How many places lists have that follow one another. Room for an octet each is asked for, and let go again: where they
/// are more than can be counted, it is refused.
fn count_of(alloc: Global, order: &[Vec<Place>]) -> Result<usize, NoMemory>
    ensures { IfOk result (λ count. count ≡ length (places_of order.now)) }
{
    let mut count = 0usize;
    for places in order {
        count = count.saturating_add(places.len());
    }
    let _room: Vec<u8> = Vec::with_capacity(alloc, count)?;
    Ok(count)
}

/// The place with this number, from 0, of lists that follow one another.
fn place_at(order: &[Vec<Place>], number: usize) -> Place
    requires { number < length (places_of order.now) }
    ensures { result ≡ slice_index_or (places_of order.now) number result }
{
    let mut left = number;
    for places in order {
        if left < places.len() {
            return places[left];
        }
        left -= places.len();
    }
    unreachable!()
}

/// Copies places from the one with this number on, of lists that follow one another.
#[inline(always)]
fn copy_places(order: &[Vec<Place>], number: usize, copies: &mut [Place])
    requires few { length (places_of order.now) < 2 ^ 64 }
    requires room { length copies.old ≤ length (places_of order.now) - number }
    ensures { copies.new ≡ take (length copies.old) (drop number (places_of order.now)) }
{
    let mut left = number;
    for places in order {
        if left < places.len() {
            if copies.len() <= places.len() - left {
                copies.copy_from_slice(&places[left..left + copies.len()]);
                return;
            }
            break;
        }
        left -= places.len();
    }
    copy_each_place(order, number, copies);
}

/// Copies places from the one with this number on, each by itself: they may lie in several lists.
fn copy_each_place(order: &[Vec<Place>], number: usize, copies: &mut [Place])
    requires few { length (places_of order.now) < 2 ^ 64 }
    requires room { length copies.old ≤ length (places_of order.now) - number }
    ensures { copies.new ≡ take (length copies.old) (drop number (places_of order.now)) }
{
    for at in 0..copies.len() {
        copies[at] = place_at(order, number + at);
    }
}

/// Copies the fragments of the records at some places.
#[inline(always)]
fn copy_parts(store: &Store, places: &[Place], run: &mut [FlowRecord])
    requires many { length run.old ≡ length places.now }
    requires places { All (IsPlace store.now) places.now }
    ensures many { length run.new ≡ length run.old }
    ensures parts { (k : ℕ) (p : Place) (r : FlowRecord) → k < length places.now
        → option_map (λ (r : FlowRecord). r.part) (record_at store.now (slice_index_or places.now k p))
        ≡ Some (slice_index_or run.new k r).part }
{
    for at in 0..run.len() {
        run[at] = FlowRecord {
            part: *store.part_at(&places[at]),
            reason: 0,
        };
    }
}

/// Gives the copies their reasons.
#[inline(always)]
fn give_reasons(store: &Store, places: &[Place], run: &mut [FlowRecord])
    requires many { length run.old ≡ length places.now }
    requires places { All (IsPlace store.now) places.now }
    requires parts { (k : ℕ) (p : Place) (r : FlowRecord) → k < length places.now
        → option_map (λ (r : FlowRecord). r.part) (record_at store.now (slice_index_or places.now k p))
        ≡ Some (slice_index_or run.old k r).part }
    ensures many { length run.new ≡ length run.old }
    ensures records { (k : ℕ) (p : Place) (r : FlowRecord) → k < length places.now
        → record_at store.now (slice_index_or places.now k p) ≡ Some (slice_index_or run.new k r) }
{
    for at in 0..run.len() {
        let part = run[at].part;
        run[at].reason = store.reason_at(&places[at], &part);
    }
}
