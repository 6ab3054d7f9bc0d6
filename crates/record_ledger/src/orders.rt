//! The order that records are sorted by before they are joined, and that of their places.

ghost use Rattle.std.specs.Prelude.{◌≡◌, IsPermutation, IsSorted, option_copied};
ghost use Rattle.std.specs.Option.{option_cmp};
ghost use Rattle.std.specs.Ordering.{nat_cmp, ordering_then};
ghost use Rattle.flow_key.specs.Key.{key_order};
ghost use Rattle.record_ledger.specs.Order.{joining_order, number_order};
ghost use Rattle.record_ledger.specs.Buckets.{place_order, record_order, seat_order};
ghost use Rattle.record_ledger.specs.declared.record.FlowRecord.{FlowRecord};

use crate::arranging::arrange;
use crate::place::Place;
use crate::record::FlowRecord;
use crate::store::Store;
use flow_key::FlowKey;
use flow_parts::Fragment;
use std::cmp::Ordering;

/// Sorts records into the order in which they are joined: by key, then by last time, then by the other numbers of the
/// fragment, so that records with the same key and last time have one order, too.
pub fn sort_by_key(records: &mut Vec<FlowRecord>)
    ensures permutation { IsPermutation records.old.items records.new.items }
    ensures order { IsSorted (λ (one other : FlowRecord). joining_order one.part other.part) records.new.items }
{
    arrange(records.as_mut_slice());
    records.sort_unstable_by(|one, other| by_key(one, other));
}

/// How two records stand in the order of joining.
#[inline]
fn by_key(one: &FlowRecord, other: &FlowRecord) -> Ordering
    ensures { result ≡ joining_order one.now.part other.now.part }
{
    match one.part.key.order(&other.part.key) {
        Ordering::Equal => by_numbers(&one.part, &other.part),
        apart => apart,
    }
}

/// How two fragments stand by last time, first time, packets, octets and flags.
fn by_numbers(one: &Fragment, other: &Fragment) -> Ordering
    ensures { result ≡ number_order one.now other.now }
{
    let sizes = one
        .octets
        .cmp(&other.octets)
        .then(one.flags.cmp(&other.flags));
    let counts = one.packets.cmp(&other.packets).then(sizes);
    let times = one.first.cmp(&other.first).then(counts);
    one.last.cmp(&other.last).then(times)
}

/// How two places stand in the written order of their records: by last time and by the leading number of the key, which
/// are in the place, and only where two tie by the keys, which are looked up in the store. Places whose records tie by
/// all of these stand as the records lie there.
#[inline]
pub fn by_place(store: &Store, one: &Place, other: &Place) -> Ordering
    ensures { result ≡ place_order store.now one.now other.now }
{
    match one.last.cmp(&other.last) {
        Ordering::Equal => by_leading(store, one, other),
        apart => apart,
    }
}

/// How two places stand by the leading numbers of their records' keys, and where these tie by the records.
#[inline]
fn by_leading(store: &Store, one: &Place, other: &Place) -> Ordering
    ensures { result ≡ ordering_then (nat_cmp one.now.leading other.now.leading)
        (record_order store.now one.now other.now) }
{
    match one.leading.cmp(&other.leading) {
        Ordering::Equal => by_record(store, one, other),
        apart => apart,
    }
}

/// How two places stand by the keys of their records, and then as these lie in the store.
fn by_record(store: &Store, one: &Place, other: &Place) -> Ordering
    ensures { result ≡ record_order store.now one.now other.now }
{
    let keys = by_found(store.key_at(one), store.key_at(other));
    keys.then(by_seat(one, other))
}

/// How two places stand by piece or bucket, then by place in it.
fn by_seat(one: &Place, other: &Place) -> Ordering
    ensures { result ≡ seat_order one.now other.now }
{
    one.bucket.cmp(&other.bucket).then(one.at.cmp(&other.at))
}

/// How two keys stand, where there are both.
pub fn by_found(one: Option<&FlowKey>, other: Option<&FlowKey>) -> Ordering
    ensures { result ≡ option_cmp key_order (option_copied one.entry) (option_copied other.entry) }
{
    match (one, other) {
        (Some(one), Some(other)) => one.order(other),
        (Some(_), None) => Ordering::Greater,
        (None, Some(_)) => Ordering::Less,
        (None, None) => Ordering::Equal,
    }
}
