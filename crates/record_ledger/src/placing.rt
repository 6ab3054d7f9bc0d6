//! The places of records in buckets.

ghost use Rattle.std.specs.Prelude.{◌≡◌, ◌+◌, ◌++◌, ◌<◌, Some, OnOk, length, slice_get, IsPermutation};
ghost use Rattle.record_ledger.specs.Buckets.{AreShared, Bucket, bucket_places, places_from, places_of};

use crate::leading::leading_number;
use crate::place::Place;
use crate::sharing::Shares;
use crate::store::Store;
use no_memory::NoMemory;

/// Adds the places of all records of the buckets, each to the list of its share.
pub fn add_all_places(
    store: &Store,
    shares: &Shares,
    order: &mut [Vec<Place>],
) -> Result<(), NoMemory>
    requires { length order.old ≡ length shares.now + 1 }
    ensures many { length order.new ≡ length order.old }
    ensures places { OnOk result (IsPermutation (places_of order.old
        ++ bucket_places (length store.now.pieces.items) store.now.buckets.items) (places_of order.new)) }
    ensures shared { OnOk result (AreShared shares.now order.old → AreShared shares.now order.new) }
{
    for bucket in 0..store.buckets.len() {
        add_places(store, shares, bucket, order)?;
    }
    Ok(())
}

/// Adds the places of the records of one bucket, each to the list of its share.
fn add_places(
    store: &Store,
    shares: &Shares,
    bucket: usize,
    order: &mut [Vec<Place>],
) -> Result<(), NoMemory>
    requires bucket { bucket < length store.now.buckets.items }
    requires many { length order.old ≡ length shares.now + 1 }
    ensures many { length order.new ≡ length order.old }
    ensures places { OnOk result ((b : Bucket) → slice_get store.now.buckets.items bucket ≡ Some b
        → IsPermutation (places_of order.old ++ places_from (length store.now.pieces.items + bucket) 0 b.items)
        (places_of order.new)) }
    ensures shared { OnOk result (AreShared shares.now order.old → AreShared shares.now order.new) }
{
    let number = store.pieces.len() + bucket;
    for at in 0..store.buckets[bucket].len() {
        let part = &store.buckets[bucket][at].part;
        order[shares.number(part.last)].push(Place {
            last: part.last,
            leading: leading_number(&part.key),
            bucket: number,
            at,
        })?;
    }
    Ok(())
}
