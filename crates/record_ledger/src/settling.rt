//! Settling: the records of each bucket sorted, joined and given their reasons, by threads.

ghost use Rattle.std.specs.Prelude.{◌≡◌, ◌<◌, ◌^◌, All, sum_by, length};
ghost use Rattle.std.specs.List.{AllZip};
ghost use Rattle.flow_parts.specs.declared.fragment.Fragment.{Fragment};
ghost use Rattle.record_ledger.specs.Lawful.{parts_of};
ghost use Rattle.record_ledger.specs.Buckets.{Bucket, records_of, AreSettled};

use crate::joining::join_neighbours;
use crate::orders::sort_by_key;
use crate::reasons::give_reasons;
use crate::record::FlowRecord;
use flow_parts::Timeouts;
use side_by_side::for_each_mut;
use std::thread::Threads;

/// Settles the records of all buckets, by at most `threads` threads.
pub fn settle_all<R: Threads + Sync>(
    rt: &R,
    buckets: &mut [Vec<FlowRecord>],
    timeouts: &Timeouts,
    clock: u64,
    threads: usize,
)
    requires threads { 0 < threads }
    requires packets { sum_by (λ (f : Fragment). f.packets) (parts_of (records_of buckets.old)) < 2 ^ 64 }
    requires octets { sum_by (λ (f : Fragment). f.octets) (parts_of (records_of buckets.old)) < 2 ^ 64 }
    ensures { AllZip (λ (before after : Bucket). AreSettled timeouts.now clock before.items after.items)
        buckets.old buckets.new }
{
    for_each_mut(
        rt,
        buckets,
        threads,
        &|_, bucket: &mut Vec<FlowRecord>|
            requires packets { sum_by (λ (f : Fragment). f.packets) (parts_of bucket.old.items) < 2 ^ 64 }
            requires octets { sum_by (λ (f : Fragment). f.octets) (parts_of bucket.old.items) < 2 ^ 64 }
            ensures { AreSettled timeouts.entry.now clock bucket.old.items bucket.new.items }
        { settle_bucket(bucket, timeouts, clock) },
    );
}

/// Sorts the records of a bucket by key, joins those that are joinable, and gives each its reason.
fn settle_bucket(bucket: &mut Vec<FlowRecord>, timeouts: &Timeouts, clock: u64)
    requires packets { sum_by (λ (f : Fragment). f.packets) (parts_of bucket.old.items) < 2 ^ 64 }
    requires octets { sum_by (λ (f : Fragment). f.octets) (parts_of bucket.old.items) < 2 ^ 64 }
    ensures { AreSettled timeouts.now clock bucket.old.items bucket.new.items }
{
    sort_by_key(bucket);
    join_neighbours(bucket, timeouts);
    give_reasons(bucket, timeouts, clock);
}
