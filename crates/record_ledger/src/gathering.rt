//! Gathering: fragments as the lawful list of flow records.

ghost use Rattle.std.specs.Prelude.{◌<◌, ◌^◌, List, All, IfOk, sum_by};
ghost use Rattle.std.specs.Option.{unwrap_or};
ghost use Rattle.packet_accept.specs.declared.packet.Packet.{Packet};
ghost use Rattle.flow_parts.specs.declared.fragment.Fragment.{Fragment};
ghost use Rattle.flow_parts.specs.Sharing.{SharesOut};
ghost use Rattle.record_ledger.specs.Gathered.{IsGathered};
ghost use Rattle.record_ledger.specs.Regrouping.{Regroups};
ghost use Rattle.packet_accept.specs.Clock.{IsClock};
ghost use Rattle.record_ledger.specs.Lawful.{IsLawful, IsLawfulBy};
ghost use Rattle.record_ledger.specs.Sessions.{IsSessions, IsUncut, AreRecordsOf};

use crate::dealing::{Dealt, deal};
use crate::record_list::RecordList;
use crate::settling::settle_all;
use crate::store::Store;
use flow_parts::{PartList, Timeouts};
use no_memory::NoMemory;
use std::alloc::Global;
use std::thread::Threads;

/// Gathers fragments into flow records.
///
/// The fragments of one key are joined as long as two that follow each other by their last times are joinable; where
/// last times are equal, by first times, packets, octets and flags, so that the order of `parts` plays no part. Each
/// record gets its reason: [`END_OF_FLOW`](crate::END_OF_FLOW) where one of its packets ends the flow; else
/// [`IDLE_TIMEOUT`](crate::IDLE_TIMEOUT) where the next record of its key begins more than the idle time-out after
/// its last packet, or where there is none and `clock` is more than the idle time-out after it;
/// [`ACTIVE_TIMEOUT`](crate::ACTIVE_TIMEOUT) where the next record of its key begins sooner; and else
/// [`FORCED_END`](crate::FORCED_END). The records stand in the written order, by last time, then by key. `clock` is the
/// time of the latest packet of all, in milliseconds since 1970-01-01T00:00:00Z; `None` without a packet. It is taken
/// as given, even where `parts` holds the fragments of some keys alone, as long as it holds all of these.
///
/// Fragments whose keys no other has are records as they lie. The others are dealt to buckets by their keys. At most
/// `threads` threads find out which stay, and deal the others; one does both where there are fewer than 16,384 fragments. At
/// most `threads` sort, join and give reasons in the buckets, and then sort the places of all records, each those of a share
/// of time. It takes the time of sorting. What is held is `parts`, a record for each fragment that was dealt to a bucket,
/// and 32 bytes for the place of each record, and of each fragment until it was dealt; where all are dealt to buckets,
/// `parts` is let go.
///
/// # Errors
///
/// [`NoMemory`] where there is no memory for as many records as parts and for their places.
pub fn gather<R: Threads + Sync>(
    rt: &R,
    alloc: Global,
    parts: PartList,
    timeouts: Timeouts,
    clock: Option<u64>,
    threads: usize,
) -> Result<RecordList, NoMemory>
    requires threads { 0 < threads }
    requires packets { sum_by (λ (f : Fragment). f.packets) parts < 2 ^ 64 }
    requires octets { sum_by (λ (f : Fragment). f.octets) parts < 2 ^ 64 }
    ensures regroups { IfOk result (λ records. Regroups parts records) }
    ensures lawful_by { IfOk result (λ records. (packets : List Packet) → SharesOut timeouts packets parts
        → IsLawfulBy timeouts clock packets records) }
    ensures lawful { IfOk result (λ records. (packets : List Packet) → SharesOut timeouts packets parts
        → IsClock packets clock → IsLawful timeouts packets records) }
    ensures sessions { IfOk result (λ records. (packets : List Packet) → SharesOut timeouts packets parts
        → IsClock packets clock → (sessions : List (List Packet)) → IsSessions timeouts.idle packets sessions
        → All (IsUncut timeouts) sessions → AreRecordsOf timeouts packets sessions records) }
    ensures gathered { IfOk result (λ records. IsGathered timeouts (unwrap_or clock 0) parts records) }
{
    let clock = clock.unwrap_or(0);
    let Dealt {
        pieces,
        alone,
        mut buckets,
        shares,
    } = deal(rt, alloc, parts, threads)?;
    settle_all(rt, &mut buckets, &timeouts, clock, threads);
    let store = Store {
        pieces,
        buckets,
        timeouts,
        clock,
    };
    RecordList::in_order(rt, store, alone, &shares, threads)
}
