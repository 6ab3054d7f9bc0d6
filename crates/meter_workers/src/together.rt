//! What all seats did together.

ghost use Rattle.std.specs.Prelude.{◌≡◌, ◌+◌, ◌++◌, ◌<◌, ◌≤◌, List, length, IfOk};
ghost use Rattle.capture_input.specs.Parts.{Answer};
ghost use Rattle.work_pieces.specs.Doing.{HaveDone};
ghost use Rattle.meter_workers.specs.Shares.{IsShareOf, IsEmptied};
ghost use Rattle.meter_workers.specs.Whole.{HaveMetered};

use crate::emptying::empty_fronts;
use crate::engine::Engine;
use crate::gate::Gate;
use crate::share::Share;
use cache_face::FlowCache;
use capture_tally::{Tally, order_law, room_law};
use flow_parts::PartList;
use flow_parts::laws::sharing_out_stands;
use no_memory::NoMemory;
use std::thread::Threads;

/// What all workers did together with a capture: one pass for all seats, the fragments that it was handed, the tally,
/// and how many bytes are left behind the last record.
#[derive(Drop)]
pub struct CaptureMetered<C: FlowCache> {
    pub pass: C::Pass,
    pub parts: PartList,
    pub tally: Tally,
    pub tail: u64,
}

/// What a share did, whose front was emptied.
fn finish<C: FlowCache>(_cache: &C, share: Share<C>, tail: u64) -> CaptureMetered<C>
    requires share { (done : List Answer) × IsEmptied C.FlowCache _cache.now done share }
    ensures metered { (done : List Answer) → IsEmptied C.FlowCache _cache.now done share
        → HaveMetered C.FlowCache _cache.now done result }
    ensures seats { (C.shown result.pass).note.seats ≡ 1 }
    ensures tail { result.tail ≡ tail }
{
    let Share {
        pass,
        parts,
        tally,
        ..
    } = share;
    CaptureMetered {
        pass,
        parts,
        tally,
        tail,
    }
}

/// What both did.
fn unite<C: FlowCache>(
    cache: &C,
    one: CaptureMetered<C>,
    other: CaptureMetered<C>,
) -> Result<CaptureMetered<C>, NoMemory>
    requires seats { (C.shown one.pass).note.seats + (C.shown other.pass).note.seats ≤ 64 }
    requires metered { (done rest : List Answer) × HaveMetered C.FlowCache cache.now done one
        × HaveMetered C.FlowCache cache.now rest other }
    ensures metered { (done rest : List Answer) → HaveMetered C.FlowCache cache.now done one
        → HaveMetered C.FlowCache cache.now rest other
        → IfOk result (HaveMetered C.FlowCache cache.now (done ++ rest)) }
    ensures seats { IfOk result (λ r. (C.shown r.pass).note.seats
        ≡ (C.shown one.pass).note.seats + (C.shown other.pass).note.seats) }
    ensures tail { IfOk result (λ r. r.tail ≡ one.tail) }
{
    room_law();
    sharing_out_stands();
    let mut parts = one.parts;
    parts.append(other.parts)?;
    Ok(CaptureMetered {
        pass: cache.unite(one.pass, other.pass),
        parts,
        tally: one.tally.sum_with(&other.tally),
        tail: one.tail,
    })
}

/// What all shares did, with `tail` bytes left behind the last record: each front is emptied into the cache through its
/// own pass, in a thread of its own.
pub(crate) fn unite_shares<C: FlowCache, G: Gate, R: Threads + Sync>(
    engine: &Engine<'_, R, G>,
    cache: &C,
    shares: Vec<Share<C>>,
    tail: u64,
) -> Result<CaptureMetered<C>, NoMemory>
    requires many { (0 < length shares.items) × (length shares.items ≤ 64) }
    requires metered { (answers : List Answer) × HaveDone (IsShareOf C.FlowCache cache.now) answers shares.items }
    ensures metered { (answers : List Answer) → HaveDone (IsShareOf C.FlowCache cache.now) answers shares.items
        → IfOk result (HaveMetered C.FlowCache cache.now answers) }
    ensures own { IfOk result (λ r. C.is_of cache.now r.pass × ((C.shown r.pass).note.seats ≡ length shares.items)) }
    ensures tail { IfOk result (λ r. r.tail ≡ tail) }
{
    order_law();
    sharing_out_stands();
    let mut emptied = empty_fronts(engine, cache, shares)?;
    let Some(last) = emptied.pop() else {
        unreachable!()
    };
    let mut all = finish(cache, last?, tail);
    while let Some(share) = emptied.pop() {
        let one = finish(cache, share?, tail);
        all = unite(cache, all, one)?;
    }
    Ok(all)
}
