//! What a seat has done, and how it meters records.

ghost use Rattle.std.specs.Prelude.{◌≡◌, ◌+◌, ◌*◌, ◌^◌, ◌<◌, ◌≤◌, ◌++◌, ◌∷◌, [], List, length, All, None};
ghost use Rattle.std.specs.Prelude.{IfOk, IfSome, OnOk, slice_range};
ghost use Rattle.flow_parts.specs.Parts.{IsAlone};
ghost use Rattle.flow_parts.specs.Reaching.{Reaches};
ghost use Rattle.flow_parts.specs.declared.fragment.Fragment.{Fragment};
ghost use Rattle.cache_face.specs.Keeping.{IsBounded, packet_count};
ghost use Rattle.cache_face.specs.Meaning.{IsFresh};
ghost use Rattle.front_cache.specs.Fronts.{open_in};
ghost use Rattle.capture_input.specs.Parts.{Answer, answers_by};
ghost use Rattle.meter_workers.specs.Shares.{HasMetered, IsEmptied, IsSeatOf, IsShareOf, put_by};

use cache_face::FlowCache;
use capture_input::Part;
use capture_tally::{Tally, room_law};
use flow_parts::laws::{
    reaching_shares_out, sharing_out_counts, sharing_out_goes_on, sharing_out_stands,
};
use flow_parts::{Fragment, PartList, Timeouts};
use front_cache::Front;
use no_memory::NoMemory;
use packet_accept::{Packet, accept};
use std::alloc::Global;

/// What a seat of the cache has done: its pass of the cache, its front, where it has one, the fragments that the cache
/// handed it, and the tally of its records.
#[derive(Drop)]
pub struct Share<C: FlowCache> {
    pub pass: C::Pass,
    pub front: Option<Front>,
    pub parts: PartList,
    pub tally: Tally,
}

/// Puts a fragment into the cache, and keeps what this hands out.
fn put_in<C: FlowCache>(
    cache: &C,
    pass: &mut C::Pass,
    parts: &mut PartList,
    part: &Fragment,
) -> Result<(), NoMemory>
    requires own { C.is_of cache.now pass.old }
    requires single { (C.shown pass.old).note.seats ≡ 1 }
    requires bounded { IsBounded part.now }
    requires room { packet_count (C.shown pass.old).note.taken + part.now.packets ≤ 2 ^ 32 }
    ensures own { C.is_of cache.now pass.new }
    ensures single { (C.shown pass.new).note.seats ≡ 1 }
    ensures taken { (C.shown pass.new).note.taken ≡ (C.shown pass.old).note.taken ++ part.now ∷ [] }
    ensures handed { OnOk result (parts.old ≡ (C.shown pass.old).note.handed
        → parts.new ≡ (C.shown pass.new).note.handed) }
{
    let metered = cache.meter_part(pass, part);
    if let Some(fragment) = metered.out {
        let alloc = *parts.allocator();
        parts.push(alloc, fragment)?;
    }
    Ok(())
}

/// Lets a fragment of one packet go by the cache, and keeps it.
fn let_by<C: FlowCache>(
    cache: &C,
    pass: &mut C::Pass,
    parts: &mut PartList,
    part: &Fragment,
) -> Result<(), NoMemory>
    requires own { C.is_of cache.now pass.old }
    requires single { (C.shown pass.old).note.seats ≡ 1 }
    requires alone { part.now.packets ≡ 1 }
    requires bounded { IsBounded part.now }
    requires room { packet_count (C.shown pass.old).note.taken + part.now.packets ≤ 2 ^ 32 }
    ensures own { C.is_of cache.now pass.new }
    ensures single { (C.shown pass.new).note.seats ≡ 1 }
    ensures taken { (C.shown pass.new).note.taken ≡ (C.shown pass.old).note.taken ++ part.now ∷ [] }
    ensures handed { OnOk result (parts.old ≡ (C.shown pass.old).note.handed
        → parts.new ≡ (C.shown pass.new).note.handed) }
{
    cache.bypass(pass, part);
    let alloc = *parts.allocator();
    parts.push(alloc, *part)?;
    Ok(())
}

/// Puts a fragment that left a front into the cache. One of a single packet goes by: most of these would be driven out
/// again before any packet joined them.
fn admit<C: FlowCache>(
    cache: &C,
    pass: &mut C::Pass,
    parts: &mut PartList,
    part: &Fragment,
) -> Result<(), NoMemory>
    requires own { C.is_of cache.now pass.old }
    requires single { (C.shown pass.old).note.seats ≡ 1 }
    requires bounded { IsBounded part.now }
    requires room { packet_count (C.shown pass.old).note.taken + part.now.packets ≤ 2 ^ 32 }
    ensures own { C.is_of cache.now pass.new }
    ensures single { (C.shown pass.new).note.seats ≡ 1 }
    ensures taken { (C.shown pass.new).note.taken ≡ (C.shown pass.old).note.taken ++ part.now ∷ [] }
    ensures handed { OnOk result (parts.old ≡ (C.shown pass.old).note.handed
        → parts.new ≡ (C.shown pass.new).note.handed) }
{
    if part.packets == 1 {
        let_by(cache, pass, parts, part)
    } else {
        put_in(cache, pass, parts, part)
    }
}

/// Meters a packet: through the front where there is one, of which only what leaves it is admitted to the cache.
fn meter_packet<C: FlowCache>(
    cache: &C,
    pass: &mut C::Pass,
    front: &mut Option<Front>,
    parts: &mut PartList,
    packet: &Packet,
) -> Result<(), NoMemory>
    requires seated { IsSeatOf C.FlowCache cache.now pass.old front.old }
    requires octets { packet.now.octets < 2 ^ 24 }
    requires room { packet_count (put_by (C.shown pass.old) front.old) < 2 ^ 32 }
    ensures seated { OnOk result (IsSeatOf C.FlowCache cache.now pass.new front.new) }
    ensures reached { OnOk result ((own : Fragment) × IsAlone packet.now own × Reaches (C.means cache.now).limits
        (own ∷ put_by (C.shown pass.old) front.old) (put_by (C.shown pass.new) front.new)) }
    ensures handed { OnOk result (parts.old ≡ (C.shown pass.old).note.handed
        → parts.new ≡ (C.shown pass.new).note.handed) }
{
    match front {
        Some(front) => match front.take_in(packet) {
            Some(out) => admit(cache, pass, parts, &out),
            None => Ok(()),
        },
        None => put_in(cache, pass, parts, &Fragment::of(packet)),
    }
}

/// Tallies a record of a part, and meters its packet where it has one.
fn meter_record<C: FlowCache>(
    cache: &C,
    part: &Part<'_>,
    n: u64,
    share: &mut Share<C>,
) -> Result<(), NoMemory>
    requires share { (done : List Answer) × IsShareOf C.FlowCache cache.now done share.old }
    requires number { n < length part.now.index.now.offsets }
    requires room { share.old.tally.captured < 2 ^ 32 }
    ensures share { OnOk result (HasMetered C.FlowCache cache.now (slice_range (answers_by part.now) n (n + 1))
        share.old share.new) }
    ensures captured { OnOk result (share.new.tally.captured ≡ share.old.tally.captured + 1) }
{
    room_law();
    sharing_out_counts();
    sharing_out_goes_on();
    reaching_shares_out();
    let record = part.capture.record(part.index, n);
    let answer = accept(&part.capture, &record, part.base + n);
    share.tally.add(&answer);
    match answer {
        Ok(packet) => meter_packet(
            cache,
            &mut share.pass,
            &mut share.front,
            &mut share.parts,
            &packet,
        ),
        Err(_) => Ok(()),
    }
}

/// Meters the records of a part from the one numbered `from` on and before that numbered `to`, in order.
pub(crate) fn meter_run<C: FlowCache>(
    cache: &C,
    part: &Part<'_>,
    from: u64,
    to: u64,
    share: &mut Share<C>,
) -> Result<(), NoMemory>
    requires share { (done : List Answer) × IsShareOf C.FlowCache cache.now done share.old }
    requires run { (from ≤ to) × (to ≤ length part.now.index.now.offsets) }
    requires room { share.old.tally.captured + to ≤ 2 ^ 32 + from }
    ensures share { OnOk result (HasMetered C.FlowCache cache.now (slice_range (answers_by part.now) from to)
        share.old share.new) }
    ensures captured { OnOk result (share.new.tally.captured + from ≡ share.old.tally.captured + to) }
{
    for n in from..to {
        meter_record(cache, part, n, share)?;
    }
    Ok(())
}

/// A share that has done nothing, with a front of these time-outs or none.
fn open_share<C: FlowCache>(
    alloc: Global,
    _cache: &C,
    pass: C::Pass,
    front: Option<Timeouts>,
) -> Result<Share<C>, NoMemory>
    requires pass { C.is_of _cache.now pass × IsFresh (C.shown pass) }
    requires front { IfSome front (λ timeouts. timeouts ≡ (C.means _cache.now).limits) }
    ensures { IfOk result (IsShareOf C.FlowCache _cache.now []) }
{
    sharing_out_stands();
    let front = match front {
        Some(timeouts) => Some(Front::open(alloc, timeouts)?),
        None => None,
    };
    Ok(Share {
        pass,
        front,
        parts: PartList::new(alloc),
        tally: Tally::new(),
    })
}

/// A share for each pass, in their order.
pub(crate) fn open_shares<C: FlowCache>(
    alloc: Global,
    cache: &C,
    passes: Vec<C::Pass>,
    front: Option<Timeouts>,
) -> Result<Vec<Share<C>>, NoMemory>
    requires passes { All (λ p. C.is_of cache.now p × IsFresh (C.shown p)) passes.items }
    requires front { IfSome front (λ timeouts. timeouts ≡ (C.means cache.now).limits) }
    ensures many { IfOk result (λ shares. length shares.items ≡ length passes.items) }
    ensures shares { IfOk result (λ shares. All (IsShareOf C.FlowCache cache.now []) shares.items) }
{
    let mut passes = passes;
    let mut shares = Vec::new(alloc);
    while let Some(pass) = passes.pop() {
        shares.insert(0, open_share(alloc, cache, pass, front)?)?;
    }
    Ok(shares)
}

/// Empties a front into the cache, where there is one.
fn empty_front<C: FlowCache>(
    cache: &C,
    pass: &mut C::Pass,
    parts: &mut PartList,
    front: Option<Front>,
) -> Result<(), NoMemory>
    requires own { C.is_of cache.now pass.old }
    requires single { (C.shown pass.old).note.seats ≡ 1 }
    requires room { packet_count (put_by (C.shown pass.old) front) ≤ 2 ^ 32 }
    ensures own { OnOk result (C.is_of cache.now pass.new) }
    ensures single { OnOk result ((C.shown pass.new).note.seats ≡ 1) }
    ensures taken { OnOk result ((C.shown pass.new).note.taken ≡ put_by (C.shown pass.old) front) }
    ensures handed { OnOk result (parts.old ≡ (C.shown pass.old).note.handed
        → parts.new ≡ (C.shown pass.new).note.handed) }
{
    let Some(mut front) = front else {
        return Ok(());
    };
    while let Some(out) = front.take_out() {
        admit(cache, pass, parts, &out)?;
    }
    Ok(())
}

/// Empties the front of a share into the cache through its own pass, where it has one.
pub(crate) fn empty_share<C: FlowCache>(cache: &C, share: &mut Share<C>) -> Result<(), NoMemory>
    requires share { (done : List Answer) × IsShareOf C.FlowCache cache.now done share.old }
    ensures share { (done : List Answer) → IsShareOf C.FlowCache cache.now done share.old
        → OnOk result (IsEmptied C.FlowCache cache.now done share.new) }
{
    sharing_out_counts();
    let front = share.front.take();
    empty_front(cache, &mut share.pass, &mut share.parts, front)
}
