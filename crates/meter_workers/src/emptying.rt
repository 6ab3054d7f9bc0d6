//! The fronts of all shares, which are emptied side by side.

ghost use Rattle.std.specs.Prelude.{◌≡◌, ◌<◌, List, length, map, All, Ok, IfOk};
ghost use Rattle.std.specs.List.{AllZip};
ghost use Rattle.capture_input.specs.Parts.{Answer};
ghost use Rattle.work_pieces.specs.Doing.{HaveDone};
ghost use Rattle.meter_workers.specs.Shares.{IsShareOf, IsToEmpty, HasEmptied, StandsEmptied};

use crate::engine::Engine;
use crate::gate::Gate;
use crate::share::{Share, empty_share};
use cache_face::FlowCache;
use no_memory::NoMemory;
use side_by_side::for_each_mut;
use std::alloc::Global;
use std::thread::Threads;

/// A place for each share, in their order: the share stands there, or that memory ran out for it.
fn place_shares<C: FlowCache>(
    alloc: Global,
    shares: Vec<Share<C>>,
) -> Result<Vec<Result<Share<C>, NoMemory>>, NoMemory>
    ensures { IfOk result (λ places. places.items ≡ map Ok shares.items) }
{
    let mut shares = shares;
    let mut places = Vec::new(alloc);
    while let Some(share) = shares.pop() {
        places.insert(0, Ok(share))?;
    }
    Ok(places)
}

/// Empties the front of the share at a place. Where memory runs out for it, that stands there instead.
fn empty_place<C: FlowCache>(cache: &C, place: &mut Result<Share<C>, NoMemory>)
    requires ready { IsToEmpty C.FlowCache cache.now place.old }
    ensures emptied { HasEmptied C.FlowCache cache.now place.old place.new }
{
    let Ok(share) = place else {
        return;
    };
    if let Err(fault) = empty_share(cache, share) {
        *place = Err(fault);
    }
}

/// Empties the fronts of the shares at all places, each in a thread of its own.
fn empty_places<C: FlowCache, R: Threads + Sync>(
    rt: &R,
    cache: &C,
    mut places: Vec<Result<Share<C>, NoMemory>>,
) -> Vec<Result<Share<C>, NoMemory>>
    requires some { 0 < length places.items }
    requires ready { All (IsToEmpty C.FlowCache cache.now) places.items }
    ensures emptied { AllZip (HasEmptied C.FlowCache cache.now) places.items result.items }
{
    let threads = places.len();
    for_each_mut(
        rt,
        places.as_mut_slice(),
        threads,
        &|_, place: &mut Result<Share<C>, NoMemory>|
            requires ready { IsToEmpty C.FlowCache cache.now place.old }
            ensures emptied { HasEmptied C.FlowCache cache.entry.now place.old place.new }
        { empty_place(cache, place) },
    );
    places
}

/// Empties the fronts of all shares into the cache, each through its own pass and in a thread of its own. Tells of each
/// share, in their order, whether there was memory for what came out of its front.
pub(crate) fn empty_fronts<C: FlowCache, G: Gate, R: Threads + Sync>(
    engine: &Engine<'_, R, G>,
    cache: &C,
    shares: Vec<Share<C>>,
) -> Result<Vec<Result<Share<C>, NoMemory>>, NoMemory>
    requires some { 0 < length shares.items }
    requires metered { (answers : List Answer) × HaveDone (IsShareOf C.FlowCache cache.now) answers shares.items }
    ensures many { IfOk result (λ emptied. length emptied.items ≡ length shares.items) }
    ensures metered { (answers : List Answer) → HaveDone (IsShareOf C.FlowCache cache.now) answers shares.items
        → IfOk result (λ emptied. HaveDone (StandsEmptied C.FlowCache cache.now) answers emptied.items) }
{
    let places = place_shares(engine.alloc, shares)?;
    Ok(empty_places(engine.rt, cache, places))
}
