//! A capture that is read in windows: each is metered before the next is read, or while it is read (`ahead.rt`).

ghost use Rattle.std.specs.Prelude.{◌≡◌, ◌≢◌, ◌+◌, ◌++◌, ◌^◌, ◌<◌, ◌≤◌, [], List, length, All};
ghost use Rattle.std.specs.Prelude.{IfOk, IfErr, IfSome, OnOk, IsPermutation};
ghost use Rattle.std.specs.List.{AllZip};
ghost use Rattle.meter_io.specs.Sides.{side};
ghost use Rattle.packet_accept.specs.Packets.{packets_in};
ghost use Rattle.flow_parts.specs.Sharing.{SharesOut};
ghost use Rattle.capture_tally.specs.Tallies.{IsTallyOf};
ghost use Rattle.cache_face.specs.Meaning.{IsFresh as IsFreshPass};
ghost use Rattle.capture_input.specs.Refusals.{IsRefused, HasFaults};
ghost use Rattle.capture_input.specs.Parts.{Answer, answers_by};
ghost use Rattle.capture_input.specs.Giving.{IsReadWhole};
ghost use Rattle.work_pieces.specs.Doing.{HasWorked, HasDrawnAll, HaveDone};
ghost use Rattle.work_pieces.specs.Passes.{count_of};
ghost use Rattle.meter_workers.specs.Shares.{IsShareOf};
ghost use Rattle.meter_workers.specs.Working.{IsReady, IsToDraw};
ghost use Rattle.meter_workers.specs.Whole.{IsMeteredWhole};

use crate::ahead::meter_parts_ahead;
use crate::engine::Engine;
use crate::gate::Gate;
use crate::share::{Share, meter_run, open_shares};
use crate::together::{CaptureMetered, unite_shares};
use cache_face::FlowCache;
use capture_input::{MeterFault, Part, Reading};
use flow_parts::Timeouts;
use meter_io::Source;
use no_memory::NoMemory;
use side_by_side::for_each_mut;
use std::thread::Threads;
use work_pieces::{DrawPass, Pieces, WorkState, Worker, seat_workers, unseat_workers};

/// How a capture is metered in windows.
#[derive(Clone, Copy, Debug)]
pub struct Windows {
    /// How many bytes a window has, from 262,184 to 2^27.
    pub size: usize,
    /// The most bytes that the input may have; at most 2^30.
    pub limit: u64,
    /// How many records a piece has, from 1 to 65,536.
    pub piece: u64,
    /// The time-outs of the workers' fronts, where they have some: those of the cache.
    pub front: Option<Timeouts>,
    pub ghost size_bounds: { (262184 ≤ size) × (size ≤ 2 ^ 27) },
    pub ghost limit_bound: { limit ≤ 2 ^ 30 },
    pub ghost piece_bounds: { (0 < piece) × (piece ≤ 65536) },
}

/// Draws pieces of a part and meters their records, until none is left. The gate is told of each piece before it is
/// metered.
fn work_through<C: FlowCache, G: Gate>(
    part: &Part<'_>,
    pieces: &Pieces,
    cache: &C,
    gate: &G,
    number: usize,
    draw: &mut DrawPass,
    share: &mut Share<C>,
) -> Result<(), NoMemory>
    requires ready { IsReady C.FlowCache cache.now pieces.now part.now.base share.old draw.old }
    requires whole { count_of pieces.now ≡ length part.now.index.now.offsets }
    ensures worked { OnOk result (HasWorked (IsShareOf C.FlowCache cache.now) pieces.now (answers_by part.now) share.old
        share.new draw.new) }
{
    while let Some(piece) = pieces.draw(draw) {
        gate.reach(number, piece.number);
        meter_run(cache, part, piece.start, piece.end, share)?;
    }
    Ok(())
}

/// The same for a worker, whose state tells how it ended.
pub(crate) fn work<C: FlowCache, G: Gate>(
    part: &Part<'_>,
    pieces: &Pieces,
    cache: &C,
    gate: &G,
    worker: &mut Worker<Share<C>, DrawPass>,
)
    requires ready { IsToDraw C.FlowCache cache.now pieces.now part.now.base worker.old }
    requires whole { count_of pieces.now ≡ length part.now.index.now.offsets }
    ensures ended { worker.new.state ≢ WorkState.Going }
    ensures worked { HasDrawnAll (IsShareOf C.FlowCache cache.now) pieces.now (answers_by part.now)
        worker.old worker.new }
{
    let end = work_through(
        part,
        pieces,
        cache,
        gate,
        worker.number,
        &mut worker.seat,
        &mut worker.share,
    );
    worker.state = match end {
        Ok(()) => WorkState::Finished,
        Err(NoMemory) => WorkState::NoMemory,
    };
}

/// Runs all workers at once, and gives them back once they have worked.
fn run_workers<C: FlowCache, G: Gate, R: Threads + Sync>(
    engine: &Engine<'_, R, G>,
    part: &Part<'_>,
    pieces: &Pieces,
    cache: &C,
    mut workers: Vec<Worker<Share<C>, DrawPass>>,
) -> Vec<Worker<Share<C>, DrawPass>>
    requires some { 0 < length workers.items }
    requires ready { All (IsToDraw C.FlowCache cache.now pieces.now part.now.base) workers.items }
    requires whole { count_of pieces.now ≡ length part.now.index.now.offsets }
    ensures ended { All (λ w. w.state ≢ WorkState.Going) result.items }
    ensures worked { AllZip (HasDrawnAll (IsShareOf C.FlowCache cache.now) pieces.now
        (answers_by part.now)) workers.items
        result.items }
{
    let count = workers.len();
    let gate = engine.gate;
    for_each_mut(
        engine.rt,
        workers.as_mut_slice(),
        count,
        &|_, w: &mut Worker<Share<C>, DrawPass>|
            requires ready { IsToDraw C.FlowCache cache.now pieces.now part.now.base w.old }
            requires whole { count_of pieces.now ≡ length part.now.index.now.offsets }
            ensures ended { w.new.state ≢ WorkState.Going }
            ensures worked { HasDrawnAll (IsShareOf C.FlowCache cache.entry.now) pieces.entry.now
                (answers_by part.entry.now) w.old
                w.new }
        { work(part, pieces, cache, gate, w) },
    );
    workers
}

/// Meters a part by a worker for each share, all at once. Gives the shares back once all pieces are metered.
pub(crate) fn meter_part<C: FlowCache, G: Gate, R: Threads + Sync>(
    engine: &Engine<'_, R, G>,
    part: &Part<'_>,
    cache: &C,
    shares: Vec<Share<C>>,
    piece: u64,
) -> Result<Vec<Share<C>>, NoMemory>
    requires piece { (0 < piece) × (piece ≤ 65536) }
    requires some { (0 < length shares.items) × (length shares.items ≤ 64) }
    requires metered { (before : List Answer) × (length before ≤ part.now.base)
        × HaveDone (IsShareOf C.FlowCache cache.now) before shares.items }
    ensures many { IfOk result (λ r. length r.items ≡ length shares.items) }
    ensures metered { (before : List Answer) → HaveDone (IsShareOf C.FlowCache cache.now) before shares.items
        → IfOk result
        (λ r. HaveDone (IsShareOf C.FlowCache cache.now) (before ++ answers_by part.now) r.items) }
{
    let seats = shares.len();
    let (pieces, draws) = Pieces::open(engine.alloc, part.index.count(), piece, seats)?;
    let workers = seat_workers(engine.alloc, shares, draws)?;
    let workers = run_workers(engine, part, &pieces, cache, workers);
    let (shares, draws) = unseat_workers(engine.alloc, workers)?;
    pieces.complete_all(draws);
    Ok(shares)
}

/// Reads a capture in windows and meters each before the next is read. Gives the shares back, and how many bytes are
/// left behind the last record.
fn meter_parts<S: Source, C: FlowCache, G: Gate, R: Threads + Sync>(
    engine: &Engine<'_, R, G>,
    source: &mut S,
    cache: &C,
    shares: Vec<Share<C>>,
    windows: Windows,
) -> Result<(Vec<Share<C>>, u64), MeterFault>
    requires some { (0 < length shares.items) × (length shares.items ≤ 64) }
    requires shares { All (IsShareOf C.FlowCache cache.now []) shares.items }
    ensures many { IfOk result (λ r. length r.0.items ≡ length shares.items) }
    ensures metered { IfOk result
        (λ r. (answers : List Answer) × IsReadWhole (S.left source.old) (S.left source.new) windows.limit answers r.1
        × HaveDone (IsShareOf C.FlowCache cache.now) answers r.0.items) }
    ensures refused { IfErr result (λ fault. IsRefused (side S.left S.faults source.old source.new)
        windows.limit fault) }
    ensures faults { HasFaults (side S.left S.faults source.old source.new) result }
{
    let (mut reading, mut index) = Reading::begin(
        engine.alloc,
        source,
        windows.size,
        windows.limit,
    )?;
    let mut shares = shares;
    loop {
        let part = reading.part(&index);
        shares = match meter_part(engine, &part, cache, shares, windows.piece) {
            Ok(shares) => shares,
            Err(NoMemory) => return Err(MeterFault::NoMemory),
        };
        if reading.is_last() {
            return Ok((shares, reading.tail()));
        }
        (reading, index) = reading.next(source, index)?;
    }
}

/// Meters all parts of a capture: by one share, each before the next is read; by several, each while the next is read.
fn meter_all_parts<S: Source, C: FlowCache, G: Gate, R: Threads + Sync>(
    engine: &Engine<'_, R, G>,
    source: &mut S,
    cache: &C,
    shares: Vec<Share<C>>,
    windows: Windows,
) -> Result<(Vec<Share<C>>, u64), MeterFault>
    requires some { (0 < length shares.items) × (length shares.items ≤ 64) }
    requires shares { All (IsShareOf C.FlowCache cache.now []) shares.items }
    ensures many { IfOk result (λ r. length r.0.items ≡ length shares.items) }
    ensures metered { IfOk result
        (λ r. (answers : List Answer) × IsReadWhole (S.left source.old) (S.left source.new) windows.limit answers r.1
        × HaveDone (IsShareOf C.FlowCache cache.now) answers r.0.items) }
    ensures refused { IfErr result (λ fault. IsRefused (side S.left S.faults source.old source.new)
        windows.limit fault) }
    ensures faults { HasFaults (side S.left S.faults source.old source.new) result }
{
    if shares.len() == 1 {
        meter_parts(engine, source, cache, shares, windows)
    } else {
        meter_parts_ahead(engine, source, cache, shares, windows)
    }
}

/// Meters a capture that is read in windows, through a cache, by one worker for each of its passes (1 to 64). One worker
/// meters each window before the next is read, all in the calling thread, and the memory of a window and of its index
/// is taken once. Several workers meter a window at once, each in a thread of its own, while the calling thread reads
/// the next one; the memory of two windows and of two indices is taken once, and the last window is metered by the
/// calling thread too. What is left behind the last record of a window begins the next one. Where fronts are asked for,
/// each worker has one across all windows, and only what leaves it goes into the cache; behind the last window each
/// front is emptied into the cache through its own pass, by a thread of its own.
///
/// The records of a window are cut into pieces; the gate is told of each piece, by its number within the window. What
/// was put in through the united pass shares out the packets of the capture; `parts` are the fragments that it was
/// handed; the tally is that of all records, and the source has nothing left.
///
/// Refusals in the order of [`MeterFault`]: where the input isn't a capture, has an unknown link type or is damaged, it
/// is read to its end first, so that `Failed` and `TooLarge` keep their place. `NoMemory` may come at any time; but where
/// a worker ran out of memory while the next window was refused, that refusal is the answer.
pub fn meter_windows<S: Source, C: FlowCache, G: Gate, R: Threads + Sync>(
    engine: &Engine<'_, R, G>,
    source: &mut S,
    cache: &C,
    passes: Vec<C::Pass>,
    windows: Windows,
) -> Result<CaptureMetered<C>, MeterFault>
    requires front { IfSome windows.front (λ timeouts. timeouts ≡ (C.means cache.now).limits) }
    requires passes { (0 < length passes.items) × (length passes.items ≤ 64)
        × All (λ p. C.is_of cache.now p × IsFreshPass (C.shown p)) passes.items }
    ensures own { IfOk result (λ r. C.is_of cache.now r.pass × ((C.shown r.pass).note.seats ≡ length passes.items)) }
    ensures metered { IfOk result
        (λ r. IsMeteredWhole (side S.left S.faults source.old source.new) windows.limit (C.means cache.now).limits
        (C.shown r.pass).note.taken r.tally r.tail) }
    ensures parts { IfOk result (λ r. IsPermutation (C.shown r.pass).note.handed r.parts) }
    ensures refused { IfErr result
        (λ fault. IsRefused (side S.left S.faults source.old source.new) windows.limit fault) }
    ensures faults { HasFaults (side S.left S.faults source.old source.new) result }
{
    let Ok(shares) = open_shares(engine.alloc, cache, passes, windows.front) else {
        return Err(MeterFault::NoMemory);
    };
    let (shares, tail) = meter_all_parts(engine, source, cache, shares, windows)?;
    match unite_shares(engine, cache, shares, tail) {
        Ok(all) => Ok(all),
        Err(NoMemory) => Err(MeterFault::NoMemory),
    }
}

/// Meters a capture that is in memory, as its first and only part, through a cache, by one worker for each of its
/// passes (1 to 64), all at once, without fronts.
///
/// The records are cut into pieces of `piece` records (1 to 65,536); the gate is told of each piece. What was put in
/// through the united pass shares out the packets of the part; `parts` are the fragments that it was handed, in the
/// order of its note; the tally is that of all records.
///
/// `NoMemory`: out of memory. No clause says anything of the capture then.
pub fn meter_all<C: FlowCache, G: Gate, R: Threads + Sync>(
    engine: &Engine<'_, R, G>,
    part: &Part<'_>,
    cache: &C,
    passes: Vec<C::Pass>,
    piece: u64,
) -> Result<CaptureMetered<C>, NoMemory>
    requires piece { (0 < piece) × (piece ≤ 65536) }
    requires passes { (0 < length passes.items) × (length passes.items ≤ 64)
        × All (λ p. C.is_of cache.now p × IsFreshPass (C.shown p)) passes.items }
    ensures own { IfOk result (λ r. C.is_of cache.now r.pass × ((C.shown r.pass).note.seats ≡ length passes.items)) }
    ensures shared { IfOk result (λ r. SharesOut (C.means cache.now).limits (packets_in (answers_by part.now))
        (C.shown r.pass).note.taken) }
    ensures parts { IfOk result (λ r. r.parts ≡ (C.shown r.pass).note.handed) }
    ensures tally { IfOk result (λ r. IsTallyOf r.tally (answers_by part.now)) }
{
    let shares = open_shares(engine.alloc, cache, passes, None)?;
    let shares = meter_part(engine, part, cache, shares, piece)?;
    unite_shares(engine, cache, shares, part.index.tail())
}
