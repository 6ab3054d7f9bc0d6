//! A capture that is read in windows, each read while the one before it is metered.

ghost use Rattle.std.specs.Prelude.{◌≡◌, ◌≢◌, ◌++◌, ◌<◌, ◌≤◌, [], List, ℕ, length, All, Ok, IfOk, IfErr};
ghost use Rattle.std.specs.List.{AllZip};
ghost use Rattle.std.specs.declared.option.Option.{Option};
ghost use Rattle.meter_io.specs.Sides.{side};
ghost use Rattle.capture_input.specs.Refusals.{IsRefused, HasFaults};
ghost use Rattle.capture_input.specs.Inputs.{side_from};
ghost use Rattle.capture_input.specs.Parts.{Answer, answers_by};
ghost use Rattle.capture_input.specs.Giving.{HasGiven, IsReadWhole, IsLast, left_in};
ghost use Rattle.work_pieces.specs.Doing.{HasDrawnAll, HaveDone};
ghost use Rattle.work_pieces.specs.Passes.{count_of};
ghost use Rattle.meter_workers.specs.Shares.{IsShareOf};
ghost use Rattle.meter_workers.specs.Working.{IsToDraw};
ghost use Rattle.meter_workers.specs.Ahead.{IsToReadOn, HasReadOn, CanReadOn, HasReadFrom, IsUnderWay};

use crate::engine::Engine;
use crate::gate::Gate;
use crate::share::Share;
use crate::windows::{Windows, meter_part, work};
use cache_face::FlowCache;
use capture_input::{MeterFault, Part, Reading};
use meter_io::Source;
use no_memory::NoMemory;
use pcap_reader::{Capture, RecordIndex};
use side_by_side::for_each_beside;
use std::alloc::Global;
use std::thread::Threads;
use work_pieces::{DrawPass, Pieces, WorkState, Worker, seat_workers, unseat_workers};

/// The memory of a window that is not being read into: its bytes, and the index of its records.
#[derive(Drop)]
struct Spare {
    bytes: Vec<u8>,
    index: RecordIndex,
}

/// Takes the memory of a window of `size` bytes.
fn take_spare(alloc: Global, size: usize) -> Result<Spare, NoMemory>
    ensures { IfOk result (λ spare. length spare.bytes.items ≡ size) }
{
    Ok(Spare {
        bytes: vec![in alloc; 0u8; size]?,
        index: RecordIndex::with_room(alloc, size)?,
    })
}

/// The memory of a window that was metered, whose bytes are `size` again.
fn spare_again(bytes: Vec<u8>, index: RecordIndex, size: usize) -> Result<Spare, NoMemory>
    ensures { IfOk result (λ spare. length spare.bytes.items ≡ size) }
{
    let mut bytes = bytes;
    bytes.resize(size, 0)?;
    Ok(Spare { bytes, index })
}

/// Where metering stands between two parts: the shares have metered what was read before the part that was read last.
#[derive(Drop)]
struct Standing<C: FlowCache> {
    shares: Vec<Share<C>>,
    reading: Reading,
    index: RecordIndex,
    spare: Spare,
}

/// Reads the part behind the one that was read last.
fn read_on<S: Source>(
    source: &mut S,
    read: &mut Option<(Reading, RecordIndex)>,
) -> Result<(Reading, RecordIndex), MeterFault>
    requires ready { CanReadOn (S.left source.old) read.old }
    ensures read { HasReadFrom (side S.left S.faults source.old source.new) read.old result }
{
    let Some((reading, index)) = read.take() else {
        unreachable!()
    };
    reading.next(source, index)
}

/// Runs all workers at once, each in a thread of its own, and reads the next part meanwhile. Gives the workers back
/// once they have worked, and the part that was read.
fn run_ahead<S: Source, C: FlowCache, G: Gate, R: Threads + Sync>(
    engine: &Engine<'_, R, G>,
    source: &mut S,
    part: &Part<'_>,
    pieces: &Pieces,
    cache: &C,
    mut workers: Vec<Worker<Share<C>, DrawPass>>,
    read: (Reading, RecordIndex),
) -> (
    Vec<Worker<Share<C>, DrawPass>>,
    Result<(Reading, RecordIndex), MeterFault>,
)
    requires ready { All (IsToDraw C.FlowCache cache.now pieces.now part.now.base) workers.items }
    requires whole { count_of pieces.now ≡ length part.now.index.now.offsets }
    requires read { IsToReadOn (S.left source.old) read.0 }
    ensures ended { All (λ w. w.state ≢ WorkState.Going) result.0.items }
    ensures worked { AllZip (HasDrawnAll (IsShareOf C.FlowCache cache.now) pieces.now
        (answers_by part.now)) workers.items
        result.0.items }
    ensures read { HasReadOn (side S.left S.faults source.old source.new) read.0 result.1 }
{
    let gate = engine.gate;
    let mut read = Some(read);
    let next = for_each_beside(
        engine.rt,
        workers.as_mut_slice(),
        &|_, w: &mut Worker<Share<C>, DrawPass>|
            requires ready { IsToDraw C.FlowCache cache.now pieces.now part.now.base w.old }
            requires whole { count_of pieces.now ≡ length part.now.index.now.offsets }
            ensures ended { w.new.state ≢ WorkState.Going }
            ensures worked { HasDrawnAll (IsShareOf C.FlowCache cache.entry.now) pieces.entry.now
                (answers_by part.entry.now) w.old
                w.new }
        { work(part, pieces, cache, gate, w) },
        &mut || -> Result<(Reading, RecordIndex), MeterFault>
            requires ready { CanReadOn (S.left source.now) read }
            ensures read { HasReadFrom (side S.left S.faults source.entry.now source.exit.now) read.entry result }
        { read_on(source, &mut read) },
    );
    (workers, next)
}

/// Meters a part by a worker for each share, all at once, and reads the next part meanwhile. Gives the shares back once
/// all pieces are metered, and the part that was read.
fn meter_ahead<S: Source, C: FlowCache, G: Gate, R: Threads + Sync>(
    engine: &Engine<'_, R, G>,
    source: &mut S,
    part: &Part<'_>,
    cache: &C,
    shares: Vec<Share<C>>,
    piece: u64,
    read: (Reading, RecordIndex),
) -> Result<(Vec<Share<C>>, (Reading, RecordIndex)), MeterFault>
    requires piece { (0 < piece) × (piece ≤ 65536) }
    requires some { (0 < length shares.items) × (length shares.items ≤ 64) }
    requires metered { (before : List Answer) × (length before ≤ part.now.base)
        × HaveDone (IsShareOf C.FlowCache cache.now) before shares.items }
    requires read { IsToReadOn (S.left source.old) read.0 }
    ensures many { IfOk result (λ r. length r.0.items ≡ length shares.items) }
    ensures metered { (before : List Answer) → HaveDone (IsShareOf C.FlowCache cache.now) before shares.items
        → IfOk result
        (λ r. HaveDone (IsShareOf C.FlowCache cache.now) (before ++ answers_by part.now) r.0.items) }
    ensures read { IfOk result (λ r. HasReadOn (side S.left S.faults source.old source.new) read.0 (Ok r.1)) }
    ensures refused { (before : Option (List ℕ)) (limit : ℕ) (answers : List Answer)
        → HasGiven before (S.left source.old) limit read.0 answers
        → IfErr result (λ fault. IsRefused (side_from before (side S.left S.faults source.old source.new))
        limit fault) }
    ensures faults { HasFaults (side S.left S.faults source.old source.new) result }
{
    let seats = shares.len();
    let Ok((pieces, draws)) = Pieces::open(engine.alloc, part.index.count(), piece, seats) else {
        return Err(MeterFault::NoMemory);
    };
    let Ok(workers) = seat_workers(engine.alloc, shares, draws) else {
        return Err(MeterFault::NoMemory);
    };
    let (workers, next) = run_ahead(engine, source, part, &pieces, cache, workers, read);
    let read = next?;
    let Ok((shares, draws)) = unseat_workers(engine.alloc, workers) else {
        return Err(MeterFault::NoMemory);
    };
    pieces.complete_all(draws);
    Ok((shares, read))
}

/// Meters the part that was read last and reads the next one meanwhile. The memory of the one that was metered is then
/// the spare.
fn step_ahead<S: Source, C: FlowCache, G: Gate, R: Threads + Sync>(
    engine: &Engine<'_, R, G>,
    source: &mut S,
    cache: &C,
    standing: Standing<C>,
    windows: Windows,
) -> Result<Standing<C>, MeterFault>
    requires some { (0 < length standing.shares.items) × (length standing.shares.items ≤ 64) }
    requires more { ¬ IsLast standing.reading }
    requires metered { (before : Option (List ℕ)) × (limit : ℕ)
        × IsUnderWay C.FlowCache cache.now before (S.left source.old) limit windows.size standing }
    ensures many { IfOk result (λ r. length r.shares.items ≡ length standing.shares.items) }
    ensures less { IfOk result (λ r. left_in r.reading < left_in standing.reading) }
    ensures metered { (before : Option (List ℕ)) (limit : ℕ)
        → IsUnderWay C.FlowCache cache.now before (S.left source.old) limit windows.size standing
        → IfOk result (IsUnderWay C.FlowCache cache.now before (S.left source.new) limit windows.size) }
    ensures refused { (before : Option (List ℕ)) (limit : ℕ)
        → IsUnderWay C.FlowCache cache.now before (S.left source.old) limit windows.size standing
        → IfErr result (λ fault. IsRefused (side_from before (side S.left S.faults source.old source.new))
        limit fault) }
    ensures faults { HasFaults (side S.left S.faults source.old source.new) result }
{
    let Standing {
        shares,
        reading,
        index,
        spare,
    } = standing;
    let head = reading.head();
    let base = reading.base();
    let (bytes, reading) = reading.take_bytes(spare.bytes);
    let part = Part {
        capture: Capture::part(head, bytes.as_slice()),
        index: &index,
        base,
    };
    let read = (reading, spare.index);
    let (shares, (reading, following)) = meter_ahead(
        engine,
        source,
        &part,
        cache,
        shares,
        windows.piece,
        read,
    )?;
    let Ok(spare) = spare_again(bytes, index, windows.size) else {
        return Err(MeterFault::NoMemory);
    };
    Ok(Standing {
        shares,
        reading,
        index: following,
        spare,
    })
}

/// Reads a capture in windows, and meters each while the next is read. Gives the shares back, and how many bytes are
/// left behind the last record.
pub(crate) fn meter_parts_ahead<S: Source, C: FlowCache, G: Gate, R: Threads + Sync>(
    engine: &Engine<'_, R, G>,
    source: &mut S,
    cache: &C,
    shares: Vec<Share<C>>,
    windows: Windows,
) -> Result<(Vec<Share<C>>, u64), MeterFault>
    requires some { (0 < length shares.items) × (length shares.items ≤ 64) }
    requires shares { All (IsShareOf C.FlowCache cache.now []) shares.items }
    ensures many { IfOk result (λ r. length r.0.items ≡ length shares.items) }
    ensures metered { IfOk result
        (λ r. (answers : List Answer) × IsReadWhole (S.left source.old) (S.left source.new) windows.limit answers r.1
        × HaveDone (IsShareOf C.FlowCache cache.now) answers r.0.items) }
    ensures refused { IfErr result (λ fault. IsRefused (side S.left S.faults source.old source.new)
        windows.limit fault) }
    ensures faults { HasFaults (side S.left S.faults source.old source.new) result }
{
    let Ok(spare) = take_spare(engine.alloc, windows.size) else {
        return Err(MeterFault::NoMemory);
    };
    let (reading, index) = Reading::begin(engine.alloc, source, windows.size, windows.limit)?;
    let mut standing = Standing {
        shares,
        reading,
        index,
        spare,
    };
    while !standing.reading.is_last() {
        standing = step_ahead(engine, source, cache, standing, windows)?;
    }
    let Standing {
        shares,
        reading,
        index,
        ..
    } = standing;
    let part = reading.part(&index);
    match meter_part(engine, &part, cache, shares, windows.piece) {
        Ok(shares) => Ok((shares, reading.tail())),
        Err(NoMemory) => Err(MeterFault::NoMemory),
    }
}
