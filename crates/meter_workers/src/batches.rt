//! A capture that is metered while it is read.

ghost use Rattle.std.specs.Prelude.{◌≡◌, ◌↔◌, ◌+◌, ◌++◌, ◌^◌, ◌<◌, ◌≤◌, [], List, ℕ, length, All};
ghost use Rattle.std.specs.Prelude.{IfOk, IfErr, IfSome, OnOk, IsPermutation};
ghost use Rattle.std.specs.Thread.{IsSync};
ghost use Rattle.std.specs.declared.option.Option.{Option};
ghost use Rattle.meter_io.specs.Sides.{side};
ghost use Rattle.pcap_reader.specs.Index.{IsIndexOf};
ghost use Rattle.cache_face.specs.Meaning.{IsFresh as IsFreshPass};
ghost use Rattle.capture_input.specs.Refusals.{IsRefused, HasFaults};
ghost use Rattle.capture_input.specs.Parts.{Answer, answers_from};
ghost use Rattle.capture_input.specs.Giving.{HasGiven, IsLast, part_in, base_in, size_in, left_in};
ghost use Rattle.batch_queue.specs.Batches.{count_of, answers_of_batch, answers_in, IsReadyFor};
ghost use Rattle.batch_queue.specs.Passes.{IsPassOf, IsMore, StandsForAll, put_of, took_of, reader_of, WasTold};
ghost use Rattle.batch_queue.specs.declared.batch.Batch.{Batch};
ghost use Rattle.meter_workers.specs.Shares.{IsShareOf, HasMetered};
ghost use Rattle.meter_workers.specs.Batched.{IsToTake, HasTakenAll, HasHandedOn, HasReadAll, IsAtQueue};
ghost use Rattle.meter_workers.specs.Whole.{HaveMetered, IsMeteredWhole};

use crate::engine::Engine;
use crate::gate::Gate;
use crate::share::{Share, meter_run, open_shares};
use crate::together::{CaptureMetered, unite_shares};
use batch_queue::{Batch, BatchQueue, Feed, QueuePass};
use cache_face::FlowCache;
use capture_input::{MeterFault, Reading};
use crossbeam_queue::ArrayQueue;
use flow_parts::Timeouts;
use meter_io::Source;
use no_memory::NoMemory;
use pcap_reader::RecordIndex;
use side_by_side::for_each_mut;
use std::alloc::Global;
use std::sync::Wait;
use std::thread::{Threads, join_mut};
use std::{mem, thread};
use work_pieces::{WorkState, Worker, seat_workers, unseat_workers};

/// How a capture is metered in batches.
#[derive(Clone, Copy, Debug)]
pub struct Batches {
    /// The most bytes of a batch, from 262,184 to 2^27.
    pub size: usize,
    /// The most bytes that the input may have; at most 2^30.
    pub limit: u64,
    /// How many batches the queue has room for, from 1 to 64.
    pub room: usize,
    /// The time-outs of the fronts, where there are some: those of the cache.
    pub front: Option<Timeouts>,
    pub ghost size_bounds: { (262184 ≤ size) × (size ≤ 2 ^ 27) },
    pub ghost limit_bound: { limit ≤ 2 ^ 30 },
    pub ghost room_bounds: { (1 ≤ room) × (room ≤ 64) },
}

/// The memory of a batch.
#[derive(Drop)]
struct Memory {
    bytes: Vec<u8>,
    index: RecordIndex,
}

/// What the reader and the workers share beside the cache: the batches that were read, and the memory of those that
/// were metered.
#[derive(Drop)]
struct Shared {
    queue: BatchQueue,
    spare: ArrayQueue<Memory>,
    /// How many workers there are.
    workers: usize,
    /// How many bytes the memory of a batch has.
    size: usize,
    ghost bounds: { (262184 ≤ size) × (size ≤ 2 ^ 27) },
}

impl Shared {
    /// Gives the memory of a metered batch back.
    fn give_back<R: Wait>(&self, rt: &R, batch: Batch) {
        let Batch { bytes, index, .. } = batch;
        // Where there is room for no more, it is freed.
        let _freed = self.spare.push(rt, Memory { bytes, index });
    }

    /// Memory for a batch: some that came back, or new where none did.
    fn memory<R: Wait>(&self, rt: &R, alloc: Global) -> Result<Memory, NoMemory>
        ensures { IfOk result (λ memory. length memory.bytes.items ≡ self.now.size) }
    {
        match self.spare.pop(rt) {
            Some(Memory { mut bytes, index }) => {
                bytes.resize(self.size, 0)?;
                Ok(Memory { bytes, index })
            }
            None => Ok(Memory {
                bytes: vec![in alloc; 0u8; self.size]?,
                index: RecordIndex::with_room(alloc, self.size)?,
            }),
        }
    }
}

/// Takes batches and meters each, until it is told that no more come and none is left. The gate is told of each batch
/// before it is metered. A seat that stands for all seats has then taken all batches that were put.
fn work_batches<C: FlowCache, G: Gate, R: Wait>(
    engine: &Engine<'_, R, G>,
    shared: &Shared,
    cache: &C,
    number: usize,
    seat: &mut QueuePass,
    share: &mut Share<C>,
) -> Result<(), NoMemory>
    requires own { IsPassOf shared.now.queue seat.old }
    requires share { (done : List Answer) × IsShareOf C.FlowCache cache.now done share.old }
    requires ready { IsReadyFor (took_of seat.old) share.old.tally.captured }
    ensures own { IsPassOf shared.now.queue seat.new }
    ensures did { OnOk result ((more : List Batch) × IsMore [] more seat.old seat.new
        × HasMetered C.FlowCache cache.now (answers_in more) share.old share.new) }
    ensures all { OnOk result (StandsForAll seat.new → IsPermutation (put_of seat.new) (took_of seat.new)) }
    ensures told { OnOk result (WasTold seat.new) }
{
    for _ in engine.rt.forever() {
        let ended = shared.queue.is_ended(seat);
        match shared.queue.take(engine.rt, seat) {
            Some(batch) => {
                engine.gate.reach(number, batch.number);
                let part = batch.part();
                meter_run(cache, &part, 0, part.index.count(), share)?;
                shared.give_back(engine.rt, batch);
            }
            None => {
                if ended {
                    return Ok(());
                }
                thread::yield_now();
            }
        }
    }
    unreachable!()
}

/// The same for a worker, whose state tells how it ended.
fn work<C: FlowCache, G: Gate, R: Wait>(
    engine: &Engine<'_, R, G>,
    shared: &Shared,
    cache: &C,
    worker: &mut Worker<Share<C>, QueuePass>,
)
    requires ready { IsToTake C.FlowCache cache.now shared.now.queue worker.old }
    ensures worked { HasTakenAll C.FlowCache cache.now shared.now.queue worker.new }
{
    let end = work_batches(
        engine,
        shared,
        cache,
        worker.number,
        &mut worker.seat,
        &mut worker.share,
    );
    worker.state = match end {
        Ok(()) => WorkState::Finished,
        Err(NoMemory) => WorkState::NoMemory,
    };
}

/// Runs all workers at once, and gives them back once they have worked; the list that they came in is left empty.
fn run_workers<C: FlowCache, G: Gate, R: Threads + Wait + Sync>(
    engine: &Engine<'_, R, G>,
    shared: &Shared,
    cache: &C,
    workers: &mut Vec<Worker<Share<C>, QueuePass>>,
) -> Vec<Worker<Share<C>, QueuePass>>
    requires some { 0 < length workers.old.items }
    requires ready { All (IsToTake C.FlowCache cache.now shared.now.queue) workers.old.items }
    ensures same { length result.items ≡ length workers.old.items }
    ensures worked { All (HasTakenAll C.FlowCache cache.now shared.now.queue) result.items }
{
    let Engine { rt, alloc, gate } = *engine;
    let mut crew = mem::replace(workers, Vec::new(alloc));
    let count = crew.len();
    for_each_mut(
        rt,
        crew.as_mut_slice(),
        count,
        &|_, w: &mut Worker<Share<C>, QueuePass>|
            requires ready { IsToTake C.FlowCache cache.now shared.now.queue w.old }
            ensures worked { HasTakenAll C.FlowCache cache.entry.now shared.entry.now.queue w.new }
        { work(&Engine { rt, alloc, gate }, shared, cache, w) },
    );
    crew
}

/// The reader: its feed of the queue, what it has done, and the number of its next batch.
#[derive(Drop)]
struct Reader<C: FlowCache> {
    feed: Feed,
    share: Share<C>,
    next: u64,
}

/// Puts the reader's next batch into the queue. The reader meters it itself where the queue has no room, and the gate
/// is told of it before.
fn hand_over<C: FlowCache, G: Gate, R: Wait>(
    engine: &Engine<'_, R, G>,
    shared: &Shared,
    cache: &C,
    reader: &mut Reader<C>,
    batch: Batch,
) -> Result<(), NoMemory>
    requires next { (batch.number ≡ reader.old.next) × (0 < count_of batch) }
    requires open { IsAtQueue shared.now.queue reader.old }
    requires handed { (answers : List Answer) × (batch.base ≡ length answers)
        × HasHandedOn C.FlowCache cache.now shared.now.queue shared.now.workers answers reader.old }
    ensures handed { (answers : List Answer) → batch.base ≡ length answers
        → HasHandedOn C.FlowCache cache.now shared.now.queue shared.now.workers answers reader.old
        → OnOk result (HasHandedOn C.FlowCache cache.now shared.now.queue shared.now.workers
        (answers ++ answers_of_batch batch) reader.new) }
    ensures open { IsAtQueue shared.now.queue reader.new }
{
    reader.next += 1;
    match shared.queue.offer(engine.rt, &mut reader.feed, batch) {
        Ok(()) => Ok(()),
        Err(back) => {
            engine.gate.reach(shared.workers, back.number);
            let part = back.part();
            meter_run(cache, &part, 0, part.index.count(), &mut reader.share)?;
            shared.give_back(engine.rt, back);
            Ok(())
        }
    }
}

/// Hands on the part that was read last, as one batch, where it has records.
fn hand_part<C: FlowCache, G: Gate, R: Wait>(
    engine: &Engine<'_, R, G>,
    shared: &Shared,
    cache: &C,
    reader: &mut Reader<C>,
    read: (Reading, RecordIndex),
) -> Result<(Reading, RecordIndex), NoMemory>
    requires part { IsIndexOf read.1 (part_in read.0) }
    requires few { base_in read.0 + length read.1.offsets < 2 ^ 32 }
    requires size { size_in read.0 ≡ shared.now.size }
    requires given { (before left : Option (List ℕ)) × (limit : ℕ) × (answers : List Answer)
        × HasGiven before left limit read.0 answers }
    requires open { IsAtQueue shared.now.queue reader.old }
    requires handed { (answers : List Answer) × (base_in read.0 ≡ length answers)
        × HasHandedOn C.FlowCache cache.now shared.now.queue shared.now.workers answers reader.old }
    ensures same { IfOk result (λ r. (size_in r.0 ≡ size_in read.0) × (left_in r.0 ≡ left_in read.0)
        × (IsLast r.0 ↔ IsLast read.0)) }
    ensures given { (before left : Option (List ℕ)) (limit : ℕ) (answers : List Answer)
        → HasGiven before left limit read.0 answers → IfOk result (λ r. HasGiven before left limit r.0 answers) }
    ensures handed { (answers : List Answer) → base_in read.0 ≡ length answers
        → HasHandedOn C.FlowCache cache.now shared.now.queue shared.now.workers answers reader.old
        → OnOk result (HasHandedOn C.FlowCache cache.now shared.now.queue shared.now.workers
        (answers ++ answers_from (base_in read.0) (part_in read.0)) reader.new) }
    ensures open { IsAtQueue shared.now.queue reader.new }
{
    let (reading, index) = read;
    if index.count() == 0 {
        return Ok((reading, index));
    }
    let memory = shared.memory(engine.rt, engine.alloc)?;
    let head = reading.head();
    let base = reading.base();
    let (bytes, reading) = reading.take_bytes(memory.bytes);
    let batch = Batch {
        number: reader.next,
        base,
        head,
        bytes,
        index,
    };
    hand_over(engine, shared, cache, reader, batch)?;
    Ok((reading, memory.index))
}

/// Reads a capture to its end and hands on its records. Tells how many bytes are left behind the last record.
fn read_all<S: Source, C: FlowCache, G: Gate, R: Wait>(
    engine: &Engine<'_, R, G>,
    source: &mut S,
    shared: &Shared,
    cache: &C,
    reader: &mut Reader<C>,
    limit: u64,
) -> Result<u64, MeterFault>
    requires limit { limit ≤ 2 ^ 30 }
    requires open { IsAtQueue shared.now.queue reader.old }
    requires fresh { HasHandedOn C.FlowCache cache.now shared.now.queue shared.now.workers [] reader.old }
    ensures read { IfOk result (λ tail. HasReadAll C.FlowCache cache.now shared.now.queue shared.now.workers
        (S.left source.old) (S.left source.new) limit reader.new tail) }
    ensures refused { IfErr result (λ fault. IsRefused (side S.left S.faults source.old source.new) limit fault) }
    ensures faults { HasFaults (side S.left S.faults source.old source.new) result }
    ensures open { IsAtQueue shared.now.queue reader.new }
{
    let (mut reading, mut index) = Reading::begin(engine.alloc, source, shared.size, limit)?;
    loop {
        (reading, index) = match hand_part(engine, shared, cache, reader, (reading, index)) {
            Ok(read) => read,
            Err(NoMemory) => return Err(MeterFault::NoMemory),
        };
        if reading.is_last() {
            return Ok(reading.tail());
        }
        (reading, index) = reading.next(source, index)?;
    }
}

/// The same; and however it ends, the reader then says that no more batches come.
fn read_and_end<S: Source, C: FlowCache, G: Gate, R: Wait>(
    engine: &Engine<'_, R, G>,
    source: &mut S,
    shared: &Shared,
    cache: &C,
    reader: &mut Reader<C>,
    limit: u64,
) -> Result<u64, MeterFault>
    requires limit { limit ≤ 2 ^ 30 }
    requires open { IsAtQueue shared.now.queue reader.old }
    requires fresh { HasHandedOn C.FlowCache cache.now shared.now.queue shared.now.workers [] reader.old }
    ensures read { IfOk result (λ tail. HasReadAll C.FlowCache cache.now shared.now.queue shared.now.workers
        (S.left source.old) (S.left source.new) limit reader.new tail) }
    ensures refused { IfErr result (λ fault. IsRefused (side S.left S.faults source.old source.new) limit fault) }
    ensures faults { HasFaults (side S.left S.faults source.old source.new) result }
    ensures said { WasTold (reader_of reader.new.feed) }
{
    let end = read_all(engine, source, shared, cache, reader, limit);
    shared.queue.end(&mut reader.feed);
    end
}

/// Runs the reader and all workers at once. Gives the workers back once they have worked, and how the reader ended.
fn run_both<S: Source, C: FlowCache, G: Gate, R: Threads + Wait + Sync>(
    engine: &Engine<'_, R, G>,
    source: &mut S,
    shared: &Shared,
    cache: &C,
    reader: &mut Reader<C>,
    mut workers: Vec<Worker<Share<C>, QueuePass>>,
    limit: u64,
) -> (Vec<Worker<Share<C>, QueuePass>>, Result<u64, MeterFault>)
    requires limit { limit ≤ 2 ^ 30 }
    requires open { IsAtQueue shared.now.queue reader.old }
    requires fresh { HasHandedOn C.FlowCache cache.now shared.now.queue shared.now.workers [] reader.old }
    requires some { 0 < length workers.items }
    requires ready { All (IsToTake C.FlowCache cache.now shared.now.queue) workers.items }
    ensures same { length result.0.items ≡ length workers.items }
    ensures worked { All (HasTakenAll C.FlowCache cache.now shared.now.queue) result.0.items }
    ensures read { IfOk result.1 (λ tail. HasReadAll C.FlowCache cache.now shared.now.queue shared.now.workers
        (S.left source.old) (S.left source.new) limit reader.new tail) }
    ensures refused { IfErr result.1 (λ fault. IsRefused (side S.left S.faults source.old source.new) limit fault) }
    ensures faults { HasFaults (side S.left S.faults source.old source.new) result.1 }
    ensures said { WasTold (reader_of reader.new.feed) }
{
    let Engine { rt, alloc, gate } = *engine;
    join_mut(
        rt,
        &mut move || -> Vec<Worker<Share<C>, QueuePass>>
            requires sync { IsSync R.row }
            requires some { 0 < length workers.items }
            requires ready { All (IsToTake C.FlowCache cache.now shared.now.queue) workers.items }
            ensures same { length result.items ≡ length workers.entry.items }
            ensures worked { All (HasTakenAll C.FlowCache cache.entry.now shared.entry.now.queue) result.items }
        { run_workers(&Engine { rt, alloc, gate }, shared, cache, &mut workers) },
        &mut || -> Result<u64, MeterFault>
            requires limit { limit ≤ 2 ^ 30 }
            requires open { IsAtQueue shared.now.queue reader.now }
            requires fresh { HasHandedOn C.FlowCache cache.now shared.now.queue shared.now.workers [] reader.now }
            ensures read { IfOk result (λ tail. HasReadAll C.FlowCache cache.entry.now shared.entry.now.queue
                shared.entry.now.workers (S.left source.entry.now) (S.left source.exit.now) limit reader.exit.now
                tail) }
            ensures refused { IfErr result
                (λ fault. IsRefused (side S.left S.faults source.entry.now source.exit.now) limit fault) }
            ensures faults { HasFaults (side S.left S.faults source.entry.now source.exit.now) result }
            ensures said { WasTold (reader_of reader.exit.now.feed) }
        {
            read_and_end(
                &Engine { rt, alloc, gate },
                source,
                shared,
                cache,
                reader,
                limit,
            )
        },
    )
}

/// What the reader, the workers and the drain have, before anything was read.
#[derive(Drop)]
struct Crew<C: FlowCache> {
    shared: Shared,
    reader: Reader<C>,
    workers: Vec<Worker<Share<C>, QueuePass>>,
    last: Share<C>,
}

/// Opens the queue, and gives the reader, the drain and each worker a pass of the cache.
fn open_crew<C: FlowCache>(
    alloc: Global,
    cache: &C,
    passes: Vec<C::Pass>,
    batches: Batches,
) -> Result<Crew<C>, NoMemory>
    requires front { IfSome batches.front (λ timeouts. timeouts ≡ (C.means cache.now).limits) }
    requires passes { (3 ≤ length passes.items) × (length passes.items ≤ 64)
        × All (λ p. C.is_of cache.now p × IsFreshPass (C.shown p)) passes.items }
    ensures reader { IfOk result (λ r. IsAtQueue r.shared.queue r.reader
        × HasHandedOn C.FlowCache cache.now r.shared.queue r.shared.workers [] r.reader) }
    ensures many { IfOk result (λ r. (r.shared.workers ≡ length r.workers.items)
        × (length r.workers.items + 2 ≡ length passes.items)) }
    ensures last { IfOk result (λ r. IsShareOf C.FlowCache cache.now [] r.last) }
    ensures workers { IfOk result (λ r. All (IsToTake C.FlowCache cache.now r.shared.queue) r.workers.items) }
{
    let mut shares = open_shares(alloc, cache, passes, batches.front)?;
    let share = shares.remove(0);
    let last = shares.remove(0);
    let count = shares.len();
    let (queue, feed, seats) = BatchQueue::open(alloc, batches.room, count)?;
    let workers = seat_workers(alloc, shares, seats)?;
    let spare = ArrayQueue::new(alloc, batches.room + count + 2)?;
    let reader = Reader {
        feed,
        share,
        next: 0,
    };
    let shared = Shared {
        queue,
        spare,
        workers: count,
        size: batches.size,
    };
    Ok(Crew {
        shared,
        reader,
        workers,
        last,
    })
}

/// What all did together, once the reader has read and the workers have worked. What is left in the queue is metered
/// here. `tail` bytes are left behind the last record.
fn close_crew<C: FlowCache, G: Gate, R: Threads + Wait + Sync>(
    engine: &Engine<'_, R, G>,
    cache: &C,
    crew: Crew<C>,
    tail: u64,
) -> Result<CaptureMetered<C>, NoMemory>
    requires many { (crew.shared.workers ≡ length crew.workers.items) × (length crew.workers.items ≤ 62) }
    requires handed { (answers : List Answer)
        × HasHandedOn C.FlowCache cache.now crew.shared.queue crew.shared.workers answers crew.reader }
    requires workers { All (HasTakenAll C.FlowCache cache.now crew.shared.queue) crew.workers.items }
    requires last { IsShareOf C.FlowCache cache.now [] crew.last }
    ensures own { IfOk result (λ r. C.is_of cache.now r.pass
        × ((C.shown r.pass).note.seats ≡ length crew.workers.items + 2)) }
    ensures metered { (answers : List Answer)
        → HasHandedOn C.FlowCache cache.now crew.shared.queue crew.shared.workers answers crew.reader
        → IfOk result (HaveMetered C.FlowCache cache.now answers) }
    ensures tail { IfOk result (λ r. r.tail ≡ tail) }
{
    let Crew {
        shared,
        reader,
        workers,
        mut last,
    } = crew;
    let (mut shares, seats) = unseat_workers(engine.alloc, workers)?;
    let mut seat = shared.queue.unite_all(reader.feed.into_pass(), seats);
    let drain = shared.workers + 1;
    work_batches(engine, &shared, cache, drain, &mut seat, &mut last)?;
    shares.push(reader.share)?;
    shares.push(last)?;
    unite_shares(engine, cache, shares, tail)
}

/// Meters a capture through a cache while it is read: the caller's thread reads it, in windows of so many bytes, into a
/// queue of batches, and a thread for each worker takes them from it. The passes of the cache (3 to 64) are one for the
/// reader, one for what is left in the queue at the end, and one for each worker; each has a front where fronts are
/// asked for, which is emptied into the cache at the end, by a thread of its own.
///
/// Before a batch is metered, the gate is told its number and who meters it: a worker by its number, counted from 0;
/// the reader by the number of workers; and for what is left in the queue at the end, one more than that. What was put
/// in through the united pass shares out the packets of the capture; `parts` are the fragments that it was handed; the
/// tally is that of all records, and the source has nothing left. At most `room` + workers + 2 buffers of `size` bytes
/// exist.
///
/// Refusals in the order of [`MeterFault`]: where the input isn't a capture, has an unknown link type or is damaged, it
/// is read to its end first, so that `Failed` and `TooLarge` keep their place. `NoMemory` may come at any time. All
/// workers have ended when this call returns.
pub fn meter_batches<S: Source, C: FlowCache, G: Gate, R: Threads + Wait + Sync>(
    engine: &Engine<'_, R, G>,
    source: &mut S,
    cache: &C,
    passes: Vec<C::Pass>,
    batches: Batches,
) -> Result<CaptureMetered<C>, MeterFault>
    requires front { IfSome batches.front (λ timeouts. timeouts ≡ (C.means cache.now).limits) }
    requires passes { (3 ≤ length passes.items) × (length passes.items ≤ 64)
        × All (λ p. C.is_of cache.now p × IsFreshPass (C.shown p)) passes.items }
    ensures own { IfOk result (λ r. C.is_of cache.now r.pass × ((C.shown r.pass).note.seats ≡ length passes.items)) }
    ensures metered { IfOk result
        (λ r. IsMeteredWhole (side S.left S.faults source.old source.new) batches.limit (C.means cache.now).limits
        (C.shown r.pass).note.taken r.tally r.tail) }
    ensures parts { IfOk result (λ r. IsPermutation (C.shown r.pass).note.handed r.parts) }
    ensures refused { IfErr result
        (λ fault. IsRefused (side S.left S.faults source.old source.new) batches.limit fault) }
    ensures faults { HasFaults (side S.left S.faults source.old source.new) result }
{
    let Ok(crew) = open_crew(engine.alloc, cache, passes, batches) else {
        return Err(MeterFault::NoMemory);
    };
    let Crew {
        shared,
        mut reader,
        workers,
        last,
    } = crew;
    let (workers, end) = run_both(
        engine,
        source,
        &shared,
        cache,
        &mut reader,
        workers,
        batches.limit,
    );
    let tail = end?;
    let crew = Crew {
        shared,
        reader,
        workers,
        last,
    };
    match close_crew(engine, cache, crew, tail) {
        Ok(all) => Ok(all),
        Err(NoMemory) => Err(MeterFault::NoMemory),
    }
}
