//! The command `meter`.

ghost use Rattle.std.specs.Prelude.{◌≡◌, ◌≤◌, ◌<◌, ◌*◌, ◌^◌, ℕ, List, IfOk, OnErr};
ghost use Rattle.std.specs.Option.{ForSome};
ghost use Rattle.cache_face.specs.Openings.{opened_with};
ghost use Rattle.meter_program.specs.ExportTime.{export_time};
ghost use Rattle.meter_program.specs.Metering.{IsWritten, WriteMeans};
ghost use Rattle.meter_program.specs.Outcome.{Ends};
ghost use Rattle.meter_io.specs.Causes.{HasCause};
ghost use Rattle.meter_io.specs.Sides.{IsUntouched, HasTaken, HasBegun, side};
ghost use Rattle.meter_program.specs.Seen.{seen_of};
ghost use Rattle.meter_program.specs.Words.{meter};
ghost use Rattle.ipfix_model.specs.Sizes.{template_message_length};

use crate::metering::{Gathered, gathered_from};
use crate::reports::summary;
use crate::settings::Settings;
use crate::status::Status;
use cache_face::Caches;
use ipfix_law::layout_law;
use ipfix_writer::{CopyRoom, Emitter, Phase, emit_all};
use meter_io::{Failed, Sink, Source};
use meter_workers::{Engine, Gate};
use no_memory::NoMemory;
use std::alloc::Global;
use std::thread::Threads;

/// The export time in seconds: the clock, in milliseconds, in whole seconds, and 0 without a packet.
fn export_time_of(clock: Option<u64>) -> u32
    requires { ForSome clock (λ time. time < 1000 * 2 ^ 32) }
    ensures { result ≡ export_time clock }
{
    match clock {
        None => 0,
        Some(clock) => (clock / 1000) as u32,
    }
}

/// An emitter for the stream of these records, in messages of at most `size` octets. It has all memory that writing
/// them takes.
///
/// `NoMemory` where that can't be had.
pub fn emitter_for(alloc: Global, gathered: &Gathered, size: u32) -> Result<Emitter, NoMemory>
    requires { (template_message_length ≤ size) × (size ≤ 65535) }
    ensures fresh { IfOk result (λ emitter. emitter.phase ≡ Phase.Fresh) }
    ensures size { IfOk result (λ emitter. emitter.size ≡ size) }
    ensures time { IfOk result (λ emitter. emitter.export_time ≡ export_time gathered.now.tally.clock) }
{
    let emitter = Emitter::open(alloc, size as usize, export_time_of(gathered.tally.clock))?;
    Ok(emitter)
}

/// Writes the stream of these records to a sink by an emitter for them, and tells how many messages it has. Where there
/// is room for copies, threads copy records into it meanwhile.
///
/// `Failed` comes only where the sink's count of faults rose; the sink then took a beginning of the stream.
pub fn emit<R: Threads + Sync, K: Sink>(
    rt: &R,
    emitter: Emitter,
    room: CopyRoom,
    gathered: &Gathered,
    sink: &mut K,
) -> Result<u64, Failed>
    requires fresh { emitter.phase ≡ Phase.Fresh }
    requires size { emitter.size ≤ 65535 }
    requires time { emitter.export_time ≡ export_time gathered.now.tally.clock }
    ensures written { IfOk result (λ messages. (bytes : List ℕ)
        × HasTaken (side K.held K.faults sink.old sink.new) bytes
        × IsWritten emitter.size gathered.now.records gathered.now.tally bytes messages) }
    ensures begun { OnErr result ((bytes : List ℕ) × (messages : ℕ)
        × HasBegun (side K.held K.faults sink.old sink.new) bytes
        × IsWritten emitter.size gathered.now.records gathered.now.tally bytes messages) }
    ensures cause { HasCause (K.faults sink.old) (K.faults sink.new) result }
{
    layout_law();
    emit_all(rt, emitter, room, &gathered.records, sink)
}

/// Writes the stream of these records, in messages of at most `size` octets, and then the summary to standard error.
///
/// At most `threads` threads are at work, at most four: the calling one writes, and the others copy the records that it
/// writes next; where there are fewer than 16,384 records there are no others. All memory is taken before the first
/// write; where others copy, two rounds of at most three parts of 4,096 records each are among it.
///
/// - `Done`: the output took the stream, and standard error the summary.
/// - `WriteFault`: only where a write failed and the output or standard error counted it. Both took a beginning of what
///   they were to take, the output all of it where none of its own writes failed.
/// - `NoMemory`: out of memory; nothing was written.
///
/// No other status comes.
pub fn write_stream<R: Threads + Sync, K: Sink, E: Sink>(
    rt: &R,
    alloc: Global,
    gathered: &Gathered,
    size: u32,
    threads: usize,
    output: &mut K,
    stderr: &mut E,
) -> Status
    requires { (template_message_length ≤ size) × (size ≤ 65535) }
    ensures { WriteMeans size gathered.now.records gathered.now.tally gathered.now.tail
        (side K.held K.faults output.old output.new)
        (side E.held E.faults stderr.old stderr.new) result }
{
    let Ok(emitter) = emitter_for(alloc, gathered, size) else {
        return Status::NoMemory;
    };
    let Ok(room) = CopyRoom::open(alloc, threads, gathered.records.len()) else {
        return Status::NoMemory;
    };
    let messages = match emit(rt, emitter, room, gathered, output) {
        Ok(messages) => messages,
        Err(Failed) => return Status::WriteFault,
    };
    let flows = gathered.records.len() as u64;
    match summary(stderr, &gathered.tally, flows, messages, gathered.tail) {
        Ok(()) => Status::Done,
        Err(Failed) => Status::WriteFault,
    }
}

/// Reads a capture from the input to its end, meters it through a cache of `caches`, writes the records of its flows to
/// the output, and the summary to standard error.
pub fn meter<R: Threads + Sync, S: Source, K: Sink, E: Sink, M: Caches, G: Gate>(
    engine: &Engine<'_, R, G>,
    settings: &Settings,
    input: &mut S,
    output: &mut K,
    stderr: &mut E,
    caches: &mut M,
) -> Status
    ensures ends { let seen = seen_of (side S.left S.faults input.old input.new) (side K.held K.faults output.old output.new)
        (side E.held E.faults stderr.old stderr.new) (M.metered caches.new)
        in Ends (meter settings.now.idle settings.now.active settings.now.workers settings.now.sets settings.now.piece
        settings.now.size)
        seen (IsUntouched seen.stderr) result }
    ensures opened { result ≡ Status.Done → M.opened caches.new
        ≡ opened_with (M.opened caches.old) settings.now.sets settings.now.workers }
{
    let (rt, alloc) = (engine.rt, engine.alloc);
    let (size, threads) = (settings.size, settings.workers);
    match gathered_from(engine, settings, input, caches) {
        Ok(gathered) => write_stream(rt, alloc, &gathered, size, threads, output, stderr),
        Err(status) => status,
    }
}
