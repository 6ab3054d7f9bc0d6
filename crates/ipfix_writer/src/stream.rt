//! Whole streams.

ghost use Rattle.std.specs.Prelude.{◌≡◌, ◌≤◌, ◌<◌, ◌^◌, List, ℕ, IfOk, OnErr};
ghost use Rattle.std.specs.Io.KnownBytes.{Appends};
ghost use Rattle.meter_io.specs.Causes.{HasCause};
ghost use Rattle.meter_io.specs.Sides.{side};
ghost use Rattle.ipfix_writer.specs.Layout.{IsLayout, IsLayoutOf, BeginsLayout};
ghost use Rattle.ipfix_writer.specs.Emitting.{HasTakenIn};
ghost use Rattle.ipfix_model.specs.Sizes.{template_message_length};

use crate::copies::CopyRoom;
use crate::emitter::{Emitter, Phase};
use crate::message::encode_template_message;
use crate::messages::{MessageForm, append_messages};
use crate::rounds::emit_rounds;
use ipfix_model::TEMPLATE_MESSAGE_LENGTH;
use meter_io::{Failed, Sink};
use no_memory::NoMemory;
use record_ledger::{FlowRecord, RUN, RecordList, Run};
use std::alloc::Global;
use std::thread::Threads;

/// Takes in these records, one after another.
///
/// `Failed` comes only where the sink's count of faults rose. The sink then took a beginning of the stream, and the
/// emitter can only be dropped.
pub(crate) fn emit_run<K: Sink>(
    emitter: &mut Emitter,
    run: &[FlowRecord],
    sink: &mut K,
) -> Result<(), Failed>
    requires { emitter.old.phase ≡ Phase.Started }
    ensures { HasTakenIn emitter.old emitter.new (side K.held K.faults sink.old sink.new) run.now result }
{
    for flow in run {
        match emitter.record(flow, sink) {
            Ok(()) => {}
            Err(Failed) => return Err(Failed),
        }
    }
    Ok(())
}

/// Takes in all records of a list, run by run: those of a run are copied together, since they lie far apart in memory.
///
/// `Failed` comes only where the sink's count of faults rose. The sink then took a beginning of the stream, and the
/// emitter can only be dropped.
fn emit_records<K: Sink>(
    emitter: &mut Emitter,
    records: &RecordList,
    sink: &mut K,
) -> Result<(), Failed>
    requires { emitter.old.phase ≡ Phase.Started }
    ensures { HasTakenIn emitter.old emitter.new (side K.held K.faults sink.old sink.new) records.now result }
{
    let mut run = Run::empty();
    for number in 0..records.len().div_ceil(RUN) {
        records.copy_run(number * RUN, &mut run);
        match emit_run(emitter, run.as_slice(), sink) {
            Ok(()) => {}
            Err(Failed) => return Err(Failed),
        }
    }
    Ok(())
}

/// Takes in all records of a list: round by round, where there is room for copies, and else run by run.
///
/// `Failed` comes only where the sink's count of faults rose. The sink then took a beginning of the stream, and the
/// emitter can only be dropped.
fn emit_list<R: Threads + Sync, K: Sink>(
    rt: &R,
    emitter: &mut Emitter,
    room: CopyRoom,
    records: &RecordList,
    sink: &mut K,
) -> Result<(), Failed>
    requires { emitter.old.phase ≡ Phase.Started }
    ensures { HasTakenIn emitter.old emitter.new (side K.held K.faults sink.old sink.new) records.now result }
{
    if room.is_empty() {
        emit_records(emitter, records, sink)
    } else {
        emit_rounds(rt, emitter, room, records, sink)
    }
}

/// Writes the whole stream of these records by a fresh emitter, and tells how many messages it has, the one with the
/// templates among them.
///
/// `Failed` comes only where the sink's count of faults rose; the sink then took a beginning of the stream.
pub fn emit_all<R: Threads + Sync, K: Sink>(
    rt: &R,
    emitter: Emitter,
    room: CopyRoom,
    records: &RecordList,
    sink: &mut K,
) -> Result<u64, Failed>
    requires { emitter.phase ≡ Phase.Fresh }
    ensures written { IfOk result (λ messages. (bytes : List ℕ) × Appends (K.held sink.old) (K.held sink.new) bytes
        × IsLayoutOf emitter.size emitter.export_time records.now bytes messages) }
    ensures broken { OnErr result ((bytes : List ℕ) × Appends (K.held sink.old) (K.held sink.new) bytes
        × BeginsLayout emitter.size emitter.export_time records.now bytes) }
    ensures cause { HasCause (K.faults sink.old) (K.faults sink.new) result }
{
    let mut emitter = emitter;
    match emitter.start(sink) {
        Ok(()) => {}
        Err(Failed) => return Err(Failed),
    }
    match emit_list(rt, &mut emitter, room, records, sink) {
        Ok(()) => {}
        Err(Failed) => return Err(Failed),
    }
    emitter.finish(sink)
}

/// The stream of these records: messages of at most `size` octets, from 116 to 65,535, with this export time in seconds
/// since 1970.
///
/// `NoMemory` where there is no memory for it.
pub fn layout(
    alloc: Global,
    records: &[FlowRecord],
    size: usize,
    export_time: u32,
) -> Result<Vec<u8>, NoMemory>
    requires { (template_message_length ≤ size) × (size < 2 ^ 16) }
    ensures { IfOk result (λ bytes. IsLayout size export_time records.now bytes.items) }
{
    let mut stream = Vec::with_capacity(alloc, TEMPLATE_MESSAGE_LENGTH as usize)?;
    encode_template_message(&mut stream, export_time);
    append_messages(
        alloc,
        &mut stream,
        records,
        MessageForm { size, export_time },
    )?;
    Ok(stream)
}
