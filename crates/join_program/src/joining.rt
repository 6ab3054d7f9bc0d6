//! Gathering what was taken, and writing it.

ghost use Rattle.std.specs.Prelude.{◌≡◌, ◌≤◌, List, IfOk};
ghost use Rattle.record_ledger.specs.declared.record.FlowRecord.{FlowRecord};
ghost use Rattle.meter_io.specs.Sides.{side};
ghost use Rattle.join_program.specs.Joined.{AreJoined, AreGathered, together, export_time};
ghost use Rattle.join_program.specs.Taking.{IsTaken, share_of, asked_of, EmitMeans};
ghost use Rattle.std.specs.Prelude.{ℕ};
ghost use Rattle.ipfix_model.specs.Sizes.{template_message_length};

use crate::settings::JoinSettings;
use crate::status::JoinStatus;
use crate::taken::Taken;
use flow_parts::Timeouts;
use ipfix_law::layout_law;
use ipfix_writer::{CopyRoom, Emitter, emit_all};
use meter_io::{Failed, Sink};
use no_memory::NoMemory;
use record_ledger::laws::gathered_lists_are_one;
use record_ledger::{FlowRecord, RecordList, gather};
use std::alloc::Global;
use std::thread::Threads;

/// The number of threads that gather the records, and, where there are many, of those that write them or copy what is
/// written next.
const THREADS: usize = 4;

/// The joined records: those that are gathered from what was taken.
pub(crate) fn gather_taken<R: Threads + Sync>(
    rt: &R,
    alloc: Global,
    settings: &JoinSettings,
    taken: Taken,
) -> Result<RecordList, NoMemory>
    requires { (flows : List FlowRecord) × IsTaken (share_of settings.now.share) flows taken }
    ensures joined { IfOk result (λ records. (names : List (List ℕ)) (inputs : List (List FlowRecord))
        → IsTaken (share_of settings.now.share) (together inputs) taken
        → AreJoined (asked_of settings.now names) inputs taken.clock records) }
    ensures gathered { IfOk result (λ records. (names : List (List ℕ)) (inputs : List (List FlowRecord))
        → IsTaken (share_of settings.now.share) (together inputs) taken
        → AreGathered (asked_of settings.now names) inputs taken.clock records) }
{
    gathered_lists_are_one();
    let limits = Timeouts::new(settings.idle, settings.active);
    gather(rt, alloc, taken.parts, limits, taken.clock, THREADS)
}

/// The export time of records with this latest time in milliseconds: in whole seconds, modulo 2^32; 0 where there are
/// no records.
fn export_time(clock: Option<u64>) -> u32
    ensures { result ≡ export_time clock }
{
    match clock {
        None => 0,
        Some(clock) => (clock / 1000 % (1 << 32)) as u32,
    }
}

/// Writes the stream of records, message by message. All memory is allocated before the first message is written.
pub(crate) fn write_records<R: Threads + Sync, K: Sink>(
    rt: &R,
    alloc: Global,
    size: u32,
    clock: Option<u64>,
    records: &RecordList,
    output: &mut K,
) -> JoinStatus
    requires { (template_message_length ≤ size) × (size ≤ 65535) }
    ensures { EmitMeans size (export_time clock) records.now (side K.held K.faults output.old output.new) result }
{
    layout_law();
    let Ok(emitter) = Emitter::open(alloc, size as usize, export_time(clock)) else {
        return JoinStatus::NoMemory;
    };
    let Ok(room) = CopyRoom::open(alloc, THREADS, records.len()) else {
        return JoinStatus::NoMemory;
    };
    match emit_all(rt, emitter, room, records, output) {
        Ok(_) => JoinStatus::Done,
        Err(Failed) => JoinStatus::WriteFault,
    }
}
