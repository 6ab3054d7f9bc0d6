//! The records of a list, round by round: threads copy those of the next round while the calling one writes those of
//! the last.
//!
//! What a call only reads stands before what it changes: the borrow checker doesn't cover a closure that reads a
//! captured `&` after it lends a captured `&mut`.

ghost use Rattle.std.specs.Prelude.{◌≡◌, ◌+◌, ◌*◌, ◌<◌, min, length, take, drop, All};
ghost use Rattle.meter_io.specs.Sides.{side};
ghost use Rattle.ipfix_writer.specs.Layout.{together};
ghost use Rattle.ipfix_writer.specs.Emitting.{HasTakenIn};
ghost use Rattle.ipfix_writer.specs.Copies.{IsWhole, records_of, HasCopies, HaveCopies};

use crate::copies::{CopyRoom, PART_RECORDS};
use crate::emitter::{Emitter, Phase};
use crate::stream::emit_run;
use meter_io::{Failed, Sink};
use record_ledger::{RUN, RecordList, Run};
use side_by_side::{for_each_beside, for_each_mut};
use std::mem;
use std::thread::Threads;

/// The place of a list behind so many stretches of this width from another place on, or the list's end.
fn place_behind(records: &RecordList, from: usize, count: usize, width: usize) -> usize
    ensures { result ≡ min (from + count * width) (length records.now) }
{
    from.saturating_add(count.saturating_mul(width))
        .min(records.len())
}

/// Copies the records from a place of a list on into a part.
fn copy_part(records: &RecordList, from: usize, part: &mut Vec<Run>)
    requires { IsWhole part.old }
    ensures { HasCopies records.now from part.new }
{
    for number in 0..part.len() {
        let place = place_behind(records, from, number, RUN);
        records.copy_run(place, &mut part[number]);
    }
}

/// Copies the records from the beginning of a list on into all parts, each by a thread.
fn copy_first<R: Threads + Sync>(rt: &R, records: &RecordList, parts: &mut [Vec<Run>])
    requires some { 0 < length parts.old }
    requires whole { All IsWhole parts.old }
    ensures many { length parts.new ≡ length parts.old }
    ensures copies { HaveCopies records.now 0 parts.new }
{
    let threads = parts.len();
    for_each_mut(
        rt,
        parts,
        threads,
        &|number, part: &mut Vec<Run>|
            requires { IsWhole part.old }
            ensures { HasCopies records.entry.now (number * 4096) part.new }
        {
            copy_part(
                records,
                place_behind(records, 0, number, PART_RECORDS),
                part,
            )
        },
    );
}

/// Takes in the records of a part, run by run.
fn emit_part<K: Sink>(part: &[Run], emitter: &mut Emitter, sink: &mut K) -> Result<(), Failed>
    requires { emitter.old.phase ≡ Phase.Started }
    ensures { HasTakenIn emitter.old emitter.new (side K.held K.faults sink.old sink.new) (together part.now) result }
{
    for run in part {
        match emit_run(emitter, run.as_slice(), sink) {
            Ok(()) => {}
            Err(Failed) => return Err(Failed),
        }
    }
    Ok(())
}

/// Takes in the records of all parts, one part after the other.
fn emit_parts<K: Sink>(
    parts: &[Vec<Run>],
    emitter: &mut Emitter,
    sink: &mut K,
) -> Result<(), Failed>
    requires { emitter.old.phase ≡ Phase.Started }
    ensures { HasTakenIn emitter.old emitter.new (side K.held K.faults sink.old sink.new) (records_of parts.now)
        result }
{
    for part in parts {
        match emit_part(part, emitter, sink) {
            Ok(()) => {}
            Err(Failed) => return Err(Failed),
        }
    }
    Ok(())
}

/// Takes in the records of all parts, while threads copy those from a place of the list on into the parts of `next`.
fn emit_beside<R: Threads + Sync, K: Sink>(
    rt: &R,
    parts: &[Vec<Run>],
    records: &RecordList,
    from: usize,
    next: &mut [Vec<Run>],
    emitter: &mut Emitter,
    sink: &mut K,
) -> Result<(), Failed>
    requires started { emitter.old.phase ≡ Phase.Started }
    requires whole { All IsWhole next.old }
    ensures taken { HasTakenIn emitter.old emitter.new (side K.held K.faults sink.old sink.new) (records_of parts.now)
        result }
    ensures many { length next.new ≡ length next.old }
    ensures copies { HaveCopies records.now from next.new }
{
    for_each_beside(
        rt,
        next,
        &|number, part: &mut Vec<Run>|
            requires { IsWhole part.old }
            ensures { HasCopies records.entry.now (from + number * 4096) part.new }
        {
            copy_part(
                records,
                place_behind(records, from, number, PART_RECORDS),
                part,
            )
        },
        &mut || -> Result<(), Failed>
            requires { emitter.now.phase ≡ Phase.Started }
            ensures { HasTakenIn emitter.entry.now emitter.exit.now
                (side K.held K.faults sink.entry.now sink.exit.now)
                (records_of parts.entry.now) result }
        { emit_parts(parts, emitter, sink) },
    )
}

/// Takes in all records of a list, round by round. Of the room one half has copies of the records of this round, and
/// those of the next one are copied into the other half meanwhile.
pub fn emit_rounds<R: Threads + Sync, K: Sink>(
    rt: &R,
    emitter: &mut Emitter,
    room: CopyRoom,
    records: &RecordList,
    sink: &mut K,
) -> Result<(), Failed>
    requires started { emitter.old.phase ≡ Phase.Started }
    requires some { 0 < room }
    ensures { HasTakenIn emitter.old emitter.new (side K.held K.faults sink.old sink.new) records.now result }
{
    let CopyRoom {
        mut current,
        mut next,
    } = room;
    copy_first(rt, records, &mut current);
    let mut from = 0;
    while from < records.len() {
        let behind = place_behind(records, from, current.len(), PART_RECORDS);
        match emit_beside(rt, &current, records, behind, &mut next, emitter, sink) {
            Ok(()) => {}
            Err(Failed) => return Err(Failed),
        }
        mem::swap(&mut current, &mut next);
        from = behind;
    }
    Ok(())
}
