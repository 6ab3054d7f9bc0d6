//! The command `selftest`.

ghost use Rattle.std.specs.Prelude.{◌≡◌, Some, None};
ghost use Rattle.cache_face.specs.Openings.{opened_with};
ghost use Rattle.meter_io.specs.Sides.{Side, IsUntouched, side};
ghost use Rattle.meter_program.specs.Outcome.{Ends};
ghost use Rattle.meter_program.specs.Seen.{seen_of};
ghost use Rattle.meter_program.specs.Words.{selftest};

use crate::meter::{emit, emitter_for};
use crate::metering::gathered_from;
use crate::reports::summary;
use crate::settings::{Making, Settings};
use crate::status::Status;
use cache_face::Caches;
use capture_maker::capture;
use ipfix_writer::CopyRoom;
use meter_io::{Failed, Sink, Source};
use meter_workers::{Engine, Gate};
use std::alloc::Global;
use std::thread::Threads;

/// A made capture in memory as a source, of which no read fails.
#[derive(Drop)]
struct Made<'a> {
    left: &'a [u8],
}

impl<'a> Source for Made<'a> {
    ghost left = { λ s. Some s.left.now };

    ghost faults = { λ _. 0 };

    fn read(&mut self, buf: &mut [u8]) -> Result<usize, Failed> {
        let count = buf.len().min(self.left.len());
        let (first, rest) = self.left.split_at(count);
        buf[..count].copy_from_slice(first);
        self.left = rest;
        Ok(count)
    }
}

/// A sink that takes all and keeps nothing.
#[derive(Drop)]
struct Nowhere;

impl Sink for Nowhere {
    ghost held = { λ _. None };

    ghost faults = { λ _. 0 };

    fn write(&mut self, piece: &[u8]) -> Result<usize, Failed> {
        Ok(piece.len())
    }
}

/// How a made capture is metered: by four workers, and else by the defaults of `meter`.
fn four_workers() -> Settings
    ensures idle { result.idle ≡ 300 }
    ensures active { result.active ≡ 1800 }
    ensures size { result.size ≡ 1400 }
    ensures workers { result.workers ≡ 4 }
    ensures sets { result.sets ≡ 4096 }
{
    Settings {
        idle: 300,
        active: 1800,
        workers: 4,
        sets: 4096,
        piece: 256,
        size: 1400,
    }
}

/// Meters the capture of a seed in memory, through a cache of `caches`, and writes the summary to the output. It has
/// neither input nor standard error; the stream goes nowhere, and its messages are counted.
pub fn selftest<R: Threads + Sync, K: Sink, M: Caches, G: Gate>(
    engine: &Engine<'_, R, G>,
    settings: &Making,
    output: &mut K,
    caches: &mut M,
) -> Status
    ensures ends { (input stderr : Side) → IsUntouched input → IsUntouched stderr → let seen =
        seen_of input (side K.held K.faults output.old output.new)
        stderr (M.metered caches.new)
        in Ends (selftest settings.now.seed settings.now.packets settings.now.keys) seen (IsUntouched stderr) result }
    ensures opened { result ≡ Status.Done → M.opened caches.new ≡ opened_with (M.opened caches.old) 4096 4 }
{
    let Ok(bytes) = capture(engine.alloc, settings.seed, settings.packets, settings.keys) else {
        return Status::NoMemory;
    };
    let settings = four_workers();
    let mut source = Made {
        left: bytes.as_slice(),
    };
    let gathered = match gathered_from(engine, &settings, &mut source, caches) {
        Ok(gathered) => gathered,
        // Out of memory: a made capture is refused for nothing else.
        Err(status) => return status,
    };
    let Ok(emitter) = emitter_for(engine.alloc, &gathered, settings.size) else {
        return Status::NoMemory;
    };
    let Ok(room) = CopyRoom::open(engine.alloc, settings.workers, gathered.records.len()) else {
        return Status::NoMemory;
    };
    let messages = match emit(engine.rt, emitter, room, &gathered, &mut Nowhere) {
        Ok(messages) => messages,
        Err(Failed) => unreachable!(),
    };
    let flows = gathered.records.len() as u64;
    match summary(output, &gathered.tally, flows, messages, gathered.tail) {
        Ok(()) => Status::Done,
        Err(Failed) => Status::WriteFault,
    }
}
