//! Captures that are metered while they are read, and window by window: both give the same.

mod rows;

ghost use Rattle.std.specs.Prelude.{◌≡◌, ◌≤◌, ◌^◌, length, All, IfOk, IsPermutation};
ghost use Rattle.cache_face.specs.Meaning.{IsFresh};

use super::in_one;
use cache_face::{Caches, FlowCache};
use capture_tally::Tally;
use flow_parts::Timeouts;
use meter_io::{MemSource, Source};
use meter_workers::{
    Batches, CaptureMetered, Engine, Gate, MeterFault, Windows, meter_batches, meter_windows,
};
use std::alloc::Global;
use std::sync::Wait;
use std::test::Fail;
use std::thread::Threads;
use turn_cache::TurnCaches;

/// The most bytes of a capture.
const LIMIT: u64 = 1 << 30;

/// The smallest window.
const SMALL: usize = 262_184;

/// What comes of a capture: the tally of its records, how many bytes are left, and the packets and octets of all
/// fragments.
#[derive(Clone, Copy, Debug, PartialEq, Eq)]
struct Outcome {
    tally: Tally,
    tail: u64,
    packets: u64,
    octets: u64,
}

/// How a capture is metered: with how many passes, in windows of which size, at most how many bytes of it, and which
/// read of the source fails. With a room of 0 there is no queue, and one window is metered behind the other.
#[derive(Clone, Copy)]
struct Setting {
    passes: usize,
    room: usize,
    window: usize,
    limit: u64,
    fails: u64,
}

/// Meters what a source gives, with a queue or without.
fn run<S: Source, C: FlowCache, G: Gate, R: Threads + Wait + Sync>(
    engine: &Engine<'_, R, G>,
    source: &mut S,
    cache: &C,
    passes: Vec<C::Pass>,
    limits: Timeouts,
    setting: Setting,
) -> Result<CaptureMetered<C>, MeterFault>
    requires front { limits ≡ (C.means cache.now).limits }
    requires room { setting.room ≤ 64 }
    requires window { (262184 ≤ setting.window) × (setting.window ≤ 4194304) }
    requires limit { setting.limit ≤ 2 ^ 30 }
    requires passes { (3 ≤ length passes.items) × (length passes.items ≤ 64)
        × All (λ p. C.is_of cache.now p × IsFresh (C.shown p)) passes.items }
    ensures own { IfOk result (λ r. C.is_of cache.now r.pass × ((C.shown r.pass).note.seats ≡ length passes.items)) }
    ensures parts { IfOk result (λ r. IsPermutation (C.shown r.pass).note.handed r.parts) }
{
    let Setting {
        room,
        window,
        limit,
        ..
    } = setting;
    if room == 0 {
        let windows = Windows {
            size: window,
            limit,
            piece: 256,
            front: Some(limits),
        };
        return meter_windows(engine, source, cache, passes, windows);
    }
    let batches = Batches {
        size: window,
        limit,
        room,
        front: Some(limits),
    };
    meter_batches(engine, source, cache, passes, batches)
}

/// Meters a capture, and adds up what a turn cache kept of it.
fn meter_capture<G: Gate, R: Threads + Wait + Sync>(
    rt: &R,
    alloc: Global,
    bytes: &[u8],
    setting: Setting,
    gate: &G,
) -> Result<Result<Outcome, MeterFault>, Fail>
    requires passes { (3 ≤ setting.passes) × (setting.passes ≤ 64) }
    requires room { setting.room ≤ 64 }
    requires window { (262184 ≤ setting.window) × (setting.window ≤ 4194304) }
    requires limit { setting.limit ≤ 2 ^ 30 }
{
    let engine = Engine { rt, alloc, gate };
    meter_through(&engine, bytes, setting, &mut TurnCaches::new())
}

/// The same through one of these caches.
fn meter_through<G: Gate, R: Threads + Wait + Sync, M: Caches>(
    engine: &Engine<'_, R, G>,
    bytes: &[u8],
    setting: Setting,
    caches: &mut M,
) -> Result<Result<Outcome, MeterFault>, Fail>
    requires passes { (3 ≤ setting.passes) × (setting.passes ≤ 64) }
    requires room { setting.room ≤ 64 }
    requires window { (262184 ≤ setting.window) × (setting.window ≤ 4194304) }
    requires limit { setting.limit ≤ 2 ^ 30 }
{
    let alloc = engine.alloc;
    let fails = [setting.fails];
    let mut source = MemSource::new(bytes, 100_000, fails.as_slice());
    let limits = Timeouts::new(300, 1800);
    let (cache, passes) = caches.open(alloc, 4096, setting.passes, limits)?;
    let metered = match run(engine, &mut source, &cache, passes, limits, setting) {
        Ok(metered) => metered,
        Err(fault) => return Ok(Err(fault)),
    };
    let parts = in_one(
        alloc,
        caches.close(alloc, cache, metered.pass, metered.parts)?,
    )?;
    let mut packets = 0u64;
    let mut octets = 0u64;
    for part in parts.as_slice() {
        packets = packets.saturating_add(part.packets);
        octets = octets.saturating_add(part.octets);
    }
    Ok(Ok(Outcome {
        tally: metered.tally,
        tail: metered.tail,
        packets,
        octets,
    }))
}
