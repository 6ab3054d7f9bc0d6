//! Captures that are metered in windows, and what comes of them.

mod cuts;
mod gates;
mod made;
mod piped;

ghost use Rattle.std.specs.Prelude.{◌<◌, ◌≤◌, ◌^◌};

use cache_face::Caches;
use capture_tally::Tally;
use flow_parts::{Fragment, PartList, Timeouts};
use meter_io::Source;
use meter_workers::{Engine, Gate, MeterFault, Windows, meter_windows};
use record_ledger::{RecordList, gather};
use std::alloc::Global;
use std::test::Fail;
use std::thread::Threads;
use trial_flows::are_few;
use turn_cache::TurnCaches;

/// The most bytes of a capture.
const LIMIT: u64 = 1 << 30;

/// The smallest window.
const SMALL: usize = 262_184;

/// What comes of a capture: its flow records, the tally of its records, and how many bytes are left.
#[derive(Drop)]
struct Outcome {
    records: RecordList,
    tally: Tally,
    tail: u64,
}

/// How a capture is metered: by how many workers, in windows and pieces of which size, and at most how many bytes of
/// it.
#[derive(Clone, Copy)]
struct Setting {
    seats: usize,
    window: usize,
    piece: u64,
    limit: u64,
}

/// One worker, the smallest windows and pieces of 256 records.
static ONE: Setting = Setting {
    seats: 1,
    window: SMALL,
    piece: 256,
    limit: LIMIT,
};

/// The fragments of a list, copied into one piece.
fn in_one(alloc: Global, parts: PartList) -> Result<Vec<Fragment>, Fail> {
    all_of(alloc, &parts.into_pieces()?)
}

/// The fragments of these pieces.
fn all_of(alloc: Global, pieces: &[Vec<Fragment>]) -> Result<Vec<Fragment>, Fail> {
    let mut all = Vec::new(alloc);
    for piece in pieces {
        all.extend_from_slice(piece)?;
    }
    Ok(all)
}

/// Meters what a source gives through a turn cache, and gathers the records.
fn meter_source<R: Threads + Sync, S: Source, G: Gate>(
    rt: &R,
    alloc: Global,
    source: &mut S,
    setting: Setting,
    gate: &G,
) -> Result<Result<Outcome, MeterFault>, Fail>
    requires seats { (1 ≤ setting.seats) × (setting.seats ≤ 64) }
    requires window { (262184 ≤ setting.window) × (setting.window ≤ 2 ^ 27) }
    requires piece { (0 < setting.piece) × (setting.piece ≤ 65536) }
    requires limit { setting.limit ≤ 2 ^ 30 }
{
    let engine = Engine { rt, alloc, gate };
    meter_through(&engine, source, setting, &mut TurnCaches::new())
}

/// The same through one of these caches.
fn meter_through<R: Threads + Sync, S: Source, G: Gate, M: Caches>(
    engine: &Engine<'_, R, G>,
    source: &mut S,
    setting: Setting,
    caches: &mut M,
) -> Result<Result<Outcome, MeterFault>, Fail>
    requires seats { (1 ≤ setting.seats) × (setting.seats ≤ 64) }
    requires window { (262184 ≤ setting.window) × (setting.window ≤ 2 ^ 27) }
    requires piece { (0 < setting.piece) × (setting.piece ≤ 65536) }
    requires limit { setting.limit ≤ 2 ^ 30 }
{
    let (rt, alloc) = (engine.rt, engine.alloc);
    let Setting {
        seats,
        window,
        piece,
        limit,
    } = setting;
    let limits = Timeouts::new(300, 1800);
    let (cache, passes) = caches.open(alloc, 4096, seats, limits)?;
    let windows = Windows {
        size: window,
        limit,
        piece,
        front: Some(limits),
    };
    let done = meter_windows(engine, source, &cache, passes, windows);
    let metered = match done {
        Ok(metered) => metered,
        Err(fault) => return Ok(Err(fault)),
    };
    let parts = in_one(
        alloc,
        caches.close(alloc, cache, metered.pass, metered.parts)?,
    )?;
    if !are_few(parts.as_slice()) {
        return Err(Fail::from("more packets than there are"));
    }
    let mut list = PartList::new(alloc);
    list.add_piece(parts)?;
    let records = gather(rt, alloc, list, limits, metered.tally.clock, seats)?;
    Ok(Ok(Outcome {
        records,
        tally: metered.tally,
        tail: metered.tail,
    }))
}
