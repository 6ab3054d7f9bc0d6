//! For `bench/reading.sh`: the capture is metered in windows through one turn cache, and flow records are neither
//! gathered nor written. One line says how many records there are, how many of them are packets, and the octets of
//! these.

ghost use Rattle.std.specs.Prelude.{◌≤◌, ◌^◌};

use cache_face::Caches;
use capture_tally::Tally;
use flow_parts::Timeouts;
use meter_io::{Source, StdSource};
use meter_workers::{Engine, OpenGate, Windows, meter_windows};
use pcap_reader::CAPTURE_LIMIT;
use std::alloc::Global;
use std::process::ExitCode;
use std::thread::Threads;
use turn_cache::TurnCaches;

/// How many records a worker draws at a time.
const PIECE: u64 = 256;

/// How many workers meter, how many bytes a window has, and how many sets the cache has.
#[derive(Clone, Copy, Debug)]
struct Setting {
    workers: usize,
    window: usize,
    sets: u64,
    ghost workers_bounds: { (1 ≤ workers) × (workers ≤ 64) },
    ghost window_bounds: { (262184 ≤ window) × (window ≤ 2 ^ 27) },
    ghost sets_bounds: { (1 ≤ sets) × (sets ≤ 65536) },
}

/// The setting of the words behind the first.
fn setting_of(words: &[String]) -> Option<Setting> {
    let workers = words.get(1)?.parse::<usize>().ok()?;
    let window = words.get(2)?.parse::<usize>().ok()?;
    let sets = words.get(3)?.parse::<u64>().ok()?;
    if workers < 1 || workers > 64 || window < 262_184 || window > 1 << 27 {
        return None;
    }
    if sets < 1 || sets > 65536 || words.len() != 4 {
        return None;
    }
    Some(Setting {
        workers,
        window,
        sets,
    })
}

/// The tally of the capture of a source, once it is metered.
fn meter_source<R: Threads + Sync, S: Source, M: Caches>(
    rt: &R,
    alloc: Global,
    input: &mut S,
    setting: Setting,
    caches: &mut M,
) -> Option<Tally> {
    let limits = Timeouts::new(300, 1800);
    let (cache, passes) = caches
        .open(alloc, setting.sets, setting.workers, limits)
        .ok()?;
    let engine = Engine {
        rt,
        alloc,
        gate: &OpenGate,
    };
    let done = meter_windows(
        &engine,
        input,
        &cache,
        passes,
        Windows {
            size: setting.window,
            limit: CAPTURE_LIMIT,
            piece: PIECE,
            front: Some(limits),
        },
    );
    let Ok(metered) = done else {
        return None;
    };
    caches
        .close(alloc, cache, metered.pass, metered.parts)
        .ok()?;
    Some(metered.tally)
}

/// Meters the capture of standard input as the words say.
pub(crate) fn tell_windows<R: Threads + Sync>(
    rt: &R,
    host: &HostRuntime,
    words: &[String],
) -> ExitCode {
    let Some(setting) = setting_of(words) else {
        return ExitCode::from(2);
    };
    let mut input = StdSource::new(host.stdin());
    match meter_source(
        rt,
        host.alloc(),
        &mut input,
        setting,
        &mut TurnCaches::new(),
    ) {
        Some(tally) => {
            let (records, packets, octets) = (tally.captured, tally.accepted, tally.octets);
            match println!(host; "records {records} packets {packets} octets {octets}") {
                Ok(()) => ExitCode::from(0),
                Err(_) => ExitCode::from(1),
            }
        }
        None => ExitCode::from(1),
    }
}
