//! For `bench/caches.sh`: how long a shared cache of open flows takes for a packet. The packets of the capture are read
//! into memory; then threads meter them all at once through one cache: of n threads each takes every n-th piece of 256
//! packets. What it took, in nanoseconds a packet from start to end, goes to standard error. The packets of fragments
//! that are handed out are added up, and the fragments let go. A capture without packets is refused, and so is a run in
//! which more packets are handed out than there are.

ghost use Rattle.std.specs.Prelude.{◌≤◌};

use crate::packets::packets_of;
use crate::runner::{handed_to, run_all, runners_of};
use cache_face::Caches;
use flow_cache::PebrCaches;
use flow_parts::Timeouts;
use meter_io::{Source, StdSource};
use packet_accept::Packet;
use std::alloc::Global;
use std::process::ExitCode;
use std::thread::Threads;
use std::time::{Clock, Instant};
use turn_cache::TurnCaches;

/// Which cache is measured.
#[derive(Clone, Copy, PartialEq, Eq, Debug)]
enum Kind {
    /// One turn for each set.
    Turn,
    /// Without turns.
    Pebr,
}

/// The cache of this name.
fn kind_of(word: &str) -> Option<Kind> {
    match word {
        "turn" => Some(Kind::Turn),
        "pebr" => Some(Kind::Pebr),
        _ => None,
    }
}

/// Which cache is measured, how many threads meter through it, and how many sets it has.
#[derive(Clone, Copy, Debug)]
struct Setting {
    kind: Kind,
    threads: usize,
    sets: u64,
    ghost threads_bounds: { (1 ≤ threads) × (threads ≤ 64) },
    ghost sets_bounds: { (1 ≤ sets) × (sets ≤ 65536) },
}

/// The setting of the words behind the first.
fn setting_of(words: &[String]) -> Option<Setting> {
    let kind = kind_of(words.get(1)?.as_str())?;
    let threads = words.get(2)?.parse::<usize>().ok()?;
    let sets = words.get(3)?.parse::<u64>().ok()?;
    if threads < 1 || threads > 64 || sets < 1 || sets > 65536 || words.len() != 4 {
        return None;
    }
    Some(Setting {
        kind,
        threads,
        sets,
    })
}

/// Meters the packets through a cache of `caches`, and tells the nanoseconds that it took. `None` where there is no
/// clock or no memory, or more packets are handed out than there are.
fn pace<R: Threads + Clock + Sync, M: Caches>(
    rt: &R,
    alloc: Global,
    caches: &mut M,
    packets: &[Packet],
    setting: Setting,
) -> Option<u64> {
    let timeouts = Timeouts::new(300, 1800);
    let (cache, passes) = caches
        .open(alloc, setting.sets, setting.threads, timeouts)
        .ok()?;
    let mut runners = runners_of(alloc, &cache, passes).ok()?;
    let start = Instant::now(rt).ok()?;
    run_all(rt, packets, &cache, runners.as_mut_slice());
    let took = start.elapsed(rt).ok()?;
    if handed_to(runners.as_slice()) > packets.len() as u64 {
        return None;
    }
    u64::try_from(took.as_nanos()).ok()
}

/// The nanoseconds for each packet of a source's capture.
fn pace_of<R: Threads + Clock + Sync, S: Source>(
    rt: &R,
    alloc: Global,
    input: &mut S,
    setting: Setting,
) -> Option<u64> {
    let packets = packets_of(alloc, input)?;
    let packets = packets.as_slice();
    let took = match setting.kind {
        Kind::Turn => pace(rt, alloc, &mut TurnCaches::new(), packets, setting)?,
        Kind::Pebr => pace(rt, alloc, &mut PebrCaches::new(), packets, setting)?,
    };
    took.checked_div(packets.len() as u64)
}

/// Measures on the capture of standard input as the words say.
pub(crate) fn tell_pace<R: Threads + Clock + Sync>(
    rt: &R,
    host: &HostRuntime,
    words: &[String],
) -> ExitCode {
    let Some(setting) = setting_of(words) else {
        return ExitCode::from(2);
    };
    let mut input = StdSource::new(host.stdin());
    match pace_of(rt, host.alloc(), &mut input, setting) {
        Some(nanoseconds) => match eprintln!(host; "{nanoseconds}") {
            Ok(()) => ExitCode::from(0),
            Err(_) => ExitCode::from(1),
        },
        None => ExitCode::from(1),
    }
}
