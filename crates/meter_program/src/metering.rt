//! Metering a capture through one cache, and gathering what the cache gave.

ghost use Rattle.std.specs.Prelude.{◌≡◌, ◌<◌, ◌≤◌, ◌^◌, ◌*◌, List, ℕ, IfOk, IfErr, OnOk};
ghost use Rattle.cache_face.specs.Openings.{opened_with};
ghost use Rattle.flow_parts.specs.declared.timeouts.Timeouts.{Timeouts};
ghost use Rattle.meter_io.specs.Sides.{Side, side};
ghost use Rattle.meter_program.specs.Metering.{IsKept, IsReadAndKept, IsGathered, IsReadAndGathered};
ghost use Rattle.meter_program.specs.Outcome.{MeterRefuses};

use crate::settings::Settings;
use crate::status::Status;
use cache_face::Caches;
use capture_tally::Tally;
use flow_parts::laws::sharing_out_counts;
use flow_parts::{PartList, Timeouts};
use meter_io::Source;
use meter_workers::{Engine, Gate, Windows, meter_windows};
use no_memory::NoMemory;
use pcap_reader::CAPTURE_LIMIT;
use record_ledger::{RecordList, gather};
use std::alloc::Global;
use std::thread::Threads;

/// The bytes of the one window that is held for a single worker: the fewest that a window may have, since a
/// longer one takes the room of open flows in the near cache of the processor.
const WINDOW_OF_ONE: usize = 262_184;

/// The bytes of a window for several workers, of which two are held at a time: more, since threads are started for each.
const WINDOW_OF_SEVERAL: usize = 1 << 21;

/// What is known of a capture whose packets a cache has metered: its tally, and how many bytes are left behind its last
/// record.
#[derive(Clone, Copy)]
pub struct CaptureCount {
    pub tally: Tally,
    pub tail: u64,
}

/// The records of a capture, its tally, and how many bytes are left behind its last record.
#[derive(Drop)]
pub struct Gathered {
    pub records: RecordList,
    pub tally: Tally,
    pub tail: u64,
}

/// The bytes of a window for so many workers.
fn window_size(workers: usize) -> usize
    ensures { (262184 ≤ result) × (result ≤ 2 ^ 27) }
{
    if workers == 1 {
        WINDOW_OF_ONE
    } else {
        WINDOW_OF_SEVERAL
    }
}

/// Meters the capture that the input gives through a cache, by all workers at once, and closes the cache. Gives the
/// fragments that the cache gave, and what is known of the capture.
fn meter_input<R: Threads + Sync, S: Source, M: Caches, G: Gate>(
    engine: &Engine<'_, R, G>,
    settings: &Settings,
    limits: Timeouts,
    input: &mut S,
    caches: &mut M,
) -> Result<(PartList, CaptureCount), Status>
    ensures kept { IfOk result
        (λ r. IsReadAndKept (side S.left S.faults input.old input.new) limits (M.metered caches.new) r.1.tally
        r.1.tail) }
    ensures given { IfOk result (λ r. r.0 ≡ M.metered caches.new) }
    ensures opened { OnOk result (M.opened caches.new
        ≡ opened_with (M.opened caches.old) settings.now.sets settings.now.workers) }
    ensures refused { IfErr result (λ status. MeterRefuses (side S.left S.faults input.old input.new) status) }
{
    let (cache, passes) = caches.open(engine.alloc, settings.sets, settings.workers, limits)?;
    let done = meter_windows(
        engine,
        input,
        &cache,
        passes,
        Windows {
            size: window_size(settings.workers),
            limit: CAPTURE_LIMIT,
            piece: settings.piece,
            front: Some(limits),
        },
    )?;
    let parts = caches.close(engine.alloc, cache, done.pass, done.parts)?;
    let counted = CaptureCount {
        tally: done.tally,
        tail: done.tail,
    };
    Ok((parts, counted))
}

/// Gathers the fragments that a cache gave of a metered capture into the capture's records, by at most `threads`
/// threads.
///
/// `NoMemory`: out of memory.
pub fn gathered_of<R: Threads + Sync>(
    rt: &R,
    alloc: Global,
    parts: PartList,
    limits: Timeouts,
    counted: CaptureCount,
    threads: usize,
) -> Result<Gathered, NoMemory>
    requires threads { 0 < threads }
    requires kept { (capture : List ℕ) × IsKept limits capture parts counted.tally counted.tail }
    ensures { IfOk result (λ g. (idle active : ℕ) (capture : List ℕ) → limits.idle ≡ 1000 * idle
        → limits.active ≡ 1000 * active → IsKept limits capture parts counted.tally counted.tail
        → IsGathered idle active capture parts g.records g.tally g.tail) }
{
    sharing_out_counts();
    let CaptureCount { tally, tail } = counted;
    let clock = tally.clock;
    let records = gather(rt, alloc, parts, limits, clock, threads)?;
    Ok(Gathered {
        records,
        tally,
        tail,
    })
}

/// The records of the capture that the input gives, metered through a cache of `caches`, or why there are none.
pub fn gathered_from<R: Threads + Sync, S: Source, M: Caches, G: Gate>(
    engine: &Engine<'_, R, G>,
    settings: &Settings,
    input: &mut S,
    caches: &mut M,
) -> Result<Gathered, Status>
    ensures records { IfOk result
        (λ g. IsReadAndGathered (side S.left S.faults input.old input.new) settings.now.idle settings.now.active
        (M.metered caches.new) g.records g.tally g.tail) }
    ensures opened { OnOk result (M.opened caches.new
        ≡ opened_with (M.opened caches.old) settings.now.sets settings.now.workers) }
    ensures refused { IfErr result (λ status. MeterRefuses (side S.left S.faults input.old input.new) status) }
{
    let limits = Timeouts::new(settings.idle, settings.active);
    let (parts, counted) = meter_input(engine, settings, limits, input, caches)?;
    let (rt, alloc) = (engine.rt, engine.alloc);
    let gathered = gathered_of(rt, alloc, parts, limits, counted, settings.workers)?;
    Ok(gathered)
}
