//! Metering a capture in batches through one cache, and gathering what the cache gave.

ghost use Rattle.std.specs.Prelude.{◌≡◌, ◌+◌, IfOk, IfErr, OnOk};
ghost use Rattle.cache_face.specs.Openings.{opened_with};
ghost use Rattle.meter_io.specs.Sides.{IsUntouched, side};
ghost use Rattle.meter_program.specs.Metering.{IsReadAndKept, IsReadAndGathered};
ghost use Rattle.meter_program.specs.Outcome.{MeterRefuses, Ends};
ghost use Rattle.meter_program.specs.Seen.{seen_of};
ghost use Rattle.pipe_program.specs.Outcome.{opened_after};
ghost use Rattle.pipe_program.specs.Words.{as_meter, piping_of};

use crate::settings::PipeSettings;
use cache_face::Caches;
use flow_parts::{PartList, Timeouts};
use meter_io::{Sink, Source};
use meter_program::{CaptureCount, Gathered, Status, gathered_of, write_stream};
use meter_workers::{Batches, Engine, Gate, meter_batches};
use pcap_reader::CAPTURE_LIMIT;
use std::sync::Wait;
use std::thread::Threads;

/// The seats of the cache beside those of the workers: the reader's, and that of what is left in the queue at the end.
const OTHER_SEATS: usize = 2;

/// Meters the capture that the input gives through a cache, by the reader and all workers at once, and closes the
/// cache. Gives the fragments that the cache gave, and what is known of the capture.
fn meter_in_batches<R: Threads + Wait + Sync, S: Source, M: Caches, G: Gate>(
    engine: &Engine<'_, R, G>,
    settings: &PipeSettings,
    limits: Timeouts,
    input: &mut S,
    caches: &mut M,
) -> Result<(PartList, CaptureCount), Status>
    ensures kept { IfOk result
        (λ r. IsReadAndKept (side S.left S.faults input.old input.new) limits (M.metered caches.new) r.1.tally
        r.1.tail) }
    ensures given { IfOk result (λ r. r.0 ≡ M.metered caches.new) }
    ensures opened { OnOk result (M.opened caches.new
        ≡ opened_with (M.opened caches.old) settings.now.sets (settings.now.workers + 2)) }
    ensures refused { IfErr result (λ status. MeterRefuses (side S.left S.faults input.old input.new) status) }
{
    let seats = settings.workers + OTHER_SEATS;
    let (cache, passes) = caches.open(engine.alloc, settings.sets, seats, limits)?;
    let done = meter_batches(
        engine,
        input,
        &cache,
        passes,
        Batches {
            size: settings.batch,
            limit: CAPTURE_LIMIT,
            room: settings.queue,
            front: Some(limits),
        },
    )?;
    let parts = caches.close(engine.alloc, cache, done.pass, done.parts)?;
    let counted = CaptureCount {
        tally: done.tally,
        tail: done.tail,
    };
    Ok((parts, counted))
}

/// The records of the capture that the input gives, metered through a cache of `caches`, or why there are none.
fn gathered_in_batches<R: Threads + Wait + Sync, S: Source, M: Caches, G: Gate>(
    engine: &Engine<'_, R, G>,
    settings: &PipeSettings,
    input: &mut S,
    caches: &mut M,
) -> Result<Gathered, Status>
    ensures records { IfOk result
        (λ g. IsReadAndGathered (side S.left S.faults input.old input.new) settings.now.idle settings.now.active
        (M.metered caches.new) g.records g.tally g.tail) }
    ensures opened { OnOk result (M.opened caches.new
        ≡ opened_with (M.opened caches.old) settings.now.sets (settings.now.workers + 2)) }
    ensures refused { IfErr result (λ status. MeterRefuses (side S.left S.faults input.old input.new) status) }
{
    let limits = Timeouts::new(settings.idle, settings.active);
    let (parts, counted) = meter_in_batches(engine, settings, limits, input, caches)?;
    let (rt, alloc) = (engine.rt, engine.alloc);
    let gathered = gathered_of(rt, alloc, parts, limits, counted, settings.workers)?;
    Ok(gathered)
}

/// Reads a capture from the input to its end, meters it through a cache of `caches`, writes the records of its flows to
/// the output, and the summary to standard error.
pub fn pipe_input<R: Threads + Wait + Sync, S: Source, K: Sink, E: Sink, M: Caches, G: Gate>(
    engine: &Engine<'_, R, G>,
    settings: &PipeSettings,
    input: &mut S,
    output: &mut K,
    stderr: &mut E,
    caches: &mut M,
) -> Status
    ensures ends { let seen = seen_of (side S.left S.faults input.old input.new) (side K.held K.faults output.old output.new)
        (side E.held E.faults stderr.old stderr.new) (M.metered caches.new)
        in Ends (as_meter (piping_of settings.now)) seen (IsUntouched seen.stderr) result }
    ensures opened { result ≡ Status.Done
        → M.opened caches.new ≡ opened_after (piping_of settings.now) (M.opened caches.old) }
{
    let (rt, alloc) = (engine.rt, engine.alloc);
    let (size, threads) = (settings.size, settings.workers);
    match gathered_in_batches(engine, settings, input, caches) {
        Ok(gathered) => write_stream(rt, alloc, &gathered, size, threads, output, stderr),
        Err(status) => status,
    }
}
