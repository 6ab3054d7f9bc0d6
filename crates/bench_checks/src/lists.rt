//! For `checks/watch.sh`, which looks at lists of retired slots. Workers meter the capture through one set of a cache
//! without turns; beside them a watcher asks for the flows of the first packets, one for each ask: it holds the flow,
//! reads it and releases it. After each call of `meter`, and after each ask, the pass is asked how many slots it has
//! retired. The one line tells the packets and the octets of all fragments that the cache handed out and kept, the most
//! slots that any pass ever had retired, how many a pass has at all, and how many asks held a flow.

ghost use Rattle.std.specs.Prelude.{◌≡◌, ◌+◌, ◌^◌, ◌<◌, ◌≤◌, length, All, IfOk, IfSome};
ghost use Rattle.pcap_reader.specs.File.{IsCaptureOf};
ghost use Rattle.pcap_reader.specs.Index.{IsIndexOf};
ghost use Rattle.cache_face.specs.Meaning.{IsFresh};
ghost use Rattle.flow_cache.specs.Shown as inner;
ghost use Rattle.bench_checks.specs.Looked.{means_of, shown_of, IsOf};

use crate::asking::{Asked, ask_all};
use crate::counts::counts_of;
use crate::keys::keys_of;
use crate::looked::{LookedCache, LookedPass};
use cache_face::{Caches, FlowCache, NoMemory};
use flow_cache::{PebrCaches, PebrPass};
use flow_key::FlowKey;
use flow_parts::Timeouts;
use meter_io::{Source, StdSource, read_all};
use meter_workers::{CaptureMetered, Engine, OpenGate, Part, meter_all};
use pcap_reader::{CAPTURE_LIMIT, Capture, RecordIndex};
use std::alloc::Global;
use std::process::ExitCode;
use std::thread;
use std::thread::Threads;

/// How many records a worker draws at a time.
const PIECE: u64 = 64;

/// How many workers meter, and how often a flow is asked for.
#[derive(Clone, Copy, Debug)]
struct Setting {
    workers: usize,
    asks: usize,
    ghost workers_bounds: { (1 ≤ workers) × (workers ≤ 63) },
}

/// The setting of the words behind the first.
fn setting_of(words: &[String]) -> Option<Setting> {
    let workers = words.get(1)?.parse::<usize>().ok()?;
    let asks = words.get(2)?.parse::<usize>().ok()?;
    if workers < 1 || workers > 63 || words.len() != 3 {
        return None;
    }
    Some(Setting { workers, asks })
}

/// What came of a run: the packets and the octets of all fragments, the most slots that a pass had retired, how many a
/// pass has, and how many asks held a flow.
#[derive(Clone, Copy, Debug)]
struct Came {
    packets: u64,
    octets: u64,
    most: usize,
    bound: usize,
    held: u64,
}

/// The passes, each with the most slots that it had retired so far.
fn looked_of(
    alloc: Global,
    cache: &LookedCache,
    passes: Vec<PebrPass>,
) -> Result<Vec<LookedPass>, NoMemory>
    requires { All (λ p. inner.IsOf cache.now.inner p × IsFresh (inner.shown_of p)) passes.items }
    ensures many { IfOk result (λ looked. length looked.items ≡ length passes.items) }
    ensures fresh { IfOk result (λ looked. All (λ p. IsOf cache.now p × IsFresh (shown_of p)) looked.items) }
{
    // It is there for the clauses alone.
    let _ = cache;
    let mut looked = Vec::new(alloc);
    let mut passes = passes;
    while let Some(pass) = passes.pop() {
        looked.push(LookedPass {
            inner: pass,
            most: 0,
        })?;
    }
    Ok(looked)
}

/// A cache of one set and so many seats, the passes of the workers, and that of the watcher.
fn open_cache(
    alloc: Global,
    seats: usize,
) -> Result<(LookedCache, Vec<LookedPass>, PebrPass), NoMemory>
    requires { (2 ≤ seats) × (seats ≤ 64) }
    ensures cache { IfOk result (λ r. (means_of r.0).seats ≡ seats) }
    ensures many { IfOk result (λ r. length r.1.items + 1 ≡ seats) }
    ensures passes { IfOk result (λ r. All (λ p. IsOf r.0 p × IsFresh (shown_of p)) r.1.items) }
    ensures own { IfOk result (λ r. inner.IsOf r.0.inner r.2 × IsFresh (inner.shown_of r.2)) }
{
    let mut caches = PebrCaches::new();
    let (inner, mut passes) = caches.open(alloc, 1, seats, Timeouts::new(300, 1800))?;
    let Some(own) = passes.pop() else {
        unreachable!()
    };
    let cache = LookedCache { inner };
    let passes = looked_of(alloc, &cache, passes)?;
    Ok((cache, passes, own))
}

/// Meters the capture that these bytes are by a worker for each of the passes.
fn meter_bytes<R: Threads + Sync>(
    rt: &R,
    alloc: Global,
    bytes: &[u8],
    index: &RecordIndex,
    cache: &LookedCache,
    passes: Vec<LookedPass>,
) -> Option<CaptureMetered<LookedCache>>
    requires capture { IsCaptureOf (λ file. IsIndexOf index.now file) bytes.now }
    requires few { length index.now.offsets < 2 ^ 32 }
    requires passes { (0 < length passes.items) × (length passes.items ≤ 64)
        × All (λ p. IsOf cache.now p × IsFresh (shown_of p)) passes.items }
    ensures { IfSome result (λ r. IsOf cache.now r.pass × ((shown_of r.pass).note.seats ≡ length passes.items)) }
{
    let capture = Capture::open(bytes).ok()?;
    let part = Part {
        capture,
        index,
        base: 0,
    };
    let engine = Engine {
        rt,
        alloc,
        gate: &OpenGate,
    };
    meter_all(&engine, &part, cache, passes, PIECE).ok()
}

/// Meters, and asks for open flows at the seat of one more pass, at once.
fn at_once<R: Threads + Sync>(
    rt: &R,
    alloc: Global,
    bytes: &[u8],
    index: &RecordIndex,
    cache: &LookedCache,
    passes: Vec<LookedPass>,
    own: PebrPass,
    keys: &[FlowKey],
) -> (Asked, Option<CaptureMetered<LookedCache>>)
    requires capture { IsCaptureOf (λ file. IsIndexOf index.now file) bytes.now }
    requires few { length index.now.offsets < 2 ^ 32 }
    requires passes { (0 < length passes.items) × (length passes.items ≤ 64)
        × All (λ p. IsOf cache.now p × IsFresh (shown_of p)) passes.items }
    requires own { inner.IsOf cache.now.inner own × IsFresh (inner.shown_of own) }
    ensures asked { inner.IsOf cache.now.inner result.0.pass × ((inner.shown_of result.0.pass).note.seats ≡ 1) }
    ensures metered { IfSome result.1 (λ r. IsOf cache.now r.pass
        × ((shown_of r.pass).note.seats ≡ length passes.items)) }
{
    thread::join(
        rt,
        move || -> Asked
            requires own { inner.IsOf cache.now.inner own × IsFresh (inner.shown_of own) }
            ensures { inner.IsOf cache.entry.now.inner result.pass × ((inner.shown_of result.pass).note.seats ≡ 1) }
        { ask_all(&cache.inner, own, keys) },
        move || -> Option<CaptureMetered<LookedCache>>
            requires capture { IsCaptureOf (λ file. IsIndexOf index.now file) bytes.now }
            requires few { length index.now.offsets < 2 ^ 32 }
            requires passes { (0 < length passes.items) × (length passes.items ≤ 64)
                × All (λ p. IsOf cache.now p × IsFresh (shown_of p)) passes.items }
            ensures { IfSome result (λ r. IsOf cache.entry.now r.pass
                × ((shown_of r.pass).note.seats ≡ length passes.items)) }
        { meter_bytes(rt, alloc, bytes, index, cache, passes) },
    )
}

/// Closes the cache with the passes of the workers and of the watcher, and adds up what it handed out and kept.
fn close_cache(
    alloc: Global,
    cache: LookedCache,
    metered: CaptureMetered<LookedCache>,
    asked: Asked,
    seats: usize,
) -> Option<Came>
    requires asked { inner.IsOf cache.inner asked.pass × ((inner.shown_of asked.pass).note.seats ≡ 1) }
    requires own { IsOf cache metered.pass }
    requires seats { (shown_of metered.pass).note.seats + 1 ≡ (means_of cache).seats }
    requires some { seats ≤ 64 }
{
    let CaptureMetered { pass, parts, .. } = metered;
    let Asked {
        pass: own,
        held,
        most,
    } = asked;
    let pass = cache.unite(pass, LookedPass { inner: own, most });
    let most = pass.most;
    let entries = cache.close(alloc, pass).ok()?;
    let mut parts = parts;
    parts.add_piece(entries).ok()?;
    let counts = counts_of(parts)?;
    Some(Came {
        packets: counts.packets,
        octets: counts.octets,
        most,
        bound: 32 + 4 * seats,
        held,
    })
}

/// What comes of the capture that these bytes are.
fn came_of_bytes<R: Threads + Sync>(
    rt: &R,
    alloc: Global,
    bytes: &[u8],
    setting: Setting,
) -> Option<Came>
    requires { length bytes.now ≤ 2 ^ 30 }
{
    let capture = Capture::open(bytes).ok()?;
    let index = capture.index(alloc).ok()?;
    let keys = keys_of(alloc, &capture, &index, setting.asks)?;
    let seats = setting.workers + 1;
    let Ok((cache, passes, own)) = open_cache(alloc, seats) else {
        return None;
    };
    let (asked, metered) = at_once(
        rt,
        alloc,
        bytes,
        &index,
        &cache,
        passes,
        own,
        keys.as_slice(),
    );
    close_cache(alloc, cache, metered?, asked, seats)
}

/// What comes of the capture of a source.
fn came_of<R: Threads + Sync, S: Source>(
    rt: &R,
    alloc: Global,
    input: &mut S,
    setting: Setting,
) -> Option<Came> {
    let bytes = read_all(alloc, input, CAPTURE_LIMIT).ok()?;
    came_of_bytes(rt, alloc, bytes.as_slice(), setting)
}

/// Writes the line of what came of a run.
fn tell(host: &HostRuntime, came: &Came) -> ExitCode {
    let Came {
        packets,
        octets,
        most,
        bound,
        held,
    } = *came;
    match println!(host;
        "packets {packets} octets {octets} most-retired {most} bound {bound} held {held}"
    ) {
        Ok(()) => ExitCode::from(0),
        Err(_) => ExitCode::from(1),
    }
}

/// Meters the capture of standard input as the words say, and writes the line of what came of it.
pub(crate) fn tell_lists<R: Threads + Sync>(
    rt: &R,
    host: &HostRuntime,
    words: &[String],
) -> ExitCode {
    let Some(setting) = setting_of(words) else {
        return ExitCode::from(2);
    };
    let mut input = StdSource::new(host.stdin());
    match came_of(rt, host.alloc(), &mut input, setting) {
        Some(came) => tell(host, &came),
        None => ExitCode::from(1),
    }
}
