//! Workers that meter a capture through a cache, while the asker asks for its open flows.

ghost use Rattle.std.specs.Prelude.{◌≡◌, ◌+◌, ◌^◌, ◌<◌, ◌≤◌, length, Some, All, IfOk, OnOk};
ghost use Rattle.pcap_reader.specs.File.{IsCaptureOf, capture_file, IsKnownLink};
ghost use Rattle.pcap_reader.specs.Index.{IsIndexOf};
ghost use Rattle.pcap_reader.specs.Views.{file_of};
ghost use Rattle.packet_accept.specs.Packets.{answers_of, packets_of};
ghost use Rattle.capture_tally.specs.Tallies.{IsTallyOf, octets_of};
ghost use Rattle.flow_parts.specs.Sharing.{SharesOut};
ghost use Rattle.cache_face.specs.Meaning.{IsFresh};
ghost use Rattle.flow_cache.specs.Shown.{IsOf, means_of, shown_of};
ghost use Rattle.watch_program.specs.Answers.{IsSound, AreAnswers, IsOfSome, IsAsker, HasAsked, asked_keys, count_of};

use crate::answer::Answer;
use crate::asking::{Asker, Asking, ask_all};
use crate::keys::keys_of;
use crate::settings::WatchSettings;
use crate::total::total_of;
use cache_face::{Caches, FlowCache};
use flow_cache::{PebrCache, PebrCaches, PebrPass};
use flow_key::FlowKey;
use flow_parts::Timeouts;
use flow_parts::laws::sharing_out_counts;
use meter_workers::{CaptureMetered, Engine, Gate, Part, meter_all};
use no_memory::NoMemory;
use pcap_reader::{Capture, RecordIndex};
use std::alloc::Global;
use std::thread;
use std::thread::Threads;

/// The idle and the active time-out, in seconds.
const IDLE: u32 = 300;

const ACTIVE: u32 = 1800;

/// How many records a piece has.
const PIECE: u64 = 256;

/// The answers, and the total of packets and octets.
#[derive(Drop)]
pub(crate) struct Watched {
    pub(crate) answers: Vec<Answer>,
    pub(crate) packets: u64,
    pub(crate) octets: u64,
}

/// Meters the capture in these bytes by a worker for each of the passes.
///
/// The capture is opened again here, which only reads its header, since a join of threads says nothing about a closure
/// that holds a struct with a lifetime.
fn meter_bytes<R: Threads + Sync, G: Gate>(
    engine: &Engine<'_, R, G>,
    bytes: &[u8],
    index: &RecordIndex,
    cache: &PebrCache,
    passes: Vec<PebrPass>,
) -> Result<CaptureMetered<PebrCache>, NoMemory>
    requires capture { IsCaptureOf (λ file. IsKnownLink file.link × IsIndexOf index.now file) bytes.now }
    requires few { length index.now.offsets < 2 ^ 32 }
    requires passes { (0 < length passes.items) × (length passes.items ≤ 64)
        × All (λ p. IsOf cache.now p × IsFresh (shown_of p)) passes.items }
    ensures seats { IfOk result (λ r. IsOf cache.now r.pass × ((shown_of r.pass).note.seats ≡ length passes.items)) }
    ensures packets { IfOk result
        (λ r. IsCaptureOf (λ file. SharesOut (means_of cache.now).limits (packets_of file) (shown_of r.pass).note.taken)
        bytes.now) }
    ensures parts { IfOk result (λ r. r.parts ≡ (shown_of r.pass).note.handed) }
    ensures tally { IfOk result (λ r. IsCaptureOf (λ file. IsTallyOf r.tally (answers_of file)) bytes.now) }
{
    let Ok(capture) = Capture::open(bytes) else {
        unreachable!()
    };
    let part = Part {
        capture,
        index,
        base: 0,
    };
    meter_all(engine, &part, cache, passes, PIECE)
}

/// Meters the capture in these bytes, and at the same time asks for open flows at the seat of one more pass. Neither
/// waits for the other, so either may end first.
fn at_once<R: Threads + Sync, G: Gate>(
    engine: &Engine<'_, R, G>,
    bytes: &[u8],
    index: &RecordIndex,
    cache: &PebrCache,
    passes: Vec<PebrPass>,
    own: PebrPass,
    keys: &[FlowKey],
    asks: usize,
) -> (Asking, Result<CaptureMetered<PebrCache>, NoMemory>)
    requires capture { IsCaptureOf (λ file. IsKnownLink file.link × IsIndexOf index.now file) bytes.now }
    requires few { length index.now.offsets < 2 ^ 32 }
    requires passes { (0 < length passes.items) × (length passes.items ≤ 64)
        × All (λ p. IsOf cache.now p × IsFresh (shown_of p)) passes.items }
    requires own { IsOf cache.now own × IsFresh (shown_of own) }
    ensures asked { HasAsked cache.now keys.now asks result.0 }
    ensures seats { IfOk result.1 (λ r. IsOf cache.now r.pass × ((shown_of r.pass).note.seats ≡ length passes.items)) }
    ensures packets { IfOk result.1
        (λ r. IsCaptureOf (λ file. SharesOut (means_of cache.now).limits (packets_of file) (shown_of r.pass).note.taken)
        bytes.now) }
    ensures parts { IfOk result.1 (λ r. r.parts ≡ (shown_of r.pass).note.handed) }
    ensures tally { IfOk result.1 (λ r. IsCaptureOf (λ file. IsTallyOf r.tally (answers_of file)) bytes.now) }
{
    let Engine { rt, alloc, gate } = *engine;
    let number = passes.len();
    thread::join(
        rt,
        move || -> Asking
            requires own { IsOf cache.now own × IsFresh (shown_of own) }
            ensures { HasAsked cache.entry.now keys.entry.now asks result }
        {
            ask_all(
                &Asker {
                    alloc,
                    gate,
                    number,
                },
                cache,
                own,
                keys,
                asks,
            )
        },
        move || -> Result<CaptureMetered<PebrCache>, NoMemory>
            requires capture { IsCaptureOf (λ file. IsKnownLink file.link × IsIndexOf index.now file) bytes.now }
            requires few { length index.now.offsets < 2 ^ 32 }
            requires passes { (0 < length passes.items) × (length passes.items ≤ 64)
                × All (λ p. IsOf cache.now p × IsFresh (shown_of p)) passes.items }
            ensures seats { IfOk result (λ r. IsOf cache.entry.now r.pass
                × ((shown_of r.pass).note.seats ≡ length passes.items)) }
            ensures packets { IfOk result
                (λ r. IsCaptureOf (λ file. SharesOut (means_of cache.entry.now).limits (packets_of file)
                (shown_of r.pass).note.taken) bytes.entry.now) }
            ensures parts { IfOk result (λ r. r.parts ≡ (shown_of r.pass).note.handed) }
            ensures tally { IfOk result
                (λ r. IsCaptureOf (λ file. IsTallyOf r.tally (answers_of file)) bytes.entry.now) }
        { meter_bytes(&Engine { rt, alloc, gate }, bytes, index, cache, passes) },
    )
}

/// Closes the cache with the passes of the workers and of the asker, and adds up what it handed out and kept. What the
/// asker's pass saw are flows of some of the packets.
fn total_behind(
    alloc: Global,
    bytes: &[u8],
    caches: &mut PebrCaches,
    cache: PebrCache,
    metered: CaptureMetered<PebrCache>,
    pass: PebrPass,
) -> Result<(u64, u64), NoMemory>
    requires pass { IsOf cache pass × IsAsker (shown_of pass).note }
    requires own { IsOf cache metered.pass }
    requires seats { (shown_of metered.pass).note.seats + 1 ≡ (means_of cache).seats }
    requires packets { IsCaptureOf (λ file. SharesOut (means_of cache).limits (packets_of file)
        (shown_of metered.pass).note.taken) bytes.now }
    requires parts { metered.parts ≡ (shown_of metered.pass).note.handed }
    requires tally { IsCaptureOf (λ file. IsTallyOf metered.tally (answers_of file)) bytes.now }
    ensures total { IfOk result
        (λ total. IsCaptureOf (λ file. (total.0 ≡ length (packets_of file)) × (total.1 ≡ octets_of (packets_of file)))
        bytes.now) }
    ensures seen { OnOk result (IsCaptureOf
        (λ file. All (IsOfSome (means_of cache).limits (packets_of file)) (shown_of pass).note.seen) bytes.now) }
{
    sharing_out_counts();
    // The parameter `bytes` is there for the clauses alone.
    let _ = bytes;
    let CaptureMetered {
        pass: others,
        parts,
        ..
    } = metered;
    let pass = cache.unite(others, pass);
    let parts = caches.close(alloc, cache, pass, parts)?;
    let total = total_of(parts)?;
    Ok(total)
}

/// Meters the capture in these bytes by `settings.workers` workers, meanwhile asks for the flows of its first accepted
/// packets in turn, and adds up the packets and octets of all that the cache handed out and kept.
///
/// `NoMemory`: out of memory.
pub(crate) fn watch_capture<R: Threads + Sync, G: Gate>(
    engine: &Engine<'_, R, G>,
    settings: &WatchSettings,
    bytes: &[u8],
    capture: &Capture<'_>,
    index: &RecordIndex,
) -> Result<Watched, NoMemory>
    requires capture { (capture_file bytes.now ≡ Some (file_of capture.now)) × IsKnownLink (file_of capture.now).link }
    requires index { IsIndexOf index.now (file_of capture.now) }
    requires few { length index.now.offsets < 2 ^ 32 }
    ensures many { IfOk result (λ w. length w.answers.items
        ≡ count_of settings.now.asks (packets_of (file_of capture.now))) }
    ensures sound { IfOk result (λ w. All IsSound w.answers.items) }
    ensures answered { IfOk result (λ w. AreAnswers (packets_of (file_of capture.now))
        (asked_keys settings.now.asks (packets_of (file_of capture.now))) w.answers.items) }
    ensures packets { IfOk result (λ w. w.packets ≡ length (packets_of (file_of capture.now))) }
    ensures octets { IfOk result (λ w. w.octets ≡ octets_of (packets_of (file_of capture.now))) }
{
    let alloc = engine.alloc;
    let keys = keys_of(alloc, capture, index, settings.asks)?;
    let limits = Timeouts::new(IDLE, ACTIVE);
    let mut caches = PebrCaches::new();
    let (cache, mut passes) = caches.open(alloc, settings.sets, settings.workers + 1, limits)?;
    let Some(own) = passes.pop() else {
        unreachable!()
    };
    let (asking, metered) = at_once(
        engine,
        bytes,
        index,
        &cache,
        passes,
        own,
        keys.as_slice(),
        settings.asks,
    );
    let metered = metered?;
    let Asking { pass, answers } = asking;
    let answers = answers?;
    let (packets, octets) = total_behind(alloc, bytes, &mut caches, cache, metered, pass)?;
    Ok(Watched {
        answers,
        packets,
        octets,
    })
}
