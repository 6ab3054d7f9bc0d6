//! The top call.

ghost use Rattle.std.specs.Prelude.{◌≡◌, ◌⊎◌, ◌≤◌, ◌^◌, None, map, length, IfOk, IfErr};
ghost use Rattle.std.specs.String.{string_bytes};
ghost use Rattle.meter_io.specs.Causes.{Rose};
ghost use Rattle.meter_io.specs.Sides.{side};
ghost use Rattle.watch_program.specs.Outcome.{IsWatched, BytesRefuse, Ends, RunMeans, IsComplete};
ghost use Rattle.watch_program.specs.Words.{asked_of, asked_by};

use crate::lines::text_of;
use crate::settings::WatchSettings;
use crate::status::WatchStatus;
use crate::watching::watch_capture;
use crate::words::settings_of;
use command_words::OptionsError;
use meter_io::{Failed, ReadError, Sink, Source, read_all, write_all};
use meter_workers::{Engine, Gate};
use no_memory::NoMemory;
use pcap_reader::{CAPTURE_LIMIT, Capture, CaptureError, IndexError};
use std::alloc::Global;
use std::thread::Threads;

/// The text that is written for the capture in these bytes, which is metered while open flows are asked for; or the
/// status that says why there is none.
fn text_for<R: Threads + Sync, G: Gate>(
    engine: &Engine<'_, R, G>,
    settings: &WatchSettings,
    bytes: &[u8],
) -> Result<Vec<u8>, WatchStatus>
    requires { length bytes.now ≤ 2 ^ 30 }
    ensures text { IfOk result (λ text. IsWatched settings.now.asks bytes.now text.items) }
    ensures refused { IfErr result (λ status. BytesRefuse bytes.now status) }
{
    let capture = match Capture::open(bytes) {
        Ok(capture) => capture,
        Err(CaptureError::NotCapture) => return Err(WatchStatus::NotCapture),
        Err(CaptureError::LinkUnknown(link)) => return Err(WatchStatus::LinkUnknown(link)),
    };
    let index = match capture.index(engine.alloc) {
        Ok(index) => index,
        Err(IndexError::Damaged(at)) => return Err(WatchStatus::Damaged(at)),
        Err(IndexError::NoMemory) => return Err(WatchStatus::NoMemory),
    };
    let watched = match watch_capture(engine, settings, bytes, &capture, &index) {
        Ok(watched) => watched,
        Err(NoMemory) => return Err(WatchStatus::NoMemory),
    };
    match text_of(
        engine.alloc,
        watched.answers.as_slice(),
        watched.packets,
        watched.octets,
    ) {
        Ok(text) => Ok(text),
        Err(NoMemory) => Err(WatchStatus::NoMemory),
    }
}

/// Reads a capture from the input to its end, meters it while open flows are asked for, and writes what came of that.
fn watch_input<R: Threads + Sync, S: Source, K: Sink, G: Gate>(
    engine: &Engine<'_, R, G>,
    settings: &WatchSettings,
    input: &mut S,
    output: &mut K,
) -> WatchStatus
    ensures { Ends (asked_of settings.now) (side S.left S.faults input.old input.new)
        (side K.held K.faults output.old output.new) result }
{
    let bytes = match read_all(engine.alloc, input, CAPTURE_LIMIT) {
        Ok(bytes) => bytes,
        Err(ReadError::Failed) => return WatchStatus::ReadFault,
        Err(ReadError::TooLarge) => return WatchStatus::TooLarge,
        Err(ReadError::NoMemory) => return WatchStatus::NoMemory,
    };
    let text = match text_for(engine, settings, bytes.as_slice()) {
        Ok(text) => text,
        Err(status) => return status,
    };
    match write_all(output, text.as_slice()) {
        Ok(()) => WatchStatus::Done,
        Err(Failed) => WatchStatus::WriteFault,
    }
}

/// Meters a capture by some workers through one cache, and meanwhile asks for open flows by a watcher, which holds
/// each, reads it and releases it. The words are `watch`, and behind it `--workers`, from 1 to 63, by default 1,
/// `--sets` with the number of sets of the cache, from 1 to 65,536, by default 4096, and `--asks` with the number of
/// asks, from 1 to 10,000, by default 100; each at most once, in any order, as `--name value` or `--name=value`. The
/// idle time-out is 300 seconds, the active one 1800, and a piece has 256 records.
///
/// Ask k, counted from 0, is for the flow of accepted packet k of the capture, in file order, modulo the number of
/// accepted packets; where there is none, nothing is asked. The gate is told of each piece of a worker. With W workers,
/// numbered from 0, it is told before ask k that worker W is at piece k. For each ask there is a line: `held P O F L`
/// with the packets, the octets, and the times of the earliest and of the latest packet in milliseconds since
/// 1970-01-01T00:00:00Z, as the flow stood when it was held: those of some of the capture's packets of this key;
/// `absent` where the cache had no such flow; `lost` where the watcher was ejected three times. Then comes one line,
/// `total P O`, with the packets and the octets of all fragments that the cache handed out and kept: those of all
/// accepted packets.
///
/// The input, at most 2^30 bytes, is read to its end, and all memory is taken before anything is written. At a refusal,
/// any status but `Done` and `WriteFault`, nothing is written. They come in this order:
///
/// - `Usage`: exactly where the words aren't such a command. Nothing is read.
/// - `ReadFault`: only where a read failed and the input counted it. `TooLarge`: exactly where more bytes came than
///   2^30.
/// - `NotCapture`: exactly where the bytes don't begin with the header of a classic capture. `LinkUnknown`: exactly
///   where they do, and its link type isn't read. `Damaged`: exactly where the record header at that offset is the
///   first that claims more than 262,144 captured bytes.
/// - `WriteFault`: only where a write failed and the output counted it; it took a beginning of the text.
/// - `NoMemory`: out of memory, at any point before the first write.
pub fn run_watch<R: Threads + Sync, S: Source, K: Sink, G: Gate>(
    rt: &R,
    alloc: Global,
    words: &[String],
    input: &mut S,
    output: &mut K,
    gate: &G,
) -> WatchStatus
    ensures usage { result ≡ WatchStatus.Usage → asked_by (map string_bytes words.now) ≡ None }
    ensures nothing { asked_by (map string_bytes words.now) ≡ None
        → (result ≡ WatchStatus.Usage) ⊎ (result ≡ WatchStatus.NoMemory) }
    ensures means { RunMeans (asked_by (map string_bytes words.now)) (side S.left S.faults input.old input.new)
        (side K.held K.faults output.old output.new) result }
    ensures complete { IsComplete (asked_by (map string_bytes words.now)) (side S.left S.faults input.old input.new)
        (side K.held K.faults output.old output.new) result }
    ensures read_fault { result ≡ WatchStatus.ReadFault → Rose (S.faults input.old) (S.faults input.new) }
    ensures write_fault { result ≡ WatchStatus.WriteFault → Rose (K.faults output.old) (K.faults output.new) }
{
    let engine = Engine { rt, alloc, gate };
    match settings_of(alloc, words) {
        Ok(settings) => watch_input(&engine, &settings, input, output),
        Err(OptionsError::NotOptions) => WatchStatus::Usage,
        Err(OptionsError::NoMemory) => WatchStatus::NoMemory,
    }
}
