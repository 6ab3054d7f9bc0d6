//! A whole run of the command.

ghost use Rattle.std.specs.Prelude.{◌≡◌, ◌≢◌, ◌≤◌, ◌^◌, ◌↔◌, map, length, IsFalse, IfOk, Err};
ghost use Rattle.std.specs.String.{string_bytes};
ghost use Rattle.meter_io.specs.Causes.{Rose};
ghost use Rattle.meter_io.specs.Sides.{side};
ghost use Rattle.pcapng_reader.specs.Outcome.{is_command, Ends, IsComplete};
ghost use Rattle.pcapng_reader.specs.Filtering.{FilterEnds};
ghost use Rattle.pcapng_reader.specs.Tallied.{IsFileTally, IsInputTally, status_of};

use crate::capture::{PngCapture, PngFault};
use crate::status::PngStatus;
use crate::tally::PngTally;
use crate::writing::{RECORD_HEADER, write_packets};
use meter_io::{Failed, ReadError, Sink, Source, read_all};
use pcap_reader::CAPTURE_LIMIT;
use sink_buffer::SinkBuffer;
use std::alloc::Global;

/// The name of the command.
const NAME: &str = "pcapng";

/// Whether the words are the one word of the command.
fn is_command(words: &[String]) -> bool
    ensures { result ≡ is_command (map string_bytes words.now) }
{
    match words {
        [word] => word.as_str() == NAME,
        _ => false,
    }
}

/// Writes the packets of the file that these bytes are, and counts what it holds.
fn filter<K: Sink>(alloc: Global, bytes: &[u8], output: &mut K) -> Result<PngTally, PngStatus>
    requires { length bytes.now ≤ 2 ^ 30 }
    ensures ends { FilterEnds bytes.now (side K.held K.faults output.old output.new) (status_of result) }
    ensures refused { result ≢ Err PngStatus.Done }
    ensures tally { IfOk result (λ tally. IsFileTally tally bytes.now) }
{
    let Ok(capture) = PngCapture::open(bytes) else {
        return Err(PngStatus::NotPcapng);
    };
    let (index, extent) = match capture.index_blocks(alloc) {
        Ok(found) => found,
        Err(PngFault::BadBlock(at)) => return Err(PngStatus::BadBlock(at)),
        Err(PngFault::NoMemory) => return Err(PngStatus::NoMemory),
    };
    let Ok(room) = Vec::with_capacity(alloc, RECORD_HEADER) else {
        return Err(PngStatus::NoMemory);
    };
    let Ok(out) = SinkBuffer::open(alloc) else {
        return Err(PngStatus::NoMemory);
    };
    let Ok(mut tally) = PngTally::new(alloc, extent) else {
        return Err(PngStatus::NoMemory);
    };
    match write_packets(&capture, &index, room, out, &mut tally, output) {
        Ok(()) => Ok(tally),
        Err(Failed) => Err(PngStatus::WriteFault),
    }
}

/// Reads a pcapng file and writes its accepted packets as a classic capture of raw IP with nanoseconds, from which
/// `romtyalig meter` reads the same packets. The one word is `pcapng`.
///
/// The input, at most 2^30 bytes, is read to its end, all its blocks are checked and all memory is taken before
/// anything is written. At a refusal, any status but `Done` and `WriteFault`, nothing is written. Statuses come in this
/// order:
///
/// - `Usage`: exactly where the words are not that one word. Nothing is read.
/// - `ReadFault`: only where a read failed and the input counted it. `TooLarge`: where more than 2^30 bytes came.
/// - `NotPcapng`: where the bytes do not begin with a section header of a known order of octets.
/// - `BadBlock`: where a block is malformed or bad, with the offset of the first one.
/// - `WriteFault`: only where a write failed and the output counted it; it took a beginning of what it was to take.
/// - `NoMemory`: out of memory, at any point before the first write, and then in place of any status behind `Usage`.
pub fn run_png<S: Source, K: Sink>(
    alloc: Global,
    words: &[String],
    input: &mut S,
    output: &mut K,
) -> PngStatus
    ensures usage { (result ≡ PngStatus.Usage) ↔ IsFalse (is_command (map string_bytes words.now)) }
    ensures means { Ends (side S.left S.faults input.old input.new)
        (side K.held K.faults output.old output.new) result }
    ensures complete { IsComplete (map string_bytes words.now) (side S.left S.faults input.old input.new)
        (side K.held K.faults output.old output.new) result }
    ensures read_fault { result ≡ PngStatus.ReadFault → Rose (S.faults input.old) (S.faults input.new) }
    ensures write_fault { result ≡ PngStatus.WriteFault → Rose (K.faults output.old) (K.faults output.new) }
{
    match run_tallied(alloc, words, input, output) {
        Ok(_tally) => PngStatus::Done,
        Err(status) => status,
    }
}

/// The same run, which tells a tally when it is done: what the file holds, what was written of it and what was left out,
/// by cause. Any other status is the error; it is never `Done`.
pub fn run_tallied<S: Source, K: Sink>(
    alloc: Global,
    words: &[String],
    input: &mut S,
    output: &mut K,
) -> Result<PngTally, PngStatus>
    ensures usage { (status_of result ≡ PngStatus.Usage) ↔ IsFalse (is_command (map string_bytes words.now)) }
    ensures means { Ends (side S.left S.faults input.old input.new)
        (side K.held K.faults output.old output.new) (status_of result) }
    ensures complete { IsComplete (map string_bytes words.now) (side S.left S.faults input.old input.new)
        (side K.held K.faults output.old output.new) (status_of result) }
    ensures read_fault { status_of result ≡ PngStatus.ReadFault → Rose (S.faults input.old) (S.faults input.new) }
    ensures write_fault { status_of result ≡ PngStatus.WriteFault → Rose (K.faults output.old) (K.faults output.new) }
    ensures refused { result ≢ Err PngStatus.Done }
    ensures tally { IfOk result (λ tally. IsInputTally tally (side S.left S.faults input.old input.new)) }
{
    if !is_command(words) {
        return Err(PngStatus::Usage);
    }
    let bytes = match read_all(alloc, input, CAPTURE_LIMIT) {
        Ok(bytes) => bytes,
        Err(ReadError::Failed) => return Err(PngStatus::ReadFault),
        Err(ReadError::TooLarge) => return Err(PngStatus::TooLarge),
        Err(ReadError::NoMemory) => return Err(PngStatus::NoMemory),
    };
    filter(alloc, bytes.as_slice(), output)
}
