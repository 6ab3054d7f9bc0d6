//! The top call.

ghost use Rattle.std.specs.Prelude.{◌≡◌, ◌⊎◌, None, map};
ghost use Rattle.std.specs.String.{string_bytes};
ghost use Rattle.meter_io.specs.Causes.{Rose};
ghost use Rattle.meter_io.specs.Sides.{side};
ghost use Rattle.pair_program.specs.Outcome.{Ends, RunMeans, IsComplete};
ghost use Rattle.pair_program.specs.Words.{asked_of, asked_by};

use crate::encoding::first_message;
use crate::settings::PairSettings;
use crate::status::PairStatus;
use crate::stream::{PairError, pairs_of};
use crate::words::settings_of;
use command_words::OptionsError;
use ipfix_reader::STREAM_LIMIT;
use ipfix_writer::{MessageForm, write_messages};
use meter_io::{Failed, ReadError, Sink, Source, read_all};
use sink_buffer::SinkBuffer;
use std::alloc::Global;

/// Reads a stream of flow records from the input to its end, and writes the stream of their biflows to the output.
fn pair_input<S: Source, K: Sink>(
    alloc: Global,
    settings: &PairSettings,
    input: &mut S,
    output: &mut K,
) -> PairStatus
    ensures { Ends (asked_of settings.now) (side S.left S.faults input.old input.new)
        (side K.held K.faults output.old output.new) result }
{
    let stream = match read_all(alloc, input, STREAM_LIMIT) {
        Ok(stream) => stream,
        Err(ReadError::Failed) => return PairStatus::ReadFault,
        Err(ReadError::TooLarge) => return PairStatus::TooLarge,
        Err(ReadError::NoMemory) => return PairStatus::NoMemory,
    };
    let idle = 1000 * settings.idle as u64;
    let paired = match pairs_of(alloc, stream, idle) {
        Ok(paired) => paired,
        Err(PairError::NotStream(fault)) => return PairStatus::NotStream(fault),
        Err(PairError::NotFlows(place)) => return PairStatus::NotFlows(place),
        Err(PairError::NoMemory) => return PairStatus::NoMemory,
    };
    let size = settings.size as usize;
    let Ok(first) = first_message(alloc, paired.seconds) else {
        return PairStatus::NoMemory;
    };
    let Ok(room) = Vec::with_capacity(alloc, size) else {
        return PairStatus::NoMemory;
    };
    let Ok(out) = SinkBuffer::open(alloc) else {
        return PairStatus::NoMemory;
    };
    let pairs = paired.pairs.as_slice();
    let form = MessageForm {
        size,
        export_time: paired.seconds,
    };
    match write_messages(room, out, first.as_slice(), pairs, form, output) {
        Ok(()) => PairStatus::Done,
        Err(Failed) => PairStatus::WriteFault,
    }
}

/// Reads a stream of flow records and writes the stream of their biflows (RFC 5103): each record is the forward or the
/// reverse flow of exactly one. The words are `pair`, and behind it `--idle` with the longest gap between a flow and
/// its reverse, in seconds from 1 to 86,400, by default 300, and `--size` with the most octets of a message, from 308
/// to 65,535, by default 1400; each at most once, in any order, as `--name value` or `--name=value`.
///
/// The input, at most 2^26 bytes, is read to its end, and all memory is taken before anything is written. At a refusal,
/// any status but `Done` and `WriteFault`, nothing is written. They come in this order:
///
/// - `Usage`: exactly where the words aren't such a command. Nothing is read.
/// - `ReadFault`: only where a read failed and the input counted it. `TooLarge`: exactly where more bytes came than
///   2^26.
/// - `NotStream`: exactly where the bytes read have that fault.
/// - `NotFlows`: exactly where they have no fault, and the data record at that place, counted from 0, is the first that
///   isn't a flow record.
/// - `WriteFault`: only where a write failed and the output counted it; it took a beginning of the stream.
/// - `NoMemory`: out of memory, at any point before the first write.
pub fn run_pair<S: Source, K: Sink>(
    alloc: Global,
    words: &[String],
    input: &mut S,
    output: &mut K,
) -> PairStatus
    ensures usage { result ≡ PairStatus.Usage → asked_by (map string_bytes words.now) ≡ None }
    ensures nothing { asked_by (map string_bytes words.now) ≡ None
        → (result ≡ PairStatus.Usage) ⊎ (result ≡ PairStatus.NoMemory) }
    ensures means { RunMeans (asked_by (map string_bytes words.now)) (side S.left S.faults input.old input.new)
        (side K.held K.faults output.old output.new) result }
    ensures complete { IsComplete (asked_by (map string_bytes words.now)) (side S.left S.faults input.old input.new)
        (side K.held K.faults output.old output.new) result }
    ensures read_fault { result ≡ PairStatus.ReadFault → Rose (S.faults input.old) (S.faults input.new) }
    ensures write_fault { result ≡ PairStatus.WriteFault → Rose (K.faults output.old) (K.faults output.new) }
{
    match settings_of(alloc, words) {
        Ok(settings) => pair_input(alloc, &settings, input, output),
        Err(OptionsError::NotOptions) => PairStatus::Usage,
        Err(OptionsError::NoMemory) => PairStatus::NoMemory,
    }
}
