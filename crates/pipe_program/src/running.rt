//! The top call.

ghost use Rattle.std.specs.Prelude.{◌≡◌, ◌⊎◌, Some, None, map};
ghost use Rattle.std.specs.String.{string_bytes};
ghost use Rattle.meter_io.specs.Causes.{Rose};
ghost use Rattle.meter_io.specs.Sides.{side};
ghost use Rattle.meter_program.specs.Seen.{seen_of};
ghost use Rattle.pipe_program.specs.Outcome.{PipeMeans, IsPipeComplete, opened_after};
ghost use Rattle.pipe_program.specs.Words.{Piping, piping_by};

use crate::metering::pipe_input;
use crate::refusal::pipe_line;
use crate::words::settings_of;
use cache_face::Caches;
use command_words::OptionsError;
use meter_io::{Sink, Source};
use meter_program::Status;
use meter_workers::{Engine, Gate};
use std::alloc::Global;
use std::sync::Wait;
use std::thread::Threads;

/// Meters the capture of the input as the words behind the program's name ask for, and tells how the run ended.
///
/// Reads a capture of at most 2^30 bytes to its end, writes the stream of its flow records to `output`, and the
/// summary, eleven lines, to `stderr`. The capture is cut into batches of whole records, which wait in a queue; workers
/// meter them while the next bytes are read. One cache of `caches` is opened, with a pass for each worker, one for the
/// reader and one for what is left in the queue at the end, and closed; the records that are written regroup the
/// fragments that `caches` then tells. Where it is done, `caches` tell that this one was opened, and no other.
///
/// Before a batch is metered, the gate is told its number and who meters it: a worker by its number, counted from 0;
/// the reader, which meters a batch that finds the queue full, by the number of workers; and for what is left in the
/// queue at the end, one more than that.
///
/// This call may wait; what is said here holds if it returns. The input is read to its end before anything is written.
/// At a refusal, any status but `Done` and `WriteFault`, nothing is written to `output`, and one line that names the
/// refusal goes to `stderr`; where that write fails, the status stays.
///
/// - `Done`: all was read and written.
/// - `ReadFault`: only where a read failed and the input counted it.
/// - `Usage`: exactly where the words aren't a command line. Nothing is read.
/// - `WriteFault`: only where a write failed and the output or standard error counted it. Both took a beginning of what
///   they were to take, the output all of it where none of its own writes failed.
/// - `NotCapture`, `LinkUnknown`, `Damaged`: exactly where the bytes read aren't a capture, have another link type than
///   1, 101 and 113, or a record that claims too much.
/// - `TooLarge`: exactly where more bytes came than the limit.
/// - `NoMemory`: out of memory, at any point before the first write.
///
/// `NotStream` and `BadSchedule` never come.
pub fn run_pipe<R: Threads + Wait + Sync, S: Source, K: Sink, E: Sink, M: Caches, G: Gate>(
    rt: &R,
    alloc: Global,
    words: &[String],
    input: &mut S,
    output: &mut K,
    stderr: &mut E,
    caches: &mut M,
    gate: &G,
) -> Status
    ensures usage { result ≡ Status.Usage → piping_by (map string_bytes words.now) ≡ None }
    ensures nothing { piping_by (map string_bytes words.now) ≡ None
        → (result ≡ Status.Usage) ⊎ (result ≡ Status.NoMemory) }
    ensures means { PipeMeans (piping_by (map string_bytes words.now))
        (seen_of (side S.left S.faults input.old input.new)
        (side K.held K.faults output.old output.new) (side E.held E.faults stderr.old stderr.new)
        (M.metered caches.new))
        result }
    ensures complete { IsPipeComplete (piping_by (map string_bytes words.now))
        (seen_of (side S.left S.faults input.old input.new)
        (side K.held K.faults output.old output.new) (side E.held E.faults stderr.old stderr.new)
        (M.metered caches.new))
        result }
    ensures opened { (piping : Piping) → piping_by (map string_bytes words.now) ≡ Some piping → result ≡ Status.Done
        → M.opened caches.new ≡ opened_after piping (M.opened caches.old) }
    ensures read_fault { result ≡ Status.ReadFault → Rose (S.faults input.old) (S.faults input.new) }
    ensures write_fault { result ≡ Status.WriteFault
        → Rose (K.faults output.old) (K.faults output.new) ⊎ Rose (E.faults stderr.old) (E.faults stderr.new) }
{
    let engine = Engine { rt, alloc, gate };
    let status = match settings_of(alloc, words) {
        Err(OptionsError::NotOptions) => Status::Usage,
        Err(OptionsError::NoMemory) => Status::NoMemory,
        Ok(settings) => pipe_input(&engine, &settings, input, output, stderr, caches),
    };
    if status.is_refusal() {
        // A refusal stays what it is where its line can't be written.
        let _reported = pipe_line(stderr, &status);
    }
    status
}
