//! The top call.

ghost use Rattle.std.specs.Prelude.{◌≡◌, ◌⊎◌, Some, None, map};
ghost use Rattle.std.specs.String.{string_bytes};
ghost use Rattle.meter_io.specs.Causes.{Rose};
ghost use Rattle.meter_program.specs.Outcome.{RunMeans, IsComplete, Ends, opened_after};
ghost use Rattle.meter_io.specs.Sides.{IsUntouched, side};
ghost use Rattle.meter_program.specs.Seen.{seen_of};
ghost use Rattle.meter_program.specs.Words.{Asked, asked_by, asked_of};

use crate::make::make;
use crate::meter::meter;
use crate::reports::fault_line;
use crate::schedule::schedule;
use crate::selftest::selftest;
use crate::show::show;
use crate::status::Status;
use crate::words::{Command, command_of};
use cache_face::Caches;
use command_words::OptionsError;
use meter_io::{Sink, Source};
use meter_workers::{Engine, Gate};
use std::alloc::Global;
use std::thread::Threads;

/// Does what a command says.
fn command<R: Threads + Sync, S: Source, K: Sink, E: Sink, M: Caches, G: Gate>(
    engine: &Engine<'_, R, G>,
    command: &Command,
    input: &mut S,
    output: &mut K,
    stderr: &mut E,
    caches: &mut M,
) -> Status
    ensures ends { let seen = seen_of (side S.left S.faults input.old input.new) (side K.held K.faults output.old output.new)
        (side E.held E.faults stderr.old stderr.new) (M.metered caches.new)
        in Ends (asked_of command.now) seen (IsUntouched seen.stderr) result }
    ensures opened { result ≡ Status.Done
        → M.opened caches.new ≡ opened_after (asked_of command.now) (M.opened caches.old) }
{
    match command {
        Command::Meter(settings) => meter(engine, settings, input, output, stderr, caches),
        Command::Show => show(engine.alloc, input, output, stderr),
        Command::Make(settings) => make(engine.alloc, settings, output, stderr),
        Command::Schedule => schedule(engine.alloc, input, output, stderr),
        Command::Selftest(settings) => selftest(engine, settings, output, caches),
    }
}

/// Runs the command that the words behind the program's name ask for, and tells how the run ended.
///
/// | Command | Reads | Writes to `output` | Writes to `stderr` |
/// |---|---|---|---|
/// | `meter` | a capture, at most 2^30 bytes | the stream of its flow records | the summary, eleven lines |
/// | `show` | a stream, at most 2^26 bytes | a line for each data record | how many records |
/// | `make` | nothing | the capture of a seed | how many packets |
/// | `schedule` | a schedule, at most 2^20 bytes | its replay | how many steps |
/// | `selftest` | nothing | the summary of metering the capture of a seed by four workers | nothing |
///
/// `meter` opens one cache of `caches` with a pass for each worker, meters through it, and closes it; the records that
/// it writes regroup the fragments that `caches` then tells. Where it is done, `caches` tell that this one was opened, of
/// the sets and workers asked for, and no other. The gate is told of each piece of records before a worker
/// meters it.
///
/// The input is read to its end before anything is written. At a refusal, any status but `Done` and `WriteFault`,
/// nothing is written to `output`, and one line that names the refusal goes to `stderr`; where that write fails, the
/// status stays.
///
/// - `Done`: all was read and written.
/// - `ReadFault`: only where a read failed and the input counted it.
/// - `Usage`: exactly where the words aren't a command line. Nothing is read.
/// - `WriteFault`: only where a write failed and the output or standard error counted it; in `selftest`, which leaves
///   standard error as it was, the output. Both took a beginning of what they were to take, the output all of it where
///   none of its own writes failed.
/// - `NotCapture`, `LinkUnknown`, `Damaged`: `meter`, exactly where the bytes read aren't a capture, have another link
///   type than 1, 101 and 113, or a record that claims too much.
/// - `NotStream`: `show`, exactly where the bytes read have that fault.
/// - `BadSchedule`: `schedule`, exactly where the text read isn't in the grammar, with the first such line, or is in
///   it and a step isn't enabled, with the line of the first.
/// - `TooLarge`: exactly where more bytes came than the command's limit.
/// - `NoMemory`: out of memory, at any point before the first write.
pub fn run<R: Threads + Sync, S: Source, K: Sink, E: Sink, M: Caches, G: Gate>(
    rt: &R,
    alloc: Global,
    words: &[String],
    input: &mut S,
    output: &mut K,
    stderr: &mut E,
    caches: &mut M,
    gate: &G,
) -> Status
    ensures usage { result ≡ Status.Usage → asked_by (map string_bytes words.now) ≡ None }
    ensures nothing { asked_by (map string_bytes words.now) ≡ None
        → (result ≡ Status.Usage) ⊎ (result ≡ Status.NoMemory) }
    ensures means { RunMeans (asked_by (map string_bytes words.now)) (seen_of (side S.left S.faults input.old input.new)
        (side K.held K.faults output.old output.new) (side E.held E.faults stderr.old stderr.new)
        (M.metered caches.new))
        result }
    ensures complete { IsComplete (asked_by (map string_bytes words.now))
        (seen_of (side S.left S.faults input.old input.new)
        (side K.held K.faults output.old output.new) (side E.held E.faults stderr.old stderr.new)
        (M.metered caches.new))
        result }
    ensures opened { (asked : Asked) → asked_by (map string_bytes words.now) ≡ Some asked → result ≡ Status.Done
        → M.opened caches.new ≡ opened_after asked (M.opened caches.old) }
    ensures read_fault { result ≡ Status.ReadFault → Rose (S.faults input.old) (S.faults input.new) }
    ensures write_fault { result ≡ Status.WriteFault
        → Rose (K.faults output.old) (K.faults output.new) ⊎ Rose (E.faults stderr.old) (E.faults stderr.new) }
{
    let engine = Engine { rt, alloc, gate };
    let status = match command_of(alloc, words) {
        Err(OptionsError::NotOptions) => Status::Usage,
        Err(OptionsError::NoMemory) => Status::NoMemory,
        Ok(asked) => command(&engine, &asked, input, output, stderr, caches),
    };
    if status.is_refusal() {
        // A refusal stays what it is where its line can't be written.
        let _reported = fault_line(stderr, &status);
    }
    status
}
