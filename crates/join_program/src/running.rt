//! The top call.

ghost use Rattle.std.specs.Prelude.{◌≡◌, ◌⊎◌, ◌<◌, None, map, length};
ghost use Rattle.std.specs.String.{string_bytes};
ghost use Rattle.meter_io.specs.Causes.{Rose};
ghost use Rattle.meter_io.specs.Sides.{side};
ghost use Rattle.join_program.specs.Outcome.{RunMeans, IsComplete, files_seen};
ghost use Rattle.join_program.specs.Words.{asked_by};
ghost use Rattle.join_program.specs.Taking.{asked_of, JoinMeans, RefusalMeans};

use crate::joining::{gather_taken, write_records};
use crate::opener::Opener;
use crate::reading::take_files;
use crate::refusal::fault_line;
use crate::status::{FileFault, JoinStatus};
use crate::words::{Command, command_of};
use command_words::OptionsError;
use meter_io::{Sink, write_all};
use std::alloc::Global;
use std::thread::Threads;

/// Reads files of flow records, and writes the stream of the records that they become.
fn join_files<R: Threads + Sync, O: Opener, K: Sink>(
    rt: &R,
    alloc: Global,
    command: &Command<'_>,
    opener: &mut O,
    output: &mut K,
) -> JoinStatus
    ensures { JoinMeans (asked_of command.now.settings (map string_bytes command.now.files.now))
        (files_seen O.contents O.faults opener.old opener.new)
        (side K.held K.faults output.old output.new) result }
{
    let taken = match take_files(alloc, opener, &command.settings, command.files) {
        Ok(taken) => taken,
        Err(status) => return status,
    };
    let clock = taken.clock;
    let Ok(records) = gather_taken(rt, alloc, &command.settings, taken) else {
        return JoinStatus::NoMemory;
    };
    write_records(rt, alloc, command.settings.size, clock, &records, output)
}

/// Writes the line that reports the file at this place, which is refused, to standard error.
fn report_refusal<E: Sink>(
    alloc: Global,
    names: &[String],
    place: u64,
    fault: FileFault,
    stderr: &mut E,
) -> JoinStatus
    requires { place < length names.now }
    ensures { RefusalMeans (map string_bytes names.now) place fault
        (side E.held E.faults stderr.old stderr.new) result }
{
    let name = names[place as usize].as_str();
    let Ok(line) = fault_line(alloc, name, &fault) else {
        return JoinStatus::NoMemory;
    };
    // Even where standard error doesn't take the whole line, the refusal stands.
    let _reported = write_all(stderr, line.as_slice());
    JoinStatus::Refused { place, fault }
}

/// Reads files of flow records, each the stream of a capture, and writes the stream of the records of all their
/// packets.
///
/// The words are `join`; then its options, each at most once, in any order, as `--name value` or `--name=value`:
/// `--idle` and `--active`, the time-outs in seconds from 1 to 86,400, by default 300 and 1800, `--size`, the most
/// octets of a message, from 116 to 65,535, by default 1400, and both or none of `--part K` and `--parts N`, with K
/// from 1 to N and N up to 4,096, which keep only the records whose keys fall to the K-th of N shares; and then 1 to
/// 65,536 files, of which `-`, standard input, is at most one.
///
/// The files are opened one after the other; each is read to its end, at most 2^32 bytes, and closed. All memory is
/// allocated before anything is written. At a refusal, any status but `Done` and `WriteFault`, nothing is written to
/// the output. The statuses come in this order:
///
/// - `Usage`: exactly where the words aren't such a command. No file is opened.
/// - `Refused`: exactly where something is wrong with a file; it has the place of the first such file. Standard error
///   gets a line, `NAME: ` and what is wrong. The faults of a file come in this order. `ReadFault`: only where it
///   couldn't be opened or a read failed, and the opener counted it. `TooLarge`: exactly where more bytes came than
///   2^32. `NotStream`: exactly where the bytes have that fault. `NotFlows`: exactly where they have no fault, and the
///   data record at that place, counted from 0, is the first that isn't a flow record. `TooMany`: exactly where the
///   records kept, with those of the files before it, have 2^64 or more packets or octets.
/// - `WriteFault`: only where a write failed and the output counted it; it took a beginning of the stream.
/// - `NoMemory`: out of memory, at any point before the first write.
pub fn run_join<R: Threads + Sync, O: Opener, K: Sink, E: Sink>(
    rt: &R,
    alloc: Global,
    words: &[String],
    opener: &mut O,
    output: &mut K,
    stderr: &mut E,
) -> JoinStatus
    ensures usage { result ≡ JoinStatus.Usage → asked_by (map string_bytes words.now) ≡ None }
    ensures nothing { asked_by (map string_bytes words.now) ≡ None
        → (result ≡ JoinStatus.Usage) ⊎ (result ≡ JoinStatus.NoMemory) }
    ensures means { RunMeans (asked_by (map string_bytes words.now))
        (files_seen O.contents O.faults opener.old opener.new) (side K.held K.faults output.old output.new)
        (side E.held E.faults stderr.old stderr.new) result }
    ensures complete { IsComplete (asked_by (map string_bytes words.now))
        (files_seen O.contents O.faults opener.old opener.new) (side K.held K.faults output.old output.new) result }
    ensures write_fault { result ≡ JoinStatus.WriteFault → Rose (K.faults output.old) (K.faults output.new) }
{
    let command = match command_of(alloc, words) {
        Ok(command) => command,
        Err(OptionsError::NotOptions) => return JoinStatus::Usage,
        Err(OptionsError::NoMemory) => return JoinStatus::NoMemory,
    };
    match join_files(rt, alloc, &command, opener, output) {
        JoinStatus::Refused { place, fault } => {
            report_refusal(alloc, command.files, place, fault, stderr)
        }
        status => status,
    }
}
