//! The command `show`.

ghost use Rattle.std.specs.Prelude.{◌^◌, List, ℕ, codes, IfOk, IfErr, IsErrOf};
ghost use Rattle.flow_parts.specs.declared.fragment.Fragment.{Fragment};
ghost use Rattle.meter_program.specs.Outcome.{Ends, IsShown};
ghost use Rattle.meter_io.specs.Causes.{Rose};
ghost use Rattle.meter_io.specs.Sides.{IsRead, IsUntouched, side};
ghost use Rattle.meter_program.specs.Seen.{seen_of};
ghost use Rattle.meter_program.specs.Summary.{count_line};
ghost use Rattle.meter_program.specs.Words.{show};
ghost use Rattle.stream_input.specs.Failing.{ReadFails};

use crate::ending::write_and_count;
use crate::lines::Lines;
use crate::status::Status;
use ipfix_reader::STREAM_LIMIT;
use meter_io::{Failed, Sink, Source};
use no_memory::NoMemory;
use std::alloc::Global;
use stream_input::{StreamInputError, open_window, read_stream};

/// Reads a stream from the input to its end, and gives the lines of its data records. Of the stream only a window is
/// held.
fn read_lines<S: Source>(alloc: Global, input: &mut S) -> Result<Lines, StreamInputError>
    ensures lines { IfOk result (λ lines. (bytes : List ℕ)
        × IsRead (side S.left S.faults input.old input.new) (2 ^ 26) bytes
        × IsShown bytes lines.text.items (count_line (codes "records") lines.count)) }
    ensures refused { IfErr result (ReadFails (2 ^ 26) (side S.left S.faults input.old input.new)) }
    ensures cause { IsErrOf result StreamInputError.ReadFault → Rose (S.faults input.old) (S.faults input.new) }
{
    let mut lines = Lines {
        text: Vec::new(alloc),
        count: 0,
    };
    let mut window = match open_window(alloc) {
        Ok(window) => window,
        Err(NoMemory) => return Err(StreamInputError::NoMemory),
    };
    match read_stream(alloc, input, &mut window, STREAM_LIMIT, &mut lines) {
        Ok(()) => Ok(lines),
        Err(error) => Err(error),
    }
}

/// Reads a stream from the input to its end, writes a line for each of its data records to the output, and to standard
/// error how many there are.
pub fn show<S: Source, K: Sink, E: Sink>(
    alloc: Global,
    input: &mut S,
    output: &mut K,
    stderr: &mut E,
) -> Status
    ensures { (metered : List Fragment) → let seen =
        seen_of (side S.left S.faults input.old input.new) (side K.held K.faults output.old output.new)
        (side E.held E.faults stderr.old stderr.new) metered
        in Ends show seen (IsUntouched seen.stderr) result }
{
    let lines = match read_lines(alloc, input) {
        Ok(lines) => lines,
        Err(StreamInputError::ReadFault) => return Status::ReadFault,
        Err(StreamInputError::TooLarge) => return Status::TooLarge,
        Err(StreamInputError::NotStream(fault)) => return Status::NotStream(fault),
        Err(StreamInputError::NoMemory) => return Status::NoMemory,
    };
    match write_and_count(
        output,
        stderr,
        lines.text.as_slice(),
        "records",
        lines.count,
    ) {
        Ok(()) => Status::Done,
        Err(Failed) => Status::WriteFault,
    }
}
