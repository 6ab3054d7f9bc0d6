//! The line of a refusal on standard error.

ghost use Rattle.std.specs.Prelude.{OnOk, OnErr};
ghost use Rattle.meter_io.specs.Causes.{HasCause};
ghost use Rattle.meter_io.specs.Sides.{HasTaken, HasBegun, side};
ghost use Rattle.pipe_program.specs.Lines.{pipe_line};

use meter_io::{Failed, Sink, write_all};
use meter_program::{Status, fault_line};

/// Writes the line of a status: `usage: pipe` for words that aren't a command line, and else that of `meter`. `Done`
/// and `WriteFault` have none: for them nothing is written.
///
/// `Failed` comes only where the count of faults of standard error rose; it then took a beginning of the line.
pub fn pipe_line<E: Sink>(stderr: &mut E, status: &Status) -> Result<(), Failed>
    ensures whole { OnOk result (HasTaken (side E.held E.faults stderr.old stderr.new) (pipe_line status.now)) }
    ensures begun { OnErr result (HasBegun (side E.held E.faults stderr.old stderr.new) (pipe_line status.now)) }
    ensures cause { HasCause (E.faults stderr.old) (E.faults stderr.new) result }
{
    if matches!(status, Status::Usage) {
        write_all(stderr, "usage: pipe\n".as_bytes())
    } else {
        fault_line(stderr, status)
    }
}
