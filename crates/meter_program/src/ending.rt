//! The end of a command that is done: its text goes out, and a count to standard error.

ghost use Rattle.std.specs.Prelude.{◌≡◌, ◌≤◌, ◌⊎◌, length, OnOk, OnErr};
ghost use Rattle.meter_io.specs.Sides.{HasTaken, HasBegun, HasTakenOrFailed, HasFailed, side};
ghost use Rattle.meter_program.specs.Summary.{count_line};

use crate::reports::count;
use meter_io::{Failed, Sink, write_all};

/// Writes a text to the output, and then a line with a name and a number to standard error.
///
/// `Failed` comes only where the count of faults of the output or of standard error rose; both then took a beginning of
/// what they were to take, the output all of it where none of its own writes failed.
pub fn write_and_count<K: Sink, E: Sink>(
    output: &mut K,
    stderr: &mut E,
    text: &[u8],
    name: &str,
    number: u64,
) -> Result<(), Failed>
    requires { length name.now ≤ 100 }
    ensures written { OnOk result (HasTaken (side K.held K.faults output.old output.new) text.now) }
    ensures reported { OnOk result (HasTaken (side E.held E.faults stderr.old stderr.new)
        (count_line name.now number)) }
    ensures taken { OnErr result (HasTakenOrFailed (side K.held K.faults output.old output.new) text.now) }
    ensures begun { OnErr result (HasBegun (side E.held E.faults stderr.old stderr.new) (count_line name.now number)) }
    ensures cause { OnErr result (HasFailed (side K.held K.faults output.old output.new)
        ⊎ HasFailed (side E.held E.faults stderr.old stderr.new)) }
{
    match write_all(output, text) {
        Ok(()) => count(stderr, name, number),
        Err(Failed) => Err(Failed),
    }
}
