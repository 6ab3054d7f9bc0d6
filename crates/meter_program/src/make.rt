//! The command `make`.

ghost use Rattle.std.specs.Prelude.{◌≡◌, List, codes};
ghost use Rattle.flow_parts.specs.declared.fragment.Fragment.{Fragment};
ghost use Rattle.meter_io.specs.Sides.{Side, IsUntouched, side};
ghost use Rattle.meter_program.specs.Outcome.{Ends};
ghost use Rattle.meter_program.specs.Seen.{seen_of};
ghost use Rattle.meter_program.specs.Words.{make};

use crate::ending::write_and_count;
use crate::settings::Making;
use crate::status::Status;
use capture_maker::capture;
use meter_io::{Failed, Sink};
use std::alloc::Global;

/// Writes the capture of a seed to the output, and to standard error how many packets it has. It reads nothing.
pub fn make<K: Sink, E: Sink>(
    alloc: Global,
    settings: &Making,
    output: &mut K,
    stderr: &mut E,
) -> Status
    ensures { (input : Side) (metered : List Fragment) → IsUntouched input → let seen =
        seen_of input (side K.held K.faults output.old output.new)
        (side E.held E.faults stderr.old stderr.new) metered
        in Ends (make settings.now.seed settings.now.packets settings.now.keys) seen (IsUntouched seen.stderr) result }
{
    let Ok(bytes) = capture(alloc, settings.seed, settings.packets, settings.keys) else {
        return Status::NoMemory;
    };
    match write_and_count(
        output,
        stderr,
        bytes.as_slice(),
        "packets",
        settings.packets as u64,
    ) {
        Ok(()) => Status::Done,
        Err(Failed) => Status::WriteFault,
    }
}
