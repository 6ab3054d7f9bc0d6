//! The command `schedule`.

ghost use Rattle.std.specs.Prelude.{◌≡◌, ◌≤◌, ◌^◌, length, codes, IfOk, IfErr, List};
ghost use Rattle.flow_parts.specs.declared.fragment.Fragment.{Fragment};
ghost use Rattle.meter_io.specs.Sides.{IsUntouched, side};
ghost use Rattle.meter_program.specs.Outcome.{Ends, IsReplayed};
ghost use Rattle.meter_program.specs.Replaying.{TextRefuses};
ghost use Rattle.meter_program.specs.Seen.{seen_of};
ghost use Rattle.meter_program.specs.Summary.{count_line};
ghost use Rattle.meter_program.specs.Words.{schedule};

use crate::ending::write_and_count;
use crate::status::Status;
use meter_io::{Failed, ReadError, Sink, Source, read_all};
use pebr_core::{Core, ReplayError, replay};
use pebr_schedule::{ScheduleError, print, read_schedule};
use std::alloc::Global;

/// The most bytes of a schedule.
const SCHEDULE_LIMIT: u64 = 1 << 20;

/// What a replay prints, and how many steps it has.
#[derive(Drop)]
struct Replay {
    text: Vec<u8>,
    steps: u64,
}

/// The replay of the schedule that these bytes are, or why they can't be replayed.
fn replay_of(alloc: Global, bytes: &[u8]) -> Result<Replay, Status>
    ensures replayed { IfOk result
        (λ replay. IsReplayed bytes.now replay.text.items (count_line (codes "steps") replay.steps)) }
    ensures refused { IfErr result (λ status. TextRefuses bytes.now status) }
{
    let schedule = match read_schedule(alloc, bytes) {
        Ok(schedule) => schedule,
        Err(ScheduleError::BadLine(line)) => return Err(Status::BadSchedule(line)),
        Err(ScheduleError::NoMemory) => return Err(Status::NoMemory),
    };
    let core = Core::start(alloc, schedule.shape)?;
    let replayed = match replay(alloc, core, schedule.steps.as_slice()) {
        Ok(replayed) => replayed,
        Err(ReplayError::NotEnabled(place)) => return Err(Status::BadSchedule(place as u64 + 2)),
        Err(ReplayError::NoMemory) => return Err(Status::NoMemory),
    };
    let text = print(alloc, &replayed)?;
    Ok(Replay {
        text,
        steps: schedule.steps.len() as u64,
    })
}

/// Reads a schedule from the input to its end, replays it from the start, writes the answers and the state behind them
/// to the output, and to standard error how many steps it has.
pub fn schedule<S: Source, K: Sink, E: Sink>(
    alloc: Global,
    input: &mut S,
    output: &mut K,
    stderr: &mut E,
) -> Status
    ensures { (metered : List Fragment) → let seen =
        seen_of (side S.left S.faults input.old input.new) (side K.held K.faults output.old output.new)
        (side E.held E.faults stderr.old stderr.new) metered
        in Ends schedule seen (IsUntouched seen.stderr) result }
{
    let bytes = match read_all(alloc, input, SCHEDULE_LIMIT) {
        Ok(bytes) => bytes,
        Err(ReadError::Failed) => return Status::ReadFault,
        Err(ReadError::TooLarge) => return Status::TooLarge,
        Err(ReadError::NoMemory) => return Status::NoMemory,
    };
    let replay = match replay_of(alloc, bytes.as_slice()) {
        Ok(replay) => replay,
        Err(status) => return status,
    };
    match write_and_count(
        output,
        stderr,
        replay.text.as_slice(),
        "steps",
        replay.steps,
    ) {
        Ok(()) => Status::Done,
        Err(Failed) => Status::WriteFault,
    }
}
