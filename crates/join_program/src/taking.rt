//! Taking the records of a stream.

ghost use Rattle.std.specs.Prelude.{◌≡◌, ◌+◌, ◌++◌, ◌<◌, ◌^◌, [], ◌∷◌, ◌≤◌, List, OnOk, IfOk, IfErr, IsErrOf};
ghost use Rattle.flow_parts.specs.declared.fragment.Fragment.{Fragment};
ghost use Rattle.record_ledger.specs.declared.record.FlowRecord.{FlowRecord};
ghost use Rattle.std.specs.declared.option.Option.{Option};
ghost use Rattle.join_program.specs.Words.{OneOf};
ghost use Rattle.join_program.specs.Joined.{falls_to, AreFew};
ghost use Rattle.join_program.specs.Taking.{IsTaken, share_of};

use crate::settings::Share;
use crate::taken::Taken;
use flow_key::FlowKey;
use flow_parts::{Fragment, PartList};
use no_memory::NoMemory;
use record_ledger::FlowRecord;
use std::alloc::Global;

/// Why records aren't taken.
#[derive(Clone, Copy, Debug, PartialEq, Eq)]
pub(crate) enum TakeError {
    /// There are more packets or octets than a record can count.
    TooMany,
    /// Out of memory.
    NoMemory,
}

impl From<NoMemory> for TakeError {
    ghost use Rattle.join_program.specs.declared.taking.TakeError.TheVariants.{NoMemory as OutOfMemory};

    ghost from_gives = { λ _ error. error ≡ OutOfMemory };

    fn from(_error: NoMemory) -> TakeError {
        TakeError::NoMemory
    }
}

/// Whether the key falls to the share; without a share every key does.
fn falls_to(share: Option<Share>, key: &FlowKey) -> bool
    ensures { result ≡ falls_to (share_of share) key.now }
{
    match share {
        None => true,
        Some(share) => key.set_of(share.count) + 1 == share.number,
    }
}

/// Adds a fragment.
fn add_part(parts: &mut PartList, alloc: Global, part: Fragment) -> Result<(), NoMemory>
    ensures { OnOk result (parts.new ≡ parts.old ++ part ∷ []) }
{
    parts.push(alloc, part)?;
    Ok(())
}

/// The sum of two counts.
fn sum(one: u64, other: u64) -> Result<u64, TakeError>
    ensures sum { IfOk result (λ sum. sum ≡ one + other) }
    ensures fits { IfOk result (λ sum. one + other < 2 ^ 64) }
    ensures many { IfErr result (λ error. (error ≡ TakeError.TooMany) × (2 ^ 64 ≤ one + other)) }
{
    match one.checked_add(other) {
        Some(sum) => Ok(sum),
        None => Err(TakeError::TooMany),
    }
}

/// What is kept before any record is read.
pub(crate) fn nothing_taken(alloc: Global) -> Taken
    ensures { (share : Option OneOf) → IsTaken share [] result }
{
    Taken {
        parts: PartList::new(alloc),
        packets: 0,
        octets: 0,
        clock: None,
    }
}

/// Takes a record: its time, and its fragment where it falls to the share.
pub(crate) fn take(
    taken: &mut Taken,
    alloc: Global,
    share: Option<Share>,
    flow: &FlowRecord,
) -> Result<(), TakeError>
    ensures taken { OnOk result ((flows : List FlowRecord) → IsTaken (share_of share) flows taken.old
        → IsTaken (share_of share) (flows ++ flow.now ∷ []) taken.new) }
    ensures many { IsErrOf result TakeError.TooMany → (flows : List FlowRecord)
        → IsTaken (share_of share) flows taken.old → ¬ AreFew (share_of share) (flows ++ flow.now ∷ []) }
{
    taken.clock = Some(taken.clock.unwrap_or(0).max(flow.part.last));
    if !falls_to(share, &flow.part.key) {
        return Ok(());
    }
    let packets = sum(taken.packets, flow.part.packets)?;
    let octets = sum(taken.octets, flow.part.octets)?;
    add_part(&mut taken.parts, alloc, flow.part)?;
    taken.packets = packets;
    taken.octets = octets;
    Ok(())
}
