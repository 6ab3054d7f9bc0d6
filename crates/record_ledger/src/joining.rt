//! Joining: records of one key that follow each other, as long as they are joinable, in place.

ghost use Rattle.std.specs.Prelude.{◌≡◌, ◌+◌, ◌-◌, ◌<◌, ◌≤◌, ◌^◌, [], ◌∷◌, ◌++◌, length, IfSome, IfNone, sum_by, take};
ghost use Rattle.std.specs.Prelude.{All, reverse, slice_index_or};
ghost use Rattle.flow_parts.specs.declared.fragment.Fragment.{Fragment};
ghost use Rattle.flow_parts.specs.Joining.{IsJoinable};
ghost use Rattle.record_ledger.specs.Lawful.{parts_of};
ghost use Rattle.flow_parts.specs.Reaching.{Reaches};
ghost use Rattle.record_ledger.specs.Gathered.{ComesTo, AllComeTo};
ghost use Rattle.record_ledger.specs.Steps.{NoneJoinable, Rises, NotAfter};

use crate::record::FlowRecord;
use flow_parts::{Fragment, Timeouts};

/// A fragment joined with the last of some records: how many of the records are left, and what it has become.
#[derive(Clone, Copy, Debug)]
struct Joined {
    left: usize,
    whole: Fragment,
}

/// Joins records that stand by key and last time, until no two neighbours are joinable.
///
/// The front of the list is a stack of records that stand apart; each record in turn is joined with the top of it.
pub fn join_neighbours(records: &mut Vec<FlowRecord>, timeouts: &Timeouts)
    requires packets { sum_by (λ (f : Fragment). f.packets) (parts_of records.old.items) < 2 ^ 64 }
    requires octets { sum_by (λ (f : Fragment). f.octets) (parts_of records.old.items) < 2 ^ 64 }
    requires sorted { Rises NotAfter (parts_of records.old.items) }
    ensures reached { Reaches timeouts.now (parts_of records.old.items) (parts_of records.new.items) }
    ensures sorted { Rises NotAfter (parts_of records.new.items) }
    ensures apart { NoneJoinable timeouts.now (parts_of records.new.items) }
    ensures joined { AllComeTo timeouts.now [] (parts_of records.old.items) (reverse (parts_of records.new.items)) }
{
    let mut apart = 0;
    for place in 0..records.len() {
        let part = records[place].part;
        let joined = settle(&records[..apart], part, timeouts);
        records[joined.left] = FlowRecord {
            part: joined.whole,
            reason: 0,
        };
        apart = joined.left + 1;
    }
    records.truncate(apart);
}

/// The part joined with the last of the records as long as the two are joinable, since a join may make the one before
/// the last joinable.
fn settle(stack: &[FlowRecord], part: Fragment, timeouts: &Timeouts) -> Joined
    requires packets { part.packets + sum_by (λ (f : Fragment). f.packets) (parts_of stack.now) < 2 ^ 64 }
    requires octets { part.octets + sum_by (λ (f : Fragment). f.octets) (parts_of stack.now) < 2 ^ 64 }
    requires latest { All (λ (f : Fragment). f.key ≡ part.key → f.last ≤ part.last) (parts_of stack.now) }
    ensures left { result.left ≤ length stack.now }
    ensures reached { Reaches timeouts.now (part ∷ parts_of stack.now)
        (result.whole ∷ take result.left (parts_of stack.now)) }
    ensures key { result.whole.key ≡ part.key }
    ensures last { result.whole.last ≡ part.last }
    ensures apart { (d : Fragment) → 0 < result.left
        → ¬ IsJoinable timeouts.now (slice_index_or (parts_of stack.now) (result.left - 1) d) result.whole }
    ensures comes { ComesTo timeouts.now (reverse (parts_of stack.now)) part
        (result.whole ∷ reverse (take result.left (parts_of stack.now))) }
{
    let mut left = stack.len();
    let mut whole = part;
    while let Some(top) = joinable_top(&stack[..left], &whole, timeouts) {
        whole = timeouts.join(top, whole);
        left -= 1;
    }
    Joined { left, whole }
}

/// The fragment of the last record, where there is one that is joinable with the fragment.
fn joinable_top(stack: &[FlowRecord], whole: &Fragment, timeouts: &Timeouts) -> Option<Fragment>
    ensures some { IfSome result (λ top. (0 < length stack.now)
        × (slice_index_or (parts_of stack.now) (length stack.now - 1) top ≡ top)
        × IsJoinable timeouts.now top whole.now) }
    ensures none { IfNone result ((d : Fragment) → 0 < length stack.now
        → ¬ IsJoinable timeouts.now (slice_index_or (parts_of stack.now) (length stack.now - 1) d) whole.now) }
{
    let top = stack.last()?.part;
    if timeouts.joinable(&top, whole) {
        Some(top)
    } else {
        None
    }
}
