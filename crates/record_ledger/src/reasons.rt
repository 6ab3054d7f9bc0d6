//! The reasons of records that stand by key and last time.

ghost use Rattle.std.specs.Prelude.{◌≡◌};
ghost use Rattle.record_ledger.specs.Lawful.{parts_of, reason_of};
ghost use Rattle.record_ledger.specs.Steps.{next_of_key, HasReasons};

use crate::record::{ACTIVE_TIMEOUT, END_OF_FLOW, FORCED_END, FlowRecord, IDLE_TIMEOUT};
use flow_parts::{Fragment, Timeouts};

/// Gives each record its reason.
pub fn give_reasons(records: &mut [FlowRecord], timeouts: &Timeouts, clock: u64)
    ensures parts { parts_of records.new ≡ parts_of records.old }
    ensures reasons { HasReasons timeouts.now clock records.new }
{
    for place in 0..records.len() {
        let part = records[place].part;
        records[place].reason = reason(&part, &records[place + 1..], timeouts, clock);
    }
}

/// The reason of a fragment that these records follow, sorted by key.
pub fn reason(part: &Fragment, rest: &[FlowRecord], timeouts: &Timeouts, clock: u64) -> u8
    ensures { result ≡ reason_of timeouts.now clock part.now (next_of_key part.now (parts_of rest.now)) }
{
    if part.closed() {
        return END_OF_FLOW;
    }
    let next = rest.first().filter(|next| next.part.key == part.key);
    match next {
        Some(next) if next.part.first.saturating_sub(part.last) > timeouts.idle => IDLE_TIMEOUT,
        Some(_) => ACTIVE_TIMEOUT,
        None if clock.saturating_sub(part.last) > timeouts.idle => IDLE_TIMEOUT,
        None => FORCED_END,
    }
}
