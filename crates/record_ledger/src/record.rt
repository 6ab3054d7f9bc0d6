//! A flow record, and the reasons for which a flow ends.

ghost use Rattle.std.specs.Prelude.{ℕ, ◌<◌, ◌^◌};

use flow_key::FlowKey;
use flow_parts::Fragment;

/// The flow was idle for longer than the idle time-out (flowEndReason 1 of the IANA registry).
pub const IDLE_TIMEOUT: u8 = 1;
/// The flow went on, but was cut by the active time-out (flowEndReason 2).
pub const ACTIVE_TIMEOUT: u8 = 2;
/// The end of the flow was seen (flowEndReason 3): one of its packets ends it.
pub const END_OF_FLOW: u8 = 3;
/// The metering ended before the flow was known to have ended (flowEndReason 4).
pub const FORCED_END: u8 = 4;

/// One flow record: what is known of the packets of one flow, and why it ended.
#[derive(Clone, Copy, PartialEq, Eq, Debug)]
pub struct FlowRecord {
    /// The packets of the record, taken together.
    pub part: Fragment,
    /// Why the flow ended: [`IDLE_TIMEOUT`], [`ACTIVE_TIMEOUT`], [`END_OF_FLOW`] or
    /// [`FORCED_END`] in a record that was gathered here.
    pub reason: u8,
    // The width of the reason: a number in a clause has none of its own.
    pub ghost sized: { reason < 2 ^ 8 },
}

/// What room for records is filled with where none stands there yet.
pub(crate) fn no_record() -> FlowRecord {
    let key = FlowKey {
        source: 0,
        destination: 0,
        version: 4,
        protocol: 0,
        source_port: 0,
        destination_port: 0,
    };
    let part = Fragment {
        key,
        packets: 1,
        octets: 0,
        first: 0,
        last: 0,
        flags: 0,
    };
    FlowRecord { part, reason: 0 }
}
