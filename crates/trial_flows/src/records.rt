//! Records of flows, each of a key of its own.

ghost use Rattle.std.specs.Prelude.{◌≤◌};

use flow_parts::Fragment;
use record_ledger::FlowRecord;
use trial_samples::{tcp_over_ipv6, udp_key};

/// UDP over IPv4 from this port of 192.0.2.1 to port 53 of 192.0.2.2, from 1000 s to `last` in milliseconds, forced
/// end.
pub fn udp_flow(source_port: u16, packets: u64, octets: u64, last: u64) -> FlowRecord
    requires some { 1 ≤ packets }
    requires later { 1000000 ≤ last }
{
    let part = Fragment {
        key: udp_key(source_port),
        packets,
        octets,
        first: 1_000_000,
        last,
        flags: 0,
    };
    FlowRecord { part, reason: 4 }
}

/// TCP from 2001:db8::1 to 2001:db8::2: one packet at 5 s, forced end.
pub fn tcp_flow(source_port: u16, destination_port: u16, octets: u64, flags: u16) -> FlowRecord {
    let part = Fragment {
        key: tcp_over_ipv6(source_port, destination_port),
        packets: 1,
        octets,
        first: 5000,
        last: 5000,
        flags,
    };
    FlowRecord { part, reason: 4 }
}
