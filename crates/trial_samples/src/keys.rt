//! Keys of flows.

use flow_key::FlowKey;

/// UDP from this port of 192.0.2.1 to 192.0.2.2:53.
pub fn udp_key(source_port: u16) -> FlowKey {
    FlowKey {
        version: 4,
        source: 0xC000_0201,
        destination: 0xC000_0202,
        protocol: 17,
        source_port,
        destination_port: 53,
    }
}

/// TCP between these ports of 2001:db8::1 and 2001:db8::2.
pub fn tcp_over_ipv6(source_port: u16, destination_port: u16) -> FlowKey {
    FlowKey {
        version: 6,
        source: 0x2001_0db8_0000_0000_0000_0000_0000_0001,
        destination: 0x2001_0db8_0000_0000_0000_0000_0000_0002,
        protocol: 6,
        source_port,
        destination_port,
    }
}
