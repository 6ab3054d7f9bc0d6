//! A packet.

use crate::tcp::{FIN, RST, TCP};
use flow_key::FlowKey;

/// One accepted packet.
#[derive(Clone, Copy, PartialEq, Eq, Debug)]
pub struct Packet {
    /// The place of the packet's record in the capture, counted from 0.
    pub number: u64,
    /// The flow that the packet belongs to.
    pub key: FlowKey,
    /// When it was captured, in whole milliseconds since 1970-01-01T00:00:00Z.
    pub time: u64,
    /// The octets of the IP header and the IP payload.
    pub octets: u32,
    /// The TCP control bits (RFC 7125), or 0.
    pub flags: u16,
}

impl Packet {
    ghost use Rattle.std.specs.Prelude.{◌≡◌};
    ghost use Rattle.packet_accept.specs.Ending.{ends_flow};

    /// Whether the packet ends its flow: a TCP segment with FIN or RST (RFC 9293, section 3.1).
    #[inline]
    pub fn ends(&self) -> bool
        ensures { result ≡ ends_flow self.now }
    {
        self.key.protocol == TCP && (self.flags & FIN != 0 || self.flags & RST != 0)
    }
}
