//! Why a record gives no packet.

ghost use Rattle.std.specs.Prelude.{◌≡◌};
ghost use Rattle.packet_accept.specs.Cause.{cause_of};

use packet_headers::HeaderFault;

/// Why a record gives no packet: the first cause in the order of the checks.
#[derive(Clone, Copy, Debug, PartialEq, Eq)]
pub enum Ignored {
    /// The frame holds no IP packet.
    NotIp,
    /// The link part, the IP header or an extension header goes beyond the packet's end or beyond what was captured of
    /// it.
    Short,
    /// The IP header's version or a length in it can't be right, or its packet is longer than 16,777,215 octets.
    BadHeader,
    /// The TCP or UDP header's fields go beyond the packet's end or beyond what was captured of it.
    ShortTransport,
    /// The fraction of the record's time is a second or more.
    BadTime,
}

impl From<HeaderFault> for Ignored {
    ghost from_gives = { λ fault cause. cause ≡ cause_of fault };

    fn from(fault: HeaderFault) -> Ignored {
        match fault {
            HeaderFault::Short => Ignored::Short,
            HeaderFault::NotIp => Ignored::NotIp,
            HeaderFault::BadHeader => Ignored::BadHeader,
        }
    }
}
