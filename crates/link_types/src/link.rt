//! Link types and their numbers.

ghost use Rattle.std.specs.Prelude.{◌≡◌, ◌↔◌, IfSome, IsSome, Some};

/// What stands in front of the IP header in the frames of a capture.
#[derive(Clone, Copy, Debug, PartialEq, Eq)]
pub enum LinkType {
    /// An Ethernet header of 14 octets, and any tags behind it (IEEE 802.3, IEEE 802.1Q).
    Ethernet,
    /// Nothing: the frame begins with the IP header.
    RawIp,
    /// The Linux cooked header, version 1: 16 octets that Linux writes in place of the link's own header.
    LinuxCooked,
}

impl LinkType {
    ghost use Rattle.link_types.specs.Links.{number_of, link_of, IsKnownLink};

    /// The link type with this number: 1 (Ethernet), 101 (raw IP) or 113 (Linux cooked). `None` for any other number.
    #[inline]
    pub fn of(number: u32) -> Option<LinkType>
        ensures value { result ≡ link_of number }
        ensures known { IsSome result ↔ IsKnownLink number }
        ensures number { IfSome result (λ link. number_of link ≡ number) }
    {
        match number {
            1 => Some(LinkType::Ethernet),
            101 => Some(LinkType::RawIp),
            113 => Some(LinkType::LinuxCooked),
            _ => None,
        }
    }

    /// The number of this link type in the registry of LINKTYPE values: 1, 101 or 113.
    #[inline]
    pub fn number(self) -> u32
        ensures value { result ≡ number_of self }
        ensures known { IsKnownLink result }
        ensures back { link_of result ≡ Some self }
    {
        match self {
            LinkType::Ethernet => 1,
            LinkType::RawIp => 101,
            LinkType::LinuxCooked => 113,
        }
    }
}
