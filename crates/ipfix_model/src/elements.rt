//! Information elements: their numbers and abstract data types in IANA's registry of IPFIX information elements.

ghost use Rattle.std.specs.Prelude.{◌≡◌};

/// octetDeltaCount: octets, IP headers and IP payload together.
pub const OCTET_DELTA_COUNT: u16 = 1;
/// packetDeltaCount.
pub const PACKET_DELTA_COUNT: u16 = 2;
/// protocolIdentifier.
pub const PROTOCOL_IDENTIFIER: u16 = 4;
/// tcpControlBits (RFC 7125).
pub const TCP_CONTROL_BITS: u16 = 6;
/// sourceTransportPort.
pub const SOURCE_TRANSPORT_PORT: u16 = 7;
/// sourceIPv4Address.
pub const SOURCE_IPV4_ADDRESS: u16 = 8;
/// destinationTransportPort.
pub const DESTINATION_TRANSPORT_PORT: u16 = 11;
/// destinationIPv4Address.
pub const DESTINATION_IPV4_ADDRESS: u16 = 12;
/// sourceIPv6Address.
pub const SOURCE_IPV6_ADDRESS: u16 = 27;
/// destinationIPv6Address.
pub const DESTINATION_IPV6_ADDRESS: u16 = 28;
/// flowEndReason.
pub const FLOW_END_REASON: u16 = 136;
/// flowStartMilliseconds.
pub const FLOW_START_MILLISECONDS: u16 = 152;
/// flowEndMilliseconds.
pub const FLOW_END_MILLISECONDS: u16 = 153;

/// The enterprise number of reverse elements: under this enterprise an element's number stands for the reverse of that
/// element (RFC 5103, section 6.1).
pub const REVERSE_ENTERPRISE: u32 = 29_305;

/// The abstract data types of the elements of a flow (RFC 7012, section 3.1).
#[derive(Clone, Copy, Debug, PartialEq, Eq)]
pub enum AbstractType {
    /// unsigned8.
    Unsigned8,
    /// unsigned16.
    Unsigned16,
    /// unsigned64.
    Unsigned64,
    /// ipv4Address.
    Ipv4Address,
    /// ipv6Address.
    Ipv6Address,
    /// dateTimeMilliseconds: milliseconds since the beginning of 1970, in 64 bits.
    DateTimeMilliseconds,
}

ghost use Rattle.ipfix_model.specs.Elements.{abstract_type};

/// The abstract data type of one of IANA's elements. `None` for an element that no flow has.
#[tactic(auto, unfolding(crate::specs::Elements::abstract_type))]
pub fn abstract_type(element: u16) -> Option<AbstractType>
    ensures { result ≡ abstract_type element }
{
    match element {
        OCTET_DELTA_COUNT | PACKET_DELTA_COUNT => Some(AbstractType::Unsigned64),
        PROTOCOL_IDENTIFIER | FLOW_END_REASON => Some(AbstractType::Unsigned8),
        TCP_CONTROL_BITS | SOURCE_TRANSPORT_PORT | DESTINATION_TRANSPORT_PORT => {
            Some(AbstractType::Unsigned16)
        }
        SOURCE_IPV4_ADDRESS | DESTINATION_IPV4_ADDRESS => Some(AbstractType::Ipv4Address),
        SOURCE_IPV6_ADDRESS | DESTINATION_IPV6_ADDRESS => Some(AbstractType::Ipv6Address),
        FLOW_START_MILLISECONDS | FLOW_END_MILLISECONDS => Some(AbstractType::DateTimeMilliseconds),
        _ => None,
    }
}
