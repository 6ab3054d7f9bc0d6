//! Pieces of frames, byte by byte from the standards (IEEE 802.3 and 802.1Q, RFC 791, RFC 8200, RFC 768, RFC 9293).

/// The two addresses of an Ethernet header, destination and source.
pub const ETHERNET: &[u8] = b"\x02\0\0\0\0\x02\x02\0\0\0\0\x01";

/// The first fourteen octets of Linux cooked version 1.
pub const COOKED: &[u8] = b"\0\0\0\x01\0\x06\x02\0\0\0\0\x01\0\0";

/// The EtherType of IPv4.
pub const IPV4: &[u8] = b"\x08\0";

/// The EtherType of IPv6.
pub const IPV6: &[u8] = b"\x86\xdd";

/// The EtherType of ARP.
pub const ARP: &[u8] = b"\x08\x06";

/// An IPv4 header of a packet of 28 octets with protocol 17, from 192.0.2.1 to 192.0.2.2.
pub const V4_UDP: &[u8] = b"\x45\0\0\x1c\0\0\0\0\x40\x11\0\0\xc0\0\x02\x01\xc0\0\x02\x02";

/// The addresses of this header.
pub const V4_ADDRESSES: &[u8] = b"\xc0\0\x02\x01\xc0\0\x02\x02";

/// The first four octets of an IPv6 header.
pub const V6: &[u8] = b"\x60\0\0\0";

/// Addresses of IPv6, from 2001:db8::1 to 2001:db8::2.
pub const V6_ADDRESSES: &[u8] =
    b"\x20\x01\x0d\xb8\0\0\0\0\0\0\0\0\0\0\0\x01\x20\x01\x0d\xb8\0\0\0\0\0\0\0\0\0\0\0\x02";

/// A UDP header, from port 4000 to port 53, of a datagram without data.
pub const UDP: &[u8] = b"\x0f\xa0\0\x35\0\x08\0\0";

/// The first twelve octets of a TCP header, from port 1025 to port 443.
pub const TCP_PORTS: &[u8] = b"\x04\x01\x01\xbb\0\0\0\x01\0\0\0\0";

/// More octets, of an option, of data or of padding.
pub const ZEROS: &[u8] = &[0; 26];
