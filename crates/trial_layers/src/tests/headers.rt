//! Frames made by hand from the standards, with the answers that the tables of the standards give.

ghost use Rattle.packet_headers.specs.Link.{IsIpVersion};

use HeaderFault::{BadHeader, NotIp, Short};
use Want::{Ip, Link, Packet, Transport};
use link_types::LinkType;
use packet_headers::{HeaderFault, IpView, LinkView, TcpView, UdpView};
use std::alloc::{AllocError, Global};
use std::process::Abort;
use std::test::Fail;
use trial_samples::frames::{
    ARP, COOKED, ETHERNET, IPV4, IPV6, TCP_PORTS, UDP, V4_ADDRESSES, V4_UDP, V6, V6_ADDRESSES,
    ZEROS,
};

/// The answer that is wanted for a frame.
#[derive(Clone, Copy, Debug, PartialEq, Eq)]
enum Want {
    Link(HeaderFault),
    Ip(HeaderFault),
    Transport(HeaderFault),
    /// The octets of the packet, its protocol, whether it is a fragment other than the first, the places in the
    /// frame where its payload begins and ends, its ports and its flags.
    Packet(u32, u8, bool, usize, usize, u16, u16, u16),
}

/// A frame in pieces, and the answer that is wanted for it.
struct Row {
    link: u32,
    frame: &'static [&'static [u8]],
    captured: usize,
    original: u64,
    want: Want,
}

/// Rows of a table: the link type, the frame in pieces, how many octets of it were captured of how many
/// original ones, and the answer that is wanted.
macro_rules! frames {
    ($($link:literal [$($piece:expr),*] $captured:literal of $original:literal => $want:expr;)*) => {
        &[$(Row {
            link: $link,
            frame: &[$($piece),*],
            captured: $captured,
            original: $original,
            want: $want,
        }),*]
    };
}

/// The EtherType of a customer VLAN tag.
const CUSTOMER: &[u8] = b"\x81\0";

/// The EtherType of a service VLAN tag.
const SERVICE: &[u8] = b"\x88\xa8";

/// Four octets of options: three times no operation, and the end.
const OPTION: &[u8] = b"\x01\x01\x01\0";

/// Link parts: headers, tags 0 to 3, and the first octet of raw IP.
const LINK_PARTS: &[Row] = frames! {
    // Ethernet: 14 octets of header, 20 of IPv4, 4 of the ports.
    1 [ETHERNET, IPV4, V4_UDP, UDP] 0 of 42 => Link(Short);
    1 [ETHERNET, IPV4, V4_UDP, UDP] 13 of 42 => Link(Short);
    1 [ETHERNET, IPV4, V4_UDP, UDP] 14 of 42 => Ip(Short);
    1 [ETHERNET, IPV4, V4_UDP, UDP] 33 of 42 => Ip(Short);
    1 [ETHERNET, IPV4, V4_UDP, UDP] 34 of 42 => Transport(Short);
    1 [ETHERNET, IPV4, V4_UDP, UDP] 37 of 42 => Transport(Short);
    1 [ETHERNET, IPV4, V4_UDP, UDP] 38 of 42 => Packet(28, 17, false, 34, 38, 4000, 53, 0);
    1 [ETHERNET, IPV4, V4_UDP, UDP] 42 of 42 => Packet(28, 17, false, 34, 42, 4000, 53, 0);
    // EtherTypes other than those of IP and of tags.
    1 [ETHERNET, ARP, V4_UDP, UDP] 42 of 42 => Link(NotIp);
    1 [ETHERNET, b"\x07\xff", V4_UDP, UDP] 42 of 42 => Link(NotIp);
    1 [ETHERNET, b"\x86\xde", V4_UDP, UDP] 42 of 42 => Link(NotIp);
    1 [ETHERNET, b"\x91\0", b"\0\x05", IPV4, V4_UDP, UDP] 46 of 46 => Link(NotIp);
    // One tag, of either type.
    1 [ETHERNET, CUSTOMER, b"\0\x05", IPV4, V4_UDP, UDP] 46 of 46 => Packet(28, 17, false, 38, 46, 4000, 53, 0);
    1 [ETHERNET, SERVICE, b"\0\x05", IPV4, V4_UDP, UDP] 46 of 46 => Packet(28, 17, false, 38, 46, 4000, 53, 0);
    1 [ETHERNET, CUSTOMER, b"\0\x05", ARP, V4_UDP, UDP] 46 of 46 => Link(NotIp);
    1 [ETHERNET, CUSTOMER, b"\0\x05", IPV4, V4_UDP, UDP] 14 of 46 => Link(Short);
    1 [ETHERNET, CUSTOMER, b"\0\x05", IPV4, V4_UDP, UDP] 17 of 46 => Link(Short);
    1 [ETHERNET, CUSTOMER, b"\0\x05", IPV4, V4_UDP, UDP] 18 of 46 => Ip(Short);
    // Two tags.
    1 [ETHERNET, SERVICE, b"\0\x05", CUSTOMER, b"\0\x06", IPV4, V4_UDP, UDP] 50 of 50 =>
        Packet(28, 17, false, 42, 50, 4000, 53, 0);
    1 [ETHERNET, CUSTOMER, b"\0\x05", CUSTOMER, b"\0\x06", IPV6, V6, b"\0\x08\x11\x40", V6_ADDRESSES, UDP] 70 of 70 =>
        Packet(48, 17, false, 62, 70, 4000, 53, 0);
    1 [ETHERNET, SERVICE, b"\0\x05", SERVICE, b"\0\x06", IPV4, V4_UDP, UDP] 21 of 50 => Link(Short);
    1 [ETHERNET, SERVICE, b"\0\x05", SERVICE, b"\0\x06", IPV4, V4_UDP, UDP] 22 of 50 => Ip(Short);
    // A third tag isn't IP, whatever follows it.
    1 [ETHERNET, SERVICE, b"\0\x05", SERVICE, b"\0\x06", CUSTOMER, b"\0\x07", IPV4, V4_UDP, UDP] 54 of 54 =>
        Link(NotIp);
    1 [ETHERNET, SERVICE, b"\0\x05", SERVICE, b"\0\x06", CUSTOMER, b"\0\x07", IPV4, V4_UDP, UDP] 25 of 54 =>
        Link(NotIp);
    1 [ETHERNET, SERVICE, b"\0\x05", SERVICE, b"\0\x06", CUSTOMER] 22 of 54 => Link(NotIp);
    // Linux cooked version 1: 16 octets of header.
    113 [COOKED, IPV4, V4_UDP, UDP] 44 of 44 => Packet(28, 17, false, 36, 44, 4000, 53, 0);
    113 [COOKED, IPV4, V4_UDP, UDP] 15 of 44 => Link(Short);
    113 [COOKED, IPV4, V4_UDP, UDP] 16 of 44 => Ip(Short);
    113 [COOKED, ARP, V4_UDP, UDP] 44 of 44 => Link(NotIp);
    113 [COOKED, CUSTOMER, b"\0\x05", IPV4, V4_UDP, UDP] 48 of 48 => Packet(28, 17, false, 40, 48, 4000, 53, 0);
    // Raw IP: the version is in the first octet.
    101 [V4_UDP, UDP] 28 of 28 => Packet(28, 17, false, 20, 28, 4000, 53, 0);
    101 [V4_UDP, UDP] 0 of 28 => Link(Short);
    101 [V4_UDP, UDP] 1 of 28 => Ip(Short);
    101 [b"\x3f"] 1 of 28 => Link(NotIp);
    101 [b"\x50"] 1 of 28 => Link(NotIp);
    101 [b"\x70"] 1 of 28 => Link(NotIp);
    101 [b"\x04"] 1 of 28 => Link(NotIp);
};

/// IPv4: header lengths 0, 4, 5, 6 and 15, and another version.
const IPV4_HEADER_LENGTHS: &[Row] = frames! {
    101 [b"\x40\0", b"\0\x1c", b"\0\0\0\0", b"\x40\x11\0\0", V4_ADDRESSES, UDP] 28 of 28 => Ip(BadHeader);
    101 [b"\x44\0", b"\0\x1c", b"\0\0\0\0", b"\x40\x11\0\0", V4_ADDRESSES, UDP] 28 of 28 => Ip(BadHeader);
    101 [b"\x44\0", b"\0\x1c", b"\0\0\0\0", b"\x40\x11\0\0", V4_ADDRESSES, UDP] 19 of 28 => Ip(Short);
    1 [ETHERNET, IPV4, b"\x65\0", b"\0\x1c", b"\0\0\0\0", b"\x40\x11\0\0", V4_ADDRESSES, UDP] 42 of 42 => Ip(BadHeader);
    101 [b"\x46\0", b"\0\x20", b"\0\0\0\0", b"\x40\x11\0\0", V4_ADDRESSES, OPTION, UDP] 32 of 32 =>
        Packet(32, 17, false, 24, 32, 4000, 53, 0);
    101 [b"\x46\0", b"\0\x20", b"\0\0\0\0", b"\x40\x11\0\0", V4_ADDRESSES, OPTION, UDP] 23 of 32 => Ip(Short);
    101 [b"\x46\0", b"\0\x20", b"\0\0\0\0", b"\x40\x11\0\0", V4_ADDRESSES, OPTION, UDP] 24 of 32 => Transport(Short);
    101 [b"\x4f\0", b"\0\x44", b"\0\0\0\0", b"\x40\x11\0\0", V4_ADDRESSES, OPTION, OPTION, OPTION, OPTION, OPTION,
        OPTION, OPTION, OPTION, OPTION, OPTION, UDP] 68 of 68 => Packet(68, 17, false, 60, 68, 4000, 53, 0);
    101 [b"\x4f\0", b"\0\x44", b"\0\0\0\0", b"\x40\x11\0\0", V4_ADDRESSES, OPTION, OPTION, OPTION, OPTION, OPTION,
        OPTION, OPTION, OPTION, OPTION, OPTION, UDP] 59 of 68 => Ip(Short);
    101 [b"\x4f\0", b"\0\x3c", b"\0\0\0\0", b"\x40\x01\0\0", V4_ADDRESSES, OPTION, OPTION, OPTION, OPTION, OPTION,
        OPTION, OPTION, OPTION, OPTION, OPTION] 60 of 60 => Packet(60, 1, false, 60, 60, 0, 0, 0);
    101 [b"\x4f\0", b"\0\x3b", b"\0\0\0\0", b"\x40\x01\0\0", V4_ADDRESSES, OPTION, OPTION, OPTION, OPTION, OPTION,
        OPTION, OPTION, OPTION, OPTION, OPTION] 60 of 60 => Ip(BadHeader);
};

/// IPv4: total lengths, padding, fragments, and TCP.
const IPV4_PACKETS: &[Row] = frames! {
    // Total lengths around the header's, of 0, and beyond what is captured.
    101 [b"\x45\0", b"\0\x13", b"\0\0\0\0", b"\x40\x01\0\0", V4_ADDRESSES, UDP] 28 of 28 => Ip(BadHeader);
    101 [b"\x45\0", b"\0\x01", b"\0\0\0\0", b"\x40\x01\0\0", V4_ADDRESSES, UDP] 28 of 28 => Ip(BadHeader);
    101 [b"\x45\0", b"\0\x14", b"\0\0\0\0", b"\x40\x01\0\0", V4_ADDRESSES, UDP] 28 of 28 =>
        Packet(20, 1, false, 20, 20, 0, 0, 0);
    101 [b"\x45\0", b"\0\x15", b"\0\0\0\0", b"\x40\x01\0\0", V4_ADDRESSES, UDP] 28 of 28 =>
        Packet(21, 1, false, 20, 21, 0, 0, 0);
    101 [b"\x46\0", b"\0\x17", b"\0\0\0\0", b"\x40\x01\0\0", V4_ADDRESSES, OPTION, UDP] 32 of 32 => Ip(BadHeader);
    101 [b"\x45\0", b"\xff\xff", b"\0\0\0\0", b"\x40\x11\0\0", V4_ADDRESSES, UDP] 28 of 28 =>
        Packet(65535, 17, false, 20, 28, 4000, 53, 0);
    101 [b"\x45\0", b"\0\0", b"\0\0\0\0", b"\x40\x11\0\0", V4_ADDRESSES, UDP] 28 of 3000 =>
        Packet(3000, 17, false, 20, 28, 4000, 53, 0);
    1 [ETHERNET, IPV4, b"\x45\0", b"\0\0", b"\0\0\0\0", b"\x40\x11\0\0", V4_ADDRESSES, UDP] 42 of 3014 =>
        Packet(3000, 17, false, 34, 42, 4000, 53, 0);
    101 [b"\x45\0", b"\0\0", b"\0\0\0\0", b"\x40\x11\0\0", V4_ADDRESSES, UDP] 28 of 24 =>
        Packet(24, 17, false, 20, 24, 4000, 53, 0);
    101 [b"\x45\0", b"\0\0", b"\0\0\0\0", b"\x40\x11\0\0", V4_ADDRESSES, UDP] 28 of 23 => Transport(Short);
    101 [b"\x45\0", b"\0\0", b"\0\0\0\0", b"\x40\x01\0\0", V4_ADDRESSES, UDP] 28 of 10 =>
        Packet(20, 1, false, 20, 20, 0, 0, 0);
    1 [ETHERNET, IPV4, b"\x45\0", b"\0\0", b"\0\0\0\0", b"\x40\x01\0\0", V4_ADDRESSES, UDP] 42 of 3 =>
        Packet(20, 1, false, 34, 34, 0, 0, 0);
    101 [b"\x45\0", b"\0\0", b"\0\0\0\0", b"\x40\x11\0\0", V4_ADDRESSES, UDP] 28 of 16777215 =>
        Packet(16777215, 17, false, 20, 28, 4000, 53, 0);
    101 [b"\x45\0", b"\0\0", b"\0\0\0\0", b"\x40\x11\0\0", V4_ADDRESSES, UDP] 28 of 16777216 => Ip(BadHeader);
    1 [ETHERNET, IPV4, b"\x45\0", b"\0\0", b"\0\0\0\0", b"\x40\x11\0\0", V4_ADDRESSES, UDP] 42 of 16777229 =>
        Packet(16777215, 17, false, 34, 42, 4000, 53, 0);
    // What was captured after the packet's end is padding.
    1 [ETHERNET, IPV4, b"\x45\0", b"\0\x14", b"\0\0\0\0", b"\x40\x06\0\0", V4_ADDRESSES, ZEROS] 60 of 60 =>
        Transport(Short);
    1 [ETHERNET, IPV4, b"\x45\0", b"\0\x17", b"\0\0\0\0", b"\x40\x11\0\0", V4_ADDRESSES, UDP, ZEROS] 60 of 60 =>
        Transport(Short);
    1 [ETHERNET, IPV4, b"\x45\0", b"\0\x18", b"\0\0\0\0", b"\x40\x11\0\0", V4_ADDRESSES, UDP, ZEROS] 60 of 60 =>
        Packet(24, 17, false, 34, 38, 4000, 53, 0);
    // Fragments: the lower 13 bits of the field are the offset, the upper 3 are flags.
    101 [b"\x45\0", b"\0\x1c", b"\0\0\0\x01", b"\x40\x11\0\0", V4_ADDRESSES, UDP] 28 of 28 =>
        Packet(28, 17, true, 20, 28, 0, 0, 0);
    101 [b"\x45\0", b"\0\x1c", b"\0\0\x1f\xff", b"\x40\x11\0\0", V4_ADDRESSES, UDP] 28 of 28 =>
        Packet(28, 17, true, 20, 28, 0, 0, 0);
    101 [b"\x45\0", b"\0\x1c", b"\0\0\x10\0", b"\x40\x11\0\0", V4_ADDRESSES, UDP] 28 of 28 =>
        Packet(28, 17, true, 20, 28, 0, 0, 0);
    101 [b"\x45\0", b"\0\x1c", b"\0\0\x20\0", b"\x40\x11\0\0", V4_ADDRESSES, UDP] 28 of 28 =>
        Packet(28, 17, false, 20, 28, 4000, 53, 0);
    101 [b"\x45\0", b"\0\x1c", b"\0\0\xe0\0", b"\x40\x11\0\0", V4_ADDRESSES, UDP] 28 of 28 =>
        Packet(28, 17, false, 20, 28, 4000, 53, 0);
    101 [b"\x45\0", b"\0\x14", b"\0\0\x20\x01", b"\x40\x06\0\0", V4_ADDRESSES] 20 of 20 =>
        Packet(20, 6, true, 20, 20, 0, 0, 0);
    // TCP: 14 octets for the flags, which are 12 bits.
    101 [b"\x45\0", b"\0\x28", b"\0\0\0\0", b"\x40\x06\0\0", V4_ADDRESSES, TCP_PORTS, b"\x50\x12", ZEROS] 33 of 40 =>
        Transport(Short);
    101 [b"\x45\0", b"\0\x28", b"\0\0\0\0", b"\x40\x06\0\0", V4_ADDRESSES, TCP_PORTS, b"\x50\x12", ZEROS] 34 of 40 =>
        Packet(40, 6, false, 20, 34, 1025, 443, 18);
    101 [b"\x45\0", b"\0\x28", b"\0\0\0\0", b"\x40\x06\0\0", V4_ADDRESSES, TCP_PORTS, b"\xff\xff", ZEROS] 40 of 40 =>
        Packet(40, 6, false, 20, 40, 1025, 443, 4095);
    101 [b"\x45\0", b"\0\x28", b"\0\0\0\0", b"\x40\x06\0\0", V4_ADDRESSES, TCP_PORTS, b"\xf0\0", ZEROS] 40 of 40 =>
        Packet(40, 6, false, 20, 40, 1025, 443, 0);
    101 [b"\x45\0", b"\0\x21", b"\0\0\0\0", b"\x40\x06\0\0", V4_ADDRESSES, TCP_PORTS, b"\x50\x12", ZEROS] 40 of 40 =>
        Transport(Short);
    101 [b"\x45\0", b"\0\x22", b"\0\0\0\0", b"\x40\x06\0\0", V4_ADDRESSES, TCP_PORTS, b"\x59\0", ZEROS] 40 of 40 =>
        Packet(34, 6, false, 20, 34, 1025, 443, 2304);
};

/// IPv6: the header, payload lengths, and one extension header.
const IPV6_PACKETS: &[Row] = frames! {
    // The header of 40 octets, and another version behind IPv6's type.
    101 [V6, b"\0\x08\x11\x40", V6_ADDRESSES, UDP] 48 of 48 => Packet(48, 17, false, 40, 48, 4000, 53, 0);
    101 [V6, b"\0\x08\x11\x40", V6_ADDRESSES, UDP] 39 of 48 => Ip(Short);
    101 [V6, b"\0\x08\x11\x40", V6_ADDRESSES, UDP] 40 of 48 => Transport(Short);
    101 [V6, b"\0\x08\x3b\x40", V6_ADDRESSES, UDP] 40 of 48 => Packet(48, 59, false, 40, 40, 0, 0, 0);
    1 [ETHERNET, IPV6, b"\x45\0\0\0\0\x08\x11\x40", V6_ADDRESSES, UDP] 62 of 62 => Ip(BadHeader);
    1 [ETHERNET, IPV6, b"\x45\0\0\0\0\x08\x11\x40", V6_ADDRESSES, UDP] 53 of 62 => Ip(Short);
    // Payload lengths of 0 and beyond what is captured, and padding.
    101 [V6, b"\0\0\x3b\x40", V6_ADDRESSES, UDP] 48 of 3000 => Packet(40, 59, false, 40, 40, 0, 0, 0);
    101 [V6, b"\0\0\x11\x40", V6_ADDRESSES, UDP] 48 of 3000 => Packet(3000, 17, false, 40, 48, 4000, 53, 0);
    101 [V6, b"\0\0\x11\x40", V6_ADDRESSES, UDP] 48 of 44 => Packet(44, 17, false, 40, 44, 4000, 53, 0);
    101 [V6, b"\0\0\x11\x40", V6_ADDRESSES, UDP] 48 of 30 => Transport(Short);
    101 [V6, b"\0\0\x3a\x40", V6_ADDRESSES, UDP] 48 of 30 => Packet(40, 58, false, 40, 40, 0, 0, 0);
    101 [V6, b"\0\0\x11\x40", V6_ADDRESSES, UDP] 48 of 16777215 => Packet(16777215, 17, false, 40, 48, 4000, 53, 0);
    101 [V6, b"\0\0\x11\x40", V6_ADDRESSES, UDP] 48 of 16777216 => Ip(BadHeader);
    101 [V6, b"\xff\xff\x11\x40", V6_ADDRESSES, UDP] 48 of 48 => Packet(65575, 17, false, 40, 48, 4000, 53, 0);
    101 [V6, b"\0\x04\x11\x40", V6_ADDRESSES, UDP, ZEROS] 60 of 60 => Packet(44, 17, false, 40, 44, 4000, 53, 0);
    101 [V6, b"\0\x03\x11\x40", V6_ADDRESSES, UDP, ZEROS] 60 of 60 => Transport(Short);
    // Hop-by-hop options of 8 and 16 octets, whole and one octet short.
    101 [V6, b"\0\x10\0\x40", V6_ADDRESSES, b"\x11\0\x01\x04\0\0\0\0", UDP] 56 of 56 =>
        Packet(56, 17, false, 48, 56, 4000, 53, 0);
    101 [V6, b"\0\x18\0\x40", V6_ADDRESSES, b"\x11\x01\x01\x0c\0\0\0\0\0\0\0\0\0\0\0\0", UDP] 64 of 64 =>
        Packet(64, 17, false, 56, 64, 4000, 53, 0);
    101 [V6, b"\0\x08\0\x40", V6_ADDRESSES, b"\x3b\0\x01\x04\0\0\0\0"] 48 of 48 =>
        Packet(48, 59, false, 48, 48, 0, 0, 0);
    101 [V6, b"\0\x07\0\x40", V6_ADDRESSES, b"\x3b\0\x01\x04\0\0\0\0"] 48 of 48 => Ip(Short);
    101 [V6, b"\0\x08\0\x40", V6_ADDRESSES, b"\x3b\0\x01\x04\0\0\0\0"] 47 of 48 => Ip(Short);
    101 [V6, b"\0\x08\0\x40", V6_ADDRESSES, b"\x3b\0\x01\x04\0\0\0\0"] 41 of 48 => Ip(Short);
    101 [V6, b"\0\x08\0\x40", V6_ADDRESSES, b"\x3b\0\x01\x04\0\0\0\0"] 40 of 48 => Ip(Short);
    101 [V6, b"\0\x0f\0\x40", V6_ADDRESSES, b"\x11\x01\x01\x0c\0\0\0\0\0\0\0\0\0\0\0\0", UDP] 64 of 64 => Ip(Short);
    // Routing, destination options, and authentication of 12 and 24 octets.
    101 [V6, b"\0\x10\x2b\x40", V6_ADDRESSES, b"\x11\0\x04\0\0\0\0\0", UDP] 56 of 56 =>
        Packet(56, 17, false, 48, 56, 4000, 53, 0);
    101 [V6, b"\0\x10\x3c\x40", V6_ADDRESSES, b"\x11\0\x01\x04\0\0\0\0", UDP] 56 of 56 =>
        Packet(56, 17, false, 48, 56, 4000, 53, 0);
    101 [V6, b"\0\x14\x33\x40", V6_ADDRESSES, b"\x11\x01\0\0\0\0\0\0\0\0\0\0", UDP] 60 of 60 =>
        Packet(60, 17, false, 52, 60, 4000, 53, 0);
    101 [V6, b"\0\x20\x33\x40", V6_ADDRESSES, b"\x11\x04\0\0\0\0\0\0\0\0\0\0", b"\0\0\0\0\0\0\0\0\0\0\0\0", UDP] 72 of
        72 => Packet(72, 17, false, 64, 72, 4000, 53, 0);
    101 [V6, b"\0\x0b\x33\x40", V6_ADDRESSES, b"\x3b\x01\0\0\0\0\0\0\0\0\0\0"] 52 of 52 => Ip(Short);
    101 [V6, b"\0\x08\x33\x40", V6_ADDRESSES, b"\x3b\0\0\0\0\0\0\0"] 48 of 48 => Packet(48, 59, false, 48, 48, 0, 0, 0);
};

/// IPv6: fragments and chains of extension headers.
const CHAINS: &[Row] = frames! {
    // Fragments: the upper 13 bits of the field are the offset, the lower 3 are flags.
    101 [V6, b"\0\x10\x2c\x40", V6_ADDRESSES, b"\x11\0\0\x01\0\0\0\x09", UDP] 56 of 56 =>
        Packet(56, 17, false, 48, 56, 4000, 53, 0);
    101 [V6, b"\0\x10\x2c\x40", V6_ADDRESSES, b"\x11\0\0\x07\0\0\0\x09", UDP] 56 of 56 =>
        Packet(56, 17, false, 48, 56, 4000, 53, 0);
    101 [V6, b"\0\x10\x2c\x40", V6_ADDRESSES, b"\x11\0\0\x08\0\0\0\x09", UDP] 56 of 56 =>
        Packet(56, 17, true, 48, 56, 0, 0, 0);
    101 [V6, b"\0\x10\x2c\x40", V6_ADDRESSES, b"\x11\0\xff\xf8\0\0\0\x09", UDP] 56 of 56 =>
        Packet(56, 17, true, 48, 56, 0, 0, 0);
    101 [V6, b"\0\x10\x2c\x40", V6_ADDRESSES, b"\x11\0\x01\0\0\0\0\x09", UDP] 56 of 56 =>
        Packet(56, 17, true, 48, 56, 0, 0, 0);
    101 [V6, b"\0\x08\x2c\x40", V6_ADDRESSES, b"\x06\0\0\x08\0\0\0\x09"] 48 of 48 =>
        Packet(48, 6, true, 48, 48, 0, 0, 0);
    101 [V6, b"\0\x07\x2c\x40", V6_ADDRESSES, b"\x06\0\0\x08\0\0\0\x09"] 48 of 48 => Ip(Short);
    101 [V6, b"\0\x08\x2c\x40", V6_ADDRESSES, b"\x06\0\0\x08\0\0\0\x09"] 47 of 48 => Ip(Short);
    // The protocol of a later fragment is what its fragment header names: ESP, and 41, which isn't skipped either.
    101 [V6, b"\0\x10\x2c\x40", V6_ADDRESSES, b"\x32\0\0\x08\0\0\0\x09", UDP] 56 of 56 =>
        Packet(56, 50, true, 48, 56, 0, 0, 0);
    101 [V6, b"\0\x10\x2c\x40", V6_ADDRESSES, b"\x29\0\x10\x01\0\0\0\x09", UDP] 56 of 56 =>
        Packet(56, 41, true, 48, 56, 0, 0, 0);
    // The second octet of a fragment header isn't a length.
    101 [V6, b"\0\x10\x2c\x40", V6_ADDRESSES, b"\x11\xff\0\0\0\0\0\x09", UDP] 56 of 56 =>
        Packet(56, 17, false, 48, 56, 4000, 53, 0);
    // Chains: all five kinds, a kind twice, and a later fragment, whose payload isn't looked at.
    101 [V6, b"\0\x40\0\x40", V6_ADDRESSES, b"\x2b\0\x01\x04\0\0\0\0", b"\x3c\0\x01\x04\0\0\0\0",
        b"\x2c\0\x01\x04\0\0\0\0", b"\x33\0\0\0\0\0\0\x09", b"\x06\x01\0\0\0\0\0\0\0\0\0\0", TCP_PORTS, b"\x50\x10",
            ZEROS] 104 of 104 => Packet(104, 6, false, 84, 104, 1025, 443, 16);
    101 [V6, b"\0\x20\x3c\x40", V6_ADDRESSES, b"\x3c\0\x01\x04\0\0\0\0", b"\0\0\x01\x04\0\0\0\0",
        b"\x11\0\x01\x04\0\0\0\0", UDP] 72 of 72 => Packet(72, 17, false, 64, 72, 4000, 53, 0);
    101 [V6, b"\0\x18\x2c\x40", V6_ADDRESSES, b"\0\0\0\x08\0\0\0\x09", b"\x2c\0\x01\x04\0\0\0\0", UDP] 64 of 64 =>
        Packet(64, 0, true, 48, 64, 0, 0, 0);
    101 [V6, b"\0\x18\0\x40", V6_ADDRESSES, b"\x2c\0\x01\x04\0\0\0\0", b"\x11\0\0\0\0\0\0\x09", UDP] 64 of 64 =>
        Packet(64, 17, false, 56, 64, 4000, 53, 0);
    101 [V6, b"\0\x0f\0\x40", V6_ADDRESSES, b"\x2c\0\x01\x04\0\0\0\0", b"\x11\0\0\x08\0\0\0\x09", UDP] 64 of 64 =>
        Ip(Short);
    // Headers that aren't skipped end the walk.
    101 [V6, b"\0\x10\0\x40", V6_ADDRESSES, b"\x87\0\x01\x04\0\0\0\0", UDP] 56 of 56 =>
        Packet(56, 135, false, 48, 56, 0, 0, 0);
    101 [V6, b"\0\x08\x32\x40", V6_ADDRESSES, UDP] 48 of 48 => Packet(48, 50, false, 40, 48, 0, 0, 0);
    101 [V6, b"\0\x10\0\x40", V6_ADDRESSES, b"\x3b\0\x01\x04\0\0\0\0", UDP] 56 of 56 =>
        Packet(56, 59, false, 48, 56, 0, 0, 0);
    // A payload length of 0 with an extension header; and two fragments with a hop-by-hop header before them.
    101 [V6, b"\0\0\0\x40", V6_ADDRESSES, b"\x11\0\x01\x04\0\0\0\0", UDP] 56 of 9000 =>
        Packet(9000, 17, false, 48, 56, 4000, 53, 0);
    101 [V6, b"\0\0\0\x40", V6_ADDRESSES, b"\x11\0\x01\x04\0\0\0\0", UDP] 56 of 47 => Ip(Short);
    101 [V6, b"\0\x24\0\x40", V6_ADDRESSES, b"\x2c\0\x01\x04\0\0\0\0", b"\x06\0\0\x01\0\0\0\x09", TCP_PORTS,
        b"\x50\x10", ZEROS] 76 of 76 => Packet(76, 6, false, 56, 76, 1025, 443, 16);
    101 [V6, b"\0\x74\0\x40", V6_ADDRESSES, b"\x2c\0\x01\x04\0\0\0\0", b"\x06\0\0\x20\0\0\0\x09", ZEROS, ZEROS, ZEROS,
        ZEROS] 156 of 156 => Packet(156, 6, true, 56, 156, 0, 0, 0);
};

/// The captured part of a row's frame.
fn frame_of(alloc: Global, row: &Row) -> Result<Vec<u8>, AllocError> {
    let mut frame = Vec::new(alloc);
    for piece in row.frame {
        frame.extend_from_slice(piece)?;
    }
    frame.truncate(row.captured);
    Ok(frame)
}

/// The packet behind a link part, or the fault of its header.
fn packet_of(link: LinkView<'_>, original: u64) -> Result<IpView<'_>, HeaderFault>
    requires { IsIpVersion link.version }
{
    let original = original.saturating_sub(link.offset as u64);
    IpView::of(link.version, link.rest, original)
}

/// The ports and the flags of a packet.
fn ports_of(found: &IpView<'_>) -> Result<(u16, u16, u16), HeaderFault> {
    if found.later {
        return Ok((0, 0, 0));
    }
    match found.protocol {
        6 => {
            let tcp = TcpView::of(found.payload)?;
            Ok((tcp.source_port(), tcp.destination_port(), tcp.flags()))
        }
        17 => {
            let udp = UdpView::of(found.payload)?;
            Ok((udp.source_port(), udp.destination_port(), 0))
        }
        _ => Ok((0, 0, 0)),
    }
}

/// Whether the views of a frame give the answer that is wanted.
fn is_wanted(frame: &[u8], row: &Row) -> bool {
    let Some(link) = LinkType::of(row.link) else {
        return false;
    };
    let link = match LinkView::of(link, frame) {
        Ok(link) => link,
        Err(fault) => return row.want == Link(fault),
    };
    let (source, destination) = if link.version == 4 {
        (0xc000_0201, 0xc000_0202)
    } else {
        (
            0x2001_0db8_0000_0000_0000_0000_0000_0001,
            0x2001_0db8_0000_0000_0000_0000_0000_0002,
        )
    };
    let found = match packet_of(link, row.original) {
        Ok(found) => found,
        Err(fault) => return row.want == Ip(fault),
    };
    let (from, to, flags) = match ports_of(&found) {
        Ok(ports) => ports,
        Err(fault) => return row.want == Transport(fault),
    };
    let (begin, end) = match row.want {
        Packet(_, _, _, begin, end, _, _, _) => (begin, end),
        _ => return false,
    };
    found.version == link.version
        && found.source == source
        && found.destination == destination
        && frame.get(begin..end) == Some(found.payload)
        && row.want
            == Packet(
                found.octets,
                found.protocol,
                found.later,
                begin,
                end,
                from,
                to,
                flags,
            )
}

/// Reads each frame of a table.
fn check(rt: &impl Abort, alloc: Global, rows: &[Row]) -> Result<(), AllocError> {
    for (place, row) in rows.iter().enumerate() {
        let frame = frame_of(alloc, row)?;
        assert!(rt; is_wanted(frame.as_slice(), row), "frame {place}");
    }
    Ok(())
}

#[test]
fn link_parts(rt: HostRuntime) -> Result<(), Fail> {
    check(&rt, rt.alloc(), LINK_PARTS)?;
    Ok(())
}

#[test]
fn ipv4_header_lengths(rt: HostRuntime) -> Result<(), Fail> {
    check(&rt, rt.alloc(), IPV4_HEADER_LENGTHS)?;
    Ok(())
}

#[test]
fn ipv4_packets(rt: HostRuntime) -> Result<(), Fail> {
    check(&rt, rt.alloc(), IPV4_PACKETS)?;
    Ok(())
}

#[test]
fn ipv6_packets(rt: HostRuntime) -> Result<(), Fail> {
    check(&rt, rt.alloc(), IPV6_PACKETS)?;
    Ok(())
}

#[test]
fn chains_of_extension_headers(rt: HostRuntime) -> Result<(), Fail> {
    check(&rt, rt.alloc(), CHAINS)?;
    Ok(())
}
