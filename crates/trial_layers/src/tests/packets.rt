//! Records of captures that are made byte by byte, with the answers that the tables of the formats give.

ghost use Rattle.std.specs.Prelude.{◌<◌, ◌^◌, length};
ghost use Rattle.pcap_reader.specs.Views.{file_of};

use Ignored::{BadHeader, BadTime, NotIp, Short, ShortTransport};
use Kind::{BigMicros, BigNanos, LittleMicros, LittleNanos};
use Want::{Gives, No};
use flow_key::FlowKey;
use packet_accept::{Ignored, Packet, accept};
use pcap_reader::Capture;
use std::alloc::{AllocError, Global};
use std::process::Abort;
use std::test::Fail;
use trial_samples::frames::{
    ARP, COOKED, ETHERNET, IPV4, UDP, V4_ADDRESSES, V4_UDP, V6, V6_ADDRESSES, ZEROS,
};

/// The order of bytes in a capture, and the unit of its fractions.
#[derive(Clone, Copy)]
enum Kind {
    LittleMicros,
    BigMicros,
    LittleNanos,
    BigNanos,
}

/// The answer that is wanted for a record.
#[derive(Clone, Copy)]
enum Want {
    No(Ignored),
    /// The version, the protocol, the ports, the time, the octets and the flags of a packet. Its addresses
    /// are those of all frames of this file.
    Gives(u8, u8, u16, u16, u64, u32, u16),
}

/// A record of a capture, with its frame in pieces, and the answer that is wanted for it.
struct Row {
    kind: Kind,
    link: u32,
    seconds: u32,
    fraction: u32,
    frame: &'static [&'static [u8]],
    captured: u32,
    original: u32,
    want: Want,
}

/// Rows of a table: the capture's kind and link type, the seconds and the fraction, the frame in pieces, how
/// many octets of it are captured of how many original ones, and what is wanted.
macro_rules! records {
    ($($kind:ident $link:literal at $seconds:literal,
        $fraction:literal [$($piece:expr),*] $captured:literal of $original:literal => $want:expr;)*) => {
        &[$(Row {
            kind: $kind,
            link: $link,
            seconds: $seconds,
            fraction: $fraction,
            frame: &[$($piece),*],
            captured: $captured,
            original: $original,
            want: $want,
        }),*]
    };
}

/// A customer VLAN tag.
const TAG: &[u8] = b"\x81\0\0\x05";

/// An IPv4 header as [`V4_UDP`], but with a total length of 0, as offloading leaves it.
const V4_OFFLOADED: &[u8] = b"\x45\0\0\0\0\0\0\0\x40\x11\0\0\xc0\0\x02\x01\xc0\0\x02\x02";

/// TCP from port 1025 to port 443, a header of 20 octets with the control bits 0x010.
const TCP: &[u8] = b"\x04\x01\x01\xbb\0\0\0\x01\0\0\0\0\x50\x10\0\0\0\0\0\0";

const TIMES: &[Row] = records! {
    LittleMicros 1 at 1000, 0 [ETHERNET, IPV4, V4_UDP, UDP] 42 of 42 => Gives(4, 17, 4000, 53, 1_000_000, 28, 0);
    LittleMicros 1 at 1000, 999 [ETHERNET, IPV4, V4_UDP, UDP] 42 of 42 => Gives(4, 17, 4000, 53, 1_000_000, 28, 0);
    LittleMicros 1 at 1000, 1000 [ETHERNET, IPV4, V4_UDP, UDP] 42 of 42 => Gives(4, 17, 4000, 53, 1_000_001, 28, 0);
    BigMicros 1 at 1000, 999_999 [ETHERNET, IPV4, V4_UDP, UDP] 42 of 42 => Gives(4, 17, 4000, 53, 1_000_999, 28, 0);
    LittleMicros 1 at 1000, 1_000_000 [ETHERNET, IPV4, V4_UDP, UDP] 42 of 42 => No(BadTime);
    LittleMicros 1 at 4_294_967_295, 999_999 [ETHERNET, IPV4, V4_UDP, UDP] 42 of 42 =>
        Gives(4, 17, 4000, 53, 4_294_967_295_999, 28, 0);
    LittleMicros 1 at 0, 4_294_967_295 [ETHERNET, IPV4, V4_UDP, UDP] 42 of 42 => No(BadTime);
    BigNanos 1 at 1000, 0 [ETHERNET, IPV4, V4_UDP, UDP] 42 of 42 => Gives(4, 17, 4000, 53, 1_000_000, 28, 0);
    BigNanos 1 at 1000, 999_999 [ETHERNET, IPV4, V4_UDP, UDP] 42 of 42 => Gives(4, 17, 4000, 53, 1_000_000, 28, 0);
    LittleNanos 1 at 1000, 1_000_000 [ETHERNET, IPV4, V4_UDP, UDP] 42 of 42 => Gives(4, 17, 4000, 53, 1_000_001, 28, 0);
    LittleNanos 1 at 1000, 999_999_999 [ETHERNET, IPV4, V4_UDP, UDP] 42 of 42 =>
        Gives(4, 17, 4000, 53, 1_000_999, 28, 0);
    BigNanos 1 at 1000, 1_000_000_000 [ETHERNET, IPV4, V4_UDP, UDP] 42 of 42 => No(BadTime);
};

const CAUSES: &[Row] = records! {
    // The time is looked at first, then the link part, the IP header and the transport header.
    LittleMicros 1 at 1000, 1_000_000 [ETHERNET, IPV4, V4_UDP, UDP] 13 of 42 => No(BadTime);
    LittleMicros 1 at 1000, 1_000_000 [ETHERNET, ARP, V4_UDP, UDP] 42 of 42 => No(BadTime);
    LittleMicros 1 at 1000, 0 [ETHERNET, IPV4, V4_UDP, UDP] 0 of 42 => No(Short);
    LittleMicros 1 at 1000, 0 [ETHERNET, ARP, V4_UDP, UDP] 13 of 42 => No(Short);
    LittleMicros 1 at 1000, 0 [ETHERNET, ARP, V4_UDP, UDP] 14 of 42 => No(NotIp);
    LittleMicros 1 at 1000, 0 [ETHERNET, TAG, TAG, TAG] 24 of 64 => No(NotIp);
    LittleMicros 1 at 1000, 0 [ETHERNET, IPV4, V4_UDP, UDP] 33 of 42 => No(Short);
    LittleMicros 1 at 1000, 0 [ETHERNET, IPV4, V6, V4_UDP] 38 of 42 => No(BadHeader);
    LittleMicros 101 at 1000, 0 [b"\x44\0\0\x1c\0\0\0\0\x40\x11\0\0", V4_ADDRESSES] 20 of 28 => No(BadHeader);
    LittleMicros 101 at 1000, 0 [b"\x50"] 1 of 28 => No(NotIp);
    LittleMicros 1 at 1000, 0 [ETHERNET, IPV4, V4_UDP, UDP] 37 of 42 => No(ShortTransport);
    LittleMicros 1 at 1000, 0 [ETHERNET, IPV4, b"\x45\0\0\x14\0\0\0\0\x40\x06\0\0", V4_ADDRESSES, ZEROS] 60 of 60 =>
        No(ShortTransport);
    LittleMicros 101 at 1000, 0 [b"\x45\0\0\x28\0\0\0\0\x40\x06\0\0", V4_ADDRESSES, TCP] 33 of 40 => No(ShortTransport);
};

const PACKETS: &[Row] = records! {
    LittleMicros 101 at 1000, 0 [V4_UDP, UDP] 28 of 28 => Gives(4, 17, 4000, 53, 1_000_000, 28, 0);
    LittleMicros 113 at 1000, 0 [COOKED, IPV4, V4_UDP, UDP] 44 of 44 => Gives(4, 17, 4000, 53, 1_000_000, 28, 0);
    LittleMicros 1 at 1000, 0 [ETHERNET, TAG, TAG, IPV4, V4_UDP, UDP] 50 of 50 =>
        Gives(4, 17, 4000, 53, 1_000_000, 28, 0);
    LittleMicros 1 at 1000, 0 [ETHERNET, IPV4, V4_UDP, UDP] 38 of 42 => Gives(4, 17, 4000, 53, 1_000_000, 28, 0);
    LittleMicros 101 at 1000, 0 [b"\x45\0\0\x28\0\0\0\0\x40\x06\0\0", V4_ADDRESSES, TCP] 34 of 40 =>
        Gives(4, 6, 1025, 443, 1_000_000, 40, 16);
    // No ports: another protocol, and a fragment other than the first.
    LittleMicros 101 at 1000, 0 [b"\x45\0\0\x1c\0\0\0\0\x40\x01\0\0", V4_ADDRESSES, UDP] 28 of 28 =>
        Gives(4, 1, 0, 0, 1_000_000, 28, 0);
    LittleMicros 101 at 1000, 0 [b"\x45\0\0\x14\0\0\0\x01\x40\x06\0\0", V4_ADDRESSES] 20 of 20 =>
        Gives(4, 6, 0, 0, 1_000_000, 20, 0);
    // A total length of 0: what the link part leaves of the original length.
    LittleMicros 1 at 1000, 0 [ETHERNET, IPV4, V4_OFFLOADED, UDP] 42 of 3014 =>
        Gives(4, 17, 4000, 53, 1_000_000, 3000, 0);
    LittleMicros 113 at 1000, 0 [COOKED, IPV4, V4_OFFLOADED, UDP] 44 of 3016 =>
        Gives(4, 17, 4000, 53, 1_000_000, 3000, 0);
    LittleMicros 101 at 1000, 0 [V4_OFFLOADED, UDP] 28 of 3000 => Gives(4, 17, 4000, 53, 1_000_000, 3000, 0);
    LittleMicros 1 at 1000, 0 [ETHERNET, IPV4, b"\x45\0\0\0\0\0\0\0\x40\x01\0\0", V4_ADDRESSES] 34 of 3 =>
        Gives(4, 1, 0, 0, 1_000_000, 20, 0);
    LittleMicros 1 at 1000, 0 [ETHERNET, IPV4, V4_OFFLOADED, UDP] 42 of 16_777_229 =>
        Gives(4, 17, 4000, 53, 1_000_000, 16_777_215, 0);
    LittleMicros 1 at 1000, 0 [ETHERNET, IPV4, V4_OFFLOADED, UDP] 42 of 16_777_230 => No(BadHeader);
    // Two IPv6 packets behind a hop-by-hop and a fragment header: a first and a later fragment.
    LittleMicros 101 at 5,
        0 [V6, b"\0\x24\0\x40", V6_ADDRESSES, b"\x2c\0\x01\x04\0\0\0\0", b"\x06\0\0\x01\0\0\0\x09", TCP] 76 of 76 =>
            Gives(6, 6, 1025, 443, 5000, 76, 16);
    LittleMicros 101 at 5,
        0 [V6, b"\0\x74\0\x40", V6_ADDRESSES, b"\x2c\0\x01\x04\0\0\0\0", b"\x06\0\0\x20\0\0\0\x09", ZEROS, ZEROS, ZEROS,
            ZEROS] 156 of 156 => Gives(6, 6, 0, 0, 5000, 156, 0);
};

/// The magic number of a capture.
fn magic_of(kind: Kind) -> &'static [u8] {
    match kind {
        LittleMicros => b"\xd4\xc3\xb2\xa1",
        BigMicros => b"\xa1\xb2\xc3\xd4",
        LittleNanos => b"\x4d\x3c\xb2\xa1",
        BigNanos => b"\xa1\xb2\x3c\x4d",
    }
}

/// The four bytes of a field.
fn field(kind: Kind, number: u32) -> [u8; 4] {
    match kind {
        LittleMicros | LittleNanos => number.to_le_bytes(),
        BigMicros | BigNanos => number.to_be_bytes(),
    }
}

/// The file header of a row's capture.
fn put_header(file: &mut Vec<u8>, row: &Row) -> Result<(), AllocError> {
    file.extend_from_slice(magic_of(row.kind))?;
    match row.kind {
        LittleMicros | LittleNanos => file.extend_from_slice(b"\x02\0\x04\0")?,
        BigMicros | BigNanos => file.extend_from_slice(b"\0\x02\0\x04")?,
    }
    file.extend_from_slice(&[0; 12])?;
    file.extend_from_slice(&field(row.kind, row.link))
}

/// A row's record.
fn put_record(alloc: Global, file: &mut Vec<u8>, row: &Row) -> Result<(), AllocError> {
    let numbers = [row.seconds, row.fraction, row.captured, row.original];
    for number in numbers {
        file.extend_from_slice(&field(row.kind, number))?;
    }
    let mut frame = Vec::new(alloc);
    for piece in row.frame {
        frame.extend_from_slice(piece)?;
    }
    frame.truncate(row.captured as usize);
    file.extend_from_slice(frame.as_slice())
}

/// The answer that is wanted of a record with this number.
fn wanted_answer(want: Want, number: u64) -> Result<Packet, Ignored> {
    let (version, protocol, source_port, destination_port, time, octets, flags) = match want {
        No(cause) => return Err(cause),
        Gives(v, p, s, d, time, octets, flags) => (v, p, s, d, time, octets, flags),
    };
    let key = if version == 4 {
        FlowKey {
            version: 4,
            source: 0xc000_0201,
            destination: 0xc000_0202,
            protocol,
            source_port,
            destination_port,
        }
    } else {
        FlowKey {
            version: 6,
            source: 0x2001_0db8_0000_0000_0000_0000_0000_0001,
            destination: 0x2001_0db8_0000_0000_0000_0000_0000_0002,
            protocol,
            source_port,
            destination_port,
        }
    };
    Ok(Packet {
        number,
        key,
        time,
        octets,
        flags,
    })
}

/// Reads each row's record out of a capture of two records, the row's own twice.
fn check(rt: &impl Abort, alloc: Global, rows: &[Row]) -> Result<(), Fail> {
    for (place, row) in rows.iter().enumerate() {
        let mut file = Vec::new(alloc);
        put_header(&mut file, row)?;
        put_record(alloc, &mut file, row)?;
        put_record(alloc, &mut file, row)?;
        assert!(rt; file.len() < 1 << 32);
        let capture = Capture::open(file.as_slice()).ok().ok_or("a capture")?;
        let index = capture.index(alloc).ok().ok_or("an index")?;
        assert!(rt; index.count() == 2, "record {place}");
        for n in 0..2 {
            let record = capture.record(&index, n);
            let answer = accept(&capture, &record, n);
            assert!(rt; answer == wanted_answer(row.want, n), "record {place}");
        }
    }
    Ok(())
}

#[test]
fn times(rt: HostRuntime) -> Result<(), Fail> {
    check(&rt, rt.alloc(), TIMES)
}

#[test]
fn causes_in_their_order(rt: HostRuntime) -> Result<(), Fail> {
    check(&rt, rt.alloc(), CAUSES)
}

#[test]
fn packets(rt: HostRuntime) -> Result<(), Fail> {
    check(&rt, rt.alloc(), PACKETS)
}

/// Two records of one flow, a second apart, as the bytes of a whole file.
static TWO: [&[u8]; 9] = [
    b"\xd4\xc3\xb2\xa1\x02\0\x04\0\0\0\0\0\0\0\0\0\0\0\x04\0\x01\0\0\0",
    b"\xe8\x03\0\0\0\0\0\0\x2a\0\0\0\x2a\0\0\0",
    ETHERNET,
    b"\x08\0\x45\0\0\x1c\0\0\0\0\x40\x11\0\0\xc0\0\x02\x01\xc0\0\x02\x02",
    UDP,
    b"\xe9\x03\0\0\0\0\0\0\x2a\0\0\0\x2a\0\0\0",
    ETHERNET,
    b"\x08\0\x45\0\0\x1c\0\0\0\0\x40\x11\0\0\xc0\0\x02\x01\xc0\0\x02\x02",
    UDP,
];

#[test]
fn two_packets_of_a_flow(rt: HostRuntime) -> Result<(), Fail> {
    let alloc = rt.alloc();
    let mut file = Vec::new(alloc);
    for part in TWO {
        file.extend_from_slice(part)?;
    }
    assert!(rt; file.len() < 1 << 32);
    let capture = Capture::open(file.as_slice()).ok().ok_or("a capture")?;
    check_two(&rt, alloc, &capture)
}

/// Checks the packets of its two records, a second apart.
fn check_two(rt: &impl Abort, alloc: Global, capture: &Capture<'_>) -> Result<(), Fail>
    requires { length (file_of capture.now).bytes < 2 ^ 32 }
{
    let index = capture.index(alloc).ok().ok_or("an index")?;
    assert!(rt; index.count() == 2);
    for n in 0..2 {
        let record = capture.record(&index, n);
        let want = Gives(4, 17, 4000, 53, 1_000_000 + 1000 * n, 28, 0);
        assert!(rt; accept(capture, &record, n) == wanted_answer(want, n));
    }
    Ok(())
}

#[test]
fn packets_that_end_their_flow(rt: HostRuntime) {
    for (protocol, flags, ends) in [
        (6, 0x001, true),
        (6, 0x004, true),
        (6, 0x005, true),
        (6, 0x011, true),
        (6, 0xfff, true),
        (6, 0x002, false),
        (6, 0xffa, false),
        (6, 0, false),
        (17, 0x001, false),
        (7, 0x005, false),
        (0, 0x005, false),
    ] {
        let packet = Packet {
            number: 0,
            key: FlowKey {
                version: 4,
                source: 1,
                destination: 2,
                protocol,
                source_port: 3,
                destination_port: 4,
            },
            time: 0,
            octets: 20,
            flags,
        };
        assert!(rt; packet.ends() == ends, "protocol {protocol}, flags {flags}");
    }
}
