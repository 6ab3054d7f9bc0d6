//! Files made by hand from the format's rules, with the records that they have; the run, its output and its statuses.

use Want::{Bad, Not, Told};
use meter_io::{MemSink, MemSource};
use pcapng_reader::{NotPcapng, PngCapture, PngFault, PngStatus, PngTally, run_png, run_tallied};
use std::alloc::Global;
use std::process::Abort;
use std::test::Fail;

/// The answer that is wanted for a file: its records, as link type, seconds, fraction, original length and captured
/// length; the offset of a bad block; or that it isn't a pcapng file.
#[derive(Clone, Copy)]
enum Want {
    Told(&'static [(u32, u32, u32, u32, usize)]),
    Bad(u64),
    Not,
}

/// A file in pieces, and the answer that is wanted for it.
struct Row {
    pieces: &'static [&'static [u8]],
    want: Want,
}

/// Rows of a table: the pieces of a file, and what is wanted.
macro_rules! files {
    ($([$($piece:expr),*] => $want:expr;)*) => {
        &[$(Row {
            pieces: &[$($piece),*],
            want: $want,
        }),*]
    };
}

/// The fraction of a record without a time.
const NO_TIME: u32 = u32::MAX;

/// A section header, little-endian, 28 octets.
const SECTION: &[u8] =
    b"\x0a\x0d\x0d\x0a\x1c\0\0\0\x4d\x3c\x2b\x1a\x01\0\0\0\xff\xff\xff\xff\xff\xff\xff\xff\x1c\0\0\0";

/// A section header, big-endian.
const BIG: &[u8] =
    b"\x0a\x0d\x0d\x0a\0\0\0\x1c\x1a\x2b\x3c\x4d\0\x01\0\0\xff\xff\xff\xff\xff\xff\xff\xff\0\0\0\x1c";

/// Interfaces without options, 20 octets each: Ethernet, raw IP, Linux cooked, and IEEE 802.11.
const ETHERNET: &[u8] = b"\x01\0\0\0\x14\0\0\0\x01\0\0\0\0\0\x04\0\x14\0\0\0";

const RAW: &[u8] = b"\x01\0\0\0\x14\0\0\0\x65\0\0\0\0\0\x04\0\x14\0\0\0";

const COOKED: &[u8] = b"\x01\0\0\0\x14\0\0\0\x71\0\0\0\0\0\x04\0\x14\0\0\0";

const WIRELESS: &[u8] = b"\x01\0\0\0\x14\0\0\0\x69\0\0\0\0\0\x04\0\x14\0\0\0";

/// An Ethernet interface, big-endian.
const BIG_ETHERNET: &[u8] = b"\0\0\0\x01\0\0\0\x14\0\x01\0\0\0\x04\0\0\0\0\0\x14";

/// The front of an Ethernet interface with 8 octets of options, and its second length; with 12; and with 16.
const WITH_8: &[u8] = b"\x01\0\0\0\x1c\0\0\0\x01\0\0\0\0\0\x04\0";

const END_8: &[u8] = b"\x1c\0\0\0";

const WITH_12: &[u8] = b"\x01\0\0\0\x20\0\0\0\x01\0\0\0\0\0\x04\0";

const END_12: &[u8] = b"\x20\0\0\0";

const WITH_16: &[u8] = b"\x01\0\0\0\x24\0\0\0\x01\0\0\0\0\0\x04\0";

const END_16: &[u8] = b"\x24\0\0\0";

/// Options for the resolution: nanoseconds, and microseconds.
const NANOS: &[u8] = b"\x09\0\x01\0\x09\0\0\0";

const MICROS: &[u8] = b"\x09\0\x01\0\x06\0\0\0";

/// The end of options.
const END: &[u8] = b"\0\0\0\0";

/// The front of enhanced packets of 42 octets on interface 0, 1 and 2, at 1,000,000,000 units.
const PACKET: &[u8] = b"\x06\0\0\0\x4c\0\0\0\0\0\0\0\0\0\0\0\x00\xca\x9a\x3b\x2a\0\0\0\x2a\0\0\0";

const PACKET_ON_1: &[u8] =
    b"\x06\0\0\0\x4c\0\0\0\x01\0\0\0\0\0\0\0\x00\xca\x9a\x3b\x2a\0\0\0\x2a\0\0\0";

const PACKET_ON_2: &[u8] =
    b"\x06\0\0\0\x4c\0\0\0\x02\0\0\0\0\0\0\0\x00\xca\x9a\x3b\x2a\0\0\0\x2a\0\0\0";

/// The same with other times: 2^32 - 1, 2^32, 2^62, and 1,234,567,891 units.
const PACKET_BELOW: &[u8] =
    b"\x06\0\0\0\x4c\0\0\0\0\0\0\0\0\0\0\0\xff\xff\xff\xff\x2a\0\0\0\x2a\0\0\0";

const PACKET_ABOVE: &[u8] = b"\x06\0\0\0\x4c\0\0\0\0\0\0\0\x01\0\0\0\0\0\0\0\x2a\0\0\0\x2a\0\0\0";

const PACKET_LATE: &[u8] = b"\x06\0\0\0\x4c\0\0\0\0\0\0\0\0\0\0\x40\0\0\0\0\x2a\0\0\0\x2a\0\0\0";

const PACKET_ODD: &[u8] =
    b"\x06\0\0\0\x4c\0\0\0\0\0\0\0\0\0\0\0\xd3\x02\x96\x49\x2a\0\0\0\x2a\0\0\0";

/// The same, big-endian.
const BIG_PACKET: &[u8] =
    b"\0\0\0\x06\0\0\0\x4c\0\0\0\0\0\0\0\0\x3b\x9a\xca\x00\0\0\0\x2a\0\0\0\x2a";

const BIG_AFTER: &[u8] = b"\0\0\0\0\0\x4c";

/// A frame of 42 octets: Ethernet, IPv4 with UDP from 192.0.2.1 port 4000 to 192.0.2.2 port 53.
const FRAME: &[u8] =
    b"\x02\0\0\0\0\x02\x02\0\0\0\0\x01\x08\0\x45\0\0\x1c\0\0\0\0\x40\x11\0\0\xc0\0\x02\x01\xc0\0\x02\x02\x0f\xa0\0\x35\0\x08\0\0";

/// What follows the frame in its block: padding, and the second length.
const AFTER: &[u8] = b"\0\0\x4c\0\0\0";

/// A simple packet of 4 octets, of which the original length is 60.
const SIMPLE: &[u8] = b"\x03\0\0\0\x14\0\0\0\x3c\0\0\0\x01\x02\x03\x04\x14\0\0\0";

/// Blocks of another type, with lengths of 12 and 28.
const OTHER: &[u8] = b"\x05\0\0\0\x0c\0\0\0\x0c\0\0\0";

const OTHER_28: &[u8] =
    b"\x0a\0\0\0\x1c\0\0\0\x01\x02\x03\x04\x05\x06\x07\x08\x09\x0a\x0b\x0c\x0d\x0e\x0f\x10\x1c\0\0\0";

/// One packet of the frame at 1000 s.
const ONE: Want = Told(&[(1, 1000, 0, 42, 42)]);

/// Beginnings, sections and lengths of blocks.
const BLOCKS: &[Row] = files! {
    [] => Not;
    [&[0x0a, 0x0d, 0x0d, 0x0a, 0x1c, 0, 0, 0, 0x4d, 0x3c, 0x2b]] => Not;
    [b"\x0a\x0d\x0d\x0b\x1c\0\0\0\x4d\x3c\x2b\x1a"] => Not;
    [b"\x0a\x0d\x0d\x0a\x1c\0\0\0\x4d\x3c\x2b\x1b"] => Not;
    [b"\xd4\xc3\xb2\xa1\x02\0\x04\0\0\0\0\0\0\0\0\0\0\0\x04\0\x01\0\0\0"] => Not;
    // The type, the length and the magic alone are a tail.
    [b"\x0a\x0d\x0d\x0a\x1c\0\0\0\x4d\x3c\x2b\x1a"] => Told(&[]);
    [SECTION] => Told(&[]);
    [BIG] => Told(&[]);
    [SECTION, ETHERNET] => Told(&[]);
    [SECTION, ETHERNET, PACKET, FRAME, AFTER] => ONE;
    [BIG, BIG_ETHERNET, BIG_PACKET, FRAME, BIG_AFTER] => ONE;
    // Sections of both orders, each with interfaces of its own.
    [SECTION, ETHERNET, PACKET, FRAME, AFTER, BIG, BIG_ETHERNET, BIG_PACKET, FRAME, BIG_AFTER] =>
        Told(&[(1, 1000, 0, 42, 42), (1, 1000, 0, 42, 42)]);
    [SECTION, ETHERNET, PACKET, FRAME, AFTER, BIG, BIG_PACKET, FRAME, BIG_AFTER] => Bad(152);
    [SECTION, ETHERNET, SECTION, PACKET, FRAME, AFTER] => Bad(76);
    [SECTION, ETHERNET, SECTION, RAW, PACKET, FRAME, AFTER] => Told(&[(101, 1000, 0, 42, 42)]);
    // A bad length, version and magic of the first section header, and of a later one.
    [b"\x0a\x0d\x0d\x0a\x1d\0\0\0\x4d\x3c\x2b\x1a"] => Bad(0);
    [b"\x0a\x0d\x0d\x0a\x10\0\0\0\x4d\x3c\x2b\x1a\x10\0\0\0"] => Bad(0);
    [b"\x0a\x0d\x0d\x0a\x1c\0\0\0\x4d\x3c\x2b\x1a\x02\0\0\0\xff\xff\xff\xff\xff\xff\xff\xff\x1c\0\0\0"] => Bad(0);
    [b"\x0a\x0d\x0d\x0a\x1c\0\0\0\x4d\x3c\x2b\x1a\x01\0\x09\0\xff\xff\xff\xff\xff\xff\xff\xff\x1c\0\0\0"] => Told(&[]);
    [SECTION, b"\x0a\x0d\x0d\x0a\xff\xff\xff\xff\x4d\x3c\x2b\x00"] => Bad(28);
    [SECTION, b"\x0a\x0d\x0d\x0a\xfc\xff\xff\xff\x4d\x3c\x2b\x1a"] => Told(&[]);
    // Lengths of other blocks: 11, 12, 13, 28, one that differs, one beyond the end, and tails.
    [SECTION, b"\x05\0\0\0\x0b\0\0\0\x0b\0\0\0"] => Bad(28);
    [SECTION, OTHER, ETHERNET, PACKET, FRAME, AFTER] => ONE;
    [SECTION, b"\x05\0\0\0\x0d\0\0\0\x0d\0\0\0\0\0\0\0"] => Bad(28);
    [SECTION, ETHERNET, OTHER_28, PACKET, FRAME, AFTER, OTHER] => ONE;
    [SECTION, OTHER, b"\x05\0\0\0\x0c\0\0\0\x10\0\0\0"] => Bad(40);
    [SECTION, ETHERNET, PACKET, FRAME, AFTER, b"\x05\0\0\0\x10\0\0\0\x10\0\0\0"] => ONE;
    [SECTION, ETHERNET, PACKET, FRAME, AFTER, b"\x05\0\0\0\x0b\0\0\0\x0b\0\0"] => ONE;
    [SECTION, ETHERNET, PACKET, FRAME, AFTER, b"\x02\0\0\0\0\x02\x02\0\0\0\0"] => ONE;
    [SECTION, ETHERNET, PACKET, FRAME] => Told(&[]);
};

/// Interfaces, resolutions, offsets and options.
const INTERFACES: &[Row] = files! {
    [SECTION, ETHERNET, RAW, COOKED, PACKET, FRAME, AFTER, PACKET_ON_2, FRAME, AFTER, PACKET_ON_1, FRAME, AFTER] =>
        Told(&[(1, 1000, 0, 42, 42), (113, 1000, 0, 42, 42), (101, 1000, 0, 42, 42)]);
    [SECTION, WIRELESS, PACKET, FRAME, AFTER] => Told(&[(105, 1000, 0, 42, 42)]);
    [SECTION, ETHERNET, PACKET_ON_1, FRAME, AFTER] => Bad(48);
    // An interface that comes after its packet.
    [SECTION, PACKET, FRAME, AFTER, ETHERNET] => Bad(28);
    [SECTION, b"\x01\0\0\0\x10\0\0\0\x01\0\0\0\x10\0\0\0"] => Bad(28);
    // Resolutions: 10^0, 10^6, 10^9, 10^18, and too many; 2^0, 2^62, and too many.
    [SECTION, WITH_8, b"\x09\0\x01\0\x00\0\0\0", END_8, PACKET, FRAME, AFTER] => Told(&[(1, 1_000_000_000, 0, 42, 42)]);
    [SECTION, WITH_8, MICROS, END_8, PACKET_ODD, FRAME, AFTER] => Told(&[(1, 1234, 567_891_000, 42, 42)]);
    [SECTION, WITH_8, NANOS, END_8, PACKET_ODD, FRAME, AFTER] => Told(&[(1, 1, 234_567_891, 42, 42)]);
    [SECTION, WITH_8, b"\x09\0\x01\0\x12\0\0\0", END_8, PACKET_ODD, FRAME, AFTER] => Told(&[(1, 0, 1, 42, 42)]);
    [SECTION, WITH_8, b"\x09\0\x01\0\x13\0\0\0", END_8] => Bad(28);
    [SECTION, WITH_8, b"\x09\0\x01\0\x7f\0\0\0", END_8] => Bad(28);
    [SECTION, WITH_8, b"\x09\0\x01\0\x80\0\0\0", END_8, PACKET, FRAME, AFTER] => Told(&[(1, 1_000_000_000, 0, 42, 42)]);
    [SECTION, WITH_8, b"\x09\0\x01\0\x8a\0\0\0", END_8, PACKET_ODD, FRAME, AFTER] =>
        Told(&[(1, 1_205_632, 706_054_687, 42, 42)]);
    [SECTION, WITH_8, b"\x09\0\x01\0\xbe\0\0\0", END_8, PACKET_LATE, FRAME, AFTER] => Told(&[(1, 1, 0, 42, 42)]);
    [SECTION, WITH_8, b"\x09\0\x01\0\xbf\0\0\0", END_8] => Bad(28);
    // Seconds at their ends.
    [SECTION, WITH_8, b"\x09\0\x01\0\x00\0\0\0", END_8, PACKET_BELOW, FRAME, AFTER] =>
        Told(&[(1, u32::MAX, 0, 42, 42)]);
    [SECTION, WITH_8, b"\x09\0\x01\0\x00\0\0\0", END_8, PACKET_ABOVE, FRAME, AFTER] => Told(&[(1, 0, NO_TIME, 42, 42)]);
    // Offsets: 1, -1, -1000, -1001, and the least.
    [SECTION, WITH_12, b"\x0e\0\x08\0\x01\0\0\0\0\0\0\0", END_12, PACKET, FRAME, AFTER] =>
        Told(&[(1, 1001, 0, 42, 42)]);
    [SECTION, WITH_12, b"\x0e\0\x08\0\xff\xff\xff\xff\xff\xff\xff\xff", END_12, PACKET, FRAME, AFTER] =>
        Told(&[(1, 999, 0, 42, 42)]);
    [SECTION, WITH_12, b"\x0e\0\x08\0\x18\xfc\xff\xff\xff\xff\xff\xff", END_12, PACKET, FRAME, AFTER] =>
        Told(&[(1, 0, 0, 42, 42)]);
    [SECTION, WITH_12, b"\x0e\0\x08\0\x17\xfc\xff\xff\xff\xff\xff\xff", END_12, PACKET, FRAME, AFTER] =>
        Told(&[(1, 0, NO_TIME, 42, 42)]);
    [SECTION, WITH_12, b"\x0e\0\x08\0\0\0\0\0\0\0\0\x80", END_12, PACKET, FRAME, AFTER] =>
        Told(&[(1, 0, NO_TIME, 42, 42)]);
    // Other lengths of these options, options beyond the end, and the end of options.
    [SECTION, WITH_8, b"\x09\0\x02\0\x09\0\0\0", END_8] => Bad(28);
    [SECTION, WITH_8, b"\x0e\0\x04\0\x01\0\0\0", END_8] => Bad(28);
    [SECTION, WITH_8, b"\x02\0\x05\0\x01\0\0\0", END_8] => Bad(28);
    [SECTION, WITH_8, b"\x02\0\x04\0\x01\0\0\0", END_8, PACKET, FRAME, AFTER] => ONE;
    [SECTION, WITH_8, END, b"\x02\0\xff\0", END_8, PACKET, FRAME, AFTER] => ONE;
    [SECTION, WITH_8, b"\0\0\xff\xff", b"\x02\0\xff\0", END_8, PACKET, FRAME, AFTER] => ONE;
    [SECTION, WITH_12, END, NANOS, END_12, PACKET, FRAME, AFTER] => ONE;
    [SECTION, WITH_12, NANOS, END, END_12, PACKET, FRAME, AFTER] => Told(&[(1, 1, 0, 42, 42)]);
    // Of repeated options the last counts, and each of them must be good.
    [SECTION, WITH_16, NANOS, MICROS, END_16, PACKET, FRAME, AFTER] => ONE;
    [SECTION, WITH_16, MICROS, NANOS, END_16, PACKET, FRAME, AFTER] => Told(&[(1, 1, 0, 42, 42)]);
    [SECTION, WITH_16, b"\x09\0\x01\0\x13\0\0\0", NANOS, END_16] => Bad(28);
};

/// Enhanced and simple packets.
const PACKETS: &[Row] = files! {
    // Lengths around the least, 32, without captured octets.
    [SECTION, ETHERNET, b"\x06\0\0\0\x1c\0\0\0\0\0\0\0\0\0\0\0\0\0\0\0\0\0\0\0\x1c\0\0\0"] => Bad(48);
    [SECTION, ETHERNET, b"\x06\0\0\0\x20\0\0\0\0\0\0\0\0\0\0\0\0\0\0\0\0\0\0\0\x05\0\0\0\x20\0\0\0"] =>
        Told(&[(1, 0, 0, 5, 0)]);
    // One captured octet where there is no room, and four where there is room for four; the original length may be
    // less.
    [SECTION, ETHERNET, b"\x06\0\0\0\x20\0\0\0\0\0\0\0\0\0\0\0\0\0\0\0\x01\0\0\0\x05\0\0\0\x20\0\0\0"] => Bad(48);
    [SECTION, ETHERNET, b"\x06\0\0\0\x24\0\0\0\0\0\0\0\0\0\0\0\0\0\0\0\x01\0\0\0\0\0\0\0\x01\0\0\0\x24\0\0\0"] =>
        Told(&[(1, 0, 0, 0, 1)]);
    [SECTION, ETHERNET, b"\x06\0\0\0\x24\0\0\0\0\0\0\0\0\0\0\0\0\0\0\0\x04\0\0\0\0\0\0\0\x01\0\0\0\x24\0\0\0"] =>
        Told(&[(1, 0, 0, 0, 4)]);
    [SECTION, ETHERNET, b"\x06\0\0\0\x24\0\0\0\0\0\0\0\0\0\0\0\0\0\0\0\x05\0\0\0\0\0\0\0\x01\0\0\0\x24\0\0\0"] =>
        Bad(48);
    [SECTION, ETHERNET, b"\x06\0\0\0\x20\0\0\0\0\0\0\0\0\0\0\0\0\0\0\0\xff\xff\xff\xff\0\0\0\0\x20\0\0\0"] => Bad(48);
    // Simple packets have no time, and need no interface. The least has 16 octets.
    [SECTION, ETHERNET, SIMPLE] => Told(&[(0, 0, NO_TIME, 0, 0)]);
    [SECTION, SIMPLE, ETHERNET, PACKET, FRAME, AFTER] => Told(&[(0, 0, NO_TIME, 0, 0), (1, 1000, 0, 42, 42)]);
    [SECTION, b"\x03\0\0\0\x10\0\0\0\x3c\0\0\0\x10\0\0\0"] => Told(&[(0, 0, NO_TIME, 0, 0)]);
    [SECTION, b"\x03\0\0\0\x0c\0\0\0\x0c\0\0\0"] => Bad(28);
    // A bad block after packets; only the first bad block counts.
    [SECTION, ETHERNET, PACKET, FRAME, AFTER, PACKET_ON_1, FRAME, AFTER, b"\x05\0\0\0\x0b\0\0\0\x0b\0\0\0"] => Bad(124);
};

/// The bytes of the pieces, one behind the other.
fn all_bytes(alloc: Global, pieces: &[&[u8]]) -> Result<Vec<u8>, Fail> {
    let mut all = Vec::new(alloc);
    for piece in pieces {
        all.extend_from_slice(piece)?;
    }
    Ok(all)
}

/// Whether a file gives the answer that is wanted.
fn is_told(rt: &impl Abort, alloc: Global, bytes: &[u8], want: Want) -> bool {
    let Ok(capture) = PngCapture::open(bytes) else {
        return matches!(want, Not);
    };
    assert!(rt; bytes.len() < 1 << 32);
    let index = match capture.index(alloc) {
        Ok(index) => index,
        Err(PngFault::BadBlock(at)) => return matches!(want, Bad(place) if place == at),
        Err(PngFault::NoMemory) => return false,
    };
    let Told(records) = want else {
        return false;
    };
    if index.count() != records.len() as u64 {
        return false;
    }
    for (n, (link, seconds, fraction, original, captured)) in records.iter().enumerate() {
        assert!(rt; (n as u64) < index.count());
        let read = capture.record(&index, n as u64);
        if read.link != *link
            || read.rec.seconds != *seconds
            || read.rec.fraction != *fraction
            || read.rec.original != *original
            || read.rec.captured.len() != *captured
        {
            return false;
        }
    }
    true
}

/// Checks that each file of a table gives the answer that is wanted.
fn check_files(rt: &impl Abort, alloc: Global, rows: &[Row]) -> Result<(), Fail> {
    for (n, row) in rows.iter().enumerate() {
        let file = all_bytes(alloc, row.pieces)?;
        assert!(rt; is_told(rt, alloc, &file, row.want), "row {n}");
    }
    Ok(())
}

#[test]
fn files_have_their_blocks(rt: HostRuntime) -> Result<(), Fail> {
    check_files(&rt, rt.alloc(), BLOCKS)
}

#[test]
fn files_have_their_interfaces(rt: HostRuntime) -> Result<(), Fail> {
    check_files(&rt, rt.alloc(), INTERFACES)
}

#[test]
fn files_have_their_packets(rt: HostRuntime) -> Result<(), Fail> {
    check_files(&rt, rt.alloc(), PACKETS)
}

/// The front of an enhanced packet with 262,144 captured octets, and with one more; the second lengths.
const MOST: &[u8] = b"\x06\0\0\0\x20\0\x04\0\0\0\0\0\0\0\0\0\x00\xca\x9a\x3b\0\0\x04\0\0\0\x04\0";

const AFTER_MOST: &[u8] = b"\x20\0\x04\0";

const MORE: &[u8] =
    b"\x06\0\0\0\x24\0\x04\0\0\0\0\0\0\0\0\0\x00\xca\x9a\x3b\x01\0\x04\0\x01\0\x04\0";

const AFTER_MORE: &[u8] = b"\x24\0\x04\0";

#[test]
fn the_longest_packet(rt: HostRuntime) -> Result<(), Fail> {
    let alloc = rt.alloc();
    let data = vec![in alloc; 0u8; 262_144]?;
    let most = all_bytes(alloc, &[SECTION, ETHERNET, MOST, &data, AFTER_MOST])?;
    assert!(rt; is_told(&rt, alloc, &most, Told(&[(1, 1000, 0, 262_144, 262_144)])));
    Ok(())
}

#[test]
fn a_longer_packet(rt: HostRuntime) -> Result<(), Fail> {
    let alloc = rt.alloc();
    let data = vec![in alloc; 0u8; 262_148]?;
    let more = all_bytes(alloc, &[SECTION, ETHERNET, MORE, &data, AFTER_MORE])?;
    assert!(rt; is_told(&rt, alloc, &more, Bad(48)));
    Ok(())
}

#[test]
fn captured_octets_are_a_part_of_the_file(rt: HostRuntime) -> Result<(), Fail> {
    let alloc = rt.alloc();
    let file = all_bytes(alloc, &[SECTION, ETHERNET, PACKET, FRAME, AFTER])?;
    let capture = PngCapture::open(&file).expect(&rt, "a capture");
    assert!(rt; file.len() < 1 << 32);
    let index = capture.index(alloc).expect(&rt, "an index");
    assert!(rt; 0 < index.count());
    assert_eq!(rt; capture.record(&index, 0).rec.captured, FRAME);
    Ok(())
}

/// The header of the capture that is written.
const HEADER: &[u8] = b"\x4d\x3c\xb2\xa1\x02\0\x04\0\0\0\0\0\0\0\0\0\0\0\x04\0\x65\0\0\0";

/// The record header for the frame, 16 octets, in front of its IP packet.
const WRITTEN: &[u8] = b"\xe8\x03\0\0\0\0\0\0\x1c\0\0\0\x1c\0\0\0";

/// The IP packet of the frame.
const PART: &[u8] =
    b"\x45\0\0\x1c\0\0\0\0\x40\x11\0\0\xc0\0\x02\x01\xc0\0\x02\x02\x0f\xa0\0\x35\0\x08\0\0";

/// A run: its words, the pieces of its input, which reads and which writes fail; its status, and the pieces of what it
/// writes. A read gives 7 bytes at most, and a write takes 5.
struct Run {
    words: &'static [&'static str],
    pieces: &'static [&'static [u8]],
    reads: &'static [u64],
    writes: &'static [u64],
    status: PngStatus,
    written: &'static [&'static [u8]],
}

/// Rows of a table of runs.
macro_rules! runs {
    ($([$($word:expr),*] [$($piece:expr),*] [$($read:expr),*] [$($write:expr),*] => $status:expr,
        [$($out:expr),*];)*) => {
        &[$(Run {
            words: &[$($word),*],
            pieces: &[$($piece),*],
            reads: &[$($read),*],
            writes: &[$($write),*],
            status: $status,
            written: &[$($out),*],
        }),*]
    };
}

/// Runs that are done, runs that refuse, and runs whose write fails.
const RUNS: &[Run] = runs! {
    ["pcapng"] [SECTION, ETHERNET, PACKET, FRAME, AFTER] [] [] => PngStatus::Done, [HEADER, WRITTEN, PART];
    ["pcapng"] [BIG, BIG_ETHERNET, BIG_PACKET, FRAME, BIG_AFTER] [] [] => PngStatus::Done, [HEADER, WRITTEN, PART];
    ["pcapng"] [SECTION] [] [] => PngStatus::Done, [HEADER];
    // A packet of another link and a simple packet are left out.
    ["pcapng"]
        [SECTION, ETHERNET, WIRELESS, PACKET_ON_1, FRAME, AFTER, SIMPLE, PACKET, FRAME, AFTER, PACKET, FRAME, AFTER] []
            [] => PngStatus::Done, [HEADER, WRITTEN, PART, WRITTEN, PART];
    ["pcapng"] [SECTION, ETHERNET, PACKET_ON_1, FRAME, AFTER] [] [] => PngStatus::BadBlock(48), [];
    ["pcapng"] [] [] [] => PngStatus::NotPcapng, [];
    ["pcapng"] [HEADER] [] [] => PngStatus::NotPcapng, [];
    [] [SECTION] [] [] => PngStatus::Usage, [];
    ["meter"] [SECTION] [] [] => PngStatus::Usage, [];
    ["pcapng", "pcapng"] [SECTION] [] [] => PngStatus::Usage, [];
    ["pcapng"] [SECTION] [3] [] => PngStatus::ReadFault, [];
    ["pcapng"] [] [1] [1] => PngStatus::ReadFault, [];
    ["pcapng"] [SECTION] [] [1] => PngStatus::WriteFault, [];
    ["pcapng"] [SECTION, ETHERNET, PACKET, FRAME, AFTER] [] [3] => PngStatus::WriteFault,
        [b"\x4d\x3c\xb2\xa1\x02\0\x04\0\0\0"];
    ["pcapng"] [] [] [1] => PngStatus::NotPcapng, [];
};

/// These words, as a command line has them.
fn command(alloc: Global, words: &[&str]) -> Result<Vec<String>, Fail> {
    let mut command = Vec::new(alloc);
    for word in words {
        command.push(String::from_str(alloc, word)?)?;
    }
    Ok(command)
}

/// How a run over this file ends, and what it writes.
fn run_over(alloc: Global, run: &Run, file: &[u8]) -> Result<(PngStatus, Vec<u8>), Fail> {
    let words = command(alloc, run.words)?;
    let mut input = MemSource::new(file, 7, run.reads);
    let mut output = MemSink::open(alloc, 1 << 20, 5, run.writes)?;
    let status = run_png(alloc, &words, &mut input, &mut output);
    Ok((status, output.held().to_vec(alloc)?))
}

/// Whether a run ends and writes as it should.
fn is_run(alloc: Global, run: &Run) -> Result<bool, Fail> {
    let file = all_bytes(alloc, run.pieces)?;
    let (status, written) = run_over(alloc, run, &file)?;
    Ok(status == run.status && written == all_bytes(alloc, run.written)?)
}

#[test]
fn runs(rt: HostRuntime) -> Result<(), Fail> {
    for (n, run) in RUNS.iter().enumerate() {
        assert!(rt; is_run(rt.alloc(), run)?, "run {n}");
    }
    Ok(())
}

/// A file in pieces, and its tally: blocks, packets, written, not IP, short, bad header, short transport, bad time and
/// tail; and the link types that aren't read, each with its packets.
struct Tallied {
    pieces: &'static [&'static [u8]],
    numbers: [u64; 9],
    unread: &'static [(usize, u64)],
}

/// An Ethernet frame of 42 octets whose IP header has version 6.
const NO_IPV4: &[u8] =
    b"\x02\0\0\0\0\x01\x02\0\0\0\0\x02\x08\0\x65\0\0\x1c\0\0\0\0\x40\x11\0\0\xc0\0\x02\x01\xc0\0\x02\x02\x0f\xa0\0\x35\0\x08\0\0";

/// An Ethernet frame of 42 octets that holds ARP.
const ARP: &[u8] =
    b"\x02\0\0\0\0\x01\x02\0\0\0\0\x02\x08\x06\x45\0\0\x1c\0\0\0\0\x40\x11\0\0\xc0\0\x02\x01\xc0\0\x02\x02\x0f\xa0\0\x35\0\x08\0\0";

const TALLIES: &[Tallied] = &[
    Tallied {
        pieces: &[SECTION],
        numbers: [1, 0, 0, 0, 0, 0, 0, 0, 0],
        unread: &[],
    },
    // A packet of another link, one without a time, one that is written, a block that is skipped, and five bytes.
    Tallied {
        pieces: &[
            SECTION,
            ETHERNET,
            WIRELESS,
            PACKET_ON_1,
            FRAME,
            AFTER,
            SIMPLE,
            PACKET,
            FRAME,
            AFTER,
            OTHER,
            b"\x05\0\0\0\x1c",
        ],
        numbers: [7, 3, 1, 1, 0, 0, 0, 1, 5],
        unread: &[(105, 1)],
    },
    // Of the packets that aren't IP, two have a link type that is read.
    Tallied {
        pieces: &[
            SECTION,
            ETHERNET,
            WIRELESS,
            PACKET,
            ARP,
            AFTER,
            PACKET_ON_1,
            FRAME,
            AFTER,
            PACKET,
            NO_IPV4,
            AFTER,
            PACKET,
            ARP,
            AFTER,
            PACKET_ON_1,
            FRAME,
            AFTER,
        ],
        numbers: [8, 5, 0, 4, 0, 1, 0, 0, 0],
        unread: &[(105, 2)],
    },
];

/// The numbers of a tally.
fn numbers_of(tally: &PngTally) -> [u64; 9] {
    [
        tally.blocks,
        tally.packets,
        tally.written,
        tally.not_ip,
        tally.short,
        tally.bad_header,
        tally.short_transport,
        tally.bad_time,
        tally.tail,
    ]
}

/// Whether the run over a file tells the tally that is wanted.
fn is_tallied(alloc: Global, row: &Tallied) -> Result<bool, Fail> {
    let file = all_bytes(alloc, row.pieces)?;
    let words = command(alloc, &["pcapng"])?;
    let mut input = MemSource::new(&file, 4096, &[]);
    let mut output = MemSink::open(alloc, 1 << 20, 4096, &[])?;
    let Ok(tally) = run_tallied(alloc, &words, &mut input, &mut output) else {
        return Ok(false);
    };
    let others = tally.unread.iter().filter(|packets| **packets > 0).count();
    let counted = row
        .unread
        .iter()
        .all(|(link, packets)| tally.unread.get(*link) == Some(packets));
    Ok(numbers_of(&tally) == row.numbers && others == row.unread.len() && counted)
}

#[test]
fn tallies(rt: HostRuntime) -> Result<(), Fail> {
    for (n, row) in TALLIES.iter().enumerate() {
        assert!(rt; is_tallied(rt.alloc(), row)?, "file {n}");
    }
    Ok(())
}

#[test]
fn exit_statuses(rt: HostRuntime) {
    let table = [
        (PngStatus::Done, 0),
        (PngStatus::ReadFault, 1),
        (PngStatus::Usage, 2),
        (PngStatus::WriteFault, 3),
        (PngStatus::NotPcapng, 4),
        (PngStatus::BadBlock(48), 6),
        (PngStatus::TooLarge, 7),
        (PngStatus::NoMemory, 8),
    ];
    for (status, code) in table {
        assert_eq!(rt; status.code(), code);
    }
}
