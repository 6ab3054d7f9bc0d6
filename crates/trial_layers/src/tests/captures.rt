//! File headers, cuts of a file into records, and fields in both byte orders.

ghost use Rattle.std.specs.Prelude.{◌<◌, ◌^◌, length};
ghost use Rattle.pcap_reader.specs.Views.{file_of};

use capture_input::{FillEnd, Window};
use meter_io::{Failed, MemSource};
use pcap_reader::{Capture, CaptureError, Head, IndexError, Record, RecordIndex};
use std::alloc::Global;
use std::process::Abort;
use std::test::Fail;
use trial_samples::octets_of;

/// A file header: little-endian, microseconds, version 2.4, Ethernet.
const LITTLE: &str = "d4c3b2a1 02000400 00000000 00000000 00000400 01000000";

/// Files that aren't a capture, and captures whose link type isn't read.
static REFUSED: [(&str, CaptureError); 13] = [
    ("", CaptureError::NotCapture),
    (
        "d4c3b2a1 02000400 00000000 00000000 00000400 010000",
        CaptureError::NotCapture,
    ),
    (
        "d4c3b2a2 02000400 00000000 00000000 00000400 01000000",
        CaptureError::NotCapture,
    ),
    (
        "0a0d0d0a 02000400 00000000 00000000 00000400 01000000",
        CaptureError::NotCapture,
    ),
    (
        "a1b2c3d4 02000400 00000000 00000000 00000400 01000000",
        CaptureError::NotCapture,
    ),
    (
        "d4c3b2a1 01000400 00000000 00000000 00000400 01000000",
        CaptureError::NotCapture,
    ),
    (
        "d4c3b2a1 02010400 00000000 00000000 00000400 01000000",
        CaptureError::NotCapture,
    ),
    (
        "d4c3b2a1 02000300 00000000 00000000 00000400 01000000",
        CaptureError::NotCapture,
    ),
    (
        "d4c3b2a1 02000401 00000000 00000000 00000400 01000000",
        CaptureError::NotCapture,
    ),
    (
        "d4c3b2a1 02000400 00000000 00000000 00000400 00000000",
        CaptureError::LinkUnknown(0),
    ),
    (
        "d4c3b2a1 02000400 00000000 00000000 00000400 69000000",
        CaptureError::LinkUnknown(105),
    ),
    (
        "d4c3b2a1 02000400 00000000 00000000 00000400 01000100",
        CaptureError::LinkUnknown(65_537),
    ),
    (
        "d4c3b2a1 02000400 00000000 00000000 00000400 01000014",
        CaptureError::LinkUnknown(335_544_321),
    ),
];

#[test]
fn headers_that_are_refused(rt: HostRuntime) -> Result<(), Fail> {
    for (header, error) in REFUSED {
        let bytes = octets_of(rt.alloc(), &[header])?;
        assert_eq!(rt;
            Capture::open(bytes.as_slice()).err(),
            Some(error),
            "{header}"
        );
    }
    Ok(())
}

/// How many records a capture has and how long its tail is, or why they could not be found.
fn count_records(rt: &impl Abort, alloc: Global, bytes: &[u8]) -> Result<(u64, u64), IndexError> {
    let capture = Capture::open(bytes).expect(rt, "a capture");
    assert!(rt; bytes.len() < 1 << 32);
    let index = capture.index(alloc)?;
    Ok((index.count(), index.tail()))
}

/// A record header: 1000 s, fraction 7, captured length 42, original length 60; little-endian.
const RECORD: &str = "e8030000 07000000 2a000000 3c000000";

/// The 42 captured bytes of this record, and the first 37 of them.
const PACKET: &str =
    "000000000000000000000000000000000000000000000000000000000000000000000000000000000000";

const PACKET_CUT: &str =
    "00000000000000000000000000000000000000000000000000000000000000000000000000";

/// A record header with captured length 0.
const EMPTY: &str = "00000000 00000000 00000000 00000000";

/// Record headers with captured lengths 262,144 and 262,145.
const MOST: &str = "e8030000 00000000 00000400 00000400";

const TOO_MUCH: &str = "e8030000 00000000 01000400 01000400";

/// What stands behind the file header, and how many records the capture has and how long its tail is, or why they could
/// not be found.
static RECORDS: [(&[&str], Result<(u64, u64), IndexError>); 12] = [
    (&[], Ok((0, 0))),
    (&[RECORD, PACKET], Ok((1, 0))),
    (&[RECORD, PACKET, RECORD, PACKET], Ok((2, 0))),
    (&[RECORD, PACKET, RECORD, PACKET_CUT], Ok((1, 53))),
    (&["e8030000 07000000 2a000000 3c0000"], Ok((0, 15))),
    (&[RECORD], Ok((0, 16))),
    (&[EMPTY, EMPTY], Ok((2, 0))),
    (&[TOO_MUCH], Err(IndexError::Damaged(24))),
    (&["e8030000 00000000 01000400 010004"], Ok((0, 15))),
    (
        &[RECORD, PACKET, TOO_MUCH, EMPTY],
        Err(IndexError::Damaged(82)),
    ),
    (
        &[EMPTY, TOO_MUCH, TOO_MUCH, EMPTY],
        Err(IndexError::Damaged(40)),
    ),
    (&[RECORD, TOO_MUCH, TOO_MUCH], Ok((0, 48))),
];

#[test]
fn records_tails_and_damage(rt: HostRuntime) -> Result<(), Fail> {
    for (records, want) in RECORDS {
        let mut file = octets_of(rt.alloc(), &[LITTLE])?;
        file.extend_from_slice(octets_of(rt.alloc(), records)?.as_slice())?;
        assert_eq!(rt; count_records(&rt, rt.alloc(), &file), want, "{records:?}");
    }
    Ok(())
}

#[test]
fn the_longest_record(rt: HostRuntime) -> Result<(), Fail> {
    for (captured, want) in [
        (0, (0, 16)),
        (262_143, (0, 262_159)),
        (262_144, (1, 0)),
        (262_145, (1, 1)),
    ] {
        let mut file = octets_of(rt.alloc(), &[LITTLE, MOST])?;
        file.resize(40 + captured, 0)?;
        assert_eq!(rt;
            count_records(&rt, rt.alloc(), &file),
            Ok(want),
            "{captured} bytes"
        );
    }
    Ok(())
}

/// A record header with the fields 0x01020304, 0x05060708, 3 and 0x090a0b0c in either byte order.
const LITTLE_RECORD: &str = "04030201 08070605 03000000 0c0b0a09";

const BIG_RECORD: &str = "01020304 05060708 00000003 090a0b0c";

/// File headers, a record header in the same byte order, whether fractions are nanoseconds, and the link type.
static ORDERS: [(&str, &str, bool, u32); 4] = [
    (LITTLE, LITTLE_RECORD, false, 1),
    (
        "4d3cb2a1 02000400 00000000 00000000 00000400 01000000",
        LITTLE_RECORD,
        true,
        1,
    ),
    (
        "a1b2c3d4 00020004 00000000 00000000 00040000 00000065",
        BIG_RECORD,
        false,
        101,
    ),
    (
        "a1b23c4d 00020004 00000000 00000000 00040000 00000071",
        BIG_RECORD,
        true,
        113,
    ),
];

/// Checks the fields of a record whose captured part is this.
fn check_record(rt: &impl Abort, read: &Record<'_>, captured: &[u8], header: &str) {
    assert!(rt;
        read.seconds == 0x0102_0304 && read.fraction == 0x0506_0708,
        "{header}"
    );
    assert!(rt;
        read.original == 0x090a_0b0c && read.captured == captured,
        "{header}"
    );
}

/// Checks the two records of a file with this header, and the four octets behind them.
fn check_records(
    rt: &impl Abort,
    alloc: Global,
    capture: &Capture<'_>,
    header: &str,
) -> Result<(), Fail>
    requires { length (file_of capture.now).bytes < 2 ^ 32 }
{
    let index = capture.index(alloc).ok().ok_or("an index")?;
    assert!(rt; index.count() == 2 && index.tail() == 4, "{header}");
    check_record(rt, &capture.record(&index, 0), b"one", header);
    check_record(rt, &capture.record(&index, 1), b"two", header);
    Ok(())
}

#[test]
fn fields_in_either_order(rt: HostRuntime) -> Result<(), Fail> {
    for (header, record, nanos, link) in ORDERS {
        let file = octets_of(
            rt.alloc(),
            &[header, record, "6f6e65", record, "74776f", "7461696c"],
        )?;
        let capture = Capture::open(&file).ok().ok_or("a capture")?;
        assert!(rt;
            capture.nanos() == nanos && capture.link().number() == link,
            "{header}"
        );
        assert!(rt; file.len() < 1 << 32);
        check_records(&rt, rt.alloc(), &capture, header)?;
    }
    Ok(())
}

/// How a window of 262,184 bytes is filled from `count` bytes, and how many it then has.
fn fill_window(
    alloc: Global,
    count: usize,
    most: u64,
    piece: usize,
    fails: u64,
) -> Result<(Result<FillEnd, Failed>, usize), Fail>
    requires { 0 < piece }
{
    let bytes = vec![in alloc; 7u8; count]?;
    let fails = [fails];
    let mut source = MemSource::new(&bytes, piece, fails.as_slice());
    let mut window = Window::open(alloc, 262_184)?;
    let end = window.fill(&mut source, most);
    Ok((end, window.bytes().len()))
}

#[test]
fn what_ends_the_filling_of_a_window(rt: HostRuntime) -> Result<(), Fail> {
    let table = [
        (0, 10, 4, 0, Ok(FillEnd::Ended), 0),
        (10, 10, 4, 0, Ok(FillEnd::Spent), 10),
        (10, 11, 4, 0, Ok(FillEnd::Ended), 10),
        (10, 0, 4, 0, Ok(FillEnd::Spent), 0),
        (10, 10, 4, 2, Err(Failed), 4),
        (262_184, 262_184, 300_000, 0, Ok(FillEnd::Spent), 262_184),
        (262_184, 262_185, 300_000, 0, Ok(FillEnd::Full), 262_184),
        (262_183, 262_185, 300_000, 0, Ok(FillEnd::Ended), 262_183),
        (300_000, 300_000, 65_536, 0, Ok(FillEnd::Full), 262_184),
        (300_000, 300_000, 65_536, 3, Err(Failed), 131_072),
    ];
    for (count, most, piece, fails, end, len) in table {
        assert!(rt; piece > 0);
        let got = fill_window(rt.alloc(), count, most, piece, fails)?;
        assert_eq!(rt; got, (end, len), "{count} bytes, at most {most}");
    }
    Ok(())
}

/// Reads a part of one record with 42 captured octets and a tail so long, and gives the index back.
fn read_part(
    rt: &impl Abort,
    part: Capture<'_>,
    index: RecordIndex,
    tail: u64,
) -> Result<RecordIndex, Fail>
    requires { length (file_of part).bytes < 2 ^ 32 }
{
    let index = part.index_into(index).ok().ok_or("an index")?;
    assert!(rt; index.count() == 1 && index.tail() == tail);
    assert!(rt; part.record(&index, 0).captured == [0; 42].as_slice());
    Ok(index)
}

#[test]
fn two_parts_of_a_capture(rt: HostRuntime) -> Result<(), Fail> {
    let alloc = rt.alloc();
    // The first part ends within the second record's header, at octet 89.
    let file = octets_of(alloc, &[LITTLE, RECORD, PACKET, RECORD, PACKET, "7461696c"])?;
    let mut source = MemSource::new(&file, 1000, &[]);
    let mut window = Window::open(alloc, 262_184)?;
    assert!(rt; window.fill(&mut source, 89) == Ok(FillEnd::Spent));
    let head = Head::of(window.bytes()).ok().ok_or("a file header")?;
    assert!(rt; window.bytes().len() >= 24);
    window.keep(24);
    let mut index = RecordIndex::with_room(alloc, 262_184)?;
    for tail in [7, 4] {
        assert!(rt; window.bytes().len() == 58 + tail as usize);
        index = read_part(&rt, Capture::part(head, window.bytes()), index, tail)?;
        window.keep(58);
        assert!(rt; window.fill(&mut source, 55).is_ok());
    }
    Ok(())
}

#[test]
fn a_window_in_memory_that_goes_round(rt: HostRuntime) -> Result<(), Fail> {
    let alloc = rt.alloc();
    let first = vec![in alloc; 7u8; 262_184]?;
    let mut window = Window::over(first, b"cut");
    assert_eq!(rt; window.bytes(), b"cut".as_slice());
    let mut source = MemSource::new(b"whole and cut", 4, &[]);
    assert_eq!(rt; window.fill(&mut source, 100), Ok(FillEnd::Ended));
    assert_eq!(rt; window.bytes(), b"cutwhole and cut".as_slice());
    assert!(rt; window.bytes().len() >= 13);
    let front = window.into_front(13);
    assert_eq!(rt; front.as_slice(), b"cutwhole and ".as_slice());
    Ok(())
}
