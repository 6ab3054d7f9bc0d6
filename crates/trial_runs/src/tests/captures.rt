//! The command `meter` on captures.

use super::{AT_1000, AT_1001, FRAME, HEADER, TEMPLATES, TWO_PACKETS_RECORD, check_run, run_by};
use meter_program::Status;
use meter_workers::OpenGate;
use std::alloc::Global;
use std::process::Abort;
use std::test::Fail;
use std::thread::Threads;
use trial_samples::octets_of;

/// The hexadecimal digits of a record with a frame of 42 bytes: UDP over IPv4 from this port of 192.0.2.1 to
/// 192.0.2.2:53.
fn record_of(alloc: Global, second: u32, microsecond: u32, port: u16) -> Result<String, Fail> {
    let (second, microsecond) = (second.swap_bytes(), microsecond.swap_bytes());
    let text = format!(in alloc;
        "{second:08x}{microsecond:08x}2a0000002a00000002000000000202000000000108004500001c0000000040110000c0000201c0000202{port:04x}003500080000"
    )?;
    Ok(text)
}

/// A capture of UDP packets, each with its second, its microsecond and its source port.
fn capture_of(alloc: Global, packets: &[(u32, u32, u16)]) -> Result<Vec<u8>, Fail> {
    let mut text = String::new(alloc);
    for (second, microsecond, port) in packets {
        text.push_str(record_of(alloc, *second, *microsecond, *port)?.as_str())?;
    }
    octets_of(alloc, &[HEADER, text.as_str()])
}

/// Meters a capture, and compares what `show` says of the stream with these lines; `name` tells the capture.
fn check_records<R: Threads + Sync + Abort + AllocGlobal>(
    rt: &R,
    name: &str,
    capture: &[u8],
    lines: &str,
) -> Result<(), Fail> {
    let metered = done_by(rt, name, "meter", capture)?;
    let showed = done_by(rt, name, "show", &metered)?;
    assert_eq!(rt; showed.as_slice(), lines.as_bytes(), "{name}");
    Ok(())
}

/// What a run that ends as it should writes; `name` tells the run.
fn done_by<R: Threads + Sync + Abort + AllocGlobal>(
    rt: &R,
    name: &str,
    line: &str,
    input: &[u8],
) -> Result<Vec<u8>, Fail> {
    let ran = run_by(rt, line, input, &OpenGate)?;
    assert_eq!(rt; ran.status, Status::Done, "{name}");
    Ok(ran.output)
}

/// A side of a flow: an address and a port in hexadecimal.
type End = (&'static str, &'static str);

/// A packet of TCP or UDP over IPv4: its millisecond, protocol, source, destination, octets and TCP flags.
type Sent = (u32, u8, End, End, u16, u16);

/// The hexadecimal digits of the header of a record with such a packet, of which 54 bytes are captured.
fn sent_header(alloc: Global, second: u32, millisecond: u32, octets: u16) -> Result<String, Fail> {
    let second = second.saturating_add(millisecond / 1000).swap_bytes();
    let microsecond = (millisecond % 1000 * 1000).swap_bytes();
    let original = (14 + octets as u32).swap_bytes();
    let text = format!(in alloc; "{second:08x}{microsecond:08x}36000000{original:08x}")?;
    Ok(text)
}

/// The hexadecimal digits of the sides of such a packet.
fn sent_sides(alloc: Global, (source, from): End, (destination, to): End) -> Result<String, Fail> {
    let text = format!(in alloc; "{source}{destination}{from}{to}")?;
    Ok(text)
}

/// The hexadecimal digits of a record with such a packet.
fn sent_record(alloc: Global, second: u32, sent: &Sent) -> Result<String, Fail> {
    let (millisecond, protocol, source, destination, octets, flags) = *sent;
    let mut text = sent_header(alloc, second, millisecond, octets)?;
    let sides = sent_sides(alloc, source, destination)?;
    let bits = flags % 4096 + 0x5000;
    let frame = format!(in alloc;
        "02000000000202000000000108004500{octets:04x}0000000040{protocol:02x}0000{sides}0000000000000000{bits:04x}000000000000"
    )?;
    text.push_str(&frame)?;
    Ok(text)
}

/// A capture of such packets from a second on.
fn exchange_of(alloc: Global, second: u32, packets: &[Sent]) -> Result<Vec<u8>, Fail> {
    let mut text = String::new(alloc);
    for sent in packets {
        text.push_str(sent_record(alloc, second, sent)?.as_str())?;
    }
    octets_of(alloc, &[HEADER, text.as_str()])
}

/// The two sides of a web exchange and of the query before it.
const CLIENT: End = ("0a000005", "9c40");

const SERVER: End = ("c6336407", "0050");

const ASKING: End = ("0a000005", "c350");

const RESOLVER: End = ("0a000001", "0035");

/// Captures with ends of flows: a name, the second of the packets, the packets, and what `show` says of the records.
static ENDS: [(&str, u32, &[Sent], &str); 5] = [
    (
        "a packet behind the end",
        0,
        &[
            (1000, 6, CLIENT, SERVER, 40, 0x002),
            (2000, 6, CLIENT, SERVER, 40, 0x011),
            (3000, 6, CLIENT, SERVER, 40, 0x010),
        ],
        "256 8=10.0.0.5 12=198.51.100.7 7=40000 11=80 4=6 6=19 2=2 1=80 152=1000 153=2000 136=3\n\
        256 8=10.0.0.5 12=198.51.100.7 7=40000 11=80 4=6 6=16 2=1 1=40 152=3000 153=3000 136=4\n",
    ),
    (
        "the end first in the file",
        0,
        &[
            (2000, 6, CLIENT, SERVER, 40, 0x011),
            (1000, 6, CLIENT, SERVER, 40, 0x010),
        ],
        "256 8=10.0.0.5 12=198.51.100.7 7=40000 11=80 4=6 6=17 2=2 1=80 152=1000 153=2000 136=3\n",
    ),
    (
        "the end behind a later packet in the file",
        0,
        &[
            (1000, 6, CLIENT, SERVER, 40, 0x010),
            (3000, 6, CLIENT, SERVER, 40, 0x010),
            (2000, 6, CLIENT, SERVER, 40, 0x011),
        ],
        "256 8=10.0.0.5 12=198.51.100.7 7=40000 11=80 4=6 6=17 2=1 1=40 152=2000 153=2000 136=3\n\
        256 8=10.0.0.5 12=198.51.100.7 7=40000 11=80 4=6 6=16 2=2 1=80 152=1000 153=3000 136=4\n",
    ),
    (
        "a reset",
        0,
        &[
            (1000, 6, CLIENT, SERVER, 40, 0x004),
            (2000, 6, CLIENT, SERVER, 40, 0x010),
        ],
        "256 8=10.0.0.5 12=198.51.100.7 7=40000 11=80 4=6 6=4 2=1 1=40 152=1000 153=1000 136=3\n\
        256 8=10.0.0.5 12=198.51.100.7 7=40000 11=80 4=6 6=16 2=1 1=40 152=2000 153=2000 136=4\n",
    ),
    (
        "the same bits on UDP",
        0,
        &[
            (1000, 17, CLIENT, SERVER, 40, 0x005),
            (2000, 17, CLIENT, SERVER, 40, 0x010),
        ],
        "256 8=10.0.0.5 12=198.51.100.7 7=40000 11=80 4=17 6=0 2=2 1=80 152=1000 153=2000 136=4\n",
    ),
];

#[test]
fn ends_of_flows_cut_records(rt: HostRuntime) -> Result<(), Fail> {
    for (name, second, packets, wanted) in ENDS {
        let capture = exchange_of(rt.alloc(), second, packets)?;
        check_records(&rt, name, capture.as_slice(), wanted)?;
    }
    Ok(())
}

/// A record of such packets: source port, packets, octets, first and last millisecond, and reason.
type Line = (u16, u64, u64, u64, u64, u8);

/// Captures of one flow and of two: a name, the packets by second, microsecond and port, and the records.
static GAPS: [(&str, &[(u32, u32, u16)], &[Line]); 9] = [
    ("no packet", &[], &[]),
    (
        "one second apart",
        &[(1000, 0, 4000), (1001, 0, 4000)],
        &[(4000, 2, 56, 1_000_000, 1_001_000, 4)],
    ),
    (
        "in another order",
        &[(1001, 0, 4000), (1000, 0, 4000)],
        &[(4000, 2, 56, 1_000_000, 1_001_000, 4)],
    ),
    (
        "exactly idle",
        &[(1000, 0, 4000), (1300, 0, 4000)],
        &[(4000, 2, 56, 1_000_000, 1_300_000, 4)],
    ),
    (
        "a millisecond more",
        &[(1000, 0, 4000), (1300, 1000, 4000)],
        &[
            (4000, 1, 28, 1_000_000, 1_000_000, 1),
            (4000, 1, 28, 1_300_001, 1_300_001, 4),
        ],
    ),
    (
        "another flow later",
        &[(1000, 0, 4000), (1301, 0, 4001)],
        &[
            (4000, 1, 28, 1_000_000, 1_000_000, 1),
            (4001, 1, 28, 1_301_000, 1_301_000, 4),
        ],
    ),
    (
        "a bad time",
        &[(1000, 0, 4000), (1001, 1_000_000, 4000)],
        &[(4000, 1, 28, 1_000_000, 1_000_000, 4)],
    ),
    (
        "exactly active",
        &[
            (1000, 0, 4000),
            (1200, 0, 4000),
            (1400, 0, 4000),
            (1600, 0, 4000),
            (1800, 0, 4000),
            (2000, 0, 4000),
            (2200, 0, 4000),
            (2400, 0, 4000),
            (2600, 0, 4000),
            (2800, 0, 4000),
        ],
        &[(4000, 10, 280, 1_000_000, 2_800_000, 4)],
    ),
    (
        "a millisecond more than active",
        &[
            (1000, 0, 4000),
            (1200, 0, 4000),
            (1400, 0, 4000),
            (1600, 0, 4000),
            (1800, 0, 4000),
            (2000, 0, 4000),
            (2200, 0, 4000),
            (2400, 0, 4000),
            (2600, 0, 4000),
            (2800, 1000, 4000),
        ],
        &[
            (4000, 9, 252, 1_000_000, 2_600_000, 2),
            (4000, 1, 28, 2_800_001, 2_800_001, 4),
        ],
    ),
];

/// What `show` says of such records.
fn lines_of(alloc: Global, records: &[Line]) -> Result<String, Fail> {
    let mut text = String::new(alloc);
    for record in records {
        text.push_str(&line_of(alloc, record)?)?;
    }
    Ok(text)
}

/// What it says of one.
fn line_of(alloc: Global, record: &Line) -> Result<String, Fail> {
    let (port, packets, octets, first, last, reason) = record;
    let text = format!(in alloc;
        "256 8=192.0.2.1 12=192.0.2.2 7={port} 11=53 4=17 6=0 2={packets} 1={octets} 152={first} 153={last} 136={reason}\n"
    )?;
    Ok(text)
}

#[test]
fn gaps_and_spans_cut_records(rt: HostRuntime) -> Result<(), Fail> {
    let alloc = rt.alloc();
    for (name, packets, records) in GAPS {
        let capture = capture_of(alloc, packets)?;
        let wanted = lines_of(alloc, records)?;
        check_records(&rt, name, capture.as_slice(), wanted.as_str())?;
    }
    Ok(())
}

/// A capture: its name, its bytes, its export time or none, the messages behind the templates, and the counts of its
/// summary in their order, without those of ignored records where there are none.
type Row = (
    &'static str,
    &'static [&'static str],
    &'static str,
    &'static str,
    &'static str,
);

static ROWS: [Row; 8] = [
    (
        "two packets",
        &[HEADER, AT_1000, FRAME, AT_1001, FRAME],
        "000003e9",
        TWO_PACKETS_RECORD,
        "captured 2\naccepted 2\nnot-ip 0\nshort 0\nbad-header 0\nshort-transport 0\nbad-time 0\noctets 56\nflows 1\nmessages 2\ntail 0\n",
    ),
    (
        "big-endian nanoseconds",
        &[
            "a1b23c4d 0002 0004 00000000 00000000 00040000 00000001",
            "000003e8 00000000 0000002a 0000002a",
            FRAME,
            "000003e9 00000000 0000002a 0000002a",
            FRAME,
        ],
        "000003e9",
        TWO_PACKETS_RECORD,
        "captured 2\naccepted 2\nnot-ip 0\nshort 0\nbad-header 0\nshort-transport 0\nbad-time 0\noctets 56\nflows 1\nmessages 2\ntail 0\n",
    ),
    (
        "no record",
        &[HEADER],
        "00000000",
        "",
        "captured 0\naccepted 0\nnot-ip 0\nshort 0\nbad-header 0\nshort-transport 0\nbad-time 0\noctets 0\nflows 0\nmessages 1\ntail 0\n",
    ),
    (
        "cut five bytes short",
        &[
            HEADER,
            AT_1000,
            FRAME,
            AT_1001,
            "020000000002 020000000001 0800 4500001c 00000000 40110000 c0000201 c0000202 0fa0 00",
        ],
        "000003e8",
        "000a0044 000003e8 00000000 00000001 0100 0034 c0000201 c0000202 0fa0 0035 11 0000 \
        0000000000000001 000000000000001c 00000000000f4240 00000000000f4240 04",
        "captured 1\naccepted 1\nnot-ip 0\nshort 0\nbad-header 0\nshort-transport 0\nbad-time 0\noctets 28\nflows 1\nmessages 2\ntail 53\n",
    ),
    (
        "an offloaded length",
        &[
            HEADER,
            "e8030000 00000000 2a000000 c60b0000",
            "020000000002 020000000001 0800 45000000 00000000 40110000 c0000201 c0000202 0fa0 0035 0008 0000",
        ],
        "000003e8",
        "000a0044 000003e8 00000000 00000001 0100 0034 c0000201 c0000202 0fa0 0035 11 0000 \
        0000000000000001 0000000000000bb8 00000000000f4240 00000000000f4240 04",
        "captured 1\naccepted 1\nnot-ip 0\nshort 0\nbad-header 0\nshort-transport 0\nbad-time 0\noctets 3000\nflows 1\nmessages 2\ntail 0\n",
    ),
    (
        "padding is no transport header",
        &[
            HEADER,
            "e8030000 00000000 3c000000 3c000000",
            "020000000002 020000000001 0800 45000014 00000000 40060000 c0000201 c0000202",
            "0000000000000000000000000000000000000000000000000000",
        ],
        "00000000",
        "",
        "captured 1\naccepted 0\nnot-ip 0\nshort 0\nbad-header 0\nshort-transport 1\nbad-time 0\noctets 0\nflows 0\nmessages 1\ntail 0\n",
    ),
    (
        "a bad time",
        &[
            HEADER,
            AT_1000,
            FRAME,
            "e9030000 40420f00 2a000000 2a000000",
            FRAME,
        ],
        "000003e8",
        "000a0044 000003e8 00000000 00000001 0100 0034 c0000201 c0000202 0fa0 0035 11 0000 \
        0000000000000001 000000000000001c 00000000000f4240 00000000000f4240 04",
        "captured 2\naccepted 1\nnot-ip 0\nshort 0\nbad-header 0\nshort-transport 0\nbad-time 1\noctets 28\nflows 1\nmessages 2\ntail 0\n",
    ),
    (
        "extension headers",
        &[
            "d4c3b2a1 02000400 00000000 00000000 00000400 65000000",
            "05000000 00000000 4c000000 4c000000",
            "60000000 0024 00 40 20010db8000000000000000000000001 20010db8000000000000000000000002",
            "2c00010400000000 0600000000000000 0401 01bb 00000000 00000000 5010 0000 0000 0000",
            "05000000 00000000 3c000000 9c000000",
            "60000000 0074 00 40 20010db8000000000000000000000001 20010db8000000000000000000000002",
            "2c00010400000000 0600000800000000 01020304",
        ],
        "00000005",
        "000a00a4 00000005 00000000 00000001 0101 0094 \
        20010db8000000000000000000000001 20010db8000000000000000000000002 0000 0000 06 0000 \
        0000000000000001 000000000000009c 0000000000001388 0000000000001388 04 \
        20010db8000000000000000000000001 20010db8000000000000000000000002 0401 01bb 06 0010 \
        0000000000000001 000000000000004c 0000000000001388 0000000000001388 04",
        "captured 2\naccepted 2\nnot-ip 0\nshort 0\nbad-header 0\nshort-transport 0\nbad-time 0\noctets 232\nflows 2\nmessages 2\ntail 0\n",
    ),
];

#[test]
fn captures_end_with_these_bytes(rt: HostRuntime) -> Result<(), Fail> {
    let alloc = rt.alloc();
    for (name, capture, time, messages, summary) in ROWS {
        let input = octets_of(alloc, capture)?;
        let wanted = octets_of(alloc, &["000a0074", time, TEMPLATES, messages])?;
        check_run(
            &rt,
            name,
            "meter",
            input.as_slice(),
            (Status::Done, wanted.as_slice(), summary),
        )?;
    }
    Ok(())
}

/// What `meter` refuses: the input, the status and its line.
static REFUSED: [(&str, Status, &str); 4] = [
    ("", Status::NotCapture, "not a capture\n"),
    (
        "d4c3b2a1 02000400 00000000 00000000 00000400 010000",
        Status::NotCapture,
        "not a capture\n",
    ),
    (
        "d4c3b2a1 02000400 00000000 00000000 00000400 69000000",
        Status::LinkUnknown(105),
        "link type 105\n",
    ),
    (
        "d4c3b2a1 02000400 00000000 00000000 00000400 01000000 e8030000 00000000 01000400 01000400",
        Status::Damaged(24),
        "damaged at 24\n",
    ),
];

#[test]
fn other_inputs_are_refused(rt: HostRuntime) -> Result<(), Fail> {
    for (input, status, report) in REFUSED {
        let input = octets_of(rt.alloc(), &[input])?;
        check_run(
            &rt,
            report,
            "meter",
            input.as_slice(),
            (status, b"", report),
        )?;
    }
    Ok(())
}

/// A capture of 29 packets, each of a flow of its own.
fn flows_of_29(alloc: Global) -> Result<Vec<u8>, Fail> {
    let mut packets = Vec::new(alloc);
    for port in 4000..4029u16 {
        packets.push((1000, 0, port))?;
    }
    capture_of(alloc, &packets)
}

/// Octets of the stream of these flows: a message of 1,364 bytes and one of 68, with the sequence numbers 0 and 28.
static FILLED: [(usize, [u8; 4]); 4] = [
    (116, [0x00, 0x0a, 0x05, 0x54]),
    (124, [0, 0, 0, 0]),
    (1480, [0x00, 0x0a, 0x00, 0x44]),
    (1488, [0, 0, 0, 28]),
];

#[test]
fn messages_are_filled(rt: HostRuntime) -> Result<(), Fail> {
    let stream = done_by(&rt, "29 flows", "meter", &flows_of_29(rt.alloc())?)?;
    assert_eq!(rt; stream.len(), 1548);
    for (at, wanted) in FILLED {
        assert_eq!(rt; stream.get(at..at + 4), Some(wanted.as_slice()), "at {at}");
    }
    Ok(())
}

#[test]
fn records_of_two_messages_are_shown(rt: HostRuntime) -> Result<(), Fail> {
    let stream = done_by(&rt, "29 flows", "meter", &flows_of_29(rt.alloc())?)?;
    let showed = run_by(&rt, "show", &stream, &OpenGate)?;
    let lines = showed.output.iter().filter(|byte| **byte == b'\n').count();
    assert_eq!(rt; (showed.status, lines), (Status::Done, 29));
    assert_eq!(rt; showed.stderr.as_slice(), b"records 29\n".as_slice());
    Ok(())
}
