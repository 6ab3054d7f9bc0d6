//! The packets of two captures, each packet in a stream of its own, joined in every division into two halves.

use super::{TEMPLATES, join, stream_of_one};
use crate::files::Held;
use std::alloc::Global;
use std::process::Abort;
use std::test::Fail;
use std::thread::Threads;
use trial_samples::octets_of;

/// A capture, by what is written for it.
struct Capture {
    /// The export time.
    time: &'static str,
    /// A name for each packet, and the record of it alone.
    packets: &'static [(&'static str, &'static str)],
    /// The version and the length of the message of all records.
    length: &'static str,
    /// Behind its export time: the rest of its header, and the header of its set.
    set: &'static str,
    /// All records.
    records: &'static [&'static str],
}

/// The packets of a web exchange, and the query before it.
const EXCHANGE: &[(&str, &str)] = &[
    (
        "1",
        "0a000005 0a000001 c350 0035 11 0000 0000000000000001 000000000000003c 0000018bcfe5680a 0000018bcfe5680a 04",
    ),
    (
        "2",
        "0a000001 0a000005 0035 c350 11 0000 0000000000000001 000000000000004c 0000018bcfe56819 0000018bcfe56819 04",
    ),
    (
        "3",
        "0a000005 c6336407 9c40 0050 06 0002 0000000000000001 000000000000003c 0000018bcfe5681e 0000018bcfe5681e 04",
    ),
    (
        "4",
        "c6336407 0a000005 0050 9c40 06 0012 0000000000000001 000000000000003c 0000018bcfe56832 0000018bcfe56832 04",
    ),
    (
        "5",
        "0a000005 c6336407 9c40 0050 06 0010 0000000000000001 0000000000000034 0000018bcfe56833 0000018bcfe56833 04",
    ),
    (
        "6",
        "0a000005 c6336407 9c40 0050 06 0018 0000000000000001 0000000000000098 0000018bcfe56834 0000018bcfe56834 04",
    ),
    (
        "7",
        "c6336407 0a000005 0050 9c40 06 0010 0000000000000001 0000000000000034 0000018bcfe56848 0000018bcfe56848 04",
    ),
    (
        "8",
        "c6336407 0a000005 0050 9c40 06 0018 0000000000000001 00000000000005dc 0000018bcfe56850 0000018bcfe56850 04",
    ),
    (
        "9",
        "0a000005 c6336407 9c40 0050 06 0004 0000000000000001 0000000000000028 0000018bcfe5685a 0000018bcfe5685a 03",
    ),
];

/// The flow records of these packets.
const FLOWS: &[&str] = &[
    "0a000005 0a000001 c350 0035 11 0000 0000000000000001 000000000000003c 0000018bcfe5680a 0000018bcfe5680a 04",
    "0a000001 0a000005 0035 c350 11 0000 0000000000000001 000000000000004c 0000018bcfe56819 0000018bcfe56819 04",
    "c6336407 0a000005 0050 9c40 06 001a 0000000000000003 000000000000064c 0000018bcfe56832 0000018bcfe56850 04",
    "0a000005 c6336407 9c40 0050 06 001e 0000000000000004 0000000000000130 0000018bcfe5681e 0000018bcfe5685a 03",
];

/// Two packets a second apart.
const APART: &[(&str, &str)] = &[
    (
        "1",
        "c0000201 c0000202 0fa0 0035 11 0000 0000000000000001 000000000000001c 00000000000f4240 00000000000f4240 04",
    ),
    (
        "2",
        "c0000201 c0000202 0fa0 0035 11 0000 0000000000000001 000000000000001c 00000000000f4628 00000000000f4628 04",
    ),
];

/// The flow record of these packets.
const FLOW: &[&str] = &[
    "c0000201 c0000202 0fa0 0035 11 0000 0000000000000002 0000000000000038 00000000000f4240 00000000000f4628 04",
];

static CAPTURES: [Capture; 2] = [
    Capture {
        time: "6553f100",
        packets: EXCHANGE,
        length: "000a00d4",
        set: "00000000 00000001 0100 00c4",
        records: FLOWS,
    },
    Capture {
        time: "000003e9",
        packets: APART,
        length: "000a0044",
        set: "00000000 00000001 0100 0034",
        records: FLOW,
    },
];

/// A stream for each packet, and one without a record.
fn streams_of(
    alloc: Global,
    time: &str,
    packets: &[(&'static str, &str)],
) -> Result<Vec<Held>, Fail> {
    let mut files = Vec::new(alloc);
    for (name, record) in packets {
        let bytes = stream_of_one(alloc, time, record)?;
        files.push(Held {
            name: *name,
            bytes,
            fails: &[],
        })?;
    }
    let bytes = octets_of(alloc, &["000a0074 00000000", TEMPLATES])?;
    files.push(Held {
        name: "none",
        bytes,
        fails: &[],
    })?;
    Ok(files)
}

/// The stream of all packets.
fn whole_of(alloc: Global, capture: &Capture) -> Result<Vec<u8>, Fail> {
    let time = capture.time;
    let beginning = [
        "000a0074",
        time,
        TEMPLATES,
        capture.length,
        time,
        capture.set,
    ];
    let mut stream = octets_of(alloc, beginning.as_slice())?;
    stream.extend_from_slice(octets_of(alloc, capture.records)?.as_slice())?;
    Ok(stream)
}

/// The command line that joins the streams of one half: of packet k where bit k of `half` is `bit`.
fn line_of(
    alloc: Global,
    packets: &[(&'static str, &str)],
    half: u32,
    bit: u32,
) -> Result<String, Fail> {
    let mut line = String::from_str(alloc, "join none")?;
    let mut rest = half;
    for (name, _) in packets {
        if rest % 2 == bit {
            line.push_str(" ")?;
            line.push_str(name)?;
        }
        rest /= 2;
    }
    Ok(line)
}

#[test]
fn a_file_for_each_packet(rt: HostRuntime) -> Result<(), Fail> {
    let alloc = rt.alloc();
    for capture in &CAPTURES {
        let files = streams_of(alloc, capture.time, capture.packets)?;
        let line = line_of(alloc, capture.packets, 0, 0)?;
        let ran = join(&rt, alloc, line.as_str(), files.as_slice())?;
        assert_eq!(rt; (ran.status, ran.stderr.len()), (0, 0), "{line}");
        assert_eq!(rt;
            ran.output.as_slice(),
            whole_of(alloc, capture)?.as_slice(),
            "{line}"
        );
    }
    Ok(())
}

/// Joins the streams of each half of the packets, and then the two streams that come of it.
fn check_half(
    rt: &(impl Abort + Threads + Sync),
    alloc: Global,
    capture: &Capture,
    files: &[Held],
    half: u32,
) -> Result<(), Fail> {
    let first = join(
        rt,
        alloc,
        line_of(alloc, capture.packets, half, 0)?.as_str(),
        files,
    )?;
    let second = join(
        rt,
        alloc,
        line_of(alloc, capture.packets, half, 1)?.as_str(),
        files,
    )?;
    assert_eq!(rt; (first.status, second.status), (0, 0), "half {half}");
    let mut halves = Vec::new(alloc);
    halves.push(Held {
        name: "first",
        bytes: first.output,
        fails: &[],
    })?;
    halves.push(Held {
        name: "second",
        bytes: second.output,
        fails: &[],
    })?;
    let ran = join(rt, alloc, "join first second", halves.as_slice())?;
    assert_eq!(rt; ran.status, 0, "half {half}");
    assert_eq!(rt;
        ran.output.as_slice(),
        whole_of(alloc, capture)?.as_slice(),
        "half {half}"
    );
    Ok(())
}

#[test]
fn every_two_halves(rt: HostRuntime) -> Result<(), Fail> {
    let alloc = rt.alloc();
    for (capture, count) in [(&CAPTURES[0], 512u32), (&CAPTURES[1], 4)] {
        let files = streams_of(alloc, capture.time, capture.packets)?;
        for half in 0..count {
            check_half(&rt, alloc, capture, files.as_slice(), half)?;
        }
    }
    Ok(())
}

#[test]
fn one_file_stays(rt: HostRuntime) -> Result<(), Fail> {
    let alloc = rt.alloc();
    for capture in &CAPTURES {
        let mut files = Vec::new(alloc);
        let bytes = whole_of(alloc, capture)?;
        files.push(Held {
            name: "whole",
            bytes,
            fails: &[],
        })?;
        let ran = join(&rt, alloc, "join whole", files.as_slice())?;
        assert_eq!(rt; ran.status, 0);
        assert_eq!(rt; ran.output.as_slice(), whole_of(alloc, capture)?.as_slice());
    }
    Ok(())
}
