//! Both meters at the ends of the ranges of their options.

use super::pipe::run_piped;
use super::workers::{RECORDS, SUMMARY, exchange_capture, exchange_stream};
use super::{HEADER, TEMPLATES, run_by};
use meter_program::Status;
use meter_workers::OpenGate;
use std::alloc::Global;
use std::process::Abort;
use std::sync::Wait;
use std::test::Fail;
use std::thread::Threads;
use trial_samples::octets_of;

/// Settings that don't change what is written of a web exchange: the most workers, and nine; the most and the fewest
/// sets, the most and the fewest records in a piece, the largest messages; and for the pipeline the longest and the
/// shortest queues, and the largest and the smallest batches.
static SAME: [&str; 13] = [
    "meter --workers 64",
    "meter --workers 9",
    "meter --workers 64 --sets 1 --piece 1",
    "meter --sets 65536",
    "meter --piece 65536",
    "meter --size 65535",
    "pipe --workers 62",
    "pipe --workers 9",
    "pipe --workers 62 --sets 1 --queue 1",
    "pipe --sets 65536",
    "pipe --queue 64 --batch 4194304",
    "pipe --queue 1 --batch 262184",
    "pipe --size 65535",
];

/// The same settings with the smallest messages.
static SMALL: [&str; 4] = [
    "meter --size 116",
    "meter --workers 64 --size 116",
    "pipe --size 116",
    "pipe --workers 62 --size 116",
];

static SMALL_SUMMARY: &str =
    "captured 10\naccepted 9\nnot-ip 1\nshort 0\nbad-header 0\nshort-transport 0\nbad-time 0\noctets 2052\nflows 4\nmessages 3\ntail 0\n";

/// One packet of UDP over IPv6 at 1000 s, from port 4000 of 2001:db8::1 to port 53 of 2001:db8::2.
static IPV6_PACKET: [&str; 3] = [
    HEADER,
    "e8030000 00000000 3e000000 3e000000",
    "020000000002 020000000001 86dd 60000000 0008 11 40 20010db8000000000000000000000001 \
    20010db8000000000000000000000002 0fa0 0035 0008 0000",
];

/// The message of its record.
const IPV6_MESSAGE: &str = "000a005c 000003e8 00000000 00000001 0101 004c \
    20010db8000000000000000000000001 20010db8000000000000000000000002 0fa0 0035 11 0000 \
    0000000000000001 0000000000000030 00000000000f4240 00000000000f4240 04";

/// Runs a command line of `meter` or of `pipe`, and compares its output and its standard error.
fn check_line<R: Threads + Wait + Sync + Abort + AllocGlobal>(
    rt: &R,
    line: &str,
    capture: &[u8],
    stream: &[u8],
    summary: &str,
) -> Result<(), Fail> {
    let ran = if line.starts_with("pipe") {
        run_piped(rt, line, capture, &OpenGate)?
    } else {
        run_by(rt, line, capture, &OpenGate)?
    };
    assert_eq!(rt; ran.status, Status::Done, "{line}");
    assert_eq!(rt; ran.output.as_slice(), stream, "{line}");
    assert_eq!(rt; ran.stderr.as_slice(), summary.as_bytes(), "{line}");
    Ok(())
}

/// The stream of the exchange in messages of 116 octets: two records each.
fn small_stream(alloc: Global) -> Result<Vec<u8>, Fail> {
    octets_of(
        alloc,
        &[
            "000a0074 6553f100",
            TEMPLATES,
            "000a0074 6553f100 00000000 00000001 0100 0064",
            RECORDS[0],
            RECORDS[1],
            "000a0074 6553f100 00000002 00000001 0100 0064",
            RECORDS[2],
            RECORDS[3],
        ],
    )
}

#[test]
fn both_meters_run_at_the_ends_of_their_ranges(rt: HostRuntime) -> Result<(), Fail> {
    let alloc = rt.alloc();
    let capture = exchange_capture(alloc)?;
    let stream = exchange_stream(alloc)?;
    for line in SAME {
        check_line(&rt, line, capture.as_slice(), stream.as_slice(), SUMMARY)?;
    }
    let stream = small_stream(alloc)?;
    for line in SMALL {
        check_line(
            &rt,
            line,
            capture.as_slice(),
            stream.as_slice(),
            SMALL_SUMMARY,
        )?;
    }
    Ok(())
}

#[test]
fn one_flow_over_ipv6_has_its_message(rt: HostRuntime) -> Result<(), Fail> {
    let alloc = rt.alloc();
    let capture = octets_of(alloc, IPV6_PACKET.as_slice())?;
    let stream = octets_of(alloc, &["000a0074 000003e8", TEMPLATES, IPV6_MESSAGE])?;
    let summary =
        "captured 1\naccepted 1\nnot-ip 0\nshort 0\nbad-header 0\nshort-transport 0\nbad-time 0\n\
        octets 48\nflows 1\nmessages 2\ntail 0\n";
    for line in ["meter", "meter --size 116", "pipe", "pipe --size 116"] {
        check_line(&rt, line, capture.as_slice(), stream.as_slice(), summary)?;
    }
    Ok(())
}
