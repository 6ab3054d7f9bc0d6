//! Whole runs: captures and streams octet by octet, what is written of them, and what is reported.

use flow_cache::PebrCaches;
use meter_io::{MemSink, MemSource};
use meter_program::{Status, run};
use meter_workers::{Gate, OpenGate};
use std::alloc::Global;
use std::process::Abort;
use std::test::Fail;
use std::thread::Threads;
use trial_samples::{octets_of, words_in};

mod captures;
mod extremes;
mod faults;
mod options;
mod pipe;
mod schedules;
mod selftests;
mod streams;
mod words;
mod workers;

/// A capture's header: little-endian, microseconds, Ethernet.
const HEADER: &str = "d4c3b2a1 02000400 00000000 00000000 00000400 01000000";

/// The header of a record of 42 bytes at 1000 s, and at 1001 s.
const AT_1000: &str = "e8030000 00000000 2a000000 2a000000";

const AT_1001: &str = "e9030000 00000000 2a000000 2a000000";

/// A frame of 42 bytes: UDP over IPv4 from port 4000 of 192.0.2.1 to port 53 of 192.0.2.2.
const FRAME: &str =
    "020000000002 020000000001 0800 4500001c 00000000 40110000 c0000201 c0000202 0fa0 0035 0008 0000";

/// The message with the templates, behind its length and export time.
const TEMPLATES: &str = "00000000 00000001 0002 0064 \
    0100000b 00080004 000c0004 00070002 000b0002 00040001 00060002 00020008 00010008 00980008 00990008 00880001 \
    0101000b 001b0010 001c0010 00070002 000b0002 00040001 00060002 00020008 00010008 00980008 00990008 00880001";

/// The message of the one record of two such frames a second apart.
const TWO_PACKETS_RECORD: &str =
    "000a0044 000003e9 00000000 00000001 0100 0034 c0000201 c0000202 0fa0 0035 11 0000 \
    0000000000000002 0000000000000038 00000000000f4240 00000000000f4628 04";

/// A capture of two such frames a second apart.
fn two_packets(alloc: Global) -> Result<Vec<u8>, Fail> {
    octets_of(alloc, &[HEADER, AT_1000, FRAME, AT_1001, FRAME])
}

/// The stream that `meter` writes of it.
fn two_packets_stream(alloc: Global) -> Result<Vec<u8>, Fail> {
    octets_of(alloc, &["000a0074 000003e9", TEMPLATES, TWO_PACKETS_RECORD])
}

/// How a run over some input ended, what it wrote, and what it reported.
#[derive(PartialEq, Eq, Drop)]
struct Ran {
    status: Status,
    output: Vec<u8>,
    stderr: Vec<u8>,
}

/// A run over this input, whose workers are told to this gate.
fn run_by<R: Threads + Sync + AllocGlobal, G: Gate>(
    rt: &R,
    line: &str,
    input: &[u8],
    gate: &G,
) -> Result<Ran, Fail> {
    let alloc = rt.alloc();
    let words = words_in(alloc, line)?;
    let source = &mut MemSource::new(input, 1000, &[]);
    let mut output = MemSink::open(alloc, 65_536, 65_536, &[])?;
    let mut stderr = MemSink::open(alloc, 1000, 1000, &[])?;
    let status = run(
        rt,
        alloc,
        &words,
        source,
        &mut output,
        &mut stderr,
        &mut PebrCaches::new(),
        gate,
    );
    ran_to(alloc, status, &output, &stderr)
}

/// The status of a run.
fn status_of<R: Threads + Sync + AllocGlobal, G: Gate>(
    rt: &R,
    words: &[String],
    source: &mut MemSource<'_>,
    (output, stderr): (&mut MemSink<'_>, &mut MemSink<'_>),
    gate: &G,
) -> Status {
    let alloc = rt.alloc();
    let caches = &mut PebrCaches::new();
    run(rt, alloc, words, source, output, stderr, caches, gate)
}

/// A run that ended so, with what these two hold.
fn ran_to(
    alloc: Global,
    status: Status,
    output: &MemSink<'_>,
    stderr: &MemSink<'_>,
) -> Result<Ran, Fail> {
    Ok(Ran {
        status,
        output: output.held().to_vec(alloc)?,
        stderr: stderr.held().to_vec(alloc)?,
    })
}

/// Runs a command line over an input, and compares status, output and standard error with what is wanted; `name` tells
/// the run.
fn check_run<R: Threads + Sync + Abort + AllocGlobal>(
    rt: &R,
    name: &str,
    line: &str,
    input: &[u8],
    (status, output, stderr): (Status, &[u8], &str),
) -> Result<(), Fail> {
    let ran = run_by(rt, line, input, &OpenGate)?;
    check_ran(rt, name, &ran, (status, output, stderr));
    Ok(())
}

/// Compares how a run ended with what is wanted.
fn check_ran(
    rt: &impl Abort,
    name: &str,
    ran: &Ran,
    (status, output, stderr): (Status, &[u8], &str),
) {
    assert_eq!(rt; ran.status, status, "{name}");
    assert_eq!(rt; ran.output.as_slice(), output, "{name}");
    assert_eq!(rt; ran.stderr.as_slice(), stderr.as_bytes(), "{name}");
}
