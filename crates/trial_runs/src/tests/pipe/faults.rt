//! Runs that refuse, and those whose reads or writes fail.

use super::{run_piped, status_of};
use crate::tests::two_packets;
use meter_io::{MemSink, MemSource};
use meter_program::Status;
use meter_workers::OpenGate;
use std::process::Abort;
use std::sync::Wait;
use std::test::Fail;
use std::thread::Threads;
use trial_samples::{octets_of, words_in};

/// Lines that aren't command lines.
static USAGE: [&str; 4] = ["", "meter", "pipe --piece 1", "pipe --workers 63"];

/// Runs a command line over an input, and checks that it is refused with this status and report; `name` tells the run.
fn check_refused<R: Threads + Wait + Sync + Abort + AllocGlobal>(
    rt: &R,
    name: &str,
    line: &str,
    input: &[u8],
    (status, report): (Status, &str),
) -> Result<(), Fail> {
    let ran = run_piped(rt, line, input, &OpenGate)?;
    assert_eq!(rt; (ran.status, ran.output.len()), (status, 0), "{name}");
    assert_eq!(rt; ran.stderr.as_slice(), report.as_bytes(), "{name}");
    Ok(())
}

#[test]
fn other_words_are_refused(rt: HostRuntime) -> Result<(), Fail> {
    for line in USAGE {
        let refused = (Status::Usage, "usage: pipe\n");
        check_refused(&rt, line, line, b"not read", refused)?;
    }
    Ok(())
}

/// Inputs that are refused, in hexadecimal, and the status and the line of each.
static REFUSED: [(&str, Status, &str); 4] = [
    ("", Status::NotCapture, "not a capture\n"),
    (
        "d4c3b2a1 02000400 00000000 00000000 00000400 010000",
        Status::NotCapture,
        "not a capture\n",
    ),
    (
        "d4c3b2a1 02000400 00000000 00000000 00000400 14010000",
        Status::LinkUnknown(276),
        "link type 276\n",
    ),
    (
        "d4c3b2a1 02000400 00000000 00000000 00000400 01000000 e8030000 00000000 01000400 01000400",
        Status::Damaged(24),
        "damaged at 24\n",
    ),
];

#[test]
fn other_inputs_are_refused(rt: HostRuntime) -> Result<(), Fail> {
    for (input, status, report) in REFUSED {
        let octets = octets_of(rt.alloc(), &[input])?;
        check_refused(&rt, input, "pipe", &octets, (status, report))?;
    }
    Ok(())
}

/// How a run ended, and how many bytes its output and its standard error took.
type Ended = (Status, usize, usize);

/// Which call of the input, of the output and of standard error fails, each counted from 1, and how the run ends. The input
/// is a capture of 140 bytes, of which it gives at most 50 a call; the output takes at most 100 of 184 a call, standard
/// error 64 of 117.
static FAULTS: [((u64, u64, u64), Ended); 9] = [
    ((1, 99, 99), (Status::ReadFault, 0, 11)),
    ((2, 99, 99), (Status::ReadFault, 0, 11)),
    ((2, 99, 1), (Status::ReadFault, 0, 0)),
    ((99, 1, 99), (Status::WriteFault, 0, 0)),
    ((99, 2, 99), (Status::WriteFault, 100, 0)),
    ((99, 3, 99), (Status::Done, 184, 117)),
    ((99, 99, 1), (Status::WriteFault, 184, 0)),
    ((99, 99, 2), (Status::WriteFault, 184, 64)),
    ((99, 99, 3), (Status::Done, 184, 117)),
];

/// A run over this input, of which such calls fail.
fn run_faulty<R: Threads + Wait + Sync + AllocGlobal>(
    rt: &R,
    words: &[String],
    input: &[u8],
    (read, write, report): (u64, u64, u64),
) -> Result<Ended, Fail> {
    let (reads, writes, reportings) = ([read], [write], [report]);
    let mut source = MemSource::new(input, 50, reads.as_slice());
    let mut output = MemSink::open(rt.alloc(), 4096, 100, writes.as_slice())?;
    let mut stderr = MemSink::open(rt.alloc(), 4096, 64, reportings.as_slice())?;
    let status = status_of(
        rt,
        words,
        &mut source,
        (&mut output, &mut stderr),
        &OpenGate,
    );
    Ok((status, output.held().len(), stderr.held().len()))
}

#[test]
fn reads_and_writes_can_fail(rt: HostRuntime) -> Result<(), Fail> {
    let input = two_packets(rt.alloc())?;
    let words = words_in(rt.alloc(), "pipe --workers 2")?;
    for (calls, wanted) in FAULTS {
        assert_eq!(rt;
            run_faulty(&rt, &words, &input, calls)?,
            wanted,
            "{calls:?}"
        );
    }
    Ok(())
}
