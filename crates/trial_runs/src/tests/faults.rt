//! Runs whose reads and writes fail, and the exit statuses.

use super::{status_of, two_packets, two_packets_stream};
use Status::{Done, ReadFault, WriteFault};
use ipfix_reader::StreamFault;
use meter_io::{MemSink, MemSource};
use meter_program::Status;
use meter_workers::OpenGate;
use std::test::Fail;
use std::thread::Threads;
use trial_samples::words_in;

/// How a run ended, and how many bytes its output and its standard error took.
type Ended = (Status, usize, usize);

/// Which calls fail, each counted from 1: one of the input, one of the output, which takes at most so many bytes a
/// call, and one of standard error.
type Faulty = (u64, u64, usize, u64);

/// A run over this input, of which such calls fail. The input gives at most 50 bytes a call, and standard error takes at most
/// 64.
fn run_faulty<R: Threads + Sync + AllocGlobal>(
    rt: &R,
    line: &str,
    input: &[u8],
    faulty: Faulty,
) -> Result<Ended, Fail> {
    let (read, write, piece, report) = faulty;
    let (reads, writes, reportings) = ([read], [write], [report]);
    let alloc = rt.alloc();
    let words = words_in(alloc, line)?;
    let mut source = MemSource::new(input, 50, reads.as_slice());
    let mut output = MemSink::open(alloc, 4096, piece.max(1), writes.as_slice())?;
    let mut stderr = MemSink::open(alloc, 4096, 64, reportings.as_slice())?;
    let status = status_of(
        rt,
        &words,
        &mut source,
        (&mut output, &mut stderr),
        &OpenGate,
    );
    Ok((status, output.held().len(), stderr.held().len()))
}

/// The calls that fail, and how the run ends.
static FAULTS: [(&str, Faulty, Ended); 18] = [
    // A capture of 140 bytes comes in three calls and a fourth at its end.
    ("meter", (1, 99, 100, 99), (ReadFault, 0, 11)),
    ("meter", (2, 99, 100, 99), (ReadFault, 0, 11)),
    ("meter", (3, 99, 100, 99), (ReadFault, 0, 11)),
    ("meter", (4, 99, 100, 99), (ReadFault, 0, 11)),
    ("meter", (5, 99, 100, 99), (Done, 184, 117)),
    ("meter", (2, 99, 100, 1), (ReadFault, 0, 0)),
    // Its stream of 184 bytes goes out in two.
    ("meter", (99, 1, 100, 99), (WriteFault, 0, 0)),
    ("meter", (99, 2, 100, 99), (WriteFault, 100, 0)),
    ("meter", (99, 3, 100, 99), (Done, 184, 117)),
    ("meter", (99, 99, 100, 1), (WriteFault, 184, 0)),
    ("meter", (99, 99, 100, 2), (WriteFault, 184, 64)),
    ("meter", (99, 99, 100, 3), (Done, 184, 117)),
    // The stream is shown as a line of 90 bytes.
    ("show", (99, 1, 40, 99), (WriteFault, 0, 0)),
    ("show", (99, 2, 40, 99), (WriteFault, 40, 0)),
    ("show", (99, 3, 40, 99), (WriteFault, 80, 0)),
    ("show", (99, 4, 40, 99), (Done, 90, 10)),
    ("show", (99, 99, 40, 1), (WriteFault, 90, 0)),
    ("show", (99, 99, 40, 2), (Done, 90, 10)),
];

#[test]
fn each_read_and_write_can_fail(rt: HostRuntime) -> Result<(), Fail> {
    let capture = two_packets(rt.alloc())?;
    let stream = two_packets_stream(rt.alloc())?;
    for (line, faulty, wanted) in FAULTS {
        let input = if line == "meter" { &capture } else { &stream };
        let ended = run_faulty(&rt, line, input.as_slice(), faulty)?;
        assert_eq!(rt; ended, wanted, "{faulty:?}");
    }
    Ok(())
}

#[test]
fn statuses_have_their_codes(rt: HostRuntime) -> Result<(), Fail> {
    let rows = [
        (Done, 0),
        (ReadFault, 1),
        (Status::Usage, 2),
        (WriteFault, 3),
        (Status::NotCapture, 4),
        (Status::LinkUnknown(276), 5),
        (Status::Damaged(24), 6),
        (Status::TooLarge, 7),
        (Status::NoMemory, 8),
        (Status::NotStream(StreamFault::Cut { at: 0 }), 9),
        (Status::BadSchedule(2), 10),
    ];
    for (status, code) in rows {
        assert_eq!(rt; status.code(), code);
    }
    Ok(())
}
