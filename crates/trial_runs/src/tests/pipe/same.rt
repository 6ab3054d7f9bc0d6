//! The stream and the summary are those of `meter`.

use super::run_piped;
use crate::tests::run_by;
use crate::tests::workers::exchange_capture;
use capture_maker::capture;
use meter_program::Status;
use meter_workers::{Gate, OpenGate};
use std::process::Abort;
use std::sync::Wait;
use std::test::Fail;
use std::thread::Threads;

/// Command lines, and how often each is run.
static LINES: [(&str, u8); 4] = [
    ("pipe --workers 2 --queue 1", 10),
    ("pipe", 1),
    ("pipe --workers 8 --sets 1 --batch 4194304", 5),
    ("pipe --workers=62 --queue 64 --batch 262184", 1),
];

/// Runs a command line of the pipelined meter over an input, and compares what it writes and reports with what `meter`
/// does, which ends as it should.
pub(super) fn check_same<R: Threads + Wait + Sync + Abort + AllocGlobal, G: Gate>(
    rt: &R,
    line: &str,
    input: &[u8],
    gate: &G,
) -> Result<(), Fail> {
    let wanted = run_by(rt, "meter", input, &OpenGate)?;
    assert_eq!(rt; wanted.status, Status::Done);
    let ran = run_piped(rt, line, input, gate)?;
    assert!(rt; ran == wanted, "{line}");
    Ok(())
}

#[test]
fn an_exchange_is_as_by_meter(rt: HostRuntime) -> Result<(), Fail> {
    let input = exchange_capture(rt.alloc())?;
    for (line, turns) in LINES {
        for _turn in 0..turns {
            check_same(&rt, line, &input, &OpenGate)?;
        }
    }
    Ok(())
}

#[test]
fn a_made_capture_of_four_batches_is_as_by_meter(rt: HostRuntime) -> Result<(), Fail> {
    let input = capture(rt.alloc(), 1, 20_000, 64)?;
    for line in [
        "pipe --workers 1 --queue 64 --batch 262184",
        "pipe --workers 4 --queue 2 --batch 262184",
    ] {
        check_same(&rt, line, &input, &OpenGate)?;
    }
    Ok(())
}
