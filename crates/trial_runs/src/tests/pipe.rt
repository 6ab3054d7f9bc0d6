//! Whole runs of the pipelined meter: what they write and report, beside runs of `meter`.

use super::{Ran, ran_to};
use flow_cache::PebrCaches;
use meter_io::{MemSink, MemSource};
use meter_program::Status;
use meter_workers::Gate;
use pipe_program::run_pipe;
use std::alloc::Global;
use std::sync::Wait;
use std::test::Fail;
use std::thread::Threads;
use trial_samples::words_in;

mod faults;
mod gates;
mod same;
mod words;

/// A sink with room for what these runs write.
fn sink<'a>(alloc: Global) -> Result<MemSink<'a>, Fail> {
    MemSink::open(alloc, 65_536, 65_536, &[]).map_err(|_| Fail::from("no memory"))
}

/// A run of the pipelined meter over this input, whose batches are told to this gate.
pub(super) fn run_piped<R: Threads + Wait + Sync + AllocGlobal, G: Gate>(
    rt: &R,
    line: &str,
    input: &[u8],
    gate: &G,
) -> Result<Ran, Fail> {
    let alloc = rt.alloc();
    let words = words_in(alloc, line)?;
    let mut source = MemSource::new(input, 1000, &[]);
    let (mut output, mut stderr) = (sink(alloc)?, sink(alloc)?);
    let status = status_of(rt, &words, &mut source, (&mut output, &mut stderr), gate);
    ran_to(alloc, status, &output, &stderr)
}

/// The status of a run of the pipelined meter.
fn status_of<R: Threads + Wait + Sync + AllocGlobal, G: Gate>(
    rt: &R,
    words: &[String],
    source: &mut MemSource<'_>,
    (output, stderr): (&mut MemSink<'_>, &mut MemSink<'_>),
    gate: &G,
) -> Status {
    let alloc = rt.alloc();
    let caches = &mut PebrCaches::new();
    run_pipe(rt, alloc, words, source, output, stderr, caches, gate)
}
