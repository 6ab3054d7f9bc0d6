//! Streams octet by octet, and what is written when they are joined.

use crate::files::{Held, HeldFiles};
use join_program::run_join;
use meter_io::MemSink;
use std::alloc::Global;
use std::test::Fail;
use std::thread::Threads;
use trial_samples::{octets_of, words_in};

mod refused;
mod splits;

/// The message with the templates, from behind its length and export time on.
const TEMPLATES: &str = "00000000 00000001 0002 0064 \
    0100000b 00080004 000c0004 00070002 000b0002 00040001 00060002 00020008 00010008 00980008 00990008 00880001 \
    0101000b 001b0010 001c0010 00070002 000b0002 00040001 00060002 00020008 00010008 00980008 00990008 00880001";

/// The rest of the header, behind the export time, of a message with one record over IPv4, and the header of its set.
const ONE: &str = "00000000 00000001 0100 0034";

/// How a run ended, what it wrote, and what it reported.
#[derive(Drop)]
struct Ran {
    status: u8,
    output: Vec<u8>,
    stderr: Vec<u8>,
}

/// Joins files by a command line with single spaces between its words.
fn join(
    rt: &(impl Threads + Sync),
    alloc: Global,
    line: &str,
    files: &[Held],
) -> Result<Ran, Fail> {
    let words = words_in(alloc, line)?;
    let mut opener = HeldFiles::new(files);
    let mut output = MemSink::open(alloc, 65_536, 1000, &[])?;
    let mut stderr = MemSink::open(alloc, 1000, 1000, &[])?;
    let status = run_join(
        rt,
        alloc,
        words.as_slice(),
        &mut opener,
        &mut output,
        &mut stderr,
    );
    Ok(Ran {
        status: status.code(),
        output: output.held().to_vec(alloc)?,
        stderr: stderr.held().to_vec(alloc)?,
    })
}

/// The stream of one record, with its export time.
fn stream_of_one(alloc: Global, time: &str, record: &str) -> Result<Vec<u8>, Fail> {
    octets_of(
        alloc,
        &["000a0074", time, TEMPLATES, "000a0044", time, ONE, record],
    )
}
