//! What `pcapng` writes for a file, handed to the meter: one record of one packet and 28 octets.

use meter_io::{MemSink, MemSource};
use meter_program::{Status, run};
use meter_workers::OpenGate;
use pcapng_reader::{PngStatus, run_png};
use std::alloc::Global;
use std::process::Abort;
use std::test::Fail;
use std::thread::Threads;
use trial_samples::words_in;
use turn_cache::TurnCaches;

/// A section, an Ethernet interface, and one enhanced packet at 1000 s: UDP over IPv4 from 192.0.2.1 port 4000 to
/// 192.0.2.2 port 53.
const FILE: &[u8] =
    b"\x0a\x0d\x0d\x0a\x1c\0\0\0\x4d\x3c\x2b\x1a\x01\0\0\0\xff\xff\xff\xff\xff\xff\xff\xff\x1c\0\0\0\
    \x01\0\0\0\x14\0\0\0\x01\0\0\0\0\0\x04\0\x14\0\0\0\
    \x06\0\0\0\x4c\0\0\0\0\0\0\0\0\0\0\0\x00\xca\x9a\x3b\x2a\0\0\0\x2a\0\0\0\
    \x02\0\0\0\0\x02\x02\0\0\0\0\x01\x08\0\x45\0\0\x1c\0\0\0\0\x40\x11\0\0\xc0\0\x02\x01\xc0\0\x02\x02\
    \x0f\xa0\0\x35\0\x08\0\0\0\0\x4c\0\0\0";

/// The line of the record: its key, no flags, one packet of 28 octets, its first and last time, and the end forced.
const LINE: &str =
    "256 8=192.0.2.1 12=192.0.2.2 7=4000 11=53 4=17 6=0 2=1 1=28 152=1000000 153=1000000 136=4\n";

/// What a command of the meter writes for these bytes, where the run is done.
fn meter_output<'a, R: Threads + Sync + Abort>(
    rt: &R,
    alloc: Global,
    word: &str,
    bytes: &[u8],
) -> Result<MemSink<'a>, Fail> {
    let words = words_in(alloc, word)?;
    let mut input = MemSource::new(bytes, 65_536, &[]);
    let mut output = MemSink::open(alloc, 1 << 16, 65_536, &[]).expect(rt, "memory");
    let mut stderr = MemSink::open(alloc, 1 << 16, 65_536, &[]).expect(rt, "memory");
    let status = run(
        rt,
        alloc,
        words.as_slice(),
        &mut input,
        &mut output,
        &mut stderr,
        &mut TurnCaches::new(),
        &OpenGate,
    );
    assert!(rt; status == Status::Done);
    Ok(output)
}

/// The capture that `pcapng` writes for the file, where the run is done.
fn capture_written<'a>(rt: &impl Abort, alloc: Global) -> Result<MemSink<'a>, Fail> {
    let words = words_in(alloc, "pcapng")?;
    let mut input = MemSource::new(FILE, 65_536, &[]);
    let mut capture = MemSink::open(alloc, 1 << 16, 65_536, &[]).expect(rt, "memory");
    let status = run_png(alloc, words.as_slice(), &mut input, &mut capture);
    assert!(rt; status == PngStatus::Done);
    Ok(capture)
}

#[test]
fn the_meter_reads_what_is_written(rt: HostRuntime) -> Result<(), Fail> {
    let alloc = rt.alloc();
    let capture = capture_written(&rt, alloc)?;
    assert_eq!(rt; capture.held().len(), 68);
    let stream = meter_output(&rt, alloc, "meter", capture.held())?;
    let text = meter_output(&rt, alloc, "show", stream.held())?;
    assert_eq!(rt; text.held(), LINE.as_bytes());
    Ok(())
}
