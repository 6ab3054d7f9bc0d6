//! For `checks/two_threads.sh`: two threads meter the capture into one cache of four sets. It writes `whole` where the
//! fragments have just the packets and octets of the tally, `differs` where they don't, and `not metered` where the
//! capture isn't metered.

ghost use Rattle.std.specs.Prelude.{◌<◌, ◌≤◌, ◌^◌, length};

use crate::counts::{Counts, counts_of};
use cache_face::Caches;
use flow_parts::Timeouts;
use meter_io::{Source, StdSink, StdSource, read_all, write_all};
use meter_workers::{Engine, OpenGate, Part, meter_all};
use pcap_reader::{CAPTURE_LIMIT, Capture};
use std::alloc::Global;
use std::process::ExitCode;
use std::thread::Threads;
use turn_cache::TurnCaches;

/// Whether the fragments have the packets and the octets of the tally; `None` if the capture isn't metered.
fn is_whole<R: Threads + Sync, M: Caches>(
    rt: &R,
    alloc: Global,
    bytes: &[u8],
    caches: &mut M,
) -> Option<bool>
    requires { length bytes.now ≤ 2 ^ 30 }
{
    let capture = Capture::open(bytes).ok()?;
    let index = capture.index(alloc).ok()?;
    let (cache, passes) = caches.open(alloc, 4, 2, Timeouts::new(300, 1800)).ok()?;
    let part = Part {
        capture,
        index: &index,
        base: 0,
    };
    let engine = Engine {
        rt,
        alloc,
        gate: &OpenGate,
    };
    let metered = meter_all(&engine, &part, &cache, passes, 64).ok()?;
    let parts = caches
        .close(alloc, cache, metered.pass, metered.parts)
        .ok()?;
    let tallied = Counts {
        packets: metered.tally.accepted,
        octets: metered.tally.octets,
    };
    Some(counts_of(parts)? == tallied && tallied.packets > 0)
}

/// What becomes of the bytes of a source.
fn check_source<R: Threads + Sync, S: Source>(
    rt: &R,
    alloc: Global,
    input: &mut S,
) -> Option<bool> {
    let bytes = read_all(alloc, input, CAPTURE_LIMIT).ok()?;
    is_whole(rt, alloc, bytes.as_slice(), &mut TurnCaches::new())
}

/// Checks the capture of standard input; the words are `threads` alone.
pub(crate) fn tell_threads<R: Threads + Sync>(
    rt: &R,
    host: &HostRuntime,
    words: &[String],
) -> ExitCode {
    if words.len() != 1 {
        return ExitCode::from(2);
    }
    let mut input = StdSource::new(host.stdin());
    let mut output = StdSink::new(host.stdout());
    let (line, code): (&[u8], u8) = match check_source(rt, host.alloc(), &mut input) {
        Some(true) => (b"whole\n", 0),
        Some(false) => (b"differs\n", 1),
        None => (b"not metered\n", 1),
    };
    match write_all(&mut output, line) {
        Ok(()) => ExitCode::from(code),
        Err(_) => ExitCode::from(1),
    }
}
