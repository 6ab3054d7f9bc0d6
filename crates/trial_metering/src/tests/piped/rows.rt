//! One table: metering captures with a queue gives what metering them without one gives.

ghost use Rattle.std.specs.Prelude.{◌≤◌, ◌^◌};

use super::{LIMIT, Outcome, SMALL, Setting, meter_capture};
use crate::Meeting;
use crate::tests::cuts::{DAMAGE, HEADER, bytes_of};
use capture_maker::capture;
use meter_workers::{MeterFault, OpenGate};
use std::alloc::Global;
use std::process::Abort;
use std::sync::Wait;
use std::test::Fail;
use std::thread::Threads;

/// A capture: a file header, records with these numbers of captured bytes, and some bytes after them.
#[derive(Clone, Copy)]
struct Row {
    header: &'static [u8],
    records: &'static [u32],
    behind: &'static [u8],
    limit: u64,
    fails: u64,
    want: Result<(u64, u64), MeterFault>,
}

/// What comes of a capture without a queue; checks that the same comes of it with a queue, by one worker and by three.
fn outcome<R: Threads + Wait + Sync + Abort>(
    rt: &R,
    alloc: Global,
    bytes: &[u8],
    window: usize,
    limit: u64,
    fails: u64,
) -> Result<Result<Outcome, MeterFault>, Fail>
    requires window { (262184 ≤ window) × (window ≤ 4194304) }
    requires limit { limit ≤ 2 ^ 30 }
{
    let plain = Setting {
        passes: 3,
        room: 0,
        window,
        limit,
        fails,
    };
    let want = meter_capture(rt, alloc, bytes, plain, &OpenGate)?;
    for (passes, room) in [(3, 1), (5, 2)] {
        assert!(rt; 3 <= passes && passes <= 64 && room <= 64);
        let setting = Setting {
            passes,
            room,
            ..plain
        };
        let done = meter_capture(rt, alloc, bytes, setting, &OpenGate)?;
        assert_eq!(rt; done, want, "{passes} passes, room for {room}");
    }
    Ok(want)
}

#[test]
fn the_same_comes_of_cut_and_refused_captures(rt: HostRuntime) -> Result<(), Fail> {
    let good = Row {
        header: &HEADER,
        records: &[],
        behind: b"",
        limit: LIMIT,
        fails: 0,
        want: Ok((0, 0)),
    };
    let long = Row {
        records: &[262_144, 262_144, 100],
        behind: &DAMAGE,
        want: Err(MeterFault::Damaged(524_460)),
        ..good
    };
    let rows = [
        good,
        // The second record's header stands in two windows, then its captured bytes do.
        Row {
            records: &[262_136, 100],
            want: Ok((2, 0)),
            ..good
        },
        Row {
            records: &[262_100, 100, 262_144, 262_144, 0, 262_144, 7],
            want: Ok((7, 0)),
            ..good
        },
        Row {
            records: &[262_144, 100],
            behind: b"tail",
            want: Ok((2, 4)),
            ..good
        },
        long,
        // Refused content is read to its end first.
        Row {
            limit: 524_475,
            want: Err(MeterFault::TooLarge),
            ..long
        },
        Row {
            fails: 4,
            want: Err(MeterFault::Failed),
            ..long
        },
        Row {
            header: b"no capture, but bytes of more",
            want: Err(MeterFault::NotCapture),
            ..long
        },
    ];
    for row in rows {
        assert!(rt; row.limit <= 1 << 30);
        let bytes = bytes_of(rt.alloc(), row.header, row.records, row.behind)?;
        let done = outcome(&rt, rt.alloc(), &bytes, SMALL, row.limit, row.fails)?;
        let told = done.map(|outcome| (outcome.tally.captured, outcome.tail));
        assert_eq!(rt; told, row.want, "{:?}", row.records);
    }
    Ok(())
}

#[test]
fn a_made_capture_in_two_batches(rt: HostRuntime) -> Result<(), Fail> {
    let alloc = rt.alloc();
    let bytes = capture(alloc, 1, 8_000, 64)?;
    let done = outcome(&rt, alloc, &bytes, SMALL, LIMIT, 0)?;
    let done = done.ok().ok_or("all batches")?;
    assert_eq!(rt; done.tally.captured, 8_000);
    assert_eq!(rt; done.packets, 8_000);
    assert_eq!(rt; done.tail, 0);
    Ok(())
}

#[test]
fn the_reader_and_a_worker_meter_at_once(rt: HostRuntime) -> Result<(), Fail> {
    let bytes = capture(rt.alloc(), 1, 20_000, 64)?;
    let setting = Setting {
        passes: 3,
        room: 1,
        window: SMALL,
        limit: LIMIT,
        fails: 0,
    };
    let gate = Meeting::new();
    let done = meter_capture(&rt, rt.alloc(), &bytes, setting, &gate)?;
    let done = done.ok().ok_or("all batches")?;
    assert_eq!(rt; done.packets, 20_000);
    assert!(rt; gate.has_met());
    Ok(())
}
