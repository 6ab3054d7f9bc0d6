//! Where windows cut a capture, and where reading ends.

ghost use Rattle.std.specs.Prelude.{◌≤◌, ◌^◌};

use super::{LIMIT, ONE, Setting, meter_source};
use meter_io::MemSource;
use meter_workers::{MeterFault, OpenGate};
use std::alloc::Global;
use std::test::Fail;
use std::thread::Threads;

/// A file header: little-endian, microseconds, version 2.4, raw IP.
pub(super) const HEADER: [u8; 24] = [
    0xd4, 0xc3, 0xb2, 0xa1, 2, 0, 4, 0, 0, 0, 0, 0, 0, 0, 0, 0, 0, 0, 4, 0, 101, 0, 0, 0,
];

/// The same with link type 105.
const UNKNOWN: [u8; 24] = [
    0xd4, 0xc3, 0xb2, 0xa1, 2, 0, 4, 0, 0, 0, 0, 0, 0, 0, 0, 0, 0, 0, 4, 0, 105, 0, 0, 0,
];

/// A record header that claims 262,145 captured bytes.
pub(super) const DAMAGE: [u8; 16] = [0xe8, 3, 0, 0, 0, 0, 0, 0, 1, 0, 4, 0, 1, 0, 4, 0];

/// A record header that claims 100 captured bytes.
const HUNDRED: [u8; 16] = [0xe8, 3, 0, 0, 0, 0, 0, 0, 100, 0, 0, 0, 100, 0, 0, 0];

/// A capture: a file header, records with these numbers of captured bytes, and some bytes after them.
#[derive(Clone, Copy)]
struct Row {
    header: &'static [u8],
    records: &'static [u32],
    behind: &'static [u8],
}

/// The bytes of a capture: a file header, records with these numbers of captured bytes, and some bytes after them.
pub(super) fn bytes_of(
    alloc: Global,
    header: &[u8],
    records: &[u32],
    behind: &[u8],
) -> Result<Vec<u8>, Fail> {
    let mut bytes = Vec::new(alloc);
    bytes.extend_from_slice(header)?;
    for captured in records {
        bytes.extend_from_slice(&[0xe8, 3, 0, 0, 0, 0, 0, 0])?;
        bytes.extend_from_slice(&captured.to_le_bytes())?;
        bytes.extend_from_slice(&captured.to_le_bytes())?;
        let data = vec![in alloc; 0u8; *captured as usize]?;
        bytes.extend_from_slice(&data)?;
    }
    bytes.extend_from_slice(behind)?;
    Ok(bytes)
}

/// How many records are tallied and how many bytes are left, or why metering failed, for a source whose read with this
/// number fails.
fn read<R: Threads + Sync>(
    rt: &R,
    alloc: Global,
    row: &Row,
    limit: u64,
    fails: u64,
) -> Result<Result<(u64, u64), MeterFault>, Fail>
    requires { limit ≤ 2 ^ 30 }
{
    let bytes = bytes_of(alloc, row.header, row.records, row.behind)?;
    let fails = [fails];
    let mut source = MemSource::new(&bytes, 100_000, fails.as_slice());
    let setting = Setting { limit, ..ONE };
    let done = meter_source(rt, alloc, &mut source, setting, &OpenGate)?;
    Ok(done.map(|outcome| (outcome.tally.captured, outcome.tail)))
}

/// Captured octets of the records, what stands behind them, and how many records are tallied and octets left.
static CUT: [(&[u32], &[u8], Result<(u64, u64), MeterFault>); 9] = [
    (&[], b"", Ok((0, 0))),
    // The second record's header stands in two windows.
    (&[262_136, 100], b"", Ok((2, 0))),
    // Its captured bytes stand in two windows.
    (&[262_100, 100], b"", Ok((2, 0))),
    // The longest records, each of which fills a window.
    (&[262_144, 262_144, 0], b"", Ok((3, 0))),
    (&[0, 262_144, 262_143], b"", Ok((3, 0))),
    // A tail at the end: less than a header, and a header without its bytes.
    (&[262_144, 100], b"tail", Ok((2, 4))),
    (&[262_144, 262_144, 100], &HUNDRED, Ok((3, 16))),
    // Damage in the first window, and in the third.
    (&[100], &DAMAGE, Err(MeterFault::Damaged(140))),
    (
        &[262_144, 262_144, 100],
        &DAMAGE,
        Err(MeterFault::Damaged(524_460)),
    ),
];

#[test]
fn records_that_windows_cut(rt: HostRuntime) -> Result<(), Fail> {
    for (records, behind, want) in CUT {
        let row = Row {
            header: &HEADER,
            records,
            behind,
        };
        assert_eq!(rt; read(&rt, rt.alloc(), &row, LIMIT, 0)?, want, "{records:?}");
    }
    Ok(())
}

/// Captures with three records and damage, with two records, with no header of a capture, and with another link type.
const LONG: Row = Row {
    header: &HEADER,
    records: &[262_144, 262_144, 100],
    behind: &DAMAGE,
};

const SHORT: Row = Row {
    header: &HEADER,
    records: &[262_144, 100],
    behind: b"",
};

const NONE: Row = Row {
    header: b"no capture, but bytes of more",
    records: &[262_144],
    behind: b"",
};

const OTHER: Row = Row {
    header: &UNKNOWN,
    records: &[262_144],
    behind: b"",
};

/// A capture, the limit, the read that fails, and what comes of it.
static ENDS: [(Row, u64, u64, Result<(u64, u64), MeterFault>); 14] = [
    // The limit in the middle of the second window, and at its end.
    (SHORT, 262_299, 0, Err(MeterFault::TooLarge)),
    (SHORT, 262_300, 0, Ok((2, 0))),
    (SHORT, 100, 0, Err(MeterFault::TooLarge)),
    (SHORT, LIMIT, 1, Err(MeterFault::Failed)),
    (SHORT, LIMIT, 4, Err(MeterFault::Failed)),
    // Refused content is read to its end first.
    (LONG, 524_475, 0, Err(MeterFault::TooLarge)),
    (LONG, 524_476, 0, Err(MeterFault::Damaged(524_460))),
    (NONE, 262_188, 0, Err(MeterFault::TooLarge)),
    (NONE, 262_189, 0, Err(MeterFault::NotCapture)),
    (NONE, LIMIT, 4, Err(MeterFault::Failed)),
    (OTHER, 262_183, 0, Err(MeterFault::TooLarge)),
    (OTHER, 262_184, 0, Err(MeterFault::LinkUnknown(105))),
    (OTHER, LIMIT, 3, Err(MeterFault::Failed)),
    (OTHER, LIMIT, 9, Err(MeterFault::LinkUnknown(105))),
];

#[test]
fn where_reading_ends(rt: HostRuntime) -> Result<(), Fail> {
    for (row, limit, fails, want) in ENDS {
        assert!(rt; limit <= 1 << 30);
        assert_eq!(rt;
            read(&rt, rt.alloc(), &row, limit, fails)?,
            want,
            "limit {limit}, call {fails}"
        );
    }
    Ok(())
}
