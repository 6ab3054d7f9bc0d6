//! Files that are refused, and some that aren't though they might seem to be.

use super::{TEMPLATES, join, stream_of_one};
use crate::files::Held;
use std::alloc::Global;
use std::test::Fail;
use trial_samples::octets_of;

/// A record of two packets.
const GOOD: &str =
    "c0000201 c0000202 0fa0 0035 11 0000 0000000000000002 0000000000000038 00000000000f4240 00000000000f4628 04";

/// The record that it becomes with itself: twice as many packets and octets.
const TWICE: &str =
    "c0000201 c0000202 0fa0 0035 11 0000 0000000000000004 0000000000000070 00000000000f4240 00000000000f4628 04";

/// A record with the most packets that a record can count, 2^64 - 1.
const MOST: &str =
    "c0000201 c0000202 0fa0 0035 11 0000 ffffffffffffffff 0000000000000038 00000000000f4240 00000000000f4628 04";

/// A stream of one record that has only an address, so it isn't a flow record.
const OTHER: &str =
    "000a0024 00000000 00000000 00000001 0002000c 01020001 00080004 01020008 c0000201";

/// Adds a file of these bytes.
fn hold(
    files: &mut Vec<Held>,
    name: &'static str,
    bytes: Vec<u8>,
    fails: &'static [u64],
) -> Result<(), Fail> {
    files.push(Held { name, bytes, fails })?;
    Ok(())
}

/// The files of the table; a folder is one whose first read fails.
fn files_of(alloc: Global) -> Result<Vec<Held>, Fail> {
    let mut files = Vec::new(alloc);
    hold(
        &mut files,
        "good",
        stream_of_one(alloc, "000003e9", GOOD)?,
        &[],
    )?;
    hold(
        &mut files,
        "most",
        stream_of_one(alloc, "000003e9", MOST)?,
        &[],
    )?;
    hold(&mut files, "empty", Vec::new(alloc), &[])?;
    hold(
        &mut files,
        "text",
        octets_of(alloc, &["6e6f206d657373616765206f66206974730a"])?,
        &[],
    )?;
    hold(
        &mut files,
        "short",
        octets_of(alloc, &["000a0074 000003e9"])?,
        &[],
    )?;
    hold(&mut files, "other", octets_of(alloc, &[OTHER])?, &[])?;
    hold(&mut files, "folder", Vec::new(alloc), &[1])?;
    Ok(files)
}

/// A command line, the status, the line that is reported, and what is written: nothing, or a stream of this record, or
/// a stream without a record where the text is empty.
type Row = (&'static str, u8, &'static str, Option<&'static str>);

static ROWS: [Row; 18] = [
    ("join good", 0, "", Some(GOOD)),
    ("join good good", 0, "", Some(TWICE)),
    ("join good empty", 0, "", Some(GOOD)),
    ("join empty", 0, "", Some("")),
    ("join text", 9, "text: not a stream: version at 0\n", None),
    ("join short", 9, "short: not a stream: cut at 0\n", None),
    ("join other", 12, "other: not flow records: 0\n", None),
    ("join folder", 1, "folder: read fault\n", None),
    ("join missing", 1, "missing: read fault\n", None),
    (
        "join good other text",
        12,
        "other: not flow records: 0\n",
        None,
    ),
    (
        "join good text other",
        9,
        "text: not a stream: version at 0\n",
        None,
    ),
    ("join missing text", 1, "missing: read fault\n", None),
    ("join most", 0, "", Some(MOST)),
    ("join most good", 13, "good: too many\n", None),
    ("join most most text", 13, "most: too many\n", None),
    ("join", 2, "", None),
    ("join --part 1 good", 2, "", None),
    ("good", 2, "", None),
];

/// The stream of one record, or of none where the text is empty.
fn written(alloc: Global, record: &str) -> Result<Vec<u8>, Fail> {
    if record == "" {
        octets_of(alloc, &["000a0074 00000000", TEMPLATES])
    } else {
        stream_of_one(alloc, "000003e9", record)
    }
}

#[test]
fn files_are_joined_or_refused(rt: HostRuntime) -> Result<(), Fail> {
    let alloc = rt.alloc();
    let files = files_of(alloc)?;
    for (line, status, report, record) in ROWS {
        let ran = join(&rt, alloc, line, files.as_slice())?;
        assert_eq!(rt; ran.status, status, "{line}");
        assert_eq!(rt; ran.stderr.as_slice(), report.as_bytes(), "{line}");
        let wanted = match record {
            Some(record) => written(alloc, record)?,
            None => Vec::new(alloc),
        };
        assert_eq!(rt; ran.output.as_slice(), wanted.as_slice(), "{line}");
    }
    Ok(())
}
