//! A made capture of 20,000 packets in four windows, and in one.

ghost use Rattle.std.specs.Prelude.{◌<◌, ◌≤◌};

use super::{LIMIT, ONE, SMALL, Setting, meter_source};
use capture_input::{FillEnd, Window};
use capture_maker::capture;
use meter_io::MemSource;
use meter_workers::OpenGate;
use pcap_reader::{Capture, Head};
use record_ledger::RecordList;
use std::alloc::Global;
use std::process::Abort;
use std::test::Fail;

/// How many records stand in a window from this octet on, and how many octets are left behind them.
fn count_in(alloc: Global, head: Head, window: &[u8], from: usize) -> Result<(u64, usize), Fail> {
    let bytes = window.get(from..).ok_or("a header alone")?;
    if bytes.len() >= 1 << 32 {
        return Err(Fail::from("a long window"));
    }
    let index = Capture::part(head, bytes)
        .index(alloc)
        .ok()
        .ok_or("an index")?;
    Ok((index.count(), index.tail() as usize))
}

/// How many records stand in each window of a capture.
fn counts(rt: &impl Abort, alloc: Global, bytes: &[u8]) -> Result<Vec<u64>, Fail> {
    let mut source = MemSource::new(bytes, bytes.len().max(1), &[]);
    let mut window = Window::open(alloc, SMALL)?;
    let mut end = window.fill(&mut source, LIMIT);
    let head = Head::of(window.bytes()).ok().ok_or("a file header")?;
    let mut from = 24;
    let mut counts = Vec::new(alloc);
    for _window in 0..10 {
        let (count, tail) = count_in(alloc, head, window.bytes(), from)?;
        counts.push(count)?;
        if end == Ok(FillEnd::Ended) {
            return Ok(counts);
        }
        let keep = window.bytes().len().checked_sub(tail).ok_or("a tail")?;
        window.keep(keep);
        from = 0;
        end = window.fill(&mut source, LIMIT);
    }
    Ok(counts)
}

/// Whether two lists have the same records.
fn are_same(one: &RecordList, other: &RecordList) -> bool {
    if one.len() != other.len() {
        return false;
    }
    for place in 0..one.len() {
        if place < other.len() && one.get(place) != other.get(place) {
            return false;
        }
    }
    true
}

#[test]
fn four_windows_and_one_give_the_same_records(rt: HostRuntime) -> Result<(), Fail> {
    let alloc = rt.alloc();
    let bytes = capture(alloc, 1, 20_000, 64)?;
    assert_eq!(rt; bytes.len(), 880_024);
    assert_eq!(rt;
        counts(&rt, alloc, &bytes)?.as_slice(),
        [5958, 5958, 5958, 2126].as_slice()
    );
    for seats in [1, 2, 4] {
        assert!(rt; 1 <= seats && seats <= 64);
        let mut source = MemSource::new(&bytes, bytes.len().max(1), &[]);
        let four = meter_source(&rt, alloc, &mut source, Setting { seats, ..ONE }, &OpenGate)?;
        let four = four.ok().ok_or("four windows")?;
        let mut source = MemSource::new(&bytes, bytes.len().max(1), &[]);
        let whole = Setting {
            seats,
            window: 1 << 20,
            ..ONE
        };
        let one = meter_source(&rt, alloc, &mut source, whole, &OpenGate)?;
        let one = one.ok().ok_or("one window")?;
        assert_eq!(rt; four.records.len(), 64);
        assert!(rt; are_same(&four.records, &one.records), "{seats} workers");
        assert_eq!(rt; four.tally, one.tally);
        assert_eq!(rt; four.tally.captured, 20_000);
        assert_eq!(rt; four.tally.accepted, 20_000);
        assert_eq!(rt; (four.tail, one.tail), (0, 0));
    }
    Ok(())
}
