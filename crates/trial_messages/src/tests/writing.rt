//! Streams whose bytes were written out by hand from RFC 7011, sections 3.1 to 3.4.

ghost use Rattle.std.specs.Prelude.{◌≤◌, ◌<◌, ◌^◌};

use flow_parts::{Fragment, Timeouts};
use ipfix_writer::{CopyRoom, Emitter, emit_all, layout};
use meter_io::{Failed, MemSink};
use record_ledger::{FlowRecord, RecordList, gather};
use std::alloc::Global;
use std::process::Abort;
use std::test::Fail;
use std::thread::Threads;
use trial_flows::{are_few, in_pieces, tcp_flow, udp_flow};
use trial_samples::octets_of;

/// The message with the templates, without its first eight bytes.
const TEMPLATES: &str = "0000000000000001000200640100000b00080004000c0004000700020\
    00b00020004000100060002000200080001000800980008009900080088000\
    10101000b001b0010001c001000070002000b000200040001000600020002000800010008009800080099000800880001";

/// Whether the layout of these records, in messages of at most 1,400 octets, is the message with the templates and then
/// these bytes.
fn is_laid_out(
    alloc: Global,
    records: &[FlowRecord],
    time: u32,
    time_bytes: &str,
    data: &str,
) -> Result<bool, Fail> {
    let wanted = octets_of(alloc, &["000a0074", time_bytes, TEMPLATES, data])?;
    let bytes = layout(alloc, records, 1400, time)?;
    Ok(bytes.as_slice() == wanted.as_slice())
}

#[test]
fn streams_are_laid_out_as_written_by_hand(rt: HostRuntime) -> Result<(), Fail> {
    assert!(rt; is_laid_out(rt.alloc(), &[], 0, "00000000", "")?);
    let one = "000a0044000003e900000000000000010100003\
        4c0000201c00002020fa000351100000000000000000002000000000000003800000000000f424000000000000f462804";
    assert!(rt;
        is_laid_out(
            rt.alloc(),
            &[udp_flow(4000, 2, 56, 1_001_000)],
            1001,
            "000003e9",
            one
        )?
    );
    let two = "000a00a400000005000000000000000101010094\
        20010db800000000000000000000000120010db80000000000000000000000020000000006000000000000000000010000000000\
        00009c0000000000001388000000000000138804\
        20010db800000000000000000000000120010db8000000000000000000000002040101bb06001000000000000000010000000000\
        00004c0000000000001388000000000000138804";
    assert!(rt;
        is_laid_out(
            rt.alloc(),
            &[tcp_flow(0, 0, 156, 0), tcp_flow(1025, 443, 76, 16)],
            5,
            "00000005",
            two
        )?
    );
    Ok(())
}

/// The fragments of records.
fn parts_of(alloc: Global, records: &[FlowRecord]) -> Result<Vec<Fragment>, Fail> {
    let mut parts = Vec::new(alloc);
    for record in records {
        parts.push(record.part)?;
    }
    Ok(parts)
}

/// The records, each of a key of its own, in the written order.
fn listed(
    rt: &(impl Abort + Threads + Sync),
    alloc: Global,
    records: &[FlowRecord],
) -> Result<RecordList, Fail> {
    let parts = parts_of(alloc, records)?;
    assert!(rt; are_few(&parts));
    let list = in_pieces(alloc, &parts)?;
    Ok(gather(
        rt,
        alloc,
        list,
        Timeouts::new(300, 1800),
        Some(1_000_000),
        2,
    )?)
}

/// How many messages are written of records, and how many octets the sink then has. It takes so many octets a call, and
/// fails at one call. The records are written by at most this many threads.
fn emitted(
    rt: &(impl Threads + Sync),
    alloc: Global,
    list: &RecordList,
    size: usize,
    threads: usize,
    piece: usize,
    fails: u64,
) -> Result<(Result<u64, Failed>, usize), Fail>
    requires size { (116 ≤ size) × (size < 2 ^ 16) }
    requires some { 0 < piece }
{
    let emitter = Emitter::open(alloc, size, 1000)?;
    let room = CopyRoom::open(alloc, threads, list.len())?;
    let fails = [fails];
    let mut sink = MemSink::open(alloc, 1 << 20, piece, fails.as_slice())?;
    let end = emit_all(rt, emitter, room, list, &mut sink);
    Ok((end, sink.held().len()))
}

/// Records over IPv4 of one packet each, so many and from this source port on.
fn udp_flows(alloc: Global, from: u16, count: u16) -> Result<Vec<FlowRecord>, Fail> {
    let mut records = Vec::new(alloc);
    for place in 0..count {
        records.push(udp_flow(from.wrapping_add(place), 1, 28, 1_000_000))?;
    }
    Ok(records)
}

/// Thirty records over IPv4, and one over IPv6 before the last.
fn mixed_flows(alloc: Global) -> Result<Vec<FlowRecord>, Fail> {
    let mut records = udp_flows(alloc, 4000, 29)?;
    records.push(tcp_flow(1025, 443, 76, 16))?;
    records.push(udp_flow(1, 1, 28, 1_000_000))?;
    Ok(records)
}

/// The record over IPv6 ends before those over IPv4, so it comes first. So few records are all written by one thread,
/// though there may be four.
#[test]
fn messages_are_filled(rt: HostRuntime) -> Result<(), Fail> {
    let records = mixed_flows(rt.alloc())?;
    for (count, size, messages, length) in [
        (0, 1400, 1, 116),
        (28, 1400, 2, 116 + 1364),
        (29, 1400, 3, 116 + 1364 + 68),
        (30, 1400, 3, 116 + 1392 + 116),
        (31, 1400, 3, 116 + 1392 + 164),
        (4, 116, 3, 116 + 116 + 116),
        (3, 116, 3, 116 + 116 + 68),
        (31, 65_535, 2, 116 + 16 + 2 * 4 + 30 * 48 + 72),
    ] {
        assert!(rt; count <= records.len() && size >= 116 && size < 65_536);
        let (first, _) = records.as_slice().split_at(count);
        let list = listed(&rt, rt.alloc(), first)?;
        let emitted = emitted(&rt, rt.alloc(), &list, size, 4, 4096, 0)?;
        assert!(rt;
            emitted == (Ok(messages), length),
            "{count} records, size {size}"
        );
    }
    Ok(())
}

#[test]
fn a_failed_write_leaves_a_beginning(rt: HostRuntime) -> Result<(), Fail> {
    let records = [udp_flow(4000, 1, 28, 1_000_000)];
    let list = listed(&rt, rt.alloc(), records.as_slice())?;
    for (fails, held) in [(1, 0), (2, 60), (3, 120), (4, 180)] {
        let emitted = emitted(&rt, rt.alloc(), &list, 1400, 1, 60, fails)?;
        assert!(rt; emitted == (Err(Failed), held));
    }
    Ok(())
}

/// The message with the templates has 116 octets, and a message of 28 records has 1,364: the former and 192 of the
/// latter go out in one call of at most 262,144 octets, then twice 192; 31 more such messages and one of 4 records are
/// left. So many records are copied by other threads: two threads have five rounds of copies, and four have two.
#[test]
fn a_stream_goes_out_in_whole_messages(rt: HostRuntime) -> Result<(), Fail> {
    let records = udp_flows(rt.alloc(), 0, 17_000)?;
    let list = listed(&rt, rt.alloc(), records.as_slice())?;
    for threads in [1, 2, 4] {
        for (fails, end, held) in [
            (1, Err(Failed), 0),
            (3, Err(Failed), 116 + 384 * 1364),
            (0, Ok(609), 116 + 607 * 1364 + 212),
        ] {
            let emitted = emitted(&rt, rt.alloc(), &list, 1400, threads, 1 << 20, fails)?;
            assert!(rt; emitted == (end, held));
        }
    }
    Ok(())
}
