//! Records whose pairs were worked out by hand from the rule.

ghost use Rattle.std.specs.Prelude.{◌+◌, ◌≤◌, ◌<◌, ◌^◌};

use flow_key::FlowKey;
use flow_parts::Fragment;
use ipfix_reader::StreamFault;
use ipfix_writer::layout;
use pair_program::{Biflow, PairError, bi_layout, pair, pair_stream};
use record_ledger::FlowRecord;
use std::test::Fail;

/// A record of one packet between 192.0.2.1 and 192.0.2.2, from the first to the second where `out`. `near` is the port
/// of the first and `far` that of the second. The record begins at `first` and lasts `length` milliseconds.
fn record(out: bool, near: u16, far: u16, first: u64, length: u32) -> FlowRecord
    requires { first + length < 2 ^ 64 }
{
    let (source, destination) = if out {
        (0xc000_0201, 0xc000_0202)
    } else {
        (0xc000_0202, 0xc000_0201)
    };
    let (source_port, destination_port) = if out { (near, far) } else { (far, near) };
    let key = FlowKey {
        version: 4,
        source,
        destination,
        protocol: 6,
        source_port,
        destination_port,
    };
    let part = Fragment {
        key,
        packets: 1,
        octets: 40,
        first,
        last: first + length as u64,
        flags: 0,
    };
    FlowRecord { part, reason: 4 }
}

/// A biflow without a reverse flow.
fn one_way(forward: FlowRecord) -> Biflow {
    Biflow {
        forward,
        reverse: None,
    }
}

/// A biflow of a flow and its reverse.
fn both(forward: FlowRecord, reverse: FlowRecord) -> Biflow {
    Biflow {
        forward,
        reverse: Some(reverse),
    }
}

/// Whether the biflows of these records, with an idle time-out of 300 s, are these.
fn are_pairs(rt: &HostRuntime, records: &[FlowRecord], wanted: &[Biflow]) -> Result<bool, Fail> {
    let records = records
        .to_vec(rt.alloc())
        .map_err(|_| Fail::from("no memory"))?;
    let pairs = pair(rt.alloc(), records, 300_000).map_err(|_| Fail::from("no memory"))?;
    Ok(pairs.as_slice() == wanted)
}

#[test]
fn records_are_put_together_with_their_mates(rt: HostRuntime) -> Result<(), Fail> {
    let query = record(true, 40_000, 80, 1_000_000, 200);
    let reply = record(false, 40_000, 80, 1_000_010, 100);
    let other = record(true, 40_001, 80, 1_000_005, 0);
    assert!(rt; are_pairs(&rt, &[], &[])?);
    assert!(rt; are_pairs(&rt, [query].as_slice(), [one_way(query)].as_slice())?);
    assert!(rt;
        are_pairs(
            &rt,
            [reply, other, query].as_slice(),
            [both(query, reply), one_way(other)].as_slice()
        )?
    );
    Ok(())
}

#[test]
fn mates_stand_within_the_idle_time_out(rt: HostRuntime) -> Result<(), Fail> {
    let query = record(true, 40_000, 80, 1_000_000, 200);
    let reply = record(false, 40_000, 80, 1_000_010, 100);
    let later = record(false, 40_000, 80, 1_300_200, 0);
    let too_late = record(false, 40_000, 80, 1_300_201, 0);
    assert!(rt;
        are_pairs(
            &rt,
            [query, later].as_slice(),
            [both(query, later)].as_slice()
        )?
    );
    assert!(rt;
        are_pairs(
            &rt,
            [too_late, query].as_slice(),
            [one_way(query), one_way(too_late)].as_slice()
        )?
    );
    assert!(rt;
        are_pairs(
            &rt,
            [query, reply, later].as_slice(),
            [both(query, reply), one_way(later)].as_slice()
        )?
    );
    let again = record(true, 40_000, 80, 1_000_300, 0);
    assert!(rt;
        are_pairs(
            &rt,
            [again, later, reply, query].as_slice(),
            [both(query, reply), both(again, later)].as_slice()
        )?
    );
    Ok(())
}

#[test]
fn a_key_that_is_its_own_reverse_has_no_mate(rt: HostRuntime) -> Result<(), Fail> {
    let mut own = record(true, 80, 80, 1_000_000, 0);
    own.part.key.destination = own.part.key.source;
    assert!(rt;
        are_pairs(
            &rt,
            [own, own].as_slice(),
            [one_way(own), one_way(own)].as_slice()
        )?
    );
    Ok(())
}

/// The octets of the layout of these biflows in messages of at most 1,400 octets.
fn laid_out(rt: &HostRuntime, pairs: &[Biflow]) -> Result<usize, Fail> {
    let stream = bi_layout(rt.alloc(), pairs, 1400, 1000).map_err(|_| Fail::from("no memory"))?;
    Ok(stream.len())
}

#[test]
fn biflows_are_laid_out(rt: HostRuntime) -> Result<(), Fail> {
    let query = record(true, 40_000, 80, 1_000_000, 200);
    let reply = record(false, 40_000, 80, 1_000_010, 100);
    let exchange = both(query, reply);
    assert_eq!(rt; laid_out(&rt, &[])?, 308);
    assert_eq!(rt;
        laid_out(&rt, [one_way(query)].as_slice())?,
        308 + 16 + 4 + 48
    );
    assert_eq!(rt;
        laid_out(&rt, [exchange, exchange].as_slice())?,
        308 + 16 + 4 + 83 + 83
    );
    assert_eq!(rt;
        laid_out(&rt, [one_way(query), exchange].as_slice())?,
        308 + 16 + 4 + 48 + 4 + 83
    );
    Ok(())
}

#[test]
fn the_values_of_a_reverse_flow_stand_behind_those_of_the_forward_one(
    rt: HostRuntime,
) -> Result<(), Fail> {
    let query = record(true, 40_000, 80, 1_000_000, 200);
    let mut reply = record(false, 40_000, 80, 1_000_010, 100);
    reply.part.flags = 0x12;
    reply.reason = 1;
    let pairs = [both(query, reply)];
    let stream = bi_layout(rt.alloc(), pairs.as_slice(), 1400, 1000).map_err(|_| Fail::from(
        "no memory",
    ))?;
    let wanted: [u8; 35] = [
        0, 0x12, 0, 0, 0, 0, 0, 0, 0, 1, 0, 0, 0, 0, 0, 0, 0, 40, 0, 0, 0, 0, 0, 0x0f, 0x42, 0x4a,
        0, 0, 0, 0, 0, 0x0f, 0x42, 0xae, 1,
    ];
    assert_eq!(rt; stream.len(), 308 + 103);
    for (byte, wanted) in stream.iter().skip(308 + 16 + 4 + 48).zip(wanted.iter()) {
        assert_eq!(rt; *byte, *wanted);
    }
    Ok(())
}

/// What the stream of these records becomes: the length of the stream of their biflows.
fn paired_length(rt: &HostRuntime, records: &[FlowRecord]) -> Result<usize, Fail> {
    let stream = layout(rt.alloc(), records, 1400, 1000).map_err(|_| Fail::from("no memory"))?;
    let written = pair_stream(rt.alloc(), stream, 300_000, 1400).map_err(|_| Fail::from(
        "refused",
    ))?;
    Ok(written.len())
}

#[test]
fn streams_are_paired(rt: HostRuntime) -> Result<(), Fail> {
    let query = record(true, 40_000, 80, 1_000_000, 200);
    let reply = record(false, 40_000, 80, 1_000_010, 100);
    let ask = record(true, 40_001, 53, 1_000_000, 0);
    let answer = record(false, 40_001, 53, 1_000_001, 0);
    assert_eq!(rt; paired_length(&rt, &[])?, 308);
    assert_eq!(rt; paired_length(&rt, [query].as_slice())?, 376);
    assert_eq!(rt;
        paired_length(&rt, [ask, answer, reply, query].as_slice())?,
        494
    );
    Ok(())
}

#[test]
fn streams_of_others_are_refused(rt: HostRuntime) -> Result<(), Fail> {
    let query = record(true, 40_000, 80, 1_000_000, 200);
    let reply = record(false, 40_000, 80, 1_000_010, 100);
    let pairs = [one_way(query), both(query, reply)];
    let stream = bi_layout(rt.alloc(), pairs.as_slice(), 1400, 1000).map_err(|_| Fail::from(
        "no memory",
    ))?;
    let Some((_, front)) = stream.as_slice().split_last() else {
        return Err(Fail::from("no bytes"));
    };
    let front = front
        .to_vec(rt.alloc())
        .map_err(|_| Fail::from("no memory"))?;
    let refused = pair_stream(rt.alloc(), stream, 300_000, 1400);
    assert_eq!(rt; refused.err(), Some(PairError::NotFlows(1)));
    let refused = pair_stream(rt.alloc(), front, 300_000, 1400);
    assert_eq!(rt;
        refused.err(),
        Some(PairError::NotStream(StreamFault::Cut { at: 308 }))
    );
    Ok(())
}
