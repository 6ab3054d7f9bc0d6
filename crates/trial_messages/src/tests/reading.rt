//! Streams made by hand from the standard, and what is read of them.

use StreamFault::{
    BadLength, BadPadding, BadSequence, BadTemplate, BadVersion, Cut, NoTemplate, Withdrawal,
};
use Want::{Fault, Records};
use ipfix_model::DataRecord;
use ipfix_reader::{FlowsError, StreamError, StreamFault, flow_of, read_flows, read_stream};
use record_ledger::FlowRecord;
use std::alloc::{AllocError, Global};
use std::process::Abort;
use std::test::Fail;
use trial_flows::{tcp_flow, udp_flow};
use trial_samples::octets_of;

/// The answer that is wanted for a stream: its records as text, or its first fault.
#[derive(Clone, Copy, Debug, PartialEq, Eq)]
enum Want {
    Records(&'static str),
    Fault(StreamFault),
}

/// A stream in hexadecimal digits, and the answer that is wanted.
struct Row {
    stream: &'static str,
    want: Want,
}

/// Rows of a table: the stream, and its records or its fault.
macro_rules! streams {
    ($($stream:literal => $want:expr;)*) => {
        &[$(Row { stream: $stream, want: $want }),*]
    };
}

/// The end of a message's header: export time and sequence number 0, and domain 1.
const TAIL: &str = "00000000 00000000 00000001";

/// The pieces of a text between its letters `M`, with [`TAIL`] for each of these.
fn push_pieces<'a>(pieces: &mut Vec<&'a str>, text: &'a str) -> Result<(), Fail> {
    for piece in text.split('M') {
        pieces.push(piece)?;
        pieces.push(TAIL)?;
    }
    // None stands behind the last piece.
    pieces.pop();
    Ok(())
}

/// The octets that hexadecimal digits stand for; `M` stands for [`TAIL`].
fn bytes_of(alloc: Global, texts: &[&str]) -> Result<Vec<u8>, Fail> {
    let mut pieces = Vec::new(alloc);
    for text in texts {
        push_pieces(&mut pieces, text)?;
    }
    octets_of(alloc, pieces.as_slice())
}

/// Records as text: domain and template, each element with its value in hexadecimal digits, and a semicolon.
fn text_of(alloc: Global, records: &[DataRecord]) -> Result<String, AllocError> {
    let mut text = String::new(alloc);
    for rec in records {
        let domain = rec.domain;
        let template = rec.template;
        write!(text, "{domain}/{template}")?;
        for field in rec.fields.items() {
            let element = field.element;
            match field.enterprise {
                None => write!(text, " {element}=")?,
                Some(enterprise) => write!(text, " {enterprise}.{element}=")?,
            }
            for byte in field.value.items() {
                write!(text, "{byte:02x}")?;
            }
        }
        write!(text, ";")?;
    }
    Ok(text)
}

/// Checks that each stream gives the answer that is wanted.
fn check_rows<R: Abort + AllocGlobal>(rt: &R, rows: &[Row]) -> Result<(), Fail> {
    for row in rows {
        let bytes = bytes_of(rt.alloc(), &[row.stream])?;
        check_row(rt, row, &bytes)?;
    }
    Ok(())
}

/// Checks that the stream of a row, whose octets are these, gives the answer that is wanted.
fn check_row<R: Abort + AllocGlobal>(rt: &R, row: &Row, bytes: &[u8]) -> Result<(), Fail> {
    match read_stream(rt.alloc(), bytes) {
        Ok(records) => {
            let text = text_of(rt.alloc(), &records)?;
            assert!(rt; is_text_of(&text, row.want), "{}: {text}", row.stream);
        }
        Err(StreamError::Fault(fault)) => assert_eq!(rt; Fault(fault), row.want),
        Err(StreamError::NoMemory) => return Err(Fail::from("no memory")),
    }
    Ok(())
}

/// Whether records are wanted, and this is their text.
fn is_text_of(text: &str, want: Want) -> bool {
    match want {
        Records(wanted) => text == wanted,
        Fault(_) => false,
    }
}

#[test]
fn each_fault_stands_where_it_is(rt: HostRuntime) -> Result<(), Fail> {
    check_rows(
        &rt,
        streams! {
            "000a0010 M" => Records("");
            "00090010 M" => Fault(BadVersion { at: 0 });
            "000a0008 M" => Fault(BadLength { at: 0 });
            "000a0018 M 01000008 00000000" => Fault(NoTemplate { at: 16, id: 256 });
            "000a0018 M 00020008 01000000" => Fault(Withdrawal { at: 20 });
            "000a0018 M 00020008 00ff0001" => Fault(BadTemplate { at: 20 });
            "000a0015 M 00020005 01" => Fault(BadPadding { at: 20 });
            "000a0010 M 000a0010 00000000 00000001 00000001" => Fault(BadSequence { at: 16 });
            "000a0011 M" => Fault(Cut { at: 0 });
        },
    )
}

/// Streams by what stands in them, and what the standard makes of each.
static STREAMS: &[Row] = streams! {
    // Streams and messages without records.
    "" => Records("");
    "000a0010 M" => Records("");
    "000a0010 M 000a0010 M 000a0010 M" => Records("");
    "000a0014 M 00020004" => Records("");
    // A template, and data of it.
    "000a0022 M 0002000c 01000001 00070002 01000006 0fa0" => Records("1/256 7=0fa0;");
    "000a0024 M 0002000c 01000001 00070002 01000008 0fa0 0035" => Records("1/256 7=0fa0;1/256 7=0035;");
    "000a001c M 0002000c 01000001 00070002 000a0016 M 01000006 0fa0" => Records("1/256 7=0fa0;");
    "000a0022 M 0002000c ffff0001 00070002 ffff0006 0fa0" => Records("1/65535 7=0fa0;");
    "000a0020 M 0002000c 01000001 00070002 01000004" => Records("");
    // Data whose template isn't known, or isn't known yet.
    "000a0022 M 01000006 0fa0 0002000c 01000001 00070002" => Fault(NoTemplate { at: 16, id: 256 });
    "000a0026 M 0002000c 01000001 00070002 01000006 0fa0 01010004" => Fault(NoTemplate { at: 34, id: 257 });
    // Templates are known in the domain of their message alone.
    "000a001c M 0002000c 01000001 00070002 000a0016 00000000 00000000 00000002 01000006 0fa0" =>
        Fault(NoTemplate { at: 44, id: 256 });
    "000a001c M 0002000c 01000001 00070002 000a001c 00000000 00000000 00000002 0002000c 01000001 00040001 000a0016 M 01000006 0fa0 000a0015 00000000 00000000 00000002 01000005 11" => Records("1/256 7=0fa0;2/256 4=11;");
    // A later template takes the place of an earlier one.
    "000a0033 M 0002000c 01000001 00070002 01000006 0fa0 0002000c 01000001 00040001 01000005 11" =>
        Records("1/256 7=0fa0;1/256 4=11;");
    "000a0029 M 00020014 01000001 00070002 01000001 00040001 01000005 11" => Records("1/256 4=11;");
    // Options templates: a scope of one to all fields; their data counts.
    "000a0032 M 00030012 0102 0002 0001 00950004 00290008 01020010 00000001 0000000000000005" =>
        Records("1/258 149=00000001 41=0000000000000005;");
    "000a0022 M 00030012 0102 0002 0002 00950004 00290008" => Records("");
    "000a0022 M 00030012 0102 0002 0000 00950004 00290008" => Fault(BadTemplate { at: 20 });
    "000a0022 M 00030012 0102 0002 0003 00950004 00290008" => Fault(BadTemplate { at: 20 });
    "000a001e M 0003000e 00ff 0001 0001 00950004" => Fault(BadTemplate { at: 20 });
    "000a0018 M 00030008 0102 0000" => Fault(Withdrawal { at: 20 });
    "000a0018 M 00030008 0102 0001" => Fault(BadTemplate { at: 20 });
    "000a0032 M 00030012 0102 0002 0001 00950004 00290008 01020010 00000001 0000000000000005 000a0010 00000000 00000001 00000001" => Records("1/258 149=00000001 41=0000000000000005;");
    "000a0032 M 00030012 0102 0002 0001 00950004 00290008 01020010 00000001 0000000000000005 000a0010 M" =>
        Fault(BadSequence { at: 50 });
    // Enterprise fields.
    "000a0028 M 00020010 01000001 80010004 00007279 01000008 deadbeef" => Records("1/256 29305.1=deadbeef;");
    "000a0026 M 00020010 01000001 80000002 00000001 01000006 0fa0" => Records("1/256 1.0=0fa0;");
    "000a0029 M 00020014 01000002 ffff0001 ffffffff 00070002 01000005 01" => Fault(BadPadding { at: 40 });
    "000a002b M 00020014 01000002 ffff0001 ffffffff 00070002 01000007 010fa0" =>
        Records("1/256 4294967295.32767=01 7=0fa0;");
    "000a001e M 0002000e 01000001 80010004 0000" => Fault(BadTemplate { at: 20 });
    // Template records that go beyond their set, and a second one at fault.
    "000a001a M 0002000a 01000001 0007" => Fault(BadTemplate { at: 20 });
    "000a001c M 0002000c 01000002 00070002" => Fault(BadTemplate { at: 20 });
    "000a001c M 0002000c ffffffff 00070002" => Fault(BadTemplate { at: 20 });
    "000a0024 M 00020014 01000001 00070002 00ff0001 00070002" => Fault(BadTemplate { at: 28 });
    "000a0018 M 00020008 00ff0000" => Fault(Withdrawal { at: 20 });
    // Records of no byte, and a field of no byte.
    "000a001c M 0002000c 01000001 00070000" => Fault(BadTemplate { at: 20 });
    "000a0025 M 00020010 01000002 00070000 00040001 01000005 11" => Records("1/256 7= 4=11;");
    // Variable lengths, by one byte and by three.
    "000a0024 M 0002000c 01000001 0052ffff 01000008 03616263" => Records("1/256 82=616263;");
    "000a0021 M 0002000c 01000001 0052ffff 01000005 00" => Records("1/256 82=;");
    "000a0025 M 0002000c 01000001 0052ffff 01000009 ff00026162" => Records("1/256 82=6162;");
    "000a0023 M 0002000c 01000001 0052ffff 01000007 ff0000" => Records("1/256 82=;");
    "000a0024 M 0002000c 01000001 0052ffff 01000008 00016100" => Records("1/256 82=;1/256 82=61;1/256 82=;");
    "000a0024 M 0002000c 01000001 0052ffff 01000008 04616263" => Fault(BadLength { at: 32 });
    "000a0022 M 0002000c 01000001 0052ffff 01000006 ff00" => Fault(BadLength { at: 32 });
    "000a0023 M 0002000c 01000001 0052ffff 01000007 ffffff" => Fault(BadLength { at: 32 });
    "000a0027 M 00020010 01000002 0052ffff 00040001 01000007 016111" => Records("1/256 82=61 4=11;");
    "000a0027 M 00020010 01000002 0052ffff 00040001 01000007 026111" => Fault(BadLength { at: 36 });
    // Sets 0, 1 and 4 to 255 are skipped unread.
    "000a0024 M 00000005 ff 00010005 ff 00040005 ff 00ff0005 ff" => Records("");
    // Lengths of sets.
    "000a0012 M 0002" => Fault(BadLength { at: 16 });
    "000a0014 M 00040000" => Fault(BadLength { at: 16 });
    "000a0014 M 00040003" => Fault(BadLength { at: 16 });
    "000a0014 M 00040005" => Fault(BadLength { at: 16 });
    "000a0019 M 00040005 ff 00040005" => Fault(BadLength { at: 21 });
    // Padding, and what is a record.
    "000a001d M 0002000d 01000001 00070002 00" => Records("");
    "000a001f M 0002000f 01000001 00070002 000000" => Records("");
    "000a001f M 0002000f 01000001 00070002 000001" => Fault(BadPadding { at: 28 });
    "000a0020 M 00020010 01000001 00070002 00000000" => Fault(Withdrawal { at: 28 });
    "000a0027 M 0002000c 01000001 00010004 0100000b 0000001c 000000" => Records("1/256 1=0000001c;");
    "000a0027 M 0002000c 01000001 00010004 0100000b 0000001c 010000" => Fault(BadPadding { at: 36 });
    "000a0028 M 0002000c 01000001 00010004 0100000c 0000001c 00000000" => Records("1/256 1=0000001c;1/256 1=00000000;");
    "000a0023 M 0002000c 01000001 00010004 01000007 000000" => Records("");
    // Lengths of messages, and the stream's end.
    "000a000f M" => Fault(BadLength { at: 0 });
    "00090008 M" => Fault(BadVersion { at: 0 });
    "000a000f 00000000 00000000 000000" => Fault(Cut { at: 0 });
    "000a0010 M 000a" => Fault(Cut { at: 16 });
    "000a0010 M 000a0014 00000000 00000001 00000001" => Fault(Cut { at: 16 });
    // Sequence numbers, across 2^32 and by domain; template records don't count.
    "000a0022 00000000 ffffffff 00000001 0002000c 01000001 00070002 01000006 0fa0 000a0010 M" =>
        Records("1/256 7=0fa0;");
    "000a0010 00000000 ffffffff 00000001 000a0010 00000000 ffffffff 00000001 000a0010 M" =>
        Fault(BadSequence { at: 32 });
    "000a0010 00000000 00000005 00000001 000a0010 00000000 00000009 00000002 000a0010 00000000 00000005 00000001 000a0010 00000000 00000009 00000002" => Records("");
    "000a0010 00000000 00000005 00000001 000a0010 00000000 00000009 00000002 000a0010 00000000 00000005 00000002" =>
        Fault(BadSequence { at: 32 });
    "000a001c M 0002000c 01000001 00070002 000a0010 00000000 00000001 00000001" => Fault(BadSequence { at: 28 });
    "000a0010 M 000a0012 00000000 00000001 00000001 0002" => Fault(BadSequence { at: 16 });
};

#[test]
fn streams_are_read_as_the_standard_says(rt: HostRuntime) -> Result<(), Fail> {
    check_rows(&rt, STREAMS)
}

/// The message with the templates for flows over IPv4 and over IPv6.
const TEMPLATES: &str = "000a0074 000003e9 00000000 00000001 0002 0064\
    0100000b 00080004 000c0004 00070002 000b0002 00040001 00060002 00020008 00010008 00980008 00990008 00880001\
    0101000b 001b0010 001c0010 00070002 000b0002 00040001 00060002 00020008 00010008 00980008 00990008 00880001";

/// UDP from 192.0.2.1 port 4000 to 192.0.2.2 port 53: 2 packets of 56 octets from 1000 s to 1001 s, forced end.
const UDP: &str =
    "c0000201 c0000202 0fa0 0035 11 0000 0000000000000002 0000000000000038 00000000000f4240 00000000000f4628 04";

/// The first `count` bytes.
fn front(bytes: &[u8], count: usize) -> &[u8] {
    let (front, _) = bytes.split_at(count.min(bytes.len()));
    front
}

/// The data records of a stream.
fn read_records(alloc: Global, bytes: &[u8]) -> Result<Vec<DataRecord>, Fail> {
    read_stream(alloc, bytes).map_err(|_| Fail::from("no stream"))
}

/// The flow record that the only data record of a stream is, if it is one, which two calls must say alike.
fn flow_in(alloc: Global, pieces: &[&str]) -> Result<Option<FlowRecord>, Fail> {
    let bytes = bytes_of(alloc, pieces)?;
    let flow = flow_of_only(alloc, &bytes)?;
    if first_flow(alloc, &bytes)? != flow {
        return Err(Fail::from("not that flow record"));
    }
    Ok(flow)
}

/// The flow record that the only data record of a stream is, if it is one.
fn flow_of_only(alloc: Global, bytes: &[u8]) -> Result<Option<FlowRecord>, Fail> {
    match read_records(alloc, bytes)?.as_slice() {
        [only] => Ok(flow_of(only)),
        _ => Err(Fail::from("not one record")),
    }
}

/// The first flow record of a stream whose first data record may be none.
fn first_flow(alloc: Global, bytes: &[u8]) -> Result<Option<FlowRecord>, Fail> {
    match read_flows(alloc, bytes) {
        Ok(flows) => Ok(flows.first().copied()),
        Err(FlowsError::NotFlows(0)) => Ok(None),
        Err(_) => Err(Fail::from("no stream of flow records")),
    }
}

#[test]
fn a_written_stream_is_read(rt: HostRuntime) -> Result<(), Fail> {
    let head = "000a0044 000003e9 00000000 00000001 0100 0034";
    assert_eq!(rt;
        flow_in(rt.alloc(), &[TEMPLATES, head, UDP])?,
        Some(udp_flow(4000, 2, 56, 1_001_000))
    );
    let bytes = bytes_of(rt.alloc(), &[TEMPLATES, head, UDP])?;
    let whole = bytes.as_slice();
    assert_eq!(rt; whole.len(), 184);
    assert_eq!(rt;
        read_stream(rt.alloc(), front(whole, 183)).err(),
        Some(StreamError::Fault(Cut { at: 116 }))
    );
    assert_eq!(rt;
        read_flows(rt.alloc(), front(whole, 183)).err(),
        Some(FlowsError::NotStream(Cut { at: 116 }))
    );
    let records = read_records(rt.alloc(), whole)?;
    assert_eq!(rt;
        text_of(rt.alloc(), records.as_slice())?.as_str(),
        "1/256 8=c0000201 12=c0000202 7=0fa0 11=0035 4=11 6=0000 2=0000000000000002 1=0000000000000038 152=00000000000f4240 153=00000000000f4628 136=04;"
    );
    Ok(())
}

#[test]
fn records_over_ipv6_are_flows(rt: HostRuntime) -> Result<(), Fail> {
    let addresses = "20010db8000000000000000000000001 20010db8000000000000000000000002";
    let fragment =
        "0000 0000 06 0000 0000000000000001 000000000000009c 0000000000001388 0000000000001388 04";
    let segment =
        "0401 01bb 06 0010 0000000000000001 000000000000004c 0000000000001388 0000000000001388 04";
    let head = "000a00a4 00000005 00000000 00000001 0101 0094";
    let bytes = bytes_of(
        rt.alloc(),
        &[TEMPLATES, head, addresses, fragment, addresses, segment],
    )?;
    let records = read_records(rt.alloc(), bytes.as_slice())?;
    assert_eq!(rt; records.len(), 2);
    assert_eq!(rt; flow_of(&records[0]), Some(tcp_flow(0, 0, 156, 0)));
    assert_eq!(rt; flow_of(&records[1]), Some(tcp_flow(1025, 443, 76, 16)));
    Ok(())
}

/// The counts, times and end reason of a record over IPv4, and whether it is a flow.
static COUNTS: [(&str, bool); 4] = [
    (
        "0000000000000001 0000000000000000 0000000000000001 0000000000000001 00",
        true,
    ),
    (
        "ffffffffffffffff ffffffffffffffff ffffffffffffffff ffffffffffffffff ff",
        true,
    ),
    (
        "0000000000000000 0000000000000038 00000000000f4240 00000000000f4628 04",
        false,
    ),
    (
        "0000000000000001 0000000000000038 00000000000f4629 00000000000f4628 04",
        false,
    ),
];

#[test]
fn other_numbers_are_no_flows(rt: HostRuntime) -> Result<(), Fail> {
    let head = "000a0044 M 0100 0034 c0000201 c0000202 0fa0 0035 11 0000";
    for (rest, is_flow) in COUNTS {
        assert_eq!(rt;
            flow_in(rt.alloc(), &[TEMPLATES, head, rest])?.is_some(),
            is_flow
        );
    }
    Ok(())
}

/// The fields of addresses and ports in a template, and whether its records are flows.
static ADDRESSES: [(&str, bool); 5] = [
    ("00080004 000c0004 00070002 000b0002", true),
    ("000c0004 00080004 00070002 000b0002", false),
    ("00080004 000c0004 000b0002 00070002", false),
    ("001b0004 001c0004 00070002 000b0002", false),
    ("00080004 000c0003 00070003 000b0002", false),
];

#[test]
fn other_fields_are_no_flows(rt: HostRuntime) -> Result<(), Fail> {
    let head = "000a0044 M 0002 0034 0200000b";
    let behind = "00040001 00060002 00020008 00010008 00980008 00990008";
    let data = "000a0044 M 0200 0034";
    for (addresses, is_flow) in ADDRESSES {
        let pieces = [head, addresses, behind, "00880001", data, UDP];
        assert_eq!(rt; flow_in(rt.alloc(), pieces.as_slice())?.is_some(), is_flow);
    }
    let enterprise = "000a0048 M 0002 0038 0200000b 00080004 000c0004 00070002 000b0002";
    let pieces = [enterprise, behind, "80880001 00007279", data, UDP];
    assert_eq!(rt; flow_in(rt.alloc(), pieces.as_slice())?, None);
    Ok(())
}

#[test]
fn a_message_may_hold_28_records(rt: HostRuntime) -> Result<(), Fail> {
    let mut bytes = bytes_of(rt.alloc(), &[TEMPLATES, "000a0554 M 0100 0544"])?;
    for _ in 0..28 {
        bytes.extend_from_slice(bytes_of(rt.alloc(), &[UDP])?.as_slice())?;
    }
    let last = bytes_of(
        rt.alloc(),
        &["000a0044 00000000 0000001c 00000001 0100 0034", UDP],
    )?;
    bytes.extend_from_slice(last.as_slice())?;
    assert_eq!(rt; bytes.len(), 116 + 1364 + 68);
    let records = read_records(rt.alloc(), bytes.as_slice())?;
    assert_eq!(rt; records.len(), 29);
    for rec in records.iter() {
        assert_eq!(rt; flow_of(rec), Some(udp_flow(4000, 2, 56, 1_001_000)));
    }
    let flows = read_flows(rt.alloc(), bytes.as_slice()).map_err(|_| Fail::from("no flows"))?;
    assert_eq!(rt; flows.len(), 29);
    Ok(())
}

#[test]
fn the_first_other_record_is_told(rt: HostRuntime) -> Result<(), Fail> {
    let other = "000a0024 00000002 00000002 00000001 0002000c 01000001 00520001 01000008 61626364";
    let flows = ["000a0074 M 0100 0064", UDP, UDP];
    let bytes = bytes_of(
        rt.alloc(),
        &[TEMPLATES, flows[0], flows[1], flows[2], other],
    )?;
    assert_eq!(rt;
        read_flows(rt.alloc(), bytes.as_slice()).err(),
        Some(FlowsError::NotFlows(2))
    );
    let cut = front(bytes.as_slice(), bytes.len().saturating_sub(1));
    assert_eq!(rt;
        read_flows(rt.alloc(), cut).err(),
        Some(FlowsError::NotStream(Cut { at: 232 }))
    );
    Ok(())
}

/// A stream of one record with one value so long.
fn long_stream(alloc: Global, head: &str, set: &str, length: usize) -> Result<Vec<u8>, Fail> {
    let mut bytes = bytes_of(alloc, &[head, "0002000c 01000001 0052ffff", set])?;
    bytes.resize(bytes.len().saturating_add(length), b'a')?;
    Ok(bytes)
}

#[test]
fn long_values_are_read(rt: HostRuntime) -> Result<(), Fail> {
    for (head, set, length) in [
        ("000a011f M", "01000103 fe", 254),
        ("000a0122 M", "01000106 ff00ff", 255),
    ] {
        let bytes = long_stream(rt.alloc(), head, set, length)?;
        let records = read_records(rt.alloc(), bytes.as_slice())?;
        assert_eq!(rt; records.len(), 1);
        for field in records[0].fields.items() {
            assert_eq!(rt; field.value.items().len(), length);
        }
    }
    Ok(())
}
