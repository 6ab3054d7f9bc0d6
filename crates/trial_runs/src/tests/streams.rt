//! The command `show` on streams.

use super::{TEMPLATES, TWO_PACKETS_RECORD, check_run};
use ipfix_reader::StreamFault::{
    self, BadLength, BadPadding, BadSequence, BadTemplate, BadVersion, Cut, NoTemplate, Withdrawal,
};
use meter_program::Status;
use std::test::Fail;
use trial_samples::octets_of;

/// A message's sequence number 0 and domain 1, behind its export time.
const ZEROS: &str = "00000000 00000000 00000001";

/// Streams, and what is written and reported of them.
static SHOWN: [(&[&str], &str, &str); 4] = [
    (&[], "", "records 0\n"),
    (&["000a0010", ZEROS], "", "records 0\n"),
    (
        &["000a0074 000003e9", TEMPLATES, TWO_PACKETS_RECORD],
        "256 8=192.0.2.1 12=192.0.2.2 7=4000 11=53 4=17 6=0 2=2 1=56 152=1000000 153=1001000 136=4\n",
        "records 1\n",
    ),
    (
        &[
            "000a0052",
            ZEROS,
            "00020018 01010004 001b0010 001c0010 00070002 00040001",
            "0101002a 20010db8000000000000000000000001 20010db8000000000000000000000002 0401 06 000000",
        ],
        "257 27=20010db8000000000000000000000001 28=20010db8000000000000000000000002 7=1025 4=6\n",
        "records 1\n",
    ),
];

#[test]
fn streams_are_shown(rt: HostRuntime) -> Result<(), Fail> {
    for (pieces, output, report) in SHOWN {
        let input = octets_of(rt.alloc(), pieces)?;
        check_run(
            &rt,
            report,
            "show",
            input.as_slice(),
            (Status::Done, output.as_bytes(), report),
        )?;
    }
    Ok(())
}

/// A field of variable length and its value, in messages of one template and one record, and how it is written by its
/// element, its enterprise and its length.
static VALUES: [(&[&str], &str); 14] = [
    (
        &["000a0021", ZEROS, "0002000c 01000001 0001ffff 01000005 00"],
        "256 1=\n",
    ),
    (
        &["000a0021", ZEROS, "0002000c 01000001 0008ffff 01000005 00"],
        "256 8=\n",
    ),
    (
        &[
            "000a0029",
            ZEROS,
            "0002000c 01000001 0001ffff 0100000d 08 ffffffffffffffff",
        ],
        "256 1=18446744073709551615\n",
    ),
    (
        &[
            "000a002a",
            ZEROS,
            "0002000c 01000001 0001ffff 0100000e 09 000000000000000001",
        ],
        "256 1=000000000000000001\n",
    ),
    (
        &[
            "000a0024",
            ZEROS,
            "0002000c 01000001 0006ffff 01000008 03 010010",
        ],
        "256 6=65552\n",
    ),
    (
        &[
            "000a0022",
            ZEROS,
            "0002000c 01000001 0088ffff 01000006 01 00",
        ],
        "256 136=0\n",
    ),
    (
        &[
            "000a0025",
            ZEROS,
            "0002000c 01000001 0008ffff 01000009 04 ff000a64",
        ],
        "256 8=255.0.10.100\n",
    ),
    (
        &[
            "000a0024",
            ZEROS,
            "0002000c 01000001 000cffff 01000008 03 0a0000",
        ],
        "256 12=0a0000\n",
    ),
    (
        &[
            "000a0031",
            ZEROS,
            "0002000c 01000001 0008ffff 01000015 10 000102030405060708090a0b0c0d0e0f",
        ],
        "256 8=000102030405060708090a0b0c0d0e0f\n",
    ),
    (
        &[
            "000a0022",
            ZEROS,
            "0002000c 01000001 0003ffff 01000006 01 07",
        ],
        "256 3=07\n",
    ),
    (
        &[
            "000a0023",
            ZEROS,
            "0002000c 01000001 7fffffff 01000007 02 9fa9",
        ],
        "256 32767=9fa9\n",
    ),
    (
        &[
            "000a002d",
            ZEROS,
            "00020010 01000001 8001ffff 00007279 0100000d 08 0000000000000005",
        ],
        "256 29305.1=0000000000000005\n",
    ),
    (
        &[
            "000a0029",
            ZEROS,
            "00020010 01000001 8008ffff ffffffff 01000009 04 c0000201",
        ],
        "256 4294967295.8=c0000201\n",
    ),
    (
        &[
            "000a0025",
            ZEROS,
            "00020010 01000001 8008ffff 00000000 01000005 00",
        ],
        "256 0.8=\n",
    ),
];

#[test]
fn a_value_is_written_by_its_element_and_length(rt: HostRuntime) -> Result<(), Fail> {
    for (pieces, line) in VALUES {
        let input = octets_of(rt.alloc(), pieces)?;
        check_run(
            &rt,
            line,
            "show",
            input.as_slice(),
            (Status::Done, line.as_bytes(), "records 1\n"),
        )?;
    }
    Ok(())
}

/// Messages with a fault, and what is reported of it.
static FAULTS: [(&[&str], StreamFault, &str); 9] = [
    (
        &["00090010", ZEROS],
        BadVersion { at: 0 },
        "not a stream: version at 0\n",
    ),
    (
        &["000a0008", ZEROS],
        BadLength { at: 0 },
        "not a stream: length at 0\n",
    ),
    (
        &["000a0018", ZEROS, "01000008 00000000"],
        NoTemplate { at: 16, id: 256 },
        "not a stream: template 256 at 16\n",
    ),
    (
        &["000a0018", ZEROS, "00020008 01000000"],
        Withdrawal { at: 20 },
        "not a stream: withdrawal at 20\n",
    ),
    (
        &["000a0018", ZEROS, "00020008 00ff0001"],
        BadTemplate { at: 20 },
        "not a stream: bad template at 20\n",
    ),
    (
        &["000a0015", ZEROS, "00020005 01"],
        BadPadding { at: 20 },
        "not a stream: padding at 20\n",
    ),
    (
        &["000a0010", ZEROS, "000a0010 00000000 00000001 00000001"],
        BadSequence { at: 16 },
        "not a stream: sequence at 16\n",
    ),
    (
        &["000a0011", ZEROS],
        Cut { at: 0 },
        "not a stream: cut at 0\n",
    ),
    // The stream of two packets without its last octet.
    (
        &[
            "000a0074 000003e9",
            TEMPLATES,
            "000a0044 000003e9 00000000 00000001 0100 0034 c0000201 c0000202 0fa0 0035 11 0000 \
            0000000000000002 0000000000000038 00000000000f4240 00000000000f4628",
        ],
        Cut { at: 116 },
        "not a stream: cut at 116\n",
    ),
];

#[test]
fn faults_of_streams_are_reported(rt: HostRuntime) -> Result<(), Fail> {
    for (pieces, fault, report) in FAULTS {
        let input = octets_of(rt.alloc(), pieces)?;
        let status = Status::NotStream(fault);
        check_run(&rt, report, "show", input.as_slice(), (status, b"", report))?;
    }
    Ok(())
}
