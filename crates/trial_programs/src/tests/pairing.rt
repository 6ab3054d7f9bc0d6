//! Runs on streams in hexadecimal that were written out by hand from RFC 7011 and RFC 5103.

use ipfix_reader::StreamFault;
use meter_io::{MemSink, MemSource};
use pair_program::{PairStatus, run_pair};
use std::alloc::Global;
use std::test::Fail;
use trial_samples::{octets_of, words_in};

/// The message with the templates of flows.
const TEMPLATES: &str =
    "000a0074000000000000000000000001000200640100000b00080004000c000400070002000b000200040001000600020002 \
    0008000100080098000800990008008800010101000b001b0010001c001000070002000b0002000400010006000200020008 \
    00010008009800080099000800880001";

/// A query with its reply, and two flows between port 40000 and port 80.
const EXCHANGE: &str =
    "000a00d46553f1000000000000000001010000c40a0000050a000001c3500035110000000000000000000100000000000000 \
    3c0000018bcfe5680a0000018bcfe5680a040a0000010a0000050035c3501100000000000000000001000000000000004c00 \
    00018bcfe568190000018bcfe5681904c63364070a00000500509c4006001a0000000000000003000000000000064c000001 \
    8bcfe568320000018bcfe56850040a000005c63364079c40005006001e000000000000000400000000000001300000018bcf \
    e5681e0000018bcfe5685a03";

/// One flow of two packets.
const ONE: &str =
    "000a0044000003e9000000000000000101000034c0000201c00002020fa00035110000000000000000000200000000000000 \
    3800000000000f424000000000000f462804";

/// The set with the templates of flows and of biflows.
const BI_TEMPLATES: &str =
    "000201240100000b00080004000c000400070002000b00020004000100060002000200080001000800980008009900080088 \
    00010101000b001b0010001c001000070002000b000200040001000600020002000800010008009800080099000800880001 \
    0102001100080004000c000400070002000b0002000400010006000200020008000100080098000800990008008800018006 \
    0002000072798002000800007279800100080000727980980008000072798099000800007279808800010000727901030011 \
    001b0010001c001000070002000b000200040001000600020002000800010008009800080099000800880001800600020000 \
    727980020008000072798001000800007279809800080000727980990008000072798088000100007279";

/// The two biflows of the exchange.
const BI_EXCHANGE: &str =
    "010200aa0a0000050a000001c35000351100000000000000000001000000000000003c0000018bcfe5680a0000018bcfe568 \
    0a0400000000000000000001000000000000004c0000018bcfe568190000018bcfe56819040a000005c63364079c40005006 \
    001e000000000000000400000000000001300000018bcfe5681e0000018bcfe5685a03001a00000000000000030000000000 \
    00064c0000018bcfe568320000018bcfe5685004";

/// The header of a message of 308 octets at 1,700,000,000 s.
const BI_HEADER: &str = "000a01346553f1000000000000000001";

/// The header of a message of 186 octets at the same time.
const BI_DATA_HEADER: &str = "000a00ba6553f1000000000000000001";

/// The same header, after a message with one record.
const LATER_HEADER: &str = "000a00ba6553f1000000000100000001";

/// The header of a message of 308 octets at 1,001 s.
const ONE_HEADER: &str = "000a0134000003e90000000000000001";

/// The header of a message of 308 octets at 0 s, for a stream without a record.
const NONE_HEADER: &str = "000a0134000000000000000000000001";

/// One run: the command line, the pieces of the stream, the reads and the writes that fail, how it ends, and the pieces of
/// what is written. The source gives 50 bytes a read, and the sink takes 100 bytes a write.
struct Run {
    line: &'static str,
    stream: &'static [&'static str],
    reads: &'static [u64],
    writes: &'static [u64],
    status: PairStatus,
    written: &'static [&'static str],
}

const RUNS: [Run; 11] = [
    Run {
        line: "pair",
        stream: &[TEMPLATES, EXCHANGE],
        reads: &[],
        writes: &[],
        status: PairStatus::Done,
        written: &[BI_HEADER, BI_TEMPLATES, BI_DATA_HEADER, BI_EXCHANGE],
    },
    Run {
        line: "pair --size 308 --idle=86400",
        stream: &[TEMPLATES, ONE],
        reads: &[],
        writes: &[],
        status: PairStatus::Done,
        written: &[ONE_HEADER, BI_TEMPLATES, ONE],
    },
    Run {
        line: "pair",
        stream: &[TEMPLATES],
        reads: &[],
        writes: &[],
        status: PairStatus::Done,
        written: &[NONE_HEADER, BI_TEMPLATES],
    },
    Run {
        line: "pair",
        stream: &[],
        reads: &[],
        writes: &[],
        status: PairStatus::Done,
        written: &[NONE_HEADER, BI_TEMPLATES],
    },
    Run {
        line: "pair --size 307",
        stream: &[TEMPLATES],
        reads: &[1],
        writes: &[],
        status: PairStatus::Usage,
        written: &[],
    },
    Run {
        line: "pair",
        stream: &[TEMPLATES],
        reads: &[2],
        writes: &[],
        status: PairStatus::ReadFault,
        written: &[],
    },
    Run {
        line: "pair",
        stream: &[TEMPLATES],
        reads: &[],
        writes: &[1],
        status: PairStatus::WriteFault,
        written: &[],
    },
    Run {
        line: "pair",
        stream: &[ONE],
        reads: &[],
        writes: &[1],
        status: PairStatus::NotStream(StreamFault::NoTemplate { at: 16, id: 256 }),
        written: &[],
    },
    Run {
        line: "pair",
        stream: &[BI_HEADER, BI_TEMPLATES, BI_DATA_HEADER, BI_EXCHANGE],
        reads: &[],
        writes: &[1],
        status: PairStatus::NotFlows(0),
        written: &[],
    },
    Run {
        line: "pair",
        stream: &[BI_HEADER, BI_TEMPLATES, ONE, LATER_HEADER, BI_EXCHANGE],
        reads: &[],
        writes: &[1],
        status: PairStatus::NotFlows(1),
        written: &[],
    },
    Run {
        line: "pair",
        stream: &[BI_HEADER, BI_TEMPLATES, ONE, BI_DATA_HEADER, BI_EXCHANGE],
        reads: &[],
        writes: &[1],
        status: PairStatus::NotStream(StreamFault::BadSequence { at: 376 }),
        written: &[],
    },
];

/// How a run of a command line over a stream ends, of which these reads and writes fail, and what it writes.
fn run_over(
    alloc: Global,
    line: &str,
    stream: &[u8],
    (reads, writes): (&[u64], &[u64]),
) -> Result<(PairStatus, Vec<u8>), Fail> {
    let words = words_in(alloc, line)?;
    let mut input = MemSource::new(stream, 50, reads);
    let mut output = MemSink::open(alloc, 1 << 20, 100, writes)?;
    let status = run_pair(alloc, &words, &mut input, &mut output);
    Ok((status, output.held().to_vec(alloc)?))
}

/// Whether a run ends and writes as it should.
fn is_run(alloc: Global, run: &Run) -> Result<bool, Fail> {
    let stream = octets_of(alloc, run.stream)?;
    let (status, written) = run_over(alloc, run.line, &stream, (run.reads, run.writes))?;
    Ok(status == run.status && written == octets_of(alloc, run.written)?)
}

#[test]
fn runs(rt: HostRuntime) -> Result<(), Fail> {
    for (n, run) in RUNS.iter().enumerate() {
        assert!(rt; is_run(rt.alloc(), run)?, "run {n}");
    }
    Ok(())
}

/// Command lines, and how a run without input ends.
static LINES: [(&str, PairStatus); 18] = [
    ("pair --idle 1 --size=308", PairStatus::Done),
    ("pair --size 65535 --idle=86400", PairStatus::Done),
    ("pair --idle=00000000000000000007", PairStatus::Done),
    ("", PairStatus::Usage),
    ("Pair", PairStatus::Usage),
    ("pair pair", PairStatus::Usage),
    ("pair --", PairStatus::Usage),
    ("pair --idle", PairStatus::Usage),
    ("pair --idle=", PairStatus::Usage),
    ("pair --idle 0", PairStatus::Usage),
    ("pair --idle 86401", PairStatus::Usage),
    ("pair --idle +5", PairStatus::Usage),
    ("pair --idel 5", PairStatus::Usage),
    ("pair --idle 5 --idle=5", PairStatus::Usage),
    ("pair --idle 5 6", PairStatus::Usage),
    ("pair --size 307", PairStatus::Usage),
    ("pair --size 65536", PairStatus::Usage),
    ("pair --active 5", PairStatus::Usage),
];

#[test]
fn command_lines(rt: HostRuntime) -> Result<(), Fail> {
    for (line, wanted) in LINES {
        let (status, _) = run_over(rt.alloc(), line, &[], (&[], &[]))?;
        assert!(rt; status == wanted, "{line}");
    }
    Ok(())
}

/// A write that fails leaves what was written before it.
#[test]
fn a_failed_write_leaves_a_beginning(rt: HostRuntime) -> Result<(), Fail> {
    let stream = octets_of(rt.alloc(), [TEMPLATES].as_slice())?;
    let (status, written) = run_over(rt.alloc(), "pair", &stream, (&[], &[3]))?;
    assert!(rt; status == PairStatus::WriteFault && written.len() == 200);
    let whole = octets_of(rt.alloc(), [NONE_HEADER, BI_TEMPLATES].as_slice())?;
    assert!(rt; whole.starts_with(&written));
    Ok(())
}

#[test]
fn exit_statuses(rt: HostRuntime) {
    let table = [
        (PairStatus::Done, 0),
        (PairStatus::ReadFault, 1),
        (PairStatus::Usage, 2),
        (PairStatus::WriteFault, 3),
        (PairStatus::TooLarge, 7),
        (PairStatus::NoMemory, 8),
        (PairStatus::NotStream(StreamFault::Cut { at: 0 }), 9),
        (PairStatus::NotFlows(0), 12),
    ];
    for (status, code) in table {
        assert_eq!(rt; status.code(), code);
    }
}
