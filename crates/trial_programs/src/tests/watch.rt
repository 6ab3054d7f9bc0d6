//! Whole runs: captures octet by octet, what is written for them, and how the runs end.

use meter_io::{MemSink, MemSource};
use meter_workers::{Gate, OpenGate};
use std::alloc::Global;
use std::sync::atomic::{AtomicU64, Ordering};
use std::test::Fail;
use std::thread::Threads;
use trial_samples::{octets_of, wait_for, words_in};
use watch_program::{WatchStatus, run_watch};

/// A capture's header: little-endian, microseconds, Ethernet.
const HEADER: &str = "d4c3b2a1 02000400 00000000 00000000 00000400 01000000";

/// The same header with link type 2.
const OTHER_LINK: &str = "d4c3b2a1 02000400 00000000 00000000 00000400 02000000";

/// The header of a record of 42 bytes at 1000 s, and at 1001 s.
const AT_1000: &str = "e8030000 00000000 2a000000 2a000000";

const AT_1001: &str = "e9030000 00000000 2a000000 2a000000";

/// The header of a record of 262,145 bytes at 1000 s.
const TOO_LONG: &str = "e8030000 00000000 01000400 01000400";

/// A frame of 42 bytes: UDP over IPv4, 28 octets, from port 4000 of 192.0.2.1 to port 53 of 192.0.2.2.
const FRAME: &str =
    "020000000002 020000000001 0800 4500001c 00000000 40110000 c0000201 c0000202 0fa0 0035 0008 0000";

/// A frame of 42 bytes: ARP, of which no packet is accepted.
const ARP: &str =
    "ffffffffffff 020000000001 0806 0001080006040001 020000000001 0a000005 000000000000 0a000001";

/// The lines that an ask can give while the capture of two packets is metered.
const FIRST: &str = "held 1 28 1000000 1000000";

const BOTH: &str = "held 2 56 1000000 1001000";

/// How a run ended, and what it wrote.
#[derive(Drop)]
struct Ran {
    status: WatchStatus,
    output: Vec<u8>,
}

/// A run over a capture of these pieces, of which these reads and writes fail. The source gives 50 bytes a read, and
/// the sink takes 10 bytes a write.
fn run_over<R: Threads + Sync, G: Gate>(
    rt: &R,
    alloc: Global,
    line: &str,
    capture: &[&str],
    (reads, writes): (&[u64], &[u64]),
    gate: &G,
) -> Result<Ran, Fail> {
    let words = words_in(alloc, line)?;
    let bytes = octets_of(alloc, capture)?;
    let mut input = MemSource::new(bytes.as_slice(), 50, reads);
    let mut output = MemSink::open(alloc, 65_536, 10, writes).map_err(|_| Fail::from("no memory"))?;
    let status = run_watch(rt, alloc, words.as_slice(), &mut input, &mut output, gate);
    Ok(Ran {
        status,
        output: output.held().to_vec(alloc)?,
    })
}

/// Whether the text has `asks` lines of asks, each of which an ask can give, and then this total.
fn is_text(text: &str, asks: usize, total: &str) -> bool {
    let mut seen = 0usize;
    let mut ended = false;
    for line in text.lines() {
        if ended {
            return false;
        }
        if line == total {
            ended = true;
        } else if line == "absent" || line == FIRST || line == BOTH {
            seen = seen.saturating_add(1);
        } else {
            return false;
        }
    }
    ended && seen == asks
}

/// A gate that holds the asker at its first ask until the one worker has reached a piece, and then for some turns more.
#[derive(Drop)]
struct Late {
    begun: AtomicU64,
}

/// How often the asker looks again once the worker has begun.
const TURNS: u64 = 10_000_000;

impl Late {
    /// Looks this number of times whether the worker has begun, and gives how many times it had.
    fn look(&self, turns: u64) -> u64 {
        let mut begun = 0u64;
        for _turn in 0..turns {
            begun = begun.wrapping_add(self.begun.load(Ordering::SeqCst));
        }
        begun
    }
}

impl Gate for Late {
    fn reach(&self, worker: usize, piece: u64) {
        if worker == 0 {
            self.begun.store(1, Ordering::SeqCst);
        } else if piece == 0 {
            let _came = wait_for(&self.begun, 1);
            let _begun = self.look(TURNS);
        }
    }
}

/// Two packets of one flow, asked for twice.
#[test]
fn two_packets(rt: HostRuntime) -> Result<(), Fail> {
    let alloc = rt.alloc();
    let capture = [HEADER, AT_1000, FRAME, AT_1001, FRAME];
    let ran = run_over(
        &rt,
        alloc,
        "watch --asks 2",
        &capture,
        (&[], &[]),
        &OpenGate,
    )?;
    assert!(rt; ran.status == WatchStatus::Done);
    let text = String::from_utf8(ran.output)?;
    assert!(rt; is_text(text.as_str(), 2, "total 2 56"), "{text}");
    Ok(())
}

/// Where the asker begins after the worker, the flow is held.
#[test]
fn a_flow_is_held(rt: HostRuntime) -> Result<(), Fail> {
    let alloc = rt.alloc();
    let capture = [HEADER, AT_1000, FRAME, AT_1001, FRAME];
    let mut held = 0usize;
    for _run in 0..20 {
        let gate = Late {
            begun: AtomicU64::new(0),
        };
        let ran = run_over(&rt, alloc, "watch --asks 2", &capture, (&[], &[]), &gate)?;
        let text = String::from_utf8(ran.output)?;
        assert!(rt; is_text(text.as_str(), 2, "total 2 56"), "{text}");
        if text.as_str().contains("held") {
            held = held.saturating_add(1);
        }
    }
    assert!(rt; held > 0);
    Ok(())
}

/// One run: its words, the pieces of the capture, the reads and the writes that fail, how it ends, and what is written.
struct Run {
    line: &'static str,
    capture: &'static [&'static str],
    reads: &'static [u64],
    writes: &'static [u64],
    status: WatchStatus,
    written: &'static str,
}

const RUNS: [Run; 13] = [
    Run {
        line: "watch",
        capture: &[HEADER],
        reads: &[],
        writes: &[],
        status: WatchStatus::Done,
        written: "total 0 0\n",
    },
    Run {
        line: "watch --workers 3 --sets=1 --asks 7",
        capture: &[HEADER, AT_1000, ARP],
        reads: &[],
        writes: &[],
        status: WatchStatus::Done,
        written: "total 0 0\n",
    },
    Run {
        line: "watch --workers 63 --sets 65536 --asks 10000",
        capture: &[HEADER, AT_1000],
        reads: &[],
        writes: &[],
        status: WatchStatus::Done,
        written: "total 0 0\n",
    },
    Run {
        line: "",
        capture: &[HEADER],
        reads: &[1],
        writes: &[1],
        status: WatchStatus::Usage,
        written: "",
    },
    Run {
        line: "watch --workers 64",
        capture: &[HEADER],
        reads: &[1],
        writes: &[1],
        status: WatchStatus::Usage,
        written: "",
    },
    Run {
        line: "watch",
        capture: &[],
        reads: &[1],
        writes: &[1],
        status: WatchStatus::ReadFault,
        written: "",
    },
    Run {
        line: "watch",
        capture: &[HEADER, AT_1000, FRAME],
        reads: &[3],
        writes: &[1],
        status: WatchStatus::ReadFault,
        written: "",
    },
    Run {
        line: "watch",
        capture: &[],
        reads: &[],
        writes: &[1],
        status: WatchStatus::NotCapture,
        written: "",
    },
    Run {
        line: "watch",
        capture: &[FRAME, HEADER],
        reads: &[],
        writes: &[1],
        status: WatchStatus::NotCapture,
        written: "",
    },
    Run {
        line: "watch",
        capture: &[OTHER_LINK, TOO_LONG],
        reads: &[],
        writes: &[1],
        status: WatchStatus::LinkUnknown(2),
        written: "",
    },
    Run {
        line: "watch",
        capture: &[HEADER, AT_1000, FRAME, TOO_LONG],
        reads: &[],
        writes: &[1],
        status: WatchStatus::Damaged(82),
        written: "",
    },
    Run {
        line: "watch",
        capture: &[HEADER],
        reads: &[],
        writes: &[1],
        status: WatchStatus::WriteFault,
        written: "",
    },
    Run {
        line: "watch",
        capture: &[HEADER, AT_1000, ARP],
        reads: &[],
        writes: &[2],
        status: WatchStatus::Done,
        written: "total 0 0\n",
    },
];

#[test]
fn runs(rt: HostRuntime) -> Result<(), Fail> {
    let alloc = rt.alloc();
    for (n, run) in RUNS.iter().enumerate() {
        let ran = run_over(
            &rt,
            alloc,
            run.line,
            run.capture,
            (run.reads, run.writes),
            &OpenGate,
        )?;
        assert!(rt; ran.status == run.status, "run {n}");
        assert!(rt; ran.output.as_slice() == run.written.as_bytes(), "run {n}");
    }
    Ok(())
}

/// A write that fails leaves what was written before it.
#[test]
fn a_failed_write_leaves_a_beginning(rt: HostRuntime) -> Result<(), Fail> {
    let alloc = rt.alloc();
    let capture = [HEADER, AT_1000, FRAME];
    let ran = run_over(
        &rt,
        alloc,
        "watch --asks 9",
        &capture,
        (&[], &[3]),
        &OpenGate,
    )?;
    assert!(rt; ran.status == WatchStatus::WriteFault);
    assert_eq!(rt; ran.output.len(), 20);
    Ok(())
}

/// Words that aren't a command, and words that are one.
#[test]
fn command_lines(rt: HostRuntime) -> Result<(), Fail> {
    let alloc = rt.alloc();
    let lines: [(&str, WatchStatus); 18] = [
        ("watch --workers 1 --sets=1 --asks 1", WatchStatus::Done),
        (
            "watch --asks 10000 --sets 65536 --workers 63",
            WatchStatus::Done,
        ),
        ("watch --asks=00000000000000000007", WatchStatus::Done),
        ("Watch", WatchStatus::Usage),
        ("meter", WatchStatus::Usage),
        ("watch watch", WatchStatus::Usage),
        ("watch --", WatchStatus::Usage),
        ("watch --asks", WatchStatus::Usage),
        ("watch --asks=", WatchStatus::Usage),
        ("watch --asks 0", WatchStatus::Usage),
        ("watch --asks 10001", WatchStatus::Usage),
        ("watch --asks +5", WatchStatus::Usage),
        ("watch --ask 5", WatchStatus::Usage),
        ("watch --asks 5 --asks=5", WatchStatus::Usage),
        ("watch --sets 0", WatchStatus::Usage),
        ("watch --sets 65537", WatchStatus::Usage),
        ("watch --workers 0", WatchStatus::Usage),
        ("watch --idle 300", WatchStatus::Usage),
    ];
    for (line, wanted) in lines {
        let ran = run_over(&rt, alloc, line, &[HEADER], (&[], &[]), &OpenGate)?;
        assert!(rt; ran.status == wanted, "{line}");
    }
    Ok(())
}

#[test]
fn exit_statuses(rt: HostRuntime) {
    let table = [
        (WatchStatus::Done, 0),
        (WatchStatus::ReadFault, 1),
        (WatchStatus::Usage, 2),
        (WatchStatus::WriteFault, 3),
        (WatchStatus::NotCapture, 4),
        (WatchStatus::LinkUnknown(2), 5),
        (WatchStatus::Damaged(24), 6),
        (WatchStatus::TooLarge, 7),
        (WatchStatus::NoMemory, 8),
    ];
    for (status, code) in table {
        assert_eq!(rt; status.code(), code);
    }
}
