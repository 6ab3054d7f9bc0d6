//! The six programs.

use crate::program::{CommandText, OptionText, Program};

const IDLE: OptionText = OptionText {
    name: "idle",
    value: "SECONDS",
    about: "Idle time-out: a flow ends if none of its packets comes for longer [1 to 86400, by default 300]",
    low: 1,
    high: 86_400,
    is_required: false,
};

const ACTIVE: OptionText = OptionText {
    name: "active",
    value: "SECONDS",
    about: "Active time-out: no record spans more [1 to 86400, by default 1800]",
    low: 1,
    high: 86_400,
    is_required: false,
};

const SIZE: OptionText = OptionText {
    name: "size",
    value: "OCTETS",
    about: "Most octets of an IPFIX message [116 to 65535, by default 1400]",
    low: 116,
    high: 65_535,
    is_required: false,
};

const SETS: OptionText = OptionText {
    name: "sets",
    value: "COUNT",
    about: "Sets of the cache of open flows, of four entries each [1 to 65536, by default 4096]",
    low: 1,
    high: 65_536,
    is_required: false,
};

const WORKERS: OptionText = OptionText {
    name: "workers",
    value: "COUNT",
    about: "Workers that meter at once [1 to 64, by default 1]",
    low: 1,
    high: 64,
    is_required: false,
};

const PIECE: OptionText = OptionText {
    name: "piece",
    value: "RECORDS",
    about: "Records of the capture that a worker takes at a time [1 to 65536, by default 256]",
    low: 1,
    high: 65_536,
    is_required: false,
};

const SEED: OptionText = OptionText {
    name: "seed",
    value: "NUMBER",
    about: "Seed of the made-up capture [0 to 18446744073709551615]",
    low: 0,
    high: u64::MAX,
    is_required: true,
};

const PACKETS: OptionText = OptionText {
    name: "packets",
    value: "COUNT",
    about: "Its packets [1 to 1000000]",
    low: 1,
    high: 1_000_000,
    is_required: true,
};

const KEYS: OptionText = OptionText {
    name: "keys",
    value: "COUNT",
    about: "Its flow keys at most [1 to 4096, by default 64]",
    low: 1,
    high: 4096,
    is_required: false,
};

const METER_OPTIONS: [OptionText; 6] = [IDLE, ACTIVE, SIZE, WORKERS, SETS, PIECE];

const MAKE_OPTIONS: [OptionText; 3] = [SEED, PACKETS, KEYS];

const PIPE_OPTIONS: [OptionText; 7] = [
    IDLE,
    ACTIVE,
    SIZE,
    OptionText {
        high: 62,
        about: "Workers that meter at once [1 to 62, by default 1]",
        ..WORKERS
    },
    SETS,
    OptionText {
        name: "queue",
        value: "BATCHES",
        about: "Batches that wait at most between the reader and the workers [1 to 64, by default 16]",
        low: 1,
        high: 64,
        is_required: false,
    },
    OptionText {
        name: "batch",
        value: "OCTETS",
        about: "Most octets of a batch of records [262184 to 4194304, by default 1048576]",
        low: 262_184,
        high: 4_194_304,
        is_required: false,
    },
];

const PAIR_OPTIONS: [OptionText; 2] = [
    OptionText {
        about: "Flows of both directions pair if no longer gap is between them [1 to 86400, by default 300]",
        ..IDLE
    },
    OptionText {
        low: 308,
        about: "Most octets of an IPFIX message [308 to 65535, by default 1400]",
        ..SIZE
    },
];

const JOIN_OPTIONS: [OptionText; 5] = [
    IDLE,
    ACTIVE,
    SIZE,
    OptionText {
        name: "part",
        value: "NUMBER",
        about: "Writes only this part of the records, by flow key; goes with --parts [1 to the number of parts, by default all records]",
        low: 1,
        high: 4096,
        is_required: false,
    },
    OptionText {
        name: "parts",
        value: "COUNT",
        about: "How many parts there are; goes with --part [1 to 4096, by default all records]",
        low: 1,
        high: 4096,
        is_required: false,
    },
];

const WATCH_OPTIONS: [OptionText; 3] = [
    OptionText {
        high: 63,
        about: "Workers that meter at once [1 to 63, by default 1]",
        ..WORKERS
    },
    SETS,
    OptionText {
        name: "asks",
        value: "COUNT",
        about: "Look-ups of open flows while the capture is metered [1 to 10000, by default 100]",
        low: 1,
        high: 10_000,
        is_required: false,
    },
];

const METER_COMMANDS: [CommandText; 5] = [
    CommandText {
        word: "meter",
        about: "Turns a capture into a stream of flow records",
        usage: "[OPTIONS] < CAPTURE > STREAM",
        options: &METER_OPTIONS,
        has_files: false,
        awaits: Some("a capture (classic pcap)"),
        is_binary: true,
        details: "Reads a classic pcap file of at most 2^30 octets on standard input. Writes one IPFIX stream to \
            standard output, and a summary to standard error. Nothing is written unless the whole capture could be \
            read.\n\nExample: romtyalig meter --idle 60 < capture.pcap > flows.ipfix\n\nManual: man romtyalig",
    },
    CommandText {
        word: "show",
        about: "Turns an IPFIX stream into text, a line a record",
        usage: "< STREAM",
        options: &[],
        has_files: false,
        awaits: Some("an IPFIX stream"),
        is_binary: false,
        details: "Reads an IPFIX stream of at most 2^26 octets on standard input. Writes a line for each data record to \
            standard output, and their number to standard error.\n\nExample: romtyalig show < flows.ipfix\n\nManual: man \
            romtyalig",
    },
    CommandText {
        word: "make",
        about: "Writes a made-up capture (for developers)",
        usage: "--seed <NUMBER> --packets <COUNT> [--keys <COUNT>] > CAPTURE",
        options: &MAKE_OPTIONS,
        has_files: false,
        awaits: None,
        is_binary: true,
        details: "Writes a classic pcap file to standard output, and the number of its packets to standard error. The same \
            numbers give the same capture.\n\nExample: romtyalig make --seed 1 --packets 1000 > made.pcap\n\nManual: man \
            romtyalig",
    },
    CommandText {
        word: "schedule",
        about: "Replays steps of the memory reclamation (for developers)",
        usage: "< SCHEDULE",
        options: &[],
        has_files: false,
        awaits: Some("a schedule (text)"),
        is_binary: false,
        details: "Reads a schedule of at most 2^20 octets on standard input. Writes the answer to each step and the last \
            state to standard output.\n\nExample: romtyalig schedule < steps\n\nManual: man romtyalig",
    },
    CommandText {
        word: "selftest",
        about: "Meters a made-up capture and writes the summary (for developers)",
        usage: "--seed <NUMBER> --packets <COUNT> [--keys <COUNT>]",
        options: &MAKE_OPTIONS,
        has_files: false,
        awaits: None,
        is_binary: false,
        details: "Reads nothing. Writes the summary of `meter` to standard output.\n\nExample: romtyalig selftest --seed 1 \
            --packets 1000\n\nManual: man romtyalig",
    },
];

const PIPE_COMMANDS: [CommandText; 1] = [CommandText {
    word: "pipe",
    about: "Turns a capture into a stream of flow records while it is still being read",
    usage: "[pipe] [OPTIONS] < CAPTURE > STREAM",
    options: &PIPE_OPTIONS,
    has_files: false,
    awaits: Some("a capture (classic pcap)"),
    is_binary: true,
    details: "Reads a classic pcap file of at most 2^30 octets on standard input and hands batches of records to its \
        workers as they come. Writes what romtyalig meter writes: an IPFIX stream to standard output, a summary to \
        standard error.\n\nExample: romtyalig-pipe --workers 3 < capture.pcap > flows.ipfix\n\nManual: man romtyalig-pipe",
}];

const PCAPNG_COMMANDS: [CommandText; 1] = [CommandText {
    word: "pcapng",
    about: "Turns a pcapng file into a classic capture, which romtyalig meter reads",
    usage: "[pcapng] < FILE > CAPTURE",
    options: &[],
    has_files: false,
    awaits: Some("a pcapng file"),
    is_binary: true,
    details: "Reads a pcapng file of at most 2^30 octets on standard input. Writes a classic pcap file of its IP packets to \
        standard output, and a summary to standard error of what was written and left out.\n\nExample: romtyalig-pcapng < \
        file.pcapng | romtyalig meter > flows.ipfix\n\nManual: man romtyalig-pcapng",
}];

const PAIR_COMMANDS: [CommandText; 1] = [CommandText {
    word: "pair",
    about: "Pairs flow records of both directions to biflows (RFC 5103)",
    usage: "[pair] [OPTIONS] < STREAM > BIFLOWS",
    options: &PAIR_OPTIONS,
    has_files: false,
    awaits: Some("an IPFIX stream of flow records"),
    is_binary: true,
    details: "Reads an IPFIX stream of at most 2^26 octets on standard input, as romtyalig meter writes it. Writes an IPFIX \
        stream of biflows to standard output.\n\nExample: romtyalig-pair < flows.ipfix > biflows.ipfix\n\nManual: man \
        romtyalig-pair",
}];

const JOIN_COMMANDS: [CommandText; 1] = [CommandText {
    word: "join",
    about: "Joins the streams of many captures to one",
    usage: "[join] [OPTIONS] FILE... > STREAM",
    options: &JOIN_OPTIONS,
    has_files: true,
    awaits: None,
    is_binary: true,
    details: "Reads IPFIX streams of at most 2^32 octets each, as romtyalig meter writes them; - is standard input. Options \
        come before the files. Writes one IPFIX stream to standard output, and a line to standard error if a file is refused.\n\nExample: \
        romtyalig-join monday.ipfix tuesday.ipfix > week.ipfix\n\nManual: man romtyalig-join",
}];

const WATCH_COMMANDS: [CommandText; 1] = [CommandText {
    word: "watch",
    about: "Demonstrates that look-ups see open flows; what they saw is reported after the run",
    usage: "[watch] [OPTIONS] < CAPTURE",
    options: &WATCH_OPTIONS,
    has_files: false,
    awaits: Some("a capture (classic pcap)"),
    is_binary: false,
    details: "Reads a classic pcap file of at most 2^30 octets on standard input. Meters it while another thread looks open \
        flows up. Writes a line for each look-up to standard output once all is read.\n\nExample: romtyalig-watch --asks 10 \
        < capture.pcap\n\nManual: man romtyalig-watch",
}];

/// `romtyalig`.
pub static METER: Program = Program {
    name: "romtyalig",
    about: "Groups the packets of a capture into flows and writes flow records as IPFIX",
    commands: &METER_COMMANDS,
    details: "Help of a command: romtyalig COMMAND --help\n\nExample: romtyalig meter < capture.pcap > flows.ipfix\n\nManual: \
        man romtyalig",
};
/// `romtyalig-pipe`.
pub static PIPE: Program = Program {
    name: "romtyalig-pipe",
    about: "",
    commands: &PIPE_COMMANDS,
    details: "",
};
/// `romtyalig-pcapng`.
pub static PCAPNG: Program = Program {
    name: "romtyalig-pcapng",
    about: "",
    commands: &PCAPNG_COMMANDS,
    details: "",
};
/// `romtyalig-pair`.
pub static PAIR: Program = Program {
    name: "romtyalig-pair",
    about: "",
    commands: &PAIR_COMMANDS,
    details: "",
};
/// `romtyalig-join`.
pub static JOIN: Program = Program {
    name: "romtyalig-join",
    about: "",
    commands: &JOIN_COMMANDS,
    details: "",
};
/// `romtyalig-watch`.
pub static WATCH: Program = Program {
    name: "romtyalig-watch",
    about: "",
    commands: &WATCH_COMMANDS,
    details: "",
};
