//! Command lines.

use command_words::OptionsError;
use pipe_program::{PipeSettings, settings_of};
use std::alloc::Global;
use std::test::Fail;
use trial_samples::words_in;

/// What a line of words with single spaces between them asks for, in the order of the options; nothing where it is no
/// command line.
fn numbers(alloc: Global, line: &str) -> Result<Option<[u64; 7]>, Fail> {
    let words = words_in(alloc, line)?;
    match settings_of(alloc, &words) {
        Ok(settings) => Ok(Some(numbers_in(&settings))),
        Err(OptionsError::NotOptions) => Ok(None),
        Err(OptionsError::NoMemory) => Err(Fail::from("no memory")),
    }
}

/// The values of the options, in their order.
fn numbers_in(s: &PipeSettings) -> [u64; 7] {
    [
        s.idle as u64,
        s.active as u64,
        s.workers as u64,
        s.sets,
        s.queue as u64,
        s.batch as u64,
        s.size as u64,
    ]
}

/// Lines that aren't command lines.
static OTHERS: [&str; 30] = [
    "",
    "pipes",
    "Pipe",
    "pip",
    "meter",
    "--help",
    "pipe --help",
    "pipe x",
    "pipe ",
    "pipe --",
    "pipe pipe",
    "pipe --idle 0",
    "pipe --idle 86401",
    "pipe --active=0",
    "pipe --active 86401",
    "pipe --workers 0",
    "pipe --workers 63",
    "pipe --sets 0",
    "pipe --sets 65537",
    "pipe --queue 0",
    "pipe --queue 65",
    "pipe --batch 262183",
    "pipe --batch=4194305",
    "pipe --size 115",
    "pipe --size 65536",
    "pipe --queue 5 --queue 5",
    "pipe --piece 256",
    "pipe --queue",
    "pipe --queue= 5",
    "pipe --seed 1",
];

#[test]
fn other_words_ask_for_nothing(rt: HostRuntime) -> Result<(), Fail> {
    for line in OTHERS {
        assert_eq!(rt; numbers(rt.alloc(), line)?, None, "{line}");
    }
    Ok(())
}

#[test]
fn no_word_asks_for_nothing(rt: HostRuntime) {
    assert_eq!(rt; settings_of(rt.alloc(), &[]), Err(OptionsError::NotOptions));
}

/// Lines, and what they ask for.
static LINES: [(&str, [u64; 7]); 17] = [
    ("pipe", [300, 1800, 1, 4096, 16, 1048576, 1400]),
    ("pipe --idle 1", [1, 1800, 1, 4096, 16, 1048576, 1400]),
    (
        "pipe --idle=86400",
        [86400, 1800, 1, 4096, 16, 1048576, 1400],
    ),
    ("pipe --active 1", [300, 1, 1, 4096, 16, 1048576, 1400]),
    (
        "pipe --active=86400",
        [300, 86400, 1, 4096, 16, 1048576, 1400],
    ),
    ("pipe --workers 1", [300, 1800, 1, 4096, 16, 1048576, 1400]),
    (
        "pipe --workers=62",
        [300, 1800, 62, 4096, 16, 1048576, 1400],
    ),
    ("pipe --sets 1", [300, 1800, 1, 1, 16, 1048576, 1400]),
    (
        "pipe --sets=65536",
        [300, 1800, 1, 65536, 16, 1048576, 1400],
    ),
    ("pipe --queue 1", [300, 1800, 1, 4096, 1, 1048576, 1400]),
    ("pipe --queue=64", [300, 1800, 1, 4096, 64, 1048576, 1400]),
    (
        "pipe --batch 262184",
        [300, 1800, 1, 4096, 16, 262184, 1400],
    ),
    (
        "pipe --batch=4194304",
        [300, 1800, 1, 4096, 16, 4194304, 1400],
    ),
    ("pipe --size 116", [300, 1800, 1, 4096, 16, 1048576, 116]),
    (
        "pipe --size=65535",
        [300, 1800, 1, 4096, 16, 1048576, 65535],
    ),
    (
        "pipe --workers 2 --queue 01",
        [300, 1800, 2, 4096, 1, 1048576, 1400],
    ),
    (
        "pipe --size 200 --batch=300000 --queue 7 --sets 2 --workers=3 --active 4 --idle=5",
        [5, 4, 3, 2, 7, 300000, 200],
    ),
];

#[test]
fn lines_have_their_settings(rt: HostRuntime) -> Result<(), Fail> {
    for (line, wanted) in LINES {
        assert_eq!(rt; numbers(rt.alloc(), line)?, Some(wanted), "{line}");
    }
    Ok(())
}
