//! Command lines.

use super::check_run;
use command_words::OptionsError;
use meter_program::{Command, Status, command_of};
use std::test::Fail;
use trial_samples::words_in;

/// What a line asks for: 1 for `meter` with its settings in the order of their options, 2 for `show`, 3 for `make` with
/// its seed, packets and keys, 4 for `schedule`, 5 for `selftest` with those of `make`.
fn numbers_of(command: Command) -> [u64; 7] {
    match command {
        Command::Meter(s) => [
            1,
            s.idle as u64,
            s.active as u64,
            s.workers as u64,
            s.sets,
            s.piece,
            s.size as u64,
        ],
        Command::Show => [2, 0, 0, 0, 0, 0, 0],
        Command::Make(s) => [3, s.seed, s.packets as u64, s.keys as u64, 0, 0, 0],
        Command::Schedule => [4, 0, 0, 0, 0, 0, 0],
        Command::Selftest(s) => [5, s.seed, s.packets as u64, s.keys as u64, 0, 0, 0],
    }
}

/// Lines, and what they ask for.
static COMMANDS: [(&str, [u64; 7]); 24] = [
    ("meter", [1, 300, 1800, 1, 4096, 256, 1400]),
    ("show", [2, 0, 0, 0, 0, 0, 0]),
    ("schedule", [4, 0, 0, 0, 0, 0, 0]),
    ("meter --idle 1", [1, 1, 1800, 1, 4096, 256, 1400]),
    ("meter --idle=86400", [1, 86400, 1800, 1, 4096, 256, 1400]),
    ("meter --active 1", [1, 300, 1, 1, 4096, 256, 1400]),
    ("meter --active=86400", [1, 300, 86400, 1, 4096, 256, 1400]),
    ("meter --workers 1", [1, 300, 1800, 1, 4096, 256, 1400]),
    ("meter --workers=64", [1, 300, 1800, 64, 4096, 256, 1400]),
    ("meter --sets 1", [1, 300, 1800, 1, 1, 256, 1400]),
    ("meter --sets=65536", [1, 300, 1800, 1, 65536, 256, 1400]),
    ("meter --piece 1", [1, 300, 1800, 1, 4096, 1, 1400]),
    ("meter --piece=65536", [1, 300, 1800, 1, 4096, 65536, 1400]),
    ("meter --size 116", [1, 300, 1800, 1, 4096, 256, 116]),
    ("meter --size=65535", [1, 300, 1800, 1, 4096, 256, 65535]),
    (
        "meter --active 10 --idle=007",
        [1, 7, 10, 1, 4096, 256, 1400],
    ),
    (
        "meter --idle 00000000000000086400",
        [1, 86400, 1800, 1, 4096, 256, 1400],
    ),
    (
        "meter --size 200 --piece=1 --sets 2 --workers=3 --active 4 --idle=5",
        [1, 5, 4, 3, 2, 1, 200],
    ),
    ("make --seed 0 --packets 1", [3, 0, 1, 64, 0, 0, 0]),
    (
        "make --seed=18446744073709551615 --packets=1000000",
        [3, 18446744073709551615, 1000000, 64, 0, 0, 0],
    ),
    ("make --keys 1 --packets 2 --seed 3", [3, 3, 2, 1, 0, 0, 0]),
    (
        "make --packets 2 --seed 00000000000000000003 --keys=4096",
        [3, 3, 2, 4096, 0, 0, 0],
    ),
    (
        "selftest --seed 7 --packets=200000",
        [5, 7, 200000, 64, 0, 0, 0],
    ),
    (
        "selftest --keys 4096 --packets 1 --seed 0",
        [5, 0, 1, 4096, 0, 0, 0],
    ),
];

#[test]
fn commands_have_their_settings(rt: HostRuntime) -> Result<(), Fail> {
    for (line, wanted) in COMMANDS {
        let words = words_in(rt.alloc(), line)?;
        let asked = command_of(rt.alloc(), words.as_slice()).map(numbers_of);
        assert_eq!(rt; asked, Ok(wanted), "{line}");
    }
    assert_eq!(rt; command_of(rt.alloc(), &[]), Err(OptionsError::NotOptions));
    Ok(())
}

/// Lines that aren't command lines.
static OTHERS: [&str; 72] = [
    "",
    "meters",
    "Meter",
    "help",
    "--help",
    "meter --help",
    "meter --version",
    "meter -h",
    "selftest",
    "selftest --seed 1",
    "selftest --seed 1 --packets 1 --workers 4",
    "selftest --seed 1 --packets 0",
    "meter --idle 0",
    "meter --idle 86401",
    "meter --active 0",
    "meter --active=86401",
    "meter --workers 0",
    "meter --workers 65",
    "meter --sets 0",
    "meter --sets=65537",
    "meter --piece 0",
    "meter --piece 65537",
    "meter --size 115",
    "meter --size=65536",
    "meter --idle 000000000000000000005",
    "meter --idle=99999999999999999999",
    "meter --idle 5 --idle 5",
    "meter --idle=5 --idle 6",
    "meter --idle=5 --idle=5",
    "meter --idle",
    "meter --idle=",
    "meter --idle ",
    "meter --idle= 5",
    "meter --idle +5",
    "meter --idle -5",
    "meter --idle 5s",
    "meter --idle 0x5",
    "meter --idle 5=5",
    "meter --idle --size 200",
    "meter --",
    "meter -- --idle 5",
    "meter --idle 5 --",
    "meter --idle --",
    "meter x",
    "meter --idle 5 6",
    "meter ",
    "meter --idel 5",
    "meter --idl 5",
    "meter --idl=5",
    "meter --id 5",
    "meter -idle 5",
    "meter -i 5",
    "meter --IDLE 5",
    "meter idle=5",
    "meter --=5",
    "meter --seed 1",
    "show x",
    "show ",
    "show --",
    "show --idle 5",
    "schedule x",
    "schedule --seed 1",
    "make",
    "make --seed 1",
    "make --packets 1",
    "make --seed 1 --packets 0",
    "make --seed 1 --packets 1000001",
    "make --seed 18446744073709551616 --packets 1",
    "make --seed 1 --packets 1 --keys 0",
    "make --seed 1 --packets 1 --keys 4097",
    "make --seed 1 --seed 1 --packets 1",
    "make --seed 1 --packets 1 --idle 5",
];

#[test]
fn other_words_are_refused(rt: HostRuntime) -> Result<(), Fail> {
    let usage = "usage: meter, show, make, schedule or selftest\n";
    for line in OTHERS {
        check_run(&rt, line, line, b"not read", (Status::Usage, b"", usage))?;
    }
    Ok(())
}
