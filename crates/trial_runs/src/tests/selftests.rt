//! The command `selftest`.

use super::check_run;
use meter_program::Status;
use std::test::Fail;

/// Command lines, and what is written. Octets and flows are those of the capture that `checks/second_maker.py` makes of
/// the same numbers: the sum of its original lengths, and how many keys it has.
static TESTED: [(&str, &str); 3] = [
    (
        "selftest --seed 1 --packets 1 --keys 1",
        "captured 1\naccepted 1\nnot-ip 0\nshort 0\nbad-header 0\nshort-transport 0\nbad-time 0\n\
        octets 802\nflows 1\nmessages 2\ntail 0\n",
    ),
    // 64 records of 48 octets fill two messages of at most 1400 octets and a part of a third.
    (
        "selftest --seed 1 --packets 20000 --keys 64",
        "captured 20000\naccepted 20000\nnot-ip 0\nshort 0\nbad-header 0\nshort-transport 0\nbad-time 0\n\
        octets 10562544\nflows 64\nmessages 4\ntail 0\n",
    ),
    // 4096 records fill 146 messages and a part of one more.
    (
        "selftest --seed 7 --packets 200000 --keys 4096",
        "captured 200000\naccepted 200000\nnot-ip 0\nshort 0\nbad-header 0\nshort-transport 0\nbad-time 0\n\
        octets 105565556\nflows 4096\nmessages 148\ntail 0\n",
    ),
];

/// Each run twice: it prints the same text, whatever its four workers do.
#[test]
fn a_made_capture_is_metered_in_memory(rt: HostRuntime) -> Result<(), Fail> {
    for (line, summary) in TESTED {
        for _run in 0..2 {
            check_run(
                &rt,
                line,
                line,
                b"not read",
                (Status::Done, summary.as_bytes(), ""),
            )?;
        }
    }
    Ok(())
}
