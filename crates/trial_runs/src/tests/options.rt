//! Words by a table of two options and one that must be given.

use command_words::{OptionRule, OptionsError, values_of};
use std::alloc::Global;
use std::test::Fail;
use trial_samples::words_in;

static TABLE: [OptionRule<'static>; 3] = [
    OptionRule {
        name: "seed",
        low: 0,
        high: u64::MAX,
        default: None,
    },
    OptionRule {
        name: "size",
        low: 116,
        high: 65_535,
        default: Some(1400),
    },
    OptionRule {
        name: "sizes",
        low: 1,
        high: 9,
        default: Some(3),
    },
];

/// Whether these words, with spaces between them, have these values; none where they are refused.
fn gives(alloc: Global, line: &str, wanted: Option<[u64; 3]>) -> Result<bool, Fail> {
    let words = words_in(alloc, line)?;
    match values_of(alloc, TABLE.as_slice(), words.as_slice()) {
        Ok(values) => Ok(wanted.is_some_and(|wanted| values.as_slice() == wanted.as_slice())),
        Err(OptionsError::NotOptions) => Ok(wanted.is_none()),
        Err(OptionsError::NoMemory) => Err(Fail::from("no memory")),
    }
}

static LINES: [(&str, Option<[u64; 3]>); 26] = [
    ("--seed 7", Some([7, 1400, 3])),
    ("--seed=7", Some([7, 1400, 3])),
    ("--sizes 9 --seed=0 --size 116", Some([0, 116, 9])),
    ("--seed 18446744073709551615", Some([u64::MAX, 1400, 3])),
    ("--seed 00000000000000000007", Some([7, 1400, 3])),
    ("--seed 000000000000000000007", None),
    ("--seed 18446744073709551616", None),
    ("--seed 99999999999999999999", None),
    ("--size 1400", None),
    ("--seed 1 --size 115", None),
    ("--seed 1 --size 65536", None),
    ("--seed 1 --size 65535", Some([1, 65_535, 3])),
    ("--seed 1 --seed 1", None),
    ("--seed=1 --seed 1", None),
    ("--seed", None),
    ("--seed=", None),
    ("--seed ", None),
    ("--seed 1 x", None),
    ("--seed 1 --", None),
    ("-- --seed 1", None),
    ("--seed --", None),
    ("--see 1", None),
    ("--seed=1 --help", None),
    ("--seed -1", None),
    ("--seed +1", None),
    ("-seed 1", None),
];

#[test]
fn words_have_their_values(rt: HostRuntime) -> Result<(), Fail> {
    for (line, wanted) in LINES {
        assert!(rt; gives(rt.alloc(), line, wanted)?, "{line}");
    }
    Ok(())
}
