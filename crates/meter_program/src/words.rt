//! The words of a command line: the name of a command and its options.

ghost use Rattle.std.specs.Prelude.{◌≡◌, [], None, Some, map, IfOk, IfErr};
ghost use Rattle.std.specs.String.{string_bytes};
ghost use Rattle.command_words.specs.Options.{values_of};
ghost use Rattle.meter_program.specs.Words.{meter_options, make_options, meter_with, make_with, selftest_with};
ghost use Rattle.meter_program.specs.Words.{asked_with, asked_to_make, asked_by, asked_of, meter, make, selftest};

use crate::settings::{Making, Settings};
use command_words::{OptionRule, OptionsError, values_of};
use ipfix_model::TEMPLATE_MESSAGE_LENGTH;
use std::alloc::Global;

/// A command, with its settings.
#[derive(Clone, Copy, Debug, PartialEq, Eq)]
pub enum Command {
    /// Reads a capture and writes its flows.
    Meter(Settings),
    /// Reads a stream of flows and writes it as text.
    Show,
    /// Writes a made capture.
    Make(Making),
    /// Reads a schedule and writes its replay.
    Schedule,
    /// Meters a made capture and writes the summary.
    Selftest(Making),
}

/// The options of `meter`.
static METER: [OptionRule<'static>; 6] = [
    OptionRule {
        name: "idle",
        low: 1,
        high: 86_400,
        default: Some(300),
    },
    OptionRule {
        name: "active",
        low: 1,
        high: 86_400,
        default: Some(1800),
    },
    OptionRule {
        name: "workers",
        low: 1,
        high: 64,
        default: Some(1),
    },
    OptionRule {
        name: "sets",
        low: 1,
        high: 65_536,
        default: Some(4096),
    },
    OptionRule {
        name: "piece",
        low: 1,
        high: 65_536,
        default: Some(256),
    },
    OptionRule {
        name: "size",
        low: TEMPLATE_MESSAGE_LENGTH as u64,
        high: 65_535,
        default: Some(1400),
    },
];

/// The options of `make` and of `selftest`.
static MAKE: [OptionRule<'static>; 3] = [
    OptionRule {
        name: "seed",
        low: 0,
        high: u64::MAX,
        default: None,
    },
    OptionRule {
        name: "packets",
        low: 1,
        high: 1_000_000,
        default: None,
    },
    OptionRule {
        name: "keys",
        low: 1,
        high: 4096,
        default: Some(64),
    },
];

/// The options of `show` and of `schedule`.
static NONE: [OptionRule<'static>; 0] = [];

/// The settings that the options of `meter` give.
fn settings(alloc: Global, options: &[String]) -> Result<Settings, OptionsError>
    ensures settings { IfOk result (λ s. asked_with meter_options meter_with (map string_bytes options.now)
        ≡ Some (meter s.idle s.active s.workers s.sets s.piece s.size)) }
    ensures refused { IfErr result (λ error. error ≡ OptionsError.NotOptions
        → asked_with meter_options meter_with (map string_bytes options.now) ≡ None) }
{
    let values = values_of(alloc, METER.as_slice(), options)?;
    let [idle, active, workers, sets, piece, size] = values.as_slice() else {
        unreachable!()
    };
    Ok(Settings {
        idle: *idle as u32,
        active: *active as u32,
        workers: *workers as usize,
        sets: *sets,
        piece: *piece,
        size: *size as u32,
    })
}

/// The settings that the options of `make` and of `selftest` give.
fn making_settings(alloc: Global, options: &[String]) -> Result<Making, OptionsError>
    ensures settings { IfOk result (λ s. asked_with make_options make_with (map string_bytes options.now)
        ≡ Some (make s.seed s.packets s.keys)) }
    ensures tested { IfOk result (λ s. asked_with make_options selftest_with (map string_bytes options.now)
        ≡ Some (selftest s.seed s.packets s.keys)) }
    ensures refused { IfErr result (λ error. error ≡ OptionsError.NotOptions
        → asked_with make_options make_with (map string_bytes options.now) ≡ None) }
    ensures refused_test { IfErr result (λ error. error ≡ OptionsError.NotOptions
        → asked_with make_options selftest_with (map string_bytes options.now) ≡ None) }
{
    let values = values_of(alloc, MAKE.as_slice(), options)?;
    let [seed, packets, keys] = values.as_slice() else {
        unreachable!()
    };
    Ok(Making {
        seed: *seed,
        packets: *packets as u32,
        keys: *keys as u16,
    })
}

/// Reads the words of a command without options.
fn no_options(alloc: Global, options: &[String]) -> Result<(), OptionsError>
    ensures none { IfOk result (λ _. values_of [] (map string_bytes options.now) ≡ Some []) }
    ensures refused { IfErr result (λ error. error ≡ OptionsError.NotOptions
        → values_of [] (map string_bytes options.now) ≡ None) }
{
    let _values = values_of(alloc, NONE.as_slice(), options)?;
    Ok(())
}

/// The command of this name that makes a capture.
fn making_command(alloc: Global, name: &str, options: &[String]) -> Result<Command, OptionsError>
    ensures command { IfOk result (λ command. asked_to_make name.now (map string_bytes options.now)
        ≡ Some (asked_of command)) }
    ensures refused { IfErr result (λ error. error ≡ OptionsError.NotOptions
        → asked_to_make name.now (map string_bytes options.now) ≡ None) }
{
    if name == "make" {
        Ok(Command::Make(making_settings(alloc, options)?))
    } else if name == "selftest" {
        Ok(Command::Selftest(making_settings(alloc, options)?))
    } else {
        Err(OptionsError::NotOptions)
    }
}

/// The command that the words behind the program's name ask for.
///
/// | First word | Options: name, least and greatest value, default |
/// |---|---|
/// | `meter` | `idle` 1 to 86,400 seconds, 300; `active` 1 to 86,400 seconds, 1800; `workers` 1 to 64, 1; `sets` 1 to 65,536, 4096; `piece` 1 to 65,536 records, 256; `size` 116 to 65,535 octets, 1400 |
/// | `make`, `selftest` | `seed` 0 to 2^64 - 1, must be given; `packets` 1 to 1,000,000, must be given; `keys` 1 to 4096, 64 |
/// | `show`, `schedule` | none |
///
/// - `NotOptions`: exactly where the words aren't such a command line.
/// - `NoMemory`: out of memory.
pub fn command_of(alloc: Global, words: &[String]) -> Result<Command, OptionsError>
    ensures command { IfOk result (λ command. asked_by (map string_bytes words.now) ≡ Some (asked_of command)) }
    ensures refused { IfErr result (λ error. error ≡ OptionsError.NotOptions
        → asked_by (map string_bytes words.now) ≡ None) }
{
    let Some((name, options)) = words.split_first() else {
        return Err(OptionsError::NotOptions);
    };
    if name.as_str() == "meter" {
        Ok(Command::Meter(settings(alloc, options)?))
    } else if name.as_str() == "show" {
        no_options(alloc, options)?;
        Ok(Command::Show)
    } else if name.as_str() == "schedule" {
        no_options(alloc, options)?;
        Ok(Command::Schedule)
    } else {
        making_command(alloc, name.as_str(), options)
    }
}
