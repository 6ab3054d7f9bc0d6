//! The words of a command line.

ghost use Rattle.std.specs.Prelude.{◌≡◌, Some, None, map, IfOk, IfErr, option_and_then};
ghost use Rattle.std.specs.String.{string_bytes};
ghost use Rattle.command_words.specs.Options.{values_of};
ghost use Rattle.watch_program.specs.Words.{asked_of, asked_with, asked_by, options};

use crate::settings::WatchSettings;
use command_words::{OptionRule, OptionsError, values_of};
use std::alloc::Global;

/// The options of the command.
static OPTIONS: [OptionRule<'static>; 3] = [
    OptionRule {
        name: "workers",
        low: 1,
        high: 63,
        default: Some(1),
    },
    OptionRule {
        name: "sets",
        low: 1,
        high: 65_536,
        default: Some(4096),
    },
    OptionRule {
        name: "asks",
        low: 1,
        high: 10_000,
        default: Some(100),
    },
];

/// The settings that the options of the command give.
fn settings(alloc: Global, words: &[String]) -> Result<WatchSettings, OptionsError>
    ensures asked { IfOk result (λ settings. option_and_then asked_with (values_of options (map string_bytes words.now))
        ≡ Some (asked_of settings)) }
    ensures refused { IfErr result (λ error. error ≡ OptionsError.NotOptions
        → option_and_then asked_with (values_of options (map string_bytes words.now)) ≡ None) }
{
    let values = values_of(alloc, OPTIONS.as_slice(), words)?;
    let [workers, sets, asks] = values.as_slice() else {
        unreachable!()
    };
    Ok(WatchSettings {
        workers: *workers as usize,
        sets: *sets,
        asks: *asks as usize,
    })
}

/// What the words behind the program's name ask for: the first is `watch`, and the others are its options.
///
/// - `NotOptions`: exactly where the words don't have this form.
/// - `NoMemory`: out of memory.
pub(crate) fn settings_of(alloc: Global, words: &[String]) -> Result<WatchSettings, OptionsError>
    ensures asked { IfOk result (λ settings. asked_by (map string_bytes words.now) ≡ Some (asked_of settings)) }
    ensures refused { IfErr result (λ error. error ≡ OptionsError.NotOptions
        → asked_by (map string_bytes words.now) ≡ None) }
{
    match words.split_first() {
        Some((name, options)) if name.as_str() == "watch" => settings(alloc, options),
        _ => Err(OptionsError::NotOptions),
    }
}
