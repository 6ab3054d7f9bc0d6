//! The words of a command line.

ghost use Rattle.std.specs.Prelude.{◌≡◌, Some, None, map, IfOk, IfErr, option_and_then};
ghost use Rattle.std.specs.String.{string_bytes};
ghost use Rattle.command_words.specs.Options.{values_of};
ghost use Rattle.pair_program.specs.Words.{asked_of, asked_with, asked_by, options};

use crate::settings::PairSettings;
use command_words::{OptionRule, OptionsError, values_of};
use ipfix_model::BI_TEMPLATE_MESSAGE_LENGTH;
use std::alloc::Global;

/// The options of the command.
static OPTIONS: [OptionRule<'static>; 2] = [
    OptionRule {
        name: "idle",
        low: 1,
        high: 86_400,
        default: Some(300),
    },
    OptionRule {
        name: "size",
        low: BI_TEMPLATE_MESSAGE_LENGTH as u64,
        high: 65_535,
        default: Some(1400),
    },
];

/// The settings that the options of the command give.
fn settings(alloc: Global, words: &[String]) -> Result<PairSettings, OptionsError>
    ensures asked { IfOk result (λ settings. option_and_then asked_with (values_of options (map string_bytes words.now))
        ≡ Some (asked_of settings)) }
    ensures refused { IfErr result (λ error. error ≡ OptionsError.NotOptions
        → option_and_then asked_with (values_of options (map string_bytes words.now)) ≡ None) }
{
    let values = values_of(alloc, OPTIONS.as_slice(), words)?;
    let [idle, size] = values.as_slice() else {
        unreachable!()
    };
    Ok(PairSettings {
        idle: *idle as u32,
        size: *size as u32,
    })
}

/// What the words behind the program's name ask for: the first is `pair`, and the others are its options.
///
/// - `NotOptions`: exactly where the words don't have this form.
/// - `NoMemory`: out of memory.
pub(crate) fn settings_of(alloc: Global, words: &[String]) -> Result<PairSettings, OptionsError>
    ensures asked { IfOk result (λ settings. asked_by (map string_bytes words.now) ≡ Some (asked_of settings)) }
    ensures refused { IfErr result (λ error. error ≡ OptionsError.NotOptions
        → asked_by (map string_bytes words.now) ≡ None) }
{
    match words.split_first() {
        Some((name, options)) if name.as_str() == "pair" => settings(alloc, options),
        _ => Err(OptionsError::NotOptions),
    }
}
