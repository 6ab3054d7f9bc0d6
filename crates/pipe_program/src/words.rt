//! The words of a command line: `pipe` and its options.

ghost use Rattle.std.specs.Prelude.{◌≡◌, None, Some, map, IfOk, IfErr};
ghost use Rattle.std.specs.String.{string_bytes};
ghost use Rattle.pipe_program.specs.Words.{piping_of, piping_by, piping_with};

use crate::settings::PipeSettings;
use command_words::{OptionRule, OptionsError, values_of};
use ipfix_model::TEMPLATE_MESSAGE_LENGTH;
use std::alloc::Global;

/// The options of `pipe`.
static PIPE: [OptionRule<'static>; 7] = [
    OptionRule {
        name: "idle",
        low: 1,
        high: 86_400,
        default: Some(300),
    },
    OptionRule {
        name: "active",
        low: 1,
        high: 86_400,
        default: Some(1800),
    },
    OptionRule {
        name: "workers",
        low: 1,
        high: 62,
        default: Some(1),
    },
    OptionRule {
        name: "sets",
        low: 1,
        high: 65_536,
        default: Some(4096),
    },
    OptionRule {
        name: "queue",
        low: 1,
        high: 64,
        default: Some(16),
    },
    OptionRule {
        name: "batch",
        low: 262_184,
        high: 4_194_304,
        default: Some(1_048_576),
    },
    OptionRule {
        name: "size",
        low: TEMPLATE_MESSAGE_LENGTH as u64,
        high: 65_535,
        default: Some(1400),
    },
];

/// The settings that the options of `pipe` give.
fn settings(alloc: Global, options: &[String]) -> Result<PipeSettings, OptionsError>
    ensures settings { IfOk result (λ s. piping_with (map string_bytes options.now) ≡ Some (piping_of s)) }
    ensures refused { IfErr result (λ error. error ≡ OptionsError.NotOptions
        → piping_with (map string_bytes options.now) ≡ None) }
{
    let values = values_of(alloc, PIPE.as_slice(), options)?;
    let [idle, active, workers, sets, queue, batch, size] = values.as_slice() else {
        unreachable!()
    };
    Ok(PipeSettings {
        idle: *idle as u32,
        active: *active as u32,
        workers: *workers as usize,
        sets: *sets,
        queue: *queue as usize,
        batch: *batch as usize,
        size: *size as u32,
    })
}

/// The settings that the words behind the program's name ask for: `pipe`, and then each option at most once.
///
/// | Option | Least and greatest value, default |
/// |---|---|
/// | `idle` | 1 to 86,400 seconds, 300 |
/// | `active` | 1 to 86,400 seconds, 1800 |
/// | `workers` | 1 to 62, 1 |
/// | `sets` | 1 to 65,536, 4096 |
/// | `queue` | 1 to 64 batches, 16 |
/// | `batch` | 262,184 to 4,194,304 bytes, 1,048,576 |
/// | `size` | 116 to 65,535 octets, 1400 |
///
/// - `NotOptions`: exactly where the words aren't such a command line.
/// - `NoMemory`: out of memory.
pub fn settings_of(alloc: Global, words: &[String]) -> Result<PipeSettings, OptionsError>
    ensures settings { IfOk result (λ s. piping_by (map string_bytes words.now) ≡ Some (piping_of s)) }
    ensures refused { IfErr result (λ error. error ≡ OptionsError.NotOptions
        → piping_by (map string_bytes words.now) ≡ None) }
{
    let Some((name, options)) = words.split_first() else {
        return Err(OptionsError::NotOptions);
    };
    if name.as_str() == "pipe" {
        settings(alloc, options)
    } else {
        Err(OptionsError::NotOptions)
    }
}
