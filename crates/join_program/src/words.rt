//! The words of a command line.

ghost use Rattle.std.specs.Prelude.{◌≡◌, ◌≤◌, Some, None, false, map, filter, length, codes, IfOk, IfErr, IfSome};
ghost use Rattle.std.specs.Prelude.{IfNone};
ghost use Rattle.std.specs.Prelude.{option_and_then, List, ℕ, drop};
ghost use Rattle.std.specs.Str.{bytes_eq};
ghost use Rattle.std.specs.String.{string_bytes};
ghost use Rattle.command_words.specs.Options.{values_of};
ghost use Rattle.join_program.specs.Words.{is_option, has_value, option_words, are_files, options, share_options};
ghost use Rattle.join_program.specs.Words.{asked_with, asked_by, asked_of_words, values_by};
ghost use Rattle.join_program.specs.Taking.{asked_of};

use crate::settings::{JoinSettings, Share};
use command_words::{OptionRule, OptionsError, values_of};
use ipfix_model::TEMPLATE_MESSAGE_LENGTH;
use std::alloc::Global;

const IDLE: OptionRule<'static> = OptionRule {
    name: "idle",
    low: 1,
    high: 86_400,
    default: Some(300),
};

const ACTIVE: OptionRule<'static> = OptionRule {
    name: "active",
    low: 1,
    high: 86_400,
    default: Some(1800),
};

const SIZE: OptionRule<'static> = OptionRule {
    name: "size",
    low: TEMPLATE_MESSAGE_LENGTH as u64,
    high: 65_535,
    default: Some(1400),
};

/// The options without a share.
static OPTIONS: [OptionRule<'static>; 3] = [IDLE, ACTIVE, SIZE];

/// The options with a share.
static SHARE_OPTIONS: [OptionRule<'static>; 5] = [
    IDLE,
    ACTIVE,
    SIZE,
    OptionRule {
        name: "part",
        low: 1,
        high: 4096,
        default: None,
    },
    OptionRule {
        name: "parts",
        low: 1,
        high: 4096,
        default: None,
    },
];

/// Whether the word is an option: whether it begins with two hyphens.
fn is_option(word: &str) -> bool
    ensures { result ≡ is_option word.now }
{
    match word.as_bytes() {
        [first, second, ..] => *first == b'-' && *second == b'-',
        _ => false,
    }
}

/// Whether an option has its value in the same word, after an equals sign.
fn has_value(word: &str) -> bool
    ensures { result ≡ has_value word.now }
{
    word.as_bytes().iter().any(|byte| *byte == b'=')
}

/// How many words at the front are options and their values.
fn option_words(words: &[String]) -> usize
    ensures number { result ≡ option_words false (map string_bytes words.now) }
    ensures within { result ≤ length words.now }
{
    let mut waiting = false;
    let mut count = 0;
    while count < words.len() {
        let word = words[count].as_str();
        if waiting {
            waiting = false;
        } else if is_option(word) {
            waiting = !has_value(word);
        } else {
            return count;
        }
        count += 1;
    }
    count
}

/// How many of the files are standard input, `-`.
fn inputs_in(files: &[String]) -> usize
    ensures { result ≡ length (filter (λ name. bytes_eq name (codes "-")) (map string_bytes files.now)) }
{
    let mut count = 0;
    for name in files {
        if name.as_str() == "-" {
            count += 1;
        }
    }
    count
}

/// Whether there are 1 to 65,536 files, of which at most one is standard input.
fn are_files(files: &[String]) -> bool
    ensures { result ≡ are_files (map string_bytes files.now) }
{
    !files.is_empty() && files.len() <= 65_536 && inputs_in(files) <= 1
}

/// The settings that options without a share give.
fn settings(alloc: Global, words: &[String]) -> Result<JoinSettings, OptionsError>
    ensures asked { IfOk result (λ settings. (files : List (List ℕ))
        → option_and_then (asked_with files) (values_of options (map string_bytes words.now))
        ≡ Some (asked_of settings files)) }
    ensures refused { IfErr result (λ error. error ≡ OptionsError.NotOptions
        → values_of options (map string_bytes words.now) ≡ None) }
{
    let values = values_of(alloc, OPTIONS.as_slice(), words)?;
    let [idle, active, size] = values.as_slice() else {
        unreachable!()
    };
    Ok(JoinSettings {
        idle: *idle as u32,
        active: *active as u32,
        size: *size as u32,
        share: None,
    })
}

/// The settings that options with a share give.
fn share_settings(alloc: Global, words: &[String]) -> Result<JoinSettings, OptionsError>
    ensures asked { IfOk result (λ settings. (files : List (List ℕ))
        → option_and_then (asked_with files) (values_of share_options (map string_bytes words.now))
        ≡ Some (asked_of settings files)) }
    ensures refused { IfErr result (λ error. error ≡ OptionsError.NotOptions → (files : List (List ℕ))
        → option_and_then (asked_with files) (values_of share_options (map string_bytes words.now)) ≡ None) }
{
    let values = values_of(alloc, SHARE_OPTIONS.as_slice(), words)?;
    let [idle, active, size, number, count] = values.as_slice() else {
        unreachable!()
    };
    if number > count {
        return Err(OptionsError::NotOptions);
    }
    Ok(JoinSettings {
        idle: *idle as u32,
        active: *active as u32,
        size: *size as u32,
        share: Some(Share {
            number: *number,
            count: *count,
        }),
    })
}

/// The settings that options give, without a share or with one.
fn any_settings(alloc: Global, words: &[String]) -> Result<JoinSettings, OptionsError>
    ensures asked { IfOk result (λ settings. (files : List (List ℕ)) → option_and_then (asked_with files)
        (values_by (values_of options (map string_bytes words.now))
        (values_of share_options (map string_bytes words.now)))
        ≡ Some (asked_of settings files)) }
    ensures refused { IfErr result (λ error. error ≡ OptionsError.NotOptions → (files : List (List ℕ))
        → option_and_then (asked_with files)
        (values_by (values_of options (map string_bytes words.now))
        (values_of share_options (map string_bytes words.now)))
        ≡ None) }
{
    match settings(alloc, words) {
        Err(OptionsError::NotOptions) => share_settings(alloc, words),
        other => other,
    }
}

/// What the words of the command line ask for.
#[derive(Clone, Copy, Debug)]
pub(crate) struct Command<'a> {
    pub settings: JoinSettings,
    pub files: &'a [String],
}

/// What the words behind the command's name ask for.
fn command_in<'a>(alloc: Global, words: &'a [String]) -> Result<Command<'a>, OptionsError>
    ensures asked { IfOk result (λ command. asked_of_words (map string_bytes words.now)
        ≡ Some (asked_of command.settings (map string_bytes command.files.now))) }
    ensures refused { IfErr result (λ error. error ≡ OptionsError.NotOptions
        → asked_of_words (map string_bytes words.now) ≡ None) }
{
    let (options, files) = words.split_at(option_words(words));
    if !are_files(files) {
        return Err(OptionsError::NotOptions);
    }
    let settings = any_settings(alloc, options)?;
    Ok(Command { settings, files })
}

/// What the words behind the program's name ask for: the first is `join`, then come its options, and the others are
/// files.
///
/// - `NotOptions`: exactly where the words don't have this form.
/// - `NoMemory`: out of memory.
pub(crate) fn command_of<'a>(
    alloc: Global,
    words: &'a [String],
) -> Result<Command<'a>, OptionsError>
    ensures asked { IfOk result (λ command. asked_by (map string_bytes words.now)
        ≡ Some (asked_of command.settings (map string_bytes command.files.now))) }
    ensures refused { IfErr result (λ error. error ≡ OptionsError.NotOptions
        → asked_by (map string_bytes words.now) ≡ None) }
{
    match words.split_first() {
        Some((name, words)) if name.as_str() == "join" => command_in(alloc, words),
        _ => Err(OptionsError::NotOptions),
    }
}
