//! Reading words by a table of options.

ghost use Rattle.std.specs.Prelude.{◌≡◌, ◌++◌, ◌∷◌, [], Some, None, IsTrue, map, length, codes, IfOk, IfErr, OnOk};
ghost use Rattle.std.specs.Prelude.{option_map};
ghost use Rattle.std.specs.List.{list_any};
ghost use Rattle.std.specs.Str.{bytes_eq};
ghost use Rattle.std.specs.String.{string_bytes};
ghost use Rattle.clap.specs.Words.{app_of, first_value, found_of};
ghost use Rattle.command_words.specs.Options.{values_of, have_defaults_within, AreWithin};
ghost use Rattle.command_words.specs.Command.{app_for, names_in, values_found};
ghost use Rattle.command_words.specs.Views.{rules_of};

use crate::number::value_by;
use crate::rule::OptionRule;
use clap::error::ErrorKind;
use clap::{Arg, ArgAction, ArgMatches, Command};
use no_memory::NoMemory;
use std::alloc::Global;

/// Why the words give no values.
#[derive(Clone, Copy, Debug, PartialEq, Eq)]
pub enum OptionsError {
    /// The words are not options by the table, as [`values_of`] describes them.
    NotOptions,
    /// Out of memory.
    NoMemory,
}

impl From<NoMemory> for OptionsError {
    ghost use Rattle.command_words.specs.declared.reading.OptionsError.TheVariants.{NoMemory as OutOfMemory};

    ghost from_gives = { λ _ error. error ≡ OutOfMemory };

    fn from(_error: NoMemory) -> OptionsError {
        OptionsError::NoMemory
    }
}

/// Whether one of the words is two hyphens.
fn has_dashes(words: &[String]) -> bool
    ensures { result ≡ list_any (λ word. bytes_eq word (codes "--")) (map string_bytes words.now) }
{
    for word in words {
        if word.as_str() == "--" {
            return true;
        }
    }
    false
}

/// The command of `clap` that reads words by these options.
fn command_of<'a>(alloc: Global, table: &'a [OptionRule<'a>]) -> Result<Command<'a>, NoMemory>
    ensures { IfOk result (λ command. app_of command ≡ app_for (names_in (rules_of table.now))) }
{
    let mut command = Command::new(alloc, "")
        .no_binary_name(true)
        .disable_help_flag(true);
    for rule in table {
        let option = Arg::new(alloc, rule.name)
            .long(rule.name)
            .action(ArgAction::Set);
        command = command.arg(option)?;
    }
    Ok(command)
}

/// Appends a value.
fn append(values: &mut Vec<u64>, value: u64) -> Result<(), NoMemory>
    ensures { OnOk result (values.new.items ≡ values.old.items ++ value ∷ []) }
{
    values.push(value)?;
    Ok(())
}

/// The values of the options, by what was found for their names.
fn values_found(
    alloc: Global,
    table: &[OptionRule<'_>],
    matches: &ArgMatches<'_>,
) -> Result<Vec<u64>, OptionsError>
    ensures values { IfOk result (λ values. values_found (rules_of table.now) (first_value (found_of matches.now))
        ≡ Some values.items) }
    ensures refused { IfErr result (λ error. error ≡ OptionsError.NotOptions
        → values_found (rules_of table.now) (first_value (found_of matches.now)) ≡ None) }
{
    let mut values = Vec::new(alloc);
    for rule in table {
        let Some(value) = value_by(rule, matches.get_str(rule.name)) else {
            return Err(OptionsError::NotOptions);
        };
        append(&mut values, value)?;
    }
    Ok(values)
}

/// Reads the words behind a command's name: the values of the options of a table, in the table's order.
///
/// Each option stands at most once, in any order, as `--name value` or `--name=value`. A value is one to twenty decimal
/// digits, where leading zeros are allowed, whose number is in the option's range.
///
/// Each default must be in its option's range. So each value is in its option's range, and there is one for each
/// option.
///
/// - `NotOptions`: exactly where the words aren't such, unless memory ran out first: another word or name, an option
///   twice or without a value, a value of another form or out of its range, or an option left out that has no default.
/// - `NoMemory`: out of memory.
pub fn values_of<'a>(
    alloc: Global,
    table: &'a [OptionRule<'a>],
    words: &'a [String],
) -> Result<Vec<u64>, OptionsError>
    requires defaults { IsTrue (have_defaults_within (rules_of table.now)) }
    ensures values { IfOk result (λ values. values_of (rules_of table.now) (map string_bytes words.now)
        ≡ Some values.items) }
    ensures refused { IfErr result (λ error. error ≡ OptionsError.NotOptions
        → values_of (rules_of table.now) (map string_bytes words.now) ≡ None) }
    ensures within { IfOk result (λ values. AreWithin (rules_of table.now) values.items) }
    ensures count { IfOk result (λ values. length values.items ≡ length table.now) }
{
    if has_dashes(words) {
        return Err(OptionsError::NotOptions);
    }
    let command = command_of(alloc, table)?;
    match command.try_get_matches_from(words) {
        Ok(matches) => values_found(alloc, table, &matches),
        Err(error) if error.kind() == ErrorKind::OutOfMemory => Err(OptionsError::NoMemory),
        Err(_) => Err(OptionsError::NotOptions),
    }
}
