//! The programs as commands of `clap`.

use crate::program::{CommandText, OptionText, Program, VERSION};
use clap::{Arg, ArgAction, Command, value_parser};
use no_memory::NoMemory;
use std::alloc::Global;

/// An option as an argument of `clap`, which checks its range as far as it is one of `i64`.
fn argument<'a>(alloc: Global, option: &'a OptionText) -> Arg<'a> {
    let argument = Arg::new(alloc, option.name)
        .long(option.name)
        .value_name(option.value)
        .help(option.about)
        .action(ArgAction::Set)
        .required(option.is_required);
    match (i64::try_from(option.low), i64::try_from(option.high)) {
        (Ok(low), Ok(high)) => argument.value_parser(value_parser!(u64).range(low..=high)),
        _ => argument.value_parser(value_parser!(u64)),
    }
}

/// A command of a program, under a name.
pub(crate) fn command_of<'a>(
    alloc: Global,
    name: &'a str,
    text: &'a CommandText,
) -> Result<Command<'a>, NoMemory> {
    let mut command = Command::new(alloc, name)
        .about(text.about)
        .after_help(text.details)
        .disable_version_flag(true);
    for option in text.options {
        command = command.arg(argument(alloc, option))?;
    }
    if text.has_files {
        let files = Arg::new(alloc, "FILE")
            .num_args(1..)
            .required(true)
            .help("IPFIX streams; - is standard input");
        command = command.arg(files)?;
    }
    Ok(command)
}

/// A program of several commands.
pub(crate) fn program_of<'a>(alloc: Global, program: &'a Program) -> Result<Command<'a>, NoMemory> {
    let mut whole = Command::new(alloc, program.name)
        .about(program.about)
        .version(VERSION)
        .after_help(program.details)
        .subcommand_required(true);
    for text in program.commands {
        whole = whole.subcommand(command_of(alloc, text.word, text)?)?;
    }
    Ok(whole)
}
