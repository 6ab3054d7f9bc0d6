//! What is wrong with a command line.

use crate::lines::tell;
use crate::parser::{command_of, program_of};
use crate::program::{CommandText, Program};
use no_memory::NoMemory;
use std::alloc::Global;

/// The first word that is neither an option nor the value of one.
fn first_operand(words: &[String]) -> Option<&str> {
    let mut is_value = false;
    for word in words {
        let text = word.as_str();
        if is_value {
            is_value = false;
        } else if text.starts_with("--") {
            is_value = !text.contains('=');
        } else {
            return Some(text);
        }
    }
    None
}

/// The first word that begins with two hyphens behind one that doesn't, and isn't the value of an option.
fn option_behind_files(words: &[String]) -> Option<&str> {
    let mut is_value = false;
    let mut is_behind = false;
    for word in words {
        let text = word.as_str();
        if is_value {
            is_value = false;
        } else if text.starts_with("--") {
            if is_behind {
                return Some(text);
            }
            is_value = !text.contains('=');
        } else {
            is_behind = true;
        }
    }
    None
}

/// Tells what `clap` says of the words: its first line, and its tips.
fn tell_message(rt: &HostRuntime, program: &Program, message: &str) {
    for line in message.lines() {
        let line = line.trim();
        if let Some(fault) = line.strip_prefix("error: ") {
            tell(rt, program, fault);
        } else if line.starts_with("tip: ") || line.starts_with("--") || line.starts_with("<") {
            tell(rt, program, line);
        }
    }
}

/// Tells what is wrong with the words of a command, by `clap`.
fn tell_by_parser<'a>(
    rt: &HostRuntime,
    program: &'a Program,
    text: Option<&'a CommandText>,
    words: &'a [String],
) -> Result<(), NoMemory> {
    let alloc: Global = rt.alloc();
    let command = match text {
        Some(text) => command_of(alloc, program.name, text)?,
        None => program_of(alloc, program)?,
    };
    let command = command.no_binary_name(true);
    if let Err(error) = command.try_get_matches_from(words) {
        let message = format!(in alloc; "{error}")?;
        tell_message(rt, program, message.as_str());
    }
    Ok(())
}

/// Tells what a command makes of a word that it doesn't expect. Whether there is such a word.
fn tell_operand(
    rt: &HostRuntime,
    program: &Program,
    text: &CommandText,
    words: &[String],
) -> Result<bool, NoMemory> {
    let alloc: Global = rt.alloc();
    let name = program.name;
    if text.has_files {
        let Some(word) = option_behind_files(words) else {
            return Ok(false);
        };
        let line = format!(in alloc;
            "'{word}' stands behind a file: options come first, as in {name} --idle 60 FILE.."
        )?;
        tell(rt, program, line.as_str());
        return Ok(true);
    }
    let Some(word) = first_operand(words) else {
        return Ok(false);
    };
    let line = match text.awaits {
        Some(awaited) => format!(in alloc;
            "'{word}' is not expected: {awaited} comes on standard input, as in {name} {} < {word}",
            text.word
        )?,
        None => format!(in alloc; "'{word}' is not expected: {} reads nothing", text.word)?,
    };
    tell(rt, program, line.as_str());
    Ok(true)
}

/// Tells which word of a faulty command line is wrong, and why.
pub(crate) fn tell_mistake<'a>(
    rt: &HostRuntime,
    program: &'a Program,
    words: &'a [String],
) -> Result<(), NoMemory> {
    let Some((first, others)) = words.split_first() else {
        tell(rt, program, "no command is given");
        return Ok(());
    };
    let found: Option<&'a CommandText> = program.command(first.as_str());
    let Some(text) = found else {
        if first.as_str().contains('.') {
            let alloc: Global = rt.alloc();
            let name = program.name;
            let line = format!(in alloc;
                "'{first}' is no command: a capture comes on standard input, as in {name} meter < {first}"
            )?;
            tell(rt, program, line.as_str());
            return Ok(());
        }
        return tell_by_parser(rt, program, None, words);
    };
    if tell_operand(rt, program, text, others)? {
        return Ok(());
    }
    let command: Option<&'a CommandText> = Some(text);
    tell_by_parser(rt, program, command, others)
}
