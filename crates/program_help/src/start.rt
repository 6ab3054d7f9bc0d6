//! What comes before a run.

use crate::explaining::tell_error;
use crate::lines::tell;
use crate::parser::{command_of, program_of};
use crate::program::{CommandText, Program, VERSION};
use crate::request::{Request, request_of, with_command};
use command_words::{OptionsError, words_of};
use no_memory::NoMemory;
use std::alloc::Global;
use std::io::IsTerminal;
use std::process::ExitCode;

/// The exit status of a command line that is refused.
const USAGE: u8 = 2;
/// The exit status if standard output can't be written.
const WRITE_FAULT: u8 = 3;
/// The exit status for want of memory.
const NO_MEMORY: u8 = 8;

/// What a program is to do with its command line.
pub enum Start {
    /// To run with these words.
    Run(Vec<String>),
    /// To refuse words that can't be read.
    Refuse(OptionsError),
    /// To end at once with this status: all was said.
    End(ExitCode),
}

/// Writes a text to standard output. The exit status.
fn write_text(rt: &HostRuntime, program: &Program, text: &str) -> ExitCode {
    match print!(rt; "{text}") {
        Ok(()) => ExitCode::from(0),
        Err(error) => {
            tell_error(rt, program, "write the output", Some(error));
            ExitCode::from(WRITE_FAULT)
        }
    }
}

/// The help of a program, or of one of its commands.
fn help_text<'a>(
    alloc: Global,
    program: &'a Program,
    command: Option<&'a CommandText>,
) -> Result<String, NoMemory> {
    let text = match command {
        Some(text) => {
            let usage = match program.only_command() {
                Some(_) => format!(in alloc; "{} {}", program.name, text.usage)?,
                None => format!(in alloc; "{} {} {}", program.name, text.word, text.usage)?,
            };
            let mut shown = command_of(alloc, program.name, text)?.override_usage(usage.as_str());
            shown.render_long_help()?
        }
        None => program_of(alloc, program)?.render_help()?,
    };
    Ok(text)
}

/// Answers a request for help.
fn help<'a>(rt: &HostRuntime, program: &'a Program, command: Option<&'a CommandText>) -> ExitCode {
    match help_text(rt.alloc(), program, command) {
        Ok(text) => write_text(rt, program, text.as_str()),
        Err(_) => ExitCode::from(NO_MEMORY),
    }
}

/// Answers a request for the version.
fn version(rt: &HostRuntime, program: &Program) -> ExitCode {
    let name = program.name;
    match println!(rt; "{name} {VERSION}") {
        Ok(()) => ExitCode::from(0),
        Err(_) => ExitCode::from(WRITE_FAULT),
    }
}

/// Whether a terminal is in the way of a command, which is told then. A command that awaits its input from a terminal
/// tells that, and goes on.
fn is_in_the_way(rt: &HostRuntime, program: &Program, command: &CommandText) -> bool {
    if command.is_binary && rt.stdout().is_terminal() {
        tell(
            rt,
            program,
            "standard output is a terminal, and the output isn't text: add > FILE, or | and a command",
        );
        return true;
    }
    if let Some(awaited) = command.awaits {
        if rt.stdin().is_terminal() {
            let alloc: Global = rt.alloc();
            if let Ok(line) = format!(in alloc;
                "waiting for {awaited} on standard input, a terminal; add < FILE, or end it by Ctrl-D"
            ) {
                tell(rt, program, line.as_str());
            }
        }
    }
    false
}

/// What a program is to do with words that aren't a request for help.
fn begin_run(rt: &HostRuntime, program: &Program, words: Vec<String>) -> Start {
    let words = match program.only_command() {
        Some(command) => match with_command(rt.alloc(), words, command.word) {
            Ok(words) => words,
            Err(NoMemory) => return Start::Refuse(OptionsError::NoMemory),
        },
        None => words,
    };
    if let Some(first) = words.first() {
        if let Some(command) = program.command(first.as_str()) {
            if is_in_the_way(rt, program, command) {
                return Start::End(ExitCode::from(USAGE));
            }
        }
    }
    Start::Run(words)
}

/// What a program is to do with its command line. A request for help or for the version is answered on standard output,
/// with status 0. The command's word is put in front if the program has one command and it was left out. A command that
/// writes octets which aren't text refuses a terminal as standard output, with status 2, before it reads anything.
pub fn begin(rt: &HostRuntime, program: &Program) -> Start {
    let words = match words_of(rt) {
        Ok(words) => words,
        Err(error) => return Start::Refuse(error),
    };
    match request_of(words.as_slice()) {
        Request::Run => begin_run(rt, program, words),
        Request::Version => Start::End(version(rt, program)),
        Request::Help => Start::End(help(rt, program, program.only_command())),
        Request::HelpOf(place) => {
            let named = words.get(place);
            let command = match named {
                Some(word) => program.command(word.as_str()),
                None => None,
            };
            match command {
                Some(_) => Start::End(help(rt, program, command)),
                None => Start::End(help(rt, program, program.only_command())),
            }
        }
    }
}
