//! What the words behind a program's name ask for.

ghost use Rattle.std.specs.Prelude.{◌≡◌, IfOk, map, codes};
ghost use Rattle.std.specs.String.{string_bytes};
ghost use Rattle.program_help.specs.Requests.{request_of, is_help_word, is_help_option, is_version_word, is_in_front};
ghost use Rattle.program_help.specs.Requests.{with_command};

use no_memory::NoMemory;
use std::alloc::Global;

/// What a command line asks for.
#[derive(Clone, Copy, Debug, PartialEq, Eq)]
pub enum Request {
    /// The help of the program.
    Help,
    /// The help of the command that the word at this place names, counted from 0.
    HelpOf(usize),
    /// The version.
    Version,
    /// A run.
    Run,
}

/// Whether a word in front of all others asks for help.
fn is_help_word(word: &str) -> bool
    ensures { result ≡ is_help_word word.now }
{
    word == "--help" || word == "-h" || word == "help"
}

/// Whether a word behind a command asks for its help.
fn is_help_option(word: &str) -> bool
    ensures { result ≡ is_help_option word.now }
{
    word == "--help" || word == "-h"
}

/// Whether a word in front of all others asks for the version.
fn is_version_word(word: &str) -> bool
    ensures { result ≡ is_version_word word.now }
{
    word == "--version" || word == "-V"
}

/// What the words behind the program's name ask for: help if the first is `--help`, `-h` or `help`, which another word
/// may follow that names a command; the version if the first is `--version` or `-V`; help of the command that the first
/// names if the second is `--help` or `-h`; and otherwise a run.
pub fn request_of(words: &[String]) -> Request
    ensures { result ≡ request_of (map string_bytes words.now) }
{
    match words {
        [] => Request::Run,
        [first] => {
            if is_help_word(first.as_str()) {
                Request::Help
            } else if is_version_word(first.as_str()) {
                Request::Version
            } else {
                Request::Run
            }
        }
        [first, second, ..] => {
            if is_help_word(first.as_str()) {
                Request::HelpOf(1)
            } else if is_version_word(first.as_str()) {
                Request::Version
            } else if is_help_option(second.as_str()) {
                Request::HelpOf(0)
            } else {
                Request::Run
            }
        }
    }
}

/// Whether the first word is this one.
fn is_in_front(words: &[String], command: &str) -> bool
    ensures { result ≡ is_in_front command.now (map string_bytes words.now) }
{
    match words {
        [] => false,
        [first, ..] => first.as_str() == command,
    }
}

/// The words with the command's in front, if that isn't the first one already.
///
/// # Errors
///
/// `NoMemory`: out of memory.
pub fn with_command(
    alloc: Global,
    words: Vec<String>,
    command: &str,
) -> Result<Vec<String>, NoMemory>
    ensures { IfOk result (λ whole. map string_bytes whole.items ≡ with_command command.now (map string_bytes words.items)) }
{
    if is_in_front(words.as_slice(), command) {
        return Ok(words);
    }
    let mut whole = words;
    whole.insert(0, String::from_str(alloc, command)?)?;
    Ok(whole)
}
