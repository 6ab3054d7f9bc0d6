//! What is told of a program: its commands, and their options.

/// An option of a command: a number in a range.
#[derive(Clone, Copy)]
pub struct OptionText {
    /// Its name, without the hyphens.
    pub name: &'static str,
    /// What its value counts, in upper case.
    pub value: &'static str,
    /// What it sets; its range, and its value if it isn't given.
    pub about: &'static str,
    /// Its least value.
    pub low: u64,
    /// Its greatest value.
    pub high: u64,
    /// Whether it must be given.
    pub is_required: bool,
}

/// A command of a program.
#[derive(Clone, Copy)]
pub struct CommandText {
    /// Its word.
    pub word: &'static str,
    /// What it does, in a line.
    pub about: &'static str,
    /// How it is typed, without the program's name and the command's word.
    pub usage: &'static str,
    /// Its options.
    pub options: &'static [OptionText],
    /// Whether it reads files that are named behind the options.
    pub has_files: bool,
    /// Whether it reads standard input, and what it awaits there.
    pub awaits: Option<&'static str>,
    /// Whether it writes octets that aren't text to standard output.
    pub is_binary: bool,
    /// What it reads and writes, an example, and the manual page.
    pub details: &'static str,
}

/// A program.
#[derive(Clone, Copy)]
pub struct Program {
    /// Its name.
    pub name: &'static str,
    /// What it does, in a line, if it has several commands.
    pub about: &'static str,
    /// Its commands. If it has one alone, the word of that may be left out.
    pub commands: &'static [CommandText],
    /// What stands behind the list of its commands in its help, if it has several.
    pub details: &'static str,
}

/// The version of all programs, as `packaging/control` has it.
pub const VERSION: &str = "0.9.0";

impl Program {
    /// The command of this word.
    pub fn command<'a>(&'a self, word: &str) -> Option<&'a CommandText> {
        for command in self.commands {
            if command.word == word {
                return Some(command);
            }
        }
        None
    }

    /// The one command, if there is one alone.
    pub fn only_command<'a>(&'a self) -> Option<&'a CommandText> {
        match self.commands {
            [command] => Some(command),
            _ => None,
        }
    }
}
