//! Help, version and hints of the programs: what a program says to whoever types a command.
//!
//! A [`Program`] has commands, each with options and texts. A program's `main` calls [`begin`] before it runs anything.
//! That answers a request for help or for the version ([`request_of`] says exactly which words are one), puts the
//! command's word in front if it was left out ([`with_command`]), and refuses a terminal as the place of binary output.
//! After a run that refused, `main` calls [`explain`]. It writes lines to standard error that begin with the program's
//! name and a colon: what the system said of a failed read or write, which word of the command line is wrong and why,
//! or what the first octets of the input are ([`kind_of`]) and which command reads them.
//!
//! The kit's `clap` lays out the help, and words what is wrong with a command line. Whether a command line is wrong is
//! for the program itself: nothing here decides how a run ends.
#![tactic(auto)]

mod explaining;
mod input;
mod lines;
mod mistake;
mod parser;
mod program;
mod programs;
mod request;
mod start;
#[cfg(test)]
mod tests;

pub use explaining::{Cause, Faults, explain, explain_words};
pub use input::{InputKind, kind_of};
pub use lines::tell;
pub use no_memory::NoMemory;
pub use program::{CommandText, OptionText, Program};
pub use programs::{JOIN, METER, PAIR, PCAPNG, PIPE, WATCH};
pub use request::{Request, request_of, with_command};
pub use start::{Start, begin};
