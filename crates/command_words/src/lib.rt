//! Reads the words of one command as its options, by a table of them.
//!
//! A command has a table of [`OptionRule`]s, each with a name, a range and a default. [`values_of`] reads the words
//! behind the command's name by it: each option at most once, in any order, as `--name value` or `--name=value`, with a
//! value of one to twenty decimal digits. `specs/Options.antt` is the grammar.
//!
//! The kit's `clap` takes the words apart, as a command with these options and nothing else: no subcommand, help or
//! version. The contract of `clap` says what its walk does with such words; `proofs/` shows that this is the grammar.
//! Refusing the word `--` and reading the digits are this crate's own. [`words_of`] gives the words of the command
//! line.
#![tactic(auto)]

mod host;
mod number;
mod reading;
mod rule;

pub use host::words_of;
pub use no_memory::NoMemory;
pub use reading::{OptionsError, values_of};
pub use rule::OptionRule;
