//! The top call of the pipelined meter: a capture is metered while it is read.
//!
//! [`run_pipe`] is the whole program but for its outside: `romtyalig_pipe` hands it the words behind the program's name
//! and the standard streams, and ends with the exit status of its [`Status`](meter_program::Status). A run goes so:
//!
//! 1. **Words** (`words.rt`): `pipe` and its options are [`PipeSettings`], or it is `Usage`. Nothing is read then.
//! 2. **Metering** (`metering.rt`): a cache of those that were handed in is opened, and [`meter_workers`] meters the
//!    input in batches through it: the reader fills a queue, and workers take from it. Then the cache is closed.
//! 3. **Writing**: what the cache gave is gathered into records, and these and the summary are written, by the calls of
//!    [`meter_program`] by which the command `meter` does it.
//! 4. **The end** (`refusal.rt`): at a refusal its line goes to standard error, and nothing else was written.
//!
//! `specs/Outcome.antt` says what a run means: what a run of `meter` means that is asked for the same, by the
//! definitions of `meter_program`. `Words` there is the command line, `Lines` the lines of refusals.
#![tactic(auto)]

mod metering;
mod refusal;
mod running;
mod settings;
mod words;

pub use refusal::pipe_line;
pub use running::run_pipe;
pub use settings::PipeSettings;
pub use words::settings_of;
