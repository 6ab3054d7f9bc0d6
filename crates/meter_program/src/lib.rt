//! The top call: a command's words, an input, an output and standard error, and how the run ended.
//!
//! [`run`] is the whole program but for its outside: `romtyalig` hands it the words behind the program's name and the
//! standard streams, and ends with the exit status of its [`Status`]. A run goes so:
//!
//! 1. **Words.** `words.rt` reads them by `command_words` and a table of options for each command: a [`Command`] with
//!    its settings, or none, which is `Usage`. Nothing is read then.
//! 2. **`meter`**: `metering.rt` opens a cache of the caches that were handed in, with a pass for each worker. The
//!    input is read in windows. One worker meters each before the next is read; several meter a window all at once
//!    while the next is read. Then the cache is closed, and the fragments that it handed out and kept are gathered into
//!    records. `meter.rt` makes an emitter for their stream, with all memory that writing takes. Up to here the run may
//!    refuse, and nothing was written. Then the stream goes out, in whole messages through a buffer, and the summary
//!    goes to standard error.
//! 3. **`show`** (`show.rt`): the input is read to its end as a stream, message by message through a window
//!    (`stream_input`). Each data record becomes a line of text as it is read (`lines.rt`), and the text alone is held.
//!    **`make`** (`make.rt`): a capture is made by a seed; nothing is read. **`schedule`** (`schedule.rt`): the input
//!    is read to its end as a schedule and replayed, and the replay is printed. The text of each goes out in one piece,
//!    and a count to standard error (`ending.rt`).
//! 4. **`selftest`** (`selftest.rt`): a made capture is metered from memory as by `meter`, its stream is emitted to a
//!    sink that keeps nothing, and the summary goes to the output.
//! 5. **The end.** At a refusal its line goes to standard error (`reports.rt`), and nothing else was written.
//!
//! A program that meters in its own way gathers and writes as this one by [`gathered_of`] and [`write_stream`], and
//! reports by [`summary`] and [`fault_line`].
//!
//! `specs/Outcome.antt` says what a run means, by its words and its status: that is the contract of `run`, and the file
//! to read first. `Seen` there is what is seen of input, output and standard error before and after; `Words` the
//! command lines; `Shows`, `Summary` and `Replays` the texts; `Statuses` exit statuses and lines; `ExportTime`
//! the export time; `Metering` what metering, gathering and writing say of one another, for every program that meters.
//! `Showing` and `Replaying` are the code's own.
#![tactic(auto)]

mod ending;
mod lines;
mod make;
mod meter;
mod metering;
mod reports;
mod running;
mod schedule;
mod selftest;
mod settings;
mod show;
mod status;
mod words;

pub use meter::write_stream;
pub use metering::{CaptureCount, Gathered, gathered_of};
pub use reports::{fault_line, summary};
pub use running::run;
pub use settings::{Making, Settings};
pub use status::Status;
pub use words::{Command, command_of};
