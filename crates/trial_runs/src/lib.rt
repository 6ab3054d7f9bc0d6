//! Trials of the top calls, [`run`](meter_program::run) and [`run_pipe`](pipe_program::run_pipe), over caches and
//! workers: command lines; captures, streams and schedules octet by octet; reads and writes that fail; workers that
//! wait for each other; and that the pipeline writes what `meter` does. They stand above both, so that
//! neither proof waits for theirs.
//!
//! Beside them stands the law of made captures: nothing cuts their sessions, so what `selftest` writes is one function
//! of its three numbers. The packets of such a capture are UDP, a millisecond apart, at most 1,000,000 of them: no
//! session outlasts 1000 s, and none of its packets ends a flow. So the records that a self test sums up are those of
//! the sessions, whatever its workers do. [`made_captures_law`] does nothing; its contract is the law.
#![tactic(auto)]

mod laws;
#[cfg(test)]
mod tests;

pub use laws::made_captures_law;
