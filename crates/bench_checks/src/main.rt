//! The program behind some scripts of `checks/` and `bench/`. Its first word says what it does with the capture of
//! standard input:
//!
//!     bench_checks threads < CAPTURE
//!     bench_checks lists WORKERS ASKS < CAPTURE
//!     bench_checks windows WORKERS WINDOW SETS < CAPTURE
//!     bench_checks pace turn|pebr THREADS SETS < CAPTURE
//!
//! `threads` meters it by two threads through one cache of four sets, and tells whether the fragments are whole.
//! `lists` looks at the lists of retired slots while workers meter and a watcher asks. `windows` meters it in windows,
//! and neither gathers nor writes. `pace` tells the nanoseconds that a cache takes for a packet. A file for each says
//! more. The status is 0; 1 where the capture isn't metered, what is checked doesn't hold, or the line can't be
//! written; 2 for other words.
#![tactic(auto)]

mod asking;
mod counts;
mod keys;
mod lists;
mod looked;
mod pace;
mod packets;
mod runner;
mod threads;
mod windows;

use crate::lists::tell_lists;
use crate::pace::tell_pace;
use crate::threads::tell_threads;
use crate::windows::tell_windows;
use command_words::words_of;
use std::process::ExitCode;
use std::thread::Threads;
use std::time::Clock;

/// Does what the first of the words says. The threads and the clock are those of the runtime, as `main` has it.
fn tell<R: Threads + Clock + Sync>(rt: &R, host: &HostRuntime, words: &[String]) -> ExitCode {
    let Some(word) = words.first() else {
        return ExitCode::from(2);
    };
    match word.as_str() {
        "threads" => tell_threads(rt, host, words),
        "lists" => tell_lists(rt, host, words),
        "windows" => tell_windows(rt, host, words),
        "pace" => tell_pace(rt, host, words),
        _ => ExitCode::from(2),
    }
}

fn main(rt: HostRuntime) -> ExitCode {
    match words_of(&rt) {
        Ok(words) => tell(&rt, &rt, words.as_slice()),
        Err(_) => ExitCode::from(2),
    }
}
