//! Watching a running cache: a capture is metered by workers, and meanwhile its open flows are asked for.
//!
//! # What a watcher is for
//!
//! A meter that runs has its open flows in a cache that all workers write to. An operator who asks "how much has this
//! flow sent so far?" wants an answer now, as it stands, and not when the flow ends; and the workers must not wait for
//! the question. A [`Watcher`](cache_watch::Watcher) holds the entry of one flow as it stood when it was asked for,
//! reads it at leisure, and releases it, while workers count on in other slots or put the flow out. It has a seat of
//! its own at the cache and no pin while it holds, so it costs the workers at most the four slots under its shields.
//!
//! # What the program does
//!
//! [`run_watch`] is the whole program but for its `main`. It reads a capture, opens a cache with a seat for each worker
//! and one more (`watching.rt`), and runs the workers and the asker at the same time (`asking.rt`). Ask k is for the
//! flow of accepted packet k; after the last packet it begins again with the first (`keys.rt`). An answer is `held`,
//! with the flow as it was read, `absent`, where the flow isn't open at that time, or `lost`, where the watcher was
//! ejected three times. Then the watcher's pass is united with those of the workers, the cache is closed, and the total
//! of all that it handed out and kept is written after the answers: the packets and octets of the capture, none lost
//! and none counted twice, whatever was asked.
//!
//! Which answer comes depends on how far the workers are. What holds of every run, whatever the interleaving, is in
//! `specs/Outcome.antt`, the file to read first: that there is a line for each ask, which packets a held flow can have,
//! and what the total is.
//! `Words` there has the command line, `Answers` and `Lines` the answers and their text, `Statuses` the exit statuses.
#![tactic(auto)]

mod answer;
mod asking;
mod keys;
mod lines;
mod running;
mod settings;
mod status;
mod total;
mod watching;
mod words;

pub use answer::Answer;
pub use running::run_watch;
pub use status::WatchStatus;
