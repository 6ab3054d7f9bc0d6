//! The queue and its passes.

ghost use Rattle.std.specs.Prelude.{◌≡◌, ◌<◌};

use crate::batch::Batch;
use crate::ending::Ending;
use crate::heard::Heard;
use crate::rule::Turn;
use crate::seen::Seen;
use atomic_table::{Seat, Table};
use crossbeam_queue::{Pass, RuledArrayQueue};
use std::alloc::Global;

mod all;
mod calls;

/// A queue of batches.
#[derive(Drop)]
pub struct BatchQueue {
    line: RuledArrayQueue<Batch, Seen, Turn, Global>,
    /// One word: 1 once it was said that no more batches come, else 0.
    ended: Table<(), Heard, (), Ending, Global>,
    ghost one_word: { ended.shared.table_id.words ≡ 1 },
}

/// What one seat put and took, or several together.
#[derive(Drop)]
pub struct QueuePass {
    pass: Pass<Batch, Seen>,
    /// Its seat at the word that no more batches come.
    seat: Seat<(), Heard>,
    ghost seated: { 0 < pass.me.0.client.seats },
}

/// The reader's pass, which puts batches until it says that no more come.
#[derive(Drop)]
pub struct Feed {
    pass: QueuePass,
}
