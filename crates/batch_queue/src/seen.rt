//! What a pass knows of the queue.

use crate::batch::Batch;
use std::collections::LinkedList;

/// What a pass knows: contracts alone see it, and no value of it is made.
pub struct Seen {
    /// Whether it may put batches: the reader's pass alone.
    pub reader: bool,
    /// How many seats the pass stands for.
    pub seats: u64,
    /// How many other seats the queue was opened with; the reader's pass knows it.
    pub others: u64,
    /// The batches that it put, in order.
    pub put: LinkedList<Batch>,
    /// The batches that it took.
    pub took: LinkedList<Batch>,
}
