//! What passes know, and how many pieces and seats there are.

use std::collections::LinkedList;

/// What a pass knows: contracts alone see it, and no value of it is made.
pub struct Hand {
    /// How many seats there are in all.
    pub all: u64,
    /// How many pieces there are.
    pub pieces: u64,
    /// How many seats the pass stands for.
    pub seats: u64,
    /// How many of them came to the end.
    pub done: u64,
    /// The numbers of the pieces that it drew, in order.
    pub drawn: LinkedList<u64>,
}

/// How many pieces and how many seats there are.
#[derive(Clone, Copy)]
pub struct Plan {
    pub pieces: u64,
    pub all: u64,
}
