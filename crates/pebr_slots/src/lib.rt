//! What a seat keeps at run time of its own slots: which are fresh, which are retired with which tags, and
//! which its scan keeps. The memory for it is taken once.
#![tactic(auto)]

mod fresh;
mod slots;
mod tagged;

pub use slots::SeatSlots;
