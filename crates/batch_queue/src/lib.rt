//! A bounded queue of batches, by which one thread hands whole records of a capture to others.
//!
//! A [`Batch`] is some whole records, one directly behind the other, with their index, the number of the batch and the
//! number of the first of its records. [`BatchQueue::open`] makes a [`Feed`] for the reader and a [`QueuePass`] for
//! each other seat. The reader offers batches in rising order ([`BatchQueue::offer`]), until it says that no more come
//! ([`BatchQueue::end`]); any pass takes the batch at the front ([`BatchQueue::take`]), and asks whether it was said
//! ([`BatchQueue::is_ended`]). Passes are united by [`BatchQueue::unite`]: what a pass of all seats took, and what is
//! left in the queue, are the batches that were put, each once.
//!
//! The queue is the kit's ruled array queue. Its rule, `Queued` in `specs/Queueing.antt`, holds between any two steps,
//! whatever the threads do in turn. So does that of the word that no more batches come, `Ends` in `specs/Saying.antt`.
#![tactic(auto)]

mod batch;
mod ending;
mod heard;
mod part;
mod queue;
mod rule;
mod seen;

pub use batch::Batch;
pub use no_memory::NoMemory;
pub use queue::{BatchQueue, Feed, QueuePass};
