//! Workers that meter a capture through one shared cache, each record once.
//!
//! One engine serves two ways to read. [`meter_windows`] reads a window of the capture and meters it by all workers at
//! once; where there are several, it reads the next one meanwhile. The records of a window are cut into pieces, which
//! the workers draw ([`work_pieces`]). All threads of a window are started by the calling one ([`side_by_side`]).
//! [`meter_batches`] reads while workers meter: the reader hands whole windows on as batches of a queue
//! ([`batch_queue`]), and meters one itself where the queue is full. [`meter_all`] meters a capture in memory.
//!
//! What a seat of the cache does is a share (`share.rt`): its pass of the cache, its front, where it has one, the
//! fragments that the cache handed it, and the tally of its records. A share meters a run of records of a [`Part`]; a
//! packet goes into the front, and what leaves it goes into the cache, or by it where it has one packet alone. At the end each front is emptied into the cache
//! through its own pass, by a thread of its own (`emptying.rt`), and what all did is put together (`together.rt`).
//! `specs/Shares.antt` says what a share has done: what was put in shares out the packets of the records that it
//! metered. So how many packets were put in is known from the tally alone, and nothing is said of the order of the
//! records.
//!
//! On a packet's path, workers share nothing but the cache and what hands out the work: the word that pieces are drawn
//! from, or the queue of batches. Everything is generic over the cache ([`FlowCache`](cache_face::FlowCache)). What
//! workers run on is an [`Engine`]; its [`Gate`] is told before each piece and batch: tests hold workers there.
#![tactic(auto)]

mod ahead;
mod batches;
mod emptying;
mod engine;
mod gate;
mod share;
mod together;
mod windows;

pub use batches::{Batches, meter_batches};
pub use capture_input::{MeterFault, Part};
pub use engine::Engine;
pub use gate::{Gate, OpenGate};
pub use no_memory::NoMemory;
pub use together::CaptureMetered;
pub use windows::{Windows, meter_all, meter_windows};
