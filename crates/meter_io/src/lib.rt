//! The outside of the meter: where bytes come from and where they go.
//!
//! A [`Source`] gives bytes, a [`Sink`] takes them, and both count their faults: where a call failed, that count has
//! risen. Contracts in the crates above speak of the bytes that a source has left and that a sink holds, where it tells
//! them. [`read_all`] reads a source to its end, and [`write_all`] writes a piece whole. [`MemSource`] and [`MemSink`]
//! are in memory and can fail at chosen calls; [`StdSource`] and [`StdSink`] are the edge to the standard library's
//! streams, and keep the system's last error. [`FirstBytes`] gives what another source gives, and keeps the first bytes
//! of it.
//!
//! [`NoMemory`] is the one error for out of memory, here and in the crates above.
#![tactic(auto)]

mod edge;
mod fault;
mod first_bytes;
mod reading;
mod sink;
mod source;
mod writing;

pub use edge::{StdSink, StdSource};
pub use fault::Failed;
pub use first_bytes::FirstBytes;
pub use no_memory::NoMemory;
pub use reading::{ReadError, read_all};
pub use sink::{MemSink, Sink};
pub use source::{MemSource, Source};
pub use writing::write_all;
