//! A stream that is read from a source through a window, message by message.
//!
//! [`read_stream`] reads a source to its end, at most a given number of bytes, and hands each data record to a
//! [`RecordTaker`](ipfix_reader::RecordTaker) as soon as its message is whole. Only the window is held, and never the
//! stream: what is left of a window behind its last whole message moves to its front, and the source is read on behind
//! it. [`open_window`] takes the memory of such a window, and one window serves for many streams, one after the other.
//!
//! Whether the source could be read, and to its end within the limit, is told before any fault of the stream: behind a
//! fault the rest is read and dropped. So each [`StreamInputError`] is the first that applies to the whole source.
//!
//! `specs/Failing.antt` says what each error means; `Pieces` is the code's own.
#![tactic(auto)]

mod error;
mod reading;

pub use error::StreamInputError;
pub use no_memory::NoMemory;
pub use reading::{open_window, read_stream};
