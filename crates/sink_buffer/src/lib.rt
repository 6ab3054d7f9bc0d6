//! A buffer in front of a sink: what is written in small pieces goes out in few large ones.
//!
//! A [`SinkBuffer`] takes all its memory when it is made, so that only the sink can make a write through it fail. What
//! the sink took, and then what the buffer holds, is what was put into it, in order. At the end the caller writes out
//! what is held.
#![tactic(auto)]

mod buffer;

pub use buffer::SinkBuffer;
