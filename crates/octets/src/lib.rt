//! Numbers in octets: read at a place, or appended to a buffer, in network order or in a byte order that is chosen.
//!
//! `specs/Numbers.antt` says what number stands at a place and which octets a number has. `specs/Outcome.antt` puts one
//! rule of a format behind another, so that the first fault is the answer. Crates above state the fields of their
//! formats by these definitions alone.
#![tactic(auto)]

mod buffer;
mod endianness;
mod laws;
mod network;

pub use buffer::{append, append_u8, append_u16, append_u32, append_u64, append_u128};
pub use endianness::Endianness;
pub use laws::numbers_law;
pub use network::{u16_at, u32_at, u128_at, uint_at};
