//! Packets that are metered: which records of a capture give one, and what is known of it.
//!
//! [`accept`] reads the headers of one captured record, by views of borrowed parts of the capture, and gives a
//! [`Packet`]: its number, its key, its time, its octets and its flags. Otherwise it says why the record is
//! [`Ignored`]: the first cause in the order time, link part, IP header, transport header. It takes no memory.
//!
//! `specs/Acceptance.antt` says in one page which answer a record gets, in terms of the headers' fields, and
//! `specs/Packets.antt` which packets a capture file has: those of its records, in file order, each numbered by its
//! record's place. [`packets_law`] and [`clock_law`] say how packets, and clocks, of two lists are put together.
#![tactic(auto)]

mod acceptance;
mod headers;
mod ignored;
mod laws;
mod packet;
mod tcp;
mod transport;

pub use acceptance::{accept, accept_behind};
pub use ignored::Ignored;
pub use laws::{clock_law, packets_law};
pub use packet::Packet;
pub use tcp::{FIN, RST, TCP};
