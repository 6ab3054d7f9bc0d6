//! Fragments and records of flows that the tests of several crates share. No program uses it.
#![tactic(auto)]

mod parts;
mod records;

pub use parts::{are_few, in_pieces};
pub use records::{tcp_flow, udp_flow};
