//! Frames, headers and keys, octets written in hexadecimal, the words of command lines, and how a thread waits for
//! another one, that the tests of several crates share. No program uses it.
#![tactic(auto)]

pub mod frames;
mod hexadecimal;
mod keys;
mod lines;
mod waiting;

pub use hexadecimal::octets_of;
pub use keys::{tcp_over_ipv6, udp_key};
pub use lines::words_in;
pub use waiting::wait_for;
