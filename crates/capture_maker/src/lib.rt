//! Captures made from a seed, for tests, measurements and trials without a capture at hand.
//!
//! [`capture`] gives a classic capture of raw IP. Each packet is UDP over IPv4, one millisecond after the one before;
//! two draws of a linear congruential generator (`specs/Draws.antt`) give the length of its payload and its key.
//! `specs/Made.antt` says what the octets are, so the same seed gives the same capture everywhere.
#![tactic(auto)]

mod draws;
mod making;

pub use making::capture;
pub use no_memory::NoMemory;
