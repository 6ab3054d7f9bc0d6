//! The key of a flow: the six values that all packets of one flow have in common.
//!
//! A [`FlowKey`] holds the IP version, both addresses, the protocol number and both ports. Keys are equal
//! where all fields are, and they are ordered by version, then by addresses, protocol and ports. A key is
//! carried as five 64-bit words ([`FlowKey::to_words`], [`FlowKey::of_words`]), and [`FlowKey::set_of`]
//! says which set of a table of sets a key belongs to.
//!
//! Every value of `FlowKey` is a key that a packet can have: its version is 4 or 6, and the addresses of
//! version 4 fit 32 bits. Nothing here takes memory. [`laws`] holds laws about keys, as contracts.
#![tactic(auto)]

mod key;
pub mod laws;

pub use key::FlowKey;
