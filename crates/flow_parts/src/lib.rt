//! Fragments: what is known of some packets of one flow, and the laws by which they share out packets.
//!
//! A [`Fragment`] holds a key, two counts, the flags seen and the times of the first and the last packet.
//! [`Timeouts`] hold the idle and the active time-out; by them a fragment takes in a packet
//! ([`Timeouts::fits`], [`Timeouts::absorb`]) or another fragment ([`Timeouts::joinable`], [`Timeouts::join`]). A
//! fragment of which a packet ends its flow is closed ([`Fragment::closed`]): nothing later goes into it.
//!
//! The packets that a fragment stands for are its *heap*, and fragments *share out* a list of packets where
//! each packet lies in the heap of exactly one of them. These two are kept by every call here. The functions
//! of [`laws`] do nothing: their contracts are the laws of sharing out for any lists.
//! Everything is `Copy`, takes no memory and is a few machine instructions.
#![tactic(auto)]

mod fragment;
pub mod laws;
mod part_list;
mod timeouts;

pub use fragment::Fragment;
pub use part_list::PartList;
pub use timeouts::Timeouts;
