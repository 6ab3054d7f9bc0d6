//! A front: a small private table of open fragments, in front of a shared cache.
//!
//! Most packets meet a fragment that the same worker saw a moment ago. So each worker has a [`Front`], which nobody
//! shares, and only what leaves it goes into the cache. A front has 2,048 places of two entries each, and an entry is
//! a fragment or empty. A packet's place is the number of its key's set among 2,048 sets. [`Front::take_in`] puts a
//! packet in by the choice that the cache makes over four entries, here over the two of its place, and gives the
//! fragment that leaves, if any. [`Front::take_out`] empties the front, place by place, the first entry before the
//! second.
//!
//! The fragments that are open afterwards, with the one that left, are reached from those that were open before, with
//! the new packet's own, by permuting and by joining joinable ones. So they share out the same packets.
//!
//! An entry is ten words. A packet's place is found from the words of its key, which are compared with those of the
//! entries, and a packet that is taken in changes five words in place. Memory is taken only at opening.
#![tactic(auto)]

mod contents;
mod table;

pub use no_memory::NoMemory;
pub use table::Front;
