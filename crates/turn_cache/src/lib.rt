//! A shared cache with one turn for each set.
//!
//! One table holds, for each set, a turn word and forty content words, ten for each of its four entries, each on cache
//! lines of their own. A seat takes a set's turn by one compare and exchange; a turn that it finds taken is a lost try,
//! and after three the packet is passed by. With the turn it loads the forty words, chooses among the four entries,
//! stores the words of one entry that change, its number of packets first, and gives the turn back by a store. No pass
//! holds a turn between calls, and no call that meters waits or takes memory.
//!
//! The rule of the table (`specs/Ruled.antt`) holds between any two steps, whatever the threads do in turn: each turn
//! word names the one seat that has the turn; the words that this seat read are there; from its first store on the set
//! has its new entry; and the cache keeps what any cache keeps. `specs/Moves.antt` says what each kind of step does to
//! its seat, and a file of `proofs/` for each kind shows that it keeps the rule.
#![tactic(auto)]

mod cache;
mod calls;
mod close;
mod face;
mod metering;
mod open;
mod rule;
mod steps;

pub use cache::{TurnCache, TurnPass};
pub use cache_face::NoMemory;
pub use face::TurnCaches;
