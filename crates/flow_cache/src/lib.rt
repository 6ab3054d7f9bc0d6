//! A shared cache of open flows, in which no thread waits for another.
//!
//! # What it is
//!
//! A set has four roots, one for each entry, and a root holds a slot of ten words: a fragment's, or words that show
//! none. A pass that meters a packet replaces the slot in one root by a slot of its own; nobody ever writes a slot that
//! a root holds or that anybody reads. So an entry is always whole, and there is no turn to take.
//!
//! # One try
//!
//! - **Pin.** The pass enters: its seat notes the epoch and is in.
//! - **Shield.** It loads the four roots of the packet's set and sets a shield on each slot. Then it checks that it is
//!   still in. From here on the four slots stay as they are, although another seat may **eject** it.
//! - It reads the forty words, and chooses among the four entries ([`cache_face`] says how).
//! - **Fresh.** It writes the entry as it is to be into a fresh slot of its own.
//! - **Retire.** It puts this slot into the chosen root, if that still has the slot under the shield, and retires the
//!   old one. At this one step the packet is metered, and the entry that was put out is handed out.
//! - It takes its shields down and leaves.
//!
//! A try is lost where the check finds the pass ejected, or the root has another slot: another pass was faster. After
//! the third lost try the packet is passed by: as the pass leaves, the packet's own fragment is handed out, and no
//! entry changes.
//!
//! # Where fresh slots come from
//!
//! A pass of a cache with `seats` seats has `32 + 4 * seats` slots of its own. Before the first try, from 32 retired
//! slots on, it collects those that nobody reads any more, and ejects nobody. Where that leaves no fresh slot it
//! collects with force: it ejects each seat in the way, and at most `4 * (seats - 1)` slots stay retired. So a call of
//! `meter` takes no memory, waits for nobody and has a bound on its steps, wherever the others are stopped.
//!
//! # What is proved
//!
//! [`CacheRule`] is the protocol of the roots: between any two steps of the threads the entries and all fragments that
//! were handed out are reached, by permuting and joining joinable ones, from all that were put in. [`PebrCache`] is a
//! [`FlowCache`](cache_face::FlowCache): what `meter` answers is the choice over the four entries that the pass's
//! history has (`specs/Reading.antt`), and each lost try is a step in this history. [`PebrCache::meter_stopping`] calls
//! a [`Stop`] at each [`Point`] of a try, and has the same contract. `specs/Trying.antt` says how far a try is.
#![tactic(auto)]

mod act;
mod cache;
mod close;
mod face;
mod metering;
mod open;
mod protocol;
mod putting;
mod reading;
mod seats;
mod stop;
mod tells;

pub use act::CacheAct;
pub use cache::{PebrCache, PebrPass};
pub use cache_face::NoMemory;
pub use face::PebrCaches;
pub use protocol::CacheRule;
pub use stop::{Point, Stop};
