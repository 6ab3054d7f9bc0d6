//! A shared cache of open flows, by what its passes mean.
//!
//! A cache has sets of four entries, each a fragment or empty. Threads put fragments into one cache, each through a
//! pass of its own: a [`FlowCache`]'s `meter_part` puts a fragment, of one packet or of several, into an entry of the
//! set of its key, and may hand a fragment out; `meter` does this with the fragment of one packet. `bypass` lets a
//! fragment of one packet go by, past all entries. To contracts a
//! pass is what it has done (`specs/Notes.antt`): the fragments that were put in through it, those that it was handed,
//! and the entries that it saw. [`Caches`] opens and closes caches, and gives away the fragments of each; contracts
//! know those of the last by a [`LastClosed`].
//!
//! What becomes of a fragment is one choice over the four entries of its set (`specs/Choice.antt`), which [`choose`]
//! makes for any cache. What a cache keeps is said once (`specs/Keeping.antt`): its entries and all fragments that were
//! handed out are reached from all that were put in, by permuting and by joining joinable ones, and each entry is of
//! the set of its key. So if what was put in shares out some packets, what is kept and handed out shares out the same.
//! Nothing here knows how threads take turns: what a lost try is, each cache says itself. [`laws`] holds the laws by
//! which a cache keeps this, as contracts.
#![tactic(auto)]

mod caches;
mod choice;
mod last_closed;
pub mod laws;
mod metered;
mod opened;

pub use caches::{Caches, FlowCache};
pub use choice::{Choice, choose};
pub use last_closed::LastClosed;
pub use metered::{How, Metered};
pub use no_memory::NoMemory;
pub use opened::Opened;
