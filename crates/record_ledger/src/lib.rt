//! Gathering: from fragments to the lawful list of flow records.
//!
//! A flow may lie in several [`Fragment`](flow_parts::Fragment)s. [`gather`] joins those of one key as long as
//! neighbours are joinable, gives each record the reason why its flow ended, and puts the records into the written
//! order: by the time of the last packet, then by key. The list *regroups* the fragments, and it is *lawful* for every
//! list of packets that the fragments share out. Where neither the active time-out nor a packet that ends its flow cuts
//! a session, there is one lawful list: that of the sessions' records (`specs/Sessions.antt`). Where one of these cuts,
//! which list is gathered depends on the fragments and the clock alone, key by key (`specs/Gathered.antt`).
//!
//! Fragments whose keys no other fragment has are records as they lie, but for the reason. The others are dealt to buckets
//! by their keys, so that all fragments of one key lie in one bucket. Threads settle the buckets: each is sorted by key,
//! its front is the stack of what is joined, and its records get their reasons. A [`RecordList`] leaves all where it lies
//! and holds the order of the records beside it, as small places, which threads sort.
//!
//! [`laws`] holds laws about lawful lists, as contracts.
#![tactic(auto)]

mod arranging;
mod dealing;
mod gathering;
mod joining;
pub mod laws;
mod leading;
mod moving;
mod orders;
mod place;
mod placing;
mod reasons;
mod record;
mod record_list;
mod run;
mod settling;
mod sharing;
mod slots;
mod sorting;
mod spreading;
mod store;

pub use gathering::gather;
pub use no_memory::NoMemory;
pub use record::{ACTIVE_TIMEOUT, END_OF_FLOW, FORCED_END, FlowRecord, IDLE_TIMEOUT};
pub use record_list::RecordList;
pub use run::{RUN, Run};
