//! Joining: the streams of many captures as one.
//!
//! [`run_join`] is the top call: it reads files of flow records, one after the other, as they come from an [`Opener`],
//! each message by message through one window (`stream_input`). It takes the fragments of all their records, gathers
//! them anew by the time-outs given, and writes the stream of the records that they become. A record of a lawful
//! stream is a heap of its packets, so the fragments of all records share out the packets of all captures, and what is
//! gathered from them is lawful for all these packets.
//!
//! Where one share of several is asked for, only the records whose keys fall to it are kept; the clock is still the
//! latest time of all records.
//!
//! [`laws`] holds laws about what inputs become, as contracts: a join of joins is a join, and all shares together are
//! the whole.
#![tactic(auto)]

mod file_error;
mod file_taker;
mod joining;
pub mod laws;
mod opener;
mod reading;
mod refusal;
mod running;
mod settings;
mod status;
mod taken;
mod taking;
mod words;

pub use opener::Opener;
pub use running::run_join;
pub use settings::{JoinSettings, Share};
pub use status::{FileFault, JoinStatus};
