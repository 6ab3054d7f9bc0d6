//! Biflows (RFC 5103): the two directions of a conversation as one record.
//!
//! [`pair`] puts each flow record together with its mate: a record with the reverse key that is near to it in time.
//! [`bi_layout`] gives the stream of messages for these biflows, [`pair_stream`] makes it from a stream of flow
//! records, and [`run_pair`] is the top call: it reads a stream of flow records and writes the stream of their biflows.
#![tactic(auto)]

mod biflow;
mod encoding;
mod heads;
pub mod laws;
mod pairing;
mod running;
mod settings;
mod status;
mod stream;
mod words;

pub use biflow::Biflow;
pub use encoding::bi_layout;
pub use pairing::pair;
pub use running::run_pair;
pub use status::PairStatus;
pub use stream::{PairError, Paired, pair_stream, pairs_of};
