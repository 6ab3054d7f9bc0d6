//! Records of flows as a stream of IPFIX messages (RFC 7011).
//!
//! The stream begins with a message that has the two templates. Data messages follow, each with the longest prefix of
//! the records still left that fits the message size; neighbours of one template share a set. [`layout`] gives the
//! whole stream of a list of records. An [`Emitter`] keeps the records of one message and writes the same bytes to a
//! sink as the records come, in whole messages through a buffer; [`emit_all`] is a whole run of it, and all its memory
//! is taken when it is made. Anything that is written as data records implements [`Encode`]; what is said of the layout
//! holds for all of it, and [`write_messages`] writes a whole list of such records. The functions of [`laws`] do
//! nothing: their contracts are the laws of the layout.
#![tactic(auto)]

mod body;
mod copies;
mod emitter;
mod encode;
pub mod laws;
mod message;
mod messages;
mod rounds;
mod stream;

pub use body::append_message_header;
pub use copies::CopyRoom;
pub use emitter::{Emitter, Phase};
pub use encode::{Encode, append_counts};
pub use message::append_template;
pub use messages::{MessageForm, append_messages, write_messages};
pub use stream::{emit_all, layout};
