//! Reading of IPFIX messages (RFC 7011, sections 3.1 to 3.4 and 7), and the flow records among their data records.
//!
//! [`read_stream`] decodes a stream of messages to its data records, or tells its first fault and where it stands. Its
//! definition goes by the standard's nesting: a stream is a list of messages, a message a list of sets, a set a list
//! of records and padding, and a record a list of values, each as long as its header or its template says. Templates
//! and expected sequence numbers are kept by observation domain.
//!
//! [`StreamWalk`] reads a stream that comes in pieces, message by message, and holds no bytes of it.
//!
//! [`read_into`] keeps no data record: each is taken as it is read, by a [`RecordTaker`]. [`flow_of`] is the flow
//! record that a data record is, where it is one, and [`read_flows`] gives those of a stream, by such a taker.
//!
//! Where a template has just the fields of one of the two templates of flows, whatever its number, the octets of its
//! records are taken as they stand ([`FlowOctets`]), and [`flow_in`] reads the flow record at fixed places. No value
//! is made then, unless the taker asks for values.
//!
//! A [`Cursor`](cursor::Cursor) is a part of the stream with its offset; each layer reads from one, and nothing is
//! copied but the values.
#![tactic(auto)]

mod cursor;
mod fault;
mod fault_text;
mod flow;
mod flow_octets;
mod flow_template;
mod flows;
mod known;
pub mod laws;
mod messages;
mod records;
mod sets;
mod specifiers;
mod taking;
mod values;
mod walk;

pub use fault::{StreamError, StreamFault};
pub use fault_text::FaultText;
pub use flow::{flow_in, flow_of};
pub use flow_octets::FlowOctets;
pub use flow_template::FlowTemplate;
pub use flows::{FlowsError, read_flows};
pub use messages::{STREAM_LIMIT, read_into, read_stream};
pub use taking::RecordTaker;
pub use walk::StreamWalk;
