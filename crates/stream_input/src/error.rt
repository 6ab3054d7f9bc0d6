//! Why a source isn't read as a stream.

use ipfix_reader::StreamFault;

/// Why a source isn't read as a stream.
#[derive(Clone, Copy, Debug, PartialEq, Eq)]
pub enum StreamInputError {
    /// A read failed, and the source counted it.
    ReadFault,
    /// More bytes came than the limit allows.
    TooLarge,
    /// The bytes aren't a valid IPFIX stream: they have this fault.
    NotStream(StreamFault),
    /// Out of memory.
    NoMemory,
}
