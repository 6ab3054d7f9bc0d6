//! Why a header can't be read.

/// What is wrong with a header: the first fault in the order of its table.
#[derive(Clone, Copy, Debug, PartialEq, Eq)]
pub enum HeaderFault {
    /// The header, or a part of it that is needed, goes beyond the packet's end or beyond what was captured of it.
    Short,
    /// The frame holds no IP packet.
    NotIp,
    /// The header's version or a length in it can't be right, or its packet is longer than 16,777,215 octets.
    BadHeader,
}
