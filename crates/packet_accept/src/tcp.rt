//! The numbers of TCP that show the end of a flow.

/// The protocol number of TCP in the IANA registry.
pub const TCP: u8 = 6;

/// The control bit FIN: no more data from the sender (RFC 9293, section 3.1).
pub const FIN: u16 = 0x001;

/// The control bit RST: reset the connection (RFC 9293, section 3.1).
pub const RST: u16 = 0x004;
