//! Lengths in octets that the fields of the templates add up to, as [`laws`](crate::laws) says.

/// The part of a flow's record behind its key: flags, counts, times and end reason.
pub const COUNTS_LENGTH: usize = 35;

/// A data record of a flow over IPv4.
pub const V4_RECORD_LENGTH: usize = 48;

/// A data record of a flow over IPv6.
pub const V6_RECORD_LENGTH: usize = 72;

/// The set of the templates of flows, with its header.
pub const TEMPLATE_SET_LENGTH: u16 = 100;

/// The message that has these templates: the smallest message size that can be asked for.
pub const TEMPLATE_MESSAGE_LENGTH: u16 = 116;

/// The set that has the templates of biflows as well, with its header.
pub const BI_TEMPLATE_SET_LENGTH: u16 = 292;

/// The message that has that set: the smallest message size that can be asked for where biflows are written.
pub const BI_TEMPLATE_MESSAGE_LENGTH: u16 = 308;
