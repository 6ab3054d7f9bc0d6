//! The fixed numbers of messages, sets and field specifiers (RFC 7011, sections 3.1 to 3.4).

/// The version of IPFIX that a message header has.
pub const VERSION: u16 = 10;

/// The length of a message header, in octets: that of a message without records.
pub const MESSAGE_HEADER: usize = 16;

/// The length of a set header, in octets.
pub const SET_HEADER: usize = 4;

/// The number of a set of template records.
pub const TEMPLATE_SET: u16 = 2;

/// The number of a set of options template records.
pub const OPTIONS_TEMPLATE_SET: u16 = 3;

/// The least number of a template, and of a set of data records.
pub const FIRST_TEMPLATE: u16 = 256;

/// The upper bit of an element in a field specifier: an enterprise number follows.
pub const ENTERPRISE_BIT: u16 = 0x8000;
