//! Field specifiers (RFC 7011, section 3.2).

use crate::list::ListOf;

/// The field length that announces a value of variable length (RFC 7011, section 7).
pub const VARIABLE_LENGTH: u16 = 65_535;

/// One field of a template: an information element, the length of its values in octets, and the enterprise whose
/// element it is, where it isn't IANA's.
#[derive(Clone, Copy, Debug, PartialEq, Eq)]
pub struct FieldSpec {
    pub element: u16,
    pub length: u16,
    pub enterprise: Option<u32>,
}

/// The fields of a template in their order.
pub type FieldList = ListOf<FieldSpec>;
