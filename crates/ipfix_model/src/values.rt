//! Data records as they are read (RFC 7011, section 3.4.3).

use crate::list::ListOf;

/// The bytes of one value, in network order.
pub type Octets = ListOf<u8>;

/// The value of one field of a data record, with the element that its template names.
#[derive(Drop)]
pub struct FieldValue {
    pub element: u16,
    pub enterprise: Option<u32>,
    pub value: Octets,
}

/// The values of a data record, in the order of its template.
pub type ValueList = ListOf<FieldValue>;

/// One data record: its observation domain, the number of the template by which it was read, and its values.
#[derive(Drop)]
pub struct DataRecord {
    pub domain: u32,
    pub template: u16,
    pub fields: ValueList,
}
