//! The model of IPFIX that the writer and the reader share (RFC 7011): field specifiers, templates, and data records as
//! they are read.
//!
//! [`V4_FIELDS`] and [`V6_FIELDS`] are the field lists of the two templates of flows, numbered [`V4_TEMPLATE`] and
//! [`V6_TEMPLATE`]; [`V4_BI_FIELDS`] and [`V6_BI_FIELDS`] are those of the two of biflows (RFC 5103), numbered
//! [`V4_BI_TEMPLATE`] and [`V6_BI_TEMPLATE`]. `framing.rt` has the fixed numbers of messages and sets, `sizes.rt` the
//! lengths that the fields add up to. [`FieldList`], [`Octets`] and [`ValueList`] are lists over a `Vec`, which
//! contracts see as lists; making one and reading it takes no memory. [`elements`] has the numbers of information
//! elements and their abstract data types. The functions of [`laws`] do nothing: their contracts are the laws that the
//! constants here are the numbers of the registry and the fields of the definitions.
//!
//! `specs/Templates.antt` is the one table of fields, from which template records, the bytes of data records and the
//! reading of flow records come; `specs/Values.antt` says which value of a flow record an element has.
#![tactic(auto)]

pub mod elements;
mod fields;
mod framing;
pub mod laws;
mod list;
mod lookup;
mod sizes;
mod templates;
mod values;

pub use fields::{FieldList, FieldSpec, VARIABLE_LENGTH};
pub use framing::{
    ENTERPRISE_BIT, FIRST_TEMPLATE, MESSAGE_HEADER, OPTIONS_TEMPLATE_SET, SET_HEADER, TEMPLATE_SET,
    VERSION,
};
pub use list::ListOf;
pub use lookup::{are_values_of, number_of};
pub use sizes::{
    BI_TEMPLATE_MESSAGE_LENGTH, BI_TEMPLATE_SET_LENGTH, COUNTS_LENGTH, TEMPLATE_MESSAGE_LENGTH,
    TEMPLATE_SET_LENGTH, V4_RECORD_LENGTH, V6_RECORD_LENGTH,
};
pub use templates::{
    Template, V4_BI_FIELDS, V4_BI_TEMPLATE, V4_FIELDS, V4_TEMPLATE, V6_BI_FIELDS, V6_BI_TEMPLATE,
    V6_FIELDS, V6_TEMPLATE,
};
pub use values::{DataRecord, FieldValue, Octets, ValueList};
