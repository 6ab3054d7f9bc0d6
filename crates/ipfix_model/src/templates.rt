//! Templates (RFC 7011, section 3.4.1), and the four that are written: those of flows, and those of biflows (RFC 5103).

ghost use Rattle.std.specs.Prelude.{◌≡◌, ◌≤◌, length};

use crate::elements::*;
use crate::fields::{FieldList, FieldSpec, VARIABLE_LENGTH};

/// A template: its number and its fields. A template record counts its fields in 16 bits.
#[derive(Drop)]
pub struct Template {
    pub id: u16,
    pub fields: FieldList,
    pub ghost counted: { length fields ≤ 65535 },
}

impl Template {
    ghost use Rattle.ipfix_model.specs.Fields.{least_length};

    /// The least length of a record of this template, in octets: a field of variable length takes at least its length
    /// byte (RFC 7011, section 7).
    pub fn least(&self) -> u64
        ensures { result ≡ least_length self.now.fields }
    {
        let mut least: u64 = 0;
        for field in self.fields.items() {
            least += if field.length == VARIABLE_LENGTH {
                1
            } else {
                field.length as u64
            };
        }
        least
    }
}

/// A field for one of IANA's elements or, written with `reverse`, for the reverse of one (RFC 5103).
macro_rules! field {
    ($element:expr, $length:expr) => {
        FieldSpec {
            element: $element,
            length: $length,
            enterprise: None,
        }
    };
    (reverse $element:expr, $length:expr) => {
        FieldSpec {
            element: $element,
            length: $length,
            enterprise: Some(REVERSE_ENTERPRISE),
        }
    };
}

/// The fields of a template of flows: two addresses of this length, the fields that all templates have behind them, and
/// more.
macro_rules! flow_fields {
    ($source:expr, $destination:expr, $length:expr $(, $more:expr)*) => {
        [
            field!($source, $length),
            field!($destination, $length),
            field!(SOURCE_TRANSPORT_PORT, 2),
            field!(DESTINATION_TRANSPORT_PORT, 2),
            field!(PROTOCOL_IDENTIFIER, 1),
            field!(TCP_CONTROL_BITS, 2),
            field!(PACKET_DELTA_COUNT, 8),
            field!(OCTET_DELTA_COUNT, 8),
            field!(FLOW_START_MILLISECONDS, 8),
            field!(FLOW_END_MILLISECONDS, 8),
            field!(FLOW_END_REASON, 1),
            $($more,)*
        ]
    };
}

/// The fields of a template of biflows (RFC 5103): those of the forward flow, then those of the reverse one.
macro_rules! biflow_fields {
    ($source:expr, $destination:expr, $length:expr) => {
        flow_fields!(
            $source,
            $destination,
            $length,
            field!(reverse TCP_CONTROL_BITS, 2),
            field!(reverse PACKET_DELTA_COUNT, 8),
            field!(reverse OCTET_DELTA_COUNT, 8),
            field!(reverse FLOW_START_MILLISECONDS, 8),
            field!(reverse FLOW_END_MILLISECONDS, 8),
            field!(reverse FLOW_END_REASON, 1)
        )
    };
}

/// The number of the template for flows over IPv4.
pub const V4_TEMPLATE: u16 = 256;

/// The number of the template for flows over IPv6.
pub const V6_TEMPLATE: u16 = 257;

/// The fields of the template for flows over IPv4.
pub const V4_FIELDS: [FieldSpec; 11] = flow_fields!(
    SOURCE_IPV4_ADDRESS,
    DESTINATION_IPV4_ADDRESS,
    4
);

/// The fields of the template for flows over IPv6.
pub const V6_FIELDS: [FieldSpec; 11] = flow_fields!(
    SOURCE_IPV6_ADDRESS,
    DESTINATION_IPV6_ADDRESS,
    16
);

/// The number of the template for biflows over IPv4.
pub const V4_BI_TEMPLATE: u16 = 258;

/// The number of the template for biflows over IPv6.
pub const V6_BI_TEMPLATE: u16 = 259;

/// The fields of the template for biflows over IPv4.
pub const V4_BI_FIELDS: [FieldSpec; 17] = biflow_fields!(
    SOURCE_IPV4_ADDRESS,
    DESTINATION_IPV4_ADDRESS,
    4
);

/// The fields of the template for biflows over IPv6.
pub const V6_BI_FIELDS: [FieldSpec; 17] = biflow_fields!(
    SOURCE_IPV6_ADDRESS,
    DESTINATION_IPV6_ADDRESS,
    16
);
