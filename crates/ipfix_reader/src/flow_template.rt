//! The two templates of flows that `ipfix_model` has, known by their fields.

ghost use Rattle.std.specs.Prelude.{◌≡◌};

use ipfix_model::{FieldSpec, V4_FIELDS, V4_RECORD_LENGTH, V6_FIELDS, V6_RECORD_LENGTH};

/// A template of flows, by its fields: its number doesn't matter.
#[derive(Clone, Copy, Debug, PartialEq, Eq)]
pub enum FlowTemplate {
    /// The fields of a flow over IPv4.
    V4,
    /// The fields of a flow over IPv6.
    V6,
}

impl FlowTemplate {
    ghost use Rattle.ipfix_reader.specs.FlowTemplates.{IsFlowTemplate, flow_template_fields, flow_record_length};

    /// The template of flows that has these fields, where one has.
    pub fn of(fields: &[FieldSpec]) -> Option<FlowTemplate>
        ensures { IsFlowTemplate result fields.now }
    {
        if fields == V4_FIELDS.as_slice() {
            Some(FlowTemplate::V4)
        } else if fields == V6_FIELDS.as_slice() {
            Some(FlowTemplate::V6)
        } else {
            None
        }
    }

    /// The fields of the template.
    pub fn fields(self) -> [FieldSpec; 11]
        ensures { result ≡ flow_template_fields self }
    {
        match self {
            FlowTemplate::V4 => V4_FIELDS,
            FlowTemplate::V6 => V6_FIELDS,
        }
    }

    /// How many octets each data record of the template has.
    #[inline]
    pub fn record_length(self) -> usize
        ensures { result ≡ flow_record_length self }
    {
        match self {
            FlowTemplate::V4 => V4_RECORD_LENGTH,
            FlowTemplate::V6 => V6_RECORD_LENGTH,
        }
    }
}
