//! Laws on elements and templates, as contracts. The calls do nothing.

ghost use Rattle.std.specs.Prelude.{◌≡◌, sum_by};
ghost use Rattle.ipfix_model.specs.declared.fields.FieldSpec.{FieldSpec};
ghost use Rattle.ipfix_model.specs.Elements.{octet_delta_count, packet_delta_count, protocol_identifier};
ghost use Rattle.ipfix_model.specs.Elements.{tcp_control_bits, source_transport_port, source_ipv4_address};
ghost use Rattle.ipfix_model.specs.Elements.{destination_transport_port, destination_ipv4_address, source_ipv6_address};
ghost use Rattle.ipfix_model.specs.Elements.{destination_ipv6_address, flow_end_reason, flow_start_milliseconds};
ghost use Rattle.ipfix_model.specs.Elements.{flow_end_milliseconds, reverse_enterprise};
ghost use Rattle.ipfix_model.specs.Fields.{record_length};
ghost use Rattle.ipfix_model.specs.Sizes.{counts_length, v4_record_length, v6_record_length, v4_bi_record_length};
ghost use Rattle.ipfix_model.specs.Sizes.{v6_bi_record_length, template_set_length, template_message_length};
ghost use Rattle.ipfix_model.specs.Sizes.{bi_template_set_length, bi_template_message_length};
ghost use Rattle.ipfix_model.specs.Templates.{v4_template, v4_fields, v6_template, v6_fields, v4_bi_template};
ghost use Rattle.ipfix_model.specs.Templates.{v4_bi_fields, v6_bi_template, v6_bi_fields};

use crate::elements::*;
use crate::sizes::{
    BI_TEMPLATE_MESSAGE_LENGTH, BI_TEMPLATE_SET_LENGTH, COUNTS_LENGTH, TEMPLATE_MESSAGE_LENGTH,
    TEMPLATE_SET_LENGTH, V4_RECORD_LENGTH, V6_RECORD_LENGTH,
};
use crate::templates::{
    V4_BI_FIELDS, V4_BI_TEMPLATE, V4_FIELDS, V4_TEMPLATE, V6_BI_FIELDS, V6_BI_TEMPLATE, V6_FIELDS,
    V6_TEMPLATE,
};

/// The numbers of elements in the code are those of IANA's registry.
pub fn elements_are_registered()
    ensures octets { OCTET_DELTA_COUNT ≡ octet_delta_count }
    ensures packets { PACKET_DELTA_COUNT ≡ packet_delta_count }
    ensures protocol { PROTOCOL_IDENTIFIER ≡ protocol_identifier }
    ensures flags { TCP_CONTROL_BITS ≡ tcp_control_bits }
    ensures source_port { SOURCE_TRANSPORT_PORT ≡ source_transport_port }
    ensures destination_port { DESTINATION_TRANSPORT_PORT ≡ destination_transport_port }
    ensures v4_source { SOURCE_IPV4_ADDRESS ≡ source_ipv4_address }
    ensures v4_destination { DESTINATION_IPV4_ADDRESS ≡ destination_ipv4_address }
    ensures v6_source { SOURCE_IPV6_ADDRESS ≡ source_ipv6_address }
    ensures v6_destination { DESTINATION_IPV6_ADDRESS ≡ destination_ipv6_address }
    ensures reason { FLOW_END_REASON ≡ flow_end_reason }
    ensures first { FLOW_START_MILLISECONDS ≡ flow_start_milliseconds }
    ensures last { FLOW_END_MILLISECONDS ≡ flow_end_milliseconds }
    ensures reverse { REVERSE_ENTERPRISE ≡ reverse_enterprise }
{}

/// The templates in the code are those of the definition, and records of flows are as long as their fields together.
pub fn templates_are_defined()
    ensures v4_number { V4_TEMPLATE ≡ v4_template }
    ensures v4_fields { V4_FIELDS ≡ v4_fields }
    ensures v4_length { record_length v4_fields ≡ v4_record_length }
    ensures v6_number { V6_TEMPLATE ≡ v6_template }
    ensures v6_fields { V6_FIELDS ≡ v6_fields }
    ensures v6_length { record_length v6_fields ≡ v6_record_length }
{}

/// The templates for biflows in the code are those of the definition, and records of biflows are as long as their
/// fields together.
pub fn biflow_templates_are_defined()
    ensures v4_number { V4_BI_TEMPLATE ≡ v4_bi_template }
    ensures v4_fields { V4_BI_FIELDS ≡ v4_bi_fields }
    ensures v4_length { record_length v4_bi_fields ≡ v4_bi_record_length }
    ensures v6_number { V6_BI_TEMPLATE ≡ v6_bi_template }
    ensures v6_fields { V6_BI_FIELDS ≡ v6_bi_fields }
    ensures v6_length { record_length v6_bi_fields ≡ v6_bi_record_length }
{}

/// The lengths in the code are those of the definition.
pub fn lengths_are_defined()
    ensures counts { COUNTS_LENGTH ≡ counts_length }
    ensures v4_record { V4_RECORD_LENGTH ≡ v4_record_length }
    ensures v6_record { V6_RECORD_LENGTH ≡ v6_record_length }
    ensures template_set { TEMPLATE_SET_LENGTH ≡ template_set_length }
    ensures template_message { TEMPLATE_MESSAGE_LENGTH ≡ template_message_length }
    ensures bi_template_set { BI_TEMPLATE_SET_LENGTH ≡ bi_template_set_length }
    ensures bi_template_message { BI_TEMPLATE_MESSAGE_LENGTH ≡ bi_template_message_length }
{}
