//! Whole messages.

ghost use Rattle.std.specs.Prelude.{◌≡◌, ◌+◌, ◌≤◌, ◌<◌, ◌^◌, ◌*◌, ◌++◌, IsTrue, nat_lt, length, flat_map};
ghost use Rattle.std.specs.List.{list_all};
ghost use Rattle.std.specs.Vec.{vec_capacity};
ghost use Rattle.ipfix_writer.specs.Encoding.{message, template_message, template_record, field_specifier};
ghost use Rattle.ipfix_writer.specs.Layout.{body_in, length_in};
ghost use Rattle.ipfix_model.specs.Sizes.{template_message_length};

use crate::body::{append_body, append_message_header};
use crate::encode::Encode;
use ipfix_model::{
    ENTERPRISE_BIT, FieldSpec, TEMPLATE_MESSAGE_LENGTH, TEMPLATE_SET, TEMPLATE_SET_LENGTH,
    V4_FIELDS, V4_TEMPLATE, V6_FIELDS, V6_TEMPLATE,
};
use octets::{append_u16, append_u32};

/// Replaces what the buffer holds by the message of these records, which has `size` octets.
#[tactic(auto, unfolding(crate::specs::Encoding::message, crate::specs::Layout::length_in))]
pub fn encode_message<R: Encode>(
    buffer: &mut Vec<u8>,
    records: &[R],
    size: usize,
    export_time: u32,
    sequence: u32,
)
    requires size { size ≡ length_in R.encode records.now }
    requires small { size < 2 ^ 16 }
    requires room { size ≤ vec_capacity buffer.old }
    ensures items { buffer.new.items ≡ message export_time sequence (body_in R.encode records.now) }
    ensures room { vec_capacity buffer.old ≤ vec_capacity buffer.new }
{
    buffer.clear();
    append_message_header(buffer, size as u16, export_time, sequence);
    append_body(buffer, records);
}

/// Appends a field specifier (RFC 7011, section 3.2). Where it names an enterprise, the upper bit of the element is
/// set.
#[tactic(auto, unfolding(crate::specs::Encoding::field_specifier))]
fn append_field(buffer: &mut Vec<u8>, field: &FieldSpec)
    requires room { length buffer.old.items + length (field_specifier field.now) ≤ vec_capacity buffer.old }
    requires element { field.now.element < 2 ^ 15 }
    ensures items { buffer.new.items ≡ buffer.old.items ++ field_specifier field.now }
    ensures room { vec_capacity buffer.old ≤ vec_capacity buffer.new }
{
    match field.enterprise {
        None => {
            append_u16(buffer, field.element);
            append_u16(buffer, field.length);
        }
        Some(enterprise) => {
            append_u16(buffer, ENTERPRISE_BIT + field.element);
            append_u16(buffer, field.length);
            append_u32(buffer, enterprise);
        }
    }
}

/// Appends field specifiers.
fn append_fields(buffer: &mut Vec<u8>, fields: &[FieldSpec])
    requires room { length buffer.old.items + length (flat_map field_specifier fields.now) ≤ vec_capacity buffer.old }
    requires elements { IsTrue (list_all (λ field. nat_lt field.element 32768) fields.now) }
    ensures items { buffer.new.items ≡ buffer.old.items ++ flat_map field_specifier fields.now }
    ensures room { vec_capacity buffer.old ≤ vec_capacity buffer.new }
{
    for field in fields {
        append_field(buffer, field);
    }
}

/// Appends a template record (RFC 7011, section 3.4.1), in network order, to a buffer that has room for it. The number
/// of each element is below 2^15.
#[tactic(auto, unfolding(crate::specs::Encoding::template_record))]
pub fn append_template(buffer: &mut Vec<u8>, number: u16, fields: &[FieldSpec])
    requires room { length buffer.old.items + length (template_record number fields.now) ≤ vec_capacity buffer.old }
    requires few { length fields.now < 2 ^ 16 }
    requires elements { IsTrue (list_all (λ field. nat_lt field.element 32768) fields.now) }
    ensures items { buffer.new.items ≡ buffer.old.items ++ template_record number fields.now }
    ensures room { vec_capacity buffer.old ≤ vec_capacity buffer.new }
{
    append_u16(buffer, number);
    append_u16(buffer, fields.len() as u16);
    append_fields(buffer, fields);
}

/// Replaces what the buffer holds by the message with the two templates.
pub fn encode_template_message(buffer: &mut Vec<u8>, export_time: u32)
    requires { template_message_length ≤ vec_capacity buffer.old }
    ensures items { buffer.new.items ≡ template_message export_time }
    ensures room { vec_capacity buffer.old ≤ vec_capacity buffer.new }
{
    buffer.clear();
    append_message_header(buffer, TEMPLATE_MESSAGE_LENGTH, export_time, 0);
    append_u16(buffer, TEMPLATE_SET);
    append_u16(buffer, TEMPLATE_SET_LENGTH);
    append_template(buffer, V4_TEMPLATE, &V4_FIELDS);
    append_template(buffer, V6_TEMPLATE, &V6_FIELDS);
}
