//! Data records as text.

ghost use Rattle.std.specs.Prelude.{◌≡◌, ◌<◌, ◌≤◌, ◌++◌, length, map, flat_map, decimal, OnOk};
ghost use Rattle.std.specs.List.{join_with_byte};
ghost use Rattle.meter_program.specs.Shows.{number_text, iana_text, value_text, name_text, field_text, line_of};

use ipfix_model::elements::{AbstractType, abstract_type};
use ipfix_model::{DataRecord, FieldValue};
use ipfix_reader::RecordTaker;
use no_memory::NoMemory;
use octets::{numbers_law, uint_at};
use plain_text::{append, append_decimal, append_hexadecimal};

/// Appends four numbers in decimal, with points between them.
fn append_address(text: &mut Vec<u8>, address: &[u8]) -> Result<(), NoMemory>
    requires { length address.now ≡ 4 }
    ensures { OnOk result (text.new.items ≡ text.old.items ++ join_with_byte 46 (map decimal address.now)) }
{
    append_decimal(text, address[0] as u64)?;
    append(text, b".")?;
    append_decimal(text, address[1] as u64)?;
    append(text, b".")?;
    append_decimal(text, address[2] as u64)?;
    append(text, b".")?;
    append_decimal(text, address[3] as u64)
}

/// Appends a number of one to eight octets in decimal, and any other value in hexadecimal.
fn append_number(text: &mut Vec<u8>, value: &[u8]) -> Result<(), NoMemory>
    ensures { OnOk result (text.new.items ≡ text.old.items ++ number_text value.now) }
{
    numbers_law();
    if 1 <= value.len() && value.len() <= 8 {
        let number = uint_at(value, 0, value.len());
        append_decimal(text, number as u64)
    } else {
        append_hexadecimal(text, value)
    }
}

/// Appends the value of an element of IANA's, by its abstract data type.
#[tactic(auto, unfolding(crate::specs::Shows::iana_text))]
fn append_iana_value(text: &mut Vec<u8>, element: u16, value: &[u8]) -> Result<(), NoMemory>
    ensures { OnOk result (text.new.items ≡ text.old.items ++ iana_text element value.now) }
{
    match abstract_type(element) {
        Some(AbstractType::Unsigned8) => append_number(text, value),
        Some(AbstractType::Unsigned16) => append_number(text, value),
        Some(AbstractType::Unsigned64) => append_number(text, value),
        Some(AbstractType::DateTimeMilliseconds) => append_number(text, value),
        Some(AbstractType::Ipv4Address) if value.len() == 4 => append_address(text, value),
        Some(AbstractType::Ipv4Address) => append_hexadecimal(text, value),
        Some(AbstractType::Ipv6Address) => append_hexadecimal(text, value),
        None => append_hexadecimal(text, value),
    }
}

/// Appends the value of a field.
#[tactic(auto, unfolding(crate::specs::Shows::value_text))]
fn append_value(text: &mut Vec<u8>, field: &FieldValue) -> Result<(), NoMemory>
    ensures { OnOk result (text.new.items ≡ text.old.items ++ value_text field.now) }
{
    if field.enterprise.is_none() {
        append_iana_value(text, field.element, field.value.items())
    } else {
        append_hexadecimal(text, field.value.items())
    }
}

/// Appends the name of an element.
#[tactic(auto, unfolding(crate::specs::Shows::name_text))]
fn append_name(text: &mut Vec<u8>, enterprise: Option<u32>, element: u16) -> Result<(), NoMemory>
    ensures { OnOk result (text.new.items ≡ text.old.items ++ name_text enterprise element) }
{
    if let Some(enterprise) = enterprise {
        append_decimal(text, enterprise as u64)?;
        append(text, b".")?;
    }
    append_decimal(text, element as u64)
}

/// Appends a field.
#[tactic(auto, unfolding(crate::specs::Shows::field_text))]
fn append_field(text: &mut Vec<u8>, field: &FieldValue) -> Result<(), NoMemory>
    ensures { OnOk result (text.new.items ≡ text.old.items ++ field_text field.now) }
{
    append(text, b" ")?;
    append_name(text, field.enterprise, field.element)?;
    append(text, b"=")?;
    append_value(text, field)
}

/// Appends fields.
fn append_fields(text: &mut Vec<u8>, fields: &[FieldValue]) -> Result<(), NoMemory>
    ensures { OnOk result (text.new.items ≡ text.old.items ++ flat_map field_text fields.now) }
{
    for field in fields {
        append_field(text, field)?;
    }
    Ok(())
}

/// Appends the line of a record.
#[tactic(auto, unfolding(crate::specs::Shows::line_of))]
fn append_line(text: &mut Vec<u8>, line: &DataRecord) -> Result<(), NoMemory>
    ensures { OnOk result (text.new.items ≡ text.old.items ++ line_of line.now) }
{
    append_decimal(text, line.template as u64)?;
    append_fields(text, line.fields.items())?;
    append(text, b"\n")
}

/// The text of the data records that were taken, and how many there are: a line for each, with the number of its
/// template and then a space and `NAME=VALUE` for each field, in their order. A record's values are let go as soon as
/// its line is written.
///
/// NAME is the number of the element, or `ENTERPRISE.ELEMENT` where it is an enterprise's. VALUE is in decimal for
/// octet and packet counts, protocols, TCP flags, ports, times and end reasons of one to eight bytes, and four decimal
/// numbers joined by points for IPv4 addresses of four bytes. Any other value, and each value of an enterprise's
/// element, is in lower-case hexadecimal, two digits for each byte.
#[derive(Drop)]
pub struct Lines {
    pub text: Vec<u8>,
    pub count: u64,
}

impl RecordTaker for Lines {
    ghost use Rattle.meter_program.specs.Showing.{AreLines};

    ghost has_taken = { λ lines records. AreLines lines.text.items lines.count records };

    fn take(&mut self, rec: DataRecord) -> Result<(), NoMemory> {
        append_line(&mut self.text, &rec)?;
        self.count = self.count.saturating_add(1);
        Ok(())
    }
}
