//! Values of a data record, found by their elements.

ghost use Rattle.std.specs.Prelude.{◌≡◌, ◌≤◌, ◌<◌, ◌^◌, length};
ghost use Rattle.ipfix_model.specs.Values.{is_same_enterprise, is_of_element, is_value_of, are_values_of, number_in};
ghost use Rattle.ipfix_model.specs.Values.{number_of, AreNumbers};

use crate::fields::FieldSpec;
use crate::values::FieldValue;

/// Whether both are the same enterprise, or both are IANA.
fn is_same_enterprise(one: Option<u32>, other: Option<u32>) -> bool
    ensures { result ≡ is_same_enterprise one other }
{
    match (one, other) {
        (Some(one), Some(other)) => one == other,
        (None, None) => true,
        (Some(_), None) | (None, Some(_)) => false,
    }
}

/// Whether the value is of this element of this enterprise, or of IANA where none is given.
#[inline]
fn is_of_element(enterprise: Option<u32>, element: u16, value: &FieldValue) -> bool
    ensures { result ≡ is_of_element enterprise element value.now }
{
    element == value.element && is_same_enterprise(enterprise, value.enterprise)
}

/// Whether the value is one of this field.
fn is_value_of(field: &FieldSpec, value: &FieldValue) -> bool
    ensures { result ≡ is_value_of field.now value.now }
{
    is_of_element(field.enterprise, field.element, value)
        && value.value.items().len() == usize::from(field.length)
}

/// Whether the values are those of these fields, in order: each of its field's element, and as long as its field says.
pub fn are_values_of(fields: &[FieldSpec], values: &[FieldValue]) -> bool
    ensures { result ≡ are_values_of fields.now values.now }
{
    if values.len() != fields.len() {
        return false;
    }
    for (i, field) in fields.iter().enumerate() {
        if !is_value_of(field, &values[i]) {
            return false;
        }
    }
    true
}

/// The number that a value of one to sixteen octets is, in network order (RFC 7011, section 6.1).
fn number_in(value: &FieldValue) -> u128
    requires some { 1 ≤ length value.now.value }
    requires few { length value.now.value ≤ 16 }
    ensures { result ≡ number_in value.now }
{
    let octets = value.value.items();
    octets::uint_at(octets, 0, octets.len())
}

/// The number in the first value of an element of this enterprise, or of IANA where none is given; 0 where there is no
/// such value. Each value has one to sixteen octets.
pub fn number_of(enterprise: Option<u32>, element: u16, values: &[FieldValue]) -> u128
    requires { AreNumbers values.now }
    ensures { result ≡ number_of enterprise element values.now }
{
    for value in values {
        if is_of_element(enterprise, element, value) {
            return number_in(value);
        }
    }
    0
}
