//! The values of a data record.

ghost use Rattle.std.specs.Prelude.{◌≡◌, ◌+◌, ◌<◌, ◌≤◌, ◌^◌, [], IfOk, IfErr, IfSome, IsNone, Ok, length};
ghost use Rattle.ipfix_reader.specs.Outcome.{IsFaultOf};
ghost use Rattle.ipfix_reader.specs.Part.{behind};
ghost use Rattle.ipfix_reader.specs.Values.{prefix_length, value_length, coded_length, value_of, values_of};
ghost use Rattle.ipfix_reader.specs.Cursors.{part_of, values_shown};

use crate::cursor::Cursor;
use crate::fault::{StreamError, StreamFault};
use ipfix_model::{FieldSpec, FieldValue, Octets, VARIABLE_LENGTH};
use std::alloc::{AllocError, Global};

/// The values of these fields at the front, and what lies behind them; `beyond` where one goes beyond the end.
pub fn values_of<'a>(
    alloc: Global,
    fields: &[FieldSpec],
    part: Cursor<'a>,
    beyond: StreamFault,
) -> Result<(Vec<FieldValue>, Cursor<'a>), StreamError>
    ensures ok { IfOk result (λ read. values_of beyond fields.now [] (part_of part.entry) ≡ Ok (values_shown read)) }
    ensures fault { IfErr result (IsFaultOf (values_of beyond fields.now [] (part_of part.entry))) }
{
    let mut values = Vec::with_capacity(alloc, fields.len())?;
    let mut rest = part;
    for field in fields {
        let Some((prefix, size)) = coded_lengths(field, rest) else {
            return Err(StreamError::Fault(beyond));
        };
        values.push(value_of(alloc, field, prefix, size, rest)?)?;
        rest = rest.behind(prefix + size);
    }
    Ok((values, rest))
}

/// The value of one field, behind the prefix that gives its length.
fn value_of(
    alloc: Global,
    field: &FieldSpec,
    prefix: usize,
    size: usize,
    part: Cursor<'_>,
) -> Result<FieldValue, AllocError>
    requires prefix { prefix ≡ prefix_length field.now part.bytes.now }
    requires size { size ≡ value_length field.now part.bytes.now }
    requires inside { prefix + size ≤ length part.bytes.now }
    ensures { IfOk result (λ value. value ≡ value_of field.now part.entry.bytes.now) }
{
    let bytes = part.behind(prefix).first_part(size).bytes;
    Ok(FieldValue {
        element: field.element,
        enterprise: field.enterprise,
        value: Octets::of(Vec::from_slice(alloc, bytes)?),
    })
}

/// The lengths of the prefix and of the value at the front; none where they go beyond the end.
fn coded_lengths(field: &FieldSpec, part: Cursor<'_>) -> Option<(usize, usize)>
    ensures prefix { IfSome result (λ lengths. lengths.0 ≡ prefix_length field.now part.entry.bytes.now) }
    ensures size { IfSome result (λ lengths. lengths.1 ≡ value_length field.now part.entry.bytes.now) }
    ensures inside { IfSome result (λ lengths. lengths.0 + lengths.1 ≤ length part.entry.bytes.now) }
    ensures beyond { IsNone result → length part.entry.bytes.now < coded_length field.now part.entry.bytes.now }
{
    if field.length != VARIABLE_LENGTH {
        return within(0, usize::from(field.length), part.len());
    }
    if part.len() == 0 {
        return None;
    }
    let short = part.bytes[0];
    if short < 255 {
        return within(1, usize::from(short), part.len());
    }
    if part.len() < 3 {
        return None;
    }
    within(3, usize::from(part.u16_at(1)), part.len())
}

/// Both lengths, where they are at most `room` together.
fn within(prefix: usize, size: usize, room: usize) -> Option<(usize, usize)>
    requires { prefix + size < 2 ^ 64 }
    ensures same { IfSome result (λ lengths. (lengths.0 ≡ prefix) × (lengths.1 ≡ size)) }
    ensures inside { IfSome result (λ lengths. prefix + size ≤ room) }
    ensures beyond { IsNone result → room < prefix + size }
{
    if prefix + size <= room {
        Some((prefix, size))
    } else {
        None
    }
}
