//! Template records and the field specifiers in them.

ghost use Rattle.std.specs.Prelude.{◌≡◌, ◌+◌, ◌<◌, ◌≤◌, ◌&&◌, ◌||◌, [], IfOk, IfErr, IfSome, IsNone, Ok, length};
ghost use Rattle.std.specs.Prelude.{vec_len};
ghost use Rattle.ipfix_model.specs.Fields.{least_length};
ghost use Rattle.ipfix_reader.specs.Outcome.{IsFaultOf};
ghost use Rattle.ipfix_reader.specs.Part.{behind};
ghost use Rattle.octets.specs.Numbers.{number_at};
ghost use Rattle.ipfix_reader.specs.Specifiers.{field_of, specifier_length, fields_of, is_bad_header, template_fields};
ghost use Rattle.ipfix_reader.specs.Cursors.{part_of, fields_shown, template_shown};

use crate::cursor::Cursor;
use crate::fault::{StreamError, StreamFault};
use ipfix_model::{ENTERPRISE_BIT, FIRST_TEMPLATE, FieldList, FieldSpec, Template};
use std::alloc::Global;

/// The template of the record at the front of four bytes or more, and what lies behind the record.
#[tactic(auto, unfolding(crate::specs::Specifiers::template_fields))]
pub fn template_of<'a>(
    alloc: Global,
    options: bool,
    part: Cursor<'a>,
) -> Result<(Template, Cursor<'a>), StreamError>
    requires { 4 ≤ length part.bytes.now }
    ensures ok { IfOk result (λ read. template_fields options (part_of part.entry) ≡ Ok (template_shown read)) }
    ensures number { IfOk result (λ read. (read.0).id ≡ number_at 0 2 part.entry.bytes.now) }
    ensures takes_bytes { IfOk result (λ read. 0 < least_length (read.0).fields) }
    ensures fault { IfErr result (IsFaultOf (template_fields options (part_of part.entry))) }
{
    let count = part.u16_at(2);
    if count == 0 {
        return Err(StreamError::Fault(StreamFault::Withdrawal { at: part.at }));
    }
    let bad = StreamFault::BadTemplate { at: part.at };
    if is_bad_header(options, part) {
        return Err(StreamError::Fault(bad));
    }
    let header = if options { 6 } else { 4 };
    let (fields, rest) = fields_of(alloc, count, part.behind(header), bad)?;
    let template = Template {
        id: part.u16_at(0),
        fields: FieldList::of(fields),
    };
    if template.least() == 0 {
        return Err(StreamError::Fault(bad));
    }
    Ok((template, rest))
}

/// Whether the header of a template record isn't whole, or isn't one of a template.
fn is_bad_header(options: bool, part: Cursor<'_>) -> bool
    requires { 4 ≤ length part.bytes.now }
    ensures bad { result ≡ is_bad_header options part.entry.bytes.now }
{
    if !options {
        return part.u16_at(0) < FIRST_TEMPLATE;
    }
    if part.len() < 6 {
        return true;
    }
    let scope = part.u16_at(4);
    part.u16_at(0) < FIRST_TEMPLATE || scope == 0 || part.u16_at(2) < scope
}

/// `count` fields, and what lies behind their specifiers; `beyond` where one goes beyond the end.
fn fields_of<'a>(
    alloc: Global,
    count: u16,
    part: Cursor<'a>,
    beyond: StreamFault,
) -> Result<(Vec<FieldSpec>, Cursor<'a>), StreamError>
    ensures ok { IfOk result (λ read. fields_of beyond count [] (part_of part.entry) ≡ Ok (fields_shown read)) }
    ensures count { IfOk result (λ read. length (read.0).items ≡ count) }
    ensures fault { IfErr result (IsFaultOf (fields_of beyond count [] (part_of part.entry))) }
{
    let mut fields = Vec::new(alloc);
    let mut rest = part;
    for _turn in 0..count {
        let Some((field, size)) = field_of(rest) else {
            return Err(StreamError::Fault(beyond));
        };
        fields.push(field)?;
        rest = rest.behind(size);
    }
    Ok((fields, rest))
}

/// The field that the specifier at the front names, and the specifier's length; none where it goes beyond the end.
fn field_of(part: Cursor<'_>) -> Option<(FieldSpec, usize)>
    ensures field { IfSome result (λ read. read.0 ≡ field_of part.entry.bytes.now) }
    ensures size { IfSome result (λ read. read.1 ≡ specifier_length part.entry.bytes.now) }
    ensures inside { IfSome result (λ read. read.1 ≤ length part.entry.bytes.now) }
    ensures beyond { IsNone result → length part.entry.bytes.now < specifier_length part.entry.bytes.now }
{
    if part.len() < 4 {
        return None;
    }
    let element = part.u16_at(0);
    let mut field = FieldSpec {
        element: element % ENTERPRISE_BIT,
        length: part.u16_at(2),
        enterprise: None,
    };
    if element < ENTERPRISE_BIT {
        return Some((field, 4));
    }
    if part.len() < 8 {
        return None;
    }
    field.enterprise = Some(part.u32_at(4));
    Some((field, 8))
}
