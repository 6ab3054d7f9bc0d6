//! The sets of a message.

ghost use Rattle.std.specs.Prelude.{◌≡◌, ◌+◌, ◌<◌, ◌≤◌, ◌==◌, IfOk, IfErr, Ok, List, length};
ghost use Rattle.ipfix_model.specs.declared.values.DataRecord.{DataRecord};
ghost use Rattle.ipfix_reader.specs.Outcome.{IsFaultOf};
ghost use Rattle.ipfix_reader.specs.Part.{behind, first_part};
ghost use Rattle.octets.specs.Numbers.{number_at};
ghost use Rattle.ipfix_reader.specs.Sets.{set_contents, set_length, is_bad_length, message_sets};
ghost use Rattle.ipfix_reader.specs.Cursors.{part_of};
ghost use Rattle.ipfix_reader.specs.Records.{template_records};
ghost use Rattle.ipfix_reader.specs.Taking.{IsTaken, contents_of};

use crate::cursor::Cursor;
use crate::fault::{StreamError, StreamFault};
use crate::known::TemplateTable;
use crate::records::{read_data, read_templates};
use crate::taking::RecordTaker;
use ipfix_model::{FIRST_TEMPLATE, OPTIONS_TEMPLATE_SET, SET_HEADER, TEMPLATE_SET};
use std::alloc::Global;

/// Reads the sets of a message, behind its header, into the known templates, and tells how many data records they have;
/// each is taken behind those before it.
pub fn read_sets<T: RecordTaker>(
    alloc: Global,
    domain: u32,
    table: &mut TemplateTable,
    taker: &mut T,
    sets: Cursor<'_>,
) -> Result<usize, StreamError>
    ensures ok { IfOk result (λ count. (before : List DataRecord) → T.has_taken taker.old before
        → IsTaken (T.has_taken taker.new) before count
        (message_sets domain (contents_of table.old before) (part_of sets.entry))
        (λ after. Ok (contents_of table.new after))) }
    ensures few { IfOk result (λ count. count ≤ length sets.entry.bytes.now) }
    ensures fault { IfErr result (λ error. (before : List DataRecord) → T.has_taken taker.old before
        → IsFaultOf (message_sets domain (contents_of table.old before) (part_of sets.entry)) error) }
{
    let mut count = 0;
    let mut rest = sets;
    'sets: while rest.len() > 0 {
        match read_set(alloc, domain, table, taker, rest) {
            Ok((more, behind)) => {
                rest = behind;
                count += more;
            }
            Err(error) => return Err(error),
        }
    }
    Ok(count)
}

/// Reads one set, and gives how many data records it has and what lies behind it.
fn read_set<'a, T: RecordTaker>(
    alloc: Global,
    domain: u32,
    table: &mut TemplateTable,
    taker: &mut T,
    part: Cursor<'a>,
) -> Result<(usize, Cursor<'a>), StreamError>
    requires { 0 < length part.bytes.now }
    ensures ok { IfOk result (λ read. (before : List DataRecord) → T.has_taken taker.old before
        → IsTaken (T.has_taken taker.new) before read.0
        (message_sets domain (contents_of table.old before) (part_of part.entry))
        (λ after. message_sets domain (contents_of table.new after) (part_of read.1))) }
    ensures few { IfOk result (λ read. read.0 + length (read.1).bytes.now < length part.entry.bytes.now) }
    ensures fault { IfErr result (λ error. (before : List DataRecord) → T.has_taken taker.old before
        → IsFaultOf (message_sets domain (contents_of table.old before) (part_of part.entry)) error) }
{
    if is_bad_length(part) {
        return Err(StreamError::Fault(StreamFault::BadLength { at: part.at }));
    }
    let size = usize::from(part.u16_at(2));
    let content = part.first_part(size).behind(SET_HEADER);
    let head = SetHead {
        number: part.u16_at(0),
        at: part.at,
    };
    match read_content(alloc, domain, head, table, taker, content) {
        Ok(count) => Ok((count, part.behind(size))),
        Err(error) => Err(error),
    }
}

/// Whether the header isn't whole, or the length isn't one of a header up to what is left.
fn is_bad_length(part: Cursor<'_>) -> bool
    ensures { result ≡ is_bad_length (part_of part.entry) }
{
    if part.len() < SET_HEADER {
        return true;
    }
    let size = usize::from(part.u16_at(2));
    size < SET_HEADER || part.len() < size
}

/// Reads a set of templates, or of options templates, into the table: it has no data records.
fn read_template_set(
    alloc: Global,
    options: bool,
    domain: u32,
    table: &mut TemplateTable,
    content: Cursor<'_>,
) -> Result<usize, StreamError>
    ensures ok { IfOk result (λ count. (count ≡ 0)
        × (template_records options domain table.old (part_of content.entry) ≡ Ok table.new)) }
    ensures fault { IfErr result (IsFaultOf (template_records options domain table.old (part_of content.entry))) }
{
    match read_templates(alloc, options, domain, table, content) {
        Ok(()) => Ok(0),
        Err(error) => Err(error),
    }
}

/// A set's number, and the offset at which it begins.
#[derive(Clone, Copy)]
struct SetHead {
    number: u16,
    at: u64,
}

/// Reads what is in a set, by its number, and tells how many data records it has.
fn read_content<T: RecordTaker>(
    alloc: Global,
    domain: u32,
    head: SetHead,
    table: &mut TemplateTable,
    taker: &mut T,
    content: Cursor<'_>,
) -> Result<usize, StreamError>
    ensures ok { IfOk result (λ count. (before : List DataRecord) → T.has_taken taker.old before
        → IsTaken (T.has_taken taker.new) before count
        (set_contents domain head.number head.at (contents_of table.old before) (part_of content.entry))
        (λ after. Ok (contents_of table.new after))) }
    ensures few { IfOk result (λ count. count ≤ length content.entry.bytes.now) }
    ensures fault { IfErr result (λ error. (before : List DataRecord) → T.has_taken taker.old before
        → IsFaultOf (set_contents domain head.number head.at (contents_of table.old before) (part_of content.entry))
        error) }
{
    let SetHead { number, at } = head;
    match number {
        TEMPLATE_SET => read_template_set(alloc, false, domain, table, content),
        OPTIONS_TEMPLATE_SET => read_template_set(alloc, true, domain, table, content),
        0..FIRST_TEMPLATE => Ok(0),
        _ => match table.get(domain, number) {
            Some(known) => read_data(alloc, domain, number, known, taker, content),
            None => Err(StreamError::Fault(StreamFault::NoTemplate { at, id: number })),
        },
    }
}
