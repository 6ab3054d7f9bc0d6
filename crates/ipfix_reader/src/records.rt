//! The records of a set, up to the padding at its end.

ghost use Rattle.std.specs.Prelude.{◌≡◌, ◌+◌, ◌<◌, ◌≤◌, IfOk, IfErr, OnOk, Ok, List, length};
ghost use Rattle.ipfix_model.specs.declared.values.DataRecord.{DataRecord};
ghost use Rattle.ipfix_model.specs.Fields.{least_length};
ghost use Rattle.ipfix_reader.specs.Outcome.{IsFaultOf};
ghost use Rattle.ipfix_reader.specs.Records.{template_records, data_records};
ghost use Rattle.ipfix_reader.specs.Cursors.{IsPaddingChecked};
ghost use Rattle.ipfix_reader.specs.Cursors.{part_of};
ghost use Rattle.ipfix_reader.specs.FlowTemplates.{flow_template_fields, flow_record_length};
ghost use Rattle.ipfix_reader.specs.Taking.{IsTaken};

use crate::cursor::Cursor;
use crate::fault::{StreamError, StreamFault};
use crate::flow_octets::FlowOctets;
use crate::flow_template::FlowTemplate;
use crate::known::{Known, TemplateTable};
use crate::specifiers::template_of;
use crate::taking::RecordTaker;
use crate::values::values_of;
use ipfix_model::{DataRecord, Template, ValueList};
use std::alloc::Global;

/// The length of a template record's header, without the count of scope fields.
const RECORD_HEADER: usize = 4;

/// Reads the records of a set of templates, or of options templates, into the table.
pub fn read_templates(
    alloc: Global,
    options: bool,
    domain: u32,
    table: &mut TemplateTable,
    set: Cursor<'_>,
) -> Result<(), StreamError>
    ensures ok { OnOk result (template_records options domain table.old (part_of set.entry) ≡ Ok table.new) }
    ensures fault { IfErr result (IsFaultOf (template_records options domain table.old (part_of set.entry))) }
{
    let mut rest = set;
    'records: while rest.len() >= RECORD_HEADER {
        match read_template(alloc, options, domain, table, rest) {
            Ok(behind) => rest = behind,
            Err(error) => return Err(error),
        }
    }
    check_padding(rest)
}

/// Reads one template record, and gives what lies behind it.
fn read_template<'a>(
    alloc: Global,
    options: bool,
    domain: u32,
    table: &mut TemplateTable,
    part: Cursor<'a>,
) -> Result<Cursor<'a>, StreamError>
    requires { 4 ≤ length part.bytes.now }
    ensures ok { IfOk result (λ rest. template_records options domain table.old (part_of part.entry)
        ≡ template_records options domain table.new (part_of rest)) }
    ensures shorter { IfOk result (λ rest. length rest.bytes.now < length part.entry.bytes.now) }
    ensures fault { IfErr result (IsFaultOf (template_records options domain table.old (part_of part.entry))) }
{
    let (template, rest) = template_of(alloc, options, part)?;
    table.insert(domain, template)?;
    Ok(rest)
}

/// Reads the records of a data set of this template, and tells how many there are; each is taken behind those before
/// it.
pub fn read_data<T: RecordTaker>(
    alloc: Global,
    domain: u32,
    number: u16,
    known: &Known,
    taker: &mut T,
    set: Cursor<'_>,
) -> Result<usize, StreamError>
    ensures ok { IfOk result (λ count. (before : List DataRecord) → T.has_taken taker.old before
        → IsTaken (T.has_taken taker.new) before count
        (data_records domain number known.now.template.fields before (part_of set.entry)) (λ after. Ok after)) }
    ensures few { IfOk result (λ count. count ≤ length set.entry.bytes.now) }
    ensures fault { IfErr result (λ error. (before : List DataRecord) → T.has_taken taker.old before
        → IsFaultOf (data_records domain number known.now.template.fields before (part_of set.entry)) error) }
{
    let least = known.template.least();
    let mut count = 0;
    let mut rest = set;
    'records: while rest.len() as u64 >= least {
        match read_record(alloc, domain, number, known, taker, rest) {
            Ok(behind) => {
                rest = behind;
                count += 1;
            }
            Err(error) => return Err(error),
        }
    }
    match check_padding(rest) {
        Ok(()) => Ok(count),
        Err(error) => Err(error),
    }
}

/// Reads one data record, and gives what lies behind it.
fn read_record<'a, T: RecordTaker>(
    alloc: Global,
    domain: u32,
    number: u16,
    known: &Known,
    taker: &mut T,
    part: Cursor<'a>,
) -> Result<Cursor<'a>, StreamError>
    requires { least_length known.now.template.fields ≤ length part.bytes.now }
    ensures ok { IfOk result (λ rest. (before : List DataRecord) → T.has_taken taker.old before
        → IsTaken (T.has_taken taker.new) before 1
        (data_records domain number known.now.template.fields before (part_of part.entry))
        (λ after. data_records domain number known.now.template.fields after (part_of rest))) }
    ensures shorter { IfOk result (λ rest. length rest.bytes.now < length part.entry.bytes.now) }
    ensures fault { IfErr result (λ error. (before : List DataRecord) → T.has_taken taker.old before
        → IsFaultOf (data_records domain number known.now.template.fields before (part_of part.entry)) error) }
{
    if let Some(flow) = known.flow {
        return read_flow(alloc, domain, number, flow, taker, part);
    }
    let beyond = StreamFault::BadLength { at: part.at };
    let (values, rest) = values_of(alloc, known.template.fields.items(), part, beyond)?;
    taker.take(DataRecord {
        domain,
        template: number,
        fields: ValueList::of(values),
    })?;
    Ok(rest)
}

/// Reads one data record of a template of flows, and gives what lies behind it. No value of it is made.
fn read_flow<'a, T: RecordTaker>(
    alloc: Global,
    domain: u32,
    number: u16,
    flow: FlowTemplate,
    taker: &mut T,
    part: Cursor<'a>,
) -> Result<Cursor<'a>, StreamError>
    requires { flow_record_length flow ≤ length part.bytes.now }
    ensures ok { IfOk result (λ rest. (before : List DataRecord) → T.has_taken taker.old before
        → IsTaken (T.has_taken taker.new) before 1
        (data_records domain number (flow_template_fields flow) before (part_of part.entry))
        (λ after. data_records domain number (flow_template_fields flow) after (part_of rest))) }
    ensures shorter { IfOk result (λ rest. length rest.bytes.now < length part.entry.bytes.now) }
    ensures memory { IfErr result (λ error. error ≡ StreamError.NoMemory) }
{
    let size = flow.record_length();
    let octets = part.first_part(size).bytes;
    taker.take_octets(
        alloc,
        FlowOctets {
            domain,
            template: number,
            flow,
            octets,
        },
    )?;
    Ok(part.behind(size))
}

/// Checks that all bytes left at the end of a set are 0.
fn check_padding(rest: Cursor<'_>) -> Result<(), StreamError>
    ensures { IsPaddingChecked (part_of rest.entry) result }
{
    if rest.is_zeros() {
        Ok(())
    } else {
        Err(StreamError::Fault(StreamFault::BadPadding { at: rest.at }))
    }
}
