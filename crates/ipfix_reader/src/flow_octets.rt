//! A data record of a template of flows, as its octets.

ghost use Rattle.std.specs.Prelude.{◌≡◌, IfOk, length};
ghost use Rattle.ipfix_reader.specs.FlowTemplates.{flow_record_length};

use crate::cursor::Cursor;
use crate::fault::{StreamError, StreamFault};
use crate::flow_template::FlowTemplate;
use crate::values::values_of;
use ipfix_model::{DataRecord, ValueList};
use no_memory::NoMemory;
use std::alloc::Global;

/// A data record of a template of flows: its observation domain, the number of its template, which template of flows
/// this is by its fields, and its octets, in which each value has a fixed place.
#[derive(Clone, Copy)]
pub struct FlowOctets<'a> {
    pub domain: u32,
    pub template: u16,
    pub flow: FlowTemplate,
    pub octets: &'a [u8],
    pub ghost whole: { length octets.now ≡ flow_record_length flow },
}

impl FlowOctets<'_> {
    ghost use Rattle.ipfix_reader.specs.FixedPlaces.{record_of};

    /// The data record with its values.
    pub fn to_record(self, alloc: Global) -> Result<DataRecord, NoMemory>
        ensures { IfOk result (λ read. read ≡ record_of self.entry) }
    {
        let part = Cursor {
            at: 0,
            bytes: self.octets,
        };
        let beyond = StreamFault::BadLength { at: 0 };
        match values_of(alloc, self.flow.fields().as_slice(), part, beyond) {
            Ok((values, _)) => Ok(DataRecord {
                domain: self.domain,
                template: self.template,
                fields: ValueList::of(values),
            }),
            Err(StreamError::NoMemory) => Err(NoMemory),
            Err(StreamError::Fault(_)) => unreachable!(),
        }
    }
}
