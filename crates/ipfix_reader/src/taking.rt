//! What takes the data records of a stream, one behind the other.

ghost use Rattle.std.specs.Prelude.{◌≡◌, ◌++◌, [], ◌∷◌, List, OnOk, false};

use crate::flow::{flow_in, flow_of};
use crate::flow_octets::FlowOctets;
use ipfix_model::DataRecord;
use no_memory::NoMemory;
use record_ledger::FlowRecord;
use std::alloc::Global;

/// What takes the data records of a stream, in their order.
///
/// Each taker says what `has_taken` is: what it holds once it has taken these records.
pub trait RecordTaker {
    ghost use Rattle.ipfix_model.specs.declared.values.DataRecord.{DataRecord};
    ghost use Rattle.ipfix_reader.specs.FixedPlaces.{record_of};

    /// It has taken these records.
    ghost has_taken: { Self → List DataRecord → Type 0 };

    /// Takes one record more.
    ///
    /// `NoMemory` where there is no room for what it keeps of the record.
    fn take(&mut self, rec: DataRecord) -> Result<(), NoMemory>
        ensures { OnOk result ((before : List DataRecord) → has_taken self.old before
            → has_taken self.new (before ++ rec ∷ [])) };

    /// Takes one record more, of a template of flows, by its octets. A taker that can do without its values writes a body
    /// of its own: this one makes them.
    ///
    /// `NoMemory` where there is no room for the values, or for what it keeps of the record.
    fn take_octets(&mut self, alloc: Global, rec: FlowOctets<'_>) -> Result<(), NoMemory>
        ensures { OnOk result ((before : List DataRecord) → has_taken self.old before
            → has_taken self.new (before ++ record_of rec.entry ∷ [])) }
    {
        let values = rec.to_record(alloc)?;
        self.take(values)
    }
}

/// All records that were taken.
#[derive(Drop)]
pub(crate) struct RecordList {
    pub(crate) records: Vec<DataRecord>,
}

impl RecordTaker for RecordList {
    ghost has_taken = { λ list records. list.records.items ≡ records };

    fn take(&mut self, rec: DataRecord) -> Result<(), NoMemory> {
        self.records.push(rec)?;
        Ok(())
    }
}

/// The flow records among the records that were taken, up to the first record that isn't one.
#[derive(Drop)]
pub(crate) struct FlowList {
    pub(crate) flows: Vec<FlowRecord>,
    pub(crate) has_other: bool,
}

impl FlowList {
    ghost use Rattle.ipfix_model.specs.declared.values.DataRecord.{DataRecord};
    ghost use Rattle.ipfix_reader.specs.Flows.{flow};
    ghost use Rattle.ipfix_reader.specs.Taking.{HasFlows};

    /// No record was taken.
    pub(crate) fn new(alloc: Global) -> Self
        ensures flows { result.flows.items ≡ [] }
        ensures other { result.has_other ≡ false }
    {
        FlowList {
            flows: Vec::new(alloc),
            has_other: false,
        }
    }

    /// Takes one record more, by the flow record that it is.
    fn take_found(&mut self, found: Option<FlowRecord>) -> Result<(), NoMemory>
        ensures { OnOk result ((before : List DataRecord) (one : DataRecord) → found ≡ flow one
            → HasFlows self.old.flows.items self.old.has_other before
            → HasFlows self.new.flows.items self.new.has_other (before ++ one ∷ [])) }
    {
        if self.has_other {
            return Ok(());
        }
        match found {
            Some(flow) => {
                self.flows.push(flow)?;
                Ok(())
            }
            None => {
                self.has_other = true;
                Ok(())
            }
        }
    }
}

impl RecordTaker for FlowList {
    ghost use Rattle.ipfix_reader.specs.Taking.{HasFlows};

    ghost has_taken = { λ list records. HasFlows list.flows.items list.has_other records };

    fn take(&mut self, rec: DataRecord) -> Result<(), NoMemory> {
        self.take_found(flow_of(&rec))
    }

    fn take_octets(&mut self, _alloc: Global, rec: FlowOctets<'_>) -> Result<(), NoMemory> {
        self.take_found(flow_in(rec))
    }
}
