//! The flow records of a stream.

ghost use Rattle.std.specs.Prelude.{◌≡◌, Some, IfOk, IfErr};
ghost use Rattle.ipfix_reader.specs.Flows.{flows_of};
ghost use Rattle.ipfix_reader.specs.Others.{FlowsFail};

use crate::fault::{StreamError, StreamFault};
use crate::messages::read_into;
use crate::taking::FlowList;
use record_ledger::FlowRecord;
use std::alloc::Global;

/// Why bytes aren't a stream of flow records.
#[derive(Clone, Copy, Debug, PartialEq, Eq)]
pub enum FlowsError {
    /// The stream has this fault.
    NotStream(StreamFault),
    /// The data record at this place, counted from 0, is the first that isn't a flow record.
    NotFlows(u64),
    /// Out of memory.
    NoMemory,
}

/// The flow records that the data records of a stream are, in their order. The values of a data record are kept only
/// until its flow record is made.
///
/// `NotStream` has the stream's first fault. `NotFlows` has the place of the first data record that isn't a flow
/// record, where the stream has no fault.
pub fn read_flows(alloc: Global, bytes: &[u8]) -> Result<Vec<FlowRecord>, FlowsError>
    ensures flows { IfOk result (λ flows. flows_of bytes.now ≡ Some flows.items) }
    ensures cause { IfErr result (FlowsFail bytes.now) }
{
    let mut list = FlowList::new(alloc);
    match read_into(alloc, bytes, &mut list) {
        Ok(()) => {}
        Err(StreamError::Fault(fault)) => return Err(FlowsError::NotStream(fault)),
        Err(StreamError::NoMemory) => return Err(FlowsError::NoMemory),
    }
    let FlowList { flows, has_other } = list;
    if has_other {
        return Err(FlowsError::NotFlows(flows.len() as u64));
    }
    Ok(flows)
}
