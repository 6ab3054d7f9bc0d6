//! A biflow.

use record_ledger::FlowRecord;

/// The two directions of a conversation: the flow that began it, and the one that came back, where there is one.
#[derive(Clone, Copy, PartialEq, Eq, Debug)]
pub struct Biflow {
    pub forward: FlowRecord,
    pub reverse: Option<FlowRecord>,
}
