//! Records that are copied out of a list together.

ghost use Rattle.std.specs.Prelude.{◌≡◌, []};

use crate::record::{FlowRecord, no_record};
use std::marker::Model;

/// How many records are copied at once.
pub const RUN: usize = 16;

/// A run of records copied out of a list: at most 16 of them, side by side. Contracts see it as the list of these.
#[derive(Drop)]
pub struct Run {
    pub(crate) records: [FlowRecord; RUN],
    pub(crate) count: usize,
}

impl Model for Run {
    ghost use Rattle.std.specs.Prelude.{List, ◌≤◌, take};
    ghost use Rattle.record_ledger.specs.declared.record.FlowRecord as declared;

    ghost Value = { List declared.FlowRecord };

    ghost view = { λ r. take r.count r.records };

    ghost invariant = { λ r. r.count ≤ 16 };
}

impl Run {
    /// Room for a run. It has no records yet.
    pub fn empty() -> Run
        ensures { result ≡ [] }
    {
        Run {
            records: [no_record(); RUN],
            count: 0,
        }
    }

    /// The records.
    pub fn as_slice(&self) -> &[FlowRecord]
        ensures { result.now ≡ self.now }
    {
        &self.records[..self.count]
    }
}
