//! Taking the records of a file, each as it is read.

ghost use Rattle.std.specs.Prelude.{◌≡◌, ◌++◌, [], ◌∷◌, List, Some, OnOk, false, None};
ghost use Rattle.std.specs.declared.option.Option.{Option};
ghost use Rattle.record_ledger.specs.declared.record.FlowRecord.{FlowRecord};
ghost use Rattle.ipfix_model.specs.declared.values.DataRecord.{DataRecord};
ghost use Rattle.ipfix_reader.specs.Flows.{flow};
ghost use Rattle.join_program.specs.Words.{OneOf};
ghost use Rattle.join_program.specs.Filed.{IsFiled, HasBegun};
ghost use Rattle.join_program.specs.Taking.{share_of};

use crate::settings::Share;
use crate::taken::Taken;
use crate::taking::{TakeError, take};
use ipfix_model::DataRecord;
use ipfix_reader::{FlowOctets, RecordTaker, flow_in, flow_of};
use no_memory::NoMemory;
use record_ledger::FlowRecord;
use std::alloc::Global;
use std::marker::{Brand, PhantomData};

/// What the contracts know of the files before the one that is read.
pub(crate) trait Begun {
    ghost use Rattle.join_program.specs.declared.taken.Taken as declared;

    /// What was taken when the file was opened.
    ghost start: { Option declared.Taken };

    /// The share whose records are kept.
    ghost share: { Option OneOf };
}

impl Begun for Brand {
    ghost start = { None };

    ghost share = { None };
}

/// What is kept of the records of a file, after those of the files before it.
///
/// Nothing more is kept after a record that isn't a flow record, or after too many packets or octets. The file is read
/// to its end all the same: a fault of its stream is reported before a record that isn't a flow record, and this before
/// too many packets or octets.
#[derive(Drop)]
pub(crate) struct FileTaker<K: Begun> {
    pub taken: Taken,
    pub alloc: Global,
    pub share: Option<Share>,
    /// How many flow records the file has before its first other record. It stops at 2^64 - 1, which no file reaches:
    /// a file has fewer bytes, and no more records than bytes.
    pub flows: u64,
    /// There was a record that isn't a flow record.
    pub has_other: bool,
    /// There were too many packets or octets.
    pub are_many: bool,
    pub begun: PhantomData<K>,
}

impl<K: Begun> FileTaker<K> {
    /// Counts a flow record, and takes it unless there were too many before.
    fn take_flow(&mut self, found: &FlowRecord) -> Result<(), NoMemory>
        requires { self.old.has_other ≡ false }
        ensures same { (self.new.has_other ≡ false) × (self.new.share ≡ self.old.share) }
        ensures filed { OnOk result ((records : List DataRecord) (one : DataRecord) → flow one ≡ Some found.now
            → share_of self.old.share ≡ K.share
            → IsFiled (HasBegun K.start K.share) K.share self.old.taken self.old.flows false self.old.are_many records
            → IsFiled (HasBegun K.start K.share) K.share self.new.taken self.new.flows false self.new.are_many
            (records ++ one ∷ [])) }
    {
        self.flows = self.flows.saturating_add(1);
        if self.are_many {
            return Ok(());
        }
        match take(&mut self.taken, self.alloc, self.share, found) {
            Ok(()) => Ok(()),
            Err(TakeError::TooMany) => {
                self.are_many = true;
                Ok(())
            }
            Err(TakeError::NoMemory) => Err(NoMemory),
        }
    }
}

impl<K: Begun> RecordTaker for FileTaker<K> {
    ghost has_taken = { λ taker records. (share_of taker.share ≡ K.share)
        × IsFiled (HasBegun K.start K.share) K.share taker.taken taker.flows taker.has_other taker.are_many records };

    fn take(&mut self, rec: DataRecord) -> Result<(), NoMemory> {
        if self.has_other {
            return Ok(());
        }
        match flow_of(&rec) {
            Some(found) => self.take_flow(&found),
            None => {
                self.has_other = true;
                Ok(())
            }
        }
    }

    fn take_octets(&mut self, _alloc: Global, rec: FlowOctets<'_>) -> Result<(), NoMemory> {
        if self.has_other {
            return Ok(());
        }
        match flow_in(rec) {
            Some(found) => self.take_flow(&found),
            None => {
                self.has_other = true;
                Ok(())
            }
        }
    }
}
