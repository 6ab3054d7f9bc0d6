//! Where the records of a capture begin.

ghost use Rattle.std.specs.Prelude.{◌≡◌, ◌<◌, [], length, slice_index, IfOk};

use crate::front::RECORD_HEADER;
use no_memory::NoMemory;
use std::alloc::Global;
use std::marker::Model;

/// Why the records of a capture could not be found.
#[derive(Clone, Copy, Debug, PartialEq, Eq)]
pub enum IndexError {
    /// The record header at this offset, counted from the first byte of the capture or of the part, claims more than
    /// 262,144 captured bytes.
    Damaged(u64),
    /// There was no memory for the index.
    NoMemory,
}

/// Where the records of a capture begin: four bytes a record.
#[derive(Debug, Drop)]
pub struct RecordIndex {
    offsets: Vec<u32>,
    tail: u64,
}

impl Model for RecordIndex {
    ghost use Rattle.pcap_reader.specs.Index.{Offsets};

    ghost Value = { Offsets };

    ghost view = { λ i. record { offsets = i.offsets.items; tail = i.tail } };
}

impl RecordIndex {
    /// An index of no records, which takes no memory yet.
    pub fn none(alloc: Global) -> RecordIndex
        ensures { result ≡ record { offsets = []; tail = 0 } }
    {
        RecordIndex::new(Vec::new(alloc), 0)
    }

    /// An index of no records, with room for all records that `bytes` bytes can have: a record has at least 16 bytes.
    /// No clause says how much room there is. `NoMemory` where there is no memory for it.
    pub fn with_room(alloc: Global, bytes: usize) -> Result<RecordIndex, NoMemory>
        ensures { IfOk result (λ index. index ≡ record { offsets = []; tail = 0 }) }
    {
        let offsets = Vec::with_capacity(alloc, bytes / RECORD_HEADER)?;
        Ok(RecordIndex::new(offsets, 0))
    }

    /// The memory of the offsets, emptied.
    pub(crate) fn into_offsets(self) -> Vec<u32>
        ensures { result.items ≡ [] }
    {
        let mut offsets = self.offsets;
        offsets.clear();
        offsets
    }

    /// The index of these offsets and this tail.
    pub(crate) fn new(offsets: Vec<u32>, tail: u64) -> RecordIndex
        ensures offsets { result.offsets ≡ offsets.items }
        ensures tail { result.tail ≡ tail }
    {
        RecordIndex { offsets, tail }
    }

    /// The number of records.
    #[inline]
    pub fn count(&self) -> u64
        ensures { result ≡ length self.now.offsets }
    {
        self.offsets.len() as u64
    }

    /// Where the `n`-th record begins.
    #[inline]
    pub(crate) fn offset(&self, n: u64) -> usize
        requires { n < length self.now.offsets }
        ensures { result ≡ slice_index self.now.offsets n }
    {
        self.offsets[n as usize] as usize
    }

    /// The number of bytes behind the last record, which make no whole record.
    pub fn tail(&self) -> u64
        ensures { result ≡ self.now.tail }
    {
        self.tail
    }
}
