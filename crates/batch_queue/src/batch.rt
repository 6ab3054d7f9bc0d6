//! A batch of records.

ghost use Rattle.std.specs.Prelude.{◌+◌, ◌<◌, ◌^◌, length};
ghost use Rattle.pcap_reader.specs.Index.{IsIndexOf};
ghost use Rattle.pcap_reader.specs.Views.{part_of};

use pcap_reader::{Head, RecordIndex};

/// Some records of a capture, one directly behind the other, and where they begin.
#[derive(Drop)]
pub struct Batch {
    /// The number of the batch, counted from 0.
    pub number: u64,
    /// How many records of the capture stand before its first.
    pub base: u64,
    /// What the file header of the capture tells.
    pub head: Head,
    /// Its bytes. Those behind its last record don't matter.
    pub bytes: Vec<u8>,
    /// Where its records begin.
    pub index: RecordIndex,
    pub ghost indexed: { IsIndexOf index (part_of head bytes.items) },
    pub ghost few: { base + length index.offsets < 2 ^ 32 },
}
