//! A part of a capture.

ghost use Rattle.std.specs.Prelude.{◌+◌, ◌<◌, ◌^◌, length};
ghost use Rattle.pcap_reader.specs.Index.{IsIndexOf};
ghost use Rattle.pcap_reader.specs.Views.{file_of};

use pcap_reader::{Capture, RecordIndex};

/// Some records of a capture, one directly behind the other.
#[derive(Clone, Copy)]
pub struct Part<'a> {
    /// Their bytes, and what the file header tells of them.
    pub capture: Capture<'a>,
    /// Where they begin.
    pub index: &'a RecordIndex,
    /// How many records of the capture stand before the first of them.
    pub base: u64,
    pub ghost indexed: { IsIndexOf index.now (file_of capture) },
    pub ghost few: { base + length index.now.offsets < 2 ^ 32 },
}
