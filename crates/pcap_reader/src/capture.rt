//! A capture: its header read, its records found and read.

ghost use Rattle.std.specs.Prelude.{◌≤◌, length};

use crate::front::{Front, front_at};
use crate::head::{CaptureError, Head};
use crate::header::FILE_HEADER;
use crate::index::{IndexError, RecordIndex};
use crate::record::{Record, record_at};
use link_types::LinkType;
use std::alloc::Global;

/// The most octets of a capture that the programs accept: 1 GiB.
pub const CAPTURE_LIMIT: u64 = 1 << 30;

/// A capture file in memory, whose header was read, or a part of one.
#[derive(Clone, Copy, Debug)]
pub struct Capture<'a> {
    bytes: &'a [u8],
    start: usize,
    head: Head,
    ghost whole: { start ≤ length bytes.now },
}

impl<'a> Capture<'a> {
    ghost use Rattle.std.specs.Prelude.{◌≡◌, ◌<◌, ◌≤◌, ◌^◌, ◌↔◌, ℕ, None, Some, Ok, Err, IfOk, OnOk, IsSomeAnd, ◌+◌};
    ghost use Rattle.std.specs.Prelude.{◌*◌, length, slice_get, slice_index, slice_range};
    ghost use Rattle.link_types.specs.Links.{IsKnownLink, number_of};
    ghost use Rattle.pcap_reader.specs.File.{capture_file};
    ghost use Rattle.pcap_reader.specs.Records.{IsOnlyCut, parts_of, rest_of, damage_of, records_of, most_captured};
    ghost use Rattle.pcap_reader.specs.Index.{IsIndexOf};
    ghost use Rattle.pcap_reader.specs.Views.{file_of, part_of, record_read};

    /// Reads the file header of a classic capture, 24 bytes. Its magic number is one of four, its version is 2.4, and
    /// its link type is the whole last field, so that one with a nonzero upper half is unknown.
    ///
    /// `NotCapture`: exactly where the bytes don't begin with such a header. `LinkUnknown`: exactly where they do and
    /// the link type is none of 1, 101 and 113.
    pub fn open(bytes: &'a [u8]) -> Result<Capture<'a>, CaptureError>
        ensures capture { IfOk result (λ c. capture_file bytes.now ≡ Some (file_of c)) }
        ensures bytes { IfOk result (λ c. (file_of c).bytes ≡ bytes.now) }
        ensures known { IfOk result (λ c. IsKnownLink (file_of c).link) }
        ensures not_capture { (result ≡ Err CaptureError.NotCapture) ↔ (capture_file bytes.now ≡ None) }
        ensures link_unknown { (n : ℕ) → (result ≡ Err (CaptureError.LinkUnknown n))
            ↔ IsSomeAnd (capture_file bytes.now) (λ file. (file.link ≡ n) × ¬ IsKnownLink n) }
    {
        let head = Head::of(bytes)?;
        let start = FILE_HEADER;
        Ok(Capture { bytes, start, head })
    }

    /// A part of a capture: bytes whose records begin at the first of them, and are read as the file header says.
    pub fn part(head: Head, bytes: &'a [u8]) -> Capture<'a>
        ensures part { file_of result ≡ part_of head bytes.now }
        ensures known { IsKnownLink (file_of result).link }
    {
        let start = 0;
        Capture { bytes, start, head }
    }

    /// Where its records begin, and how many bytes are left behind them, in one pass from record to record. The index
    /// keeps four bytes a record. The capture has fewer than 2^32 bytes.
    ///
    /// `Damaged`: exactly where a record header that is reached claims more than 262,144 captured bytes, unless memory
    /// ran out first; it has the offset of the first such header. `NoMemory`: out of memory.
    pub fn index(&self, alloc: Global) -> Result<RecordIndex, IndexError>
        requires { length (file_of self.now).bytes < 2 ^ 32 }
        ensures cut { let file = file_of self.now in IsOnlyCut file (parts_of file) (rest_of file) }
        ensures index { IfOk result (λ index. IsIndexOf index (file_of self.now)) }
        ensures few { IfOk result (λ index. (file_of self.now).start + 16 * length index.offsets + index.tail
            ≤ length (file_of self.now).bytes) }
        ensures undamaged { OnOk result (damage_of (file_of self.now) ≡ None) }
        ensures damaged { (at : ℕ) → result ≡ Err (IndexError.Damaged at) → damage_of (file_of self.now) ≡ Some at }
    {
        self.index_into(RecordIndex::none(alloc))
    }

    /// The same, reusing the memory of an index that is no longer needed. More is taken only where that is too little.
    /// No clause says how much room there is.
    pub fn index_into(&self, index: RecordIndex) -> Result<RecordIndex, IndexError>
        requires { length (file_of self.now).bytes < 2 ^ 32 }

        // The records are the one way to cut the file into a file header, records and a rest.
        ensures cut { let file = file_of self.now in IsOnlyCut file (parts_of file) (rest_of file) }

        // The index has the place of each record, and the length of the rest.
        ensures index { IfOk result (λ index. IsIndexOf index (file_of self.now)) }
        ensures few { IfOk result (λ index. (file_of self.now).start + 16 * length index.offsets + index.tail
            ≤ length (file_of self.now).bytes) }

        // Damage is the first record header that claims too much.
        ensures undamaged { OnOk result (damage_of (file_of self.now) ≡ None) }
        ensures damaged { (at : ℕ) → result ≡ Err (IndexError.Damaged at) → damage_of (file_of self.now) ≡ Some at }
    {
        let mut offsets = index.into_offsets();
        let mut at = self.start;
        'records: loop {
            match front_at(self.head.order, self.bytes, at) {
                Front::Record(end) => {
                    if offsets.push(at as u32).is_err() {
                        return Err(IndexError::NoMemory);
                    }
                    at = end;
                }
                Front::Damage => return Err(IndexError::Damaged(at as u64)),
                Front::Rest => {
                    let tail = (self.bytes.len() - at) as u64;
                    return Ok(RecordIndex::new(offsets, tail));
                }
            }
        }
    }

    /// The `n`-th record, counted from 0, by its place in the index.
    #[inline]
    pub fn record(&self, index: &RecordIndex, n: u64) -> Record<'a>
        requires index { IsIndexOf index.now (file_of self.now) }
        requires number { n < length index.now.offsets }
        ensures value { slice_get (records_of (file_of self.now)) n ≡ Some (record_read result) }
        ensures place { let from = slice_index index.now.offsets n + 16 in
            result.captured.now ≡ slice_range (file_of self.now).bytes from (from + length result.captured.now) }
        ensures within { slice_index index.now.offsets n + 16 + length result.captured.now
            ≤ length (file_of self.now).bytes }
        ensures small { length result.captured.now ≤ most_captured }
    {
        record_at(self.head.order, self.bytes, index.offset(n))
    }

    /// The link type of all its frames.
    #[inline]
    pub fn link(&self) -> LinkType
        ensures { number_of result ≡ (file_of self.now).link }
    {
        self.head.link
    }

    /// Whether fractions of a second are nanoseconds, and not microseconds.
    #[inline]
    pub fn nanos(&self) -> bool
        ensures { result ≡ (file_of self.now).nanos }
    {
        self.head.nanos
    }
}
