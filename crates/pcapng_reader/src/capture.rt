//! A capture: its first section header checked, its packets found and read.

ghost use Rattle.std.specs.Prelude.{◌≡◌, ◌+◌, ◌<◌, ◌≤◌, ◌^◌, ◌↔◌, ℕ, All, None, Ok, Err, IfOk, IfErr, OnOk, IsErr};
ghost use Rattle.std.specs.Prelude.{IsSome, Some, length, slice_get, slice_range, ◌++◌, ◌∷◌, [], OnErr};
ghost use Rattle.octets.specs.declared.endianness.Endianness.{Endianness};
ghost use Rattle.pcapng_reader.specs.Blocks.{file_order};
ghost use Rattle.pcap_reader.specs.Records.{most_captured};
ghost use Rattle.pcapng_reader.specs.Reading.{Found, with_block, found_in};
ghost use Rattle.pcapng_reader.specs.Views.{bytes_of};
ghost use Rattle.pcapng_reader.specs.Counting.{IsExtentOf};
ghost use Rattle.pcapng_reader.specs.Index.{HasUnits, IsPlaceIn, IsIndexOf, found_at, record_at, linked_read};

use crate::content::{Content, content_of};
use crate::front::{Front, begins_section, front_at, magic_order};
use crate::index::{Place, PngIndex};
use crate::interface::Interface;
use crate::record::{PngRecord, enhanced_record, simple_record};
use crate::tally::Extent;
use meter_io::NoMemory;
use octets::Endianness;
use std::alloc::Global;

/// The bytes do not begin with a section header of a known order of octets.
#[derive(Clone, Copy, Debug, PartialEq, Eq)]
pub struct NotPcapng;

/// Why the packets of a capture could not be found.
#[derive(Clone, Copy, Debug, PartialEq, Eq)]
pub enum PngFault {
    /// The block at this offset, counted from the beginning of the file, is malformed or bad.
    BadBlock(u64),
    /// There was no memory for the index.
    NoMemory,
}

/// A capture file in memory.
#[derive(Clone, Copy, Debug)]
pub struct PngCapture<'a> {
    bytes: &'a [u8],
}

/// Keeps one more, behind the others.
fn keep<T: Drop>(list: &mut Vec<T>, one: T) -> Result<(), NoMemory>
    ensures kept { OnOk result (list.new.items ≡ list.old.items ++ one ∷ []) }
    ensures refused { OnErr result (list.new.items ≡ list.old.items) }
{
    list.push(one)?;
    Ok(())
}

/// Takes in what one block tells, the block from `at` to `to`.
fn take_block(
    bytes: &[u8],
    at: usize,
    to: usize,
    order: Endianness,
    interfaces: &mut Vec<Interface>,
    places: &mut Vec<Place>,
) -> Result<(), PngFault>
    requires forward { at + 12 ≤ to }
    requires within { to ≤ length bytes.now }
    requires small { length bytes.now < 2 ^ 32 }
    requires units { All HasUnits interfaces.old.items }
    requires whole { All (IsPlaceIn bytes.now) places.old.items }
    ensures taken { OnOk result (with_block (found_at bytes.now interfaces.old.items places.old.items)
        (record { at = at; order = order; part = slice_range bytes.now at to })
        ≡ Ok (found_at bytes.now interfaces.new.items places.new.items)) }
    ensures bad { (n : ℕ) → result ≡ Err (PngFault.BadBlock n)
        → with_block (found_at bytes.now interfaces.old.items places.old.items)
        (record { at = at; order = order; part = slice_range bytes.now at to }) ≡ Err n }
    ensures units { All HasUnits interfaces.new.items }
    ensures whole { All (IsPlaceIn bytes.now) places.new.items }
{
    let part = &bytes[at..to];
    let Some(content) = content_of(interfaces.as_slice(), order, part) else {
        return Err(PngFault::BadBlock(at as u64));
    };
    let kept = match content {
        Content::Section => {
            interfaces.clear();
            Ok(())
        }
        Content::Described(interface) => keep(interfaces, interface),
        Content::Enhanced(interface) => keep(
            places,
            Place::Enhanced(at as u32, to as u32, order, interface),
        ),
        Content::Simple => keep(places, Place::Simple),
        Content::Other => Ok(()),
    };
    match kept {
        Ok(()) => Ok(()),
        Err(NoMemory) => Err(PngFault::NoMemory),
    }
}

impl<'a> PngCapture<'a> {
    /// Checks the beginning of the first section header. `NotPcapng` comes exactly where there are fewer than 12 bytes,
    /// or the block type or the byte-order magic is not that of a section header (section 4.1 of the draft).
    pub fn open(bytes: &'a [u8]) -> Result<PngCapture<'a>, NotPcapng>
        ensures capture { IfOk result (λ c. bytes_of c ≡ bytes.now) }
        ensures pcapng { OnOk result (IsSome (file_order bytes.now)) }
        ensures not_pcapng { IsErr result ↔ (file_order bytes.now ≡ None) }
    {
        if bytes.len() < 12 || !begins_section(bytes) || magic_order(bytes).is_none() {
            return Err(NotPcapng);
        }
        Ok(PngCapture { bytes })
    }

    /// Where its packets stand, in one pass from block to block. The index keeps 40 bytes a packet. The capture has
    /// fewer than 2^32 bytes.
    ///
    /// `BadBlock`: exactly where a block is malformed or bad, unless memory ran out first; it has the offset of the
    /// first such block. `NoMemory`: out of memory.
    pub fn index(&self, alloc: Global) -> Result<PngIndex, PngFault>
        requires { length (bytes_of self.now) < 2 ^ 32 }
        ensures index { IfOk result (λ index. IsIndexOf index (bytes_of self.now)) }
        ensures bad { (at : ℕ) → result ≡ Err (PngFault.BadBlock at) → found_in (bytes_of self.now) ≡ Err at }
    {
        match self.index_blocks(alloc) {
            Ok((index, _)) => Ok(index),
            Err(fault) => Err(fault),
        }
    }

    /// The same, and how many blocks there are and how many bytes are left behind them.
    pub(crate) fn index_blocks(&self, alloc: Global) -> Result<(PngIndex, Extent), PngFault>
        requires { length (bytes_of self.now) < 2 ^ 32 }
        ensures index { IfOk result (λ found. IsIndexOf found.0 (bytes_of self.now)) }
        ensures extent { IfOk result (λ found. IsExtentOf found.1 (bytes_of self.now)) }
        ensures bad { (at : ℕ) → result ≡ Err (PngFault.BadBlock at) → found_in (bytes_of self.now) ≡ Err at }
    {
        let bytes = self.bytes;
        let mut interfaces: Vec<Interface> = Vec::new(alloc);
        let mut places: Vec<Place> = Vec::new(alloc);
        let mut section = Endianness::Little;
        let mut at = 0;
        let mut blocks = 0;
        'blocks: loop {
            let (_, left) = bytes.split_at(at);
            match front_at(section, left) {
                Front::Tail => {
                    let tail = left.len() as u64;
                    return Ok((PngIndex::new(places), Extent { blocks, tail }));
                }
                Front::Malformed => return Err(PngFault::BadBlock(at as u64)),
                Front::Block(order, len) => {
                    let to = at + len;
                    match take_block(bytes, at, to, order, &mut interfaces, &mut places) {
                        Ok(()) => {}
                        Err(fault) => return Err(fault),
                    }
                    section = order;
                    at = to;
                    blocks += 1;
                }
            }
        }
    }

    /// The `n`-th record, counted from 0, by its place in the index.
    #[inline]
    pub fn record(&self, index: &PngIndex, n: u64) -> PngRecord<'a>
        requires index { IsIndexOf index.now (bytes_of self.now) }
        requires number { n < length index.now }
        ensures value { (found : Found) → found_in (bytes_of self.now) ≡ Ok found
            → slice_get found.records n ≡ Some (linked_read result) }
        ensures part { (from : ℕ) × (from + length result.rec.captured.now ≤ length (bytes_of self.now))
            × (result.rec.captured.now ≡ slice_range (bytes_of self.now) from (from + length result.rec.captured.now)) }
        ensures small { length result.rec.captured.now ≤ most_captured }
        ensures narrow { result.link < 2 ^ 16 }
    {
        match index.place(n) {
            Place::Enhanced(from, to, order, interface) => {
                enhanced_record(interface, *order, &self.bytes[*from as usize..*to as usize])
            }
            Place::Simple => simple_record(self.bytes),
        }
    }
}
