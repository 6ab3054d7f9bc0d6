//! A record of a capture, with the link type of its interface.

ghost use Rattle.std.specs.Prelude.{◌≡◌, ◌+◌, ◌<◌, ◌≤◌, ◌^◌, length, slice_range};
ghost use Rattle.pcap_reader.specs.Records.{most_captured};
ghost use Rattle.pcapng_reader.specs.Records.{enhanced_record, simple_record, captured_len};
ghost use Rattle.pcapng_reader.specs.Index.{HasUnits, IsWhole, linked_read};

use crate::interface::Interface;
use crate::time::{NO_TIME, stamp_of};
use octets::Endianness;
use pcap_reader::Record;

/// A packet's record, with the link type of its interface.
#[derive(Clone, Copy, Debug, PartialEq, Eq)]
pub struct PngRecord<'a> {
    /// The link type of the packet's interface, and 0 for a simple packet, of which nothing is read.
    pub link: u32,
    /// Time in seconds and nanoseconds, lengths, and captured octets. Without a time, or where its seconds are below 0
    /// or above 2^32 - 1, the seconds are 0 and the fraction is 2^32 - 1.
    pub rec: Record<'a>,
}

/// The record of an enhanced packet, whose block this is.
pub(crate) fn enhanced_record<'a>(
    interface: &Interface,
    order: Endianness,
    part: &'a [u8],
) -> PngRecord<'a>
    requires units { HasUnits interface.now }
    requires whole { IsWhole order part.now }
    ensures value { linked_read result ≡ enhanced_record interface.now order part.now }
    ensures captured { result.rec.captured.now ≡ slice_range part.now 28 (28 + length result.rec.captured.now) }
    ensures within { 28 + length result.rec.captured.now ≤ length part.now }
    ensures small { length result.rec.captured.now ≤ most_captured }
    ensures narrow { result.link < 2 ^ 16 }
{
    let upper = order.u32_at(part, 12) as u64;
    let lower = order.u32_at(part, 16) as u64;
    let stamp = stamp_of(interface, upper * (1 << 32) + lower);
    let captured = order.u32_at(part, 20) as usize;
    PngRecord {
        link: interface.link as u32,
        rec: Record {
            seconds: stamp.seconds,
            fraction: stamp.fraction,
            original: order.u32_at(part, 24),
            captured: &part[28..28 + captured],
        },
    }
}

/// The record of a simple packet.
pub(crate) fn simple_record(bytes: &[u8]) -> PngRecord<'_>
    ensures value { linked_read result ≡ simple_record }
    ensures empty { length result.rec.captured.now ≡ 0 }
    ensures link { result.link ≡ 0 }
{
    PngRecord {
        link: 0,
        rec: Record {
            seconds: NO_TIME.seconds,
            fraction: NO_TIME.fraction,
            original: 0,
            captured: &bytes[..0],
        },
    }
}
