//! A record of a capture.

ghost use Rattle.std.specs.Prelude.{◌≡◌, ◌+◌, ◌≤◌, drop, take, length};
ghost use Rattle.octets.specs.Numbers.{number};
ghost use Rattle.pcap_reader.specs.Records.{claimed_len};

use crate::front::RECORD_HEADER;
use octets::Endianness;

/// A packet record of a capture. Its captured bytes are a part of the file.
#[derive(Clone, Copy, Debug, PartialEq, Eq)]
pub struct Record<'a> {
    /// When the packet was captured, in seconds since the beginning of 1970.
    pub seconds: u32,
    /// The fraction of that second, in microseconds, or in nanoseconds where `Capture::nanos` says so. It may come to a
    /// second or more.
    pub fraction: u32,
    /// The length that the packet had on its link, in octets. It may be below the captured length.
    pub original: u32,
    /// The captured octets, at most 262,144, from the link header on.
    pub captured: &'a [u8],
}

/// The record at a place where a whole one stands.
#[inline]
pub(crate) fn record_at(order: Endianness, bytes: &[u8], at: usize) -> Record<'_>
    requires header { at + 16 ≤ length bytes.now }
    requires whole { at + 16 + claimed_len order (drop at bytes.now) ≤ length bytes.now }
    ensures seconds { result.seconds ≡ number order 4 (drop at bytes.now) }
    ensures fraction { result.fraction ≡ number order 4 (drop 4 (drop at bytes.now)) }
    ensures original { result.original ≡ number order 4 (drop 12 (drop at bytes.now)) }
    ensures captured { result.captured.now ≡ take (claimed_len order (drop at bytes.now)) (drop (at + 16) bytes.now) }
    ensures len { length result.captured.now ≡ claimed_len order (drop at bytes.now) }
{
    let header = &bytes[at..];
    let captured = order.u32_at(header, 8) as usize;
    let from = at + RECORD_HEADER;
    Record {
        seconds: order.u32_at(header, 0),
        fraction: order.u32_at(header, 4),
        original: order.u32_at(header, 12),
        captured: &bytes[from..from + captured],
    }
}
