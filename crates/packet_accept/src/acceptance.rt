//! The acceptance of a record.

ghost use Rattle.std.specs.Prelude.{◌≡◌, ◌*◌, ◌^◌, ◌<◌, ℕ, Ok, Some, IsOk, IfOk, drop};
ghost use Rattle.flow_key.specs.KeyWith.{key_with};
ghost use Rattle.packet_headers.specs.Link.{IsIpVersion, link_part};
ghost use Rattle.packet_headers.specs.Shown.{link_shown};
ghost use Rattle.pcap_reader.specs.Views.{file_of, record_read};
ghost use Rattle.packet_accept.specs.Key.{Headers, key_fields};
ghost use Rattle.packet_accept.specs.Acceptance.{accepted_packet, headers_of, time_of};
ghost use Rattle.packet_accept.specs.Shown.{headers_shown};

use crate::headers::{HeaderViews, headers_behind};
use crate::ignored::Ignored;
use crate::packet::Packet;
use flow_key::FlowKey;
use packet_headers::LinkView;
use pcap_reader::{Capture, Record};

/// The packet that a record of the capture gives, with the number `n`, or the first cause for which the record is
/// ignored, in this order:
///
/// - `BadTime`: the fraction of a second is 1,000,000 or more in microseconds, or 1,000,000,000 or more in nanoseconds.
/// - `Short`: the link part isn't whole. `NotIp`: it announces no IP packet, or holds more than two tags.
/// - `Short`: the IP header isn't whole, or an extension header goes beyond the packet's or the captured end.
///   `BadHeader`: the version isn't the one announced, the header or the total length is too small, or the packet
///   has more than 16,777,215 octets.
/// - `ShortTransport`: fewer than 14 octets of TCP, or 4 of UDP, lie in the packet and were captured.
///
/// Takes no memory, and copies no captured byte.
#[inline]
#[tactic(auto, unfolding(crate::specs::Acceptance::accepted_packet, crate::specs::Acceptance::headers_of))]
pub fn accept(capture: &Capture<'_>, rec: &Record<'_>, n: u64) -> Result<Packet, Ignored>
    ensures answer { let file = file_of capture.now in
        result ≡ accepted_packet file.link file.nanos (record_read rec.now) n }
    // Where the time and the headers have no fault there is a packet: what octets hold fits the fields of a key.
    ensures complete { let file = file_of capture.now in let read = record_read rec.now in
        (time : ℕ) (headers : Headers)
        → time_of file.nanos read.seconds read.fraction ≡ Ok time → headers_of file.link read ≡ Ok headers
        → IsOk result }
    ensures number { IfOk result (λ packet. packet.number ≡ n) }
    ensures octets { IfOk result (λ packet. packet.octets < 2 ^ 24) }
    ensures time { IfOk result (λ packet. packet.time < 2 ^ 43) }
    // In whole seconds the time has 32 bits.
    ensures seconds { IfOk result (λ packet. packet.time < 1000 * 2 ^ 32) }
{
    let time = time_of(capture.nanos(), rec.seconds, rec.fraction)?;
    let frame = LinkView::of(capture.link(), rec.captured)?;
    let headers = headers_behind(&frame, rec)?;
    Ok(packet_of(headers, time, n))
}

/// The same for a record whose link part was already read, as `frame`: it is not read again. `nanos` says whether the
/// fraction of a second is in nanoseconds.
#[inline]
#[tactic(auto, unfolding(crate::specs::Acceptance::accepted_packet))]
pub fn accept_behind(
    frame: &LinkView<'_>,
    nanos: bool,
    rec: &Record<'_>,
    n: u64,
) -> Result<Packet, Ignored>
    requires version { IsIpVersion frame.now.version }
    requires rest { frame.now.rest.now ≡ drop frame.now.offset rec.now.captured.now }
    ensures answer { (link : ℕ) → link_part link rec.now.captured.now ≡ Ok (link_shown frame.now)
        → result ≡ accepted_packet link nanos (record_read rec.now) n }
{
    let time = time_of(nanos, rec.seconds, rec.fraction)?;
    let headers = headers_behind(frame, rec)?;
    Ok(packet_of(headers, time, n))
}

/// The packet of these headers, with this time and number.
#[inline]
fn packet_of(headers: HeaderViews<'_>, time: u64, n: u64) -> Packet
    requires version { IsIpVersion headers.ip.version }
    requires narrow { headers.ip.version ≡ 4 → (headers.ip.source < 2 ^ 32) × (headers.ip.destination < 2 ^ 32) }
    ensures number { result.number ≡ n }
    ensures key { key_with (key_fields (headers_shown headers.entry)) ≡ Some result.key }
    ensures time { result.time ≡ time }
    ensures octets { result.octets ≡ headers.entry.ip.octets }
    ensures flags { result.flags ≡ headers.entry.transport.flags }
{
    Packet {
        number: n,
        key: key_of(headers),
        time,
        octets: headers.ip.octets,
        flags: headers.transport.flags,
    }
}

/// The time in whole milliseconds, of seconds and a fraction in nanoseconds or microseconds.
#[inline]
#[tactic(auto, unfolding(crate::specs::Acceptance::time_of))]
fn time_of(nanos: bool, seconds: u32, fraction: u32) -> Result<u64, Ignored>
    ensures value { result ≡ time_of nanos seconds fraction }
    ensures bounded { IfOk result (λ time. time < 1000 * 2 ^ 32) }
{
    let (second, milliseconds) = if nanos {
        (1_000_000_000, fraction / 1_000_000)
    } else {
        (1_000_000, fraction / 1_000)
    };
    if fraction >= second {
        return Err(Ignored::BadTime);
    }
    Ok(u64::from(seconds) * 1000 + u64::from(milliseconds))
}

/// The key of a packet.
#[inline]
fn key_of(headers: HeaderViews<'_>) -> FlowKey
    requires version { IsIpVersion headers.ip.version }
    requires narrow { headers.ip.version ≡ 4 → (headers.ip.source < 2 ^ 32) × (headers.ip.destination < 2 ^ 32) }
    ensures { key_with (key_fields (headers_shown headers.entry)) ≡ Some result }
{
    FlowKey {
        version: headers.ip.version,
        source: headers.ip.source,
        destination: headers.ip.destination,
        protocol: headers.ip.protocol,
        source_port: headers.transport.source_port,
        destination_port: headers.transport.destination_port,
    }
}
