//! The accepted packets of a capture, written as a classic capture of raw IP.

ghost use Rattle.std.specs.Prelude.{◌≡◌, ◌+◌, ◌<◌, ◌≤◌, ◌++◌, [], List, ℕ, length, map, take, slice_get, OnOk};
ghost use Rattle.std.specs.Prelude.{OnErr, Some, Ok, Err, IfOk, IfErr, IsOk, ◌^◌, drop};
ghost use Rattle.sink_buffer.specs.Passing.{IsPassed};
ghost use Rattle.std.specs.Io.KnownBytes.{Appends};
ghost use Rattle.std.specs.Vec.{vec_capacity};
ghost use Rattle.meter_io.specs.Causes.{HasCause};
ghost use Rattle.pcap_reader.specs.Views.{record_read};
ghost use Rattle.pcap_reader.specs.Records.{most_captured};
ghost use Rattle.pcapng_reader.specs.Index.{IsIndexOf, linked_read, records_at};
ghost use Rattle.pcapng_reader.specs.Views.{bytes_of};
ghost use Rattle.packet_headers.specs.Link.{IsIpVersion, link_part};
ghost use Rattle.packet_headers.specs.Shown.{link_shown};
ghost use Rattle.packet_accept.specs.Cause.{or_cause};
ghost use Rattle.pcapng_reader.specs.Tallied.{IsTallyOf, answer_of};
ghost use Rattle.pcapng_reader.specs.Counting.{HasRoom, Adds};
ghost use Rattle.pcapng_reader.specs.Filtered.{raw_of, record_octets, octets_of_record, capture_of, header_octets};

use crate::capture::PngCapture;
use crate::index::PngIndex;
use crate::record::PngRecord;
use crate::tally::PngTally;
use link_types::LinkType;
use meter_io::{Failed, Sink};
use octets::Endianness;
use packet_accept::{Ignored, accept_behind};
use packet_headers::LinkView;
use pcap_reader::Record;
use sink_buffer::SinkBuffer;

/// The header of a classic capture of raw IP: least significant octet first, nanoseconds, version 2.4, at most 262,144
/// captured octets a record.
const HEADER: [u8; 24] = [
    0x4d, 0x3c, 0xb2, 0xa1, 2, 0, 4, 0, 0, 0, 0, 0, 0, 0, 0, 0, 0, 0, 4, 0, 0x65, 0, 0, 0,
];

/// The octets of a record in front of the captured ones.
pub(crate) const RECORD_HEADER: usize = 16;

/// The nanoseconds of a second, from which on a fraction is no time.
const SECOND: u32 = 1_000_000_000;

/// The link part of a record's frame, or why none is read.
fn frame_of<'a>(linked: &PngRecord<'a>) -> Result<LinkView<'a>, Ignored>
    ensures part { IfOk result (λ frame. link_part linked.now.link linked.now.rec.captured.now ≡ Ok (link_shown frame)) }
    ensures version { IfOk result (λ frame. IsIpVersion frame.version) }
    ensures rest { IfOk result (λ frame. frame.rest.now ≡ drop frame.offset linked.now.rec.captured.now) }
    ensures cause { IfErr result (λ cause. or_cause (link_part linked.now.link linked.now.rec.captured.now) ≡ Err cause) }
{
    match LinkType::of(linked.link) {
        Some(link) => Ok(LinkView::of(link, linked.rec.captured)?),
        None => Err(Ignored::NotIp),
    }
}

/// The record as one of raw IP, if it is accepted, or the cause for which it is left out.
fn raw_of<'a>(linked: &PngRecord<'a>) -> Result<Record<'a>, Ignored>
    requires { length linked.now.rec.captured.now ≤ most_captured }
    ensures value { IfOk result (λ raw. Some (record_read raw) ≡ raw_of (linked_read linked.now)) }
    ensures accepted { IfOk result (λ raw. IsOk (answer_of (linked_read linked.now))) }
    ensures ignored { IfErr result (λ cause. answer_of (linked_read linked.now) ≡ Err cause) }
    ensures small { IfOk result (λ raw. length raw.captured.now ≤ most_captured) }
{
    if linked.rec.fraction >= SECOND {
        return Err(Ignored::BadTime);
    }
    let frame = frame_of(linked)?;
    accept_behind(&frame, true, &linked.rec, 0)?;
    let original = u64::from(linked.rec.original).saturating_sub(frame.offset as u64);
    Ok(Record {
        seconds: linked.rec.seconds,
        fraction: linked.rec.fraction,
        original: original as u32,
        captured: frame.rest,
    })
}

/// Replaces what `room` holds by the record header, the 16 octets in front of a record's captured ones.
fn encode_header(room: &mut Vec<u8>, rec: &Record<'_>)
    requires small { length rec.now.captured.now ≤ most_captured }
    requires room { 16 ≤ vec_capacity room.old }
    ensures items { room.new.items ≡ header_octets (record_read rec.now) }
    ensures short { length room.new.items ≡ 16 }
    ensures room { vec_capacity room.old ≤ vec_capacity room.new }
{
    room.clear();
    Endianness::Little.append_u32(room, rec.seconds);
    Endianness::Little.append_u32(room, rec.fraction);
    Endianness::Little.append_u32(room, rec.captured.len() as u32);
    Endianness::Little.append_u32(room, rec.original);
}

/// Puts a record into a buffer in front of the output.
fn put_record<K: Sink>(
    room: &mut Vec<u8>,
    out: &mut SinkBuffer,
    rec: &Record<'_>,
    output: &mut K,
) -> Result<(), Failed>
    requires small { length rec.now.captured.now ≤ most_captured }
    requires room { 16 ≤ vec_capacity room.old }
    ensures passed { OnOk result (IsPassed (K.held output.old) (K.held output.new) out.old out.new
        (record_octets (record_read rec.now))) }
    ensures cut { OnErr result ((left : List ℕ)
        × IsPassed (K.held output.old) (K.held output.new) out.old left (record_octets (record_read rec.now))) }
    ensures cause { HasCause (K.faults output.old) (K.faults output.new) result }
    ensures room { vec_capacity room.old ≤ vec_capacity room.new }
{
    encode_header(room, rec);
    match out.put(output, room.as_slice()) {
        Ok(()) => {}
        Err(Failed) => return Err(Failed),
    }
    out.put(output, rec.captured)
}

/// Puts what is written of one record into the buffer, nothing if the record isn't accepted, and counts it.
fn put_linked<K: Sink>(
    room: &mut Vec<u8>,
    out: &mut SinkBuffer,
    linked: &PngRecord<'_>,
    tally: &mut PngTally,
    output: &mut K,
) -> Result<(), Failed>
    requires small { length linked.now.rec.captured.now ≤ most_captured }
    requires narrow { linked.now.link < 2 ^ 16 }
    requires counts { HasRoom tally.old }
    requires room { 16 ≤ vec_capacity room.old }
    ensures counted { Adds tally.old tally.new linked.now.link (answer_of (linked_read linked.now)) }
    ensures passed { OnOk result (IsPassed (K.held output.old) (K.held output.new) out.old out.new
        (octets_of_record (linked_read linked.now))) }
    ensures cut { OnErr result ((left : List ℕ)
        × IsPassed (K.held output.old) (K.held output.new) out.old left (octets_of_record (linked_read linked.now))) }
    ensures cause { HasCause (K.faults output.old) (K.faults output.new) result }
    ensures room { vec_capacity room.old ≤ vec_capacity room.new }
{
    match raw_of(linked) {
        Ok(raw) => {
            tally.add_written();
            put_record(room, out, &raw, output)
        }
        Err(cause) => {
            tally.add_left_out(linked.link, cause);
            Ok(())
        }
    }
}

/// Writes the capture of the accepted packets through `out`, an empty buffer in front of the output; `room` has room
/// for a record header, and `tally` has counted no packet before.
///
/// `Failed` comes only where the output's count of faults rose; the output then took a beginning of the capture.
pub(crate) fn write_packets<K: Sink>(
    capture: &PngCapture<'_>,
    index: &PngIndex,
    room: Vec<u8>,
    out: SinkBuffer,
    tally: &mut PngTally,
    output: &mut K,
) -> Result<(), Failed>
    requires index { IsIndexOf index.now (bytes_of capture.now) }
    requires room { 16 ≤ vec_capacity room }
    requires empty { out ≡ [] }
    requires uncounted { IsTallyOf tally.old [] }
    ensures counted { OnOk result (IsTallyOf tally.new (records_at (bytes_of capture.now) index.now)) }
    ensures blocks { tally.new.blocks ≡ tally.old.blocks }
    ensures tail { tally.new.tail ≡ tally.old.tail }
    ensures whole { OnOk result
        (Appends (K.held output.old) (K.held output.new) (capture_of (records_at (bytes_of capture.now) index.now))) }
    ensures begun { OnErr result ((count : ℕ)
        × Appends (K.held output.old) (K.held output.new)
        (take count (capture_of (records_at (bytes_of capture.now) index.now)))) }
    ensures cause { HasCause (K.faults output.old) (K.faults output.new) result }
{
    let mut room = room;
    let mut out = out;
    match out.put(output, &HEADER) {
        Ok(()) => {}
        Err(Failed) => return Err(Failed),
    }
    for n in 0..index.count() {
        let linked = capture.record(index, n);
        match put_linked(&mut room, &mut out, &linked, tally, output) {
            Ok(()) => {}
            Err(Failed) => return Err(Failed),
        }
    }
    out.write_out(output)
}
