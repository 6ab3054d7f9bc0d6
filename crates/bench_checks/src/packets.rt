//! The packets of a capture, in memory.

ghost use Rattle.std.specs.Prelude.{◌≤◌, ◌^◌, length};

use meter_io::{Source, read_all};
use packet_accept::{Packet, accept};
use pcap_reader::{CAPTURE_LIMIT, Capture};
use std::alloc::Global;

/// The packets of a capture's bytes.
fn packets_in(alloc: Global, bytes: &[u8]) -> Option<Vec<Packet>>
    requires { length bytes.now ≤ 2 ^ 30 }
{
    let capture = Capture::open(bytes).ok()?;
    let index = capture.index(alloc).ok()?;
    let mut packets = Vec::new(alloc);
    for number in 0..index.count() {
        let rec = capture.record(&index, number);
        if let Ok(packet) = accept(&capture, &rec, number) {
            packets.push(packet).ok()?;
        }
    }
    Some(packets)
}

/// The packets of the capture of a source.
pub(crate) fn packets_of<S: Source>(alloc: Global, input: &mut S) -> Option<Vec<Packet>> {
    let bytes = read_all(alloc, input, CAPTURE_LIMIT).ok()?;
    packets_in(alloc, bytes.as_slice())
}
