//! The keys that are asked for.

ghost use Rattle.pcap_reader.specs.Index.{IsIndexOf};
ghost use Rattle.pcap_reader.specs.Views.{file_of};

use flow_key::FlowKey;
use packet_accept::accept;
use pcap_reader::{Capture, RecordIndex};
use std::alloc::Global;

/// The keys of the first accepted packets of a capture, at most `most` of them.
pub(crate) fn keys_of(
    alloc: Global,
    capture: &Capture<'_>,
    index: &RecordIndex,
    most: usize,
) -> Option<Vec<FlowKey>>
    requires { IsIndexOf index.now (file_of capture.now) }
{
    let mut keys = Vec::new(alloc);
    for number in 0..index.count() {
        if keys.len() == most {
            return Some(keys);
        }
        let found = capture.record(index, number);
        if let Ok(packet) = accept(capture, &found, number) {
            keys.push(packet.key).ok()?;
        }
    }
    Some(keys)
}
