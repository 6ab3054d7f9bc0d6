//! The keys that are asked for.

ghost use Rattle.std.specs.Prelude.{◌≡◌, ◌≤◌, ◌<◌, ◌+◌, length, take, OnOk, IfOk};
ghost use Rattle.pcap_reader.specs.Index.{IsIndexOf};
ghost use Rattle.pcap_reader.specs.Views.{file_of};
ghost use Rattle.packet_accept.specs.Packets.{answers_of, packets_in, packets_of};
ghost use Rattle.watch_program.specs.Answers.{keys_in, asked_keys};

use flow_key::FlowKey;
use no_memory::NoMemory;
use packet_accept::{accept, packets_law};
use pcap_reader::{Capture, RecordIndex};
use std::alloc::Global;

/// Appends the key of the record with this number, where the record is accepted.
fn append_key(
    keys: &mut Vec<FlowKey>,
    capture: &Capture<'_>,
    index: &RecordIndex,
    n: u64,
) -> Result<(), NoMemory>
    requires index { IsIndexOf index.now (file_of capture.now) }
    requires number { n < length index.now.offsets }
    requires before { keys.old.items ≡ keys_in (packets_in (take n (answers_of (file_of capture.now)))) }
    ensures keys { OnOk result (keys.new.items
        ≡ keys_in (packets_in (take (n + 1) (answers_of (file_of capture.now))))) }
    ensures few { OnOk result (length keys.new.items ≤ length keys.old.items + 1) }
{
    packets_law();
    let found = capture.record(index, n);
    if let Ok(packet) = accept(capture, &found, n) {
        keys.push(packet.key)?;
    }
    Ok(())
}

/// The keys of the first accepted packets of a capture, in file order: of `most` packets, or of all where there are
/// fewer.
///
/// `NoMemory` where there is no room for them.
pub(crate) fn keys_of(
    alloc: Global,
    capture: &Capture<'_>,
    index: &RecordIndex,
    most: usize,
) -> Result<Vec<FlowKey>, NoMemory>
    requires index { IsIndexOf index.now (file_of capture.now) }
    ensures { IfOk result (λ keys. keys.items ≡ asked_keys most (packets_of (file_of capture.now))) }
{
    packets_law();
    let mut keys = Vec::new(alloc);
    for n in 0..index.count() {
        if keys.len() == most {
            return Ok(keys);
        }
        append_key(&mut keys, capture, index, n)?;
    }
    Ok(keys)
}
