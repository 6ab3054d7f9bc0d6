//! The octets of a capture.

ghost use Rattle.std.specs.Prelude.{◌≡◌, ◌+◌, ◌*◌, ◌<◌, ◌≤◌, ◌++◌, length, IfOk};
ghost use Rattle.std.specs.Vec.{vec_capacity};
ghost use Rattle.capture_maker.specs.Made.{capture_of, file_header, ip_header, packet_record, record_header};
ghost use Rattle.capture_maker.specs.Made.{udp_header};

use crate::draws::Draws;
use no_memory::NoMemory;
use octets::{Endianness, append_u16, append_u32};
use std::alloc::Global;

/// Octets of the file header.
const FILE_HEADER: usize = 24;
/// Octets of a record.
const RECORD: usize = 44;
/// The time of the first packet, in seconds since 1970.
const FIRST_SECOND: u32 = 1000;

/// Appends the file header.
fn append_file_header(bytes: &mut Vec<u8>)
    requires { length bytes.old.items + 24 ≤ vec_capacity bytes.old }
    ensures items { bytes.new.items ≡ bytes.old.items ++ file_header }
    ensures longer { length bytes.new.items ≡ length bytes.old.items + 24 }
    ensures room { vec_capacity bytes.old ≤ vec_capacity bytes.new }
{
    Endianness::Little.append_u32(bytes, 0xA1B2_C3D4);
    Endianness::Little.append_u16(bytes, 2);
    Endianness::Little.append_u16(bytes, 4);
    Endianness::Little.append_u32(bytes, 0);
    Endianness::Little.append_u32(bytes, 0);
    Endianness::Little.append_u32(bytes, 65_535);
    Endianness::Little.append_u32(bytes, 101);
}

/// Appends the record header of a packet.
#[inline]
fn append_record_header(bytes: &mut Vec<u8>, number: u32, payload: u16)
    requires number { number < 1000000 }
    requires payload { payload < 1000 }
    requires room { length bytes.old.items + 16 ≤ vec_capacity bytes.old }
    ensures items { bytes.new.items ≡ bytes.old.items ++ record_header number payload }
    ensures longer { length bytes.new.items ≡ length bytes.old.items + 16 }
    ensures room { vec_capacity bytes.old ≤ vec_capacity bytes.new }
{
    Endianness::Little.append_u32(bytes, FIRST_SECOND + number / 1000);
    Endianness::Little.append_u32(bytes, number % 1000 * 1000);
    Endianness::Little.append_u32(bytes, 28);
    Endianness::Little.append_u32(bytes, 28 + payload as u32);
}

/// Appends the IPv4 header of a packet.
#[inline]
fn append_ip_header(bytes: &mut Vec<u8>, payload: u16, key: u16)
    requires payload { payload < 1000 }
    requires key { key < 4096 }
    requires room { length bytes.old.items + 20 ≤ vec_capacity bytes.old }
    ensures items { bytes.new.items ≡ bytes.old.items ++ ip_header payload key }
    ensures longer { length bytes.new.items ≡ length bytes.old.items + 20 }
    ensures room { vec_capacity bytes.old ≤ vec_capacity bytes.new }
{
    append_u16(bytes, 0x4500);
    append_u16(bytes, 28 + payload);
    append_u32(bytes, 0);
    append_u16(bytes, 0x4011);
    append_u16(bytes, 0);
    append_u32(bytes, 0x0A00_0000 + key as u32);
    append_u32(bytes, 0xC000_0201);
}

/// Appends the UDP header of a packet.
#[inline]
fn append_udp_header(bytes: &mut Vec<u8>, payload: u16, key: u16)
    requires payload { payload < 1000 }
    requires key { key < 4096 }
    requires room { length bytes.old.items + 8 ≤ vec_capacity bytes.old }
    ensures items { bytes.new.items ≡ bytes.old.items ++ udp_header payload key }
    ensures longer { length bytes.new.items ≡ length bytes.old.items + 8 }
    ensures room { vec_capacity bytes.old ≤ vec_capacity bytes.new }
{
    append_u16(bytes, 1024 + key);
    append_u16(bytes, 53);
    append_u16(bytes, 8 + payload);
    append_u16(bytes, 0);
}

/// Appends the record of a packet.
fn append_packet(bytes: &mut Vec<u8>, number: u32, payload: u16, key: u16)
    requires number { number < 1000000 }
    requires payload { payload < 1000 }
    requires key { key < 4096 }
    requires room { length bytes.old.items + 44 ≤ vec_capacity bytes.old }
    ensures items { bytes.new.items ≡ bytes.old.items ++ packet_record number payload key }
    ensures longer { length bytes.new.items ≡ length bytes.old.items + 44 }
    ensures room { vec_capacity bytes.old ≤ vec_capacity bytes.new }
{
    append_record_header(bytes, number, payload);
    append_ip_header(bytes, payload, key);
    append_udp_header(bytes, payload, key);
}

/// A classic capture of `packets` packets, at most 1,000,000, made from a seed. Their keys are drawn from `keys` keys,
/// 1 to 4096. It has 24 octets, and 44 more for each packet.
///
/// `NoMemory` where there is no memory for it.
pub fn capture(alloc: Global, seed: u64, packets: u32, keys: u16) -> Result<Vec<u8>, NoMemory>
    requires packets { packets ≤ 1000000 }
    requires keys { (1 ≤ keys) × (keys ≤ 4096) }
    ensures octets { IfOk result (λ bytes. bytes.items ≡ capture_of seed packets keys) }
    ensures size { IfOk result (λ bytes. length bytes.items ≡ 24 + 44 * packets) }
{
    let mut bytes = Vec::with_capacity(alloc, FILE_HEADER + RECORD * packets as usize)?;
    append_file_header(&mut bytes);
    let mut draws = Draws { state: seed };
    for number in 0..packets {
        let payload = (draws.draw() % 1000) as u16;
        let key = (draws.draw() % keys as u64) as u16;
        append_packet(&mut bytes, number, payload, key);
    }
    Ok(bytes)
}
