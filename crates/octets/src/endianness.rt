//! Numbers in either order of octets.

ghost use Rattle.std.specs.Prelude.{◌≡◌, ◌+◌, ◌++◌, ◌≤◌, length};
ghost use Rattle.std.specs.Vec.{vec_capacity};

use crate::buffer::append;
use byteorder::{BigEndian, ByteOrder, LittleEndian};

/// The order in which the octets of a number stand.
#[derive(Clone, Copy, Debug, PartialEq, Eq)]
pub enum Endianness {
    /// The least significant octet first.
    Little,
    /// The most significant octet first, as in network order.
    Big,
}

impl Endianness {
    ghost use Rattle.octets.specs.Numbers.{number, ordered_number_at, ordered_octets};

    /// The number in the two octets from `place` on, in this order of octets. All of them must be there.
    #[tactic(auto, unfolding(crate::specs::Numbers::number))]
    #[inline]
    pub fn u16_at(self, octets: &[u8], place: usize) -> u16
        requires { place + 2 ≤ length octets.now }
        ensures { result ≡ ordered_number_at self place 2 octets.now }
    {
        match self {
            Endianness::Little => LittleEndian::read_u16(&octets[place..]),
            Endianness::Big => BigEndian::read_u16(&octets[place..]),
        }
    }

    /// The number in the four octets from `place` on, in this order of octets. All of them must be there.
    #[tactic(auto, unfolding(crate::specs::Numbers::number))]
    #[inline]
    pub fn u32_at(self, octets: &[u8], place: usize) -> u32
        requires { place + 4 ≤ length octets.now }
        ensures { result ≡ ordered_number_at self place 4 octets.now }
    {
        match self {
            Endianness::Little => LittleEndian::read_u32(&octets[place..]),
            Endianness::Big => BigEndian::read_u32(&octets[place..]),
        }
    }

    /// The number in the eight octets from `place` on, in this order of octets. All of them must be there.
    #[tactic(auto, unfolding(crate::specs::Numbers::number))]
    #[inline]
    pub fn u64_at(self, octets: &[u8], place: usize) -> u64
        requires { place + 8 ≤ length octets.now }
        ensures { result ≡ ordered_number_at self place 8 octets.now }
    {
        match self {
            Endianness::Little => LittleEndian::read_u64(&octets[place..]),
            Endianness::Big => BigEndian::read_u64(&octets[place..]),
        }
    }

    /// Appends a number of two octets, in this order of octets, to a buffer that has room for them.
    #[tactic(auto, unfolding(crate::specs::Numbers::ordered_octets))]
    #[inline]
    pub fn append_u16(self, buffer: &mut Vec<u8>, value: u16)
        requires { length buffer.old.items + 2 ≤ vec_capacity buffer.old }
        ensures items { buffer.new.items ≡ buffer.old.items ++ ordered_octets self 2 value }
        ensures longer { length buffer.new.items ≡ length buffer.old.items + 2 }
        ensures room { vec_capacity buffer.old ≤ vec_capacity buffer.new }
    {
        let mut octets = [0u8; 2];
        match self {
            Endianness::Little => LittleEndian::write_u16(&mut octets, value),
            Endianness::Big => BigEndian::write_u16(&mut octets, value),
        }
        append(buffer, &octets);
    }

    /// Appends a number of four octets, in this order of octets, to a buffer that has room for them.
    #[tactic(auto, unfolding(crate::specs::Numbers::ordered_octets))]
    #[inline]
    pub fn append_u32(self, buffer: &mut Vec<u8>, value: u32)
        requires { length buffer.old.items + 4 ≤ vec_capacity buffer.old }
        ensures items { buffer.new.items ≡ buffer.old.items ++ ordered_octets self 4 value }
        ensures longer { length buffer.new.items ≡ length buffer.old.items + 4 }
        ensures room { vec_capacity buffer.old ≤ vec_capacity buffer.new }
    {
        let mut octets = [0u8; 4];
        match self {
            Endianness::Little => LittleEndian::write_u32(&mut octets, value),
            Endianness::Big => BigEndian::write_u32(&mut octets, value),
        }
        append(buffer, &octets);
    }
}
