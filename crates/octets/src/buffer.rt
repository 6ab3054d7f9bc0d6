//! Appending octets, or one number in network order, to a buffer that has room for them.

ghost use Rattle.std.specs.Prelude.{◌≡◌, ◌+◌, ◌≤◌, ◌++◌, length};
ghost use Rattle.std.specs.Vec.{vec_capacity};
ghost use Rattle.octets.specs.Numbers.{octets_of};

use byteorder::{ByteOrder, NetworkEndian};

/// Appends these octets to a buffer that has room for them.
#[inline]
pub fn append(buffer: &mut Vec<u8>, octets: &[u8])
    requires { length buffer.old.items + length octets.now ≤ vec_capacity buffer.old }
    ensures items { buffer.new.items ≡ buffer.old.items ++ octets.now }
    ensures longer { length buffer.new.items ≡ length buffer.old.items + length octets.now }
    ensures room { vec_capacity buffer.old ≤ vec_capacity buffer.new }
{
    buffer.extend_from_slice(octets).unwrap();
}

/// Appends a number of one octet to a buffer that has room for it.
#[inline]
pub fn append_u8(buffer: &mut Vec<u8>, value: u8)
    requires { length buffer.old.items + 1 ≤ vec_capacity buffer.old }
    ensures items { buffer.new.items ≡ buffer.old.items ++ octets_of 1 value }
    ensures longer { length buffer.new.items ≡ length buffer.old.items + 1 }
    ensures room { vec_capacity buffer.old ≤ vec_capacity buffer.new }
{
    append(buffer, &[value]);
}

/// Appends a number of two octets, in network order, to a buffer that has room for them.
#[inline]
pub fn append_u16(buffer: &mut Vec<u8>, value: u16)
    requires { length buffer.old.items + 2 ≤ vec_capacity buffer.old }
    ensures items { buffer.new.items ≡ buffer.old.items ++ octets_of 2 value }
    ensures longer { length buffer.new.items ≡ length buffer.old.items + 2 }
    ensures room { vec_capacity buffer.old ≤ vec_capacity buffer.new }
{
    let mut octets = [0u8; 2];
    NetworkEndian::write_u16(&mut octets, value);
    append(buffer, &octets);
}

/// Appends a number of four octets, in network order, to a buffer that has room for them.
#[inline]
pub fn append_u32(buffer: &mut Vec<u8>, value: u32)
    requires { length buffer.old.items + 4 ≤ vec_capacity buffer.old }
    ensures items { buffer.new.items ≡ buffer.old.items ++ octets_of 4 value }
    ensures longer { length buffer.new.items ≡ length buffer.old.items + 4 }
    ensures room { vec_capacity buffer.old ≤ vec_capacity buffer.new }
{
    let mut octets = [0u8; 4];
    NetworkEndian::write_u32(&mut octets, value);
    append(buffer, &octets);
}

/// Appends a number of eight octets, in network order, to a buffer that has room for them.
#[inline]
pub fn append_u64(buffer: &mut Vec<u8>, value: u64)
    requires { length buffer.old.items + 8 ≤ vec_capacity buffer.old }
    ensures items { buffer.new.items ≡ buffer.old.items ++ octets_of 8 value }
    ensures longer { length buffer.new.items ≡ length buffer.old.items + 8 }
    ensures room { vec_capacity buffer.old ≤ vec_capacity buffer.new }
{
    let mut octets = [0u8; 8];
    NetworkEndian::write_u64(&mut octets, value);
    append(buffer, &octets);
}

/// Appends a number of sixteen octets, in network order, to a buffer that has room for them.
#[inline]
pub fn append_u128(buffer: &mut Vec<u8>, value: u128)
    requires { length buffer.old.items + 16 ≤ vec_capacity buffer.old }
    ensures items { buffer.new.items ≡ buffer.old.items ++ octets_of 16 value }
    ensures longer { length buffer.new.items ≡ length buffer.old.items + 16 }
    ensures room { vec_capacity buffer.old ≤ vec_capacity buffer.new }
{
    let mut octets = [0u8; 16];
    NetworkEndian::write_u128(&mut octets, value);
    append(buffer, &octets);
}
