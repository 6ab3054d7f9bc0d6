//! Reading one number at a place, in network order.

ghost use Rattle.std.specs.Prelude.{◌≡◌, ◌+◌, ◌≤◌, length};
ghost use Rattle.octets.specs.Numbers.{number_at};

use byteorder::{ByteOrder, NetworkEndian};

/// The number in the two octets from `place` on, in network order. All of them must be there.
#[inline]
#[tactic(auto, unfolding(crate::specs::Numbers::number_at))]
pub fn u16_at(octets: &[u8], place: usize) -> u16
    requires { place + 2 ≤ length octets.now }
    ensures { result ≡ number_at place 2 octets.now }
{
    NetworkEndian::read_u16(&octets[place..])
}

/// The number in the four octets from `place` on, in network order. All of them must be there.
#[inline]
#[tactic(auto, unfolding(crate::specs::Numbers::number_at))]
pub fn u32_at(octets: &[u8], place: usize) -> u32
    requires { place + 4 ≤ length octets.now }
    ensures { result ≡ number_at place 4 octets.now }
{
    NetworkEndian::read_u32(&octets[place..])
}

/// The number in the sixteen octets from `place` on, in network order. All of them must be there.
#[inline]
#[tactic(auto, unfolding(crate::specs::Numbers::number_at))]
pub fn u128_at(octets: &[u8], place: usize) -> u128
    requires { place + 16 ≤ length octets.now }
    ensures { result ≡ number_at place 16 octets.now }
{
    NetworkEndian::read_u128(&octets[place..])
}

/// The number in the `size` octets from `place` on, 1 to 16 of them, in network order. All of them must be there.
#[inline]
#[tactic(auto, unfolding(crate::specs::Numbers::number_at))]
pub fn uint_at(octets: &[u8], place: usize, size: usize) -> u128
    requires low { 1 ≤ size }
    requires high { size ≤ 16 }
    requires inside { place + size ≤ length octets.now }
    ensures { result ≡ number_at place size octets.now }
{
    NetworkEndian::read_uint128(&octets[place..], size)
}
