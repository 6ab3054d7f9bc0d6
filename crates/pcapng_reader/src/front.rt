//! What stands at a place of a file: a block, something malformed, or the tail.

ghost use Rattle.std.specs.Prelude.{◌≡◌, ◌+◌, ◌≤◌, length};
ghost use Rattle.pcapng_reader.specs.Blocks.{begins_section, magic_order, block_order, sized_front, front};
ghost use Rattle.pcapng_reader.specs.Fronts.{IsFrontOf};

use octets::Endianness;

/// The type of a section header.
const SECTION: u32 = 0x0a0d_0d0a;

/// The length of the smallest block: its type, and its length twice.
const SMALLEST: usize = 12;

/// What stands at some place of a file.
#[derive(Clone, Copy, Debug)]
pub(crate) enum Front {
    /// Less than a block.
    Tail,
    /// No block, though the octets of one are there.
    Malformed,
    /// A block in this order of octets, and its length in octets.
    Block(Endianness, usize),
}

/// Whether a section header begins here.
pub(crate) fn begins_section(bytes: &[u8]) -> bool
    requires { 12 ≤ length bytes.now }
    ensures { result ≡ begins_section bytes.now }
{
    Endianness::Big.u32_at(bytes, 0) == SECTION
}

/// The order of octets that the magic of a section header tells.
pub(crate) fn magic_order(bytes: &[u8]) -> Option<Endianness>
    requires { 12 ≤ length bytes.now }
    ensures { result ≡ magic_order bytes.now }
{
    match Endianness::Big.u32_at(bytes, 8) {
        0x1a2b_3c4d => Some(Endianness::Big),
        0x4d3c_2b1a => Some(Endianness::Little),
        _ => None,
    }
}

/// The order of octets of the block that begins here.
fn block_order(section: Endianness, bytes: &[u8]) -> Option<Endianness>
    requires { 12 ≤ length bytes.now }
    ensures { result ≡ block_order section bytes.now }
{
    if begins_section(bytes) {
        magic_order(bytes)
    } else {
        Some(section)
    }
}

/// What stands here, in this order.
#[tactic(auto, unfolding(crate::specs::Blocks::sized_front))]
fn sized_front(order: Endianness, bytes: &[u8]) -> Front
    requires { 12 ≤ length bytes.now }
    ensures value { result ≡ sized_front order bytes.now }
    ensures whole { IsFrontOf bytes.now result }
{
    let len = order.u32_at(bytes, 4) as usize;
    if len < SMALLEST || len % 4 != 0 {
        return Front::Malformed;
    }
    if bytes.len() < len {
        return Front::Tail;
    }
    if order.u32_at(bytes, len - 4) as usize == len {
        Front::Block(order, len)
    } else {
        Front::Malformed
    }
}

/// What stands here, in a section of this order.
#[tactic(auto, unfolding(crate::specs::Blocks::front))]
pub(crate) fn front_at(section: Endianness, bytes: &[u8]) -> Front
    ensures value { result ≡ front section bytes.now }
    ensures whole { IsFrontOf bytes.now result }
{
    if bytes.len() < SMALLEST {
        return Front::Tail;
    }
    match block_order(section, bytes) {
        None => Front::Malformed,
        Some(order) => sized_front(order, bytes),
    }
}
