//! Fragments in the form that gathering takes.

ghost use Rattle.std.specs.Prelude.{◌≡◌, ◌<◌, ◌^◌, IsTrue, IfOk, sum_by};
ghost use Rattle.flow_parts.specs.declared.fragment.Fragment.{Fragment};

use flow_parts::{Fragment, PartList};
use no_memory::NoMemory;
use std::alloc::Global;

/// Whether the packets and the octets of all parts are few enough to be added up.
pub fn are_few(parts: &[Fragment]) -> bool
    ensures packets { IsTrue result → sum_by (λ (f : Fragment). f.packets) parts.now < 2 ^ 64 }
    ensures octets { IsTrue result → sum_by (λ (f : Fragment). f.octets) parts.now < 2 ^ 64 }
{
    let mut packets = 0u64;
    let mut octets = 0u64;
    for part in parts {
        match (
            packets.checked_add(part.packets),
            octets.checked_add(part.octets),
        ) {
            (Some(more), Some(longer)) => {
                packets = more;
                octets = longer;
            }
            _ => return false,
        }
    }
    true
}

/// The fragments as a list in pieces.
pub fn in_pieces(alloc: Global, parts: &[Fragment]) -> Result<PartList, NoMemory>
    ensures { IfOk result (λ list. list ≡ parts.now) }
{
    let mut list = PartList::new(alloc);
    list.add_piece(parts.to_vec(alloc)?)?;
    Ok(list)
}
