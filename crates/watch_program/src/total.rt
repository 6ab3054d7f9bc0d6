//! The total of what a cache gave.

ghost use Rattle.std.specs.Prelude.{◌≡◌, ◌<◌, ◌^◌, sum_by, IfOk};

use flow_parts::{Fragment, PartList};
use no_memory::NoMemory;

/// The packets and the octets of the fragments of a list, whose sums both fit 64 bits.
///
/// `NoMemory`: out of memory.
pub(crate) fn total_of(parts: PartList) -> Result<(u64, u64), NoMemory>
    requires packets { sum_by (λ f. f.packets) parts < 2 ^ 64 }
    requires octets { sum_by (λ f. f.octets) parts < 2 ^ 64 }
    ensures packets { IfOk result (λ total. total.0 ≡ sum_by (λ f. f.packets) parts) }
    ensures octets { IfOk result (λ total. total.1 ≡ sum_by (λ f. f.octets) parts) }
{
    let mut pieces = parts.into_pieces()?;
    let mut packets = 0;
    let mut octets = 0;
    while let Some(piece) = pieces.pop() {
        let (more, longer) = total_of_piece(piece.as_slice());
        packets += more;
        octets += longer;
    }
    Ok((packets, octets))
}

/// The packets and the octets of some fragments, whose sums both fit 64 bits.
fn total_of_piece(parts: &[Fragment]) -> (u64, u64)
    requires packets { sum_by (λ f. f.packets) parts.now < 2 ^ 64 }
    requires octets { sum_by (λ f. f.octets) parts.now < 2 ^ 64 }
    ensures packets { result.0 ≡ sum_by (λ f. f.packets) parts.now }
    ensures octets { result.1 ≡ sum_by (λ f. f.octets) parts.now }
{
    let mut packets = 0;
    let mut octets = 0;
    for part in parts {
        packets += part.packets;
        octets += part.octets;
    }
    (packets, octets)
}
