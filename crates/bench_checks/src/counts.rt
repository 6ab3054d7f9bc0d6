//! How many packets and octets fragments have.

use flow_parts::{Fragment, PartList};

/// How many packets and octets there are.
#[derive(Clone, Copy, PartialEq, Eq, Debug)]
pub(crate) struct Counts {
    pub packets: u64,
    pub octets: u64,
}

/// The counts of some fragments, added to others.
fn add_counts(parts: &[Fragment], others: Counts) -> Counts {
    let mut counts = others;
    for part in parts {
        counts.packets = counts.packets.wrapping_add(part.packets);
        counts.octets = counts.octets.wrapping_add(part.octets);
    }
    counts
}

/// The counts of all fragments of a list.
pub(crate) fn counts_of(parts: PartList) -> Option<Counts> {
    let pieces = parts.into_pieces().ok()?;
    let mut counts = Counts {
        packets: 0,
        octets: 0,
    };
    for piece in pieces.as_slice() {
        counts = add_counts(piece.as_slice(), counts);
    }
    Some(counts)
}
