//! What stands at a place of a file: a record, a damaged header, or less than a whole record.

ghost use Rattle.std.specs.Prelude.{◌≤◌, length};
ghost use Rattle.pcap_reader.specs.Front.{IsFront};

use octets::Endianness;

/// The length of a record's header.
pub(crate) const RECORD_HEADER: usize = 16;

/// The most octets that a record may have captured.
pub const MOST_CAPTURED: u32 = 262_144;

/// What stands at some place of a file.
#[derive(Clone, Copy)]
pub(crate) enum Front {
    /// A whole record, which ends at this place.
    Record(usize),
    /// The header of a record that claims more than a record may have captured.
    Damage,
    /// Less than a whole record.
    Rest,
}

/// What stands at a place.
#[tactic(auto, unfolding(crate::specs::Records::begins_with_record, crate::specs::Records::begins_with_damage))]
#[inline]
pub(crate) fn front_at(order: Endianness, bytes: &[u8], at: usize) -> Front
    requires { at ≤ length bytes.now }
    ensures { IsFront order bytes.now at result }
{
    let left = &bytes[at..];
    if left.len() < RECORD_HEADER {
        return Front::Rest;
    }
    let claimed = order.u32_at(left, 8);
    if claimed > MOST_CAPTURED {
        return Front::Damage;
    }
    let len = RECORD_HEADER + claimed as usize;
    if left.len() < len {
        return Front::Rest;
    }
    Front::Record(at + len)
}
