//! What is kept of the records that were read.

use flow_parts::PartList;

/// What is kept of the records that were read so far: the fragments of those that fall to the share, how many packets
/// and octets these have, and the latest time of all records in milliseconds, `None` where there was no record.
#[derive(Drop)]
pub(crate) struct Taken {
    pub parts: PartList,
    pub packets: u64,
    pub octets: u64,
    pub clock: Option<u64>,
}
