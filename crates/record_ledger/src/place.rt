//! Where a record lies in a store.

/// Where a record lies in a store, with what places are sorted by before their records are looked at.
#[derive(Clone, Copy, Debug)]
pub struct Place {
    /// The time of the record's last packet, in milliseconds since 1970-01-01T00:00:00Z.
    pub last: u64,
    /// The leading number of the record's key.
    pub leading: u64,
    /// The number of the piece, from 0, or that of the bucket behind those of the pieces.
    pub bucket: usize,
    /// The place in the piece or the bucket, from 0.
    pub at: usize,
}

/// What room for places is filled with where none stands there yet.
pub(crate) fn no_place() -> Place {
    Place {
        last: 0,
        leading: 0,
        bucket: 0,
        at: 0,
    }
}
