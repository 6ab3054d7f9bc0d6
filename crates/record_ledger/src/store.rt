//! Fragments and records where they lie, and what is found there.

ghost use Rattle.std.specs.Prelude.{◌≡◌, Some, option_copied, option_map};
ghost use Rattle.record_ledger.specs.declared.record.FlowRecord.{FlowRecord};
ghost use Rattle.record_ledger.specs.Buckets.{IsPlace, record_at};

use crate::place::Place;
use crate::reasons::reason;
use crate::record::FlowRecord;
use flow_key::FlowKey;
use flow_parts::{Fragment, Timeouts};

/// Fragments that are records as they are, since no other has their key, in pieces; behind these, records in buckets.
///
/// A [`Place`] names a piece by its number, and a bucket by its own behind those of the pieces. Some fragments of the
/// pieces lie in buckets, too: no place names these in a piece.
#[derive(Drop)]
pub struct Store {
    pub pieces: Vec<Vec<Fragment>>,
    pub buckets: Vec<Vec<FlowRecord>>,
    /// The time-outs and the clock by which a fragment of a piece gets its reason.
    pub timeouts: Timeouts,
    pub clock: u64,
}

impl Store {
    /// The key of the record at a place, where there is one.
    pub fn key_at(&self, place: &Place) -> Option<&FlowKey>
        ensures { option_copied result ≡ option_map (λ (r : FlowRecord). r.part.key) (record_at self.now place.now) }
    {
        match self.pieces.get(place.bucket) {
            Some(piece) => Some(&piece.get(place.at)?.key),
            None => {
                let bucket = self.buckets.get(place.bucket - self.pieces.len())?;
                Some(&bucket.get(place.at)?.part.key)
            }
        }
    }

    /// The fragment of the record at a place.
    #[inline(always)]
    pub fn part_at(&self, place: &Place) -> &Fragment
        requires place { IsPlace self.now place.now }
        ensures { option_map (λ (r : FlowRecord). r.part) (record_at self.now place.now) ≡ Some result.now }
    {
        match self.pieces.get(place.bucket) {
            Some(piece) => &piece[place.at],
            None => &self.buckets[place.bucket - self.pieces.len()][place.at].part,
        }
    }

    /// The reason of the record at a place, of which this is the fragment.
    #[inline(always)]
    pub fn reason_at(&self, place: &Place, part: &Fragment) -> u8
        requires place { IsPlace self.now place.now }
        requires part { option_map (λ (r : FlowRecord). r.part) (record_at self.now place.now) ≡ Some part.now }
        ensures { option_map (λ (r : FlowRecord). r.reason) (record_at self.now place.now) ≡ Some result }
    {
        if place.bucket < self.pieces.len() {
            return reason(part, &[], &self.timeouts, self.clock);
        }
        self.buckets[place.bucket - self.pieces.len()][place.at].reason
    }
}
