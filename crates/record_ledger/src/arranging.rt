//! Arranging: records brought near the order of their keys, by swaps, before they are sorted.
//!
//! A record is several times as long as what tells where it belongs. So the places of a bucket's records are sorted
//! first, by short numbers; each record is then moved once or twice, and the sort that follows finds them in order.
//! That it does isn't proved here, and nothing rests on it but time: what is promised is a permutation.

ghost use Rattle.std.specs.Prelude.{◌≡◌, length, IsPermutation};

use crate::leading::leading_number;
use crate::orders::by_found;
use crate::record::FlowRecord;
use flow_key::FlowKey;
use std::cmp::Ordering;

/// The most records that are arranged. A bucket has more only where keys fall unevenly, or where very many fragments were
/// moved.
const MOST: usize = 3072;

/// Where a record lies, and the leading number of its key.
#[derive(Clone, Copy, Debug)]
struct Lead {
    leading: u64,
    at: usize,
}

/// Brings records near the order of their keys, where they are at most 3,072.
pub fn arrange(records: &mut [FlowRecord])
    ensures permutation { IsPermutation records.old records.new }
    ensures many { length records.new ≡ length records.old }
{
    if records.len() <= MOST {
        let mut targets = [0; MOST];
        find_targets(records, &mut targets);
        bring(records, &mut targets);
    }
}

/// Finds for each record the place that it has in the order of the keys.
fn find_targets(records: &[FlowRecord], targets: &mut [usize; MOST]) {
    let mut leads = [Lead { leading: 0, at: 0 }; MOST];
    let leads = take_leads(records, &mut leads);
    leads.sort_unstable_by(|one, other| by_lead(records, one, other));
    for (place, lead) in leads.iter().enumerate() {
        if let Some(target) = targets.get_mut(lead.at) {
            *target = place;
        }
    }
}

/// The records' places and leading numbers, as many as there is room for.
fn take_leads<'a>(records: &[FlowRecord], leads: &'a mut [Lead; MOST]) -> &'a mut [Lead] {
    let count = records.len().min(MOST);
    for at in 0..count {
        leads[at] = Lead {
            leading: leading_number(&records[at].part.key),
            at,
        };
    }
    &mut leads[..count]
}

/// How two records stand by key: by its leading number, and only where two tie by the keys themselves.
#[inline]
fn by_lead(records: &[FlowRecord], one: &Lead, other: &Lead) -> Ordering {
    match one.leading.cmp(&other.leading) {
        Ordering::Equal => by_found(key_at(records, one.at), key_at(records, other.at)),
        apart => apart,
    }
}

/// The key of the record at a place, where there is one.
fn key_at(records: &[FlowRecord], at: usize) -> Option<&FlowKey> {
    Some(&records.get(at)?.part.key)
}

/// Brings each record to its target, by swaps: where the record at a place belongs elsewhere, it goes there.
fn bring(records: &mut [FlowRecord], targets: &mut [usize; MOST])
    ensures permutation { IsPermutation records.old records.new }
    ensures many { length records.new ≡ length records.old }
{
    let count = records.len().min(MOST);
    let mut at = 0;
    for _ in 0..2 * MOST {
        if at >= count {
            return;
        }
        let target = targets[at];
        if target == at {
            at += 1;
        } else if target < count {
            records.swap(at, target);
            targets.swap(at, target);
        }
    }
}
