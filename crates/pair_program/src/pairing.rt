//! Flow records put together with their mates.

ghost use Rattle.std.specs.Prelude.{◌≡◌, ◌+◌, ◌<◌, ◌≤◌, ◌++◌, IfOk, OnOk, length, IsPermutation, IsSorted};
ghost use Rattle.std.specs.Prelude.{slice_index_or};
ghost use Rattle.std.specs.List.Sorted.{IsStable};
ghost use Rattle.flow_key.specs.declared.key.FlowKey.{FlowKey};
ghost use Rattle.pair_program.specs.Mates.{is_same, is_reverse};
ghost use Rattle.pair_program.specs.Pairs.{by_start, ArePaired, ArePairs, members};
ghost use Rattle.pair_program.specs.Chains.{IsFirstPlace, ArePlaces, AreLinks, TakesMate, TakesPair, RisesFrom};
ghost use Rattle.pair_program.specs.Chains.{pair_list, place_of};

use crate::biflow::Biflow;
use crate::heads::Heads;
use flow_key::FlowKey;
use no_memory::NoMemory;
use record_ledger::FlowRecord;
use std::alloc::Global;
use std::cmp::Ordering;

/// The biflows of some flow records. The records are sorted by first time, last time and key; ties keep their order.
/// The first is a forward record; its reverse is the first of the others that is its mate, if there is one. A mate has
/// a key with both addresses and both ports exchanged that isn't the same key, and the gap between the spans of the two
/// records is at most `idle` milliseconds, which is up to 86,400,000. Both records are taken out, and so on with the
/// rest. So each record is the forward or the reverse one of exactly one biflow.
///
/// The records are sorted in place, and freed once they are paired.
///
/// `NoMemory` where the room for putting them in order, the places of their keys or the biflows can't be had.
pub fn pair(alloc: Global, records: Vec<FlowRecord>, idle: u64) -> Result<Vec<Biflow>, NoMemory>
    requires { idle ≤ 86400000 }
    ensures pairs { IfOk result (λ pairs. ArePairs idle records.items pairs.items) }
    ensures each_once { IfOk result (λ pairs. IsPermutation records.items (members pairs.items)) }
{
    let ordered = in_order(records)?;
    pair_ordered(alloc, ordered.as_slice(), idle)
}

/// The records in the order of first time, last time and key. Ties keep their order.
fn in_order(records: Vec<FlowRecord>) -> Result<Vec<FlowRecord>, NoMemory>
    ensures permutation { IfOk result (λ ordered. IsPermutation records.items ordered.items) }
    ensures sorted { IfOk result (λ ordered. IsSorted by_start ordered.items) }
    ensures stable { IfOk result (λ ordered. IsStable by_start records.items ordered.items) }
{
    let mut ordered = records;
    ordered.sort_by(|one, other| by_start(one, other))?;
    Ok(ordered)
}

/// Compares two records by first time, then last time, then key.
fn by_start(one: &FlowRecord, other: &FlowRecord) -> Ordering
    ensures { result ≡ by_start one.now other.now }
{
    let ends = one.part.last.cmp(&other.part.last);
    let later = ends.then(one.part.key.order(&other.part.key));
    one.part.first.cmp(&other.part.first).then(later)
}

/// The biflows of records that stand in order.
fn pair_ordered(alloc: Global, records: &[FlowRecord], idle: u64) -> Result<Vec<Biflow>, NoMemory>
    requires { IsSorted by_start records.now }
    ensures { IfOk result (λ pairs. ArePaired idle records.now pairs.items) }
{
    let (links, mut heads) = link_all(alloc, records)?;
    let mut pairs = Vec::new(alloc);
    let mut place = 0;
    while place < records.len() {
        let taken = take_pair(records, links.as_slice(), place, idle, &mut heads)?;
        add_pair(&mut pairs, taken)?;
        place += 1;
    }
    Ok(pairs)
}

/// Adds a biflow, where there is one.
fn add_pair(pairs: &mut Vec<Biflow>, taken: Option<Biflow>) -> Result<(), NoMemory>
    ensures { OnOk result (pairs.new.items ≡ pairs.old.items ++ pair_list taken) }
{
    if let Some(taken) = taken {
        pairs.push(taken)?;
    }
    Ok(())
}

/// The link of each record to the next one with its key, and the first place of each key.
fn link_all(alloc: Global, records: &[FlowRecord]) -> Result<(Vec<usize>, Heads), NoMemory>
    ensures count { IfOk result (λ made. length (made.0).items ≡ length records.now) }
    ensures links { IfOk result (λ made. AreLinks records.now (made.0).items 0) }
    ensures heads { IfOk result (λ made. (key : FlowKey) → IsFirstPlace records.now 0 key (place_of made.1 key)) }
{
    let count = records.len();
    let mut links = vec![in alloc; count; count]?;
    let mut heads = Heads::new(alloc, count);
    let mut place = count;
    while place > 0 {
        place -= 1;
        let own = records[place];
        links[place] = heads.get(&own.part.key);
        heads.set(own.part.key, place)?;
    }
    Ok((links, heads))
}

/// Takes out the record at a place and its mate, if it has one, and gives their biflow; none where the record was taken
/// already.
fn take_pair(
    records: &[FlowRecord],
    links: &[usize],
    place: usize,
    idle: u64,
    heads: &mut Heads,
) -> Result<Option<Biflow>, NoMemory>
    requires inside { place < length records.now }
    requires count { length links.now ≡ length records.now }
    requires links { AreLinks records.now links.now 0 }
    requires places { ArePlaces records.now place (place_of heads.old) }
    requires rises { RisesFrom records.now }
    ensures places { OnOk result (ArePlaces records.now (place + 1) (place_of heads.new)) }
    ensures taken { IfOk result (TakesPair idle records.now place (place_of heads.old) (place_of heads.new)) }
{
    let forward = records[place];
    if heads.get(&forward.part.key) > place {
        return Ok(None);
    }
    heads.set(forward.part.key, links[place])?;
    let reverse = take_mate(records, links, place, idle, &forward, heads)?;
    Ok(Some(Biflow { forward, reverse }))
}

/// Takes out the first mate of the record at a place, and gives it; none where the record has no mate.
fn take_mate(
    records: &[FlowRecord],
    links: &[usize],
    place: usize,
    idle: u64,
    forward: &FlowRecord,
    heads: &mut Heads,
) -> Result<Option<FlowRecord>, NoMemory>
    requires inside { place < length records.now }
    requires forward { forward.now ≡ slice_index_or records.now place forward.now }
    requires count { length links.now ≡ length records.now }
    requires links { AreLinks records.now links.now 0 }
    requires places { ArePlaces records.now (place + 1) (place_of heads.old) }
    requires rises { RisesFrom records.now }
    ensures places { OnOk result (ArePlaces records.now (place + 1) (place_of heads.new)) }
    ensures taken { IfOk result
        (TakesMate idle records.now (place + 1) forward.now (place_of heads.old) (place_of heads.new)) }
{
    let key = reverse_key(&forward.part.key);
    let there = heads.get(&key);
    if is_same(&key, &forward.part.key) {
        return Ok(None);
    }
    if there >= records.len() {
        return Ok(None);
    }
    let mate = records[there];
    if mate.part.first.saturating_sub(forward.part.last) > idle {
        return Ok(None);
    }
    heads.set(key, links[there])?;
    Ok(Some(mate))
}

/// Whether two keys are the same.
fn is_same(one: &FlowKey, other: &FlowKey) -> bool
    ensures { result ≡ is_same one.now other.now }
{
    one == other
}

/// The key with both addresses and both ports exchanged.
fn reverse_key(key: &FlowKey) -> FlowKey
    ensures { (other : FlowKey) → is_reverse key.now other ≡ is_same result other }
{
    FlowKey {
        version: key.version,
        source: key.destination,
        destination: key.source,
        protocol: key.protocol,
        source_port: key.destination_port,
        destination_port: key.source_port,
    }
}
