//! Moving: fragments as records into buckets, by their keys.

ghost use Rattle.std.specs.Prelude.{◌≡◌, ℕ, List, [], ◌≤◌, ◌<◌, ◌+◌, ◌∷◌, ◌++◌, IfOk, OnOk, length, IsPermutation};
ghost use Rattle.std.specs.Thread.{IsSync};
ghost use Rattle.std.specs.List.{AllZip};
ghost use Rattle.flow_parts.specs.declared.fragment.Fragment.{Fragment};
ghost use Rattle.flow_parts.specs.Pieces.{items_of};
ghost use Rattle.record_ledger.specs.Lawful.{parts_of};
ghost use Rattle.flow_key.specs.Key.{set_number};
ghost use Rattle.record_ledger.specs.Buckets.{records_of, AreByKey, AreMovedTo, ArePartPlaces, IsPartPlaceOf, LieFrom};
ghost use Rattle.record_ledger.specs.Buckets.{places_of};

use crate::place::Place;
use crate::record::FlowRecord;
use flow_parts::Fragment;
use no_memory::NoMemory;
use std::alloc::Global;
use std::thread::{Threads, join_mut};

/// About how many fragments a bucket is made for.
const BUCKET: usize = 512;

/// The most buckets that are made.
const MOST_BUCKETS: usize = 2048;

/// How many fragments of a piece are moved before their room in it is let go.
const LET_GO: usize = 4096;

/// How many records a bucket has room for beside its share, and which part of its share besides that: keys don't spread
/// evenly.
const SPARE: usize = 64;

const SPARE_PART: usize = 8;

/// Empty buckets, each with room for its share of so many fragments, and somewhat more. Only what is filled takes memory.
pub fn buckets_for(alloc: Global, fragments: usize) -> Result<Vec<Vec<FlowRecord>>, NoMemory>
    ensures some { IfOk result (λ buckets. 1 ≤ length buckets.items) }
    ensures none { IfOk result (λ buckets. records_of buckets.items ≡ []) }
{
    let count = bucket_count(fragments);
    empty_buckets(alloc, count, bucket_room(fragments, count))
}

/// For how many records each of so many buckets has room, where fragments are shared out among them.
fn bucket_room(fragments: usize, count: usize) -> usize
    requires { 1 ≤ count }
{
    let share = fragments / count;
    share
        .saturating_add(share / SPARE_PART)
        .saturating_add(SPARE)
}

/// How many buckets are made for so many fragments: a power of two, about one for each 512 of them, at most 2,048.
fn bucket_count(fragments: usize) -> usize
    ensures { 1 ≤ result }
{
    (fragments / BUCKET)
        .clamp(1, MOST_BUCKETS)
        .next_power_of_two()
}

/// So many empty buckets, each with room for so many records.
fn empty_buckets(alloc: Global, count: usize, room: usize) -> Result<Vec<Vec<FlowRecord>>, NoMemory>
    ensures many { IfOk result (λ buckets. length buckets.items ≡ count) }
    ensures none { IfOk result (λ buckets. records_of buckets.items ≡ []) }
{
    let mut buckets = Vec::with_capacity(alloc, count)?;
    for _made in 0..count {
        buckets.push(Vec::with_capacity(alloc, room)?)?;
    }
    Ok(buckets)
}

/// Moves all fragments of some pieces to buckets, which have room for so many, while the room of the pieces is let go: so
/// hardly more than the records is held at any time.
pub fn move_all(
    alloc: Global,
    pieces: Vec<Vec<Fragment>>,
    fragments: usize,
) -> Result<Vec<Vec<FlowRecord>>, NoMemory>
    ensures whole { IfOk result (λ buckets. IsPermutation (items_of pieces.items)
        (parts_of (records_of buckets.items))) }
    ensures by_key { IfOk result (λ buckets. AreByKey buckets.items) }
{
    let mut pieces = pieces;
    let mut buckets = buckets_for(alloc, fragments)?;
    while let Some(piece) = pieces.pop() {
        move_piece(piece, &mut buckets)?;
    }
    Ok(buckets)
}

/// Moves the fragments of a piece, the last ones first, 4,096 at a time, whose room is then let go.
fn move_piece(piece: Vec<Fragment>, buckets: &mut [Vec<FlowRecord>]) -> Result<(), NoMemory>
    requires { 1 ≤ length buckets.old }
    ensures many { length buckets.new ≡ length buckets.old }
    ensures whole { OnOk result (IsPermutation (piece.items ++ parts_of (records_of buckets.old))
        (parts_of (records_of buckets.new))) }
    ensures by_key { OnOk result (AreByKey buckets.old → AreByKey buckets.new) }
{
    let mut piece = piece;
    while !piece.is_empty() {
        let left = (piece.len() - 1) / LET_GO * LET_GO;
        move_parts(&piece[left..], buckets)?;
        piece.truncate(left);
        piece.shrink_to_fit();
    }
    Ok(())
}

/// Moves fragments.
fn move_parts(parts: &[Fragment], buckets: &mut [Vec<FlowRecord>]) -> Result<(), NoMemory>
    requires { 1 ≤ length buckets.old }
    ensures many { length buckets.new ≡ length buckets.old }
    ensures whole { OnOk result (IsPermutation (parts.now ++ parts_of (records_of buckets.old))
        (parts_of (records_of buckets.new))) }
    ensures by_key { OnOk result (AreByKey buckets.old → AreByKey buckets.new) }
{
    for part in parts {
        move_part(part, buckets)?;
    }
    Ok(())
}

/// Moves the fragments at the places of some lists, by at most `threads` threads, each to some of the buckets.
pub fn move_dealt<R: Threads + Sync>(
    rt: &R,
    pieces: &[Vec<Fragment>],
    moved: &[Vec<Place>],
    buckets: &mut [Vec<FlowRecord>],
    threads: usize,
) -> Result<(), NoMemory>
    requires some { 1 ≤ length buckets.old }
    requires places { ArePartPlaces pieces.now (places_of moved.now) }
    ensures many { length buckets.new ≡ length buckets.old }
    ensures whole { OnOk result ((parts : List Fragment)
        → AllZip (IsPartPlaceOf pieces.now) parts (places_of moved.now)
        → IsPermutation (parts ++ parts_of (records_of buckets.old)) (parts_of (records_of buckets.new))) }
    ensures by_key { OnOk result (AreByKey buckets.old → AreByKey buckets.new) }
{
    let count = buckets.len();
    if threads < 2 {
        return move_to(pieces, moved, buckets, 0, count);
    }
    move_shares(rt, pieces, moved, buckets, 0, count, threads)
}

/// Moves the fragments at the places of some lists that belong to buckets from the one numbered `first` on, of `count` in
/// all, by a thread for each of so many shares of these buckets, or for each of them, where they are fewer.
#[cycle(moves)]
fn move_shares<R: Threads + Sync>(
    rt: &R,
    pieces: &[Vec<Fragment>],
    moved: &[Vec<Place>],
    buckets: &mut [Vec<FlowRecord>],
    first: usize,
    count: usize,
    shares: usize,
) -> Result<(), NoMemory>
    requires within { first + length buckets.old ≤ count }
    requires some { 1 ≤ count }
    requires places { ArePartPlaces pieces.now (places_of moved.now) }
    ensures many { length buckets.new ≡ length buckets.old }
    ensures moved { OnOk result (AreMovedTo pieces.now (places_of moved.now) count first buckets.old buckets.new) }
{
    if buckets.is_empty() {
        return Ok(());
    }
    let share = share_of(buckets.len(), shares);
    let (low, high) = buckets.split_at_mut(share);
    move_both(rt, pieces, moved, low, high, first, count, shares)
}

/// How many of so many buckets are one share, where there are so many shares: at least one, and all where there is one
/// share.
fn share_of(buckets: usize, shares: usize) -> usize
    requires { 1 ≤ buckets }
    ensures some { 1 ≤ result }
    ensures inside { result ≤ buckets }
{
    (buckets / shares.max(1)).max(1)
}

/// Moves fragments to the buckets of one share in a new thread, and at once to those behind them.
#[cycle(moves)]
fn move_both<R: Threads + Sync>(
    rt: &R,
    pieces: &[Vec<Fragment>],
    moved: &[Vec<Place>],
    low: &mut [Vec<FlowRecord>],
    high: &mut [Vec<FlowRecord>],
    first: usize,
    count: usize,
    shares: usize,
) -> Result<(), NoMemory>
    requires within { first + length low.old + length high.old ≤ count }
    requires some { 1 ≤ count }
    requires places { ArePartPlaces pieces.now (places_of moved.now) }
    ensures low_many { length low.new ≡ length low.old }
    ensures high_many { length high.new ≡ length high.old }
    ensures low { OnOk result (AreMovedTo pieces.now (places_of moved.now) count first low.old low.new) }
    ensures high { OnOk result (AreMovedTo pieces.now (places_of moved.now) count (first + length low.old) high.old
        high.new) }
{
    let rest = shares.saturating_sub(1);
    let second = first + low.len();
    let mut left = || -> Result<(), NoMemory>
        requires within { first + length low.now ≤ count }
        requires some { 1 ≤ count }
        requires places { ArePartPlaces pieces.now (places_of moved.now) }
        ensures many { length low.exit.now ≡ length low.entry.now }
        ensures moved { OnOk result (AreMovedTo pieces.entry.now (places_of moved.entry.now) count first low.entry.now
            low.exit.now) }
    { move_to(pieces, moved, low, first, count) };
    let mut right = || -> Result<(), NoMemory>
        requires crosses { IsSync R.row }
        requires within { second + length high.now ≤ count }
        requires some { 1 ≤ count }
        requires places { ArePartPlaces pieces.now (places_of moved.now) }
        ensures many { length high.exit.now ≡ length high.entry.now }
        ensures moved { OnOk result (AreMovedTo pieces.entry.now (places_of moved.entry.now) count second high.entry.now
            high.exit.now) }
    { move_shares(rt, pieces, moved, high, second, count, rest) };
    let (one, other) = join_mut(rt, &mut left, &mut right);
    one?;
    other
}

/// Moves the fragments at the places of some lists that belong to these buckets, which begin with the one numbered
/// `first`, of `count` in all.
fn move_to(
    pieces: &[Vec<Fragment>],
    moved: &[Vec<Place>],
    buckets: &mut [Vec<FlowRecord>],
    first: usize,
    count: usize,
) -> Result<(), NoMemory>
    requires within { first + length buckets.old ≤ count }
    requires some { 1 ≤ count }
    requires places { ArePartPlaces pieces.now (places_of moved.now) }
    ensures many { length buckets.new ≡ length buckets.old }
    ensures moved { OnOk result (AreMovedTo pieces.now (places_of moved.now) count first buckets.old buckets.new) }
{
    for places in moved {
        move_these(pieces, places, buckets, first, count)?;
    }
    Ok(())
}

/// Moves the fragments at some places that belong to these buckets, which begin with the one numbered `first`, of `count`
/// in all.
fn move_these(
    pieces: &[Vec<Fragment>],
    places: &[Place],
    buckets: &mut [Vec<FlowRecord>],
    first: usize,
    count: usize,
) -> Result<(), NoMemory>
    requires within { first + length buckets.old ≤ count }
    requires some { 1 ≤ count }
    requires places { ArePartPlaces pieces.now places.now }
    ensures many { length buckets.new ≡ length buckets.old }
    ensures moved { OnOk result (AreMovedTo pieces.now places.now count first buckets.old buckets.new) }
{
    for place in places {
        let part = &pieces[place.bucket][place.at];
        let bucket = part.key.set_of(count as u64) as usize;
        if first <= bucket && bucket - first < buckets.len() {
            put_part(part, buckets, bucket - first)?;
        }
    }
    Ok(())
}

/// Moves a fragment to the bucket of its key.
fn move_part(part: &Fragment, buckets: &mut [Vec<FlowRecord>]) -> Result<(), NoMemory>
    requires { 1 ≤ length buckets.old }
    ensures many { length buckets.new ≡ length buckets.old }
    ensures whole { OnOk result (IsPermutation (part.now ∷ parts_of (records_of buckets.old))
        (parts_of (records_of buckets.new))) }
    ensures by_key { OnOk result (AreByKey buckets.old → AreByKey buckets.new) }
{
    let bucket = part.key.set_of(buckets.len() as u64) as usize;
    put_part(part, buckets, bucket)
}

/// Puts a fragment into the bucket at a place, as a record with no reason yet.
fn put_part(part: &Fragment, buckets: &mut [Vec<FlowRecord>], place: usize) -> Result<(), NoMemory>
    requires { place < length buckets.old }
    ensures many { length buckets.new ≡ length buckets.old }
    ensures whole { OnOk result (IsPermutation (part.now ∷ parts_of (records_of buckets.old))
        (parts_of (records_of buckets.new))) }
    ensures by_key { OnOk result ((count first : ℕ) → set_number part.now.key count ≡ first + place
        → LieFrom count first buckets.old → LieFrom count first buckets.new) }
{
    buckets[place].push(FlowRecord {
        part: *part,
        reason: 0,
    })?;
    Ok(())
}
