//! Dealing: fragments whose keys no other fragment has stay where they lie; the others go as records into buckets, by
//! their keys. Threads find out which stay, each for the fragments of one share of time, and then move the others, each
//! to some of the buckets.
//!
//! A fragment takes 96 octets, and a thread that went through all of them for those of its share would wait for memory. So
//! the one pass in which fragments are counted also notes the number of each one's share in an octet, its mark. The thread
//! then goes through the marks, and looks at a fragment only where the mark is its share's.

ghost use Rattle.std.specs.Prelude.{◌≡◌, ℕ, List, [], ◌≤◌, ◌<◌, ◌+◌, ◌-◌, ◌∷◌, ◌++◌, Some, IfOk, OnOk, length, slice_get};
ghost use Rattle.std.specs.Prelude.{Result, slice_index_or, take};
ghost use Rattle.std.specs.Thread.{IsSync};
ghost use Rattle.no_memory.specs.declared.NoMemory.{NoMemory};
ghost use Rattle.flow_parts.specs.declared.fragment.Fragment.{Fragment};
ghost use Rattle.flow_parts.specs.Pieces.{items_of};
ghost use Rattle.record_ledger.specs.declared.place.Place.{Place};
ghost use Rattle.record_ledger.specs.declared.dealing.Dealing.{Dealing};
ghost use Rattle.record_ledger.specs.declared.dealing.Way.TheVariants.{Other};
ghost use Rattle.record_ledger.specs.Buckets.{AreDealt, AreShared, AreDealtTo, AreDealings, IsWay, Piece, leading_number};
ghost use Rattle.record_ledger.specs.Buckets.{AreMarked, CountsSlots, marks_of, places_of, share_number};
ghost use Rattle.record_ledger.specs.Buckets.{share_of};
ghost use Rattle.record_ledger.specs.Counting.{IsCounted};

use crate::leading::leading_number;
use crate::moving::{buckets_for, move_all, move_dealt};
use crate::place::Place;
use crate::record::FlowRecord;
use crate::sharing::Shares;
use crate::slots::Slots;
use flow_parts::{Fragment, PartList};
use no_memory::NoMemory;
use side_by_side::for_each_mut;
use std::alloc::Global;
use std::thread::{Threads, join};

/// Which part of all fragments is thought to be moved to buckets, where most stay.
const MOVED_PART: usize = 8;

/// How many fragments' slots are looked up together.
const RUN: usize = 16;

/// Fewer fragments than these are dealt by one thread: starting others takes longer than they save.
const FEW: usize = 16384;

/// The most shares of time: each thread goes through the marks of all fragments for those of its share.
const MOST_SHARES: usize = 16;

/// How many places a share has room for beside its part of all, and which part of that besides: times don't spread evenly.
const SPARE: usize = 64;

const SPARE_PART: usize = 4;

/// Fragments that were dealt.
#[derive(Drop)]
pub struct Dealt {
    /// All fragments, in their pieces, or none, where all were moved to buckets.
    pub pieces: Vec<Vec<Fragment>>,
    /// The places of those that stay there, a list for each share.
    pub alone: Vec<Vec<Place>>,
    /// The others, as records with no reason yet.
    pub buckets: Vec<Vec<FlowRecord>>,
    /// The shares of time.
    pub shares: Shares,
}

/// What one pass over pieces finds: how many fragments each slot has, and the number of the share of each fragment, piece
/// by piece.
#[derive(Drop)]
pub struct Counted {
    /// How many fragments each slot has.
    pub counts: Slots,
    /// The number of the share of each fragment, a list for each piece.
    pub marks: Vec<Vec<u8>>,
}

/// How the fragments of one share are dealt.
#[derive(Drop)]
pub struct Dealing {
    /// The places of those that stay there.
    pub alone: Vec<Place>,
    /// The places of those that are moved.
    pub moved: Vec<Place>,
}

/// How the fragments of all shares are dealt, in the order of these.
#[derive(Drop)]
pub struct Dealings {
    /// The places of those that stay there, a list for each share.
    pub alone: Vec<Vec<Place>>,
    /// The places of those that are moved, a list for each share.
    pub moved: Vec<Vec<Place>>,
}

/// What becomes of a fragment where those of one share are dealt.
#[derive(Clone, Copy, Debug)]
pub enum Way {
    /// It is of another share.
    Other,
    /// It stays where it lies.
    Stays,
    /// It is moved to a bucket.
    Moves,
}

/// Deals fragments: those of which no other has the key stay where they lie, and the others become records with no
/// reason yet, each in the bucket of its key.
///
/// Fragments are told apart by slots, to which their keys are spread: where a slot has one fragment alone, no other has
/// its key. Of fragments with keys of their own about one in eight shares a slot, and is dealt to a bucket all the same.
/// Where less than half would stay, by a sample of the slots, all are moved to buckets, and the room of the pieces is let
/// go meanwhile. At most `threads` threads count slots, then deal the fragments of a share of time each, and then move
/// fragments, each to some of the buckets; one does all where there are fewer than 16,384 fragments.
pub fn deal<R: Threads + Sync>(
    rt: &R,
    alloc: Global,
    parts: PartList,
    threads: usize,
) -> Result<Dealt, NoMemory>
    requires { 0 < threads }
    ensures dealt { IfOk result (λ dealt. AreDealt parts dealt.pieces.items (places_of dealt.alone.items)
        dealt.buckets.items) }
    ensures shared { IfOk result (λ dealt. AreShared dealt.shares dealt.alone.items) }
{
    let pieces = parts.into_pieces()?;
    let fragments = count_of(&pieces);
    let threads = threads_for(fragments, threads);
    let shares = Shares::of(alloc, &pieces, fragments, threads.min(MOST_SHARES))?;
    let counted = count_slots(rt, alloc, &pieces, &shares, fragments, threads)?;
    if most_stay(&counted.counts, fragments) {
        return deal_pieces(rt, alloc, pieces, &counted, shares, threads);
    }
    Ok(Dealt {
        pieces: Vec::new(alloc),
        alone: no_places(alloc, &shares)?,
        buckets: move_all(alloc, pieces, fragments)?,
        shares,
    })
}

/// An empty list of places for each share.
fn no_places(alloc: Global, shares: &Shares) -> Result<Vec<Vec<Place>>, NoMemory>
    ensures shared { IfOk result (λ lists. AreShared shares.now lists.items) }
    ensures none { IfOk result (λ lists. places_of lists.items ≡ []) }
{
    let count = shares.count();
    let mut lists = Vec::with_capacity(alloc, count)?;
    for _made in 0..count {
        lists.push(Vec::new(alloc))?;
    }
    Ok(lists)
}

/// At most how many threads deal so many fragments, where there may be `threads`.
fn threads_for(fragments: usize, threads: usize) -> usize
    requires { 0 < threads }
    ensures { 0 < result }
{
    if fragments < FEW { 1 } else { threads }
}

/// Whether about half of so many fragments or more stay where they lie: as many slots have one fragment alone.
fn most_stay(counts: &Slots, fragments: usize) -> bool {
    counts.with_one() >= fragments / 2
}

/// Deals the fragments of all pieces, where most stay.
fn deal_pieces<R: Threads + Sync>(
    rt: &R,
    alloc: Global,
    pieces: Vec<Vec<Fragment>>,
    counted: &Counted,
    shares: Shares,
    threads: usize,
) -> Result<Dealt, NoMemory>
    requires threads { 0 < threads }
    requires counts { CountsSlots (items_of pieces.items) counted.now.counts }
    requires marked { AreMarked shares pieces.items counted.now.marks.items }
    ensures dealt { IfOk result (λ dealt. AreDealt (items_of pieces.items) dealt.pieces.items
        (places_of dealt.alone.items) dealt.buckets.items) }
    ensures shared { IfOk result (λ dealt. AreShared dealt.shares dealt.alone.items) }
{
    let fragments = count_of(&pieces);
    let count = shares.count();
    let room = room_for(fragments, count);
    let Dealings { alone, moved } = deal_all(rt, alloc, &pieces, counted, count, room, threads)?;
    let mut buckets = buckets_for(alloc, fragments / MOVED_PART)?;
    move_dealt(rt, &pieces, &moved, &mut buckets, threads)?;
    Ok(Dealt {
        pieces,
        alone,
        buckets,
        shares,
    })
}

/// For how many places each of so many shares of fragments has room at first.
fn room_for(fragments: usize, shares: usize) -> usize
    requires { 1 ≤ shares }
{
    let share = fragments / shares;
    if shares == 1 {
        return share;
    }
    share
        .saturating_add(share / SPARE_PART)
        .saturating_add(SPARE)
}

/// Finds out how the fragments of so many shares, the first ones, are dealt, by at most `threads` threads, each for some of
/// the shares, which have room for so many places each at first.
fn deal_all<R: Threads + Sync>(
    rt: &R,
    alloc: Global,
    pieces: &[Vec<Fragment>],
    counted: &Counted,
    shares: usize,
    room: usize,
    threads: usize,
) -> Result<Dealings, NoMemory>
    requires threads { 0 < threads }
    requires marked { (ends : List ℕ) × AreMarked ends pieces.now counted.now.marks.items }
    ensures { IfOk result (λ dealings. (ends : List ℕ) → AreMarked ends pieces.now counted.now.marks.items
        → AreDealings counted.now.counts ends pieces.now shares dealings.alone.items dealings.moved.items) }
{
    let mut dealings = no_dealings(alloc, shares)?;
    for_each_mut(
        rt,
        &mut dealings,
        threads,
        &|share, dealing: &mut Result<Dealing, NoMemory>|
            requires { (ends : List ℕ) × AreMarked ends pieces.now counted.now.marks.items }
            ensures { IfOk dealing.new (λ dealing. (ends : List ℕ)
                → AreMarked ends pieces.entry.now counted.entry.now.marks.items
                → AreDealtTo counted.entry.now.counts pieces.entry.now
                (share_of ends share (items_of pieces.entry.now)) dealing) }
        { *dealing = deal_share(alloc, pieces, counted, share, room) },
    );
    parted(alloc, dealings)
}

/// The dealing of a share of which nothing is found out yet.
fn no_dealing(alloc: Global) -> Dealing {
    Dealing {
        alone: Vec::new(alloc),
        moved: Vec::new(alloc),
    }
}

/// Room for so many dealings. None is made yet.
fn no_dealings(alloc: Global, count: usize) -> Result<Vec<Result<Dealing, NoMemory>>, NoMemory>
    ensures { IfOk result (λ dealings. length dealings.items ≡ count) }
{
    let mut dealings = Vec::with_capacity(alloc, count)?;
    for _made in 0..count {
        dealings.push(Ok(no_dealing(alloc)))?;
    }
    Ok(dealings)
}

/// The lists of all dealings, or that there was no memory for one of them.
fn parted(alloc: Global, dealings: Vec<Result<Dealing, NoMemory>>) -> Result<Dealings, NoMemory>
    ensures { IfOk result (λ parted. (counts ends : List ℕ) (pieces : List Piece)
        → ((share : ℕ) (d : Result Dealing NoMemory) → share < length dealings.items
        → IfOk (slice_index_or dealings.items share d)
        (AreDealtTo counts pieces (share_of ends share (items_of pieces))))
        → AreDealings counts ends pieces (length dealings.items) parted.alone.items parted.moved.items) }
{
    let mut alone = Vec::with_capacity(alloc, dealings.len())?;
    let mut moved = Vec::with_capacity(alloc, dealings.len())?;
    for dealing in dealings {
        let dealing = dealing?;
        alone.push(dealing.alone)?;
        moved.push(dealing.moved)?;
    }
    Ok(Dealings { alone, moved })
}

/// Finds out how the fragments of the share with this number are dealt.
fn deal_share(
    alloc: Global,
    pieces: &[Vec<Fragment>],
    counted: &Counted,
    share: usize,
    room: usize,
) -> Result<Dealing, NoMemory>
    requires { (ends : List ℕ) × AreMarked ends pieces.now counted.now.marks.items }
    ensures { IfOk result (λ dealing. (ends : List ℕ) → AreMarked ends pieces.now counted.now.marks.items
        → AreDealtTo counted.now.counts pieces.now (share_of ends share (items_of pieces.now)) dealing) }
{
    let mut dealing = Dealing {
        alone: Vec::with_capacity(alloc, room)?,
        moved: Vec::with_capacity(alloc, room / MOVED_PART)?,
    };
    for number in 0..pieces.len() {
        deal_piece(
            &pieces[number],
            number,
            &counted.counts,
            &counted.marks[number],
            share,
            &mut dealing,
        )?;
    }
    Ok(dealing)
}

/// Finds out how those fragments of the piece with this number are dealt that are of one share. Their places go behind
/// those that were listed before.
fn deal_piece(
    piece: &[Fragment],
    number: usize,
    counts: &Slots,
    marks: &[u8],
    share: usize,
    dealing: &mut Dealing,
) -> Result<(), NoMemory>
    requires { length marks.now ≡ length piece.now }
    ensures { OnOk result ((ends : List ℕ) (pieces : List Piece) (p : Piece) (before : List Fragment)
        → marks.now ≡ marks_of ends piece.now → slice_get pieces number ≡ Some p → p.items ≡ piece.now
        → AreDealtTo counts.now pieces (share_of ends share before) dealing.old
        → AreDealtTo counts.now pieces (share_of ends share (before ++ piece.now)) dealing.new) }
{
    let mut from = 0;
    while from < piece.len() {
        from = deal_run(piece, number, from, counts, marks, share, dealing)?;
    }
    Ok(())
}

/// Finds out how those fragments of the piece with this number from a place on, at most 16 of them, are dealt that are of
/// one share, and tells the place behind these. Their slots lie far apart in memory, and are looked up together.
fn deal_run(
    piece: &[Fragment],
    number: usize,
    from: usize,
    counts: &Slots,
    marks: &[u8],
    share: usize,
    dealing: &mut Dealing,
) -> Result<usize, NoMemory>
    requires from { from < length piece.now }
    requires marks { length marks.now ≡ length piece.now }
    ensures further { IfOk result (λ end. (from < end) × (end ≤ length piece.now)) }
    ensures dealt { IfOk result (λ end. (ends : List ℕ) (pieces : List Piece) (p : Piece) (before : List Fragment)
        → marks.now ≡ marks_of ends piece.now → slice_get pieces number ≡ Some p → p.items ≡ piece.now
        → AreDealtTo counts.now pieces (share_of ends share (before ++ take from piece.now)) dealing.old
        → AreDealtTo counts.now pieces (share_of ends share (before ++ take end piece.now)) dealing.new) }
{
    let end = from.saturating_add(RUN).min(piece.len());
    let ways = ways_of(piece, from, end, counts, marks, share);
    for at in from..end {
        deal_part(&piece[at], number, at, ways[at - from], dealing)?;
    }
    Ok(end)
}

/// What becomes of each of the fragments from a place of a piece up to another, at most 16, where those of one share are
/// dealt.
#[inline]
fn ways_of(
    piece: &[Fragment],
    from: usize,
    end: usize,
    counts: &Slots,
    marks: &[u8],
    share: usize,
) -> [Way; RUN]
    requires run { (from ≤ end) × (end ≤ length piece.now) × (end ≤ from + 16) }
    requires marks { length marks.now ≡ length piece.now }
    ensures { (ends : List ℕ) → marks.now ≡ marks_of ends piece.now → (at : ℕ) (f : Fragment) → from ≤ at → at < end
        → slice_get piece.now at ≡ Some f → IsWay counts.now ends share f (slice_index_or result (at - from) Other) }
{
    let mut ways = [Way::Other; RUN];
    for at in from..end {
        ways[at - from] = way_of(&piece[at], marks[at], counts, share);
    }
    ways
}

/// What becomes of a fragment with this mark where those of one share are dealt. The fragment is looked at only where it
/// is of the share.
#[inline]
fn way_of(part: &Fragment, mark: u8, counts: &Slots, share: usize) -> Way
    ensures { (ends : List ℕ) → mark ≡ share_number ends part.now.last → IsWay counts.now ends share part.now result }
{
    if mark as usize != share {
        Way::Other
    } else if counts.has_one(part) {
        Way::Stays
    } else {
        Way::Moves
    }
}

/// Deals the fragment at a place of the piece with this number: where it is of the share, its place is added.
#[inline]
fn deal_part(
    part: &Fragment,
    number: usize,
    at: usize,
    way: Way,
    dealing: &mut Dealing,
) -> Result<(), NoMemory>
    ensures { OnOk result ((counts ends : List ℕ) (share : ℕ) (pieces : List Piece) (p : Piece) (before : List Fragment)
        → slice_get pieces number ≡ Some p → slice_get p.items at ≡ Some part.now
        → IsWay counts ends share part.now way
        → AreDealtTo counts pieces (share_of ends share before) dealing.old
        → AreDealtTo counts pieces (share_of ends share (before ++ part.now ∷ [])) dealing.new) }
{
    match way {
        Way::Other => Ok(()),
        Way::Stays => list_part(part, number, at, &mut dealing.alone),
        Way::Moves => list_part(part, number, at, &mut dealing.moved),
    }
}

/// Lists the place of a fragment.
#[inline]
fn list_part(
    part: &Fragment,
    number: usize,
    at: usize,
    places: &mut Vec<Place>,
) -> Result<(), NoMemory>
    ensures { OnOk result ((place : Place) × (places.new.items ≡ places.old.items ++ place ∷ [])
        × (place.last ≡ part.now.last) × (place.leading ≡ leading_number part.now.key)
        × (place.bucket ≡ number) × (place.at ≡ at)) }
{
    places.push(Place {
        last: part.last,
        leading: leading_number(&part.key),
        bucket: number,
        at,
    })?;
    Ok(())
}

/// Counts and marks the fragments of all pieces, where there are slots for so many, by at most `threads` threads, each with
/// counts of its own for some of the pieces, which are then added. Where one would do all, that is the calling one.
fn count_slots<R: Threads + Sync>(
    rt: &R,
    alloc: Global,
    pieces: &[Vec<Fragment>],
    shares: &Shares,
    fragments: usize,
    threads: usize,
) -> Result<Counted, NoMemory>
    requires { length shares.now < 256 }
    ensures { IfOk result (IsCounted shares.now pieces.now fragments) }
{
    if threads < 2 || pieces.len() < threads {
        count_pieces(alloc, pieces, shares, fragments)
    } else {
        count_shares(rt, alloc, pieces, shares, fragments, threads)
    }
}

/// Counts and marks the fragments of all pieces, where there are slots for so many, by so many threads, one or more, that
/// the calling one starts and waits for.
#[cycle(counts)]
fn count_shares<R: Threads + Sync>(
    rt: &R,
    alloc: Global,
    pieces: &[Vec<Fragment>],
    shares: &Shares,
    fragments: usize,
    threads: usize,
) -> Result<Counted, NoMemory>
    requires { length shares.now < 256 }
    ensures { IfOk result (IsCounted shares.now pieces.now fragments) }
{
    if threads < 2 {
        return count_apart(rt, alloc, pieces, shares, fragments);
    }
    let (low, high) = pieces.split_at(pieces.len() / threads);
    count_both(rt, alloc, low, high, shares, fragments, threads)
}

/// Counts and marks the fragments of pieces in a new thread, for which the calling one waits.
fn count_apart<R: Threads + Sync>(
    rt: &R,
    alloc: Global,
    pieces: &[Vec<Fragment>],
    shares: &Shares,
    fragments: usize,
) -> Result<Counted, NoMemory>
    requires { length shares.now < 256 }
    ensures { IfOk result (IsCounted shares.now pieces.now fragments) }
{
    let apart = move || -> Result<Counted, NoMemory>
        requires { length shares.now < 256 }
        ensures { IfOk result (IsCounted shares.entry.now pieces.entry.now fragments) }
    { count_pieces(alloc, pieces, shares, fragments) };
    let (counted, ()) = join(rt, apart, || {});
    counted
}

/// Counts and marks the fragments of one thread's pieces in a new thread, and at once those of the pieces behind them, by
/// the other ones of so many threads.
#[cycle(counts)]
fn count_both<R: Threads + Sync>(
    rt: &R,
    alloc: Global,
    low: &[Vec<Fragment>],
    high: &[Vec<Fragment>],
    shares: &Shares,
    fragments: usize,
    threads: usize,
) -> Result<Counted, NoMemory>
    requires threads { 2 ≤ threads }
    requires few { length shares.now < 256 }
    ensures { IfOk result (IsCounted shares.now (low.now ++ high.now) fragments) }
{
    let rest = threads - 1;
    let front = move || -> Result<Counted, NoMemory>
        requires { length shares.now < 256 }
        ensures { IfOk result (IsCounted shares.entry.now low.entry.now fragments) }
    { count_pieces(alloc, low, shares, fragments) };
    let back = move || -> Result<Counted, NoMemory>
        requires { IsSync R.row × (length shares.now < 256) }
        ensures { IfOk result (IsCounted shares.entry.now high.entry.now fragments) }
    { count_shares(rt, alloc, high, shares, fragments, rest) };
    let (first, others) = join(rt, front, back);
    joined(first?, others?)
}

/// What was found of some pieces, and then of others behind them, as what one pass over all of them finds.
fn joined(first: Counted, others: Counted) -> Result<Counted, NoMemory>
    requires { length others.counts ≡ length first.counts }
    ensures { IfOk result (λ counted. (ends : List ℕ) (pieces more : List Piece) (fragments : ℕ)
        → IsCounted ends pieces fragments first → IsCounted ends more fragments others
        → IsCounted ends (pieces ++ more) fragments counted) }
{
    let Counted {
        mut counts,
        mut marks,
    } = first;
    let Counted {
        counts: other_counts,
        marks: mut other_marks,
    } = others;
    counts.add(&other_counts);
    marks.append(&mut other_marks)?;
    Ok(Counted { counts, marks })
}

/// Counts and marks the fragments of pieces, where there are slots for so many.
fn count_pieces(
    alloc: Global,
    pieces: &[Vec<Fragment>],
    shares: &Shares,
    fragments: usize,
) -> Result<Counted, NoMemory>
    requires { length shares.now < 256 }
    ensures { IfOk result (IsCounted shares.now pieces.now fragments) }
{
    let mut counts = Slots::open(alloc, fragments)?;
    let mut marks = Vec::with_capacity(alloc, pieces.len())?;
    for piece in pieces {
        marks.push(count_piece(alloc, piece, shares, &mut counts)?)?;
    }
    Ok(Counted { counts, marks })
}

/// Counts the fragments of a piece in their slots, and lists the number of the share of each.
fn count_piece(
    alloc: Global,
    piece: &[Fragment],
    shares: &Shares,
    counts: &mut Slots,
) -> Result<Vec<u8>, NoMemory>
    requires few { length shares.now < 256 }
    ensures counts { OnOk result ((before : List Fragment) → CountsSlots before counts.old
        → CountsSlots (before ++ piece.now) counts.new) }
    ensures many { length counts.new ≡ length counts.old }
    ensures marks { IfOk result (λ marks. marks.items ≡ marks_of shares.now piece.now) }
{
    let mut marks = Vec::with_capacity(alloc, piece.len())?;
    for part in piece {
        counts.count(part);
        marks.push(shares.number(part.last) as u8)?;
    }
    Ok(marks)
}

/// How many fragments the pieces have.
fn count_of(pieces: &[Vec<Fragment>]) -> usize {
    let mut count = 0usize;
    for piece in pieces {
        count = count.saturating_add(piece.len());
    }
    count
}
