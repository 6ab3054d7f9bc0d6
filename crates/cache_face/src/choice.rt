//! The choice among the entries of a set.

ghost use Rattle.std.specs.Prelude.{◌≡◌, ◌↔◌, ◌<◌, ◌≤◌, ◌^◌, ℕ, IsTrue, IsNone, IfSome, IfNone, Some, MatchOption, All};
ghost use Rattle.std.specs.Prelude.{length};
ghost use Rattle.cache_face.specs.Choice.{CanJoin, HasKey, HasNone, IsLowest, IsOldest, IsChoice, entry_at};
ghost use Rattle.cache_face.specs.Choice.{IsSmallEntry};
ghost use Rattle.flow_parts.specs.Parts.{IsJoined};
ghost use Rattle.cache_face.specs.Keeping.{IsSmall};
ghost use Rattle.cache_face.specs.declared.metered.How.TheVariants.{Replaced};

use crate::metered::How;
use flow_key::FlowKey;
use flow_parts::{Fragment, Timeouts};

/// What is done with one entry of a set.
#[derive(Clone, Copy, Debug)]
pub struct Choice {
    pub how: How,
    /// Which of the entries, counted from 0.
    pub place: usize,
    /// The fragment that is put out.
    pub out: Option<Fragment>,
    /// The entry afterwards.
    pub kept: Fragment,
}

/// Whether the entry has a fragment that is joinable with this one.
#[inline]
fn can_join(timeouts: &Timeouts, entry: &Option<Fragment>, own: &Fragment) -> bool
    ensures { IsTrue result ↔ CanJoin timeouts.now own.now entry.now }
{
    match entry {
        Some(old) => timeouts.joinable(old, own),
        None => false,
    }
}

/// Whether the entry has a fragment of the key.
#[inline]
fn has_key(entry: &Option<Fragment>, key: &FlowKey) -> bool
    ensures { IsTrue result ↔ HasKey key.now entry.now }
{
    match entry {
        Some(old) => old.key == *key,
        None => false,
    }
}

/// The lowest entry whose fragment is joinable with this one.
fn lowest_joinable(
    timeouts: &Timeouts,
    entries: &[Option<Fragment>],
    own: &Fragment,
) -> Option<usize>
    ensures some { IfSome result (λ place. IsLowest (CanJoin timeouts.now own.now) entries.now place) }
    ensures none { IsNone result → HasNone (CanJoin timeouts.now own.now) entries.now }
{
    for place in 0..entries.len() {
        if can_join(timeouts, &entries[place], own) {
            return Some(place);
        }
    }
    None
}

/// The lowest entry of the key.
fn lowest_of_key(entries: &[Option<Fragment>], key: &FlowKey) -> Option<usize>
    ensures some { IfSome result (λ place. IsLowest (HasKey key.now) entries.now place) }
    ensures none { IsNone result → HasNone (HasKey key.now) entries.now }
{
    for place in 0..entries.len() {
        if has_key(&entries[place], key) {
            return Some(place);
        }
    }
    None
}

/// The lowest empty entry.
fn lowest_empty(entries: &[Option<Fragment>]) -> Option<usize>
    ensures some { IfSome result (λ place. IsLowest IsNone entries.now place) }
    ensures none { IsNone result → HasNone IsNone entries.now }
{
    for place in 0..entries.len() {
        if entries[place].is_none() {
            return Some(place);
        }
    }
    None
}

/// Whether the entry ends before that time.
#[inline]
fn ends_before(entry: &Option<Fragment>, last: u64) -> bool
    ensures { IsTrue result ↔ MatchOption entry.now ⊥ (λ old. old.last < last) }
{
    match entry {
        Some(old) => old.last < last,
        None => false,
    }
}

/// The last time of an entry that isn't empty.
#[inline]
fn last_of(entry: &Option<Fragment>) -> u64
    ensures { IfSome entry.now (λ old. result ≡ old.last) }
{
    match entry {
        Some(old) => old.last,
        None => 0,
    }
}

/// The entry with the least last time, the lowest among equals.
fn oldest_entry(entries: &[Option<Fragment>]) -> usize
    requires some { 0 < length entries.now }
    ensures { IsOldest entries.now result }
{
    let mut best = 0;
    let mut last = last_of(&entries[0]);
    for place in 1..entries.len() {
        if ends_before(&entries[place], last) {
            best = place;
            last = last_of(&entries[place]);
        }
    }
    best
}

/// What becomes of the entry that takes the fragment in.
fn join_entry(timeouts: &Timeouts, entry: &Option<Fragment>, own: &Fragment) -> Fragment
    requires joins { CanJoin timeouts.now own.now entry.now }
    requires small { IsSmallEntry entry.now × IsSmall own.now }
    ensures { MatchOption entry.now ⊥ (λ old. IsJoined old own.now result) }
{
    match entry {
        Some(old) => timeouts.join(*old, *own),
        None => *own,
    }
}

/// Puts a fragment into one of a set's entries: the lowest one that is joinable with it takes it in; else the lowest
/// one of its key is put out and opened anew; else the lowest empty one is opened; else the one with the least last
/// time, the lowest among equals, is put out and opened anew.
pub fn choose(timeouts: Timeouts, entries: &[Option<Fragment>], own: Fragment) -> Choice
    requires some { 0 < length entries.now }
    requires entries { All IsSmallEntry entries.now }
    requires own { IsSmall own }
    ensures place { result.place < length entries.now }
    ensures chosen { IsChoice timeouts entries.now own result.how result.place result.out result.kept }
{
    if let Some(place) = lowest_joinable(&timeouts, entries, &own) {
        let kept = join_entry(&timeouts, &entries[place], &own);
        return Choice {
            how: How::Joined,
            place,
            out: None,
            kept,
        };
    }
    open_entry(&timeouts, entries, own)
}

/// The same, where none takes the fragment in.
fn open_entry(_timeouts: &Timeouts, entries: &[Option<Fragment>], own: Fragment) -> Choice
    requires some { 0 < length entries.now }
    requires none { HasNone (CanJoin _timeouts.now own) entries.now }
    ensures place { result.place < length entries.now }
    ensures chosen { IsChoice _timeouts.now entries.now own result.how result.place result.out result.kept }
{
    if let Some(place) = lowest_of_key(entries, &own.key) {
        return anew(entries, place, own);
    }
    if let Some(place) = lowest_empty(entries) {
        return Choice {
            how: How::Opened,
            place,
            out: None,
            kept: own,
        };
    }
    anew(entries, oldest_entry(entries), own)
}

/// The entry is put out, and opened anew.
fn anew(entries: &[Option<Fragment>], place: usize, own: Fragment) -> Choice
    requires { place < length entries.now }
    ensures how { result.how ≡ Replaced }
    ensures place { result.place ≡ place }
    ensures out { result.out ≡ entry_at entries.now place }
    ensures kept { result.kept ≡ own }
{
    Choice {
        how: How::Replaced,
        place,
        out: entries[place],
        kept: own,
    }
}
