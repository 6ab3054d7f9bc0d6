//! The end of a cache.

ghost use Rattle.std.specs.Prelude.{◌≡◌, ◌+◌, ◌*◌, ◌<◌, ◌≤◌, ◌++◌, [], ◌∷◌, IfOk, OnOk, Option, option_to_list};
ghost use Rattle.std.specs.Prelude.{slice_index, All};
ghost use Rattle.std.specs.Slots.{slots_items, slots_len, IsFull};
ghost use Rattle.flow_parts.specs.Reaching.{Reaches};
ghost use Rattle.cache_face.specs.Keeping.{entry_of, parts_in, IsBorne};
ghost use Rattle.turn_cache.specs.Closing.{content_at, four_at, contents_at};
ghost use Rattle.turn_cache.specs.Places.{set_word};
ghost use Rattle.turn_cache.specs.Shown.{means_of, shown_of, IsOf};

use crate::cache::{TurnCache, TurnPass};
use atomic_table::Closed;
use cache_face::NoMemory;
use flow_parts::Fragment;
use flow_parts::laws::fragments_have_fields;
use std::alloc::Global;

/// The entry that ten words show.
fn entry_shown(words: [u64; 10]) -> Option<Fragment>
    ensures { result ≡ entry_of words }
{
    fragments_have_fields();
    Fragment::of_words(&words)
}

/// Appends a fragment, where there is one.
fn add(parts: &mut Vec<Fragment>, part: Option<Fragment>) -> Result<(), NoMemory>
    ensures { OnOk result (parts.new.items ≡ parts.old.items ++ option_to_list part) }
{
    if let Some(part) = part {
        parts.push(part)?;
    }
    Ok(())
}

/// A word of an entry.
fn word(closed: &Closed<(), Global>, set: usize, place: usize, k: usize) -> u64
    requires whole { IsFull closed.now.words }
    requires below { (place < 4) × (k < 10) × (64 * set + 64 ≤ slots_len closed.now.words) }
    ensures { result ≡ slice_index (slots_items closed.now.words) (set_word set (10 * place + k)) }
{
    closed.word(64 * set + 16 + (10 * place + k))
}

/// The ten words of an entry.
fn content(closed: &Closed<(), Global>, set: usize, place: usize) -> [u64; 10]
    requires whole { IsFull closed.now.words }
    requires below { (place < 4) × (64 * set + 64 ≤ slots_len closed.now.words) }
    ensures { result ≡ content_at (slots_items closed.now.words) set place }
{
    [
        word(closed, set, place, 0),
        word(closed, set, place, 1),
        word(closed, set, place, 2),
        word(closed, set, place, 3),
        word(closed, set, place, 4),
        word(closed, set, place, 5),
        word(closed, set, place, 6),
        word(closed, set, place, 7),
        word(closed, set, place, 8),
        word(closed, set, place, 9),
    ]
}

/// Appends the entry at a place of a set, where it isn't empty.
fn add_entry(
    parts: &mut Vec<Fragment>,
    closed: &Closed<(), Global>,
    set: usize,
    place: usize,
) -> Result<(), NoMemory>
    requires whole { IsFull closed.now.words }
    requires below { (place < 4) × (64 * set + 64 ≤ slots_len closed.now.words) }
    ensures { OnOk result (parts.new.items ≡ parts.old.items
        ++ option_to_list (entry_of (content_at (slots_items closed.now.words) set place))) }
{
    add(parts, entry_shown(content(closed, set, place)))
}

/// Appends the entries of a set that aren't empty.
fn add_set(
    parts: &mut Vec<Fragment>,
    closed: &Closed<(), Global>,
    set: usize,
) -> Result<(), NoMemory>
    requires whole { IsFull closed.now.words }
    requires below { 64 * set + 64 ≤ slots_len closed.now.words }
    ensures { OnOk result (parts.new.items ≡ parts.old.items ++ parts_in (four_at (slots_items closed.now.words) set)) }
{
    add_entry(parts, closed, set, 0)?;
    add_entry(parts, closed, set, 1)?;
    add_entry(parts, closed, set, 2)?;
    add_entry(parts, closed, set, 3)
}

/// All entries.
fn fragments_in(
    alloc: Global,
    closed: &Closed<(), Global>,
    sets: usize,
) -> Result<Vec<Fragment>, NoMemory>
    requires whole { IsFull closed.now.words }
    requires sets { 64 * sets ≤ slots_len closed.now.words }
    ensures { IfOk result (λ parts. parts.items ≡ parts_in (contents_at (slots_items closed.now.words) sets)) }
{
    let mut parts = Vec::new(alloc);
    for set in 0..sets {
        add_set(&mut parts, closed, set)?;
    }
    Ok(parts)
}

impl TurnCache {
    /// The entries that aren't empty.
    pub(crate) fn entries(self, alloc: Global, pass: TurnPass) -> Result<Vec<Fragment>, NoMemory>
        requires own { IsOf self pass }
        requires all { (shown_of pass).note.seats ≡ (means_of self).seats }
        ensures reached { IfOk result
            (λ entries. Reaches (means_of self).limits (shown_of pass).note.taken
            (entries.items ++ (shown_of pass).note.handed)) }
        ensures seen { OnOk result
            (All (IsBorne (means_of self).limits (shown_of pass).note.taken) (shown_of pass).note.seen) }
    {
        let TurnPass {
            seat,
            number: _,
            contents: _,
            book: _,
        } = pass;
        let TurnCache {
            table,
            sets,
            seats: _,
            timeouts: _,
        } = self;
        let closed = table.close_with(seat);
        let entries = fragments_in(alloc, &closed, sets as usize);
        closed.free();
        entries
    }
}
