//! Two passes made one, and the end of a cache.

ghost use Rattle.std.specs.Prelude.{◌≡◌, ℕ, ◌+◌, ◌*◌, ◌<◌, ◌≤◌, ◌++◌, [], length, IfOk, OnOk, Option, option_to_list};
ghost use Rattle.std.specs.Prelude.{All};
ghost use Rattle.flow_parts.specs.Reaching.{Reaches};
ghost use Rattle.cache_face.specs.Keeping.{entry_of, parts_in, IsBorne};
ghost use Rattle.cache_face.specs.Meaning.{IsUnited};
ghost use Rattle.pebr_words.specs.Opening.{slot_of};
ghost use Rattle.flow_cache.specs.Ending.{rows_at};
ghost use Rattle.flow_cache.specs.Places.{cache_shape};
ghost use Rattle.flow_cache.specs.Shown.{means_of, shown_of, tries_of, IsOf};

use crate::cache::{PebrCache, PebrPass};
use crate::reading::entry;
use cache_face::NoMemory;
use flow_parts::Fragment;
use std::alloc::Global;

/// Appends a fragment, where there is one.
fn add(parts: &mut Vec<Fragment>, part: Option<Fragment>) -> Result<(), NoMemory>
    ensures { OnOk result (parts.new.items ≡ parts.old.items ++ option_to_list part) }
{
    if let Some(part) = part {
        parts.push(part)?;
    }
    Ok(())
}

/// The ten words of a root.
fn content(words: &[u64], root: usize) -> [u64; 10]
    requires { 10 * root + 10 ≤ length words.now }
    ensures { (sets seats : ℕ) → result ≡ slot_of (cache_shape sets seats) words.now root }
{
    let from = 10 * root;
    [
        words[from],
        words[from + 1],
        words[from + 2],
        words[from + 3],
        words[from + 4],
        words[from + 5],
        words[from + 6],
        words[from + 7],
        words[from + 8],
        words[from + 9],
    ]
}

/// The entries of the first roots that aren't empty.
fn fragments_in(alloc: Global, words: &[u64], roots: usize) -> Result<Vec<Fragment>, NoMemory>
    requires { 10 * roots ≤ length words.now }
    ensures { IfOk result (λ parts. (sets seats : ℕ) → parts.items ≡ parts_in (rows_at sets seats words.now roots)) }
{
    let mut parts = Vec::with_capacity(alloc, roots)?;
    for root in 0..roots {
        add(&mut parts, entry(content(words, root)))?;
    }
    Ok(parts)
}

impl PebrCache {
    /// One pass for both.
    pub(crate) fn join(&self, first: PebrPass, second: PebrPass) -> PebrPass
        requires first { IsOf self.now first }
        requires second { IsOf self.now second }
        ensures own { IsOf self.now result }
        ensures united { IsUnited (shown_of first) (shown_of second) (shown_of result) }
        ensures lost { tries_of result ≡ tries_of first ++ tries_of second }
    {
        let PebrPass {
            inner,
            lost,
            contents,
            book,
        } = first;
        let PebrPass {
            inner: other,
            lost: more,
            contents: _,
            book: beside,
        } = second;
        let inner = self.roots.unite(inner, other);
        PebrPass {
            inner,
            lost: lost.saturating_add(more),
            contents,
            book: book.merge(beside),
        }
    }

    /// The entries that aren't empty.
    pub(crate) fn entries(self, alloc: Global, pass: PebrPass) -> Result<Vec<Fragment>, NoMemory>
        requires own { IsOf self pass }
        requires all { (shown_of pass).note.seats ≡ (means_of self).seats }
        ensures reached { IfOk result
            (λ entries. Reaches (means_of self).limits (shown_of pass).note.taken
            (entries.items ++ (shown_of pass).note.handed)) }
        ensures seen { OnOk result
            (All (IsBorne (means_of self).limits (shown_of pass).note.taken) (shown_of pass).note.seen) }
    {
        let PebrPass {
            inner,
            lost: _,
            contents: _,
            book: _,
        } = pass;
        let PebrCache {
            roots,
            sets,
            timeouts: _,
        } = self;
        let contents = roots.close(alloc, inner)?;
        fragments_in(alloc, contents.as_slice(), 4 * sets as usize)
    }
}
