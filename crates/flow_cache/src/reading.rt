//! The entries of a set are read.

ghost use Rattle.std.specs.Prelude.{◌≡◌, ℕ, ◌+◌, ◌-◌, ◌<◌, ◌≤◌, ◌∷◌, IsTrue, All, Some, true, false, length, map};
ghost use Rattle.std.specs.Prelude.{slice_index};
ghost use Rattle.cache_face.specs.Choice.{IsSmallEntry};
ghost use Rattle.cache_face.specs.Keeping.{entry_of, IsWhole};
ghost use Rattle.cache_face.specs.Notes.{first_note};
ghost use Rattle.pebr_core.specs.State.{is_out};
ghost use Rattle.pebr_shields.specs.declared.checked.Checked.TheVariants as checked;
ghost use Rattle.pebr_words.specs.Pasts.{was_ejected, written_at};
ghost use Rattle.pebr_roots.specs.Under.{slot_at, is_valid_at};
ghost use Rattle.pebr_roots.specs.Passes.{shape_at, known_by_pass, number_by, note_by, past_by, operations_by, IsOf};
ghost use Rattle.pebr_roots.specs.Passes.{IsSame};
ghost use Rattle.pebr_roots.specs.Orders.{HasMade};
ghost use Rattle.flow_cache.specs.Collecting.{HasCollected, HasSpared};
ghost use Rattle.flow_cache.specs.Reading.{words_read, entries_read, set_read};
ghost use Rattle.flow_cache.specs.Shown.{roots_of};
ghost use Rattle.flow_cache.specs.Trying.{AreLoaded, AreProtected, IsUnlost, HasOnlyRead, HasMore, HasTen, HasReadTen};

use crate::cache::PebrCache;
use crate::protocol::CacheRule;
use crate::stop::{Point, Stop};
use flow_parts::Fragment;
use flow_parts::laws::fragments_have_fields;
use pebr_roots::{Checked, RootPass};

/// The entry that ten words show.
#[inline]
pub(crate) fn entry(words: [u64; 10]) -> Option<Fragment>
    ensures { result ≡ entry_of words }
{
    fragments_have_fields();
    Fragment::of_words(&words)
}

impl PebrCache {
    /// Loads and shields the four roots of a set.
    fn load_set(&self, pass: &mut RootPass<CacheRule>, set: u64)
        requires of { IsOf self.now.roots pass.old }
        requires set { set < self.now.sets }
        requires entered { is_out (known_by_pass pass.old).status ≡ false }
        ensures same { IsSame self.now.roots pass.old pass.new }
        ensures note { note_by first_note pass.new ≡ note_by first_note pass.old }
        ensures known { known_by_pass pass.new ≡ record (known_by_pass pass.old) {
          seen = (known_by_pass pass.new).seen;
          shields =
              (known_by_pass pass.new).shields;
        } }
        ensures past { past_by pass.new ≡ record (past_by pass.old) {
          last = (past_by pass.new).last;
          steps =
              (past_by pass.new).steps;
          loads = (past_by pass.new).loads;
          reads = (past_by pass.new).reads;
          shown = (past_by pass.new).shown;
        } }
        ensures loaded { AreLoaded set 4 (known_by_pass pass.new) (past_by pass.new) }
        ensures last { set_read (past_by pass.new).loads ≡ set }
        ensures few { HasSpared (shape_at self.now.roots) (number_by pass.old) 8 (operations_by pass.old)
            (operations_by pass.new) }
    {
        for place in 0..4 {
            self.roots.load(pass, 4 * set as usize + place, place);
        }
    }

    /// Enters, loads and shields the four roots of a set, and checks.
    pub(crate) fn reach<T: Stop>(
        &self,
        pass: &mut RootPass<CacheRule>,
        set: u64,
        stop: &mut T,
    ) -> Checked
        requires of { IsOf self.now.roots pass.old }
        requires set { set < self.now.sets }
        requires out { IsTrue (is_out (known_by_pass pass.old).status) }
        ensures same { IsSame self.now.roots pass.old pass.new }
        ensures note { note_by first_note pass.new ≡ note_by first_note pass.old }
        ensures fresh { (known_by_pass pass.new).fresh ≡ (known_by_pass pass.old).fresh }
        ensures entered { is_out (known_by_pass pass.new).status ≡ false }
        ensures pins { (past_by pass.new).pins ≡ (past_by pass.old).pins + 1 }
        ensures spared { HasCollected 0 (past_by pass.old) (past_by pass.new) }
        ensures ejections { (past_by pass.new).ejections ≡ (past_by pass.old).ejections }
        ensures valid { result ≡ checked.Valid → AreProtected set (known_by_pass pass.new) (past_by pass.new)
            × IsUnlost (past_by pass.old) (past_by pass.new) }
        ensures ejected { result ≡ checked.Ejected → (past_by pass.new).lost ≡ was_ejected ∷ (past_by pass.old).lost }
        ensures few { HasSpared (shape_at self.now.roots) (number_by pass.old) 11 (operations_by pass.old)
            (operations_by pass.new) }
    {
        stop.at(Point::Enter);
        self.roots.enter(pass);
        stop.at(Point::Load);
        self.load_set(pass, set);
        stop.at(Point::Check);
        self.roots.check(pass)
    }

    /// Reads the entry under a valid shield: the ten words of its slot. It is the same at each read until the shield is
    /// taken down or the pass enters anew.
    pub fn read_entry(&self, pass: &mut RootPass<CacheRule>, place: usize) -> Option<Fragment>
        requires of { IsOf (roots_of self.now) pass.old }
        requires place { place < 4 }
        requires valid { IsTrue (is_valid_at (known_by_pass pass.old) place) }
        ensures same { IsSame (roots_of self.now) pass.old pass.new }
        ensures note { note_by first_note pass.new ≡ note_by first_note pass.old }
        ensures known { known_by_pass pass.new ≡ known_by_pass pass.old }
        ensures past { HasOnlyRead (past_by pass.old) (past_by pass.new) }
        ensures grown { HasReadTen (slot_at (known_by_pass pass.old) place) result (past_by pass.old).reads
            (past_by pass.new).reads }
        ensures more { HasMore (past_by pass.old).reads (past_by pass.new).reads }
        ensures ten { HasTen (past_by pass.new).reads (slot_at (known_by_pass pass.old) place) }
        ensures entry { result ≡ entry_of (words_read (past_by pass.new).reads
            (slot_at (known_by_pass pass.old) place)) }
        ensures small { IsSmallEntry result }
        ensures few { HasMade 10 (operations_by pass.old) (operations_by pass.new) }
    {
        let mut words = [0; 10];
        self.read_words(pass, place, 0, 10, &mut words);
        entry(words)
    }

    /// Reads the words of the slot under a shield from `from` on and before `to` into `words`, where the others of its
    /// ten were read.
    #[inline(always)]
    fn read_words(
        &self,
        pass: &mut RootPass<CacheRule>,
        place: usize,
        from: usize,
        to: usize,
        words: &mut [u64; 10],
    )
        requires of { IsOf self.now.roots pass.old }
        requires place { place < 4 }
        requires valid { IsTrue (is_valid_at (known_by_pass pass.old) place) }
        requires range { (from < to) × (to ≤ 10) }
        requires before { (word : ℕ) → word < from → written_at (past_by pass.old).reads
            (slot_at (known_by_pass pass.old) place) word ≡ Some (slice_index words.old word) }
        requires behind { (word : ℕ) → to ≤ word → word < 10 → written_at (past_by pass.old).reads
            (slot_at (known_by_pass pass.old) place) word ≡ Some (slice_index words.old word) }
        ensures same { IsSame self.now.roots pass.old pass.new }
        ensures note { note_by first_note pass.new ≡ note_by first_note pass.old }
        ensures known { known_by_pass pass.new ≡ known_by_pass pass.old }
        ensures past { HasOnlyRead (past_by pass.old) (past_by pass.new) }
        ensures grown { from ≡ 0 → to ≡ 10 → HasReadTen (slot_at (known_by_pass pass.old) place) (entry_of words.new)
            (past_by pass.old).reads
            (past_by pass.new).reads }
        ensures more { HasMore (past_by pass.old).reads (past_by pass.new).reads }
        ensures read { (word : ℕ) → word < 10 → written_at (past_by pass.new).reads
            (slot_at (known_by_pass pass.old) place) word ≡ Some (slice_index words.new word) }
        ensures long { length words.new ≡ 10 }
        ensures whole { IsWhole words.new }
        ensures few { HasSpared (shape_at self.now.roots) (number_by pass.old) (to - from) (operations_by pass.old)
            (operations_by pass.new) }
    {
        for word in from..to {
            words[word] = self.roots.read(pass, place, word);
        }
    }

    /// Reads the first and the last word of the slot under each of the four shields.
    #[inline(always)]
    fn read_ends(&self, pass: &mut RootPass<CacheRule>) -> ([u64; 4], [u64; 4])
        requires of { IsOf self.now.roots pass.old }
        requires valid { (place : ℕ) → place < 4 → IsTrue (is_valid_at (known_by_pass pass.old) place) }
        ensures same { IsSame self.now.roots pass.old pass.new }
        ensures note { note_by first_note pass.new ≡ note_by first_note pass.old }
        ensures known { known_by_pass pass.new ≡ known_by_pass pass.old }
        ensures past { HasOnlyRead (past_by pass.old) (past_by pass.new) }
        ensures more { HasMore (past_by pass.old).reads (past_by pass.new).reads }
        ensures firsts { (place : ℕ) → place < 4 → written_at (past_by pass.new).reads
            (slot_at (known_by_pass pass.old) place) 0 ≡ Some (slice_index result.0 place) }
        ensures lasts { (place : ℕ) → place < 4 → written_at (past_by pass.new).reads
            (slot_at (known_by_pass pass.old) place) 9 ≡ Some (slice_index result.1 place) }
        ensures few { HasSpared (shape_at self.now.roots) (number_by pass.old) 8 (operations_by pass.old)
            (operations_by pass.new) }
    {
        let mut firsts = [0; 4];
        let mut lasts = [0; 4];
        for place in 0..4 {
            firsts[place] = self.roots.read(pass, place, 0);
            lasts[place] = self.roots.read(pass, place, 9);
        }
        (firsts, lasts)
    }

    /// Reads the other eight words of the slot under a shield, of which the first and the last were read, and puts all
    /// ten into `words`.
    #[inline(always)]
    fn read_rest(
        &self,
        pass: &mut RootPass<CacheRule>,
        place: usize,
        first: u64,
        last: u64,
        words: &mut [u64; 10],
    )
        requires of { IsOf self.now.roots pass.old }
        requires place { place < 4 }
        requires valid { IsTrue (is_valid_at (known_by_pass pass.old) place) }
        requires first { written_at (past_by pass.old).reads (slot_at (known_by_pass pass.old) place) 0 ≡ Some first }
        requires last { written_at (past_by pass.old).reads (slot_at (known_by_pass pass.old) place) 9 ≡ Some last }
        ensures same { IsSame self.now.roots pass.old pass.new }
        ensures note { note_by first_note pass.new ≡ note_by first_note pass.old }
        ensures known { known_by_pass pass.new ≡ known_by_pass pass.old }
        ensures past { HasOnlyRead (past_by pass.old) (past_by pass.new) }
        ensures more { HasMore (past_by pass.old).reads (past_by pass.new).reads }
        ensures read { (word : ℕ) → word < 10 → written_at (past_by pass.new).reads
            (slot_at (known_by_pass pass.old) place) word ≡ Some (slice_index words.new word) }
        ensures long { length words.new ≡ 10 }
        ensures whole { IsWhole words.new }
        ensures few { HasSpared (shape_at self.now.roots) (number_by pass.old) 8 (operations_by pass.old)
            (operations_by pass.new) }
    {
        words[0] = first;
        words[9] = last;
        self.read_words(pass, place, 1, 9, words);
    }

    /// Reads the ten words of each entry of the set whose roots are protected into `contents`. The first and the last
    /// word of each are read before the others, so that the memory of all four is fetched at once: a slot lies on two
    /// lines.
    pub(crate) fn read_contents(
        &self,
        pass: &mut RootPass<CacheRule>,
        contents: &mut [[u64; 10]; 4],
    )
        requires of { IsOf self.now.roots pass.old }
        requires valid { (place : ℕ) → place < 4 → IsTrue (is_valid_at (known_by_pass pass.old) place) }
        ensures same { IsSame self.now.roots pass.old pass.new }
        ensures note { note_by first_note pass.new ≡ note_by first_note pass.old }
        ensures known { known_by_pass pass.new ≡ known_by_pass pass.old }
        ensures past { HasOnlyRead (past_by pass.old) (past_by pass.new) }
        ensures ten { (place : ℕ) → place < 4 → HasTen (past_by pass.new).reads
            (slot_at (known_by_pass pass.old) place) }
        ensures entries { (set : ℕ) → AreProtected set (known_by_pass pass.old) (past_by pass.old)
            → map entry_of contents.new ≡ entries_read (past_by pass.new) set }
        ensures whole { All IsWhole contents.new }
        ensures few { HasSpared (shape_at self.now.roots) (number_by pass.old) 40 (operations_by pass.old)
            (operations_by pass.new) }
    {
        let (firsts, lasts) = self.read_ends(pass);
        self.read_rest(pass, 0, firsts[0], lasts[0], &mut contents[0]);
        self.read_rest(pass, 1, firsts[1], lasts[1], &mut contents[1]);
        self.read_rest(pass, 2, firsts[2], lasts[2], &mut contents[2]);
        self.read_rest(pass, 3, firsts[3], lasts[3], &mut contents[3]);
    }

    /// Reads the four entries of the set whose roots are protected.
    pub fn read_set(&self, pass: &mut RootPass<CacheRule>) -> [Option<Fragment>; 4]
        requires of { IsOf (roots_of self.now) pass.old }
        requires valid { (place : ℕ) → place < 4 → IsTrue (is_valid_at (known_by_pass pass.old) place) }
        ensures same { IsSame (roots_of self.now) pass.old pass.new }
        ensures note { note_by first_note pass.new ≡ note_by first_note pass.old }
        ensures known { known_by_pass pass.new ≡ known_by_pass pass.old }
        ensures past { HasOnlyRead (past_by pass.old) (past_by pass.new) }
        ensures ten { (place : ℕ) → place < 4 → HasTen (past_by pass.new).reads
            (slot_at (known_by_pass pass.old) place) }
        ensures entries { (set : ℕ) → AreProtected set (known_by_pass pass.old) (past_by pass.old)
            → result ≡ entries_read (past_by pass.new) set }
        ensures small { All IsSmallEntry result }
        ensures few { HasMade 40 (operations_by pass.old) (operations_by pass.new) }
    {
        let mut contents = [[0; 10]; 4];
        self.read_contents(pass, &mut contents);
        [
            entry(contents[0]),
            entry(contents[1]),
            entry(contents[2]),
            entry(contents[3]),
        ]
    }
}
