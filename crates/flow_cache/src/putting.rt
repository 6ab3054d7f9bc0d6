//! A fragment is put into an entry, or passed by.

ghost use Rattle.std.specs.Prelude.{◌≡◌, ◌≢◌, ℕ, ◌<◌, ◌∷◌, [], IsTrue, Option, Some, None, true, false, if◌then◌else◌};
ghost use Rattle.std.specs.Prelude.{slice_index};
ghost use Rattle.std.specs.List.{list_all};
ghost use Rattle.cache_face.specs.Notes.{first_note, note_with};
ghost use Rattle.cache_face.specs.Keeping.{IsWhole};
ghost use Rattle.cache_face.specs.Laws.{CanTake};
ghost use Rattle.pebr_core.specs.State.{is_out, is_down};
ghost use Rattle.pebr_core.specs.Frames.{fresh_count};
ghost use Rattle.pebr_slots.specs.Sets.{least_in};
ghost use Rattle.pebr_words.specs.Pasts.{written_at};
ghost use Rattle.pebr_words.specs.Ruled.{IsSure};
ghost use Rattle.pebr_roots.specs.Passes.{shape_at, known_by_pass, number_by, note_by, past_by, operations_by, IsOf};
ghost use Rattle.pebr_roots.specs.Passes.{IsSame};
ghost use Rattle.cache_choice.specs.Chosen.{out_of};
ghost use Rattle.flow_cache.specs.declared.act.CacheAct.TheVariants.{Puts};
ghost use Rattle.flow_cache.specs.Collecting.{HasCollected, HasSpared};
ghost use Rattle.flow_cache.specs.Trying.{IsOwn, IsResting, AreProtected, HasOnlyStepped};
ghost use Rattle.flow_cache.specs.Trying.{HasPut, HasNotPut, HasLostTry};

use crate::act::CacheAct;
use crate::cache::PebrCache;
use crate::protocol::CacheRule;
use crate::stop::{Point, Stop};
use cache_choice::{choose_by_words, put_out};
use cache_face::{How, Metered};
use flow_parts::Fragment;
use pebr_roots::{Checked, ReplaceEnd, RootPass};

/// Whether the last try was lost.
#[inline]
fn is_passed_by(last: bool, done: bool) -> bool
    ensures done { IsTrue done → result ≡ false }
    ensures undone { done ≡ false → result ≡ last }
{
    last && !done
}

/// What is done to the note of a pass that leaves: where its packet is passed by, it is metered, and its own fragment
/// handed out.
#[inline]
fn leaving_note(own: &Fragment, passes_by: bool) -> Option<CacheAct>
    ensures { result ≡ (if passes_by then Some (Puts own.now (Some own.now)) else None) }
{
    if passes_by {
        Some(CacheAct::Puts(*own, Some(*own)))
    } else {
        None
    }
}

/// Tells what became of the packet. Where no fragment is put out, `out` is left as it is, so that none is written.
#[inline]
fn tell(metered: &mut Metered, how: How, out: Option<Fragment>)
    requires none { metered.old.out ≡ None }
    requires out { (entry : Option Fragment) × (out ≡ out_of how entry) }
    ensures how { metered.new.how ≡ how }
    ensures out { metered.new.out ≡ out }
{
    metered.how = how;
    if how == How::Replaced {
        metered.out = out;
    }
}

impl PebrCache {
    /// Writes ten words into the fresh slot.
    fn fill(&self, pass: &mut RootPass<CacheRule>, words: &[u64; 10])
        requires of { IsOf self.now.roots pass.old }
        requires fresh { 0 < fresh_count (known_by_pass pass.old) }
        ensures same { IsSame self.now.roots pass.old pass.new }
        ensures note { note_by first_note pass.new ≡ note_by first_note pass.old }
        ensures known { known_by_pass pass.new ≡ known_by_pass pass.old }
        ensures past { past_by pass.new ≡ record (past_by pass.old) {
          last = (past_by pass.new).last;
          steps =
              (past_by pass.new).steps;
          written = (past_by pass.new).written;
        } }
        ensures written { (word : ℕ) → word < 10
            → written_at (past_by pass.new).written (least_in (known_by_pass pass.old).fresh) word
            ≡ Some (slice_index words.now word) }
        ensures few { HasSpared (shape_at self.now.roots) (number_by pass.old) 10 (operations_by pass.old)
            (operations_by pass.new) }
    {
        for word in 0..10 {
            self.roots.write_fresh(pass, word, words[word]);
        }
    }

    /// Puts the packet's fragment into the set whose roots are protected: reads the entries, writes the new one, and
    /// replaces one root. `false` where that root had another slot. What is answered goes into `metered`, so that it is
    /// written once; nothing was handed out before.
    fn put<T: Stop>(
        &self,
        pass: &mut RootPass<CacheRule>,
        set: u64,
        own: &Fragment,
        contents: &mut [[u64; 10]; 4],
        metered: &mut Metered,
        stop: &mut T,
    ) -> bool
        requires of { IsOf self.now.roots pass.old }
        requires set { set < self.now.sets }
        requires entered { is_out (known_by_pass pass.old).status ≡ false }
        requires fresh { 0 < fresh_count (known_by_pass pass.old) }
        requires protected { AreProtected set (known_by_pass pass.old) (past_by pass.old) }
        requires unlost { (past_by pass.old).has_lost ≡ false }
        requires own { IsOwn self.now.sets set (note_by first_note pass.old) own.now }
        requires none { metered.old.out ≡ None }
        ensures same { IsSame self.now.roots pass.old pass.new }
        ensures entered { is_out (known_by_pass pass.new).status ≡ false }
        ensures ejections { (past_by pass.new).ejections ≡ (past_by pass.old).ejections }
        ensures spared { HasCollected 0 (past_by pass.old) (past_by pass.new) }
        ensures done { IsTrue result → HasPut self.now.timeouts set (note_by first_note pass.old)
            (note_by first_note pass.new) (past_by pass.old) (past_by pass.new) own.now metered.new.how
            metered.new.out }
        ensures undone { result ≡ false → HasNotPut set (note_by first_note pass.old) (note_by first_note pass.new)
            (known_by_pass pass.old) (known_by_pass pass.new) (past_by pass.old) (past_by pass.new) }
        ensures untouched { result ≡ false → metered.new.out ≡ None }
        ensures few { HasSpared (shape_at self.now.roots) (number_by pass.old) 51 (operations_by pass.old)
            (operations_by pass.new) }
    {
        stop.at(Point::Read);
        self.read_contents(pass, contents);
        let choice = choose_by_words(self.timeouts, contents, own);
        let out = put_out(choice.how, &contents[choice.place]);
        stop.at(Point::Write);
        self.fill(pass, &choice.words);
        stop.at(Point::Replace);
        let root = 4 * set as usize + choice.place;
        let act = Some(CacheAct::Puts(*own, out));
        match self.roots.replace(pass, root, choice.place, act) {
            ReplaceEnd::Replaced => {
                tell(metered, choice.how, out);
                true
            }
            ReplaceEnd::Other => false,
        }
    }

    /// Reaches the set and puts the fragment in. `false` where the try is lost.
    fn reach_and_put<T: Stop>(
        &self,
        pass: &mut RootPass<CacheRule>,
        set: u64,
        own: &Fragment,
        contents: &mut [[u64; 10]; 4],
        metered: &mut Metered,
        stop: &mut T,
    ) -> bool
        requires of { IsOf self.now.roots pass.old }
        requires set { set < self.now.sets }
        requires out { IsTrue (is_out (known_by_pass pass.old).status) }
        requires fresh { 0 < fresh_count (known_by_pass pass.old) }
        requires own { IsOwn self.now.sets set (note_by first_note pass.old) own.now }
        requires none { metered.old.out ≡ None }
        ensures same { IsSame self.now.roots pass.old pass.new }
        ensures entered { is_out (known_by_pass pass.new).status ≡ false }
        ensures ejections { (past_by pass.new).ejections ≡ (past_by pass.old).ejections }
        ensures spared { HasCollected 0 (past_by pass.old) (past_by pass.new) }
        ensures done { IsTrue result → HasPut self.now.timeouts set (note_by first_note pass.old)
            (note_by first_note pass.new) (past_by pass.old) (past_by pass.new) own.now metered.new.how
            metered.new.out }
        ensures undone { result ≡ false → HasNotPut set (note_by first_note pass.old) (note_by first_note pass.new)
            (known_by_pass pass.old) (known_by_pass pass.new) (past_by pass.old) (past_by pass.new) }
        ensures untouched { result ≡ false → metered.new.out ≡ None }
        ensures few { HasSpared (shape_at self.now.roots) (number_by pass.old) 62 (operations_by pass.old)
            (operations_by pass.new) }
    {
        match self.reach(pass, set, stop) {
            Checked::Valid => self.put(pass, set, own, contents, metered, stop),
            Checked::Ejected => false,
        }
    }

    /// Takes the shields down.
    fn take_down<T: Stop>(&self, pass: &mut RootPass<CacheRule>, stop: &mut T)
        requires of { IsOf self.now.roots pass.old }
        ensures same { IsSame self.now.roots pass.old pass.new }
        ensures note { note_by first_note pass.new ≡ note_by first_note pass.old }
        ensures known { known_by_pass pass.new ≡ record (known_by_pass pass.old)
            { shields = (known_by_pass pass.new).shields } }
        ensures down { IsTrue (list_all is_down (known_by_pass pass.new).shields) }
        ensures past { HasOnlyStepped (past_by pass.old) (past_by pass.new) }
        ensures few { HasSpared (shape_at self.now.roots) (number_by pass.old) 4 (operations_by pass.old)
            (operations_by pass.new) }
    {
        stop.at(Point::Clear);
        self.roots.clear(pass);
    }

    /// Takes the shields down and leaves. A packet that is passed by is metered here, and its own fragment handed out.
    fn end<T: Stop>(
        &self,
        pass: &mut RootPass<CacheRule>,
        own: &Fragment,
        passes_by: bool,
        stop: &mut T,
    )
        requires of { IsOf self.now.roots pass.old }
        requires entered { is_out (known_by_pass pass.old).status ≡ false }
        requires own { IsTrue passes_by → CanTake (note_by first_note pass.old) own.now }
        ensures same { IsSame self.now.roots pass.old pass.new }
        ensures resting { IsResting (known_by_pass pass.new) }
        ensures fresh { (known_by_pass pass.new).fresh ≡ (known_by_pass pass.old).fresh }
        ensures note { note_by first_note pass.new
            ≡ (if passes_by then note_with (note_by first_note pass.old) own.now (Some own.now)
            else note_by first_note pass.old) }
        ensures past { HasOnlyStepped (past_by pass.old) (past_by pass.new) }
        ensures sure { IsSure IsWhole (shape_at self.now.roots) (known_by_pass pass.new) (past_by pass.new) }
        ensures few { HasSpared (shape_at self.now.roots) (number_by pass.old) 5 (operations_by pass.old)
            (operations_by pass.new) }
    {
        self.take_down(pass, stop);
        stop.at(Point::Leave);
        self.roots.leave(pass, leaving_note(own, passes_by));
    }

    /// One try. `false` where it is lost; where it is the last one the packet is passed by then.
    ///
    /// A call of its own, so that what goes into `metered` is written to memory once. Inlined, it would be kept in
    /// pieces until the shields are down, and be copied from piece to piece.
    #[inline(never)]
    pub(crate) fn attempt<T: Stop>(
        &self,
        pass: &mut RootPass<CacheRule>,
        set: u64,
        own: &Fragment,
        last: bool,
        contents: &mut [[u64; 10]; 4],
        metered: &mut Metered,
        stop: &mut T,
    ) -> bool
        requires of { IsOf self.now.roots pass.old }
        requires set { set < self.now.sets }
        requires out { IsTrue (is_out (known_by_pass pass.old).status) }
        requires fresh { 0 < fresh_count (known_by_pass pass.old) }
        requires own { IsOwn self.now.sets set (note_by first_note pass.old) own.now }
        requires none { metered.old.out ≡ None }
        ensures same { IsSame self.now.roots pass.old pass.new }
        ensures resting { IsResting (known_by_pass pass.new) }
        ensures ejections { (past_by pass.new).ejections ≡ (past_by pass.old).ejections }
        ensures spared { HasCollected 0 (past_by pass.old) (past_by pass.new) }
        ensures done { IsTrue result → HasPut self.now.timeouts set (note_by first_note pass.old)
            (note_by first_note pass.new) (past_by pass.old) (past_by pass.new) own.now metered.new.how
            metered.new.out }
        ensures undone { result ≡ false
            → (note_by first_note pass.new ≡ (if last
            then note_with (note_by first_note pass.old) own.now (Some own.now)
            else note_by first_note pass.old))
            × ((known_by_pass pass.new).fresh ≡ (known_by_pass pass.old).fresh) × ((shape_at self.now.roots).seats ≢ 1)
            × HasLostTry set (past_by pass.old) (past_by pass.new) }
        ensures untouched { result ≡ false → metered.new.out ≡ None }
        ensures few { HasSpared (shape_at self.now.roots) (number_by pass.old) 67 (operations_by pass.old)
            (operations_by pass.new) }
    {
        let done = self.reach_and_put(pass, set, own, contents, metered, stop);
        let passes_by = is_passed_by(last, done);
        self.end(pass, own, passes_by, stop);
        done
    }
}
