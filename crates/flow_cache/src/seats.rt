//! What a watcher needs of the cache: its roots, and the seat of a pass.

ghost use Rattle.std.specs.Prelude.{◌≡◌, ◌+◌, ◌≤◌, ◌<◌, ◌∷◌, ◌^◌, ◌-◌, length, min, IsTrue, false};
ghost use Rattle.cache_face.specs.Notes.{first_note};
ghost use Rattle.pebr_core.specs.State.{is_out};
ghost use Rattle.pebr_shields.specs.declared.checked.Checked.TheVariants as checked;
ghost use Rattle.pebr_words.specs.Pasts.{was_ejected};
ghost use Rattle.pebr_roots.specs.Passes.{known_by_pass, note_by, past_by, lost_by, operations_by, IsOf, IsSame};
ghost use Rattle.pebr_roots.specs.Orders.{HasMade};
ghost use Rattle.flow_cache.specs.Shown.{means_of, roots_of, seat_of, book_of};
ghost use Rattle.flow_cache.specs.Trying.{AreProtected, IsResting, IsUnlost};

use crate::cache::{PebrCache, PebrPass};
use crate::protocol::CacheRule;
use crate::stop::Never;
use pass_book::PassBook;
use pebr_roots::{Checked, RootPass, Roots};

impl PebrCache {
    /// The roots of its entries. Those of the set `s` have the numbers from `4 * s` on.
    pub fn roots(&self) -> &Roots<CacheRule>
        ensures { result.now ≡ roots_of self.now }
    {
        &self.roots
    }

    /// The number of its sets, from 1 to 65,536.
    pub fn sets(&self) -> u64
        ensures number { result ≡ (means_of self.now).sets }
        ensures some { 1 ≤ result }
    {
        self.sets
    }

    /// Enters, loads and shields the four roots of a set, and checks. At `Valid` the slots under the four shields stay
    /// as they are until these are taken down, also once the pass has left.
    pub fn protect(&self, pass: &mut RootPass<CacheRule>, set: u64) -> Checked
        requires of { IsOf (roots_of self.now) pass.old }
        requires set { set < (means_of self.now).sets }
        requires out { IsTrue (is_out (known_by_pass pass.old).status) }
        ensures same { IsSame (roots_of self.now) pass.old pass.new }
        ensures note { note_by first_note pass.new ≡ note_by first_note pass.old }
        ensures entered { is_out (known_by_pass pass.new).status ≡ false }
        ensures pins { (past_by pass.new).pins ≡ (past_by pass.old).pins + 1 }
        ensures ejections { (past_by pass.new).ejections ≡ (past_by pass.old).ejections }
        ensures valid { result ≡ checked.Valid → AreProtected set (known_by_pass pass.new) (past_by pass.new)
            × IsUnlost (past_by pass.old) (past_by pass.new) }
        ensures ejected { result ≡ checked.Ejected → (past_by pass.new).lost ≡ was_ejected ∷ (past_by pass.old).lost }
        ensures few { HasMade 11 (operations_by pass.old) (operations_by pass.new) }
    {
        self.reach(pass, set, &mut Never)
    }
}

impl PebrPass {
    /// The seat of the pass, and its book.
    pub fn into_seat(self) -> (RootPass<CacheRule>, PassBook)
        ensures seat { result.0 ≡ seat_of self }
        ensures book { result.1 ≡ book_of self }
        ensures resting { IsResting (known_by_pass result.0) }
    {
        let PebrPass {
            inner,
            lost: _,
            contents: _,
            book,
        } = self;
        (inner, book)
    }

    /// The pass of a seat that is out and has no shield up, and of this book. `lost` is how many tries it has lost, at
    /// most 2^64 - 1.
    pub fn from_seat(seat: RootPass<CacheRule>, lost: u64, book: PassBook) -> PebrPass
        requires resting { IsResting (known_by_pass seat) }
        requires counted { lost ≡ min (length (lost_by seat)) (2 ^ 64 - 1) }
        ensures seat { seat_of result ≡ seat }
        ensures book { book_of result ≡ book }
    {
        PebrPass {
            inner: seat,
            lost,
            contents: [[0; 10]; 4],
            book,
        }
    }
}
