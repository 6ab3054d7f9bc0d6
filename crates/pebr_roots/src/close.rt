//! Two passes made one, and the end of the roots.

ghost use Rattle.std.specs.Prelude.{◌≡◌, ◌++◌, ◌+◌, ◌*◌, IsTrue, IfOk, length, replicate, slice_set};
ghost use Rattle.pebr_core.specs.State.{is_out};
ghost use Rattle.pebr_words.specs.Opening.{rows_of};
ghost use Rattle.pebr_roots.specs.Passes.{shape_at, fixed_at, known_by_pass, number_by, numbers_by, count_by_pass};
ghost use Rattle.pebr_roots.specs.Passes.{note_by};
ghost use Rattle.pebr_roots.specs.Passes.{past_by, lost_by, ejections_by, operations_by, IsUnitedPass, IsOf};

use crate::pass::{RootPass, Roots};
use pebr_shields::{NoMemory, RootProtocol};
use std::alloc::Global;

impl<P: RootProtocol> Roots<P> {
    /// One pass with all numbers of both and the merged note. It acts as the first. The second's slots are given up,
    /// and a shield of it that is up stays up.
    pub fn unite(&self, first: RootPass<P>, second: RootPass<P>) -> RootPass<P>
        requires of { IsOf self.now first × IsOf self.now second }
        requires out { IsTrue (is_out (known_by_pass first).status) × IsTrue (is_out (known_by_pass second).status) }
        ensures of { IsOf self.now result }
        ensures number { number_by result ≡ number_by first }
        ensures count { count_by_pass result ≡ count_by_pass first + count_by_pass second }
        ensures numbers { numbers_by result ≡ numbers_by first ++ numbers_by second }
        ensures known { known_by_pass result ≡ known_by_pass first }
        ensures note { note_by P.first result ≡ P.merged (note_by P.first first) (note_by P.first second) }
        ensures past { past_by result ≡ past_by first }
        ensures operations { operations_by result ≡ operations_by first }
        ensures lost { lost_by result ≡ lost_by first ++ lost_by second }
        ensures ejections { ejections_by result ≡ ejections_by first ++ ejections_by second }
        ensures united { IsUnitedPass P.empty first → IsUnitedPass P.empty second → IsUnitedPass P.empty result }
    {
        let RootPass {
            seat,
            under,
            starts,
        } = first;
        let RootPass {
            seat: other,
            under: _,
            starts: _,
        } = second;
        let seat = self.words.unite(seat, other);
        RootPass {
            seat,
            under,
            starts,
        }
    }

    /// Ends the roots, and gives their contents, one after another. The protocol keeps with these contents, with the
    /// pass's note at the number that it acts as, and with the empty note at every other.
    ///
    /// # Errors
    ///
    /// `NoMemory` where no memory was left; the contents are given up.
    pub fn close(self, alloc: Global, pass: RootPass<P>) -> Result<Vec<u64>, NoMemory>
        requires of { IsOf self pass }
        requires out { IsTrue (is_out (known_by_pass pass).status) }
        requires whole { count_by_pass pass ≡ (shape_at self).seats }
        requires united { IsUnitedPass P.empty pass }
        ensures length { IfOk result (λ contents. length contents.items
            ≡ (shape_at self).roots * (shape_at self).width) }
        ensures keeps { IfOk result (λ contents. P.keeps (fixed_at self) (rows_of (shape_at self) contents.items)
            (slice_set (replicate (shape_at self).seats P.empty) (number_by pass) (note_by P.first pass))) }
    {
        let Roots { words } = self;
        let RootPass {
            seat,
            under: _,
            starts: _,
        } = pass;
        words.close(alloc, seat)
    }
}
