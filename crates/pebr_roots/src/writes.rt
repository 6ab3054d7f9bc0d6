//! Writing a fresh slot and putting it into a root.

ghost use Rattle.std.specs.Prelude.{◌≡◌, ◌<◌, IsTrue, false};
ghost use Rattle.pebr_core.specs.declared.kinds.Step.TheVariants as step;
ghost use Rattle.pebr_core.specs.declared.kinds.Answer.TheVariants as answer;
ghost use Rattle.pebr_core.specs.State.{is_out};
ghost use Rattle.pebr_core.specs.Frames.{fresh_count};
ghost use Rattle.pebr_slots.specs.Sets.{least_in};
ghost use Rattle.pebr_words.specs.Making.{act_on};
ghost use Rattle.pebr_words.specs.Ruled.{CanReplace};
ghost use Rattle.pebr_roots.specs.Under.{slot_at, is_valid_at};
ghost use Rattle.pebr_roots.specs.Ends.{answer_to, replaced_seat, replaced_note};
ghost use Rattle.pebr_roots.specs.Passes.{shape_at, fixed_at, known_by_pass, number_by, note_by, past_by, IsOf, IsSame};
ghost use Rattle.pebr_roots.specs.Passes.{IsOneStep};

use crate::ends::ReplaceEnd;
use crate::pass::{RootPass, Roots};
use pebr_core::{steps_are_safe, steps_leave_the_rest, valid_shields_protect};
use pebr_shields::RootProtocol;

impl<P: RootProtocol> Roots<P> {
    /// Writes a word of the least fresh slot.
    pub fn write_fresh(&self, pass: &mut RootPass<P>, word: usize, value: u64)
        requires of { IsOf self.now pass.old }
        requires word { word < (shape_at self.now).width }
        requires fresh { 0 < fresh_count (known_by_pass pass.old) }
        ensures same { IsSame self.now pass.old pass.new }
        ensures note { note_by P.first pass.new ≡ note_by P.first pass.old }
        ensures known { known_by_pass pass.new ≡ known_by_pass pass.old }
        ensures step { IsOneStep P.whole self.now pass.old pass.new
            (step.Write (number_by pass.old) (least_in (known_by_pass pass.old).fresh) word value) answer.Written }
    {
        let slot = pass.seat.least_fresh();
        self.words.write_word(&mut pass.seat, slot, word, value);
    }

    /// Puts the least fresh slot into a root, where the root still has the slot under the shield, and changes
    /// the note by the act.
    ///
    /// The caller shows three things, of each old content that agrees with what the pass read and each new one that
    /// agrees with what it wrote. The new one is whole, and the notes with the changed one back it. With it in place of
    /// the old one, and with the changed note, the protocol keeps. And what the notes backed, they still back.
    ///
    /// `Other` exactly where the root had another slot at this step; then nothing was changed.
    pub fn replace(
        &self,
        pass: &mut RootPass<P>,
        root: usize,
        place: usize,
        act: Option<P::Act>,
    ) -> ReplaceEnd
        requires of { IsOf self.now pass.old }
        requires range { (root < (shape_at self.now).roots) × (place < (shape_at self.now).shields) }
        requires entered { is_out (known_by_pass pass.old).status ≡ false }
        requires valid { IsTrue (is_valid_at (known_by_pass pass.old) place) }
        requires fresh { 0 < fresh_count (known_by_pass pass.old) }
        requires keeps { CanReplace (P.keeps (fixed_at self.now)) P.whole (P.backed (fixed_at self.now))
            (shape_at self.now) (past_by pass.old) (number_by pass.old) root (slot_at (known_by_pass pass.old) place)
            (least_in (known_by_pass pass.old).fresh) (note_by P.first pass.old)
            (act_on P.after act (note_by P.first pass.old)) }
        ensures same { IsSame self.now pass.old pass.new }
        ensures note { note_by P.first pass.new ≡ replaced_note result (act_on P.after act (note_by P.first pass.old))
            (note_by P.first pass.old) }
        ensures known { known_by_pass pass.new ≡ replaced_seat result (slot_at (known_by_pass pass.old) place)
            (least_in (known_by_pass pass.old).fresh) (known_by_pass pass.old) }
        ensures step { IsOneStep P.whole self.now pass.old pass.new
            (step.Replace (number_by pass.old) root (slot_at (known_by_pass pass.old) place)
            (least_in (known_by_pass pass.old).fresh)) (answer_to result) }
    {
        valid_shields_protect();
        steps_are_safe();
        steps_leave_the_rest();
        let old = pass.under[place];
        let new = pass.seat.least_fresh();
        if self.words.replace_root(&mut pass.seat, root, old, new, act) {
            ReplaceEnd::Replaced
        } else {
            ReplaceEnd::Other
        }
    }
}
