//! Loading a root, checking, reading under a shield, and taking the shields down.

ghost use Rattle.std.specs.Prelude.{◌≡◌, ℕ, ◌<◌, IsTrue, true, false, List};
ghost use Rattle.std.specs.List.{list_all};
ghost use Rattle.pebr_core.specs.declared.kinds.Step.TheVariants as step;
ghost use Rattle.pebr_core.specs.declared.kinds.Answer.TheVariants as answer;
ghost use Rattle.pebr_core.specs.declared.kinds.ShieldAt.TheVariants as shield;
ghost use Rattle.pebr_core.specs.State.{has, is_out, is_down, shield_at, slot_count};
ghost use Rattle.pebr_words.specs.Pasts.{Read};
ghost use Rattle.pebr_words.specs.Ruled.{IsIn, IsSure, HasReadWhole};
ghost use Rattle.pebr_shields.specs.declared.checked.Checked.TheVariants as checked;
ghost use Rattle.pebr_shields.specs.Found.{answer_to, checked_seat};
ghost use Rattle.pebr_roots.specs.Under.{slot_at, is_valid_at};
ghost use Rattle.pebr_roots.specs.Ends.{loaded_seat, loaded_past, cleared_seat, cleared_past};
ghost use Rattle.pebr_roots.specs.Orders.{loaded_operations, HasCleared, HasMade};
ghost use Rattle.pebr_roots.specs.Passes.{shape_at, known_by_pass, number_by, note_by, past_by, IsOf, IsSame};
ghost use Rattle.pebr_roots.specs.Passes.{IsOneStep};
ghost use Rattle.pebr_roots.specs.Passes.{operations_by};

use crate::pass::{RootPass, Roots};
use pebr_core::valid_shields_protect;
use pebr_shields::{Checked, RootProtocol, check, shield, unshield};

impl<P: RootProtocol> Roots<P> {
    /// Loads a root, sets a shield on its slot, and answers the slot. The shield protects nothing until a check has
    /// said `Valid`.
    pub fn load(&self, pass: &mut RootPass<P>, root: usize, place: usize) -> usize
        requires of { IsOf self.now pass.old }
        requires range { (root < (shape_at self.now).roots) × (place < (shape_at self.now).shields) }
        requires entered { is_out (known_by_pass pass.old).status ≡ false }
        ensures same { IsSame self.now pass.old pass.new }
        ensures note { note_by P.first pass.new ≡ note_by P.first pass.old }
        ensures known { known_by_pass pass.new ≡ loaded_seat place result (known_by_pass pass.old) }
        ensures past { past_by pass.new ≡ loaded_past (number_by pass.old) root place result (known_by_pass pass.old)
            (past_by pass.old) }
        ensures operations { operations_by pass.new ≡ loaded_operations (shape_at self.now) (number_by pass.old) root
            place result (operations_by pass.old) }
        ensures sure { IsSure P.whole (shape_at self.now) (known_by_pass pass.new) (past_by pass.new) }
        ensures slot { result < slot_count (shape_at self.now) }
        ensures seen { has (known_by_pass pass.new).seen result ≡ true }
        ensures set { shield_at (known_by_pass pass.new) place ≡ shield.Set result }
    {
        let slot = self.words.load_root(&mut pass.seat, root);
        shield(&self.words, &mut pass.seat, place, slot);
        pass.under[place] = slot;
        pass.starts[place] = self.words.slot_start(slot);
        slot
    }

    /// `Valid`: the pass is still in, and so its shields on slots that it has loaded are valid. `Ejected`: another seat
    /// has ejected it.
    pub fn check(&self, pass: &mut RootPass<P>) -> Checked
        requires of { IsOf self.now pass.old }
        requires entered { is_out (known_by_pass pass.old).status ≡ false }
        ensures same { IsSame self.now pass.old pass.new }
        ensures note { note_by P.first pass.new ≡ note_by P.first pass.old }
        ensures known { known_by_pass pass.new ≡ checked_seat result (known_by_pass pass.old) }
        ensures step { IsOneStep P.whole self.now pass.old pass.new (step.Check (number_by pass.old))
            (answer_to result) }
        ensures valid { result ≡ checked.Valid → (place slot : ℕ)
            → shield_at (known_by_pass pass.old) place ≡ shield.Set slot → has (known_by_pass pass.old).seen slot ≡ true
            → shield_at (known_by_pass pass.new) place ≡ shield.Valid slot }
    {
        check(&self.words, &mut pass.seat)
    }

    /// Reads a word of the slot under a valid shield. It is the same at each read until the shield is taken
    /// down or the pass enters anew, whatever other passes do, and although this one was ejected. Once each
    /// word of the slot was read, the content is whole.
    pub fn read(&self, pass: &mut RootPass<P>, place: usize, word: usize) -> u64
        requires of { IsOf self.now pass.old }
        requires range { (place < (shape_at self.now).shields) × (word < (shape_at self.now).width) }
        requires valid { IsTrue (is_valid_at (known_by_pass pass.old) place) }
        ensures same { IsSame self.now pass.old pass.new }
        ensures note { note_by P.first pass.new ≡ note_by P.first pass.old }
        ensures known { known_by_pass pass.new ≡ known_by_pass pass.old }
        ensures step { IsOneStep P.whole self.now pass.old pass.new
            (step.Read (number_by pass.old) (slot_at (known_by_pass pass.old) place) word) (answer.Word result) }
        ensures again { (read : Read) → IsIn read (past_by pass.old).reads
            → read.slot ≡ slot_at (known_by_pass pass.old) place → read.word ≡ word → result ≡ read.value }
        ensures whole { (content : List ℕ) → HasReadWhole (shape_at self.now) (past_by pass.new)
            (slot_at (known_by_pass pass.old) place) content → P.whole content }
    {
        valid_shields_protect();
        let slot = pass.under[place];
        let start = pass.starts[place];
        self.words.read_word(&mut pass.seat, slot, start, word)
    }

    /// Takes each shield down.
    pub fn clear(&self, pass: &mut RootPass<P>)
        requires of { IsOf self.now pass.old }
        ensures same { IsSame self.now pass.old pass.new }
        ensures note { note_by P.first pass.new ≡ note_by P.first pass.old }
        ensures known { known_by_pass pass.new ≡ cleared_seat (shape_at self.now) (known_by_pass pass.old) }
        ensures down { IsTrue (list_all is_down (known_by_pass pass.new).shields) }
        ensures past { past_by pass.new ≡ cleared_past (shape_at self.now) (past_by pass.old) }
        ensures operations { HasCleared (shape_at self.now) (number_by pass.old) (operations_by pass.old)
            (operations_by pass.new) }
        ensures few { HasMade (shape_at self.now).shields (operations_by pass.old) (operations_by pass.new) }
        ensures sure { IsSure P.whole (shape_at self.now) (known_by_pass pass.new) (past_by pass.new) }
    {
        let shields = self.words.shape().shields;
        for place in 0..shields {
            unshield(&self.words, &mut pass.seat, place);
        }
    }
}
