//! Entering and leaving.

ghost use Rattle.std.specs.Prelude.{◌≡◌, ◌+◌, ℕ, IsTrue, false};
ghost use Rattle.pebr_core.specs.declared.kinds.Step.TheVariants as step;
ghost use Rattle.pebr_core.specs.declared.kinds.Answer.TheVariants as answer;
ghost use Rattle.pebr_core.specs.State.{is_out};
ghost use Rattle.pebr_core.specs.Steps.{after_leave};
ghost use Rattle.pebr_words.specs.Making.{act_on};
ghost use Rattle.pebr_words.specs.Ruled.{CanNote, IsSure};
ghost use Rattle.pebr_roots.specs.Ends.{entered_seat, entered_past};
ghost use Rattle.pebr_roots.specs.Passes.{shape_at, fixed_at, known_by_pass, number_by, note_by, past_by, IsOf, IsSame};
ghost use Rattle.pebr_roots.specs.Passes.{IsOneStep, operations_by};
ghost use Rattle.pebr_roots.specs.Orders.{entered_operations};

use crate::pass::{RootPass, Roots};
use pebr_core::steps_are_safe;
use pebr_shields::RootProtocol;

impl<P: RootProtocol> Roots<P> {
    /// Notes the epoch and pins: until it leaves, the pass uses each slot that it loads, unless it is
    /// ejected. A scan that a collection left open is ended.
    pub fn enter(&self, pass: &mut RootPass<P>)
        requires of { IsOf self.now pass.old }
        requires out { IsTrue (is_out (known_by_pass pass.old).status) }
        ensures same { IsSame self.now pass.old pass.new }
        ensures note { note_by P.first pass.new ≡ note_by P.first pass.old }
        ensures known { known_by_pass pass.new ≡ entered_seat (shape_at self.now) (known_by_pass pass.new).noted
            (known_by_pass pass.old) }
        ensures past { past_by pass.new ≡ entered_past (number_by pass.old) (known_by_pass pass.new).noted
            (known_by_pass pass.old) (past_by pass.old) }
        ensures operations { operations_by pass.new ≡ entered_operations (shape_at self.now) (number_by pass.old)
            (known_by_pass pass.new).noted (operations_by pass.old) }
        ensures sure { IsSure P.whole (shape_at self.now) (known_by_pass pass.new) (past_by pass.new) }
    {
        steps_are_safe();
        self.words.note(&mut pass.seat);
        self.words.pin(&mut pass.seat);
    }

    /// Takes the pin back. The act changes the note: the caller may take it that the notes back each content that the
    /// pass has read in full under a valid shield.
    pub fn leave(&self, pass: &mut RootPass<P>, act: Option<P::Act>)
        requires of { IsOf self.now pass.old }
        requires entered { is_out (known_by_pass pass.old).status ≡ false }
        requires keeps { CanNote (P.keeps (fixed_at self.now)) (P.backed (fixed_at self.now)) (shape_at self.now)
            (known_by_pass pass.old) (past_by pass.old) (number_by pass.old) (note_by P.first pass.old)
            (act_on P.after act (note_by P.first pass.old)) }
        ensures same { IsSame self.now pass.old pass.new }
        ensures note { note_by P.first pass.new ≡ act_on P.after act (note_by P.first pass.old) }
        ensures known { known_by_pass pass.new ≡ after_leave (known_by_pass pass.old) }
        ensures step { IsOneStep P.whole self.now pass.old pass.new (step.Leave (number_by pass.old)) answer.Out }
    {
        self.words.leave(&mut pass.seat, act);
    }
}
