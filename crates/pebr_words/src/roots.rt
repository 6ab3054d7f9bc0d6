//! The steps Load and Replace.

ghost use Rattle.std.specs.Prelude.{◌≡◌, ◌<◌, IsTrue, true, false, slice_set, if◌then◌else◌};
ghost use Rattle.pebr_core.specs.declared.kinds.Retired.TheVariants as retire;
ghost use Rattle.pebr_core.specs.declared.kinds.Step.TheVariants as step;
ghost use Rattle.pebr_core.specs.declared.kinds.Answer.TheVariants as answer;
ghost use Rattle.pebr_core.specs.State.{has, is_out, slot_count};
ghost use Rattle.pebr_core.specs.Steps.{is_shielded, after_load, after_replace};
ghost use Rattle.pebr_core.specs.Kept.{IsWithinLimits};
ghost use Rattle.pebr_words.specs.Places.{root_word, index};
ghost use Rattle.pebr_words.specs.Seats.{IsAt, IsStill, IsStep, shape_of, known_of, number_of, note_of, past_of};
ghost use Rattle.pebr_words.specs.Seats.{fixed_of};
ghost use Rattle.pebr_words.specs.Making.{act_on};
ghost use Rattle.pebr_words.specs.Mirrors.{CanTake};
ghost use Rattle.pebr_words.specs.Ruled.{CanReplace};

use crate::open::roots_from;
use crate::protocol::RootProtocol;
use crate::words::{Seat, Words};
use pebr_core::{Shape, Step, root_slots_are_alone};
use pebr_slots::SeatSlots;

/// The word of a root.
fn root_place(shape: Shape, root: usize) -> usize
    requires limits { IsWithinLimits shape }
    requires root { root < shape.roots }
    ensures { result ≡ index shape (root_word root) }
{
    roots_from(shape) + root
}

impl<P: RootProtocol> Words<P> {
    /// Loads a root: its slot is seen. It answers the slot.
    pub fn load_root(&self, seat: &mut Seat<P>, root: usize) -> usize
        requires at { IsAt self.now seat.old }
        requires root { root < (shape_of self.now).roots }
        requires not_out { is_out (known_of seat.old).status ≡ false }
        ensures still { IsStill self.now seat.old seat.new }
        ensures note { note_of P.first seat.new ≡ note_of P.first seat.old }
        ensures known { known_of seat.new ≡ after_load result (known_of seat.old) }
        ensures step { IsStep P.whole self.now seat.old seat.new (step.Load (number_of seat.old) root)
            (answer.Slot result) }
        ensures slot { result < slot_count (shape_of self.now) }
        ensures seen { has (known_of seat.new).seen result ≡ true }
    {
        let place = root_place(self.shape, root);
        let step = Step::Load(seat.number, root);
        self.load(&mut seat.inner, place, step, None) as usize
    }

    /// Where the root still has the old slot, it gets the fresh one, and the old slot is retired. The act
    /// changes the seat's note then.
    ///
    /// `false` exactly where the root had another slot at this step; nothing is changed then.
    pub fn replace_root(
        &self,
        seat: &mut Seat<P>,
        root: usize,
        old: usize,
        new: usize,
        act: Option<P::Act>,
    ) -> bool
        requires at { IsAt self.now seat.old }
        requires root { root < (shape_of self.now).roots }
        requires slots { (old < slot_count (shape_of self.now)) × (new < slot_count (shape_of self.now)) }
        requires not_out { is_out (known_of seat.old).status ≡ false }
        requires shielded { IsTrue (is_shielded (known_of seat.old) old) }
        requires fresh { has (known_of seat.old).fresh new ≡ true }
        requires keeps { CanReplace (P.keeps (fixed_of self.now)) P.whole (P.backed (fixed_of self.now))
            (shape_of self.now) (past_of seat.old) (number_of seat.old) root old new (note_of P.first seat.old)
            (act_on P.after act (note_of P.first seat.old)) }
        ensures still { IsStill self.now seat.old seat.new }
        ensures note { note_of P.first seat.new ≡ (if result then act_on P.after act (note_of P.first seat.old)
            else note_of P.first seat.old) }
        ensures known { known_of seat.new ≡ (if result then after_replace old new (known_of seat.old)
            else known_of seat.old) }
        ensures step { IsStep P.whole self.now seat.old seat.new (step.Replace (number_of seat.old) root old new)
            (if result then answer.Replaced else answer.Other) }
    {
        root_slots_are_alone();
        let place = root_place(self.shape, root);
        let step = Step::Replace(seat.number, root, old, new);
        let found = self.exchange(&mut seat.inner, place, (old as u64, new as u64), step, act);
        let replaced = found == old as u64;
        take(&mut seat.slots, replaced, old, new);
        replaced
    }
}

/// A fresh slot is taken and an old one retired, where a root was replaced.
fn take(slots: &mut SeatSlots, replaced: bool, old: usize, new: usize)
    requires { IsTrue replaced → CanTake slots.old old new }
    ensures fresh { slots.new.fresh ≡ (if replaced then slice_set slots.old.fresh new false else slots.old.fresh) }
    ensures retired { slots.new.retired ≡ (if replaced then slice_set slots.old.retired old retire.Untagged
        else slots.old.retired) }
    ensures kept { slots.new.kept ≡ slots.old.kept }
    ensures room { slots.new.room ≡ slots.old.room }
{
    if replaced {
        slots.replace(old, new);
    }
}
