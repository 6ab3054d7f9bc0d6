//! The steps Shield, Check and Unshield.

ghost use Rattle.std.specs.Prelude.{◌≡◌, ℕ, IsTrue, ◌<◌, ◌≤◌, ◌+◌, ◌*◌, true, false, if◌then◌else◌};
ghost use Rattle.pebr_core.specs.declared.kinds.Step.TheVariants as step;
ghost use Rattle.pebr_core.specs.declared.kinds.Answer.TheVariants as answer;
ghost use Rattle.pebr_core.specs.declared.kinds.ShieldAt.TheVariants as shield;
ghost use Rattle.pebr_core.specs.State.{has, is_out, shield_at, slot_count};
ghost use Rattle.pebr_core.specs.Steps.{after_shield, after_check};
ghost use Rattle.pebr_words.specs.Places.{shield_word, index};
ghost use Rattle.pebr_words.specs.Mirrors.{ejected_seat};
ghost use Rattle.pebr_words.specs.Seats.{IsAt, IsStill, IsStep, shape_of, known_of, number_of, note_of};

use crate::pins::status_place;
use crate::protocol::RootProtocol;
use crate::words::{Seat, Words};
use pebr_core::{Shape, Step};

/// The word of a seat's shield.
pub(crate) fn shield_place(shape: Shape, number: usize, place: usize) -> usize
    requires { (shape.seats ≤ 64) × (number < shape.seats) × (place < 8) }
    ensures { result ≡ index shape (shield_word number place) }
{
    16 * (shape.seats + number + 1) + place
}

impl<P: RootProtocol> Words<P> {
    /// Sets a shield on a slot that the seat has seen.
    pub fn set_shield(&self, seat: &mut Seat<P>, place: usize, slot: usize)
        requires at { IsAt self.now seat.old }
        requires place { place < (shape_of self.now).shields }
        requires slot { slot < slot_count (shape_of self.now) }
        requires not_out { is_out (known_of seat.old).status ≡ false }
        requires seen { has (known_of seat.old).seen slot ≡ true }
        ensures still { IsStill self.now seat.old seat.new }
        ensures note { note_of P.first seat.new ≡ note_of P.first seat.old }
        ensures known { known_of seat.new ≡ after_shield place (shield.Set slot) (known_of seat.old) }
        ensures step { IsStep P.whole self.now seat.old seat.new
            (step.Shield (number_of seat.old) place slot) answer.Set }
        ensures set { shield_at (known_of seat.new) place ≡ shield.Set slot }
    {
        let word = shield_place(self.shape, seat.number, place);
        let step = Step::Shield(seat.number, place, slot);
        self.store(&mut seat.inner, word, slot as u64 + 1, step, None);
    }

    /// Whether the seat is still in. If so, each of its shields that is set on a slot that it has seen is
    /// valid. If not, another seat has ejected it.
    pub fn own_status(&self, seat: &mut Seat<P>) -> bool
        requires at { IsAt self.now seat.old }
        requires not_out { is_out (known_of seat.old).status ≡ false }
        ensures still { IsStill self.now seat.old seat.new }
        ensures note { note_of P.first seat.new ≡ note_of P.first seat.old }
        ensures known { known_of seat.new ≡ (if result then after_check (known_of seat.old)
            else ejected_seat (known_of seat.old)) }
        ensures step { IsStep P.whole self.now seat.old seat.new (step.Check (number_of seat.old))
            (if result then answer.Valid else answer.Ejected) }
        ensures valid { IsTrue result → (place slot : ℕ) → shield_at (known_of seat.old) place ≡ shield.Set slot
            → has (known_of seat.old).seen slot ≡ true
            → shield_at (known_of seat.new) place ≡ shield.Valid slot }
    {
        let word = status_place(seat.number);
        let step = Step::Check(seat.number);
        self.load(&mut seat.inner, word, step, None) % 4 == 1
    }

    /// Takes a shield down.
    pub fn clear_shield(&self, seat: &mut Seat<P>, place: usize)
        requires at { IsAt self.now seat.old }
        requires place { place < (shape_of self.now).shields }
        ensures still { IsStill self.now seat.old seat.new }
        ensures note { note_of P.first seat.new ≡ note_of P.first seat.old }
        ensures known { known_of seat.new ≡ after_shield place shield.Down (known_of seat.old) }
        ensures step { IsStep P.whole self.now seat.old seat.new
            (step.Unshield (number_of seat.old) place) answer.Cleared }
        ensures down { shield_at (known_of seat.new) place ≡ shield.Down }
    {
        let word = shield_place(self.shape, seat.number, place);
        let step = Step::Unshield(seat.number, place);
        self.store(&mut seat.inner, word, 0, step, None);
    }
}
