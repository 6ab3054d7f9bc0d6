//! The steps on the words of slots: Read and Write.

ghost use Rattle.std.specs.Prelude.{◌≡◌, ◌<◌, IsTrue, true};
ghost use Rattle.pebr_core.specs.declared.kinds.Step.TheVariants as step;
ghost use Rattle.pebr_core.specs.declared.kinds.Answer.TheVariants as answer;
ghost use Rattle.pebr_core.specs.State.{has, slot_count};
ghost use Rattle.pebr_core.specs.Steps.{is_shielded};
ghost use Rattle.pebr_words.specs.Places.{slot_word, index};
ghost use Rattle.pebr_words.specs.Seats.{IsAt, IsStill, IsStep, shape_of, known_of, number_of, note_of};

use crate::protocol::RootProtocol;
use crate::words::{Seat, Words};
use pebr_core::Step;

impl<P: RootProtocol> Words<P> {
    /// The place of the first word of a slot.
    #[inline]
    pub fn slot_start(&self, slot: usize) -> usize
        requires { slot < slot_count (shape_of self.now) }
        ensures { result ≡ index (shape_of self.now) (slot_word slot 0) }
    {
        self.contents + slot * self.shape.width
    }

    /// The place of a word of a slot.
    fn slot_place(&self, slot: usize, word: usize) -> usize
        requires { (slot < slot_count self.now.shape) × (word < self.now.shape.width) }
        ensures { result ≡ index self.now.shape (slot_word slot word) }
    {
        self.contents + (slot * self.shape.width + word)
    }

    /// Reads a word of a slot that a shield of the seat is valid on. The start is the place of the slot's first word.
    #[inline(always)]
    pub fn read_word(&self, seat: &mut Seat<P>, slot: usize, start: usize, word: usize) -> u64
        requires at { IsAt self.now seat.old }
        requires range { (slot < slot_count (shape_of self.now)) × (word < (shape_of self.now).width) }
        requires start { start ≡ index (shape_of self.now) (slot_word slot 0) }
        requires shielded { IsTrue (is_shielded (known_of seat.old) slot) }
        ensures still { IsStill self.now seat.old seat.new }
        ensures note { note_of P.first seat.new ≡ note_of P.first seat.old }
        ensures known { known_of seat.new ≡ known_of seat.old }
        ensures step { IsStep P.whole self.now seat.old seat.new (step.Read (number_of seat.old) slot word)
            (answer.Word result) }
    {
        let place = start + word;
        let step = Step::Read(seat.number, slot, word);
        self.load(&mut seat.inner, place, step, None)
    }

    /// Writes a word of a slot that is fresh at the seat.
    pub fn write_word(&self, seat: &mut Seat<P>, slot: usize, word: usize, value: u64)
        requires at { IsAt self.now seat.old }
        requires range { (slot < slot_count (shape_of self.now)) × (word < (shape_of self.now).width) }
        requires fresh { has (known_of seat.old).fresh slot ≡ true }
        ensures still { IsStill self.now seat.old seat.new }
        ensures note { note_of P.first seat.new ≡ note_of P.first seat.old }
        ensures known { known_of seat.new ≡ known_of seat.old }
        ensures step { IsStep P.whole self.now seat.old seat.new
            (step.Write (number_of seat.old) slot word value) answer.Written }
    {
        let place = self.slot_place(slot, word);
        let step = Step::Write(seat.number, slot, word, value);
        self.store(&mut seat.inner, place, value, step, None);
    }
}
