//! The steps Note, Pin, Leave and Advance.

ghost use Rattle.std.specs.Prelude.{◌≡◌, ◌<◌, ◌+◌, ◌*◌, IsTrue, false, if◌then◌else◌};
ghost use Rattle.pebr_core.specs.declared.kinds.Step.TheVariants as step;
ghost use Rattle.pebr_core.specs.declared.kinds.Answer.TheVariants as answer;
ghost use Rattle.pebr_core.specs.State.{is_out};
ghost use Rattle.pebr_core.specs.Steps.{after_note, after_pin, after_leave, last_epoch};
ghost use Rattle.pebr_words.specs.Making.{act_on};
ghost use Rattle.pebr_words.specs.Ruled.{CanNote};
ghost use Rattle.pebr_words.specs.Seats.{IsAt, IsStill, IsStep, shape_of, known_of, number_of, note_of, fixed_of};
ghost use Rattle.pebr_words.specs.Seats.{past_of};

use crate::protocol::RootProtocol;
use crate::words::{Seat, Words};
use pebr_core::Step;

/// The word of a seat's status.
pub(crate) fn status_place(number: usize) -> usize
    requires { number < 64 }
    ensures { result ≡ 16 * (number + 1) }
{
    16 * (number + 1)
}

impl<P: RootProtocol> Words<P> {
    /// Reads the epoch, tags the seat's untagged retired slots with it, and opens a scan. It answers the epoch.
    pub fn note(&self, seat: &mut Seat<P>) -> u64
        requires at { IsAt self.now seat.old }
        requires out { IsTrue (is_out (known_of seat.old).status) }
        ensures still { IsStill self.now seat.old seat.new }
        ensures note { note_of P.first seat.new ≡ note_of P.first seat.old }
        ensures known { known_of seat.new ≡ after_note (shape_of self.now) result (known_of seat.old) }
        ensures step { IsStep P.whole self.now seat.old seat.new (step.Note (number_of seat.old))
            (answer.Epoch result) }
    {
        let step = Step::Note(seat.number);
        let epoch = self.load(&mut seat.inner, 0, step, None);
        seat.noted = epoch;
        seat.slots.note(epoch);
        epoch
    }

    /// Announces the noted epoch: the seat is in, has seen no slot, and is at no scan.
    pub fn pin(&self, seat: &mut Seat<P>)
        requires at { IsAt self.now seat.old }
        requires out { IsTrue (is_out (known_of seat.old).status) }
        ensures still { IsStill self.now seat.old seat.new }
        ensures note { note_of P.first seat.new ≡ note_of P.first seat.old }
        ensures known { known_of seat.new ≡ after_pin (known_of seat.old) }
        ensures step { IsStep P.whole self.now seat.old seat.new (step.Pin (number_of seat.old))
            (answer.In (known_of seat.old).noted) }
    {
        let word = status_place(seat.number);
        let status = 4 * seat.noted + 1;
        let step = Step::Pin(seat.number);
        self.store(&mut seat.inner, word, status, step, None);
    }

    /// Takes the announcement back: the seat is out, and has seen no slot. The act changes its note.
    /// That the protocol still keeps then, the caller shows, and may rely on this: the notes back each content that
    /// the seat has read in full under a valid shield.
    pub fn leave(&self, seat: &mut Seat<P>, act: Option<P::Act>)
        requires at { IsAt self.now seat.old }
        requires not_out { is_out (known_of seat.old).status ≡ false }
        requires keeps { CanNote (P.keeps (fixed_of self.now)) (P.backed (fixed_of self.now)) (shape_of self.now)
            (known_of seat.old) (past_of seat.old) (number_of seat.old) (note_of P.first seat.old)
            (act_on P.after act (note_of P.first seat.old)) }
        ensures still { IsStill self.now seat.old seat.new }
        ensures note { note_of P.first seat.new ≡ act_on P.after act (note_of P.first seat.old) }
        ensures known { known_of seat.new ≡ after_leave (known_of seat.old) }
        ensures step { IsStep P.whole self.now seat.old seat.new (step.Leave (number_of seat.old)) answer.Out }
    {
        let word = status_place(seat.number);
        let status = 4 * seat.noted;
        let step = Step::Leave(seat.number);
        self.store(&mut seat.inner, word, status, step, act);
    }

    /// Raises the epoch by one, where it is still the noted one. `false` exactly where it was another at this step.
    pub fn advance(&self, seat: &mut Seat<P>) -> bool
        requires at { IsAt self.now seat.old }
        requires low { (known_of seat.old).noted < last_epoch }
        ensures still { IsStill self.now seat.old seat.new }
        ensures note { note_of P.first seat.new ≡ note_of P.first seat.old }
        ensures known { known_of seat.new ≡ known_of seat.old }
        ensures step { IsStep P.whole self.now seat.old seat.new (step.Advance (number_of seat.old))
            (if result then answer.Epoch ((known_of seat.old).noted + 1) else answer.Lost) }
    {
        let noted = seat.noted;
        let step = Step::Advance(seat.number);
        self.exchange(&mut seat.inner, 0, (noted, noted + 1), step, None) == noted
    }
}
