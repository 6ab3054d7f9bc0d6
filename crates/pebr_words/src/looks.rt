//! The steps Look and Eject.

ghost use Rattle.std.specs.Prelude.{◌≡◌, ◌≢◌, ℕ, Some, true, ◌<◌, length, IsTrue, IsSome, false, if◌then◌else◌};
ghost use Rattle.pebr_core.specs.declared.kinds.Step.TheVariants as step;
ghost use Rattle.pebr_core.specs.declared.kinds.Answer.TheVariants as answer;
ghost use Rattle.pebr_core.specs.State.{has, scan_of, found_at};
ghost use Rattle.pebr_core.specs.Steps.{is_scanning, after_pass};
ghost use Rattle.pebr_words.specs.Making.{stance_from};
ghost use Rattle.pebr_words.specs.Mirrors.{look_answer, answer_as, in_epoch, looked_from, found_after, IsLow};
ghost use Rattle.pebr_words.specs.Seats.{IsAt, IsStill, IsStep, shape_of, known_of, number_of, note_of};

use crate::looked::Looked;
use crate::pins::status_place;
use crate::protocol::RootProtocol;
use crate::words::{Seat, Words};
use pebr_core::Step;

/// The epoch of a status word that says In.
fn epoch_in(word: u64) -> Option<u64>
    ensures { result ≡ in_epoch (stance_from word) }
{
    if word % 4 == 1 { Some(word / 4) } else { None }
}

/// Whether a seat with this status word can be passed.
fn judge(newest: Option<u64>, word: u64) -> Looked
    ensures answer { answer_as result ≡ look_answer newest (stance_from word) }
    ensures low { IsLow result }
{
    let Some(epoch) = epoch_in(word) else {
        return Looked::Passed;
    };
    match newest {
        Some(tag) if epoch <= tag => Looked::In(epoch),
        _ => Looked::Passed,
    }
}

/// Keeps the epoch that a look found.
fn keep(found: &mut Vec<u64>, other: usize, looked: Looked)
    requires { other < length found.old.items }
    ensures { found.new.items ≡ found_after found.old.items other looked }
{
    if let Looked::In(epoch) = looked {
        found[other] = epoch;
    }
}

impl<P: RootProtocol> Words<P> {
    /// Looks at the status of another seat. A seat that is out or ejected, or in with an epoch above
    /// each candidate's tag, is passed. Of any other it answers the epoch with which that is in.
    pub fn look(&self, seat: &mut Seat<P>, other: usize) -> Looked
        requires at { IsAt self.now seat.old }
        requires other { (other < (shape_of self.now).seats) × (other ≢ number_of seat.old) }
        requires scanning { IsTrue (is_scanning (known_of seat.old)) }
        requires unpassed { has (scan_of (known_of seat.old)).passed other ≡ false }
        ensures still { IsStill self.now seat.old seat.new }
        ensures note { note_of P.first seat.new ≡ note_of P.first seat.old }
        ensures known { known_of seat.new ≡ looked_from other result (known_of seat.old) }
        ensures step { IsStep P.whole self.now seat.old seat.new (step.Look (number_of seat.old) other)
            (answer_as result) }
        ensures passed { result ≡ Looked.Passed → has (scan_of (known_of seat.new)).passed other ≡ true }
        ensures found { (epoch : ℕ) → result ≡ Looked.In epoch
            → found_at (scan_of (known_of seat.new)) other ≡ Some epoch }
    {
        let word = status_place(other);
        let step = Step::Look(seat.number, other);
        let found = self.load(&mut seat.inner, word, step, None);
        let looked = judge(seat.slots.newest_tag(), found);
        keep(&mut seat.found, other, looked);
        looked
    }

    /// Ejects another seat that is still in with the epoch found, and passes it in any case. `false` exactly where its
    /// status word was another at this step.
    pub fn eject(&self, seat: &mut Seat<P>, other: usize) -> bool
        requires at { IsAt self.now seat.old }
        requires other { other < (shape_of self.now).seats }
        requires scanning { IsTrue (is_scanning (known_of seat.old)) }
        requires looked { IsSome (found_at (scan_of (known_of seat.old)) other) }
        requires unpassed { has (scan_of (known_of seat.old)).passed other ≡ false }
        ensures still { IsStill self.now seat.old seat.new }
        ensures note { note_of P.first seat.new ≡ note_of P.first seat.old }
        ensures known { known_of seat.new ≡ after_pass other (known_of seat.old) }
        ensures step { IsStep P.whole self.now seat.old seat.new (step.Eject (number_of seat.old) other)
            (if result then answer.Ejected else answer.Lost) }
        ensures passed { has (scan_of (known_of seat.new)).passed other ≡ true }
    {
        let word = status_place(other);
        let was_in = 4 * seat.found[other] + 1;
        let step = Step::Eject(seat.number, other);
        self.exchange(&mut seat.inner, word, (was_in, was_in + 1), step, None) == was_in
    }
}
