//! The steps Scan and Give.

ghost use Rattle.std.specs.Prelude.{◌≡◌, ◌≢◌, ◌<◌, IsTrue, true, false};
ghost use Rattle.std.specs.List.{list_all};
ghost use Rattle.pebr_core.specs.declared.kinds.Step.TheVariants as step;
ghost use Rattle.pebr_core.specs.declared.kinds.Answer.TheVariants as answer;
ghost use Rattle.pebr_core.specs.State.{has, scan_of, has_scanned, is_down};
ghost use Rattle.pebr_core.specs.Steps.{is_scanning, is_complete, after_scan, after_give, found_under};
ghost use Rattle.pebr_words.specs.Making.{slot_from};
ghost use Rattle.pebr_words.specs.Mirrors.{CanKeep, kept_after};
ghost use Rattle.pebr_words.specs.Seats.{IsAt, IsStill, IsStep, shape_of, known_of, number_of, note_of};

use crate::protocol::RootProtocol;
use crate::shields::shield_place;
use crate::words::{Seat, Words};
use pebr_core::Step;
use pebr_slots::SeatSlots;

/// The slot that a shield word tells.
fn slot_told(word: u64) -> Option<usize>
    ensures { result ≡ slot_from word }
{
    if word == 0 {
        return None;
    }
    Some((word - 1) as usize)
}

/// A slot that a shield was found on is kept, where it is retired.
fn keep_found(slots: &mut SeatSlots, slot: Option<usize>)
    requires { CanKeep slots.old slot }
    ensures fresh { slots.new.fresh ≡ slots.old.fresh }
    ensures retired { slots.new.retired ≡ slots.old.retired }
    ensures kept { slots.new.kept ≡ kept_after slots.old slot }
    ensures room { slots.new.room ≡ slots.old.room }
{
    if let Some(slot) = slot {
        slots.keep(slot);
    }
}

impl<P: RootProtocol> Words<P> {
    /// Reads a shield of another seat that is passed: a candidate that it stands on is kept.
    pub fn scan_shield(&self, seat: &mut Seat<P>, other: usize, place: usize) -> Option<usize>
        requires at { IsAt self.now seat.old }
        requires other { other < (shape_of self.now).seats }
        requires place { place < (shape_of self.now).shields }
        requires scanning { IsTrue (is_scanning (known_of seat.old)) }
        requires passed { has (scan_of (known_of seat.old)).passed other ≡ true }
        requires unread { has_scanned (scan_of (known_of seat.old)) other place ≡ false }
        ensures still { IsStill self.now seat.old seat.new }
        ensures note { note_of P.first seat.new ≡ note_of P.first seat.old }
        ensures known { known_of seat.new ≡ after_scan other place result (known_of seat.old) }
        ensures step { IsStep P.whole self.now seat.old seat.new (step.Scan (number_of seat.old) other place)
            (found_under result) }
        ensures scanned { has_scanned (scan_of (known_of seat.new)) other place ≡ true }
    {
        let word = shield_place(self.shape, other, place);
        let step = Step::Scan(seat.number, other, place);
        let slot = slot_told(self.load(&mut seat.inner, word, step, None));
        keep_found(&mut seat.slots, slot);
        slot
    }

    /// The candidates that aren't kept are fresh. It answers how many these are, and how many slots are
    /// still retired.
    pub fn give(&self, seat: &mut Seat<P>) -> (usize, usize)
        requires at { IsAt self.now seat.old }
        requires scanning { IsTrue (is_scanning (known_of seat.old)) }
        requires complete { IsTrue
            (is_complete (shape_of self.now) (number_of seat.old) (scan_of (known_of seat.old))) }
        requires down { IsTrue (list_all is_down (known_of seat.old).shields) }
        ensures still { IsStill self.now seat.old seat.new }
        ensures note { note_of P.first seat.new ≡ note_of P.first seat.old }
        ensures known { known_of seat.new ≡ after_give (known_of seat.new).noted (known_of seat.old) }
        ensures step { IsStep P.whole self.now seat.old seat.new (step.Give (number_of seat.old))
            (answer.Given result.0 result.1) }
    {
        let step = Step::Give(seat.number);
        let epoch = self.load(&mut seat.inner, 0, step, None);
        seat.noted = epoch;
        seat.slots.give()
    }
}
