//! The steps Shield, Check, Unshield and Scan.

ghost use Rattle.std.specs.Prelude.{◌≡◌, ℕ, ◌<◌, IsTrue, true, false};
ghost use Rattle.pebr_core.specs.declared.kinds.Step.TheVariants as step;
ghost use Rattle.pebr_core.specs.declared.kinds.Answer.TheVariants as answer;
ghost use Rattle.pebr_core.specs.declared.kinds.ShieldAt.TheVariants as shield_at;
ghost use Rattle.pebr_core.specs.State as core;
ghost use Rattle.pebr_core.specs.State.{has, is_out, slot_count, scan_of, has_scanned};
ghost use Rattle.pebr_core.specs.Steps.{is_scanning, after_shield, after_scan, found_under};
ghost use Rattle.pebr_words.specs.Seats.{IsAt, IsStill, IsStep, shape_of, known_of, number_of, note_of};
ghost use Rattle.pebr_shields.specs.Found.{answer_to, checked_seat};

use crate::checked::Checked;
use pebr_words::{RootProtocol, Seat, Words};

/// Sets a shield on a slot that the seat has seen.
pub fn shield<P: RootProtocol>(words: &Words<P>, seat: &mut Seat<P>, place: usize, slot: usize)
    requires at { IsAt words.now seat.old }
    requires place { place < (shape_of words.now).shields }
    requires slot { slot < slot_count (shape_of words.now) }
    requires not_out { is_out (known_of seat.old).status ≡ false }
    requires seen { has (known_of seat.old).seen slot ≡ true }
    ensures still { IsStill words.now seat.old seat.new }
    ensures note { note_of P.first seat.new ≡ note_of P.first seat.old }
    ensures known { known_of seat.new ≡ after_shield place (shield_at.Set slot) (known_of seat.old) }
    ensures step { IsStep P.whole words.now seat.old seat.new (step.Shield (number_of seat.old) place slot) answer.Set }
    ensures set { core.shield_at (known_of seat.new) place ≡ shield_at.Set slot }
{
    words.set_shield(seat, place, slot);
}

/// Looks whether the seat is still in: then its shields on slots that it has seen are valid.
///
/// `Ejected` exactly where its status word says so at this step. By the rule of the table, and by no clause here,
/// another seat then lists this ejection, with a tag not below the epoch of the pin.
pub fn check<P: RootProtocol>(words: &Words<P>, seat: &mut Seat<P>) -> Checked
    requires at { IsAt words.now seat.old }
    requires not_out { is_out (known_of seat.old).status ≡ false }
    ensures still { IsStill words.now seat.old seat.new }
    ensures note { note_of P.first seat.new ≡ note_of P.first seat.old }
    ensures known { known_of seat.new ≡ checked_seat result (known_of seat.old) }
    ensures step { IsStep P.whole words.now seat.old seat.new (step.Check (number_of seat.old)) (answer_to result) }
    ensures valid { result ≡ Checked.Valid → (place slot : ℕ)
        → core.shield_at (known_of seat.old) place ≡ shield_at.Set slot → has (known_of seat.old).seen slot ≡ true
        → core.shield_at (known_of seat.new) place ≡ shield_at.Valid slot }
{
    if words.own_status(seat) {
        Checked::Valid
    } else {
        Checked::Ejected
    }
}

/// Takes a shield down.
pub fn unshield<P: RootProtocol>(words: &Words<P>, seat: &mut Seat<P>, place: usize)
    requires at { IsAt words.now seat.old }
    requires place { place < (shape_of words.now).shields }
    ensures still { IsStill words.now seat.old seat.new }
    ensures note { note_of P.first seat.new ≡ note_of P.first seat.old }
    ensures known { known_of seat.new ≡ after_shield place shield_at.Down (known_of seat.old) }
    ensures step { IsStep P.whole words.now seat.old seat.new
        (step.Unshield (number_of seat.old) place) answer.Cleared }
    ensures down { core.shield_at (known_of seat.new) place ≡ shield_at.Down }
{
    words.clear_shield(seat, place);
}

/// Reads a shield of another seat that the scan has passed. A retired slot that it stands on is kept.
///
/// `None` exactly where the shield was down at this step.
pub fn scan<P: RootProtocol>(
    words: &Words<P>,
    seat: &mut Seat<P>,
    other: usize,
    place: usize,
) -> Option<usize>
    requires at { IsAt words.now seat.old }
    requires other { other < (shape_of words.now).seats }
    requires place { place < (shape_of words.now).shields }
    requires scanning { IsTrue (is_scanning (known_of seat.old)) }
    requires passed { has (scan_of (known_of seat.old)).passed other ≡ true }
    requires unread { has_scanned (scan_of (known_of seat.old)) other place ≡ false }
    ensures still { IsStill words.now seat.old seat.new }
    ensures note { note_of P.first seat.new ≡ note_of P.first seat.old }
    ensures known { known_of seat.new ≡ after_scan other place result (known_of seat.old) }
    ensures step { IsStep P.whole words.now seat.old seat.new (step.Scan (number_of seat.old) other place)
        (found_under result) }
    ensures scanned { has_scanned (scan_of (known_of seat.new)) other place ≡ true }
{
    words.scan_shield(seat, other, place)
}
