//! The parts of a collection: opening a scan, passing the other seats, and reading their shields.

ghost use Rattle.std.specs.Prelude.{◌≡◌, ◌≢◌, ℕ, ◌+◌, ◌-◌, ◌*◌, ◌<◌, ◌≤◌, IsTrue, true, false, if◌then◌else◌, ◌==◌};
ghost use Rattle.pebr_core.specs.State.{has, is_out, scan_of, has_scanned};
ghost use Rattle.pebr_core.specs.Steps.{is_scanning, after_note};
ghost use Rattle.pebr_core.specs.Frames.{kept_count};
ghost use Rattle.pebr_words.specs.Ruled.{IsSure};
ghost use Rattle.pebr_words.specs.Seats.{IsAt, IsStill, shape_of, known_of, number_of, note_of, past_of, operations_of};
ghost use Rattle.pebr_roots.specs.Collecting.{HasOpened, HasLooked, IsPassing, ArePassing, IsReading, AreReading};
ghost use Rattle.pebr_roots.specs.Collecting.{others_below, IsCounted};
ghost use Rattle.pebr_roots.specs.Orders.{opened_operations, ButFor, HasPassed, HasPassedAll, HasEndedAt};
ghost use Rattle.pebr_roots.specs.Orders.{HasScannedSome, AreScannedBelow};

use pebr_core::{LAST_EPOCH, kept_slots_are_counted};
use pebr_shields::{RootProtocol, Seat, Words, scan};
use pebr_words::Looked;

/// Opens a scan, and raises the epoch unless it is the last.
pub fn open_scan<P: RootProtocol>(words: &Words<P>, seat: &mut Seat<P>)
    requires at { IsAt words.now seat.old }
    requires out { IsTrue (is_out (known_of seat.old).status) }
    ensures still { IsStill words.now seat.old seat.new }
    ensures note { note_of P.first seat.new ≡ note_of P.first seat.old }
    ensures known { known_of seat.new ≡ after_note (shape_of words.now) (known_of seat.new).noted (known_of seat.old) }
    ensures past { HasOpened (past_of seat.old) (past_of seat.new) (known_of seat.new).noted }
    ensures operations { (found : ℕ) × (operations_of seat.new ≡ opened_operations (shape_of words.now)
        (known_of seat.new).noted found (operations_of seat.old)) }
    ensures counted { IsCounted (past_of seat.old) (past_of seat.new) (operations_of seat.old)
        (operations_of seat.new) }
{
    let epoch = words.note(seat);
    if epoch < LAST_EPOCH {
        words.advance(seat);
    }
}

/// Looks at a seat, and with force ejects it where it holds the scan up. Answers whether it is passed; the
/// seat itself needn't be, and counts as passed.
pub fn pass<P: RootProtocol>(
    words: &Words<P>,
    seat: &mut Seat<P>,
    other: usize,
    force: bool,
) -> bool
    requires at { IsAt words.now seat.old }
    requires other { other < (shape_of words.now).seats }
    requires scanning { IsTrue (is_scanning (known_of seat.old)) }
    requires unpassed { has (scan_of (known_of seat.old)).passed other ≡ false }
    ensures still { IsStill words.now seat.old seat.new }
    ensures note { note_of P.first seat.new ≡ note_of P.first seat.old }
    ensures known { IsPassing (number_of seat.old) other result (known_of seat.old) (known_of seat.new) }
    ensures past { HasLooked (past_of seat.old) (past_of seat.new) (if other == number_of seat.old then 0 else 2) }
    ensures operations { ButFor (number_of seat.old)
        (λ j. HasPassed (shape_of words.now) (known_of seat.old) force j result) other (operations_of seat.old)
        (operations_of seat.new) }
    ensures own { other ≡ number_of seat.old → IsTrue result }
    ensures counted { IsCounted (past_of seat.old) (past_of seat.new) (operations_of seat.old)
        (operations_of seat.new) }
    ensures forced { IsTrue force → IsTrue result }
    ensures mild { force ≡ false → (past_of seat.new).ejections ≡ (past_of seat.old).ejections }
    ensures sure { result ≡ false → IsSure P.whole (shape_of words.now) (known_of seat.new) (past_of seat.new) }
{
    if other == seat.number() {
        return true;
    }
    match words.look(seat, other) {
        Looked::Passed => true,
        Looked::In(_) => {
            if force {
                words.eject(seat, other);
                true
            } else {
                false
            }
        }
    }
}

/// Passes all other seats, in rising order, up to the first that holds the scan up.
pub fn pass_all<P: RootProtocol>(words: &Words<P>, seat: &mut Seat<P>, force: bool) -> bool
    requires at { IsAt words.now seat.old }
    requires scanning { IsTrue (is_scanning (known_of seat.old)) }
    requires unpassed { (j : ℕ) → has (scan_of (known_of seat.old)).passed j ≡ false }
    ensures still { IsStill words.now seat.old seat.new }
    ensures note { note_of P.first seat.new ≡ note_of P.first seat.old }
    ensures known { ArePassing (number_of seat.old) (shape_of words.now).seats result (known_of seat.old)
        (known_of seat.new) }
    ensures past { HasLooked (past_of seat.old) (past_of seat.new) (2 * ((shape_of words.now).seats - 1)) }
    ensures operations { IsTrue result → HasPassedAll (shape_of words.now) (known_of seat.old) force
        (number_of seat.old) (operations_of seat.old) (operations_of seat.new) }
    ensures ended { result ≡ false → HasEndedAt (shape_of words.now) (known_of seat.old) force (number_of seat.old)
        (operations_of seat.old) (operations_of seat.new) }
    ensures counted { IsCounted (past_of seat.old) (past_of seat.new) (operations_of seat.old)
        (operations_of seat.new) }
    ensures forced { IsTrue force → IsTrue result }
    ensures mild { force ≡ false → (past_of seat.new).ejections ≡ (past_of seat.old).ejections }
    ensures sure { result ≡ false → IsSure P.whole (shape_of words.now) (known_of seat.new) (past_of seat.new) }
{
    for other in 0..words.shape().seats {
        if !pass(words, seat, other, force) {
            return false;
        }
    }
    true
}

/// Reads the shields of another seat, which is passed.
fn scan_seat<P: RootProtocol>(words: &Words<P>, seat: &mut Seat<P>, other: usize)
    requires at { IsAt words.now seat.old }
    requires other { other < (shape_of words.now).seats }
    requires scanning { IsTrue (is_scanning (known_of seat.old)) }
    requires passed { has (scan_of (known_of seat.old)).passed other ≡ true }
    requires unread { (place : ℕ) → has_scanned (scan_of (known_of seat.old)) other place ≡ false }
    ensures still { IsStill words.now seat.old seat.new }
    ensures note { note_of P.first seat.new ≡ note_of P.first seat.old }
    ensures known { IsReading other (shape_of words.now).shields (known_of seat.old) (known_of seat.new) }
    ensures past { HasLooked (past_of seat.old) (past_of seat.new) (shape_of words.now).shields }
    ensures operations { HasScannedSome (shape_of words.now) other (shape_of words.now).shields
        (operations_of seat.old) (operations_of seat.new) }
    ensures counted { IsCounted (past_of seat.old) (past_of seat.new) (operations_of seat.old)
        (operations_of seat.new) }
    ensures ejections { (past_of seat.new).ejections ≡ (past_of seat.old).ejections }
{
    kept_slots_are_counted();
    for place in 0..words.shape().shields {
        scan(words, seat, other, place);
    }
}

/// The same, but nothing at the seat itself.
fn scan_other<P: RootProtocol>(words: &Words<P>, seat: &mut Seat<P>, other: usize)
    requires at { IsAt words.now seat.old }
    requires other { other < (shape_of words.now).seats }
    requires scanning { IsTrue (is_scanning (known_of seat.old)) }
    requires passed { other ≢ number_of seat.old → has (scan_of (known_of seat.old)).passed other ≡ true }
    requires unread { (place : ℕ) → has_scanned (scan_of (known_of seat.old)) other place ≡ false }
    ensures still { IsStill words.now seat.old seat.new }
    ensures note { note_of P.first seat.new ≡ note_of P.first seat.old }
    ensures known { IsReading other (if other == number_of seat.old then 0 else (shape_of words.now).shields)
        (known_of seat.old) (known_of seat.new) }
    ensures past { HasLooked (past_of seat.old) (past_of seat.new)
        (if other == number_of seat.old then 0 else (shape_of words.now).shields) }
    ensures operations { ButFor (number_of seat.old)
        (λ j. HasScannedSome (shape_of words.now) j (shape_of words.now).shields) other (operations_of seat.old)
        (operations_of seat.new) }
    ensures counted { IsCounted (past_of seat.old) (past_of seat.new) (operations_of seat.old)
        (operations_of seat.new) }
    ensures ejections { (past_of seat.new).ejections ≡ (past_of seat.old).ejections }
{
    if other != seat.number() {
        scan_seat(words, seat, other);
    }
}

/// Reads the shields of all other seats, which are passed.
pub fn scan_all<P: RootProtocol>(words: &Words<P>, seat: &mut Seat<P>)
    requires at { IsAt words.now seat.old }
    requires scanning { IsTrue (is_scanning (known_of seat.old)) }
    requires passed { (j : ℕ) → j < (shape_of words.now).seats → j ≢ number_of seat.old
        → has (scan_of (known_of seat.old)).passed j ≡ true }
    requires unread { (j place : ℕ) → has_scanned (scan_of (known_of seat.old)) j place ≡ false }
    ensures still { IsStill words.now seat.old seat.new }
    ensures note { note_of P.first seat.new ≡ note_of P.first seat.old }
    ensures known { AreReading (number_of seat.old) (shape_of words.now).seats (shape_of words.now).shields
        (known_of seat.old) (known_of seat.new) }
    ensures kept { kept_count (known_of seat.new)
        ≤ kept_count (known_of seat.old) + ((shape_of words.now).seats - 1) * (shape_of words.now).shields }
    ensures past { HasLooked (past_of seat.old) (past_of seat.new)
        (((shape_of words.now).seats - 1) * (shape_of words.now).shields) }
    ensures operations { AreScannedBelow (shape_of words.now) (number_of seat.old) (shape_of words.now).seats
        (operations_of seat.old) (operations_of seat.new) }
    ensures counted { IsCounted (past_of seat.old) (past_of seat.new) (operations_of seat.old)
        (operations_of seat.new) }
    ensures ejections { (past_of seat.new).ejections ≡ (past_of seat.old).ejections }
{
    for other in 0..words.shape().seats {
        scan_other(words, seat, other);
    }
}
