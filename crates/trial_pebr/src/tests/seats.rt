//! A reader that pins between Advance and Look.

ghost use Rattle.std.specs.Prelude.{◌≡◌, ◌<◌, ℕ, IsTrue, IfOk, true, false};
ghost use Rattle.pebr_core.specs.Steps.{is_scanning};
ghost use Rattle.pebr_core.specs.declared.kinds.ShieldAt.TheVariants as shield;
ghost use Rattle.pebr_core.specs.State.{has, is_out, shield_at, slot_count, scan_of};
ghost use Rattle.pebr_words.specs.Seats.{IsAt, IsStill, IsUnited, IsOpenedSeat, shape_of, known_of, number_of};
ghost use Rattle.pebr_words.specs.Seats.{count_of};

use crate::tests::free::Free;
use crate::tests::pairs::both_of;
use no_memory::NoMemory;
use pebr_core::{LAST_EPOCH, valid_shields_protect};
use pebr_words::{Looked, Seat, Shape, Words};
use std::alloc::Global;

/// Puts slot 2 with the content 7 into the second root. `false` where the seat is ejected, or the root has another
/// slot.
fn replace(words: &Words<Free>, seat: &mut Seat<Free>) -> bool
    requires at { IsAt words.now seat.old }
    requires out { IsTrue (is_out (known_of seat.old).status) }
    requires shape { shape_of words.now ≡ record { roots = 2; seats = 2; shields = 1; batch = 1; width = 1 } }
    requires fresh { has (known_of seat.old).fresh 2 ≡ true }
    ensures still { IsStill words.now seat.old seat.new }
    ensures out { IsTrue (is_out (known_of seat.new).status) }
{
    words.note(seat);
    words.pin(seat);
    let old = words.load_root(seat, 1);
    words.set_shield(seat, 0, old);
    let replaced = words.own_status(seat) && swap(words, seat, old);
    words.clear_shield(seat, 0);
    words.leave(seat, None);
    replaced
}

/// Writes slot 2 and puts it into the second root.
fn swap(words: &Words<Free>, seat: &mut Seat<Free>, old: usize) -> bool
    requires at { IsAt words.now seat.old }
    requires pinned { is_out (known_of seat.old).status ≡ false }
    requires shape { shape_of words.now ≡ record { roots = 2; seats = 2; shields = 1; batch = 1; width = 1 } }
    requires range { old < slot_count (shape_of words.now) }
    requires valid { shield_at (known_of seat.old) 0 ≡ shield.Valid old }
    requires fresh { has (known_of seat.old).fresh 2 ≡ true }
    ensures still { IsStill words.now seat.old seat.new }
    ensures pinned { is_out (known_of seat.new).status ≡ false }
{
    valid_shields_protect();
    words.write_word(seat, 2, 0, 7);
    words.replace_root(seat, 1, old, 2, None)
}

/// Notes, and raises the epoch: the epoch that was noted, and whether it was raised.
fn open_scan(words: &Words<Free>, seat: &mut Seat<Free>) -> (u64, bool)
    requires at { IsAt words.now seat.old }
    requires out { IsTrue (is_out (known_of seat.old).status) }
    ensures still { IsStill words.now seat.old seat.new }
    ensures out { IsTrue (is_out (known_of seat.new).status) }
    ensures scanning { IsTrue (is_scanning (known_of seat.new)) }
    ensures unpassed { (other : ℕ) → has (scan_of (known_of seat.new)).passed other ≡ false }
{
    let noted = words.note(seat);
    if noted < LAST_EPOCH {
        (noted, words.advance(seat))
    } else {
        (noted, false)
    }
}

/// Looks at the other seat, and ejects it where it is in the way.
fn look(words: &Words<Free>, seat: &mut Seat<Free>) -> (Looked, bool)
    requires at { IsAt words.now seat.old }
    requires out { IsTrue (is_out (known_of seat.old).status) }
    requires two { ((shape_of words.now).seats ≡ 2) × (number_of seat.old ≡ 0) }
    requires scanning { IsTrue (is_scanning (known_of seat.old)) }
    requires unpassed { (other : ℕ) → has (scan_of (known_of seat.old)).passed other ≡ false }
    ensures still { IsStill words.now seat.old seat.new }
    ensures out { IsTrue (is_out (known_of seat.new).status) }
{
    let looked = words.look(seat, 1);
    let ejected = match looked {
        Looked::Passed => false,
        Looked::In(_) => words.eject(seat, 1),
    };
    (looked, ejected)
}

/// The first seat, which has retired a slot, opens a scan and looks at the second seat, which pins between Advance and
/// Look, and notes before the first seat's Note, or between Advance and Look too. Gives the epoch that the first seat
/// noted, whether it raised the epoch, what its look found, whether it ejected, and whether the second seat was still
/// in afterwards.
fn pinned_between(
    words: &Words<Free>,
    first: &mut Seat<Free>,
    second: &mut Seat<Free>,
    notes_before: bool,
) -> (u64, bool, Looked, bool, bool)
    requires shape { shape_of words.now ≡ record { roots = 2; seats = 2; shields = 1; batch = 1; width = 1 } }
    requires first { IsAt words.now first.old × (number_of first.old ≡ 0)
        × IsTrue (is_out (known_of first.old).status) }
    requires second { IsAt words.now second.old × IsTrue (is_out (known_of second.old).status) }
    ensures still { IsStill words.now first.old first.new × IsStill words.now second.old second.new }
    ensures out { IsTrue (is_out (known_of first.new).status) × IsTrue (is_out (known_of second.new).status) }
{
    words.note(second);
    let (noted, raised) = open_scan(words, first);
    if !notes_before {
        words.note(second);
    }
    words.pin(second);
    let (looked, ejected) = look(words, first);
    let is_in = words.own_status(second);
    words.leave(second, None);
    (noted, raised, looked, ejected, is_in)
}

/// Words of two roots and two seats.
fn two(alloc: Global) -> Result<(Words<Free>, Seat<Free>, Seat<Free>), NoMemory>
    ensures shape { IfOk result (λ r. shape_of r.0 ≡ record {
      roots = 2;
      seats = 2;
      shields = 1;
      batch = 1;
      width = 1;
    }) }
    ensures first { IfOk result (λ r. IsOpenedSeat r.0 tt 0 r.1) }
    ensures second { IfOk result (λ r. IsOpenedSeat r.0 tt 1 r.2) }
{
    let shape = Shape {
        roots: 2,
        seats: 2,
        shields: 1,
        batch: 1,
        width: 1,
    };
    let (words, seats) = Words::<Free>::open(alloc, shape, (), &[5, 6])?;
    let (first, second) = both_of(seats)?;
    Ok((words, first, second))
}

/// Both contents, after both seats were made one.
fn contents_at_end(
    words: Words<Free>,
    alloc: Global,
    first: Seat<Free>,
    second: Seat<Free>,
) -> Result<(u64, u64), NoMemory>
    requires at { IsAt words first × IsAt words second }
    requires shape { shape_of words ≡ record { roots = 2; seats = 2; shields = 1; batch = 1; width = 1 } }
    requires out { IsTrue (is_out (known_of first).status) × IsTrue (is_out (known_of second).status) }
    requires count { (count_of first ≡ 1) × (count_of second ≡ 1) }
    requires united { IsUnited tt first × IsUnited tt second }
{
    let all = words.unite(first, second);
    let contents = words.close(alloc, all)?;
    Ok((contents[0], contents[1]))
}

#[test]
fn a_reader_pins_between_advance_and_look(rt: HostRuntime) {
    let alloc = rt.alloc();
    // With the old epoch the second seat may have loaded the retired slot, so it is ejected; with the new one it can't
    // have.
    let rows = [
        (true, (0, true, Looked::In(0), true, false)),
        (false, (0, true, Looked::Passed, false, true)),
    ];
    for (notes_before, wanted) in rows {
        let Ok((words, mut first, mut second)) = two(alloc) else {
            panic!(rt; "no memory");
        };
        assert!(rt; replace(&words, &mut first));
        let found = pinned_between(&words, &mut first, &mut second, notes_before);
        assert!(rt; found == wanted, "notes before: {notes_before}");
        let Ok(contents) = contents_at_end(words, alloc, first, second) else {
            panic!(rt; "no memory");
        };
        assert!(rt; contents == (5, 7));
    }
}
