//! Two seats on one thread.

ghost use Rattle.std.specs.Prelude.{◌≡◌, ◌≢◌, ◌<◌, ℕ, IsTrue, IfSome, IfOk, true, false};
ghost use Rattle.pebr_core.specs.declared.kinds.ShieldAt.TheVariants as shield;
ghost use Rattle.pebr_core.specs.Steps.{is_shielded, is_scanning};
ghost use Rattle.pebr_core.specs.State.{has, is_out, shield_at, slot_count, scan_of, has_scanned};
ghost use Rattle.pebr_words.specs.Seats.{IsAt, IsStill, IsUnited, IsOpenedSeat, shape_of, known_of, number_of};
ghost use Rattle.pebr_words.specs.Seats.{count_of};

use crate::tests::free::Free;
use crate::tests::pairs::both_of;
use no_memory::NoMemory;
use pebr_core::{LAST_EPOCH, Shape, valid_shields_protect};
use pebr_words::{Looked, Seat, Words};
use std::alloc::Global;

/// Notes, pins, loads the root and sets the shield on its slot: the epoch, and the slot.
fn reach(words: &Words<Free>, seat: &mut Seat<Free>) -> (u64, usize)
    requires at { IsAt words.now seat.old }
    requires out { IsTrue (is_out (known_of seat.old).status) }
    requires one { ((shape_of words.now).roots ≡ 1) × ((shape_of words.now).shields ≡ 1) }
    ensures still { IsStill words.now seat.old seat.new }
    ensures pinned { is_out (known_of seat.new).status ≡ false }
    ensures slot { result.1 < slot_count (shape_of words.now) }
    ensures seen { has (known_of seat.new).seen result.1 ≡ true }
    ensures set { shield_at (known_of seat.new) 0 ≡ shield.Set result.1 }
    ensures fresh { (known_of seat.new).fresh ≡ (known_of seat.old).fresh }
{
    let epoch = words.note(seat);
    words.pin(seat);
    let slot = words.load_root(seat, 0);
    words.set_shield(seat, 0, slot);
    (epoch, slot)
}

/// Does what [`reach`] does, and checks: the epoch, and the slot, if the shield is valid.
fn protect(words: &Words<Free>, seat: &mut Seat<Free>) -> (u64, Option<usize>)
    requires at { IsAt words.now seat.old }
    requires out { IsTrue (is_out (known_of seat.old).status) }
    requires one { ((shape_of words.now).roots ≡ 1) × ((shape_of words.now).shields ≡ 1) }
    ensures still { IsStill words.now seat.old seat.new }
    ensures pinned { is_out (known_of seat.new).status ≡ false }
    ensures slot { IfSome result.1 (λ slot. slot < slot_count (shape_of words.now)) }
    ensures valid { IfSome result.1 (λ slot. shield_at (known_of seat.new) 0 ≡ shield.Valid slot) }
    ensures fresh { (known_of seat.new).fresh ≡ (known_of seat.old).fresh }
{
    let (epoch, slot) = reach(words, seat);
    if words.own_status(seat) {
        (epoch, Some(slot))
    } else {
        (epoch, None)
    }
}

/// Writes 7 into a fresh slot and puts it into the root: the epoch that was noted, and whether the root was replaced.
fn replace(words: &Words<Free>, seat: &mut Seat<Free>, new: usize) -> (u64, bool)
    requires at { IsAt words.now seat.old }
    requires out { IsTrue (is_out (known_of seat.old).status) }
    requires one { ((shape_of words.now).roots ≡ 1) × ((shape_of words.now).shields ≡ 1)
        × (0 < (shape_of words.now).width) }
    requires range { new < slot_count (shape_of words.now) }
    requires fresh { has (known_of seat.old).fresh new ≡ true }
    ensures still { IsStill words.now seat.old seat.new }
    ensures out { IsTrue (is_out (known_of seat.new).status) }
    ensures down { shield_at (known_of seat.new) 0 ≡ shield.Down }
{
    let (epoch, slot) = protect(words, seat);
    let replaced = swap_if(words, seat, slot, new);
    words.clear_shield(seat, 0);
    words.leave(seat, None);
    (epoch, replaced)
}

/// Writes and replaces, where the old slot is under a valid shield.
fn swap_if(words: &Words<Free>, seat: &mut Seat<Free>, slot: Option<usize>, new: usize) -> bool
    requires at { IsAt words.now seat.old }
    requires pinned { is_out (known_of seat.old).status ≡ false }
    requires root { (0 < (shape_of words.now).roots) × (0 < (shape_of words.now).width) }
    requires range { new < slot_count (shape_of words.now) }
    requires slot { IfSome slot (λ slot. slot < slot_count (shape_of words.now)) }
    requires valid { IfSome slot (λ slot. shield_at (known_of seat.old) 0 ≡ shield.Valid slot) }
    requires fresh { has (known_of seat.old).fresh new ≡ true }
    ensures still { IsStill words.now seat.old seat.new }
    ensures pinned { is_out (known_of seat.new).status ≡ false }
{
    valid_shields_protect();
    match slot {
        Some(old) => swap(words, seat, old, new),
        None => false,
    }
}

/// Replaces the root's old slot by the new one, and tells whether that was done.
fn swap(words: &Words<Free>, seat: &mut Seat<Free>, old: usize, new: usize) -> bool
    requires at { IsAt words.now seat.old }
    requires pinned { is_out (known_of seat.old).status ≡ false }
    requires root { (0 < (shape_of words.now).roots) × (0 < (shape_of words.now).width) }
    requires range { (old < slot_count (shape_of words.now)) × (new < slot_count (shape_of words.now)) }
    requires shielded { IsTrue (is_shielded (known_of seat.old) old) }
    requires fresh { has (known_of seat.old).fresh new ≡ true }
    ensures still { IsStill words.now seat.old seat.new }
    ensures pinned { is_out (known_of seat.new).status ≡ false }
{
    words.write_word(seat, new, 0, 7);
    words.replace_root(seat, 0, old, new, None)
}

/// Notes and pins: the epoch.
fn enter(words: &Words<Free>, seat: &mut Seat<Free>) -> u64
    requires at { IsAt words.now seat.old }
    requires out { IsTrue (is_out (known_of seat.old).status) }
    ensures still { IsStill words.now seat.old seat.new }
    ensures pinned { is_out (known_of seat.new).status ≡ false }
{
    let epoch = words.note(seat);
    words.pin(seat);
    epoch
}

/// Opens a scan, and raises the epoch: the epoch that was noted, and whether it was raised.
fn open_scan(words: &Words<Free>, seat: &mut Seat<Free>) -> (u64, bool)
    requires at { IsAt words.now seat.old }
    requires out { IsTrue (is_out (known_of seat.old).status) }
    ensures still { IsStill words.now seat.old seat.new }
    ensures out { IsTrue (is_out (known_of seat.new).status) }
    ensures shields { (known_of seat.new).shields ≡ (known_of seat.old).shields }
    ensures scanning { IsTrue (is_scanning (known_of seat.new)) }
    ensures unpassed { (other : ℕ) → has (scan_of (known_of seat.new)).passed other ≡ false }
    ensures unread { (other place : ℕ) → has_scanned (scan_of (known_of seat.new)) other place ≡ false }
{
    let noted = words.note(seat);
    if noted < LAST_EPOCH {
        let raised = words.advance(seat);
        (noted, raised)
    } else {
        (noted, false)
    }
}

/// Opens a scan and looks at another seat, which is ejected where it is in the way: the epoch that was noted, whether
/// it was raised, what the look found, and whether the other seat was ejected.
fn pass(words: &Words<Free>, seat: &mut Seat<Free>, other: usize) -> (u64, bool, Looked, bool)
    requires at { IsAt words.now seat.old }
    requires out { IsTrue (is_out (known_of seat.old).status) }
    requires other { (other < (shape_of words.now).seats) × (other ≢ number_of seat.old) }
    ensures still { IsStill words.now seat.old seat.new }
    ensures out { IsTrue (is_out (known_of seat.new).status) }
    ensures shields { (known_of seat.new).shields ≡ (known_of seat.old).shields }
    ensures scanning { IsTrue (is_scanning (known_of seat.new)) }
    ensures passed { has (scan_of (known_of seat.new)).passed other ≡ true }
    ensures unread { has_scanned (scan_of (known_of seat.new)) other 0 ≡ false }
{
    let (noted, raised) = open_scan(words, seat);
    let looked = words.look(seat, other);
    let ejected = match looked {
        Looked::Passed => false,
        Looked::In(_) => words.eject(seat, other),
    };
    (noted, raised, looked, ejected)
}

/// Reads the shield of the other seat, which was passed, and gives back what isn't kept.
fn collect(words: &Words<Free>, seat: &mut Seat<Free>) -> (Option<usize>, (usize, usize))
    requires at { IsAt words.now seat.old }
    requires out { IsTrue (is_out (known_of seat.old).status) }
    requires two { ((shape_of words.now).seats ≡ 2) × ((shape_of words.now).shields ≡ 1) × (number_of seat.old ≡ 0) }
    requires down { shield_at (known_of seat.old) 0 ≡ shield.Down }
    requires scanning { IsTrue (is_scanning (known_of seat.old)) }
    requires passed { has (scan_of (known_of seat.old)).passed 1 ≡ true }
    requires unread { has_scanned (scan_of (known_of seat.old)) 1 0 ≡ false }
    ensures still { IsStill words.now seat.old seat.new }
    ensures out { IsTrue (is_out (known_of seat.new).status) }
    ensures shields { (known_of seat.new).shields ≡ (known_of seat.old).shields }
{
    let found = words.scan_shield(seat, 1, 0);
    let counts = words.give(seat);
    (found, counts)
}

/// The first worked schedule: the second seat pins and sets a shield, and before it checks, the first one
/// replaces the slot and ejects it.
fn ejected_before_its_check(
    words: &Words<Free>,
    first: &mut Seat<Free>,
    second: &mut Seat<Free>,
) -> bool
    requires shape { shape_of words.now ≡ record { roots = 1; seats = 2; shields = 1; batch = 1; width = 1 } }
    requires first { IsOpenedSeat words.now tt 0 first.old }
    requires second { IsOpenedSeat words.now tt 1 second.old }
    ensures still { IsStill words.now first.old first.new × IsStill words.now second.old second.new }
    ensures out { IsTrue (is_out (known_of first.new).status) × IsTrue (is_out (known_of second.new).status) }
{
    let (pinned, slot) = reach(words, second);
    let (epoch, replaced) = replace(words, first, 1);
    let (noted, raised, looked, ejected) = pass(words, first, 1);
    let still_in = words.own_status(second);
    words.clear_shield(second, 0);
    let (found, counts) = collect(words, first);
    words.leave(second, None);
    slot == 0
        && replaced
        && (pinned == 0 && epoch == 0 && noted == 0)
        && raised
        && looked == Looked::In(0)
        && ejected
        && !still_in
        && found.is_none()
        && counts == (1, 0)
}

/// The second worked schedule: the second seat has checked, so it keeps its slot although it is ejected.
fn ejected_after_its_check(
    words: &Words<Free>,
    first: &mut Seat<Free>,
    second: &mut Seat<Free>,
) -> bool
    requires shape { shape_of words.now ≡ record { roots = 1; seats = 2; shields = 1; batch = 1; width = 1 } }
    requires first { IsOpenedSeat words.now tt 0 first.old }
    requires second { IsOpenedSeat words.now tt 1 second.old }
    ensures still { IsStill words.now first.old first.new × IsStill words.now second.old second.new }
    ensures out { IsTrue (is_out (known_of first.new).status) × IsTrue (is_out (known_of second.new).status) }
{
    let (pinned, kept) = protect(words, second);
    let (epoch, replaced) = replace(words, first, 1);
    let (noted, raised, looked, ejected) = pass(words, first, 1);
    let (found, counts) = collect(words, first);
    let value = look_under(words, second, kept);
    words.clear_shield(second, 0);
    let (noted_again, raised_again, looked_again, ejected_again) = pass(words, first, 1);
    let (found_again, counts_again) = collect(words, first);
    words.leave(second, None);
    kept == Some(0)
        && replaced
        && (pinned == 0 && epoch == 0 && noted == 0)
        && raised
        && looked == Looked::In(0)
        && ejected
        && found == Some(0)
        && counts == (0, 1)
        && value == 5
        && noted_again == 1
        && raised_again
        && looked_again == Looked::Passed
        && !ejected_again
        && found_again.is_none()
        && counts_again == (1, 0)
}

/// The fourth worked schedule: the second seat is in, and the first one, which has retired nothing, passes it and
/// raises the epoch twice.
fn passed_while_it_is_in(
    words: &Words<Free>,
    first: &mut Seat<Free>,
    second: &mut Seat<Free>,
) -> bool
    requires shape { shape_of words.now ≡ record { roots = 1; seats = 2; shields = 1; batch = 1; width = 1 } }
    requires first { IsOpenedSeat words.now tt 0 first.old }
    requires second { IsOpenedSeat words.now tt 1 second.old }
    ensures still { IsStill words.now first.old first.new × IsStill words.now second.old second.new }
    ensures out { IsTrue (is_out (known_of first.new).status) × IsTrue (is_out (known_of second.new).status) }
{
    let pinned = enter(words, second);
    let (noted, raised, looked, ejected) = pass(words, first, 1);
    let (noted_again, raised_again) = open_scan(words, first);
    words.leave(second, None);
    pinned == 0
        && noted == 0
        && raised
        && looked == Looked::Passed
        && !ejected
        && noted_again == 1
        && raised_again
}

/// The first word of a slot under a valid shield.
fn look_under(words: &Words<Free>, seat: &mut Seat<Free>, slot: Option<usize>) -> u64
    requires at { IsAt words.now seat.old }
    requires width { 0 < (shape_of words.now).width }
    requires pinned { is_out (known_of seat.old).status ≡ false }
    requires slot { IfSome slot (λ slot. slot < slot_count (shape_of words.now)) }
    requires valid { IfSome slot (λ slot. shield_at (known_of seat.old) 0 ≡ shield.Valid slot) }
    ensures still { IsStill words.now seat.old seat.new }
    ensures pinned { is_out (known_of seat.new).status ≡ false }
{
    valid_shields_protect();
    match slot {
        Some(slot) => {
            let start = words.slot_start(slot);
            words.read_word(seat, slot, start, 0)
        }
        None => 0,
    }
}

/// Words of one root and two seats.
fn two(alloc: Global) -> Result<(Words<Free>, Seat<Free>, Seat<Free>), NoMemory>
    ensures shape { IfOk result (λ r. shape_of r.0 ≡ record {
      roots = 1;
      seats = 2;
      shields = 1;
      batch = 1;
      width = 1;
    }) }
    ensures first { IfOk result (λ r. IsOpenedSeat r.0 tt 0 r.1) }
    ensures second { IfOk result (λ r. IsOpenedSeat r.0 tt 1 r.2) }
{
    let shape = Shape {
        roots: 1,
        seats: 2,
        shields: 1,
        batch: 1,
        width: 1,
    };
    let (words, seats) = Words::<Free>::open(alloc, shape, (), &[5])?;
    let (first, second) = both_of(seats)?;
    Ok((words, first, second))
}

/// The content of the root, after both seats were made one.
fn content_at_end(
    words: Words<Free>,
    alloc: Global,
    first: Seat<Free>,
    second: Seat<Free>,
) -> Result<u64, NoMemory>
    requires at { IsAt words first × IsAt words second }
    requires shape { shape_of words ≡ record { roots = 1; seats = 2; shields = 1; batch = 1; width = 1 } }
    requires out { IsTrue (is_out (known_of first).status) × IsTrue (is_out (known_of second).status) }
    requires count { (count_of first ≡ 1) × (count_of second ≡ 1) }
    requires united { IsUnited tt first × IsUnited tt second }
{
    let all = words.unite(first, second);
    let contents = words.close(alloc, all)?;
    Ok(contents[0])
}

#[test]
fn a_reader_that_is_late(rt: HostRuntime) {
    let alloc = rt.alloc();
    let Ok((words, mut first, mut second)) = two(alloc) else {
        panic!(rt; "no memory");
    };
    assert!(rt; ejected_before_its_check(&words, &mut first, &mut second));
    let Ok(content) = content_at_end(words, alloc, first, second) else {
        panic!(rt; "no memory");
    };
    assert_eq!(rt; content, 7);
}

#[test]
fn a_reader_that_keeps_its_slot(rt: HostRuntime) {
    let alloc = rt.alloc();
    let Ok((words, mut first, mut second)) = two(alloc) else {
        panic!(rt; "no memory");
    };
    assert!(rt; ejected_after_its_check(&words, &mut first, &mut second));
    let Ok(content) = content_at_end(words, alloc, first, second) else {
        panic!(rt; "no memory");
    };
    assert_eq!(rt; content, 7);
}

#[test]
fn a_reader_that_is_passed(rt: HostRuntime) {
    let alloc = rt.alloc();
    let Ok((words, mut first, mut second)) = two(alloc) else {
        panic!(rt; "no memory");
    };
    assert!(rt; passed_while_it_is_in(&words, &mut first, &mut second));
    let Ok(content) = content_at_end(words, alloc, first, second) else {
        panic!(rt; "no memory");
    };
    assert_eq!(rt; content, 5);
}

/// Compiles only where a reference to the value may be shared with other threads.
fn check_sync<T: Sync>(_value: &T) {}

/// Compiles only where the value may be sent to another thread, and gives it back.
fn check_send<T: Send>(value: T) -> T {
    value
}

/// Whether this is the first of two seats as they are opened: it has the slots 1 to 3, and none retired.
fn is_first_as_opened(seat: &Seat<Free>) -> bool {
    let counts = (
        seat.number(),
        seat.noted(),
        seat.fresh_len(),
        seat.retired_len(),
    );
    let fresh = [0, 1, 3, 4].map(|slot| seat.is_fresh(slot));
    counts == (0, 0, 3, 0) && fresh == [false, true, true, false] && !seat.is_retired(0)
}

#[test]
fn threads_share_words(rt: HostRuntime) {
    let alloc = rt.alloc();
    let Ok((words, first, second)) = two(alloc) else {
        panic!(rt; "no memory");
    };
    check_sync(&words);
    let first = check_send(first);
    assert!(rt; is_first_as_opened(&first));
    assert_eq!(rt; (second.number(), words.shape().seats), (1, 2));
}
