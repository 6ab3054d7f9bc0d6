//! Two passes on one thread.

ghost use Rattle.std.specs.Prelude.{◌≡◌, ◌≤◌, ℕ, IsTrue, IfOk, true, false};
ghost use Rattle.std.specs.List.{list_all};
ghost use Rattle.pebr_core.specs.State.{has, is_out, is_down, shield_at};
ghost use Rattle.pebr_core.specs.declared.kinds.ShieldAt.TheVariants as shield;
ghost use Rattle.pebr_shields.specs.declared.checked.Checked.TheVariants as checked;
ghost use Rattle.pebr_roots.specs.Under.{is_valid_at};
ghost use Rattle.pebr_roots.specs.Orders.{HasMade};
ghost use Rattle.pebr_roots.specs.Passes.{shape_at, known_by_pass, operations_by, count_by_pass, IsOf, IsSame};
ghost use Rattle.pebr_roots.specs.Passes.{IsUnitedPass, IsOpenedPass};

use crate::tests::free::Free;
use crate::tests::pairs::both_of;
use pebr_roots::{Collected, ReplaceEnd, RootPass, Roots};
use pebr_shields::{Checked, NoMemory, Shape};
use std::alloc::Global;

/// Enters, loads the root and checks.
fn protect(roots: &Roots<Free>, pass: &mut RootPass<Free>) -> (usize, Checked)
    requires of { IsOf roots.now pass.old }
    requires out { IsTrue (is_out (known_by_pass pass.old).status) }
    requires one { ((shape_at roots.now).roots ≡ 1) × ((shape_at roots.now).shields ≡ 1) }
    ensures same { IsSame roots.now pass.old pass.new }
    ensures entered { is_out (known_by_pass pass.new).status ≡ false }
    ensures valid { result.1 ≡ checked.Valid → IsTrue (is_valid_at (known_by_pass pass.new) 0) }
{
    roots.enter(pass);
    let slot = roots.load(pass, 0, 0);
    let found = roots.check(pass);
    (slot, found)
}

/// Writes a word into the least fresh slot, if there is one, and puts it into the root.
fn swap(roots: &Roots<Free>, pass: &mut RootPass<Free>, value: u64) -> Option<ReplaceEnd>
    requires of { IsOf roots.now pass.old }
    requires entered { is_out (known_by_pass pass.old).status ≡ false }
    requires one { ((shape_at roots.now).roots ≡ 1) × ((shape_at roots.now).shields ≡ 1)
        × ((shape_at roots.now).width ≡ 1) }
    requires valid { IsTrue (is_valid_at (known_by_pass pass.old) 0) }
    ensures same { IsSame roots.now pass.old pass.new }
    ensures entered { is_out (known_by_pass pass.new).status ≡ false }
{
    if pass.fresh() == 0 {
        return None;
    }
    roots.write_fresh(pass, 0, value);
    Some(roots.replace(pass, 0, 0, None))
}

/// Takes the shield down and leaves.
fn end(roots: &Roots<Free>, pass: &mut RootPass<Free>)
    requires of { IsOf roots.now pass.old }
    requires entered { is_out (known_by_pass pass.old).status ≡ false }
    ensures same { IsSame roots.now pass.old pass.new }
    ensures out { IsTrue (is_out (known_by_pass pass.new).status) }
    ensures down { IsTrue (list_all is_down (known_by_pass pass.new).shields) }
{
    roots.clear(pass);
    roots.leave(pass, None);
}

/// A whole try: what was loaded, checked and replaced.
fn attempt(
    roots: &Roots<Free>,
    pass: &mut RootPass<Free>,
    value: u64,
) -> (usize, Checked, Option<ReplaceEnd>)
    requires of { IsOf roots.now pass.old }
    requires out { IsTrue (is_out (known_by_pass pass.old).status) }
    requires one { ((shape_at roots.now).roots ≡ 1) × ((shape_at roots.now).shields ≡ 1)
        × ((shape_at roots.now).width ≡ 1) }
    ensures same { IsSame roots.now pass.old pass.new }
    ensures out { IsTrue (is_out (known_by_pass pass.new).status) }
    ensures down { IsTrue (list_all is_down (known_by_pass pass.new).shields) }
{
    let (slot, found) = protect(roots, pass);
    let replaced = swap_if(roots, pass, value, found);
    end(roots, pass);
    (slot, found, replaced)
}

/// Swaps in a word, as [`swap`] does, where the check found the shield valid.
fn swap_if(
    roots: &Roots<Free>,
    pass: &mut RootPass<Free>,
    value: u64,
    found: Checked,
) -> Option<ReplaceEnd>
    requires of { IsOf roots.now pass.old }
    requires entered { is_out (known_by_pass pass.old).status ≡ false }
    requires one { ((shape_at roots.now).roots ≡ 1) × ((shape_at roots.now).shields ≡ 1)
        × ((shape_at roots.now).width ≡ 1) }
    requires valid { found ≡ checked.Valid → IsTrue (is_valid_at (known_by_pass pass.old) 0) }
    ensures same { IsSame roots.now pass.old pass.new }
    ensures entered { is_out (known_by_pass pass.new).status ≡ false }
{
    match found {
        Checked::Valid => swap(roots, pass, value),
        Checked::Ejected => None,
    }
}

/// Reads the word under the shield, where the check found it valid.
fn read_if(roots: &Roots<Free>, pass: &mut RootPass<Free>, found: Checked) -> u64
    requires of { IsOf roots.now pass.old }
    requires entered { is_out (known_by_pass pass.old).status ≡ false }
    requires one { ((shape_at roots.now).shields ≡ 1) × ((shape_at roots.now).width ≡ 1) }
    requires valid { found ≡ checked.Valid → IsTrue (is_valid_at (known_by_pass pass.old) 0) }
    ensures same { IsSame roots.now pass.old pass.new }
    ensures entered { is_out (known_by_pass pass.new).status ≡ false }
{
    match found {
        Checked::Valid => roots.read(pass, 0, 0),
        Checked::Ejected => 99,
    }
}

/// The second worked schedule: the second pass has checked, so it keeps its slot although it is ejected.
fn ejected_after_its_check(
    roots: &Roots<Free>,
    first: &mut RootPass<Free>,
    second: &mut RootPass<Free>,
) -> bool
    requires first { IsOpenedPass roots.now tt 0 first.old }
    requires second { IsOpenedPass roots.now tt 1 second.old }
    requires one { ((shape_at roots.now).roots ≡ 1) × ((shape_at roots.now).shields ≡ 1)
        × ((shape_at roots.now).width ≡ 1) }
    ensures same { IsSame roots.now first.old first.new × IsSame roots.now second.old second.new }
    ensures out { IsTrue (is_out (known_by_pass first.new).status) × IsTrue (is_out (known_by_pass second.new).status) }
{
    let (slot, found) = protect(roots, second);
    let tried = attempt(roots, first, 7);
    let forced = roots.collect(first, true);
    let value = read_if(roots, second, found);
    end(roots, second);
    let mild = roots.collect(first, false);
    slot == 0
        && found == Checked::Valid
        && tried.0 == 0
        && tried.1 == Checked::Valid
        && tried.2 == Some(ReplaceEnd::Replaced)
        && is_collected(forced, 0, 1)
        && value == 5
        && is_collected(mild, 1, 0)
}

/// Whether a collection gave so many slots and left so many.
fn is_collected(collected: Collected, given: usize, left: usize) -> bool {
    collected.given == given && collected.left == left
}

/// The third worked schedule: the second pass keeps one slot, and the first one has taken three out of the
/// root when it collects.
fn all_but_one_are_given(
    roots: &Roots<Free>,
    first: &mut RootPass<Free>,
    second: &mut RootPass<Free>,
) -> bool
    requires first { IsOpenedPass roots.now tt 0 first.old }
    requires second { IsOpenedPass roots.now tt 1 second.old }
    requires one { ((shape_at roots.now).roots ≡ 1) × ((shape_at roots.now).shields ≡ 1)
        × ((shape_at roots.now).width ≡ 1) }
    ensures same { IsSame roots.now first.old first.new × IsSame roots.now second.old second.new }
    ensures out { IsTrue (is_out (known_by_pass first.new).status) × IsTrue (is_out (known_by_pass second.new).status) }
{
    let (slot, found) = protect(roots, second);
    let one = attempt(roots, first, 7);
    let two = attempt(roots, first, 8);
    let three = attempt(roots, first, 9);
    let before = (first.fresh(), first.retired());
    let forced = roots.collect(first, true);
    let after = (first.fresh(), first.retired());
    end(roots, second);
    slot == 0
        && found == Checked::Valid
        && (one.0 == 0 && two.0 == 1 && three.0 == 2)
        && before == (0, 3)
        && is_collected(forced, 2, 1)
        && after == (2, 1)
}

/// Makes so many of the calls of a try, from `enter` on, and stops there.
fn stop_behind(roots: &Roots<Free>, pass: &mut RootPass<Free>, calls: usize)
    requires of { IsOf roots.now pass.old }
    requires out { IsTrue (is_out (known_by_pass pass.old).status) }
    requires one { ((shape_at roots.now).roots ≡ 1) × ((shape_at roots.now).shields ≡ 1)
        × ((shape_at roots.now).width ≡ 1) }
    ensures { IsOf roots.now pass.new }
{
    if calls == 0 {
        return;
    }
    roots.enter(pass);
    if calls > 1 {
        roots.load(pass, 0, 0);
        stop_behind_load(roots, pass, calls);
    }
}

/// The calls behind the load.
fn stop_behind_load(roots: &Roots<Free>, pass: &mut RootPass<Free>, calls: usize)
    requires of { IsOf roots.now pass.old }
    requires entered { is_out (known_by_pass pass.old).status ≡ false }
    requires one { ((shape_at roots.now).roots ≡ 1) × ((shape_at roots.now).shields ≡ 1)
        × ((shape_at roots.now).width ≡ 1) }
    requires set { (slot : ℕ) × (shield_at (known_by_pass pass.old) 0 ≡ shield.Set slot)
        × (has (known_by_pass pass.old).seen slot ≡ true) }
    ensures { IsOf roots.now pass.new }
{
    if calls == 2 {
        return;
    }
    match roots.check(pass) {
        Checked::Valid => stop_behind_check(roots, pass, calls),
        Checked::Ejected => {}
    }
}

/// The calls behind the check.
fn stop_behind_check(roots: &Roots<Free>, pass: &mut RootPass<Free>, calls: usize)
    requires of { IsOf roots.now pass.old }
    requires entered { is_out (known_by_pass pass.old).status ≡ false }
    requires one { ((shape_at roots.now).roots ≡ 1) × ((shape_at roots.now).shields ≡ 1)
        × ((shape_at roots.now).width ≡ 1) }
    requires valid { IsTrue (is_valid_at (known_by_pass pass.old) 0) }
    ensures { IsOf roots.now pass.new }
{
    if calls > 3 {
        roots.read(pass, 0, 0);
    }
    if calls == 5 && pass.fresh() > 0 {
        roots.write_fresh(pass, 0, 6);
    }
    if calls > 5 {
        swap(roots, pass, 6);
        stop_behind_swap(roots, pass, calls);
    }
}

/// The calls behind the replacement.
fn stop_behind_swap(roots: &Roots<Free>, pass: &mut RootPass<Free>, calls: usize)
    requires of { IsOf roots.now pass.old }
    requires entered { is_out (known_by_pass pass.old).status ≡ false }
    ensures { IsOf roots.now pass.new }
{
    if calls > 6 {
        roots.clear(pass);
        if calls > 7 {
            roots.leave(pass, None);
        }
    }
}

/// A collection by force, with two seats of one shield each. No value of the program counts its steps, so its contract
/// does, wherever the other pass was stopped: `2 * (seats - 1) + (seats - 1) * shields + 4` is 7.
fn collect_by_force(roots: &Roots<Free>, pass: &mut RootPass<Free>) -> Collected
    requires of { IsOf roots.now pass.old }
    requires out { IsTrue (is_out (known_by_pass pass.old).status) }
    requires down { IsTrue (list_all is_down (known_by_pass pass.old).shields) }
    requires two { ((shape_at roots.now).seats ≡ 2) × ((shape_at roots.now).shields ≡ 1) }
    ensures same { IsSame roots.now pass.old pass.new }
    ensures operations { HasMade 7 (operations_by pass.old) (operations_by pass.new) }
    ensures left { result.left ≤ 1 }
{
    roots.collect(pass, true)
}

/// How many slots the first pass has retired by three tries, and how many of them a collection by force leaves, while
/// the other pass is stopped behind so many calls.
fn left_behind(
    roots: &Roots<Free>,
    first: &mut RootPass<Free>,
    second: &mut RootPass<Free>,
    calls: usize,
) -> (usize, usize)
    requires first { IsOpenedPass roots.now tt 0 first.old }
    requires second { IsOpenedPass roots.now tt 1 second.old }
    requires one { ((shape_at roots.now).roots ≡ 1) × ((shape_at roots.now).shields ≡ 1)
        × ((shape_at roots.now).width ≡ 1) }
    requires two { (shape_at roots.now).seats ≡ 2 }
{
    attempt(roots, first, 1);
    stop_behind(roots, second, calls);
    attempt(roots, first, 2);
    attempt(roots, first, 3);
    let retired = first.retired();
    let forced = collect_by_force(roots, first);
    (retired, forced.left)
}

/// One root with the content 5, and two passes.
fn two(alloc: Global) -> Result<(Roots<Free>, RootPass<Free>, RootPass<Free>), NoMemory>
    ensures shape { IfOk result (λ r. shape_at r.0 ≡ record {
      roots = 1;
      seats = 2;
      shields = 1;
      batch = 1;
      width = 1;
    }) }
    ensures first { IfOk result (λ r. IsOpenedPass r.0 tt 0 r.1) }
    ensures second { IfOk result (λ r. IsOpenedPass r.0 tt 1 r.2) }
{
    let shape = Shape {
        roots: 1,
        seats: 2,
        shields: 1,
        batch: 1,
        width: 1,
    };
    let (roots, passes) = Roots::<Free>::open(alloc, shape, (), &[5])?;
    let (first, second) = both_of(passes)?;
    Ok((roots, first, second))
}

/// The content of the root, after both passes were made one.
fn content_at_end(
    roots: Roots<Free>,
    alloc: Global,
    first: RootPass<Free>,
    second: RootPass<Free>,
) -> Result<u64, NoMemory>
    requires of { IsOf roots first × IsOf roots second }
    requires shape { shape_at roots ≡ record { roots = 1; seats = 2; shields = 1; batch = 1; width = 1 } }
    requires out { IsTrue (is_out (known_by_pass first).status) × IsTrue (is_out (known_by_pass second).status) }
    requires count { (count_by_pass first ≡ 1) × (count_by_pass second ≡ 1) }
    requires united { IsUnitedPass tt first × IsUnitedPass tt second }
{
    let all = roots.unite(first, second);
    let contents = roots.close(alloc, all)?;
    Ok(contents[0])
}

#[test]
fn a_reader_keeps_its_slot(rt: HostRuntime) {
    let alloc = rt.alloc();
    let Ok((roots, mut first, mut second)) = two(alloc) else {
        panic!(rt; "no memory");
    };
    assert!(rt; ejected_after_its_check(&roots, &mut first, &mut second));
    let Ok(content) = content_at_end(roots, alloc, first, second) else {
        panic!(rt; "no memory");
    };
    assert_eq!(rt; content, 7);
}

#[test]
fn a_collection_leaves_one(rt: HostRuntime) {
    let alloc = rt.alloc();
    let Ok((roots, mut first, mut second)) = two(alloc) else {
        panic!(rt; "no memory");
    };
    assert!(rt; all_but_one_are_given(&roots, &mut first, &mut second));
    let Ok(content) = content_at_end(roots, alloc, first, second) else {
        panic!(rt; "no memory");
    };
    assert_eq!(rt; content, 9);
}

#[test]
fn a_pass_is_stopped_behind_each_call(rt: HostRuntime) {
    let alloc = rt.alloc();
    // From its load on the second pass has a shield on the slot that the first one retires next, so this slot is left.
    // After six calls the second pass has retired that slot itself, and after seven its shield is down.
    let rows: [(usize, usize); 9] = [
        (0, 0),
        (1, 0),
        (2, 1),
        (3, 1),
        (4, 1),
        (5, 1),
        (6, 0),
        (7, 0),
        (8, 0),
    ];
    for (calls, wanted) in rows {
        let Ok((roots, mut first, mut second)) = two(alloc) else {
            panic!(rt; "no memory");
        };
        let found = left_behind(&roots, &mut first, &mut second, calls);
        assert!(rt; found == (3, wanted), "stopped behind {calls} calls");
    }
}

/// Compiles only where a reference to the value may be shared with other threads.
fn check_sync<T: Sync>(_value: &T) {}

/// Compiles only where the value may be sent to another thread, and gives it back.
fn check_send<T: Send>(value: T) -> T {
    value
}

#[test]
fn threads_share_roots(rt: HostRuntime) {
    let alloc = rt.alloc();
    let Ok((roots, first, second)) = two(alloc) else {
        panic!(rt; "no memory");
    };
    check_sync(&roots);
    let first = check_send(first);
    assert_eq!(rt; (first.fresh(), first.retired()), (3, 0));
    assert_eq!(rt; second.fresh(), 3);
}
