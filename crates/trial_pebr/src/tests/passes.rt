//! Which root was replaced.

ghost use Rattle.std.specs.Prelude.{◌≡◌, ◌<◌, IsTrue, IfOk, false};
ghost use Rattle.std.specs.List.{list_all};
ghost use Rattle.pebr_core.specs.State.{is_out, is_down};
ghost use Rattle.pebr_shields.specs.declared.checked.Checked.TheVariants as checked;
ghost use Rattle.pebr_roots.specs.Under.{is_valid_at};
ghost use Rattle.pebr_roots.specs.Passes.{shape_at, known_by_pass, count_by_pass, IsOf, IsSame};
ghost use Rattle.pebr_roots.specs.Passes.{IsUnitedPass, IsOpenedPass};

use crate::tests::free::Free;
use crate::tests::pairs::both_of;
use pebr_roots::{Checked, NoMemory, ReplaceEnd, RootPass, Roots, Shape};
use std::alloc::Global;

/// Enters, loads a root and checks.
fn protect(roots: &Roots<Free>, pass: &mut RootPass<Free>, root: usize) -> Checked
    requires of { IsOf roots.now pass.old }
    requires out { IsTrue (is_out (known_by_pass pass.old).status) }
    requires root { (root < (shape_at roots.now).roots) × ((shape_at roots.now).shields ≡ 1) }
    ensures same { IsSame roots.now pass.old pass.new }
    ensures entered { is_out (known_by_pass pass.new).status ≡ false }
    ensures valid { result ≡ checked.Valid → IsTrue (is_valid_at (known_by_pass pass.new) 0) }
{
    roots.enter(pass);
    roots.load(pass, root, 0);
    roots.check(pass)
}

/// Puts 7 into a root, where the check found the shield valid and a slot is fresh.
fn swap_if(
    roots: &Roots<Free>,
    pass: &mut RootPass<Free>,
    root: usize,
    found: Checked,
) -> Option<ReplaceEnd>
    requires of { IsOf roots.now pass.old }
    requires entered { is_out (known_by_pass pass.old).status ≡ false }
    requires root { (root < (shape_at roots.now).roots) × ((shape_at roots.now).shields ≡ 1)
        × ((shape_at roots.now).width ≡ 1) }
    requires valid { found ≡ checked.Valid → IsTrue (is_valid_at (known_by_pass pass.old) 0) }
    ensures same { IsSame roots.now pass.old pass.new }
    ensures entered { is_out (known_by_pass pass.new).status ≡ false }
{
    if pass.fresh() == 0 {
        return None;
    }
    match found {
        Checked::Valid => {
            roots.write_fresh(pass, 0, 7);
            Some(roots.replace(pass, root, 0, None))
        }
        Checked::Ejected => None,
    }
}

/// Takes the shield down and leaves.
fn end(roots: &Roots<Free>, pass: &mut RootPass<Free>)
    requires of { IsOf roots.now pass.old }
    requires entered { is_out (known_by_pass pass.old).status ≡ false }
    ensures same { IsSame roots.now pass.old pass.new }
    ensures out { IsTrue (is_out (known_by_pass pass.new).status) }
    ensures down { IsTrue (list_all is_down (known_by_pass pass.new).shields) }
{
    roots.clear(pass);
    roots.leave(pass, None);
}

/// How the first pass replaced a root, and how many slots a collection by force gave and left, while the second pass
/// has a root under its shield.
fn replaced_under(
    roots: &Roots<Free>,
    first: &mut RootPass<Free>,
    second: &mut RootPass<Free>,
    read: usize,
    replaced: usize,
) -> (Option<ReplaceEnd>, usize, usize)
    requires of { IsOf roots.now first.old × IsOf roots.now second.old }
    requires out { IsTrue (is_out (known_by_pass first.old).status) × IsTrue (is_out (known_by_pass second.old).status) }
    requires roots { (read < (shape_at roots.now).roots) × (replaced < (shape_at roots.now).roots) }
    requires one { ((shape_at roots.now).shields ≡ 1) × ((shape_at roots.now).width ≡ 1) }
    ensures same { IsSame roots.now first.old first.new × IsSame roots.now second.old second.new }
    ensures out { IsTrue (is_out (known_by_pass first.new).status) × IsTrue (is_out (known_by_pass second.new).status) }
{
    protect(roots, second, read);
    let found = protect(roots, first, replaced);
    let swapped = swap_if(roots, first, replaced, found);
    end(roots, first);
    let collected = roots.collect(first, true);
    end(roots, second);
    (swapped, collected.given, collected.left)
}

/// Two roots with the contents 5 and 6, and two passes.
fn two(alloc: Global) -> Result<(Roots<Free>, RootPass<Free>, RootPass<Free>), NoMemory>
    ensures shape { IfOk result (λ r. shape_at r.0 ≡ record {
      roots = 2;
      seats = 2;
      shields = 1;
      batch = 1;
      width = 1;
    }) }
    ensures first { IfOk result (λ r. IsOpenedPass r.0 tt 0 r.1) }
    ensures second { IfOk result (λ r. IsOpenedPass r.0 tt 1 r.2) }
{
    let shape = Shape {
        roots: 2,
        seats: 2,
        shields: 1,
        batch: 1,
        width: 1,
    };
    let (roots, passes) = Roots::<Free>::open(alloc, shape, (), &[5, 6])?;
    let (first, second) = both_of(passes)?;
    Ok((roots, first, second))
}

/// Both contents, after both passes were made one.
fn contents_at_end(
    roots: Roots<Free>,
    alloc: Global,
    first: RootPass<Free>,
    second: RootPass<Free>,
) -> Result<(u64, u64), NoMemory>
    requires of { IsOf roots first × IsOf roots second }
    requires shape { shape_at roots ≡ record { roots = 2; seats = 2; shields = 1; batch = 1; width = 1 } }
    requires out { IsTrue (is_out (known_by_pass first).status) × IsTrue (is_out (known_by_pass second).status) }
    requires count { (count_by_pass first ≡ 1) × (count_by_pass second ≡ 1) }
    requires united { IsUnitedPass tt first × IsUnitedPass tt second }
{
    let all = roots.unite(first, second);
    let contents = roots.close(alloc, all)?;
    Ok((contents[0], contents[1]))
}

#[test]
fn a_shield_keeps_the_slot_of_its_own_root(rt: HostRuntime) {
    let alloc = rt.alloc();
    // The root that the second pass reads, the one that the first pass replaces, what a collection gives and
    // leaves, and both contents at the end.
    let rows = [
        (0, 0, 0, 1, (7, 6)),
        (0, 1, 1, 0, (5, 7)),
        (1, 0, 1, 0, (7, 6)),
        (1, 1, 0, 1, (5, 7)),
    ];
    for (read, replaced, given, left, contents) in rows {
        let Ok((roots, mut first, mut second)) = two(alloc) else {
            panic!(rt; "no memory");
        };
        let found = replaced_under(&roots, &mut first, &mut second, read, replaced);
        assert!(rt;
            found == (Some(ReplaceEnd::Replaced), given, left),
            "{read} is read, {replaced} replaced"
        );
        let Ok(found) = contents_at_end(roots, alloc, first, second) else {
            panic!(rt; "no memory");
        };
        assert!(rt; found == contents, "{read} is read, {replaced} replaced");
    }
}
