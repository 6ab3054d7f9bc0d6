//! The list of the fresh slots: each once, the least last.

ghost use Rattle.std.specs.Prelude.{◌≡◌, ◌<◌, ◌≤◌, ◌+◌, ◌++◌, ◌^◌, ℕ, IfOk, length, slice_index, vec_capacity};
ghost use Rattle.std.specs.List.{range_with_len, remove};
ghost use Rattle.std.specs.List.Sorted.{IsPermutation};
ghost use Rattle.pebr_slots.specs.Shown.{times, AreFalling};

use no_memory::NoMemory;
use std::alloc::Global;

/// `count` slots from `first` on, the least last.
pub fn falling_from(alloc: Global, first: usize, count: usize) -> Result<Vec<usize>, NoMemory>
    requires { first + count < 2 ^ 32 }
    ensures slots { IfOk result (λ fresh. IsPermutation (range_with_len first count) fresh.items) }
    ensures falling { IfOk result (λ fresh. AreFalling fresh.items) }
    ensures room { IfOk result (λ fresh. count ≤ vec_capacity fresh) }
{
    let mut fresh = Vec::with_capacity(alloc, count)?;
    for place in 0..count {
        fresh.push_reserved(first + place);
    }
    let_fall(&mut fresh);
    Ok(fresh)
}

/// Sorts the slots so that they fall: the least is last.
pub fn let_fall(fresh: &mut Vec<usize>)
    ensures slots { IsPermutation fresh.old.items fresh.new.items }
    ensures falling { AreFalling fresh.new.items }
    ensures room { vec_capacity fresh.new ≡ vec_capacity fresh.old }
{
    fresh.sort_unstable();
    fresh.reverse();
}

/// Takes a slot out. The least one is the last: where that is taken, nothing moves.
#[inline]
pub fn take_out(fresh: &mut Vec<usize>, slot: usize)
    requires { 0 < times slot fresh.old.items }
    ensures slots { (place : ℕ) × (place < length fresh.old.items) × (slice_index fresh.old.items place ≡ slot)
        × (fresh.new.items ≡ remove fresh.old.items place) }
    ensures room { vec_capacity fresh.new ≡ vec_capacity fresh.old }
{
    let place = place_of(fresh, slot);
    if place + 1 == fresh.len() {
        fresh.pop();
    } else {
        fresh.remove(place);
    }
}

/// The place of a slot in the list. The search begins at the end, where the least one is.
#[inline]
fn place_of(fresh: &[usize], slot: usize) -> usize
    requires { 0 < times slot fresh.now }
    ensures range { result < length fresh.now }
    ensures at { slice_index fresh.now result ≡ slot }
{
    let mut place = fresh.len() - 1;
    while fresh[place] != slot {
        place -= 1;
    }
    place
}

/// Puts slots behind the others.
pub fn push_all(fresh: &mut Vec<usize>, slots: &[usize])
    requires room { length fresh.old.items + length slots.now ≤ vec_capacity fresh.old }
    ensures slots { fresh.new.items ≡ fresh.old.items ++ slots.now }
    ensures room { vec_capacity fresh.new ≡ vec_capacity fresh.old }
{
    for slot in slots {
        fresh.push_reserved(*slot);
    }
}
