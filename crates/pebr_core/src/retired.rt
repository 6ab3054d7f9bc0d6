//! The slots that a seat retired, with their tags.

ghost use Rattle.std.specs.Prelude.{◌≡◌, ℕ, ◌^◌, List, [], ◌∷◌, not, map, length, replicate, IfOk, slice_index_or};
ghost use Rattle.std.specs.Prelude.{slice_set, count_by, if◌then◌else◌};
ghost use Rattle.pebr_core.specs.declared.kinds.Retired.{Retired};
ghost use Rattle.pebr_core.specs.declared.kinds.Retired.TheVariants as retire;
ghost use Rattle.pebr_core.specs.State.{has, is_retired};
ghost use Rattle.pebr_core.specs.Steps.{tag_with, is_above_tags, union_of, slots_without};
ghost use Rattle.pebr_core.specs.Marks.{given_marks};

use crate::kinds::Retired;
use crate::row::Row;
use no_memory::NoMemory;
use std::alloc::Global;
use std::marker::Model;

/// For each slot, whether it is retired, and its tag.
#[derive(Debug, Drop)]
pub struct RetiredSlots {
    slots: Vec<Retired>,
}

impl Model for RetiredSlots {
    ghost use Rattle.std.specs.Prelude.{List};
    ghost use Rattle.pebr_core.specs.declared.kinds.Retired.{Retired};

    ghost Value = { List Retired };

    ghost view = { λ r. r.slots.items };
}

impl RetiredSlots {
    /// None of `count` slots is retired.
    pub fn none(alloc: Global, count: usize) -> Result<RetiredSlots, NoMemory>
        ensures { IfOk result (λ r. r ≡ replicate count retire.No) }
    {
        let slots = vec![in alloc; Retired::No; count]?;
        Ok(RetiredSlots { slots })
    }

    /// What a slot is; no slot past the end is retired.
    pub fn at(&self, slot: usize) -> Retired
        ensures { result ≡ slice_index_or self.now slot retire.No }
    {
        match self.slots.get(slot) {
            Some(retired) => *retired,
            None => Retired::No,
        }
    }

    /// Changes what a slot is.
    pub fn put(&mut self, slot: usize, retired: Retired)
        ensures { self.new ≡ slice_set self.old slot retired }
    {
        if slot < self.slots.len() {
            self.slots[slot] = retired;
        }
    }

    /// How many slots there are.
    pub fn len(&self) -> usize
        ensures { result ≡ length self.now }
    {
        self.slots.len()
    }

    /// How many slots are retired.
    pub fn count(&self) -> usize
        ensures { result ≡ count_by is_retired self.now }
    {
        let mut count = 0;
        for slot in &self.slots {
            if is_retired(*slot) {
                count += 1;
            }
        }
        count
    }

    /// Whether a slot is retired and not in `kept`.
    #[tactic(auto, using(crate::proofs::Given::given_at))]
    pub fn is_outside(&self, kept: &Row<bool>, slot: usize) -> bool
        ensures { result ≡ has (given_marks self.now kept.now) slot }
    {
        is_retired(self.at(slot)) && !kept.get(slot, false)
    }

    /// How many retired slots aren't in `kept`.
    pub fn count_outside(&self, kept: &Row<bool>) -> usize
        ensures { result ≡ count_by (λ mark. mark) (given_marks self.now kept.now) }
    {
        let mut count = 0;
        for slot in 0..self.len() {
            if self.is_outside(kept, slot) {
                count += 1;
            }
        }
        count
    }

    /// Takes out the retired slots that aren't in `kept`.
    pub fn release(&mut self, kept: &Row<bool>)
        ensures { self.new ≡ slots_without self.old (given_marks self.old kept.now) }
    {
        for slot in 0..self.len() {
            let retired = self.slot_without(kept, slot);
            self.put(slot, retired);
        }
    }

    /// What a slot is once the retired slots that aren't in `kept` are taken out.
    fn slot_without(&self, kept: &Row<bool>, slot: usize) -> Retired
        ensures { result ≡ (if has (given_marks self.now kept.now) slot then retire.No
            else slice_index_or self.now slot retire.No) }
    {
        if self.is_outside(kept, slot) {
            Retired::No
        } else {
            self.at(slot)
        }
    }

    /// Adds to `marks` the retired slots that aren't in `kept`.
    pub fn add_outside(&self, kept: &Row<bool>, marks: &mut Row<bool>)
        requires { length marks.old ≡ length self.now }
        ensures { marks.new ≡ union_of marks.old (given_marks self.now kept.now) }
    {
        for slot in 0..self.len() {
            if self.is_outside(kept, slot) {
                marks.set(slot, true);
            }
        }
    }

    /// Tags each retired slot that has no tag with the epoch.
    pub fn tag(&mut self, epoch: u64)
        ensures { self.new ≡ map (tag_with epoch) self.old }
    {
        tag_all(&mut self.slots, epoch);
    }

    /// Whether the epoch is above each tag.
    pub fn are_below(&self, epoch: u64) -> bool
        ensures { result ≡ is_above_tags (map is_retired self.now) self.now epoch }
    {
        for slot in &self.slots {
            if is_at_least(*slot, epoch) {
                return false;
            }
        }
        true
    }
}

/// Whether a slot is retired, with a tag or without.
fn is_retired(slot: Retired) -> bool
    ensures { result ≡ is_retired slot }
{
    match slot {
        Retired::No => false,
        Retired::Untagged | Retired::Tagged(_) => true,
    }
}

/// A slot after a Note of this epoch: one that has no tag gets the epoch as its tag.
fn slot_with_tag(slot: Retired, epoch: u64) -> Retired
    ensures { result ≡ tag_with epoch slot }
{
    match slot {
        Retired::Untagged => Retired::Tagged(epoch),
        Retired::No => Retired::No,
        Retired::Tagged(tag) => Retired::Tagged(tag),
    }
}

/// Tags all retired slots that have no tag.
fn tag_all(slots: &mut [Retired], epoch: u64)
    ensures { slots.new ≡ map (tag_with epoch) slots.old }
{
    for slot in slots.iter_mut() {
        *slot = slot_with_tag(*slot, epoch);
    }
}

/// Whether a slot has a tag that is at least this epoch.
fn is_at_least(slot: Retired, epoch: u64) -> bool
    ensures { is_above_tags (is_retired slot ∷ []) (slot ∷ []) epoch ≡ not result }
{
    match slot {
        Retired::Tagged(tag) => tag >= epoch,
        Retired::No | Retired::Untagged => false,
    }
}
