//! The slots of one seat.

ghost use Rattle.std.specs.Prelude.{◌≡◌, ◌≢◌, ◌<◌, ◌≤◌, ◌+◌, ◌++◌, ◌^◌, ◌&&◌, ℕ, IfOk, map, replicate, length};
ghost use Rattle.std.specs.Prelude.{count_by, false, true, nat_lt, slice_set, slice_index_or, if◌then◌else◌};
ghost use Rattle.std.specs.Prelude.{vec_capacity};
ghost use Rattle.pebr_core.specs.declared.kinds.Retired.TheVariants as retire;
ghost use Rattle.pebr_core.specs.State.{has, is_retired, first_seat, slot_count, slots_per_seat};
ghost use Rattle.pebr_core.specs.Steps.{tag_with, is_above_tags, union_of, slots_without};
ghost use Rattle.pebr_core.specs.Kept.{IsWithinLimits};
ghost use Rattle.pebr_slots.specs.Sets.{given_slots, is_above, least_in};

use crate::fresh::{falling_from, let_fall, push_all, take_out};
use crate::tagged::{
    TaggedSlot, free_all, has_slot, keep_slot, leave_kept, newest_of, newest_with, tag_all, unkeep,
};
use no_memory::NoMemory;
use pebr_core::Shape;
use std::alloc::Global;
use std::marker::Model;

/// A seat's own slots, as short lists. Together these are as long as there is room for retired slots, however
/// many slots the table has. A replacement takes the last of one list and puts a slot behind another; a
/// Note goes over the slots that were retired since the last. A slot on which a shield was found is looked
/// for among those that are retired. A Give goes over these, and sorts the fresh ones.
#[derive(Debug, Drop)]
pub struct SeatSlots {
    /// The fresh slots, each once, the least last.
    fresh: Vec<usize>,
    /// The slots that were retired since the last Note, in the order in which they were retired.
    untagged: Vec<usize>,
    /// The other retired slots, in the order in which they were retired.
    tagged: Vec<TaggedSlot>,
    /// The newest tag.
    newest: Option<u64>,
    /// Whether the scan may keep some of them.
    some_kept: bool,
    /// How many slots the table has.
    slots: usize,
    /// How many retired slots there is room for.
    room: usize,
}

impl Model for SeatSlots {
    ghost use Rattle.std.specs.Prelude.{◌≤◌, vec_capacity};
    ghost use Rattle.pebr_slots.specs.Sets.{Sets};
    ghost use Rattle.pebr_slots.specs.Shown.{sets_of, AreApart, AreFalling, IsNewest, IsSignOf};

    ghost Value = { Sets };

    ghost view = { λ s. sets_of s.slots s.room s.fresh.items s.untagged.items s.tagged.items };

    ghost invariant = { λ s. AreApart s.slots s.room s.fresh.items s.untagged.items s.tagged.items
        × AreFalling s.fresh.items × IsNewest s.newest s.tagged.items × IsSignOf s.some_kept s.tagged.items
        × (s.room ≤ vec_capacity s.fresh) × (s.room ≤ vec_capacity s.untagged) × (s.room ≤ vec_capacity s.tagged) };
}

impl SeatSlots {
    /// The slots of a seat that has done nothing: its share is fresh.
    ///
    /// # Errors
    ///
    /// `NoMemory` where no memory was left.
    pub fn new(alloc: Global, shape: Shape, seat: usize) -> Result<SeatSlots, NoMemory>
        requires limits { IsWithinLimits shape }
        requires seat { seat < shape.seats }
        ensures fresh { IfOk result (λ slots. slots.fresh ≡ (first_seat shape seat).fresh) }
        ensures retired { IfOk result (λ slots. slots.retired ≡ replicate (slot_count shape) retire.No) }
        ensures room { IfOk result (λ slots. slots.room ≡ slots_per_seat shape) }
    {
        let room = shape.slots_per_seat();
        let first = shape.roots + seat * room;
        let fresh = falling_from(alloc, first, room)?;
        let untagged = Vec::with_capacity(alloc, room)?;
        let tagged = Vec::with_capacity(alloc, room)?;
        Ok(SeatSlots {
            fresh,
            untagged,
            tagged,
            newest: None,
            some_kept: false,
            slots: shape.slot_count(),
            room,
        })
    }

    /// Whether a slot is fresh.
    pub fn is_fresh(&self, slot: usize) -> bool
        ensures { result ≡ has self.now.fresh slot }
    {
        self.fresh.contains(&slot)
    }

    /// Whether a slot is retired.
    pub fn is_retired(&self, slot: usize) -> bool
        ensures { result ≡ is_retired (slice_index_or self.now.retired slot retire.No) }
    {
        self.untagged.contains(&slot) || has_slot(&self.tagged, slot)
    }

    /// How many slots are fresh.
    pub fn fresh_len(&self) -> usize
        ensures { result ≡ count_by (λ mark. mark) self.now.fresh }
    {
        self.fresh.len()
    }

    /// The least fresh slot.
    #[inline]
    pub fn least_fresh(&self) -> usize
        requires { 0 < count_by (λ mark. mark) self.now.fresh }
        ensures { result ≡ least_in self.now.fresh }
    {
        self.fresh[self.fresh.len() - 1]
    }

    /// How many slots are retired.
    pub fn retired_len(&self) -> usize
        ensures { result ≡ count_by is_retired self.now.retired }
    {
        self.untagged.len() + self.tagged.len()
    }

    /// The newest tag of a retired slot, if any has one.
    pub fn newest_tag(&self) -> Option<u64>
        ensures { (epoch : ℕ) → is_above_tags (map is_retired self.now.retired) self.now.retired epoch
            ≡ is_above result epoch }
    {
        self.newest
    }

    /// A Note: each retired slot without a tag gets this one, and none is kept.
    pub fn note(&mut self, epoch: u64)
        ensures fresh { self.new.fresh ≡ self.old.fresh }
        ensures retired { self.new.retired ≡ map (tag_with epoch) self.old.retired }
        ensures kept { self.new.kept ≡ replicate (length self.old.retired) false }
        ensures room { self.new.room ≡ self.old.room }
    {
        self.newest = newest_with(self.newest, &self.untagged, epoch);
        tag_all(&mut self.tagged, &self.untagged, epoch);
        self.untagged.clear();
        unkeep(&mut self.tagged, self.some_kept);
        self.some_kept = false;
    }

    /// A replacement: the new slot isn't fresh any more, and the old one is retired without a tag.
    #[inline]
    pub fn replace(&mut self, old: usize, new: usize)
        requires apart { (slice_index_or self.old.retired old retire.No ≡ retire.No)
            × (has self.old.fresh old ≡ false) }
        requires fresh { has self.old.fresh new ≡ true }
        requires range { old < length self.old.retired }
        requires room { count_by is_retired self.old.retired < self.old.room }
        ensures fresh { self.new.fresh ≡ slice_set self.old.fresh new false }
        ensures retired { self.new.retired ≡ slice_set self.old.retired old retire.Untagged }
        ensures kept { self.new.kept ≡ self.old.kept }
        ensures room { self.new.room ≡ self.old.room }
    {
        take_out(&mut self.fresh, new);
        self.untagged.push_reserved(old);
    }

    /// A shield was found on the slot: it is kept, where it is retired.
    pub fn keep(&mut self, slot: usize)
        requires range { slot < length self.old.retired }
        requires tagged { slice_index_or self.old.retired slot retire.No ≢ retire.Untagged }
        ensures fresh { self.new.fresh ≡ self.old.fresh }
        ensures retired { self.new.retired ≡ self.old.retired }
        ensures kept { self.new.kept ≡ (if is_retired (slice_index_or self.old.retired slot retire.No)
            then slice_set self.old.kept slot true else self.old.kept) }
        ensures room { self.new.room ≡ self.old.room }
    {
        keep_slot(&mut self.tagged, slot);
        self.some_kept = true;
    }

    /// A Give: the retired slots that aren't kept are fresh. It answers how many these are, and how many
    /// stay retired.
    pub fn give(&mut self) -> (usize, usize)
        ensures fresh { self.new.fresh ≡ union_of self.old.fresh (given_slots self.old) }
        ensures retired { self.new.retired ≡ slots_without self.old.retired (given_slots self.old) }
        ensures given { result.0 ≡ count_by (λ mark. mark) (given_slots self.old) }
        ensures left { result.1 ≡ count_by is_retired self.new.retired }
        ensures room { self.new.room ≡ self.old.room }
    {
        let retired = self.retired_len();
        push_all(&mut self.fresh, &self.untagged);
        self.untagged.clear();
        free_all(&self.tagged, &mut self.fresh);
        let_fall(&mut self.fresh);
        leave_kept(&mut self.tagged);
        unkeep(&mut self.tagged, self.some_kept);
        self.some_kept = false;
        self.newest = newest_of(&self.tagged);
        let left = self.tagged.len();
        (retired - left, left)
    }
}
