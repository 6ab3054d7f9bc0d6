//! Slots of keys, and how many fragments each has.

ghost use Rattle.std.specs.Prelude.{◌≡◌, ◌≢◌, ◌≤◌, ◌<◌, ◌+◌, ◌^◌, ℕ, List, [], ◌∷◌, ◌++◌, IfOk, IsTrue};
ghost use Rattle.flow_parts.specs.declared.fragment.Fragment.{Fragment};
ghost use Rattle.std.specs.Prelude.{length, slice_index};
ghost use Rattle.record_ledger.specs.Buckets.{CountsSlots, IsCountedAlone, AddUp, slot_number, slots_for, two_bits};

use flow_key::FlowKey;
use flow_parts::Fragment;
use no_memory::NoMemory;
use std::alloc::Global;
use std::marker::Model;

/// How many slots there are for each fragment.
const SLOTS: usize = 8;

/// The fewest slots that there are.
const FEWEST_SLOTS: usize = 4;

/// The most slots that there are.
const MOST_SLOTS: usize = 1 << 31;

/// How many octets of counts are looked at for how many slots have one fragment alone.
const SAMPLE: usize = 65_536;

/// How many fragments each slot of keys has: none, one, or more. Contracts see it as the list of these counts.
///
/// A count takes 2 bits, and an octet holds those of four slots.
#[derive(Drop)]
pub struct Slots {
    packed: Vec<u8>,
}

impl Model for Slots {
    ghost use Rattle.std.specs.Prelude.{ℕ, List, ◌≤◌, ◌^◌, length};
    ghost use Rattle.record_ledger.specs.Buckets.{counts_of};

    ghost Value = { List ℕ };

    ghost view = { λ s. counts_of s.packed.items };

    ghost invariant = { λ s. (1 ≤ length s.packed.items) × (length s.packed.items ≤ 2 ^ 29) };
}

impl Slots {
    /// Slots for so many fragments, none of which is counted yet.
    pub fn open(alloc: Global, fragments: usize) -> Result<Slots, NoMemory>
        ensures none { IfOk result (CountsSlots []) }
        ensures many { IfOk result (λ counts. length counts ≡ slots_for fragments) }
    {
        let slots = fragments
            .saturating_mul(SLOTS)
            .clamp(FEWEST_SLOTS, MOST_SLOTS);
        Ok(Slots {
            packed: vec![in alloc; 0u8; slots / 4]?,
        })
    }

    /// Counts a fragment in the slot of its key.
    #[inline]
    pub fn count(&mut self, part: &Fragment)
        ensures counts { (before : List Fragment) → CountsSlots before self.old
            → CountsSlots (before ++ part.now ∷ []) self.new }
        ensures many { length self.new ≡ length self.old }
    {
        let slot = slot_of(&part.key, self.packed.len() * 4);
        self.packed[slot / 4] = one_more(self.packed[slot / 4], slot % 4);
    }

    /// Adds the counts of other fragments in the same slots.
    pub fn add(&mut self, others: &Slots)
        requires many { length others.now ≡ length self.old }
        ensures counts { (before more : List Fragment) → CountsSlots before self.old → CountsSlots more others.now
            → CountsSlots (before ++ more) self.new }
        ensures many { length self.new ≡ length self.old }
    {
        add_octets(self.packed.as_mut_slice(), others.packed.as_slice());
    }

    /// Whether the slot of a fragment's key has one fragment alone.
    #[inline]
    pub fn has_one(&self, part: &Fragment) -> bool
        ensures { IsTrue result → IsCountedAlone self.now part.now }
    {
        let slot = slot_of(&part.key, self.packed.len() * 4);
        count_at(self.packed[slot / 4], slot % 4) == 1
    }

    /// How many slots have one fragment alone, where there are at most 262,144, and else about how many, by as many of
    /// them. No count is three, so that theirs alone are odd.
    pub fn with_one(&self) -> usize {
        let octets = self.packed.len();
        let sample = octets.min(SAMPLE);
        let mut count = 0usize;
        for octet in &self.packed[..sample] {
            count = count.wrapping_add((*octet & 0x55).count_ones() as usize);
        }
        count.saturating_mul(octets) / sample
    }
}

/// Adds to the counts of octets those of others, octet by octet.
fn add_octets(counts: &mut [u8], others: &[u8])
    requires { length others.now ≡ length counts.old }
    ensures many { length counts.new ≡ length counts.old }
    ensures each { (at : ℕ) → at < length counts.old
        → AddUp (slice_index counts.old at) (slice_index others.now at) (slice_index counts.new at) }
{
    for at in 0..counts.len() {
        counts[at] = joined(counts[at], others[at]);
    }
}

/// The octet with the counts of two octets together.
#[inline]
fn joined(one: u8, other: u8) -> u8
    ensures { AddUp one other result }
{
    let low = together(one % 4, other % 4) + 4 * together(one / 4 % 4, other / 4 % 4);
    let high = together(one / 16 % 4, other / 16 % 4) + 4 * together(one / 64, other / 64);
    low + 16 * high
}

/// Two counts together: none, one, or more, which is two.
#[inline]
fn together(one: u8, other: u8) -> u8
    requires { (one < 4) × (other < 4) }
    ensures more { result ≤ 2 }
    ensures none { result ≡ 0 → one + other ≡ 0 }
    ensures one { result ≡ 1 → one + other ≡ 1 }
{
    (one + other).min(2)
}

/// The slot of a key, among so many: the slots share out the 32 bits of a hash of the key evenly, without a division.
#[inline]
fn slot_of(key: &FlowKey, slots: usize) -> usize
    requires { (1 ≤ slots) × (slots ≤ 2 ^ 31) }
    ensures below { result < slots }
    ensures number { result ≡ slot_number key.now slots }
{
    (key.set_of(1 << 32) * slots as u64 >> 32) as usize
}

/// The count at this place of an octet, from 0.
#[inline]
fn count_at(octet: u8, place: usize) -> u8
    requires { place < 4 }
    ensures { result ≡ two_bits octet place }
{
    (octet >> place * 2) % 4
}

/// The octet with one more at this place, where the count there was none or one.
#[inline]
fn one_more(octet: u8, place: usize) -> u8
    requires { place < 4 }
    ensures some { 1 ≤ two_bits result place }
    ensures first { two_bits result place ≡ 1 → two_bits octet place ≡ 0 }
    ensures others { (other : ℕ) → other < 4 → other ≢ place → two_bits result other ≡ two_bits octet other }
{
    if count_at(octet, place) < 2 {
        octet + (1 << place * 2)
    } else {
        octet
    }
}
