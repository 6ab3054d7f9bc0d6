//! The retired slots that have a tag.

ghost use Rattle.std.specs.Prelude.{◌≡◌, ◌<◌, ◌≤◌, ◌+◌, ◌++◌, ◌&&◌, ℕ, length, map, nat_lt, vec_capacity};
ghost use Rattle.std.specs.List.{filter, list_all};
ghost use Rattle.pebr_slots.specs.Sets.{is_above};
ghost use Rattle.pebr_slots.specs.Shown.{slots_of, tagged_with, is_kept, is_given, unkept_entry, kept_at, is_in};
ghost use Rattle.pebr_slots.specs.Shown.{IsSignOf};

/// A retired slot with a tag.
#[derive(Clone, Copy, Debug)]
pub struct TaggedSlot {
    /// Which slot it is.
    pub slot: usize,
    /// The epoch of the Note that tagged it.
    pub tag: u64,
    /// Whether the scan keeps it.
    pub kept: bool,
}

impl TaggedSlot {
    /// Whether the scan keeps it once a shield was found on a slot.
    #[inline]
    fn stays(&self, slot: usize) -> bool
        ensures { result ≡ (kept_at slot self.now).kept }
    {
        self.slot == slot || self.kept
    }
}

/// Puts slots behind the others, all with one tag.
pub fn tag_all(tagged: &mut Vec<TaggedSlot>, slots: &[usize], epoch: u64)
    requires room { length tagged.old.items + length slots.now ≤ vec_capacity tagged.old }
    ensures slots { tagged.new.items ≡ tagged.old.items ++ map (tagged_with epoch) slots.now }
    ensures room { vec_capacity tagged.new ≡ vec_capacity tagged.old }
{
    for slot in slots {
        tagged.push_reserved(TaggedSlot {
            slot: *slot,
            tag: epoch,
            kept: false,
        });
    }
}

/// Whether one of them is this slot.
pub fn has_slot(tagged: &[TaggedSlot], slot: usize) -> bool
    ensures { result ≡ is_in slot (slots_of tagged.now) }
{
    for entry in tagged {
        if entry.slot == slot {
            return true;
        }
    }
    false
}

/// The scan keeps this slot, where it is one of them.
pub fn keep_slot(tagged: &mut [TaggedSlot], slot: usize)
    ensures { tagged.new ≡ map (kept_at slot) tagged.old }
{
    for entry in tagged.iter_mut() {
        entry.kept = entry.stays(slot);
    }
}

/// Makes the scan keep none of them. Where `some_kept` is false it keeps none as it is.
pub fn unkeep(tagged: &mut Vec<TaggedSlot>, some_kept: bool)
    requires { IsSignOf some_kept tagged.old.items }
    ensures slots { tagged.new.items ≡ map unkept_entry tagged.old.items }
    ensures room { vec_capacity tagged.new ≡ vec_capacity tagged.old }
{
    if some_kept {
        unkeep_all(tagged);
    }
}

/// Clears the scan's mark in each.
fn unkeep_all(tagged: &mut [TaggedSlot])
    ensures { tagged.new ≡ map unkept_entry tagged.old }
{
    for entry in tagged.iter_mut() {
        entry.kept = false;
    }
}

/// Puts those that the scan doesn't keep behind the fresh ones.
pub fn free_all(tagged: &[TaggedSlot], fresh: &mut Vec<usize>)
    requires room { length fresh.old.items + length tagged.now ≤ vec_capacity fresh.old }
    ensures slots { fresh.new.items ≡ fresh.old.items ++ slots_of (filter is_given tagged.now) }
    ensures room { vec_capacity fresh.new ≡ vec_capacity fresh.old }
{
    for entry in tagged {
        if !entry.kept {
            fresh.push_reserved(entry.slot);
        }
    }
}

/// Takes out all but those that the scan keeps.
pub fn leave_kept(tagged: &mut Vec<TaggedSlot>)
    ensures slots { tagged.new.items ≡ filter is_kept tagged.old.items }
    ensures room { vec_capacity tagged.new ≡ vec_capacity tagged.old }
{
    tagged.retain(|entry| entry.kept);
}

/// The newest tag.
pub fn newest_of(tagged: &[TaggedSlot]) -> Option<u64>
    ensures { (epoch : ℕ) → list_all (λ entry. nat_lt entry.tag epoch) tagged.now ≡ is_above result epoch }
{
    let mut newest = None;
    for entry in tagged {
        newest = newer_of(newest, entry.tag);
    }
    newest
}

/// The newest tag, once these slots have this one.
pub fn newest_with(newest: Option<u64>, slots: &[usize], tag: u64) -> Option<u64>
    ensures { (epoch : ℕ) → is_above result epoch
        ≡ (is_above newest epoch && list_all (λ entry. nat_lt entry.tag epoch) (map (tagged_with tag) slots.now)) }
{
    if slots.is_empty() {
        newest
    } else {
        newer_of(newest, tag)
    }
}

/// The newer of two tags, the first of which may be missing.
fn newer_of(newest: Option<u64>, tag: u64) -> Option<u64>
    ensures { (epoch : ℕ) → is_above result epoch ≡ (is_above newest epoch && nat_lt tag epoch) }
{
    match newest {
        Some(other) if tag < other => Some(other),
        _ => Some(tag),
    }
}
