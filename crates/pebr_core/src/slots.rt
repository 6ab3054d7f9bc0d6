//! The steps on slots: Read, Write and Replace.

ghost use Rattle.std.specs.Prelude.{◌≡◌, ℕ, Some, None};
ghost use Rattle.pebr_core.specs.Steps.{is_enabled, next};

use crate::kinds::{Answer, Step};
use crate::machine::Core;

impl Core {
    /// The step Read.
    pub(crate) fn read(&mut self, seat: usize, slot: usize, word: usize) -> Option<Answer>
        ensures answer { result ≡ (next self.old (Step.Read seat slot word)).0 }
        ensures state { self.new ≡ (next self.old (Step.Read seat slot word)).1 }
    {
        if !self.can_read(seat, slot, word) {
            return None;
        }
        Some(Answer::Word(self.words.get(slot, word, 0)))
    }

    /// Whether the step Read is enabled: a valid shield of the seat stands on the slot, which has such a word.
    fn can_read(&self, seat: usize, slot: usize, word: usize) -> bool
        ensures { result ≡ is_enabled self.now (Step.Read seat slot word) }
    {
        seat < self.shape.seats
            && slot < self.shape.slot_count()
            && word < self.shape.width
            && self.seats[seat].is_shielded(slot)
    }

    /// The step Write.
    pub(crate) fn write(
        &mut self,
        seat: usize,
        slot: usize,
        word: usize,
        value: u64,
    ) -> Option<Answer>
        ensures answer { result ≡ (next self.old (Step.Write seat slot word value)).0 }
        ensures state { self.new ≡ (next self.old (Step.Write seat slot word value)).1 }
    {
        if !self.can_write(seat, slot, word) {
            return None;
        }
        self.words.set(slot, word, value);
        Some(Answer::Written)
    }

    /// Whether the step Write is enabled: the slot is a fresh one of the seat, and has such a word.
    fn can_write(&self, seat: usize, slot: usize, word: usize) -> bool
        ensures { result ≡ is_enabled self.now (Step.Write seat slot word 0) }
    {
        seat < self.shape.seats
            && slot < self.shape.slot_count()
            && word < self.shape.width
            && self.seats[seat].fresh.get(slot, false)
    }

    /// The step Replace.
    pub(crate) fn replace(
        &mut self,
        seat: usize,
        root: usize,
        old: usize,
        new: usize,
    ) -> Option<Answer>
        ensures answer { result ≡ (next self.old (Step.Replace seat root old new)).0 }
        ensures state { self.new ≡ (next self.old (Step.Replace seat root old new)).1 }
    {
        if !self.can_replace(seat, root, old, new) {
            return None;
        }
        if self.root(root) != old {
            return Some(Answer::Other);
        }
        self.roots.set(root, new);
        let entry = &mut self.seats[seat];
        entry.replace(old, new);
        Some(Answer::Replaced)
    }

    /// Whether the step Replace is enabled: the seat isn't out, there is such a root, a valid shield of the seat stands
    /// on the old slot, and the new slot is a fresh one of its own.
    fn can_replace(&self, seat: usize, root: usize, old: usize, new: usize) -> bool
        ensures { result ≡ is_enabled self.now (Step.Replace seat root old new) }
    {
        let slots = self.shape.slot_count();
        self.is_engaged(seat)
            && root < self.shape.roots
            && old < slots
            && new < slots
            && self.seats[seat].is_shielded(old)
            && self.seats[seat].fresh.get(new, false)
    }
}
