//! The steps of shields: Load, Shield, Check and Unshield.

ghost use Rattle.std.specs.Prelude.{◌≡◌, ℕ, Some, None};
ghost use Rattle.pebr_core.specs.Steps.{is_enabled, next};

use crate::kinds::{Answer, ShieldAt, Step};
use crate::machine::Core;

impl Core {
    /// The step Load.
    pub(crate) fn load(&mut self, seat: usize, root: usize) -> Option<Answer>
        ensures answer { result ≡ (next self.old (Step.Load seat root)).0 }
        ensures state { self.new ≡ (next self.old (Step.Load seat root)).1 }
    {
        if !self.can_load(seat, root) {
            return None;
        }
        let slot = self.root(root);
        let entry = &mut self.seats[seat];
        entry.load(slot);
        Some(Answer::Slot(slot))
    }

    /// Whether the step Load is enabled: the seat isn't out, and there is such a root.
    fn can_load(&self, seat: usize, root: usize) -> bool
        ensures { result ≡ is_enabled self.now (Step.Load seat root) }
    {
        root < self.shape.roots && self.is_engaged(seat)
    }

    /// The step Shield.
    pub(crate) fn set_shield(&mut self, seat: usize, place: usize, slot: usize) -> Option<Answer>
        ensures answer { result ≡ (next self.old (Step.Shield seat place slot)).0 }
        ensures state { self.new ≡ (next self.old (Step.Shield seat place slot)).1 }
    {
        if !self.can_shield(seat, place, slot) {
            return None;
        }
        let entry = &mut self.seats[seat];
        entry.put_shield(place, ShieldAt::Set(slot));
        Some(Answer::Set)
    }

    /// Whether the step Shield is enabled: the seat isn't out, has such a shield, and has seen the slot.
    fn can_shield(&self, seat: usize, place: usize, slot: usize) -> bool
        ensures { result ≡ is_enabled self.now (Step.Shield seat place slot) }
    {
        self.is_engaged(seat)
            && place < self.shape.shields
            && slot < self.shape.slot_count()
            && self.seats[seat].seen.get(slot, false)
    }

    /// The step Check.
    pub(crate) fn check(&mut self, seat: usize) -> Option<Answer>
        ensures answer { result ≡ (next self.old (Step.Check seat)).0 }
        ensures state { self.new ≡ (next self.old (Step.Check seat)).1 }
    {
        if !self.is_engaged(seat) {
            return None;
        }
        let entry = &mut self.seats[seat];
        Some(entry.check())
    }

    /// The step Unshield.
    pub(crate) fn unshield(&mut self, seat: usize, place: usize) -> Option<Answer>
        ensures answer { result ≡ (next self.old (Step.Unshield seat place)).0 }
        ensures state { self.new ≡ (next self.old (Step.Unshield seat place)).1 }
    {
        if !self.can_unshield(seat, place) {
            return None;
        }
        let entry = &mut self.seats[seat];
        entry.put_shield(place, ShieldAt::Down);
        Some(Answer::Cleared)
    }

    /// Whether the step Unshield is enabled: the seat has such a shield.
    fn can_unshield(&self, seat: usize, place: usize) -> bool
        ensures { result ≡ is_enabled self.now (Step.Unshield seat place) }
    {
        seat < self.shape.seats && place < self.shape.shields
    }
}
