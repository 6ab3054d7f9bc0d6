//! The steps that end a scan: Scan and Give.

ghost use Rattle.std.specs.Prelude.{◌≡◌, ℕ, Some, None};
ghost use Rattle.pebr_core.specs.State.{slot_under};
ghost use Rattle.pebr_core.specs.Steps.{is_enabled, next};

use crate::kinds::{Answer, ShieldAt, Step};
use crate::machine::Core;

/// The slot that a shield stands on.
fn slot_under(at: ShieldAt) -> Option<usize>
    ensures { result ≡ slot_under at }
{
    match at {
        ShieldAt::Down => None,
        ShieldAt::Set(slot) | ShieldAt::Valid(slot) => Some(slot),
    }
}

impl Core {
    /// The step Scan.
    pub(crate) fn scan(&mut self, seat: usize, other: usize, place: usize) -> Option<Answer>
        ensures answer { result ≡ (next self.old (Step.Scan seat other place)).0 }
        ensures state { self.new ≡ (next self.old (Step.Scan seat other place)).1 }
    {
        if !self.can_scan(seat, other, place) {
            return None;
        }
        let slot = slot_under(self.shield(other, place));
        let entry = &mut self.seats[seat];
        entry.scan(other, place, slot);
        Some(match slot {
            None => Answer::Empty,
            Some(slot) => Answer::Holds(slot),
        })
    }

    /// Whether the step Scan is enabled: the scan is open, has passed the other seat and hasn't read this
    /// shield of it yet.
    fn can_scan(&self, seat: usize, other: usize, place: usize) -> bool
        ensures { result ≡ is_enabled self.now (Step.Scan seat other place) }
    {
        if seat >= self.shape.seats || other >= self.shape.seats || place >= self.shape.shields {
            return false;
        }
        let scan = &self.seats[seat].scan;
        scan.is_open && scan.passed.get(other, false) && !scan.scanned.get(other, place, false)
    }

    /// The step Give.
    pub(crate) fn give(&mut self, seat: usize) -> Option<Answer>
        ensures answer { result ≡ (next self.old (Step.Give seat)).0 }
        ensures state { self.new ≡ (next self.old (Step.Give seat)).1 }
    {
        if !self.can_give(seat) {
            return None;
        }
        let epoch = self.epoch;
        let entry = &mut self.seats[seat];
        Some(entry.give(epoch))
    }

    /// Whether the step Give is enabled: the scan is open, has passed each other seat and read all of its
    /// shields, and the seat's own shields are down.
    fn can_give(&self, seat: usize) -> bool
        ensures { result ≡ is_enabled self.now (Step.Give seat) }
    {
        if seat >= self.shape.seats {
            return false;
        }
        let entry = &self.seats[seat];
        entry.can_give(&self.shape, seat)
    }
}
