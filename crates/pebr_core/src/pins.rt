//! The steps of pins and of the epoch: Note, Pin, Leave, Advance, Look and Eject.

ghost use Rattle.std.specs.Prelude.{◌≡◌, ℕ, ◌&&◌, not, Some, None, if◌then◌else◌};
ghost use Rattle.pebr_core.specs.State.{seat_at, scan_of, found_at, is_out};
ghost use Rattle.pebr_core.specs.Steps.{is_seat, is_enabled, next};

use crate::kinds::{Answer, LAST_EPOCH, Stance, Step};
use crate::machine::Core;

impl Core {
    /// Whether there is such a seat, and it is out.
    pub(crate) fn is_out(&self, seat: usize) -> bool
        ensures { result ≡ (is_seat self.now seat && is_out (seat_at self.now seat).status) }
    {
        seat < self.shape.seats && matches!(self.seats[seat].status, Stance::Out)
    }

    /// Whether there is such a seat, and it isn't out.
    pub(crate) fn is_engaged(&self, seat: usize) -> bool
        ensures { result ≡ (is_seat self.now seat && not (is_out (seat_at self.now seat).status)) }
    {
        seat < self.shape.seats && !matches!(self.seats[seat].status, Stance::Out)
    }

    /// The step Note.
    pub(crate) fn note(&mut self, seat: usize) -> Option<Answer>
        ensures answer { result ≡ (next self.old (Step.Note seat)).0 }
        ensures state { self.new ≡ (next self.old (Step.Note seat)).1 }
    {
        if !self.is_out(seat) {
            return None;
        }
        let epoch = self.epoch;
        let entry = &mut self.seats[seat];
        entry.note(epoch);
        Some(Answer::Epoch(epoch))
    }

    /// The step Pin.
    pub(crate) fn pin(&mut self, seat: usize) -> Option<Answer>
        ensures answer { result ≡ (next self.old (Step.Pin seat)).0 }
        ensures state { self.new ≡ (next self.old (Step.Pin seat)).1 }
    {
        if !self.is_out(seat) {
            return None;
        }
        let noted = self.noted(seat);
        let entry = &mut self.seats[seat];
        entry.pin();
        Some(Answer::In(noted))
    }

    /// The step Leave.
    pub(crate) fn leave(&mut self, seat: usize) -> Option<Answer>
        ensures answer { result ≡ (next self.old (Step.Leave seat)).0 }
        ensures state { self.new ≡ (next self.old (Step.Leave seat)).1 }
    {
        if !self.is_engaged(seat) {
            return None;
        }
        let entry = &mut self.seats[seat];
        entry.leave();
        Some(Answer::Out)
    }

    /// The step Advance.
    pub(crate) fn advance(&mut self, seat: usize) -> Option<Answer>
        ensures answer { result ≡ (next self.old (Step.Advance seat)).0 }
        ensures state { self.new ≡ (next self.old (Step.Advance seat)).1 }
    {
        if seat >= self.shape.seats {
            return None;
        }
        let noted = self.noted(seat);
        if noted >= LAST_EPOCH {
            return None;
        }
        if self.epoch != noted {
            return Some(Answer::Lost);
        }
        self.epoch += 1;
        Some(Answer::Epoch(noted + 1))
    }

    /// Whether the step Look is enabled.
    fn can_look(&self, seat: usize, other: usize) -> bool
        ensures { result ≡ is_enabled self.now (Step.Look seat other) }
    {
        if seat >= self.shape.seats || other >= self.shape.seats {
            return false;
        }
        let scan = &self.seats[seat].scan;
        scan.is_open && other != seat && !scan.passed.get(other, false)
    }

    /// The step Look.
    pub(crate) fn look(&mut self, seat: usize, other: usize) -> Option<Answer>
        ensures answer { result ≡ (next self.old (Step.Look seat other)).0 }
        ensures state { self.new ≡ (next self.old (Step.Look seat other)).1 }
    {
        if !self.can_look(seat, other) {
            return None;
        }
        let status = self.status(other);
        let entry = &mut self.seats[seat];
        Some(entry.look(other, status))
    }

    /// The epoch with which the scan of a seat found another in, where the step Eject is enabled.
    fn epoch_found(&self, seat: usize, other: usize) -> Option<u64>
        ensures { result ≡ (if is_enabled self.now (Step.Eject seat other)
            then found_at (scan_of (seat_at self.now seat)) other else None) }
    {
        if seat >= self.shape.seats || other >= self.shape.seats {
            return None;
        }
        let scan = &self.seats[seat].scan;
        if scan.is_open && !scan.passed.get(other, false) {
            scan.looked.get(other, None)
        } else {
            None
        }
    }

    /// The step Eject.
    pub(crate) fn eject(&mut self, seat: usize, other: usize) -> Option<Answer>
        ensures answer { result ≡ (next self.old (Step.Eject seat other)).0 }
        ensures state { self.new ≡ (next self.old (Step.Eject seat other)).1 }
    {
        let found = self.epoch_found(seat, other)?;
        let entry = &mut self.seats[other];
        let won = entry.eject(found);
        let entry = &mut self.seats[seat];
        entry.pass(other);
        Some(if won { Answer::Ejected } else { Answer::Lost })
    }
}
