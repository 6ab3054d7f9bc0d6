//! Collecting: retired slots that nobody uses are made fresh.

ghost use Rattle.std.specs.Prelude.{◌≡◌, ◌+◌, ◌-◌, ◌*◌, ◌≤◌, ℕ, IsTrue, not};
ghost use Rattle.std.specs.List.{list_all};
ghost use Rattle.pebr_core.specs.State.{is_out, is_down};
ghost use Rattle.pebr_core.specs.Steps.{is_scanning};
ghost use Rattle.pebr_core.specs.Frames.{fresh_count};
ghost use Rattle.pebr_words.specs.Ruled.{IsSure};
ghost use Rattle.pebr_roots.specs.Collecting.{IsCollected, HasCollected};
ghost use Rattle.pebr_roots.specs.Orders.{HasMade, HasMadeCollection};
ghost use Rattle.pebr_roots.specs.Passes.{shape_at, known_by_pass, number_by, note_by, past_by, operations_by, IsOf};
ghost use Rattle.pebr_roots.specs.Passes.{IsSame};

use crate::ends::Collected;
use crate::pass::{RootPass, Roots};
use crate::scanning::{open_scan, pass_all, scan_all};
use pebr_core::{kept_slots_are_counted, steps_are_safe, steps_leave_the_rest};
use pebr_shields::RootProtocol;

impl<P: RootProtocol> Roots<P> {
    /// Makes retired slots fresh: Note; Advance, from the epoch that Note found, unless it is the last; a Look at each
    /// other seat in rising order; a Scan of each of their shields; Give. Each is one operation on a word.
    ///
    /// A seat that is in with an epoch that isn't above all tags holds the scan up. Without force the collection ends
    /// there, gives nothing, and leaves the scan open for the next `enter` or `collect` to end. With force it
    /// ejects such a seat and goes on, whatever the other seats do: then at most as many slots stay
    /// retired as the other seats have shields.
    pub fn collect(&self, pass: &mut RootPass<P>, force: bool) -> Collected
        requires of { IsOf self.now pass.old }
        requires out { IsTrue (is_out (known_by_pass pass.old).status) }
        requires down { IsTrue (list_all is_down (known_by_pass pass.old).shields) }
        ensures same { IsSame self.now pass.old pass.new }
        ensures note { note_by P.first pass.new ≡ note_by P.first pass.old }
        ensures slots { IsCollected (shape_at self.now) force result.given result.left (known_by_pass pass.old)
            (known_by_pass pass.new) }
        ensures past { HasCollected (shape_at self.now) force (past_by pass.old) (past_by pass.new)
            (known_by_pass pass.new) }
        ensures operations { HasMadeCollection (shape_at self.now) force (number_by pass.old) (known_by_pass pass.old)
            (not (is_scanning (known_by_pass pass.new))) (past_by pass.old) (past_by pass.new) (operations_by pass.old)
            (operations_by pass.new) }
        ensures few { HasMade (2 * ((shape_at self.now).seats - 1)
            + ((shape_at self.now).seats - 1) * (shape_at self.now).shields + 4) (operations_by pass.old)
            (operations_by pass.new) }
        ensures sure { IsSure P.whole (shape_at self.now) (known_by_pass pass.new) (past_by pass.new) }
        ensures left { IsTrue force → result.left ≤ ((shape_at self.now).seats - 1) * (shape_at self.now).shields }
        ensures fresh { IsTrue force → (shape_at self.now).batch + (shape_at self.now).shields
            ≤ fresh_count (known_by_pass pass.new) }
    {
        kept_slots_are_counted();
        steps_are_safe();
        steps_leave_the_rest();
        open_scan(&self.words, &mut pass.seat);
        if !pass_all(&self.words, &mut pass.seat, force) {
            return Collected {
                given: 0,
                left: pass.seat.retired_len(),
            };
        }
        scan_all(&self.words, &mut pass.seat);
        let (given, left) = self.words.give(&mut pass.seat);
        Collected { given, left }
    }
}
