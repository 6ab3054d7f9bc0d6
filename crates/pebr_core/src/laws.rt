//! What holds of every state, and not only of the states of cores.

ghost use Rattle.std.specs.Prelude.{◌≡◌, ℕ, ◌+◌, ◌<◌, ◌≤◌, List, [], length, Option, Some, None, IsTrue, true, false};
ghost use Rattle.std.specs.Prelude.{count_by, slice_index_or};
ghost use Rattle.pebr_core.specs.declared.kinds.Retired.TheVariants as retire;
ghost use Rattle.pebr_core.specs.declared.kinds.ShieldAt.TheVariants as shield;
ghost use Rattle.pebr_core.specs.declared.kinds.Shape.{Shape};
ghost use Rattle.pebr_core.specs.declared.kinds.Step.{Step};
ghost use Rattle.pebr_core.specs.declared.kinds.Step.TheVariants as step;
ghost use Rattle.pebr_core.specs.State.{State, Seat, start_state, slot_count, seat_at, has, scan_of, found_at};
ghost use Rattle.pebr_core.specs.State.{retired_at, root_at, is_retired, shield_at};
ghost use Rattle.pebr_core.specs.Steps.{is_enabled, is_shielded, after, given_slots, after_note, after_look};
ghost use Rattle.pebr_core.specs.Steps.{after_pass};
ghost use Rattle.pebr_core.specs.Steps.{after_scan, after_give};
ghost use Rattle.pebr_core.specs.Kept.{IsSound};
ghost use Rattle.pebr_core.specs.Frames.{seat_of, LeavesTheRest, UsesBeginAtLoad, LeavesShields, IsFreshAlone};
ghost use Rattle.pebr_core.specs.Frames.{kept_count, fresh_count, retired_count};
ghost use Rattle.pebr_core.specs.Runs.{first_refused, GivesNoUsed, KeepsUsedWords, IsSafeRun};

/// The state at the start is sound.
pub fn start_is_sound()
    ensures { (shape : Shape) → IsSound (start_state shape) }
{}

/// From every sound state, each step that is enabled leads to a sound state, makes no slot fresh
/// that a seat uses, and changes no word of a slot that a seat uses.
pub fn steps_are_safe()
    ensures sound { (state : State) (step : Step) → IsSound state → IsTrue (is_enabled state step)
        → IsSound (after state step) }
    ensures unused { (state : State) (step : Step) → IsSound state → IsTrue (is_enabled state step)
        → GivesNoUsed state (after state step) }
    ensures words { (state : State) (step : Step) → IsSound state → IsTrue (is_enabled state step)
        → KeepsUsedWords state (after state step) }
{}

/// From the start, every list of steps that are enabled in turn leads through sound states alone, and
/// from every other sound state too.
pub fn runs_are_safe()
    ensures start { (shape : Shape) (steps : List Step) → first_refused (start_state shape) steps ≡ None
        → IsSafeRun (start_state shape) steps }
    ensures any { (state : State) (steps : List Step) → IsSound state → first_refused state steps ≡ None
        → IsSafeRun state steps }
{}

/// Whether a step is enabled depends on the shape and the seat that steps alone.
pub fn enabled_by_own_seat()
    ensures { (a b : State) (step : Step) → a.shape ≡ b.shape → seat_at a (seat_of step) ≡ seat_at b (seat_of step)
        → is_enabled a step ≡ is_enabled b step }
{}

/// What a step doesn't name it leaves as it was.
pub fn steps_leave_the_rest()
    ensures { (state : State) (step : Step) → LeavesTheRest state step (after state step) }
{}

/// A use of a slot begins only where the seat loads it, and a seat's shields change only by its own steps.
pub fn uses_begin_at_load()
    ensures begin { (state : State) (step : Step) → UsesBeginAtLoad state step (after state step) }
    ensures shields { (state : State) (step : Step) → LeavesShields state step (after state step) }
{}

/// A seat that was looked at and isn't passed was found in with an epoch at most the tag of some candidate.
pub fn looked_reaches_a_tag()
    ensures { (state : State) (i j found : ℕ) → IsSound state → found_at (scan_of (seat_at state i)) j ≡ Some found
        → has (scan_of (seat_at state i)).passed j ≡ false
        → (slot : ℕ) × (tag : ℕ) × (has (scan_of (seat_at state i)).candidates slot ≡ true)
        × (retired_at (seat_at state i) slot ≡ retire.Tagged tag) × (found ≤ tag) }
{}

/// How many slots a scan keeps, and so how many stay retired.
pub fn kept_slots_are_counted()
    // After a Note none is kept. To pass a seat, by a look or an ejection, leaves their number.
    ensures note { (shape : Shape) (epoch : ℕ) (seat : Seat) → kept_count (after_note shape epoch seat) ≡ 0 }
    ensures pass { (other : ℕ) (seat : Seat) → kept_count (after_pass other seat) ≡ kept_count seat }
    // A Scan keeps at most one more, and none where the shield was down.
    ensures scan { (other place : ℕ) (slot : Option ℕ) (seat : Seat)
        → kept_count (after_scan other place slot seat) ≤ kept_count seat + 1 }
    ensures empty { (other place : ℕ) (seat : Seat) → kept_count (after_scan other place None seat) ≡ kept_count seat }
    // What a Give leaves retired is what was kept, and what it gives is the rest.
    ensures left { (state : State) (i epoch : ℕ) → IsSound state → IsTrue (is_enabled state (step.Give i))
        → retired_count (after_give epoch (seat_at state i)) ≡ kept_count (seat_at state i) }
    ensures given { (state : State) (i epoch : ℕ) → IsSound state → IsTrue (is_enabled state (step.Give i))
        → count_by (λ mark. mark) (given_slots (seat_at state i)) + kept_count (seat_at state i)
        ≡ retired_count (seat_at state i) }
    ensures fresh { (state : State) (i epoch : ℕ) → IsSound state → IsTrue (is_enabled state (step.Give i))
        → fresh_count (after_give epoch (seat_at state i))
        ≡ fresh_count (seat_at state i) + count_by (λ mark. mark) (given_slots (seat_at state i)) }
{}

/// A sound state stays sound with other words of the same lengths. So a start with given contents is sound.
pub fn other_words_are_sound()
    ensures words { (state : State) (words : List (List ℕ)) → IsSound state → length words ≡ slot_count state.shape
        → ((slot : ℕ) → slot < slot_count state.shape → length (slice_index_or words slot []) ≡ state.shape.width)
        → IsSound (record state { words = words }) }
    ensures start { (shape : Shape) (words : List (List ℕ)) → length words ≡ slot_count shape
        → ((slot : ℕ) → slot < slot_count shape → length (slice_index_or words slot []) ≡ shape.width)
        → IsSound (record (start_state shape) { words = words }) }
{}

/// A slot that is fresh at a seat is in no root, fresh at no other seat, and retired at none.
pub fn fresh_slots_are_alone()
    ensures { (state : State) (i slot : ℕ) → IsSound state → slot < slot_count state.shape
        → has (seat_at state i).fresh slot ≡ true → IsFreshAlone state i slot }
{}

/// The slot of a root is fresh at no seat, and retired at none.
pub fn root_slots_are_alone()
    ensures fresh { (state : State) (root i : ℕ) → IsSound state → root < state.shape.roots
        → has (seat_at state i).fresh (root_at state root) ≡ false }
    ensures retired { (state : State) (root i : ℕ) → IsSound state → root < state.shape.roots
        → is_retired (retired_at (seat_at state i) (root_at state root)) ≡ false }
{}

/// A slot that a shield is valid on is protected.
pub fn valid_shields_protect()
    ensures { (seat : Seat) (place slot : ℕ) → shield_at seat place ≡ shield.Valid slot → is_shielded seat slot ≡ true }
{}
