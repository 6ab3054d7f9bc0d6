//! The three ways in which a core step is made: a load, a store, and a compare and exchange.
//!
//! Each takes the core step and the act beside the word. They are for the proof alone, which is to
//! show that the step is made so, that the operation is the step's own, and that the protocol keeps.

ghost use Rattle.std.specs.Prelude.{◌≡◌, ◌<◌, ◌∷◌, ℕ, length, ◌==◌};
ghost use prog.Atomic.{either};
ghost use Rattle.pebr_table.specs.Operations as op;
ghost use Rattle.pebr_table.specs.Tables.{table_at, table_of, key_of, me_of, operations_of};
ghost use Rattle.pebr_words.specs.Places.{IsPlace, index, word_count};
ghost use Rattle.pebr_core.specs.Frames.{seat_of};
ghost use Rattle.pebr_words.specs.Making.{place_of, number_in, known_in_view, note_in, past_in};
ghost use Rattle.pebr_words.specs.Operating.{operation_of, IsOwn};
ghost use Rattle.pebr_words.specs.Ruled.{BackedWhole, IsPicked, IsTold};
ghost use Rattle.pebr_words.specs.Facts.{IsMadeBy, IsKeptBy, IsRecalledBy, StepsAreSafe};

use crate::protocol::RootProtocol;
use crate::rule::{IsStep, Makes, Stores};
use crate::views::TableSeat;
use crate::words::Words;
use pebr_core::{
    Step, fresh_slots_are_alone, steps_are_safe, steps_leave_the_rest, uses_begin_at_load,
};
use std::marker::Brand;

/// The laws of the core.
fn safe_steps()
    ensures { StepsAreSafe }
{
    steps_are_safe();
    uses_begin_at_load();
    steps_leave_the_rest();
    fresh_slots_are_alone();
}

impl<P: RootProtocol> Words<P> {
    /// Makes a step that loads a word, under the name of the step that `K` picks. It answers the word.
    fn load_as<K: IsStep<P::Act>>(
        &self,
        seat: &mut TableSeat<P::Note>,
        word: usize,
        _step: Step,
        _act: Option<P::Act>,
    ) -> u64
        requires picked { IsPicked K.shape K.step K.act self.now.shape _step _act }
        requires at { (table_at seat.old ≡ table_of self.now.table) × (0 < length (me_of seat.old).0)
            × (number_in (me_of seat.old).0 ≡ seat_of _step) }
        requires place { IsPlace self.now.shape (place_of _step) × (index self.now.shape (place_of _step) ≡ word) }
        requires own { IsOwn self.now.shape _step (known_in_view (me_of seat.old).0)
            (op.load (index self.now.shape (place_of _step))) }
        requires made { IsMadeBy self.now.shape _step (seat_of _step) (known_in_view (me_of seat.old).0)
            (λ found. found) }
        requires kept { IsKeptBy (P.keeps (key_of self.now.table).fixed)
            (BackedWhole P.whole (P.backed (key_of self.now.table).fixed)) P.after self.now.shape _step _act
            (seat_of _step)
            (known_in_view (me_of seat.old).0) (past_in (me_of seat.old).0)
            (note_in P.first (me_of seat.old).0) (λ found. found) }
        requires recalled { IsRecalledBy self.now.shape _step (seat_of _step) (known_in_view (me_of seat.old).0)
            (past_in (me_of seat.old).0) (λ found. found) }
        ensures at { table_at seat.new ≡ table_at seat.old }
        ensures told { IsTold P.after P.whole P.first self.now.shape _step _act result (me_of seat.old)
            (me_of seat.new) }
        ensures recorded { operations_of seat.new
            ≡ operation_of self.now.shape _step (known_in_view (me_of seat.old).0) result ∷ operations_of seat.old }
    {
        safe_steps();
        self.table.load::<Makes<P, K>>(seat, word)
    }

    /// A core step that is made by a load.
    pub(crate) fn load(
        &self,
        seat: &mut TableSeat<P::Note>,
        word: usize,
        step: Step,
        act: Option<P::Act>,
    ) -> u64
        requires at { (table_at seat.old ≡ table_of self.now.table) × (0 < length (me_of seat.old).0)
            × (number_in (me_of seat.old).0 ≡ seat_of step) }
        requires place { IsPlace self.now.shape (place_of step) × (index self.now.shape (place_of step) ≡ word) }
        requires own { IsOwn self.now.shape step (known_in_view (me_of seat.old).0)
            (op.load (index self.now.shape (place_of step))) }
        requires made { IsMadeBy self.now.shape step (seat_of step) (known_in_view (me_of seat.old).0)
            (λ found. found) }
        requires kept { IsKeptBy (P.keeps (key_of self.now.table).fixed)
            (BackedWhole P.whole (P.backed (key_of self.now.table).fixed)) P.after self.now.shape step act
            (seat_of step)
            (known_in_view (me_of seat.old).0) (past_in (me_of seat.old).0)
            (note_in P.first (me_of seat.old).0) (λ found. found) }
        requires recalled { IsRecalledBy self.now.shape step (seat_of step) (known_in_view (me_of seat.old).0)
            (past_in (me_of seat.old).0) (λ found. found) }
        ensures at { table_at seat.new ≡ table_at seat.old }
        ensures told { IsTold P.after P.whole P.first self.now.shape step act result (me_of seat.old)
            (me_of seat.new) }
        ensures recorded { operations_of seat.new
            ≡ operation_of self.now.shape step (known_in_view (me_of seat.old).0) result ∷ operations_of seat.old }
    {
        self.load_as::<Brand>(seat, word, step, act)
    }

    /// Makes a step that stores to a word, under the name of the step that `K` picks.
    fn store_as<K: IsStep<P::Act>>(
        &self,
        seat: &mut TableSeat<P::Note>,
        word: usize,
        new: u64,
        _step: Step,
        _act: Option<P::Act>,
    )
        requires picked { IsPicked K.shape K.step K.act self.now.shape _step _act }
        requires at { (table_at seat.old ≡ table_of self.now.table) × (0 < length (me_of seat.old).0)
            × (number_in (me_of seat.old).0 ≡ seat_of _step) }
        requires place { IsPlace self.now.shape (place_of _step) × (index self.now.shape (place_of _step) ≡ word) }
        requires own { IsOwn self.now.shape _step (known_in_view (me_of seat.old).0)
            (λ _. op.store (index self.now.shape (place_of _step)) new) }
        requires made { IsMadeBy self.now.shape _step (seat_of _step) (known_in_view (me_of seat.old).0) (λ _. new) }
        requires kept { IsKeptBy (P.keeps (key_of self.now.table).fixed)
            (BackedWhole P.whole (P.backed (key_of self.now.table).fixed)) P.after self.now.shape _step _act
            (seat_of _step)
            (known_in_view (me_of seat.old).0) (past_in (me_of seat.old).0)
            (note_in P.first (me_of seat.old).0) (λ _. new) }
        requires recalled { IsRecalledBy self.now.shape _step (seat_of _step) (known_in_view (me_of seat.old).0)
            (past_in (me_of seat.old).0) (λ _. new) }
        ensures at { table_at seat.new ≡ table_at seat.old }
        ensures told { (found : ℕ) × IsTold P.after P.whole P.first self.now.shape _step _act found (me_of seat.old)
            (me_of seat.new) }
        ensures recorded { operations_of seat.new
            ≡ operation_of self.now.shape _step (known_in_view (me_of seat.old).0) 0 ∷ operations_of seat.old }
    {
        safe_steps();
        self.table.store::<Stores<P, K>>(seat, word, new);
    }

    /// A core step that is made by a store.
    pub(crate) fn store(
        &self,
        seat: &mut TableSeat<P::Note>,
        word: usize,
        new: u64,
        step: Step,
        act: Option<P::Act>,
    )
        requires at { (table_at seat.old ≡ table_of self.now.table) × (0 < length (me_of seat.old).0)
            × (number_in (me_of seat.old).0 ≡ seat_of step) }
        requires place { IsPlace self.now.shape (place_of step) × (index self.now.shape (place_of step) ≡ word) }
        requires own { IsOwn self.now.shape step (known_in_view (me_of seat.old).0)
            (λ _. op.store (index self.now.shape (place_of step)) new) }
        requires made { IsMadeBy self.now.shape step (seat_of step) (known_in_view (me_of seat.old).0) (λ _. new) }
        requires kept { IsKeptBy (P.keeps (key_of self.now.table).fixed)
            (BackedWhole P.whole (P.backed (key_of self.now.table).fixed)) P.after self.now.shape step act
            (seat_of step)
            (known_in_view (me_of seat.old).0) (past_in (me_of seat.old).0)
            (note_in P.first (me_of seat.old).0) (λ _. new) }
        requires recalled { IsRecalledBy self.now.shape step (seat_of step) (known_in_view (me_of seat.old).0)
            (past_in (me_of seat.old).0) (λ _. new) }
        ensures at { table_at seat.new ≡ table_at seat.old }
        ensures told { (found : ℕ) × IsTold P.after P.whole P.first self.now.shape step act found (me_of seat.old)
            (me_of seat.new) }
        ensures recorded { operations_of seat.new
            ≡ operation_of self.now.shape step (known_in_view (me_of seat.old).0) 0 ∷ operations_of seat.old }
    {
        self.store_as::<Brand>(seat, word, new, step, act);
    }

    /// Makes a step that exchanges a word where it has the first of two values for the second, under the name of the
    /// step that `K` picks. It answers what the word had.
    fn exchange_as<K: IsStep<P::Act>>(
        &self,
        seat: &mut TableSeat<P::Note>,
        word: usize,
        change: (u64, u64),
        _step: Step,
        _act: Option<P::Act>,
    ) -> u64
        requires picked { IsPicked K.shape K.step K.act self.now.shape _step _act }
        requires at { (table_at seat.old ≡ table_of self.now.table) × (0 < length (me_of seat.old).0)
            × (number_in (me_of seat.old).0 ≡ seat_of _step) }
        requires place { IsPlace self.now.shape (place_of _step) × (index self.now.shape (place_of _step) ≡ word) }
        requires own { IsOwn self.now.shape _step (known_in_view (me_of seat.old).0)
            (op.exchange (index self.now.shape (place_of _step)) change.0 change.1) }
        requires made { IsMadeBy self.now.shape _step (seat_of _step) (known_in_view (me_of seat.old).0)
            (λ found. either (found == change.0) change.1 found) }
        requires kept { IsKeptBy (P.keeps (key_of self.now.table).fixed)
            (BackedWhole P.whole (P.backed (key_of self.now.table).fixed)) P.after self.now.shape _step _act
            (seat_of _step)
            (known_in_view (me_of seat.old).0) (past_in (me_of seat.old).0)
            (note_in P.first (me_of seat.old).0)
            (λ found. either (found == change.0) change.1 found) }
        requires recalled { IsRecalledBy self.now.shape _step (seat_of _step) (known_in_view (me_of seat.old).0)
            (past_in (me_of seat.old).0) (λ found. either (found == change.0) change.1 found) }
        ensures at { table_at seat.new ≡ table_at seat.old }
        ensures told { IsTold P.after P.whole P.first self.now.shape _step _act result (me_of seat.old)
            (me_of seat.new) }
        ensures recorded { operations_of seat.new
            ≡ operation_of self.now.shape _step (known_in_view (me_of seat.old).0) result ∷ operations_of seat.old }
    {
        safe_steps();
        self.table
            .exchange::<Makes<P, K>>(seat, word, change.0, change.1)
    }

    /// A core step that is made by a compare and exchange: of the first of two values for the second. The word as it
    /// was comes back.
    pub(crate) fn exchange(
        &self,
        seat: &mut TableSeat<P::Note>,
        word: usize,
        change: (u64, u64),
        step: Step,
        act: Option<P::Act>,
    ) -> u64
        requires at { (table_at seat.old ≡ table_of self.now.table) × (0 < length (me_of seat.old).0)
            × (number_in (me_of seat.old).0 ≡ seat_of step) }
        requires place { IsPlace self.now.shape (place_of step) × (index self.now.shape (place_of step) ≡ word) }
        requires own { IsOwn self.now.shape step (known_in_view (me_of seat.old).0)
            (op.exchange (index self.now.shape (place_of step)) change.0 change.1) }
        requires made { IsMadeBy self.now.shape step (seat_of step) (known_in_view (me_of seat.old).0)
            (λ found. either (found == change.0) change.1 found) }
        requires kept { IsKeptBy (P.keeps (key_of self.now.table).fixed)
            (BackedWhole P.whole (P.backed (key_of self.now.table).fixed)) P.after self.now.shape step act
            (seat_of step)
            (known_in_view (me_of seat.old).0) (past_in (me_of seat.old).0)
            (note_in P.first (me_of seat.old).0)
            (λ found. either (found == change.0) change.1 found) }
        requires recalled { IsRecalledBy self.now.shape step (seat_of step) (known_in_view (me_of seat.old).0)
            (past_in (me_of seat.old).0) (λ found. either (found == change.0) change.1 found) }
        ensures at { table_at seat.new ≡ table_at seat.old }
        ensures told { IsTold P.after P.whole P.first self.now.shape step act result (me_of seat.old)
            (me_of seat.new) }
        ensures recorded { operations_of seat.new
            ≡ operation_of self.now.shape step (known_in_view (me_of seat.old).0) result ∷ operations_of seat.old }
    {
        self.exchange_as::<Brand>(seat, word, change, step, act)
    }
}
