//! Opening, the three operations on a word, splitting, uniting and closing.

ghost use Rattle.std.specs.Prelude.{◌≡◌, ◌<◌, ◌∷◌, [], length, IfOk, ◌==◌};
ghost use Rattle.std.specs.Slots.{slots_items, slots_len, IsFull};
ghost use mathlib.Core.Option.{none};
ghost use prog.Atomic.{either};
ghost use Rattle.atomic_table.specs.Table.{step, opening, Allows, Splits, Joins, Final, Seen};
ghost use Rattle.pebr_table.specs.Operations.{load, store, exchange};
ghost use Rattle.pebr_table.specs.Tables.{table_at, table_of, key_of, id_of, me_of, operations_of};

use crate::rule::{Exchanges, Loads, Parts, Stores, Unites};
use crate::table::{Seat, Table};
use atomic_table::{Closed, Join, Play, Split, TableRule};
use no_memory::NoMemory;
use std::alloc::Global;

impl<V, K, P: TableRule<(), V, K>> Table<V, K, P> {
    /// A table of these words, and its first seat, which has made no operation. `told` is what the rule is told of it.
    ///
    /// # Errors
    ///
    /// `NoMemory` where no memory was left.
    pub fn open(
        alloc: Global,
        words: &[u64],
        told: &K,
    ) -> Result<(Table<V, K, P>, Seat<V>), NoMemory>
        requires { P.holds told.now (opening words.now [] (P.first told.now)) }
        ensures table { IfOk result (λ r. ((table_of r.0).words ≡ length words.now) × (key_of r.0 ≡ told.now)) }
        ensures seat { IfOk result (λ r. (table_at r.1 ≡ table_of r.0) × (me_of r.1 ≡ (P.first told.now, []))
            × (operations_of r.1 ≡ [])) }
    {
        let Ok((inner, seat)) = atomic_table::Table::of_words(alloc, words, told) else {
            return Err(NoMemory);
        };
        Ok((Table { inner }, Seat { inner: seat }))
    }

    /// Loads a word: it answers what it found.
    pub fn load<M: Play<(), V>>(&self, seat: &mut Seat<V>, word: usize) -> u64
        requires { (table_at seat.old ≡ table_of self.now) × (word < (table_of self.now).words)
            × Allows (P.holds (key_of self.now)) (table_of self.now).slots (id_of seat.old) (me_of seat.old) word
            (λ n. n) (M.then (step (table_of self.now).slots word 0 0 none) (me_of seat.old)) }
        ensures told { (table_at seat.new ≡ table_at seat.old) × (id_of seat.new ≡ id_of seat.old)
            × M.then (step (table_of self.now).slots word 0 0 none) (me_of seat.old) result (me_of seat.new) }
        ensures recorded { operations_of seat.new ≡ load word result ∷ operations_of seat.old }
    {
        self.inner.shared.load::<Loads<M>>(&mut seat.inner, word)
    }

    /// Stores to a word.
    pub fn store<M: Play<(), V>>(&self, seat: &mut Seat<V>, word: usize, new: u64)
        requires { (table_at seat.old ≡ table_of self.now) × (word < (table_of self.now).words)
            × Allows (P.holds (key_of self.now)) (table_of self.now).slots (id_of seat.old) (me_of seat.old) word
            (λ _. new) (λ _. M.then (step (table_of self.now).slots word new 0 none) (me_of seat.old) new) }
        ensures told { (table_at seat.new ≡ table_at seat.old) × (id_of seat.new ≡ id_of seat.old)
            × M.then (step (table_of self.now).slots word new 0 none) (me_of seat.old) new (me_of seat.new) }
        ensures recorded { operations_of seat.new ≡ store word new ∷ operations_of seat.old }
    {
        self.inner
            .shared
            .store::<Stores<M>>(&mut seat.inner, word, new);
    }

    /// Stores `new` to a word where it has `old`. It answers what the word had.
    pub fn exchange<M: Play<(), V>>(
        &self,
        seat: &mut Seat<V>,
        word: usize,
        old: u64,
        new: u64,
    ) -> u64
        requires { (table_at seat.old ≡ table_of self.now) × (word < (table_of self.now).words)
            × Allows (P.holds (key_of self.now)) (table_of self.now).slots (id_of seat.old) (me_of seat.old) word
            (λ n. either (n == old) new n) (M.then (step (table_of self.now).slots word old new none)
            (me_of seat.old)) }
        ensures told { (table_at seat.new ≡ table_at seat.old) × (id_of seat.new ≡ id_of seat.old)
            × M.then (step (table_of self.now).slots word old new none) (me_of seat.old) result (me_of seat.new) }
        ensures recorded { operations_of seat.new ≡ exchange word old new result ∷ operations_of seat.old }
    {
        self.inner
            .shared
            .compare_exchange::<Exchanges<M>>(&mut seat.inner, word, old, new)
    }

    /// A new seat, with a part of this one's view. Neither has made an operation: a call that is handed a seat at work
    /// can't split a second one off, make an operation there, and unite the two, after which no list would have it.
    pub fn split<M: Split<V>>(&self, seat: &mut Seat<V>) -> Seat<V>
        requires at { (table_at seat.old ≡ table_of self.now) × (0 < (table_of self.now).words)
            × Splits (P.holds (key_of self.now)) (id_of seat.old) (me_of seat.old).0 (M.left (me_of seat.old).0)
            (M.right (me_of seat.old).0) }
        requires idle { operations_of seat.old ≡ [] }
        ensures old { (table_at seat.new ≡ table_at seat.old) × (id_of seat.new ≡ id_of seat.old)
            × (me_of seat.new ≡ (M.left (me_of seat.old).0, (me_of seat.old).1))
            × (operations_of seat.new ≡ operations_of seat.old) }
        ensures new { (table_at result ≡ table_at seat.old) × (me_of result ≡ (M.right (me_of seat.old).0, []))
            × (operations_of result ≡ []) }
    {
        let inner = self.inner.shared.split_seat::<Parts<M>>(&mut seat.inner);
        Seat { inner }
    }

    /// The seat takes in the other's view.
    pub fn unite<M: Join<V>>(&self, seat: &mut Seat<V>, other: Seat<V>)
        requires { (table_at seat.old ≡ table_of self.now) × (table_at other ≡ table_of self.now)
            × ((me_of other).1 ≡ []) × (0 < (table_of self.now).words)
            × Joins (P.holds (key_of self.now)) (id_of seat.old) (me_of seat.old).0 (id_of other) (me_of other).0
            (M.both (me_of seat.old).0 (me_of other).0) M.spent }
        ensures { (table_at seat.new ≡ table_at seat.old) × (id_of seat.new ≡ id_of seat.old)
            × (me_of seat.new ≡ (M.both (me_of seat.old).0 (me_of other).0, (me_of seat.old).1))
            × (operations_of seat.new ≡ operations_of seat.old) }
    {
        let Seat { inner } = other;
        self.inner
            .shared
            .join_seat::<Unites<M>>(&mut seat.inner, inner);
    }

    /// Ends the table, and gives its words as they are in a last state, in which the seat has its view.
    pub fn close(self, seat: Seat<V>) -> Closed<(), Global>
        requires { table_at seat ≡ table_of self }
        ensures counts { (slots_len result.words ≡ (table_of self).words) × (slots_len result.slots ≡ 0) }
        ensures values { IsFull result.words × IsFull result.slots
            × Final (Seen (P.holds (key_of self)) (id_of seat) (me_of seat).0) (slots_items result.words)
            (slots_items result.slots) }
    {
        let Table { inner } = self;
        let Seat { inner: seat } = seat;
        inner.close_with(seat)
    }
}
