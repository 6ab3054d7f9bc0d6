//! Opening: the words, the table and a seat for each number.

ghost use Rattle.std.specs.Prelude.{◌≡◌, ℕ, ◌*◌, ◌+◌, ◌-◌, ◌^◌, ◌<◌, ◌≤◌, [], ◌∷◌, length, replicate, IfOk, OnOk, All};
ghost use Rattle.std.specs.Prelude.{◌++◌};
ghost use Rattle.std.specs.List.{range_with_len};
ghost use Rattle.pebr_core.specs.Kept.{IsWithinLimits};
ghost use Rattle.pebr_table.specs.Tables.{table_at, table_of, me_of, operations_of};
ghost use Rattle.pebr_words.specs.Places.{roots_from, slots_from};
ghost use Rattle.pebr_words.specs.Opening.{opening_words, rows_of, spare_slots};
ghost use Rattle.pebr_words.specs.Mirrors.{IsFirst};
ghost use Rattle.pebr_words.specs.Ruled.{first_view, view_from};
ghost use Rattle.pebr_words.specs.Seats.{shape_of, fixed_of, count_of, IsAt, IsUnited, IsOpenedSeat, AreOpened};

use crate::protocol::RootProtocol;
use crate::rule::Parts;
use crate::views::{TableSeat, Told};
use crate::words::{Seat, Words};
use no_memory::NoMemory;
use pebr_core::{Shape, other_words_are_sound, start_is_sound};
use pebr_slots::SeatSlots;
use pebr_table::Table;
use std::alloc::Global;

/// How many words come before the roots'.
pub(crate) fn roots_from(shape: Shape) -> usize
    requires { IsWithinLimits shape }
    ensures { result ≡ roots_from shape }
{
    16 * (2 * shape.seats + 1)
}

/// How many words come before the slots'.
fn slots_from(shape: Shape) -> usize
    requires { IsWithinLimits shape }
    ensures { result ≡ slots_from shape }
{
    roots_from(shape) + shape.roots
}

/// How many words the slots have that aren't in a root.
fn spare_words(shape: Shape) -> usize
    requires { IsWithinLimits shape }
    ensures sum { result ≡ spare_slots shape * shape.width }
    ensures few { result ≤ 1572864 }
{
    let slots = shape.seats * (shape.batch + shape.seats * shape.shields);
    slots * shape.width
}

/// Appends a value.
pub(crate) fn put<T: Drop>(list: &mut Vec<T>, value: T) -> Result<(), NoMemory>
    ensures { OnOk result (list.new.items ≡ list.old.items ++ value ∷ []) }
{
    list.push(value)?;
    Ok(())
}

/// The roots' words: each root has the slot of its number.
fn push_roots(words: &mut Vec<u64>, roots: usize) -> Result<(), NoMemory>
    ensures { OnOk result (words.new.items ≡ words.old.items ++ range_with_len 0 roots) }
{
    for root in 0..roots {
        put(words, root as u64)?;
    }
    Ok(())
}

/// Appends `count` zeros.
fn put_zeros(words: &mut Vec<u64>, count: usize) -> Result<(), NoMemory>
    requires { length words.old.items + count < 2 ^ 32 }
    ensures { OnOk result (words.new.items ≡ words.old.items ++ replicate count 0) }
{
    let len = words.len() + count;
    words.resize(len, 0)?;
    Ok(())
}

/// Appends all of these.
fn put_all(words: &mut Vec<u64>, more: &[u64]) -> Result<(), NoMemory>
    ensures { OnOk result (words.new.items ≡ words.old.items ++ more.now) }
{
    words.extend_from_slice(more)?;
    Ok(())
}

/// Room for all words, of which the roots' contents are so many. It has none yet.
fn no_words(alloc: Global, shape: Shape, contents: usize) -> Result<Vec<u64>, NoMemory>
    requires { IsWithinLimits shape }
    ensures { IfOk result (λ words. words.items ≡ []) }
{
    let room = slots_from(shape)
        .saturating_add(contents)
        .saturating_add(spare_words(shape));
    Ok(Vec::with_capacity(alloc, room)?)
}

/// All words as they are at first.
fn first_words(alloc: Global, shape: Shape, contents: &[u64]) -> Result<Vec<u64>, NoMemory>
    requires limits { IsWithinLimits shape }
    requires long { length contents.now ≡ shape.roots * shape.width }
    ensures { IfOk result (λ words. words.items ≡ opening_words shape contents.now) }
{
    let mut words = no_words(alloc, shape, contents.len())?;
    put_zeros(&mut words, roots_from(shape))?;
    push_roots(&mut words, shape.roots)?;
    put_all(&mut words, contents)?;
    put_zeros(&mut words, spare_words(shape))?;
    Ok(words)
}

impl<P: RootProtocol> Words<P> {
    /// Room for what a scan finds.
    fn none_found(&self, alloc: Global) -> Result<Vec<u64>, NoMemory>
        ensures { IfOk result (λ found. found.items ≡ replicate self.now.shape.seats 0) }
    {
        let found = Vec::from_elem(alloc, 0u64, self.shape.seats)?;
        Ok(found)
    }

    /// The slots of a seat that has done nothing.
    fn first_slots(&self, alloc: Global, number: usize) -> Result<SeatSlots, NoMemory>
        requires { number < self.now.shape.seats }
        ensures { IfOk result (IsFirst self.now.shape number) }
    {
        SeatSlots::new(alloc, self.shape, number)
    }

    /// The seat of one number, as it is opened.
    fn open_seat(
        &self,
        inner: TableSeat<P::Note>,
        number: usize,
        slots: SeatSlots,
        found: Vec<u64>,
    ) -> Seat<P>
        requires slots { IsFirst self.now.shape number slots }
        requires found { found.items ≡ replicate self.now.shape.seats 0 }
        requires at { (table_at inner ≡ table_of self.now.table) × (number < self.now.shape.seats) }
        requires view { me_of inner ≡ (view_from self.now.shape P.first number 1, []) }
        requires idle { operations_of inner ≡ [] }
        ensures { IsOpenedSeat self.now P.first number result }
    {
        start_is_sound();
        Seat {
            inner,
            number,
            noted: 0,
            slots,
            found,
        }
    }

    /// Splits the next number off.
    fn split_one(
        &self,
        seat: &mut TableSeat<P::Note>,
        number: usize,
        slots: SeatSlots,
        found: Vec<u64>,
    ) -> Seat<P>
        requires slots { IsFirst self.now.shape number slots }
        requires found { found.items ≡ replicate self.now.shape.seats 0 }
        requires at { (table_at seat.old ≡ table_of self.now.table) × (number < self.now.shape.seats) }
        requires idle { operations_of seat.old ≡ [] }
        requires view { me_of seat.old ≡ (view_from self.now.shape P.first number (self.now.shape.seats - number), []) }
        ensures at { table_at seat.new ≡ table_at seat.old }
        ensures idle { operations_of seat.new ≡ [] }
        ensures view { me_of seat.new
            ≡ (view_from self.now.shape P.first (number + 1) (self.now.shape.seats - (number + 1)), []) }
        ensures opened { IsOpenedSeat self.now P.first number result }
    {
        let inner = self.table.split::<Parts>(seat);
        self.open_seat(inner, number, slots, found)
    }

    /// A seat for each number. Each further one is split off.
    fn deal(&self, alloc: Global, mut seat: TableSeat<P::Note>) -> Result<Vec<Seat<P>>, NoMemory>
        requires at { table_at seat ≡ table_of self.now.table }
        requires view { me_of seat ≡ (first_view self.now.shape P.first, []) }
        requires idle { operations_of seat ≡ [] }
        ensures { IfOk result (λ seats. AreOpened self.now P.first self.now.shape.seats seats.items) }
    {
        let last = self.shape.seats - 1;
        let mut seats = Vec::new(alloc);
        for number in 0..last {
            let slots = self.first_slots(alloc, number)?;
            let found = self.none_found(alloc)?;
            let next = self.split_one(&mut seat, number, slots, found);
            put(&mut seats, next)?;
        }
        let slots = self.first_slots(alloc, last)?;
        let found = self.none_found(alloc)?;
        let next = self.open_seat(seat, last, slots, found);
        put(&mut seats, next)?;
        Ok(seats)
    }

    /// The words of a core whose roots have these contents, one after another, and a seat for each
    /// number. Each content has `width` words. With the first note at each seat the protocol has to keep.
    ///
    /// # Errors
    ///
    /// `NoMemory` where no memory was left.
    pub fn open(
        alloc: Global,
        shape: Shape,
        fixed: P::Fixed,
        contents: &[u64],
    ) -> Result<(Words<P>, Vec<Seat<P>>), NoMemory>
        requires limits { IsWithinLimits shape }
        requires long { length contents.now ≡ shape.roots * shape.width }
        requires keeps { P.keeps fixed (rows_of shape contents.now) (replicate shape.seats P.first) }
        requires whole { All P.whole (rows_of shape contents.now) }
        requires backed { All (P.backed fixed (replicate shape.seats P.first)) (rows_of shape contents.now) }
        ensures words { IfOk result (λ r. (shape_of r.0 ≡ shape) × (fixed_of r.0 ≡ fixed)) }
        ensures seats { IfOk result (λ r. AreOpened r.0 P.first shape.seats r.1.items) }
        ensures each { IfOk result
            (λ r. All (λ seat. IsAt r.0 seat × (count_of seat ≡ 1) × ((empty : P.Note) → IsUnited empty seat))
            r.1.items) }
    {
        other_words_are_sound();
        let words = first_words(alloc, shape, contents)?;
        let told = Told { shape, fixed };
        let (table, seat) = Table::open(alloc, words.as_slice(), &told)?;
        let contents = slots_from(shape);
        let words = Words {
            table,
            shape,
            contents,
        };
        let seats = words.deal(alloc, seat)?;
        Ok((words, seats))
    }
}
