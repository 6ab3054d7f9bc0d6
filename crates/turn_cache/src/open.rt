//! The beginning of a cache, and two passes made one.

ghost use Rattle.std.specs.Prelude.{◌≡◌, ◌+◌, ◌-◌, ◌*◌, ◌<◌, ◌≤◌, length, [], ◌∷◌, List, IfOk, OnOk, All, replicate};
ghost use Rattle.std.specs.Prelude.{◌++◌};
ghost use Rattle.std.specs.List.{range_with_len};
ghost use Rattle.cache_face.specs.Meaning.{IsFresh, IsUnited};
ghost use Rattle.cache_face.specs.Notes.{unused_note, first_note};
ghost use Rattle.turn_cache.specs.Hands.{new_hand};
ghost use Rattle.turn_cache.specs.Shown.{means_of, shown_of, lost_of, IsOf};

use crate::cache::{TurnCache, TurnPass};
use crate::rule::{Known, Parts, Told};
use atomic_table::{Seat, Table};
use cache_face::NoMemory;
use flow_parts::Timeouts;
use pass_book::PassBook;
use std::alloc::Global;

/// `count` words that are 0.
fn zeros(alloc: Global, count: usize) -> Result<Vec<u64>, NoMemory>
    ensures { IfOk result (λ words. words.items ≡ replicate count 0) }
{
    Ok(vec![in alloc; 0u64; count]?)
}

/// Appends a pass.
fn add(passes: &mut Vec<TurnPass>, pass: TurnPass) -> Result<(), NoMemory>
    ensures { OnOk result (passes.new.items ≡ passes.old.items ++ pass ∷ []) }
{
    Ok(passes.push(pass)?)
}

impl TurnCache {
    /// Splits the next seat off.
    fn split(&self, seat: &mut Seat<(), Known>, number: u64, left: u64) -> TurnPass
        requires at { seat.old.table_id ≡ self.now.table.shared.table_id }
        requires number { number < 64 }
        requires me { seat.old.me ≡ (new_hand (range_with_len number (left + 1)) (unused_note (left + 1)), []) }
        ensures at { seat.new.table_id ≡ seat.old.table_id }
        ensures me { seat.new.me ≡ (new_hand (range_with_len (number + 1) left) (unused_note left), []) }
        ensures pass { IsOf self.now result × IsFresh (shown_of result) }
        ensures unlost { lost_of result ≡ [] }
    {
        let seat = self.table.shared.split_seat::<Parts>(seat);
        TurnPass {
            seat,
            number,
            contents: [[0; 10]; 4],
            book: PassBook::new(),
        }
    }

    /// A pass for each seat.
    fn deal(&self, alloc: Global, mut seat: Seat<(), Known>) -> Result<Vec<TurnPass>, NoMemory>
        requires at { seat.table_id ≡ self.now.table.shared.table_id }
        requires me { seat.me ≡ (new_hand (range_with_len 0 self.now.seats) (unused_note self.now.seats), []) }
        ensures passes { IfOk result (λ passes. (length passes.items ≡ self.now.seats)
            × All (λ pass. IsOf self.now pass × IsFresh (shown_of pass)) passes.items) }
        ensures unlost { IfOk result (λ passes. All (λ pass. lost_of pass ≡ []) passes.items) }
    {
        let mut passes = Vec::new(alloc);
        for number in 0..self.seats {
            let pass = self.split(&mut seat, number, self.seats - number - 1);
            add(&mut passes, pass)?;
        }
        Ok(passes)
    }

    /// A cache of so many sets, 1 to 65,536, and a pass for each of 1 to 64 seats.
    ///
    /// # Errors
    ///
    /// `NoMemory` where no memory was left.
    pub fn open(
        alloc: Global,
        sets: u64,
        seats: usize,
        timeouts: Timeouts,
    ) -> Result<(TurnCache, Vec<TurnPass>), NoMemory>
        requires sets { (1 ≤ sets) × (sets ≤ 65536) }
        requires seats { (1 ≤ seats) × (seats ≤ 64) }
        ensures cache { IfOk result (λ r. ((means_of r.0).sets ≡ sets) × ((means_of r.0).seats ≡ seats)
            × ((means_of r.0).limits ≡ timeouts)) }
        ensures passes { IfOk result (λ r. (length r.1.items ≡ seats)
            × All (λ pass. IsOf r.0 pass × IsFresh (shown_of pass)) r.1.items) }
        ensures unlost { IfOk result (λ r. All (λ pass. lost_of pass ≡ []) r.1.items) }
    {
        let words = zeros(alloc, 64 * sets as usize)?;
        let seats = seats as u64;
        let told = Told {
            sets,
            seats,
            timeouts,
        };
        let (table, seat) = Table::of_words(alloc, words.as_slice(), &told)?;
        let cache = TurnCache {
            table,
            sets,
            seats,
            timeouts,
        };
        let passes = cache.deal(alloc, seat)?;
        Ok((cache, passes))
    }

    /// One pass for both.
    pub(crate) fn join(&self, first: TurnPass, second: TurnPass) -> TurnPass
        requires first { IsOf self.now first }
        requires second { IsOf self.now second }
        ensures own { IsOf self.now result }
        ensures united { IsUnited (shown_of first) (shown_of second) (shown_of result) }
        ensures lost { lost_of result ≡ lost_of first ++ lost_of second }
    {
        let TurnPass {
            mut seat,
            number,
            contents,
            book,
        } = first;
        let TurnPass {
            seat: other,
            number: _,
            contents: _,
            book: beside,
        } = second;
        self.table.shared.join_seat::<Parts>(&mut seat, other);
        TurnPass {
            seat,
            number,
            contents,
            book: book.merge(beside),
        }
    }
}
