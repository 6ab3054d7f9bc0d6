//! How pieces are drawn, and passes made and united.
ghost use Rattle.std.specs.Prelude.{◌≡◌, ◌+◌, ◌-◌, ◌*◌, ◌/◌, ◌^◌, ◌<◌, ◌≤◌, ◌↔◌, min, List, [], ◌∷◌, ◌++◌, ℕ, length};
ghost use Rattle.std.specs.Prelude.{All, IfOk, IfSome, IfNone, MatchOption, IsTrue, true, false, None};
ghost use Rattle.work_pieces.specs.Passes.{IsPassOf, IsFresh, count_of, size_of, number_of, seats_in, drawn_of};
ghost use Rattle.work_pieces.specs.Passes.{seats_of, nones_of};
ghost use Rattle.work_pieces.specs.Dealing.{EachOnce, hand, times, draws_one, draws_none};

use crate::piece::Piece;
use crate::pieces::{DrawPass, Pieces};
use crate::rule::{Cut, Draws, Tells};
use crate::views::Plan;
use atomic_table::Table;
use no_memory::NoMemory;
use std::alloc::Global;

/// The word that is drawn from, and how many words the table has: so many that no other data shares its cache line.
const DRAW_WORD: usize = 7;

const WORD_COUNT: usize = 15;

impl Pieces {
    /// One draw of a number.
    fn step(&self, pass: &mut DrawPass) -> u64
        requires own { IsPassOf self.now pass.old }
        requires single { (pass.old.seat.me.0.seats ≡ 1) × (pass.old.done ≡ false) }
        ensures own { IsPassOf self.now pass.new }
        ensures some { result < self.now.pieces → (pass.new.seat.me.0 ≡ draws_one pass.old.seat.me.0 result)
            × (pass.new.done ≡ false) }
        ensures none { self.now.pieces ≤ result → (pass.new.seat.me.0 ≡ draws_none pass.old.seat.me.0)
            × (pass.new.done ≡ true) }
        ensures rises { (x : ℕ) → 0 < times x pass.old.seat.me.0.drawn → x < result }
    {
        let found = self
            .table
            .shared
            .fetch_add::<Draws>(&mut pass.seat, DRAW_WORD, 1);
        pass.done = found >= self.pieces;
        found
    }
}

impl Pieces {
    /// The next piece of a pass of one seat, by one fetch-and-add. `None` exactly where the number that was drawn lies
    /// beyond the last piece, or where the pass had its `None` before: then it takes no step. The numbers of a pass
    /// rise.
    pub fn draw(&self, pass: &mut DrawPass) -> Option<Piece>
        requires own { IsPassOf self.now pass.old }
        requires single { seats_of pass.old ≡ 1 }
        ensures own { IsPassOf self.now pass.new × (seats_of pass.new ≡ 1) }
        ensures some { IfSome result (λ p. (p.start ≡ p.number * size_of self.now)
            × (p.end ≡ min ((p.number + 1) * size_of self.now) (count_of self.now))
            × (drawn_of pass.new ≡ drawn_of pass.old ++ p.number ∷ []) × (nones_of pass.new ≡ nones_of pass.old)) }
        ensures within { IfSome result (λ p. (p.number < number_of self.now) × (p.start < p.end)
            × (p.end ≤ count_of self.now)) }
        ensures rises { IfSome result (λ p. (x : ℕ) → 0 < times x (drawn_of pass.old) → x < p.number) }
        ensures none { IfNone result ((0 < nones_of pass.new) × (drawn_of pass.new ≡ drawn_of pass.old)) }
        ensures again { 0 < nones_of pass.old → result ≡ None }
    {
        if pass.done {
            return None;
        }
        let number = self.step(pass);
        if number >= self.pieces {
            return None;
        }
        let start = number * self.size;
        let end = (start + self.size).min(self.count);
        Some(Piece { number, start, end })
    }

    /// One pass with the seats and the pieces of both, those of the first before those of the second. Where it stands
    /// for all seats, of which one had its `None`, it has all pieces, each once.
    pub fn unite(&self, first: DrawPass, second: DrawPass) -> DrawPass
        requires own { IsPassOf self.now first × IsPassOf self.now second }
        requires some { 0 < seats_of first }
        ensures own { IsPassOf self.now result }
        ensures both { (seats_of result ≡ seats_of first + seats_of second)
            × (nones_of result ≡ nones_of first + nones_of second)
            × (drawn_of result ≡ drawn_of first ++ drawn_of second) }
        ensures all { seats_of result ≡ seats_in self.now → 0 < nones_of result
            → EachOnce (number_of self.now) (drawn_of result) }
    {
        let DrawPass { mut seat, done } = first;
        let DrawPass {
            seat: other,
            done: other_done,
        } = second;
        self.table.shared.join_seat::<Cut>(&mut seat, other);
        self.table.shared.load::<Tells>(&mut seat, DRAW_WORD);
        DrawPass {
            seat,
            done: done || other_done,
        }
    }

    /// The same pass, which need not have been united: where it stands for all seats, as with one seat alone, it has
    /// all pieces once one of them had its `None`.
    pub fn complete(&self, pass: DrawPass) -> DrawPass
        requires own { IsPassOf self.now pass }
        ensures own { IsPassOf self.now result }
        ensures same { (seats_of result ≡ seats_of pass) × (nones_of result ≡ nones_of pass)
            × (drawn_of result ≡ drawn_of pass) }
        ensures all { seats_of result ≡ seats_in self.now → 0 < nones_of result
            → EachOnce (number_of self.now) (drawn_of result) }
    {
        let DrawPass { mut seat, done } = pass;
        self.table.shared.load::<Tells>(&mut seat, DRAW_WORD);
        DrawPass { seat, done }
    }

    /// Cuts `count` things (fewer than 2^32) into pieces of `size` things (1 to 65,536), the last one perhaps smaller,
    /// and makes a pass for each of `seats` seats (1 to 64).
    ///
    /// `NoMemory`: out of memory. No other call takes memory.
    pub fn open(
        alloc: Global,
        count: u64,
        size: u64,
        seats: usize,
    ) -> Result<(Pieces, Vec<DrawPass>), NoMemory>
        requires { (count < 2 ^ 32) × (0 < size) × (size ≤ 65536) × (0 < seats) × (seats ≤ 64) }
        ensures pieces { IfOk result (λ r. (count_of r.0 ≡ count) × (size_of r.0 ≡ size) × (seats_in r.0 ≡ seats)
            × (number_of r.0 ≡ (count + size - 1) / size)) }
        ensures passes { IfOk result (λ r. (length r.1.items ≡ seats)
            × All (λ d. IsPassOf r.0 d × IsFresh d) r.1.items) }
    {
        let pieces = (count + size - 1) / size;
        let plan = Plan {
            pieces,
            all: seats as u64,
        };
        let Ok((table, seat)) = Table::of_words(alloc, &[0; WORD_COUNT], &plan) else {
            return Err(NoMemory);
        };
        let pieces = Pieces {
            table,
            count,
            size,
            pieces,
        };
        let passes = pieces.deal(alloc, DrawPass { seat, done: false }, seats)?;
        Ok((pieces, passes))
    }

    /// The passes of all seats, split off the first.
    fn deal(&self, alloc: Global, first: DrawPass, seats: usize) -> Result<Vec<DrawPass>, NoMemory>
        requires own { IsPassOf self.now first }
        requires all { (0 < seats) × (first.done ≡ false) × (first.seat.me.0 ≡ hand seats self.now.pieces seats 0 []) }
        ensures passes { IfOk result (λ v. (length v.items ≡ seats)
            × All (λ d. IsPassOf self.now d × (d.done ≡ false) × (d.seat.me.0 ≡ hand seats self.now.pieces 1 0 []))
            v.items) }
    {
        let DrawPass { mut seat, done: _ } = first;
        let mut passes = Vec::new(alloc);
        for _i in 1..seats {
            let other = self.table.shared.split_seat::<Cut>(&mut seat);
            let pass = DrawPass {
                seat: other,
                done: false,
            };
            passes.push(pass)?;
        }
        passes.push(DrawPass { seat, done: false })?;
        Ok(passes)
    }
}
