//! How batches are put and taken, and passes made and united.

ghost use Rattle.std.specs.Prelude.{◌≡◌, ◌+◌, ◌<◌, ◌≤◌, None, [], ◌∷◌, ◌++◌, List, length, All, IfOk, IfErr, IfSome};
ghost use Rattle.std.specs.Prelude.{◌↔◌, OnOk, IsPermutation, IsTrue};
ghost use Rattle.batch_queue.specs.Batches.{IsBefore};
ghost use Rattle.batch_queue.specs.Passes.{room_of, IsPassOf, IsReaders, IsFresh, StandsForAll, put_of, took_of};
ghost use Rattle.batch_queue.specs.Passes.{seats_of, others_of, reader_of, IsOpen, IsSame, IsMore, IsFull};
ghost use Rattle.batch_queue.specs.Passes.{MayPut, WasTold, IsToldNothing};
ghost use Rattle.batch_queue.specs.declared.batch.Batch.{Batch};

use crate::batch::Batch;
use crate::ending::{Hears, Says};
use crate::queue::{BatchQueue, Feed, QueuePass};
use crate::rule::{Puts, Seats, Takes};
use atomic_table::Table;
use crossbeam_queue::RuledArrayQueue;
use no_memory::NoMemory;
use std::alloc::Global;
use std::sync::Wait;

/// The word that no more batches come.
const END_WORD: usize = 0;

impl BatchQueue {
    /// An empty queue that has room for `room` batches (1 to 64), the reader's pass, and a pass for each of `others`
    /// other seats (1 to 63).
    pub fn open(
        alloc: Global,
        room: usize,
        others: usize,
    ) -> Result<(BatchQueue, Feed, Vec<QueuePass>), NoMemory>
        requires room { (1 ≤ room) × (room ≤ 64) }
        requires others { (1 ≤ others) × (others ≤ 63) }
        ensures room { IfOk result (λ r. room_of r.0 ≡ room) }
        ensures reader { IfOk result (λ r. IsPassOf r.0 (reader_of r.1) × IsFresh (reader_of r.1)
            × IsReaders (reader_of r.1)
            × (others_of (reader_of r.1) ≡ others) × IsOpen r.1) }
        ensures many { IfOk result (λ r. length r.2.items ≡ others) }
        ensures passes { IfOk result (λ r. All (λ p. IsPassOf r.0 p × IsFresh p × (¬ IsReaders p) × (others_of p ≡ 0))
            r.2.items) }
        ensures quiet { IfOk result (λ r. (¬ WasTold (reader_of r.1))
            × All (λ p. (¬ WasTold p) × (¬ MayPut p)) r.2.items) }
    {
        let (line, pass) = RuledArrayQueue::ruled(alloc, room)?;
        let (ended, seat) = Table::of_words(alloc, &[0], &())?;
        let queue = BatchQueue { line, ended };
        let reader = QueuePass { pass, seat };
        let (feed, passes) = queue.deal(alloc, reader, others)?;
        Ok((queue, feed, passes))
    }

    /// The feed of the reader, from its pass, and a pass for each of so many other seats.
    fn deal(
        &self,
        alloc: Global,
        reader: QueuePass,
        others: usize,
    ) -> Result<(Feed, Vec<QueuePass>), NoMemory>
        requires reader { IsPassOf self.now reader × IsReaders reader × IsFresh reader × (others_of reader ≡ 0) }
        requires open { MayPut reader × (¬ WasTold reader) }
        ensures reader { IfOk result (λ r. IsPassOf self.now (reader_of r.0) × IsFresh (reader_of r.0)
            × IsReaders (reader_of r.0) × (others_of (reader_of r.0) ≡ others)) }
        ensures open { IfOk result (λ r. IsOpen r.0 × (¬ WasTold (reader_of r.0))) }
        ensures many { IfOk result (λ r. length r.1.items ≡ others) }
        ensures passes { IfOk result (λ r.
            All (λ p. IsPassOf self.now p × IsFresh p × (¬ IsReaders p) × (others_of p ≡ 0)) r.1.items) }
        ensures quiet { IfOk result (λ r. All (λ p. (¬ WasTold p) × (¬ MayPut p)) r.1.items) }
    {
        let mut reader = reader;
        let mut passes = Vec::new(alloc);
        for _turn in 0..others {
            let other = self.another_pass(&mut reader);
            passes.push(other)?;
        }
        Ok((Feed { pass: reader }, passes))
    }

    /// A pass of one more seat, which puts nothing.
    fn another_pass(&self, reader: &mut QueuePass) -> QueuePass
        requires own { IsPassOf self.now reader.old }
        requires reader { IsReaders reader.old }
        ensures own { IsPassOf self.now reader.new × IsPassOf self.now result }
        ensures other { IsFresh result × (¬ IsReaders result) × (others_of result ≡ 0) }
        ensures reader { IsReaders reader.new × (others_of reader.new ≡ others_of reader.old + 1) }
        ensures same { (seats_of reader.new ≡ seats_of reader.old) × (put_of reader.new ≡ put_of reader.old)
            × (took_of reader.new ≡ took_of reader.old) }
        ensures quiet { (¬ WasTold result) × (¬ MayPut result) × IsToldNothing reader.old reader.new }
    {
        let pass = self.line.another::<Seats>(&mut reader.pass);
        let seat = self.ended.shared.split_seat::<Seats>(&mut reader.seat);
        QueuePass { pass, seat }
    }

    /// Puts a batch behind all others. The pass is the reader's, and the batch stands behind each that it put.
    ///
    /// `Err` gives the batch back unchanged, and comes only where the reader had put at least as many batches as the
    /// queue has room for; no clause says that the queue was full at a step of this call.
    pub fn offer<R: Wait>(&self, rt: &R, feed: &mut Feed, batch: Batch) -> Result<(), Batch>
        requires own { IsPassOf self.now (reader_of feed.old) }
        requires reader { IsReaders (reader_of feed.old) }
        requires open { IsOpen feed.old }
        requires behind { All (λ b. IsBefore b batch) (put_of (reader_of feed.old)) }
        ensures own { IsPassOf self.now (reader_of feed.new) }
        ensures open { IsOpen feed.new }
        ensures put { OnOk result (IsMore (batch ∷ []) [] (reader_of feed.old) (reader_of feed.new)) }
        ensures full { IfErr result (λ back. (back ≡ batch) × IsSame (reader_of feed.old) (reader_of feed.new)
            × IsFull self.now (reader_of feed.old)) }
    {
        self.line.push_as::<Puts, R>(rt, &mut feed.pass.pass, batch)
    }

    /// Says that no more batches come. The feed can put none from now on.
    pub fn end(&self, feed: &mut Feed)
        requires own { IsPassOf self.now (reader_of feed.old) }
        requires open { IsOpen feed.old }
        ensures own { IsPassOf self.now (reader_of feed.new) }
        ensures closed { (¬ IsOpen feed.new) × WasTold (reader_of feed.new) }
        ensures same { IsSame (reader_of feed.old) (reader_of feed.new) }
    {
        self.ended
            .shared
            .store::<Says>(&mut feed.pass.seat, END_WORD, 1);
    }

    /// Whether it was said that no more batches come. A pass that was told so may put none, and is told so again at
    /// each later call.
    ///
    /// What is taken from then on was put before; no clause says that a pass that looks for a batch then finds it.
    pub fn is_ended(&self, pass: &mut QueuePass) -> bool
        requires own { IsPassOf self.now pass.old }
        ensures own { IsPassOf self.now pass.new }
        ensures same { IsSame pass.old pass.new × (MayPut pass.new ↔ MayPut pass.old) }
        ensures told { IsTrue result ↔ WasTold pass.new }
        ensures ended { WasTold pass.new → ¬ MayPut pass.new }
        ensures again { WasTold pass.old → WasTold pass.new }
    {
        self.ended.shared.load::<Hears>(&mut pass.seat, END_WORD) == 1
    }

    /// Takes the batch at the front, which stands behind each that the pass took.
    ///
    /// `None`: nothing was taken. Of a pass for all seats it says that all batches that were put were taken, each once.
    /// Of another pass it says no more; no clause says that the queue was empty at a step of this call.
    pub fn take<R: Wait>(&self, rt: &R, pass: &mut QueuePass) -> Option<Batch>
        requires own { IsPassOf self.now pass.old }
        ensures own { IsPassOf self.now pass.new }
        ensures took { IfSome result (λ b. IsMore [] (b ∷ []) pass.old pass.new
            × All (λ a. IsBefore a b) (took_of pass.old)) }
        ensures none { result ≡ None → IsSame pass.old pass.new
            × (StandsForAll pass.new → IsPermutation (put_of pass.new) (took_of pass.new)) }
        ensures quiet { IsToldNothing pass.old pass.new }
    {
        self.line.pop_as::<Takes, R>(rt, &mut pass.pass)
    }

    /// One pass for the seats of both. If it stands for all seats, the batches that it took and those that were in the
    /// queue at a step of this call are the batches that were put, each once. If one of the two was told that no more
    /// batches come, neither may put one: so what it was told was true.
    pub fn unite(&self, first: QueuePass, second: QueuePass) -> QueuePass
        requires own { IsPassOf self.now first × IsPassOf self.now second }
        ensures own { IsPassOf self.now result }
        ensures reader { (IsReaders first → IsReaders result) × (IsReaders second → IsReaders result) }
        ensures seats { (seats_of result ≡ seats_of first + seats_of second)
            × (others_of result ≡ others_of first + others_of second) }
        ensures batches { (put_of result ≡ put_of first ++ put_of second)
            × (took_of result ≡ took_of first ++ took_of second) }
        ensures all { StandsForAll result → (left : List Batch)
            × IsPermutation (put_of result) (took_of result ++ left) }
        ensures right { (MayPut first → MayPut result) × (MayPut second → MayPut result) }
        ensures told { (WasTold first → WasTold result) × (WasTold second → WasTold result) }
        ensures ended { WasTold result → ¬ MayPut result }
    {
        let QueuePass { mut pass, mut seat } = first;
        self.line.absorb::<Seats>(&mut pass, second.pass);
        self.line.learn_as::<Takes>(&mut pass);
        self.ended.shared.join_seat::<Seats>(&mut seat, second.seat);
        self.ended.shared.load::<Hears>(&mut seat, END_WORD);
        QueuePass { pass, seat }
    }
}

impl Feed {
    /// The reader's pass, which puts no more.
    pub fn into_pass(self) -> QueuePass
        ensures { result ≡ reader_of self }
    {
        self.pass
    }
}
