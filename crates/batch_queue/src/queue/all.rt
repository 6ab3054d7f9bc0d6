//! How the passes of several seats become one.
ghost use Rattle.std.specs.Prelude.{All};
ghost use Rattle.batch_queue.specs.Passes.{IsPassOf};
ghost use Rattle.batch_queue.specs.Uniting.{IsForAll, IsOther};

use crate::queue::{BatchQueue, QueuePass};

impl BatchQueue {
    /// One pass for this one and for those of other seats, which put nothing.
    pub fn unite_all(&self, first: QueuePass, others: Vec<QueuePass>) -> QueuePass
        requires own { IsPassOf self.now first }
        requires others { All (IsOther self.now) others.items }
        ensures own { IsPassOf self.now result }
        ensures all { IsForAll others.items first result }
    {
        let mut all = first;
        let mut others = others;
        while let Some(seat) = others.pop() {
            all = self.unite(all, seat);
        }
        all
    }
}
