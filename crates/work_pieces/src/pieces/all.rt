//! What the passes of all seats have together.
ghost use Rattle.std.specs.Prelude.{◌≡◌, ◌<◌, length, flat_map, All};
ghost use Rattle.work_pieces.specs.Passes.{HasEnded, number_of, seats_in, drawn_of};
ghost use Rattle.work_pieces.specs.Dealing.{EachOnce};

use crate::pieces::{DrawPass, Pieces};

impl Pieces {
    /// The passes of all seats, each of which had its `None`, have all pieces together, each once.
    pub fn complete_all(&self, passes: Vec<DrawPass>)
        requires ended { All (HasEnded self.now) passes.items }
        requires all { (0 < length passes.items) × (length passes.items ≡ seats_in self.now) }
        ensures { EachOnce (number_of self.now) (flat_map drawn_of passes.items) }
    {
        let mut passes = passes;
        let Some(mut all) = passes.pop() else {
            unreachable!()
        };
        while let Some(pass) = passes.pop() {
            all = self.unite(all, pass);
        }
        let all = self.complete(all);
        drop(all);
    }
}
