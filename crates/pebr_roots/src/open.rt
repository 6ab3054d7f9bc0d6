//! Opening: the roots, and a pass for each number.

ghost use Rattle.std.specs.Prelude.{◌≡◌, ◌*◌, ◌<◌, ℕ, ◌∷◌, [], ◌++◌, length, replicate, IfOk, OnOk, All};
ghost use Rattle.std.specs.Prelude.{slice_index_or};
ghost use Rattle.pebr_core.specs.Kept.{IsWithinLimits};
ghost use Rattle.pebr_words.specs.Opening.{rows_of};
ghost use Rattle.pebr_words.specs.Seats.{IsOpenedSeat, AreOpened, shape_of};
ghost use Rattle.pebr_roots.specs.Passes.{shape_at, fixed_at, IsOpenedPass, AreOpenedPasses};

use crate::pass::{RootPass, Roots};
use pebr_core::start_is_sound;
use pebr_shields::{NoMemory, RootProtocol, Seat, Shape, Words};
use std::alloc::Global;

/// Appends a value.
fn put<T: Drop>(list: &mut Vec<T>, value: T) -> Result<(), NoMemory>
    ensures { OnOk result (list.new.items ≡ list.old.items ++ value ∷ []) }
{
    list.push(value)?;
    Ok(())
}

impl<P: RootProtocol> Roots<P> {
    /// The pass of a seat that was opened.
    fn pass(&self, seat: Seat<P>, number: usize) -> RootPass<P>
        requires opened { IsOpenedSeat self.now.words P.first number seat }
        requires inside { number < (shape_at self.now).seats }
        ensures { IsOpenedPass self.now P.first number result }
    {
        start_is_sound();
        let start = self.words.slot_start(0);
        RootPass {
            seat,
            under: [0; 8],
            starts: [start; 8],
        }
    }

    /// A pass for each seat. The last seat is taken first, so the order of the passes is reversed at the end.
    fn deal(&self, alloc: Global, mut seats: Vec<Seat<P>>) -> Result<Vec<RootPass<P>>, NoMemory>
        requires { AreOpened self.now.words P.first (shape_at self.now).seats seats.items }
        ensures { IfOk result (λ passes. AreOpenedPasses self.now P.first passes.items) }
    {
        let mut passes = Vec::new(alloc);
        for _turn in 0..seats.len() {
            let Some(seat) = seats.pop() else {
                unreachable!()
            };
            let pass = self.pass(seat, seats.len());
            put(&mut passes, pass)?;
        }
        passes.reverse();
        Ok(passes)
    }

    /// Roots with these contents, one after another, and a pass for each number. With the first
    /// note at each pass the protocol has to keep.
    ///
    /// # Errors
    ///
    /// `NoMemory` where no memory was left.
    pub fn open(
        alloc: Global,
        shape: Shape,
        fixed: P::Fixed,
        contents: &[u64],
    ) -> Result<(Roots<P>, Vec<RootPass<P>>), NoMemory>
        requires limits { IsWithinLimits shape }
        requires long { length contents.now ≡ shape.roots * shape.width }
        requires keeps { P.keeps fixed (rows_of shape contents.now) (replicate shape.seats P.first) }
        requires whole { All P.whole (rows_of shape contents.now) }
        requires backed { All (P.backed fixed (replicate shape.seats P.first)) (rows_of shape contents.now) }
        ensures roots { IfOk result (λ r. (shape_at r.0 ≡ shape) × (fixed_at r.0 ≡ fixed)) }
        ensures passes { IfOk result (λ r. AreOpenedPasses r.0 P.first r.1.items) }
    {
        let (words, seats) = Words::open(alloc, shape, fixed, contents)?;
        let roots = Roots { words };
        let passes = roots.deal(alloc, seats)?;
        Ok((roots, passes))
    }
}
