//! The beginning of a cache.

ghost use Rattle.std.specs.Prelude.{◌≡◌, ◌*◌, ◌≤◌, ◌++◌, ◌∷◌, [], length, replicate, All, IfOk, OnOk};
ghost use Rattle.cache_face.specs.Meaning.{IsFresh};
ghost use Rattle.cache_face.specs.Notes.{first_note};
ghost use Rattle.pebr_roots.specs.Passes.{shape_at, IsOpenedPass, AreOpenedPasses};
ghost use Rattle.flow_cache.specs.Shown.{means_of, shown_of, tries_of, IsOf};

use crate::cache::{PebrCache, PebrPass};
use crate::protocol::{CacheFixed, CacheRule};
use cache_face::NoMemory;
use flow_parts::Timeouts;
use pass_book::PassBook;
use pebr_roots::{RootPass, Roots, Shape};
use std::alloc::Global;

/// `count` words that are 0.
fn zeros(alloc: Global, count: usize) -> Result<Vec<u64>, NoMemory>
    ensures { IfOk result (λ words. words.items ≡ replicate count 0) }
{
    Ok(vec![in alloc; 0u64; count]?)
}

/// Appends a pass.
fn add(passes: &mut Vec<PebrPass>, pass: PebrPass) -> Result<(), NoMemory>
    ensures { OnOk result (passes.new.items ≡ passes.old.items ++ pass ∷ []) }
{
    Ok(passes.push(pass)?)
}

impl PebrCache {
    /// The pass of a seat that has done nothing.
    fn pass(&self, inner: RootPass<CacheRule>, number: usize) -> PebrPass
        requires { IsOpenedPass self.now.roots first_note number inner }
        ensures pass { IsOf self.now result × IsFresh (shown_of result) }
        ensures unlost { tries_of result ≡ [] }
    {
        PebrPass {
            inner,
            lost: 0,
            contents: [[0; 10]; 4],
            book: PassBook::new(),
        }
    }

    /// A pass for each seat.
    fn deal(
        &self,
        alloc: Global,
        mut inner: Vec<RootPass<CacheRule>>,
    ) -> Result<Vec<PebrPass>, NoMemory>
        requires { AreOpenedPasses self.now.roots first_note inner.items }
        ensures passes { IfOk result (λ passes. (length passes.items ≡ (shape_at self.now.roots).seats)
            × All (λ pass. IsOf self.now pass × IsFresh (shown_of pass)) passes.items) }
        ensures unlost { IfOk result (λ passes. All (λ pass. tries_of pass ≡ []) passes.items) }
    {
        let mut passes = Vec::new(alloc);
        for _turn in 0..inner.len() {
            let Some(last) = inner.pop() else {
                unreachable!()
            };
            let pass = self.pass(last, inner.len());
            add(&mut passes, pass)?;
        }
        Ok(passes)
    }

    /// A cache of so many sets, 1 to 65,536, and a pass for each of 1 to 64 seats.
    ///
    /// # Errors
    ///
    /// `NoMemory` where no memory was left.
    pub fn open(
        alloc: Global,
        sets: u64,
        seats: usize,
        timeouts: Timeouts,
    ) -> Result<(PebrCache, Vec<PebrPass>), NoMemory>
        requires sets { (1 ≤ sets) × (sets ≤ 65536) }
        requires seats { (1 ≤ seats) × (seats ≤ 64) }
        ensures cache { IfOk result (λ r. ((means_of r.0).sets ≡ sets) × ((means_of r.0).seats ≡ seats)
            × ((means_of r.0).limits ≡ timeouts)) }
        ensures passes { IfOk result (λ r. (length r.1.items ≡ seats)
            × All (λ pass. IsOf r.0 pass × IsFresh (shown_of pass)) r.1.items) }
        ensures unlost { IfOk result (λ r. All (λ pass. tries_of pass ≡ []) r.1.items) }
    {
        let words = zeros(alloc, 40 * sets as usize)?;
        let shape = Shape {
            roots: 4 * sets as usize,
            seats,
            shields: 4,
            batch: 32,
            width: 10,
        };
        let (roots, inner) = Roots::open(
            alloc,
            shape,
            CacheFixed { sets, timeouts },
            words.as_slice(),
        )?;
        let cache = PebrCache {
            roots,
            sets,
            timeouts,
        };
        let passes = cache.deal(alloc, inner)?;
        Ok((cache, passes))
    }
}
