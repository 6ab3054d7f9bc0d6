//! The cache as a shared cache, and what opens and closes such caches.

ghost use Rattle.std.specs.Prelude.{◌≡◌, []};
ghost use Rattle.cache_face.specs.declared.opened.Opened.TheVariants.{Nothing};
ghost use Rattle.turn_cache.specs.Shown.{means_of, shown_of, lost_of, IsOf, IsTryOf, LostTry};

use crate::cache::{TurnCache, TurnPass};
use cache_face::{Caches, FlowCache, LastClosed, Metered, NoMemory, Opened};
use flow_parts::{Fragment, PartList, Timeouts};
use std::alloc::Global;

impl FlowCache for TurnCache {
    type Pass = TurnPass;

    ghost means = { means_of };

    ghost shown = { shown_of };

    ghost is_of = { IsOf };

    ghost lost_try = { LostTry };

    ghost is_try_of = { IsTryOf };

    ghost lost = { lost_of };

    fn meter_part(&self, pass: &mut TurnPass, part: &Fragment) -> Metered {
        self.meter_fragment(pass, part)
    }

    fn bypass(&self, pass: &mut TurnPass, fragment: &Fragment) {
        self.let_by(pass, fragment);
    }

    fn unite(&self, first: TurnPass, second: TurnPass) -> TurnPass {
        self.join(first, second)
    }

    fn close(self, alloc: Global, pass: TurnPass) -> Result<Vec<Fragment>, NoMemory> {
        self.entries(alloc, pass)
    }
}

/// Opens and closes caches with one turn for each set.
#[derive(Drop)]
pub struct TurnCaches {
    opened: Opened,
    closed: LastClosed,
}

impl TurnCaches {
    /// No cache was opened or closed yet.
    pub fn new() -> TurnCaches
        ensures metered { ⟦<TurnCaches as Caches>⟧.metered result ≡ [] }
        ensures opened { ⟦<TurnCaches as Caches>⟧.opened result ≡ Nothing }
    {
        TurnCaches {
            opened: Opened::Nothing,
            closed: LastClosed::new(),
        }
    }
}

impl Caches for TurnCaches {
    type Cache = TurnCache;

    ghost metered = { λ s. s.closed };

    ghost opened = { λ s. s.opened };

    fn open(
        &mut self,
        alloc: Global,
        sets: u64,
        seats: usize,
        timeouts: Timeouts,
    ) -> Result<(TurnCache, Vec<TurnPass>), NoMemory> {
        let cache = TurnCache::open(alloc, sets, seats, timeouts)?;
        self.opened = self.opened.with(sets, seats);
        Ok(cache)
    }

    fn close(
        &mut self,
        alloc: Global,
        cache: TurnCache,
        pass: TurnPass,
        handed: PartList,
    ) -> Result<PartList, NoMemory> {
        let entries = cache.entries(alloc, pass)?;
        self.closed.closed_with(handed, entries)
    }
}
