//! The cache as a shared cache, and what opens and closes such caches.

ghost use Rattle.std.specs.Prelude.{◌≡◌, ◌≢◌, ◌+◌, ◌-◌, ◌*◌, ◌<◌, ◌≤◌, ◌^◌, [], Some};
ghost use Rattle.flow_key.specs.Key.{set_number};
ghost use Rattle.cache_face.specs.Keeping.{packet_count};
ghost use Rattle.cache_face.specs.Meaning.{IsAnswer};
ghost use Rattle.cache_face.specs.Notes.{note_with};
ghost use Rattle.cache_face.specs.Tries.{HasLost};
ghost use Rattle.cache_face.specs.declared.opened.Opened.TheVariants.{Nothing};
ghost use Rattle.flow_cache.specs.Closed.{metered_by, opened_by};
ghost use Rattle.flow_cache.specs.Collecting.{CollectsFrom};
ghost use Rattle.flow_cache.specs.Shown.{means_of, shown_of, tries_of, retired_of, ejections_of, slots_of, IsOf};
ghost use Rattle.flow_cache.specs.Shown.{past_of, IsTryOf, seat_of, shape_of_roots, number_of, operations_of};
ghost use Rattle.pebr_roots.specs.Orders.{HasMade};
ghost use Rattle.pebr_roots.specs.Passes.{known_by_pass};
ghost use Rattle.pebr_words.specs.Pasts.{Lost};

use crate::cache::{PebrCache, PebrPass};
use crate::stop::Never;
use cache_face::{Caches, FlowCache, LastClosed, Metered, NoMemory, Opened};
use flow_parts::{Fragment, PartList, Timeouts};
use std::alloc::Global;

impl FlowCache for PebrCache {
    type Pass = PebrPass;

    ghost means = { means_of };

    ghost shown = { shown_of };

    ghost is_of = { IsOf };

    ghost lost_try = { Lost };

    ghost is_try_of = { IsTryOf };

    ghost lost = { tries_of };

    fn meter_part(&self, pass: &mut PebrPass, part: &Fragment) -> Metered
        requires own { IsOf self.now pass.old }
        requires single { (shown_of pass.old).note.seats ≡ 1 }
        requires octets { part.now.octets < part.now.packets * 2 ^ 24 }
        requires room { packet_count (shown_of pass.old).note.taken + part.now.packets ≤ 2 ^ 32 }
        ensures own { IsOf self.now pass.new }
        ensures note { (shown_of pass.new).note ≡ note_with (shown_of pass.old).note part.now result.out }
        ensures answer { IsAnswer (means_of self.now) (shown_of pass.new) part.now result.how result.out }
        ensures lost { HasLost (IsTryOf (set_number part.now.key (means_of self.now).sets)) result.how
            (tries_of pass.old) (tries_of pass.new) }
        ensures retired { retired_of pass.new ≤ slots_of self.now }
        ensures ejections { retired_of pass.old ≢ slots_of self.now → ejections_of pass.new ≡ ejections_of pass.old }
        ensures collects { CollectsFrom (shape_of_roots self.now) (number_of pass.old)
            (known_by_pass (seat_of pass.old)) (past_of pass.old) (past_of pass.new) (operations_of pass.old)
            (operations_of pass.new) }
        ensures few { HasMade (12 * ((means_of self.now).seats - 1) + 209) (operations_of pass.old)
            (operations_of pass.new) }
    {
        self.meter_stopping(pass, part, &mut Never)
    }

    fn bypass(&self, pass: &mut PebrPass, fragment: &Fragment)
        requires own { IsOf self.now pass.old }
        requires single { (shown_of pass.old).note.seats ≡ 1 }
        requires alone { fragment.now.packets ≡ 1 }
        requires octets { fragment.now.octets < 2 ^ 24 }
        requires room { packet_count (shown_of pass.old).note.taken < 2 ^ 32 }
        ensures own { IsOf self.now pass.new }
        ensures note { (shown_of pass.new).note
            ≡ note_with (shown_of pass.old).note fragment.now (Some fragment.now) }
        ensures lost { tries_of pass.new ≡ tries_of pass.old }
        ensures seat { seat_of pass.new ≡ seat_of pass.old }
    {
        pass.book.put(fragment, &Some(*fragment));
    }

    fn unite(&self, first: PebrPass, second: PebrPass) -> PebrPass {
        self.join(first, second)
    }

    fn close(self, alloc: Global, pass: PebrPass) -> Result<Vec<Fragment>, NoMemory> {
        self.entries(alloc, pass)
    }
}

/// Opens and closes caches without turns.
#[derive(Drop)]
pub struct PebrCaches {
    opened: Opened,
    closed: LastClosed,
}

impl PebrCaches {
    /// No cache was opened or closed yet.
    pub fn new() -> PebrCaches
        ensures metered { ⟦<PebrCaches as Caches>⟧.metered result ≡ [] }
        ensures opened { ⟦<PebrCaches as Caches>⟧.opened result ≡ Nothing }
    {
        PebrCaches {
            opened: Opened::Nothing,
            closed: LastClosed::new(),
        }
    }
}

impl Caches for PebrCaches {
    type Cache = PebrCache;

    ghost metered = { metered_by };

    ghost opened = { opened_by };

    fn open(
        &mut self,
        alloc: Global,
        sets: u64,
        seats: usize,
        timeouts: Timeouts,
    ) -> Result<(PebrCache, Vec<PebrPass>), NoMemory> {
        let cache = PebrCache::open(alloc, sets, seats, timeouts)?;
        self.opened = self.opened.with(sets, seats);
        Ok(cache)
    }

    fn close(
        &mut self,
        alloc: Global,
        cache: PebrCache,
        pass: PebrPass,
        handed: PartList,
    ) -> Result<PartList, NoMemory> {
        let entries = cache.entries(alloc, pass)?;
        self.closed.closed_with(handed, entries)
    }
}
