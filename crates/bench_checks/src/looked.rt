//! A cache that looks at the retired slots of a pass after each call.

ghost use Rattle.pebr_words.specs.Pasts.{Lost};
ghost use Rattle.bench_checks.specs.Looked.{means_of, shown_of, tries_of, IsOf};
ghost use Rattle.flow_cache.specs.Shown.{IsTryOf};

use cache_face::{FlowCache, Metered, NoMemory};
use flow_cache::{PebrCache, PebrPass};
use flow_parts::Fragment;
use std::alloc::Global;

/// A cache without turns.
#[derive(Drop)]
pub(crate) struct LookedCache {
    pub(crate) inner: PebrCache,
}

/// A pass of it, and the most slots that it had retired after any call so far.
#[derive(Drop)]
pub(crate) struct LookedPass {
    pub(crate) inner: PebrPass,
    pub(crate) most: usize,
}

impl FlowCache for LookedCache {
    type Pass = LookedPass;

    ghost means = { means_of };

    ghost shown = { shown_of };

    ghost is_of = { IsOf };

    ghost lost_try = { Lost };

    ghost is_try_of = { IsTryOf };

    ghost lost = { tries_of };

    fn meter_part(&self, pass: &mut LookedPass, part: &Fragment) -> Metered {
        let metered = self.inner.meter_part(&mut pass.inner, part);
        pass.most = pass.most.max(pass.inner.retired());
        metered
    }

    fn bypass(&self, pass: &mut LookedPass, fragment: &Fragment) {
        self.inner.bypass(&mut pass.inner, fragment);
    }

    fn unite(&self, first: LookedPass, second: LookedPass) -> LookedPass {
        let LookedPass { inner, most } = first;
        let LookedPass {
            inner: other,
            most: others,
        } = second;
        LookedPass {
            inner: self.inner.unite(inner, other),
            most: most.max(others),
        }
    }

    fn close(self, alloc: Global, pass: LookedPass) -> Result<Vec<Fragment>, NoMemory> {
        let LookedPass { inner, most: _ } = pass;
        let LookedCache { inner: cache } = self;
        cache.close(alloc, inner)
    }
}
