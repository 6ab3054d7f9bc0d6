//! What a pass tells.

ghost use Rattle.std.specs.Prelude.{◌≡◌, ◌^◌, ◌-◌, length, min};
ghost use Rattle.flow_cache.specs.Shown.{tries_of, retired_of};

use crate::cache::PebrPass;

impl PebrPass {
    /// How many slots it has retired.
    pub fn retired(&self) -> usize
        ensures { result ≡ retired_of self.now }
    {
        self.inner.retired()
    }

    /// How many tries it has lost, at most 2^64 - 1.
    pub fn lost(&self) -> u64
        ensures { result ≡ min (length (tries_of self.now)) (2 ^ 64 - 1) }
    {
        self.lost
    }
}
