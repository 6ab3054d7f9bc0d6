//! What a pass tells of its slots.

ghost use Rattle.std.specs.Prelude.{◌≡◌};
ghost use Rattle.pebr_core.specs.Frames.{fresh_count, retired_count};
ghost use Rattle.pebr_roots.specs.Passes.{known_by_pass};

use crate::pass::RootPass;
use pebr_shields::RootProtocol;

impl<P: RootProtocol> RootPass<P> {
    /// How many fresh slots it has. With the retired ones these are all its slots.
    pub fn fresh(&self) -> usize
        ensures { result ≡ fresh_count (known_by_pass self.now) }
    {
        self.seat.fresh_len()
    }

    /// How many retired slots it has.
    pub fn retired(&self) -> usize
        ensures { result ≡ retired_count (known_by_pass self.now) }
    {
        self.seat.retired_len()
    }
}
