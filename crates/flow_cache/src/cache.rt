//! The cache and its passes.

ghost use Rattle.std.specs.Prelude.{◌≡◌, ◌≤◌, ◌^◌, ◌-◌, length, min, IsTrue};
ghost use Rattle.std.specs.List.{list_all};
ghost use Rattle.pebr_core.specs.State.{is_out, is_down};
ghost use Rattle.pebr_roots.specs.Passes.{shape_at, fixed_at, known_by_pass, lost_by};
ghost use Rattle.flow_cache.specs.Places.{cache_shape};

use crate::protocol::CacheRule;
use flow_parts::Timeouts;
use pass_book::PassBook;
use pebr_roots::{RootPass, Roots};

/// A cache whose sets have four roots each.
#[derive(Drop)]
pub struct PebrCache {
    pub(crate) roots: Roots<CacheRule>,
    pub(crate) sets: u64,
    pub(crate) timeouts: Timeouts,
    ghost shaped: { shape_at roots ≡ cache_shape sets (shape_at roots).seats },
    ghost fixed: { ((fixed_at roots).timeouts ≡ timeouts) × ((fixed_at roots).sets ≡ sets) },
    ghost sized: { (1 ≤ sets) × (sets ≤ 65536) × (1 ≤ (shape_at roots).seats) × ((shape_at roots).seats ≤ 64) },
}

/// A pass of the cache. Between calls its seat is out and no shield is up.
#[derive(Drop)]
pub struct PebrPass {
    pub(crate) inner: RootPass<CacheRule>,
    /// The number of tries that it lost, as far as 64 bits count.
    pub(crate) lost: u64,
    /// The words of the four entries that it read last. They are used within a try alone, and kept so that no try
    /// has to zero them first.
    pub(crate) contents: [[u64; 10]; 4],
    /// What was put in through it, and what it was handed. It has no bytes.
    pub(crate) book: PassBook,
    ghost out: { IsTrue (is_out (known_by_pass inner).status) },
    ghost down: { IsTrue (list_all is_down (known_by_pass inner).shields) },
    ghost counted: { lost ≡ min (length (lost_by inner)) (2 ^ 64 - 1) },
}
