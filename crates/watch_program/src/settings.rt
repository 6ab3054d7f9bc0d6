//! The settings of a run.

ghost use Rattle.std.specs.Prelude.{◌≤◌};

/// What the words of the command line ask for.
#[derive(Clone, Copy, Debug, PartialEq, Eq)]
pub struct WatchSettings {
    /// How many workers there are, from 1 to 63.
    pub workers: usize,
    /// How many sets the cache has, from 1 to 65,536.
    pub sets: u64,
    /// The number of asks, from 1 to 10,000.
    pub asks: usize,
    pub ghost workers_bounds: { (1 ≤ workers) × (workers ≤ 63) },
    pub ghost sets_bounds: { (1 ≤ sets) × (sets ≤ 65536) },
    pub ghost asks_bounds: { (1 ≤ asks) × (asks ≤ 10000) },
}
