//! A watcher, idle or with a flow that it holds.

ghost use Rattle.std.specs.Prelude.{◌≡◌, ◌^◌, ◌-◌, length, min, IsTrue, IsNone};
ghost use Rattle.std.specs.List.{list_all};
ghost use Rattle.pebr_core.specs.State.{is_out, is_down};
ghost use Rattle.pebr_roots.specs.Passes.{known_by_pass, lost_by};

use flow_cache::CacheRule;
use flow_parts::Fragment;
use pass_book::PassBook;
use pebr_roots::RootPass;

/// What came of a call of [`Watcher::hold`].
#[derive(Clone, Copy, PartialEq, Eq, Debug)]
pub enum Watch {
    /// The flow is held.
    Held,
    /// No entry of the key's set has the key.
    Absent,
    /// The watcher was ejected three times in this call.
    Lost,
}

/// The entry that is held: under which shield, and what was read there.
#[derive(Clone, Copy, Debug)]
pub(crate) struct Hold {
    pub(crate) place: usize,
    pub(crate) fragment: Fragment,
}

/// A seat of a cache through which the cache's open flows are looked at.
#[derive(Drop)]
pub struct Watcher {
    pub(crate) seat: RootPass<CacheRule>,
    /// The number of tries that it lost, as far as 64 bits count.
    pub(crate) lost: u64,
    pub(crate) held: Option<Hold>,
    /// What was put in through its seat, and what this was handed. It has no bytes.
    pub(crate) book: PassBook,
    ghost out: { IsTrue (is_out (known_by_pass seat).status) },
    ghost counted: { lost ≡ min (length (lost_by seat)) (2 ^ 64 - 1) },
    ghost idle: { IsNone held → IsTrue (list_all is_down (known_by_pass seat).shields) },
}
