//! The roots that threads share, and a pass at them.

ghost use Rattle.pebr_words.specs.Seats.{known_of};
ghost use Rattle.pebr_roots.specs.Under.{AreUnder};

use pebr_shields::{RootProtocol, Seat, Words};

/// Roots that threads share.
#[derive(Drop)]
pub struct Roots<P: RootProtocol> {
    pub(crate) words: Words<P>,
}

/// What one thread reads and replaces roots with. Its seat keeps the fresh and the retired slots.
#[derive(Drop)]
pub struct RootPass<P: RootProtocol> {
    pub(crate) seat: Seat<P>,
    /// The slot under each shield that is up. No shape has more than 8 shields.
    pub(crate) under: [usize; 8],
    /// Where the words of each of these slots begin.
    pub(crate) starts: [usize; 8],
    ghost slots: { AreUnder under (known_of seat) },
}
