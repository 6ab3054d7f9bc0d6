//! What a seat tells of its slots, and words of their shape.

ghost use Rattle.std.specs.Prelude.{◌≡◌, ◌<◌};
ghost use Rattle.pebr_core.specs.State.{has, is_retired, retired_at};
ghost use Rattle.pebr_core.specs.Frames.{fresh_count, retired_count};
ghost use Rattle.pebr_core.specs.Kept.{IsWithinLimits};
ghost use Rattle.pebr_slots.specs.Sets.{least_in};
ghost use Rattle.pebr_words.specs.Seats.{shape_of, known_of, number_of};

use crate::protocol::RootProtocol;
use crate::words::{Seat, Words};
use pebr_core::Shape;

impl<P: RootProtocol> Seat<P> {
    /// The number that it acts as.
    pub fn number(&self) -> usize
        ensures { result ≡ number_of self.now }
    {
        self.number
    }

    /// The epoch that it last read.
    pub fn noted(&self) -> u64
        ensures { result ≡ (known_of self.now).noted }
    {
        self.noted
    }

    /// Whether a slot is a fresh one of it.
    pub fn is_fresh(&self, slot: usize) -> bool
        ensures { result ≡ has (known_of self.now).fresh slot }
    {
        self.slots.is_fresh(slot)
    }

    /// Whether it has retired a slot.
    pub fn is_retired(&self, slot: usize) -> bool
        ensures { result ≡ is_retired (retired_at (known_of self.now) slot) }
    {
        self.slots.is_retired(slot)
    }

    /// How many fresh slots it has.
    pub fn fresh_len(&self) -> usize
        ensures { result ≡ fresh_count (known_of self.now) }
    {
        self.slots.fresh_len()
    }

    /// Its least fresh slot.
    pub fn least_fresh(&self) -> usize
        requires { 0 < fresh_count (known_of self.now) }
        ensures { result ≡ least_in (known_of self.now).fresh }
    {
        self.slots.least_fresh()
    }

    /// How many slots it has retired.
    pub fn retired_len(&self) -> usize
        ensures { result ≡ retired_count (known_of self.now) }
    {
        self.slots.retired_len()
    }
}

impl<P: RootProtocol> Words<P> {
    /// The shape of the core.
    pub fn shape(&self) -> Shape
        ensures shape { result ≡ shape_of self.now }
        ensures limits { IsWithinLimits result }
    {
        self.shape
    }
}
