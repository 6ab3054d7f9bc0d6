//! Where the packets of a capture stand.

ghost use Rattle.std.specs.Prelude.{◌≡◌, ◌<◌, length, slice_index_or};

use crate::interface::Interface;
use octets::Endianness;
use std::marker::Model;

/// Where a packet stands, and what its section and its interface tell of it.
#[derive(Clone, Copy, Debug)]
pub(crate) enum Place {
    /// The block of an enhanced packet, from a place to a place.
    Enhanced(u32, u32, Endianness, Interface),
    /// A simple packet, of which nothing is read.
    Simple,
}

/// Where the packets of a capture stand.
#[derive(Debug, Drop)]
pub struct PngIndex {
    places: Vec<Place>,
}

impl Model for PngIndex {
    ghost use Rattle.std.specs.Prelude.{List};
    ghost use Rattle.pcapng_reader.specs.declared.index.Place.{Place};

    ghost Value = { List Place };

    ghost view = { λ i. i.places.items };
}

impl PngIndex {
    /// The index of these places.
    pub(crate) fn new(places: Vec<Place>) -> PngIndex
        ensures { result ≡ places.items }
    {
        PngIndex { places }
    }

    /// The number of records.
    #[inline]
    pub fn count(&self) -> u64
        ensures { result ≡ length self.now }
    {
        self.places.len() as u64
    }

    /// The place of the `n`-th packet.
    #[inline]
    pub(crate) fn place(&self, n: u64) -> &Place
        requires { n < length self.now }
        ensures { (d : Place) → result.now ≡ slice_index_or self.now n d }
    {
        &self.places[n as usize]
    }
}
