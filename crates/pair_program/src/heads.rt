//! A place for each key.

ghost use Rattle.std.specs.Prelude.{◌≡◌, OnOk, if◌then◌else◌};
ghost use Rattle.flow_key.specs.declared.key.FlowKey.{FlowKey};

use flow_key::FlowKey;
use indexmap::IndexMap;
use no_memory::NoMemory;
use std::alloc::Global;
use std::marker::Model;

/// A place for each key; `none` for a key that was given none.
#[derive(Drop)]
pub struct Heads {
    places: IndexMap<FlowKey, usize>,
    none: usize,
}

impl Model for Heads {
    ghost use Rattle.pair_program.specs.Chains.{KeyPlaces};

    ghost Value = { KeyPlaces };

    ghost view = { λ heads. record { entries = heads.places.entries; none = heads.none } };
}

impl Heads {
    ghost use Rattle.pair_program.specs.Chains.{place_of};
    ghost use Rattle.pair_program.specs.Mates.{is_same};

    /// A map in which no key has a place.
    pub fn new(alloc: Global, none: usize) -> Self
        ensures { (key : FlowKey) → place_of result key ≡ none }
    {
        Heads {
            places: IndexMap::new(alloc),
            none,
        }
    }

    /// The place of a key, or `none` where it was given none.
    pub fn get(&self, key: &FlowKey) -> usize
        ensures { result ≡ place_of self.now key.now }
    {
        match self.places.get(key) {
            Some(place) => *place,
            None => self.none,
        }
    }

    /// Gives the key this place, instead of one that it had before.
    ///
    /// `NoMemory` where the room for it can't be had.
    pub fn set(&mut self, key: FlowKey, place: usize) -> Result<(), NoMemory>
        ensures { OnOk result ((other : FlowKey)
            → place_of self.new other ≡ (if is_same other key then place else place_of self.old other)) }
    {
        self.places.insert(key, place)?;
        Ok(())
    }
}
