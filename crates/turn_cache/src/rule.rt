//! The rule of the table, and its kinds of step. They stand in proofs alone.

ghost use Rattle.turn_cache.specs.Moves.{Move};

use atomic_table::{Join, Play, Split, TableRule};
use flow_parts::Timeouts;
use std::marker::{Brand, Model, PhantomData};

/// What a seat knows. No value of it is made.
pub struct Known {
    unit: (),
}

impl Model for Known {
    ghost use Rattle.turn_cache.specs.Hands.{Hand, spent_hand};

    ghost Value = { Hand };

    ghost view = { λ _. spent_hand };
}

/// What the table is told when it is opened.
#[derive(Clone, Copy)]
pub struct Told {
    pub sets: u64,
    pub seats: u64,
    pub timeouts: Timeouts,
}

/// Turns, contents and notes fit, and the cache keeps.
pub struct Turns;

impl TableRule<(), Known, Told> for Turns {
    ghost use Rattle.turn_cache.specs.Ruled.{Ruled};
    ghost use Rattle.turn_cache.specs.Hands.{new_hand};
    ghost use Rattle.cache_face.specs.Notes.{unused_note};
    ghost use Rattle.std.specs.List.{range_with_len};

    ghost holds = { Ruled };

    ghost first = { λ told. new_hand (range_with_len 0 told.seats) (unused_note told.seats) };
}

/// What a step is about. A proof picks it at the call.
pub trait IsMove {
    ghost about: { Move };
}

impl IsMove for Brand {
    ghost use Rattle.std.specs.Prelude.{None, [], false};

    ghost about = { record {
      seats = 0;
      set = 0;
      last = false;
      taken = [];
      out = None;
      place = 0;
      old = [];
      new =
          [];
    } };
}

/// A turn is taken, or a try lost.
pub struct Takes<M> {
    marker: PhantomData<M>,
}

impl<M: IsMove> Play<(), Known> for Takes<M> {
    ghost use Rattle.turn_cache.specs.Moves as moves;

    ghost then = { λ step me found after. moves.Takes M.about step me found after };
}

/// A content word is loaded.
pub struct Loads;

impl Play<(), Known> for Loads {
    ghost use Rattle.turn_cache.specs.Moves as moves;

    ghost then = { λ _ me found after. moves.Loads me found after };
}

/// The first word of an entry is stored.
pub struct Commits<M> {
    marker: PhantomData<M>,
}

impl<M: IsMove> Play<(), Known> for Commits<M> {
    ghost use Rattle.turn_cache.specs.Moves as moves;

    ghost then = { λ _ me _ after. moves.Commits M.about me after };
}

/// A further word is stored.
pub struct Stores;

impl Play<(), Known> for Stores {
    ghost use Rattle.turn_cache.specs.Moves as moves;

    ghost then = { λ step me _ after. moves.Stores step me after };
}

/// The turn is given back.
pub struct Gives;

impl Play<(), Known> for Gives {
    ghost use Rattle.turn_cache.specs.Moves as moves;

    ghost then = { λ _ me _ after. moves.Gives me after };
}

/// A seat is split off, or two are united.
pub struct Parts;

impl Split<Known> for Parts {
    ghost use Rattle.turn_cache.specs.Hands.{remaining_hand, split_off};

    ghost left = { remaining_hand };

    ghost right = { split_off };
}

impl Join<Known> for Parts {
    ghost use Rattle.turn_cache.specs.Hands as hands;

    ghost both = { hands.united_hand };

    ghost spent = { hands.spent_hand };
}
