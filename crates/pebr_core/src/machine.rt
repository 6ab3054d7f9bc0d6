//! The core: its state, and the calls that read it.

ghost use Rattle.std.specs.Prelude.{◌≡◌, ℕ, ◌<◌, IsTrue, Option, Some, None};
ghost use Rattle.pebr_core.specs.State.{State, has, seat_at, root_at, shield_at, retired_at, slot_count, is_out};
ghost use Rattle.pebr_core.specs.Steps.{is_seat};
ghost use Rattle.pebr_core.specs.Kept.{IsSound};

use crate::kinds::{Retired, Shape, ShieldAt, Stance};
use crate::row::{Grid, Row};
use crate::seats::SeatData;
use std::marker::Model;

/// A core of reclamation, seen as its state: the epoch, the roots, the words and the seats. Every core
/// is sound, since [`Core::start`] makes a sound one and each step keeps it so.
#[derive(Debug, Drop)]
pub struct Core {
    pub(crate) shape: Shape,
    pub(crate) epoch: u64,
    pub(crate) roots: Row<usize>,
    pub(crate) words: Grid<u64>,
    pub(crate) seats: Vec<SeatData>,
}

impl Model for Core {
    ghost use Rattle.pebr_core.specs.State.{State};

    ghost Value = { State };

    ghost use Rattle.pebr_core.specs.Shown.{shown_state, IsCore};

    ghost view = { shown_state };

    ghost invariant = { IsCore };
}

impl Core {
    /// The shape that it was made with.
    pub fn shape(&self) -> Shape
        ensures { result ≡ self.now.shape }
    {
        self.shape
    }

    /// How many slots it has: those of the roots, and those of each seat.
    pub fn slot_count(&self) -> usize
        ensures { result ≡ slot_count self.now.shape }
    {
        self.shape.slot_count()
    }

    /// The epoch.
    pub fn epoch(&self) -> u64
        ensures { result ≡ self.now.epoch }
    {
        self.epoch
    }

    /// The slot of a root.
    pub fn root(&self, root: usize) -> usize
        requires { root < self.now.shape.roots }
        ensures { result ≡ root_at self.now root }
    {
        self.roots.get(root, 0)
    }

    /// The status of a seat.
    pub fn status(&self, seat: usize) -> Stance
        requires { seat < self.now.shape.seats }
        ensures { result ≡ (seat_at self.now seat).status }
    {
        self.seats[seat].status
    }

    /// The epoch that a seat noted last.
    pub fn noted(&self, seat: usize) -> u64
        requires { seat < self.now.shape.seats }
        ensures { result ≡ (seat_at self.now seat).noted }
    {
        self.seats[seat].noted
    }

    /// Whether a slot is a fresh one of a seat.
    pub fn is_fresh(&self, seat: usize, slot: usize) -> bool
        requires seat { seat < self.now.shape.seats }
        requires slot { slot < slot_count self.now.shape }
        ensures { result ≡ has (seat_at self.now seat).fresh slot }
    {
        self.seats[seat].fresh.get(slot, false)
    }

    /// Whether a seat holds a slot as retired, and with which tag.
    pub fn retired(&self, seat: usize, slot: usize) -> Retired
        requires seat { seat < self.now.shape.seats }
        requires slot { slot < slot_count self.now.shape }
        ensures { result ≡ retired_at (seat_at self.now seat) slot }
    {
        self.seats[seat].retired.at(slot)
    }

    /// What a shield of a seat stands on.
    pub fn shield(&self, seat: usize, place: usize) -> ShieldAt
        requires seat { seat < self.now.shape.seats }
        requires place { place < self.now.shape.shields }
        ensures { result ≡ shield_at (seat_at self.now seat) place }
    {
        self.seats[seat].shields.get(place, ShieldAt::Down)
    }
}
