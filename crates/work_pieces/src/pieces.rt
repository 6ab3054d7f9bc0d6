//! The pieces of some things, and the passes that draw them.

ghost use Rattle.std.specs.Prelude.{◌≡◌, ◌+◌, ◌-◌, ◌*◌, ◌/◌, ◌^◌, ◌<◌, ◌≤◌, ◌↔◌, IsTrue};

use crate::rule::Deals;
use crate::views::{Hand, Plan};
use atomic_table::{Seat, Table};
use std::alloc::Global;

mod all;
mod calls;

/// A number of things, cut into pieces of one size.
#[derive(Drop)]
pub struct Pieces {
    table: Table<(), Hand, Plan, Deals, Global>,
    count: u64,
    size: u64,
    pieces: u64,
    ghost sized: { (0 < size) × (count < 2 ^ 32) × (size ≤ 65536) × (pieces ≡ (count + size - 1) / size)
        × (table.shared.key.pieces ≡ pieces) × (table.shared.table_id.words ≡ 15) },
}

/// What one seat drew, or several together.
#[derive(Drop)]
pub struct DrawPass {
    seat: Seat<(), Hand>,
    done: bool,
    ghost flag: { (IsTrue done ↔ (0 < seat.me.0.done)) },
    ghost few: { seat.me.0.done ≤ seat.me.0.seats },
}
