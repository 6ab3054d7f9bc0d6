//! The cache and its passes.

ghost use Rattle.std.specs.Prelude.{◌≡◌, ◌*◌, ◌<◌, ◌≤◌};
ghost use Rattle.turn_cache.specs.Hands.{number_of, idle};

use crate::rule::{Known, Told, Turns};
use atomic_table::{Seat, Table};
use flow_parts::Timeouts;
use pass_book::PassBook;
use std::alloc::Global;

/// A cache whose sets have one turn each.
#[derive(Drop)]
pub struct TurnCache {
    pub(crate) table: Table<(), Known, Told, Turns, Global>,
    pub(crate) sets: u64,
    pub(crate) seats: u64,
    pub(crate) timeouts: Timeouts,
    ghost told: { (table.shared.key.sets ≡ sets) × (table.shared.key.seats ≡ seats)
        × (table.shared.key.timeouts ≡ timeouts) },
    ghost counted: { table.shared.table_id.words ≡ 64 * sets },
    ghost slotless: { table.shared.table_id.slots ≡ 0 },
    ghost sized: { (1 ≤ sets) × (sets ≤ 65536) × (seats ≤ 64) },
}

/// A pass of the cache. It holds no turn between calls.
#[derive(Drop)]
pub struct TurnPass {
    pub(crate) seat: Seat<(), Known>,
    /// The number that it takes turns by.
    pub(crate) number: u64,
    /// The words of the four entries that it read last. They are used within a call alone, and kept so that no call
    /// has to zero them first.
    pub(crate) contents: [[u64; 10]; 4],
    /// What was put in through it, and what it was handed. It has no bytes.
    pub(crate) book: PassBook,
    ghost acts: { number_of seat.me.0.numbers ≡ number },
    ghost low: { number < 64 },
    ghost no_turn: { seat.me.0.turn ≡ idle },
}
