//! The words that threads share, and a seat at them.

ghost use Rattle.std.specs.Prelude.{◌≡◌};
ghost use Rattle.pebr_table.specs.Tables.{table_of, key_of, me_of};
ghost use Rattle.pebr_words.specs.Places.{word_count, slots_from};
ghost use Rattle.pebr_words.specs.Making.{number_in, known_in_view};
ghost use Rattle.pebr_core.specs.Kept.{IsWithinLimits};
ghost use Rattle.pebr_words.specs.Mirrors.{Mirrors};

use crate::protocol::RootProtocol;
use crate::rule::Rule;
use crate::views::{TableSeat, Told, View};
use pebr_core::Shape;
use pebr_slots::SeatSlots;
use pebr_table::Table;

/// The words of a core.
#[derive(Drop)]
pub struct Words<P: RootProtocol> {
    pub(crate) table: Table<View<P::Note>, Told<P::Fixed>, Rule<P>>,
    pub(crate) shape: Shape,
    /// The place of the first word of the first slot.
    pub(crate) contents: usize,
    ghost told: { (key_of table).shape ≡ shape },
    ghost counted: { (table_of table).words ≡ word_count shape },
    ghost limits: { IsWithinLimits shape },
    ghost placed: { contents ≡ slots_from shape },
}

/// A seat at the words.
#[derive(Drop)]
pub struct Seat<P: RootProtocol> {
    pub(crate) inner: TableSeat<P::Note>,
    pub(crate) number: usize,
    /// The epoch that it noted.
    pub(crate) noted: u64,
    /// Its fresh and its retired slots, and those that its scan keeps.
    pub(crate) slots: SeatSlots,
    /// For each seat, the epoch that its scan found it in with.
    pub(crate) found: Vec<u64>,
    ghost acts: { number_in (me_of inner).0 ≡ number },
    ghost mirrors: { Mirrors noted slots found.items (known_in_view (me_of inner).0) },
}
