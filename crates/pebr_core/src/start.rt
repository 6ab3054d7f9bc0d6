//! How a core begins.

ghost use Rattle.std.specs.Prelude.{◌≡◌, ℕ, ◌<◌, [], ◌∷◌, ◌++◌, map, IfOk, OnOk, All};
ghost use Rattle.std.specs.List.{range_with_len};
ghost use Rattle.pebr_core.specs.State.{slots_per_seat, slot_count, is_share_of, first_seat, start_state};
ghost use Rattle.pebr_core.specs.Kept.{IsWithinLimits};
ghost use Rattle.pebr_core.specs.Shown.{shown_seat, HasRoom};

use crate::kinds::{Shape, ShieldAt, Stance};
use crate::machine::Core;
use crate::retired::RetiredSlots;
use crate::row::{Grid, Row};
use crate::seats::{ScanData, SeatData};
use no_memory::NoMemory;
use std::alloc::Global;

/// The root of each number holds the slot of that number.
fn first_roots(alloc: Global, count: usize) -> Result<Row<usize>, NoMemory>
    ensures { IfOk result (λ roots. roots ≡ range_with_len 0 count) }
{
    let mut roots = Row::with_copies(alloc, count, 0)?;
    for root in 0..count {
        roots.set(root, root);
    }
    Ok(roots)
}

/// The fresh slots that a seat begins with.
fn first_fresh(alloc: Global, shape: &Shape, seat: usize) -> Result<Row<bool>, NoMemory>
    requires limits { IsWithinLimits shape.now }
    requires seat { seat < shape.now.seats }
    ensures { IfOk result
        (λ fresh. fresh ≡ map (is_share_of shape.now seat) (range_with_len 0 (slot_count shape.now))) }
{
    let share = shape.slots_per_seat();
    let first = shape.roots + seat * share;
    let mut fresh = Row::with_copies(alloc, shape.slot_count(), false)?;
    for slot in first..first + share {
        fresh.set(slot, true);
    }
    Ok(fresh)
}

/// The entry of a seat that has done nothing.
fn first_entry(alloc: Global, shape: &Shape, seat: usize) -> Result<SeatData, NoMemory>
    requires limits { IsWithinLimits shape.now }
    requires seat { seat < shape.now.seats }
    ensures shown { IfOk result (λ entry. shown_seat entry ≡ first_seat shape.now seat) }
    ensures room { IfOk result (HasRoom shape.now) }
{
    let slots = shape.slot_count();
    Ok(SeatData {
        status: Stance::Out,
        noted: 0,
        seen: Row::with_copies(alloc, slots, false)?,
        shields: Row::with_copies(alloc, shape.shields, ShieldAt::Down)?,
        fresh: first_fresh(alloc, shape, seat)?,
        retired: RetiredSlots::none(alloc, slots)?,
        scan: ScanData {
            is_open: false,
            looked: Row::with_copies(alloc, shape.seats, None)?,
            passed: Row::with_copies(alloc, shape.seats, false)?,
            scanned: Grid::with_copies(alloc, shape.seats, shape.shields, false)?,
            kept: Row::with_copies(alloc, slots, false)?,
        },
    })
}

/// The entries of seats that have done nothing.
fn first_seats(alloc: Global, shape: &Shape) -> Result<Vec<SeatData>, NoMemory>
    requires { IsWithinLimits shape.now }
    ensures shown { IfOk result (λ seats.
        map shown_seat seats.items ≡ map (first_seat shape.now) (range_with_len 0 shape.now.seats)) }
    ensures room { IfOk result (λ seats. All (HasRoom shape.now) seats.items) }
{
    let mut seats = Vec::new(alloc);
    for seat in 0..shape.seats {
        let entry = first_entry(alloc, shape, seat)?;
        push_seat(&mut seats, entry)?;
    }
    Ok(seats)
}

/// Appends a seat.
fn push_seat(seats: &mut Vec<SeatData>, entry: SeatData) -> Result<(), NoMemory>
    ensures { OnOk result (seats.new.items ≡ seats.old.items ++ entry ∷ []) }
{
    seats.push(entry)?;
    Ok(())
}

impl Core {
    /// A core of this shape in which nothing has happened: the epoch is 0, the root of each number
    /// holds the slot of that number, each seat is out and has its share of the other slots fresh,
    /// and all words are 0. This takes all the memory that the core ever needs.
    ///
    /// # Errors
    ///
    /// `NoMemory` where no memory was left.
    pub fn start(alloc: Global, shape: Shape) -> Result<Core, NoMemory>
        requires { IsWithinLimits shape }
        ensures { IfOk result (λ core. core ≡ start_state shape) }
    {
        let roots = first_roots(alloc, shape.roots)?;
        let words = Grid::with_copies(alloc, shape.slot_count(), shape.width, 0)?;
        let seats = first_seats(alloc, &shape)?;
        Ok(Core {
            shape,
            epoch: 0,
            roots,
            words,
            seats,
        })
    }
}
