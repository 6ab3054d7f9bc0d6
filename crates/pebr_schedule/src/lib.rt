//! Schedules of the core of reclamation as text.
//!
//! A schedule is a line `core R N H B W` with the shape of a core (roots, seats, shields of a seat,
//! batch, words of a slot), and then a line for each step, as `note 1` or `shield 1 0 0`. Each line
//! ends with one line feed. [`read_schedule`] reads it, or names the first line that isn't of the
//! grammar. [`print`] writes the answers of a replay, and the state that it left.
#![tactic(auto)]

mod grammar;
mod pieces;
mod printing;
mod reading;

pub use pebr_core::NoMemory;
pub use printing::print;
pub use reading::{Schedule, ScheduleError, read_schedule};
