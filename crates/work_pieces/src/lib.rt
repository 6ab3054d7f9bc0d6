//! Pieces of work that are drawn once each, by any number of threads, without a lock.
//!
//! Things are cut into [`Piece`]s of one size, the last one perhaps smaller. [`Pieces::open`] makes a [`DrawPass`] for
//! each seat; a seat draws the next piece by one fetch-and-add on a word that all share ([`Pieces::draw`]). Passes are
//! united by [`Pieces::unite`]; a pass of all seats, of which one came to the end, has all pieces, each once.
//! [`Pieces::complete_all`] says so of the passes of all seats that came to the end.
//!
//! The word and the passes are tied by the rule of an `atomic_table`, `Dealt` in `specs/Dealing.antt`: it holds between
//! any two steps, whatever the threads do in turn. The word lies on a cache line of its own.
//!
//! A [`Worker`] has a share, which tells what it has done, and a seat, by which it gets its work. `specs/Doing.antt`
//! says what workers have done: each its own list of things, together all.
#![tactic(auto)]

mod piece;
mod pieces;
mod rule;
mod views;
mod worker;

pub use no_memory::NoMemory;
pub use piece::Piece;
pub use pieces::{DrawPass, Pieces};
pub use worker::{WorkState, Worker, seat_workers, unseat_workers};
