//! The running form of reclamation: the core's state in words that threads share.
//!
//! # The problem
//!
//! Readers reach slots through roots, and never wait. A seat, the part that one thread plays, replaces
//! the slot in a root by a fresh one. The old slot may still be read by another seat. When is it fresh
//! again? A reader that stops in the middle of a read must not hold up the others for ever, and must
//! not read a slot that somebody writes.
//!
//! # The scheme
//!
//! - **Pin.** Before it loads a root a seat notes the epoch and pins: its status is In with that epoch.
//!   It uses each slot that it loads from then on, until it leaves.
//! - **Retire.** A slot that was replaced is retired at the seat that replaced it. The seat's next Note
//!   tags it with the epoch. A seat that pins a later epoch can't have loaded it.
//! - **Eject.** A seat that collects its retired slots raises the epoch and looks at each other seat.
//!   One that is in with an epoch above all tags is passed. One that is in with an older epoch is
//!   ejected: its status says so, and from then on it uses only what it has shielded.
//! - **Shield.** A seat that wants to read for long sets a shield on a slot that it has loaded, and then
//!   checks its own status. If it is still in, whoever ejects it later will see the shield: it is valid.
//! - **Scan.** Once a seat is passed, the collecting seat reads its shields. A retired slot that it finds there is
//!   kept. Give makes the others **fresh**: nobody uses them, so their owner may write them.
//!
//! So each seat needs a bounded number of slots, whatever the others do: those that other seats' shields
//! stand on, and a batch of its own.
//!
//! # Words and views
//!
//! `pebr_core` is this scheme as a pure machine of fifteen kinds of step. Here no core exists at run
//! time. One table holds the epoch, a status word and shield words for each seat, a word for each root,
//! and the slots' words; each call makes one step of the core by one load, store, or compare and
//! exchange of one word, which is recorded (`pebr_table`). What a seat knows of itself besides (what it
//! noted and has seen, which shields are valid, its slots, its scan) stands in its view, which only its
//! own steps change.
//!
//! The table's rule says that words and views show a core which is sound, between any two steps and
//! whatever the seats do in turn: see `specs/Ruled.antt`. Each call's clauses say which step of such a
//! core it was, by which operation and of what that found (`specs/Operating.antt`), what the seat knows
//! afterwards, and how its history goes on. The history is what a layer above may rely on although
//! other seats step in between: two reads of one word under a valid shield are equal, a content that
//! was read in full under one is whole, and with one seat no try is lost.
//!
//! A [`RootProtocol`] says what the layer above keeps of the roots' contents and of the seats' notes.
#![tactic(auto)]

mod close;
mod looked;
mod looks;
mod open;
mod pins;
mod protocol;
mod roots;
mod rule;
mod scans;
mod shields;
mod slots;
mod steps;
mod tells;
mod unite;
mod views;
mod words;

pub use looked::Looked;
pub use no_memory::NoMemory;
pub use pebr_core::Shape;
pub use protocol::RootProtocol;
pub use words::{Seat, Words};
