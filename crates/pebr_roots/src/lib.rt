//! Roots that threads share: reads that stay exact under ejection, replacements, and collections with a bound.
//!
//! # What it is
//!
//! Each root holds a slot of a few words, its content. A thread reads contents and replaces them through a pass of its
//! own ([`RootPass`]), and waits for nobody:
//!
//! - **Enter** notes the epoch and pins it ([`Roots::enter`]).
//! - **Load** a root and set a shield on its slot ([`Roots::load`]), a few roots if need be.
//! - **Check** ([`Roots::check`]): if the pass is still in, the shields are valid. If another pass has ejected it,
//!   leave and try again.
//! - **Read** the words of a slot under a valid shield ([`Roots::read`]). Nobody writes them while the shield stays up,
//!   even if the pass is ejected afterwards. A content of which each word was read is whole, as the
//!   protocol says of each slot that no pass has fresh.
//! - **Replace**: write the least fresh slot ([`Roots::write_fresh`]), then put it into a root that still has the slot
//!   under the shield ([`Roots::replace`]). The old slot is retired.
//! - **Clear** the shields and **leave** ([`Roots::clear`], [`Roots::leave`]).
//!
//! # Where fresh slots come from
//!
//! A pass owns `batch + seats * shields` slots, fresh and retired together ([`RootPass::fresh`],
//! [`RootPass::retired`]). [`Roots::collect`] makes retired slots fresh that nobody uses any more. It raises the epoch
//! and looks at each other seat. One that is in with an old epoch holds the scan up. Without force the collection ends
//! there. With force it ejects that seat, goes on, and reads the shields of all the others: a retired slot under a
//! shield stays retired, and the rest become fresh. So at most `(seats - 1) * shields` slots stay retired, whatever the
//! other passes do, and the number of operations that it makes is bounded.
//!
//! # What the clauses say
//!
//! A pass is seen by what it knows of its part of the core, by its note, by its history (loads, reads, tries lost,
//! ejections made), and by the operations on words that it made (`specs/Passes.antt`). Each call says which
//! operations it made, in which order (`specs/Orders.antt`), and what these are afterwards. A [`RootProtocol`] says
//! what the layer above keeps of the contents of all roots and of all notes: `replace` and `leave` ask that it still
//! keeps, and [`Roots::close`] gives contents with which it keeps.
//!
//! No call but `open` and `close` takes memory, and none but these goes over all slots.
#![tactic(auto)]

mod close;
mod collect;
mod ends;
mod enter;
mod open;
mod pass;
mod reads;
mod scanning;
mod tells;
mod writes;

pub use ends::{Collected, ReplaceEnd};
pub use pass::{RootPass, Roots};
pub use pebr_shields::{Checked, NoMemory, RootProtocol, Shape};
