//! Words that threads share, each operation on which is recorded.
//!
//! One [`atomic_table`] lies behind the words, and nothing else reaches it. Three calls step on a word:
//! [`Table::load`], [`Table::store`] and [`Table::exchange`], the compare and exchange. Each makes one atomic
//! operation, and adds to the seat's list what it did and what it found (`specs/Operations.antt`).
//!
//! The layer above isn't trusted with the list. The rule of the words (`specs/Recorded.antt`) says that these are
//! what all recorded operations made of the words as they were at first, in one order of them all, in which each found
//! what the word had then. So no word is changed by an operation that isn't recorded, and no operation is recorded that
//! would have changed a word otherwise. A load changes nothing, so the rule can't say that each load is
//! recorded. This is read from `src/operations.rt`, which has one atomic operation in each of the three calls.
//!
//! The layer above has a rule of its own on words and views, and says what it makes of its seat's view at each step, as
//! with the table itself. It sees and changes no list.
#![tactic(auto)]

mod operations;
mod recorded;
mod rule;
mod table;

pub use atomic_table::{Closed, Join, Play, Split, TableRule};
pub use no_memory::NoMemory;
pub use table::{Seat, Table};
