//! What was put in through a pass, and what this was handed, as proofs keep it.
//!
//! A cache's own words say what went through them. A fragment that goes by touches none of them, so what a pass has
//! done is kept beside them: a [`PassBook`] lists all fragments that were put in through a pass, and all that it was
//! handed. It has no bytes and nothing of it is there at run time. `specs/Books.antt` says how it stands to the note
//! of the cache's own words: the book has those fragments, and some besides that went by.
#![tactic(auto)]

mod book;
mod growing;

pub use book::PassBook;
