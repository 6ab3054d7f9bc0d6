//! The choice among the four entries of a set, by their words.
//!
//! [`choose_by_words`] answers what [`choose`](cache_face::choose) answers over the entries that the words show: by
//! which rule a fragment is put in, the place of the entry, and the ten words that the content there is to have.
//! [`put_out`] gives the fragment that the content had, where it is replaced.
//!
//! Nearly every packet is taken in by the entry of its key, which is found by comparing words: so the choice needs one
//! entry as a fragment, and not four. Where no content has the words of the key it needs none: the lowest empty
//! content, or the one with the least last time, is found by one word of each. It needs all four only where the lowest
//! content that has the words of the key can't take the fragment in.
#![tactic(auto)]

mod by_words;

pub use by_words::{WordChoice, choose_by_words, has_words, join_content, put_out};
