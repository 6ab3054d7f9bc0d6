//! Trials of reclamation on words that threads share: the worked schedules by the steps of two seats (`pebr_words`),
//! and by two passes, of which one is stopped after each of its calls (`pebr_roots`). With two roots: a reader that
//! pins between Advance and Look, and which root was replaced. It has tests alone, so that the proofs of these crates
//! don't wait for theirs.
#![tactic(auto)]

#[cfg(test)]
mod tests;
