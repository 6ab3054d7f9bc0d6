//! Trials of a front, packet by packet, by its public calls alone. It has tests alone, so that the proofs of the front
//! don't wait for theirs.
#![tactic(auto)]

#[cfg(test)]
mod tests;
