//! Trials of fragments and of records of flows, by their public calls alone. It has tests alone, so that the proofs of
//! the layers don't wait for theirs.
#![tactic(auto)]

#[cfg(test)]
mod tests;
