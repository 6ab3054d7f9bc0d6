//! Trials of the shared caches of open flows, each by its public calls alone: the choice among four entries, as
//! fragments and by their words; packets through one pass and through two, in a cache with turns and in one without; a
//! call that is stopped at each point of its try; a flow that is watched while it is put out. It has tests alone, so
//! that the proofs of the caches don't wait for theirs.
#![tactic(auto)]

#[cfg(test)]
mod tests;
