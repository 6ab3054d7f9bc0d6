//! Trials of the lower layers, each through its public calls alone: work that threads share; numbers, text and link
//! types; reads and writes; captures, also made ones; packet headers, packets and their keys; tallies; pieces and batches
//! that workers draw; and the core of reclamation, step by step. It has tests alone, so that the proofs of the layers
//! don't wait for those of the tests.
#![tactic(auto)]

#[cfg(test)]
mod tests;
