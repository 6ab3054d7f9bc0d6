//! Trials of messages: what the model says of templates and values, streams that are written, and streams that are
//! read. It has tests alone, so that the proofs of the layers don't wait for theirs.
#![tactic(auto)]

#[cfg(test)]
mod tests;
