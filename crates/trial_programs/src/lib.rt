//! Trials of the further programs by their top calls: files in the pcapng format, and what the meter makes of the
//! captures that they are turned into (`pcapng_reader`); flow records, and streams of them, that are paired into
//! biflows (`pair_program`); runs that ask for open flows (`watch_program`). It has tests alone, so that the proofs of
//! these crates don't wait for theirs.
#![tactic(auto)]

#[cfg(test)]
mod tests;
