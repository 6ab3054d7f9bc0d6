//! Trials of the crates that meter a capture together: windows, workers, the cache and the gathering of records; and
//! the same captures metered while they are read, through a queue. It is a crate of its own, since no crate below
//! it stands on all of these. Besides tests it has only a gate, [`Meeting`], that other trials use too.
#![tactic(auto)]

mod meeting;
#[cfg(test)]
mod tests;

pub use meeting::Meeting;
