//! What a pass knows of the word that no more batches come.

/// What a pass knows of the word that no more batches come: contracts alone see it, and no value of it is made.
pub struct Heard {
    /// The right to put batches and to say that no more come: 1 for the reader's pass until it has said so, else 0.
    pub right: u64,
    /// Above 0 where the pass knows that it was said.
    pub told: u64,
}
