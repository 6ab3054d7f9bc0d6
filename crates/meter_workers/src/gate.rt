//! Where workers can be held.

/// What is told of each piece before a worker meters it.
pub trait Gate: Sync {
    /// The worker of this number, counted from 0, is at the piece of this number.
    fn reach(&self, worker: usize, piece: u64);
}

/// A gate that holds nobody.
#[derive(Clone, Copy, Debug)]
pub struct OpenGate;

impl Gate for OpenGate {
    fn reach(&self, _worker: usize, _piece: u64) {}
}
