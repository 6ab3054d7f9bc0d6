//! What workers run on.

use crate::gate::Gate;
use std::alloc::Global;

/// What workers run on: the runtime that their threads belong to, memory, and the gate that is told of their pieces and
/// batches.
#[derive(Drop)]
pub struct Engine<'a, R, G: Gate> {
    pub rt: &'a R,
    pub alloc: Global,
    pub gate: &'a G,
}
