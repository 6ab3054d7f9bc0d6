//! The one error for out of memory. Crates that return it re-export this type, so that `?` passes it on unchanged, and
//! turns an allocation's own error into it.
#![tactic(auto)]

use std::alloc::{AllocError, AllocFailed};

/// Out of memory, kept apart from every other error.
#[derive(Clone, Copy, Debug, PartialEq, Eq)]
pub struct NoMemory;

impl From<AllocError> for NoMemory {
    fn from(_error: AllocError) -> NoMemory {
        NoMemory
    }
}

/// The value that wasn't stored is dropped.
impl<T: Drop> From<AllocFailed<T>> for NoMemory {
    fn from(_error: AllocFailed<T>) -> NoMemory {
        NoMemory
    }
}
