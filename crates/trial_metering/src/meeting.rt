//! A gate at which two workers wait for each other.

use meter_workers::Gate;
use std::sync::atomic::{AtomicU64, Ordering};
use trial_samples::wait_for;

/// A gate that holds the worker at the first piece until another worker has reached a piece, or the first one gave up.
#[derive(Drop)]
pub struct Meeting {
    /// The worker at the first piece, counted from 1.
    first: AtomicU64,
    met: AtomicU64,
    failed: AtomicU64,
}

impl Meeting {
    /// A gate that no worker has reached.
    pub fn new() -> Meeting {
        Meeting {
            first: AtomicU64::new(0),
            met: AtomicU64::new(0),
            failed: AtomicU64::new(0),
        }
    }

    /// Whether another worker reached a piece, and the first one never gave up waiting.
    pub fn has_met(&self) -> bool {
        self.met.load(Ordering::SeqCst) == 1 && self.failed.load(Ordering::SeqCst) == 0
    }
}

impl Gate for Meeting {
    fn reach(&self, worker: usize, piece: u64) {
        let me = (worker as u64).wrapping_add(1);
        if piece != 0 {
            if self.first.load(Ordering::SeqCst) != me {
                self.met.store(1, Ordering::SeqCst);
            }
            return;
        }
        if self.first.swap(me, Ordering::SeqCst) != 0 {
            return;
        }
        if !wait_for(&self.met, 1) {
            self.failed.store(1, Ordering::SeqCst);
        }
    }
}
