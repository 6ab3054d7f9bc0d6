//! A reader and workers that wait for each other, so both meter.

use super::same::check_same;
use capture_maker::capture;
use meter_workers::Gate;
use std::sync::atomic::{AtomicU64, Ordering};
use std::test::Fail;
use trial_samples::wait_for;

/// A gate that holds all but one at a batch until that one has reached a batch.
#[derive(Drop)]
struct Holding {
    awaited: usize,
    came: AtomicU64,
    failed: AtomicU64,
}

impl Holding {
    /// A gate that nobody has reached.
    fn new(awaited: usize) -> Holding {
        Holding {
            awaited,
            came: AtomicU64::new(0),
            failed: AtomicU64::new(0),
        }
    }
}

impl Gate for Holding {
    fn reach(&self, who: usize, _batch: u64) {
        if who == self.awaited {
            self.came.store(1, Ordering::SeqCst);
        }
        if !wait_for(&self.came, 1) {
            self.failed.store(1, Ordering::SeqCst);
        }
    }
}

/// Runs of captures of four batches and of seven: the packets, the command line, and who is awaited: the reader, whose
/// number is that of the workers, or the one worker.
static RUNS: [(u32, &str, usize); 3] = [
    (20_000, "pipe --workers 1 --queue 1 --batch 262184", 1),
    (20_000, "pipe --workers 1 --queue 1 --batch 262184", 0),
    (40_000, "pipe --workers 3 --queue 1 --batch 262184", 3),
];

#[test]
fn reader_and_workers_wait_for_each_other(rt: HostRuntime) -> Result<(), Fail> {
    let alloc = rt.alloc();
    for (packets, line, awaited) in RUNS {
        assert!(rt; packets <= 40_000);
        let input = capture(alloc, 1, packets, 64)?;
        let gate = Holding::new(awaited);
        check_same(&rt, line, &input, &gate)?;
        assert_eq!(rt; gate.failed.load(Ordering::SeqCst), 0, "{line}, {awaited}");
        assert_eq!(rt; gate.came.load(Ordering::SeqCst), 1, "{line}, {awaited}");
    }
    Ok(())
}
