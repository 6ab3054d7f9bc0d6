//! How a thread waits for another one in a test.

use std::sync::atomic::{AtomicU64, Ordering};
use std::thread::yield_now;

/// How often a thread looks before it gives up.
const TURNS: u64 = 50_000_000;

/// Looks at this word until it has the number, and lets other threads run between two looks, so that a busy machine is
/// no reason to give up: `false` where 50,000,000 looks were in vain.
pub fn wait_for(word: &AtomicU64, number: u64) -> bool {
    for _turn in 0..TURNS {
        if word.load(Ordering::SeqCst) == number {
            return true;
        }
        yield_now();
    }
    false
}
