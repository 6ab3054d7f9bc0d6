//! Work on the items of a slice, by threads.

ghost use Rattle.std.specs.Prelude.{◌<◌};

use side_by_side::{for_each_beside, for_each_mut};
use std::sync::atomic::{AtomicU64, Ordering};
use std::test::Fail;
use std::thread::Threads;
use trial_samples::wait_for;

/// Three items that are each ten times their place, once as many threads have worked on them.
fn worked(rt: &(impl Threads + Sync), threads: usize) -> [usize; 3]
    requires { 0 < threads }
{
    let mut items = [0; 3];
    for_each_mut(
        rt,
        items.as_mut_slice(),
        threads,
        &|place, item: &mut usize| { *item = place.saturating_mul(10) },
    );
    items
}

#[test]
fn each_item_is_worked_on_at_its_place(rt: HostRuntime) {
    for threads in 1..6 {
        assert_eq!(rt; worked(&rt, threads), [0, 10, 20], "{threads} threads");
    }
}

#[test]
fn no_item_is_no_work(rt: HostRuntime) {
    let mut items: [u64; 0] = [];
    for_each_mut(
        &rt,
        items.as_mut_slice(),
        4,
        &|_, item: &mut u64| { *item = 1 },
    );
    let mut beside = || 7;
    assert_eq!(rt;
        for_each_beside(
            &rt,
            items.as_mut_slice(),
            &|_, item: &mut u64| { *item = 1 },
            &mut beside
        ),
        7
    );
}

/// Three items wait for what runs beside them, and that waits for them: so all four are under way at once.
#[test]
fn work_goes_on_beside_the_items(rt: HostRuntime) -> Result<(), Fail> {
    let here = AtomicU64::new(0);
    let begun = AtomicU64::new(0);
    let mut items = [false; 3];
    let mut beside = || {
        begun.store(1, Ordering::SeqCst);
        wait_for(&here, 3)
    };
    let all_came = for_each_beside(
        &rt,
        items.as_mut_slice(),
        &|_, item: &mut bool| {
            let _before = here.fetch_add(1, Ordering::SeqCst);
            *item = wait_for(&begun, 1);
        },
        &mut beside,
    );
    assert!(rt; all_came);
    assert_eq!(rt; items, [true; 3]);
    Ok(())
}
