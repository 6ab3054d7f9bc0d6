//! Gates that see when a window is metered, and that workers run at once.

ghost use Rattle.std.specs.Prelude.{◌≡◌, ◌<◌, length, IfOk, Some};
ghost use Rattle.std.specs.Io.{ReadsAtMost};
ghost use Rattle.std.specs.Io.KnownBytes.{ReadConsumes};
ghost use Rattle.meter_io.specs.Causes.{HasCause};

use super::{ONE, SMALL, Setting, meter_source};
use crate::Meeting;
use capture_maker::capture;
use meter_io::{Failed, MemSource, Source};
use meter_workers::Gate;
use std::sync::atomic::{AtomicU64, Ordering};
use std::test::Fail;

/// A gate that sets a flag when a worker reaches it.
#[derive(Drop)]
struct Telling<'a> {
    reached: &'a AtomicU64,
}

impl<'a> Gate for Telling<'a> {
    fn reach(&self, _worker: usize, _piece: u64) {
        self.reached.store(1, Ordering::SeqCst);
    }
}

/// A source that sees whether more than the first window is read before a worker reached the gate.
#[derive(Drop)]
struct Watched<'a> {
    inner: MemSource<'a>,
    given: usize,
    reached: &'a AtomicU64,
    early: &'a AtomicU64,
}

impl<'a> Source for Watched<'a> {
    ghost left = { λ s. Some s.inner.left };

    ghost faults = { λ s. s.inner.faults };

    fn read(&mut self, buf: &mut [u8]) -> Result<usize, Failed>
        requires { 0 < length buf.old }
        ensures bound { ReadsAtMost result buf.new }
        ensures bytes { ReadConsumes (Some self.old.inner.left) (Some self.new.inner.left) result buf.new }
        ensures cause { HasCause self.old.inner.faults self.new.inner.faults result }
    {
        if self.given >= SMALL && self.reached.load(Ordering::SeqCst) == 0 {
            self.early.store(1, Ordering::SeqCst);
        }
        let count = self.inner.read(buf)?;
        self.given = self.given.saturating_add(count);
        Ok(count)
    }
}

#[test]
fn one_worker_meters_a_window_before_the_next_is_read(rt: HostRuntime) -> Result<(), Fail> {
    let alloc = rt.alloc();
    let bytes = capture(alloc, 1, 20_000, 64)?;
    let reached = AtomicU64::new(0);
    let early = AtomicU64::new(0);
    let gate = Telling { reached: &reached };
    let mut source = Watched {
        inner: MemSource::new(&bytes, bytes.len().max(1), &[]),
        given: 0,
        reached: &reached,
        early: &early,
    };
    let done = meter_source(&rt, alloc, &mut source, ONE, &gate)?;
    assert_eq!(rt; done.ok().ok_or("records")?.tally.captured, 20_000);
    assert_eq!(rt; reached.load(Ordering::SeqCst), 1);
    assert_eq!(rt; early.load(Ordering::SeqCst), 0);
    Ok(())
}

#[test]
fn two_workers_are_at_a_piece_at_once(rt: HostRuntime) -> Result<(), Fail> {
    let alloc = rt.alloc();
    let bytes = capture(alloc, 1, 2000, 64)?;
    let gate = Meeting::new();
    let mut source = MemSource::new(&bytes, bytes.len().max(1), &[]);
    let pieces = Setting {
        seats: 2,
        piece: 100,
        ..ONE
    };
    let done = meter_source(&rt, alloc, &mut source, pieces, &gate)?;
    assert_eq!(rt; done.ok().ok_or("records")?.tally.accepted, 2000);
    assert!(rt; gate.has_met());
    Ok(())
}
