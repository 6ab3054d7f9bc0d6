//! A source that keeps the first bytes that it gave.

ghost use Rattle.std.specs.Prelude.{◌≡◌, ◌<◌, ◌≤◌, ◌++◌, [], length, take, IfOk, OnErr};
ghost use Rattle.std.specs.Io.{ReadsAtMost};
ghost use Rattle.std.specs.Io.KnownBytes.{ReadConsumes};
ghost use Rattle.meter_io.specs.Causes.{HasCause};
ghost use Rattle.meter_io.specs.Edge.{Kept};

use crate::{Failed, Source};
use arrayvec::ArrayVec;
use std::marker::Model;

/// How many bytes are kept.
const KEPT: usize = 16;

/// A source that gives what `inner` gives, and keeps the first 16 bytes of it, so that a program can tell what an input
/// is that it refused.
#[derive(Drop)]
pub struct FirstBytes<S: Source + Drop> {
    inner: S,
    first: ArrayVec<u8, KEPT>,
}

impl<S: Source + Drop> Model for FirstBytes<S> {
    ghost Value = { Kept S };

    ghost view = { λ s. record { inner = s.inner; first = s.first.items } };
}

impl<S: Source + Drop> FirstBytes<S> {
    /// A source that gives what `inner` gives. It has given nothing yet.
    pub fn new(inner: S) -> FirstBytes<S>
        ensures { result ≡ record { inner = inner; first = [] } }
    {
        FirstBytes {
            inner,
            first: ArrayVec::new(),
        }
    }

    /// The first 16 bytes that were given, or all of them where there were fewer.
    pub fn first(&self) -> &[u8]
        ensures bytes { result.now ≡ self.now.first }
        ensures few { length result.now ≤ 16 }
    {
        self.first.as_slice()
    }

    /// The source itself.
    pub fn inner(&self) -> &S
        ensures { result.now ≡ self.now.inner }
    {
        &self.inner
    }
}

/// Appends bytes that were given, as far as there is room.
fn keep(first: &mut ArrayVec<u8, KEPT>, given: &[u8])
    ensures { first.new.items ≡ take 16 (first.old.items ++ given.now) }
{
    let room = first.remaining_capacity();
    let count = room.min(given.len());
    first.try_extend_from_slice(&given[..count]).unwrap();
}

impl<S: Source + Drop> Source for FirstBytes<S> {
    ghost left = { λ s. S.left s.inner };

    ghost faults = { λ s. S.faults s.inner };

    fn read(&mut self, buf: &mut [u8]) -> Result<usize, Failed>
        requires { 0 < length buf.old }
        ensures bound { ReadsAtMost result buf.new }
        ensures bytes { ReadConsumes (S.left self.old.inner) (S.left self.new.inner) result buf.new }
        ensures cause { HasCause (S.faults self.old.inner) (S.faults self.new.inner) result }
        ensures kept { IfOk result (λ count. self.new.first ≡ take 16 (self.old.first ++ take count buf.new)) }
        ensures as_before { OnErr result (self.new.first ≡ self.old.first) }
    {
        let count = self.inner.read(buf)?;
        keep(&mut self.first, &buf[..count]);
        Ok(count)
    }
}
