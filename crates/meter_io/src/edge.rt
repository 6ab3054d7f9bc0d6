//! The edge to the standard library's streams: each call is passed on, and each error is counted. The last error is
//! kept, so that a program can tell what the system said.

ghost use Rattle.std.specs.Prelude.{◌≡◌, ◌<◌, ℕ, length, IfOk, OnOk, OnErr, None, IsSome};
ghost use Rattle.std.specs.Io.{ReadsAtMost, WritesAtMost};
ghost use Rattle.std.specs.Io.KnownBytes.{ReadConsumes, WriteAppends};
ghost use Rattle.meter_io.specs.Causes.{HasCause, CountsCall};
ghost use Rattle.meter_io.specs.Edge.{Counted};

use crate::fault::count_fault;
use crate::{Failed, Sink, Source};
use std::io::{Error, ErrorKind, Read, Write};
use std::marker::Model;

/// A reader of the standard library as a source. It tells the bytes left where the reader tells them; standard input
/// and files do not.
#[derive(Drop)]
pub struct StdSource<R: Read + Drop> {
    inner: R,
    faults: u64,
    last: Option<Error>,
}

impl<R: Read + Drop> Model for StdSource<R> {
    ghost Value = { Counted R };

    ghost view = { λ s. record { stream = s.inner; faults = s.faults; last = s.last } };
}

impl<R: Read + Drop> StdSource<R> {
    /// A source that reads from `inner`, and counts its errors.
    pub fn new(inner: R) -> StdSource<R>
        ensures { result ≡ record { stream = inner; faults = 0; last = None } }
    {
        StdSource {
            inner,
            faults: 0,
            last: None,
        }
    }

    /// The error of the last read that failed, as the system gave it; `None` where none did.
    pub fn last_error(&self) -> Option<Error>
        ensures { result ≡ self.now.last }
    {
        self.last
    }
}

impl<R: Read + Drop> Source for StdSource<R> {
    ghost left = { λ s. R.remaining s.stream };

    ghost faults = { λ s. s.faults };

    fn read(&mut self, buf: &mut [u8]) -> Result<usize, Failed>
        requires { 0 < length buf.old }
        ensures bound { ReadsAtMost result buf.new }
        ensures bytes { ReadConsumes (R.remaining self.old.stream) (R.remaining self.new.stream) result buf.new }
        ensures cause { HasCause self.old.faults self.new.faults result }
        ensures counted { CountsCall self.old.faults self.new.faults result }
        ensures told { OnErr result (IsSome self.new.last) }
        ensures untold { OnOk result (self.new.last ≡ self.old.last) }
    {
        match self.inner.read(buf) {
            Ok(count) => Ok(count),
            Err(error) => {
                self.last = Some(error);
                Err(count_fault(&mut self.faults))
            }
        }
    }
}

/// A writer of the standard library as a sink. It tells the bytes held where the writer tells them; standard output and
/// files do not. A write that takes nothing is a fault.
#[derive(Drop)]
pub struct StdSink<W: Write + Drop> {
    inner: W,
    faults: u64,
    last: Option<Error>,
}

impl<W: Write + Drop> Model for StdSink<W> {
    ghost Value = { Counted W };

    ghost view = { λ s. record { stream = s.inner; faults = s.faults; last = s.last } };
}

impl<W: Write + Drop> StdSink<W> {
    /// A sink that writes to `inner`, and counts its errors.
    pub fn new(inner: W) -> StdSink<W>
        ensures { result ≡ record { stream = inner; faults = 0; last = None } }
    {
        StdSink {
            inner,
            faults: 0,
            last: None,
        }
    }

    /// The error of the last write that failed, as the system gave it, or `WriteZero` where the write took nothing;
    /// `None` where no write failed.
    pub fn last_error(&self) -> Option<Error>
        ensures { result ≡ self.now.last }
    {
        self.last
    }
}

impl<W: Write + Drop> Sink for StdSink<W> {
    ghost held = { λ s. W.contents s.stream };

    ghost faults = { λ s. s.faults };

    fn write(&mut self, piece: &[u8]) -> Result<usize, Failed>
        requires { 0 < length piece.now }
        ensures bound { WritesAtMost result piece.now }
        ensures some { IfOk result (λ count. 0 < count) }
        ensures bytes { WriteAppends (W.contents self.old.stream) (W.contents self.new.stream) result piece.now }
        ensures cause { HasCause self.old.faults self.new.faults result }
        ensures counted { CountsCall self.old.faults self.new.faults result }
        ensures told { OnErr result (IsSome self.new.last) }
        ensures untold { OnOk result (self.new.last ≡ self.old.last) }
    {
        let error = match self.inner.write(piece) {
            Ok(0) => Error::from(ErrorKind::WriteZero),
            Ok(count) => return Ok(count),
            Err(error) => error,
        };
        self.last = Some(error);
        Err(count_fault(&mut self.faults))
    }
}
