//! Sources of bytes.

ghost use Rattle.std.specs.Prelude.{◌≡◌, ◌<◌, ◌↔◌, List, ℕ, length, IfOk, IsErr, Contains, Some};
ghost use Rattle.std.specs.declared.option.Option.{Option};
ghost use Rattle.std.specs.Io.{ReadsAtMost};
ghost use Rattle.std.specs.Io.KnownBytes.{ReadConsumes};
ghost use Rattle.meter_io.specs.Causes.{HasCause, CountsCall};
ghost use Rattle.meter_io.specs.Memory.{SourceState, next_call, given_count};

use crate::Failed;
use crate::fault::count_fault;
use std::marker::Model;

/// Where bytes come from.
pub trait Source {
    /// The bytes that are not read yet, where the source tells them.
    ghost left: { Self → Option (List ℕ) };

    /// How often a read has failed. It never falls.
    ghost faults: { Self → ℕ };

    /// Reads some bytes into the beginning of `buf`, which is not empty, and tells how many.
    ///
    /// `Ok(0)` means the end of the input. `Failed` comes only where the count of faults rose in this call, and leaves
    /// the bytes that are left as they were.
    fn read(&mut self, buf: &mut [u8]) -> Result<usize, Failed>
        requires { 0 < length buf.old }
        ensures bound { ReadsAtMost result buf.new }
        ensures bytes { ReadConsumes (left self.old) (left self.new) result buf.new }
        ensures cause { HasCause (faults self.old) (faults self.new) result };
}

/// Bytes in memory as a source, for tests and for runs in memory.
///
/// A call gives at most `piece` bytes. The k-th call, counted from 1, fails where `fails` holds k. The count of faults
/// is the number of failed calls.
#[derive(Drop)]
pub struct MemSource<'a> {
    bytes: &'a [u8],
    piece: usize,
    fails: &'a [u64],
    calls: u64,
    faults: u64,
}

impl<'a> Model for MemSource<'a> {
    ghost Value = { SourceState };

    ghost view = { λ s. record {
      left = s.bytes.now;
      piece = s.piece;
      fails = s.fails.now;
      calls = s.calls;
      faults =
          s.faults;
    } };

    ghost invariant = { λ s. 0 < s.piece };
}

impl<'a> MemSource<'a> {
    /// A source of `bytes` that gives at most `piece` of them a call, with `piece` at least 1. The calls numbered in
    /// `fails` fail.
    pub fn new(bytes: &'a [u8], piece: usize, fails: &'a [u64]) -> MemSource<'a>
        requires { 0 < piece }
        ensures { result ≡ record { left = bytes.now; piece = piece; fails = fails.now; calls = 0; faults = 0 } }
    {
        MemSource {
            bytes,
            piece,
            fails,
            calls: 0,
            faults: 0,
        }
    }
}

impl<'a> Source for MemSource<'a> {
    ghost left = { λ s. Some s.left };

    ghost faults = { λ s. s.faults };

    fn read(&mut self, buf: &mut [u8]) -> Result<usize, Failed>
        requires { 0 < length buf.old }
        ensures bound { ReadsAtMost result buf.new }
        ensures bytes { ReadConsumes (Some self.old.left) (Some self.new.left) result buf.new }
        ensures cause { HasCause self.old.faults self.new.faults result }
        ensures counted { CountsCall self.old.faults self.new.faults result }
        ensures fails { IsErr result ↔ Contains self.old.fails (next_call self.old.calls) }
        ensures given { IfOk result (λ count. count ≡ given_count self.old (length buf.old)) }
        ensures calls { self.new.calls ≡ next_call self.old.calls }
        ensures settings { (self.new.piece ≡ self.old.piece) × (self.new.fails ≡ self.old.fails) }
    {
        self.calls = self.calls.saturating_add(1);
        let call = self.calls;
        if self.fails.contains(&call) {
            return Err(count_fault(&mut self.faults));
        }
        let count = self.piece.min(buf.len()).min(self.bytes.len());
        let (first, rest) = self.bytes.split_at(count);
        buf[..count].copy_from_slice(first);
        self.bytes = rest;
        Ok(count)
    }
}
