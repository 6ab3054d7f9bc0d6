//! Sinks of bytes.

ghost use Rattle.std.specs.Prelude.{◌≡◌, ◌<◌, ◌≤◌, ◌↔◌, ◌⊎◌, List, [], ℕ, length, IfOk, IsErr, Contains, Some};
ghost use Rattle.std.specs.declared.option.Option.{Option};
ghost use Rattle.std.specs.Io.{WritesAtMost};
ghost use Rattle.std.specs.Io.KnownBytes.{WriteAppends};
ghost use Rattle.std.specs.Vec.{vec_capacity};
ghost use Rattle.meter_io.specs.Causes.{HasCause, CountsCall};
ghost use Rattle.meter_io.specs.Memory.{SinkState, next_call, taken_count};

use crate::fault::count_fault;
use crate::{Failed, NoMemory};
use std::alloc::Global;
use std::marker::Model;

/// Where bytes go.
pub trait Sink {
    /// The bytes taken so far, where the sink tells them.
    ghost held: { Self → Option (List ℕ) };

    /// How often a write has failed. It never falls.
    ghost faults: { Self → ℕ };

    /// Takes some bytes from the beginning of `piece`, which is not empty: at least one. Tells how many it took.
    ///
    /// `Failed` comes only where the count of faults rose in this call, and leaves the bytes held as they were.
    fn write(&mut self, piece: &[u8]) -> Result<usize, Failed>
        requires { 0 < length piece.now }
        ensures bound { WritesAtMost result piece.now }
        ensures some { IfOk result (λ count. 0 < count) }
        ensures bytes { WriteAppends (held self.old) (held self.new) result piece.now }
        ensures cause { HasCause (faults self.old) (faults self.new) result };
}

/// A sink in memory, for tests and for runs in memory.
///
/// A call takes at most `piece` bytes. The k-th call, counted from 1, fails where `fails` holds k, and every call fails
/// once `room` bytes are held. The count of faults is the number of failed calls.
#[derive(Drop)]
pub struct MemSink<'a> {
    held: Vec<u8>,
    room: usize,
    piece: usize,
    fails: &'a [u64],
    calls: u64,
    faults: u64,
}

impl<'a> Model for MemSink<'a> {
    ghost Value = { SinkState };

    ghost view = { λ s. record {
      held = s.held.items;
      room = s.room;
      piece = s.piece;
      fails = s.fails.now;
      calls = s.calls;
      faults = s.faults;
    } };

    ghost invariant = { λ s. (0 < s.piece) × (length s.held.items ≤ s.room) × (s.room ≤ vec_capacity s.held) };
}

impl<'a> MemSink<'a> {
    /// An empty sink with room for `room` bytes, all its memory taken here. A call takes at most `piece` bytes, with
    /// `piece` at least 1, and the calls numbered in `fails` fail.
    ///
    /// `NoMemory` where there is no memory for the room.
    pub fn open(
        alloc: Global,
        room: usize,
        piece: usize,
        fails: &'a [u64],
    ) -> Result<MemSink<'a>, NoMemory>
        requires { 0 < piece }
        ensures { IfOk result (λ sink. sink ≡ record {
          held = [];
          room = room;
          piece = piece;
          fails = fails.now;
          calls = 0;
          faults = 0;
        }) }
    {
        let held = Vec::with_capacity(alloc, room)?;
        Ok(MemSink {
            held,
            room,
            piece,
            fails,
            calls: 0,
            faults: 0,
        })
    }

    /// The bytes taken so far.
    pub fn held(&self) -> &[u8]
        ensures { result.now ≡ self.now.held }
    {
        self.held.as_slice()
    }
}

impl<'a> Sink for MemSink<'a> {
    ghost held = { λ s. Some s.held };

    ghost faults = { λ s. s.faults };

    fn write(&mut self, piece: &[u8]) -> Result<usize, Failed>
        requires { 0 < length piece.now }
        ensures bound { WritesAtMost result piece.now }
        ensures some { IfOk result (λ count. 0 < count) }
        ensures bytes { WriteAppends (Some self.old.held) (Some self.new.held) result piece.now }
        ensures cause { HasCause self.old.faults self.new.faults result }
        ensures counted { CountsCall self.old.faults self.new.faults result }
        ensures fails { IsErr result
            ↔ (Contains self.old.fails (next_call self.old.calls) ⊎ (length self.old.held ≡ self.old.room)) }
        ensures taken { IfOk result (λ count. count ≡ taken_count self.old (length piece.now)) }
        ensures calls { self.new.calls ≡ next_call self.old.calls }
        ensures settings { (self.new.room ≡ self.old.room) × (self.new.piece ≡ self.old.piece)
            × (self.new.fails ≡ self.old.fails) }
    {
        self.calls = self.calls.saturating_add(1);
        let call = self.calls;
        if self.fails.contains(&call) || self.held.len() == self.room {
            return Err(count_fault(&mut self.faults));
        }
        let count = self.piece.min(piece.len()).min(self.room - self.held.len());
        self.held.extend_from_slice(&piece[..count]).unwrap();
        Ok(count)
    }
}
