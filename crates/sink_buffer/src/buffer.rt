//! The buffer.

ghost use Rattle.std.specs.Prelude.{◌≡◌, ◌+◌, ◌≤◌, ◌++◌, [], ℕ, List, IsTrue, ◌↔◌, IfOk, OnOk, OnErr, length, take};
ghost use Rattle.std.specs.Io.KnownBytes.{Appends};
ghost use Rattle.meter_io.specs.Causes.{HasCause};
ghost use Rattle.sink_buffer.specs.Passing.{IsPassed};

use meter_io::{Failed, Sink, write_all};
use no_memory::NoMemory;
use std::alloc::Global;
use std::marker::Model;

/// The most bytes that a buffer holds: 256 KiB.
const ROOM: usize = 262_144;

/// A buffer of bytes that wait for a sink, at most 262,144. Contracts see it as the list of these bytes.
#[derive(Drop)]
pub struct SinkBuffer {
    held: Vec<u8>,
}

impl Model for SinkBuffer {
    ghost use Rattle.std.specs.Prelude.{◌≤◌, ℕ, List, length};
    ghost use Rattle.std.specs.Vec.{vec_capacity};

    ghost Value = { List ℕ };

    ghost view = { λ b. b.held.items };

    ghost invariant = { λ b. (length b.held.items ≤ 262144) × (262144 ≤ vec_capacity b.held) };
}

impl SinkBuffer {
    /// An empty buffer. All its memory is taken here.
    ///
    /// `NoMemory` where there is no memory for it.
    pub fn open(alloc: Global) -> Result<SinkBuffer, NoMemory>
        ensures { IfOk result (λ buffer. buffer ≡ []) }
    {
        let held = Vec::with_capacity(alloc, ROOM)?;
        Ok(SinkBuffer { held })
    }

    /// Whether a piece of this length fits behind what is held.
    fn has_room(&self, size: usize) -> bool
        requires { size ≤ 262144 }
        ensures { IsTrue result ↔ (length self.now + size ≤ 262144) }
    {
        self.held.len() + size <= ROOM
    }

    /// Appends a piece to what is held.
    fn hold(&mut self, piece: &[u8])
        requires { length self.old + length piece.now ≤ 262144 }
        ensures { self.new ≡ self.old ++ piece.now }
    {
        self.held.extend_from_slice(piece).unwrap();
    }

    /// Puts a piece of at most 262,144 bytes behind what is held. Where it doesn't fit there, what is held is first
    /// written to the sink. A piece is always held whole.
    ///
    /// `Failed` comes only where the sink's count of faults rose. The sink then took a beginning of what was held with
    /// the piece behind it, and the buffer still holds what it held, without the piece.
    pub fn put<K: Sink>(&mut self, sink: &mut K, piece: &[u8]) -> Result<(), Failed>
        requires { length piece.now ≤ 262144 }
        ensures passed { OnOk result (IsPassed (K.held sink.old) (K.held sink.new) self.old self.new piece.now) }
        ensures cut { OnErr result ((left : List ℕ)
            × IsPassed (K.held sink.old) (K.held sink.new) self.old left piece.now) }
        ensures kept { OnErr result (self.new ≡ self.old) }
        ensures cause { HasCause (K.faults sink.old) (K.faults sink.new) result }
    {
        if self.has_room(piece.len()) {
            self.hold(piece);
            return Ok(());
        }
        match self.write_out(sink) {
            Ok(()) => {
                self.hold(piece);
                Ok(())
            }
            Err(Failed) => Err(Failed),
        }
    }

    /// Writes what is held to the sink, after which nothing is held.
    ///
    /// `Failed` comes only where the sink's count of faults rose. The sink then took a beginning of what is held, and
    /// all of it is still held.
    pub fn write_out<K: Sink>(&mut self, sink: &mut K) -> Result<(), Failed>
        ensures whole { OnOk result (Appends (K.held sink.old) (K.held sink.new) self.old) }
        ensures empty { OnOk result (self.new ≡ []) }
        ensures prefix { OnErr result ((count : ℕ) × Appends (K.held sink.old) (K.held sink.new)
            (take count self.old)) }
        ensures kept { OnErr result (self.new ≡ self.old) }
        ensures cause { HasCause (K.faults sink.old) (K.faults sink.new) result }
    {
        match write_all(sink, self.held.as_slice()) {
            Ok(()) => {
                self.held.clear();
                Ok(())
            }
            Err(Failed) => Err(Failed),
        }
    }
}
