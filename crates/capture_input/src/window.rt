//! A window on a source: bytes that are read in turn, of which the last ones can be kept.

ghost use Rattle.std.specs.Prelude.{◌≡◌, ◌+◌, ◌-◌, ◌<◌, ◌≤◌, ◌^◌, [], length, drop, take, IfOk, OnErr};
ghost use Rattle.std.specs.Io.KnownBytes.{Consumes, Keeps, IsAtEnd};
ghost use Rattle.meter_io.specs.Causes.{HasCause};
ghost use Rattle.capture_input.specs.Filling.{WindowState, IsFilled, window_in};

use crate::fill_end::FillEnd;
use meter_io::{Failed, Source};
use no_memory::NoMemory;
use std::alloc::Global;
use std::marker::Model;

/// Some bytes of a source, in memory that is taken once. Contracts see the bytes that it has, and its size, the most
/// that it can have.
#[derive(Drop)]
pub struct Window {
    buffer: Vec<u8>,
    end: usize,
}

impl Model for Window {
    ghost Value = { WindowState };

    ghost view = { λ w. window_in w.buffer.items w.end };

    ghost invariant = { λ w. w.end ≤ length w.buffer.items };
}

/// Reads once behind the first `end` bytes of a buffer, as many bytes as fit, and at most `most`.
fn read_behind<S: Source>(
    source: &mut S,
    buffer: &mut [u8],
    end: usize,
    most: u64,
) -> Result<usize, Failed>
    requires some { (0 < most) × (end < length buffer.old) }
    ensures same { (length buffer.new ≡ length buffer.old) × (take end buffer.new ≡ take end buffer.old) }
    ensures count { IfOk result (λ n. (n ≤ most) × (end + n ≤ length buffer.new)) }
    ensures bytes { IfOk result (λ n. Consumes (S.left source.old) (S.left source.new) (take n (drop end buffer.new))) }
    ensures ended { IfOk result (λ n. n ≡ 0 → IsAtEnd (S.left source.new)) }
    ensures kept { OnErr result (Keeps (S.left source.old) (S.left source.new)) }
    ensures cause { HasCause (S.faults source.old) (S.faults source.new) result }
{
    let room = buffer.len() - end;
    let want = if most < room as u64 {
        most as usize
    } else {
        room
    };
    source.read(&mut buffer[end..end + want])
}

/// Fills a buffer from the place `end` on. `end` moves to behind what was read.
fn fill_behind<S: Source>(
    source: &mut S,
    buffer: &mut [u8],
    end: &mut usize,
    most: u64,
) -> Result<FillEnd, Failed>
    requires within { end.old ≤ length buffer.old }
    ensures within { end.new ≤ length buffer.new }
    ensures filled { IsFilled most (window_in buffer.old end.old) (window_in buffer.new end.new) (S.left source.old)
        (S.left source.new) result }
    ensures cause { HasCause (S.faults source.old) (S.faults source.new) result }
{
    let mut taken: u64 = 0;
    loop {
        if taken == most {
            return Ok(FillEnd::Spent);
        }
        if *end == buffer.len() {
            return Ok(FillEnd::Full);
        }
        let count = read_behind(source, buffer, *end, most - taken)?;
        if count == 0 {
            return Ok(FillEnd::Ended);
        }
        *end += count;
        taken += count as u64;
    }
}

/// Puts bytes into the front of a buffer.
fn put_in_front(buffer: &mut [u8], bytes: &[u8])
    requires room { length bytes.now ≤ length buffer.old }
    ensures same { length buffer.new ≡ length buffer.old }
    ensures front { take (length bytes.now) buffer.new ≡ bytes.now }
{
    let (front, _) = buffer.split_at_mut(bytes.len());
    front.copy_from_slice(bytes);
}

impl Window {
    /// An empty window of `size` bytes, 262,184 to 2^27, whose memory is taken here: so a full window has room for a
    /// file header and a whole record.
    pub fn open(alloc: Global, size: usize) -> Result<Window, NoMemory>
        requires size { (262184 ≤ size) × (size ≤ 2 ^ 27) }
        ensures { IfOk result (λ window. window ≡ record { bytes = []; size = size }) }
    {
        let buffer = vec![in alloc; 0u8; size]?;
        Ok(Window { buffer, end: 0 })
    }

    /// A window in memory that was taken before, 262,184 to 2^27 bytes, with these bytes at its front. Takes no memory.
    pub fn over(mut buffer: Vec<u8>, bytes: &[u8]) -> Window
        requires size { (262184 ≤ length buffer.items) × (length buffer.items ≤ 2 ^ 27) }
        requires room { length bytes.now ≤ length buffer.items }
        ensures { result ≡ record { bytes = bytes.now; size = length buffer.items } }
    {
        put_in_front(buffer.as_mut_slice(), bytes);
        Window {
            buffer,
            end: bytes.len(),
        }
    }

    /// Gives its memory back, cut down to the bytes before the place `end`.
    pub fn into_front(self, end: usize) -> Vec<u8>
        requires { end ≤ length self.bytes }
        ensures { result.items ≡ take end self.bytes }
    {
        let mut buffer = self.buffer;
        buffer.truncate(end);
        buffer
    }

    /// Appends bytes of the source, until `most` were taken (`Spent`), the window is full (`Full`), or the source is at
    /// its end (`Ended`), checked in this order. Each read asks for all that is still wanted.
    ///
    /// `Failed` comes only where the source's count of faults rose. The bytes taken before stay in the window.
    pub fn fill<S: Source>(&mut self, source: &mut S, most: u64) -> Result<FillEnd, Failed>
        ensures filled { IsFilled most self.old self.new (S.left source.old) (S.left source.new) result }
        ensures cause { HasCause (S.faults source.old) (S.faults source.new) result }
    {
        fill_behind(source, self.buffer.as_mut_slice(), &mut self.end, most)
    }

    /// The bytes that it has.
    pub fn bytes(&self) -> &[u8]
        ensures { result.now ≡ self.now.bytes }
    {
        &self.buffer[..self.end]
    }

    /// Drops the bytes before the place `from`; those behind it move to the front.
    pub fn keep(&mut self, from: usize)
        requires { from ≤ length self.old.bytes }
        ensures { self.new ≡ record { bytes = drop from self.old.bytes; size = self.old.size } }
    {
        self.buffer.copy_within(from..self.end, 0);
        self.end -= from;
    }
}
