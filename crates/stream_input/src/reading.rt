//! Reading a stream through a window, message by message.

ghost use Rattle.std.specs.Prelude.{◌≡◌, ◌+◌, ◌<◌, ◌≤◌, ◌^◌, [], ◌++◌, List, ℕ, true, false, length, IfOk, IfErr, OnOk};
ghost use Rattle.std.specs.Prelude.{Ok};
ghost use Rattle.std.specs.Prelude.{IsErrOf};
ghost use Rattle.std.specs.Io.KnownBytes.{IsAtEnd};
ghost use Rattle.meter_io.specs.Causes.{Rose};
ghost use Rattle.meter_io.specs.Sides.{side, IsRead};
ghost use Rattle.ipfix_model.specs.declared.values.DataRecord.{DataRecord};
ghost use Rattle.ipfix_reader.specs.Messages.{decode};
ghost use Rattle.ipfix_reader.specs.Pieces.{HasRead};
ghost use Rattle.stream_input.specs.Failing.{ReadFails};
ghost use Rattle.stream_input.specs.Pieces.{HasReadOn, HasReadRest, StopsReading, EndFails};

use crate::error::StreamInputError;
use capture_input::{FillEnd, Window};
use ipfix_reader::{RecordTaker, StreamError, StreamWalk};
use meter_io::{Failed, Source};
use no_memory::NoMemory;
use std::alloc::Global;

/// The bytes of the window: it has room for four messages of the greatest length, 65,535 octets, and so always for a
/// whole one.
const WINDOW: usize = 262_184;

/// An empty window of 262,184 bytes, which streams are read through, one after the other. Its memory is taken here.
pub fn open_window(alloc: Global) -> Result<Window, NoMemory>
    ensures size { IfOk result (λ window. window.size ≡ 262184) }
{
    Window::open(alloc, WINDOW)
}

/// Reads on until the window is full or the source is at its end, and gives whether the source is at its end. `left` is
/// one more than the number of bytes that may still come, and falls by the number that came.
///
/// - `ReadFault`: only where a read failed, and the source counted it.
/// - `TooLarge`: exactly where `left` bytes came.
fn read_on<S: Source>(
    source: &mut S,
    window: &mut Window,
    left: &mut u64,
) -> Result<bool, StreamInputError>
    requires some { 0 < left.old }
    requires room { length window.old.bytes < window.old.size }
    ensures read { OnOk result (HasReadOn left.old left.new window.old.bytes window.new.bytes (S.left source.old)
        (S.left source.new)) }
    ensures size { window.new.size ≡ window.old.size }
    ensures ended { IfOk result (λ ended. ended ≡ true → IsAtEnd (S.left source.new)) }
    ensures more { IfOk result (λ ended. ended ≡ false → left.new < left.old) }
    ensures stopped { IfErr result (StopsReading left.old (S.left source.old) (S.left source.new)) }
    ensures cause { IsErrOf result StreamInputError.ReadFault → Rose (S.faults source.old) (S.faults source.new) }
    ensures later { S.faults source.old ≤ S.faults source.new }
{
    let had = window.bytes().len();
    match window.fill(source, *left) {
        Ok(FillEnd::Spent) => Err(StreamInputError::TooLarge),
        Ok(FillEnd::Full) => {
            *left -= (window.bytes().len() - had) as u64;
            Ok(false)
        }
        Ok(FillEnd::Ended) => {
            *left -= (window.bytes().len() - had) as u64;
            Ok(true)
        }
        Err(Failed) => Err(StreamInputError::ReadFault),
    }
}

/// Reads all that the source has left, fewer bytes than `most`, and drops it. What the window has is dropped too.
///
/// The errors are those of [`read_on`].
fn drop_rest<S: Source>(
    source: &mut S,
    window: &mut Window,
    most: u64,
) -> Result<(), StreamInputError>
    requires some { 0 < most }
    requires size { 0 < window.old.size }
    ensures size { window.new.size ≡ window.old.size }
    ensures rest { OnOk result (HasReadRest most (S.left source.old) (S.left source.new)) }
    ensures stopped { IfErr result (StopsReading most (S.left source.old) (S.left source.new)) }
    ensures cause { IsErrOf result StreamInputError.ReadFault → Rose (S.faults source.old) (S.faults source.new) }
    ensures later { S.faults source.old ≤ S.faults source.new }
{
    let mut left = most;
    'rest: loop {
        window.keep(window.bytes().len());
        match read_on(source, window, &mut left) {
            Ok(true) => return Ok(()),
            Ok(false) => {}
            Err(fault) => return Err(fault),
        }
    }
}

/// Reads the last bytes of a stream: what the window has at the end of the source.
fn read_end<T: RecordTaker>(
    alloc: Global,
    walk: &mut StreamWalk,
    bytes: &[u8],
    taker: &mut T,
) -> Result<(), StreamInputError>
    requires { walk.old.at + length bytes.now < 2 ^ 64 }
    ensures taken { OnOk result ((front : List ℕ) (before : List DataRecord) → HasRead front before walk.old
        → T.has_taken taker.old before → (after : List DataRecord) × T.has_taken taker.new after
        × (decode (front ++ bytes.now) ≡ Ok after)) }
    ensures wrong { IfErr result (λ error. (front : List ℕ) (before : List DataRecord) → HasRead front before walk.old
        → T.has_taken taker.old before → EndFails (front ++ bytes.now) error) }
    ensures read { IsErrOf result StreamInputError.ReadFault → ⊥ }
{
    match walk.read_last(alloc, bytes, taker) {
        Ok(()) => Ok(()),
        Err(StreamError::Fault(fault)) => Err(StreamInputError::NotStream(fault)),
        Err(StreamError::NoMemory) => Err(StreamInputError::NoMemory),
    }
}

/// Reads all that the source has left, as [`read_stream`] does, through an empty window and with a walk that has read
/// nothing yet.
fn read_through<S: Source, T: RecordTaker>(
    alloc: Global,
    source: &mut S,
    window: &mut Window,
    limit: u64,
    walk: &mut StreamWalk,
    taker: &mut T,
) -> Result<(), StreamInputError>
    requires limit { limit < 2 ^ 63 }
    requires window { window.old.bytes ≡ [] }
    requires size { window.old.size ≡ 262184 }
    requires walk { HasRead [] [] walk.old }
    ensures size { window.new.size ≡ 262184 }
    ensures taken { OnOk result (T.has_taken taker.old [] → (bytes : List ℕ)
        × IsRead (side S.left S.faults source.old source.new) limit bytes
        × ((records : List DataRecord) × T.has_taken taker.new records × (decode bytes ≡ Ok records))) }
    ensures wrong { IfErr result (λ error. T.has_taken taker.old []
        → ReadFails limit (side S.left S.faults source.old source.new) error) }
    ensures cause { IsErrOf result StreamInputError.ReadFault → Rose (S.faults source.old) (S.faults source.new) }
    ensures later { S.faults source.old ≤ S.faults source.new }
{
    let mut left = limit + 1;
    'pieces: loop {
        match read_on(source, window, &mut left) {
            Ok(true) => return read_end(alloc, walk, window.bytes(), taker),
            Ok(false) => {}
            Err(fault) => return Err(fault),
        }
        match walk.read_whole(alloc, window.bytes(), taker) {
            Ok(count) => window.keep(count),
            Err(StreamError::NoMemory) => return Err(StreamInputError::NoMemory),
            Err(StreamError::Fault(fault)) => match drop_rest(source, window, left) {
                Ok(()) => return Err(StreamInputError::NotStream(fault)),
                Err(fault) => return Err(fault),
            },
        }
    }
}

/// Reads all that the source has left, at most `limit` bytes, as a stream, message by message. The data records are
/// taken as they are read. What the window has at the call is dropped.
///
/// - `ReadFault`: only where a read failed, and the source counted it.
/// - `TooLarge`: exactly where more than `limit` bytes came.
/// - `NotStream`: the stream has this fault. The rest of the source was read and dropped.
/// - `NoMemory`: out of memory.
pub fn read_stream<S: Source, T: RecordTaker>(
    alloc: Global,
    source: &mut S,
    window: &mut Window,
    limit: u64,
    taker: &mut T,
) -> Result<(), StreamInputError>
    requires limit { limit < 2 ^ 63 }
    requires size { window.old.size ≡ 262184 }
    ensures size { window.new.size ≡ 262184 }
    ensures taken { OnOk result (T.has_taken taker.old [] → (bytes : List ℕ)
        × IsRead (side S.left S.faults source.old source.new) limit bytes
        × ((records : List DataRecord) × T.has_taken taker.new records × (decode bytes ≡ Ok records))) }
    ensures wrong { IfErr result (λ error. T.has_taken taker.old []
        → ReadFails limit (side S.left S.faults source.old source.new) error) }
    ensures cause { IsErrOf result StreamInputError.ReadFault → Rose (S.faults source.old) (S.faults source.new) }
    ensures later { S.faults source.old ≤ S.faults source.new }
{
    window.keep(window.bytes().len());
    let mut walk = StreamWalk::new(alloc);
    read_through(alloc, source, window, limit, &mut walk, taker)
}
