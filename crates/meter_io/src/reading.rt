//! Reading a source to its end.

ghost use Rattle.std.specs.Prelude.{◌≡◌, ◌+◌, ◌≤◌, ◌⊎◌, length, IfOk, IsErrOf};
ghost use Rattle.std.specs.Io.KnownBytes.{Consumes, IsAtEnd};
ghost use Rattle.meter_io.specs.Causes.{Rose};
ghost use Rattle.meter_io.specs.Reading.{Takes, TakesAtMost};

use crate::{Failed, Source};
use std::alloc::Global;

/// Why an input was not read whole.
#[derive(Clone, Copy, Debug, PartialEq, Eq)]
pub enum ReadError {
    /// A read failed, and the source counted it.
    Failed,
    /// More bytes came than the limit allows.
    TooLarge,
    /// Out of memory.
    NoMemory,
}

/// How many bytes one read asks for at most.
const CHUNK: usize = 65_536;

/// Reads all bytes that the source has left, where they are at most `limit`.
///
/// - `Failed`: only where the source's count of faults rose, after at most `limit` bytes were taken.
/// - `TooLarge`: exactly where more than `limit` bytes came, unless memory ran out first; `limit + 1` were taken.
/// - `NoMemory`: out of memory, after at most `limit + 1` bytes were taken.
pub fn read_all<S: Source>(alloc: Global, source: &mut S, limit: u64) -> Result<Vec<u8>, ReadError>
    ensures all { IfOk result (λ bytes. Consumes (S.left source.old) (S.left source.new) bytes.items
        × IsAtEnd (S.left source.new)) }
    ensures within { IfOk result (λ bytes. length bytes.items ≤ limit) }
    ensures failed { IsErrOf result ReadError.Failed → Rose (S.faults source.old) (S.faults source.new) }
    ensures failed_within { IsErrOf result ReadError.Failed
        → TakesAtMost limit (S.left source.old) (S.left source.new) }
    ensures large { IsErrOf result ReadError.TooLarge → Takes (limit + 1) (S.left source.old) (S.left source.new) }
    ensures memory_within { IsErrOf result ReadError.NoMemory
        → TakesAtMost (limit + 1) (S.left source.old) (S.left source.new) }
    ensures quiet { IsErrOf result ReadError.Failed ⊎ (S.faults source.new ≡ S.faults source.old) }
    ensures later { S.faults source.old ≤ S.faults source.new }
{
    let mut all: Vec<u8> = Vec::new(alloc);
    let mut chunk = [0u8; CHUNK];
    loop {
        let room = limit - all.len() as u64;
        let want = if room < CHUNK as u64 {
            room as usize + 1
        } else {
            CHUNK
        };
        let count = match source.read(&mut chunk[..want]) {
            Ok(count) => count,
            Err(Failed) => return Err(ReadError::Failed),
        };
        if count == 0 {
            return Ok(all);
        }
        if all.extend_from_slice(&chunk[..count]).is_err() {
            return Err(ReadError::NoMemory);
        }
        if all.len() as u64 > limit {
            return Err(ReadError::TooLarge);
        }
    }
}
